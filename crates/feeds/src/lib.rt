// A dossier that comes in parts: what is kept between two parts, as numbers that the caller lends, and in specs/ what each byte changes in it.
#![tactic(auto)]

ghost use Rattle.std.specs.Prelude.{◌≡◌, true, ◌<◌, ◌≤◌, length, drop, get_or};
ghost use Rattle.lists.specs.Part.{part, over};
ghost use Rattle.columns.specs.declared.Table.TheVariants.{Message};
ghost use Rattle.columns.specs.Tables.{form_of};
ghost use Rattle.reader_step.specs.Place.{is_known, is_under};
ghost use Rattle.feeds.specs.Kept.{kind_number, machine_number, kind_at, state_at, machine_at, kept_of, lines_of, feed_of, lines_may, feed_may, zeros, new_feed, begun_by, read_of};
ghost use Rattle.feeds.specs.inner.Numbers.{numbers_may, lines_read, feed_read, read_fitting};

use columns::Table;
use reader_step::Place;
use syntax::{Kind, State};

// What is kept of the bytes so far. `form` is any number; that it is unknown is answered at the end. `at`: how many they are, one more than the largest dossier standing for any more. `fault`: the first byte at fault, counted from 1;
// `long`: the first line that is too long; 0 for none. `size`: the bytes of the unfinished line, its CR too. `staged`: how many rows lie in the staging area.
// kept: the C interface: 0 for none is what is lent between two parts (`kept_of`, `feed_of`).
#[derive(Clone, Copy)]
pub struct Feed {
    pub sender: u8,
    pub form: u32,
    pub at: usize,
    pub machine: syntax::State,
    pub fault: usize,
    pub size: usize,
    pub long: usize,
    pub staged: usize,
    pub lines: reader_step::State,
}

// ---- the machine as a number
// kept: the C interface: the numbers are those that it lends, and an impl of From would stand with the types in `syntax`, which knows none of them.

fn kind_number(kind: Kind) -> u64
    ensures is { result ≡ kind_number kind }
    ensures few { result < 4 }
{
    match kind {
        Kind::Nothing => 0,
        Kind::Group => 1,
        Kind::Table => 2,
        Kind::Rows => 3,
    }
}

fn machine_number(state: State) -> u64
    ensures { result ≡ machine_number state }
{
    match state {
        State::Open(k) => kind_number(k),
        State::Mark(k) => 4 + kind_number(k),
        State::First(k) => 8 + kind_number(k),
        State::Inside(k) => 12 + kind_number(k),
        State::FirstEsc(k) => 16 + kind_number(k),
        State::InsideEsc(k) => 20 + kind_number(k),
        State::Null(k) => 24 + kind_number(k),
        State::Ret(k) => 28 + kind_number(k),
    }
}

fn kind_at(n: u64) -> Kind
    ensures { result ≡ kind_at n }
{
    match n {
        0 => Kind::Nothing,
        1 => Kind::Group,
        2 => Kind::Table,
        _ => Kind::Rows,
    }
}

fn state_at(n: u64, k: Kind) -> State
    ensures { result ≡ state_at n k }
{
    match n {
        0 => State::Open(k),
        1 => State::Mark(k),
        2 => State::First(k),
        3 => State::Inside(k),
        4 => State::FirstEsc(k),
        5 => State::InsideEsc(k),
        6 => State::Null(k),
        _ => State::Ret(k),
    }
}

fn machine_at(n: u64) -> State
    ensures { result ≡ machine_at n }
{
    state_at(n / 4, kind_at(n % 4))
}

// ---- the form

// The wanted table of a message, by the form that was stated at the beginning.
pub fn message_of(form: u32) -> Table
    ensures { result ≡ Message (form_of form) }
{
    Table::Message(columns::form_of(form))
}

// ---- a feed as numbers

fn new_feed(sender: u8, form: u32) -> Feed
    ensures { result ≡ new_feed sender form }
{
    Feed {
        sender,
        form,
        at: 0,
        machine: State::Open(Kind::Nothing),
        fault: 0,
        size: 0,
        long: 0,
        staged: 0,
        lines: reader_step::start(),
    }
}

// The places of the labels from the number 18 on.
fn keep_places(kept: &mut [u64; 48], places: [usize; 20])
    ensures kept { kept.new ≡ over 18 places kept.old }
    ensures room { length places ≡ 20 }
{
    for i in 0..20 {
        kept[18 + i] = places[i] as u64;
    }
}

// A feed's numbers are written.
pub fn keep(kept: &mut [u64; 48], feed: Feed)
    ensures { kept.new ≡ kept_of feed }
{
    let lines = feed.lines;
    let shape = lines.shape;
    let places = shape.places;
    let machine = feed.machine;
    let number = machine_number(machine);
    let place = u64::from(lines.place);
    *kept = [
        1,
        feed.sender as u64,
        feed.form as u64,
        feed.at as u64,
        number,
        feed.fault as u64,
        feed.size as u64,
        feed.long as u64,
        feed.staged as u64,
        place,
        lines.line as u64,
        lines.form as u64,
        lines.wrong as u64,
        lines.column as u64,
        lines.owner as u64,
        lines.rows as u64,
        shape.count as u64,
        shape.stop as u64,
        0,
        0,
        0,
        0,
        0,
        0,
        0,
        0,
        0,
        0,
        0,
        0,
        0,
        0,
        0,
        0,
        0,
        0,
        0,
        0,
        0,
        0,
        0,
        0,
        0,
        0,
        0,
        0,
        0,
        0,
    ];
    keep_places(kept, places);
}

// ---- numbers as a feed

fn places_in(kept: [u64; 48]) -> [usize; 20]
    ensures { result ≡ part 18 20 kept }
{
    let mut places = [0; 20];
    for i in 0..20 {
        places[i] = kept[18 + i] as usize;
    }
    places
}

// What is kept of the lines, read in their form; none where the place is the number of none.
fn lines_in(kept: [u64; 48]) -> Option<reader_step::State>
    requires { get_or kept 2 0 < 4294967296 }
    ensures { result ≡ lines_read kept }
{
    let place = Place::try_from(kept[9]).ok()?;
    let places = places_in(kept);
    let table = message_of(kept[2] as u32);
    let shape = rows::restored(table, kept[16] as usize, kept[17] as usize, places);
    Some(reader_step::State {
        place,
        line: kept[10] as usize,
        form: kept[11] as usize,
        wrong: kept[12] as usize,
        column: kept[13] as usize,
        owner: kept[14] as usize,
        rows: kept[15] as usize,
        shape,
    })
}

// The feed. The sender is a byte, the form a word of any number.
fn feed_in(kept: [u64; 48]) -> Option<Feed>
    requires { (get_or kept 1 0 < 256) × (get_or kept 2 0 < 4294967296) }
    ensures { result ≡ feed_read kept }
{
    let lines = lines_in(kept)?;
    let machine = machine_at(kept[4]);
    Some(Feed {
        sender: kept[1] as u8,
        form: kept[2] as u32,
        at: kept[3] as usize,
        machine,
        fault: kept[5] as usize,
        size: kept[6] as usize,
        long: kept[7] as usize,
        staged: kept[8] as usize,
        lines,
    })
}

// ---- which numbers are those of a begun feed

// Whether the numbers from 38 on are zero.
fn clear_behind(kept: [u64; 48]) -> bool
    ensures { result ≡ zeros (drop 38 kept) }
{
    for i in 38..48 {
        if kept[i] != 0 {
            return false;
        }
    }
    true
}

fn numbers_may(kept: [u64; 48]) -> bool
    ensures { result ≡ numbers_may kept }
{
    let known = (kept[0] == 1) & (kept[2] < 4294967296) & (kept[4] < 32);
    known & (kept[1] < 256) & clear_behind(kept)
}

fn is_known(place: Place) -> bool
    ensures { result ≡ is_known place }
{
    !matches!(place, Place::Other(_))
}

fn is_under(place: Place) -> bool
    ensures { result ≡ is_under place }
{
    matches!(place, Place::Under)
}

fn lines_may(at: usize, lines: reader_step::State) -> bool
    requires { at ≤ 65537 }
    ensures { result ≡ lines_may at lines }
{
    let shape = lines.shape;
    let next = lines.line;
    (0 < next)
        & (next <= at + 1)
        & (lines.rows < next)
        & (lines.form < next)
        & (lines.wrong < next)
        & (lines.owner < next)
        & is_known(lines.place)
        & (!is_under(lines.place) | !shape.fault)
}

fn feed_may(feed: Feed) -> bool
    ensures { result ≡ feed_may feed }
{
    let lines = feed.lines;
    let at = feed.at;
    if 65537 < at {
        return false;
    }
    let inside = ((feed.sender as u64) < 256) & ((feed.form as u64) < 4294967296) & (at <= 65537);
    inside
        & (feed.fault <= at)
        & (feed.size <= at)
        & (feed.long < lines.line)
        & (feed.staged <= lines.rows)
        & lines_may(at, lines)
}

fn read_fitting(kept: [u64; 48]) -> Option<Feed>
    requires { numbers_may kept ≡ true }
    ensures { result ≡ read_fitting kept }
{
    let feed = feed_in(kept)?;
    if feed_may(feed) {
        return Some(feed);
    }
    None
}

// The feed that the numbers tell, whatever they are; none where they are not those of a begun one. They are looked at closely: whoever lends them may have
// written anything into them.
pub fn read(kept: [u64; 48]) -> Option<Feed>
    ensures { result ≡ read_of kept }
{
    if numbers_may(kept) {
        return read_fitting(kept);
    }
    None
}

// A feed begins, whatever the numbers were.
pub fn begin(kept: &mut [u64; 48], sender: u8, form: u32)
    ensures { kept.new ≡ begun_by sender form }
{
    keep(kept, new_feed(sender, form));
}
