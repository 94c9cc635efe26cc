// What a board may be asked, and the show rule: whether a passage is shown at a stop, and at which moment of the clock it departs.
#![tactic(auto)]

ghost use Rattle.std.specs.Prelude.{◌≡◌, true, ◌+◌, ◌≤◌, length};
ghost use Rattle.std.specs.List.{list_all};
ghost use Rattle.lists.specs.Logic.{within};
ghost use Rattle.lists.specs.Part.{part};
ghost use Rattle.lists.specs.Text.{same};
ghost use Rattle.passage.specs.Layout.{text_wide, row_wide, owner_of};
ghost use Rattle.passage.specs.Ranges.{row_in_range};
ghost use Rattle.board_show.specs.inner.Look.{shown_at, may_be};
ghost use Rattle.texts.specs.Texts.{is_text};
ghost use Rattle.board_show.specs.Ask.{asked, asks_in_range};

use clock::{ClockSeconds, OperatingSeconds};

// The moments from one to another, both included.
#[derive(Clone, Copy)]
pub struct Span {
    pub from: ClockSeconds,
    pub till: ClockSeconds,
}

// Whether the padded text stands from `at` on. No branch, and few loads.
fn same_text(table: &[u8], at: usize, text: &[u8]) -> bool
    requires { (at + text_wide ≤ length table.now) × (length text.now ≡ text_wide) }
    ensures { result ≡ same (part at text_wide table.now) text.now }
{
    let first = lists::get_number(table, at, 4);
    let second = lists::get_number(table, at + 4, 4);
    let last = lists::get_number(table, at + 8, 2);
    (first == lists::get_number(text, 0, 4))
        & (second == lists::get_number(text, 4, 4))
        & (last == lists::get_number(text, 8, 2))
}

// Whether the row from `at` on is of this owner, padded.
pub fn is_owned(table: &[u8], at: usize, owner: &[u8]) -> bool
    requires { (at + row_wide ≤ length table.now) × (length owner.now ≡ text_wide) }
    ensures { result ≡ same (owner_of (part at row_wide table.now)) owner.now }
{
    same_text(table, at, owner)
}

// What the show rule looks at in a row, but for its stop and stop type.
// kept: (a) the fields are the bytes of a row of the lent table, which are laid out by number.
#[derive(Clone, Copy)]
struct Passing {
    moment: ClockSeconds,
    status: u8,
    show_cancelled: u8,
    flexible: u8,
    monitored: u8,
    fortify: u8,
    heard: u8,
}

impl Passing {
    // The show rule but for stop and stop type. No branch.
    fn is_shown(self, span: Span) -> bool
        ensures { result ≡ may_be span.from span.till self.moment self.status self.show_cancelled self.flexible self.monitored self.fortify self.heard }
    {
        (self.status != 5)
            & ((span.from.0 <= self.moment.0) & (self.moment.0 <= span.till.0))
            & ((self.status != 1) | (self.show_cancelled == 1))
            & ((self.flexible <= 1) | (self.flexible == 3) & (self.monitored == 1))
            & ((self.fortify == 0) | (self.heard == 1))
    }
}

// Whether the row from `at` on, which is of this owner, is shown, and if so its departure moment.
pub fn shown_at(
    table: &[u8],
    at: usize,
    owner: &[u8],
    stop: &[u8],
    span: Span,
) -> Option<ClockSeconds>
    requires { (at + row_wide ≤ length table.now) × (row_in_range (part at row_wide table.now) ≡ true)
        × (length stop.now ≡ text_wide) × (same (owner_of (part at row_wide table.now)) owner.now ≡ true) }
    ensures { result ≡ shown_at owner.now stop.now span.from span.till (part at row_wide table.now) }
{
    let here = same_text(table, at + passage::STOP_AT, stop);
    if !here {
        return None;
    }
    if table[at + passage::STOP_TYPE_AT] == 2 {
        return None;
    }
    let date = lists::get_number(table, at + passage::DATE_AT, passage::DATE_WIDE);
    let time = lists::get_number(table, at + passage::DEPARTURE_AT, passage::TIME_WIDE);
    let moment = clock::moment(date, OperatingSeconds(time));
    let passing = Passing {
        moment,
        status: table[at + passage::STATUS_AT],
        show_cancelled: table[at + passage::SHOW_CANCELLED_AT],
        flexible: table[at + passage::FLEXIBLE_AT],
        monitored: table[at + passage::MONITORED_AT],
        fortify: table[at + passage::FORTIFY_AT],
        heard: table[at + passage::HEARD_AT],
    };
    if passing.is_shown(span) {
        Some(moment)
    } else {
        None
    }
}

// ---- What may be asked: owner and stop as texts, a date, a second of the day and a horizon. This knows nothing of passages.

// Whether each byte is one of 32 to 126.
fn is_printed(text: &[u8]) -> bool
    ensures { result ≡ list_all (within 32 126) text.now }
{
    text.iter().all(|&byte| (32 <= byte) & (byte <= 126))
}

// Whether a text is 1 to 10 bytes of 32 to 126.
fn is_text(text: &[u8]) -> bool
    ensures { result ≡ is_text text.now }
{
    let length = text.len();
    (1 <= length) & (length <= 10) && is_printed(text)
}

// Whether what is asked is in its range.
pub fn asks_in_range(owner: &[u8], stop: &[u8], date: u32, second: u32, horizon: u32) -> bool
    ensures { result ≡ asks_in_range (asked owner.now stop.now date second horizon) }
{
    is_text(owner) & is_text(stop) & clock::is_date(date) & (second < 86400) & (horizon <= 86400)
}
