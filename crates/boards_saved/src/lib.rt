// A day as a file: sixteen bytes of name and version, three numbers, then the used bytes of register, book and table. Any bytes may stand in a file; only a sound day is taken from one.
#![tactic(auto)]

ghost use Rattle.std.specs.Prelude.{◌≡◌, ◌+◌, ◌*◌, ◌≤◌, length};
ghost use Rattle.lists.specs.Part.{over};
ghost use Rattle.script_text.specs.Rules.{appended};
ghost use Rattle.boards_saved.specs.Saved.{heading_wide, heading_of, between, parts_sound, whole_day, day_in, register_from, book_from, table_from};

// Three numbers stand behind the name: used bytes of the register and of the book, rows of the table.
const NAME_WIDE: usize = 16;

const NUMBER_WIDE: usize = 4;

const PAIRS_AT: usize = NAME_WIDE;

const USED_AT: usize = PAIRS_AT + NUMBER_WIDE;

const ROWS_AT: usize = USED_AT + NUMBER_WIDE;

pub const HEADING_WIDE: usize = ROWS_AT + NUMBER_WIDE;

const TABLE: usize = table::MOST_ROWS * passage::ROW_WIDE;

// The largest day.
pub const MOST_BYTES: usize = HEADING_WIDE + register::MOST_BYTES + book::MOST_BYTES + TABLE;

// What a file gives: a day with so many bytes of register and book used and so many rows, or none.
#[derive(Clone, Copy)]
pub enum Saved {
    Day(u32, u32, u32),
    Other,
}

// ---- Where the parts stand.

fn book_at(pairs: u32) -> usize
    ensures { result ≡ 28 + pairs }
{
    HEADING_WIDE + pairs as usize
}

fn table_at(pairs: u32, used: u32) -> usize
    ensures { result ≡ 28 + pairs + used }
{
    HEADING_WIDE + pairs as usize + used as usize
}

fn end_at(pairs: u32, used: u32, rows: u32) -> usize
    ensures { result ≡ 28 + pairs + used + rows * 67 }
{
    HEADING_WIDE + pairs as usize + used as usize + rows as usize * passage::ROW_WIDE
}

// ---- Reading.

// Whether the parts of a file are sound, as a message asks it of what it is lent.
fn is_sound(register: &[u8], book: &[u8], used: u32, table: &[u8], rows: u32) -> bool
    ensures { result ≡ parts_sound register.now book.now used table.now rows }
{
    if register::register_is_sound(register) {
        if book::book_is_sound(book, used as usize) {
            return table::table_is_sound(table, rows as usize);
        }
        return false;
    }
    false
}

// Whether the bytes behind a heading are as many as it says, and sound.
fn is_whole(file: &[u8], pairs: u32, used: u32, rows: u32) -> bool
    ensures { result ≡ whole_day pairs used rows file.now }
{
    let middle = book_at(pairs);
    let last = table_at(pairs, used);
    let end = end_at(pairs, used, rows);
    if file.len() != end {
        return false;
    }
    is_sound(
        script_text::part(file, HEADING_WIDE, middle),
        script_text::part(file, middle, last),
        used,
        script_text::part(file, last, end),
        rows,
    )
}

// What the bytes of a file give.
fn read_day(file: &[u8]) -> Saved
    ensures { result ≡ day_in file.now }
{
    if file.len() < HEADING_WIDE {
        return Saved::Other;
    }
    if lists::same_bytes(&file[0..NAME_WIDE], b"zhemdurak day 1\n") {
        let pairs = lists::get_number(file, PAIRS_AT, NUMBER_WIDE);
        let used = lists::get_number(file, USED_AT, NUMBER_WIDE);
        let rows = lists::get_number(file, ROWS_AT, NUMBER_WIDE);
        if is_whole(file, pairs, used, rows) {
            return Saved::Day(pairs, used, rows);
        }
        return Saved::Other;
    }
    Saved::Other
}

// The parts of a file to the front of what is lent.
fn put_parts(
    file: &[u8],
    pairs: u32,
    used: u32,
    rows: u32,
    register: &mut [u8],
    book: &mut [u8],
    table: &mut [u8],
)
    ensures pairs { register.new ≡ appended 0 (between 28 (28 + pairs) file.now) register.old }
    ensures entries { book.new ≡ appended 0 (between (28 + pairs) (28 + pairs + used) file.now) book.old }
    ensures passages { table.new ≡ appended 0 (between (28 + pairs + used) (28 + pairs + used + rows * 67) file.now) table.old }
{
    let middle = book_at(pairs);
    let last = table_at(pairs, used);
    let end = end_at(pairs, used, rows);
    script_text::append(register, 0, script_text::part(file, HEADING_WIDE, middle));
    script_text::append(book, 0, script_text::part(file, middle, last));
    script_text::append(table, 0, script_text::part(file, last, end));
}

// The day of a file takes the place of what is lent: of register, book and table, which have room for any. A file that is no day changes nothing.
pub fn load(file: &[u8], register: &mut [u8], book: &mut [u8], table: &mut [u8]) -> Saved
    ensures day { result ≡ day_in file.now }
    ensures pairs { register.new ≡ register_from file.now register.old }
    ensures entries { book.new ≡ book_from file.now book.old }
    ensures passages { table.new ≡ table_from file.now table.old }
{
    match read_day(file) {
        Saved::Day(pairs, used, rows) => {
            put_parts(file, pairs, used, rows, register, book, table);
            Saved::Day(pairs, used, rows)
        }
        Saved::Other => Saved::Other,
    }
}

// ---- Writing.

// The heading of a day's file.
pub fn write_heading(heading: &mut [u8], pairs: u32, used: u32, rows: u32)
    requires { heading_wide ≤ length heading.old }
    ensures { heading.new ≡ over 0 (heading_of pairs used rows) heading.old }
{
    lists::copy_to(heading, 0, b"zhemdurak day 1\n");
    lists::put_number(heading, PAIRS_AT, NUMBER_WIDE, pairs);
    lists::put_number(heading, USED_AT, NUMBER_WIDE, used);
    lists::put_number(heading, ROWS_AT, NUMBER_WIDE, rows);
}
