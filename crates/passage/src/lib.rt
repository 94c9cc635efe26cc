// How a passage lies in bytes, and whether an update's body, a plan entry's and a row of the table are in range. What they have in common is tested first, all rows
// in one loop; then each by itself.
#![tactic(auto)]

ghost use Rattle.std.specs.Prelude.{◌≡◌, true, map, ◌+◌, ◌*◌, ◌≤◌, ◌<◌, length, get_or, drop};
ghost use Rattle.lists.specs.Part.{part};
ghost use Rattle.lists.specs.Rows.{rows_of};
ghost use Rattle.lists.specs.BigEndian.{number};
ghost use Rattle.clock.specs.Date.{is_date};
ghost use Rattle.passage.specs.Layout.{date_offset, date_wide, body_wide, row_wide};
ghost use Rattle.passage.specs.inner.Roles.{role_in, roles_wide, roles, breaks_text, texts_padded, all_common};
ghost use Rattle.passage.specs.Ranges.{times_in_range, common_in_range, update_in_range, plan_in_range, heard_in_range, row_in_range};

// Widths of fields.
pub const TEXT_WIDE: usize = 10;

pub const DATE_WIDE: usize = 4;

pub const JOURNEY_WIDE: usize = 4;

pub const ORDER_WIDE: usize = 2;

pub const STAMP_WIDE: usize = 4;

pub const TIME_WIDE: usize = 3;

// The key.
pub const OWNER_AT: usize = 0;

pub const DATE_AT: usize = OWNER_AT + TEXT_WIDE;

pub const LINE_AT: usize = DATE_AT + DATE_WIDE;

pub const JOURNEY_AT: usize = LINE_AT + TEXT_WIDE;

pub const FORTIFY_AT: usize = JOURNEY_AT + JOURNEY_WIDE;

pub const STOP_AT: usize = FORTIFY_AT + 1;

pub const ORDER_AT: usize = STOP_AT + TEXT_WIDE;

pub const KEY_WIDE: usize = ORDER_AT + ORDER_WIDE;

// The body: the key, and what an update changes.
pub const DESTINATION_AT: usize = KEY_WIDE;

pub const STAMP_AT: usize = DESTINATION_AT + TEXT_WIDE;

pub const STATUS_AT: usize = STAMP_AT + STAMP_WIDE;

pub const ARRIVAL_AT: usize = STATUS_AT + 1;

pub const DEPARTURE_AT: usize = ARRIVAL_AT + TIME_WIDE;

pub const STOP_TYPE_AT: usize = DEPARTURE_AT + TIME_WIDE;

pub const SHOW_CANCELLED_AT: usize = STOP_TYPE_AT + 1;

pub const FLEXIBLE_AT: usize = SHOW_CANCELLED_AT + 1;

pub const MONITORED_AT: usize = FLEXIBLE_AT + 1;

pub const BODY_WIDE: usize = MONITORED_AT + 1;

// The row: the body, and whether an update was heard.
pub const HEARD_AT: usize = BODY_WIDE;

pub const ROW_WIDE: usize = HEARD_AT + 1;

// kept: (a) these two, like statuses and flags, are numbers in bytes and no Option or enum: C lends table and book with them so, and include/ says them.
// A time that is missing.
pub const MISSING: u32 = 16777215;

// An absent optional of an update: the held content stays.
pub const KEPT: u8 = 255;

// The texts are tested over so many bytes: four whole vectors, and none left over.
const ROLES_WIDE: usize = 64;

// What the byte `i` is to the text from `from` on: 0 not in it, 1 its first byte, 2 one between, 3 its last.
fn role_in(i: usize, from: usize) -> u8
    requires { (i < body_wide) × (from < body_wide) }
    ensures is { result ≡ role_in from i }
    ensures few { result ≤ 3 }
{
    let inside = (from <= i) & (i < from + TEXT_WIDE);
    inside as u8 + (inside & (i != from)) as u8 + (i + 1 == from + TEXT_WIDE) as u8
}

// What the byte `i` of a body is to its text. Reckoned and not looked up: a constant table is laid out anew wherever it is read.
fn role(i: usize) -> u8
    requires { i < roles_wide }
    ensures { result ≡ get_or roles i 0 }
{
    role_in(i, OWNER_AT) + role_in(i, LINE_AT) + role_in(i, STOP_AT) + role_in(i, DESTINATION_AT)
}

// Whether the byte `b` breaks its text: what is not of 32 to 126 is zero, never first, and has zero behind it.
fn breaks(role: u8, b: u8, next: u8) -> bool
    ensures { result ≡ breaks_text role b next }
{
    !((32 <= b) & (b <= 126)) & ((role == 1) | (role != 0) & (b != 0) | (role == 2) & (next != 0))
}

// Whether the four texts of the body from `at` on are padded texts. No branch in the loop, and a count that fits a byte: it becomes vector instructions.
fn texts_at(bytes: &[u8], at: usize) -> bool
    requires { at + body_wide ≤ length bytes.now }
    ensures { result ≡ texts_padded (part at body_wide bytes.now) }
{
    let mut bad: u8 = 0;
    for i in 0..ROLES_WIDE {
        bad += breaks(role(i), bytes[at + i], bytes[at + i + 1]) as u8;
    }
    bad == 0
}

// Whether stop type and times are in range: an arrival may be missing at FIRST, a departure at LAST.
fn times_in_range(stop: u8, arrival: u32, departure: u32) -> bool
    ensures { result ≡ times_in_range stop arrival departure }
{
    (stop <= 2)
        & ((arrival < 115200) | (stop == 0) & (arrival == MISSING))
        & ((departure < 115200) | (stop == 2) & (departure == MISSING))
}

// Whether `date` is one, beside a date that is known to be one: rows side by side mostly have one date.
fn is_date_beside(date: u32, known: u32) -> bool
    requires { is_date known ≡ true }
    ensures { result ≡ is_date date }
{
    date == known || clock::is_date(date)
}

// Whether what update, plan entry and row have in common is in range, from `at` on.
fn common_at(bytes: &[u8], at: usize, date: u32, known: u32) -> bool
    requires body_wide_in_bounds { at + body_wide ≤ length bytes.now }
    requires date_value { (date ≡ number (part (at + date_offset) date_wide bytes.now)) × (is_date known ≡ true) }
    ensures { result ≡ common_in_range (part at body_wide bytes.now) }
{
    let journey = lists::get_number(bytes, at + JOURNEY_AT, JOURNEY_WIDE);
    let order = lists::get_number(bytes, at + ORDER_AT, ORDER_WIDE);
    let arrival = lists::get_number(bytes, at + ARRIVAL_AT, TIME_WIDE);
    let departure = lists::get_number(bytes, at + DEPARTURE_AT, TIME_WIDE);
    texts_at(bytes, at)
        & is_date_beside(date, known)
        & (journey < 1000000)
        & (bytes[at + FORTIFY_AT] < 100)
        & (order < 1000)
        & times_in_range(bytes[at + STOP_TYPE_AT], arrival, departure)
}

// Whether what update, plan entry and row have in common is in range in each of `count` rows of `width` bytes, in the body from `offset` on. One loop for all three, so that the
// compiler keeps what the texts are tested against in registers.
pub fn all_common(bytes: &[u8], at: usize, width: usize, offset: usize, count: usize) -> bool
    requires { (at + count * width ≤ length bytes.now) × (offset + body_wide ≤ width) }
    ensures { result ≡ all_common (map (part offset body_wide) (rows_of width count (drop at bytes.now))) }
{
    let mut known: u32 = 20000101;
    for i in 0..count {
        let body = at + i * width + offset;
        let date = lists::get_number(bytes, body + DATE_AT, DATE_WIDE);
        if !common_at(bytes, body, date, known) {
            return false;
        }
        known = date;
    }
    true
}

// ---- each by itself
// kept: (a) that what is common holds stands as a clause in three functions, and in no type: docs/RULES.md names all three.

// Whether an update's body stands from `at` on, every field in its range, where what is common is.
pub fn update_in_range(bytes: &[u8], at: usize) -> bool
    requires body_wide_in_bounds { at + body_wide ≤ length bytes.now }
    requires bytes_value { common_in_range (part at body_wide bytes.now) ≡ true }
    ensures { result ≡ update_in_range (part at body_wide bytes.now) }
{
    let stamp = lists::get_number(bytes, at + STAMP_AT, STAMP_WIDE);
    let show = bytes[at + SHOW_CANCELLED_AT];
    let flexible = bytes[at + FLEXIBLE_AT];
    let monitored = bytes[at + MONITORED_AT];
    field_types::in_stamp_range(stamp)
        & (bytes[at + STATUS_AT] <= 5)
        & ((show <= 2) | (show == KEPT))
        & ((1 <= flexible) & (flexible <= 3) | (flexible == KEPT))
        & ((monitored <= 1) | (monitored == KEPT))
}

// Whether a plan entry's body stands from `at` on, every field in its range, where what is common is.
pub fn plan_in_range(bytes: &[u8], at: usize) -> bool
    requires body_wide_in_bounds { at + body_wide ≤ length bytes.now }
    requires bytes_value { common_in_range (part at body_wide bytes.now) ≡ true }
    ensures { result ≡ plan_in_range (part at body_wide bytes.now) }
{
    let stamp = lists::get_number(bytes, at + STAMP_AT, STAMP_WIDE);
    (stamp == 0)
        & (bytes[at + STATUS_AT] == 0)
        & (bytes[at + SHOW_CANCELLED_AT] == 1)
        & (bytes[at + FLEXIBLE_AT] <= 3)
        & (bytes[at + MONITORED_AT] == 0)
}

// Whether heard and timestamp go together.
fn heard_in_range(heard: u8, stamp: u32) -> bool
    ensures { result ≡ heard_in_range heard stamp }
{
    (heard == 0) & (stamp == 0) | (heard == 1) & field_types::in_stamp_range(stamp)
}

// Whether a row stands from `at` on, every field in its range, where what is common is.
pub fn row_in_range(bytes: &[u8], at: usize) -> bool
    requires row_wide_in_bounds { at + row_wide ≤ length bytes.now }
    requires bytes_value { common_in_range (part at body_wide bytes.now) ≡ true }
    ensures { result ≡ row_in_range (part at row_wide bytes.now) }
{
    let stamp = lists::get_number(bytes, at + STAMP_AT, STAMP_WIDE);
    heard_in_range(bytes[at + HEARD_AT], stamp)
        & (bytes[at + STATUS_AT] <= 5)
        & (bytes[at + SHOW_CANCELLED_AT] <= 2)
        & (bytes[at + FLEXIBLE_AT] <= 3)
        & (bytes[at + MONITORED_AT] <= 1)
}
