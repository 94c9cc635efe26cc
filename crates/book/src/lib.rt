// The day book: how entries lie in its bytes, their split, order and ranges, and whether it is sound. `book_write` writes entries, `book_find` finds them.
#![tactic(auto)]

ghost use Rattle.std.specs.Prelude.{◌≡◌, true, ◌&&◌, map, ◌+◌, ◌*◌, ◌≤◌, length, drop, get_or};
ghost use Rattle.lists.specs.Part.{part};
ghost use Rattle.lists.specs.Rows.{rows_of};
ghost use Rattle.lists.specs.BigEndian.{number};
ghost use Rattle.passage.specs.Layout.{body_wide};
ghost use Rattle.passage.specs.Ranges.{common_in_range};
ghost use Rattle.keys.specs.Sorted.{sorted_rows};
ghost use Rattle.book.specs.Entries.{number_offset, number_wide, sender_offset, plan_wide, body_at, entry_wide, plan_count, plan_body_of, entry_body};
ghost use Rattle.book.specs.Rules.{all_plans, book_room, book_sound, chained, entry_in_range, no_entry};
ghost use Rattle.book.specs.inner.Steps.{follows_as};
ghost use Rattle.passage.specs.inner.Roles.{all_common};

// Every entry begins with its kind.
pub const KIND_WIDE: usize = 1;

// A plan entry: kind 1, then a body.
pub const PLAN_WIDE: usize = KIND_WIDE + passage::BODY_WIDE;

// An update: kind, message number, sender, then a body.
pub const NUMBER_AT: usize = KIND_WIDE;

pub const NUMBER_WIDE: usize = 4;

pub const SENDER_AT: usize = NUMBER_AT + NUMBER_WIDE;

pub const BODY_AT: usize = SENDER_AT + 1;

pub const ENTRY_WIDE: usize = BODY_AT + passage::BODY_WIDE;

// Of a lent book at most these bytes are used.
pub const MOST_BYTES: usize = 294912;

// How many plan entries the used bytes begin with.
// kept: (a) `book` is a lent area longer than what is used of it: the C calls lend it with its count beside.
pub fn count_plans(book: &[u8], used: usize) -> usize
    requires { used ≤ length book.now }
    ensures { result ≡ plan_count used book.now }
{
    let n = used / PLAN_WIDE;
    for i in 0..n {
        let kind = book[i * PLAN_WIDE];
        if kind != 1 {
            return i;
        }
    }
    n
}

// Whether each of the first `plans` plan entries is in range, where what is common is.
fn plans_in_range(book: &[u8], plans: usize) -> bool
    requires plan_wide_in_bounds { plans * plan_wide ≤ length book.now }
    requires book_value { all_common (map plan_body_of (rows_of plan_wide plans book.now)) ≡ true }
    ensures { result ≡ all_plans (map plan_body_of (rows_of plan_wide plans book.now)) }
{
    for i in 0..plans {
        if !passage::plan_in_range(book, i * PLAN_WIDE + KIND_WIDE) {
            return false;
        }
    }
    true
}

// Whether the first `plans` plan entries are in range, by key strictly rising.
fn plans_are_sound(book: &[u8], plans: usize) -> bool
    requires { plans * plan_wide ≤ length book.now }
    ensures { result ≡ (all_plans (map plan_body_of (rows_of plan_wide plans book.now)) && sorted_rows (map plan_body_of (rows_of plan_wide plans book.now))) }
{
    passage::all_common(book, 0, PLAN_WIDE, KIND_WIDE, plans)
        && plans_in_range(book, plans)
        && keys::keys_rise(book, PLAN_WIDE, KIND_WIDE, plans)
}

// What decides where an update may stand among the others.
#[derive(Clone, Copy)]
struct Head {
    number: u32,
    sender: u8,
    kind: u8,
}

// The head of the update from `at` on.
fn head_at(book: &[u8], at: usize) -> Head
    requires { at + entry_wide ≤ length book.now }
    ensures number { result.number ≡ number (part (at + number_offset) number_wide book.now) }
    ensures sender { result.sender ≡ get_or book.now (at + sender_offset) 0 }
    ensures kind { result.kind ≡ get_or book.now at 0 }
{
    Head {
        number: lists::get_number(book, at + NUMBER_AT, NUMBER_WIDE),
        sender: book[at + SENDER_AT],
        kind: book[at],
    }
}

// Whether the update from `at` on is in range, where what is common is, and may stand behind one with this head.
fn entry_is_sound(book: &[u8], at: usize, last: Head) -> bool
    requires entry_wide_in_bounds { at + entry_wide ≤ length book.now }
    requires book_value { common_in_range (part (at + body_at) body_wide book.now) ≡ true }
    ensures { result ≡ (entry_in_range (part at entry_wide book.now) && follows_as last.number last.sender last.kind (part at entry_wide book.now)) }
{
    let head = head_at(book, at);
    let follows = (head.number as u64 == last.number as u64 + 1)
        | ((head.number == last.number)
            & ((head.sender == last.sender) & (head.kind == last.kind)));
    (((2 <= head.kind) & (head.kind <= 3))
        & ((1 <= head.sender) & passage::update_in_range(book, at + BODY_AT)))
        & follows
}

// Whether the updates from `at` on are in range, where what is common is, each where it may follow the one before.
fn updates_follow(book: &[u8], at: usize, entries: usize) -> bool
    requires entry_wide_in_bounds { at + entries * entry_wide ≤ length book.now }
    requires book_value { all_common (map entry_body (rows_of entry_wide entries (drop at book.now))) ≡ true }
    ensures { result ≡ chained no_entry (rows_of entry_wide entries (drop at book.now)) }
{
    let mut last = Head {
        number: 0,
        sender: 0,
        kind: 0,
    };
    for i in 0..entries {
        let p = at + i * ENTRY_WIDE;
        if !entry_is_sound(book, p, last) {
            return false;
        }
        last = head_at(book, p);
    }
    true
}

// Whether the updates from `at` on are in range, each where it may follow the one before.
fn updates_are_sound(book: &[u8], at: usize, entries: usize) -> bool
    requires { at + entries * entry_wide ≤ length book.now }
    ensures { result ≡ chained no_entry (rows_of entry_wide entries (drop at book.now)) }
{
    passage::all_common(book, at, ENTRY_WIDE, BODY_AT, entries) && updates_follow(book, at, entries)
}

// Of the lent book, what may be used.
pub fn book_room(book: &[u8]) -> usize
    ensures { result ≡ book_room book.now }
{
    book.len().min(MOST_BYTES)
}

// Whether the used bytes split into entries that are in order and in range.
// kept: (a) `book` is a lent area longer than what is used of it: the C calls lend it with its count beside.
pub fn book_is_sound(book: &[u8], used: usize) -> bool
    ensures { result ≡ book_sound used book.now }
{
    if book_room(book) < used {
        return false;
    }
    let n = count_plans(book, used);
    let rest = used - n * PLAN_WIDE;
    if rest % ENTRY_WIDE != 0 {
        return false;
    }
    plans_are_sound(book, n) && updates_are_sound(book, n * PLAN_WIDE, rest / ENTRY_WIDE)
}
