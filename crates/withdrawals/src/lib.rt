// Withdraw: a message's entries become kind 3, and each passage that they name is worked out again from the book.
#![tactic(auto)]

ghost use Rattle.std.specs.Prelude.{◌≡◌, true, map, ◌+◌, ◌*◌, ◌≤◌, ◌<◌, length};
ghost use Rattle.book.specs.Entries.{entry_wide};
ghost use Rattle.book.specs.Rules.{book_sound};
ghost use Rattle.calls.specs.Answers.{numbers};
ghost use Rattle.calls.specs.Leaves.{leaves};
ghost use Rattle.calls.specs.Withdraw.{withdraw_sound, withdraw_leaves};
ghost use Rattle.calls.specs.Numbers.{withdraw_numbers};
ghost use Rattle.withdrawals_replay.specs.inner.Slots.{slot_wide, slots_of};
ghost use Rattle.withdrawals.specs.inner.Steps.{MessageAt, names_in, worked_out, room_leaves};

use calls::{Counts, Outcome, Refusal};

// The message has so many entries from `at` on: 12, then 11, then what follows.
fn withdraw_found(
    number: u32,
    sender: u8,
    at: usize,
    count: usize,
    book: &mut [u8],
    table: &mut [u8],
    counts: Counts,
) -> Outcome
    requires counts_value { withdraw_sound book.old table.old counts ≡ true }
    requires message_at { MessageAt number counts.used book.old at count }
    ensures { leaves result book.new table.new
        ≡ withdraw_leaves number sender book.old table.old counts }
{
    let own = book[at + book::SENDER_AT];
    let kind = book[at];
    if (sender == 0) | (sender == own) {
        if kind == 3 {
            return calls::unchanged(Err(Refusal::AlreadyWithdrawn), counts);
        }
        if count <= FEW {
            return rework_few(number, at, count, book, table, counts);
        }
        return rework_many(number, at, count, book, table, counts);
    }
    calls::unchanged(Err(Refusal::OtherSender), counts)
}

// Book and table are sound: 10, then what follows.
fn withdraw_sound(
    number: u32,
    sender: u8,
    book: &mut [u8],
    table: &mut [u8],
    counts: Counts,
) -> Outcome
    requires { withdraw_sound book.old table.old counts ≡ true }
    ensures { leaves result book.new table.new
        ≡ withdraw_leaves number sender book.old table.old counts }
{
    let used = counts.used;
    let h = book_find::find_message(book, used, number);
    match h {
        None => calls::unchanged(Err(Refusal::NoMessage), counts),
        Some((i, count)) => {
            let at = book::count_plans(book, used) * book::PLAN_WIDE + i * book::ENTRY_WIDE;
            withdraw_found(number, sender, at, count, book, table, counts)
        }
    }
}

// Whether book and table are sound.
fn is_sound(book: &[u8], table: &[u8], counts: Counts) -> bool
    ensures { result ≡ withdraw_sound book.now table.now counts }
{
    let used = counts.used;
    let rows = counts.rows;
    book::book_is_sound(book, used) && table::table_is_sound(table, rows)
}

// A withdrawal: refusals 1, 10, 12, 11, 8 in document 01's order, or the new counts.
pub fn withdraw(
    number: u32,
    sender: u8,
    book: &mut [u8],
    table: &mut [u8],
    counts: Counts,
) -> Outcome
    ensures lent { leaves result book.new table.new
        ≡ withdraw_leaves number sender book.old table.old counts }
    ensures numbers { numbers result.answer ≡ withdraw_numbers number sender book.old table.old counts }
{
    if is_sound(book, table, counts) {
        return withdraw_sound(number, sender, book, table, counts);
    }
    calls::unchanged(Err(Refusal::Unsound), counts)
}

// ---- A message's passages worked out again from the book without it, and taken into the table.

// The entries of a small message, and a slot for each.
pub const FEW: usize = 64;

const FEW_SLOTS: usize = FEW * withdrawals_replay::SLOT_WIDE;

// The most entries that a book can have, so the most passages that a message can name, and a slot for each.
const MOST: usize = book::MOST_BYTES / book::ENTRY_WIDE;

const MOST_SLOTS: usize = MOST * withdrawals_replay::SLOT_WIDE;

// The passages that the entries from `at` on name, in slots, each as the book gives it once message `number` is withdrawn; their count.
// kept: (a) `book` is a lent area longer than what is used of it: the C calls lend it with its counts beside.
fn work_out(
    number: u32,
    at: usize,
    count: usize,
    book: &[u8],
    used: usize,
    order: &mut [u32],
    slots: &mut [u8],
) -> usize
    requires book_value { book_sound used book.now ≡ true }
    requires entry_wide_bound { (at + count * entry_wide ≤ used) × (count ≤ length order.old) × (count * slot_wide ≤ length slots.old) }
    ensures value { result ≡ length (names_in at count book.now) }
    ensures slots_after { slots_of result slots.new ≡ map (worked_out number used book.now) (names_in at count book.now) }
{
    let e = &book[at..at + count * book::ENTRY_WIDE];
    let c = sorting_merge::sort_keys(e, count, book::BODY_AT, book::ENTRY_WIDE, order);
    let n = book::count_plans(book, used);
    withdrawals_replay::begin_slots(book, n, e, count, order, c, slots);
    let from = n * book::PLAN_WIDE;
    let k = (used - from) / book::ENTRY_WIDE;
    withdrawals_replay::replay(book, from, k, number, e, count, order, c, slots);
    c
}

// Nothing bars the withdrawal of the entries from `at` on: 8, or acceptance. Nothing of book and table is written before that is certain.
fn rework_in(
    number: u32,
    at: usize,
    count: usize,
    book: &mut [u8],
    table: &mut [u8],
    counts: Counts,
    order: &mut [u32],
    slots: &mut [u8],
) -> Outcome
    requires counts_value { withdraw_sound book.old table.old counts ≡ true }
    requires message_at { MessageAt number counts.used book.old at count }
    requires count_in_bounds { (count ≤ length order.old) × (count * slot_wide ≤ length slots.old) }
    ensures { leaves result book.new table.new ≡ room_leaves number book.old table.old counts }
{
    let used = counts.used;
    let rows = counts.rows;
    let named = work_out(number, at, count, book, used, order, slots);
    if withdrawals_replay::fits_after(table, rows, slots, named) {
        let settled = withdrawals_replay::settle(table, rows, slots, named);
        book_write::mark_withdrawn(book, at, count);
        return calls::accepted(0, used, settled);
    }
    calls::unchanged(Err(Refusal::TableShort), counts)
}

// The same with room of its own to work in: for so many places, and slots of so many bytes.
fn rework_with<const PLACES: usize, const SLOTS: usize>(
    number: u32,
    at: usize,
    count: usize,
    book: &mut [u8],
    table: &mut [u8],
    counts: Counts,
) -> Outcome
    requires count_bound { (count ≤ PLACES) × (count * slot_wide ≤ SLOTS) }
    requires areas { (PLACES < 4294967296) × (SLOTS < 4294967296) }
    requires counts_value { withdraw_sound book.old table.old counts ≡ true }
    requires message_at { MessageAt number counts.used book.old at count }
    ensures { leaves result book.new table.new ≡ room_leaves number book.old table.old counts }
{
    let mut order = [0u32; PLACES];
    let mut slots = [0u8; SLOTS];
    rework_in(
        number, at, count, book, table, counts, &mut order, &mut slots,
    )
}

// The same for few entries, with little room of its own to work in, so that little is cleared for a small message.
pub fn rework_few(
    number: u32,
    at: usize,
    count: usize,
    book: &mut [u8],
    table: &mut [u8],
    counts: Counts,
) -> Outcome
    requires count_bound { count ≤ 64 }
    requires counts_value { withdraw_sound book.old table.old counts ≡ true }
    requires message_at { MessageAt number counts.used book.old at count }
    ensures { leaves result book.new table.new ≡ room_leaves number book.old table.old counts }
{
    rework_with::<FEW, FEW_SLOTS>(number, at, count, book, table, counts)
}

// The same for any number of entries, with room for all that a book can have.
pub fn rework_many(
    number: u32,
    at: usize,
    count: usize,
    book: &mut [u8],
    table: &mut [u8],
    counts: Counts,
) -> Outcome
    requires counts_value { withdraw_sound book.old table.old counts ≡ true }
    requires message_at { MessageAt number counts.used book.old at count }
    ensures { leaves result book.new table.new ≡ room_leaves number book.old table.old counts }
{
    rework_with::<MOST, MOST_SLOTS>(number, at, count, book, table, counts)
}
