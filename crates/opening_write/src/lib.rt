// The plan's bodies by key, into book and table: the last steps of open.
#![tactic(auto)]

ghost use Rattle.std.specs.Prelude.{◌≡◌, map, ℕ, ◌+◌, ◌*◌, ◌≤◌, ◌<◌, length, take};
ghost use Rattle.lists.specs.Each.{Each};
ghost use Rattle.lists.specs.Part.{part, over};
ghost use Rattle.lists.specs.Rows.{flat, rows_of};
ghost use Rattle.passage.specs.Layout.{body_wide, row_wide};
ghost use Rattle.book.specs.Entries.{plan_wide, plan_entry};
ghost use Rattle.book.specs.Rules.{book_room, plan_row, plan_rows};
ghost use Rattle.calls.specs.Leaves.{leaves};
ghost use Rattle.opening_write.specs.inner.Steps.{bodies_at, opened_leaves};

use calls::{Counts, Outcome, Refusal};

// As many plan entries as a book has room for.
pub const MOST_PLANS: usize = book::MOST_BYTES / book::PLAN_WIDE;

// The body at p becomes a row from `at` on that no update was heard of.
fn write_row(table: &mut [u8], at: usize, bodies: &[u8], p: usize)
    requires { (at + row_wide ≤ length table.old) × (p + body_wide ≤ length bodies.now) }
    ensures { table.new ≡ over at (plan_row (part p body_wide bodies.now)) table.old }
{
    lists::copy_to(table, at, &bodies[p..p + passage::BODY_WIDE]);
    table[at + passage::HEARD_AT] = 0;
}

// The plan entries of the n bodies, in this order, from the start of the book's free tail: of a book that is opened all is free.
fn write_plan(tail: &mut [u8], bodies: &[u8], order: &[u32], n: usize)
    requires plan_wide_in_bounds { (n * plan_wide ≤ length tail.old) × (n * body_wide ≤ length bodies.now) × (n ≤ length order.now) }
    requires each { Each (λ (j : ℕ). j < n) (take n order.now) }
    ensures { tail.new ≡ over 0 (flat (map plan_entry (bodies_at bodies.now (take n order.now)))) tail.old }
{
    let mut i = 0;
    while i < n {
        let j = order[i] as usize;
        book_write::write_plan_entry(tail, i * book::PLAN_WIDE, bodies, j * passage::BODY_WIDE);
        i += 1;
    }
}

// The rows of the n bodies, in this order.
// kept: (d) beside `write_plan`: a function for both would take the writing of one as a closure that is lent the whole area, and its contract would say what that writes, which is longer than the loop.
fn write_rows(table: &mut [u8], bodies: &[u8], order: &[u32], n: usize)
    requires row_wide_in_bounds { (n * row_wide ≤ length table.old) × (n * body_wide ≤ length bodies.now) × (n ≤ length order.now) }
    requires each { Each (λ (j : ℕ). j < n) (take n order.now) }
    ensures { table.new
        ≡ over 0 (flat (plan_rows (bodies_at bodies.now (take n order.now)))) table.old }
{
    let mut i = 0;
    while i < n {
        let j = order[i] as usize;
        write_row(table, i * passage::ROW_WIDE, bodies, j * passage::BODY_WIDE);
        i += 1;
    }
}

// The bodies by key: 9, 8, or entries and rows. The book has room.
pub fn sort_and_write(
    bodies: &[u8],
    count: usize,
    book: &mut [u8],
    table: &mut [u8],
    counts: Counts,
) -> Outcome
    requires { (count * body_wide ≤ length bodies.now) × (count * plan_wide ≤ book_room book.old) }
    ensures { leaves result book.new table.new
        ≡ opened_leaves (rows_of body_wide count bodies.now) book.old table.old counts }
{
    let mut order = [0u32; MOST_PLANS];
    let distinct = sorting_merge::sort_keys(bodies, count, 0, passage::BODY_WIDE, &mut order);
    let room = table::rows_room(table);
    if distinct != count {
        return calls::unchanged(Err(Refusal::KeyTwice), counts);
    }
    if room < count {
        return calls::unchanged(Err(Refusal::TableShort), counts);
    }
    write_plan(book, bodies, &order, count);
    write_rows(table, bodies, &order, count);
    calls::accepted(0, count * book::PLAN_WIDE, count)
}
