// Open: a planning and a calendar dossier become the plan, in book and table.
#![tactic(auto)]

ghost use Rattle.std.specs.Prelude.{◌≡◌, ◌*◌, ◌≤◌, length};
ghost use Rattle.lists.specs.Rows.{rows_of};
ghost use Rattle.reader.specs.Passes.{pass_wide, validity_wide};
ghost use Rattle.calls.specs.Answers.{numbers};
ghost use Rattle.calls.specs.Leaves.{leaves};
ghost use Rattle.calls.specs.Open.{open_leaves};
ghost use Rattle.calls.specs.Numbers.{open_numbers};
ghost use Rattle.opening_write.specs.inner.Steps.{opened_leaves};
ghost use Rattle.opening.specs.inner.Steps.{most_passes, most_validities, HoldsPasses, HoldsValidities, calendar_leaves};
ghost use Rattle.opening.specs.inner.Joining.{fewer, staged_pairs, Enough};

use calls::{Counts, Outcome, Refusal};

// The most pass times of any planning, and room for them.
const MOST_PASSES: usize = 6553;

const PASSES: usize = MOST_PASSES * plan::PASS_WIDE;

// The most validities of any calendar, and room for them.
const MOST_VALIDITIES: usize = 5461;

const VALIDITIES: usize = MOST_VALIDITIES * plan::VALIDITY_WIDE;

// Clearing those takes much of the time of a small opening, which so has smaller ones. A small planning has few pass times.
const SMALL_PLANNING: usize = 8192;

const FEW_PASSES: usize = 819;

const SMALL_PASSES: usize = FEW_PASSES * plan::PASS_WIDE;

// A small calendar has few validities.
const SMALL_CALENDAR: usize = 4096;

const FEW_VALIDITIES: usize = 341;

const SMALL_VALIDITIES: usize = FEW_VALIDITIES * plan::VALIDITY_WIDE;

// With the planning read, so many pass times: the calendar.
fn read_and_join(
    passes: &[u8],
    times: usize,
    calendar: &[u8],
    validities: &mut [u8],
    book: &mut [u8],
    table: &mut [u8],
    counts: Counts,
) -> Outcome
    requires pass_wide_in_bounds { (times * pass_wide ≤ length passes.now) × (times ≤ most_passes) }
    requires holds_validities { HoldsValidities calendar.now (length validities.old) }
    ensures { leaves result book.new table.new
        ≡ calendar_leaves calendar.now (rows_of pass_wide times passes.now) book.old table.old counts }
{
    let reading = reader::read_calendar(calendar, validities);
    match calls::passed(reading, 2) {
        Ok(days) => join_fitting(passes, times, validities, days, book, table, counts),
        Err(refusal) => calls::unchanged(Err(refusal), counts),
    }
}

// Open, with areas for the pass times and the validities. Nothing lent is written before it is certain that all is taken.
fn open_by(
    planning: &[u8],
    calendar: &[u8],
    passes: &mut [u8],
    validities: &mut [u8],
    book: &mut [u8],
    table: &mut [u8],
    counts: Counts,
) -> Outcome
    requires holds_passes { HoldsPasses planning.now (length passes.old) }
    requires holds_validities { HoldsValidities calendar.now (length validities.old) }
    ensures { leaves result book.new table.new
        ≡ open_leaves planning.now calendar.now book.old table.old counts }
{
    let reading = reader::read_planning(planning, passes);
    match calls::passed(reading, 1) {
        Ok(times) => read_and_join(passes, times, calendar, validities, book, table, counts),
        Err(refusal) => calls::unchanged(Err(refusal), counts),
    }
}

// Open: refusals 2, 3, 15, 4 and 5 of the planning, then of the calendar, 7, 9 and 8, or the new counts.
// Everything is read, joined and sorted in local areas first: nothing lent is written before it is certain that all is taken. Small dossiers get small
// areas, which hold the rows of any planning and calendar of that length.
pub fn open(
    planning: &[u8],
    calendar: &[u8],
    book: &mut [u8],
    table: &mut [u8],
    counts: Counts,
) -> Outcome
    ensures lent { leaves result book.new table.new
        ≡ open_leaves planning.now calendar.now book.old table.old counts }
    ensures numbers { numbers result.answer
        ≡ open_numbers planning.now calendar.now book.old table.old }
{
    if (planning.len() <= SMALL_PLANNING) & (calendar.len() <= SMALL_CALENDAR) {
        let mut passes = [0u8; SMALL_PASSES];
        let mut validities = [0u8; SMALL_VALIDITIES];
        return open_by(
            planning,
            calendar,
            &mut passes,
            &mut validities,
            book,
            table,
            counts,
        );
    }
    let mut passes = [0u8; PASSES];
    let mut validities = [0u8; VALIDITIES];
    open_by(
        planning,
        calendar,
        &mut passes,
        &mut validities,
        book,
        table,
        counts,
    )
}

// ---- Staged pass times and validities become the plan, in book and table: open, once both dossiers are read. It reads no dossier.

// Room for the bodies of as many plan entries as a book has room for.
const BODIES: usize = opening_write::MOST_PLANS * passage::BODY_WIDE;

// Clearing that takes long beside joining a few pairs, which so have a smaller one. Few pairs, and room for their bodies.
const FEW_PAIRS: usize = 640;

const FEW_BODIES: usize = FEW_PAIRS * passage::BODY_WIDE;

// The smaller number.
fn fewer(a: usize, b: usize) -> usize
    ensures { result ≡ fewer a b }
{
    if a <= b {
        return a;
    }
    b
}

// The joined pairs of so many pass times and validities: 7 where the book has no room for all of them, whatever their keys. The area holds all pairs,
// or as many bodies as any book: so it is never what they lack room in.
fn join_all(
    passes: &[u8],
    times: usize,
    validities: &[u8],
    days: usize,
    bodies: &mut [u8],
    book: &mut [u8],
    table: &mut [u8],
    counts: Counts,
) -> Outcome
    requires { (times * pass_wide ≤ length passes.now) × (days * validity_wide ≤ length validities.now) × Enough times days (length bodies.old) }
    ensures { leaves result book.new table.new
        ≡ opened_leaves (staged_pairs times passes.now days validities.now) book.old table.old counts }
{
    let room = book::book_room(book) / book::PLAN_WIDE;
    let most = fewer(room, bodies.len() / passage::BODY_WIDE);
    let pairs = plan::join(passes, times, validities, days, bodies, most);
    if most < pairs {
        return calls::unchanged(Err(Refusal::BookShort), counts);
    }
    opening_write::sort_and_write(bodies, pairs, book, table, counts)
}

// The same, with an area for the bodies: a small one where the pairs are few, so that little is cleared for them.
pub fn join_fitting(
    passes: &[u8],
    times: usize,
    validities: &[u8],
    days: usize,
    book: &mut [u8],
    table: &mut [u8],
    counts: Counts,
) -> Outcome
    requires { (times * pass_wide ≤ length passes.now) × (days * validity_wide ≤ length validities.now) × (times ≤ most_passes) × (days ≤ most_validities) }
    ensures { leaves result book.new table.new
        ≡ opened_leaves (staged_pairs times passes.now days validities.now) book.old table.old counts }
{
    if times * days <= FEW_PAIRS {
        let mut bodies = [0u8; FEW_BODIES];
        return join_all(
            passes,
            times,
            validities,
            days,
            &mut bodies,
            book,
            table,
            counts,
        );
    }
    let mut bodies = [0u8; BODIES];
    join_all(
        passes,
        times,
        validities,
        days,
        &mut bodies,
        book,
        table,
        counts,
    )
}
