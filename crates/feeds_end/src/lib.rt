// The end of a dossier that came in parts: the staged rows are taken whole, as a message, or refused whole.
#![tactic(auto)]

ghost use Rattle.std.specs.Prelude.{◌≡◌, true, ◌&&◌, ◌||◌, map, ◌*◌, ◌/◌, ◌≤◌, leb, ltb, length};
ghost use Rattle.lists.specs.Part.{part};
ghost use Rattle.lists.specs.Rows.{rows_of};
ghost use Rattle.passage.specs.Layout.{body_wide};
ghost use Rattle.passage.specs.inner.Roles.{all_common};
ghost use Rattle.calls.specs.Answers.{numbers};
ghost use Rattle.calls.specs.Leaves.{leaves};
ghost use Rattle.calls.specs.Message.{message_sound};
ghost use Rattle.calls.specs.End.{most_rows, least, all_in_range, any_denied, reading_kept, post_answer, end_with, cleared, end_leaves};
ghost use Rattle.calls.specs.Numbers.{end_numbers};
ghost use Rattle.feeds_end.specs.inner.Steps.{lines_reading, staged_right, found_or, known_or, right_answer, taken_from};

use calls::{Counts, Outcome, Refusal};
use feeds::Feed;
use reader::Fault;

// No message has more rows.
const MOST_ROWS: usize = 2427;

// ---- what was found in the parts

// 15, 4, 5, 6, or so many rows.
fn lines_reading(feed: Feed) -> Result<usize, Fault>
    ensures { result ≡ lines_reading feed }
{
    let lines = feed.lines;
    if feed.long != 0 {
        return Err(Fault::Long(feed.long));
    }
    if lines.form != 0 {
        return Err(Fault::Form(lines.form));
    }
    if lines.wrong != 0 {
        return Err(Fault::Field(lines.wrong, lines.column));
    }
    if lines.owner != 0 {
        return Err(Fault::Owner(lines.owner));
    }
    Ok(lines.rows)
}

// 2 and 3 before them. A dossier that is not finished has its fault where it ends.
fn reading_kept(feed: Feed) -> Result<usize, Fault>
    ensures { result ≡ reading_kept feed }
{
    let machine = feed.machine;
    if 65536 < feed.at {
        return Err(Fault::TooLong);
    }
    if feed.fault != 0 {
        return Err(Fault::Syntax(feed.fault - 1));
    }
    if syntax_bytewise::may_end(machine) {
        return lines_reading(feed);
    }
    Err(Fault::Syntax(feed.at))
}

// ---- the staged rows

// How many of the staged rows lie in the staging area that is lent now.
fn staged_here(staging: &[u8], staged: usize) -> usize
    ensures is { result ≡ least staged (length staging.now / body_wide) }
    ensures within { result * body_wide ≤ length staging.now }
{
    let room = staging.len() / passage::BODY_WIDE;
    if staged <= room {
        return staged;
    }
    room
}

// Whether each is in range, where what all bodies have in common is.
fn updates_in_range(staging: &[u8], count: usize) -> bool
    requires body_wide_in_bounds { count * body_wide ≤ length staging.now }
    requires staging_value { all_common (map (part 0 body_wide) (rows_of body_wide count staging.now)) ≡ true }
    ensures { result ≡ all_in_range (rows_of body_wide count staging.now) }
{
    let mut i = 0;
    while i < count {
        let good = passage::update_in_range(staging, i * passage::BODY_WIDE);
        if good {
            i += 1;
        } else {
            return false;
        }
    }
    true
}

// Whether each is in range.
fn rows_in_range(staging: &[u8], count: usize) -> bool
    requires { count * body_wide ≤ length staging.now }
    ensures { result ≡ all_in_range (rows_of body_wide count staging.now) }
{
    if passage::all_common(staging, 0, passage::BODY_WIDE, 0, count) {
        return updates_in_range(staging, count);
    }
    false
}

// Whether one has an owner that the sender is not registered for.
fn any_denied(register: &[u8], sender: u8, staging: &[u8], count: usize) -> bool
    requires { count * body_wide ≤ length staging.now }
    ensures { result ≡ any_denied register.now sender (rows_of body_wide count staging.now) }
{
    let mut i = 0;
    while i < count {
        if register::registered(
            register,
            sender,
            staging,
            i * passage::BODY_WIDE + passage::OWNER_AT,
        ) {
            i += 1;
        } else {
            return true;
        }
    }
    false
}

// Whether rows were read that were not staged, or do not lie in the staging area that is lent now.
fn falls_short(staging: &[u8], staged: usize, rows: usize) -> bool
    ensures { result ≡ (ltb staged rows || ltb (length staging.now) (rows * body_wide)) }
{
    if staged < rows {
        return true;
    }
    staging.len() / passage::BODY_WIDE < rows
}

// Whether the feed has no more rows than a message has, and the staged rows are in range.
fn staged_right(feed: Feed, staging: &[u8]) -> bool
    ensures { result ≡ staged_right staging.now feed }
{
    let rows = feed.lines.rows;
    if rows <= MOST_ROWS {
        let here = staged_here(staging, feed.staged);
        return rows_in_range(staging, here);
    }
    false
}

// ---- the end

// The staged rows of a dossier without a fault: 6 by the register that is lent now, 14, 7, 8, or acceptance.
fn post(
    feed: Feed,
    register: &[u8],
    staging: &[u8],
    book: &mut [u8],
    table: &mut [u8],
    counts: Counts,
) -> Outcome
    requires counts_value { message_sound register.now book.old table.old counts ≡ true }
    requires staged_le_most_rows { feed.staged ≤ most_rows }
    ensures { leaves result book.new table.new
        ≡ taken_from (post_answer register.now staging.now book.old table.old counts feed)
        feed staging.now book.old table.old counts }
{
    let sender = feed.sender;
    let staged = feed.staged;
    let rows = feed.lines.rows;
    let here = staged_here(staging, staged);
    if any_denied(register, sender, staging, here) {
        return calls::unchanged(Err(Refusal::Owner(0)), counts);
    }
    if falls_short(staging, staged, rows) {
        return calls::unchanged(Err(Refusal::StagingShort), counts);
    }
    messages::take_rows(staging, here, sender, book, table, counts)
}

// What was found in the parts, or the staged rows.
fn end_read(
    feed: Feed,
    register: &[u8],
    staging: &[u8],
    book: &mut [u8],
    table: &mut [u8],
    counts: Counts,
) -> Outcome
    requires counts_value { message_sound register.now book.old table.old counts ≡ true }
    requires staged_le_most_rows { feed.staged ≤ most_rows }
    ensures { leaves result book.new table.new
        ≡ taken_from (found_or register.now staging.now book.old table.old counts feed)
        feed staging.now book.old table.old counts }
{
    match calls::passed(reading_kept(feed), 0) {
        Ok(_) => post(feed, register, staging, book, table, counts),
        Err(refusal) => calls::unchanged(Err(refusal), counts),
    }
}

// 18, for a form that is not known, before all that was found.
fn end_known(
    feed: Feed,
    register: &[u8],
    staging: &[u8],
    book: &mut [u8],
    table: &mut [u8],
    counts: Counts,
) -> Outcome
    requires counts_value { message_sound register.now book.old table.old counts ≡ true }
    requires staged_le_most_rows { feed.staged ≤ most_rows }
    ensures { leaves result book.new table.new
        ≡ taken_from (known_or register.now staging.now book.old table.old counts feed)
        feed staging.now book.old table.old counts }
{
    if columns::is_form(feed.form) {
        return end_read(feed, register, staging, book, table, counts);
    }
    calls::unchanged(Err(Refusal::UnknownForm), counts)
}

// 1 before everything else.
fn end_kept(
    feed: Feed,
    register: &[u8],
    staging: &[u8],
    book: &mut [u8],
    table: &mut [u8],
    counts: Counts,
) -> Outcome
    requires { feed.staged ≤ feed.lines.rows }
    ensures { leaves result book.new table.new
        ≡ taken_from (right_answer register.now staging.now book.old table.old counts feed)
        feed staging.now book.old table.old counts }
{
    if messages::is_sound(register, book, table, counts) {
        if staged_right(feed, staging) {
            return end_known(feed, register, staging, book, table, counts);
        }
        return calls::unchanged(Err(Refusal::Unsound), counts);
    }
    calls::unchanged(Err(Refusal::Unsound), counts)
}

fn clear(kept: &mut [u64; 48])
    ensures { kept.new ≡ cleared }
{
    *kept = [0; 48];
}

// The end of a dossier in parts, which the numbers must be those of a begun feed for: refusals 1, 18, 2, 3, 15, 4 to 6, 14, 7 and 8, or its number and the new counts. An acceptance leaves the feed's numbers zero, so that it
// cannot be ended twice.
pub fn end(
    register: &[u8],
    staging: &[u8],
    book: &mut [u8],
    table: &mut [u8],
    counts: Counts,
    kept: &mut [u64; 48],
) -> Outcome
    ensures lent { end_with result book.new table.new kept.new
        ≡ end_leaves register.now staging.now book.old table.old counts kept.old }
    ensures numbers { numbers result.answer
        ≡ end_numbers register.now staging.now book.old table.old counts kept.old }
{
    let Some(feed) = feeds::read(*kept) else {
        return calls::unchanged(Err(Refusal::Unsound), counts);
    };
    let outcome = end_kept(feed, register, staging, book, table, counts);
    if outcome.answer.is_ok() {
        clear(kept);
        return outcome;
    }
    outcome
}
