// The calls of a message that comes in parts, begin, feed and end, over plain numbers and lent memory, as `desk` exports them for C. include/desk.h says what the numbers are.
#![tactic(auto)]

ghost use Rattle.std.specs.Prelude.{◌≡◌, take};
ghost use Rattle.calls.specs.Leaves.{counts_of};
ghost use Rattle.calls.specs.End.{end_leaves};
ghost use Rattle.calls.specs.Numbers.{end_numbers};
ghost use Rattle.feeds.specs.Kept.{begun_by};
ghost use Rattle.feeds.specs.Feeding.{feeding, feed_leaves};
ghost use Rattle.desk_answers.specs.Answered.{four, end_told, end_told_of};

use calls::Counts;

// A message that comes in parts begins. Its sender and its form are kept with the feed's numbers.
pub fn desk_feed_begin(sender: u8, form: u32, feed: &mut [u64; 48]) -> u32
    ensures number { result ≡ 0 }
    ensures feed { feed.new ≡ begun_by sender form }
{
    feeds::begin(feed, sender, form);
    0
}

// The next part of it, of any length.
pub fn desk_feed(
    part: &[u8],
    register: &[u8],
    staging: &mut [u8],
    line: &mut [u8; 4096],
    feed: &mut [u64; 48],
) -> u32
    ensures { feeding result feed.new line.new staging.new
        ≡ feed_leaves part.now register.now staging.old line.old feed.old }
{
    feeds_part::feed(part, register, staging, line, feed)
}

// Its end: what was staged is taken whole or refused whole.
pub fn desk_feed_end(
    register: &[u8],
    staging: &[u8],
    book: &mut [u8],
    table: &mut [u8],
    used: u64,
    rows: u64,
    feed: &mut [u64; 48],
    answer: &mut [u64; 6],
) -> u32
    ensures told { end_told result answer.new book.new table.new feed.new
        ≡ end_told_of (end_leaves register.now staging.now book.old table.old (counts_of used rows) feed.old) }
    ensures numbers { take 4 answer.new
        ≡ four (end_numbers register.now staging.now book.old table.old (counts_of used rows) feed.old) }
{
    let counts = Counts {
        used: used as usize,
        rows: rows as usize,
    };
    let outcome = feeds_end::end(register, staging, book, table, counts, feed);
    desk_answers::set_answer(answer, outcome)
}
