// The C face: what `libdesk.a` exports and include/desk.h declares. Each export gives what it is lent to the function of its name below, and promises the same.
#![tactic(auto)]

ghost use Rattle.std.specs.Prelude.{◌≡◌, take};
ghost use Rattle.calls.specs.Leaves.{counts_of};
ghost use Rattle.calls.specs.Open.{open_leaves};
ghost use Rattle.calls.specs.Message.{message_leaves};
ghost use Rattle.calls.specs.Withdraw.{withdraw_leaves};
ghost use Rattle.calls.specs.End.{end_leaves};
ghost use Rattle.calls.specs.Numbers.{open_numbers, message_numbers, withdraw_numbers, end_numbers};
ghost use Rattle.feeds.specs.Kept.{begun_by};
ghost use Rattle.feeds.specs.Feeding.{feeding, feed_leaves};
ghost use Rattle.board_show.specs.Ask.{asked};
ghost use Rattle.board.specs.Rules.{board_leaves};
ghost use Rattle.desk_answers.specs.Answered.{four, told, told_of, end_told, end_told_of};
ghost use Rattle.desk_boards.specs.Answered.{board_number, board_answered};

// A planning and a calendar become the plan. The counts are only given back on a refusal.
#[unsafe(no_mangle)]
pub extern "C" fn desk_open(
    planning: &[u8],
    calendar: &[u8],
    book: &mut [u8],
    table: &mut [u8],
    used: u64,
    rows: u64,
    answer: &mut [u64; 6],
) -> u32
    ensures told { told result answer.new book.new table.new
        ≡ told_of (open_leaves planning.now calendar.now book.old table.old (counts_of used rows)) }
    ensures numbers { take 4 answer.new
        ≡ four (open_numbers planning.now calendar.now book.old table.old) }
{
    desk_day::desk_open(planning, calendar, book, table, used, rows, answer)
}

// A message from a sender, in the form that is stated, is taken whole or refused whole.
#[unsafe(no_mangle)]
pub extern "C" fn desk_message(
    dossier: &[u8],
    sender: u8,
    form: u32,
    register: &[u8],
    book: &mut [u8],
    table: &mut [u8],
    used: u64,
    rows: u64,
    answer: &mut [u64; 6],
) -> u32
    ensures told { told result answer.new book.new table.new
        ≡ told_of (message_leaves dossier.now sender form register.now book.old table.old (counts_of used rows)) }
    ensures numbers { take 4 answer.new
        ≡ four (message_numbers dossier.now sender form register.now book.old table.old (counts_of used rows)) }
{
    desk_day::desk_message(
        dossier, sender, form, register, book, table, used, rows, answer,
    )
}

// A message that comes in parts begins. Its sender and its form are kept with the feed's numbers.
#[unsafe(no_mangle)]
pub extern "C" fn desk_feed_begin(sender: u8, form: u32, feed: &mut [u64; 48]) -> u32
    ensures number { result ≡ 0 }
    ensures feed { feed.new ≡ begun_by sender form }
{
    desk_feeds::desk_feed_begin(sender, form, feed)
}

// The next part of it, of any length.
#[unsafe(no_mangle)]
pub extern "C" fn desk_feed(
    part: &[u8],
    register: &[u8],
    staging: &mut [u8],
    line: &mut [u8; 4096],
    feed: &mut [u64; 48],
) -> u32
    ensures { feeding result feed.new line.new staging.new
        ≡ feed_leaves part.now register.now staging.old line.old feed.old }
{
    desk_feeds::desk_feed(part, register, staging, line, feed)
}

// Its end: what was staged is taken whole or refused whole.
#[unsafe(no_mangle)]
pub extern "C" fn desk_feed_end(
    register: &[u8],
    staging: &[u8],
    book: &mut [u8],
    table: &mut [u8],
    used: u64,
    rows: u64,
    feed: &mut [u64; 48],
    answer: &mut [u64; 6],
) -> u32
    ensures told { end_told result answer.new book.new table.new feed.new
        ≡ end_told_of (end_leaves register.now staging.now book.old table.old (counts_of used rows) feed.old) }
    ensures numbers { take 4 answer.new
        ≡ four (end_numbers register.now staging.now book.old table.old (counts_of used rows) feed.old) }
{
    desk_feeds::desk_feed_end(register, staging, book, table, used, rows, feed, answer)
}

// A message is withdrawn: as if it had never been.
#[unsafe(no_mangle)]
pub extern "C" fn desk_withdraw(
    number: u32,
    sender: u8,
    book: &mut [u8],
    table: &mut [u8],
    used: u64,
    rows: u64,
    answer: &mut [u64; 6],
) -> u32
    ensures told { told result answer.new book.new table.new
        ≡ told_of (withdraw_leaves number sender book.old table.old (counts_of used rows)) }
    ensures numbers { take 4 answer.new
        ≡ four (withdraw_numbers number sender book.old table.old (counts_of used rows)) }
{
    desk_day::desk_withdraw(number, sender, book, table, used, rows, answer)
}

// The board of a stop from a second of a date on: places of rows by departure moment, then key, as many as fit.
#[unsafe(no_mangle)]
pub extern "C" fn desk_board(
    owner: &[u8],
    stop: &[u8],
    date: u32,
    second: u32,
    horizon: u32,
    table: &[u8],
    rows: u64,
    places: &mut [u32],
    answer: &mut [u64; 3],
) -> u32
    ensures number { result
        ≡ board_number (board_leaves (asked owner.now stop.now date second horizon) table.now rows places.old).answer }
    ensures answer { answer.new
        ≡ board_answered (board_leaves (asked owner.now stop.now date second horizon) table.now rows places.old).answer }
    ensures places { places.new
        ≡ (board_leaves (asked owner.now stop.now date second horizon) table.now rows places.old).places }
{
    desk_boards::desk_board(
        owner, stop, date, second, horizon, table, rows, places, answer,
    )
}
