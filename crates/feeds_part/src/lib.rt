// A part of a dossier is fed: its bytes are scanned once, its lines read where they lie, and what is left of the last is held for the next part.
#![tactic(auto)]

ghost use Rattle.std.specs.Prelude.{◌≡◌, ◌+◌, ◌-◌, ◌≤◌, ◌<◌, ltb, length, take, Ok};
ghost use Rattle.lists.specs.Logic.{on};
ghost use Rattle.lists.specs.Part.{over};
ghost use Rattle.syntax.specs.declared.State.{State};
ghost use Rattle.syntax_scan.specs.Scanned.{scanned};
ghost use Rattle.reader_step.specs.Step.{moved, line_staged};
ghost use Rattle.feeds.specs.Feed.{no_bytes, message_of, faulted, line_ended, ended, fed};
ghost use Rattle.feeds.specs.Kept.{read_of};
ghost use Rattle.feeds.specs.Claims.{FeedFits};
ghost use Rattle.feeds.specs.Feeding.{feeding, feed_leaves};
ghost use Rattle.feeds_part.specs.inner.Lines.{stands_at, longer, fed_as, lent, held_all, moved_to, counted_by, open_for, rows_stay, line_on};

use columns::Table;
use feeds::Feed;
use syntax::State;

// ---- small changes of what is kept

// So many bytes more of a line that goes on.
fn lengthen(feed: Feed, more: usize) -> Feed
    requires { (feed.at + more ≤ 4294967296) × (feed.size + more ≤ 4294967296) }
    ensures { result ≡ longer more feed }
{
    Feed {
        at: feed.at + more,
        size: feed.size + more,
        ..feed
    }
}

// The machine stands behind them.
fn stand(feed: Feed, machine: State) -> Feed
    ensures { result ≡ stands_at machine feed }
{
    Feed { machine, ..feed }
}

// So many bytes that are only counted.
fn count(feed: Feed, more: usize) -> Feed
    requires { feed.at ≤ 65537 }
    ensures { result ≡ counted_by more feed }
{
    let at = feed.at;
    if 65537 - at < more {
        return Feed { at: 65537, ..feed };
    }
    Feed {
        at: at + more,
        ..feed
    }
}

// The byte to come may not stand there.
fn at_fault(feed: Feed) -> Feed
    requires { feed.at < 65536 }
    ensures { result ≡ faulted feed }
{
    Feed {
        at: feed.at + 1,
        fault: feed.at + 1,
        ..feed
    }
}

// A line's LF.
fn end_line(feed: Feed, long: usize, staged: usize, lines: reader_step::State) -> Feed
    requires { feed.at < 65536 }
    ensures { result ≡ line_ended feed.machine long staged lines feed }
{
    Feed {
        at: feed.at + 1,
        size: 0,
        long,
        staged,
        lines,
        ..feed
    }
}

// ---- a line

// A line that is only counted; `long` is the first that is too long.
fn skip(feed: Feed, long: usize) -> Feed
    requires { (feed.at < 65536) × (feed.lines.line < 4294967296) }
    ensures { result ≡ line_ended feed.machine long feed.staged (moved feed.lines feed.lines.place) feed }
{
    let mut lines = feed.lines;
    lines.line += 1;
    end_line(feed, long, feed.staged, lines)
}

// How many rows lie in the staging area: one more where a row came, all before it lie there, and it does too.
fn staged_after(table: Table, before: usize, after: usize, staged: usize, room: usize) -> usize
    requires { (after < 4294967296) × (staged < 4294967296) }
    ensures { result ≡ on (rows_stay table before after staged room) (staged + 1) staged }
{
    let end = after * columns::row_width(table);
    if (before < after) & ((staged == before) & (end <= room)) {
        return staged + 1;
    }
    staged
}

// A line that is read: its bytes with the CR.
fn read_line(feed: Feed, bytes: &[u8], register: &[u8], staging: &mut [u8]) -> Feed
    requires { (feed.at < 65536) × FeedFits feed }
    ensures feed { result ≡ line_on register.now (take (length bytes.now - 1) bytes.now) feed staging.old }
    ensures area { staging.new ≡ line_staged (message_of feed) register.now feed.sender feed.lines (take (length bytes.now - 1) bytes.now) staging.old }
{
    let end = bytes.len().saturating_sub(1);
    let before = feed.lines;
    let table = feeds::message_of(feed.form);
    let after = reader_step::line_step(
        table,
        before,
        &bytes[..end],
        register,
        feed.sender,
        staging,
    );
    let more = staged_after(table, before.rows, after.rows, feed.staged, staging.len());
    end_line(feed, feed.long, more, after)
}

// The line that ends behind these bytes: lent from the part where it lies whole in it, else put together.
fn line_ended(feed: Feed, text: &[u8], register: &[u8], staging: &mut [u8], line: &mut [u8]) -> Feed
    requires { (length line.old ≡ 4096) × (feed.at + length text.now < 65536) × FeedFits feed }
    ensures { lent result line.new staging.new
        ≡ ended register.now feed.machine (held_all text.now (lent feed line.old staging.old)) }
{
    let start = feed.size;
    let longer = lengthen(feed, text.len());
    let size = longer.size;
    let long = longer.long;
    if long != 0 {
        return skip(longer, long);
    }
    if 4096 <= size {
        return skip(longer, longer.lines.line);
    }
    if start == 0 {
        return read_line(longer, text, register, staging);
    }
    lists::copy_to(line, start, text);
    read_line(longer, &line[..size], register, staging)
}

// ---- the unfinished line

// The smaller of the two.
fn smaller(left: usize, right: usize) -> usize
    ensures { result ≡ on (ltb left right) left right }
{
    if left < right {
        return left;
    }
    right
}

// The rest goes behind the bytes that are held, as far as it fits, and zeros behind it.
// kept: (a) no heap: the lent area has a fixed size, and `size` says how much of it the unfinished line takes.
fn hold_bytes(line: &mut [u8], size: usize, rest: &[u8])
    requires { length line.old ≡ 4096 }
    ensures { line.new ≡ over size rest.now (over 0 (take size line.old) no_bytes) }
{
    if 4096 <= size {
        return;
    }
    let fitting = smaller(4096 - size, rest.len());
    lists::copy_to(line, size, &rest[..fitting]);
    let held = size + fitting;
    lists::clear(line, held, 4096 - held);
}

// ---- bytes

// Bytes that the machine takes, up to where it stands: the lines that end in them, and the rest.
// kept: (d) a turn takes the line that is found, so that there is no range to go over.
fn feed_lines(
    feed: Feed,
    machine: State,
    bytes: &[u8],
    register: &[u8],
    staging: &mut [u8],
    line: &mut [u8],
) -> Feed
    requires fits { (length line.old ≡ 4096) × FeedFits feed }
    requires taken { (scanned feed.machine bytes.now 0 ≡ Ok machine) × (0 < length bytes.now → (feed.fault ≡ 0) × (feed.at + length bytes.now ≤ 65536)) }
    ensures is { fed_as result line.new staging.new ≡ fed register.now (lent feed line.old staging.old) bytes.now }
    ensures counted { (result.at ≡ feed.at + length bytes.now) × (result.fault ≡ feed.fault) × (result.machine ≡ machine) }
{
    let mut f = feed;
    let mut rest = bytes;
    let mut n = turbo_lines::line_feed(rest);
    while n < rest.len() {
        f = line_ended(f, &rest[..n], register, staging, line);
        rest = &rest[n + 1..];
        n = turbo_lines::line_feed(rest);
    }
    hold_bytes(line, f.size, rest);
    stand(lengthen(f, rest.len()), machine)
}

// How many of so many bytes are looked at: none behind a fault, and none behind the largest dossier.
fn open_for(feed: Feed, many: usize) -> usize
    ensures { result ≡ open_for many feed }
{
    if feed.fault != 0 {
        return 0;
    }
    if feed.at < 65536 {
        return smaller(65536 - feed.at, many);
    }
    0
}

// Where bytes lead that lead somewhere. Only a part at fault is scanned once more.
fn state_behind(machine: State, bytes: &[u8]) -> State
    requires { (t : State) × (scanned machine bytes.now 0 ≡ Ok t) }
    ensures { scanned machine bytes.now 0 ≡ Ok result }
{
    match syntax_scan::scan(machine, bytes) {
        Ok(t) => t,
        Err(_) => machine,
    }
}

// The bytes that are looked at, the byte at fault where there is one, and the rest, which is only counted.
fn feed_bytes(feed: Feed, part: &[u8], register: &[u8], staging: &mut [u8], line: &mut [u8]) -> Feed
    requires { (length line.old ≡ 4096) × FeedFits feed }
    ensures { fed_as result line.new staging.new ≡ fed register.now (lent feed line.old staging.old) part.now }
{
    let open = open_for(feed, part.len());
    let machine = feed.machine;
    match syntax_scan::scan(machine, &part[..open]) {
        Ok(m) => {
            let f = feed_lines(feed, m, &part[..open], register, staging, line);
            count(f, part.len() - open)
        }
        Err(j) => {
            let m = state_behind(machine, &part[..j]);
            let f = feed_lines(feed, m, &part[..j], register, staging, line);
            count(at_fault(f), part.len() - (j + 1))
        }
    }
}

// What the numbers tell. They are 48.
fn read_kept(kept: [u64; 48]) -> Option<Feed>
    ensures is { result ≡ read_of kept }
    ensures room { length kept ≡ 48 }
{
    feeds::read(kept)
}

// A part is fed: 0; or 1 where the numbers are those of no begun feed, and then nothing changes. How a dossier is cut into parts makes no difference.
pub fn feed(
    part: &[u8],
    register: &[u8],
    staging: &mut [u8],
    line: &mut [u8; 4096],
    kept: &mut [u64; 48],
) -> u32
    ensures { feeding result kept.new line.new staging.new
        ≡ feed_leaves part.now register.now staging.old line.old kept.old }
{
    match read_kept(*kept) {
        Some(read) => {
            let after = feed_bytes(read, part, register, staging, line);
            feeds::keep(kept, after);
            0
        }
        None => 1,
    }
}
