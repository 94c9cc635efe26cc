// What a line of the script does. A line that is not done changes nothing, and is counted.
ghost use Rattle.std.specs.Prelude.{◌≡◌, ◌⊎◌, List, ℕ};
ghost use Rattle.boards_orders.specs.Orders.{order_in};
ghost use Rattle.boards_deeds.specs.Deeds.{state, missed, next_line};
ghost use Rattle.boards.specs.Leaves.{Opens, Sends, Loads, LineLeaves};

use crate::files;
use crate::files::Loaded;
use boards_deeds::Held;
use boards_orders::Order;
use calls::Counts;

pub fn nothing() -> Held {
    let counts = Counts { used: 0, rows: 0 };
    Held {
        counts,
        register: 0,
        day: false,
        line: 0,
        bad: 0,
        refused: 0,
    }
}

// Another script on the same day.
pub fn begun(held: Held) -> Held {
    let mut n = held;
    n.line = 0;
    n.bad = 0;
    n.refused = 0;
    n
}

// The file that the k-th word names.
fn load(rt: HostRuntime, line: &[u8], k: usize, buf: &mut [u8]) -> Loaded {
    files::load(rt, script_text::word(line, k), buf)
}

// A byte more than a dossier may have: so one that is too long reaches the call as one.
const PAPER: usize = 65537;

fn open_from(
    rt: HostRuntime,
    line: &[u8],
    first: &mut [u8; PAPER],
    second: &mut [u8; PAPER],
    book: &mut [u8],
    table: &mut [u8],
    held: Held,
) -> Held
    ensures { (register : List ℕ) → Opens (state held register book.old table.old) (state result register book.new table.new) }
{
    let Loaded::Bytes(n) = load(rt, line, 1, first) else {
        return boards_deeds::bad(rt.stdout(), line, 1, boards_orders::UNREADABLE, held);
    };
    let Loaded::Bytes(k) = load(rt, line, 2, second) else {
        return boards_deeds::bad(rt.stdout(), line, 2, boards_orders::UNREADABLE, held);
    };
    let planning = script_text::front(first, n);
    let calendar = script_text::front(second, k);
    boards_deeds::open(rt.stdout(), line, planning, calendar, book, table, held)
}

fn open(rt: HostRuntime, line: &[u8], book: &mut [u8], table: &mut [u8], held: Held) -> Held
    ensures { (register : List ℕ) → Opens (state held register book.old table.old) (state result register book.new table.new) }
{
    let mut first = [0u8; PAPER];
    let mut second = [0u8; PAPER];
    open_from(rt, line, &mut first, &mut second, book, table, held)
}

fn send_from(
    rt: HostRuntime,
    line: &[u8],
    sender: u8,
    size: usize,
    form: u32,
    paper: &mut [u8; PAPER],
    register: &[u8],
    book: &mut [u8],
    table: &mut [u8],
    held: Held,
) -> Held
    ensures { Sends sender form (state held register.now book.old table.old) (state result register.now book.new table.new) }
{
    let Loaded::Bytes(n) = load(rt, line, 2, paper) else {
        return boards_deeds::bad(rt.stdout(), line, 2, boards_orders::UNREADABLE, held);
    };
    let dossier = script_text::front(paper, n);
    boards_deeds::send(
        rt.stdout(),
        line,
        dossier,
        sender,
        size,
        form,
        register,
        book,
        table,
        held,
    )
}

// In the form that is stated, in parts of `size` bytes, or whole where that is 0.
fn send(
    rt: HostRuntime,
    line: &[u8],
    sender: u8,
    size: usize,
    form: u32,
    register: &[u8],
    book: &mut [u8],
    table: &mut [u8],
    held: Held,
) -> Held
    ensures { Sends sender form (state held register.now book.old table.old) (state result register.now book.new table.new) }
{
    let mut paper = [0u8; PAPER];
    send_from(
        rt, line, sender, size, form, &mut paper, register, book, table, held,
    )
}

// ---- Questions, which change nothing.

fn list_messages(rt: HostRuntime, line: &[u8], book: &[u8], held: Held) -> Held
    ensures { result ≡ held }
{
    let c = held.counts;
    boards_listing::messages(rt.stdout(), line, script_text::front(book, c.used));
    held
}

fn list_pairs(rt: HostRuntime, line: &[u8], register: &[u8], held: Held) -> Held
    ensures { result ≡ held }
{
    boards_listing::pairs(
        rt.stdout(),
        line,
        script_text::front(register, held.register),
    );
    held
}

// ---- A day kept in a file.

const PATH: usize = 4096;

// The day to the file that the line names, by way of one with .part behind its name.
fn store(
    rt: HostRuntime,
    line: &[u8],
    heading: &[u8],
    register: &[u8],
    book: &[u8],
    table: &[u8],
) -> bool {
    let name = script_text::word(line, 1);
    let mut path = [0u8; PATH];
    let n = script_text::append(&mut path, 0, name);
    let end = script_text::append(&mut path, n, b".part");
    files::store(
        rt,
        name,
        script_text::front(&path, end),
        heading,
        register,
        book,
        table,
    )
}

fn save(
    rt: HostRuntime,
    line: &[u8],
    register: &[u8],
    book: &[u8],
    table: &[u8],
    held: Held,
) -> Held
    ensures { (result ≡ held) ⊎ (result ≡ missed held) }
{
    let c = held.counts;
    let pairs = held.register;
    let used = c.used;
    let rows = script_text::at_most(c.rows, table::MOST_ROWS);
    let mut heading = [0u8; boards_saved::HEADING_WIDE];
    boards_saved::write_heading(
        &mut heading,
        script_text::low_word(pairs),
        script_text::low_word(used),
        script_text::low_word(rows),
    );
    let whole = store(
        rt,
        line,
        &heading,
        script_text::front(register, pairs),
        script_text::front(book, used),
        script_text::front(table, rows * passage::ROW_WIDE),
    );
    if whole {
        boards_answers::saved(rt.stdout(), line, pairs, used, rows);
        return held;
    }
    boards_deeds::bad(rt.stdout(), line, 1, boards_orders::UNWRITABLE, held)
}

// A byte more than a day's file may have: so one that is too long is none.
const FILE: usize = boards_saved::MOST_BYTES + 1;

fn load_from(
    rt: HostRuntime,
    line: &[u8],
    file: &mut [u8; FILE],
    register: &mut [u8],
    book: &mut [u8],
    table: &mut [u8],
    held: Held,
) -> Held
    ensures { Loads (state held register.old book.old table.old) (state result register.new book.new table.new) }
{
    let Loaded::Bytes(n) = load(rt, line, 1, file) else {
        return boards_deeds::bad(rt.stdout(), line, 1, boards_orders::UNREADABLE, held);
    };
    boards_deeds::load(
        rt.stdout(),
        line,
        script_text::front(file, n),
        register,
        book,
        table,
        held,
    )
}

fn load_day(
    rt: HostRuntime,
    line: &[u8],
    register: &mut [u8],
    book: &mut [u8],
    table: &mut [u8],
    held: Held,
) -> Held
    ensures { Loads (state held register.old book.old table.old) (state result register.new book.new table.new) }
{
    let mut file = [0u8; FILE];
    load_from(rt, line, &mut file, register, book, table, held)
}

// ---- A line, by what it asks.

fn perform(
    rt: HostRuntime,
    line: &[u8],
    order: Order,
    register: &mut [u8],
    book: &mut [u8],
    table: &mut [u8],
    held: Held,
) -> Held
    ensures { LineLeaves order line.now (state held register.old book.old table.old) (state result register.new book.new table.new) }
{
    match order {
        Order::Nothing => held,
        Order::Open => open(rt, line, book, table, held),
        Order::Register(sender) => boards_deeds::enrol(rt.stdout(), line, sender, register, held),
        Order::Message(sender, form) => send(
            rt, line, sender, 0, form, register, book, table, held,
        ),
        Order::Withdraw(number, sender) => boards_deeds::withdraw(
            rt.stdout(),
            line,
            number,
            sender,
            book,
            table,
            held,
        ),
        Order::Board(date, second, horizon, most) => {
            boards_deeds::ask(rt.stdout(), line, date, second, horizon, most, table, held)
        }
        Order::Messages => list_messages(rt, line, book, held),
        Order::Registered => list_pairs(rt, line, register, held),
        Order::Save => save(rt, line, register, book, table, held),
        Order::Load => load_day(rt, line, register, book, table, held),
        Order::Parts(sender, size, form) => send(
            rt, line, sender, size, form, register, book, table, held,
        ),
        Order::Bad(k, why) => boards_deeds::bad(rt.stdout(), line, k, why, held),
    }
}

pub fn line(
    rt: HostRuntime,
    line: &[u8],
    register: &mut [u8],
    book: &mut [u8],
    table: &mut [u8],
    held: Held,
) -> Held
    ensures { LineLeaves (order_in held.day line.now) line.now (state (next_line held) register.old book.old table.old) (state result register.new book.new table.new) }
{
    let n = boards_deeds::next(held);
    let o = boards_orders::read_order(line, held.day);
    perform(rt, line, o, register, book, table, n)
}
