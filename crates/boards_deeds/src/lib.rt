// What a command does once its files are read: what it leaves of the day's bytes, and of what is held between two lines. Each answer is printed.
#![tactic(auto)]

ghost use Rattle.std.specs.Prelude.{◌≡◌, ℕ, List};
ghost use Rattle.script_text.specs.Rules.{word_at};
ghost use Rattle.boards_deeds.specs.Deeds.{state, missed, declined, next_line, holding, enrolled_held, enrolled_register, opened_by, sent, withdrawn_by, asked_by, loaded_held, loaded_from};

use boards_saved::Saved;
use calls::{Counts, Outcome};
use std::io::Stdout;

// What is kept between two lines: the counts, how much of the register is used, whether a day is open; and of the script the line's number, how many lines were not done and how many were refused.
#[derive(Clone, Copy)]
pub struct Held {
    pub counts: Counts,
    pub register: usize,
    pub day: bool,
    pub line: u32,
    pub bad: u32,
    pub refused: u32,
}

// A line that is not done: the word that is wrong, and why.
fn miss(out: Stdout, word: &[u8], why: usize, held: Held) -> Held
    ensures { result ≡ missed held }
{
    boards_words::miss(out, held.line, word, why);
    let mut n = held;
    n.bad = std::num::wrapping_add_u32(held.bad, 1);
    n
}

// A line that is not done, by the place of the word that is wrong.
pub fn bad(out: Stdout, line: &[u8], k: usize, why: usize, held: Held) -> Held
    ensures { result ≡ missed held }
{
    miss(out, script_text::word(line, k), why, held)
}

// A line more.
pub fn next(held: Held) -> Held
    ensures { result ≡ next_line held }
{
    let mut n = held;
    n.line = std::num::wrapping_add_u32(held.line, 1);
    n
}

// A line that is too long to be kept.
pub fn long(out: Stdout, held: Held) -> Held
    ensures { result ≡ missed (next_line held) }
{
    miss(out, b"..", boards_orders::LONG, next(held))
}

// A script that cannot be read, or not to its end.
pub fn unread(out: Stdout, held: Held) -> Held
    ensures { result ≡ missed held }
{
    miss(out, b"script", boards_orders::UNREADABLE, held)
}

// A question, or a file, that is refused.
fn decline(held: Held) -> Held
    ensures { result ≡ declined held }
{
    let mut n = held;
    n.refused = std::num::wrapping_add_u32(held.refused, 1);
    n
}

// What a call answered: the counts are held, and an acceptance has a day open.
fn told(o: Outcome, held: Held) -> Held
    ensures { result ≡ holding o held }
{
    let a = o.answer;
    let c = o.counts;
    let f = calls::numbers(a);
    if f.number == 0 {
        let mut n = held;
        n.counts = c;
        n.day = true;
        return n;
    }
    let mut n = decline(held);
    n.counts = c;
    n
}

// ---- Calls.

// An opening over the bytes that its files gave.
pub fn open(
    out: Stdout,
    line: &[u8],
    planning: &[u8],
    calendar: &[u8],
    book: &mut [u8],
    table: &mut [u8],
    held: Held,
) -> Held
    ensures { (register : List ℕ) → state result register book.new table.new ≡ opened_by planning.now calendar.now (state held register book.old table.old) }
{
    let c = held.counts;
    let o = opening::open(planning, calendar, book, table, c);
    boards_answers::opened(out, held.line, line, planning, calendar, o);
    told(o, held)
}

// A pair behind those that the register has, where it is all zero still.
pub fn enrol(out: Stdout, line: &[u8], sender: u8, register: &mut [u8], held: Held) -> Held
    ensures state { result ≡ enrolled_held held }
    ensures pairs { register.new ≡ enrolled_register sender (word_at 2 line.now) held.register register.old }
{
    let at = held.register;
    if 693 < at {
        return bad(out, line, 2, boards_orders::FULL, held);
    }
    script_text::append(register, at, &[sender]);
    script_text::append(register, at + 1, script_text::word(line, 2));
    boards_answers::enrolled(out, line, at);
    let mut n = held;
    n.register = at + register::PAIR_WIDE;
    n
}

// A message over the bytes that its file gave, in the form that is stated: in parts of `size` bytes, or whole where that is 0.
pub fn send(
    out: Stdout,
    line: &[u8],
    dossier: &[u8],
    sender: u8,
    size: usize,
    form: u32,
    register: &[u8],
    book: &mut [u8],
    table: &mut [u8],
    held: Held,
) -> Held
    ensures { state result register.now book.new table.new ≡ sent dossier.now sender form (state held register.now book.old table.old) }
{
    let c = held.counts;
    let pairs = script_text::front(register, held.register);
    let o = boards_messages::take(dossier, size, sender, form, pairs, book, table, c);
    boards_answers::sent(out, held.line, line, dossier, sender, form, c, o);
    told(o, held)
}

// A message is withdrawn.
pub fn withdraw(
    out: Stdout,
    line: &[u8],
    number: u32,
    sender: u8,
    book: &mut [u8],
    table: &mut [u8],
    held: Held,
) -> Held
    ensures { (register : List ℕ) → state result register book.new table.new ≡ withdrawn_by number sender (state held register book.old table.old) }
{
    let c = held.counts;
    let o = withdrawals::withdraw(number, sender, book, table, c);
    boards_answers::withdrawn(out, held.line, line, c, o);
    told(o, held)
}

// ---- Questions, which change nothing.

// A board is asked for; one that is not shown is refused.
pub fn ask(
    out: Stdout,
    line: &[u8],
    date: u32,
    second: u32,
    horizon: u32,
    most: usize,
    table: &[u8],
    held: Held,
) -> Held
    ensures { (register book : List ℕ) → state result register book table.now ≡ asked_by line.now date second horizon (state held register book table.now) }
{
    let c = held.counts;
    if boards_departures::ask(
        out, held.line, line, date, second, horizon, most, table, c.rows,
    ) {
        return held;
    }
    decline(held)
}

// ---- A day kept in a file.

// What a file holds: a day, which is then the one that is open, or none.
fn hold_day(out: Stdout, line: &[u8], saved: Saved, held: Held) -> Held
    ensures { result ≡ loaded_held saved held }
{
    match saved {
        Saved::Day(pairs, used, rows) => {
            boards_answers::loaded(out, line, pairs, used, rows);
            let counts = Counts {
                used: used as usize,
                rows: rows as usize,
            };
            let mut n = held;
            n.counts = counts;
            n.register = pairs as usize;
            n.day = true;
            n
        }
        Saved::Other => {
            boards_answers::no_day(out, held.line, line);
            decline(held)
        }
    }
}

// The bytes that a file gave take the place of what is lent, if they are a day.
pub fn load(
    out: Stdout,
    line: &[u8],
    file: &[u8],
    register: &mut [u8],
    book: &mut [u8],
    table: &mut [u8],
    held: Held,
) -> Held
    ensures { state result register.new book.new table.new ≡ loaded_from file.now (state held register.old book.old table.old) }
{
    let saved = boards_saved::load(file, register, book, table);
    hold_day(out, line, saved, held)
}
