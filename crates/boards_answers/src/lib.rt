// What a call answered, in words: an acceptance with what it changed, a refusal with what can be done about it. The call's numbers are given; what else is said is worked out by `boards_reasons` and `boards_keys`. Each function prints; nothing comes back and nothing is changed.
#![tactic(auto)]

use calls::{Counts, Four, Outcome};
use columns::Table;
use std::io::Stdout;

// How much more there is now; nothing where there is less.
fn growth(before: usize, now: usize) -> usize {
    if now < before {
        return 0;
    }
    now - before
}

// Refusals of which nothing is looked up in a dossier.
fn plain(out: Stdout, place: u32, line: &[u8], f: Four) {
    let all = b"|\
        book, table or register not sound|\
        more than 65,536 bytes in the dossier|||||\
        no room in the book, and withdrawing frees none|\
        no room in the table||\
        no such message|\
        message already withdrawn|\
        message of another sender||\
        no room in the staging area|\
        more than 4,096 bytes in line %C|||\
        unknown form, which is 0 for the old one and 1 for turbo 8.5";
    let words = turbo::field_of(all, f.number as usize);
    boards_words::refuse(
        out,
        line,
        words,
        f.dossier as usize,
        b"",
        b"",
        b"",
        &[place as usize, f.number as usize, f.value],
    );
}

// Which dossier an opening's refusal is of, and its table.
fn refuse_opening(out: Stdout, place: u32, line: &[u8], planning: &[u8], calendar: &[u8], f: Four) {
    if f.number == 9 {
        return boards_keys::tell(out, place, line, planning, calendar);
    }
    if f.dossier == 2 {
        return refuse(out, place, line, Table::Calendar, calendar, f, 0);
    }
    refuse(out, place, line, Table::Planning, planning, f, 0);
}

// A refusal by its number.
fn refuse(out: Stdout, place: u32, line: &[u8], table: Table, dossier: &[u8], f: Four, sender: u8) {
    let number = f.number;
    match number {
        3 => boards_reasons::tell_syntax(out, place, line, dossier, f),
        4 => boards_reasons::tell_form(out, place, line, table, dossier, f),
        5 => boards_reasons::tell_field(out, place, line, dossier, f),
        6 => boards_reasons::tell_owner(out, place, line, dossier, f, sender),
        _ => plain(out, place, line, f),
    }
}

// What an opening answered: a planning and a calendar that give no passages are most often the wrong files.
pub fn opened(
    out: Stdout,
    place: u32,
    line: &[u8],
    planning: &[u8],
    calendar: &[u8],
    outcome: Outcome,
) {
    let a = outcome.answer;
    let c = outcome.counts;
    let f = calls::numbers(a);
    if 0 < f.number {
        return refuse_opening(out, place, line, planning, calendar, f);
    }
    if c.rows == 0 {
        return boards_words::tell(
            out,
            b"%0%1%2: accepted, NO passages\n",
            line,
            b"",
            b"",
            b"",
            &[0],
        );
    }
    boards_words::tell(
        out,
        b"%0%1%2: accepted; book %A bytes, table %B rows\n",
        line,
        b"",
        b"",
        b"",
        &[c.used, c.rows],
    );
}

// An acceptance: a message without rows gets no number.
fn took(out: Stdout, line: &[u8], number: usize, before: Counts, now: Counts) {
    if number == 0 {
        return boards_words::tell(
            out,
            b"%0%1%2%3%4: accepted, NO rows\n",
            line,
            b"",
            b"",
            b"",
            &[0],
        );
    }
    boards_words::tell(
        out,
        b"%0%1%2%3%4: accepted as message %A; rows %B, passages new to the table %C; book %D bytes, table %E rows\n",
        line,
        b"",
        b"",
        b"",
        &[
            number,
            growth(before.used, now.used) / book::ENTRY_WIDE,
            growth(before.rows, now.rows),
            now.used,
            now.rows,
        ],
    );
}

// What a message in this form answered, whole or in parts: its number, how many rows it had, how many passages are new to the table.
pub fn sent(
    out: Stdout,
    place: u32,
    line: &[u8],
    dossier: &[u8],
    sender: u8,
    form: u32,
    before: Counts,
    outcome: Outcome,
) {
    let a = outcome.answer;
    let c = outcome.counts;
    let f = calls::numbers(a);
    if 0 < f.number {
        let table = Table::Message(columns::form_of(form));
        return refuse(out, place, line, table, dossier, f, sender);
    }
    took(out, line, f.value, before, c);
}

// What a withdrawal answered: how many passages left the table.
pub fn withdrawn(out: Stdout, place: u32, line: &[u8], before: Counts, outcome: Outcome) {
    let a = outcome.answer;
    let c = outcome.counts;
    let f = calls::numbers(a);
    if 0 < f.number {
        return plain(out, place, line, f);
    }
    boards_words::tell(
        out,
        b"%0%1%2: accepted; passages that left the table %A; book %B bytes, table %C rows before, %D now\n",
        line,
        b"",
        b"",
        b"",
        &[growth(c.rows, before.rows), c.used, before.rows, c.rows],
    );
}

// ---- Lines that are no call.

// A pair that is registered, by where the pairs ended before it.
pub fn enrolled(out: Stdout, line: &[u8], end: usize) {
    boards_words::tell(
        out,
        b"%0%1%2: pair %A of 64\n",
        line,
        b"",
        b"",
        b"",
        &[end / register::PAIR_WIDE + 1],
    );
}

// A day that is kept in a file: how much of book, table and register is used.
fn day(out: Stdout, words: &[u8], line: &[u8], pairs: usize, used: usize, rows: usize) {
    boards_words::tell(
        out,
        words,
        line,
        b"",
        b"",
        b"",
        &[used, rows, pairs / register::PAIR_WIDE],
    );
}

// A day that is saved.
pub fn saved(out: Stdout, line: &[u8], pairs: usize, used: usize, rows: usize) {
    day(
        out,
        b"%0%1: saved; book %A bytes, table %B rows, pairs %C\n",
        line,
        pairs,
        used,
        rows,
    );
}

// A day that is loaded.
pub fn loaded(out: Stdout, line: &[u8], pairs: u32, used: u32, rows: u32) {
    day(
        out,
        b"%0%1: loaded; book %A bytes, table %B rows, pairs %C\n",
        line,
        pairs as usize,
        used as usize,
        rows as usize,
    );
}

// A file that is no day.
pub fn no_day(out: Stdout, place: u32, line: &[u8]) {
    boards_words::refuse(
        out,
        line,
        b"no sound day in the file",
        0,
        b"",
        b"",
        b"",
        &[place as usize, 1],
    );
}
