// What the desk has listed: the day's messages, the registered pairs. Each function prints; nothing comes back and nothing is changed.
// ---- The day's messages.
#![tactic(auto)]

use std::io::Stdout;

// What stands behind the plan entries: the updates.
fn behind_plans(used: &[u8]) -> &[u8] {
    let mut rest = used;
    // kept: what is left is the answer, which no chain of iterators over the entries gives
    while book::PLAN_WIDE <= rest.len() {
        if rest[0] != 1 {
            return rest;
        }
        let next = &rest[book::PLAN_WIDE..];
        rest = next;
    }
    rest
}

// The number of the message that the first entry is of; 0, which is no message's, where there is none.
fn number_of(entries: &[u8]) -> u32 {
    if entries.len() < book::ENTRY_WIDE {
        return 0;
    }
    lists::get_number(entries, book::NUMBER_AT, book::NUMBER_WIDE)
}

// A message of so many rows, by its last entry.
fn message(out: Stdout, entries: &[u8], rows: usize) {
    let all = b"||%A sender %B, rows %C, standing\n|%A sender %B, rows %C, withdrawn\n";
    let kind = script_text::at(entries, 0);
    boards_words::tell(
        out,
        turbo::field_of(all, kind as usize),
        b"",
        b"",
        b"",
        b"",
        &[
            number_of(entries) as usize,
            script_text::at(entries, book::SENDER_AT) as usize,
            rows,
        ],
    );
}

// The messages of these updates, and the last one's number: a message ends where the next entry has another number.
fn updates(out: Stdout, entries: &[u8]) -> u32 {
    let mut last = 0;
    let mut rows = 0;
    let mut rest = entries;
    // kept: each turn looks at the entry behind its own, and a chain that pairs the two is no plainer
    while book::ENTRY_WIDE <= rest.len() {
        rows += 1;
        let next = &rest[book::ENTRY_WIDE..];
        let number = number_of(rest);
        if number_of(next) != number {
            message(out, rest, rows);
            rows = 0;
            last = number;
        }
        rest = next;
    }
    last
}

// The messages of the book's used bytes: number, sender, rows, standing or withdrawn.
pub fn messages(out: Stdout, line: &[u8], used: &[u8]) {
    boards_words::tell(out, b"%0\n", line, b"", b"", b"", &[0]);
    let last = updates(out, behind_plans(used));
    boards_words::tell(out, b"END %A\n", line, b"", b"", b"", &[last as usize]);
}

// ---- The registered pairs.

// A pair: sender and owner.
fn pair(out: Stdout, bytes: &[u8]) {
    let sender = script_text::at(bytes, 0) as usize;
    let owner = script_text::before(script_text::part(bytes, 1, register::PAIR_WIDE), 0);
    boards_words::tell(out, b"%A %x\n", b"", owner, b"", b"", &[sender]);
}

// The pairs of the register's used bytes, in the order in which they were registered.
pub fn pairs(out: Stdout, line: &[u8], used: &[u8]) {
    boards_words::tell(out, b"%0\n", line, b"", b"", b"", &[0]);
    for bytes in used.chunks_exact(register::PAIR_WIDE) {
        pair(out, bytes);
    }
    let count = used.len() / register::PAIR_WIDE;
    boards_words::tell(out, b"END %A\n", line, b"", b"", b"", &[count]);
}
