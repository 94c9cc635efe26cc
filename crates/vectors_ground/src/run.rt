// The lines of the input: a group begins with `=`, the letter of its reader and its name, and its vectors follow, each printed with
// what its reader answers.
use crate::say::Quoted;
use crate::{damage, days, form, moves, names, say, text, types, walk};
use std::io::{Print, Stdout};

// The readers by the letter of their group, in two: those over dossiers, lines and dates, and the others.
fn answer(out: Stdout, r: u8, v: &[u8]) {
    match r {
        b'F' => form::told(out, v),
        b'L' => walk::lines(out, v),
        b'M' => walk::mark(out, v),
        b'f' => walk::fields(out, v),
        b't' => walk::tails(out, v),
        b'r' => walk::row(out, v),
        b'i' => walk::find(out, v),
        b'l' => names::lookup(out, v),
        b'c' => names::columns(out, v),
        b'd' => days::day(out, v),
        b'b' => days::large(out, v),
        b'm' => days::moment(out, v),
        _ => other(out, r, v),
    }
}

fn other(out: Stdout, r: u8, v: &[u8]) {
    match r {
        b's' => moves::same(out, v),
        b'w'..=b'z' => moves::moved(out, r, v),
        b'n' => moves::number(out, v),
        b'X' => types::text(out, v),
        b'g' => types::range(out, v),
        _ => types::numbered(out, r, v),
    }
}

fn answered(out: Stdout, r: u8, v: &[u8]) {
    let _ = print!(out; "{} ->", Quoted(v));
    answer(out, r, v);
    let _ = out.println("");
}

// P prints every value; those of E, A and e tell themselves what is printed around the answer.
fn told(out: Stdout, r: u8, line: &[u8], room: &mut [u8]) {
    match r {
        b'P' => damage::values(out, line, room),
        b'E' => form::between(out, text::vector(line, 0, room), true),
        b'A' => form::between(out, text::vector(line, 0, room), false),
        b'e' => names::escape(out, text::vector(line, 0, room)),
        _ => answered(out, r, text::vector(line, 0, room)),
    }
}

// The start of a group; the letter of its reader.
fn group(out: Stdout, head: &[u8]) -> u8 {
    let _ = out.print("== ");
    say::words(out, script_text::after(head, 1));
    let _ = out.println("");
    script_text::at(head, 0)
}

// Each vector, by the letter of the last group before it.
pub fn each(out: Stdout, input: &[u8], room: &mut [u8]) {
    let mut reader = 0;
    for bytes in input.split_inclusive(|b| *b == b'\n') {
        match script_text::first_line(bytes) {
            [b'=', head @ ..] => reader = group(out, head),
            line => told(out, reader, line, room),
        }
    }
}
