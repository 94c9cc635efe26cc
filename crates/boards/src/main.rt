// The correction desk's program: does what scripts say, a command a line, and prints each answer and each board.
#![tactic(auto)]

mod files;
mod script;

use boards_deeds::Held;
use files::{Line, Script};
use std::env::FillError;
use std::io::Stdout;
use std::rt::Env;

// A byte order mark, which some editors put before a text, is no part of the first line.
fn without_mark<'a>(line: &'a [u8]) -> &'a [u8] {
    if line.len() < 3 {
        return line;
    }
    if lists::same_bytes(&line[0..3], &[239, 187, 191]) {
        return &line[3..];
    }
    line
}

// The line behind so many others.
fn line_behind<'a>(line: &'a [u8], others: u32) -> &'a [u8] {
    if others == 0 {
        return without_mark(line);
    }
    line
}

// What is held behind a line, and whether the script goes on.
#[derive(Clone, Copy)]
struct Behind {
    held: Held,
    more: bool,
}

// The next line of a script, done as it is read.
fn turn(
    rt: HostRuntime,
    script: &mut Script,
    paper: &mut [u8],
    register: &mut [u8],
    book: &mut [u8],
    table: &mut [u8],
    held: Held,
) -> Behind {
    match files::read_line(script, paper) {
        Line::Whole(n) => {
            let text = line_behind(script_text::front(paper, n), held.line);
            let h = script::line(rt, text, register, book, table, held);
            Behind {
                held: h,
                more: true,
            }
        }
        Line::Long => {
            let h = boards_deeds::long(rt.stdout(), held);
            Behind {
                held: h,
                more: true,
            }
        }
        Line::End => Behind { held, more: false },
        Line::Failed => {
            let h = boards_deeds::unread(rt.stdout(), held);
            Behind {
                held: h,
                more: false,
            }
        }
    }
}

// The lines of a script, one after the other.
fn lines(
    rt: HostRuntime,
    script: &mut Script,
    paper: &mut [u8],
    register: &mut [u8],
    book: &mut [u8],
    table: &mut [u8],
    held: Held,
) -> Held {
    let mut h = held;
    let mut left: u32 = 4294967295;
    while 0 < left {
        left -= 1;
        let t = turn(rt, script, paper, register, book, table, h);
        h = t.held;
        if t.more {} else {
            return h;
        }
    }
    h
}

fn done(out: Stdout, name: &[u8], held: Held) {
    boards_words::tell(
        out,
        b"DONE %x: lines %A, not done %B, refused %C\n",
        name,
        name,
        b"",
        b"",
        &[held.line as usize, held.bad as usize, held.refused as usize],
    );
}

// A script, on the day that the one before left, and its closing line.
fn script_named(
    rt: HostRuntime,
    name: &[u8],
    paper: &mut [u8],
    register: &mut [u8],
    book: &mut [u8],
    table: &mut [u8],
    held: Held,
) -> Held {
    let mut source = files::opened(rt, name);
    let h = lines(
        rt,
        &mut source,
        paper,
        register,
        book,
        table,
        script::begun(held),
    );
    done(rt.stdout(), name, h);
    h
}

// A byte more than a line may have; what an argument may have; all rows of a table.
const PAPER: usize = 2049;

const NAME: usize = 4096;

const TABLE: usize = table::MOST_ROWS * passage::ROW_WIDE;

// How many words the program is called with, its own name among them.
fn arg_count(rt: HostRuntime) -> usize {
    let mut name = [0u8; NAME];
    for i in 0..usize::MAX {
        match rt.arg(i, &mut name) {
            Err(FillError::NotPresent) => return i,
            _ => {}
        }
    }
    usize::MAX
}

// The i-th of them to `name`; how long it is, or 0 where it is longer than that.
fn arg(rt: HostRuntime, i: usize, name: &mut [u8]) -> usize {
    match rt.arg(i, name) {
        Ok(n) => n,
        Err(_) => 0,
    }
}

// How many scripts the arguments name; where they name none, standard input is the one.
fn count_of(words: usize) -> usize {
    if words < 2 {
        return 1;
    }
    words - 1
}

// The i-th of them to `name`; how long it is.
fn name_of(rt: HostRuntime, words: usize, i: usize, name: &mut [u8]) -> usize {
    if words < 2 {
        return script_text::append(name, 0, b"-");
    }
    arg(rt, i, name)
}

// The scripts, one after the other.
fn scripts(
    rt: HostRuntime,
    words: usize,
    paper: &mut [u8],
    register: &mut [u8],
    book: &mut [u8],
    table: &mut [u8],
) {
    let mut h = script::nothing();
    let count = count_of(words);
    let mut i = 0;
    while i < count {
        i += 1;
        let mut name = [0u8; NAME];
        let n = name_of(rt, words, i, &mut name);
        h = script_named(
            rt,
            script_text::front(&name, n),
            paper,
            register,
            book,
            table,
            h,
        );
    }
}

// Whether the first argument asks how the program is called.
fn asks_usage(rt: HostRuntime, words: usize) -> bool {
    if words < 2 {
        return false;
    }
    let mut name = [0u8; NAME];
    let n = arg(rt, 1, &mut name);
    lists::same_bytes(script_text::front(&name, n), b"--help")
}

// The buffers come as arrays of known size: so no proof has to count one through.
fn run(
    rt: HostRuntime,
    paper: &mut [u8; PAPER],
    register: &mut [u8; register::MOST_BYTES],
    book: &mut [u8; book::MOST_BYTES],
    table: &mut [u8; TABLE],
) {
    let words = arg_count(rt);
    if asks_usage(rt, words) {
        boards_words::usage(rt.stdout());
        return;
    }
    scripts(rt, words, paper, register, book, table);
}

fn main(rt: HostRuntime) {
    let mut paper = [0u8; PAPER];
    let mut register = [0u8; register::MOST_BYTES];
    let mut book = [0u8; book::MOST_BYTES];
    let mut table = [0u8; TABLE];
    run(rt, &mut paper, &mut register, &mut book, &mut table);
}
