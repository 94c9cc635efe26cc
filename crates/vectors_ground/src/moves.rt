// Bytes that are compared, moved and read as numbers. The moves start from `abcdefgh`.
use crate::{parts, say};
use std::io::{Print, Stdout};

// A^B
pub fn same(out: Stdout, vector: &[u8]) {
    let same = lists::same_bytes(parts::head(vector), parts::tail(vector));
    let _ = out.print(if same { " same" } else { " other" });
}

// AT^BYTES
fn copy(s: &mut [u8; 8], at: usize, bytes: &[u8]) {
    if bytes.len() <= 8 {
        lists::copy_to(s, at.min(8 - bytes.len()), bytes);
    }
}

// AT^COUNT
fn clear(s: &mut [u8; 8], at: usize, count: usize) {
    let from = at.min(8);
    lists::clear(s, from, count.min(8 - from));
}

// FROM^END^BY
fn up(s: &mut [u8; 8], from: usize, end: usize, by: usize) {
    let last = end.min(8);
    lists::shift_up(s, from.min(last), last, by.min(8 - last));
}

// TO^COUNT^BY
fn down(s: &mut [u8; 8], to: usize, count: usize, by: usize) {
    let first = to.min(8);
    let step = by.min(8 - first);
    lists::shift_down(s, first, count.min(8 - first - step), step);
}

// kept: (d) the letters are the input's own, one line for each.
pub fn moved(out: Stdout, letter: u8, vector: &[u8]) {
    let mut s = *b"abcdefgh";
    let tail = parts::tail(vector);
    let first = parts::count(parts::head(vector));
    let second = parts::count(parts::head(tail));
    let third = parts::count(parts::tail(tail));
    match letter {
        b'w' => copy(&mut s, first, tail),
        b'x' => clear(&mut s, first, second),
        b'y' => up(&mut s, first, second, third),
        _ => down(&mut s, first, second, third),
    }
    say::text(out, &s);
}

// WIDTH^NUMBER
pub fn number(out: Stdout, vector: &[u8]) {
    let mut s = *b"abcdef";
    let width = parts::count(parts::head(vector)).min(4);
    lists::put_number(&mut s, 1, width, parts::large(parts::tail(vector)));
    say::text(out, &s);
    let _ = print!(out; " {}", lists::get_number(&s, 1, width));
}
