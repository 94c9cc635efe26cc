// Lines, marks and fields of a dossier.
use crate::{parts, say};
use std::io::{Print, Stdout};
use turbo_lines::Mark;

pub fn mark(out: Stdout, line: &[u8]) {
    let _ = out.print(match turbo_lines::mark_of(line) {
        Mark::Group => " Group",
        Mark::Table => " Table",
        Mark::Labels => " Labels",
        Mark::Data => " Data",
    });
    say::text(out, turbo_lines::after_mark(line));
}

// How many fields, and each.
pub fn fields(out: Stdout, line: &[u8]) {
    let count = turbo::count_fields(line);
    say::size(out, count);
    for place in 0..count {
        say::text(out, turbo::field_of(line, place));
    }
}

// How many lines, and each with its mark.
pub fn lines(out: Stdout, dossier: &[u8]) {
    let count = turbo_lines::count_lines(dossier);
    say::size(out, count);
    let mut rest = dossier;
    for _ in 0..count {
        mark(out, turbo_lines::first_line(rest));
        rest = turbo_lines::rest_after_line(rest);
    }
}

// The tails after 0, 1, 2, .. bars, and one past the last.
pub fn tails(out: Stdout, line: &[u8]) {
    for place in 0..=turbo::count_fields(line) {
        say::text(out, turbo::rest_after_bars(line, place));
    }
}

// The fields in a row, each with its size, its bytes, and the tail that it hands on.
pub fn row(out: Stdout, line: &[u8]) {
    let mut rest = line;
    for _ in 0..turbo::count_fields(line) {
        let (field, behind) = turbo::read_field(rest);
        say::size(out, field.len());
        say::text(out, field);
        say::text(out, behind);
        rest = behind;
    }
}

// The first byte, sought in what follows the circumflex: from byte to byte, and by blocks.
pub fn find(out: Stdout, vector: &[u8]) {
    let byte = script_text::at(vector, 0);
    let tail = parts::tail(vector);
    say::size(out, turbo::find(tail, byte));
    say::size(out, turbo::find_far(tail, byte));
}
