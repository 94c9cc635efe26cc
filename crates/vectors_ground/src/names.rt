// The search for columns, and escapes.
use crate::say::Byte;
use crate::{parts, say};
use std::io::{Print, Stdout};

// NAME^LABELS^LINE: the column, and the field there.
pub fn lookup(out: Stdout, vector: &[u8]) {
    let name = parts::head(vector);
    let rest = parts::tail(vector);
    let labels = parts::head(rest);
    let line = parts::tail(rest);
    let column = turbo_labels::column_of(labels, name);
    say::size(out, column);
    say::text(
        out,
        turbo_labels::lookup(line, column, turbo::count_fields(labels)),
    );
}

// WANTED^LABELS: whether a wanted name stands twice, and all twenty places.
pub fn columns(out: Stdout, vector: &[u8]) {
    let wanted = parts::head(vector);
    if 20 < turbo::count_fields(wanted) {
        let _ = out.print(" more than 20 names");
        return;
    }
    let found = turbo_labels::find_columns(wanted, parts::tail(vector));
    if found.is_err() {
        let _ = out.print(" twice,");
    }
    for place in found.unwrap_or([0; 20]) {
        say::size(out, place);
    }
}

// A byte with the one that it stands for after a backslash, if any, and what follows as it is.
pub fn escape(out: Stdout, vector: &[u8]) {
    let byte = script_text::at(vector, 0);
    if let Some(escaped) = turbo::escaped(byte) {
        let _ = print!(out; " {}={}", Byte(byte), Byte(escaped));
    }
    say::words(out, script_text::after(vector, 0));
}
