// What is printed. A write that fails is passed over.
use reader::Fault;
use std::io::{Print, Stdout};

pub fn line(out: Stdout, text: &[u8]) {
    let _ = out.write_all(text);
    let _ = out.println("");
}

// Rows that are staged, or document 01's number with where the fault is.
pub fn answer(out: Stdout, reading: Result<usize, Fault>) {
    let _ = match reading {
        Err(Fault::TooLong) => print!(out; " -> 2"),
        Err(Fault::Syntax(place)) => print!(out; " -> 3 at {place}"),
        Err(Fault::Long(line)) => print!(out; " -> 15 line {line}"),
        Err(Fault::Form(line)) => print!(out; " -> 4 line {line}"),
        Err(Fault::Field(line, column)) => print!(out; " -> 5 line {line} column {column}"),
        Err(Fault::Owner(line)) => print!(out; " -> 6 line {line}"),
        Ok(count) => print!(out; " -> rows {count}"),
    };
}
