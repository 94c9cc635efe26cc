// How answers are printed. A write that fails is passed over.
use std::fmt;
use std::io::{Print, Stdout};

// A byte; outside 32 to 126 it is written \xHH.
#[derive(Clone, Copy)]
pub struct Byte(pub u8);

impl fmt::Display for Byte {
    fn fmt<W: fmt::Write>(&self, f: &mut fmt::Formatter<W>) -> fmt::Result {
        match self.0 {
            b' '..=b'~' => f.write_char(char::from(self.0)),
            _ => write!(f, "\\x{:02x}", self.0),
        }
    }
}

// Bytes, each as above, between quotation marks.
#[derive(Clone, Copy)]
pub struct Quoted<'a>(pub &'a [u8]);

impl fmt::Display for Quoted<'_> {
    fn fmt<W: fmt::Write>(&self, f: &mut fmt::Formatter<W>) -> fmt::Result {
        f.write_char('"')?;
        for byte in self.0 {
            write!(f, "{}", Byte(*byte))?;
        }
        f.write_char('"')
    }
}

// Bytes as they are.
pub fn words(out: Stdout, text: &[u8]) {
    let _ = out.write_all(text);
}

// What follows is printed after a blank.
pub fn text(out: Stdout, text: &[u8]) {
    let _ = print!(out; " {}", Quoted(text));
}

pub fn size(out: Stdout, number: usize) {
    let _ = print!(out; " {number}");
}

pub fn read(out: Stdout, res: Option<u32>) {
    let _ = match res {
        Some(n) => print!(out; " Is {n}"),
        None => print!(out; " Wrong"),
    };
}
