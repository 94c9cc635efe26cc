// What is printed. A write that fails is passed over.
use board::{Listed, Refusal};
use std::io::{Print, Stdout};

pub fn heading(out: Stdout, title: &[u8]) {
    let _ = out.write_all(title);
    let _ = out.println("");
}

// Document 01's number, how many places are written, and how many passages are shown.
fn told(out: Stdout, listing: Result<Listed, Refusal>) {
    let _ = match listing {
        Ok(Listed { written, shown }) => print!(out; " 0 {written} {shown}"),
        Err(Refusal::Unsound) => print!(out; " 1 0 0"),
        Err(Refusal::OutOfRange) => print!(out; " 13 0 0"),
    };
}

// An answer, and all that was lent.
pub fn answer(out: Stdout, listing: Result<Listed, Refusal>, places: &[u32]) {
    told(out, listing);
    let _ = out.print(":");
    for place in places {
        let _ = print!(out; " {place}");
    }
    let _ = out.println("");
}
