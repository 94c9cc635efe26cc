// What is printed. A write that fails is passed over.
use calls::{Counts, Refusal};
use std::io::{Print, Stdout};

pub fn heading(out: Stdout, title: &[u8]) {
    let _ = out.write_all(title);
    let _ = out.println("");
}

// Document 01's number, its values, and which dossier.
pub fn answer(out: Stdout, given: Result<u32, Refusal>) {
    let f = calls::numbers(given);
    let _ = print!(out; " {} {} {} {}", f.number, f.value, f.second, f.dossier);
}

// A sum over all bytes that tells where they stand.
fn sum(bytes: &[u8]) -> u32 {
    bytes.iter().fold(1, |total, byte| {
        ((u64::from(total) * 257 + u64::from(*byte) + 1) % 4294967291) as u32
    })
}

// The counts, and sums over all lent bytes of book and table.
pub fn sums(out: Stdout, counts: Counts, book: &[u8], table: &[u8]) {
    let Counts { used, rows } = counts;
    let _ = println!(out;
        ", used {used}, rows {rows}, sums {} {}",
        sum(book),
        sum(table)
    );
}

fn line(out: Stdout, bytes: &[u8]) {
    for byte in bytes {
        let _ = print!(out; "{byte:02x}");
    }
    let _ = out.println("");
}

// All bytes in hexadecimal digits, a line for each `width` of them, or one line where that is 0.
pub fn bytes(out: Stdout, text: &[u8], width: usize) {
    let wide = if width == 0 { text.len() } else { width };
    for part in text.chunks(wide.max(1)) {
        line(out, part);
    }
}
