// How much of the staging area is written, and the staged rows.
ghost use Rattle.std.specs.Prelude.{◌≤◌, ◌<◌, length};

use std::io::{Print, Stdout};

// How wide the rows of a reader are.
// kept: (d) the letters are the input's own, one line for each.
fn width(letter: u8) -> usize
    ensures { 0 < result }
{
    match letter {
        b'p' => 65,
        b'c' => 24,
        _ => 66,
    }
}

// Where in a row a field begins, but for the first.
// kept: (d) the letters are the input's own, one line for each.
fn starts(letter: u8) -> &'static [u8] {
    match letter {
        b'p' => &[10, 20, 24, 25, 35, 37, 47, 57, 60, 63, 64],
        b'c' => &[10, 20],
        _ => &[10, 14, 24, 28, 29, 39, 41, 51, 55, 56, 59, 62, 63, 64, 65],
    }
}

// A row in hexadecimal, with blanks between the fields.
fn row(out: Stdout, letter: u8, bytes: &[u8]) {
    let _ = out.print("\n    ");
    for (place, byte) in bytes.iter().enumerate() {
        if starts(letter)
            .iter()
            .any(|start| usize::from(*start) == place)
        {
            let _ = out.print(" ");
        }
        let _ = print!(out; "{byte:02x}");
    }
}

// How many bytes there are up to the last that is not 238.
fn written(area: &[u8]) -> usize
    ensures { result ≤ length area.now }
{
    area.iter()
        .rposition(|byte| *byte != 238)
        .map_or(0, |last| last + 1)
}

// Where the rows that are printed begin: none are with a capital, and of more than 660 bytes only a message's last row is.
fn from(letter: u8, end: usize) -> usize {
    if letter < b'a' {
        end
    } else if 660 < end {
        end - 66
    } else {
        0
    }
}

// What a call left: how many bytes are written, and rows, one to a line.
pub fn left(out: Stdout, letter: u8, area: &[u8]) {
    let end = written(area);
    let _ = print!(out; ", staged {end}");
    for bytes in script_text::part(area, from(letter, end), end).chunks(width(letter)) {
        row(out, letter, bytes);
    }
    let _ = out.println("");
}
