// Fields by their types.
use crate::{parts, say};
use std::io::{Print, Stdout};

// The readers that answer a number, by the letter of their group; a digit tells how many digits a number may have.
fn number(r: u8, v: &[u8]) -> Option<u32> {
    match r {
        b'B' => field_types::read_bit(v),
        b'D' => field_types::read_date(v),
        b'T' => field_types::read_time(v).map(|s| s.0),
        b'U' => field_types::read_stamp(v),
        b'S' => field_types::read_status(v),
        b'J' => field_types::read_stop_type(v),
        b'V' => field_types::read_flexible(v),
        _ => field_types::read_number(v, (r % 8) as usize),
    }
}

pub fn numbered(out: Stdout, letter: u8, vector: &[u8]) {
    say::read(out, number(letter, vector));
}

// The ten bytes that are kept. For a refused text zero bytes are printed.
pub fn text(out: Stdout, vector: &[u8]) {
    let t = texts::read_text(vector);
    if t.is_none() {
        let _ = out.print(" Wrong");
    }
    say::text(out, &t.unwrap_or([0; 10]));
}

pub fn range(out: Stdout, vector: &[u8]) {
    let within = field_types::in_stamp_range(parts::large(vector));
    let _ = out.print(if within { " in range" } else { " out of range" });
}
