// Dates and moments.
use crate::parts;
use std::io::{Print, Stdout};

fn date(out: Stdout, n: u32) {
    let _ = if clock::is_date(n) {
        print!(out; " day {}", clock::day_count(n))
    } else {
        print!(out; " no date")
    };
}

// A date as a number.
pub fn day(out: Stdout, vector: &[u8]) {
    date(out, parts::count(vector) as u32);
}

// A date as a number that is written in two parts.
pub fn large(out: Stdout, vector: &[u8]) {
    date(out, parts::large(vector));
}

// DATE^TIME: the moment on the clock.
pub fn moment(out: Stdout, vector: &[u8]) {
    let Some(date) = field_types::read_date(parts::head(vector)) else {
        let _ = out.print(" no date");
        return;
    };
    let Some(second) = field_types::read_time(parts::tail(vector)) else {
        let _ = out.print(" no time");
        return;
    };
    if clock::is_date(date) && second.0 < 115200 {
        let _ = print!(out; " {}", clock::moment(date, second).0);
    }
}
