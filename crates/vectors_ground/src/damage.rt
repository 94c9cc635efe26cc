// A good dossier with every value at one of its places.
use crate::{form, parts, say, text};
use std::io::{Print, Stdout};

// Values with one verdict, from one on.
#[derive(Clone, Copy)]
struct Run {
    from: u8,
    fault: Option<usize>,
}

// The verdict on the dossier of BEFORE^DOSSIER with b for `&`.
fn changed(out: Stdout, line: &[u8], b: u8, room: &mut [u8]) -> Option<usize> {
    form::judged(out, parts::tail(text::vector(line, b, room)))
}

// A run that ends with the value `last`.
fn told(out: Stdout, run: Run, last: u8) {
    let from = run.from;
    let _ = if from < last {
        print!(out; " {from} to {last}")
    } else {
        print!(out; " {from}")
    };
    form::verdict(out, run.fault);
    let _ = out.print(";");
}

// The runs of values, each as it ends.
fn every_value(out: Stdout, line: &[u8], room: &mut [u8]) {
    let mut run = Run {
        from: 0,
        fault: changed(out, line, 0, room),
    };
    for value in 1..=u8::MAX {
        let fault = changed(out, line, value, room);
        if fault != run.fault {
            told(out, run, value - 1);
            run = Run { from: value, fault };
        }
    }
    told(out, run, u8::MAX);
}

// BEFORE^DOSSIER: the text, and the verdicts with every value for `&`.
pub fn values(out: Stdout, line: &[u8], room: &mut [u8]) {
    say::words(out, parts::head(text::vector(line, 0, room)));
    every_value(out, line, room);
    let _ = out.println("");
}
