// The verdict on a dossier's form, reached in two ways: where its fault is, or that it has none.
use crate::{parts, say};
use std::io::{Print, Stdout};
use syntax::{Kind, State};

// The verdict of a reader that goes byte by byte.
fn stepwise(dossier: &[u8]) -> Option<usize> {
    let mut state = State::Open(Kind::Nothing);
    for (place, byte) in dossier.iter().enumerate() {
        match syntax_bytewise::next_state(state, *byte) {
            Some(next) => state = next,
            None => return Some(place),
        }
    }
    if syntax_bytewise::may_end(state) {
        None
    } else {
        Some(dossier.len())
    }
}

fn straight(dossier: &[u8]) -> Option<usize> {
    syntax::check_syntax(dossier).err()
}

// The verdict; a word is printed only where the two ways differ.
pub fn judged(out: Stdout, dossier: &[u8]) -> Option<usize> {
    let fault = straight(dossier);
    if fault != stepwise(dossier) {
        let _ = out.print(" DIFFER");
    }
    fault
}

pub fn verdict(out: Stdout, fault: Option<usize>) {
    let _ = match fault {
        None => print!(out; " Fine"),
        Some(place) => print!(out; " FaultAt {place}"),
    };
}

// The same in a list: a fault's offset, or a dash.
fn short(out: Stdout, fault: Option<usize>) {
    let _ = match fault {
        None => print!(out; " -"),
        Some(place) => print!(out; " {place}"),
    };
}

// The verdict, and whether the two ways agree.
pub fn told(out: Stdout, dossier: &[u8]) {
    let fault = straight(dossier);
    verdict(out, fault);
    let agree = fault == stepwise(dossier);
    let _ = out.print(if agree { ", agree" } else { ", DIFFER" });
}

// BEFORE^DOSSIER^AFTER: the verdict between two texts, whole or as in a list.
pub fn between(out: Stdout, vector: &[u8], whole: bool) {
    let rest = parts::tail(vector);
    let dossier = parts::head(rest);
    say::words(out, parts::head(vector));
    if whole {
        told(out, dossier);
    } else {
        short(out, judged(out, dossier));
    }
    say::words(out, parts::tail(rest));
}
