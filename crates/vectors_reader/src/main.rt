// Runs the dossiers of standard input, good and at fault, through the readers, and prints what is answered and what is staged.
#![tactic(auto)]

mod lines;
mod say;
mod spell;
mod staged;

use lines::Desk;
use std::io::{Stdin, Stdout};

// The input comes as an array of known size: so no proof has to count it through.
fn run(mut from: Stdin, out: Stdout, input: &mut [u8; 60000], desk: &mut Desk) {
    let n = script_text::read_full(&mut from, input);
    for line in script_text::front(input, n).split_inclusive(|b| *b == b'\n') {
        desk.do_line(out, script_text::first_line(line));
    }
}

fn main(rt: HostRuntime) {
    let mut input = [0u8; 60000];
    let mut desk = Desk::new();
    run(rt.stdin(), rt.stdout(), &mut input, &mut desk);
}
