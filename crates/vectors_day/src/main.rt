// Runs the calls that standard input asks for, a line each, and prints what they answer and what they leave.
#![tactic(auto)]

mod area;
mod day;
mod say;

use day::Day;
use std::io::{Stdin, Stdout};

// The input comes as an array of known size: so no proof has to count it through.
fn run(mut from: Stdin, out: Stdout, input: &mut [u8; 400000], day: &mut Day) {
    let n = script_text::read_full(&mut from, input);
    for line in script_text::front(input, n).split_inclusive(|b| *b == b'\n') {
        day.do_line(out, script_text::first_line(line));
    }
}

fn main(rt: HostRuntime) {
    let mut input = [0u8; 400000];
    let mut day = Day::new();
    run(rt.stdin(), rt.stdout(), &mut input, &mut day);
}
