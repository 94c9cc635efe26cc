// Asks the boards that standard input asks for, a line each, and prints what is answered and every lent place.
#![tactic(auto)]

mod lines;
mod say;

use std::io::{Stdin, Stdout};

// The buffer comes as an array of known size: so no proof has to count one through.
fn run(mut from: Stdin, out: Stdout, input: &mut [u8; 120000]) {
    let n = script_text::read_full(&mut from, input);
    lines::run(out, script_text::front(input, n));
}

fn main(rt: HostRuntime) {
    let mut input = [0u8; 120000];
    run(rt.stdin(), rt.stdout(), &mut input);
}
