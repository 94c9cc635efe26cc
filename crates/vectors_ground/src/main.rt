// Runs vectors, good and damaged, through the public functions of the crates that read a dossier, and prints what they answer.
#![tactic(auto)]

mod damage;
mod days;
mod form;
mod moves;
mod names;
mod parts;
mod run;
mod say;
mod text;
mod types;
mod walk;

use std::io::{Stdin, Stdout};

// The buffers come as arrays of known size: so no proof has to count one through.
fn start(mut from: Stdin, out: Stdout, input: &mut [u8; 60000], room: &mut [u8; 66000]) {
    let n = script_text::read_full(&mut from, input);
    run::each(out, script_text::front(input, n), room);
}

fn main(rt: HostRuntime) {
    let mut input = [0u8; 60000];
    let mut room = [0u8; 66000];
    start(rt.stdin(), rt.stdout(), &mut input, &mut room);
}
