// A turbo dossier's form for a reader that gets it byte by byte.
#![tactic(auto)]

ghost use Rattle.std.specs.Prelude.{◌≡◌};
ghost use Rattle.syntax.specs.Machine.{field_step, escape_step, first_escape_step, null_step, return_step, slash_step, start_step, mark_step, step, accepting};

use syntax::{Kind, State};

// A byte of a field's text; `e` is where a backslash leads.
#[tactic(auto, unfolding(syntax::specs::Machine::field_step))]
fn read_field(e: State, k: Kind, b: u8) -> Option<State>
    ensures { result ≡ field_step e k b }
{
    match b {
        b'\\' => Some(e),
        b'|' => Some(State::First(k)),
        b'\r' => Some(State::Ret(k)),
        0..=31 => None,
        _ => Some(State::Inside(k)),
    }
}

// The byte after a backslash in a field.
#[tactic(auto, unfolding(syntax::specs::Machine::escape_step))]
fn read_escape(k: Kind, b: u8) -> Option<State>
    ensures { result ≡ escape_step k b }
{
    match b {
        b'i' | b'n' | b'p' | b'r' => Some(State::Inside(k)),
        _ => None,
    }
}

// The byte after a backslash that begins a field.
#[tactic(auto, unfolding(syntax::specs::Machine::first_escape_step))]
fn read_first_escape(k: Kind, b: u8) -> Option<State>
    ensures { result ≡ first_escape_step k b }
{
    match b {
        b'0' => Some(State::Null(k)),
        _ => read_escape(k, b),
    }
}

// The byte after `\0`.
#[tactic(auto, unfolding(syntax::specs::Machine::null_step))]
fn read_nul(k: Kind, b: u8) -> Option<State>
    ensures { result ≡ null_step k b }
{
    match b {
        b'|' => Some(State::First(k)),
        b'\r' => Some(State::Ret(k)),
        _ => None,
    }
}

// The byte after CR.
#[tactic(auto, unfolding(syntax::specs::Machine::return_step))]
fn read_ret(k: Kind, b: u8) -> Option<State>
    ensures { result ≡ return_step k b }
{
    match b {
        b'\n' => Some(State::Open(k)),
        _ => None,
    }
}

// The backslash of a mark.
fn read_slash(k: Kind, b: u8) -> Option<State>
    ensures { result ≡ slash_step k b }
{
    match b {
        b'\\' => Some(State::Mark(k)),
        _ => None,
    }
}

// At a line's start.
#[tactic(auto, unfolding(syntax::specs::Machine::start_step))]
fn read_open(k: Kind, b: u8) -> Option<State>
    ensures { result ≡ start_step k b }
{
    match k {
        Kind::Rows => read_field(State::Mark(Kind::Rows), Kind::Rows, b),
        Kind::Nothing | Kind::Group | Kind::Table => read_slash(k, b),
    }
}

// The byte after a backslash at a line's start.
#[tactic(auto, unfolding(syntax::specs::Machine::mark_step))]
fn read_mark(k: Kind, b: u8) -> Option<State>
    ensures { result ≡ mark_step k b }
{
    match (k, b) {
        (Kind::Nothing, b'G') => Some(State::First(Kind::Group)),
        (Kind::Group | Kind::Rows, b'T') => Some(State::First(Kind::Table)),
        (Kind::Table, b'L') => Some(State::First(Kind::Rows)),
        (Kind::Rows, _) => read_first_escape(Kind::Rows, b),
        _ => None,
    }
}

// One byte more.
#[tactic(auto, unfolding(syntax::specs::Machine::step))]
pub fn next_state(state: State, byte: u8) -> Option<State>
    ensures { result ≡ step state byte }
{
    match state {
        State::Open(k) => read_open(k, byte),
        State::Mark(k) => read_mark(k, byte),
        State::First(k) => read_field(State::FirstEsc(k), k, byte),
        State::Inside(k) => read_field(State::InsideEsc(k), k, byte),
        State::FirstEsc(k) => read_first_escape(k, byte),
        State::InsideEsc(k) => read_escape(k, byte),
        State::Null(k) => read_nul(k, byte),
        State::Ret(k) => read_ret(k, byte),
    }
}

// Whether the bytes may end here.
#[tactic(auto, unfolding(syntax::specs::Machine::accepting))]
pub fn may_end(state: State) -> bool
    ensures { result ≡ accepting state }
{
    match state {
        State::Open(k) => syntax::ends_after(k),
        _ => false,
    }
}
