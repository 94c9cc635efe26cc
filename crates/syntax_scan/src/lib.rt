// A part of a turbo dossier read from any state of the machine on, for a reader that gets a dossier in parts.
#![tactic(auto)]

ghost use Rattle.std.specs.Prelude.{◌≡◌, true, ◌≤◌, ◌<◌, length, drop};
ghost use Rattle.syntax.specs.declared.State.TheVariants.{Open};
ghost use Rattle.syntax.specs.inner.Scan.{in_text};
ghost use Rattle.syntax_scan.specs.Scanned.{scanned};
ghost use Rattle.syntax_scan.specs.inner.Turn.{NullField, Passed, from_turn};

use syntax::{Kind, State};

// In a field's text; `fresh`: at its first byte.
// kept: (d) the two states of text, told apart by where the text stands.
fn text_state(fresh: bool, kind: Kind) -> State
    ensures { result ≡ in_text fresh kind }
{
    if fresh {
        return State::First(kind);
    }
    State::Inside(kind)
}

// ---- turns: each leads to a state before a place, or no further than a byte

// One byte.
fn pass_byte(state: State, bytes: &[u8], i: usize) -> Result<(State, usize), usize>
    requires { i < length bytes.now }
    ensures ahead { Passed i (length bytes.now) result }
    ensures leads { scanned state (drop i bytes.now) i ≡ from_turn bytes.now result }
{
    match syntax_bytewise::next_state(state, bytes[i]) {
        Some(next) => Ok((next, i + 1)),
        None => Err(i),
    }
}

// Whether `\0` and a bar stand at i.
fn null_at(bytes: &[u8], i: usize) -> bool
    requires { i ≤ length bytes.now }
    ensures { result ≡ true → NullField bytes.now i }
{
    matches!(&bytes[i..], [b'\\', b'0', b'|', ..])
}

// A run of quiet bytes in a field's text, and what ends it: a field `\0`, or another loud byte.
fn pass_text(kind: Kind, fresh: bool, bytes: &[u8], i: usize) -> Result<(State, usize), usize>
    requires { i < length bytes.now }
    ensures ahead { Passed i (length bytes.now) result }
    ensures leads { scanned (in_text fresh kind) (drop i bytes.now) i ≡ from_turn bytes.now result }
{
    let j = syntax::quiet_end(bytes, i);
    let begun = syntax::begins(bytes, i, j, fresh);
    let state = text_state(begun, kind);
    if bytes.len() <= j {
        return Ok((state, j));
    }
    if begun & null_at(bytes, j) {
        return Ok((State::First(kind), j + 3));
    }
    pass_byte(state, bytes, j)
}

// At a line's start behind one of this kind. A data line that begins with no backslash is text from there.
fn pass_start(kind: Kind, bytes: &[u8], i: usize) -> Result<(State, usize), usize>
    requires { i < length bytes.now }
    ensures ahead { Passed i (length bytes.now) result }
    ensures leads { scanned (Open kind) (drop i bytes.now) i ≡ from_turn bytes.now result }
{
    match kind {
        Kind::Rows if bytes[i] != b'\\' => pass_text(Kind::Rows, true, bytes, i),
        _ => pass_byte(State::Open(kind), bytes, i),
    }
}

// As far as the state allows at once.
fn advance(state: State, bytes: &[u8], i: usize) -> Result<(State, usize), usize>
    requires { i < length bytes.now }
    ensures ahead { Passed i (length bytes.now) result }
    ensures leads { scanned state (drop i bytes.now) i ≡ from_turn bytes.now result }
{
    match state {
        State::First(k) => pass_text(k, true, bytes, i),
        State::Inside(k) => pass_text(k, false, bytes, i),
        State::Open(k) => pass_start(k, bytes, i),
        _ => pass_byte(state, bytes, i),
    }
}

// Where the bytes of a part lead from the state on, or the first that may not stand there.
// kept: (d) a turn is as long as the run of bytes that it passes, so that there is no range to go over.
pub fn scan(state: State, bytes: &[u8]) -> Result<State, usize>
    ensures { result ≡ scanned state bytes.now 0 }
{
    let mut s = state;
    let mut i = 0;
    while i < bytes.len() {
        let (next, end) = advance(s, bytes, i)?;
        s = next;
        i = end;
    }
    Ok(s)
}
