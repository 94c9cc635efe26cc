// The form of a turbo dossier: the states of a machine that reads it, and a check of a whole dossier that looks closely at loud bytes alone.
#![tactic(auto)]

ghost use Rattle.std.specs.Prelude.{◌≡◌, Bool, true, false, ◌+◌, ◌≤◌, ◌<◌, length, drop, get_or};
ghost use Rattle.syntax.specs.inner.Quiet.{loud, quiet_for, fresh_at};
ghost use Rattle.syntax.specs.declared.Kind.{Kind};
ghost use Rattle.syntax.specs.declared.State.TheVariants.{Open, First};
ghost use Rattle.syntax.specs.Machine.{may_end, run, fault};
ghost use Rattle.syntax.specs.inner.Scan.{in_text, marked_start, plain_start, Ahead, Begun, Passed, from_line, from_escape, from_start, from_next};

// ---- the machine's states

// The kind of line that is being read, or at a line's start the kind of the line before. Rows: labels and data.
#[derive(Clone, Copy)]
pub enum Kind {
    Nothing,
    Group,
    Table,
    Rows,
}

// Where in the line.
#[derive(Clone, Copy)]
pub enum State {
    Open(Kind),
    Mark(Kind),
    First(Kind),
    Inside(Kind),
    FirstEsc(Kind),
    InsideEsc(Kind),
    Null(Kind),
    Ret(Kind),
}

// Whether the bytes may end after a line of this kind.
pub fn ends_after(kind: Kind) -> bool
    ensures { result ≡ may_end kind }
{
    matches!(kind, Kind::Group | Kind::Rows)
}

// ---- runs of quiet bytes, skipped sixteen at a time

// Whether a byte may end a run of text.
fn is_loud(x: u8) -> bool
    ensures { result ≡ loud x }
{
    (x < 32) | (x == b'\\')
}

// The first loud byte from i on, or the length.
// kept: (a) the promise names the place, which is the length where no byte is loud, and the loops go on from it.
pub fn quiet_end(dossier: &[u8], i: usize) -> usize
    requires { i ≤ length dossier.now }
    ensures { result ≡ i + quiet_for (drop i dossier.now) }
{
    let quiet = lists::scan::find_far(&dossier[i..], is_loud);
    i + quiet
}

// Whether a field begins at j, where the bytes from i to j are quiet.
pub fn begins(dossier: &[u8], i: usize, j: usize, fresh: bool) -> bool
    requires { (i ≤ j) × (j ≤ length dossier.now) }
    ensures { result ≡ fresh_at dossier.now i j fresh }
{
    if i < j {
        return dossier[j - 1] == b'|';
    }
    fresh
}

// ---- the rest of a line: where reading on leads, or the byte that it stops at

// From `\0` at j, which begins a field: nothing else may stand in the field.
fn null_end(dossier: &[u8], j: usize) -> Result<usize, usize>
    requires { (j + 1 < length dossier.now) × (get_or dossier.now j 0 ≡ 92) × (get_or dossier.now (j + 1) 0 ≡ 48) }
    ensures ahead { Ahead j (length dossier.now) result }
    ensures leads { (k : Kind) → run (First k) (drop j dossier.now) j ≡ from_escape k dossier.now result }
{
    let e = j + 2;
    if dossier.len() <= e {
        return Err(e);
    }
    match dossier[e] {
        b'|' | b'\r' => Ok(e),
        _ => Err(e),
    }
}

// From the backslash at j in a field's text; `fresh`: it begins the field.
// kept: (d) `fresh` is a fact about the place, which the loop carries on, and chooses no step by itself.
fn escape_end(dossier: &[u8], j: usize, fresh: bool) -> Result<usize, usize>
    requires { (j < length dossier.now) × (get_or dossier.now j 0 ≡ 92) }
    ensures ahead { Ahead j (length dossier.now) result }
    ensures leads { (k : Kind) → run (in_text fresh k) (drop j dossier.now) j ≡ from_escape k dossier.now result }
{
    let a = j + 1;
    if dossier.len() <= a {
        return Err(a);
    }
    match dossier[a] {
        b'i' | b'n' | b'p' | b'r' => Ok(a + 1),
        b'0' => {
            if fresh {
                return null_end(dossier, j);
            }
            Err(a)
        }
        _ => Err(a),
    }
}

// From a loud byte at j that is no backslash: CR LF, or a fault.
fn ret_end(dossier: &[u8], j: usize) -> Result<usize, usize>
    requires { (j < length dossier.now) × (loud (get_or dossier.now j 0) ≡ true) × (get_or dossier.now j 0 ≡ 92 → ⊥) }
    ensures ahead { Ahead j (length dossier.now) result }
    ensures leads { (f : Bool) (k : Kind) → run (in_text f k) (drop j dossier.now) j ≡ from_line k dossier.now result }
{
    if dossier[j] != b'\r' {
        return Err(j);
    }
    let a = j + 1;
    if dossier.len() <= a {
        return Err(a);
    }
    if dossier[a] != b'\n' {
        return Err(a);
    }
    Ok(a + 1)
}

// From the first field of a line at i, past its CR LF.
// kept: (d) a turn is as long as the text and the escape that it finds, so that there is no range to go over.
fn line_end(dossier: &[u8], i: usize) -> Result<usize, usize>
    requires { i ≤ length dossier.now }
    ensures ahead { Ahead i (length dossier.now) result }
    ensures leads { (k : Kind) → run (First k) (drop i dossier.now) i ≡ from_line k dossier.now result }
{
    let mut p = i;
    let mut fresh = true;
    loop {
        let j = quiet_end(dossier, p);
        fresh = begins(dossier, p, j, fresh);
        if dossier.len() <= j {
            return Err(j);
        }
        if dossier[j] != b'\\' {
            return ret_end(dossier, j);
        }
        p = escape_end(dossier, j, fresh)?;
        fresh = false;
    }
}

// ---- lines: a line's kind and the place of its first field, or of the line after it; or the byte that begins no line

// The kind of a line that begins with a backslash and b at i, behind a line of kind k.
#[tactic(auto, unfolding(crate::specs::inner::Scan::marked_start))]
fn marked_start(k: Kind, b: u8, i: usize) -> Result<(Kind, usize), usize>
    requires { i + 2 < 18446744073709551616 }
    ensures { result ≡ marked_start k b i }
{
    match (k, b) {
        (Kind::Nothing, b'G') => Ok((Kind::Group, i + 2)),
        (Kind::Group | Kind::Rows, b'T') => Ok((Kind::Table, i + 2)),
        (Kind::Table, b'L') => Ok((Kind::Rows, i + 2)),
        (Kind::Rows, _) => Ok((Kind::Rows, i)),
        _ => Err(i + 1),
    }
}

// The kind of a line that begins with no backslash.
#[tactic(auto, unfolding(crate::specs::inner::Scan::plain_start))]
fn plain_start(k: Kind, i: usize) -> Result<(Kind, usize), usize>
    ensures { result ≡ plain_start k i }
{
    match k {
        Kind::Rows => Ok((Kind::Rows, i)),
        Kind::Nothing | Kind::Group | Kind::Table => Err(i),
    }
}

// From the start of a line at i, behind a line of kind k, to the line's first field.
fn line_start(k: Kind, dossier: &[u8], i: usize) -> Result<(Kind, usize), usize>
    requires { i < length dossier.now }
    ensures ahead { Begun i (length dossier.now) result }
    ensures leads { run (Open k) (drop i dossier.now) i ≡ from_start dossier.now result }
{
    if dossier[i] != b'\\' {
        return plain_start(k, i);
    }
    let a = i + 1;
    if dossier.len() <= a {
        return Err(a);
    }
    marked_start(k, dossier[a], i)
}

// From the start of a line at i to the start of the next.
fn whole_line(k: Kind, dossier: &[u8], i: usize) -> Result<(Kind, usize), usize>
    requires { i < length dossier.now }
    ensures ahead { Passed i (length dossier.now) result }
    ensures leads { run (Open k) (drop i dossier.now) i ≡ from_next dossier.now result }
{
    let (kind, first) = line_start(k, dossier, i)?;
    let next = line_end(dossier, first)?;
    Ok((kind, next))
}

// Whether the bytes are a well-formed dossier, or where they fault.
// kept: (d) a turn is as long as its line, so that there is no range to go over.
pub fn check_syntax(dossier: &[u8]) -> Result<(), usize>
    ensures { result ≡ fault dossier.now }
{
    let mut k = Kind::Nothing;
    let mut i = 0;
    while i < dossier.len() {
        let (kind, next) = whole_line(k, dossier, i)?;
        k = kind;
        i = next;
    }
    if ends_after(k) {
        return Ok(());
    }
    Err(i)
}
