// The walk over a dossier by lines, as parts of the lent bytes, lines that are too long, and a line's mark.
#![tactic(auto)]

ghost use Rattle.std.specs.Prelude.{◌≡◌, ◌+◌, ◌≤◌, ◌<◌, length, drop};
ghost use Rattle.turbo.specs.Split.{until, past};
ghost use Rattle.turbo_lines.specs.Lines.{lines, long_line, letter, mark_of, after_mark};

// ---- lines

// The first line of what is left of a dossier, without its CR LF, and what is left behind that.
pub fn read_line<'a>(dossier: &'a [u8]) -> (&'a [u8], &'a [u8])
    ensures line { result.0.now ≡ until 13 dossier.now }
    ensures tail { result.1.now ≡ drop 1 (past 13 dossier.now) }
{
    turbo::cut(dossier, turbo::find_far(dossier, b'\r'), 2)
}

// The first line of what is left of a dossier, without its CR LF.
pub fn first_line<'a>(dossier: &'a [u8]) -> &'a [u8]
    ensures { result.now ≡ until 13 dossier.now }
{
    read_line(dossier).0
}

// What is left after that line's CR LF.
pub fn rest_after_line<'a>(dossier: &'a [u8]) -> &'a [u8]
    ensures { result.now ≡ drop 1 (past 13 dossier.now) }
{
    read_line(dossier).1
}

// How many lines a dossier has.
pub fn count_lines(dossier: &[u8]) -> usize
    ensures { result ≡ length (lines dossier.now) }
{
    let mut count: usize = 0;
    let mut rest = dossier;
    while 0 < rest.len() {
        rest = rest_after_line(rest);
        count += 1;
    }
    count
}

// The number of the first line of more than 4,096 bytes with its CR LF, where the first of all has the number `first`.
pub fn first_long(dossier: &[u8], first: usize) -> Option<usize>
    requires { first + length dossier.now < 4294967296 }
    ensures { result ≡ long_line first (lines dossier.now) }
{
    let mut number = first;
    let mut rest = dossier;
    while 0 < rest.len() {
        let (line, behind) = read_line(rest);
        if 4094 < line.len() {
            return Some(number);
        }
        number += 1;
        rest = behind;
    }
    None
}

// ---- parts

// Where the first LF stands, or the length: in a dossier that comes in parts LF ends a line.
pub fn line_feed(bytes: &[u8]) -> usize
    ensures is { result ≡ length (until 10 bytes.now) }
    ensures within { result ≤ length bytes.now }
{
    turbo::find_far(bytes, b'\n')
}

// ---- marks

// What a line begins with.
#[derive(Clone, Copy)]
pub enum Mark {
    Group,
    Table,
    Labels,
    Data,
}

// The mark that a first backslash and b make.
fn mark_letter(b: u8) -> Mark
    ensures { result ≡ letter b }
{
    match b {
        b'G' => Mark::Group,
        b'T' => Mark::Table,
        b'L' => Mark::Labels,
        _ => Mark::Data,
    }
}

// The mark that a line begins with; a line with none is data.
pub fn mark_of(line: &[u8]) -> Mark
    ensures { result ≡ mark_of line.now }
{
    match line {
        [b'\\', letter, ..] => mark_letter(*letter),
        _ => Mark::Data,
    }
}

// How many bytes the line's mark takes.
fn mark_size(line: &[u8]) -> usize
    ensures is { drop result line.now ≡ after_mark line.now }
    ensures within { result ≤ length line.now }
{
    match mark_of(line) {
        Mark::Group => 2,
        Mark::Table => 2,
        Mark::Labels => 2,
        Mark::Data => 0,
    }
}

// The line behind its mark.
pub fn after_mark<'a>(line: &'a [u8]) -> &'a [u8]
    ensures { result.now ≡ after_mark line.now }
{
    &line[mark_size(line)..]
}
