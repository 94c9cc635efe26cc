// The walk over a line: escapes, where a byte stands, the fields as parts of the lent bytes, and how many there are. A dossier's lines are `turbo_lines`.
#![tactic(auto)]

ghost use Rattle.std.specs.Prelude.{◌≡◌, ◌+◌, ◌≤◌, ◌<◌, length, take, drop, count_by};
ghost use Rattle.turbo.specs.Escape.{escaped};
ghost use Rattle.turbo.specs.Split.{until, past, field_at, tail_at, fields};
ghost use Rattle.turbo.specs.inner.Bars.{is_bar};

// ---- escapes

// The byte that a backslash and the letter stand for.
pub fn escaped(letter: u8) -> Option<u8>
    ensures { result ≡ escaped letter }
{
    match letter {
        b'r' => Some(b'\r'),
        b'n' => Some(b'\n'),
        b'i' => Some(b'\\'),
        b'p' => Some(b'|'),
        _ => None,
    }
}

// ---- where a byte stands

// Where the byte first stands, or the length.
pub fn find(bytes: &[u8], byte: u8) -> usize
    ensures is { result ≡ length (until byte bytes.now) }
    ensures within { result ≤ length bytes.now }
{
    lists::scan::find_near(bytes, move |b| b == byte)
}

// The same as `find`, for a byte that is far off: by blocks, then by bytes.
pub fn find_far(bytes: &[u8], byte: u8) -> usize
    ensures is { result ≡ length (until byte bytes.now) }
    ensures within { result ≤ length bytes.now }
{
    let hit = lists::scan::find_far(bytes, move |b| b == byte);
    hit
}

// ---- parts

// What stands before place n, and what behind the so many bytes from there on; nothing where no more are left.
pub fn cut<'a>(bytes: &'a [u8], n: usize, width: usize) -> (&'a [u8], &'a [u8])
    requires { n ≤ length bytes.now }
    ensures before { result.0.now ≡ take n bytes.now }
    ensures behind { result.1.now ≡ drop (n + width) bytes.now }
{
    let (before, rest) = bytes.split_at(n);
    (before, rest.get(width..).unwrap_or(&[]))
}

// What stands before the first such byte, and what behind it; nothing where there is none.
pub fn split<'a>(bytes: &'a [u8], byte: u8) -> (&'a [u8], &'a [u8])
    ensures before { result.0.now ≡ until byte bytes.now }
    ensures behind { result.1.now ≡ past byte bytes.now }
{
    cut(bytes, find(bytes, byte), 1)
}

// ---- fields

// The first field of a tail, and the tail that starts after its bar; nothing where there is no bar.
pub fn read_field<'a>(tail: &'a [u8]) -> (&'a [u8], &'a [u8])
    ensures field { result.0.now ≡ until 124 tail.now }
    ensures tail { result.1.now ≡ past 124 tail.now }
{
    split(tail, b'|')
}

// The first field of a tail.
pub fn first_field<'a>(tail: &'a [u8]) -> &'a [u8]
    ensures { result.now ≡ until 124 tail.now }
{
    read_field(tail).0
}

// The tail that starts after the bar; nothing where there is no bar.
pub fn rest_after_bar<'a>(tail: &'a [u8]) -> &'a [u8]
    ensures { result.now ≡ past 124 tail.now }
{
    read_field(tail).1
}

// The tail after so many bars: past the columns that nobody wants.
pub fn rest_after_bars<'a>(line: &'a [u8], bars: usize) -> &'a [u8]
    ensures { result.now ≡ tail_at bars line.now }
{
    let mut tail = line;
    for passed in 0..bars {
        tail = rest_after_bar(tail);
    }
    tail
}

// The field at a place of a line, counted from 0, as a part of it.
pub fn field_of<'a>(line: &'a [u8], place: usize) -> &'a [u8]
    ensures { result.now ≡ field_at place line.now }
{
    first_field(rest_after_bars(line, place))
}

// ---- how many fields a line has: its bars counted by blocks, and one

// How many bytes of a block are bars. No branch in the loop, and a count that fits a byte.
fn bars_in<const N: usize>(block: &[u8; N]) -> u8
    requires { N < 256 }
    ensures { result ≡ count_by is_bar block.now }
{
    let mut bars: u8 = 0;
    for b in block {
        bars += (*b == b'|') as u8;
    }
    bars
}

// The bars in the whole blocks of N bytes of a line, and what is left behind these.
fn bars_in_blocks<const N: usize>(line: &[u8]) -> (usize, &[u8])
    requires { (0 < N) × (N < 256) }
    ensures bars { count_by is_bar line.now ≡ result.0 + count_by is_bar result.1.now }
    ensures room { result.0 + length result.1.now ≤ length line.now }
{
    let (blocks, rest) = line.as_chunks::<N>();
    let mut bars: usize = 0;
    for (i, block) in blocks.iter().enumerate() {
        bars += bars_in(block) as usize;
    }
    (bars, rest)
}

// How many bytes are bars, one by one.
fn count_bars(bytes: &[u8]) -> usize
    ensures { result ≡ count_by is_bar bytes.now }
{
    // kept: filter and count compile to a branch for each byte, as the machine code shows, and this to none
    let mut bars: usize = 0;
    for b in bytes {
        bars += (*b == b'|') as usize;
    }
    bars
}

// How many fields a line has.
pub fn count_fields(line: &[u8]) -> usize
    ensures { result ≡ length (fields line.now) }
{
    let (wide, rest) = bars_in_blocks::<64>(line);
    let (narrow, rest) = bars_in_blocks::<16>(rest);
    wide + narrow + count_bars(rest) + 1
}
