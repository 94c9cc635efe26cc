// What the programs do with the text that they are given: its lines, words, parts and numbers, and bytes put behind others. A part that is handed back is the caller's own bytes.
#![tactic(auto)]

ghost use Rattle.std.specs.Prelude.{◌≡◌, false, [], ◌∷◌, ◌+◌, ◌-◌, ◌*◌, ◌%◌, ◌≤◌, ◌<◌, min, length, take, drop, get_or, replicate};
ghost use Rattle.lists.specs.Part.{over};
ghost use Rattle.turbo.specs.Split.{until, past};
ghost use Rattle.script_text.specs.Rules.{is_blank, is_kind, run_in, from_word, word_at, leading_from, hex_digit, place_behind, appended};

use std::io::Read;

// ---- Numbers.

// The number, or `most` where it is more.
pub fn at_most(number: usize, most: usize) -> usize
    ensures is { result ≡ min number most }
    ensures within { result ≤ most }
{
    number.min(most)
}

// The last byte of a number.
pub fn low_byte(number: usize) -> u8
    ensures { result ≡ number % 256 }
{
    (number % 256) as u8
}

// The last four bytes of a number.
pub fn low_word(number: usize) -> u32
    ensures { result ≡ number % 4294967296 }
{
    (number % 4294967296) as u32
}

// The number with a digit more; of a number of twelve digits or more the last eleven stay.
fn with_digit(n: usize, b: u8) -> usize
    requires { (48 ≤ b) × (b ≤ 57) }
    ensures { result ≡ n % 100000000000 * 10 + (b - 48) }
{
    n % 100000000000 * 10 + (b - 48) as usize
}

// The number that the digits write which the text begins with; 0 where it begins with none.
pub fn leading_number(text: &[u8]) -> usize
    ensures { result ≡ leading_from 0 text.now }
{
    let mut number = 0;
    for b in text {
        if (b'0'..=b'9').contains(b) {
            number = with_digit(number, *b);
        } else {
            return number;
        }
    }
    number
}

// What a hexadecimal digit stands for.
fn hex_digit(b: u8) -> u8
    ensures is { result ≡ hex_digit b }
    ensures within { result < 16 }
{
    (b % 16 + b / 64 * 9) % 16
}

// The byte that two hexadecimal digits stand for.
pub fn hex_byte(high: u8, low: u8) -> u8
    ensures { result ≡ hex_digit high * 16 + hex_digit low }
{
    hex_digit(high) * 16 + hex_digit(low)
}

// ---- Parts.

// The byte at a place, or 0.
pub fn at(text: &[u8], place: usize) -> u8
    ensures { result ≡ get_or text.now place 0 }
{
    if place < text.len() {
        return text[place];
    }
    0
}

// The first bytes, so many, or all.
pub fn front<'a>(text: &'a [u8], count: usize) -> &'a [u8]
    ensures { result.now ≡ take count text.now }
{
    &text[..at_most(count, text.len())]
}

// What stands behind a place. It is shorter than the text, unless that is empty: so loops end.
pub fn after<'a>(text: &'a [u8], place: usize) -> &'a [u8]
    ensures is { result.now ≡ drop (place + 1) text.now }
    ensures shorter { length result.now ≤ length text.now - 1 }
{
    turbo::cut(text, at_most(place, text.len()), 1).1
}

// From one byte on, up to another.
pub fn part<'a>(text: &'a [u8], from: usize, end: usize) -> &'a [u8]
    ensures { result.now ≡ drop from (take end text.now) }
{
    let f = front(text, end);
    &f[at_most(from, f.len())..]
}

// What stands before the first such byte, or all.
pub fn before<'a>(text: &'a [u8], byte: u8) -> &'a [u8]
    ensures { result.now ≡ until byte text.now }
{
    turbo::split(text, byte).0
}

// What stands behind the first such byte; nothing where there is none.
pub fn behind<'a>(text: &'a [u8], byte: u8) -> &'a [u8]
    ensures is { result.now ≡ past byte text.now }
    ensures shorter { length result.now ≤ length text.now - 1 }
{
    after(text, turbo::find(text, byte))
}

// The first line, without its LF.
pub fn first_line<'a>(text: &'a [u8]) -> &'a [u8]
    ensures { result.now ≡ until 10 text.now }
{
    before(text, b'\n')
}

// What is left after that line and its LF.
pub fn rest_after_line<'a>(text: &'a [u8]) -> &'a [u8]
    ensures is { result.now ≡ past 10 text.now }
    ensures shorter { length result.now ≤ length text.now - 1 }
{
    behind(text, b'\n')
}

// ---- Words, with blanks between them.

// Space, tab, and CR: so a line may end with CR LF.
fn is_blank(b: u8) -> bool
    ensures { result ≡ is_blank b }
{
    (b == b'\t') | ((b == b'\r') | (b == b' '))
}

// Whether b is a blank, or whether it is none.
fn is_kind(b: u8, blank: bool) -> bool
    ensures { result ≡ is_kind blank b }
{
    if blank {
        return is_blank(b);
    }
    !is_blank(b)
}

// How many bytes s begins with that are blanks, or that are none.
fn run_of(s: &[u8], blank: bool) -> usize
    ensures is { result ≡ run_in blank s.now }
    ensures within { result ≤ length s.now }
{
    lists::scan::find_near(s, move |b| is_kind(b, !blank))
}

// s from its first word on.
fn from_word<'a>(s: &'a [u8]) -> &'a [u8]
    ensures { result.now ≡ from_word s.now }
{
    &s[run_of(s, true)..]
}

// What t, which begins with a word, has from its second word on.
fn next_word<'a>(t: &'a [u8]) -> &'a [u8]
    ensures { result.now ≡ from_word (drop (run_in false t.now) t.now) }
{
    from_word(&t[run_of(t, false)..])
}

// The word at a place of a line, from 0; nothing where it has fewer.
pub fn word<'a>(line: &'a [u8], place: usize) -> &'a [u8]
    ensures { result.now ≡ word_at place line.now }
{
    let mut t = from_word(line);
    for passed in 0..place {
        t = next_word(t);
    }
    &t[..run_of(t, false)]
}

// ---- Reads.

// What is read to an area, from its start on, until the area is full, nothing more comes or a read fails; how many bytes.
pub fn read_full<R: Read>(from: &mut R, area: &mut [u8]) -> usize
    ensures { result ≤ length area.new }
{
    let mut end = 0;
    while end < area.len() {
        let Ok(more) = from.read(&mut area[end..]) else {
            return end;
        };
        if more == 0 {
            return end;
        }
        end += more;
    }
    end
}

// ---- Writes.

// Bytes added from a place on, where they fit; the place behind them.
pub fn append(area: &mut [u8], place: usize, added: &[u8]) -> usize
    ensures end { result ≡ place_behind place added.now area.old }
    ensures bytes { area.new ≡ appended place added.now area.old }
{
    if area.len() < place {
        return place;
    }
    if area.len() - place < added.len() {
        return place;
    }
    lists::copy_to(area, place, added);
    place + added.len()
}

// So many bytes of one value from a place on, as far as they fit; the place behind them.
pub fn pad(area: &mut [u8], place: usize, many: usize, value: u8) -> usize
    ensures end { result ≡ place + min many (length area.old - place) }
    ensures bytes { area.new ≡ over place (replicate many value) area.old }
{
    let mut end = place;
    let mut left = many;
    while 0 < left {
        if area.len() <= end {
            return end;
        }
        area[end] = value;
        end += 1;
        left -= 1;
    }
    end
}
