// Lines as the desk reads them. A line is put together in a page and written by one write; nothing comes back and nothing lent is changed.
#![tactic(auto)]

use std::io::{Print, Stdout};

// ---- A page, and what a mark in it stands for.

const PAGE: usize = 4096;

// kept: (d) a number goes to the page whole or not at all, as every piece does; `write!` to the page would leave a part of it.
fn put_number(page: &mut [u8], at: usize, number: usize) -> usize {
    let mut digits = [0u8; 20];
    let mut first = 20;
    let mut rest = number;
    while 0 < first {
        first -= 1;
        digits[first] = b'0' + (rest % 10) as u8;
        rest /= 10;
        if rest == 0 {
            break;
        }
    }
    script_text::append(page, at, &digits[first..])
}

// A number of two digits.
fn put_two(page: &mut [u8], at: usize, number: usize) -> usize {
    if number < 10 {
        let next = script_text::append(page, at, b"0");
        return put_number(page, next, number);
    }
    put_number(page, at, number)
}

// A word of the script's line, with a blank before it; nothing where the line has fewer. The first has no blank.
fn put_word(page: &mut [u8], at: usize, line: &[u8], place: usize) -> usize {
    let w = script_text::word(line, place);
    if w.len() == 0 {
        return at;
    }
    if place == 0 {
        return script_text::append(page, at, w);
    }
    let next = script_text::append(page, at, b" ");
    script_text::append(page, next, w)
}

// The number at a place, or 0.
fn number_at(numbers: &[usize], place: usize) -> usize {
    if place < numbers.len() {
        return numbers[place];
    }
    0
}

// What a letter behind a mark stands for: a digit a word of the line, a capital a number, a small letter to `j` a number of two digits, x, y and z a text.
// kept: (d) the letters are those of the marks in the words; a word of a script is bytes that need be no text, which no `{}` prints.
fn put_named(
    page: &mut [u8],
    at: usize,
    letter: u8,
    line: &[u8],
    x: &[u8],
    y: &[u8],
    z: &[u8],
    numbers: &[usize],
) -> usize {
    match letter {
        b'0'..=b'6' => put_word(page, at, line, (letter - 48) as usize),
        b'A'..=b'J' => put_number(page, at, number_at(numbers, (letter - 65) as usize)),
        b'a'..=b'j' => put_two(page, at, number_at(numbers, (letter - 97) as usize)),
        b'x' => script_text::append(page, at, x),
        b'y' => script_text::append(page, at, y),
        b'z' => script_text::append(page, at, z),
        _ => at,
    }
}

// The words up to the mark %, and what the letter behind it stands for.
fn put_piece(
    page: &mut [u8],
    at: usize,
    words: &[u8],
    line: &[u8],
    x: &[u8],
    y: &[u8],
    z: &[u8],
    numbers: &[usize],
) -> usize {
    let front = script_text::before(words, b'%');
    let next = script_text::append(page, at, front);
    let letter = script_text::at(script_text::behind(words, b'%'), 0);
    put_named(page, next, letter, line, x, y, z, numbers)
}

// Words with what their marks stand for, from a place of the page on; the place behind them.
// kept: (d) a turn ends behind its mark's letter; over the parts between marks the first, which has no letter, would stand apart.
fn put(
    page: &mut [u8],
    start: usize,
    words: &[u8],
    line: &[u8],
    x: &[u8],
    y: &[u8],
    z: &[u8],
    numbers: &[usize],
) -> usize {
    let mut at = start;
    let mut rest = words;
    while 0 < rest.len() {
        at = put_piece(page, at, rest, line, x, y, z, numbers);
        let mark = script_text::behind(rest, b'%');
        let next = script_text::after(mark, 0);
        rest = next;
    }
    at
}

// So much of the page, by one write. Where that fails, the program goes on.
fn write(out: Stdout, page: &[u8], end: usize) {
    let _ = out.write_all(script_text::front(page, end));
}

// ---- What is printed.

// Words with what their marks stand for. A mark is % with a letter behind it: of a digit the word of the script's line there, of A to J a number, of a to j a number of two digits, of x, y and z a text.
pub fn tell(
    out: Stdout,
    words: &[u8],
    line: &[u8],
    x: &[u8],
    y: &[u8],
    z: &[u8],
    numbers: &[usize],
) {
    let mut page = [0u8; PAGE];
    let n = put(&mut page, 0, words, line, x, y, z, numbers);
    write(out, &page, n);
}

// A refusal: the place of the script's line and the refusal's number, then the numbers at C to J, and of which dossier of an opening it is, or 0.
pub fn refuse(
    out: Stdout,
    line: &[u8],
    words: &[u8],
    dossier: usize,
    x: &[u8],
    y: &[u8],
    z: &[u8],
    numbers: &[usize],
) {
    let mut page = [0u8; PAGE];
    let head = b"line %A: %0%1%2%3%4%5%6: refused, %B: ";
    let a = put(&mut page, 0, head, line, x, y, z, numbers);
    let b = put(&mut page, a, words, line, x, y, z, numbers);
    let which = turbo::field_of(b"| of the planning| of the calendar", dossier);
    let c = script_text::append(&mut page, b, which);
    let d = script_text::append(&mut page, c, b"; nothing changed\n");
    write(out, &page, d);
}

// A line that is not done: the word that is wrong and why, by the numbers of `boards_orders`.
pub fn miss(out: Stdout, place: u32, word: &[u8], why: usize) {
    let all = b"\
        cannot be read|\
        cannot be written|\
        register full, 64 pairs|\
        no day is open|\
        no sender, a number from 0 to 255|\
        no sender to register, a number from 1 to 255|\
        no message's number, 1 to 9 digits|\
        no owner, at most 10 bytes|\
        no date, YYYY-MM-DD from 2000 to 2099|\
        no time, HH:MM:SS|\
        no horizon, seconds in 1 to 9 digits|\
        no number of places, at most 2048|\
        line over 2,048 bytes|\
        no size of a part, a number from 1 to 65536|\
        no form, a number: 0 for the old one, 1 for turbo 8.5|\
        wants planning-file calendar-file|\
        wants sender owner|\
        wants sender dossier-file [form]|\
        wants number sender|\
        wants owner stop date time horizon [places]|\
        wants no more words|\
        wants no more words|\
        wants file|\
        wants file|\
        wants sender dossier-file size [form]|\
        no command";
    let reason = turbo::field_of(all, why);
    tell(
        out,
        b"line %A: %x: %y; nothing changed\n",
        word,
        word,
        reason,
        reason,
        &[place as usize],
    );
}

// How the program is called, and its commands.
pub fn usage(out: Stdout) {
    tell(
        out,
        b"\
        usage: boards [SCRIPT..]\n\
        Does what each script says, a command a line; - or no script is standard input, done line by line as it comes.\n\
        OPEN planning-file calendar-file              begins a new day; the register stays\n\
        REGISTER sender owner                         lets the sender send for the owner\n\
        MESSAGE sender dossier-file [form]            takes a message in, whole or not at all; form 1 is that of turbo 8.5\n\
        PARTS sender dossier-file size [form]         the same, fed in parts of so many bytes\n\
        WITHDRAW number sender                        takes a message back\n\
        BOARD owner stop date time horizon [places]   prints departures: YYYY-MM-DD, HH:MM:SS, seconds\n\
        MESSAGES                                      lists the day's messages\n\
        REGISTERED                                    lists the registered pairs\n\
        SAVE file                                     keeps the day and the register in a file\n\
        LOAD file                                     goes on with a day that was kept\n\
        Each script ends with DONE; lines not done and refusals begin with 'line'.\n",
        b"",
        b"",
        b"",
        b"",
        &[0],
    );
}
