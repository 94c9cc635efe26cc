// The lines of the input, each with a letter. Fields stand between bars, bytes of the table in hexadecimal digits.
use crate::say;
use std::io::Stdout;

// The table, of which the first bytes are lent, and the number of rows that is passed.
#[derive(Drop)]
struct Desk {
    table: [u8; 20000],
    size: usize,
    rows: usize,
}

// The number that t begins with.
fn number(t: &[u8]) -> u32 {
    script_text::low_word(script_text::leading_number(t))
}

// L asks as `LCXX|S1|20160301|85800|1800|4`: owner, stop, date, second, horizon, and how many places are lent.
fn ask(out: Stdout, t: &[u8], table: &[u8], rows: usize) {
    let mut places = [7777u32; 64];
    let many = script_text::leading_number(turbo::rest_after_bars(t, 5));
    let lent = &mut places[..many.min(64)];
    let listing = board::board(
        turbo::first_field(t),
        turbo::field_of(t, 1),
        number(turbo::rest_after_bars(t, 2)),
        number(turbo::rest_after_bars(t, 3)),
        number(turbo::rest_after_bars(t, 4)),
        table,
        rows,
        lent,
    );
    say::answer(out, listing, lent);
}

// The bytes that the digits stand for, from n on; the place behind them.
fn append(area: &mut [u8], n: usize, digits: &[u8]) -> usize {
    let mut end = n;
    for pair in digits.chunks_exact(2) {
        end = script_text::pad(area, end, 1, script_text::hex_byte(pair[0], pair[1]));
    }
    end
}

impl Desk {
    // t puts bytes behind the table's, 0 empties it, n is the number of rows, # a heading.
    fn do_line(&mut self, out: Stdout, line: &[u8]) {
        match line {
            [b't', digits @ ..] => self.size = append(&mut self.table, self.size, digits),
            [b'0', ..] => self.size = 0,
            [b'n', digits @ ..] => self.rows = script_text::leading_number(digits),
            [b'L', asked @ ..] => ask(
                out,
                asked,
                script_text::front(&self.table, self.size),
                self.rows,
            ),
            [b'#', ..] => say::heading(out, line),
            _ => {}
        }
    }
}

pub fn run(out: Stdout, input: &[u8]) {
    let mut desk = Desk {
        table: [0; 20000],
        size: 0,
        rows: 0,
    };
    for line in input.split_inclusive(|b| *b == b'\n') {
        desk.do_line(out, script_text::first_line(line));
    }
}
