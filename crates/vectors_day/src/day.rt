// What is kept between two lines of the input, and what each line does.
use crate::area::Area;
use crate::say;
use calls::Counts;
use std::io::Stdout;

// Where on the desk the register and the dossier begin.
const REGISTER: usize = 1;

const DOSSIER: usize = 1001;

// What is lent to calls, and the counts; register and dossier on the desk, and where they end; the planning, and the dossiers that are kept under a number.
#[derive(Drop)]
pub struct Day {
    book: Area<300000>,
    table: Area<140000>,
    counts: Counts,
    desk: [u8; 67001],
    register: usize,
    dossier: usize,
    planning: Area<66000>,
    kept: [Area<66000>; 4],
}

// A pair behind the register: the sender, then the owner in ten bytes. The place behind it.
fn pair(desk: &mut [u8], place: usize, sender: u8, owner: &[u8]) -> usize {
    let name = script_text::pad(desk, place, 1, sender);
    let end = script_text::pad(desk, name, 10, 0);
    script_text::append(desk, name, owner);
    end
}

impl Day {
    pub fn new() -> Day {
        Day {
            book: Area::new(),
            table: Area::new(),
            counts: Counts { used: 0, rows: 0 },
            desk: [0; 67001],
            register: REGISTER,
            dossier: DOSSIER,
            planning: Area::new(),
            kept: [Area::new(); 4],
        }
    }

    // b and t lend a book and a table of so many bytes, p and q change one of theirs, u and v set the counts.
    // kept: (d) the letters are the input's own, one line for each.
    fn lend(&mut self, letter: u8, first: usize, second: usize) {
        let value = script_text::low_byte(second);
        match letter {
            b'b' => self.book.fill(first, 170),
            b'p' => self.book.poke(first, value),
            b't' => self.table.fill(first, 187),
            b'q' => self.table.poke(first, value),
            b'u' => self.counts.used = first,
            b'v' => self.counts.rows = first,
            _ => {}
        }
    }

    // r puts a pair as `r3 CXX` behind the register, z so many zero bytes; R begins it anew.
    // kept: (d) the letters are the input's own, one line for each.
    fn enrol(&mut self, letter: u8, first: usize, owner: &[u8]) {
        let end = self.register;
        self.register = match letter {
            b'r' => pair(&mut self.desk, end, script_text::low_byte(first), owner),
            b'z' => script_text::pad(&mut self.desk, end, first, 0),
            b'R' => REGISTER,
            _ => end,
        };
    }

    // k keeps the dossier under a number from 0 to 3, / as the planning.
    // kept: (d) the letters are the input's own, one line for each.
    fn keep(&mut self, letter: u8, number: usize) {
        let dossier = script_text::part(&self.desk, DOSSIER, self.dossier);
        match letter {
            b'k' => self.kept[number % 4].hold(dossier),
            b'/' => self.planning.hold(dossier),
            _ => {}
        }
    }

    // + puts a line with its line end behind the dossier, - bytes without one, x so many letters; 0 begins it anew, g by the one that is kept under a number, and so does / once it is kept.
    // kept: (d) the letters are the input's own, one line for each.
    fn write(&mut self, letter: u8, first: usize, text: &[u8]) {
        self.keep(letter, first);
        let end = self.dossier;
        let desk = &mut self.desk;
        self.dossier = match letter {
            b'+' => {
                let n = script_text::append(desk, end, text);
                let last = script_text::pad(desk, n, 1, 13);
                script_text::pad(desk, last, 1, 10)
            }
            b'-' => script_text::append(desk, end, text),
            b'x' => script_text::pad(desk, end, first, b'a'),
            b'g' => script_text::append(desk, DOSSIER, self.kept[first % 4].used()),
            b'0' | b'/' => DOSSIER,
            _ => end,
        };
    }

    // O opens, M is a message from a sender, with its form behind it where that is not 0, W withdraws a message for a sender. What is answered is printed, and the counts are held.
    // kept: (d) the letters are the input's own, one line for each.
    fn call(&mut self, out: Stdout, letter: u8, first: usize, second: usize) {
        let counts = self.counts;
        let dossier = script_text::part(&self.desk, DOSSIER, self.dossier);
        let register = script_text::part(&self.desk, REGISTER, self.register);
        let book = self.book.used_mut();
        let table = self.table.used_mut();
        let outcome = match letter {
            b'O' => opening::open(self.planning.used(), dossier, book, table, counts),
            b'M' => messages::message(
                dossier,
                script_text::low_byte(first),
                script_text::low_word(second),
                register,
                book,
                table,
                counts,
            ),
            _ => withdrawals::withdraw(
                script_text::low_word(first),
                script_text::low_byte(second),
                book,
                table,
                counts,
            ),
        };
        self.counts = outcome.counts;
        say::answer(out, outcome.answer);
        say::sums(out, self.counts, self.book.used(), self.table.used());
    }

    // H prints all used bytes of what is lent.
    fn show(&self, out: Stdout, width: usize) {
        let rows = self.counts.rows % 65536 * passage::ROW_WIDE;
        let book = script_text::front(self.book.used(), self.counts.used);
        say::bytes(out, book, width);
        let table = script_text::front(self.table.used(), rows);
        say::bytes(out, table, passage::ROW_WIDE);
    }

    // A line has a letter, a number behind it, and another behind a blank. # is a heading.
    pub fn do_line(&mut self, out: Stdout, line: &[u8]) {
        let [letter, text @ ..] = line else {
            return;
        };
        let rest = script_text::behind(text, b' ');
        let first = script_text::leading_number(text);
        let second = script_text::leading_number(rest);
        match *letter {
            b'#' => say::heading(out, line),
            b'H' => self.show(out, first),
            b'O' | b'M' | b'W' => self.call(out, *letter, first, second),
            b'r' | b'z' | b'R' => self.enrol(*letter, first, rest),
            b'b' | b'p' | b't' | b'q' | b'u' | b'v' => self.lend(*letter, first, second),
            _ => self.write(*letter, first, text),
        }
    }
}
