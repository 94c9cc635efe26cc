// The lines of the input. A vector is printed with what is answered and how many bytes of the staging area are written. Other lines begin with a mark.
use crate::{say, spell, staged};
use columns::Form;
use reader::Fault;
use std::io::{Print, Stdout};

// What is held between two lines: the letter of the group's reader; sender and register, the dossier behind them from its place on, and where it ends.
// kept: (d) the letter is the input's own, and says which reader is meant.
#[derive(Drop)]
pub struct Desk {
    letter: u8,
    bytes: [u8; 66000],
    end: usize,
}

// Where on the desk the dossier begins.
const DOSSIER: usize = 400;

// The size of the staging area, ten rows of a message where none is given.
fn size(digits: &[u8]) -> usize {
    field_types::read_number(digits, 5).map_or(660, |n| n as usize)
}

impl Desk {
    pub fn new() -> Desk {
        Desk {
            letter: 0,
            bytes: [0; 66000],
            end: DOSSIER,
        }
    }

    // Sender and register: with S they stand before ^, else sender 1 may send for CXX. Where they end.
    fn lay_register(&mut self, head: &[u8]) -> usize {
        let register = if self.letter == b'S' {
            head
        } else {
            b"%01%01CXX%00%00%00%00%00%00%00"
        };
        spell::out(&mut self.bytes, 0, register)
    }

    // A message in this form, with the register up to a place.
    fn read_message(
        &self,
        form: Form,
        dossier: &[u8],
        register: usize,
        area: &mut [u8],
    ) -> Result<usize, Fault> {
        let sender = self.bytes[0];
        let pairs = script_text::part(&self.bytes, 1, register);
        reader::read_message(form, dossier, pairs, sender, area)
    }

    // P and p read the planning, C and c the calendar, N and n messages in the 8.5 form, the others in the old.
    fn read(&self, register: usize, end: usize, area: &mut [u8]) -> Result<usize, Fault> {
        let dossier = script_text::part(&self.bytes, DOSSIER, end);
        match self.letter {
            b'P' | b'p' => reader::read_planning(dossier, area),
            b'C' | b'c' => reader::read_calendar(dossier, area),
            b'N' | b'n' => self.read_message(Form::New, dossier, register, area),
            _ => self.read_message(Form::Old, dossier, register, area),
        }
    }

    // Of the room so much is lent as is asked for, and all is looked at.
    fn ask(&self, out: Stdout, register: usize, end: usize, size: usize) {
        let mut room = [238u8; 41778];
        let lent = &mut room[..size.min(41778)];
        say::answer(out, self.read(register, end, lent));
        staged::left(out, self.letter, &room);
    }

    // A vector's dossier stands behind what is held. Where it has no ^ all is dossier, and its bytes are no number.
    fn try_vector(&mut self, out: Stdout, line: &[u8]) {
        let _ = out.write_all(line);
        let head = script_text::before(line, b'^');
        let dossier = if head.len() < line.len() {
            script_text::after(line, head.len())
        } else {
            line
        };
        let register = self.lay_register(head);
        let end = spell::out(&mut self.bytes, self.end, dossier);
        self.ask(out, register, end, size(head));
    }

    // `=M name` begins a group, `#` is a heading; `+` puts more behind the dossier, `-` empties it.
    pub fn do_line(&mut self, out: Stdout, line: &[u8]) {
        match line {
            [b'=', name @ ..] => {
                let _ = out.print("==");
                say::line(out, script_text::after(name, 0));
                self.letter = script_text::at(name, 0);
            }
            [b'#', ..] => say::line(out, line),
            [b'+', more @ ..] => self.end = spell::out(&mut self.bytes, self.end, more),
            [b'-', ..] => self.end = DOSSIER,
            _ => self.try_vector(out, line),
        }
    }
}
