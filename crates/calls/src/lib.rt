// What the calls answer: their answers, and in specs/ the rules of open, message and withdraw.
#![tactic(auto)]

ghost use Rattle.std.specs.Prelude.{◌≡◌, Ok};
ghost use Rattle.calls.specs.Answers.{refusal_of, numbers};
ghost use Rattle.calls.specs.Leaves.{counts_of, outcome_of};
ghost use Rattle.calls.specs.inner.Steps.{four_of, passed_of};

use reader::Fault;

// Why a call is refused; else it answers a number. The last number of a dossier's refusal is 1 for the planning, 2 for the calendar, 0 for a message.
#[derive(Clone, Copy, Debug, PartialEq, Eq)]
pub enum Refusal {
    Unsound,
    TooLong(u8),
    Syntax(usize, u8),
    Long(usize, u8),
    Form(usize, u8),
    Field(usize, usize, u8),
    Owner(usize),
    StagingShort,
    BookShort,
    TableShort,
    KeyTwice,
    NoMessage,
    AlreadyWithdrawn,
    OtherSender,
    UnknownForm,
}

// Used bytes of the book, rows of the table.
#[derive(Clone, Copy)]
pub struct Counts {
    pub used: usize,
    pub rows: usize,
}

// An answer, and the counts to pass on.
#[derive(Clone, Copy)]
pub struct Outcome {
    pub answer: Result<u32, Refusal>,
    pub counts: Counts,
}

// An answer that changes nothing: the counts come back as they were given.
pub fn unchanged(answer: Result<u32, Refusal>, counts: Counts) -> Outcome
    ensures { result ≡ outcome_of answer counts }
{
    Outcome { answer, counts }
}

// An acceptance with the new counts.
pub fn accepted(number: u32, used: usize, rows: usize) -> Outcome
    ensures { result ≡ outcome_of (Ok number) (counts_of used rows) }
{
    Outcome {
        answer: Ok(number),
        counts: Counts { used, rows },
    }
}

// A dossier's fault as the call's refusal.
fn refused(fault: Fault, dossier: u8) -> Refusal
    ensures { result ≡ refusal_of dossier fault }
{
    match fault {
        Fault::TooLong => Refusal::TooLong(dossier),
        Fault::Syntax(at) => Refusal::Syntax(at, dossier),
        Fault::Long(line) => Refusal::Long(line, dossier),
        Fault::Form(line) => Refusal::Form(line, dossier),
        Fault::Field(line, column) => Refusal::Field(line, column, dossier),
        Fault::Owner(line) => Refusal::Owner(line),
    }
}

// A dossier's refusal 2 to 6 or 15 as the call's own, or its rows.
pub fn passed(reading: Result<usize, Fault>, dossier: u8) -> Result<usize, Refusal>
    ensures { result ≡ passed_of dossier reading }
{
    reading.map_err(|fault| refused(fault, dossier))
}

// An answer by document 01's numbers: the number, two values besides, and which dossier; 0 where there is none.
#[derive(Clone, Copy)]
pub struct Four {
    pub number: u32,
    pub value: usize,
    pub second: usize,
    pub dossier: u8,
}

// Four numbers as one value.
fn with_numbers(number: u32, value: usize, second: usize, dossier: u8) -> Four
    ensures { result ≡ four_of (number, value, second, dossier) }
{
    Four {
        number,
        value,
        second,
        dossier,
    }
}

// The numbers of an answer.
pub fn numbers(answer: Result<u32, Refusal>) -> Four
    ensures { result ≡ four_of (numbers answer) }
{
    match answer {
        Ok(n) => with_numbers(0, n as usize, 0, 0),
        Err(Refusal::Unsound) => with_numbers(1, 0, 0, 0),
        Err(Refusal::TooLong(w)) => with_numbers(2, 0, 0, w),
        Err(Refusal::Syntax(i, w)) => with_numbers(3, i, 0, w),
        Err(Refusal::Long(l, w)) => with_numbers(15, l, 0, w),
        Err(Refusal::Form(l, w)) => with_numbers(4, l, 0, w),
        Err(Refusal::Field(l, c, w)) => with_numbers(5, l, c, w),
        Err(Refusal::Owner(l)) => with_numbers(6, l, 0, 0),
        Err(Refusal::StagingShort) => with_numbers(14, 0, 0, 0),
        Err(Refusal::BookShort) => with_numbers(7, 0, 0, 0),
        Err(Refusal::TableShort) => with_numbers(8, 0, 0, 0),
        Err(Refusal::KeyTwice) => with_numbers(9, 0, 0, 0),
        Err(Refusal::NoMessage) => with_numbers(10, 0, 0, 0),
        Err(Refusal::AlreadyWithdrawn) => with_numbers(11, 0, 0, 0),
        Err(Refusal::OtherSender) => with_numbers(12, 0, 0, 0),
        Err(Refusal::UnknownForm) => with_numbers(18, 0, 0, 0),
    }
}
