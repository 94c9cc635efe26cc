// The reader of turbo dossiers: from any bytes to rows in a staging area, or the refusal that document 01 gives. It knows nothing of boards.
#![tactic(auto)]

ghost use Rattle.std.specs.Prelude.{◌≡◌, [], ◌+◌, ◌≤◌, ◌<◌, length};
ghost use Rattle.turbo_lines.specs.Lines.{lines, first_long};
ghost use Rattle.reader.specs.declared.Fault.TheVariants.{Form};
ghost use Rattle.reader.specs.Rules.{largest, reading_of};
ghost use Rattle.reader.specs.Numbers.{reading_numbers, reading_table};
ghost use Rattle.reader.specs.Staging.{rows_up_to, laid, short_items, staged_by};
ghost use Rattle.reader.specs.inner.Settled.{answered_by, unless_long, lines_answer};

use columns::Table;
use reader_step::State;

// Why a dossier is refused: 2 to 6 and 15 with their places. A reader answers one of these, or how many rows the dossier has.
#[derive(Clone, Copy, Debug, PartialEq, Eq)]
pub enum Fault {
    TooLong,
    Syntax(usize),
    Long(usize),
    Form(usize),
    Field(usize, usize),
    Owner(usize),
}

// The answer once no line is left, by the order of the numbers.
fn settle(last: State) -> Result<usize, Fault>
    ensures { result ≡ answered_by 0 last.wrong last.column last.owner last.rows }
{
    if last.wrong != 0 {
        return Err(Fault::Field(last.wrong, last.column));
    }
    if last.owner != 0 {
        return Err(Fault::Owner(last.owner));
    }
    Ok(last.rows)
}

// A fault of form, unless a line of what is left behind it is too long. `line` is the number of the first of these.
fn form_unless_long(form: usize, rest: &[u8], line: usize) -> Result<usize, Fault>
    requires { (1 ≤ line) × (line + length rest.now < 4294967296) }
    ensures { result ≡ unless_long (first_long line (lines rest.now)) (Err (Form form)) }
{
    match turbo_lines::first_long(rest, line) {
        Some(long) => Err(Fault::Long(long)),
        None => Err(Fault::Form(form)),
    }
}

// The lines of a dossier within its size, one after another. Behind a fault of form only a line that is too long is looked for, since that goes before it.
fn read_lines(
    table: Table,
    dossier: &[u8],
    register: &[u8],
    sender: u8,
    staging: &mut [u8],
) -> Result<usize, Fault>
    requires { length dossier.now ≤ largest }
    ensures answer { result ≡ lines_answer table register.now sender dossier.now }
    ensures area { staging.new ≡ laid table (rows_up_to table register.now sender (short_items table dossier.now)) staging.old }
{
    let mut state = reader_step::start();
    let mut rest = dossier;
    while 0 < rest.len() {
        let (line, next) = turbo_lines::read_line(rest);
        if 4094 < line.len() {
            return Err(Fault::Long(state.line));
        }
        reader_step::advance(table, &mut state, line, register, sender, staging);
        if state.form != 0 {
            return form_unless_long(state.form, next, state.line);
        }
        rest = next;
    }
    settle(state)
}

// Any bytes, in the order of the table of refusals: 2, 3, 15, then 4 to 6.
fn read(
    table: Table,
    dossier: &[u8],
    register: &[u8],
    sender: u8,
    staging: &mut [u8],
) -> Result<usize, Fault>
    ensures answer { result ≡ reading_of table register.now sender dossier.now }
    ensures area { staging.new ≡ staged_by table register.now sender dossier.now staging.old }
    ensures numbers { reading_numbers result ≡ reading_table table register.now sender dossier.now }
{
    if 65536 < dossier.len() {
        return Err(Fault::TooLong);
    }
    match syntax::check_syntax(dossier) {
        Err(i) => Err(Fault::Syntax(i)),
        Ok(()) => read_lines(table, dossier, register, sender, staging),
    }
}

// A message in its form: its rows, a body each, into the staging area.
pub fn read_message(
    form: columns::Form,
    dossier: &[u8],
    register: &[u8],
    sender: u8,
    staging: &mut [u8],
) -> Result<usize, Fault>
    ensures answer { result ≡ reading_of (Table.Message form) register.now sender dossier.now }
    ensures area { staging.new ≡ staged_by (Table.Message form) register.now sender dossier.now staging.old }
    ensures numbers { reading_numbers result ≡ reading_table (Table.Message form) register.now sender dossier.now }
{
    read(Table::Message(form), dossier, register, sender, staging)
}

// The planning: pass times, without a date and with their service level.
pub fn read_planning(dossier: &[u8], staging: &mut [u8]) -> Result<usize, Fault>
    ensures answer { result ≡ reading_of Table.Planning [] 0 dossier.now }
    ensures area { staging.new ≡ staged_by Table.Planning [] 0 dossier.now staging.old }
    ensures numbers { reading_numbers result ≡ reading_table Table.Planning [] 0 dossier.now }
{
    read(Table::Planning, dossier, &dossier[..0], 0, staging)
}

// The calendar: validities, each an owner, a service level and a date.
pub fn read_calendar(dossier: &[u8], staging: &mut [u8]) -> Result<usize, Fault>
    ensures answer { result ≡ reading_of Table.Calendar [] 0 dossier.now }
    ensures area { staging.new ≡ staged_by Table.Calendar [] 0 dossier.now staging.old }
    ensures numbers { reading_numbers result ≡ reading_table Table.Calendar [] 0 dossier.now }
{
    read(Table::Calendar, dossier, &dossier[..0], 0, staging)
}
