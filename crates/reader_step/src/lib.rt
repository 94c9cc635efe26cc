// One line of a dossier at a time: what is kept of the lines so far, and what a line changes in it and in the staging area. It asks for no line before or behind, so lines may come one by one.
#![tactic(auto)]

ghost use Rattle.std.specs.Prelude.{◌≡◌, ◌≤◌, ◌<◌, length};
ghost use Rattle.rows.specs.Shape.{IsShape};
ghost use Rattle.lists.specs.Text.{same};
ghost use Rattle.columns.specs.Tables.{table_name};
ghost use Rattle.columns.specs.Layout.{widest_row};
ghost use Rattle.reader_step.specs.declared.Place.TheVariants.{Outside, Under};
ghost use Rattle.reader_step.specs.Place.{is_awaiting, is_under, place_number, place_at, place_read};
ghost use Rattle.reader_step.specs.Step.{moved, misformed, labelled, mistyped, disowned, one_row_more, row_step, data_step, label_step, place_named, step_by, line_step, Fresh};
ghost use Rattle.reader_step.specs.Step.{staged, row_staged, data_staged, stage_by, line_staged};

use columns::Table;
use rows::Shape;
use turbo_lines::Mark;

// Where in the line order: outside the table, between its `\T` and `\L` lines, or under its labels; or what no line leads to, a byte that stands for none of these.
#[derive(Clone, Copy)]
pub enum Place {
    Outside,
    Awaiting,
    Under,
    Other(u8),
}

// The number by which a place is kept between two parts.
impl From<Place> for u64 {
    ghost from_gives = { λ place n. n ≡ place_number place };

    fn from(place: Place) -> u64 {
        match place {
            Place::Outside => 0,
            Place::Awaiting => 1,
            Place::Under => 2,
            Place::Other(byte) => byte as u64,
        }
    }
}

// The place that a byte stands for, whatever the byte.
impl From<u8> for Place {
    ghost from_gives = { λ n place. place ≡ place_at n };

    fn from(byte: u8) -> Place {
        match byte {
            0 => Place::Outside,
            1 => Place::Awaiting,
            2 => Place::Under,
            _ => Place::Other(byte),
        }
    }
}

// And back; a number of none of the three is told.
impl TryFrom<u64> for Place {
    type Error = u64;

    ghost try_from_gives = { λ n place. place ≡ place_read n };

    fn try_from(number: u64) -> Result<Place, u64> {
        match number {
            0 => Ok(Place::Outside),
            1 => Ok(Place::Awaiting),
            2 => Ok(Place::Under),
            _ => Err(number),
        }
    }
}

// What is kept of the lines so far: the place behind them, and the shape of the last labels.
// `line` is the number of the line to come; `form`, `wrong` with `column`, and `owner` are the first lines at fault, 0 for none.
// kept: the C interface: these are the numbers that are lent between two parts, 0 for none, where a column may stand without a wrong line and is given back (`kept_of`, `feed_of`).
// kept: the C interface: the shape stands beside the place and not in `Place::Under`, since its numbers are given back at every place.
#[derive(Clone, Copy)]
pub struct State {
    pub place: Place,
    pub line: usize,
    pub form: usize,
    pub wrong: usize,
    pub column: usize,
    pub owner: usize,
    pub rows: usize,
    pub shape: Shape,
}

// A line that changes only the place.
// It and the steps below change the state where it lies: that is some 400 bytes, and by value they were copied several times a line.
fn moved_to(state: &mut State, place: Place)
    requires { state.old.line < 4294967296 }
    ensures { state.new ≡ moved state.old place }
{
    state.place = place;
    state.line += 1;
}

// A line that is only counted.
fn count_line(state: &mut State)
    requires { state.old.line < 4294967296 }
    ensures { state.new ≡ moved state.old state.old.place }
{
    state.line += 1;
}

// A fault of form in this line.
fn form_fault(state: &mut State)
    requires { state.old.line < 4294967296 }
    ensures { state.new ≡ misformed state.old }
{
    state.form = state.line;
    state.line += 1;
}

// Under new labels.
fn under_labels(state: &mut State, shape: Shape)
    requires { state.old.line < 4294967296 }
    ensures { state.new ≡ labelled state.old shape }
{
    state.place = Place::Under;
    state.line += 1;
    state.shape = shape;
}

// A field outside its type, in a column of this line.
fn wrong_field(state: &mut State, column: usize)
    requires { state.old.line < 4294967296 }
    ensures { state.new ≡ mistyped state.old column }
{
    state.wrong = state.line;
    state.column = column;
    state.line += 1;
}

// An owner for which the sender is not registered.
fn wrong_owner(state: &mut State)
    requires { state.old.line < 4294967296 }
    ensures { state.new ≡ disowned state.old }
{
    state.owner = state.line;
    state.line += 1;
}

// One row more.
fn one_more(state: &mut State)
    requires { (state.old.line < 4294967296) × (state.old.rows < 4294967296) }
    ensures { state.new ≡ one_row_more state.old }
{
    state.rows += 1;
    state.line += 1;
}

fn label_step(state: &mut State, shape: Shape)
    requires { state.old.line < 4294967296 }
    ensures { state.new ≡ label_step state.old shape }
{
    if shape.fault {
        form_fault(state);
        return;
    }
    under_labels(state, shape);
}

// The row goes behind the n rows so far, if it fits.
fn stage(table: Table, n: usize, row: &[u8], staging: &mut [u8])
    requires { (n < 4294967296) × (length row.now ≡ widest_row) }
    ensures { staging.new ≡ staged table n row.now staging.old }
{
    let w = columns::row_width(table);
    let a = n * w;
    if a + w <= staging.len() {
        lists::copy_to(staging, a, &row[..w]);
    }
}

// A row that was read: its fault, its owner, its place in the staging area.
fn row_step(
    table: Table,
    state: &mut State,
    read: Result<[u8; 80], usize>,
    register: &[u8],
    sender: u8,
    staging: &mut [u8],
)
    requires { (state.old.line < 4294967296) × (state.old.rows < 4294967296) }
    ensures state { state.new ≡ row_step table register.now sender state.old read }
    ensures area { staging.new ≡ row_staged table register.now sender state.old read staging.old }
{
    match read {
        Err(column) => wrong_field(state, column),
        Ok(row) => {
            if state.owner != 0 {
                count_line(state);
                return;
            }
            if register::may_send(table, register, sender, &row) {
                stage(table, state.rows, &row, staging);
                one_more(state);
                return;
            }
            wrong_owner(state);
        }
    }
}

// A data line: its count of fields first, and no more once a field was wrong.
fn data_step(
    table: Table,
    state: &mut State,
    line: &[u8],
    register: &[u8],
    sender: u8,
    staging: &mut [u8],
)
    requires { (state.old.line < 4294967296) × (state.old.rows < 4294967296) × IsShape table state.old.shape }
    ensures state { state.new ≡ data_step table register.now sender state.old line.now }
    ensures area { staging.new ≡ data_staged table register.now sender state.old line.now staging.old }
{
    if turbo::count_fields(line) != state.shape.count {
        form_fault(state);
        return;
    }
    if state.wrong != 0 {
        count_line(state);
        return;
    }
    let read = rows::read_row(table, state.shape, line);
    row_step(table, state, read, register, sender, staging);
}

// The place after a `\T` line: whether its name is the table's.
fn named_place(table: Table, name: &[u8]) -> Place
    ensures { result ≡ place_named table name.now }
{
    if is_named(table, name) {
        return Place::Awaiting;
    }
    Place::Outside
}

fn is_named(table: Table, name: &[u8]) -> bool
    ensures { result ≡ same name.now (table_name table) }
{
    match table {
        Table::Message(_) => lists::same_bytes(name, b"DATEDPASSTIME"),
        Table::Planning => lists::same_bytes(name, b"LOCALSERVICEGROUPPASSTIME"),
        Table::Calendar => lists::same_bytes(name, b"LOCALSERVICEGROUPVALIDITY"),
    }
}

// A line by its mark, where no line before it was at fault in its form.
fn line_by_mark(
    table: Table,
    state: &mut State,
    line: &[u8],
    register: &[u8],
    sender: u8,
    staging: &mut [u8],
)
    requires { (state.old.line < 4294967296) × (state.old.rows < 4294967296) × (state.old.place ≡ Under → IsShape table state.old.shape) }
    ensures state { state.new ≡ step_by table register.now sender state.old line.now }
    ensures area { staging.new ≡ stage_by table register.now sender state.old line.now staging.old }
{
    match turbo_lines::mark_of(line) {
        Mark::Group => moved_to(state, Place::Outside),
        Mark::Table => {
            let name = turbo::first_field(turbo_lines::after_mark(line));
            moved_to(state, named_place(table, name));
        }
        Mark::Labels => match state.place {
            Place::Awaiting => {
                let shape = rows::read_labels(table, turbo_lines::after_mark(line));
                label_step(state, shape);
            }
            Place::Outside | Place::Under | Place::Other(_) => moved_to(state, Place::Outside),
        },
        Mark::Data => match state.place {
            Place::Under => data_step(table, state, line, register, sender, staging),
            place => moved_to(state, place),
        },
    }
}

// One line: what it changes in the state and in the staging area. It needs nothing of the lines before but the state. Behind a fault of form a line is
// only counted: the first line at fault is kept, and no row is staged behind it.
pub fn advance(
    table: Table,
    state: &mut State,
    line: &[u8],
    register: &[u8],
    sender: u8,
    staging: &mut [u8],
)
    requires { (state.old.line < 4294967296) × (state.old.rows < 4294967296) × (state.old.place ≡ Under → IsShape table state.old.shape) }
    ensures state { state.new ≡ line_step table register.now sender state.old line.now }
    ensures area { staging.new ≡ line_staged table register.now sender state.old line.now staging.old }
{
    if state.form != 0 {
        count_line(state);
        return;
    }
    line_by_mark(table, state, line, register, sender, staging);
}

// One line as `advance` takes it, where the state before it stays as it is.
pub fn line_step(
    table: Table,
    mut state: State,
    line: &[u8],
    register: &[u8],
    sender: u8,
    staging: &mut [u8],
) -> State
    requires { (state.line < 4294967296) × (state.rows < 4294967296) × (state.place ≡ Under → IsShape table state.shape) }
    ensures state { result ≡ line_step table register.now sender state line.now }
    ensures area { staging.new ≡ line_staged table register.now sender state line.now staging.old }
{
    advance(table, &mut state, line, register, sender, staging);
    state
}

// Before any line.
pub fn start() -> State
    ensures { Fresh result }
{
    State {
        place: Place::Outside,
        line: 1,
        form: 0,
        wrong: 0,
        column: 0,
        owner: 0,
        rows: 0,
        shape: Shape {
            fault: true,
            count: 0,
            stop: 0,
            places: [0usize; 20],
            found: 0,
            order: [0usize; 20],
        },
    }
}
