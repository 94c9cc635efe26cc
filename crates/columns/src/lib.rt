// The wanted tables' columns as data: how many there are, each one's kind, and where its cell stands in a row. What a field gives is a rule here; `columns_cells` writes it.
#![tactic(auto)]

ghost use Rattle.std.specs.Prelude.{◌≡◌, ◌<◌};
ghost use Rattle.columns.specs.declared.Form.TheVariants.{Old};
ghost use Rattle.columns.specs.declared.Table.TheVariants.{Message, Planning, Calendar};
ghost use Rattle.columns.specs.Tables.{row_width, is_form, form_of, cancelled_kind, yes_no_kind};
ghost use Rattle.columns.specs.Layout.{wanted, kind_at, optional_at, offset};

// The form of a message: the old one, or that of turbo 8.5.
#[derive(Clone, Copy)]
pub enum Form {
    Old,
    New,
}

// The tables that are wanted: of a message, of the planning, of the calendar.
#[derive(Clone, Copy)]
pub enum Table {
    Message(Form),
    Planning,
    Calendar,
}

// The kinds of wanted columns: a text, a date, numbers of up to six, two and three digits, a timestamp, a status, two times, a stop type, a bit, a flexible, and in
// the 8.5 form a yes or no, and how a cancelled journey is shown.
#[derive(Clone, Copy)]
pub enum Kind {
    Text,
    Date,
    Journey,
    Fortify,
    Order,
    Stamp,
    Status,
    Arrival,
    Departure,
    StopType,
    Bit,
    Flexible,
    Truth,
    Shown,
}

// Whether a message's form is known: 0 the old one, 1 that of 8.5.
pub fn is_form(number: u32) -> bool
    ensures { result ≡ is_form number }
{
    number <= 1
}

// The form that a number states; an unknown one is read as the old.
// kept: no TryFrom in its place, since this cannot fail, and the call refuses a form that `is_form` does not know.
pub fn form_of(number: u32) -> Form
    ensures { result ≡ form_of number }
{
    if number == 1 {
        return Form::New;
    }
    Form::Old
}

// How wide a row of each is.
// kept: a width and a count are no conversion of a table, and share nothing but the names of the tables.
pub fn row_width(table: Table) -> usize
    ensures { result ≡ row_width table }
{
    match table {
        Table::Message(_) => 66,
        Table::Planning => 65,
        Table::Calendar => 24,
    }
}

// How many columns of each are wanted.
pub fn wanted(table: Table) -> usize
    ensures { result ≡ wanted table }
{
    match table {
        Table::Message(_) => 16,
        Table::Planning => 12,
        Table::Calendar => 3,
    }
}

// How a message in this form has a cancelled journey shown.
fn cancelled_kind(form: Form) -> Kind
    ensures { result ≡ cancelled_kind form }
{
    match form {
        Form::Old => Kind::Bit,
        Form::New => Kind::Shown,
    }
}

// How a message in this form says yes or no.
fn yes_no_kind(form: Form) -> Kind
    ensures { result ≡ yes_no_kind form }
{
    match form {
        Form::Old => Kind::Bit,
        Form::New => Kind::Truth,
    }
}

// The kind of column j of a message.
// kept: the kind at a place is no conversion of the place: it is a row of the list of columns.
fn message_kind(form: Form, index: usize) -> Kind
    requires { index < 16 }
    ensures { result ≡ kind_at (Message form) index }
{
    match index {
        0 => Kind::Text,
        1 => Kind::Date,
        2 => Kind::Text,
        3 => Kind::Journey,
        4 => Kind::Fortify,
        5 => Kind::Text,
        6 => Kind::Order,
        7 => Kind::Text,
        8 => Kind::Stamp,
        9 => Kind::Status,
        10 => Kind::Arrival,
        11 => Kind::Departure,
        12 => Kind::StopType,
        13 => cancelled_kind(form),
        14 => Kind::Flexible,
        _ => yes_no_kind(form),
    }
}

// The kind of column j of the planning.
fn planning_kind(index: usize) -> Kind
    requires { index < 12 }
    ensures { result ≡ kind_at Planning index }
{
    match index {
        0 => Kind::Text,
        1 => Kind::Text,
        2 => Kind::Journey,
        3 => Kind::Fortify,
        4 => Kind::Text,
        5 => Kind::Order,
        6 => Kind::Text,
        7 => Kind::Text,
        8 => Kind::Arrival,
        9 => Kind::Departure,
        10 => Kind::StopType,
        _ => Kind::Flexible,
    }
}

// The kind of column j of the calendar.
fn calendar_kind(index: usize) -> Kind
    requires { index < 3 }
    ensures { result ≡ kind_at Calendar index }
{
    match index {
        0 => Kind::Text,
        1 => Kind::Text,
        _ => Kind::Date,
    }
}

// The kind of column j.
pub fn kind_of(table: Table, index: usize) -> Kind
    requires { index < wanted table }
    ensures { result ≡ kind_at table index }
{
    match table {
        Table::Message(form) => message_kind(form, index),
        Table::Planning => planning_kind(index),
        Table::Calendar => calendar_kind(index),
    }
}

// Where the cell of column j of a message begins in a row, in either form.
// kept: the offset at a place is no conversion of the place: it is a row of the list of columns.
fn message_offset(index: usize) -> usize
    requires { index < 16 }
    ensures { result ≡ offset (Message Old) index }
{
    match index {
        0 => 0,
        1 => 10,
        2 => 14,
        3 => 24,
        4 => 28,
        5 => 29,
        6 => 39,
        7 => 41,
        8 => 51,
        9 => 55,
        10 => 56,
        11 => 59,
        12 => 62,
        13 => 63,
        14 => 64,
        _ => 65,
    }
}

// Where the cell of column j of the planning begins.
fn planning_offset(index: usize) -> usize
    requires { index < 12 }
    ensures { result ≡ offset Planning index }
{
    match index {
        0 => 0,
        1 => 10,
        2 => 20,
        3 => 24,
        4 => 25,
        5 => 35,
        6 => 37,
        7 => 47,
        8 => 57,
        9 => 60,
        10 => 63,
        _ => 64,
    }
}

// Where the cell of column j of the calendar begins.
fn calendar_offset(index: usize) -> usize
    requires { index < 3 }
    ensures { result ≡ offset Calendar index }
{
    match index {
        0 => 0,
        1 => 10,
        _ => 20,
    }
}

// Where the cell of column j begins in a row.
pub fn offset_of(table: Table, index: usize) -> usize
    requires { index < wanted table }
    ensures { result ≡ offset table index }
{
    match table {
        Table::Message(_) => message_offset(index),
        Table::Planning => planning_offset(index),
        Table::Calendar => calendar_offset(index),
    }
}

// Whether column j may be absent or hold `\0`.
pub fn is_optional(table: Table, index: usize) -> bool
    requires { index < wanted table }
    ensures { result ≡ optional_at table index }
{
    match table {
        Table::Message(_) => 13 <= index,
        Table::Planning => index == 11,
        Table::Calendar => false,
    }
}
