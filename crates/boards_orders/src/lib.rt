// What a line of the script asks, or what is wrong with it.
#![tactic(auto)]

ghost use Rattle.std.specs.Prelude.{◌≡◌};
ghost use Rattle.boards_orders.specs.Orders.{command_of, number_word, date_word, time_word, has_words, is_whole, is_of_day, is_silent, places_at, form_at, register_order, message_order, parts_order, withdraw_order, board_order, wants, order_by, commanded, order_in};

// What a line asks, with the numbers in it; its words and files are read when it is done. `Bad` has the place of the word that is wrong, and why.
#[derive(Clone, Copy)]
pub enum Order {
    Nothing,
    Open,
    Register(u8),
    Message(u8, u32),
    Withdraw(u32, u8),
    Board(u32, u32, u32, usize),
    Messages,
    Registered,
    Save,
    Load,
    Parts(u8, usize, u32),
    Bad(usize, usize),
}

// Why a line is not done.
pub const UNREADABLE: usize = 0;

pub const UNWRITABLE: usize = 1;

pub const FULL: usize = 2;

const NO_DAY: usize = 3;

const NO_SENDER: usize = 4;

const NOT_TO_REGISTER: usize = 5;

const NO_NUMBER: usize = 6;

const NO_OWNER: usize = 7;

const NO_DATE: usize = 8;

const NO_TIME: usize = 9;

const NO_HORIZON: usize = 10;

const NO_PLACES: usize = 11;

pub const LONG: usize = 12;

const NO_SIZE: usize = 13;

const NO_FORM: usize = 14;

// From here on, by the command: it wants other words; the last is no command.
const WORDS: usize = 15;

// The commands, by their places among the names in `command`.
const OPEN: usize = 0;

const REGISTER: usize = 1;

const MESSAGE: usize = 2;

const WITHDRAW: usize = 3;

const BOARD: usize = 4;

const MESSAGES: usize = 5;

const REGISTERED: usize = 6;

const SAVE: usize = 7;

const LOAD: usize = 8;

const PARTS: usize = 9;

const NO_COMMAND: usize = 10;

// Which command w is.
fn command(w: &[u8]) -> usize
    ensures { result ≡ command_of w.now }
{
    turbo_labels::column_of(
        b"OPEN|REGISTER|MESSAGE|WITHDRAW|BOARD|MESSAGES|REGISTERED|SAVE|LOAD|PARTS",
        w,
    )
}

// What is no number is out of every range.
const NONE: u32 = 4294967295;

// The k-th word as a number of at most nine digits.
fn number(line: &[u8], k: usize) -> u32
    ensures { result ≡ number_word k line.now }
{
    field_types::read_number(script_text::word(line, k), 9).unwrap_or(NONE)
}

// REGISTER sender owner: the sender from 1 on, since the desk, 0, is registered for nobody.
fn read_register(line: &[u8]) -> Order
    ensures { result ≡ register_order line.now }
{
    let sender = number(line, 1);
    if sender == 0 {
        return Order::Bad(1, NOT_TO_REGISTER);
    }
    if 255 < sender {
        return Order::Bad(1, NOT_TO_REGISTER);
    }
    if passage::TEXT_WIDE < script_text::word(line, 2).len() {
        return Order::Bad(2, NO_OWNER);
    }
    Order::Register(sender as u8)
}

// The form that word k states; the old one, 0, where nothing is said. A number that is no form is the call's to refuse.
fn form(line: &[u8], k: usize) -> u32
    ensures { result ≡ form_at k line.now }
{
    if script_text::word(line, k).len() == 0 {
        return 0;
    }
    number(line, k)
}

// MESSAGE sender dossier-file [form].
fn read_message(line: &[u8]) -> Order
    ensures { result ≡ message_order line.now }
{
    let sender = number(line, 1);
    if 255 < sender {
        return Order::Bad(1, NO_SENDER);
    }
    let stated = form(line, 3);
    if stated == NONE {
        return Order::Bad(3, NO_FORM);
    }
    Order::Message(sender as u8, stated)
}

// A part has at most as many bytes as a dossier may have: a larger one could hold no more.
const LARGEST_PART: u32 = 65536;

// PARTS sender dossier-file size [form].
fn read_parts(line: &[u8]) -> Order
    ensures { result ≡ parts_order line.now }
{
    let sender = number(line, 1);
    if 255 < sender {
        return Order::Bad(1, NO_SENDER);
    }
    let size = number(line, 3);
    if size == 0 {
        return Order::Bad(3, NO_SIZE);
    }
    if LARGEST_PART < size {
        return Order::Bad(3, NO_SIZE);
    }
    let stated = form(line, 4);
    if stated == NONE {
        return Order::Bad(4, NO_FORM);
    }
    Order::Parts(sender as u8, size as usize, stated)
}

// WITHDRAW number sender.
fn read_withdraw(line: &[u8]) -> Order
    ensures { result ≡ withdraw_order line.now }
{
    let n = number(line, 1);
    if n == NONE {
        return Order::Bad(1, NO_NUMBER);
    }
    let sender = number(line, 2);
    if 255 < sender {
        return Order::Bad(2, NO_SENDER);
    }
    Order::Withdraw(n, sender as u8)
}

// How many lines at most; all where nothing is said.
fn places(line: &[u8]) -> u32
    ensures { result ≡ places_at line.now }
{
    if script_text::word(line, 6).len() == 0 {
        return 2048;
    }
    number(line, 6)
}

// The fourth word as a date.
fn date(line: &[u8]) -> u32
    ensures { result ≡ date_word line.now }
{
    field_types::read_date(script_text::word(line, 3)).unwrap_or(NONE)
}

// The fifth word as a time: its hours to 31, so that what is outside a board's range is the board's to refuse.
fn second(line: &[u8]) -> u32
    ensures { result ≡ time_word line.now }
{
    field_types::read_clock(script_text::word(line, 4), 31).unwrap_or(NONE)
}

// BOARD owner stop date time horizon [places].
fn read_board(line: &[u8]) -> Order
    ensures { result ≡ board_order line.now }
{
    let day = date(line);
    if day == NONE {
        return Order::Bad(3, NO_DATE);
    }
    let time = second(line);
    if time == NONE {
        return Order::Bad(4, NO_TIME);
    }
    let horizon = number(line, 5);
    if horizon == NONE {
        return Order::Bad(5, NO_HORIZON);
    }
    let most = places(line);
    if 2048 < most {
        return Order::Bad(6, NO_PLACES);
    }
    Order::Board(day, time, horizon, most as usize)
}

// Whether a line has a k-th word, and no n-th.
fn has_words(line: &[u8], k: usize, n: usize) -> bool
    ensures { result ≡ has_words k n line.now }
{
    if script_text::word(line, k).len() == 0 {
        return false;
    }
    script_text::word(line, n).len() == 0
}

// Whether the line has as many words as its command wants.
fn is_whole(line: &[u8], c: usize) -> bool
    ensures { result ≡ is_whole c line.now }
{
    match c {
        MESSAGE => has_words(line, 2, 4),
        BOARD => has_words(line, 5, 7),
        MESSAGES => has_words(line, 0, 1),
        REGISTERED => has_words(line, 0, 1),
        SAVE => has_words(line, 1, 2),
        LOAD => has_words(line, 1, 2),
        PARTS => has_words(line, 3, 5),
        _ => has_words(line, 2, 3),
    }
}

// Whether a command is about the day that is open.
fn is_of_day(c: usize) -> bool
    ensures { result ≡ is_of_day c }
{
    match c {
        MESSAGE => true,
        WITHDRAW => true,
        BOARD => true,
        MESSAGES => true,
        SAVE => true,
        PARTS => true,
        _ => false,
    }
}

// Command c wants other words, or is none.
fn wants(c: usize) -> Order
    ensures { result ≡ wants c }
{
    Order::Bad(0, WORDS + script_text::at_most(c, NO_COMMAND))
}

// What a line with as many words as command c wants asks.
fn read_by(line: &[u8], c: usize) -> Order
    ensures { result ≡ order_by c line.now }
{
    match c {
        OPEN => Order::Open,
        REGISTER => read_register(line),
        MESSAGE => read_message(line),
        WITHDRAW => read_withdraw(line),
        BOARD => read_board(line),
        MESSAGES => Order::Messages,
        REGISTERED => Order::Registered,
        SAVE => Order::Save,
        LOAD => Order::Load,
        PARTS => read_parts(line),
        _ => wants(c),
    }
}

// An empty line and a comment say nothing.
fn is_silent(w: &[u8]) -> bool
    ensures { result ≡ is_silent w.now }
{
    if w.len() == 0 {
        return true;
    }
    w[0] == b'#'
}

// What a line asks by its command c, where a day is open or not.
fn read_command(line: &[u8], c: usize, day: bool) -> Order
    ensures { result ≡ commanded day c line.now }
{
    if is_whole(line, c) {
        if day {
            return read_by(line, c);
        }
        if is_of_day(c) {
            return Order::Bad(0, NO_DAY);
        }
        return read_by(line, c);
    }
    wants(c)
}

// What a line asks, by its first word, which is a command, and the words behind it; and by whether a day is open.
pub fn read_order(line: &[u8], day: bool) -> Order
    ensures { result ≡ order_in day line.now }
{
    let w = script_text::word(line, 0);
    if is_silent(w) {
        return Order::Nothing;
    }
    let c = command(w);
    read_command(line, c, day)
}
