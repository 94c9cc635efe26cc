// The departures that a line of the script asks for: asked of the table, and printed, or why they are not. Nothing is changed.
#![tactic(auto)]

ghost use Rattle.std.specs.Prelude.{◌≡◌, ◌*◌, ◌<◌};
ghost use Rattle.boards_departures.specs.Shown.{is_listed, is_shown};

use board::{Listed, Refusal};
use clock::{ClockSeconds, OperatingSeconds};
use std::io::Stdout;

// ---- What is printed.

// A kept text without the zero bytes behind it.
fn kept<'a>(padded: &'a [u8]) -> &'a [u8] {
    script_text::before(padded, 0)
}

// A departure: the moment as the clock shows it, line, destination and status.
fn departure(out: Stdout, moment: ClockSeconds, line: &[u8], destination: &[u8], status: &[u8])
    requires { moment.0 < 36526 * 86400 }
{
    let date = clock::date_at(moment);
    let second = clock::second_at(moment);
    boards_words::tell(
        out,
        b"%A-%b-%c %d:%e:%f %x %y %z\n",
        status,
        line,
        destination,
        status,
        &[
            (date / 10000) as usize,
            (date / 100 % 100) as usize,
            (date % 100) as usize,
            (second / 3600) as usize,
            (second / 60 % 60) as usize,
            (second % 60) as usize,
        ],
    );
}

// At a time of an operating day: from 24:00:00 on it is the next day. Every row of a board has one.
fn at_time(out: Stdout, date: u32, time: u32, line: &[u8], destination: &[u8], status: &[u8]) {
    if clock::is_date(date) {
        if time < 115200 {
            departure(
                out,
                clock::moment(date, OperatingSeconds(time)),
                line,
                destination,
                status,
            );
        }
    }
}

// A row of the table.
fn row(out: Stdout, r: &[u8]) {
    if r.len() != passage::ROW_WIDE {
        return;
    }
    let all = b"PLANNED|CANCEL|UNKNOWN|DRIVING|ARRIVED|PASSED";
    at_time(
        out,
        lists::get_number(r, passage::DATE_AT, passage::DATE_WIDE),
        lists::get_number(r, passage::DEPARTURE_AT, passage::TIME_WIDE),
        kept(&r[passage::LINE_AT..passage::LINE_AT + passage::TEXT_WIDE]),
        kept(&r[passage::DESTINATION_AT..passage::DESTINATION_AT + passage::TEXT_WIDE]),
        turbo::field_of(all, script_text::at(r, passage::STATUS_AT) as usize),
    );
}

fn place(out: Stdout, table: &[u8], p: u32) {
    let at = p as usize * passage::ROW_WIDE;
    if table.len() < at + passage::ROW_WIDE {
        return;
    }
    row(out, &table[at..at + passage::ROW_WIDE]);
}

// The rows of the first n places.
fn rows(out: Stdout, table: &[u8], places: &[u32], n: usize) {
    for p in places.iter().take(n) {
        place(out, table, *p);
    }
}

// What is listed: the rows at the places written, and how many passages are shown.
fn listed(out: Stdout, line: &[u8], table: &[u8], places: &[u32], written: usize, shown: usize) {
    boards_words::tell(out, b"%0%1%2%3%4%5\n", line, b"", b"", b"", &[0]);
    rows(out, table, places, written);
    boards_words::tell(out, b"END %A %B\n", line, b"", b"", b"", &[written, shown]);
}

// ---- Why nothing is printed.

// Whether an owner or a stop is what a board takes.
fn is_text(w: &[u8]) -> bool {
    board_show::asks_in_range(w, w, 20000101, 0, 0)
}

// Which of a board's words is outside its range.
fn which(line: &[u8], second: u32, horizon: u32) -> usize {
    if 86400 < horizon {
        return 4;
    }
    if 86399 < second {
        return 3;
    }
    if is_text(script_text::word(line, 1)) {
        return 2;
    }
    1
}

// Why a board is refused, by the number: with 13, which word is outside its range.
fn why(number: usize, line: &[u8], second: u32, horizon: u32) -> usize {
    if number == 13 {
        return which(line, second, horizon);
    }
    0
}

// A board that is refused.
fn unshown(out: Stdout, place: u32, line: &[u8], number: usize, second: u32, horizon: u32) {
    let all = b"\
        table not sound|\
        owner%1 is not 1 to 10 bytes from 32 to 126|\
        stop%2 is not 1 to 10 bytes from 32 to 126|\
        time%4 is not by the clock, which goes to 23:59:59|\
        horizon%5 is over 86400 seconds";
    boards_words::refuse(
        out,
        line,
        turbo::field_of(all, why(number, line, second, horizon)),
        0,
        b"",
        b"",
        b"",
        &[place as usize, number],
    );
}

// ---- The question.

// A listing is printed, or why there is none; whether there is one.
fn told(
    out: Stdout,
    place: u32,
    line: &[u8],
    second: u32,
    horizon: u32,
    table: &[u8],
    places: &[u32],
    listing: Result<Listed, Refusal>,
) -> bool
    ensures { result ≡ is_listed listing }
{
    match listing {
        Ok(found) => {
            listed(out, line, table, places, found.written, found.shown);
            true
        }
        Err(Refusal::Unsound) => {
            unshown(out, place, line, 1, second, horizon);
            false
        }
        Err(Refusal::OutOfRange) => {
            unshown(out, place, line, 13, second, horizon);
            false
        }
    }
}

// In the places lent.
fn ask_in(
    out: Stdout,
    place: u32,
    line: &[u8],
    date: u32,
    second: u32,
    horizon: u32,
    most: usize,
    table: &[u8],
    rows: usize,
    places: &mut [u32],
) -> bool
    ensures { result ≡ is_shown line.now date second horizon rows table.now }
{
    let n = script_text::at_most(most, places.len());
    let owner = script_text::word(line, 1);
    let stop = script_text::word(line, 2);
    let listing = board::board(
        owner,
        stop,
        date,
        second,
        horizon,
        table,
        rows,
        &mut places[0..n],
    );
    told(out, place, line, second, horizon, table, places, listing)
}

// The board that a line asks for, at most so many departures of it; whether it is shown. Owner and stop are words of the line, the first rows of the table are looked at.
pub fn ask(
    out: Stdout,
    place: u32,
    line: &[u8],
    date: u32,
    second: u32,
    horizon: u32,
    most: usize,
    table: &[u8],
    rows: usize,
) -> bool
    ensures { result ≡ is_shown line.now date second horizon rows table.now }
{
    let mut places = [0u32; table::MOST_ROWS];
    ask_in(
        out,
        place,
        line,
        date,
        second,
        horizon,
        most,
        table,
        rows,
        &mut places,
    )
}
