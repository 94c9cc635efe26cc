// Why a call refused a dossier, refusals 3 to 6: what stands in it at the places that the call answered. Each function prints the refusal; nothing comes back and nothing is changed.
#![tactic(auto)]

ghost use Rattle.std.specs.Prelude.{◌≤◌, ◌≡◌};
ghost use Rattle.turbo.specs.Split.{fields};
ghost use Rattle.columns.specs.Tables.{names};

use calls::Four;
use columns::{Form, Table};
use std::io::Stdout;
use turbo_lines::Mark;

// So much of a field is printed.
const MOST_SHOWN: usize = 40;

// 1 where a line ends in these bytes.
fn ends(bytes: &[u8]) -> usize
    ensures { result ≤ 1 }
{
    if turbo::find_far(bytes, b'\n') < bytes.len() {
        return 1;
    }
    0
}

// How many lines end before a place.
fn lines_before(dossier: &[u8], place: usize) -> usize {
    let front = script_text::front(dossier, place);
    let mut rest = front;
    let mut n = 0;
    while 0 < rest.len() {
        n += ends(rest);
        let next = script_text::rest_after_line(rest);
        rest = next;
    }
    n
}

// The number of the line that a place stands in, from 1.
fn line_of(dossier: &[u8], place: usize) -> usize {
    script_text::at_most(lines_before(dossier, place), 65536) + 1
}

// 3: at which byte of which line, or that the dossier ends too early.
pub fn tell_syntax(out: Stdout, place: u32, line: &[u8], dossier: &[u8], f: Four) {
    let at = f.value;
    let all = b"syntax fault at byte %C, in line %D|cut short, ends early at byte %C, in line %D";
    let mut which = 0;
    if dossier.len() <= at {
        which = 1;
    }
    boards_words::refuse(
        out,
        line,
        turbo::field_of(all, which),
        f.dossier as usize,
        b"",
        b"",
        b"",
        &[place as usize, 3, at, line_of(dossier, at)],
    );
}

// The line with this number, from 1, of a dossier that is well formed.
fn line_at<'a>(dossier: &'a [u8], number: usize) -> &'a [u8] {
    let mut rest = dossier;
    let mut left = number;
    while 1 < left {
        let next = turbo_lines::rest_after_line(rest);
        rest = next;
        left -= 1;
    }
    turbo_lines::first_line(rest)
}

fn is_labels(line: &[u8]) -> bool {
    match turbo_lines::mark_of(line) {
        Mark::Group => false,
        Mark::Table => false,
        Mark::Labels => true,
        Mark::Data => false,
    }
}

// The number of the last label line before line `number`; 0 where there is none.
fn labels_before(dossier: &[u8], number: usize) -> usize {
    let mut rest = dossier;
    let mut last = 0;
    let mut i = 1;
    while i < number {
        if is_labels(turbo_lines::first_line(rest)) {
            last = i;
        }
        let next = turbo_lines::rest_after_line(rest);
        rest = next;
        i += 1;
    }
    last
}

// The names in the label line of the data line with this number.
fn labels_of<'a>(dossier: &'a [u8], number: usize) -> &'a [u8] {
    let n = labels_before(dossier, number);
    turbo_lines::after_mark(line_at(dossier, n))
}

// ---- 4

// Whether a name stands more than once in a label line.
fn stands_twice(labels: &[u8], name: &[u8]) -> bool {
    let rest = turbo::rest_after_bars(labels, turbo_labels::column_of(labels, name));
    let more = turbo::rest_after_bar(rest);
    turbo_labels::column_of(more, name) < turbo::count_fields(more)
}

// The first of the names that stands twice; behind them where none does.
fn first_twice(labels: &[u8], names: &[u8]) -> usize {
    let n = turbo::count_fields(names);
    let mut i = 0;
    while i < n {
        if stands_twice(labels, turbo::field_of(names, i)) {
            return i;
        }
        i += 1;
    }
    n
}

// The first of the names that is missing.
fn first_missing(labels: &[u8], names: &[u8]) -> usize {
    let n = turbo::count_fields(names);
    let count = turbo::count_fields(labels);
    let mut i = 0;
    while i < n {
        if turbo_labels::column_of(labels, turbo::field_of(names, i)) == count {
            return i;
        }
        i += 1;
    }
    n
}

// A label line in which one of the names stands twice, or is missing. Optional names stand last, and come to be missing last.
fn tell_labels(out: Stdout, place: u32, line: &[u8], labels: &[u8], names: &[u8], f: Four) {
    let all = b"column %x stands twice in label line %C|column %x is missing in label line %C";
    let mut which = 0;
    let mut k = first_twice(labels, names);
    if turbo::count_fields(names) <= k {
        which = 1;
        k = first_missing(labels, names);
    }
    boards_words::refuse(
        out,
        line,
        turbo::field_of(all, which),
        f.dossier as usize,
        turbo::field_of(names, k),
        b"",
        b"",
        &[place as usize, 4, f.value],
    );
}

// A data line with other fields than its label line.
fn tell_fields(out: Stdout, place: u32, line: &[u8], dossier: &[u8], f: Four) {
    let have = turbo::count_fields(line_at(dossier, f.value));
    let want = turbo::count_fields(labels_of(dossier, f.value));
    boards_words::refuse(
        out,
        line,
        b"line %C has %D fields, and its label line %E",
        f.dossier as usize,
        b"",
        b"",
        b"",
        &[place as usize, 4, f.value, have, want],
    );
}

// Among the names that are looked for, which are those of the table.
fn tell_among(
    out: Stdout,
    place: u32,
    line: &[u8],
    table: Table,
    dossier: &[u8],
    wanted: &[u8],
    f: Four,
)
    requires { fields wanted.now ≡ names table }
{
    let l = line_at(dossier, f.value);
    if is_labels(l) {
        tell_labels(out, place, line, turbo_lines::after_mark(l), wanted, f);
        return;
    }
    tell_fields(out, place, line, dossier, f);
}

// In a message of this form.
fn tell_message(out: Stdout, place: u32, line: &[u8], form: Form, dossier: &[u8], f: Four) {
    match form {
        Form::Old => tell_among(
            out,
            place,
            line,
            Table::Message(form),
            dossier,
            b"DataOwnerCode|OperationDate|LinePlanningNumber|VehicleJourneyNumber|FortifyOrderNumber|UserStopCode|UserStopOrderNumber|DestinationCode|LastUpdateTimeStamp|TripStopStatus|ExpectedArrivalTime|ExpectedDepartureTime|JourneyStopType|ShowCancelledTrip|ShowFlexibleTrip|Monitored",
            f,
        ),
        Form::New => tell_among(
            out,
            place,
            line,
            Table::Message(form),
            dossier,
            b"DataOwnerCode|OperationDate|LinePlanningNumber|VehicleJourneyNumber|FortifyOrderNumber|UserStopCode|UserStopOrderNumber|DestinationCode|LastUpdateTimeStamp|TripStopStatus|ExpectedArrivalTime|ExpectedDepartureTime|JourneyStopType|ShowCancelledJourney|ShowFlexibleTrip|Monitored",
            f,
        ),
    }
}

// 4: which of its three faults, and which column.
pub fn tell_form(out: Stdout, place: u32, line: &[u8], table: Table, dossier: &[u8], f: Four) {
    match table {
        Table::Message(form) => tell_message(out, place, line, form, dossier, f),
        Table::Planning => tell_among(
            out,
            place,
            line,
            table,
            dossier,
            b"DataOwnerCode|LinePlanningNumber|VehicleJourneyNumber|FortifyOrderNumber|UserStopCode|UserStopOrderNumber|LocalServiceLevelCode|DestinationCode|TargetArrivalTime|TargetDepartureTime|JourneyStopType|ShowFlexibleTrip",
            f,
        ),
        Table::Calendar => tell_among(
            out,
            place,
            line,
            table,
            dossier,
            b"DataOwnerCode|LocalServiceLevelCode|OperationDate",
            f,
        ),
    }
}

// ---- 5 and 6

// A column's place from 0.
fn before(column: usize) -> usize {
    if column == 0 {
        return 0;
    }
    column - 1
}

// 5: the column's name, and what stands there.
pub fn tell_field(out: Stdout, place: u32, line: &[u8], dossier: &[u8], f: Four) {
    let column = before(f.second);
    boards_words::refuse(
        out,
        line,
        b"field outside its type, in line %C, column %D: %x is '%y'",
        f.dossier as usize,
        turbo::field_of(labels_of(dossier, f.value), column),
        script_text::front(
            turbo::field_of(line_at(dossier, f.value), column),
            MOST_SHOWN,
        ),
        b"",
        &[place as usize, 5, f.value, f.second],
    );
}

// 6: the owner.
pub fn tell_owner(out: Stdout, place: u32, line: &[u8], dossier: &[u8], f: Four, sender: u8) {
    let column = turbo_labels::column_of(labels_of(dossier, f.value), b"DataOwnerCode");
    boards_words::refuse(
        out,
        line,
        b"owner %x in line %C is not registered for sender %D",
        0,
        turbo::field_of(line_at(dossier, f.value), column),
        b"",
        b"",
        &[place as usize, 6, f.value, sender as usize],
    );
}
