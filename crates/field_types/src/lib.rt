// What a field's bytes mean by its type: numbers (N#), times (T), dates (D), stamps (U), and the types whose values are a few words, each with its code.
// A reader is lent the field, a part of the line, and copies nothing.
#![tactic(auto)]

ghost use Rattle.std.specs.Prelude.{◌≡◌, true, ◌≤◌, ◌<◌};
ghost use Rattle.clock.specs.Date.{is_date};
ghost use Rattle.field_types.specs.Digits.{numeral, triple};
ghost use Rattle.field_types.specs.Times.{clock, time};
ghost use Rattle.field_types.specs.Dates.{date};
ghost use Rattle.field_types.specs.Stamps.{utc_offset, stamp_seconds, stamp_shape, stamp, in_stamp_range};
ghost use Rattle.field_types.specs.Names.{bit, status, stop_type, flexible, truth, shown};

use clock::OperatingSeconds;

// ---- numbers

// N#: 1 to `most` digits.
pub fn read_number(field: &[u8], most: usize) -> Option<u32>
    requires { most ≤ 9 }
    ensures { result ≡ numeral most field.now }
{
    if field.len() == 0 {
        return None;
    }
    if most < field.len() {
        return None;
    }
    let mut n: u32 = 0;
    for b in field {
        if !b.is_ascii_digit() {
            return None;
        }
        n = n * 10 + (*b - b'0') as u32;
    }
    Some(n)
}

// ---- three numbers with marks between

// `width` digits, a mark, two digits, a mark, two digits: the three numbers of a date or a time.
fn read_triple(field: &[u8], width: usize, mark: u8) -> Option<(u32, u32, u32)>
    requires { width ≤ 9 }
    ensures { result ≡ triple width mark field.now }
{
    if field.len() != width + 6 {
        return None;
    }
    if field[width] != mark {
        return None;
    }
    if field[width + 3] != mark {
        return None;
    }
    let a = read_number(&field[..width], width)?;
    let b = read_number(&field[width + 1..width + 3], 2)?;
    let c = read_number(&field[width + 4..width + 6], 2)?;
    Some((a, b, c))
}

// ---- times

// HH:MM:SS with hours to `most`, as seconds.
pub fn read_clock(field: &[u8], most: u32) -> Option<u32>
    ensures { result ≡ clock most field.now }
{
    let (h, m, s) = read_triple(field, 2, b':')?;
    if most < h {
        return None;
    }
    if 59 < m {
        return None;
    }
    if 59 < s {
        return None;
    }
    Some(h * 3600 + m * 60 + s)
}

// T: 00:00:00 to 31:59:59, as seconds of the operating day.
pub fn read_time(field: &[u8]) -> Option<OperatingSeconds>
    ensures { result ≡ time field.now }
{
    read_clock(field, 31).map(OperatingSeconds)
}

// ---- dates

// D: YYYY-MM-DD, a real date, as the number YYYYMMDD.
pub fn read_date(field: &[u8]) -> Option<u32>
    ensures { result ≡ date field.now }
{
    let (y, m, d) = read_triple(field, 4, b'-')?;
    let n = y * 10000 + m * 100 + d;
    clock::is_date(n).then_some(n)
}

// ---- stamps: a date, a time and an offset

// HH:MM up to 14:00, as seconds.
fn read_offset(field: &[u8]) -> Option<u32>
    ensures { result ≡ utc_offset field.now }
{
    if field.len() != 5 {
        return None;
    }
    if field[2] != b':' {
        return None;
    }
    let h = read_number(&field[..2], 2)?;
    let m = read_number(&field[3..5], 2)?;
    if 59 < m {
        return None;
    }
    if 840 < h * 60 + m {
        return None;
    }
    Some((h * 60 + m) * 60)
}

// Seconds since 1970 of a second of a date, written `offset` seconds west or east of UTC.
fn stamp_seconds(west: bool, date: u32, second: u32, offset: u32) -> u32
    requires { (is_date date ≡ true) × (second < 86400) × (offset ≤ 50400) }
    ensures { result ≡ stamp_seconds west date second offset }
{
    let local = (10957 + clock::day_count(date)) * 86400 + second;
    if west {
        return local + offset;
    }
    local - offset
}

// 25 bytes, with T at 10 and + or - at 19.
fn stamp_shape(field: &[u8]) -> bool
    ensures { result ≡ stamp_shape field.now }
{
    if field.len() != 25 {
        return false;
    }
    if field[10] != b'T' {
        return false;
    }
    if field[19] == b'+' {
        return true;
    }
    field[19] == b'-'
}

// U: YYYY-MM-DDTHH:MM:SS+HH:MM, as seconds since 1970-01-01 UTC.
pub fn read_stamp(field: &[u8]) -> Option<u32>
    ensures { result ≡ stamp field.now }
{
    if !stamp_shape(field) {
        return None;
    }
    let d = read_date(&field[..10])?;
    let s = read_clock(&field[11..19], 23)?;
    let o = read_offset(&field[20..25])?;
    Some(stamp_seconds(field[19] == b'-', d, s, o))
}

// Whether a U field can give so many seconds.
pub fn in_stamp_range(seconds: u32) -> bool
    ensures { result ≡ in_stamp_range seconds }
{
    if seconds < 946634400 {
        return false;
    }
    seconds <= 4102495199
}

// ---- words
// kept: what a word gives is a number and no enum, since it is the byte of a row, which C is lent.

// B: 0 or 1.
pub fn read_bit(field: &[u8]) -> Option<u32>
    ensures { result ≡ bit field.now }
{
    if lists::same_bytes(field, b"0") {
        return Some(0);
    }
    if lists::same_bytes(field, b"1") {
        return Some(1);
    }
    None
}

// A status, coded 0 to 5.
pub fn read_status(field: &[u8]) -> Option<u32>
    ensures { result ≡ status field.now }
{
    if lists::same_bytes(field, b"PLANNED") {
        return Some(0);
    }
    if lists::same_bytes(field, b"CANCEL") {
        return Some(1);
    }
    if lists::same_bytes(field, b"UNKNOWN") {
        return Some(2);
    }
    if lists::same_bytes(field, b"DRIVING") {
        return Some(3);
    }
    if lists::same_bytes(field, b"ARRIVED") {
        return Some(4);
    }
    if lists::same_bytes(field, b"PASSED") {
        return Some(5);
    }
    None
}

// A JourneyStopType, coded 0 to 2.
pub fn read_stop_type(field: &[u8]) -> Option<u32>
    ensures { result ≡ stop_type field.now }
{
    if lists::same_bytes(field, b"FIRST") {
        return Some(0);
    }
    if lists::same_bytes(field, b"INTERMEDIATE") {
        return Some(1);
    }
    if lists::same_bytes(field, b"LAST") {
        return Some(2);
    }
    None
}

// A ShowFlexibleTrip, coded 1 to 3.
pub fn read_flexible(field: &[u8]) -> Option<u32>
    ensures { result ≡ flexible field.now }
{
    if lists::same_bytes(field, b"TRUE") {
        return Some(1);
    }
    if lists::same_bytes(field, b"FALSE") {
        return Some(2);
    }
    if lists::same_bytes(field, b"REALTIME") {
        return Some(3);
    }
    None
}

// Monitored in the 8.5 form, coded as B is.
pub fn read_truth(field: &[u8]) -> Option<u32>
    ensures { result ≡ truth field.now }
{
    if lists::same_bytes(field, b"false") {
        return Some(0);
    }
    if lists::same_bytes(field, b"true") {
        return Some(1);
    }
    None
}

// A journey that is cancelled with a message.
const MESSAGE: u32 = 2;

// A ShowCancelledJourney, coded 0 to 2.
pub fn read_shown(field: &[u8]) -> Option<u32>
    ensures { result ≡ shown field.now }
{
    if lists::same_bytes(field, b"false") {
        return Some(0);
    }
    if lists::same_bytes(field, b"true") {
        return Some(1);
    }
    if lists::same_bytes(field, b"message") {
        return Some(MESSAGE);
    }
    None
}
