// Why an opening is refused by 9: which key arises twice. The plan's passages are worked out once more, since a refused opening leaves none. The refusal is printed; nothing comes back and nothing is changed.
#![tactic(auto)]

use std::io::Stdout;

// Room for the pass times of any planning, the validities of any calendar, and as many passages as a book takes.
const MOST_PASSES: usize = 6553;

const PASSES: usize = MOST_PASSES * plan::PASS_WIDE;

const MOST_VALIDITIES: usize = 5461;

const VALIDITIES: usize = MOST_VALIDITIES * plan::VALIDITY_WIDE;

const MOST_PLANS: usize = book::MOST_BYTES / book::PLAN_WIDE;

const BODIES: usize = MOST_PLANS * passage::BODY_WIDE;

// How many passages the two dossiers give, laid in `bodies`.
fn join(
    planning: &[u8],
    calendar: &[u8],
    passes: &mut [u8; PASSES],
    validities: &mut [u8; VALIDITIES],
    bodies: &mut [u8; BODIES],
) -> usize {
    let Ok(times) = reader::read_planning(planning, passes) else {
        return 0;
    };
    let Ok(days) = reader::read_calendar(calendar, validities) else {
        return 0;
    };
    if MOST_PASSES < times {
        return 0;
    }
    if MOST_VALIDITIES < days {
        return 0;
    }
    plan::join(passes, times, validities, days, bodies, MOST_PLANS)
}

// Whether one of the bodies has this key.
fn has_key(bodies: &[u8], key: &[u8]) -> bool {
    let mut rest = bodies;
    while passage::BODY_WIDE <= rest.len() {
        if lists::same_bytes(script_text::front(rest, passage::KEY_WIDE), key) {
            return true;
        }
        let next = &rest[passage::BODY_WIDE..];
        rest = next;
    }
    false
}

// The bodies from the first on whose key another behind it has; none where no key stands twice.
fn from_twice<'a>(bodies: &'a [u8]) -> &'a [u8] {
    let mut rest = bodies;
    while passage::BODY_WIDE <= rest.len() {
        let next = &rest[passage::BODY_WIDE..];
        if has_key(next, script_text::front(rest, passage::KEY_WIDE)) {
            return rest;
        }
        rest = next;
    }
    rest
}

// A text of a body, without the zero bytes behind it.
fn text<'a>(body: &'a [u8], from: usize, end: usize) -> &'a [u8] {
    script_text::before(script_text::part(body, from, end), 0)
}

// The key that a body begins with.
fn tell_twice(out: Stdout, place: u32, line: &[u8], body: &[u8]) {
    if body.len() < passage::BODY_WIDE {
        return;
    }
    let date = lists::get_number(body, passage::DATE_AT, passage::DATE_WIDE) as usize;
    boards_words::refuse(
        out,
        line,
        b"one key arises twice: owner %x, date %C-%d-%e, line %y, journey %F, fortify %G, stop %z, order %H",
        0,
        text(body, passage::OWNER_AT, passage::DATE_AT),
        text(body, passage::LINE_AT, passage::JOURNEY_AT),
        text(body, passage::STOP_AT, passage::ORDER_AT),
        &[
            place as usize,
            9,
            date / 10000,
            date / 100 % 100,
            date % 100,
            lists::get_number(body, passage::JOURNEY_AT, passage::JOURNEY_WIDE) as usize,
            script_text::at(body, passage::FORTIFY_AT) as usize,
            lists::get_number(body, passage::ORDER_AT, passage::ORDER_WIDE) as usize,
        ],
    );
}

// The first body's key; a refusal is told in any case.
fn tell_first(out: Stdout, place: u32, line: &[u8], bodies: &[u8]) {
    if bodies.len() < passage::BODY_WIDE {
        boards_words::refuse(
            out,
            line,
            b"one key arises twice",
            0,
            b"",
            b"",
            b"",
            &[place as usize, 9],
        );
        return;
    }
    tell_twice(out, place, line, bodies);
}

// The areas are lent as arrays of known size.
fn tell_in(
    out: Stdout,
    place: u32,
    line: &[u8],
    planning: &[u8],
    calendar: &[u8],
    passes: &mut [u8; PASSES],
    validities: &mut [u8; VALIDITIES],
    bodies: &mut [u8; BODIES],
) {
    let pairs = join(planning, calendar, passes, validities, bodies);
    let n = script_text::at_most(pairs, MOST_PLANS);
    tell_first(
        out,
        place,
        line,
        from_twice(script_text::front(bodies, n * passage::BODY_WIDE)),
    );
}

// The first key that arises twice in the two dossiers.
pub fn tell(out: Stdout, place: u32, line: &[u8], planning: &[u8], calendar: &[u8]) {
    let mut passes = [0u8; PASSES];
    let mut validities = [0u8; VALIDITIES];
    let mut bodies = [0u8; BODIES];
    tell_in(
        out,
        place,
        line,
        planning,
        calendar,
        &mut passes,
        &mut validities,
        &mut bodies,
    );
}
