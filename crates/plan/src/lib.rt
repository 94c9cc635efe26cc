// The plan: each pass time of a planning joins each validity of a calendar that has the same owner and service level, and gives a plan passage on its date.
#![tactic(auto)]

ghost use Rattle.std.specs.Prelude.{◌≡◌, ◌+◌, ◌-◌, ◌*◌, ◌≤◌, ◌<◌, length, take, drop};
ghost use Rattle.lists.specs.Text.{same};
ghost use Rattle.lists.specs.Part.{part, over};
ghost use Rattle.lists.specs.Rows.{flat, rows_of};
ghost use Rattle.passage.specs.Layout.{body_wide, key_wide};
ghost use Rattle.reader.specs.Passes.{pass_wide, validity_wide};
ghost use Rattle.plan.specs.Passes.{plan_key, plan_rest, plan_body};
ghost use Rattle.plan.specs.Rules.{joined_with, joined};
ghost use Rattle.plan.specs.inner.Look.{shared_wide, first_with, shared_of};

// Line, journey, fortify, stop and order number stand side by side, as in a key; arrival, departure and stop type, as in a body.
const TRIP_WIDE: usize = passage::KEY_WIDE - passage::LINE_AT;

const TIMES_WIDE: usize = passage::SHOW_CANCELLED_AT - passage::ARRIVAL_AT;

// A pass time: owner, line to order number, service level, destination, times and stop type, flexible.
const PASS_TRIP_AT: usize = passage::TEXT_WIDE;

const PASS_LEVEL_AT: usize = PASS_TRIP_AT + TRIP_WIDE;

const PASS_DESTINATION_AT: usize = PASS_LEVEL_AT + passage::TEXT_WIDE;

const PASS_TIMES_AT: usize = PASS_DESTINATION_AT + passage::TEXT_WIDE;

const PASS_FLEXIBLE_AT: usize = PASS_TIMES_AT + TIMES_WIDE;

pub const PASS_WIDE: usize = PASS_FLEXIBLE_AT + 1;

// A validity: owner, service level, date.
const VALIDITY_DATE_AT: usize = passage::TEXT_WIDE + passage::TEXT_WIDE;

pub const VALIDITY_WIDE: usize = VALIDITY_DATE_AT + passage::DATE_WIDE;

// Timestamp and status of a plan passage, side by side, are 0.
const UNHEARD_WIDE: usize = passage::ARRIVAL_AT - passage::STAMP_AT;

// What pass times and validities share, owner and service level, stands side by side in a validity.
const SHARED_WIDE: usize = VALIDITY_DATE_AT;

// ---- what one pass time gives: a plan passage with a validity, and the bytes that a validity must begin with to match it

// So many bytes from `from` on are written into `out` from `at` on.
fn copy_part(out: &mut [u8], at: usize, bytes: &[u8], from: usize, count: usize)
    requires { (at + count ≤ length out.old) × (from + count ≤ length bytes.now) }
    ensures { out.new ≡ over at (part from count bytes.now) out.old }
{
    lists::copy_to(out, at, &bytes[from..from + count]);
}

// The key of a pass time on the date of a validity, from `at` on.
fn write_key(
    out: &mut [u8],
    at: usize,
    passes: &[u8],
    pass: usize,
    validities: &[u8],
    validity: usize,
)
    requires { (at + key_wide ≤ length out.old) × (pass + pass_wide ≤ length passes.now) × (validity + validity_wide ≤ length validities.now) }
    ensures { out.new ≡ over at (plan_key (part pass pass_wide passes.now) (part validity validity_wide validities.now)) out.old }
{
    copy_part(out, at, passes, pass, passage::TEXT_WIDE);
    copy_part(
        out,
        at + passage::DATE_AT,
        validities,
        validity + VALIDITY_DATE_AT,
        passage::DATE_WIDE,
    );
    copy_part(
        out,
        at + passage::LINE_AT,
        passes,
        pass + PASS_TRIP_AT,
        TRIP_WIDE,
    );
}

// What follows the key, in the body from `at` on.
fn write_rest(out: &mut [u8], at: usize, passes: &[u8], pass: usize)
    requires { (at + body_wide ≤ length out.old) × (pass + pass_wide ≤ length passes.now) }
    ensures { out.new ≡ over (at + key_wide) (plan_rest (part pass pass_wide passes.now)) out.old }
{
    let flags = [1, passes[pass + PASS_FLEXIBLE_AT], 0];
    copy_part(
        out,
        at + passage::DESTINATION_AT,
        passes,
        pass + PASS_DESTINATION_AT,
        passage::TEXT_WIDE,
    );
    lists::clear(out, at + passage::STAMP_AT, UNHEARD_WIDE);
    copy_part(
        out,
        at + passage::ARRIVAL_AT,
        passes,
        pass + PASS_TIMES_AT,
        TIMES_WIDE,
    );
    lists::copy_to(out, at + passage::SHOW_CANCELLED_AT, &flags);
}

// The plan passage of a pass time on the date of a validity, from `at` on.
pub fn write_body(
    out: &mut [u8],
    at: usize,
    passes: &[u8],
    pass: usize,
    validities: &[u8],
    validity: usize,
)
    requires { (at + body_wide ≤ length out.old) × (pass + pass_wide ≤ length passes.now) × (validity + validity_wide ≤ length validities.now) }
    ensures { out.new ≡ over at (plan_body (part pass pass_wide passes.now) (part validity validity_wide validities.now)) out.old }
{
    write_key(out, at, passes, pass, validities, validity);
    write_rest(out, at, passes, pass);
}

// The owner and the service level of a pass time.
pub fn read_shared(shared: &mut [u8], passes: &[u8], pass: usize)
    requires { (length shared.old ≡ shared_wide) × (pass + pass_wide ≤ length passes.now) }
    ensures { shared.new ≡ shared_of (part pass pass_wide passes.now) }
{
    copy_part(shared, 0, passes, pass, passage::TEXT_WIDE);
    copy_part(
        shared,
        passage::TEXT_WIDE,
        passes,
        pass + PASS_LEVEL_AT,
        passage::TEXT_WIDE,
    );
}

// ---- the join

// Whether the validity from `validity` on begins with these bytes. No branch in the loop, so that it compiles to a few vector instructions.
fn begins_with(shared: &[u8], validities: &[u8], validity: usize) -> bool
    requires { (length shared.now ≡ shared_wide) × (validity + shared_wide ≤ length validities.now) }
    ensures { result ≡ same shared.now (part validity shared_wide validities.now) }
{
    let mut any = false;
    for i in 0..SHARED_WIDE {
        any = any | (shared[i] != validities[validity + i]);
    }
    !any
}

// The first validity, from the place `from` on, that begins with these bytes; their count if none does.
fn next_with(shared: &[u8], validities: &[u8], days: usize, from: usize) -> usize
    requires { (length shared.now ≡ shared_wide) × (days * validity_wide ≤ length validities.now) × (from ≤ days) }
    ensures { result ≡ from + first_with shared.now (rows_of validity_wide (days - from) (drop (from * validity_wide) validities.now)) }
{
    for i in from..days {
        if begins_with(shared, validities, i * VALIDITY_WIDE) {
            return i;
        }
    }
    days
}

// The pass time from `pass` on, with its owner and service level, against all validities: its plan passages go behind the `held` that are there, up to `most`
// in all; one more is counted where there are more, and then the search ends.
fn join_all(
    shared: &[u8],
    passes: &[u8],
    pass: usize,
    validities: &[u8],
    days: usize,
    out: &mut [u8],
    held: usize,
    most: usize,
) -> usize
    requires { (shared.now ≡ shared_of (part pass pass_wide passes.now)) × (pass + pass_wide ≤ length passes.now) × (days * validity_wide ≤ length validities.now) × (most * body_wide ≤ length out.old) × (held ≤ most) × (most < 4294967296) }
    ensures count { result ≡ held + length (take (most + 1 - held) (joined_with (part pass pass_wide passes.now) (rows_of validity_wide days validities.now))) }
    ensures bodies { out.new ≡ over (held * body_wide) (flat (take (most - held) (joined_with (part pass pass_wide passes.now) (rows_of validity_wide days validities.now)))) out.old }
{
    let mut m = held;
    let mut j = next_with(shared, validities, days, 0);
    // kept: (d) the place goes to the next validity that matches, which `next_with` finds, and not one on: a `for` would test each here again.
    while j < days {
        if m == most {
            return m + 1;
        }
        write_body(
            out,
            m * passage::BODY_WIDE,
            passes,
            pass,
            validities,
            j * VALIDITY_WIDE,
        );
        m += 1;
        j = next_with(shared, validities, days, j + 1);
    }
    m
}

// The same of the pass time alone.
fn join_one(
    passes: &[u8],
    pass: usize,
    validities: &[u8],
    days: usize,
    out: &mut [u8],
    held: usize,
    most: usize,
) -> usize
    requires { (pass + pass_wide ≤ length passes.now) × (days * validity_wide ≤ length validities.now) × (most * body_wide ≤ length out.old) × (held ≤ most) × (most < 4294967296) }
    ensures count { result ≡ held + length (take (most + 1 - held) (joined_with (part pass pass_wide passes.now) (rows_of validity_wide days validities.now))) }
    ensures bodies { out.new ≡ over (held * body_wide) (flat (take (most - held) (joined_with (part pass pass_wide passes.now) (rows_of validity_wide days validities.now)))) out.old }
{
    let mut shared = [0u8; SHARED_WIDE];
    read_shared(&mut shared, passes, pass);
    join_all(&shared, passes, pass, validities, days, out, held, most)
}

// The plan passages of all pass times, at most so many; one more is counted where there are more, and then the search ends.
// kept: (a) no heap: pass times, validities and bodies lie in lent areas that may be longer, so their counts stand beside them.
pub fn join(
    passes: &[u8],
    times: usize,
    validities: &[u8],
    days: usize,
    out: &mut [u8],
    most: usize,
) -> usize
    requires { (times * pass_wide ≤ length passes.now) × (days * validity_wide ≤ length validities.now) × (most * body_wide ≤ length out.old) × (most < 4294967296) }
    ensures count { result ≡ length (take (most + 1) (joined (rows_of pass_wide times passes.now) (rows_of validity_wide days validities.now))) }
    ensures bodies { out.new ≡ over 0 (flat (take most (joined (rows_of pass_wide times passes.now) (rows_of validity_wide days validities.now)))) out.old }
{
    let mut k = 0;
    for i in 0..times {
        k = join_one(passes, i * PASS_WIDE, validities, days, out, k, most);
        if most < k {
            return k;
        }
    }
    k
}
