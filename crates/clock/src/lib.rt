// Dates and moments as numbers: a date is YYYYMMDD, a moment counts seconds from 2000-01-01, and every day has 86,400 of them. A time of an
// operating day, which goes on past midnight, becomes a moment through its date, and a moment is read back as a date and a second.
#![tactic(auto)]

ghost use Rattle.std.specs.Prelude.{◌≡◌, true, ◌*◌, ◌<◌};
ghost use Rattle.clock.specs.Date.{days_in, is_date};
ghost use Rattle.clock.specs.Moment.{month_start, month_of, day_count, moment_of, date_on, date_at, second_at};

// Seconds within an operating day, 0 to 115,199.
#[derive(Clone, Copy, PartialEq, Eq, PartialOrd, Ord)]
pub struct OperatingSeconds(pub u32);

// Seconds on the clock since 2000-01-01 00:00:00.
#[derive(Clone, Copy, PartialEq, Eq, PartialOrd, Ord)]
pub struct ClockSeconds(pub u32);

// The days of month `m` of year `y`.
fn days_in(y: u32, m: u32) -> u32
    ensures { result ≡ days_in y m }
{
    match m {
        2 => { if y % 4 == 0 { 29 } else { 28 } }
        4 | 6 | 9 | 11 => 30,
        _ => 31,
    }
}

// Whether a number is a real date YYYYMMDD of the years 2000 to 2099.
pub fn is_date(number: u32) -> bool
    ensures { result ≡ is_date number }
{
    let y = number / 10000;
    let m = number / 100 % 100;
    let d = number % 100;
    (2000..=2099).contains(&y) & (1..=12).contains(&m) & (1..=days_in(y, m)).contains(&d)
}

// The days of a common year before each month.
const BEFORE: [u32; 12] = [0, 31, 59, 90, 120, 151, 181, 212, 243, 273, 304, 334];

// The day count at the first of month `k`, counted from January 2000.
fn month_start(k: u32) -> u32
    requires { k < 1201 }
    ensures { result ≡ month_start k }
{
    let y = k / 12;
    let m = (k % 12) as usize;
    let base = y * 365 + (y + 3) / 4 + BEFORE[m];
    if 2 <= m && y % 4 == 0 { base + 1 } else { base }
}

// The days from 2000-01-01 to a date YYYYMMDD.
// kept: (a) a date is a number with a clause and no type of its own, here and in `moment`: docs/RULES.md names both, and their callers pass numbers.
pub fn day_count(date: u32) -> u32
    requires { is_date date ≡ true }
    ensures { result ≡ day_count date }
{
    let k = (date / 10000 - 2000) * 12 + (date / 100 % 100 - 1);
    month_start(k) + (date % 100 - 1)
}

// The moment at which the operating day `date` shows `time`.
pub fn moment(date: u32, time: OperatingSeconds) -> ClockSeconds
    requires { (is_date date ≡ true) × (time.0 < 115200) }
    ensures { result ≡ moment_of date time }
{
    ClockSeconds(day_count(date) * 86400 + time.0)
}

// The month, counted from January 2000, in which a day lies. A month has 30 and 7/16 days on average: so reckoned it is that month or the next.
fn month_at(day: u32) -> u32
    requires { day < 36526 }
    ensures { result ≡ month_of (date_on day) }
{
    let k = (day * 16 + 26) / 487;
    if day < month_start(k) { k - 1 } else { k }
}

// The date that the clock shows at a moment, 2100-01-01 too: the last operating day ends on it.
pub fn date_at(moment: ClockSeconds) -> u32
    requires { moment.0 < 36526 * 86400 }
    ensures { result ≡ date_at moment }
{
    let day = moment.0 / 86400;
    let k = month_at(day);
    let first = month_start(k);
    (2000 + k / 12) * 10000 + (k % 12 + 1) * 100 + (day - first + 1)
}

// The second of that date.
pub fn second_at(moment: ClockSeconds) -> u32
    ensures { result ≡ second_at moment }
{
    moment.0 % 86400
}
