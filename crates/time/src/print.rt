// Prints seconds since 1970-01-01 as a moment in the Gregorian calendar. Months and days are counted from 0.
ghost use Rattle.std.specs.Prelude.{◌+◌, ◌*◌, ◌^◌, ◌<◌, ◌≤◌, ◌≡◌, length};
ghost use Rattle.format.specs.Digits;
ghost use Rattle.format.specs.Time;
ghost use Rattle.format.specs.Time.{month_days, days_before, day_of, moment_text, time_text};
ghost use Rattle.buffer.specs.Writing.{Wrote};
ghost use Rattle.time.specs.Years.{year_days};

use digits::put_fixed;
use octets::integer::number;

// Whether a year is a leap year.
pub fn leap(y: u64) -> bool
    ensures { result ≡ Time.leap y }
{
    y % 4 == 0 && (y % 100 != 0 || y % 400 == 0)
}

// How many days month m of a year has.
pub fn month_days(leap: bool, m: u64) -> u64
    ensures value { result ≡ month_days leap m }
    ensures least { 28 ≤ result }
    ensures most { result ≤ 31 }
{
    match m {
        1 if leap => 29,
        1 => 28,
        3 | 5 | 8 | 10 => 30,
        _ => 31,
    }
}

// How many days a year has.
fn year_days(y: u64) -> u64
    ensures value { result ≡ year_days y }
    ensures least { 365 ≤ result }
    ensures most { result ≤ 366 }
{
    if leap(y) { 366 } else { 365 }
}

// A year, counted from 1970, and a day of that year.
#[derive(Clone, Copy)]
struct YearDay {
    year: u64,
    day: u64,
}

// The year of day d, and the day's number in that year. The last day, that of 2^32 - 1 seconds, is 49,710. The search starts
// after the cycles of four years, 1,461 days each, that end by day d; at most 32, since the next has 2100, which is no leap year.
fn year_of(d: u64) -> YearDay
    requires { d ≤ 49710 }
    ensures start { days_before (result.year * 12) + result.day ≡ d }
    ensures end { d < days_before (result.year * 12 + 12) }
    ensures last { result.year < 137 }
{
    let cycles = (d / 1461).min(32);
    let mut left = d - cycles * 1461;
    for y in cycles * 4..137 {
        let days = year_days(1970 + y);
        if left < days {
            return YearDay { year: y, day: left };
        }
        left -= days;
    }
    unreachable!()
}

// A month, counted from January 1970, and a day of that month.
#[derive(Clone, Copy)]
struct Day {
    month: u64,
    day: u64,
}

// The month of day d, counted from 1970-01-01, and the day's number in that month. The last day is 49,710, as in `year_of`.
fn day_of(d: u64) -> Day
    requires { d ≤ 49710 }
    ensures month { result.month ≡ (day_of d).month }
    ensures day { result.day ≡ (day_of d).day }
    ensures last { result.month < 1644 }
    ensures in_month { result.day < 31 }
{
    let y = year_of(d);
    let leap_year = leap(1970 + y.year);
    let mut left = y.day;
    for m in 0..12 {
        let days = month_days(leap_year, m);
        if left < days {
            return Day {
                month: y.year * 12 + m,
                day: left,
            };
        }
        left -= days;
    }
    unreachable!()
}

// Writes a day and the seconds of that day as 14 digits.
fn moment(out: &mut [u8], at: usize, day: Day, seconds: u64) -> usize
    requires place { at < 2 ^ 30 }
    requires day { day.day < 31 }
    ensures { Wrote out.old out.new at result (moment_text (record { month = day.month; day = day.day }) seconds) }
{
    let a = put_fixed(out, at, 4, 1970 + day.month / 12);
    let b = put_fixed(out, a, 2, day.month % 12 + 1);
    let c = put_fixed(out, b, 2, day.day + 1);
    let d = put_fixed(out, c, 2, seconds / 3600);
    let e = put_fixed(out, d, 2, seconds / 60 % 60);
    put_fixed(out, e, 2, seconds % 60)
}

// Writes the time in four octets.
pub fn field(out: &mut [u8], at: usize, p: &[u8]) -> usize
    requires place { at < 2 ^ 30 }
    requires four { length p.now ≡ 4 }
    ensures { Wrote out.old out.new at result (time_text (Digits.number 256 p.now)) }
{
    let v = number(p);
    moment(out, at, day_of(v / 86400), v % 86400)
}
