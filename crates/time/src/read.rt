// Reads times: the 14 digits of a moment, or seconds in decimal.
ghost use Rattle.std.specs.Prelude.{◌+◌, ◌*◌, ◌-◌, ◌^◌, ◌<◌, ◌≤◌, ◌&&◌, ◌≡◌, leb, length};
ghost use Rattle.format.specs.Time;
ghost use Rattle.format.specs.Time.{days_before, read_time};
ghost use Rattle.buffer.specs.Writing.{Values};
ghost use Rattle.time.specs.Years.{days_in};
ghost use Rattle.time.specs.Moments.{real_day, moment_read, seconds_read};

use crate::print::{leap, month_days};
use number::read::{in_range, value};

// The days from 1970 to year y, counted from 1970: every fourth year has one day more, except 2100.
#[tactic(auto, using(crate::proofs::Moments::year_early, crate::proofs::Moments::year_late))]
fn year_start(y: u64) -> u64
    requires { y < 137 }
    ensures value { result ≡ days_before (y * 12) }
    ensures small { result < 50000 }
{
    let d = y * 365 + (y + 1) / 4;
    if 130 < y { d - 1 } else { d }
}

// The days of a year before month m: 30 for each month, one more for those that have 31, and one or two fewer after February.
fn month_start(leap: bool, m: u64) -> u64
    requires { m < 12 }
    ensures value { result ≡ days_in leap m }
    ensures small { result < 366 }
{
    let d = m * 30 + (m + 1 + m / 8) / 2;
    if m < 2 {
        return d;
    }
    if leap { d - 1 } else { d - 2 }
}

// The days from 1970-01-01 to the first of a month.
fn days_before(year: u64, month: u64) -> u64
    requires first { 1970 ≤ year }
    requires last { year ≤ 2106 }
    requires january { 1 ≤ month }
    requires december { month ≤ 12 }
    ensures value { result ≡ days_before ((year - 1970) * 12 + (month - 1)) }
    ensures small { result < 51000 }
{
    year_start(year - 1970) + month_start(leap(year), month - 1)
}

// Whether a day is in the calendar, from 1970 to 2106.
fn real_day(year: u64, month: u64, day: u64) -> bool
    ensures { result ≡ real_day year month day }
{
    if year < 1970 || 2106 < year || month < 1 || 12 < month {
        return false;
    }
    1 <= day && day <= month_days(leap(year), month - 1)
}

// Whether there is such a time of day.
fn real_time(hour: u64, minute: u64, second: u64) -> bool
    ensures { result ≡ leb hour 23 && leb minute 59 && leb second 59 }
{
    hour <= 23 && minute <= 59 && second <= 59
}

// The seconds from 1970-01-01 to a time of day, a number of days later.
fn seconds_to(days: u64, hour: u64, minute: u64, second: u64) -> u64
    requires days { days < 52000 }
    requires hour { hour ≤ 23 }
    requires minute { minute ≤ 59 }
    requires second { second ≤ 59 }
    ensures { result ≡ days * 86400 + hour * 3600 + minute * 60 + second }
{
    days * 86400 + hour * 3600 + minute * 60 + second
}

// The seconds to a moment, if it is a real one.
fn moment(year: u64, month: u64, day: u64, hour: u64, minute: u64, second: u64) -> Option<u64>
    ensures { result ≡ Time.moment year month day hour minute second }
{
    if !real_day(year, month, day) || !real_time(hour, minute, second) {
        return None;
    }
    let days = days_before(year, month) + (day - 1);
    Some(seconds_to(days, hour, minute, second))
}

// The seconds to the moment of 14 digits: those of the day, YYYYMMDD, and those of its time, HHmmSS.
fn moment_at(t: &[u8]) -> Option<u64>
    requires { length t.now ≡ 14 }
    ensures { result ≡ moment_read t.now }
{
    let d = octets::decimal(&t[..8])?;
    let s = octets::decimal(&t[8..])?;
    moment(
        d / 10000,
        d / 100 % 100,
        d % 100,
        s / 10000,
        s / 100 % 100,
        s % 100,
    )
}

// The seconds that a text gives.
fn seconds(t: &[u8]) -> Option<u64>
    ensures { result ≡ seconds_read t.now }
{
    let v = if t.len() == 14 {
        moment_at(t)
    } else {
        octets::decimal(t)
    };
    in_range(v, 4294967296)
}

// Reads a time into four octets.
pub fn field(out: &mut [u8], at: usize, t: &[u8]) -> Option<usize>
    requires { at < 2 ^ 30 }
    ensures { Values out.old out.new at result (read_time t.now) }
{
    value(out, at, 4, seconds(t))
}
