//! Writes dates: as ISO-8601 from 1970 to 9999 in relaxed JSON, else by their milliseconds.

ghost use Rattle.std.specs.Prelude.{◌≡◌, ℕ, ◌+◌, ◌-◌, ◌/◌, ◌%◌, ◌<◌, ◌≤◌, ◌++◌, OnOk, codes};
ghost use Rattle.text_writer.specs.{WritesOut, text_contents};
ghost use Rattle.bson_json.specs.Dates as spec;
ghost use Rattle.bson_json.specs.Dates.{IsDay, day_text, time_text, two};
ghost use Rattle.bson_json.specs.Json.{IsDateJson, IsIsoJson, date_digits, date_number};
ghost use Rattle.bson_json.specs.Walks.{WritesOne};

use crate::double::write_named;
use crate::mode::Mode;
use itoa::Buffer;
use std::io::Write;
use text_writer::{Failed, TextWriter, write_number};

/// The first millisecond after year 9999.
const END: i64 = 253_402_300_800_000;

const DAY: u64 = 86_400_000;

/// The days from the beginning of year 1 to that of 1970.
const BEFORE_1970: u32 = 719_162;

/// A day, by the Gregorian calendar.
#[derive(Clone, Copy)]
struct Date {
    year: u32,
    month: u32,
    day: u32,
}

/// Returns true if the year has a 29th of February.
pub fn is_leap(year: u32) -> bool
    ensures { result ≡ spec.is_leap year }
{
    year % 4 == 0 && (year % 100 != 0 || year % 400 == 0)
}

/// Returns the number of days of a month, which are 12 from January on.
pub fn days_in_month(leap: bool, month: u32) -> u32
    ensures value { result ≡ spec.days_in_month leap month }
    ensures some { (28 ≤ result) × (result ≤ 31) }
{
    match month {
        2 if leap => 29,
        2 => 28,
        4 | 6 | 9 | 11 => 30,
        _ => 31,
    }
}

/// Returns the number of days from the beginning of year 1 to that of this year.
pub fn days_before_year(year: u32) -> u32
    requires { (1 ≤ year) × (year ≤ 10001) }
    ensures { result ≡ spec.days_before_year year }
{
    let past = year - 1;
    365 * past + past / 4 - past / 100 + past / 400
}

/// Returns the year of a day. Days are counted from the beginning of year 1.
fn year_of(days: u32) -> u32
    requires { (BEFORE_1970 ≤ days) × (days < 3652059) }
    ensures within { (1970 ≤ result) × (result ≤ 9999) }
    ensures begun { spec.days_before_year result ≤ days }
    ensures not_over { days < spec.days_before_year (result + 1) }
{
    // At most the year, since no year has more than 366 days.
    let mut year = 1970 + (days - BEFORE_1970) / 366;
    while days_before_year(year + 1) <= days {
        year += 1;
    }
    year
}

/// Returns the date of the day that is this number of days after the year's first.
fn date_in_year(year: u32, days: u32) -> Date
    requires { days < spec.days_in_year year }
    ensures year { result.year ≡ year }
    ensures month { (1 ≤ result.month) × (result.month ≤ 12) }
    ensures day { (1 ≤ result.day)
        × (result.day ≤ spec.days_in_month (spec.is_leap year) result.month) }
    ensures counted { days
        ≡ spec.days_before_month (spec.is_leap year) result.month + (result.day - 1) }
{
    let leap = is_leap(year);
    let mut month = 1;
    let mut left = days;
    while left >= days_in_month(leap, month) {
        left -= days_in_month(leap, month);
        month += 1;
    }
    Date {
        year,
        month,
        day: left + 1,
    }
}

/// Returns the date of the day that is this number of days after 1970-01-01.
fn date_of(days: u32) -> Date
    requires { days < 2932897 }
    ensures date { IsDay days result.year result.month result.day }
    ensures small { (result.month ≤ 12) × (result.day ≤ 31) }
{
    let days = days + BEFORE_1970;
    let year = year_of(days);
    date_in_year(year, days - days_before_year(year))
}

/// Writes two digits.
fn write_two<W: Write>(n: u32, out: &mut TextWriter<W>) -> Result<(), Failed>
    requires { n < 100 }
    ensures { OnOk result (WritesOut (text_contents W.contents) out.old out.new (two n)) }
{
    out.write_all(&[b'0' + (n / 10) as u8, b'0' + (n % 10) as u8])
}

/// Writes a point and three digits, unless there are no milliseconds.
fn write_fraction<W: Write>(ms: u32, out: &mut TextWriter<W>) -> Result<(), Failed>
    requires { ms < 1000 }
    ensures { OnOk result (WritesOut (text_contents W.contents) out.old out.new
        (spec.fraction_text ms)) }
{
    if ms == 0 {
        return Ok(());
    }
    out.write_all(&[b'.', b'0' + (ms / 100) as u8])?;
    write_two(ms % 100, out)
}

/// Writes the time of day, by its milliseconds.
fn write_time<W: Write>(ms: u32, out: &mut TextWriter<W>) -> Result<(), Failed>
    requires { ms < 86400000 }
    ensures { OnOk result (WritesOut (text_contents W.contents) out.old out.new (time_text ms)) }
{
    write_two(ms / 3_600_000, out)?;
    out.write_all(b":")?;
    write_two(ms / 60_000 % 60, out)?;
    out.write_all(b":")?;
    write_two(ms / 1_000 % 60, out)?;
    write_fraction(ms % 1_000, out)
}

/// Writes a day.
fn write_day<W: Write>(date: Date, out: &mut TextWriter<W>) -> Result<(), Failed>
    requires { (date.month ≤ 12) × (date.day ≤ 31) }
    ensures { OnOk result (WritesOut (text_contents W.contents) out.old out.new
        (day_text date.year date.month date.day)) }
{
    let Date { year, month, day } = date;
    write_number(year, out)?;
    out.write_all(b"-")?;
    write_two(month, out)?;
    out.write_all(b"-")?;
    write_two(day, out)
}

/// Returns the whole days of milliseconds.
fn days_of(ms: u64) -> u32
    requires { ms < 253402300800000 }
    ensures { result ≡ ms / 86400000 }
{
    (ms / DAY) as u32
}

/// Returns the milliseconds behind the last whole day.
fn time_of(ms: u64) -> u32
    ensures { result ≡ ms % 86400000 }
{
    (ms % DAY) as u32
}

/// Writes a date as ISO-8601.
fn write_iso<W: Write>(ms: u64, out: &mut TextWriter<W>) -> Result<(), Failed>
    requires { ms < 253402300800000 }
    ensures { OnOk result (WritesOne (text_contents W.contents) out.old out.new (IsIsoJson ms)) }
{
    let date = date_of(days_of(ms));
    out.write_all(b"{\"$date\":\"")?;
    write_day(date, out)?;
    out.write_all(b"T")?;
    write_time(time_of(ms), out)?;
    out.write_all(b"Z\"}")
}

/// Writes a date as a number of milliseconds that has these digits.
fn write_date_digits<W: Write>(digits: &[u8], out: &mut TextWriter<W>) -> Result<(), Failed>
    ensures { OnOk result (WritesOut (text_contents W.contents) out.old out.new
        (date_digits digits.now)) }
{
    out.write_all(b"{\"$date\":")?;
    write_named(b"Long", digits, out)?;
    out.write_all(b"}")
}

/// Writes a date as the number of its milliseconds.
fn write_milliseconds<W: Write>(ms: i64, out: &mut TextWriter<W>) -> Result<(), Failed>
    ensures { OnOk result (WritesOut (text_contents W.contents) out.old out.new
        (date_number ms)) }
{
    let mut buffer = Buffer::new();
    write_date_digits(buffer.format(ms).as_bytes(), out)
}

/// Writes a date, by its milliseconds since 1970 in UTC.
pub(crate) fn write_date<W: Write>(
    ms: i64,
    mode: Mode,
    out: &mut TextWriter<W>,
) -> Result<(), Failed>
    ensures { OnOk result (WritesOne (text_contents W.contents) out.old out.new
        (IsDateJson mode ms)) }
{
    if mode == Mode::Relaxed && 0 <= ms && ms < END {
        return write_iso(ms as u64, out);
    }
    write_milliseconds(ms, out)
}
