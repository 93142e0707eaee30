//! Dates, by RFC 3339, section 5.6, of at most milliseconds.

ghost use Rattle.std.specs.Prelude.{◌≡◌, ◌+◌, ◌<◌, ◌≤◌, nat_abs, IfSome, IsTrue, length};
ghost use Rattle.bson_json.specs.Dates as dates;
ghost use Rattle.bson_json_read.specs.Iso as spec;
ghost use Rattle.bson_json_read.specs.Iso.{digit_at, iso_of, two_at};

use bson_json::{days_before_year, days_in_month, is_leap};

/// A full-date and a partial-time, RFC 3339, section 5.6, with a 0 for each digit.
const LOCAL: &[u8] = b"0000-00-00T00:00:00";

/// The milliseconds from the beginning of year 1 to that of 1970.
const BEFORE_1970: i64 = 719_162 * 86_400_000;

/// Returns true if the bytes begin with a digit for each 0 of the pattern, and else with its bytes.
#[tactic(auto, using(crate::proofs::Alike::shorter))]
fn begins(pattern: &[u8], bytes: &[u8]) -> bool
    ensures value { result ≡ spec.begins pattern.now bytes.now }
    ensures long { IsTrue result → length pattern.now ≤ length bytes.now }
{
    if bytes.len() < pattern.len() {
        return false;
    }
    for i in 0..pattern.len() {
        let same = if pattern[i] == b'0' {
            bytes[i].is_ascii_digit()
        } else {
            bytes[i] == pattern[i]
        };
        if !same {
            return false;
        }
    }
    true
}

/// Returns true if the bytes are as the pattern from the first to the last.
fn is_like(pattern: &[u8], bytes: &[u8]) -> bool
    ensures value { result ≡ spec.like pattern.now bytes.now }
    ensures long { IsTrue result → length bytes.now ≡ length pattern.now }
{
    bytes.len() == pattern.len() && begins(pattern, bytes)
}

/// Returns the number of the digit at `i`.
fn digit(bytes: &[u8], i: usize) -> u32
    requires { i < length bytes.now }
    ensures value { result ≡ digit_at bytes.now i }
    ensures small { result < 256 }
{
    u32::from(bytes[i].saturating_sub(48))
}

/// Returns the number of the two digits at `i`.
fn two(bytes: &[u8], i: usize) -> u32
    requires { i + 1 < length bytes.now }
    ensures value { result ≡ two_at bytes.now i }
    ensures small { result < 4096 }
{
    digit(bytes, i) * 10 + digit(bytes, i + 1)
}

/// Returns the days of a year before this month of it.
fn days_before_month(leap: bool, month: u32) -> u32
    requires { (1 ≤ month) × (month ≤ 12) }
    ensures value { result ≡ dates.days_before_month leap month }
    ensures small { result < 400 }
{
    let mut days = 0;
    for earlier in 1..month {
        days += days_in_month(leap, earlier);
    }
    days
}

/// Returns the days from 0001-01-01 to this one, if it is a day.
fn day_number(year: u32, month: u32, day: u32) -> Option<u32>
    ensures value { result ≡ spec.day_if year month day }
    ensures small { IfSome result (λ days. days < 4000000) }
{
    if year < 1 || year > 9999 {
        return None;
    }
    if month < 1 || month > 12 || day < 1 {
        return None;
    }
    let leap = is_leap(year);
    if day > days_in_month(leap, month) {
        return None;
    }
    Some(days_before_year(year) + days_before_month(leap, month) + (day - 1))
}

/// Returns the days from 0001-01-01 to a full-date, if it is a day.
fn day_of(bytes: &[u8]) -> Option<u32>
    requires { 19 ≤ length bytes.now }
    ensures value { result ≡ spec.day_of bytes.now }
    ensures small { IfSome result (λ days. days < 4000000) }
{
    let year = two(bytes, 0) * 100 + two(bytes, 2);
    day_number(year, two(bytes, 5), two(bytes, 8))
}

/// Returns the minutes of time-hour and time-minute, RFC 3339, section 5.6, if they are in range.
fn minutes_if(hour: u32, minute: u32) -> Option<u32>
    ensures value { result ≡ spec.minutes_if hour minute }
    ensures small { IfSome result (λ minutes. minutes < 1440) }
{
    if hour < 24 && minute < 60 {
        Some(hour * 60 + minute)
    } else {
        None
    }
}

/// Returns the minutes of the hour and the minute that stand at `i`, with a byte between them.
fn minutes_at(bytes: &[u8], i: usize) -> Option<u32>
    requires { i + 4 < length bytes.now }
    ensures value { result ≡ spec.minutes_at bytes.now i }
    ensures small { IfSome result (λ minutes. minutes < 1440) }
{
    minutes_if(two(bytes, i), two(bytes, i + 3))
}

/// Returns the seconds of these minutes and of time-second, if that is in range.
fn seconds_if(second: u32, minutes: u32) -> Option<u32>
    requires { minutes < 1440 }
    ensures value { result ≡ spec.seconds_if second minutes }
    ensures small { IfSome result (λ seconds. seconds < 86400) }
{
    if second < 60 {
        Some(minutes * 60 + second)
    } else {
        None
    }
}

/// Returns the seconds of a partial-time without its fraction, RFC 3339, section 5.6, if it is one.
fn time_of(bytes: &[u8]) -> Option<u32>
    requires { 19 ≤ length bytes.now }
    ensures value { result ≡ spec.time_of bytes.now }
    ensures small { IfSome result (λ seconds. seconds < 86400) }
{
    match minutes_at(bytes, 11) {
        Some(minutes) => seconds_if(two(bytes, 17), minutes),
        None => None,
    }
}

/// Returns the seconds from 0001-01-01 to a full-date and its time without a fraction.
fn seconds_of(bytes: &[u8]) -> Option<u64>
    requires { 19 ≤ length bytes.now }
    ensures value { result ≡ spec.seconds_of bytes.now }
    ensures small { IfSome result (λ seconds. seconds < 400000000000) }
{
    let Some(days) = day_of(bytes) else {
        return None;
    };
    match time_of(bytes) {
        Some(seconds) => Some(u64::from(days) * 86_400 + u64::from(seconds)),
        None => None,
    }
}

/// Returns the milliseconds of time-secfrac, RFC 3339, section 5.6, and how many bytes it has; both
/// are 0 where it is left out.
fn fraction_of(rest: &[u8]) -> (u32, usize)
    ensures value { result ≡ spec.fraction_of rest.now }
    ensures small { (result.0 < 100000) × (result.1 ≤ length rest.now) }
{
    if begins(b".000", rest) {
        (digit(rest, 1) * 100 + two(rest, 2), 4)
    } else if begins(b".00", rest) {
        (two(rest, 1) * 10, 3)
    } else if begins(b".0", rest) {
        (digit(rest, 1) * 100, 2)
    } else {
        (0, 0)
    }
}

/// Returns how many minutes local time is ahead of UTC by time-offset, RFC 3339, section 5.6.
fn offset_of(zone: &[u8]) -> Option<i32>
    ensures value { result ≡ spec.offset_of zone.now }
    ensures small { IfSome result (λ minutes. nat_abs minutes < 1440) }
{
    if is_like(b"Z", zone) {
        Some(0)
    } else if is_like(b"+00:00", zone) {
        match minutes_at(zone, 1) {
            Some(minutes) => Some(minutes as i32),
            None => None,
        }
    } else if is_like(b"-00:00", zone) {
        match minutes_at(zone, 1) {
            Some(minutes) => Some(-(minutes as i32)),
            None => None,
        }
    } else {
        None
    }
}

/// Returns the milliseconds since 1970 of a local time, counted from 0001-01-01, so many minutes
/// ahead of UTC.
fn since_1970(seconds: u64, ms: u32, offset: i32) -> i64
    requires local { (seconds < 400000000000) × (ms < 100000) }
    requires offset { nat_abs offset < 1440 }
    ensures { result ≡ spec.since_1970 seconds ms offset }
{
    let local = (seconds * 1_000 + u64::from(ms)) as i64;
    local - BEFORE_1970 - i64::from(offset) * 60_000
}

/// Returns the milliseconds since 1970 of a local time, counted from 0001-01-01, if `zone` is a
/// time-offset, RFC 3339, section 5.6.
fn with_offset(seconds: u64, ms: u32, zone: &[u8]) -> Option<i64>
    requires { (seconds < 400000000000) × (ms < 100000) }
    ensures { result ≡ spec.with_offset seconds ms zone.now }
{
    match offset_of(zone) {
        Some(offset) => Some(since_1970(seconds, ms, offset)),
        None => None,
    }
}

/// Returns the milliseconds since 1970 of these seconds and of what stands behind them.
fn with_rest(rest: &[u8], seconds: u64) -> Option<i64>
    requires { seconds < 400000000000 }
    ensures { result ≡ spec.with_rest rest.now seconds }
{
    let (ms, len) = fraction_of(rest);
    with_offset(seconds, ms, &rest[len..])
}

/// Returns the milliseconds since 1970 of a date-time, RFC 3339, section 5.6, if the text is one with
/// at most three digits of a fraction, capitals T and Z, no second 60, and a year from 1 on.
pub(crate) fn read_iso(text: &str) -> Option<i64>
    ensures { result ≡ iso_of text.now }
{
    let bytes = text.as_bytes();
    if !begins(LOCAL, bytes) {
        return None;
    }
    match seconds_of(bytes) {
        Some(seconds) => with_rest(&bytes[19..], seconds),
        None => None,
    }
}
