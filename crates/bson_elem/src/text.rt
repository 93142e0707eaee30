//! Reading texts (bsonspec.org, version 1.1: `string`, `cstring`). Each `read_` function reads the
//! front of `bytes`, and returns the text and the bytes after it.

ghost use Rattle.std.specs.Prelude.{◌≡◌, ◌+◌, ◌<◌, Some, length, take, IfOk, IfSome, MatchOption};
ghost use Rattle.std.specs.Prelude.{position, true, false};
ghost use Rattle.std.specs.Str.{is_utf8};
ghost use Rattle.bson_elem.specs.Checks.{text_at, string_at, is_zero, cstring_at};
ghost use Rattle.bson_elem.specs.Results.{Gives};

use crate::fault::BsonCause;
use crate::number::read_length;
use std::simd::prelude::*;

/// A text shorter than this is tested for ASCII first.
const SHORT_TEXT: usize = 64;

/// Returns `bytes`, which are known to be UTF-8, as a text.
#[inline(always)]
pub(crate) fn known_text(bytes: &[u8]) -> &str
    requires { is_utf8 bytes.now ≡ true }
    ensures { result.now ≡ bytes.now }
{
    // SAFETY: the bytes are UTF-8, by the `requires`.
    unsafe { std::str::from_utf8_unchecked(bytes) }
}

/// Returns `bytes` as a text, or `None` if they aren't UTF-8.
fn text_of(bytes: &[u8]) -> Option<&str>
    ensures { MatchOption result (is_utf8 bytes.now ≡ false)
        (λ s. (s.now ≡ bytes.now) × (is_utf8 bytes.now ≡ true)) }
{
    if bytes.len() < SHORT_TEXT && bytes.is_ascii() {
        return Some(known_text(bytes));
    }
    match simdutf8::basic::from_utf8(bytes) {
        Ok(text) => Some(text),
        Err(_) => None,
    }
}

/// Reads a text of `n` bytes and the 00 after it.
#[inline(always)]
pub(crate) fn read_text(n: usize, bytes: &[u8]) -> Result<(&str, &[u8]), BsonCause>
    requires { n < length bytes.now }
    ensures read { Gives (λ x. (x.0.now, x.1.now)) result (text_at n bytes.now) }
    ensures parts { IfOk result (λ x. length x.1.now + (n + 1) ≡ length bytes.now) }
{
    let Some(text) = text_of(&bytes[..n]) else {
        return Err(BsonCause::Text);
    };
    if bytes[n] != 0 {
        return Err(BsonCause::TextEnd);
    }
    Ok((text, &bytes[n + 1..]))
}

/// Reads a string: a length, a text and a 00.
///
/// # Errors
///
/// - `Truncated` if `bytes` has fewer than 4 bytes, or fewer after them than the length.
/// - `Length` if the length is below 1 or above `MAX_LEN`.
/// - `Text` if the text isn't UTF-8, and then `TextEnd` if the byte after it isn't 00.
#[tactic(auto, unfolding(crate::specs::Checks::string_at))]
#[inline(always)]
pub fn read_string(bytes: &[u8]) -> Result<(&str, &[u8]), BsonCause>
    ensures { Gives (λ x. (x.0.now, x.1.now)) result (string_at bytes.now) }
{
    let (n, rest) = read_length(1, bytes)?;
    if rest.len() < n {
        return Err(BsonCause::Truncated);
    }
    read_text(n - 1, rest)
}

/// Looks for the first 00 like `near_zero`, at the first 16 bytes at once.
#[inline(always)]
fn near_zero_wide(bytes: &[u8]) -> Option<usize>
    requires { 16 < length bytes.now }
    ensures { IfSome result
        (λ n. (position is_zero bytes.now ≡ Some n) × (is_utf8 (take n bytes.now) ≡ true)) }
{
    // A byte less one, with 0 becoming 255, is 127 or more just for 00 and for bytes outside ASCII.
    let stops = (u8x16::from_slice(bytes) - u8x16::splat(1))
        .simd_ge(u8x16::splat(0x7f))
        .to_bitmask();
    if stops == 0 {
        return None;
    }
    let n = stops.trailing_zeros() as usize;
    if bytes[n] == 0 { Some(n) } else { None }
}

/// Returns the offset of the first 00, if it is among the first 16 bytes and only ASCII is before
/// it.
#[inline(always)]
fn near_zero(bytes: &[u8]) -> Option<usize>
    ensures { IfSome result
        (λ n. (position is_zero bytes.now ≡ Some n) × (is_utf8 (take n bytes.now) ≡ true)) }
{
    if bytes.len() > 16 {
        return near_zero_wide(bytes);
    }
    for n in 0..bytes.len() {
        let byte = bytes[n];
        if byte == 0 {
            return Some(n);
        }
        if byte >= 0x80 {
            return None;
        }
    }
    None
}

/// Returns the offset of the first 00, which may be far off.
fn far_zero(bytes: &[u8]) -> Option<usize>
    ensures { result ≡ position is_zero bytes.now }
{
    memchr::memchr(0, bytes)
}

/// Returns the offset of the first 00.
#[inline(always)]
pub(crate) fn zero_of(bytes: &[u8]) -> Option<usize>
    ensures { result ≡ position is_zero bytes.now }
{
    match near_zero(bytes) {
        Some(n) => Some(n),
        None => far_zero(bytes),
    }
}

/// Reads a cstring like `read_cstring`, whose 00 may be far off.
#[tactic(auto, using(crate::proofs::NameLaws::names))]
#[inline(never)]
fn read_any_cstring(bytes: &[u8]) -> Result<(&str, &[u8]), BsonCause>
    ensures read { Gives (λ x. (x.0.now, x.1.now)) result (cstring_at bytes.now) }
    ensures parts { IfOk result (λ x. length x.0.now + 1 + length x.1.now ≡ length bytes.now) }
{
    let Some(n) = far_zero(bytes) else {
        return Err(BsonCause::Truncated);
    };
    match text_of(&bytes[..n]) {
        Some(text) => Ok((text, &bytes[n + 1..])),
        None => Err(BsonCause::Name),
    }
}

/// Reads a cstring: a text without 00, and a 00.
///
/// # Errors
///
/// - `Truncated` if no byte is 00.
/// - `Name` if the bytes before the first 00 aren't UTF-8.
#[tactic(auto, using(crate::proofs::NameLaws::names))]
#[inline(always)]
pub fn read_cstring(bytes: &[u8]) -> Result<(&str, &[u8]), BsonCause>
    ensures read { Gives (λ x. (x.0.now, x.1.now)) result (cstring_at bytes.now) }
    ensures parts { IfOk result (λ x. length x.0.now + 1 + length x.1.now ≡ length bytes.now) }
{
    match near_zero(bytes) {
        Some(n) => Ok((known_text(&bytes[..n]), &bytes[n + 1..])),
        None => read_any_cstring(bytes),
    }
}
