//! Finds the bytes that quoted text escapes: a quote, a backslash, 00 to 1F and 7F.

ghost use Rattle.std.specs.Prelude.{◌≡◌, ◌+◌, ◌≤◌, MatchOption, Some, length, position};
ghost use Rattle.text_writer.specs.Escapes.{NeedsNoEscapeBefore, needs_escape};

use std::simd::prelude::*;

/// Returns true if the byte is escaped in quoted text.
#[inline(always)]
fn is_escaped(b: u8) -> bool
    ensures { result ≡ needs_escape b }
{
    matches!(b, b'"' | b'\\' | 0..=31 | 127)
}

/// Returns the offset of the first byte to escape among the 16 bytes at offset `at`, if there is
/// one.
#[inline(always)]
fn escaped_in_16(bytes: &[u8], at: usize) -> Option<usize>
    requires { (at + 16 ≤ length bytes.now) × NeedsNoEscapeBefore bytes.now at }
    ensures { MatchOption result (NeedsNoEscapeBefore bytes.now (at + 16)) (λ n.
        position needs_escape bytes.now ≡ Some n) }
{
    let lanes = u8x16::from_slice(&bytes[at..]);
    let mask = (lanes.simd_lt(u8x16::splat(0x20))
        | lanes.simd_eq(u8x16::splat(0x7f))
        | lanes.simd_eq(u8x16::splat(b'"'))
        | lanes.simd_eq(u8x16::splat(b'\\'))).to_bitmask();
    if mask == 0 {
        return None;
    }
    Some(at + mask.trailing_zeros() as usize)
}

/// Returns the offset of the first byte to escape among the 4 bytes at offset `at`, if there is
/// one.
#[inline(always)]
fn escaped_in_4(bytes: &[u8], at: usize) -> Option<usize>
    requires { (at + 4 ≤ length bytes.now) × NeedsNoEscapeBefore bytes.now at }
    ensures { MatchOption result (NeedsNoEscapeBefore bytes.now (at + 4)) (λ n.
        position needs_escape bytes.now ≡ Some n) }
{
    let lanes = u8x4::from_slice(&bytes[at..]);
    let mask = (lanes.simd_lt(u8x4::splat(0x20))
        | lanes.simd_eq(u8x4::splat(0x7f))
        | lanes.simd_eq(u8x4::splat(b'"'))
        | lanes.simd_eq(u8x4::splat(b'\\'))).to_bitmask();
    if mask == 0 {
        return None;
    }
    Some(at + mask.trailing_zeros() as usize)
}

/// Does what `first_escaped` does, for fewer than 4 bytes.
#[inline(always)]
fn escaped_one_by_one(bytes: &[u8]) -> Option<usize>
    ensures { result ≡ position needs_escape bytes.now }
{
    for at in 0..bytes.len() {
        if is_escaped(bytes[at]) {
            return Some(at);
        }
    }
    None
}

/// Does what `first_escaped` does, for fewer than 16 bytes.
#[inline(always)]
fn escaped_in_few(bytes: &[u8]) -> Option<usize>
    ensures { result ≡ position needs_escape bytes.now }
{
    if bytes.len() < 4 {
        return escaped_one_by_one(bytes);
    }
    let mut at = 0;
    while bytes.len() - at > 4 {
        if let Some(found) = escaped_in_4(bytes, at) {
            return Some(found);
        }
        at += 4;
    }
    // The last look may overlap the one before.
    escaped_in_4(bytes, bytes.len() - 4)
}

/// Returns the offset of the first byte to escape.
pub fn first_escaped(bytes: &[u8]) -> Option<usize>
    ensures { result ≡ position needs_escape bytes.now }
{
    if bytes.len() < 16 {
        return escaped_in_few(bytes);
    }
    let mut at = 0;
    while bytes.len() - at > 16 {
        if let Some(found) = escaped_in_16(bytes, at) {
            return Some(found);
        }
        at += 16;
    }
    // The last look may overlap the one before.
    escaped_in_16(bytes, bytes.len() - 16)
}
