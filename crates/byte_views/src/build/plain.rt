//! Bytes from 01 to 7F, which are a name and a text without a test for UTF-8.

ghost use Rattle.std.specs.Prelude.{◌≡◌, ◌≤◌, ◌+◌, length, true};
ghost use Rattle.byte_views.specs.Plain.{ArePlain};

use std::simd::prelude::*;

/// Returns true if the 16 bytes at offset `at` are plain.
#[inline(always)]
fn are_plain_16(bytes: &[u8], at: usize) -> bool
    requires { at + 16 ≤ length bytes.now }
    ensures { result ≡ true → ArePlain bytes.now at (at + 16) }
{
    // A byte less one, with 0 becoming 255, is 127 or more just for 00 and for bytes outside ASCII.
    let lanes = u8x16::from_slice(&bytes[at..]) - u8x16::splat(1);
    lanes.simd_ge(u8x16::splat(0x7f)).to_bitmask() == 0
}

/// Returns true if the 8 bytes at offset `at` are plain.
#[inline(always)]
fn are_plain_8(bytes: &[u8], at: usize) -> bool
    requires { at + 8 ≤ length bytes.now }
    ensures { result ≡ true → ArePlain bytes.now at (at + 8) }
{
    let lanes = u8x8::from_slice(&bytes[at..]) - u8x8::splat(1);
    lanes.simd_ge(u8x8::splat(0x7f)).to_bitmask() == 0
}

/// Returns true if the 4 bytes at offset `at` are plain.
#[inline(always)]
fn are_plain_4(bytes: &[u8], at: usize) -> bool
    requires { at + 4 ≤ length bytes.now }
    ensures { result ≡ true → ArePlain bytes.now at (at + 4) }
{
    let lanes = u8x4::from_slice(&bytes[at..]) - u8x4::splat(1);
    lanes.simd_ge(u8x4::splat(0x7f)).to_bitmask() == 0
}

/// Does what `is_plain` does, for fewer than 4 bytes.
#[inline(always)]
fn are_plain_one_by_one(bytes: &[u8]) -> bool
    ensures { result ≡ true → ArePlain bytes.now 0 (length bytes.now) }
{
    for b in bytes {
        if *b == 0 || *b >= 0x80 {
            return false;
        }
    }
    true
}

/// Does what `is_plain` does, for 16 bytes or more.
#[inline(always)]
fn are_many_plain(bytes: &[u8]) -> bool
    requires { 16 ≤ length bytes.now }
    ensures { result ≡ true → ArePlain bytes.now 0 (length bytes.now) }
{
    let mut at = 0;
    while bytes.len() - at > 16 {
        if !are_plain_16(bytes, at) {
            return false;
        }
        at += 16;
    }
    // The last look may overlap the one before.
    are_plain_16(bytes, bytes.len() - 16)
}

/// Returns true if each byte is from 01 to 7F, as in most names and texts. Short ones are seen by
/// two looks, which may overlap.
#[inline(always)]
pub(crate) fn is_plain(bytes: &[u8]) -> bool
    ensures { result ≡ true → ArePlain bytes.now 0 (length bytes.now) }
{
    match bytes.len() {
        0..=3 => are_plain_one_by_one(bytes),
        4..=7 => are_plain_4(bytes, 0) && are_plain_4(bytes, bytes.len() - 4),
        8..=15 => are_plain_8(bytes, 0) && are_plain_8(bytes, bytes.len() - 8),
        _ => are_many_plain(bytes),
    }
}
