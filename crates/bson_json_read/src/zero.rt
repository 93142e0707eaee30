//! Whether bytes have a 00. Names are short, so they are looked at in two parts, which may overlap, and
//! not byte by byte.

ghost use Rattle.std.specs.Prelude.{◌≡◌, ◌≤◌, IsTrue, false, length, map};
ghost use Rattle.std.specs.Simd.Lanes.{mask_l};
ghost use Rattle.bson_doc.specs.Unwritable as unwritable;
ghost use Rattle.bson_json_read.specs.Zeros.{is_zero};

use std::simd::prelude::*;

/// Returns a bit for each of four bytes, which tells whether that is 00.
#[inline(always)]
fn zeros_4(v: u8x4) -> u64
    ensures { result ≡ mask_l (map is_zero v) }
{
    v.simd_eq(u8x4::splat(0)).to_bitmask()
}

/// Returns a bit for each of eight bytes, which tells whether that is 00.
#[inline(always)]
fn zeros_8(v: u8x8) -> u64
    ensures { result ≡ mask_l (map is_zero v) }
{
    v.simd_eq(u8x8::splat(0)).to_bitmask()
}

/// Returns true if none of four to eight bytes is 00.
#[inline(always)]
fn is_free_4(bytes: &[u8]) -> bool
    requires least { 4 ≤ length bytes.now }
    requires most { length bytes.now ≤ 8 }
    ensures { IsTrue result → unwritable.has_zero bytes.now ≡ false }
{
    if zeros_4(u8x4::from_slice(bytes)) != 0 {
        return false;
    }
    zeros_4(u8x4::from_slice(&bytes[bytes.len() - 4..])) == 0
}

/// Returns true if none of eight to sixteen bytes is 00.
#[inline(always)]
fn is_free_8(bytes: &[u8]) -> bool
    requires least { 8 ≤ length bytes.now }
    requires most { length bytes.now ≤ 16 }
    ensures { IsTrue result → unwritable.has_zero bytes.now ≡ false }
{
    if zeros_8(u8x8::from_slice(bytes)) != 0 {
        return false;
    }
    zeros_8(u8x8::from_slice(&bytes[bytes.len() - 8..])) == 0
}

/// Returns true if one of the bytes is 00.
#[inline(always)]
pub(crate) fn has_zero(bytes: &[u8]) -> bool
    ensures { result ≡ unwritable.has_zero bytes.now }
{
    let len = bytes.len();
    if len >= 8 && len <= 16 && is_free_8(bytes) {
        return false;
    }
    if len >= 4 && len <= 8 && is_free_4(bytes) {
        return false;
    }
    bytes.iter().any(|b| *b == 0)
}
