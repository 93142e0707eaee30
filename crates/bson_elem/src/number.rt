//! Reading numbers, the lowest byte first, and a fixed number of bytes (bsonspec.org, version 1.1:
//! `int32`, `int64`). Each function reads the front of `bytes`, and returns what it read and the
//! bytes after it.

ghost use Rattle.std.specs.Prelude.{◌≡◌, ◌+◌, ◌≤◌, length, take, IfOk};
ghost use Rattle.std.specs.Int.{w32, w64, from_le_bytes};
ghost use Rattle.bson_elem.specs.Checks.{bytes_at, leaf_at, length_at, little_at};
ghost use Rattle.bson_elem.specs.Kinds.{int32_form, int64_form};
ghost use Rattle.bson_elem.specs.Trees.{number_value};
ghost use Rattle.bson_elem.specs.Results.{Gives};

use crate::fault::BsonCause;
use byteorder::{ByteOrder, LittleEndian};

/// The greatest length of a document, a text or data: the greatest signed number of four bytes.
pub const MAX_LEN: usize = 2_147_483_647;

/// Returns the first four bytes as a number.
#[inline(always)]
pub fn little_u32(bytes: &[u8]) -> u32
    requires { 4 ≤ length bytes.now }
    ensures { result ≡ from_le_bytes w32 (take 4 bytes.now) }
{
    LittleEndian::read_u32(bytes)
}

/// Reads an unsigned number of four bytes.
#[inline(always)]
pub(crate) fn read_u32(bytes: &[u8]) -> Result<(u32, &[u8]), BsonCause>
    ensures { Gives (λ x. (x.0, x.1.now)) result (little_at bytes.now) }
{
    if bytes.len() < 4 {
        return Err(BsonCause::Truncated);
    }
    Ok((little_u32(bytes), &bytes[4..]))
}

/// Reads a length: a signed number of four bytes that is at least `least` and not negative.
#[inline(always)]
pub(crate) fn read_length(least: usize, bytes: &[u8]) -> Result<(usize, &[u8]), BsonCause>
    ensures read { Gives (λ x. (x.0, x.1.now)) result (length_at least bytes.now) }
    ensures parts { IfOk result (λ x. (least ≤ x.0) × (length x.1.now + 4 ≡ length bytes.now)) }
{
    let (n, rest) = read_u32(bytes)?;
    let n = n as usize;
    if n < least || n > MAX_LEN {
        return Err(BsonCause::Length);
    }
    Ok((n, rest))
}

/// Reads a signed number of four bytes.
#[tactic(auto, unfolding(crate::specs::Checks::leaf_at))]
#[inline(always)]
pub(crate) fn read_i32(bytes: &[u8]) -> Result<(i32, &[u8]), BsonCause>
    ensures { Gives (λ x. (number_value x.0, x.1.now)) result (leaf_at int32_form bytes.now) }
{
    if bytes.len() < 4 {
        return Err(BsonCause::Truncated);
    }
    Ok((LittleEndian::read_i32(bytes), &bytes[4..]))
}

/// Reads a signed number of eight bytes.
#[tactic(auto, unfolding(crate::specs::Checks::leaf_at))]
#[inline(always)]
pub(crate) fn read_i64(bytes: &[u8]) -> Result<(i64, &[u8]), BsonCause>
    ensures { Gives (λ x. (number_value x.0, x.1.now)) result (leaf_at int64_form bytes.now) }
{
    if bytes.len() < 8 {
        return Err(BsonCause::Truncated);
    }
    Ok((LittleEndian::read_i64(bytes), &bytes[8..]))
}

/// Reads `N` bytes.
#[inline(always)]
pub(crate) fn read_bytes<const N: usize>(bytes: &[u8]) -> Result<([u8; N], &[u8]), BsonCause>
    ensures { Gives (λ x. (x.0, x.1.now)) result (bytes_at N bytes.now) }
{
    match bytes.split_first_chunk::<N>() {
        Some((front, rest)) => Ok((*front, rest)),
        None => Err(BsonCause::Truncated),
    }
}
