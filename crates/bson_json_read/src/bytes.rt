//! Bytes, by their text in hexadecimal or base64.

ghost use Rattle.std.specs.Prelude.{◌≡◌, ◌≤◌, IfOk, length, option_map};
ghost use Rattle.bson_json_read.specs.Bytes.{base64_of, hex_of, subtype_of, uuid_of};
ghost use Rattle.bson_json_read.specs.Bytes.{without_hyphens};

use arrayvec::ArrayVec;
use base64::DecodeAllocError;
use base64::engine::general_purpose::STANDARD;
use hex::FromHex;
use std::alloc::{AllocError, Global};

/// Returns the 12 bytes of 24 digits.
pub(crate) fn read_object_id(text: &str) -> Option<[u8; 12]>
    ensures { result ≡ hex_of 12 text.now }
{
    <[u8; 12] as FromHex>::from_hex(text).ok()
}

/// Returns the byte of one digit or two.
pub(crate) fn read_subtype(text: &str) -> Option<u8>
    ensures { result ≡ subtype_of text.now }
{
    let read = match text.as_bytes() {
        [digit] => <[u8; 1] as FromHex>::from_hex([b'0', *digit]),
        _ => <[u8; 1] as FromHex>::from_hex(text),
    };
    let bytes = read.ok()?;
    Some(bytes[0])
}

/// Returns the bytes that are no hyphens, of at most 36.
fn without_hyphens(bytes: &[u8]) -> ArrayVec<u8, 36>
    requires { length bytes.now ≤ 36 }
    ensures { result.items ≡ without_hyphens bytes.now }
{
    let mut digits = ArrayVec::new();
    for b in bytes {
        if *b != b'-' {
            digits.push(*b);
        }
    }
    digits
}

/// Returns the 16 bytes of a UUID.
pub(crate) fn read_uuid(text: &str) -> Option<[u8; 16]>
    ensures { result ≡ uuid_of text.now }
{
    let bytes = text.as_bytes();
    if bytes.len() != 36 {
        return None;
    }
    if bytes[8] != b'-' || bytes[13] != b'-' || bytes[18] != b'-' || bytes[23] != b'-' {
        return None;
    }
    <[u8; 16] as FromHex>::from_hex(without_hyphens(bytes).as_slice()).ok()
}

/// Returns the bytes of a text in base64, or `None` if it is none.
///
/// # Errors
///
/// Returns `AllocError` if memory is refused.
pub(crate) fn read_base64(alloc: Global, text: &str) -> Result<Option<Vec<u8>>, AllocError>
    ensures { IfOk result (λ read. option_map (λ bytes. bytes.items) read ≡ base64_of text.now) }
{
    match STANDARD.decode(alloc, text.as_bytes()) {
        Ok(bytes) => Ok(Some(bytes)),
        Err(DecodeAllocError::OutOfMemory) => Err(AllocError),
        Err(DecodeAllocError::DecodeError(_)) => Ok(None),
    }
}
