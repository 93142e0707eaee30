//! Values as a caller gives them: numbers, a text and data.

ghost use Rattle.std.specs.Prelude.{◌≡◌, IsUtf8, false, true};
ghost use Rattle.bson_elem.specs.Spelling.{HasNoZero, IsName, IsText};

use crate::build::plain::is_plain;
use bson_elem::MAX_LEN;

/// The numbers of a value.
#[derive(Clone, Copy)]
#[repr(C)]
pub struct ValueNumbers {
    /// The type byte of its kind.
    pub kind: u32,
    /// The subtype of a binary.
    pub subtype: u32,
    /// An int32, an int64 or a datetime, as the 64 bits of a signed number; the 64 bits of a
    /// double; a boolean, which is false if this is 0; a timestamp, its seconds in the upper half
    /// and its increment in the lower.
    pub bits: u64,
}

/// Returns true if `bytes` are UTF-8.
// Not inlined, since most texts are plain and don't come here.
#[inline(never)]
fn is_utf8(bytes: &[u8]) -> bool
    ensures yes { result ≡ true → IsUtf8 bytes.now }
    ensures no { result ≡ false → IsUtf8 bytes.now → ⊥ }
{
    match simdutf8::basic::from_utf8(bytes) {
        Ok(_) => true,
        Err(_) => false,
    }
}

/// Returns true if `bytes` are the text of a string: UTF-8, of fewer than 2,147,483,647 bytes.
#[inline(always)]
pub(crate) fn is_text(bytes: &[u8]) -> bool
    ensures yes { result ≡ true → IsText bytes.now }
    ensures no { result ≡ false → IsText bytes.now → ⊥ }
{
    if bytes.len() >= MAX_LEN {
        return false;
    }
    is_plain(bytes) || is_utf8(bytes)
}

/// Returns true if none of the bytes is 00.
fn has_no_zero(bytes: &[u8]) -> bool
    ensures yes { result ≡ true → HasNoZero bytes.now }
    ensures no { result ≡ false → HasNoZero bytes.now → ⊥ }
{
    !bytes.contains(&0)
}

/// Returns true if `bytes` are a name, as `is_name` does. It looks at each byte twice.
// Not inlined, since most names are plain and don't come here.
#[inline(never)]
fn is_any_name(bytes: &[u8]) -> bool
    ensures yes { result ≡ true → IsName bytes.now }
    ensures no { result ≡ false → IsName bytes.now → ⊥ }
{
    if !has_no_zero(bytes) {
        return false;
    }
    is_utf8(bytes)
}

/// Returns true if `bytes` are a name, a pattern or options: UTF-8 with no 00.
#[inline(always)]
pub(crate) fn is_name(bytes: &[u8]) -> bool
    ensures yes { result ≡ true → IsName bytes.now }
    ensures no { result ≡ false → IsName bytes.now → ⊥ }
{
    is_plain(bytes) || is_any_name(bytes)
}
