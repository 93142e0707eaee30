//! Reads the values of common kinds in few steps, as a walk over documents wants it.
//!
//! What isn't read here is read by bson_elem, which tells each fault. A string's text isn't tested
//! for UTF-8 here.

ghost use Rattle.std.specs.Prelude.{◌≡◌, ◌+◌, ◌<◌, ◌≤◌, ◌^◌, ℕ, IfSome, List, None, Some};
ghost use Rattle.std.specs.Prelude.{length, take};
ghost use Rattle.std.specs.Int.{w32, w64, cast_signed, cast_unsigned};
ghost use Rattle.bson_elem.specs.{form_of, raw_form};
ghost use Rattle.byte_views.specs.Elements.{raw_bits};
ghost use Rattle.byte_views.specs.Quick.{HasSize, IsQuick, IsQuickly, IsValueAt};
ghost use Rattle.byte_views.specs.Views.{no_view};

use crate::element::Element;
use crate::view::View;
use bson_elem::{Kind, MAX_DEPTH, MAX_LEN, little_u32, read_document};

/// Returns the 64 bits of the signed number that 32 bits are.
#[inline(always)]
fn extended(bits: u32) -> u64
    ensures { result ≡ cast_unsigned w64 (cast_signed w32 bits) }
{
    i64::from(bits.cast_signed()).cast_unsigned()
}

/// Returns that no value is read.
// A call, so that the compiler keeps a jump to it, which is guessed: without one each step of a
// walk waits for what the step before it tested last.
#[cold]
#[inline(never)]
fn nothing() -> Option<(Element, usize)>
    ensures { result ≡ None }
{
    None
}

/// Reads a boolean into `bare`.
#[inline(always)]
fn boolean(rest: &[u8], bare: Element) -> Option<(Element, usize)>
    ensures { (depth at from : ℕ)
        → IfSome result (λ x. IsValueAt depth at from Kind.Boolean rest.now bare x.0 x.1) }
{
    if rest.len() < 1 || rest[0] > 1 {
        return nothing();
    }
    let bits = u64::from(rest[0]);
    Some((Element { bits, ..bare }, 1))
}

/// Reads a value of `size` bytes, which begins at offset `from`, into `bare`. Its kind is none of
/// those whose bytes are a number.
#[inline(always)]
fn raw(rest: &[u8], size: usize, from: usize, bare: Element) -> Option<(Element, usize)>
    requires { bare.bits ≡ 0 }
    ensures { (depth at : ℕ) (k : Kind) → form_of k ≡ raw_form size
        → ((bytes : List ℕ) → raw_bits k bytes ≡ 0)
        → IfSome result (λ x. IsValueAt depth at from k rest.now bare x.0 x.1) }
{
    if rest.len() < size {
        return None;
    }
    let bytes = View::new(from, size);
    Some((Element { bytes, ..bare }, size))
}

/// Reads an int32 into `bare`.
#[inline(always)]
fn int32(rest: &[u8], bare: Element) -> Option<(Element, usize)>
    ensures { (depth at from : ℕ)
        → IfSome result (λ x. IsValueAt depth at from Kind.Int32 rest.now bare x.0 x.1) }
{
    if rest.len() < 4 {
        return None;
    }
    let bits = extended(little_u32(rest));
    Some((Element { bits, ..bare }, 4))
}

/// Returns the first eight bytes, if there are as many.
#[inline(always)]
fn first_eight(rest: &[u8]) -> Option<[u8; 8]>
    ensures { IfSome result (λ b. (8 ≤ length rest.now) × (b ≡ take 8 rest.now)) }
{
    match rest.split_first_chunk::<8>() {
        Some((bytes, _)) => Some(*bytes),
        None => None,
    }
}

/// Reads an int64 or a datetime into `bare`.
#[inline(always)]
fn int64(rest: &[u8], bare: Element) -> Option<(Element, usize)>
    ensures { (depth at from : ℕ) → IfSome result (λ x.
        IsValueAt depth at from Kind.Int64 rest.now bare x.0 x.1
        × IsValueAt depth at from Kind.DateTime rest.now bare x.0 x.1) }
{
    match first_eight(rest) {
        Some(bytes) => {
            let bits = u64::from_le_bytes(bytes);
            Some((Element { bits, ..bare }, 8))
        }
        None => None,
    }
}

/// Reads a double, which begins at offset `from`, into `bare`.
#[inline(always)]
fn double(rest: &[u8], from: usize, bare: Element) -> Option<(Element, usize)>
    ensures { (depth at : ℕ)
        → IfSome result (λ x. IsValueAt depth at from Kind.Double rest.now bare x.0 x.1) }
{
    match first_eight(rest) {
        Some(eight) => {
            let bits = u64::from_le_bytes(eight);
            let bytes = View::new(from, 8);
            let element = Element {
                bits,
                bytes,
                ..bare
            };
            Some((element, 8))
        }
        None => None,
    }
}

/// Reads a string, which begins at offset `from`, into `bare`. Its text isn't tested for UTF-8.
#[inline(always)]
fn string(rest: &[u8], from: usize, bare: Element) -> Option<(Element, usize)>
    requires { from + length rest.now < 2 ^ 63 }
    ensures { (depth at : ℕ)
        → IfSome result (λ x. IsQuick depth at from Kind.String rest.now bare x.0 x.1) }
{
    if rest.len() < 5 {
        return None;
    }
    let size = little_u32(rest) as usize;
    if size < 1 || size > MAX_LEN || size > rest.len() - 4 || rest[size + 3] != 0 {
        return nothing();
    }
    let text = View::new(from + 4, size - 1);
    Some((Element { text, ..bare }, size + 4))
}

/// Reads a document, which begins at offset `from` of a container of this `depth`, into `bare`.
#[inline(always)]
fn document(
    rest: &[u8],
    depth: u32,
    at: usize,
    from: usize,
    bare: Element,
) -> Option<(Element, usize)>
    requires { bare.text ≡ no_view }
    ensures { IfSome result (λ x.
        IsValueAt depth at from Kind.Document rest.now bare x.0 x.1
        × IsValueAt depth at from Kind.Array rest.now bare x.0 x.1) }
{
    if depth >= MAX_DEPTH {
        return None;
    }
    match read_document(at, from, rest) {
        Ok((document, _)) => {
            let bytes = View::new(from, document.len());
            Some((Element { bytes, ..bare }, document.len()))
        }
        Err(_) => None,
    }
}

/// Reads a value whose type byte is `byte`, and which begins at offset `from`, into `bare`, if its
/// kind is a common one and nothing is wrong with it.
#[inline(always)]
pub(crate) fn value(
    byte: u8,
    rest: &[u8],
    depth: u32,
    at: usize,
    from: usize,
    bare: Element,
) -> Option<(Element, usize)>
    requires room { from + length rest.now < 2 ^ 63 }
    requires no_text { bare.text ≡ no_view }
    requires no_bits { bare.bits ≡ 0 }
    ensures { IfSome result (λ x. IsQuickly depth at from byte rest.now bare x.0 x.1) }
{
    match byte {
        0x01 => double(rest, from, bare),
        0x02 => string(rest, from, bare),
        0x03 => document(rest, depth, at, from, bare),
        0x04 => document(rest, depth, at, from, bare),
        0x07 => raw(rest, 12, from, bare),
        0x08 => boolean(rest, bare),
        0x09 => int64(rest, bare),
        0x0a => raw(rest, 0, from, bare),
        0x10 => int32(rest, bare),
        0x12 => int64(rest, bare),
        0x13 => raw(rest, 16, from, bare),
        _ => None,
    }
}

/// The number in `SIZES` of a byte that is no kind's, or one whose values differ in size.
const NO_SIZE: u8 = 0xff;

/// The size of all values of the kind with this type byte, if any bytes of that size are one.
const SIZES: [u8; 20] = [
    NO_SIZE, 8, NO_SIZE, NO_SIZE, NO_SIZE, NO_SIZE, // 01: a double
    0, 12, NO_SIZE, 8, 0, // 06: undefined, 07: an ObjectId, 09: a datetime, 0A: null
    NO_SIZE, NO_SIZE, NO_SIZE, NO_SIZE, NO_SIZE, //
    4, 8, 8, 16, // 10: an int32, 11: a timestamp, 12: an int64, 13: a decimal128
];

/// Returns the size of all values of the kind with this type byte, if any such bytes are one.
// From a table: where kinds alternate, a jump for each can hardly be guessed.
#[inline(always)]
fn fixed_size(byte: u8) -> Option<usize>
    ensures { IfSome result (λ n. HasSize byte n) }
{
    let index = usize::from(byte);
    if index >= SIZES.len() {
        return None;
    }
    let size = SIZES[index];
    if size == NO_SIZE {
        return None;
    }
    Some(usize::from(size))
}

/// Returns how many bytes the value takes that was read.
#[inline(always)]
fn size_of(read: Option<(Element, usize)>) -> Option<usize>
    ensures { IfSome result (λ n. (e : Element) × (read ≡ Some (e, n))) }
{
    match read {
        Some((_, size)) => Some(size),
        None => None,
    }
}

/// Returns how many bytes a value takes whose type byte is `byte`, and which begins at offset
/// `from`, if its kind is a common one and nothing is wrong with it. Nothing is put into `bare`.
#[inline(always)]
pub(crate) fn size(
    byte: u8,
    rest: &[u8],
    depth: u32,
    at: usize,
    from: usize,
    bare: Element,
) -> Option<usize>
    requires room { from + length rest.now < 2 ^ 63 }
    requires no_text { bare.text ≡ no_view }
    ensures { IfSome result (λ n. (e : Element) × IsQuickly depth at from byte rest.now bare e n) }
{
    if let Some(size) = fixed_size(byte) {
        if rest.len() < size {
            return size_of(nothing());
        }
        return Some(size);
    }
    match byte {
        0x02 => size_of(string(rest, from, bare)),
        0x03 => size_of(document(rest, depth, at, from, bare)),
        0x04 => size_of(document(rest, depth, at, from, bare)),
        0x08 => size_of(boolean(rest, bare)),
        _ => None,
    }
}
