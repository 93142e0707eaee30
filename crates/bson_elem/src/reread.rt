//! Reading elements of bytes that were checked before. Every check is known to succeed, so nothing
//! here returns a fault, and no text is tested for UTF-8 again.

ghost use Rattle.std.specs.Prelude.{◌≡◌, ℕ, ◌+◌, ◌-◌, ◌<◌, ◌≤◌, ◌^◌, length, slice_range, IsOk};
ghost use Rattle.bson_elem.specs.Checks.{cstring_at, element_at, scope_at, string_at, text_at};
ghost use Rattle.bson_elem.specs.Checks.{value_at};
ghost use Rattle.bson_elem.specs.Kinds.{form_of};
ghost use Rattle.bson_elem.specs.Items.{element_shown, element_view, item_kind, item_value};
ghost use Rattle.bson_elem.specs.Items.{LendsFramed};

use crate::container::read_document;
use crate::elements::{Element, read_value};
use crate::items::Item;
use crate::kinds::Kind;
use crate::leaf::{read_binary, read_boolean};
use crate::number::{read_bytes, read_i32, read_i64, read_length};
use crate::text::{known_text, zero_of};

/// Reads a text of `n` bytes and the 00 after it.
#[inline(always)]
fn reread_text(n: usize, bytes: &[u8]) -> (&str, &[u8])
    requires inside { n < length bytes.now }
    requires checked { IsOk (text_at n bytes.now) }
    ensures read { text_at n bytes.now ≡ Ok (result.0.now, result.1.now) }
    ensures parts { length result.1.now + (n + 1) ≡ length bytes.now }
{
    (known_text(&bytes[..n]), &bytes[n + 1..])
}

/// Reads a string: a length, a text and a 00.
#[tactic(auto, unfolding(crate::specs::Checks::string_at))]
#[inline(always)]
fn reread_string(bytes: &[u8]) -> (&str, &[u8])
    requires { IsOk (string_at bytes.now) }
    ensures { string_at bytes.now ≡ Ok (result.0.now, result.1.now) }
{
    let (n, rest) = read_length(1, bytes).unwrap();
    reread_text(n - 1, rest)
}

/// Reads a cstring: a text without 00, and a 00.
#[tactic(auto, using(crate::proofs::NameLaws::names))]
#[inline(always)]
fn reread_cstring(bytes: &[u8]) -> (&str, &[u8])
    requires { IsOk (cstring_at bytes.now) }
    ensures read { cstring_at bytes.now ≡ Ok (result.0.now, result.1.now) }
    ensures parts { length result.0.now + 1 + length result.1.now ≡ length bytes.now }
{
    let n = zero_of(bytes).unwrap();
    (known_text(&bytes[..n]), &bytes[n + 1..])
}

/// Reads a code with its scope. The value begins at offset `from`, in the element at offset `at`.
#[tactic(auto, unfolding(crate::specs::Checks::scope_at))]
fn reread_scope(at: usize, from: usize, bytes: &[u8]) -> (Item<'_>, &[u8])
    requires room { from + length bytes.now < 2 ^ 64 }
    requires checked { IsOk (scope_at at from bytes.now) }
    ensures read { scope_at at from bytes.now
        ≡ Ok (item_value (from + length bytes.now - length result.1.now) result.0, result.1.now) }
    ensures kind { item_kind result.0 ≡ Kind.CodeWithScope }
    ensures lent { LendsFramed result.0 }
{
    let (_, rest) = read_length(14, bytes).unwrap();
    let (n, rest) = read_length(1, rest).unwrap();
    let (code, rest) = reread_text(n - 1, rest);
    let (scope, rest) = read_document(at, from + 8 + n, rest).unwrap();
    (Item::CodeWithScope { code, scope }, rest)
}

/// Reads a value of a rare kind, like `reread_value`.
#[tactic(auto, unfolding(crate::specs::Checks::value_at, crate::specs::Checks::leaf_at))]
#[inline(never)]
fn reread_rare(at: usize, from: usize, kind: Kind, bytes: &[u8]) -> (Item<'_>, &[u8])
    requires room { from + length bytes.now < 2 ^ 64 }
    requires checked { IsOk (value_at 1 at from (form_of kind) bytes.now) }
    ensures read { value_at 1 at from (form_of kind) bytes.now
        ≡ Ok (item_value (from + length bytes.now - length result.1.now) result.0, result.1.now) }
    ensures kind { item_kind result.0 ≡ kind }
    ensures lent { LendsFramed result.0 }
{
    match kind {
        Kind::Code => {
            let (value, rest) = reread_string(bytes);
            (Item::Code(value), rest)
        }
        Kind::Symbol => {
            let (value, rest) = reread_string(bytes);
            (Item::Symbol(value), rest)
        }
        Kind::Regex => {
            let (pattern, rest) = reread_cstring(bytes);
            let (options, rest) = reread_cstring(rest);
            (Item::Regex { pattern, options }, rest)
        }
        Kind::DbPointer => {
            let (namespace, rest) = reread_string(bytes);
            let (id, rest) = read_bytes::<12>(rest).unwrap();
            (Item::DbPointer { namespace, id }, rest)
        }
        Kind::CodeWithScope => reread_scope(at, from, bytes),
        _ => read_value(1, at, from, kind, bytes).unwrap(),
    }
}

/// Reads a value of this `kind`, and returns it and the bytes after it. The value begins at offset
/// `from`, in the element at offset `at`.
#[tactic(auto, unfolding(crate::specs::Checks::value_at, crate::specs::Checks::leaf_at))]
#[inline(always)]
fn reread_value(at: usize, from: usize, kind: Kind, bytes: &[u8]) -> (Item<'_>, &[u8])
    requires room { from + length bytes.now < 2 ^ 64 }
    requires checked { IsOk (value_at 1 at from (form_of kind) bytes.now) }
    ensures read { value_at 1 at from (form_of kind) bytes.now
        ≡ Ok (item_value (from + length bytes.now - length result.1.now) result.0, result.1.now) }
    ensures kind { item_kind result.0 ≡ kind }
    ensures lent { LendsFramed result.0 }
{
    // One jump tells the kinds apart, and each is read by the function for it alone, so that all of
    // this is small enough to be inlined into each caller.
    match kind {
        Kind::String => {
            let (value, rest) = reread_string(bytes);
            (Item::String(value), rest)
        }
        Kind::Double => {
            let (value, rest) = read_bytes::<8>(bytes).unwrap();
            (Item::Double(value), rest)
        }
        Kind::Document => {
            let (document, rest) = read_document(at, from, bytes).unwrap();
            (Item::Document(document), rest)
        }
        Kind::Array => {
            let (array, rest) = read_document(at, from, bytes).unwrap();
            (Item::Array(array), rest)
        }
        Kind::Binary => {
            let (subtype, bytes, rest) = read_binary(bytes).unwrap();
            (Item::Binary { subtype, bytes }, rest)
        }
        Kind::ObjectId => {
            let (value, rest) = read_bytes::<12>(bytes).unwrap();
            (Item::ObjectId(value), rest)
        }
        Kind::Boolean => {
            let (value, rest) = read_boolean(bytes).unwrap();
            (Item::Boolean(value), rest)
        }
        Kind::DateTime => {
            let (value, rest) = read_i64(bytes).unwrap();
            (Item::DateTime(value), rest)
        }
        Kind::Null => (Item::Null, bytes),
        Kind::Int32 => {
            let (value, rest) = read_i32(bytes).unwrap();
            (Item::Int32(value), rest)
        }
        Kind::Int64 => {
            let (value, rest) = read_i64(bytes).unwrap();
            (Item::Int64(value), rest)
        }
        _ => reread_rare(at, from, kind, bytes),
    }
}

/// Reads the element at the front of `room`, and returns its name, its value and the bytes after
/// it. `room` is what is left, from offset `at` on, of an outermost document.
#[tactic(auto, unfolding(crate::specs::Checks::element_at))]
#[inline(always)]
fn reread_in(room: &[u8], at: usize) -> (&str, Item<'_>, &[u8])
    requires room { at + length room.now < 2 ^ 64 }
    requires checked { IsOk (element_at 1 0 at room.now) }
    ensures read { element_at 1 0 at room.now
        ≡ Ok (element_shown (at + length room.now) result.0.now result.1 result.2.now) }
    ensures lent { LendsFramed result.1 }
{
    let [byte, rest @ ..] = room else {
        unreachable!();
    };
    let kind = Kind::from_byte(*byte).unwrap();
    let (name, rest) = reread_cstring(rest);
    let (value, rest) = reread_value(at, at + name.len() + 2, kind, rest);
    (name, value, rest)
}

/// Reads the element at offset `at` of `bytes`, where `read_element` is known to succeed, and
/// returns what it returns. The element is in an outermost document, whose last byte is at offset
/// `end`.
#[inline(always)]
pub fn reread_element(bytes: &[u8], at: usize, end: usize) -> Element<'_>
    requires inside { at < end }
    requires whole { end < length bytes.now }
    requires checked { IsOk (element_at 1 0 at (slice_range bytes.now at end)) }
    ensures read { element_at 1 0 at (slice_range bytes.now at end)
        ≡ Ok (element_view bytes.now end result) }
    ensures next { (at < result.next) × (result.next ≤ end) }
    ensures lent { LendsFramed result.value }
{
    let (name, value, rest) = reread_in(&bytes[at..end], at);
    Element {
        name,
        value,
        next: end - rest.len(),
    }
}
