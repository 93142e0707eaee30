//! Tells the innermost element that has a byte, and where it ends: a whole one where the next one
//! begins, and one at fault where its own lengths say, or with what holds it.

ghost use Rattle.std.specs.Prelude.{◌≡◌, ◌≤◌, ◌<◌, ◌+◌, ◌^◌, length, position};
ghost use Rattle.bson_elem.specs.{form_of, is_zero};
ghost use Rattle.byte_views.specs.Iters.{IsInside};
ghost use Rattle.byte_views.specs.Spans.{Holds, IsDocumentSpan, IsElementSpan, cstring_told};
ghost use Rattle.byte_views.specs.Spans.{element_told, fault_span, front_told, length_told};
ghost use Rattle.byte_views.specs.Spans.{message_span, part_told, value_told};
ghost use Rattle.std.specs.Prelude.{◌↔◌, IsTrue};

use crate::element::Element;
use crate::iter::{ElementIter, step, walk_enter};
use crate::view::View;
use bson_elem::{Kind, MAX_LEN, little_u32, read_document};
use memchr::memchr;

/// Returns how many bytes a value or a document has by the length at its front, and `more` that the
/// length doesn't count; or the four bytes of the length, if it is below `least` or too large.
fn length_told(bytes: &[u8], least: u32, more: usize) -> usize
    requires { more ≤ 16 }
    ensures { result ≡ length_told least more bytes.now }
{
    if bytes.len() < 4 {
        return 4;
    }
    let length = little_u32(bytes);
    if length < least || length as usize > MAX_LEN {
        return 4;
    }
    length as usize + more
}

/// Returns the offset of the first 00.
fn zero_of(bytes: &[u8]) -> Option<usize>
    ensures { result ≡ position is_zero bytes.now }
{
    memchr(0, bytes)
}

/// Returns how many bytes a cstring has with its 00; or how many there are, if none is 00.
fn cstring_told(bytes: &[u8]) -> usize
    ensures told { result ≡ cstring_told bytes.now }
    ensures within { result ≤ length bytes.now }
{
    match zero_of(bytes) {
        Some(n) => n + 1,
        None => bytes.len(),
    }
}

/// Returns how many bytes a value of this `kind` has, as far as its front tells. `rest` begins with
/// the value.
fn value_told(kind: Kind, rest: &[u8]) -> usize
    ensures told { result ≡ value_told (form_of kind) rest.now }
    ensures within { result ≤ length rest.now + 2 ^ 32 }
{
    match kind {
        Kind::Undefined | Kind::Null | Kind::MinKey | Kind::MaxKey => 0,
        Kind::Boolean => 1,
        Kind::Int32 => 4,
        Kind::Double | Kind::DateTime | Kind::Timestamp | Kind::Int64 => 8,
        Kind::ObjectId => 12,
        Kind::Decimal128 => 16,
        Kind::String | Kind::Code | Kind::Symbol => length_told(rest, 1, 4),
        Kind::DbPointer => length_told(rest, 1, 16),
        Kind::Binary => length_told(rest, 0, 5),
        Kind::Document | Kind::Array => length_told(rest, 5, 0),
        Kind::CodeWithScope => length_told(rest, 14, 0),
        Kind::Regex => {
            let pattern = cstring_told(rest);
            pattern + cstring_told(&rest[pattern..])
        }
    }
}

/// Returns how many bytes the element in front of `room` has, as far as its front tells.
fn element_told(room: &[u8]) -> usize
    ensures told { result ≡ element_told room.now }
    ensures within { result ≤ length room.now + 2 ^ 32 }
{
    match room {
        [] => 0,
        [byte, rest @ ..] => match Kind::from_byte(*byte) {
            Some(kind) => {
                let name = cstring_told(rest);
                1 + name + value_told(kind, &rest[name..])
            }
            None => 1,
        },
    }
}

/// Returns the view of the element at the iterator, which can't be read: as far as its front tells,
/// and at most to the end of what holds it.
fn fault_span(bytes: &[u8], iter: ElementIter) -> View
    requires { IsInside bytes.now iter }
    ensures { result ≡ fault_span bytes.now iter }
{
    let room = &bytes[iter.at..iter.end];
    View::new(iter.at, element_told(room).min(room.len()))
}

/// Returns true if the byte at `offset` is one of the elements that `inner` goes over, and they
/// stand behind the place of `outer`.
fn holds(outer: ElementIter, inner: ElementIter, offset: usize) -> bool
    ensures { IsTrue result ↔ Holds offset outer inner }
{
    outer.at < inner.at && inner.at <= offset && offset < inner.end
}

/// Returns the view of the innermost element that has the byte at `offset`, from the iterator on;
/// or of the first element on the way there that can't be read, whether it has the byte or not.
fn element_span(bytes: &[u8], offset: usize, iter: ElementIter) -> View
    ensures { IsElementSpan bytes.now offset iter result }
{
    let mut place = iter;
    let mut element = Element::none();
    loop {
        if !place.is_inside(bytes) {
            return View::NONE;
        }
        let next = step(bytes, &place, &mut element);
        if element.kind == 0 {
            return fault_span(bytes, place);
        }
        if next <= offset {
            place.at = next;
        } else {
            let inner = walk_enter(&place, &element);
            if !holds(place, inner, offset) {
                return View::new(place.at, next.saturating_sub(place.at));
            }
            place = inner;
        }
    }
}

/// Returns the view of the innermost element that has the byte at `offset` of the document in front
/// of `bytes`, or of the first element on the way there that can't be read, whether it has the byte
/// or not; or of the document, if there is neither, or if its length or its last byte is at fault.
/// An element that can't be read ends where its own lengths tell, or with what holds it, and so
/// does the document.
pub fn span_at(bytes: &[u8], offset: usize) -> View
    ensures { IsDocumentSpan bytes.now offset result }
{
    let whole = View::new(0, length_told(bytes, 5, 0).min(bytes.len()));
    match read_document(0, 0, bytes) {
        Ok((document, _)) => {
            let end = document.len() - 1;
            if offset < 4 || offset >= end {
                return whole;
            }
            let start = ElementIter {
                start: 0,
                at: 4,
                end,
                depth: 1,
            };
            element_span(bytes, offset, start)
        }
        Err(_) => whole,
    }
}

/// Returns how many bytes the section in front of `rest` has, as far as its front tells.
fn part_told(rest: &[u8]) -> usize
    ensures { result ≡ part_told rest.now }
{
    match rest {
        [] => 0,
        [kind, after @ ..] => {
            if *kind > 1 {
                return 1;
            }
            1 + length_told(after, 5, 0)
        }
    }
}

/// Returns the view of what stands at offset `at` of a message: below offset 20, of the four bytes
/// from there on, as a number of the header and the flags have; or else of the section whose kind
/// byte is there. One at fault ends where its own length tells, or with the message.
pub fn message_span(bytes: &[u8], at: usize) -> View
    ensures { result ≡ message_span bytes.now at }
{
    if at > bytes.len() {
        return View::NONE;
    }
    let rest = &bytes[at..];
    let told = if at < 20 { 4 } else { part_told(rest) };
    View::new(at, told.min(rest.len()))
}
