//! Reading one element of a document (bsonspec.org, version 1.1: `element`).

ghost use Rattle.std.specs.Prelude.{◌≡◌, ℕ, ◌+◌, ◌-◌, ◌<◌, ◌≤◌, ◌^◌, length, max, slice_range};
ghost use Rattle.std.specs.Prelude.{IfOk, IfErr};
ghost use Rattle.bson_elem.specs.Checks.{element_at, fault, value_at};
ghost use Rattle.bson_elem.specs.Kinds.{form_of};
ghost use Rattle.bson_elem.specs.Items.{element_shown, element_view, item_kind, item_value};
ghost use Rattle.bson_elem.specs.Items.{LendsFramed};
ghost use Rattle.bson_elem.specs.Results.{Gives};

use crate::container::{MAX_DEPTH, fault_at, read_document, read_scope};
use crate::fault::{BsonCause, BsonFault};
use crate::items::Item;
use crate::kinds::Kind;
use crate::leaf::read_leaf;
use crate::text::read_cstring;

/// Reads a value of this `kind`, and returns it and the bytes after it. The value begins at offset
/// `from`, in the element at offset `at`, in a container of this `depth`.
#[tactic(auto, using(crate::proofs::ScopeLaws::parts, crate::proofs::ViewLaws::leaf_lends), unfolding(crate::specs::Checks::value_at))]
#[inline(always)]
pub(crate) fn read_value(
    depth: u32,
    at: usize,
    from: usize,
    kind: Kind,
    bytes: &[u8],
) -> Result<(Item<'_>, &[u8]), BsonFault>
    requires { from + length bytes.now < 2 ^ 64 }
    ensures read { Gives (λ x. (item_value (from + length bytes.now - length x.1.now) x.0, x.1.now))
        result (value_at depth at from (form_of kind) bytes.now) }
    ensures kind { IfOk result (λ x. item_kind x.0 ≡ kind) }
    ensures offset { IfErr result (λ f. f.at ≤ max at (from + length bytes.now)) }
    ensures lent { IfOk result (λ x. LendsFramed x.0) }
{
    match kind {
        Kind::Document => {
            if depth >= MAX_DEPTH {
                return Err(fault_at(at, BsonCause::Depth));
            }
            let (document, rest) = read_document(at, from, bytes)?;
            Ok((Item::Document(document), rest))
        }
        Kind::Array => {
            if depth >= MAX_DEPTH {
                return Err(fault_at(at, BsonCause::Depth));
            }
            let (array, rest) = read_document(at, from, bytes)?;
            Ok((Item::Array(array), rest))
        }
        Kind::CodeWithScope => {
            if depth >= MAX_DEPTH {
                return Err(fault_at(at, BsonCause::Depth));
            }
            read_scope(at, from, bytes)
        }
        _ => match read_leaf(kind, bytes) {
            Ok(read) => Ok(read),
            Err(cause) => Err(fault_at(at, cause)),
        },
    }
}

/// An element, borrowed from the bytes that it was read from.
#[derive(Clone, Copy, Debug, PartialEq, Eq)]
pub struct Element<'a> {
    pub name: &'a str,
    pub value: Item<'a>,
    /// The offset after the element.
    pub next: usize,
}

/// Reads the element at the front of `room`, and returns its name, its value and the bytes after
/// it. `room` is what is left, from offset `at` on, of a container of this `depth` that begins at
/// offset `start`.
#[tactic(auto, unfolding(crate::specs::Checks::element_at))]
#[inline(always)]
fn element_in(
    room: &[u8],
    start: usize,
    at: usize,
    depth: u32,
) -> Result<(&str, Item<'_>, &[u8]), BsonFault>
    requires { at + length room.now < 2 ^ 64 }
    ensures read { Gives (λ x. element_shown (at + length room.now) x.0.now x.1 x.2.now) result
        (element_at depth start at room.now) }
    ensures lent { IfOk result (λ x. LendsFramed x.1) }
    ensures offset { IfErr result (λ f. f.at ≤ max start (at + length room.now)) }
{
    match room {
        [] => Err(fault_at(start, BsonCause::End)),
        [byte, rest @ ..] => {
            let byte = *byte;
            if byte == 0 {
                return Err(fault_at(start, BsonCause::End));
            }
            let Some(kind) = Kind::from_byte(byte) else {
                return Err(fault_at(at, BsonCause::Kind));
            };
            let (name, rest) = match read_cstring(rest) {
                Ok(read) => read,
                Err(cause) => return Err(fault_at(at, cause)),
            };
            let (value, rest) = read_value(depth, at, at + name.len() + 2, kind, rest)?;
            Ok((name, value, rest))
        }
    }
}

/// Reads the element at offset `at` of `bytes`, in a container of this `depth` whose first byte is
/// at offset `start` and whose last byte is at offset `end`. If the value is a document, an array
/// or a code with scope, the inner document's length and last byte are checked, but none of its
/// elements.
///
/// # Errors
///
/// Returns the first check that fails, in the order of the fields: the type byte, the name, the
/// value. A type byte of 00 is the fault `End` of the container, at `start`; an inner document's
/// length and last byte are faults at its first byte; all others are faults at `at`.
#[inline(always)]
pub fn read_element(
    bytes: &[u8],
    start: usize,
    at: usize,
    end: usize,
    depth: u32,
) -> Result<Element<'_>, BsonFault>
    requires inside { at < end }
    requires whole { end < length bytes.now }
    ensures read { Gives (λ e. element_view bytes.now end e) result
        (element_at depth start at (slice_range bytes.now at end)) }
    ensures next { IfOk result (λ e. (at < e.next) × (e.next ≤ end)) }
    ensures lent { IfOk result (λ e. LendsFramed e.value) }
    ensures offset { IfErr result (λ f. f.at ≤ max start end) }
{
    let (name, value, rest) = element_in(&bytes[at..end], start, at, depth)?;
    Ok(Element {
        name,
        value,
        next: end - rest.len(),
    })
}
