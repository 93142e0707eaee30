//! Puts the ids that cursors have on the server in the place of the recorded ones.

ghost use Rattle.std.specs.Prelude.{◌≡◌, [], IfOk, IfSome, IsSomeAnd, List, MatchOption, None};
ghost use Rattle.std.specs.Prelude.{◌-◌, OnOk, Option, drop, if◌then◌else◌, length, ℕ, ℤ};
ghost use Rattle.bson_elem.specs.{Spells, Tree};
ghost use Rattle.bson_raw.specs.{Shows, ShowsFound, TreeValue, document_bytes};
ghost use Rattle.replay.specs.Carried.{HasBody, IsCarried, IsCursorOf, begins_body, byte_at};
ghost use Rattle.replay.specs.Carried.{cursor_of, field_ids, held_ids, holds_ids, id_of, inner_ids};
ghost use Rattle.replay.specs.Carried.{is_id_array, noted_both, number_ids, pair_ids, with_id};
ghost use Rattle.replay.specs.Carried.{with_ids};

use crate::cursors::Cursors;
use bson_raw::{RawBson, RawDocument};
use std::alloc::{AllocError, Global};

/// The number of bytes before the body of an OP_MSG whose first section it is.
const BODY: usize = 21;

/// The number of bytes of an id.
const ID: usize = 8;

/// Writes an id as the 8 bytes at an offset.
fn set_id(id: i64, at: usize, out: &mut [u8])
    ensures { out.new ≡ with_id id at out.old }
{
    let after = at.saturating_add(ID);
    if after <= out.len() {
        out[at..after].copy_from_slice(&id.to_le_bytes());
    }
}

/// Writes the id on the server of an int64 that ends at this offset.
fn carry_number(cursors: &Cursors, value: RawBson<'_>, end: usize, out: &mut [u8])
    ensures { (v : TreeValue) → Shows value.entry v → out.new
        ≡ with_ids cursors.now.list.items (number_ids end v) out.old }
{
    match value {
        RawBson::Int64(id) => set_id(cursors.id_now(id), end.saturating_sub(ID), out),
        _ => {}
    }
}

/// Writes the id on the server of an int64 that ends at this offset, if it stands in an array or
/// its name is `id`.
fn carry_inner(
    cursors: &Cursors,
    in_array: bool,
    name: &str,
    value: RawBson<'_>,
    end: usize,
    out: &mut [u8],
)
    ensures { (v : TreeValue) → Shows value.entry v → out.new
        ≡ with_ids cursors.now.list.items (inner_ids in_array name.now end v) out.old }
{
    if in_array || name == "id" {
        carry_number(cursors, value, end, out);
    }
}

/// Writes the ids on the server of those in an array or a document that ends at this offset.
fn carry_pairs(cursors: &Cursors, in_array: bool, held: RawDocument<'_>, end: usize, out: &mut [u8])
    ensures { (t : Tree) → Spells t (document_bytes held.entry) → out.new
        ≡ with_ids cursors.now.list.items (pair_ids (inner_ids in_array) end t) out.old }
{
    let mut pairs = held.iter();
    while let Some((name, value)) = pairs.next() {
        let behind = end.saturating_sub(pairs.bytes_left());
        carry_inner(cursors, in_array, name, value, behind, out);
    }
}

/// Returns true if the array of this name holds ids: that of killCursors, or one of its reply.
fn is_id_array(name: &str) -> bool
    ensures { result ≡ is_id_array name.now }
{
    match name {
        "cursors" | "cursorsKilled" | "cursorsNotFound" | "cursorsAlive" | "cursorsUnknown" => true,
        _ => false,
    }
}

/// Returns true if the array of this name holds ids, or the document.
fn holds_ids(in_array: bool, name: &str) -> bool
    ensures { result ≡ holds_ids in_array name.now }
{
    if in_array {
        is_id_array(name)
    } else {
        name == "cursor"
    }
}

/// Writes the ids on the server of those in the array or the document of a field that ends at this
/// offset, if it holds some.
fn carry_document(
    cursors: &Cursors,
    in_array: bool,
    name: &str,
    held: RawDocument<'_>,
    end: usize,
    out: &mut [u8],
)
    ensures { (t : Tree) → Spells t (document_bytes held.entry) → out.new
        ≡ with_ids cursors.now.list.items (if holds_ids in_array name.now
        then pair_ids (inner_ids in_array) end t else []) out.old }
{
    if holds_ids(in_array, name) {
        carry_pairs(cursors, in_array, held, end, out);
    }
}

/// Writes the ids on the server of those that the value of a field holds.
fn carry_held(cursors: &Cursors, name: &str, value: RawBson<'_>, end: usize, out: &mut [u8])
    ensures { (v : TreeValue) → Shows value.entry v → out.new
        ≡ with_ids cursors.now.list.items (held_ids name.now end v) out.old }
{
    match value {
        RawBson::Document(document) => carry_document(cursors, false, name, document, end, out),
        RawBson::Array(array) => carry_document(cursors, true, name, array.as_document(), end, out),
        RawBson::CodeWithScope { scope, .. } => {
            carry_document(cursors, false, name, scope, end, out)
        }
        _ => {}
    }
}

/// Writes the ids on the server of those in a field of a body, whose value ends at this offset.
fn carry_field(cursors: &Cursors, name: &str, value: RawBson<'_>, end: usize, out: &mut [u8])
    ensures { (v : TreeValue) → Shows value.entry v → out.new
        ≡ with_ids cursors.now.list.items (field_ids name.now end v) out.old }
{
    if name == "getMore" {
        carry_number(cursors, value, end, out);
    } else {
        carry_held(cursors, name, value, end, out);
    }
}

/// Writes the ids on the server of those in a body that ends at this offset.
fn carry_fields(cursors: &Cursors, body: RawDocument<'_>, end: usize, out: &mut [u8])
    ensures { (t : Tree) → Spells t (document_bytes body.entry) → out.new
        ≡ with_ids cursors.now.list.items (pair_ids field_ids end t) out.old }
{
    let mut pairs = body.iter();
    while let Some((name, value)) = pairs.next() {
        let behind = end.saturating_sub(pairs.bytes_left());
        carry_field(cursors, name, value, behind, out);
    }
}

/// Returns the byte at an index, or 255 behind the last one.
fn byte_at(bytes: &[u8], i: usize) -> u8
    ensures { result ≡ byte_at bytes.now i }
{
    bytes.get(i).copied().unwrap_or(255)
}

/// Returns true if the bytes begin as an OP_MSG without a checksum whose first section is the body.
fn begins_body(bytes: &[u8]) -> bool
    ensures { result ≡ begins_body bytes.now }
{
    byte_at(bytes, 12) == 221
        && byte_at(bytes, 13) == 7
        && byte_at(bytes, 14) == 0
        && byte_at(bytes, 15) == 0
        && byte_at(bytes, 16) & 1 == 0
        && byte_at(bytes, 20) == 0
}

/// Returns the bytes from the place of the body on.
fn tail_of(bytes: &[u8]) -> &[u8]
    ensures { result.now ≡ drop 21 bytes.now }
{
    bytes.get(BODY..).unwrap_or(&[])
}

/// Returns the body of such a message, and what is behind it.
fn body_of(bytes: &[u8]) -> Option<(RawDocument<'_>, &[u8])>
    ensures some { (t : Tree) (rest : List ℕ) → HasBody bytes.now t rest → IsSomeAnd result
        (λ x. Spells t (document_bytes x.0) × (x.1.now ≡ rest)) }
    ensures only { IfSome result (λ x. (t : Tree) × HasBody bytes.now t x.1.now) }
{
    if !begins_body(bytes) {
        return None;
    }
    match RawDocument::front(tail_of(bytes)) {
        Ok((body, rest)) => Some((body, rest)),
        Err(_) => None,
    }
}

/// Returns the offset at which the last bytes begin that are as many as these.
fn end_before(bytes: &[u8], rest: &[u8]) -> usize
    ensures { result ≡ length bytes.now - length rest.now }
{
    bytes.len().saturating_sub(rest.len())
}

/// Writes the ids on the server of those in the body of a message, in a copy of its bytes.
fn carry(cursors: &Cursors, bytes: &[u8], out: &mut [u8])
    ensures { out.old ≡ bytes.now → IsCarried cursors.now.list.items bytes.now out.new }
{
    match body_of(bytes) {
        Some((body, rest)) => carry_fields(cursors, body, end_before(bytes, rest), out),
        None => {}
    }
}

/// Returns a message with the ids on the server of the cursors in its body: a message without a
/// checksum whose first section is the body. Any other bytes stay as they are.
///
/// # Errors
///
/// Returns `AllocError` if memory runs out.
pub fn carried(alloc: Global, cursors: &Cursors, bytes: &[u8]) -> Result<Vec<u8>, AllocError>
    ensures { IfOk result (λ out. IsCarried cursors.now.list.items bytes.now out.items) }
{
    let mut out = Vec::from_slice(alloc, bytes)?;
    carry(cursors, bytes, &mut out);
    Ok(out)
}

/// Returns the id, if the value is an int64.
fn id_of(value: Option<RawBson<'_>>) -> Option<i64>
    ensures { (found : Option TreeValue)
        → MatchOption value.entry (found ≡ None) (λ v. ShowsFound v found)
        → result ≡ id_of found }
{
    match value {
        Some(RawBson::Int64(id)) => Some(id),
        _ => None,
    }
}

/// Returns the id of the cursor in a body, if there is one.
fn cursor_in(body: RawDocument<'_>) -> Option<i64>
    ensures { (t : Tree) → Spells t (document_bytes body.entry) → result ≡ cursor_of t }
{
    match body.get("cursor") {
        Some(RawBson::Document(cursor)) => id_of(cursor.get("id")),
        _ => None,
    }
}

/// Returns the id of the cursor in the body of a message, if there is one.
fn cursor_of(bytes: &[u8]) -> Option<i64>
    ensures { IsCursorOf bytes.now result }
{
    match body_of(bytes) {
        Some((body, _)) => cursor_in(body),
        None => None,
    }
}

/// Notes that a cursor of the record has an id on the server, by the ids in an answer of the record
/// and in one of the server that was taken for it; unless one of them is 0 or isn't there.
fn note_both(
    cursors: &mut Cursors,
    recorded: Option<i64>,
    now: Option<i64>,
) -> Result<(), AllocError>
    ensures { OnOk result
        (cursors.new.list.items ≡ noted_both recorded now cursors.old.list.items) }
{
    match (recorded, now) {
        (Some(recorded), Some(now)) if recorded != 0 && now != 0 => cursors.note(recorded, now),
        _ => Ok(()),
    }
}

/// Notes that the cursor in an answer of the record has the id on the server of the one in the
/// answer that was taken for it.
///
/// # Errors
///
/// Returns `AllocError` if memory runs out.
pub fn note_answer(
    cursors: &mut Cursors,
    recorded: &[u8],
    received: &[u8],
) -> Result<(), AllocError>
    ensures { (x y : Option ℤ) × IsCursorOf recorded.now x × IsCursorOf received.now y
        × OnOk result (cursors.new.list.items ≡ noted_both x y cursors.old.list.items) }
{
    note_both(cursors, cursor_of(recorded), cursor_of(received))
}
