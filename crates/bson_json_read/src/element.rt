//! Appending elements to bytes (bsonspec.org, version 1.1: `element`). Each function appends all
//! bytes of its part and returns true, or returns false if memory is refused or a count is too
//! large. What the bytes are then isn't said, so that parts are appended one behind the other, and
//! what each returned is looked at last.

ghost use Rattle.std.specs.Prelude.{◌≡◌, ◌<◌, ◌≤◌, ◌+◌, ◌-◌, ◌^◌, ◌++◌, ◌∷◌, [], IsTrue, drop};
ghost use Rattle.std.specs.Prelude.{take, vec_len};
ghost use Rattle.bson_elem.specs.{binary, byte_of, cstring, document, little, string};
ghost use Rattle.bson_doc.specs.Values.{element_bytes};
ghost use Rattle.bson_json_read.specs.Leaf.{leaf_of};
ghost use Rattle.bson_json_read.specs.Table.{data_value, string_value};

use bson_elem::{Kind, MAX_LEN};
use byteorder::{ByteOrder, LittleEndian};

/// Appends one byte.
#[inline(always)]
fn put_byte(byte: u8, out: &mut Vec<u8>) -> bool
    ensures { IsTrue result → out.new.items ≡ out.old.items ++ byte ∷ [] }
{
    out.push(byte).is_ok()
}

/// Appends bytes as they are.
#[inline(always)]
fn put_bytes(bytes: &[u8], out: &mut Vec<u8>) -> bool
    ensures { IsTrue result → out.new.items ≡ out.old.items ++ bytes.now }
{
    out.extend_from_slice(bytes).is_ok()
}

/// Appends a text and the 00 that ends it.
#[inline(always)]
fn put_cstring(text: &str, out: &mut Vec<u8>) -> bool
    ensures { IsTrue result → out.new.items ≡ out.old.items ++ cstring text.now }
{
    put_bytes(text.as_bytes(), out) & put_byte(0, out)
}

/// Appends a count.
#[inline(always)]
fn put_count(count: usize, out: &mut Vec<u8>) -> bool
    ensures { IsTrue result → out.new.items ≡ out.old.items ++ little count }
{
    count <= MAX_LEN && put_bytes(&(count as u32).to_le_bytes(), out)
}

/// Appends what stands before a value: the byte of its kind, and the name of its pair.
#[inline(always)]
pub(crate) fn put_head(kind: Kind, name: &str, out: &mut Vec<u8>) -> bool
    ensures { IsTrue result → out.new.items ≡ out.old.items ++ (byte_of kind ∷ cstring name.now) }
{
    put_byte(kind.byte(), out) & put_cstring(name, out)
}

/// Appends the value of a text.
#[inline(always)]
fn put_text(text: &str, out: &mut Vec<u8>) -> bool
    ensures { IsTrue result → out.new.items ≡ out.old.items ++ string text.now }
{
    put_count(text.len() + 1, out) & put_cstring(text, out)
}

/// Appends a string under a name.
pub(crate) fn put_string(name: &str, text: &str, out: &mut Vec<u8>) -> bool
    ensures { IsTrue result →
        out.new.items ≡ out.old.items ++ element_bytes name.now (string_value text.now) }
{
    put_head(Kind::String, name, out) & put_text(text, out)
}

/// Appends the value of a binary that has no inner count. Of one that has it returns false.
fn put_data(subtype: u8, bytes: &[u8], out: &mut Vec<u8>) -> bool
    ensures { IsTrue result → out.new.items ≡ out.old.items ++ binary subtype bytes.now }
{
    subtype != 2 && put_count(bytes.len(), out) & put_byte(subtype, out) & put_bytes(bytes, out)
}

/// Appends a binary under a name. Of one that has an inner count it returns false.
pub(crate) fn put_binary(name: &str, subtype: u8, bytes: &[u8], out: &mut Vec<u8>) -> bool
    ensures { IsTrue result →
        out.new.items ≡ out.old.items ++ element_bytes name.now (data_value subtype bytes.now) }
{
    put_head(Kind::Binary, name, out) & put_data(subtype, bytes, out)
}

/// A value that takes no memory. It has a sixth of the size of a `Bson`, all of whose bytes are set
/// wherever one is made.
#[derive(Clone, Copy)]
pub(crate) enum Leaf {
    Null,
    Boolean(bool),
    Int32(i32),
    Int64(i64),
    DateTime(i64),
    Double([u8; 8]),
    ObjectId([u8; 12]),
    Decimal128([u8; 16]),
}

/// Appends the kind of a value, the name of its pair, and the value's bytes.
#[inline(always)]
fn put_fixed(kind: Kind, name: &str, bytes: &[u8], out: &mut Vec<u8>) -> bool
    ensures { IsTrue result →
        out.new.items ≡ out.old.items ++ (byte_of kind ∷ (cstring name.now ++ bytes.now)) }
{
    put_head(kind, name, out) & put_bytes(bytes, out)
}

/// Appends a value under a name.
pub(crate) fn put_leaf(name: &str, leaf: Leaf, out: &mut Vec<u8>) -> bool
    ensures { IsTrue result →
        out.new.items ≡ out.old.items ++ element_bytes name.now (leaf_of leaf) }
{
    match leaf {
        Leaf::Null => put_head(Kind::Null, name, out),
        Leaf::Boolean(truth) => put_fixed(Kind::Boolean, name, &[truth as u8], out),
        Leaf::Int32(n) => put_fixed(Kind::Int32, name, &n.to_le_bytes(), out),
        Leaf::Int64(n) => put_fixed(Kind::Int64, name, &n.to_le_bytes(), out),
        Leaf::DateTime(n) => put_fixed(Kind::DateTime, name, &n.to_le_bytes(), out),
        Leaf::Double(bytes) => put_fixed(Kind::Double, name, &bytes, out),
        Leaf::ObjectId(bytes) => put_fixed(Kind::ObjectId, name, &bytes, out),
        Leaf::Decimal128(bytes) => put_fixed(Kind::Decimal128, name, &bytes, out),
    }
}

/// Begins a document, with four bytes for its length.
#[inline(always)]
pub(crate) fn begin(out: &mut Vec<u8>) -> bool
    ensures { IsTrue result → out.new.items ≡ out.old.items ++ (0 ∷ 0 ∷ 0 ∷ 0 ∷ []) }
{
    put_bytes(&[0; 4], out)
}

/// Overwrites the four bytes at offset `start` with the count of all bytes from there on.
fn put_len(start: usize, out: &mut Vec<u8>) -> bool
    requires { start + 4 ≤ vec_len out.old }
    ensures bytes { IsTrue result → out.new.items
        ≡ take start out.old.items
        ++ (little (vec_len out.old - start) ++ drop (start + 4) out.old.items) }
    ensures short { IsTrue result → vec_len out.new < start + 2 ^ 31 }
{
    let len = out.len() - start;
    if len > MAX_LEN {
        return false;
    }
    LittleEndian::write_u32(&mut out[start..start + 4], len as u32);
    true
}

/// Ends the document that begins at offset `start`, and puts its length there. Returns false if no
/// document can begin there.
#[tactic(auto, using(crate::proofs::Elements::finished))]
pub(crate) fn finish(start: usize, out: &mut Vec<u8>) -> bool
    ensures bytes { IsTrue result → out.new.items
        ≡ take start out.old.items ++ document (drop (start + 4) out.old.items) }
    ensures short { IsTrue result → vec_len out.new < start + 2 ^ 31 }
{
    if out.len() < 4 || start > out.len() - 4 {
        return false;
    }
    put_byte(0, out) && put_len(start, out)
}
