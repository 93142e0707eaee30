//! Appending the parts of a document to bytes (bsonspec.org, version 1.1). Each function appends
//! all bytes of its part, or returns `None` if memory is refused or the part is too long for the
//! count in front of it: `room` tells which. The bytes from before are unchanged then, and some
//! bytes of the part may stand behind them.

ghost use Rattle.std.specs.Prelude.{◌≡◌, ◌≤◌, ◌<◌, ◌+◌, ◌-◌, ◌++◌, ◌∷◌, [], length, take, drop};
ghost use Rattle.std.specs.Prelude.{vec_len, IfNone, OnSome};
ghost use Rattle.std.specs.Io.{StartsWith};
ghost use Rattle.bson_elem.specs.{binary, cstring, document, int32_form, int64_form, leaf_bytes};
ghost use Rattle.bson_elem.specs.{little, number_value, string, timestamp_form, timestamp_value};

use bson_elem::MAX_LEN;
use byteorder::{ByteOrder, LittleEndian};

/// Appends bytes as they are.
pub(crate) fn write_bytes(bytes: &[u8], out: &mut Vec<u8>) -> Option<()>
    ensures added { OnSome result (out.new.items ≡ out.old.items ++ bytes.now) }
    ensures kept { IfNone result (StartsWith out.new.items out.old.items) }
{
    out.extend_from_slice(bytes).ok()
}

/// Appends a text and the 00 that ends it. The text should have no 00 in it.
pub(crate) fn write_cstring(text: &str, out: &mut Vec<u8>) -> Option<()>
    ensures added { OnSome result (out.new.items ≡ out.old.items ++ cstring text.now) }
    ensures kept { IfNone result (StartsWith out.new.items out.old.items) }
{
    out.extend_from_slice(text.as_bytes()).ok()?;
    out.push(0).ok()
}

/// Appends an unsigned number of four bytes.
pub(crate) fn write_u32(n: u32, out: &mut Vec<u8>) -> Option<()>
    ensures added { OnSome result (out.new.items ≡ out.old.items ++ little n) }
    ensures kept { IfNone result (StartsWith out.new.items out.old.items) }
{
    let mut bytes = [0; 4];
    LittleEndian::write_u32(&mut bytes, n);
    out.extend_from_slice(&bytes).ok()
}

/// Appends an int32.
pub(crate) fn write_int32(n: i32, out: &mut Vec<u8>) -> Option<()>
    ensures added { OnSome result
        (out.new.items ≡ out.old.items ++ leaf_bytes int32_form (number_value n)) }
    ensures kept { IfNone result (StartsWith out.new.items out.old.items) }
{
    let mut bytes = [0; 4];
    LittleEndian::write_i32(&mut bytes, n);
    out.extend_from_slice(&bytes).ok()
}

/// Appends an int64.
pub(crate) fn write_int64(n: i64, out: &mut Vec<u8>) -> Option<()>
    ensures added { OnSome result
        (out.new.items ≡ out.old.items ++ leaf_bytes int64_form (number_value n)) }
    ensures kept { IfNone result (StartsWith out.new.items out.old.items) }
{
    let mut bytes = [0; 8];
    LittleEndian::write_i64(&mut bytes, n);
    out.extend_from_slice(&bytes).ok()
}

/// Appends a timestamp.
pub(crate) fn write_timestamp(increment: u32, seconds: u32, out: &mut Vec<u8>) -> Option<()>
    ensures added { OnSome result
        (out.new.items
        ≡ out.old.items ++ leaf_bytes timestamp_form (timestamp_value increment seconds)) }
    ensures kept { IfNone result (StartsWith out.new.items out.old.items) }
{
    write_u32(increment, out)?;
    write_u32(seconds, out)
}

/// Appends a count.
fn write_count(count: usize, out: &mut Vec<u8>) -> Option<()>
    ensures added { OnSome result (out.new.items ≡ out.old.items ++ little count) }
    ensures kept { IfNone result (StartsWith out.new.items out.old.items) }
{
    if count > MAX_LEN {
        return None;
    }
    write_u32(count as u32, out)
}

/// Appends a string: the count of the text and the 00, the text, and that 00.
pub(crate) fn write_string(text: &str, out: &mut Vec<u8>) -> Option<()>
    ensures added { OnSome result (out.new.items ≡ out.old.items ++ string text.now) }
    ensures kept { IfNone result (StartsWith out.new.items out.old.items) }
{
    write_count(text.len() + 1, out)?;
    write_cstring(text, out)
}

/// Appends the count of bytes, and these.
fn write_counted(bytes: &[u8], out: &mut Vec<u8>) -> Option<()>
    ensures added { OnSome result
        (out.new.items ≡ out.old.items ++ (little (length bytes.now) ++ bytes.now)) }
    ensures kept { IfNone result (StartsWith out.new.items out.old.items) }
{
    write_count(bytes.len(), out)?;
    write_bytes(bytes, out)
}

/// Appends what stands before the data of a binary: their count and the subtype.
fn write_binary_head(count: usize, subtype: u8, out: &mut Vec<u8>) -> Option<()>
    ensures added { OnSome result
        (out.new.items ≡ out.old.items ++ (little count ++ subtype ∷ [])) }
    ensures kept { IfNone result (StartsWith out.new.items out.old.items) }
{
    write_count(count, out)?;
    out.push(subtype).ok()
}

/// Appends a binary: the count of the data, the subtype and the data, which in subtype 02 begin
/// with their own count.
pub(crate) fn write_binary(subtype: u8, bytes: &[u8], out: &mut Vec<u8>) -> Option<()>
    ensures added { OnSome result (out.new.items ≡ out.old.items ++ binary subtype bytes.now) }
    ensures kept { IfNone result (StartsWith out.new.items out.old.items) }
{
    if subtype == 2 {
        write_binary_head(bytes.len() + 4, 2, out)?;
        return write_counted(bytes, out);
    }
    write_binary_head(bytes.len(), subtype, out)?;
    write_bytes(bytes, out)
}

/// Appends a regular expression: its pattern and its options, neither with a 00 in it.
pub(crate) fn write_regex(pattern: &str, options: &str, out: &mut Vec<u8>) -> Option<()>
    ensures added { OnSome result
        (out.new.items ≡ out.old.items ++ (cstring pattern.now ++ cstring options.now)) }
    ensures kept { IfNone result (StartsWith out.new.items out.old.items) }
{
    write_cstring(pattern, out)?;
    write_cstring(options, out)
}

/// Appends a pointer: the namespace and the ObjectId.
pub(crate) fn write_dbpointer(text: &str, id: &[u8], out: &mut Vec<u8>) -> Option<()>
    ensures added { OnSome result (out.new.items ≡ out.old.items ++ (string text.now ++ id.now)) }
    ensures kept { IfNone result (StartsWith out.new.items out.old.items) }
{
    write_string(text, out)?;
    write_bytes(id, out)
}

/// Begins a document, with four bytes for its length, which isn't known yet.
pub(crate) fn begin(out: &mut Vec<u8>) -> Option<()>
    ensures added { OnSome result (out.new.items ≡ out.old.items ++ 0 ∷ 0 ∷ 0 ∷ 0 ∷ []) }
    ensures kept { IfNone result (StartsWith out.new.items out.old.items) }
{
    out.extend_from_slice(&[0; 4]).ok()
}

/// Overwrites the four bytes at offset `start` with the count of all bytes from there on. Returns
/// `None` if that is more than `limit`.
pub(crate) fn put_len(start: usize, limit: usize, out: &mut Vec<u8>) -> Option<()>
    requires begun { start + 4 ≤ vec_len out.old }
    requires counted { limit ≤ MAX_LEN }
    ensures added { OnSome result
        (out.new.items
        ≡ take start out.old.items
        ++ (little (vec_len out.old - start) ++ drop (start + 4) out.old.items)) }
    ensures within { OnSome result (vec_len out.old ≤ start + limit) }
    ensures long { IfNone result (limit < vec_len out.old - start) }
    ensures kept { IfNone result (StartsWith out.new.items out.old.items) }
{
    let len = out.len() - start;
    if len > limit {
        return None;
    }
    LittleEndian::write_u32(&mut out[start..start + 4], len as u32);
    Some(())
}

/// Ends the document that begins at offset `start`, and puts its length there. Returns `None` if
/// that is more than `limit`.
pub(crate) fn finish(start: usize, limit: usize, out: &mut Vec<u8>) -> Option<()>
    requires begun { start + 4 ≤ vec_len out.old }
    requires counted { limit ≤ MAX_LEN }
    ensures added { OnSome result
        (out.new.items ≡ take start out.old.items ++ document (drop (start + 4) out.old.items)) }
    ensures within { OnSome result (length (document (drop (start + 4) out.old.items)) ≤ limit) }
    ensures kept { IfNone result (StartsWith out.new.items out.old.items) }
{
    out.push(0).ok()?;
    put_len(start, limit, out)
}
