//! Appending a pair to the bytes of a document.

ghost use Rattle.std.specs.Prelude.{◌≡◌, ◌≤◌, ◌+◌, ◌++◌, length, drop, vec_len, IfErr};
ghost use Rattle.std.specs.Prelude.{IfNone, OnErr, OnOk, OnSome};
ghost use Rattle.std.specs.Io.{StartsWith};
ghost use Rattle.bson_elem.specs.{Spells, Tree, cstring};
ghost use Rattle.bson_elem.specs.Spelling as spelling;
ghost use Rattle.bson_raw.specs.{IsSpelled};
ghost use Rattle.bson_doc.specs.Bson.{value_of};
ghost use Rattle.bson_doc.specs.Formed.{IsFormedValue};
ghost use Rattle.bson_doc.specs.Appended.{with_pair_appended};
ghost use Rattle.bson_doc.specs.Refusals.{IsLengthRefusal};
ghost use Rattle.bson_doc.specs.Unwritable.{IsUnwritable};
ghost use Rattle.bson_doc.specs.Values.{element_bytes, value_bytes};

use crate::bson_values::Bson;
use crate::bytes::{finish, write_cstring};
use crate::refusal::DocRefusal;
use crate::room::{refusal_of, room_after, room_after_pair};
use crate::to_raw::write_value;
use crate::unwritable::{check_cstring, check_value};
use bson_elem::MAX_LEN;

/// Appends the name and the value of the last pair behind its type byte, and ends the document.
fn write_last(name: &str, value: &Bson, out: &mut Vec<u8>) -> Option<()>
    requires begun { 4 ≤ vec_len out.old }
    ensures added { let pair = cstring name.now ++ value_bytes (value_of value.now) in
        OnSome result (out.new.items ≡ spelling.document (drop 4 out.old.items ++ pair)) }
    ensures within { let pair = cstring name.now ++ value_bytes (value_of value.now) in
        OnSome result (length (spelling.document (drop 4 out.old.items ++ pair)) ≤ MAX_LEN) }
    ensures formed { OnSome result (IsFormedValue (value_of value.now)) }
    ensures kept { IfNone result (StartsWith out.new.items out.old.items) }
{
    write_cstring(name, out)?;
    write_value(value, out)?;
    finish(0, MAX_LEN, out)
}

/// Returns why the pair wasn't appended to a document of `len` bytes: `TooLarge` if the document
/// would have more than `MAX_LEN` bytes, else `OutOfMemory`.
fn refusal_of_pair(name: &str, value: &Bson, len: usize) -> DocRefusal
    ensures { IsLengthRefusal MAX_LEN (len + length (element_bytes name.now (value_of value.now)))
        result }
{
    let Some(room) = room_after(len, MAX_LEN) else {
        return DocRefusal::TooLarge;
    };
    refusal_of(room_after_pair(name, false, 0, value, room))
}

/// Appends a pair to the document that `bytes` spell. If it is refused, `bytes` are unchanged.
pub(crate) fn append_pair(name: &str, value: &Bson, bytes: &mut Vec<u8>) -> Result<(), DocRefusal>
    requires { ∥ IsSpelled bytes.old.items ∥₁ }
    ensures spelled { ∥ IsSpelled bytes.new.items ∥₁ }
    ensures added { (t : Tree) → Spells t bytes.old.items
        → OnOk result
        (Spells (with_pair_appended name.now (value_of value.now) t) bytes.new.items) }
    ensures unchanged { OnErr result (bytes.new.items ≡ bytes.old.items) }
    ensures refused { (t : Tree) → Spells t bytes.old.items
        → IfErr result (λ e. IsUnwritable (with_pair_appended name.now (value_of value.now) t) e) }
{
    check_cstring(name)?;
    check_value(value, 1)?;
    let end = bytes.len() - 1;
    bytes[end] = value.kind().byte();
    match write_last(name, value, bytes) {
        Some(()) => Ok(()),
        None => {
            bytes.truncate(end + 1);
            bytes[end] = 0;
            Err(refusal_of_pair(name, value, end + 1))
        }
    }
}
