//! Reading values that hold no document.

ghost use Rattle.std.specs.Prelude.{◌≡◌, ℕ, List, IfOk};
ghost use Rattle.bson_elem.specs.Kinds.{form_of, boolean_form, binary_form, pointer_form};
ghost use Rattle.bson_elem.specs.Kinds.{regex_form};
ghost use Rattle.bson_elem.specs.Checks.{binary_of, leaf_at};
ghost use Rattle.bson_elem.specs.Trees.{binary_value, boolean_value, pointer_value, regex_value};
ghost use Rattle.bson_elem.specs.Items.{item_kind, item_value, as_value};
ghost use Rattle.bson_elem.specs.Results.{Gives};

use crate::fault::BsonCause;
use crate::items::Item;
use crate::kinds::Kind;
use crate::number::{little_u32, read_bytes, read_i32, read_i64, read_length, read_u32};
use crate::text::{read_cstring, read_string};

/// Reads a boolean, and returns it and the bytes after it.
#[tactic(auto, unfolding(crate::specs::Checks::leaf_at, crate::specs::Checks::boolean_at))]
#[inline(always)]
pub(crate) fn read_boolean(bytes: &[u8]) -> Result<(bool, &[u8]), BsonCause>
    ensures { Gives (λ x. (boolean_value x.0, x.1.now)) result (leaf_at boolean_form bytes.now) }
{
    match bytes {
        [] => Err(BsonCause::Truncated),
        [0, rest @ ..] => Ok((false, rest)),
        [1, rest @ ..] => Ok((true, rest)),
        [_, ..] => Err(BsonCause::Boolean),
    }
}

/// Returns the data of a binary of this `subtype`: `bytes`, or for subtype 02 the bytes after their
/// inner count.
#[tactic(auto, unfolding(crate::specs::Checks::binary_of))]
#[inline(always)]
fn binary_data(subtype: u8, bytes: &[u8]) -> Result<&[u8], BsonCause>
    ensures { (rest : List ℕ)
        → Gives (λ x. (binary_value subtype x.now, rest)) result
        (binary_of subtype bytes.now rest) }
{
    if subtype != 2 {
        return Ok(bytes);
    }
    if bytes.len() < 4 {
        return Err(BsonCause::OldBinary);
    }
    let count = little_u32(bytes);
    if count as usize != bytes.len() - 4 {
        return Err(BsonCause::OldBinary);
    }
    Ok(&bytes[4..])
}

/// Reads a binary, and returns its subtype, its data and the bytes after it.
#[tactic(auto, unfolding(crate::specs::Checks::leaf_at))]
#[inline(always)]
pub(crate) fn read_binary(bytes: &[u8]) -> Result<(u8, &[u8], &[u8]), BsonCause>
    ensures { Gives (λ x. (binary_value x.0 x.1.now, x.2.now)) result
        (leaf_at binary_form bytes.now) }
{
    let (n, rest) = read_length(0, bytes)?;
    if rest.len() < n + 1 {
        return Err(BsonCause::Truncated);
    }
    let subtype = rest[0];
    match binary_data(subtype, &rest[1..n + 1]) {
        Ok(data) => Ok((subtype, data, &rest[n + 1..])),
        Err(cause) => Err(cause),
    }
}

/// Reads a regular expression, and returns its pattern, its options and the bytes after it.
#[tactic(auto, unfolding(crate::specs::Checks::leaf_at))]
#[inline(always)]
pub(crate) fn read_regex(bytes: &[u8]) -> Result<(&str, &str, &[u8]), BsonCause>
    ensures { Gives (λ x. (regex_value x.0.now x.1.now, x.2.now)) result
        (leaf_at regex_form bytes.now) }
{
    let (pattern, rest) = read_cstring(bytes)?;
    let (options, rest) = read_cstring(rest)?;
    Ok((pattern, options, rest))
}

/// Reads a DBPointer, and returns its namespace, the bytes of its ObjectId and the bytes after it.
#[tactic(auto, unfolding(crate::specs::Checks::leaf_at))]
#[inline(always)]
pub(crate) fn read_pointer(bytes: &[u8]) -> Result<(&str, [u8; 12], &[u8]), BsonCause>
    ensures { Gives (λ x. (pointer_value x.0.now x.1, x.2.now)) result
        (leaf_at pointer_form bytes.now) }
{
    let (namespace, rest) = read_string(bytes)?;
    let (id, rest) = read_bytes::<12>(rest)?;
    Ok((namespace, id, rest))
}

/// Reads a value of a `kind` that holds no document, and returns it and the bytes after it.
#[tactic(auto, unfolding(crate::specs::Checks::leaf_at))]
#[inline(always)]
pub(crate) fn read_leaf(kind: Kind, bytes: &[u8]) -> Result<(Item<'_>, &[u8]), BsonCause>
    ensures read { (n : ℕ)
        → Gives (λ x. (item_value n x.0, x.1.now)) result
        (as_value (leaf_at (form_of kind) bytes.now)) }
    ensures kind { IfOk result (λ x. item_kind x.0 ≡ kind) }
{
    match kind {
        Kind::Double => {
            let (value, rest) = read_bytes::<8>(bytes)?;
            Ok((Item::Double(value), rest))
        }
        Kind::String => {
            let (value, rest) = read_string(bytes)?;
            Ok((Item::String(value), rest))
        }
        Kind::Binary => {
            let (subtype, bytes, rest) = read_binary(bytes)?;
            Ok((Item::Binary { subtype, bytes }, rest))
        }
        Kind::Undefined => Ok((Item::Undefined, bytes)),
        Kind::ObjectId => {
            let (value, rest) = read_bytes::<12>(bytes)?;
            Ok((Item::ObjectId(value), rest))
        }
        Kind::Boolean => {
            let (value, rest) = read_boolean(bytes)?;
            Ok((Item::Boolean(value), rest))
        }
        Kind::DateTime => {
            let (value, rest) = read_i64(bytes)?;
            Ok((Item::DateTime(value), rest))
        }
        Kind::Null => Ok((Item::Null, bytes)),
        Kind::Regex => {
            let (pattern, options, rest) = read_regex(bytes)?;
            Ok((Item::Regex { pattern, options }, rest))
        }
        Kind::DbPointer => {
            let (namespace, id, rest) = read_pointer(bytes)?;
            Ok((Item::DbPointer { namespace, id }, rest))
        }
        Kind::Code => {
            let (value, rest) = read_string(bytes)?;
            Ok((Item::Code(value), rest))
        }
        Kind::Symbol => {
            let (value, rest) = read_string(bytes)?;
            Ok((Item::Symbol(value), rest))
        }
        Kind::Int32 => {
            let (value, rest) = read_i32(bytes)?;
            Ok((Item::Int32(value), rest))
        }
        Kind::Timestamp => {
            let (increment, rest) = read_u32(bytes)?;
            let (seconds, rest) = read_u32(rest)?;
            Ok((Item::Timestamp { increment, seconds }, rest))
        }
        Kind::Int64 => {
            let (value, rest) = read_i64(bytes)?;
            Ok((Item::Int64(value), rest))
        }
        Kind::Decimal128 => {
            let (value, rest) = read_bytes::<16>(bytes)?;
            Ok((Item::Decimal128(value), rest))
        }
        Kind::MinKey => Ok((Item::MinKey, bytes)),
        Kind::MaxKey => Ok((Item::MaxKey, bytes)),
        Kind::Document | Kind::Array | Kind::CodeWithScope => Err(BsonCause::Kind),
    }
}
