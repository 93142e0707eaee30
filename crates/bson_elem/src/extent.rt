//! Skipping values. A value is checked as `read_value` checks it, but isn't returned: a walk that
//! only checks needs the offset of the document in the value, if there is one, and the bytes after
//! the value.

ghost use Rattle.std.specs.Prelude.{◌≡◌, ◌+◌, ◌<◌, ◌^◌, ◌≤◌, length, max, None, IfErr};
ghost use Rattle.bson_elem.specs.Checks.{bytes_at, leaf_at, value_at};
ghost use Rattle.bson_elem.specs.Kinds.{form_of};
ghost use Rattle.bson_elem.specs.Extents.{fixed_size, rest_of, value_extent};
ghost use Rattle.bson_elem.specs.Results.{Gives};

use crate::container::{MAX_DEPTH, fault_at, read_document, split_scope};
use crate::fault::{BsonCause, BsonFault};
use crate::kinds::Kind;
use crate::leaf::{read_binary, read_boolean, read_pointer, read_regex};
use crate::text::read_string;

/// Skips `n` bytes, and returns those after them.
#[inline(always)]
fn skip_bytes(n: usize, bytes: &[u8]) -> Result<&[u8], BsonCause>
    ensures { Gives (λ x. x.now) result (rest_of (bytes_at n bytes.now)) }
{
    if bytes.len() < n {
        return Err(BsonCause::Truncated);
    }
    Ok(&bytes[n..])
}

/// Skips a value of a `kind` that has no fixed size and holds no document, and returns the bytes
/// after it.
// Calls the parts of `read_leaf`, not `read_leaf` itself: with that call `skip_value` is no longer
// inlined, and a check of documents takes a third to a half more instructions.
#[tactic(auto, unfolding(crate::specs::Checks::leaf_at))]
#[inline(always)]
fn skip_varied(kind: Kind, bytes: &[u8]) -> Result<&[u8], BsonCause>
    requires { fixed_size (form_of kind) ≡ None }
    ensures { Gives (λ x. x.now) result (rest_of (leaf_at (form_of kind) bytes.now)) }
{
    match kind {
        Kind::String | Kind::Code | Kind::Symbol => {
            let (_, rest) = read_string(bytes)?;
            Ok(rest)
        }
        Kind::Binary => {
            let (_, _, rest) = read_binary(bytes)?;
            Ok(rest)
        }
        Kind::Boolean => {
            let (_, rest) = read_boolean(bytes)?;
            Ok(rest)
        }
        Kind::Regex => {
            let (_, _, rest) = read_regex(bytes)?;
            Ok(rest)
        }
        Kind::DbPointer => {
            let (_, _, rest) = read_pointer(bytes)?;
            Ok(rest)
        }
        Kind::Document | Kind::Array | Kind::CodeWithScope => Err(BsonCause::Kind),
        _ => unreachable!(),
    }
}

/// Skips a value of a `kind` that holds no document, and returns the bytes after it.
#[tactic(auto, using(crate::proofs::ExtentLaws::fixed_rest))]
#[inline(always)]
fn skip_leaf(kind: Kind, bytes: &[u8]) -> Result<&[u8], BsonCause>
    ensures { Gives (λ x. x.now) result (rest_of (leaf_at (form_of kind) bytes.now)) }
{
    // Most values have a fixed size, which a table gives.
    match kind.fixed_len() {
        Some(n) => skip_bytes(n, bytes),
        None => skip_varied(kind, bytes),
    }
}

/// Checks a value of this `kind`, and returns the offset of the document in it, if it holds one,
/// and the bytes after it. The value begins at offset `from`, in the element at offset `at`, in a
/// container of this `depth`.
///
/// # Errors
///
/// Returns the fault that `read_element` returns for the value.
#[tactic(auto, using(crate::proofs::ScopeLaws::parts), unfolding(crate::specs::Checks::value_at))]
#[inline(always)]
pub fn skip_value(
    depth: u32,
    at: usize,
    from: usize,
    kind: Kind,
    bytes: &[u8],
) -> Result<(Option<usize>, &[u8]), BsonFault>
    requires { from + length bytes.now < 2 ^ 64 }
    ensures read { Gives (λ x. (x.0, x.1.now)) result
        (value_extent (value_at depth at from (form_of kind) bytes.now)) }
    ensures offset { IfErr result (λ f. f.at ≤ max at (from + length bytes.now)) }
{
    match kind {
        Kind::Document | Kind::Array => {
            if depth >= MAX_DEPTH {
                return Err(fault_at(at, BsonCause::Depth));
            }
            let (_, rest) = read_document(at, from, bytes)?;
            Ok((Some(from), rest))
        }
        Kind::CodeWithScope => {
            if depth >= MAX_DEPTH {
                return Err(fault_at(at, BsonCause::Depth));
            }
            let (_, scope, rest) = split_scope(at, from, bytes)?;
            Ok((Some(from + bytes.len() - rest.len() - scope.len()), rest))
        }
        _ => match skip_leaf(kind, bytes) {
            Ok(rest) => Ok((None, rest)),
            Err(cause) => Err(fault_at(at, cause)),
        },
    }
}
