//! Reading values that hold a document: a document or an array, and a code with its scope
//! (bsonspec.org, version 1.1: `document`, `code_w_s`).

ghost use Rattle.std.specs.Prelude.{◌≡◌, ◌+◌, ◌-◌, ◌≤◌, ◌<◌, ◌^◌, ◌++◌, length, max, IfOk, IfErr};
ghost use Rattle.bson_elem.specs.Trees.{with_code};
ghost use Rattle.bson_elem.specs.Checks.{document_at, fault, opens, scope_at};
ghost use Rattle.bson_elem.specs.Documents.{elements_of, IsFramed};
ghost use Rattle.bson_elem.specs.Items.{item_kind, item_value, LendsFramed};
ghost use Rattle.bson_elem.specs.Results.{Gives};

use crate::fault::{BsonCause, BsonFault};
use crate::items::Item;
use crate::kinds::Kind;
use crate::number::{MAX_LEN, little_u32, read_length};
use crate::text::read_text;

/// The greatest depth of a container. The outermost document has depth 1.
pub const MAX_DEPTH: u32 = 200;

/// Returns the fault with this `cause` at this `offset`.
#[inline(always)]
pub fn fault_at(offset: usize, cause: BsonCause) -> BsonFault
    ensures { result ≡ fault offset cause }
{
    BsonFault { at: offset, cause }
}

/// Splits `bytes` like `read_document`, but doesn't promise that the returned document is framed.
#[tactic(auto, unfolding(crate::specs::Checks::document_at))]
#[inline(always)]
fn split_document(at: usize, from: usize, bytes: &[u8]) -> Result<(&[u8], &[u8]), BsonFault>
    ensures read { Gives (λ x. (elements_of x.0.now, x.1.now)) result
        (document_at at from bytes.now) }
    ensures parts { IfOk result
        (λ x. (5 ≤ length x.0.now) × (length x.0.now + length x.1.now ≡ length bytes.now)) }
    ensures split { IfOk result (λ x. x.0.now ++ x.1.now ≡ bytes.now) }
    ensures offset { IfErr result (λ f. f.at ≤ max at from) }
{
    if bytes.len() < 4 {
        return Err(BsonFault {
            at,
            cause: BsonCause::Truncated,
        });
    }
    let n = little_u32(bytes) as usize;
    if n < 5 || n > MAX_LEN {
        return Err(BsonFault {
            at: from,
            cause: BsonCause::Length,
        });
    }
    if bytes.len() < n {
        return Err(BsonFault {
            at,
            cause: BsonCause::Truncated,
        });
    }
    if bytes[n - 1] != 0 {
        return Err(BsonFault {
            at: from,
            cause: BsonCause::End,
        });
    }
    Ok(bytes.split_at(n))
}

/// Reads the document at the front of `bytes`, and returns its bytes and those after it. Checks its
/// length and its last byte, but none of its elements. The document begins at offset `from`, in the
/// element at offset `at`; both are 0 if no element holds it.
///
/// # Errors
///
/// - `Truncated` at `at` if `bytes` has fewer than 4 bytes, or fewer than the document's length.
/// - `Length` at `from` if the length is below 5 or above `MAX_LEN`.
/// - `End` at `from` if the document's last byte isn't 00.
#[inline(always)]
pub fn read_document(at: usize, from: usize, bytes: &[u8]) -> Result<(&[u8], &[u8]), BsonFault>
    ensures read { Gives (λ x. (elements_of x.0.now, x.1.now)) result
        (document_at at from bytes.now) }
    ensures parts { IfOk result
        (λ x. (5 ≤ length x.0.now) × (length x.0.now + length x.1.now ≡ length bytes.now)) }
    ensures split { IfOk result (λ x. x.0.now ++ x.1.now ≡ bytes.now) }
    ensures offset { IfErr result (λ f. f.at ≤ max at from) }
    ensures lent { IfOk result (λ x. IsFramed x.0.now) }
{
    match split_document(at, from, bytes) {
        Ok(read) => Ok(read),
        Err(fault) => Err(fault),
    }
}

/// Reads a code with its scope, and returns the code, the bytes of the scope and those after it.
/// Checks no element of the scope. The value begins at offset `from`, in the element at offset
/// `at`.
#[tactic(auto, unfolding(crate::specs::Checks::scope_at))]
#[inline(always)]
pub(crate) fn split_scope(
    at: usize,
    from: usize,
    bytes: &[u8],
) -> Result<(&str, &[u8], &[u8]), BsonFault>
    requires { from + length bytes.now < 2 ^ 64 }
    ensures read { Gives
        (λ x. (
          opens (from + length bytes.now - length x.2.now - length x.1.now) (with_code x.0.now)
              (elements_of x.1.now),
          x.2.now,
        ))
        result (scope_at at from bytes.now) }
    ensures parts { IfOk result (λ x. length x.1.now + length x.2.now ≤ length bytes.now) }
    ensures offset { IfErr result (λ f. f.at ≤ max at (from + length bytes.now)) }
    ensures lent { IfOk result (λ x. IsFramed x.1.now) }
{
    let (total, rest) = match read_length(14, bytes) {
        Ok(read) => read,
        Err(cause) => return Err(fault_at(at, cause)),
    };
    if bytes.len() < total {
        return Err(fault_at(at, BsonCause::Truncated));
    }
    let (n, rest) = match read_length(1, rest) {
        Ok(read) => read,
        Err(cause) => return Err(fault_at(at, cause)),
    };
    if total - 13 < n {
        return Err(fault_at(at, BsonCause::Scope));
    }
    let (code, rest) = match read_text(n - 1, rest) {
        Ok(read) => read,
        Err(cause) => return Err(fault_at(at, cause)),
    };
    if little_u32(rest) as usize != total - 8 - n {
        return Err(fault_at(at, BsonCause::Scope));
    }
    let (scope, rest) = read_document(at, from + 8 + n, rest)?;
    Ok((code, scope, rest))
}

/// Reads a code with its scope like `split_scope`, and returns both as an `Item`.
pub(crate) fn read_scope(
    at: usize,
    from: usize,
    bytes: &[u8],
) -> Result<(Item<'_>, &[u8]), BsonFault>
    requires { from + length bytes.now < 2 ^ 64 }
    ensures read { Gives (λ x. (item_value (from + length bytes.now - length x.1.now) x.0, x.1.now))
        result (scope_at at from bytes.now) }
    ensures kind { IfOk result (λ x. item_kind x.0 ≡ Kind.CodeWithScope) }
    ensures shorter { IfOk result (λ x. length x.1.now ≤ length bytes.now) }
    ensures offset { IfErr result (λ f. f.at ≤ max at (from + length bytes.now)) }
    ensures lent { IfOk result (λ x. LendsFramed x.0) }
{
    let (code, scope, rest) = split_scope(at, from, bytes)?;
    Ok((Item::CodeWithScope { code, scope }, rest))
}
