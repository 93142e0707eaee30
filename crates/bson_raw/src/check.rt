//! Checks a whole document.

ghost use Rattle.std.specs.Prelude.{◌≡◌, ◌+◌, ◌-◌, ◌<◌, ◌≤◌, ◌^◌, length, slice_range, max, IfErr};
ghost use Rattle.std.specs.Prelude.{MatchResult, false, true};
ghost use Rattle.bson_elem.specs.{FaultIn};
ghost use Rattle.bson_raw.specs.Checks.{IsTree, IsPair};

use crate::name::skip_name;
use bson_elem::{BsonCause, BsonFault, Kind, fault_at, skip_value};

/// Checks the pair at `offset`, and everything inside it. Returns the offset after it, and whether
/// every name so far is canonical. `canonical` says that of the `index` pairs before it.
// The arguments stay separate: with the four of the container in one struct, a check of small
// documents takes 13 % more instructions, and of nested ones 20 %.
#[cycle(check)]
#[inline(always)]
fn check_pair(
    bytes: &[u8],
    start: usize,
    offset: usize,
    end: usize,
    depth: u32,
    in_array: bool,
    index: usize,
    canonical: bool,
) -> Result<(usize, bool), BsonFault>
    requires inside { offset < end }
    requires whole { end < length bytes.now }
    requires depth { depth ≤ 200 }
    ensures checked { MatchResult result
        (λ x. (offset < x.0) × (x.0 ≤ end)
        × IsPair depth in_array index (slice_range bytes.now offset end) (x.0 - offset)
        (slice_range bytes.now x.0 end) canonical x.1)
        (λ f. FaultIn depth start offset (slice_range bytes.now offset end) f) }
    ensures bound { IfErr result (λ f. f.at ≤ max start end) }
{
    let byte = bytes[offset];
    if byte == 0 {
        return Err(fault_at(start, BsonCause::End));
    }
    let Some(kind) = Kind::from_byte(byte) else {
        return Err(fault_at(offset, BsonCause::Kind));
    };
    let (named, rest) = match skip_name(&bytes[offset + 1..end], in_array, index) {
        Ok(read) => read,
        Err(cause) => return Err(fault_at(offset, cause)),
    };
    let canonical = canonical && named;
    let (document, rest) = skip_value(depth, offset, end - rest.len(), kind, rest)?;
    let next = end - rest.len();
    if let Some(inner) = document {
        // Tests the byte, not `kind`: a test of `kind` would turn the table of sizes into a jump
        // for each kind.
        let is_array = bytes[offset] == Kind::Array.byte();
        let within = check(bytes, inner, next - 1, depth + 1, is_array)?;
        return Ok((next, canonical && within));
    }
    Ok((next, canonical))
}

/// Checks the elements of a container, as `check` does.
#[cycle(check)]
#[inline(always)]
fn check_elements(
    bytes: &[u8],
    start: usize,
    end: usize,
    depth: u32,
    in_array: bool,
) -> Result<bool, BsonFault>
    requires inside { start + 4 ≤ end }
    requires whole { end < length bytes.now }
    requires depth { depth ≤ 200 }
    ensures checked { MatchResult result
        (λ canonical. IsTree depth in_array (slice_range bytes.now (start + 4) end) canonical)
        (λ f. FaultIn depth start (start + 4) (slice_range bytes.now (start + 4) end) f) }
    ensures bound { IfErr result (λ f. f.at ≤ end) }
{
    let mut offset = start + 4;
    let mut index = 0;
    let mut canonical = true;
    while offset < end {
        (offset, canonical) = check_pair(
            bytes, start, offset, end, depth, in_array, index, canonical,
        )?;
        index += 1;
    }
    Ok(canonical)
}

/// Checks the elements of a document or a scope.
#[cycle(check)]
#[inline(never)]
fn check_document(bytes: &[u8], start: usize, end: usize, depth: u32) -> Result<bool, BsonFault>
    requires inside { start + 4 ≤ end }
    requires whole { end < length bytes.now }
    requires depth { depth ≤ 200 }
    ensures checked { MatchResult result
        (λ canonical. IsTree depth false (slice_range bytes.now (start + 4) end) canonical)
        (λ f. FaultIn depth start (start + 4) (slice_range bytes.now (start + 4) end) f) }
    ensures bound { IfErr result (λ f. f.at ≤ end) }
{
    check_elements(bytes, start, end, depth, false)
}

/// Checks the elements of an array.
#[cycle(check)]
#[inline(never)]
fn check_array(bytes: &[u8], start: usize, end: usize, depth: u32) -> Result<bool, BsonFault>
    requires inside { start + 4 ≤ end }
    requires whole { end < length bytes.now }
    requires depth { depth ≤ 200 }
    ensures checked { MatchResult result
        (λ canonical. IsTree depth true (slice_range bytes.now (start + 4) end) canonical)
        (λ f. FaultIn depth start (start + 4) (slice_range bytes.now (start + 4) end) f) }
    ensures bound { IfErr result (λ f. f.at ≤ end) }
{
    check_elements(bytes, start, end, depth, true)
}

/// Checks the elements of a container of this `depth`, whose first byte is at `start` and whose
/// last is at `end`. Returns whether its names are canonical at every depth: in an array these are
/// "0", "1" and so on.
#[cycle(check)]
#[inline(always)]
pub(crate) fn check(
    bytes: &[u8],
    start: usize,
    end: usize,
    depth: u32,
    in_array: bool,
) -> Result<bool, BsonFault>
    requires inside { start + 4 ≤ end }
    requires whole { end < length bytes.now }
    requires depth { depth ≤ 200 }
    ensures checked { MatchResult result
        (λ canonical. IsTree depth in_array (slice_range bytes.now (start + 4) end) canonical)
        (λ f. FaultIn depth start (start + 4) (slice_range bytes.now (start + 4) end) f) }
    ensures bound { IfErr result (λ f. f.at ≤ end) }
{
    // Two loops, so that the names in a document aren't compared with numbers.
    if in_array {
        check_array(bytes, start, end, depth)
    } else {
        check_document(bytes, start, end, depth)
    }
}
