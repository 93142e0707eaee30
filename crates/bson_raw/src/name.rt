//! Reads the names of the pairs of a container, which in an array are "0", "1" and so on.

ghost use Rattle.std.specs.Prelude.{◌≡◌, ◌≤◌, ◌<◌, length, IfOk, IfSome, Ok, true};
ghost use Rattle.std.specs.Fmt.{decimal};
ghost use Rattle.std.specs.Str.{bytes_eq};
ghost use Rattle.bson_elem.specs.{Gives, cstring_at};
ghost use Rattle.bson_raw.specs.Naming.{named_at};

use bson_elem::{BsonCause, read_cstring};

/// Returns true if the name is the digit of `index`, which is below 10.
#[tactic(auto, using(crate::proofs::DigitLaws::digit_name))]
#[inline(always)]
fn is_digit(name: &[u8], index: usize) -> bool
    requires { index < 10 }
    ensures { result ≡ bytes_eq name.now (decimal index) }
{
    name.len() == 1 && usize::from(name[0]) == 48 + index
}

/// Returns true if the name is the two digits of `index`, which is from 10 to 99.
#[tactic(auto, using(crate::proofs::DigitLaws::digits_name))]
#[inline(always)]
fn is_two_digits(name: &[u8], index: usize) -> bool
    requires low { 10 ≤ index }
    requires high { index < 100 }
    ensures { result ≡ bytes_eq name.now (decimal index) }
{
    name.len() == 2
        && usize::from(name[0]) == 48 + index / 10
        && usize::from(name[1]) == 48 + index % 10
}

/// Returns true if the name is `index` in decimal.
fn is_decimal(name: &[u8], index: usize) -> bool
    ensures { result ≡ bytes_eq name.now (decimal index) }
{
    if index < 10 {
        return is_digit(name, index);
    }
    match name {
        [front @ .., last] => {
            usize::from(*last) == 48 + index % 10 && is_decimal(front, index / 10)
        }
        [] => false,
    }
}

/// Returns true if the name is `index` in decimal. Compares names of one and two digits without a
/// loop.
#[inline(always)]
fn is_index(name: &[u8], index: usize) -> bool
    ensures { result ≡ bytes_eq name.now (decimal index) }
{
    if index < 10 {
        return is_digit(name, index);
    }
    if index < 100 {
        return is_two_digits(name, index);
    }
    is_decimal(name, index)
}

/// Returns the bytes after the name of `n` bytes at the front, if that name is `index` in decimal.
#[inline(always)]
fn after_name(bytes: &[u8], n: usize, index: usize) -> Option<&[u8]>
    ensures read { IfSome result (λ rest. cstring_at bytes.now ≡ Ok (decimal index, rest.now)) }
    ensures shorter { IfSome result (λ rest. length rest.now < length bytes.now) }
{
    if bytes.len() > n && bytes[n] == 0 && is_index(&bytes[..n], index) {
        return Some(&bytes[n + 1..]);
    }
    None
}

/// Returns the bytes after the name at the front, if that name is `index` in decimal and has at
/// most five digits.
#[inline(always)]
fn after_index(bytes: &[u8], index: usize) -> Option<&[u8]>
    ensures read { IfSome result (λ rest. cstring_at bytes.now ≡ Ok (decimal index, rest.now)) }
    ensures shorter { IfSome result (λ rest. length rest.now < length bytes.now) }
{
    if index < 10 {
        return after_name(bytes, 1, index);
    }
    if index < 100 {
        return after_name(bytes, 2, index);
    }
    let n = match index {
        0..=999 => 3,
        1_000..=9_999 => 4,
        _ => 5,
    };
    after_name(bytes, n, index)
}

/// Reads a name as `skip_name` does in an array. It works for any name, and is slower.
#[inline(never)]
fn skip_any_name(bytes: &[u8], index: usize) -> Result<(bool, &[u8]), BsonCause>
    ensures read { Gives (λ x. (x.0, x.1.now)) result (named_at true index (cstring_at bytes.now)) }
    ensures shorter { IfOk result (λ x. length x.1.now < length bytes.now) }
{
    let (name, rest) = read_cstring(bytes)?;
    Ok((is_decimal(name.as_bytes(), index), rest))
}

/// Reads the name at the front, that of the pair at `index` of a container. Returns whether it is
/// canonical, and the bytes after it. In a document or a scope every name is canonical.
#[inline(always)]
pub(crate) fn skip_name(
    bytes: &[u8],
    in_array: bool,
    index: usize,
) -> Result<(bool, &[u8]), BsonCause>
    ensures read { Gives (λ x. (x.0, x.1.now)) result
        (named_at in_array index (cstring_at bytes.now)) }
    ensures shorter { IfOk result (λ x. length x.1.now < length bytes.now) }
{
    if in_array {
        // The canonical name is known, so its end need not be searched for.
        return match after_index(bytes, index) {
            Some(rest) => Ok((true, rest)),
            None => skip_any_name(bytes, index),
        };
    }
    let (_, rest) = read_cstring(bytes)?;
    Ok((true, rest))
}
