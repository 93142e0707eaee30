//! Adds the numbers that `$inc` adds.

ghost use Rattle.std.specs.Prelude.{◌≡◌, ◌+ℤ◌, Err, MatchResult, Ok};
ghost use Rattle.bson_doc.specs.{value_of};
ghost use Rattle.doc_update.specs.Increments.{double_sum, long_sum, nearest_double, number_of};
ghost use Rattle.doc_update.specs.Increments.{short_sum, sum};

use bson_doc::Bson;
use bson_raw::{double_from_bytes, double_to_bytes};
use doc_query::CommandError;
use std::num::nearest_i64_to_f64;

/// A number that `$inc` adds, or adds to.
#[derive(Clone, Copy)]
pub enum Number {
    Int32(i32),
    Int64(i64),
    Double(f64),
}

/// Returns the number of a value, if it is an int32, an int64 or a double.
pub fn number_of(value: &Bson) -> Option<Number>
    ensures { result ≡ number_of (value_of value.now) }
{
    match value {
        Bson::Int32(n) => Some(Number::Int32(*n)),
        Bson::Int64(n) => Some(Number::Int64(*n)),
        Bson::Double(bytes) => Some(Number::Double(double_from_bytes(*bytes))),
        _ => None,
    }
}

/// Returns the sum of two int32s: an int32 if it fits, and otherwise an int64.
#[tactic(auto, using(crate::proofs::Sums::fits_short, crate::proofs::Sums::fits_no_short))]
fn short_sum(a: i32, b: i32) -> Bson
    ensures { value_of result ≡ short_sum (a +ℤ b) }
{
    match a.checked_add(b) {
        Some(sum) => Bson::Int32(sum),
        None => Bson::Int64(a as i64 + b as i64),
    }
}

/// Returns the sum of two numbers one of which is an int64.
#[tactic(auto, using(crate::proofs::Sums::fits_long, crate::proofs::Sums::fits_no_long))]
fn long_sum(a: i64, b: i64) -> Result<Bson, CommandError>
    ensures { MatchResult result (λ v. long_sum (a +ℤ b) ≡ Ok (value_of v))
        (λ e. long_sum (a +ℤ b) ≡ Err e) }
{
    match a.checked_add(b) {
        Some(sum) => Ok(Bson::Int64(sum)),
        None => Err(CommandError::Overflow),
    }
}

/// Returns the double that is nearest to a number.
fn nearest_double(number: Number) -> f64
    ensures { result ≡ nearest_double number }
{
    match number {
        Number::Int32(n) => f64::from(n),
        Number::Int64(n) => nearest_i64_to_f64(n),
        Number::Double(x) => x,
    }
}

/// Returns the sum of two numbers one of which is a double.
fn double_sum(a: Number, b: Number) -> Bson
    ensures { value_of result ≡ double_sum a b }
{
    Bson::Double(double_to_bytes(nearest_double(a) + nearest_double(b)))
}

/// Returns the sum of two numbers.
///
/// # Errors
///
/// Returns `Overflow` if the sum of an int64 is no int64.
pub fn sum(a: Number, b: Number) -> Result<Bson, CommandError>
    ensures { MatchResult result (λ v. sum a b ≡ Ok (value_of v)) (λ e. sum a b ≡ Err e) }
{
    match (a, b) {
        (Number::Int32(a), Number::Int32(b)) => Ok(short_sum(a, b)),
        (Number::Int32(a), Number::Int64(b)) => long_sum(a as i64, b),
        (Number::Int64(a), Number::Int32(b)) => long_sum(a, b as i64),
        (Number::Int64(a), Number::Int64(b)) => long_sum(a, b),
        _ => Ok(double_sum(a, b)),
    }
}
