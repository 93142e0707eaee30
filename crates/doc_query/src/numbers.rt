//! Compares numbers of all kinds by value, exactly.

ghost use Rattle.std.specs.Prelude.{◌≡◌};
ghost use Rattle.std.specs.Ordering.{int_cmp};
ghost use Rattle.doc_query.specs.Numbers.{double_number, exponent_of, fraction_of, is_nan};
ghost use Rattle.doc_query.specs.Numbers.{number_value, scaled, signed_significand, significand_of};
ghost use Rattle.doc_query.specs.Numbers.{whole_number};

use std::cmp::Ordering;

/// The power of two that all numbers are taken times of, so that each double is whole.
const COMMON_POWER: u16 = 1074;

/// A whole number: `digits` times 2 to the `power`.
#[derive(Clone, Copy)]
pub struct Number {
    pub digits: i64,
    pub power: u16,
}

/// Returns the exponent of the double with these bits.
fn exponent_of(bits: u64) -> u16
    ensures { result ≡ exponent_of bits }
{
    (bits / (1 << 52) % (1 << 11)) as u16
}

/// Returns the fraction of the double with these bits.
fn fraction_of(bits: u64) -> u64
    ensures { result ≡ fraction_of bits }
{
    bits % (1 << 52)
}

/// Returns the significand of the double with these bits.
fn significand_of(bits: u64) -> u64
    ensures { result ≡ significand_of bits }
{
    if exponent_of(bits) == 0 {
        fraction_of(bits)
    } else {
        fraction_of(bits) + (1 << 52)
    }
}

/// Returns the significand of the double with these bits, with its sign.
fn signed_significand(bits: u64) -> i64
    ensures { result ≡ signed_significand bits }
{
    let significand = significand_of(bits) as i64;
    if bits < 1 << 63 {
        significand
    } else {
        -significand
    }
}

/// Returns true if these are the bits of a NaN.
pub fn is_nan(bits: u64) -> bool
    ensures { result ≡ is_nan bits }
{
    exponent_of(bits) == 2047 && fraction_of(bits) != 0
}

/// Returns the number of the double with these bits, which isn't NaN.
pub fn double_number(bits: u64) -> Number
    ensures { number_value result ≡ double_number bits }
{
    Number {
        digits: signed_significand(bits),
        power: exponent_of(bits).saturating_sub(1),
    }
}

/// Returns the number of a whole one.
pub fn whole_number(digits: i64) -> Number
    ensures { number_value result ≡ whole_number digits }
{
    Number {
        digits,
        power: COMMON_POWER,
    }
}

/// Compares `digits` times 2 to the `power` with `other`.
fn scaled_order(digits: i64, power: u16, other: i64) -> Ordering
    ensures { result ≡ int_cmp (scaled digits power) other }
{
    if power < 64 {
        let factor: u64 = 1 << power;
        let scaled = i128::from(digits) * i128::from(factor);
        scaled.cmp(&i128::from(other))
    } else {
        match digits.cmp(&0) {
            Ordering::Equal => 0.cmp(&other),
            order => order,
        }
    }
}

/// Compares two numbers.
pub fn number_order(a: Number, b: Number) -> Ordering
    ensures { result ≡ int_cmp (number_value a) (number_value b) }
{
    if a.power >= b.power {
        scaled_order(a.digits, a.power - b.power, b.digits)
    } else {
        scaled_order(b.digits, b.power - a.power, a.digits).reverse()
    }
}
