//! Writes the number of a decimal128 (IEEE 754-2008, in its binary encoding).

ghost use Rattle.std.specs.Prelude.{◌≡◌, ◌+◌, ◌^◌, ◌<◌, ◌≤◌, OnOk, length, replicate};
ghost use Rattle.std.specs.Fmt.{sign_text};
ghost use Rattle.text_writer.specs.{WritesOut, text_contents};
ghost use Rattle.bson_json.specs.Decimals as spec;
ghost use Rattle.bson_json.specs.Decimals.{behind_first, bits_text, decimal128_text, digits_text};
ghost use Rattle.bson_json.specs.Decimals.{pointed, signed_exponent};

use itoa::Buffer;
use std::io::Write;
use text_writer::{Failed, TextWriter, write_number};

/// What is added to an exponent, so that no exponent is below 0.
const BIAS: usize = 6176;

/// The least coefficient of 35 digits.
const TOO_LARGE: u128 = 10_000_000_000_000_000_000_000_000_000_000_000;

/// Returns the five bits behind the sign.
fn combination(bits: u128) -> u128
    ensures { result ≡ spec.combination bits }
{
    bits / (1 << 122) % 32
}

/// Returns the coefficient, or 0 if it would have more than 34 digits.
fn coefficient(bits: u128) -> u128
    ensures value { result ≡ spec.coefficient bits }
    ensures small { result < 10 ^ 34 }
{
    if combination(bits) >= 24 {
        return 0;
    }
    let digits = bits % (1 << 113);
    if digits < TOO_LARGE { digits } else { 0 }
}

/// Returns the exponent plus 6176.
fn biased_exponent(bits: u128) -> usize
    ensures value { result ≡ spec.biased_exponent bits }
    ensures small { result < 16384 }
{
    let shifted = if combination(bits) >= 24 {
        bits / (1 << 111)
    } else {
        bits / (1 << 113)
    };
    (shifted % 16384) as usize
}

/// Writes `-` if the number is negative.
fn write_sign<W: Write>(negative: bool, out: &mut TextWriter<W>) -> Result<(), Failed>
    ensures { OnOk result (WritesOut (text_contents W.contents) out.old out.new
        (sign_text negative)) }
{
    if negative {
        out.write_all(b"-")
    } else {
        Ok(())
    }
}

/// Writes this number of zeros.
fn write_zeros<W: Write>(count: usize, out: &mut TextWriter<W>) -> Result<(), Failed>
    ensures { OnOk result (WritesOut (text_contents W.contents) out.old out.new
        (replicate count 48)) }
{
    for _ in 0..count {
        out.write_all(b"0")?;
    }
    Ok(())
}

/// Writes digits with a point before the last `places` of them.
fn write_pointed<W: Write>(
    digits: &[u8],
    places: usize,
    out: &mut TextWriter<W>,
) -> Result<(), Failed>
    ensures { OnOk result (WritesOut (text_contents W.contents) out.old out.new
        (pointed digits.now places)) }
{
    if places == 0 {
        return out.write_all(digits);
    }
    if digits.len() <= places {
        out.write_all(b"0.")?;
        write_zeros(places - digits.len(), out)?;
        return out.write_all(digits);
    }
    let (whole, fraction) = digits.split_at(digits.len() - places);
    out.write_all(whole)?;
    out.write_all(b".")?;
    out.write_all(fraction)
}

/// Writes digits with a point behind the first, if there are others.
fn write_behind_first<W: Write>(digits: &[u8], out: &mut TextWriter<W>) -> Result<(), Failed>
    requires { 0 < length digits.now }
    ensures { OnOk result (WritesOut (text_contents W.contents) out.old out.new
        (behind_first digits.now)) }
{
    if digits.len() == 1 {
        return out.write_all(digits);
    }
    let (first, others) = digits.split_at(1);
    out.write_all(first)?;
    out.write_all(b".")?;
    out.write_all(others)
}

/// Writes an exponent with its sign. It is given plus 6176.
fn write_exponent<W: Write>(adjusted: usize, out: &mut TextWriter<W>) -> Result<(), Failed>
    ensures { OnOk result (WritesOut (text_contents W.contents) out.old out.new
        (signed_exponent adjusted)) }
{
    if adjusted >= BIAS {
        out.write_all(b"+")?;
        return write_number(adjusted - BIAS, out);
    }
    out.write_all(b"-")?;
    write_number(BIAS - adjusted, out)
}

/// Writes digits times ten to the exponent, which is given plus 6176.
fn write_digits<W: Write>(
    digits: &[u8],
    exponent: usize,
    out: &mut TextWriter<W>,
) -> Result<(), Failed>
    requires some { 0 < length digits.now }
    requires few { length digits.now ≤ 40 }
    requires small { exponent < 16384 }
    ensures { OnOk result (WritesOut (text_contents W.contents) out.old out.new
        (digits_text digits.now exponent)) }
{
    let adjusted = exponent + digits.len() - 1;
    if exponent <= BIAS && adjusted >= BIAS - 6 {
        return write_pointed(digits, BIAS - exponent, out);
    }
    write_behind_first(digits, out)?;
    out.write_all(b"E")?;
    write_exponent(adjusted, out)
}

/// Writes a finite number, by its bits, without its sign.
fn write_finite<W: Write>(bits: u128, out: &mut TextWriter<W>) -> Result<(), Failed>
    ensures { OnOk result (WritesOut (text_contents W.contents) out.old out.new
        (spec.finite_text bits)) }
{
    let mut buffer = Buffer::new();
    let digits = buffer.format(coefficient(bits)).as_bytes();
    write_digits(digits, biased_exponent(bits), out)
}

/// Writes a number, by its bits.
fn write_bits<W: Write>(bits: u128, out: &mut TextWriter<W>) -> Result<(), Failed>
    ensures { OnOk result (WritesOut (text_contents W.contents) out.old out.new
        (bits_text bits)) }
{
    let combination = combination(bits);
    if combination == 31 {
        return out.write_all(b"NaN");
    }
    write_sign(bits >= 1 << 127, out)?;
    if combination == 30 {
        return out.write_all(b"Infinity");
    }
    write_finite(bits, out)
}

/// Writes the number of 16 bytes.
pub(crate) fn write_decimal128<W: Write>(
    bytes: [u8; 16],
    out: &mut TextWriter<W>,
) -> Result<(), Failed>
    ensures { OnOk result (WritesOut (text_contents W.contents) out.old out.new
        (decimal128_text bytes)) }
{
    write_bits(u128::from_le_bytes(bytes), out)
}
