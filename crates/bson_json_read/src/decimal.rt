//! Decimal128, by its text (BSON Decimal128 specification: "From String Representation").

ghost use Rattle.std.specs.Prelude.{◌≡◌, ◌+◌, ◌-◌, ◌*◌, ◌^◌, ◌<◌, ◌≤◌, ◌++◌, IfSome, MatchOption};
ghost use Rattle.std.specs.Prelude.{ℕ, ◌==◌, if◌then◌else◌, length, map, slice_index};
ghost use Rattle.std.specs.Char.{to_ascii_lowercase};
ghost use Rattle.std.specs.Float.Numeral.{minus};
ghost use Rattle.std.specs.Float.Parse.{without_sign};
ghost use Rattle.std.specs.Str.Parse.{AllDigits, digits_value};
ghost use Rattle.bson_json_read.specs.DecimalText as spec;
ghost use Rattle.bson_json_read.specs.DecimalText.{decimal128_of};

use fast_float::Numeral;

/// The least coefficient of 35 digits.
const TOO_LARGE: u128 = 10_000_000_000_000_000_000_000_000_000_000_000;

/// Returns the bits of a coefficient and an exponent, which is given plus 6176.
fn finite_bits(negative: bool, c: u128, exponent: u128) -> u128
    requires { (c < 10 ^ 34) × (exponent ≤ 12287) }
    ensures { result ≡ spec.finite_bits negative c exponent }
{
    let sign = if negative { 1 << 127 } else { 0 };
    sign + exponent * (1 << 113) + c
}

/// Returns the bits of c times ten to an exponent that is so far below the least that only 0 has
/// some.
#[tactic(auto, using(crate::proofs::Tens::lowered_far))]
fn far_below(negative: bool, c: u128) -> Option<u128>
    requires { c < 10 ^ 34 }
    ensures { (k : ℕ) → 34 ≤ k → result ≡ spec.lowered negative c k }
{
    if c == 0 {
        Some(finite_bits(negative, 0, 0))
    } else {
        None
    }
}

/// Returns the bits of c times ten to an exponent that is this much below the least.
fn lowered(negative: bool, c: u128, k: u128) -> Option<u128>
    requires { c < 10 ^ 34 }
    ensures { result ≡ spec.lowered negative c k }
{
    if k >= 34 {
        return far_below(negative, c);
    }
    let unit = ten_to(k as u32);
    if c % unit == 0 {
        Some(finite_bits(negative, c / unit, 0))
    } else {
        None
    }
}

/// Returns the bits of c times ten to an exponent that is so far above the greatest that only 0
/// has some.
#[tactic(auto, using(crate::proofs::Tens::raised_far))]
fn far_above(negative: bool, c: u128) -> Option<u128>
    requires { c < 10 ^ 34 }
    ensures { (k : ℕ) → 34 ≤ k → result ≡ spec.raised negative c k }
{
    if c == 0 {
        Some(finite_bits(negative, 0, 12287))
    } else {
        None
    }
}

/// Returns the bits of c times ten to an exponent that is this much above the greatest.
fn raised(negative: bool, c: u128, k: u128) -> Option<u128>
    requires { c < 10 ^ 34 }
    ensures { result ≡ spec.raised negative c k }
{
    if k >= 34 {
        return far_above(negative, c);
    }
    let k = k as u32;
    let room = ten_to(34 - k);
    if c >= room {
        return None;
    }
    let unit = ten_to(k);
    Some(finite_bits(negative, c * unit, 12287))
}

/// Returns ten to this power.
#[tactic(auto, using(crate::proofs::Tens::power_fits, crate::proofs::Tens::power_some))]
fn ten_to(k: u32) -> u128
    requires { k < 38 }
    ensures value { result ≡ 10 ^ k }
    ensures some { 1 ≤ result }
{
    let mut power = 1;
    for _ in 0..k {
        power *= 10;
    }
    power
}

/// Returns the bits of c times ten to `up` - `down`; exponents are given plus 6176.
fn placed(negative: bool, c: u128, up: u128, down: u128) -> Option<u128>
    requires { c < 10 ^ 34 }
    ensures { result ≡ spec.placed negative c up down }
{
    if up < down {
        lowered(negative, c, down - up)
    } else if up - down <= 12287 {
        Some(finite_bits(negative, c, up - down))
    } else {
        raised(negative, c, up - down - 12287)
    }
}

/// Returns the coefficient that digits write behind those of `c`, and how many zeros behind it
/// are left out.
fn more_digits(c: u128, left_out: u64, digits: &[u8]) -> Option<(u128, u64)>
    requires small { c < 10 ^ 34 }
    requires few { left_out + length digits.now < 2 ^ 40 }
    ensures value { result ≡ spec.coefficient_of c left_out digits.now }
    ensures small { IfSome result (λ r. r.0 < 10 ^ 34) }
    ensures few { IfSome result (λ r. r.1 ≤ left_out + length digits.now) }
{
    let mut c = c;
    let mut left_out = left_out;
    for d in digits {
        let next = c * 10 + u128::from(d.saturating_sub(48));
        if left_out == 0 && next < TOO_LARGE {
            c = next;
        } else if *d == b'0' {
            left_out += 1;
        } else {
            return None;
        }
    }
    Some((c, left_out))
}

/// Returns the number of an exponent, or `None` from 2^64 on.
fn exponent_of(digits: &[u8]) -> Option<u64>
    requires { AllDigits 10 digits.now }
    ensures { MatchOption result (2 ^ 64 ≤ digits_value 10 digits.now)
        (λ n. n ≡ digits_value 10 digits.now) }
{
    if digits.is_empty() {
        return Some(0);
    }
    fast_float::parse_u64(digits).ok()
}

/// Returns the coefficient of a numeral, and how many zeros behind it are left out.
#[tactic(auto, using(crate::proofs::Tens::coefficient_append))]
fn coefficient_of(numeral: &Numeral<'_>) -> Option<(u128, u64)>
    requires { length numeral.now.whole + length numeral.now.fraction < 2 ^ 32 }
    ensures value { result ≡ spec.coefficient_of 0 0 (numeral.now.whole ++ numeral.now.fraction) }
    ensures small { IfSome result (λ r. r.0 < 10 ^ 34) }
    ensures few { IfSome result (λ r. r.1 < 2 ^ 40) }
{
    match more_digits(0, 0, numeral.whole()) {
        Some((c, left_out)) => more_digits(c, left_out, numeral.fraction()),
        None => None,
    }
}

/// Returns the bits of a numeral with an exponent below 2^64.
fn with_exponent(
    negative: bool,
    c: u128,
    left_out: u64,
    fraction: u64,
    below: bool,
    power: u64,
) -> Option<u128>
    requires { c < 10 ^ 34 }
    ensures { result ≡ spec.placed negative c ((if below then 0 else power) + left_out + 6176)
        (fraction + (if below then power else 0)) }
{
    let up = u128::from(left_out) + 6176;
    let down = u128::from(fraction);
    if below {
        placed(negative, c, up, down + u128::from(power))
    } else {
        placed(negative, c, u128::from(power) + up, down)
    }
}

/// Returns the bits of a numeral.
fn numeral_bits(negative: bool, numeral: &Numeral<'_>) -> Option<u128>
    requires { length numeral.now.whole + length numeral.now.fraction < 2 ^ 32 }
    ensures { result ≡ spec.numeral_bits negative numeral.now }
{
    let Some((c, left_out)) = coefficient_of(numeral) else {
        return None;
    };
    let fraction = numeral.fraction().len() as u64;
    let below = numeral.is_exponent_negative();
    match exponent_of(numeral.exponent()) {
        Some(power) => with_exponent(negative, c, left_out, fraction, below, power),
        None if below => far_below(negative, c),
        None => far_above(negative, c),
    }
}

/// Returns true if the text is the word, in small letters, capitals or both.
fn is_word(text: &[u8], word: &[u8]) -> bool
    ensures { result ≡ spec.is_word (map to_ascii_lowercase word.now) text.now }
{
    text.eq_ignore_ascii_case(word)
}

/// Returns the bits of a text without its sign.
fn unsigned_bits(negative: bool, text: &[u8]) -> Option<u128>
    requires { length text.now < 2 ^ 32 }
    ensures { result ≡ spec.unsigned_bits negative text.now }
{
    if is_word(text, b"nan") {
        return Some(31 * (1 << 122));
    }
    if is_word(text, b"infinity") || is_word(text, b"inf") {
        let sign = if negative { 1 << 127 } else { 0 };
        return Some(sign + 30 * (1 << 122));
    }
    let numeral = Numeral::scan(text);
    if numeral.has_digits() && numeral.len() == text.len() {
        numeral_bits(negative, &numeral)
    } else {
        None
    }
}

/// Returns the text without its sign.
fn skip_sign(text: &[u8]) -> &[u8]
    ensures { result.now ≡ without_sign text.now }
{
    if !text.is_empty() && (text[0] == b'+' || text[0] == b'-') {
        &text[1..]
    } else {
        text
    }
}

/// Returns true if the text begins with `-`.
fn has_minus(text: &[u8]) -> bool
    ensures { result ≡ (slice_index text.now 0 == minus) }
{
    !text.is_empty() && text[0] == b'-'
}

/// Returns the bits of a text.
fn decimal_bits(text: &[u8]) -> Option<u128>
    requires { length text.now < 2 ^ 32 }
    ensures { result ≡ spec.decimal_bits text.now }
{
    unsigned_bits(has_minus(text), skip_sign(text))
}

/// Returns the 16 bytes of the decimal128 that the text writes, as the lowest first. A sign may
/// stand first, and `NaN`, `Infinity` and `Inf` may have small letters or capitals. Returns `None`
/// if the text writes none, if the number would have to be rounded, or if the text has 2^32 bytes or
/// more.
pub fn decimal128_from_text(text: &str) -> Option<[u8; 16]>
    ensures { result ≡ decimal128_of text.now }
{
    if text.len() >= 1 << 32 {
        return None;
    }
    match decimal_bits(text.as_bytes()) {
        Some(bits) => Some(bits.to_le_bytes()),
        None => None,
    }
}
