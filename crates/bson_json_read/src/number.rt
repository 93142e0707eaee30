//! Numbers, by their text.

ghost use Rattle.std.specs.Prelude.{◌≡◌, ◌^◌};
ghost use Rattle.bson_json_read.specs.Numbers.{double_of_text, finite_of, integer_of, unsigned_of};

/// Returns the 32-bit integer that the text writes, if it does.
#[tactic(auto, using(crate::proofs::Integers::integer_read))]
pub(crate) fn read_i32(text: &str) -> Option<i32>
    ensures { result ≡ integer_of (2 ^ 31) text.now }
{
    text.parse::<i32>().ok()
}

/// Returns the 64-bit integer that the text writes, if it does.
#[tactic(auto, using(crate::proofs::Integers::integer_read))]
pub(crate) fn read_i64(text: &str) -> Option<i64>
    ensures { result ≡ integer_of (2 ^ 63) text.now }
{
    text.parse::<i64>().ok()
}

/// Returns the number below 2^32 that the text writes, if it does.
#[tactic(auto, using(crate::proofs::Integers::unsigned_read))]
pub(crate) fn read_u32(text: &str) -> Option<u32>
    ensures { result ≡ unsigned_of text.now }
{
    text.parse::<u32>().ok()
}

/// Returns the double nearest to the number that the text writes, if it is finite.
pub(crate) fn read_finite(text: &str) -> Option<f64>
    ensures { result ≡ finite_of text.now }
{
    let number: f64 = fast_float::parse(text).ok()?;
    if number.is_finite() {
        Some(number)
    } else {
        None
    }
}

/// Returns the double that the text names or writes, if it does.
pub(crate) fn read_double(text: &str) -> Option<f64>
    ensures { result ≡ double_of_text text.now }
{
    match text {
        "NaN" => Some(f64::NAN),
        "Infinity" => Some(f64::INFINITY),
        "-Infinity" => Some(f64::NEG_INFINITY),
        _ => read_finite(text),
    }
}
