//! The numbers of doubles (bsonspec.org, version 1.1: `double`).

ghost use Rattle.std.specs.Prelude.{◌≡◌, ◌<◌, ℕ, false, is_nan, length};
ghost use Rattle.std.specs.Float.{Float};
ghost use Rattle.bson_elem.specs.{IsBytes};
ghost use Rattle.bson_raw.specs.Doubles.{double_bytes, double_of};

/// The bits of infinity. Without the sign, the bits of a NaN are greater, and those of all other
/// numbers are not.
const INFINITY: u64 = 0x7ff0_0000_0000_0000;

/// The bits of the quiet NaN without a payload.
const QUIET_NAN: u64 = 0x7ff8_0000_0000_0000;

/// Returns the number that the bytes of a double stand for: for each NaN, `f64::NAN`.
pub fn double_from_bytes(bytes: [u8; 8]) -> f64
    ensures { result ≡ double_of bytes }
{
    let bits = u64::from_le_bytes(bytes);
    if bits % (1 << 63) > INFINITY {
        f64::NAN
    } else {
        f64::from_bits(bits)
    }
}

/// Returns the bytes of a number as a double. For NaN they are those of the quiet NaN without a
/// payload.
pub fn double_to_bytes(number: f64) -> [u8; 8]
    ensures { result ≡ double_bytes number }
{
    let bits = if number.is_nan() {
        QUIET_NAN
    } else {
        number.to_bits()
    };
    bits.to_le_bytes()
}
