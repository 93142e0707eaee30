//! Numbers of doubles: rows of the drivers' BSON corpus (double.json), and a NaN's bytes.

use bson_raw::{RawBson, double_from_bytes, double_to_bytes};

/// The bytes of a double, the lowest first, and its number.
const ROWS: [([u8; 8], f64); 8] = [
    ([0, 0, 0, 0, 0, 0, 0xf0, 0x3f], 1.0),
    ([0, 0, 0, 0, 0, 0, 0xf0, 0xbf], -1.0),
    ([0, 0, 0, 0, 0x80, 0, 0xf0, 0x3f], 1.0001220703125),
    (
        [0x2a, 0x1b, 0xf5, 0xf4, 0x10, 0x22, 0xb1, 0x43],
        1.2345678921232e18,
    ),
    ([0, 0, 0, 0, 0, 0, 0, 0], 0.0),
    ([0, 0, 0, 0, 0, 0, 0, 0x80], -0.0),
    ([0, 0, 0, 0, 0, 0, 0xf0, 0x7f], f64::INFINITY),
    ([0, 0, 0, 0, 0, 0, 0xf0, 0xff], f64::NEG_INFINITY),
];

/// The bytes of the quiet NaN without a payload.
const NAN: [u8; 8] = [0, 0, 0, 0, 0, 0, 0xf8, 0x7f];

/// The bytes of a NaN with a payload.
const NAN_WITH_PAYLOAD: [u8; 8] = [0x12, 0, 0, 0, 0, 0, 0xf8, 0x7f];

fn is_of(bytes: [u8; 8], number: f64) -> bool {
    double_from_bytes(bytes) == number
        && double_to_bytes(number) == bytes
        && RawBson::from(number) == RawBson::Double(bytes)
        && RawBson::Double(bytes).as_f64() == Some(number)
}

#[test]
fn bytes_have_their_numbers(rt: HostRuntime) {
    for (bytes, number) in ROWS {
        assert!(rt; is_of(bytes, number), "{bytes:?}");
    }
}

#[test]
fn each_nan_is_one_number(rt: HostRuntime) {
    for bytes in [NAN, NAN_WITH_PAYLOAD] {
        assert!(rt; double_from_bytes(bytes).is_nan());
    }
    assert!(rt; double_to_bytes(f64::NAN) == NAN);
    assert!(rt; RawBson::Int64(1).as_f64() == None);
}
