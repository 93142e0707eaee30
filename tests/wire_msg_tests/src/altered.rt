//! The least message, with each byte replaced by each of the 255 other values.

use wire_msg::{MAX_MESSAGE_LEN, RawMsg};

/// Request 1 with the empty document as its body.
const LEAST: [u8; 26] = *b"\x1a\0\0\0\x01\0\0\0\0\0\0\0\xdd\x07\0\0\0\0\0\0\0\x05\0\0\0\0";

/// A number that no fault has.
const OTHER: u8 = 255;

/// Returns the number of the fault that `parse` finds, or 0 if it returns a message of these bytes,
/// or else `OTHER`.
fn message_fault(bytes: &[u8]) -> u8 {
    match RawMsg::parse(bytes, MAX_MESSAGE_LEN) {
        Ok(message) if message.as_bytes() == bytes => 0,
        Err(fault) => fault.cause.number(),
        _ => OTHER,
    }
}

/// Returns how many of the altered messages have the fault with this number.
fn messages_with(number: u8) -> usize {
    let mut count = 0usize;
    for at in 0..26 {
        for value in 0..=255u8 {
            let mut bytes = LEAST;
            bytes[at] = value;
            if bytes != LEAST && message_fault(&bytes) == number {
                count = count.wrapping_add(1);
            }
        }
    }
    count
}

/// The number of a fault, or 0 for none, and how often it occurs: 6,630 in all.
const COUNTS: [(u8, usize); 8] = [
    (0, 2551),
    (1, 1020),
    (2, 1020),
    (3, 507),
    (4, 2),
    (5, 254),
    (7, 1275),
    (8, 1),
];

#[test]
fn the_least_message_is_altered(rt: HostRuntime) {
    for (number, count) in &COUNTS {
        assert!(rt; messages_with(*number) == *count, "{number}");
    }
}
