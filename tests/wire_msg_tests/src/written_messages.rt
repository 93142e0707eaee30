//! Tests of messages that are written: rows that were worked out by hand from the manual, limits,
//! memory that runs out, and payloads in bytes of their own.

use crate::messages::{INSERT, LIMIT, PING};
use bson_raw::RawDocument;
use bson_raw_tests::hex_bytes::read_digits;
use std::alloc::Global;
use wire_msg::{MsgFlags, MsgRefusal, Payload, PayloadBuf, RawMsg, write_msg};

/// `INSERT` with its body first.
pub(crate) const BODY_FIRST: &str = "45000000 02000000 00000000 dd070000 00000000 \
    00 13000000 02696e73657274000200000063 00 00 \
    01 1c000000 646f63756d656e747300 0e000000 105f69640001000000 00";

/// Writes the message again after the bytes of `out`.
fn write_again(out: &mut Vec<u8>, msg: RawMsg<'_>, limit: u32) -> Result<(), MsgRefusal> {
    write_msg(
        out,
        msg.id(),
        msg.response_to(),
        msg.flags(),
        msg.payload(),
        limit,
    )
}

/// Returns true if the message is written again as these bytes.
fn writes(alloc: Global, msg: RawMsg<'_>, wanted: &[u8]) -> bool {
    let mut out = Vec::new(alloc);
    write_again(&mut out, msg, LIMIT).is_ok() && out.as_slice() == wanted
}

/// Like `writes`, for the message of these digits.
fn digits_are_written_as(alloc: Global, hex: &str, wanted: &[u8]) -> bool {
    let Ok(bytes) = read_digits(alloc, hex) else {
        return false;
    };
    match RawMsg::parse(&bytes, LIMIT) {
        Ok(msg) => writes(alloc, msg, wanted),
        Err(_) => false,
    }
}

/// Returns true if the message of the digits `hex` is written again as the digits `written` spell.
fn is_written_as(alloc: Global, hex: &str, written: &str) -> bool {
    match read_digits(alloc, written) {
        Ok(wanted) => digits_are_written_as(alloc, hex, &wanted),
        Err(_) => false,
    }
}

const ROWS: [(&str, &str); 10] = [
    (INSERT, BODY_FIRST),
    (BODY_FIRST, BODY_FIRST),
    (PING, PING),
    (
        "1a000000 ffffffff feffffff dd070000 00000000 00 0500000000",
        "1a000000 ffffffff feffffff dd070000 00000000 00 0500000000",
    ),
    (
        "1a000000 ffffffff feffffff dd070000 02000000 00 0500000000",
        "1a000000 ffffffff feffffff dd070000 02000000 00 0500000000",
    ),
    (
        "1a000000 ffffffff feffffff dd070000 00000100 00 0500000000",
        "1a000000 ffffffff feffffff dd070000 00000100 00 0500000000",
    ),
    (
        "1a000000 ffffffff feffffff dd070000 02000100 00 0500000000",
        "1a000000 ffffffff feffffff dd070000 02000100 00 0500000000",
    ),
    (
        "1a000000 ffffffff feffffff dd070000 00000200 00 0500000000",
        "1a000000 ffffffff feffffff dd070000 00000000 00 0500000000",
    ),
    (
        "1a000000 ffffffff feffffff dd070000 0200feff 00 0500000000",
        "1a000000 ffffffff feffffff dd070000 02000000 00 0500000000",
    ),
    (
        "1a000000 ffffffff feffffff dd070000 0200ffff 00 0500000000",
        "1a000000 ffffffff feffffff dd070000 02000100 00 0500000000",
    ),
];

#[test]
fn messages_are_written_canonically(rt: HostRuntime) {
    for (hex, written) in &ROWS {
        assert!(rt; is_written_as(rt.alloc(), hex, written), "{hex}");
    }
}

/// Returns true if appending the message to two bytes is refused as too large, and the two bytes
/// stay.
fn is_too_large(out: &mut Vec<u8>, msg: RawMsg<'_>, limit: u32) -> bool {
    write_again(out, msg, limit) == Err(MsgRefusal::TooLarge)
        && out.as_slice() == b"\xaa\xbb".as_slice()
}

/// Returns true if the message is appended to two bytes, or memory runs out and they stay.
fn is_written_behind(out: &mut Vec<u8>, msg: RawMsg<'_>, limit: u32, wanted: &[u8]) -> bool {
    match write_again(out, msg, limit) {
        Ok(()) => out.as_slice() == wanted,
        Err(refusal) => {
            refusal == MsgRefusal::OutOfMemory && out.as_slice() == b"\xaa\xbb".as_slice()
        }
    }
}

/// Returns true if the message of 69 bytes isn't appended to two bytes under a limit of 68, and is
/// under a limit of 69.
fn adds_all_or_nothing(alloc: Global, msg: RawMsg<'_>, wanted: &[u8]) -> bool {
    match Vec::from_slice(alloc, b"\xaa\xbb") {
        Ok(mut out) => {
            // `TooLarge` takes no memory, and comes before `OutOfMemory`
            is_too_large(&mut out, msg, 68) && is_written_behind(&mut out, msg, 69, wanted)
        }
        Err(_) => false,
    }
}

/// Like `adds_all_or_nothing`, for `INSERT`.
fn insert_adds_all_or_nothing(alloc: Global, wanted: &[u8]) -> bool {
    let Ok(bytes) = read_digits(alloc, INSERT) else {
        return false;
    };
    match RawMsg::parse(&bytes, LIMIT) {
        Ok(msg) => adds_all_or_nothing(alloc, msg, wanted),
        Err(_) => false,
    }
}

/// Two bytes, and then `BODY_FIRST`.
const BEHIND: &str = "aabb 45000000 02000000 00000000 dd070000 00000000 \
    00 13000000 02696e73657274000200000063 00 00 \
    01 1c000000 646f63756d656e747300 0e000000 105f69640001000000 00";

/// Returns true if two bytes to which `INSERT` is appended are then those of `BEHIND`, and stay if
/// it is refused.
fn writes_behind(alloc: Global) -> bool {
    match read_digits(alloc, BEHIND) {
        Ok(wanted) => insert_adds_all_or_nothing(alloc, &wanted),
        Err(_) => false,
    }
}

#[test]
fn a_refusal_adds_nothing(rt: HostRuntime) {
    assert!(rt; writes_behind(rt.alloc()));
}

/// Returns true if the payload's message of request 2 is written as these bytes.
fn payload_writes(alloc: Global, payload: Payload<'_>, wanted: &[u8]) -> bool {
    let mut out = Vec::new(alloc);
    write_msg(&mut out, 2, 0, MsgFlags::NONE, payload, LIMIT).is_ok() && out.as_slice() == wanted
}

/// Like `payload_writes`, for a copy of the payload.
fn copy_writes(alloc: Global, payload: Payload<'_>, wanted: &[u8]) -> bool {
    match payload.to_buf(alloc) {
        Ok(copy) => payload_writes(alloc, copy.as_payload(), wanted),
        Err(_) => false,
    }
}

/// Like `copy_writes`, for the payload of the message in these digits.
fn digits_copy_writes(alloc: Global, hex: &str, wanted: &[u8]) -> bool {
    let Ok(bytes) = read_digits(alloc, hex) else {
        return false;
    };
    match RawMsg::parse(&bytes, LIMIT) {
        Ok(msg) => copy_writes(alloc, msg.payload(), wanted),
        Err(_) => false,
    }
}

/// Returns true if a copy of the payload of the digits `hex` is written as the digits `written`
/// spell.
fn copy_is_written_as(alloc: Global, hex: &str, written: &str) -> bool {
    match read_digits(alloc, written) {
        Ok(wanted) => digits_copy_writes(alloc, hex, &wanted),
        Err(_) => false,
    }
}

/// Returns true if a payload of this body alone has no sequence, and its message has 26 bytes.
fn stands_alone(alloc: Global, body: RawDocument<'_>) -> bool {
    match PayloadBuf::new(alloc, body) {
        Ok(alone) => {
            alone.as_payload().msg_len() == 26 && alone.as_payload().sequences().next().is_none()
        }
        Err(_) => false,
    }
}

/// Returns true if no payload is made of this body, since it repeats a name.
fn is_repeating(alloc: Global, body: RawDocument<'_>) -> bool {
    match PayloadBuf::new(alloc, body) {
        Ok(_) => false,
        Err(refusal) => refusal == MsgRefusal::RepeatedField,
    }
}

/// A document of two numbers under the name "a".
const REPEATED: &[u8] = b"\x13\0\0\0\x10a\0\x01\0\0\0\x10a\0\x02\0\0\0\0";

#[test]
fn a_payload_of_its_own(rt: HostRuntime) {
    assert!(rt; copy_is_written_as(rt.alloc(), INSERT, BODY_FIRST));
    let (Ok(empty), Ok(repeated)) = (
        RawDocument::from_bytes(b"\x05\0\0\0\0"),
        RawDocument::from_bytes(REPEATED),
    ) else {
        assert!(rt; false);
        return;
    };
    assert!(rt; stands_alone(rt.alloc(), empty));
    assert!(rt; is_repeating(rt.alloc(), repeated));
}
