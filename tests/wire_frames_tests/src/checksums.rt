//! Check values of CRC-32C, and messages with a checksum.

use crate::frames::{LIMIT, PING, QUERY};
use wire_frames::{Checksum, FrameFront, RawFrame, crc32c};

/// The check value of the catalogue of parametrised CRC algorithms, and the examples of RFC 3720,
/// appendix B.4: 32 bytes of 0, of 255, from 0 up and from 31 down, and a command of SCSI.
const VALUES: [(&[u8], u32); 7] = [
    (b"", 0),
    (b"123456789", 0xe306_9283),
    (&[0; 32], 0x8a91_36aa),
    (&[0xff; 32], 0x62a8_ab43),
    (
        b"\x00\x01\x02\x03\x04\x05\x06\x07\x08\x09\x0a\x0b\x0c\x0d\x0e\x0f\
        \x10\x11\x12\x13\x14\x15\x16\x17\x18\x19\x1a\x1b\x1c\x1d\x1e\x1f",
        0x46dd_794e,
    ),
    (
        b"\x1f\x1e\x1d\x1c\x1b\x1a\x19\x18\x17\x16\x15\x14\x13\x12\x11\x10\
        \x0f\x0e\x0d\x0c\x0b\x0a\x09\x08\x07\x06\x05\x04\x03\x02\x01\x00",
        0x113f_db5c,
    ),
    (
        b"\x01\xc0\0\0\0\0\0\0\0\0\0\0\0\0\0\0\x14\0\0\0\0\0\x04\0\0\0\0\x14\0\0\0\x18\
        \x28\0\0\0\0\0\0\0\x02\0\0\0\0\0\0\0",
        0xd996_3a56,
    ),
];

/// `PING` as request 4, with checksumPresent and a checksum, which crcmod computed.
const CHECKED: &[u8; 55] = b"7\0\0\0\x04\0\0\0\0\0\0\0\xdd\x07\0\0\x01\0\0\0\0\
    \x1e\0\0\0\x10ping\0\x01\0\0\0\x02$db\0\x06\0\0\0admin\0\0\xef\x12\xad\xde";

/// An OP_MSG with checksumPresent that ends with its flags, and three bytes after them.
const SHORT: [&[u8]; 2] = [
    b"\x14\0\0\0\x04\0\0\0\0\0\0\0\xdd\x07\0\0\x01\0\0\0",
    b"\x17\0\0\0\x04\0\0\0\0\0\0\0\xdd\x07\0\0\x01\0\0\0\0\0\0",
];

/// Frames without the flag: a message and a query without a checksum, an OP_MSG that ends behind its
/// header, and one whose flags are cut.
const UNCHECKED: [&[u8]; 4] = [
    PING,
    QUERY,
    b"\x10\0\0\0\x04\0\0\0\0\0\0\0\xdd\x07\0\0",
    b"\x13\0\0\0\x04\0\0\0\0\0\0\0\xdd\x07\0\0\x01\0\0",
];

/// Returns what the bytes of a frame say of its checksum.
fn checksum_of(bytes: &[u8]) -> Option<Checksum> {
    match RawFrame::front(bytes, LIMIT) {
        FrameFront::Whole { frame, .. } => Some(frame.checksum()),
        _ => None,
    }
}

/// Returns true if each of these frames says this of its checksum.
fn all_say(frames: &[&[u8]], checksum: Checksum) -> bool {
    for bytes in frames {
        if checksum_of(bytes) != Some(checksum) {
            return false;
        }
    }
    true
}

/// Returns what `CHECKED` says of its checksum once these bits of the byte at `at` are turned.
fn turned(at: usize, bits: u8) -> Option<Checksum> {
    let mut bytes = *CHECKED;
    *bytes.get_mut(at)? ^= bits;
    checksum_of(&bytes)
}

#[test]
fn check_values_are_those_of_the_standard(rt: HostRuntime) {
    for (bytes, value) in &VALUES {
        assert!(rt; crc32c(bytes) == *value, "{value}");
    }
}

#[test]
fn a_checksum_is_right_or_wrong(rt: HostRuntime) {
    assert!(rt; all_say(&[CHECKED], Checksum::Right));
    assert!(rt; all_say(&SHORT, Checksum::Wrong));
    // a bit of the id, of the flags, of the body and of the checksum
    for at in &[4, 19, 40, 51, 54] {
        assert!(rt; turned(*at, 0x40) == Some(Checksum::Wrong), "{at}");
    }
}

#[test]
fn other_frames_have_none(rt: HostRuntime) {
    assert!(rt; all_say(&UNCHECKED, Checksum::Absent));
    // the opCode of a query
    assert!(rt; turned(12, 0xdd ^ 0xd4) == Some(Checksum::Absent));
}
