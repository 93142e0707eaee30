//! Tests of messages and their faults, by rows that were worked out by hand from the Wire Protocol
//! manual, and of the texts of faults.

ghost use Rattle.std.specs.Prelude.{◌<◌};

use bson_elem::{BsonCause, BsonFault};
use bson_raw::RawBson;
use bson_raw_tests::hex_bytes::read_digits;
use std::alloc::{AllocError, Global};
use wire_msg::{Documents, MsgCause, MsgFault, MsgHeader, Payload, RawMsg};

/// The greatest limit of a message's bytes.
pub(crate) const LIMIT: u32 = 48_000_000;

/// Request 1, `{"ping": 1, "$db": "admin"}`, of 51 bytes.
pub(crate) const PING: &str = "33000000 01000000 00000000 dd070000 00000000 \
    00 1e000000 1070696e670001000000 02246462000600000061646d696e00 00";

/// Request 2, an insert of 69 bytes, its documents before its body.
pub(crate) const INSERT: &str = "45000000 02000000 00000000 dd070000 00000000 \
    01 1c000000 646f63756d656e747300 0e000000 105f69640001000000 00 \
    00 13000000 02696e73657274000200000063 00 00";

/// Returns true if `parse` and `parse_with` return the same for `bytes`.
pub(crate) fn both_tell(alloc: Global, bytes: &[u8]) -> bool {
    RawMsg::parse(bytes, LIMIT) == RawMsg::parse_with(alloc, bytes, LIMIT)
}

/// Returns true if the fault displays as this line.
fn is_shown(alloc: Global, fault: MsgFault, line: &str) -> bool {
    match format!(in alloc; "{fault}") {
        Ok(shown) => shown.as_str() == line,
        Err(_) => false,
    }
}

const INNER: BsonFault = BsonFault {
    at: 4,
    cause: BsonCause::Boolean,
};

const CAUSES: [(MsgCause, &str); 13] = [
    (MsgCause::Length, "fault 1 Length at 0"),
    (MsgCause::Opcode(-2004), "fault 2 Opcode -2004 at 0"),
    (MsgCause::Flags, "fault 3 Flags at 0"),
    (MsgCause::Checksum, "fault 4 Checksum at 0"),
    (MsgCause::SectionKind, "fault 5 SectionKind at 0"),
    (MsgCause::SectionSize, "fault 6 SectionSize at 0"),
    (
        MsgCause::Document(INNER),
        "fault 7 Document at 0: 8 Boolean at 4",
    ),
    (MsgCause::NoBody, "fault 8 NoBody at 0"),
    (MsgCause::TwoBodies, "fault 9 TwoBodies at 0"),
    (MsgCause::RepeatedField, "fault 10 RepeatedField at 0"),
    (MsgCause::SequenceName, "fault 11 SequenceName at 0"),
    (MsgCause::SequenceInBody, "fault 12 SequenceInBody at 0"),
    (MsgCause::Truncated, "fault 13 Truncated at 0"),
];

#[test]
fn a_fault_displays_as_its_line(rt: HostRuntime) {
    for (cause, line) in &CAUSES {
        let fault = MsgFault {
            at: 0,
            cause: *cause,
        };
        assert!(rt; is_shown(rt.alloc(), fault, line), "{line}");
    }
}

/// Returns true if the message and its body are those of `PING`.
fn is_ping(msg: RawMsg<'_>, bytes: &[u8]) -> bool {
    msg.id() == 1
        && msg.response_to() == 0
        && !msg.more_to_come()
        && !msg.exhaust_allowed()
        && msg.as_bytes() == bytes
}

/// Returns true if the payload is that of `PING`.
fn is_ping_payload(payload: Payload<'_>) -> bool {
    payload.body().get("ping") == Some(RawBson::Int32(1))
        && payload.body().get("$db") == Some(RawBson::String("admin"))
        && payload.sequences().next().is_none()
        && payload.msg_len() == 51
}

/// Returns true if `PING` is read.
fn reads_ping(alloc: Global) -> bool {
    let Ok(bytes) = read_digits(alloc, PING) else {
        return false;
    };
    match RawMsg::parse(&bytes, LIMIT) {
        Ok(msg) => is_ping(msg, &bytes) && is_ping_payload(msg.payload()),
        Err(_) => false,
    }
}

#[test]
fn a_ping(rt: HostRuntime) {
    assert!(rt; reads_ping(rt.alloc()));
}

/// Returns true if the documents are the one of `INSERT`.
fn are_inserted(documents: Documents<'_>) -> bool {
    let mut documents = documents.iter();
    match documents.next() {
        Some(document) => {
            document.get("_id") == Some(RawBson::Int32(1)) && documents.next().is_none()
        }
        None => false,
    }
}

/// Returns true if the payload is that of `INSERT`.
fn is_insert(payload: Payload<'_>) -> bool {
    let mut sequences = payload.sequences();
    match sequences.next() {
        Some((identifier, documents)) => {
            identifier == "documents"
                && are_inserted(documents)
                && sequences.next().is_none()
                && payload.body().get("insert") == Some(RawBson::String("c"))
                && payload.msg_len() == 69
        }
        None => false,
    }
}

/// Returns true if `INSERT` is read.
fn reads_insert(alloc: Global) -> bool {
    let Ok(bytes) = read_digits(alloc, INSERT) else {
        return false;
    };
    match RawMsg::parse(&bytes, 69) {
        Ok(msg) => msg.id() == 2 && is_insert(msg.payload()),
        Err(_) => false,
    }
}

#[test]
fn a_sequence_before_the_body(rt: HostRuntime) {
    assert!(rt; reads_insert(rt.alloc()));
}

/// Returns true if the check of the header gives this line, which is "good" if there is no fault.
fn header_has_line(alloc: Global, header: MsgHeader, line: &str) -> bool {
    match header.check(LIMIT) {
        Ok(()) => line == "good",
        Err(fault) => is_shown(alloc, fault, line),
    }
}

/// Like `header_has_line`, for the header in these digits.
fn is_checked(alloc: Global, hex: &str, line: &str) -> bool {
    let Ok(bytes) = read_digits(alloc, hex) else {
        return false;
    };
    match bytes.split_first_chunk::<16>() {
        Some((chunk, _)) => header_has_line(alloc, MsgHeader::read(*chunk), line),
        None => false,
    }
}

const HEADERS: [(&str, &str); 7] = [
    ("006cdc02 01000000 00000000 dd070000", "good"),
    ("016cdc02 01000000 00000000 dd070000", "fault 1 Length at 0"),
    ("ffffffff 01000000 00000000 dd070000", "fault 1 Length at 0"),
    ("0f000000 01000000 00000000 dd070000", "fault 1 Length at 0"),
    (
        "33000000 01000000 00000000 d4070000",
        "fault 2 Opcode 2004 at 12",
    ),
    (
        "10000000 ffffffff feffffff ffffffff",
        "fault 2 Opcode -1 at 12",
    ),
    ("0f000000 01000000 00000000 d4070000", "fault 1 Length at 0"),
];

#[test]
fn headers(rt: HostRuntime) {
    for (hex, line) in &HEADERS {
        assert!(rt; is_checked(rt.alloc(), hex, line), "{hex}");
    }
    let header = MsgHeader::read(*b"\x10\0\0\0\xff\xff\xff\xff\xfe\xff\xff\xff\xdd\x07\0\0");
    let read = MsgHeader {
        length: 16,
        id: -1,
        response_to: -2,
        opcode: 2013,
    };
    assert!(rt; header == read);
}

/// Returns true if the bytes are a message and `line` is "good", or they are refused with this
/// line, by `parse` and by `parse_with`.
fn bytes_have_line(alloc: Global, bytes: &[u8], line: &str) -> bool {
    match RawMsg::parse(bytes, LIMIT) {
        Ok(_) => line == "good" && both_tell(alloc, bytes),
        Err(fault) => is_shown(alloc, fault, line) && both_tell(alloc, bytes),
    }
}

/// Like `bytes_have_line`, for the bytes of these digits.
fn has_line(alloc: Global, hex: &str, line: &str) -> bool {
    match read_digits(alloc, hex) {
        Ok(bytes) => bytes_have_line(alloc, &bytes, line),
        Err(_) => false,
    }
}

/// Like `bytes_have_line`, for a message of request 1 with these flag bits and sections.
fn rest_has_line(alloc: Global, len: &str, rest: &str, line: &str) -> bool {
    match format!(in alloc; "{len} 01000000 00000000 dd070000 {rest}") {
        Ok(hex) => has_line(alloc, hex.as_str(), line),
        Err(_) => false,
    }
}

const FAULTS: [(&str, &str, &str); 17] = [
    ("1a000000", "00000000 00 0500000000", "good"),
    ("0f000000", "", "fault 1 Length at 0"),
    ("13000000", "000000", "fault 13 Truncated at 16"),
    ("14000000", "00000000", "fault 8 NoBody at 20"),
    (
        "1a000000",
        "00000000 02 0500000000",
        "fault 5 SectionKind at 20",
    ),
    (
        "19000000",
        "00000000 01 04000000",
        "fault 6 SectionSize at 20",
    ),
    (
        "1a000000",
        "00000000 00 0500000001",
        "fault 7 Document at 21: 3 End at 0",
    ),
    (
        "20000000",
        "00000000 00 0500000000 00 0500000000",
        "fault 9 TwoBodies at 26",
    ),
    (
        "28000000",
        "00000000 00 13000000 10610001000000 10610002000000 00",
        "fault 10 RepeatedField at 20",
    ),
    (
        "1b000000",
        "00000000 01 06000000 6161",
        "fault 11 SequenceName at 20",
    ),
    (
        "28000000",
        "00000000 00 0c000000 10610001000000 00 01 06000000 6100",
        "fault 12 SequenceInBody at 33",
    ),
    (
        "1b000000",
        "00000000 01 06000000 ff00",
        "fault 11 SequenceName at 20",
    ),
    (
        "18000000",
        "00000000 01 050000",
        "fault 6 SectionSize at 20",
    ),
    (
        "1a000000",
        "00000000 01 0600000000",
        "fault 6 SectionSize at 20",
    ),
    (
        "1a000000",
        "00000000 01 ffffffff00",
        "fault 6 SectionSize at 20",
    ),
    (
        "1f000000",
        "00000000 01 0a000000 00 0400000000",
        "fault 7 Document at 26: 2 Length at 0",
    ),
    (
        "24000000",
        "00000000 01 0f000000 00 0500000000 0500000002",
        "fault 7 Document at 31: 3 End at 0",
    ),
];

#[test]
fn one_fault_each(rt: HostRuntime) {
    for (len, rest, line) in &FAULTS {
        assert!(rt; rest_has_line(rt.alloc(), len, rest, line), "{len} {rest}");
    }
}

const WHOLE: [(&str, &str); 5] = [
    // the opcode comes before a length unlike the bytes
    (
        "33000000 01000000 00000000 d4070000 00",
        "fault 2 Opcode 2004 at 12",
    ),
    // a length unlike the bytes comes before missing flags, and before unknown ones
    (
        "13000000 01000000 00000000 dd070000 0400",
        "fault 1 Length at 0",
    ),
    (
        "14000000 01000000 00000000 dd070000 04000000 02",
        "fault 1 Length at 0",
    ),
    // nothing is read of fewer than 16 bytes
    ("0f000000 01000000 00000000 d40700", "fault 1 Length at 0"),
    ("", "fault 1 Length at 0"),
];

const TWO_FAULTS: [(&str, &str, &str); 16] = [
    // an unknown flag comes before the checksum, and either comes before the sections
    ("14000000", "05000000", "fault 3 Flags at 16"),
    ("15000000", "04000000 02", "fault 3 Flags at 16"),
    ("15000000", "01000000 02", "fault 4 Checksum at 16"),
    // the sections in their order
    ("16000000", "00000000 02 03", "fault 5 SectionKind at 20"),
    (
        "1b000000",
        "00000000 00 0500000000 02",
        "fault 5 SectionKind at 26",
    ),
    (
        "21000000",
        "00000000 00 0500000000 00 0500000000 02",
        "fault 9 TwoBodies at 26",
    ),
    (
        "20000000",
        "00000000 00 0500000000 00 0500000001",
        "fault 9 TwoBodies at 26",
    ),
    (
        "1b000000",
        "00000000 01 05000000 61 02",
        "fault 11 SequenceName at 20",
    ),
    (
        "1f000000",
        "00000000 01 04000000 00 0500000001",
        "fault 6 SectionSize at 20",
    ),
    (
        "20000000",
        "00000000 01 0b000000 ff00 0500000001",
        "fault 11 SequenceName at 20",
    ),
    // a fault of a section comes before a missing body
    ("15000000", "00000000 02", "fault 5 SectionKind at 20"),
    (
        "1a000000",
        "00000000 01 05000000 00",
        "fault 8 NoBody at 26",
    ),
    // sections come before names
    (
        "29000000",
        "00000000 00 13000000 10610001000000 10610002000000 00 02",
        "fault 5 SectionKind at 40",
    ),
    (
        "2e000000",
        "00000000 00 13000000 10610001000000 10610002000000 00 00 0500000000",
        "fault 9 TwoBodies at 40",
    ),
    // a repeated name of the body comes before an identifier, and the first identifier before
    // others
    (
        "2f000000",
        "00000000 01 06000000 6100 00 13000000 10610001000000 10610002000000 00",
        "fault 10 RepeatedField at 27",
    ),
    (
        "2f000000",
        "00000000 01 06000000 6100 00 0c000000 10610001000000 00 01 06000000 6100",
        "fault 12 SequenceInBody at 20",
    ),
];

#[test]
fn the_first_of_two_faults_is_told(rt: HostRuntime) {
    for (hex, line) in &WHOLE {
        assert!(rt; has_line(rt.alloc(), hex, line), "{hex}");
    }
    for (len, rest, line) in &TWO_FAULTS {
        assert!(rt; rest_has_line(rt.alloc(), len, rest, line), "{len} {rest}");
    }
}

/// Returns true if `PING` with this bit alone among its flags is read or refused as the manual
/// says.
fn bytes_have_flag(bytes: &[u8], bit: u32) -> bool {
    match RawMsg::parse(bytes, LIMIT) {
        Ok(msg) => {
            (bit == 1 || bit >= 16)
                && msg.more_to_come() == (bit == 1)
                && msg.exhaust_allowed() == (bit == 16)
        }
        Err(fault) => {
            let cause = if bit == 0 {
                MsgCause::Checksum
            } else {
                MsgCause::Flags
            };
            bit != 1 && bit < 16 && fault == MsgFault { at: 16, cause }
        }
    }
}

/// Sets this bit among the flags of a message.
fn set_flag(bytes: &mut [u8], bit: u32)
    requires { bit < 32 }
{
    let word: u32 = 1 << bit;
    let byte = word.to_le_bytes()[(bit / 8) as usize];
    if let Some(slot) = bytes.get_mut(16 + (bit / 8) as usize) {
        *slot = byte;
    }
}

/// Like `bytes_have_flag`, for the bytes of `PING`.
fn has_flag(alloc: Global, bit: u32) -> bool
    requires { bit < 32 }
{
    match read_digits(alloc, PING) {
        Ok(mut bytes) => {
            set_flag(&mut bytes, bit);
            bytes_have_flag(&bytes, bit)
        }
        Err(_) => false,
    }
}

#[test]
fn each_flag_bit(rt: HostRuntime) {
    for bit in 0..32u32 {
        assert!(rt; has_flag(rt.alloc(), bit), "bit {bit}");
    }
}

/// Returns true if the sequence has this identifier and this number of documents.
fn is_sequence(sequence: Option<(&str, Documents<'_>)>, wanted: (&str, usize)) -> bool {
    match sequence {
        Some((identifier, documents)) => {
            identifier == wanted.0 && documents.iter().count() == wanted.1
        }
        None => false,
    }
}

/// Returns true if the sequences are these two, in order.
fn are_two(payload: Payload<'_>, first: (&str, usize), second: (&str, usize)) -> bool {
    let mut sequences = payload.sequences();
    is_sequence(sequences.next(), first)
        && is_sequence(sequences.next(), second)
        && sequences.next().is_none()
}

/// Like `are_two`, for the message of these digits.
fn has_two(alloc: Global, hex: &str, first: (&str, usize), second: (&str, usize)) -> bool {
    let Ok(bytes) = read_digits(alloc, hex) else {
        return false;
    };
    match RawMsg::parse(&bytes, LIMIT) {
        Ok(msg) => are_two(msg.payload(), first, second),
        Err(_) => false,
    }
}

// The empty body, the sequence "a" of one document, and the sequence "" of none, in different
// orders.
const SEQUENCES: [(&str, (&str, usize), (&str, usize)); 4] = [
    (
        "2c000000 01000000 00000000 dd070000 00000000 \
        00 0500000000 01 0b000000 6100 0500000000 01 05000000 00",
        ("a", 1),
        ("", 0),
    ),
    (
        "2c000000 01000000 00000000 dd070000 00000000 \
        01 0b000000 6100 0500000000 00 0500000000 01 05000000 00",
        ("a", 1),
        ("", 0),
    ),
    (
        "2c000000 01000000 00000000 dd070000 00000000 \
        01 05000000 00 01 0b000000 6100 0500000000 00 0500000000",
        ("", 0),
        ("a", 1),
    ),
    (
        "32000000 01000000 00000000 dd070000 00000000 \
        01 0b000000 6100 0500000000 00 0500000000 01 0b000000 6100 0500000000",
        ("a", 1),
        ("a", 1),
    ),
];

#[test]
fn sequences_around_the_body(rt: HostRuntime) {
    for (hex, first, second) in &SEQUENCES {
        assert!(rt; has_two(rt.alloc(), hex, *first, *second), "{hex}");
    }
}

/// Appends an int32 field of value 0.
fn push_field(name: &str, bytes: &mut Vec<u8>) -> Result<(), AllocError> {
    bytes.push(0x10)?;
    bytes.extend_from_slice(name.as_bytes())?;
    bytes.extend_from_slice(&[0; 5])
}

/// Appends int32 fields whose names are "0" to "1998".
fn push_fields(alloc: Global, bytes: &mut Vec<u8>) -> Result<(), AllocError> {
    for index in 0..1999u32 {
        push_field(format!(in alloc; "{index}")?.as_str(), bytes)?;
    }
    Ok(())
}

/// Appends the fields "0" to "1998", one more, and the end of a document.
fn push_body(alloc: Global, last: &str, bytes: &mut Vec<u8>) -> Result<(), AllocError> {
    push_fields(alloc, bytes)?;
    push_field(last, bytes)?;
    bytes.push(0)?;
    Ok(())
}

/// Returns true if `parse_with` returns `fault`, or a message if that is `None`, for `bytes` and
/// 2,000 fields after them, the last of which is named `last`.
fn many_are_told(alloc: Global, mut bytes: Vec<u8>, last: &str, fault: Option<MsgFault>) -> bool {
    if push_body(alloc, last, &mut bytes).is_err() {
        return false;
    }
    match RawMsg::parse_with(alloc, &bytes, LIMIT) {
        Ok(_) => fault.is_none(),
        Err(found) => fault == Some(found),
    }
}

/// Like `many_are_told`, for the bytes of the digits `head`.
fn fields_are_told(alloc: Global, head: &str, last: &str, fault: Option<MsgFault>) -> bool {
    match read_digits(alloc, head) {
        Ok(bytes) => many_are_told(alloc, bytes, last, fault),
        Err(_) => false,
    }
}

#[test]
fn two_thousand_fields(rt: HostRuntime) {
    let head = "e4490000 01000000 00000000 dd070000 00000000 00 cf490000";
    assert!(rt; fields_are_told(rt.alloc(), head, "1999", None));
}

#[test]
fn two_thousand_fields_the_last_named_as_the_first(rt: HostRuntime) {
    let head = "e1490000 01000000 00000000 dd070000 00000000 00 cc490000";
    let repeated = MsgFault {
        at: 20,
        cause: MsgCause::RepeatedField,
    };
    assert!(rt; fields_are_told(rt.alloc(), head, "0", Some(repeated)));
}
