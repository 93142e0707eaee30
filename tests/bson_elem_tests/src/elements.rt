//! Tests of elements, kinds and texts, by rows that were worked out by hand from the standard
//! (bsonspec.org, version 1.1), and of the texts of faults.

ghost use Rattle.std.specs.Prelude.{◌<◌, length};

use bson_elem::{
    BsonCause, BsonFault, Element, Item, Kind, read_cstring, read_element, read_string,
    reread_element,
};
use std::alloc::Global;

const CAUSES: [BsonCause; 11] = [
    BsonCause::Truncated,
    BsonCause::Length,
    BsonCause::End,
    BsonCause::Kind,
    BsonCause::Name,
    BsonCause::Text,
    BsonCause::TextEnd,
    BsonCause::Boolean,
    BsonCause::OldBinary,
    BsonCause::Scope,
    BsonCause::Depth,
];

/// Returns true if the cause displays as its name.
fn is_named(alloc: Global, cause: BsonCause) -> bool {
    match format!(in alloc; "{cause}") {
        Ok(shown) => shown.as_str() == cause.name(),
        Err(_) => false,
    }
}

/// Returns true if the fault displays as this line.
fn is_shown(alloc: Global, fault: BsonFault, line: &str) -> bool {
    match format!(in alloc; "{fault}") {
        Ok(shown) => shown.as_str() == line,
        Err(_) => false,
    }
}

const FAULT: BsonFault = BsonFault {
    at: 4,
    cause: BsonCause::Boolean,
};

#[test]
fn a_fault_displays_as_its_line(rt: HostRuntime) {
    for cause in &CAUSES {
        assert!(rt; is_named(rt.alloc(), *cause), "{cause}");
    }
    assert!(rt; is_shown(rt.alloc(), FAULT, "fault 8 Boolean at 4"));
}

/// Returns true if `byte` is the type byte of the kind that it is read as, or is that of no kind.
fn has_its_kind(byte: u8) -> bool {
    match Kind::from_byte(byte) {
        Some(kind) => kind.byte() == byte,
        None => byte == 0 || (byte > 0x13 && byte != 0x7f && byte != 0xff),
    }
}

#[test]
fn each_kind_has_its_byte(rt: HostRuntime) {
    for byte in 0..=255u8 {
        assert!(rt; has_its_kind(byte), "at {byte}");
    }
}

/// Returns true if the element at offset 4 is this one, when it is checked and when it is read
/// again.
fn is_read(document: &[u8], end: usize, element: Element<'_>) -> bool
    requires inside { 4 < end }
    requires whole { end < length document.now }
{
    match read_element(document, 0, 4, end, 1) {
        Ok(read) => read == element && reread_element(document, 4, end) == element,
        Err(_) => false,
    }
}

#[test]
fn reads_elements(rt: HostRuntime) {
    let document = b"\x16\x00\x00\x00\x02hello\x00\x06\x00\x00\x00world\x00\x00";
    let element = Element {
        name: "hello",
        value: Item::String("world"),
        next: 21,
    };
    assert!(rt; is_read(document, 21, element));
    let document = b"\x0c\x00\x00\x00\x10v\x00\x00\x00\x00\x80\x00";
    let element = Element {
        name: "v",
        value: Item::Int32(-2147483648),
        next: 11,
    };
    assert!(rt; is_read(document, 11, element));
}

/// Bytes, and the string that they begin with and the rest, or the check that fails.
const STRINGS: [(&[u8], Result<(&str, &[u8]), BsonCause>); 6] = [
    (b"\x02\x00\x00\x00a\x00rest", Ok(("a", b"rest"))),
    (b"\x00\x00\x00\x00", Err(BsonCause::Length)),
    (b"\xff\xff\xff\xff", Err(BsonCause::Length)),
    (b"\x02\x00\x00\x00a", Err(BsonCause::Truncated)),
    (b"\x03\x00\x00\x00\xc3\x28\x01", Err(BsonCause::Text)),
    (b"\x02\x00\x00\x00a\x01", Err(BsonCause::TextEnd)),
];

/// Bytes, and the cstring that they begin with and the rest, or the check that fails.
const CSTRINGS: [(&[u8], Result<(&str, &[u8]), BsonCause>); 3] = [
    (b"name\x00rest", Ok(("name", b"rest"))),
    (b"name", Err(BsonCause::Truncated)),
    (b"\xff\x00", Err(BsonCause::Name)),
];

#[test]
fn reads_texts(rt: HostRuntime) {
    for (bytes, wanted) in &STRINGS {
        assert!(rt; read_string(bytes) == *wanted, "at {bytes:?}");
    }
    for (bytes, wanted) in &CSTRINGS {
        assert!(rt; read_cstring(bytes) == *wanted, "at {bytes:?}");
    }
}
