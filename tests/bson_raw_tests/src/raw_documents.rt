//! Documents and faults by their bytes (bsonspec.org, version 1.1).

ghost use Rattle.std.specs.Prelude.{◌≤◌};

use crate::each_kind::{EACH_KIND, VALUES};
use crate::hex_bytes::read_digits;
use bson_elem::{BsonCause, Kind};
use bson_raw::{RawBson, RawDocument};
use std::alloc::Global;

/// Returns true if `from_bytes` takes the bytes as a document whose value named "v" is this one.
fn is_whole(bytes: &[u8], value: RawBson<'_>) -> bool {
    match RawDocument::from_bytes(bytes) {
        Ok(document) => document.as_bytes() == bytes && document.get("v") == Some(value),
        Err(_) => false,
    }
}

/// Returns true if `front` takes the bytes as a document whose first value, named "v", is this one.
fn is_front(bytes: &[u8], value: RawBson<'_>) -> bool {
    match RawDocument::front(bytes) {
        Ok((document, rest)) => { document.iter().next() == Some(("v", value)) && rest.is_empty() }
        Err(_) => false,
    }
}

/// Returns true if both calls take the bytes of these digits as a document whose first value, named
/// "v", is this one.
fn is_seen(alloc: Global, hex: &str, value: RawBson<'_>) -> bool {
    match read_digits(alloc, hex) {
        Ok(bytes) => is_whole(&bytes, value) && is_front(&bytes, value),
        Err(_) => false,
    }
}

#[test]
fn values(rt: HostRuntime) {
    for i in 0..22 {
        assert!(rt; is_seen(rt.alloc(), EACH_KIND[i].0, VALUES[i]), "at {i}");
    }
}

/// Returns true if `from_bytes` refuses the bytes at this offset for this cause.
fn is_no_whole(bytes: &[u8], cause: BsonCause, at: usize) -> bool {
    match RawDocument::from_bytes(bytes) {
        Ok(_) => false,
        Err(fault) => fault.cause == cause && fault.at == at,
    }
}

/// Returns true if `front` refuses the bytes at this offset for this cause.
fn is_no_front(bytes: &[u8], cause: BsonCause, at: usize) -> bool {
    match RawDocument::front(bytes) {
        Ok(_) => false,
        Err(fault) => fault.cause == cause && fault.at == at,
    }
}

/// Returns true if both calls refuse the bytes of these digits at this offset for this cause.
fn is_refused(alloc: Global, hex: &str, cause: BsonCause, at: usize) -> bool {
    match read_digits(alloc, hex) {
        Ok(bytes) => is_no_whole(&bytes, cause, at) && is_no_front(&bytes, cause, at),
        Err(_) => false,
    }
}

const FAULTS: [(&str, BsonCause, usize); 23] = [
    ("", BsonCause::Truncated, 0),
    ("050000", BsonCause::Truncated, 0),
    ("04000000", BsonCause::Length, 0),
    ("0500000001", BsonCause::End, 0),
    ("06000000 00 00", BsonCause::End, 0),
    ("08000000 14 7600 00", BsonCause::Kind, 4),
    ("08000000 0a ff00 00", BsonCause::Name, 4),
    ("07000000 0a 76 00", BsonCause::Truncated, 4),
    ("0f000000 02 6100 03000000 c328 00 00", BsonCause::Text, 4),
    ("0e000000 02 6100 02000000 7878 00", BsonCause::TextEnd, 4),
    ("0d000000 03 6100 04000000 00 00", BsonCause::Length, 7),
    ("0d000000 03 6100 06000000 00 00", BsonCause::Truncated, 4),
    ("0d000000 03 6100 05000000 01 00", BsonCause::End, 7),
    (
        "13000000 05 6200 06000000 02 03000000 aabb 00",
        BsonCause::OldBinary,
        4,
    ),
    (
        "17000000 0f 6300 0e000000 02000000 7800 0500000000 00",
        BsonCause::Scope,
        4,
    ),
    ("09000000 08 7400 02 00", BsonCause::Boolean, 4),
    // A string of no bytes, not even its 0.
    ("0d000000 02 6100 00000000 00 00", BsonCause::Length, 4),
    // A binary of -1 bytes.
    ("0d000000 05 6200 ffffffff 00 00", BsonCause::Length, 4),
    // A code with scope that is too short for its parts, and one whose scope leaves a byte over.
    (
        "17000000 0f 6300 0d000000 02000000 7800 0500000000 00",
        BsonCause::Length,
        4,
    ),
    (
        "18000000 0f 6300 10000000 02000000 7800 0500000000 00 00",
        BsonCause::Scope,
        4,
    ),
    // A boolean of 2 in a scope whose code is "x", and in a document in an array.
    (
        "1b000000 0f 6300 13000000 02000000 7800 09000000 08 7400 02 00 00",
        BsonCause::Boolean,
        21,
    ),
    (
        "19000000 04 6100 11000000 03 3000 09000000 08 7400 02 00 00 00",
        BsonCause::Boolean,
        18,
    ),
    // The last byte of a document is tested before its elements are.
    (
        "11000000 03 6100 09000000 08 7400 02 01 00",
        BsonCause::End,
        7,
    ),
];

#[test]
fn faults(rt: HostRuntime) {
    for (hex, cause, at) in &FAULTS {
        assert!(rt; is_refused(rt.alloc(), hex, *cause, *at), "{hex}");
    }
}

// A length that isn't the number of the bytes is the first fault for `from_bytes`. For `front`
// there are too few bytes.
#[test]
fn lengths(rt: HostRuntime) {
    let bytes = b"\x06\x00\x00\x00\x00";
    assert!(rt; is_no_whole(bytes, BsonCause::Length, 0));
    assert!(rt; is_no_front(bytes, BsonCause::Truncated, 0));
}

/// Returns true if `front` takes an empty document from the bytes, and gives this rest back.
fn is_split(bytes: &[u8], wanted: &[u8]) -> bool {
    match RawDocument::front(bytes) {
        Ok((document, rest)) => document.as_bytes().len() == 5 && rest == wanted,
        Err(_) => false,
    }
}

#[test]
fn a_rest_is_given_back(rt: HostRuntime) {
    assert!(rt; is_split(b"\x05\x00\x00\x00\x00\x07\x08", b"\x07\x08"));
}

/// Returns true if the value is the code "x" and the empty scope.
fn is_code(value: Option<RawBson<'_>>) -> bool {
    match value {
        Some(RawBson::CodeWithScope { code, scope }) => {
            code == "x" && scope.as_bytes() == b"\x05\x00\x00\x00\x00".as_slice()
        }
        _ => false,
    }
}

#[test]
fn a_code_has_its_scope(rt: HostRuntime) {
    let bytes = b"\x17\0\0\0\x0fc\0\x0f\0\0\0\x02\0\0\0x\0\x05\0\0\0\0\0";
    match RawDocument::from_bytes(bytes) {
        Ok(document) => assert!(rt; is_code(document.get("c"))),
        Err(_) => assert!(rt; false),
    }
}

/// Returns true if the values found under "a" and "b", and the first repeated name, are these.
fn finds(
    bytes: &[u8],
    a: Option<RawBson<'_>>,
    b: Option<RawBson<'_>>,
    repeated: Option<&str>,
) -> bool {
    match RawDocument::from_bytes(bytes) {
        Ok(document) => {
            document.get("a") == a
                && document.get("b") == b
                && document.first_repeated_name() == repeated
        }
        Err(_) => false,
    }
}

#[test]
fn the_first_of_a_name_is_found(rt: HostRuntime) {
    let twice = b"\x13\0\0\0\x10a\0\x01\0\0\0\x10a\0\x02\0\0\0\0";
    assert!(rt; finds(twice, Some(RawBson::Int32(1)), None, Some("a")));
    let once = b"\x0b\0\0\0\x0aa\0\x0ab\0\0";
    assert!(rt; finds(once, Some(RawBson::Null), Some(RawBson::Null), None));
}

/// Returns true if the value is an array of 7 and 8, in 19 bytes.
fn is_array(value: Option<RawBson<'_>>) -> bool {
    match value.and_then(|value| value.as_array()) {
        Some(array) => {
            array.as_bytes().len() == 19
                && array.iter().count() == 2
                && array.get(0) == Some(RawBson::Int32(7))
                && array.get(1) == Some(RawBson::Int32(8))
                && array.get(2) == None
        }
        None => false,
    }
}

// An array of 7 and 8, whose names are "5" and "5".
#[test]
fn array_values_go_by_their_order(rt: HostRuntime) {
    let bytes = b"\x1b\0\0\0\x04a\0\x13\0\0\0\x105\0\x07\0\0\0\x105\0\x08\0\0\0\0\0";
    match RawDocument::from_bytes(bytes) {
        Ok(document) => assert!(rt; is_array(document.get("a"))),
        Err(_) => assert!(rt; false),
    }
}

/// What `as_str`, `as_i32`, `as_i64`, `as_bool` and `as_binary` return for a value.
type Parts<'a> = (
    Option<&'a str>,
    Option<i32>,
    Option<i64>,
    Option<bool>,
    Option<(u8, &'a [u8])>,
);

const PARTS: [(RawBson<'static>, Parts<'static>); 11] = [
    (RawBson::String("a"), (Some("a"), None, None, None, None)),
    (RawBson::Symbol("a"), (None, None, None, None, None)),
    (RawBson::Int32(-1), (None, Some(-1), None, None, None)),
    (RawBson::Int64(1), (None, None, Some(1), None, None)),
    (RawBson::Int64(-1), (None, None, Some(-1), None, None)),
    (RawBson::DateTime(1), (None, None, None, None, None)),
    (RawBson::Boolean(true), (None, None, None, Some(true), None)),
    (RawBson::Null, (None, None, None, None, None)),
    (
        RawBson::Binary {
            subtype: 2,
            bytes: b"\xaa",
        },
        (None, None, None, None, Some((2, b"\xaa"))),
    ),
    (RawBson::Undefined, (None, None, None, None, None)),
    (RawBson::MinKey, (None, None, None, None, None)),
];

/// Returns true if those methods return `parts` for the value, and it is no document or array.
fn gives(value: RawBson<'_>, parts: Parts<'_>) -> bool {
    value.as_str() == parts.0
        && value.as_i32() == parts.1
        && value.as_i64() == parts.2
        && value.as_bool() == parts.3
        && value.as_binary() == parts.4
        && value.as_document().is_none()
        && value.as_array().is_none()
}

#[test]
fn a_part_is_given_for_its_kind_alone(rt: HostRuntime) {
    for (value, parts) in &PARTS {
        assert!(rt; gives(*value, *parts), "at {value:?}");
    }
    assert!(rt; RawBson::MinKey.kind() == Kind::MinKey);
}

/// Fills `bytes` with `count` documents, each in the one before it, in an element named "a".
fn nest(bytes: &mut [u8; 1605], count: usize)
    requires { count ≤ 201 }
{
    for i in 0..count {
        let len = 5 + 8 * (count - 1 - i);
        bytes[7 * i] = (len % 256) as u8;
        bytes[7 * i + 1] = (len / 256 % 256) as u8;
        if i + 1 < count {
            bytes[7 * i + 4] = 3;
            bytes[7 * i + 5] = 97;
        }
    }
}

/// Returns true if 200 documents, one in another, are read by both calls.
fn is_deep(bytes: &[u8]) -> bool {
    match RawDocument::front(bytes) {
        Ok((document, _)) => {
            document.as_bytes().len() == 1597
                && RawDocument::from_bytes(document.as_bytes()).is_ok()
        }
        Err(_) => false,
    }
}

#[test]
fn documents_are_200_deep_at_most(rt: HostRuntime) {
    let mut bytes = [0; 1605];
    nest(&mut bytes, 200);
    assert!(rt; is_deep(&bytes));
    let mut bytes = [0; 1605];
    nest(&mut bytes, 201);
    match RawDocument::from_bytes(&bytes) {
        Ok(_) => assert!(rt; false),
        Err(fault) => assert!(rt; fault.cause == BsonCause::Depth && fault.at == 1397),
    }
}
