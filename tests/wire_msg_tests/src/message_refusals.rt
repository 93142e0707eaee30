//! Tests that messages and names are told the same whether memory is refused or not.
//! `scripts/checks/try-refusals` runs them with each of their allocations refused in turn. Only one is
//! refused in a run, so bytes that are read again are read.

use crate::messages::{INSERT, LIMIT, PING, both_tell};
use bson_raw::RawDocument;
use bson_raw_tests::hex_bytes::read_digits;
use std::alloc::Global;
use wire_msg::{RawMsg, has_repeated_name};

/// Messages, and bytes whose names are at fault: a repeated name of the body, and an identifier
/// that is a name of the body, after the body and before it.
const ROWS: [&str; 5] = [
    PING,
    INSERT,
    "28000000 01000000 00000000 dd070000 00000000 \
     00 13000000 10610001000000 10610002000000 00",
    "28000000 01000000 00000000 dd070000 00000000 \
     00 0c000000 10610001000000 00 01 06000000 6100",
    "28000000 01000000 00000000 dd070000 00000000 \
     01 06000000 6100 00 0c000000 10610001000000 00",
];

/// Returns true if `front` and `front_with` return the same for `bytes`.
fn both_find(alloc: Global, bytes: &[u8]) -> bool {
    RawMsg::front(bytes, LIMIT) == RawMsg::front_with(alloc, bytes, LIMIT)
}

/// Returns the bytes of the digits. Reads them again if memory is refused.
fn bytes_again(alloc: Global, hex: &str) -> Option<Vec<u8>> {
    match read_digits(alloc, hex) {
        Ok(bytes) => Some(bytes),
        Err(_) => read_digits(alloc, hex).ok(),
    }
}

/// Returns true if the calls that take memory return the same as those that take none.
fn is_told_alike(alloc: Global, hex: &str) -> bool {
    match bytes_again(alloc, hex) {
        Some(bytes) => both_tell(alloc, &bytes) && both_find(alloc, &bytes),
        None => false,
    }
}

#[test]
fn messages_are_told_alike(rt: HostRuntime) {
    for hex in &ROWS {
        assert!(rt; is_told_alike(rt.alloc(), hex), "{hex}");
    }
}

/// Documents, and whether a top-level name is repeated: `{}`, `{"a": 1, "b": 2}`,
/// `{"a": 1, "b": 2, "a": 3}` and `{"a": {"b": 1}, "b": 2}`.
const NAMES: [(&str, bool); 4] = [
    ("0500000000", false),
    ("13000000 10610001000000 10620002000000 00", false),
    (
        "1a000000 10610001000000 10620002000000 10610003000000 00",
        true,
    ),
    (
        "1b000000 036100 0c000000 10620001000000 00 10620002000000 00",
        false,
    ),
];

/// Returns true if `bytes` are a document, and `has_repeated_name` tells this of it.
fn is_repeated_as(alloc: Global, bytes: &[u8], repeated: bool) -> bool {
    match RawDocument::from_bytes(bytes) {
        Ok(document) => has_repeated_name(alloc, document) == repeated,
        Err(_) => false,
    }
}

/// Returns true if the names of the document of these digits are told as `repeated`.
fn are_names_told(alloc: Global, hex: &str, repeated: bool) -> bool {
    match bytes_again(alloc, hex) {
        Some(bytes) => is_repeated_as(alloc, &bytes, repeated),
        None => false,
    }
}

#[test]
fn names_are_told_alike(rt: HostRuntime) {
    for (hex, repeated) in &NAMES {
        assert!(rt; are_names_told(rt.alloc(), hex, *repeated), "{hex}");
    }
}
