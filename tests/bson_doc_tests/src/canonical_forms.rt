//! Tests of canonical forms: rows that were worked out by hand from the standard (bsonspec.org,
//! version 1.1), and that calls succeed if there is memory.

ghost use Rattle.std.specs.Prelude.{◌≤◌};

use bson_doc::{DocRefusal, RawDocumentBuf, canonical_bytes, is_canonical, to_canonical};
use bson_elem::MAX_LEN;
use bson_raw::RawDocument;
use bson_raw_tests::hex_bytes::read_digits;
use std::alloc::Global;

/// Returns true if the document's canonical form is these bytes.
fn is_form(alloc: Global, document: RawDocument<'_>, wanted: &[u8]) -> bool {
    match to_canonical(alloc, document) {
        Ok(form) => form.as_raw().as_bytes() == wanted,
        Err(_) => false,
    }
}

/// Returns true if `wanted` is the canonical form of `bytes`, and `bytes` is canonical exactly if
/// it is `wanted`.
fn bytes_have_form(alloc: Global, bytes: &[u8], wanted: &[u8]) -> bool {
    match RawDocument::from_bytes(bytes) {
        Ok(document) => {
            is_canonical(document) == (bytes == wanted) && is_form(alloc, document, wanted)
        }
        Err(_) => false,
    }
}

/// Returns true if `wanted` is the canonical form of these digits' bytes.
fn digits_have_form(alloc: Global, hex: &str, wanted: &[u8]) -> bool {
    match read_digits(alloc, hex) {
        Ok(bytes) => bytes_have_form(alloc, &bytes, wanted),
        Err(_) => false,
    }
}

/// Returns true if `canonical` is the canonical form of `hex`, and its own canonical form.
fn has_form(alloc: Global, hex: &str, canonical: &str) -> bool {
    match read_digits(alloc, canonical) {
        Ok(wanted) => {
            digits_have_form(alloc, hex, &wanted) && bytes_have_form(alloc, &wanted, &wanted)
        }
        Err(_) => false,
    }
}

const FORMS: [(&str, &str); 14] = [
    // The name "x" in an array.
    (
        "140000000461000c000000107800010000000000",
        "140000000461000c000000103000010000000000",
    ),
    // No array.
    (
        "160000000268656c6c6f0006000000776f726c640000",
        "160000000268656c6c6f0006000000776f726c640000",
    ),
    // No element.
    ("0500000000", "0500000000"),
    // A leading zero.
    (
        "11000000046100090000000a3030000000",
        "10000000046100080000000a30000000",
    ),
    // An empty name.
    (
        "0f000000046100070000000a000000",
        "10000000046100080000000a30000000",
    ),
    // The names "1" and "0", in this order.
    (
        "140000000461000c0000000a3100083000010000",
        "140000000461000c0000000a3000083100010000",
    ),
    // The name "0" twice in an array.
    (
        "140000000461000c0000000a3000083000010000",
        "140000000461000c0000000a3000083100010000",
    ),
    // The same name twice in a document.
    ("0c0000000a35000835000100", "0c0000000a35000835000100"),
    // An array in an array.
    (
        "1800000004610010000000043000080000000a7800000000",
        "1800000004610010000000043000080000000a3000000000",
    ),
    // An array in a document in an array.
    (
        "200000000461001800000003300010000000046200080000000a310000000000",
        "200000000461001800000003300010000000046200080000000a300000000000",
    ),
    // An array in a scope.
    (
        "230000000f63001b00000002000000780011000000046100090000000a313100000000",
        "220000000f63001a00000002000000780010000000046100080000000a3000000000",
    ),
    // The names "0" to "10".
    (
        "2f000000046100270000000a30000a31000a32000a33000a34000a35000a36000a37000a38000a39 \
        000a3130000000",
        "2f000000046100270000000a30000a31000a32000a33000a34000a35000a36000a37000a38000a39 \
        000a3130000000",
    ),
    // The names "0" to "9", and "11".
    (
        "2f000000046100270000000a30000a31000a32000a33000a34000a35000a36000a37000a38000a39 \
        000a3131000000",
        "2f000000046100270000000a30000a31000a32000a33000a34000a35000a36000a37000a38000a39 \
        000a3130000000",
    ),
    // Each kind.
    (
        "e8000000046100e0000000017800000000000000f03f027800020000006300037800080000000a76 \
        000004780005000000000578000200000000aabb057800060000000202000000aabb067800077800 \
        000102030405060708090a0b08780001097800ffffffffffffffff0a78000b7800612e620069000c \
        7800020000006300000102030405060708090a0b0d78000200000063000e78000200000063000f78 \
        000f0000000200000078000500000000107800000000801178000100000002000000127800000000 \
        000000008013780001000000000000000000000000004030ff78007f78000000",
        "f4000000046100ec000000013000000000000000f03f023100020000006300033200080000000a76 \
        000004330005000000000534000200000000aabb053500060000000202000000aabb063600073700 \
        000102030405060708090a0b08380001093900ffffffffffffffff0a3130000b313100612e620069 \
        000c313200020000006300000102030405060708090a0b0d3133000200000063000e313400020000 \
        0063000f3135000f0000000200000078000500000000103136000000008011313700010000000200 \
        00001231380000000000000000801331390001000000000000000000000000004030ff3230007f32 \
        31000000",
    ),
];

#[test]
fn canonical_forms(rt: HostRuntime) {
    for (hex, canonical) in &FORMS {
        assert!(rt; has_form(rt.alloc(), hex, canonical), "{hex}");
    }
}

/// Returns true if the canonical form has `len` bytes, or, if `len` is `None`, is refused as too
/// large.
fn document_has_len(
    alloc: Global,
    document: RawDocument<'_>,
    limit: usize,
    len: Option<usize>,
) -> bool
    requires { limit ≤ MAX_LEN }
{
    match canonical_bytes(alloc, document, limit) {
        Ok(form) => len == Some(form.len()),
        Err(refusal) => len.is_none() && refusal == DocRefusal::TooLarge,
    }
}

/// Like `document_has_len`, for the document of these bytes.
fn has_len(alloc: Global, bytes: &[u8], limit: usize, len: Option<usize>) -> bool
    requires { limit ≤ MAX_LEN }
{
    match RawDocument::from_bytes(bytes) {
        Ok(document) => document_has_len(alloc, document, limit, len),
        Err(_) => false,
    }
}

/// An array of two values, both named "", whose canonical form is two bytes longer.
const NAMED: &[u8] = b"\x12\0\0\0\x04a\0\x0a\0\0\0\x0a\0\x08\0\x01\0\0";

/// A canonical document.
const EMPTY: &[u8] = b"\x05\0\0\0\0";

/// An array in a scope.
const SCOPE: &[u8] =
    b"\x21\0\0\0\x0fc\0\x19\0\0\0\x02\0\0\0x\0\x0f\0\0\0\x04a\0\x07\0\0\0\x0a\0\0\0\0";

#[test]
fn no_more_bytes_than_the_limit(rt: HostRuntime) {
    assert!(rt; has_len(rt.alloc(), NAMED, 20, Some(20)));
    assert!(rt; has_len(rt.alloc(), NAMED, 19, None));
    assert!(rt; has_len(rt.alloc(), NAMED, 0, None));
    assert!(rt; has_len(rt.alloc(), EMPTY, 5, Some(5)));
    assert!(rt; has_len(rt.alloc(), EMPTY, 4, None));
    assert!(rt; has_len(rt.alloc(), SCOPE, 34, Some(34)));
    assert!(rt; has_len(rt.alloc(), SCOPE, 33, None));
    assert!(rt; has_len(rt.alloc(), SCOPE, 20, None));
}

/// Returns true if the empty document is made of five bytes, and has no pair.
fn makes_empty(alloc: Global) -> bool {
    match RawDocumentBuf::new(alloc) {
        Ok(document) => {
            document.as_raw().as_bytes() == EMPTY && document.as_raw().iter().next().is_none()
        }
        Err(_) => false,
    }
}

#[test]
fn the_empty_document(rt: HostRuntime) {
    assert!(rt; makes_empty(rt.alloc()));
}

/// Returns true if the refusal displays as this text.
fn is_shown(alloc: Global, refusal: DocRefusal, text: &str) -> bool {
    match format!(in alloc; "{refusal}") {
        Ok(shown) => shown.as_str() == text,
        Err(_) => false,
    }
}

const REFUSALS: [(DocRefusal, &str); 5] = [
    (
        DocRefusal::RepeatedName { depth: 3 },
        "a name is repeated at depth 3",
    ),
    (DocRefusal::OutOfMemory, "out of memory"),
    (DocRefusal::TooLarge, "the document is too large"),
    (
        DocRefusal::ZeroInName,
        "a name, a pattern or options have a 00 in them",
    ),
    (DocRefusal::Depth, "a container is too deep"),
];

#[test]
fn refusals_have_texts(rt: HostRuntime) {
    for (refusal, text) in &REFUSALS {
        assert!(rt; is_shown(rt.alloc(), *refusal, text), "{text}");
    }
}
