//! Pairs that are added to a document in its bytes (bsonspec.org, version 1.1).

use bson_doc::{Array, Bson, DocRefusal, RawDocumentBuf};
use std::alloc::Global;

/// Returns true if the pair is added, and the document is then these bytes.
fn is_added(document: &mut RawDocumentBuf, name: &str, value: &Bson, wanted: &[u8]) -> bool {
    document.append(name, value).is_ok() && document.as_raw().as_bytes() == wanted
}

/// Returns true if a pair with this name is refused for the 00 in the name, and the document is
/// still these bytes.
fn is_refused(document: &mut RawDocumentBuf, name: &str, wanted: &[u8]) -> bool {
    document.append(name, &Bson::Null) == Err(DocRefusal::ZeroInName)
        && document.as_raw().as_bytes() == wanted
}

const ONE: &[u8] = b"\x0c\0\0\0\x10a\0\x01\0\0\0\0";

const TWO: &[u8] = b"\x0f\0\0\0\x10a\0\x01\0\0\0\x0aa\0\0";

/// Returns true if pairs are added at the end of an empty document, also one whose name is there
/// already.
fn grows(document: &mut RawDocumentBuf) -> bool {
    is_added(document, "a", &Bson::Int32(1), ONE)
        && is_added(document, "a", &Bson::Null, TWO)
        && is_refused(document, "a\0", TWO)
}

/// Returns true if an empty document is made, and `grows` holds of it.
fn adds_pairs(alloc: Global) -> bool {
    match RawDocumentBuf::new(alloc) {
        Ok(mut document) => grows(&mut document),
        Err(_) => false,
    }
}

#[test]
fn a_pair_is_added_last(rt: HostRuntime) {
    assert!(rt; adds_pairs(rt.alloc()));
}

/// Returns an array of two nulls.
fn nulls(alloc: Global) -> Option<Array> {
    let mut values = Vec::new(alloc);
    values.push(Bson::Null).ok()?;
    values.push(Bson::Null).ok()?;
    Some(Array::from_vec(values))
}

/// Returns true if an empty document is these bytes once the value is added under the name "a".
fn makes(alloc: Global, value: &Bson, wanted: &[u8]) -> bool {
    match RawDocumentBuf::new(alloc) {
        Ok(mut document) => is_added(&mut document, "a", value, wanted),
        Err(_) => false,
    }
}

/// Returns true if the names in an array are its indices.
fn names_by_index(alloc: Global) -> bool {
    let wanted = b"\x13\0\0\0\x04a\0\x0b\0\0\0\x0a0\0\x0a1\0\0\0";
    match nulls(alloc) {
        Some(array) => makes(alloc, &Bson::Array(array), wanted),
        None => false,
    }
}

#[test]
fn names_in_an_array_are_indices(rt: HostRuntime) {
    assert!(rt; names_by_index(rt.alloc()));
}
