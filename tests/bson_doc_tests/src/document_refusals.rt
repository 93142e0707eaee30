//! Tests that documents stay the same after a refused allocation. `scripts/checks/try-refusals`
//! runs them with each of their allocations refused in turn. Only one is refused in a run, so what
//! is tried again succeeds.

use bson_doc::laws::round_trip;
use bson_doc::{
    Array, Bson, DocRefusal, Document, RawDocumentBuf, canonical_bytes, renumbered, to_canonical,
};
use bson_raw::RawDocument;
use std::alloc::Global;

/// `{"a": [{"b": "c"}]}`, with an empty name in the array.
const BYTES: &[u8] = b"\x1d\0\0\0\x04a\0\x15\0\0\0\x03\0\x0e\0\0\0\x02b\0\x02\0\0\0c\0\0\0\0";

/// Its canonical form, in which that name is "0".
const FORM: &[u8] = b"\x1e\0\0\0\x04a\0\x16\0\0\0\x030\0\x0e\0\0\0\x02b\0\x02\0\0\0c\0\0\0\0";

/// `{"a": 1}`.
const PAIR: &[u8] = b"\x0c\0\0\0\x10a\0\x01\0\0\0\0";

/// `{"a": 1, "a": 2}`.
const REPEATED: &[u8] = b"\x13\0\0\0\x10a\0\x01\0\0\0\x10a\0\x02\0\0\0\0";

/// `{"d": [{"b": "c"}]}`.
const APPENDED: &[u8] = b"\x1e\0\0\0\x04d\0\x16\0\0\0\x030\0\x0e\0\0\0\x02b\0\x02\0\0\0c\0\0\0\0";

/// Returns the document of `BYTES`.
fn read(alloc: Global) -> Option<Document> {
    let raw = RawDocument::from_bytes(BYTES).ok()?;
    Document::from_raw(alloc, raw).ok()
}

/// Returns the document of `BYTES`. Reads it again if memory is refused.
fn document(alloc: Global) -> Option<Document> {
    match read(alloc) {
        Some(document) => Some(document),
        None => read(alloc),
    }
}

/// Returns true if both tries came right, or one did and memory was refused to the other.
fn comes_right(first: Result<bool, DocRefusal>, second: Result<bool, DocRefusal>) -> bool {
    match (first, second) {
        (Ok(right), Ok(again)) => right && again,
        (Ok(right), Err(refusal)) | (Err(refusal), Ok(right)) => {
            right && refusal == DocRefusal::OutOfMemory
        }
        (Err(_), Err(_)) => false,
    }
}

/// Returns whether the document is read with its one pair.
fn reads(alloc: Global, raw: RawDocument<'_>) -> Result<bool, DocRefusal> {
    let made = Document::from_raw(alloc, raw)?;
    Ok(made.len() == 1)
}

/// Returns whether the canonical form is made.
fn forms(alloc: Global, raw: RawDocument<'_>) -> Result<bool, DocRefusal> {
    let made = to_canonical(alloc, raw)?;
    Ok(made.as_raw().as_bytes() == FORM)
}

/// Returns whether the canonical form is written anew.
fn forms_anew(alloc: Global, raw: RawDocument<'_>) -> Result<bool, DocRefusal> {
    let made = renumbered(alloc, raw)?;
    Ok(made.as_raw().as_bytes() == FORM)
}

/// Returns whether the bytes of the canonical form are made.
fn forms_bytes(alloc: Global, raw: RawDocument<'_>) -> Result<bool, DocRefusal> {
    let made = canonical_bytes(alloc, raw, 30)?;
    Ok(made.as_slice() == FORM)
}

/// Returns whether the empty document is made.
fn starts(alloc: Global) -> Result<bool, DocRefusal> {
    let made = RawDocumentBuf::new(alloc)?;
    Ok(made.as_raw().as_bytes() == b"\x05\0\0\0\0".as_slice())
}

#[test]
fn a_refused_document_is_not_made(rt: HostRuntime) {
    let alloc = rt.alloc();
    let Ok(raw) = RawDocument::from_bytes(BYTES) else {
        assert!(rt; false);
        return;
    };
    assert!(rt; comes_right(reads(alloc, raw), reads(alloc, raw)));
    assert!(rt; comes_right(forms(alloc, raw), forms(alloc, raw)));
    assert!(rt; comes_right(forms_anew(alloc, raw), forms_anew(alloc, raw)));
    assert!(rt; comes_right(forms_bytes(alloc, raw), forms_bytes(alloc, raw)));
    assert!(rt; comes_right(starts(alloc), starts(alloc)));
}

#[test]
fn a_pair_is_read(rt: HostRuntime) {
    let alloc = rt.alloc();
    let Ok(raw) = RawDocument::from_bytes(PAIR) else {
        assert!(rt; false);
        return;
    };
    assert!(rt; comes_right(reads(alloc, raw), reads(alloc, raw)));
}

/// Returns whether the document is refused because its name is repeated.
fn finds(alloc: Global, raw: RawDocument<'_>) -> Result<bool, DocRefusal> {
    match Document::from_raw(alloc, raw) {
        Ok(_) => Ok(false),
        Err(DocRefusal::RepeatedName { depth }) => Ok(depth == 1),
        Err(refusal) => Err(refusal),
    }
}

/// A name that is there is looked up before it is copied. So this asks for memory as often as
/// `a_pair_is_read`, which `scripts/checks/try-refusals` compares.
#[test]
fn a_repeated_name_is_found(rt: HostRuntime) {
    let alloc = rt.alloc();
    let Ok(raw) = RawDocument::from_bytes(REPEATED) else {
        assert!(rt; false);
        return;
    };
    assert!(rt; comes_right(finds(alloc, raw), finds(alloc, raw)));
}

/// Returns whether a copy of the document is equal to it.
fn copies(document: &Document) -> Result<bool, DocRefusal> {
    let copy = document.try_clone()?;
    Ok(copy == *document)
}

/// Returns whether the document is written.
fn writes(document: &Document) -> Result<bool, DocRefusal> {
    let made = document.to_raw()?;
    Ok(made.as_raw().as_bytes() == FORM)
}

/// Returns whether the document is written and read back.
fn comes_back(alloc: Global, document: &Document) -> Result<bool, DocRefusal> {
    let made = round_trip(alloc, document)?;
    Ok(made == *document)
}

/// Returns true if the document stays as it is when it is copied, written, and read back.
fn stays(alloc: Global, document: &Document) -> bool {
    comes_right(copies(document), copies(document))
        && comes_right(writes(document), writes(document))
        && comes_right(comes_back(alloc, document), comes_back(alloc, document))
}

/// Returns true if a document is read, and stays when it is copied and when it is written.
fn one_stays(alloc: Global) -> bool {
    match document(alloc) {
        Some(document) => stays(alloc, &document),
        None => false,
    }
}

#[test]
fn a_document_that_is_copied_or_written_stays(rt: HostRuntime) {
    assert!(rt; one_stays(rt.alloc()));
}

/// Returns whether a copy of the value is equal to it.
fn value_copies(value: &Bson) -> Result<bool, DocRefusal> {
    let copy = value.try_clone()?;
    Ok(copy == *value)
}

/// Returns whether a copy of the array is equal to it.
fn array_copies(array: &Array) -> Result<bool, DocRefusal> {
    let copy = array.try_clone()?;
    Ok(copy == *array)
}

/// Returns true if the value is an array, and it and the value stay when they are copied.
fn value_stays(value: &Bson) -> bool {
    match value {
        Bson::Array(array) => {
            comes_right(array_copies(array), array_copies(array))
                && comes_right(value_copies(value), value_copies(value))
        }
        _ => false,
    }
}

/// Returns true if a document is read, and its value stays when it is copied.
fn a_value_stays(alloc: Global) -> bool {
    match document(alloc) {
        Some(document) => match document.get("a") {
            Some(value) => value_stays(value),
            None => false,
        },
        None => false,
    }
}

#[test]
fn a_value_that_is_copied_stays(rt: HostRuntime) {
    assert!(rt; a_value_stays(rt.alloc()));
}

/// Returns true if this is the pair that `inserts` inserts.
fn is_inserted(name: &str, value: &Bson) -> bool {
    name == "n" && matches!(value, Bson::Int32(2))
}

/// Returns true if the pair that `inserts` inserts is the only one of the document.
fn has_pair(changed: &Document) -> bool {
    match (changed.len(), changed.get("n")) {
        (1, Some(value)) => matches!(value, Bson::Int32(2)),
        _ => false,
    }
}

/// Inserts a pair with a new name. Returns true if memory isn't refused.
fn is_new(changed: &mut Document, name: String, value: Bson) -> bool {
    match changed.insert(name, value) {
        Ok(before) => before.is_none(),
        Err(_) => false,
    }
}

/// Returns true if a pair is inserted into the empty document; or it is handed back, the document
/// is still empty, and the pair that came back is then inserted.
fn inserts(changed: &mut Document, name: String) -> bool {
    match changed.insert(name, Bson::Int32(2)) {
        Ok(_) => has_pair(changed),
        Err(refused) => {
            let (name, value) = refused.value;
            is_inserted(name.as_str(), &value)
                && changed.is_empty()
                && is_new(changed, name, value)
                && has_pair(changed)
        }
    }
}

/// Returns the name of the pair. Copies it again if memory is refused.
fn name_again(alloc: Global) -> Option<String> {
    match String::from_str(alloc, "n") {
        Ok(name) => Some(name),
        Err(_) => String::from_str(alloc, "n").ok(),
    }
}

/// Returns true if a name is made, and `inserts` holds of it. An empty document has no room for a
/// pair, so its first one asks for memory.
fn hands_back(alloc: Global) -> bool {
    match name_again(alloc) {
        Some(name) => inserts(&mut Document::new(alloc), name),
        None => false,
    }
}

#[test]
fn insert_hands_the_pair_back(rt: HostRuntime) {
    assert!(rt; hands_back(rt.alloc()));
}

/// Returns true if the pair is appended to the empty document; or it is refused, the bytes are as
/// they were, and it is appended at the second try.
fn appends(bytes: &mut RawDocumentBuf, value: &Bson) -> bool {
    match bytes.append("d", value) {
        Ok(()) => bytes.as_raw().as_bytes() == APPENDED,
        Err(refusal) => {
            refusal == DocRefusal::OutOfMemory
                && bytes.as_raw().as_bytes() == b"\x05\0\0\0\0".as_slice()
                && bytes.append("d", value).is_ok()
                && bytes.as_raw().as_bytes() == APPENDED
        }
    }
}

/// Returns an empty document. Makes it again if memory is refused.
fn empty(alloc: Global) -> Option<RawDocumentBuf> {
    match RawDocumentBuf::new(alloc) {
        Ok(bytes) => Some(bytes),
        Err(_) => RawDocumentBuf::new(alloc).ok(),
    }
}

/// Returns true if an empty document is made, and the value is appended to it.
fn appends_to_empty(alloc: Global, value: &Bson) -> bool {
    match empty(alloc) {
        Some(mut bytes) => appends(&mut bytes, value),
        None => false,
    }
}

/// Returns true if a document is read, and its value is appended to an empty one.
fn leaves_the_bytes(alloc: Global) -> bool {
    match document(alloc) {
        Some(document) => match document.get("a") {
            Some(value) => appends_to_empty(alloc, value),
            None => false,
        },
        None => false,
    }
}

#[test]
fn append_leaves_the_bytes(rt: HostRuntime) {
    assert!(rt; leaves_the_bytes(rt.alloc()));
}
