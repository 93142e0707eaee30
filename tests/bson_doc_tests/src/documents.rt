//! Tests of owned documents by their bytes (bsonspec.org, version 1.1), and that calls succeed if
//! there is memory.

use bson_doc::laws::round_trip;
use bson_doc::{Array, Bson, DocRefusal, Document};
use bson_elem::Kind;
use bson_raw::RawDocument;
use bson_raw_tests::each_kind::EACH_KIND;
use bson_raw_tests::hex_bytes::read_digits;
use std::alloc::Global;

/// Returns true if the document is written as these bytes.
fn writes(document: &Document, wanted: &[u8]) -> bool {
    match document.to_raw() {
        Ok(written) => written.as_raw().as_bytes() == wanted,
        Err(_) => false,
    }
}

/// Returns true if a copy of the document is written as these bytes.
fn copy_writes(alloc: Global, document: &Document, wanted: &[u8]) -> bool {
    match document.try_clone() {
        Ok(copy) => writes(&copy, wanted),
        Err(_) => false,
    }
}

/// Returns the document of these bytes.
fn document_of(alloc: Global, bytes: &[u8]) -> Option<Document> {
    Document::from_raw(alloc, RawDocument::from_bytes(bytes).ok()?).ok()
}

/// Returns true if the document and a copy of it are written as these bytes.
fn both_write(alloc: Global, document: &Document, wanted: &[u8]) -> bool {
    writes(document, wanted) && copy_writes(alloc, document, wanted)
}

/// Returns true if the document of these bytes is read, and it and a copy of it are written as
/// `wanted`.
fn bytes_are_written_as(alloc: Global, bytes: &[u8], wanted: &[u8]) -> bool {
    match document_of(alloc, bytes) {
        Some(document) => both_write(alloc, &document, wanted),
        None => false,
    }
}

/// Like `bytes_are_written_as`, for the bytes of these digits.
fn digits_are_written_as(alloc: Global, hex: &str, wanted: &[u8]) -> bool {
    match read_digits(alloc, hex) {
        Ok(bytes) => bytes_are_written_as(alloc, &bytes, wanted),
        Err(_) => false,
    }
}

/// Returns true if the document of `hex` is read, and it and a copy of it are written as `written`.
fn is_written_as(alloc: Global, hex: &str, written: &str) -> bool {
    match read_digits(alloc, written) {
        Ok(wanted) => digits_are_written_as(alloc, hex, &wanted),
        Err(_) => false,
    }
}

// A document, an array and a scope, and two pairs.
const KEPT: [&str; 4] = [
    "0d000000 03 7600 05000000 00 00",
    "14000000 04 7600 0c000000 10 3000 01000000 00 00",
    "17000000 0f 7600 0f000000 02000000 6300 05000000 00 00",
    "0b000000 ff 6100 7f 6200 00",
];

#[test]
fn values_are_read_and_written(rt: HostRuntime) {
    for (hex, _) in &EACH_KIND {
        assert!(rt; is_written_as(rt.alloc(), hex, hex), "{hex}");
    }
}

#[test]
fn documents_are_read_and_written(rt: HostRuntime) {
    for hex in &KEPT {
        assert!(rt; is_written_as(rt.alloc(), hex, hex), "{hex}");
    }
}

#[test]
fn arrays_are_written_with_their_indices(rt: HostRuntime) {
    let hex = "14000000 04 6100 0c000000 10 7800 01000000 00 00";
    let written = "14000000 04 6100 0c000000 10 3000 01000000 00 00";
    assert!(rt; is_written_as(rt.alloc(), hex, written));
}

/// Returns true if `from_raw` refuses the document for a name repeated at this depth, or, if that
/// is `None`, reads it.
fn raw_repeats(alloc: Global, raw: RawDocument<'_>, depth: Option<u32>) -> bool {
    match Document::from_raw(alloc, raw) {
        Ok(_) => depth.is_none(),
        Err(refusal) => Some(refusal) == depth.map(|depth| DocRefusal::RepeatedName { depth }),
    }
}

/// Like `raw_repeats`, for the document of these bytes.
fn bytes_repeat(alloc: Global, bytes: &[u8], depth: Option<u32>) -> bool {
    match RawDocument::from_bytes(bytes) {
        Ok(raw) => raw_repeats(alloc, raw, depth),
        Err(_) => false,
    }
}

/// Like `raw_repeats`, for the document of these digits.
fn repeats(alloc: Global, hex: &str, depth: Option<u32>) -> bool {
    match read_digits(alloc, hex) {
        Ok(bytes) => bytes_repeat(alloc, &bytes, depth),
        Err(_) => false,
    }
}

const REPEATED: [(&str, Option<u32>); 7] = [
    ("0b000000 0a 6100 0a 6100 00", Some(1)),
    ("13000000 03 6200 0b000000 0a 6100 0a 6100 00 00", Some(2)),
    ("13000000 04 6200 0b000000 0a 3000 0a 3000 00 00", None),
    ("0e000000 0a 6100 0a 6200 0a 6100 00", Some(1)),
    (
        "1c000000 0f 6300 14000000 01000000 00 0b000000 0a 6100 0a 6100 00 00",
        Some(2),
    ),
    // The first in file order is reported, and a name comes before its value.
    (
        "16000000 03 6100 0b000000 0a 6200 0a 6200 00 0a 6100 00",
        Some(2),
    ),
    (
        "16000000 0a 6100 03 6100 0b000000 0a 6200 0a 6200 00 00",
        Some(1),
    ),
];

#[test]
fn repeated_names_are_refused(rt: HostRuntime) {
    for (hex, depth) in &REPEATED {
        assert!(rt; repeats(rt.alloc(), hex, *depth), "{hex}");
    }
}

/// Returns true if the value is this number.
fn is_number(value: Option<&Bson>, number: i32) -> bool {
    matches!(value, Some(Bson::Int32(found)) if *found == number)
}

/// Inserts the pair of this name and number, and returns true if it replaces the number `before`.
fn replaces(document: &mut Document, name: String, number: i32, before: i32) -> bool {
    match document.insert(name, Bson::Int32(number)) {
        Ok(found) => is_number(found.as_ref(), before),
        Err(_) => false,
    }
}

/// Like `replaces`, for the name "a".
fn replaces_a(alloc: Global, document: &mut Document, number: i32, before: i32) -> bool {
    match String::from_str(alloc, "a") {
        Ok(name) => replaces(document, name, number, before),
        Err(_) => false,
    }
}

/// Returns true if the pair with this name is removed, and its value is the number.
fn removes(document: &mut Document, name: &str, number: i32) -> bool {
    is_number(document.remove(name).as_ref(), number)
}

/// Returns true if this is the document's first name.
fn is_first(document: &Document, name: &str) -> bool {
    document.iter().next().map(|(first, _)| first) == Some(name)
}

/// Returns true if the document, of 1 under "a" and null under "b", finds its values, and takes
/// another one for "a".
fn looks_up(alloc: Global, document: &mut Document) -> bool {
    replaces_a(alloc, document, 2, 1)
        && is_number(document.get("a"), 2)
        && document.contains_key("b")
        && !document.contains_key("c")
        && is_first(document, "a")
}

/// Returns true if the second pair is left when "a" is removed from a document of 2 under "a" and
/// null under "b".
fn closes_up(document: &mut Document) -> bool {
    removes(document, "a", 2)
        && is_first(document, "b")
        && document.len() == 1
        && !document.is_empty()
}

/// Returns true if names are looked up in a document of two pairs.
fn finds_names(alloc: Global) -> bool {
    match document_of(alloc, b"\x0f\0\0\0\x10a\0\x01\0\0\0\x0ab\0\0") {
        Some(mut document) => looks_up(alloc, &mut document) && closes_up(&mut document),
        None => false,
    }
}

#[test]
fn names_are_looked_up(rt: HostRuntime) {
    assert!(rt; finds_names(rt.alloc()));
}

/// Inserts the pair. Returns `None` if memory is refused.
fn put(document: &mut Document, name: String, value: Bson) -> Option<()> {
    document.insert(name, value).ok()?;
    Some(())
}

/// Inserts the pair of this name and value. Returns true if there is memory.
fn puts(alloc: Global, document: &mut Document, name: &str, value: Bson) -> bool {
    match String::from_str(alloc, name) {
        Ok(name) => put(document, name, value).is_some(),
        Err(_) => false,
    }
}

/// Returns a document of one pair.
fn one_pair(alloc: Global, name: &str, value: Bson) -> Option<Document> {
    let mut document = Document::new(alloc);
    if puts(alloc, &mut document, name, value) {
        Some(document)
    } else {
        None
    }
}

/// Returns a document of the numbers from 0 to 99, each under itself.
fn numbers(alloc: Global) -> Option<Document> {
    let mut document = Document::new(alloc);
    for number in 0i32..100 {
        let name = format!(in alloc; "{number}").ok()?;
        put(&mut document, name, Bson::Int32(number))?;
    }
    Some(document)
}

/// Returns true if each number from 0 to 99 except `left_out` is found under itself, and `left_out`
/// isn't.
fn finds_numbers(alloc: Global, document: &Document, left_out: i32) -> bool {
    for number in 0i32..100 {
        let Ok(name) = format!(in alloc; "{number}") else {
            return false;
        };
        if is_number(document.get(name.as_str()), number) == (number == left_out) {
            return false;
        }
    }
    true
}

/// Returns true if names are looked up in a document of many pairs, in one that is read from its
/// bytes, and after one of the pairs is removed.
fn finds_many(alloc: Global) -> bool {
    let Some(document) = numbers(alloc) else {
        return false;
    };
    let Ok(mut again) = round_trip(alloc, &document) else {
        return false;
    };
    finds_numbers(alloc, &document, -1)
        && removes(&mut again, "7", 7)
        && finds_numbers(alloc, &again, 7)
        && again.len() == 99
}

#[test]
fn many_names_are_looked_up(rt: HostRuntime) {
    assert!(rt; finds_many(rt.alloc()));
}

/// Returns `count` documents, each in the one before it, and null in the innermost.
fn nested(alloc: Global, count: u32) -> Option<Bson> {
    let mut value = Bson::Null;
    for _ in 0..count {
        value = Bson::Document(one_pair(alloc, "a", value)?);
    }
    Some(value)
}

/// Returns a regular expression of this pattern and these options.
fn regex(alloc: Global, pattern: &str, options: &str) -> Option<Bson> {
    let pattern = String::from_str(alloc, pattern).ok()?;
    let options = String::from_str(alloc, options).ok()?;
    Some(Bson::Regex { pattern, options })
}

/// Returns true if the document can't be written for this reason, or, if that is `None`, is
/// written.
fn has_refusal(document: &Document, wanted: Option<DocRefusal>) -> bool {
    match document.to_raw() {
        Ok(_) => wanted.is_none(),
        Err(refusal) => wanted == Some(refusal),
    }
}

/// Like `has_refusal`, for a document of this pair.
fn pair_has_refusal(alloc: Global, name: &str, value: Bson, wanted: Option<DocRefusal>) -> bool {
    match one_pair(alloc, name, value) {
        Some(document) => has_refusal(&document, wanted),
        None => false,
    }
}

/// Returns true if a document of this regular expression can't be written for a 00 in it.
fn regex_has_zero(alloc: Global, pattern: &str, options: &str) -> bool {
    match regex(alloc, pattern, options) {
        Some(value) => pair_has_refusal(alloc, "a", value, Some(DocRefusal::ZeroInName)),
        None => false,
    }
}

/// Like `has_refusal`, for a document that has `count` documents, one in another, under this name.
fn nested_has_refusal(alloc: Global, name: &str, count: u32, wanted: Option<DocRefusal>) -> bool {
    match nested(alloc, count) {
        Some(value) => pair_has_refusal(alloc, name, value, wanted),
        None => false,
    }
}

#[test]
fn what_has_no_spelling_is_refused(rt: HostRuntime) {
    let zero = Some(DocRefusal::ZeroInName);
    assert!(rt; pair_has_refusal(rt.alloc(), "a\0", Bson::Null, zero));
    assert!(rt; regex_has_zero(rt.alloc(), "\0", "i"));
    assert!(rt; regex_has_zero(rt.alloc(), "a", "\0"));
    assert!(rt; nested_has_refusal(rt.alloc(), "a", 199, None));
    assert!(rt; nested_has_refusal(rt.alloc(), "a", 200, Some(DocRefusal::Depth)));
    // A name is tested before its value.
    assert!(rt; nested_has_refusal(rt.alloc(), "a\0", 200, zero));
}

/// Returns true if the document with this pair added can't be written for this reason.
fn grown_has_refusal(
    alloc: Global,
    document: &mut Document,
    name: &str,
    value: Bson,
    wanted: DocRefusal,
) -> bool {
    puts(alloc, document, name, value) && has_refusal(document, Some(wanted))
}

/// Returns true if the depth of the first of two pairs is reported, and not the 00 in the name of
/// the second.
fn depth_is_first(alloc: Global, deep: Bson) -> bool {
    match one_pair(alloc, "a", deep) {
        Some(mut document) => {
            grown_has_refusal(alloc, &mut document, "b\0", Bson::Null, DocRefusal::Depth)
        }
        None => false,
    }
}

/// Returns true if the 00 in the name of the first of two pairs is reported, and not the depth of
/// the second.
fn zero_is_first(alloc: Global, deep: Bson) -> bool {
    match one_pair(alloc, "b\0", Bson::Null) {
        Some(mut document) => {
            grown_has_refusal(alloc, &mut document, "a", deep, DocRefusal::ZeroInName)
        }
        None => false,
    }
}

/// Returns true if a value that is too deep is reported if it comes first.
fn deep_before_zero(alloc: Global) -> bool {
    match nested(alloc, 200) {
        Some(deep) => depth_is_first(alloc, deep),
        None => false,
    }
}

/// Returns true if a name with a 00 in it is reported if it comes first.
fn zero_before_deep(alloc: Global) -> bool {
    match nested(alloc, 200) {
        Some(deep) => zero_is_first(alloc, deep),
        None => false,
    }
}

#[test]
fn the_first_of_two_refusals_is_told(rt: HostRuntime) {
    assert!(rt; deep_before_zero(rt.alloc()));
    assert!(rt; zero_before_deep(rt.alloc()));
}

/// Returns true if both documents are written as the same bytes.
fn write_alike(document: &Document, other: &Document) -> bool {
    match document.to_raw() {
        Ok(written) => writes(other, written.as_raw().as_bytes()),
        Err(_) => false,
    }
}

/// Returns true if the document that is read back is written as this one.
fn comes_back(alloc: Global, document: &Document) -> bool {
    match round_trip(alloc, document) {
        Ok(again) => write_alike(&again, document),
        Err(_) => false,
    }
}

/// Returns true if a document of documents is read back.
fn nested_comes_back(alloc: Global) -> bool {
    match document_of(
        alloc,
        b"\x18\0\0\0\x03a\0\x10\0\0\0\x03a\0\x08\0\0\0\x0aa\0\0\0\0",
    ) {
        Some(document) => comes_back(alloc, &document),
        None => false,
    }
}

#[test]
fn a_document_is_read_back(rt: HostRuntime) {
    assert!(rt; nested_comes_back(rt.alloc()));
}

/// Returns a document whose values are made from Rust's own types.
fn made(alloc: Global) -> Option<Document> {
    let inner = Bson::from(one_pair(alloc, "", Bson::from(7i32))?);
    let mut document = one_pair(alloc, "a", inner)?;
    if puts(alloc, &mut document, "b", Bson::from(true))
        && puts(alloc, &mut document, "c", Bson::from(7i64))
        && puts_text(alloc, &mut document)
        && puts(
            alloc,
            &mut document,
            "e",
            Bson::from(Array::from_vec(Vec::new(alloc))),
        )
    {
        Some(document)
    } else {
        None
    }
}

/// Inserts the string "x" under the name "d". Returns true if there is memory.
fn puts_text(alloc: Global, document: &mut Document) -> bool {
    match String::from_str(alloc, "x") {
        Ok(text) => puts(alloc, document, "d", Bson::from(text)),
        Err(_) => false,
    }
}

const KINDS: [Kind; 5] = [
    Kind::Document,
    Kind::Boolean,
    Kind::Int64,
    Kind::String,
    Kind::Array,
];

/// Returns true if a look-up of each name finds a value of the kind that its pair has.
fn finds_each(document: &Document) -> bool {
    for (name, value) in document {
        if document.get(name).map(|found| found.kind()) != Some(value.kind()) {
            return false;
        }
    }
    true
}

/// Returns true if the values, the names and the pairs of the document are listed in order.
fn lists(document: &Document) -> bool {
    document.values().iter().map(|value| value.kind()).eq(KINDS)
        && document.keys().last().map(|name| name.as_str()) == Some("e")
        && finds_each(document)
}

/// Returns true if a document is made, and its pairs are listed.
fn made_and_listed(alloc: Global) -> bool {
    match made(alloc) {
        Some(document) => lists(&document),
        None => false,
    }
}

#[test]
fn values_are_made_and_listed(rt: HostRuntime) {
    assert!(rt; made_and_listed(rt.alloc()));
}

/// Returns true if the number is kept as a double.
fn is_kept(number: f64) -> bool {
    let value = Bson::from(number);
    value.kind() == Kind::Double && value.as_f64() == Some(number)
}

#[test]
fn doubles_are_made_of_numbers(rt: HostRuntime) {
    assert!(rt; is_kept(1.5));
    assert!(rt;
        Bson::from(f64::NAN)
            .as_f64()
            .is_some_and(|number| number.is_nan())
    );
    assert!(rt; Bson::Null.as_f64() == None);
}

/// Returns true if the document's `Debug` writes its names and its values.
fn is_shown(alloc: Global, document: &Document) -> bool {
    match format!(in alloc; "{document:?}") {
        Ok(text) => text.as_str() == "Document { names: {\"a\"}, values: [Int32(7)] }",
        Err(_) => false,
    }
}

/// Returns true if a document of one number is shown.
fn shows(alloc: Global) -> bool {
    match one_pair(alloc, "a", Bson::from(7i32)) {
        Some(document) => is_shown(alloc, &document),
        None => false,
    }
}

#[test]
fn values_are_shown(rt: HostRuntime) {
    assert!(rt; shows(rt.alloc()));
}
