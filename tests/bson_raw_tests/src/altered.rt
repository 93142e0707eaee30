//! The empty document, with each byte replaced by each of the 255 other values.

use bson_raw::RawDocument;

const EMPTY: [u8; 5] = *b"\x05\0\0\0\0";

/// A number that no fault has.
const OTHER: u8 = 255;

/// Returns the number of the fault that `from_bytes` finds at offset 0, or 0 if it returns a
/// document of these bytes, or else `OTHER`.
fn document_fault(bytes: &[u8]) -> u8 {
    match RawDocument::from_bytes(bytes) {
        Ok(document) if document.as_bytes() == bytes => 0,
        Err(fault) if fault.at == 0 => fault.cause.number(),
        _ => OTHER,
    }
}

/// Returns how many of the altered documents have the fault with this number.
fn documents_with(number: u8) -> usize {
    let mut count = 0usize;
    for at in 0..5 {
        for value in 0..=255u8 {
            let mut bytes = EMPTY;
            bytes[at] = value;
            if bytes != EMPTY && document_fault(&bytes) == number {
                count = count.wrapping_add(1);
            }
        }
    }
    count
}

#[test]
fn the_empty_document_is_altered(rt: HostRuntime) {
    assert!(rt; documents_with(2) == 1020);
    assert!(rt; documents_with(3) == 255);
}
