//! Tests of an input that comes in pieces, and what stands in it after a refused allocation. One
//! allocation is refused in a run, so what is tried again succeeds.

use bson_json_read::{Cause, NextBytes, Place, TextReader};
use std::alloc::Global;

/// An array of two documents and of a text that ends too early, in three lines.
const INPUT: &[u8] = b"[{\"a\": \"}\\\"\"},\n {\"b\": {\"c\": true}}, {\"d\"\n";

/// The bytes of the two documents, one after another.
const DOCUMENTS: [u8; 32] = [
    15, 0, 0, 0, 2, b'a', 0, 3, 0, 0, 0, b'}', b'"', 0, 0, 17, 0, 0, 0, 3, b'b', 0, 9, 0, 0, 0, 8,
    b'c', 0, 1, 0, 0,
];

/// Where the text that ends too early does.
const END: Place = Place { line: 3, column: 1 };

/// Feeds bytes, a second time if memory was refused to the first one.
fn feed(reader: &mut TextReader, piece: &[u8]) -> bool {
    reader.feed(piece).is_ok() || reader.feed(piece).is_ok()
}

/// Appends the documents of the texts that are whole. Returns the fault of what is next, if there is
/// one, and tries once more what memory was refused to.
fn read_whole(
    alloc: Global,
    reader: &mut TextReader,
    last: bool,
    documents: &mut Vec<u8>,
) -> Option<(Cause, Place)> {
    let mut bytes = Vec::new(alloc);
    for _ in 0..4 {
        match reader.next_bytes(alloc, last, &mut bytes) {
            Ok(Some(NextBytes::Document)) => {
                if documents.extend_from_slice(&bytes).is_err() {
                    let _ = documents.extend_from_slice(&bytes);
                }
            }
            Ok(_) => return None,
            Err(fault) if fault.cause == Cause::OutOfMemory => {}
            Err(fault) => return Some((fault.cause, fault.place)),
        }
    }
    None
}

/// Returns true if the input has its documents and its fault, where a piece has so many bytes, of
/// which there are some.
fn comes_in_pieces(alloc: Global, size: usize) -> bool {
    if size == 0 {
        return false;
    }
    let mut reader = TextReader::new(alloc);
    let mut documents = Vec::new(alloc);
    for piece in INPUT.chunks(size) {
        if !feed(&mut reader, piece)
            || read_whole(alloc, &mut reader, false, &mut documents).is_some()
        {
            return false;
        }
    }
    let fault = read_whole(alloc, &mut reader, true, &mut documents);
    documents.as_slice() == DOCUMENTS.as_slice() && fault == Some((Cause::NotJson, END))
}

#[test]
fn texts_come_in_pieces(rt: HostRuntime) {
    for size in [1, 2, 7, 100] {
        assert!(rt; comes_in_pieces(rt.alloc(), size), "{size}");
    }
}
