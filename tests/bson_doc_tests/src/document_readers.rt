//! A reader of documents: what it takes, what it holds, what it lends, and what it takes memory
//! for.

use crate::streams::{EMPTY, LIMIT, OTHERS, THREE, TRUTH};
use bson_elem::{BsonCause, BsonFault};
use bson_stream::{DocumentReader, Fed, ReadRefusal, ReaderState};
use std::alloc::Global;
use std::error::Error;

/// `{"a": [true]}`, where the value is named "1".
const OTHER: &[u8; 17] = b"\x11\0\0\0\x04a\0\x09\0\0\0\x081\0\x01\0\0";

/// The state of a reader that has a document in canonical form.
const CANONICAL: ReaderState = ReaderState::Ready { canonical: true };

/// Returns true if the reader takes `taken` bytes of `piece`, and its state is `state` then.
fn takes(reader: &mut DocumentReader, piece: &[u8], taken: usize, state: ReaderState) -> bool {
    reader.feed(piece) == Ok(Fed { taken, state })
}

/// Returns true if the reader lends the document of these bytes.
fn lends(reader: &DocumentReader, bytes: &[u8]) -> bool {
    match reader.document() {
        Some(document) => document.as_bytes() == bytes,
        None => false,
    }
}

/// Returns true if the reader holds `held` bytes, which begin at `start`.
fn stands(reader: &DocumentReader, start: usize, held: usize) -> bool {
    reader.start() == start && reader.held() == held
}

/// Returns true if the first two documents of `THREE` are fed and lent, one after another.
fn lends_two(alloc: Global) -> bool {
    let mut reader = DocumentReader::new(alloc, LIMIT);
    let first = takes(&mut reader, THREE, 5, CANONICAL) && lends(&reader, EMPTY);
    let waits = takes(&mut reader, THREE, 0, CANONICAL) && stands(&reader, 0, 5);
    reader.release();
    let between = stands(&reader, 5, 0) && reader.end().is_ok();
    let second = takes(&mut reader, OTHERS, 9, CANONICAL) && lends(&reader, TRUTH);
    first && waits && between && second && reader.end().is_ok()
}

#[test]
fn documents_are_lent_one_after_another(rt: HostRuntime) {
    assert!(rt; lends_two(rt.alloc()));
}

/// Returns true if the form of a document that isn't canonical is told.
fn tells_the_form(alloc: Global) -> bool {
    let mut reader = DocumentReader::new(alloc, LIMIT);
    takes(
        &mut reader,
        OTHER,
        17,
        ReaderState::Ready { canonical: false },
    ) && lends(&reader, OTHER)
}

#[test]
fn the_form_of_a_document_is_told(rt: HostRuntime) {
    assert!(rt; tells_the_form(rt.alloc()));
}

/// Returns true if the first document is lent from the piece and passed, but not one that isn't whole,
/// nor any while bytes are held.
fn passes_one(alloc: Global) -> bool {
    let mut reader = DocumentReader::new(alloc, LIMIT);
    let Some(front) = reader.front(THREE) else {
        return false;
    };
    let lent = front.document.as_bytes() == EMPTY.as_slice() && front.rest == OTHERS.as_slice();
    let stayed = stands(&reader, 0, 0);
    reader.pass(front.document);
    let moved = stands(&reader, 5, 0) && reader.room() == 0;
    let short = reader.front(b"\x09\0\0\0\x08a\0\x01").is_none();
    let held = takes(&mut reader, b"\x09\0\0", 3, ReaderState::Need);
    let none = reader.front(THREE).is_none();
    reader.pass(front.document);
    lent && stayed && moved && short && held && none && stands(&reader, 5, 3)
}

#[test]
fn a_document_is_passed_where_it_is_whole(rt: HostRuntime) {
    assert!(rt; passes_one(rt.alloc()));
}

/// Returns true if a reader that was fed `held` bytes of a document behind those of `THREE` tells at
/// the end that this document is cut.
fn ends_inside(alloc: Global, held: usize) -> bool {
    let truncated = BsonFault {
        at: 5,
        cause: BsonCause::Truncated,
    };
    let mut reader = DocumentReader::new(alloc, LIMIT);
    let Some(front) = reader.front(THREE) else {
        return false;
    };
    reader.pass(front.document);
    let Some((piece, _)) = TRUTH.split_at_checked(held) else {
        return false;
    };
    takes(&mut reader, piece, held, ReaderState::Need) && reader.end() == Err(truncated)
}

#[test]
fn a_document_ends_inside(rt: HostRuntime) {
    for held in 1..9 {
        assert!(rt; ends_inside(rt.alloc(), held), "{held}");
    }
}

/// Returns true if the reader takes memory for what comes of a document whose length lies, and no
/// more.
fn lies(alloc: Global) -> bool {
    let mut reader = DocumentReader::new(alloc, LIMIT);
    let header = takes(&mut reader, b"\xff\xff\xff\x7f", 4, ReaderState::Need);
    let small = reader.room() <= 8;
    let more = takes(&mut reader, &[0x08; 1000], 1000, ReaderState::Need);
    header && small && more && reader.room() <= 2008 && stands(&reader, 0, 1004)
}

#[test]
fn a_length_that_lies_takes_no_memory(rt: HostRuntime) {
    assert!(rt; lies(rt.alloc()));
}

/// Returns true if a document of the limit is taken, and one that is longer by a byte is refused,
/// as often as it is fed.
fn keeps_its_limit(alloc: Global) -> bool {
    let mut reader = DocumentReader::new(alloc, 9);
    let within = takes(&mut reader, TRUTH, 9, CANONICAL);
    reader.release();
    let front = takes(&mut reader, b"\x0a\0\0", 3, ReaderState::Need);
    let first = reader.feed(b"\0\x01") == Err(ReadRefusal::TooLong);
    let again = reader.feed(b"\0") == Err(ReadRefusal::TooLong);
    within && front && first && again && stands(&reader, 9, 3)
}

#[test]
fn a_reader_keeps_its_limit(rt: HostRuntime) {
    assert!(rt; keeps_its_limit(rt.alloc()));
}

/// Returns true if a bad length is told at its fourth byte, and nothing is taken then.
fn tells_a_bad_length(alloc: Global) -> bool {
    let bad = ReaderState::Bad(BsonFault {
        at: 0,
        cause: BsonCause::Length,
    });
    let mut reader = DocumentReader::new(alloc, LIMIT);
    takes(&mut reader, b"\x04\0\0", 3, ReaderState::Need)
        && takes(&mut reader, b"\0\0\0", 1, bad)
        && takes(&mut reader, THREE, 0, bad)
        && reader.document().is_none()
        && reader.state() == bad
        && reader.end().is_err()
}

#[test]
fn a_bad_length_is_told_at_once(rt: HostRuntime) {
    assert!(rt; tells_a_bad_length(rt.alloc()));
}

/// Returns true if the error is printed as this text.
fn shows<E: Error>(alloc: Global, error: &E, text: &str) -> bool {
    match format!(in alloc; "{error}") {
        Ok(shown) => shown.as_str() == text,
        Err(_) => false,
    }
}

#[test]
fn a_document_readers_refusals_are_printed(rt: HostRuntime) {
    for (refusal, text) in &[
        (ReadRefusal::OutOfMemory, "out of memory"),
        (
            ReadRefusal::TooLong,
            "the document is longer than the limit",
        ),
        (
            ReadRefusal::TooFar,
            "the stream is longer than an offset counts",
        ),
    ] {
        assert!(rt; shows(rt.alloc(), refusal, text), "{text}");
    }
}
