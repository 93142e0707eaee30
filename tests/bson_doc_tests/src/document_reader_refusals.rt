//! Tests of what stands after a refused allocation. They pass with each of their allocations
//! refused in turn. No other one is refused then, so what is asked for again is granted.

use crate::streams::{EMPTY, LIMIT, OTHERS, TRUTH};
use bson_elem::{BsonCause, BsonFault};
use bson_raw::RawDocument;
use bson_stream::{
    DocumentBuf, DocumentReader, Fed, Find, Gap, GapFault, ReadRefusal, ReaderState, SalvagedPart,
    Salvager, read_pieces, salvage_pieces,
};
use std::alloc::Global;

/// Returns true if the reader takes all of the piece and needs more, or is refused memory and is as
/// before; it takes the piece then, when it is fed again.
fn is_fed(reader: &mut DocumentReader, piece: &[u8], held: usize, room: usize) -> bool {
    let fed = Fed {
        taken: piece.len(),
        state: ReaderState::Need,
    };
    match reader.feed(piece) {
        Ok(first) => first == fed,
        Err(refusal) => {
            refusal == ReadRefusal::OutOfMemory
                && reader.held() == held
                && reader.room() == room
                && reader.feed(piece) == Ok(fed)
        }
    }
}

/// Returns true if a reader takes three pieces of one document, the memory growing with each.
fn takes_three(alloc: Global) -> bool {
    let mut reader = DocumentReader::new(alloc, LIMIT);
    let first = is_fed(&mut reader, b"\xff\0\0", 0, 0);
    let room = reader.room();
    let second = is_fed(&mut reader, b"\0\x08a\0\x01\x08b\0\x01", 3, room);
    let room = reader.room();
    first && second && is_fed(&mut reader, &[0x0a; 200], 12, room)
}

#[test]
fn a_reader_of_documents_can_be_fed_again(rt: HostRuntime) {
    assert!(rt; takes_three(rt.alloc()));
}

/// Returns true if these are three documents, the last one of 22 bytes.
fn are_three(documents: &[DocumentBuf]) -> bool {
    match documents {
        [_, _, last] => last.as_document().as_bytes().len() == 22,
        _ => false,
    }
}

/// Returns true if three documents are read of the pieces.
fn reads_again(alloc: Global, pieces: &[&[u8]]) -> bool {
    match read_pieces(alloc, LIMIT, pieces) {
        Ok(read) => are_three(&read.documents),
        Err(_) => false,
    }
}

/// Returns true if three documents are read, or memory is refused and they are read the next time.
fn reads_at_last(alloc: Global) -> bool {
    let pieces: [&[u8]; 2] = [EMPTY, OTHERS];
    match read_pieces(alloc, LIMIT, pieces.as_slice()) {
        Ok(read) => are_three(&read.documents),
        Err(refusal) => {
            refusal == ReadRefusal::OutOfMemory && reads_again(alloc, pieces.as_slice())
        }
    }
}

#[test]
fn pieces_of_documents_can_be_read_again(rt: HostRuntime) {
    assert!(rt; reads_at_last(rt.alloc()));
}

/// Returns true if the salvager takes the piece, or is refused memory and is as before; it takes the
/// piece then, when it is fed again.
fn is_taken(salvager: &mut Salvager, piece: &[u8], room: usize) -> bool {
    match salvager.feed(piece) {
        Ok(()) => true,
        Err(refusal) => {
            refusal == ReadRefusal::OutOfMemory
                && salvager.room() == room
                && salvager.feed(piece) == Ok(())
        }
    }
}

/// Returns true if a salvager takes two pieces, the memory growing with each, and finds a document.
fn salvager_takes_two(alloc: Global) -> bool {
    let mut salvager = Salvager::new(alloc, 64);
    let first = is_taken(&mut salvager, b"\x05\0\0", 0);
    let room = salvager.room();
    let second = is_taken(&mut salvager, &[0; 200], room);
    let found = Find::Document {
        len: 5,
        canonical: true,
    };
    first && second && salvager.find(false) == found
}

#[test]
fn a_salvager_can_be_fed_again(rt: HostRuntime) {
    assert!(rt; salvager_takes_two(rt.alloc()));
}

/// `{}`, `{"a": true}` whose boolean is 02, and `{"hello": "world"}`, cut inside the last one.
const DAMAGED: [&[u8]; 2] = [
    b"\x05\0\0\0\0\x09\0\0\0\x08a\0\x02\0\x16\0\0\0\x02h",
    b"ello\0\x06\0\0\0world\0\0",
];

/// What is wrong between the other two documents.
const WRONG_BOOLEAN: Gap = Gap {
    from: 5,
    to: 14,
    fault: GapFault::Bson(BsonFault {
        at: 9,
        cause: BsonCause::Boolean,
    }),
};

/// Returns true if these are the parts of the damaged stream.
fn are_its_parts(parts: &[SalvagedPart]) -> bool {
    match parts {
        [
            SalvagedPart::Document {
                at: 0,
                document: first,
            },
            SalvagedPart::Gap(gap),
            SalvagedPart::Document {
                at: 14,
                document: last,
            },
        ] => {
            copies(first, EMPTY)
                && *gap == WRONG_BOOLEAN
                && last.as_document().as_bytes().len() == 22
        }
        _ => false,
    }
}

/// Returns true if the parts of the damaged stream are found.
fn salvages_again(alloc: Global) -> bool {
    match salvage_pieces(alloc, 64, DAMAGED.as_slice()) {
        Ok(parts) => are_its_parts(&parts),
        Err(_) => false,
    }
}

/// Returns true if they are found, or memory is refused and they are found the next time.
fn salvages_at_last(alloc: Global) -> bool {
    match salvage_pieces(alloc, 64, DAMAGED.as_slice()) {
        Ok(parts) => are_its_parts(&parts),
        Err(refusal) => refusal == ReadRefusal::OutOfMemory && salvages_again(alloc),
    }
}

#[test]
fn pieces_of_a_damaged_stream_can_be_salvaged_again(rt: HostRuntime) {
    assert!(rt; salvages_at_last(rt.alloc()));
}

/// Returns true if the copy lends these bytes.
fn copies(copy: &DocumentBuf, bytes: &[u8]) -> bool {
    copy.as_document().as_bytes() == bytes
}

/// Returns true if the document is copied, or memory is refused and it is copied the next time.
fn is_copied(alloc: Global, document: RawDocument<'_>) -> bool {
    match DocumentBuf::copy_of(alloc, document) {
        Ok(copy) => copies(&copy, document.as_bytes()),
        Err(_) => match DocumentBuf::copy_of(alloc, document) {
            Ok(copy) => copies(&copy, document.as_bytes()),
            Err(_) => false,
        },
    }
}

#[test]
fn a_document_of_a_stream_can_be_copied_again(rt: HostRuntime) {
    match RawDocument::from_bytes(TRUTH) {
        Ok(document) => { assert!(rt; is_copied(rt.alloc(), document)) }
        Err(_) => { assert!(rt; false) }
    }
}
