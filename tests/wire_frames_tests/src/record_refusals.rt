//! Tests that a reader of records and a list of them stay the same after a refused allocation.
//! `scripts/checks/try-refusals` runs them with each of their allocations refused in turn. Only one
//! is refused in a run, so what is tried again succeeds.

use crate::records::{ANSWER, LIMIT, RECORD, frame_of, head, holds};
use std::alloc::Global;
use wire_frames::{RecordReader, write_record};

/// Returns true if the reader takes the front of `piece`, which has `wanted` bytes; or is refused
/// memory, and takes it when it is fed again.
fn is_fed(reader: &mut RecordReader, piece: &[u8], wanted: usize) -> bool {
    match reader.feed(piece) {
        Ok(n) => n == wanted,
        Err(_) => reader.feed(piece) == Ok(wanted),
    }
}

/// Returns true if the reader reads the record with these bytes.
fn reads(reader: &mut RecordReader, bytes: &[u8]) -> bool {
    let Some((_, message)) = bytes.split_at_checked(20) else {
        return false;
    };
    let Some((_, behind)) = message.split_at_checked(16) else {
        return false;
    };
    is_fed(reader, bytes, 20)
        && is_fed(reader, message, 16)
        && is_fed(reader, behind, behind.len())
        && holds(reader, bytes)
}

/// Returns true if a reader reads both records, the second one after the first is released.
fn reads_both(alloc: Global) -> bool {
    let mut reader = RecordReader::new(alloc, LIMIT);
    let first = reads(&mut reader, RECORD);
    reader.release();
    first && reads(&mut reader, ANSWER)
}

#[test]
fn a_reader_can_be_fed_again(rt: HostRuntime) {
    assert!(rt; reads_both(rt.alloc()));
}

/// Returns true if a record is appended, or is refused memory, adds nothing, and is appended when
/// it is written again.
fn is_appended(alloc: Global) -> bool {
    let mut out = Vec::new(alloc);
    let Some(frame) = frame_of(RECORD) else {
        return false;
    };
    if write_record(head(), frame, &mut out).is_err() {
        let empty = out.is_empty();
        return empty
            && write_record(head(), frame, &mut out).is_ok()
            && out.as_slice() == RECORD.as_slice();
    }
    out.as_slice() == RECORD.as_slice()
}

#[test]
fn a_refused_record_adds_nothing(rt: HostRuntime) {
    assert!(rt; is_appended(rt.alloc()));
}
