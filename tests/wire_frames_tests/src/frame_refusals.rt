//! Tests that a reader of frames stays the same after a refused allocation.
//! `scripts/checks/try-refusals` runs them with each of their allocations refused in turn. Only one
//! is refused in a run, so what is tried again succeeds.

use crate::frames::{LIMIT, PING, QUERY, holds};
use std::alloc::Global;
use wire_frames::FrameReader;

/// Returns true if the reader takes the front of `piece`, which has `wanted` bytes; or is refused
/// memory, and takes it when it is fed again.
fn is_fed(reader: &mut FrameReader, piece: &[u8], wanted: usize) -> bool {
    match reader.feed(piece) {
        Ok(n) => n == wanted,
        Err(_) => reader.feed(piece) == Ok(wanted),
    }
}

/// Returns true if the reader reads the frame with these bytes.
fn reads(reader: &mut FrameReader, bytes: &[u8]) -> bool {
    let Some((_, behind)) = bytes.split_at_checked(16) else {
        return false;
    };
    is_fed(reader, bytes, 16) && is_fed(reader, behind, behind.len()) && holds(reader, bytes)
}

/// Returns true if a reader reads both frames, the second one after the first is released.
fn reads_both(alloc: Global) -> bool {
    let mut reader = FrameReader::new(alloc, LIMIT);
    let first = reads(&mut reader, PING);
    reader.release();
    first && reads(&mut reader, QUERY)
}

#[test]
fn a_reader_can_be_fed_again(rt: HostRuntime) {
    assert!(rt; reads_both(rt.alloc()));
}
