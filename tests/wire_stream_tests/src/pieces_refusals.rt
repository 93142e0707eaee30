//! Tests of `read_pieces` where memory is refused. They pass with each of their allocations refused
//! in turn. Only one is refused in a run, so pieces that are read again are read.

use crate::pieces::{PING, is_two_pings, reads_two};
use std::alloc::Global;
use wire_stream::{ReadRefusal, read_pieces};

/// Returns true if two pings are read, at the second try if memory is refused.
fn reads_at_last(alloc: Global) -> bool {
    let pieces: [&[u8]; 2] = [PING, PING];
    match read_pieces(alloc, 48_000_000, pieces.as_slice()) {
        Ok(read) => is_two_pings(&read),
        Err(ReadRefusal::OutOfMemory) => reads_two(alloc, pieces.as_slice()),
    }
}

#[test]
fn pieces_can_be_read_again(rt: HostRuntime) {
    assert!(rt; reads_at_last(rt.alloc()));
}
