//! A test of digits where memory is refused. `scripts/checks/try-refusals` runs it with each of its
//! allocations refused in turn. Only one is refused in a run, so digits that are read again are read.

use script_lines::{LineError, bytes_of};
use std::alloc::Global;

/// Returns true if the digits are read as these bytes, at the second try if memory runs out.
fn reads_bytes(alloc: Global, digits: &[u8], bytes: &[u8]) -> bool {
    let read = match bytes_of(alloc, digits) {
        Err(LineError::OutOfMemory) => bytes_of(alloc, digits),
        read => read,
    };
    match read {
        Ok(read) => read.as_slice() == bytes,
        Err(_) => false,
    }
}

#[test]
fn refused_bytes_are_read_again(rt: HostRuntime) {
    assert!(rt; reads_bytes(rt.alloc(), b"00ff", b"\0\xff"));
}
