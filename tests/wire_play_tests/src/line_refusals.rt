//! A test of lines where memory is refused. `scripts/checks/try-refusals` runs it with each of its
//! allocations refused in turn. Only one is refused in a run, so a line that is read again is read.

use crate::readings::{Reading, is_reading, reads};
use script_lines::LineError;
use std::alloc::Global;
use wire_peer::CallKind;
use wire_play::parse_line;

/// Returns true if the line is read as `reading`, at the second try if memory runs out.
fn reads_at_last(alloc: Global, line: &[u8], reading: Reading<'_>) -> bool {
    match parse_line(alloc, line) {
        Ok(line) => is_reading(&line, reading),
        Err(error) => error == LineError::OutOfMemory && reads(alloc, line, reading),
    }
}

#[test]
fn a_refused_line_is_not_malformed(rt: HostRuntime) {
    let call = Reading::Call(1, CallKind::Plain, b"\x05\0\0\0\0");
    assert!(rt; reads_at_last(rt.alloc(), b"call 1 0500000000", call));
    assert!(rt; reads_at_last(rt.alloc(), b"raw 1 00ff", Reading::Raw(1, b"\0\xff")));
}
