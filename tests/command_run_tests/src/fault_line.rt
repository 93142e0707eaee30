//! The line of a fault in the input.

use command_run::write_fault;
use std::alloc::Global;

/// Returns true if this line is written for the fault.
fn has_line(alloc: Global, number: u8, name: &str, offset: usize, line: &str) -> bool {
    let mut out = Vec::new(alloc);
    write_fault(number, name, offset, &mut out).is_ok() && out.as_slice() == line.as_bytes()
}

#[test]
fn ends_a_fault_with_a_line_feed(rt: HostRuntime) {
    let line = "fault 8 Boolean at 4\n";
    assert!(rt; has_line(rt.alloc(), 8, "Boolean", 4, line));
    let line = "fault 11 Depth at 18446744073709551615\n";
    assert!(rt; has_line(rt.alloc(), 11, "Depth", usize::MAX, line));
}
