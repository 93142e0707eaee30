//! What no contract says of `json`: that writes which fail end the run.

use command_run::RunEnd;
use command_run_tests::writers::Counter;
use file_commands::{Layout, Mode, run_json};
use std::alloc::Global;

/// Returns how a run ends over one document, whose writer fails at its first call.
fn end_where_writing_fails(alloc: Global, layout: Layout) -> RunEnd {
    run_json(
        alloc,
        Mode::Canonical,
        layout,
        false,
        &mut b"\x05\0\0\0\0".as_slice(),
        &mut Counter::failing_at(1),
    )
}

#[test]
fn a_failed_write_ends_the_run(rt: HostRuntime) {
    assert!(rt; end_where_writing_fails(rt.alloc(), Layout::Lines) == RunEnd::InOut);
    assert!(rt; end_where_writing_fails(rt.alloc(), Layout::Array) == RunEnd::InOut);
}
