//! What no contract says of `msg --any`: that a failed write ends the run.

use command_run::RunEnd;
use command_run_tests::writers::Counter;
use file_commands::run_any;

#[test]
fn a_failed_write_ends_a_run_of_any_kind(rt: HostRuntime) {
    let mut input = b"10000000 08000000 ffffffff da070000".as_slice();
    let end = run_any(rt.alloc(), true, &mut input, &mut Counter::failing_at(1));
    assert!(rt; end == RunEnd::InOut);
}
