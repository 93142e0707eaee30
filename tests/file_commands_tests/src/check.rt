//! What no contract says of `check`: that a failed write ends the run.

use command_run::RunEnd;
use command_run_tests::writers::Counter;
use file_commands::run_check;

#[test]
fn a_failed_write_ends_the_run(rt: HostRuntime) {
    let end = run_check(
        rt.alloc(),
        true,
        &mut b"0500000000".as_slice(),
        &mut Counter::failing_at(1),
    );
    assert!(rt; end == RunEnd::InOut);
}
