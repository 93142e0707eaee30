//! What no contract says of `msg`: that a failed write ends the run.

use command_run::RunEnd;
use command_run_tests::writers::Counter;
use file_commands::{MessageForm, run_msg};

#[test]
fn a_failed_write_ends_the_run(rt: HostRuntime) {
    let mut input = b"1a000000 01000000 00000000 dd070000 00000000 00 0500000000".as_slice();
    let mut writer = Counter::failing_at(1);
    let end = run_msg(rt.alloc(), MessageForm::Text, true, &mut input, &mut writer);
    assert!(rt; end == RunEnd::InOut);
}
