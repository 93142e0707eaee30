//! What no contract says of `run_play`: that reads and writes which fail end it.

use command_run::RunEnd;
use command_run_tests::readers::Broken;
use command_run_tests::writers::Counter;
use std::alloc::Global;
use wire_play::run_play;

#[test]
fn a_failed_read_writes_nothing(rt: HostRuntime) {
    let mut reader = Broken {
        given: true,
        code: None,
    };
    let mut writer = Counter::failing_at(0);
    let end = run_play(rt.alloc(), &mut reader, &mut writer);
    assert!(rt; end == RunEnd::Unread && writer.calls == 0);
}

/// Returns true if the run of a script ends with the first call of a writer, which fails.
fn ends_at_once(alloc: Global, mut script: &[u8]) -> bool {
    let mut writer = Counter::failing_at(1);
    run_play(alloc, &mut script, &mut writer) == RunEnd::InOut && writer.calls == 1
}

#[test]
fn a_failed_write_ends_the_run(rt: HostRuntime) {
    assert!(rt; ends_at_once(rt.alloc(), b"world echo 1 8 8 48000000\nopen\n"));
    assert!(rt; ends_at_once(rt.alloc(), b"open\n"));
}
