//! That a run over TCP is good, and how a run ends whose writer fails.

use command_run::RunEnd;
use command_run_tests::writers::Counter;
use wire_play::run_loop;

/// The text of two calls.
const TWO_CALLS: &str = "call 0 id 1 done\ncall 1 id 2 done\nloop 2 done\n";

/// Returns true if two calls over TCP are good, and write their text.
fn are_made(rt: &HostRuntime) -> bool {
    let mut writer = Vec::new(rt.alloc());
    let end = run_loop(rt, 2, &mut writer);
    end == RunEnd::Good && writer.as_slice() == TWO_CALLS.as_bytes()
}

#[test]
fn two_calls_are_made(rt: HostRuntime) {
    assert!(rt; are_made(&rt));
}

/// Returns true if the run ends with its call of the writer number `fails_at`, which fails.
fn ends_at(rt: &HostRuntime, fails_at: u64) -> bool {
    let mut writer = Counter::failing_at(fails_at);
    run_loop(rt, 2, &mut writer) == RunEnd::InOut && writer.calls == fails_at
}

/// Each line is one write, and is flushed.
#[test]
fn a_failed_write_ends_the_run(rt: HostRuntime) {
    for fails_at in 1..7 {
        assert!(rt; ends_at(&rt, fails_at), "at {fails_at}");
    }
}
