//! What no contract says of `check --salvage` and `canon --salvage`: that a failed read and a failed write end the run.

use crate::pieces::Steps;
use command_run::RunEnd;
use command_run_tests::writers::Counter;
use file_commands::{salvage_canon, salvage_check};
use std::alloc::Global;

/// Returns true if `check` writes this text of a document, a gap and a document where read number `fails_at` fails, each of one byte.
fn is_read(alloc: Global, fails_at: u64, text: &str, end: RunEnd) -> bool {
    let mut reader = Steps::new(b"\x05\0\0\0\0\x80\x05\0\0\0\0", 1, fails_at);
    let mut writer = Vec::new(alloc);
    let ended = salvage_check(alloc, &mut reader, &mut writer);
    ended == end && writer.as_slice() == text.as_bytes()
}

/// The bytes 80 05 00 00 announce a document, which only the end of the input refuses: so no gap is told before.
#[test]
fn what_is_decided_before_a_failed_read_is_written(rt: HostRuntime) {
    assert!(rt; is_read(rt.alloc(), 5, "", RunEnd::Unread));
    assert!(rt; is_read(rt.alloc(), 6, "ok 5 canonical\n", RunEnd::Unread));
    assert!(rt; is_read(rt.alloc(), 12, "ok 5 canonical\n", RunEnd::Unread));
    let all = "ok 5 canonical\nfault 1 Truncated at 5\ngap 5 6\nok 5 canonical\n";
    assert!(rt; is_read(rt.alloc(), 0, all, RunEnd::Fault));
}

#[test]
fn a_failed_write_ends_the_run(rt: HostRuntime) {
    let mut input = b"\x05\0\0\0\0\x80".as_slice();
    let end = salvage_check(rt.alloc(), &mut input, &mut Counter::failing_at(1));
    assert!(rt; end == RunEnd::InOut);
    let mut input = b"\x05\0\0\0\0\x80".as_slice();
    let end = salvage_canon(rt.alloc(), &mut input, &mut Counter::failing_at(1));
    assert!(rt; end == RunEnd::InOut);
}
