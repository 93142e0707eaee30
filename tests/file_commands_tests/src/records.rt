//! What no contract says of a file of records: that its texts are those that were worked out by hand, however the input is cut into
//! pieces, and that reads and writes which fail end the run.

use crate::pieces::Steps;
use command_run::RunEnd;
use command_run_tests::writers::Counter;
use file_commands::{MessageForm, run_any, run_msg};
use std::alloc::Global;

/// A record of a message of opCode 2010, and two bytes more.
const PIECES: &[u8; 46] = b"LUGHREC1\x40\x9e\x75\xce\x8e\x44\x06\x00\x01\0\0\0\0\0\0\0\0\0\0\0\
    \x10\0\0\0\x08\0\0\0\xff\xff\xff\xff\xda\x07\0\0\0\0";

const ONE: &str = "record 1764230000123456 1 >\nother 16 id 8 to -1 opcode 2010\n";

const ALL: &str =
    "record 1764230000123456 1 >\nother 16 id 8 to -1 opcode 2010\nfault 14 EndedInside at 44\n";

/// The most bytes that a read gives, the number of the one that fails or 0, what `msg` writes, and how it ends.
const READS: [(usize, u64, &str, RunEnd); 12] = [
    (46, 0, ALL, RunEnd::Fault),
    (44, 0, ALL, RunEnd::Fault),
    (9, 0, ALL, RunEnd::Fault),
    (8, 0, ALL, RunEnd::Fault),
    (7, 0, ALL, RunEnd::Fault),
    (3, 0, ALL, RunEnd::Fault),
    (1, 0, ALL, RunEnd::Fault),
    (1, 1, "", RunEnd::Unread),
    (1, 8, "", RunEnd::Unread),
    (1, 44, "", RunEnd::Unread),
    (1, 45, ONE, RunEnd::Unread),
    (44, 2, ONE, RunEnd::Unread),
];

/// Returns true if `msg` writes this text for the pieces, as `steps` has it: the most bytes that a read gives, and the number of the
/// one that fails, or 0; and if it ends so.
fn is_read(alloc: Global, steps: (usize, u64), text: &str, end: RunEnd) -> bool {
    let (step, fails_at) = steps;
    let mut reader = Steps::new(PIECES, step, fails_at);
    let mut writer = Vec::new(alloc);
    let ended = run_msg(alloc, MessageForm::Text, false, &mut reader, &mut writer);
    ended == end && writer.as_slice() == text.as_bytes()
}

#[test]
fn records_come_in_pieces(rt: HostRuntime) {
    for (step, fails_at, text, end) in &READS {
        assert!(rt;
            is_read(rt.alloc(), (*step, *fails_at), text, *end),
            "at {step} and {fails_at}"
        );
    }
}

#[test]
fn a_failed_write_ends_a_run_of_records(rt: HostRuntime) {
    let mut input = PIECES.as_slice();
    let end = run_any(rt.alloc(), false, &mut input, &mut Counter::failing_at(1));
    assert!(rt; end == RunEnd::InOut);
}
