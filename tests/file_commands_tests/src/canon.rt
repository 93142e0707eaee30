//! What no contract says of `canon`: that a document whose canonical form is too large is told, and that writes which fail end the run.

use bson_elem::MAX_LEN;
use command_run::RunEnd;
use command_run_tests::writers::Counter;
use file_commands::{run_canon, run_canon_within};
use std::alloc::Global;

/// Two documents: one of 5 bytes, and one whose canonical form has 27.
const TWO: &str = "0500000000 19000000 04 7600 11000000 10 00 07000000 10 00 08000000 00 00";

/// The limit is on the canonical form.
const LIMITS: [(usize, &str, RunEnd); 4] = [
    (
        27,
        "05000000001b0000000476001300000010300007000000103100080000000000\n",
        RunEnd::Good,
    ),
    (26, "0500000000\nfault 16 TooLarge at 5\n", RunEnd::Fault),
    (5, "0500000000\nfault 16 TooLarge at 5\n", RunEnd::Fault),
    (4, "fault 16 TooLarge at 0\n", RunEnd::Fault),
];

/// Returns true if `canon` with this limit writes this text for the two documents, and ends so.
fn is_made_within(alloc: Global, limit: usize, text: &str, end: RunEnd) -> bool {
    if limit > MAX_LEN {
        return false;
    }
    let mut writer = Vec::new(alloc);
    let ended = run_canon_within(alloc, limit, true, &mut TWO.as_bytes(), &mut writer);
    ended == end && writer.as_slice() == text.as_bytes()
}

#[test]
fn too_large(rt: HostRuntime) {
    for (limit, text, end) in &LIMITS {
        assert!(rt;
            is_made_within(rt.alloc(), *limit, text, *end),
            "at {limit}"
        );
    }
}

#[test]
fn a_failed_write_ends_the_run(rt: HostRuntime) {
    let end = run_canon(
        rt.alloc(),
        false,
        &mut b"\x05\0\0\0\0".as_slice(),
        &mut Counter::failing_at(1),
    );
    assert!(rt; end == RunEnd::InOut);
    let end = run_canon(
        rt.alloc(),
        true,
        &mut b"0500000000".as_slice(),
        &mut Counter::failing_at(1),
    );
    assert!(rt; end == RunEnd::InOut);
}
