//! That of the canonical forms under a limit the first ones are written whole where memory is refused. `scripts/checks/try-refusals`
//! runs this test with each of its allocations refused in turn, and the other commands with the program.

use command_run::RunEnd;
use command_run_tests::writers::Counter;
use file_commands::run_canon_within;
use std::alloc::Global;

/// Two documents: one of 5 bytes, and one whose canonical form has 27.
const TWO: &str = "0500000000 19000000 04 7600 11000000 10 00 07000000 10 00 08000000 00 00";

/// Returns whether the line of both forms is written, or none where memory runs out: nothing was written then, or the first form.
fn writes(alloc: Global) -> Option<bool> {
    let mut writer = Counter::failing_at(0);
    match run_canon_within(alloc, 27, true, &mut TWO.as_bytes(), &mut writer) {
        RunEnd::OutOfMemory if writer.taken == 0 || writer.taken == 10 => None,
        end => Some(end == RunEnd::Good && writer.taken == 65),
    }
}

#[test]
fn canonical_forms_are_written_up_to_a_refused_one(rt: HostRuntime) {
    let holds = match writes(rt.alloc()) {
        Some(holds) => holds,
        None => writes(rt.alloc()) == Some(true),
    };
    assert!(rt; holds);
}
