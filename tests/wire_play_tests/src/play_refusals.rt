//! Tests of a script where memory is refused. `scripts/checks/try-refusals` runs them with each of
//! their allocations refused in turn. Only one is refused in a run, so a script that is played
//! again is played to its end.

use crate::kept::{SCRIPT, WHOLE, empty, ends_refused, is_begun, is_played};
use command_run::RunEnd;
use std::alloc::Global;
use wire_play::{PlayStop, play, run_play};

/// Returns true if `play` writes the whole text; or `None` if memory runs out. If that is in an
/// event, the line of its refusal is then the last one, and else the lines of the events before are
/// there.
fn plays(alloc: Global) -> Option<bool> {
    let mut writer = empty();
    match play(alloc, SCRIPT, &mut writer) {
        Ok(None) => is_played(writer.text()),
        Err(PlayStop::OutOfMemory)
            if WHOLE.starts_with(writer.text()) || ends_refused(writer.text()) => { None }
        _ => Some(false),
    }
}

#[test]
fn a_refused_event_ends_the_lines(rt: HostRuntime) {
    let holds = match plays(rt.alloc()) {
        Some(holds) => holds,
        None => plays(rt.alloc()) == Some(true),
    };
    assert!(rt; holds);
}

/// Returns true if `run_play` writes the whole text, or `None` if memory runs out and what was written is right for that: if it ran out
/// in an event, the line of its refusal is the last one, and else that of the event before.
fn runs(alloc: Global) -> Option<bool> {
    let mut writer = empty();
    let mut script = SCRIPT;
    match run_play(alloc, &mut script, &mut writer) {
        RunEnd::Good => is_played(writer.text()),
        RunEnd::OutOfMemory if is_begun(writer.text()) || ends_refused(writer.text()) => None,
        _ => Some(false),
    }
}

#[test]
fn a_script_is_played_up_to_a_refused_event(rt: HostRuntime) {
    let holds = match runs(rt.alloc()) {
        Some(holds) => holds,
        None => runs(rt.alloc()) == Some(true),
    };
    assert!(rt; holds);
}
