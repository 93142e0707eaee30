//! Writes what came of a run: a line for each call, and a last one.

ghost use Rattle.std.specs.Prelude.{◌≡◌, OnOk};
ghost use Rattle.std.specs.Io.KnownBytes.{Appends};
ghost use Rattle.client_examples.specs.Lines.{call_line, call_lines, kind_word, run_text};
ghost use Rattle.client_examples.specs.Lines.{state_word};

use crate::pair::ends::Ends;
use anyhow::Result;
use std::io;
use std::io::Write;
use wire_end::{CallRecord, CallState};
use wire_peer::CallKind;

/// Returns the word for the kind of a call.
fn kind_word(kind: CallKind) -> &'static str
    ensures { result.now ≡ kind_word kind }
{
    match kind {
        CallKind::Plain => "plain",
        CallKind::Exhaust => "exhaust",
        CallKind::Unacknowledged => "unacknowledged",
    }
}

/// Returns the word for the state of a call.
fn state_word(state: CallState) -> &'static str
    ensures { result.now ≡ state_word state }
{
    match state {
        CallState::Pending => "pending",
        CallState::Done => "done",
        CallState::Sent => "sent",
        CallState::Lost => "lost",
    }
}

/// Writes the line of a call: its number, its kind, its state, and the number of its parts.
fn write_call<W: Write>(k: usize, call: &CallRecord, out: &mut W) -> io::Result<()>
    ensures { OnOk result
        (Appends (W.contents out.old) (W.contents out.new) (call_line k call.now)) }
{
    let kind = kind_word(call.kind);
    let state = state_word(call.state);
    let parts = call.parts.len();
    writeln!(out, "call {k} {kind} {state} {parts}")
}

/// Writes a line for each call.
fn write_calls<W: Write>(calls: &[CallRecord], out: &mut W) -> io::Result<()>
    ensures { OnOk result
        (Appends (W.contents out.old) (W.contents out.new) (call_lines 0 calls.now)) }
{
    for (k, call) in calls.iter().enumerate() {
        write_call(k, call, out)?;
    }
    Ok(())
}

/// Writes a line for each call, and a last one with the numbers of calls and of entries in the log.
pub(crate) fn write_run<H, W: Write>(ends: &Ends<H>, out: &mut W) -> Result<()>
    ensures { OnOk result
        (Appends (W.contents out.old) (W.contents out.new) (run_text ends.now)) }
{
    write_calls(&ends.calls, out)?;
    let calls = ends.calls.len();
    let entries = ends.logged.entries().len();
    writeln!(out, "calls {calls} entries {entries}")?;
    Ok(())
}
