//! Writes the lists that end a run: the calls with their parts, and the entries of the log. No
//! function here takes memory.

ghost use Rattle.std.specs.Prelude.{◌≡◌, OnOk, false, flat_map, if◌then◌else◌, map, true};
ghost use Rattle.text_writer.specs.{WritesOut};
ghost use Rattle.bson_elem.specs.{document, elements};
ghost use Rattle.wire_peer.specs.{allows_more, awaits_reply, buf_content, entry_of, outcome_of};
ghost use Rattle.wire_world.specs.{contents_of, record_of, state_of};
ghost use Rattle.wire_play.specs.Closing.{body_text, call_line, call_text, closing_text};
ghost use Rattle.wire_play.specs.Closing.{entry_line, kind_word, numbered, outcome_text, part_line};
ghost use Rattle.wire_play.specs.Closing.{state_word};

use bson_text::hex_to;
use std::io;
use std::io::Write;
use wire_msg::PayloadBuf;
use wire_peer::{CallKind, Entry, Outcome};
use wire_world::{CallRecord, CallState, World};

/// Returns the bytes of the body of a payload.
fn body_of(payload: &PayloadBuf) -> &[u8]
    ensures { result.now ≡ document (elements ((buf_content payload.now).body)) }
{
    payload.as_payload().body().as_bytes()
}

/// Returns the word for what a call asks for.
fn kind_word(kind: CallKind) -> &'static str
    ensures { result.now ≡ kind_word (allows_more kind)
        (if awaits_reply kind then false else true) }
{
    match kind {
        CallKind::Plain => "plain",
        CallKind::Exhaust => "exhaust",
        CallKind::Unacknowledged => "unacknowledged",
    }
}

/// Returns the word for the state of a call.
fn state_word(state: CallState) -> &'static str
    ensures { result.now ≡ state_word (state_of state) }
{
    match state {
        CallState::Pending => "pending",
        CallState::Done => "done",
        CallState::Sent => "sent",
        CallState::Lost => "lost",
    }
}

/// Writes the line of a call.
fn write_call_line<W: Write>(k: usize, call: &CallRecord, out: &mut W) -> io::Result<()>
    ensures { OnOk result (WritesOut W.contents out.old out.new
        (call_line k (record_of call.now))) }
{
    let connection = call.connection;
    let kind = kind_word(call.kind);
    let state = state_word(call.state);
    let parts = call.parts.len();
    writeln!(
        out,
        "call {k} connection {connection} {kind} {state} {parts}"
    )
}

/// Writes the word `body`, the body in hexadecimal, and the end of the line.
fn write_body<W: Write>(payload: &PayloadBuf, out: &mut W) -> io::Result<()>
    ensures { OnOk result (WritesOut W.contents out.old out.new
        (body_text (buf_content payload.now))) }
{
    out.write_all(b" body ")?;
    hex_to(body_of(payload), out)?;
    out.write_all(b"\n")
}

/// Writes the line of a part.
fn write_part<W: Write>(part: &PayloadBuf, out: &mut W) -> io::Result<()>
    ensures { OnOk result (WritesOut W.contents out.old out.new
        (part_line (buf_content part.now))) }
{
    out.write_all(b"part ")?;
    hex_to(body_of(part), out)?;
    out.write_all(b"\n")
}

/// Writes a line for each part.
fn write_parts<W: Write>(parts: &[PayloadBuf], out: &mut W) -> io::Result<()>
    ensures { OnOk result (WritesOut W.contents out.old out.new
        (flat_map part_line (contents_of parts.now))) }
{
    for part in parts {
        write_part(part, out)?;
    }
    Ok(())
}

/// Writes the line of a call, and a line for each of its parts.
fn write_call<W: Write>(k: usize, call: &CallRecord, out: &mut W) -> io::Result<()>
    ensures { OnOk result (WritesOut W.contents out.old out.new
        (call_text k (record_of call.now))) }
{
    write_call_line(k, call, out)?;
    write_parts(&call.parts, out)
}

/// Writes the calls, in order.
fn write_calls<W: Write>(calls: &[CallRecord], out: &mut W) -> io::Result<()>
    ensures { OnOk result (WritesOut W.contents out.old out.new
        (numbered call_text 0 (map record_of calls.now))) }
{
    for (k, call) in calls.iter().enumerate() {
        write_call(k, call, out)?;
    }
    Ok(())
}

/// Writes the outcome of a request.
fn write_outcome<W: Write>(outcome: &Outcome, out: &mut W) -> io::Result<()>
    ensures { OnOk result (WritesOut W.contents out.old out.new
        (outcome_text (outcome_of outcome.now))) }
{
    match outcome {
        Outcome::Answered(answers) => {
            let count = answers.len();
            write!(out, " answers {count}")
        }
        Outcome::Failed => out.write_all(b" failed"),
    }
}

/// Writes the line of an entry.
fn write_entry<W: Write>(e: usize, entry: &Entry, out: &mut W) -> io::Result<()>
    ensures { OnOk result (WritesOut W.contents out.old out.new
        (entry_line e (entry_of entry.now))) }
{
    let connection = entry.connection;
    write!(out, "entry {e} connection {connection}")?;
    write_outcome(&entry.outcome, out)?;
    write_body(&entry.payload, out)
}

/// Writes the entries, in order.
fn write_entries<W: Write>(entries: &[Entry], out: &mut W) -> io::Result<()>
    ensures { OnOk result (WritesOut W.contents out.old out.new
        (numbered entry_line 0 (map entry_of entries.now))) }
{
    for (e, entry) in entries.iter().enumerate() {
        write_entry(e, entry, out)?;
    }
    Ok(())
}

/// Writes the number of calls of a world, and each of them; and then the number of entries of its
/// log, and each of them.
pub fn write_closing<H, W: Write>(world: &World<H>, out: &mut W) -> io::Result<()>
    ensures { OnOk result (WritesOut W.contents out.old out.new (closing_text world.now.state)) }
{
    let calls = world.calls();
    let count = calls.len();
    writeln!(out, "calls {count}")?;
    write_calls(calls, out)?;
    let entries = world.log();
    let count = entries.len();
    writeln!(out, "entries {count}")?;
    write_entries(entries, out)
}
