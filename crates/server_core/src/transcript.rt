//! Writes the transcript: each connection that is new, each request with its answer under the
//! number of its connection, and how each connection ended.

ghost use Rattle.std.specs.Prelude.{◌≡◌, OnOk, codes, flat_map, map};
ghost use Rattle.text_writer.specs.{WritesOut};
ghost use Rattle.wire_msg.specs.{Carries, Content};
ghost use Rattle.wire_peer.specs.{buf_content, entry_of, log_of, outcome_of};
ghost use Rattle.server_core.specs.Transcript.{answer_text, cause_text, end_text, entry_text};
ghost use Rattle.server_core.specs.Transcript.{leave_text, new_text, outcome_text, payload_text};
ghost use Rattle.server_core.specs.Transcript.{request_text, server_cause_text, told_text};

use bson_text::{dump_to, quoted_to};
use command_parts::name_of;
use std::io;
use std::io::Write;
use wire_msg::{Payload, PayloadBuf};
use wire_peer::{Entry, Outcome, ServerCause};
use wire_serve::{CloseCause, Leave};
use wire_text::{Detail, write_sequences};

/// Writes the text of a body, and the line of each sequence.
fn write_payload<W: Write>(payload: Payload<'_>, out: &mut W) -> io::Result<()>
    ensures { (c : Content) → Carries payload.entry c → OnOk result
        (WritesOut W.contents out.old out.new (payload_text c)) }
{
    dump_to(payload.body(), out)?;
    write_sequences(payload, Detail::Line, out)
}

/// Writes the line of the command's name, and the payload.
fn write_named<W: Write>(payload: Payload<'_>, out: &mut W) -> io::Result<()>
    ensures { (c : Content) → Carries payload.entry c → OnOk result
        (WritesOut W.contents out.old out.new (request_text c)) }
{
    out.write_all(b"request ")?;
    quoted_to(name_of(payload.body()), out)?;
    out.write_all(b"\n")?;
    write_payload(payload, out)
}

/// Writes a request.
fn write_request<W: Write>(request: &PayloadBuf, out: &mut W) -> io::Result<()>
    ensures { OnOk result (WritesOut W.contents out.old out.new
        (request_text (buf_content request.now))) }
{
    write_named(request.as_payload(), out)
}

/// Writes an answer, after a line `answer`.
fn write_answer<W: Write>(answer: &PayloadBuf, out: &mut W) -> io::Result<()>
    ensures { OnOk result (WritesOut W.contents out.old out.new
        (answer_text (buf_content answer.now))) }
{
    out.write_all(b"answer\n")?;
    write_payload(answer.as_payload(), out)
}

/// Writes answers, in order.
fn write_answers<W: Write>(answers: &[PayloadBuf], out: &mut W) -> io::Result<()>
    ensures { OnOk result (WritesOut W.contents out.old out.new
        (flat_map answer_text (map buf_content answers.now))) }
{
    for answer in answers {
        write_answer(answer, out)?;
    }
    Ok(())
}

/// Writes the outcome of a request.
fn write_outcome<W: Write>(outcome: &Outcome, out: &mut W) -> io::Result<()>
    ensures { OnOk result (WritesOut W.contents out.old out.new
        (outcome_text (outcome_of outcome.now))) }
{
    match outcome {
        Outcome::Answered(answers) => write_answers(answers.as_slice(), out),
        Outcome::Failed => out.write_all(b"no answer\n"),
    }
}

/// Writes a request, and its outcome.
fn write_entry<W: Write>(entry: &Entry, out: &mut W) -> io::Result<()>
    ensures { OnOk result (WritesOut W.contents out.old out.new (entry_text (entry_of entry.now))) }
{
    write_request(&entry.payload, out)?;
    write_outcome(&entry.outcome, out)
}

/// Writes the line of its connection, a request, and its outcome.
fn write_told<W: Write>(entry: &Entry, out: &mut W) -> io::Result<()>
    ensures { OnOk result (WritesOut W.contents out.old out.new (told_text (entry_of entry.now))) }
{
    let number = entry.connection;
    writeln!(out, "connection {number}")?;
    write_entry(entry, out)
}

/// Writes requests, and the outcome of each, in order.
///
/// # Errors
///
/// Returns the error of the writer, which may have taken a part of the text.
pub(crate) fn write_entries<W: Write>(entries: &[Entry], out: &mut W) -> io::Result<()>
    ensures { OnOk result (WritesOut W.contents out.old out.new
        (flat_map told_text (log_of entries.now))) }
{
    for entry in entries {
        write_told(entry, out)?;
    }
    Ok(())
}

/// Writes the line of a connection that is new.
pub(crate) fn write_new<W: Write>(number: u64, out: &mut W) -> io::Result<()>
    ensures { OnOk result (WritesOut W.contents out.old out.new (new_text number)) }
{
    writeln!(out, "connection {number} new")
}

/// Writes why a server closed.
fn write_server_cause<W: Write>(cause: ServerCause, out: &mut W) -> io::Result<()>
    ensures { OnOk result (WritesOut W.contents out.old out.new (server_cause_text cause)) }
{
    match cause {
        ServerCause::Message(fault) => writeln!(out, "{fault}"),
        ServerCause::Ended => out.write_all(b"Ended\n"),
        ServerCause::EndedInside => out.write_all(b"EndedInside\n"),
        ServerCause::ReplyTooLarge => out.write_all(b"ReplyTooLarge\n"),
        ServerCause::NoMemory => out.write_all(b"OutOfMemory\n"),
        ServerCause::HandlerFailed => out.write_all(b"HandlerFailed\n"),
    }
}

/// Writes why a server connection closed.
fn write_cause<W: Write>(cause: CloseCause, out: &mut W) -> io::Result<()>
    ensures { OnOk result (WritesOut W.contents out.old out.new (cause_text cause)) }
{
    match cause {
        CloseCause::Server(cause) => write_server_cause(cause, out),
        CloseCause::Query(fault) => writeln!(out, "{fault}"),
        CloseCause::EndedInside => out.write_all(b"EndedInside\n"),
        CloseCause::NotAlone => out.write_all(b"NotAlone\n"),
        CloseCause::ReplyTooLarge => out.write_all(b"ReplyTooLarge\n"),
        CloseCause::NoMemory => out.write_all(b"OutOfMemory\n"),
    }
}

/// Writes why a connection is over.
fn write_leave<W: Write>(leave: Leave, out: &mut W) -> io::Result<()>
    ensures { OnOk result (WritesOut W.contents out.old out.new (leave_text leave)) }
{
    match leave {
        Leave::Closed(cause) => write_cause(cause, out),
        Leave::Link(_) => out.write_all(b"Link\n"),
        Leave::OutOfMemory => out.write_all(b"OutOfMemory\n"),
    }
}

/// Writes the line of how a connection ended.
pub(crate) fn write_end<W: Write>(number: u64, leave: Leave, out: &mut W) -> io::Result<()>
    ensures { OnOk result (WritesOut W.contents out.old out.new (end_text number leave)) }
{
    write!(out, "connection {number} end ")?;
    write_leave(leave, out)
}
