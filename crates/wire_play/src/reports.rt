//! Writes the line of an event's result: what it has done, or why it is refused. No function here
//! takes memory.

ghost use Rattle.std.specs.Prelude.{◌≡◌, ◌++◌, OnOk, codes};
ghost use Rattle.text_writer.specs.{WritesOut};
ghost use Rattle.wire_play.specs.Reports.{cause_text, hex_or_dash, refusal_line, refusal_text};
ghost use Rattle.wire_play.specs.Reports.{report_line, result_line};

use bson_text::hex_to;
use std::io;
use std::io::Write;
use wire_peer::{AnswerRefusal, CallRefusal, ServerCause};
use wire_world::{Report, WorldRefusal};

/// Returns the number and the name of the cause for which a server closed.
fn cause_text(cause: ServerCause) -> &'static str
    ensures { result.now ≡ cause_text cause }
{
    match cause {
        ServerCause::Message(_) => "1 Message",
        ServerCause::Ended => "2 Ended",
        ServerCause::EndedInside => "3 EndedInside",
        ServerCause::ReplyTooLarge => "4 ReplyTooLarge",
        ServerCause::NoMemory => "5 NoMemory",
        ServerCause::HandlerFailed => "6 HandlerFailed",
    }
}

/// Returns the number and the name of a refusal, and of the client's or server's own reason for
/// it.
fn refusal_text(refusal: WorldRefusal) -> &'static str
    ensures { result.now ≡ refusal_text refusal }
{
    match refusal {
        WorldRefusal::NoConnection => "1 NoConnection",
        WorldRefusal::Cut => "2 Cut",
        WorldRefusal::NotLent => "3 NotLent",
        WorldRefusal::Full => "4 Full",
        WorldRefusal::Call(CallRefusal::Closed) => "5 Call 1 Closed",
        WorldRefusal::Call(CallRefusal::WindowFull) => "5 Call 2 WindowFull",
        WorldRefusal::Call(CallRefusal::TooLarge) => "5 Call 3 TooLarge",
        WorldRefusal::Call(CallRefusal::NumbersSpent) => "5 Call 6 NumbersSpent",
        WorldRefusal::Call(CallRefusal::OutOfMemory) => "5 Call OutOfMemory",
        WorldRefusal::Answer(AnswerRefusal::NoSuchRequest) => "6 Answer 1 NoSuchRequest",
        WorldRefusal::Answer(AnswerRefusal::Closed) => "6 Answer 2 Closed",
        WorldRefusal::Answer(AnswerRefusal::NowClosed(_)) => "6 Answer 3 NowClosed",
        WorldRefusal::Answer(AnswerRefusal::OutOfMemory) => "6 Answer OutOfMemory",
        WorldRefusal::OutOfMemory => "7 OutOfMemory",
        WorldRefusal::Raw => "8 Raw",
        WorldRefusal::NotRaw => "9 NotRaw",
    }
}

/// Writes the line of a refused event.
fn write_refusal<W: Write>(refusal: WorldRefusal, out: &mut W) -> io::Result<()>
    ensures { OnOk result (WritesOut W.contents out.old out.new (refusal_line refusal)) }
{
    let why = refusal_text(refusal);
    writeln!(out, "refused {why}")
}

/// Writes the line of bytes that were taken away: in hexadecimal, or `-` if there are none.
fn write_bytes<W: Write>(bytes: &[u8], out: &mut W) -> io::Result<()>
    ensures { OnOk result (WritesOut W.contents out.old out.new
        (codes "bytes " ++ (hex_or_dash bytes.now ++ codes "\n"))) }
{
    if bytes.is_empty() {
        return out.write_all(b"bytes -\n");
    }
    out.write_all(b"bytes ")?;
    hex_to(bytes, out)?;
    out.write_all(b"\n")
}

/// Writes the line of what an event has done.
fn write_report<W: Write>(report: &Report, out: &mut W) -> io::Result<()>
    ensures { OnOk result (WritesOut W.contents out.old out.new (report_line report.now)) }
{
    match report {
        Report::Opened {
            connection,
            new: true,
        } => writeln!(out, "connection {connection} new"),
        Report::Opened {
            connection,
            new: false,
        } => writeln!(out, "connection {connection} used"),
        Report::Kept => out.write_all(b"kept\n"),
        Report::Dropped => out.write_all(b"dropped\n"),
        Report::Called { call, id } => writeln!(out, "call {call} id {id}"),
        Report::Moved(moved) => writeln!(out, "moved {moved}"),
        Report::Entry(entry) => writeln!(out, "entry {entry}"),
        Report::ClosedBy(cause) => {
            let cause = cause_text(*cause);
            writeln!(out, "closed {cause}")
        }
        Report::Done => out.write_all(b"ok\n"),
        Report::RawOpened(connection) => writeln!(out, "connection {connection} raw"),
        Report::RawMoved {
            moved,
            closed: None,
        } => writeln!(out, "moved {moved}"),
        Report::RawMoved {
            moved,
            closed: Some(cause),
        } => {
            let cause = cause_text(*cause);
            writeln!(out, "moved {moved} closed {cause}")
        }
        Report::Bytes(bytes) => write_bytes(bytes, out),
    }
}

/// Writes the line of an event's result.
pub fn write_result<W: Write>(ended: &Result<Report, WorldRefusal>, out: &mut W) -> io::Result<()>
    ensures { OnOk result (WritesOut W.contents out.old out.new (result_line ended.now)) }
{
    match ended {
        Ok(report) => write_report(report, out),
        Err(refusal) => write_refusal(*refusal, out),
    }
}
