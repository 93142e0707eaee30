//! Writes the text of a message of any opCode. Memory is taken to check an OP_MSG.

ghost use Rattle.std.specs.Prelude.{◌≡◌, ◌+◌, ◌<◌, ◌^◌, OnOk, length};
ghost use Rattle.std.specs.Io.KnownBytes.{Appends};
ghost use Rattle.bson_json.specs.{WritesOne};
ghost use Rattle.wire_frames.specs.{frame_bytes};
ghost use Rattle.wire_text.specs.FrameText.{IsFrameText, IsMsgText, checksum_line, header_line};
ghost use Rattle.wire_text.specs.FrameText.{kind_word};

use crate::messages::{write_message, write_msg_fault};
use std::alloc::Global;
use std::io;
use std::io::Write;
use wire_frames::{Checksum, Opcode, RawFrame};
use wire_msg::{MAX_MESSAGE_LEN, MsgFault, MsgHeader, RawMsg};

/// Returns the word for a kind of messages.
fn kind_word(kind: Opcode) -> &'static str
    ensures { result.now ≡ kind_word kind }
{
    match kind {
        Opcode::Reply => "reply",
        Opcode::Query => "query",
        Opcode::Compressed => "compressed",
        Opcode::Msg => "message",
        Opcode::Other(_) => "other",
    }
}

/// Writes the line of a header of this kind.
fn write_header<W: Write>(kind: Opcode, header: MsgHeader, out: &mut W) -> io::Result<()>
    ensures { OnOk result (Appends (W.contents out.old) (W.contents out.new)
        (header_line kind header)) }
{
    let word = kind_word(kind);
    let size = header.length;
    let id = header.id;
    let response_to = header.response_to;
    match kind {
        Opcode::Other(number) => {
            writeln!(
                out,
                "{word} {size} id {id} to {response_to} opcode {number}"
            )
        }
        _ => writeln!(out, "{word} {size} id {id} to {response_to}"),
    }
}

/// Writes the text of an OP_MSG that begins at offset `start` of the input; or, if it isn't a
/// message, the line of its header, and that of its fault.
fn write_op_msg<W: Write>(
    alloc: Global,
    frame: RawFrame<'_>,
    start: usize,
    out: &mut W,
) -> io::Result<()>
    requires { start + length (frame_bytes frame) < 2 ^ 64 }
    ensures { OnOk result (WritesOne W.contents out.old out.new
        (IsMsgText start (frame_bytes frame.entry))) }
{
    match RawMsg::parse_with(alloc, frame.as_bytes(), MAX_MESSAGE_LEN) {
        Ok(message) => write_message(message, out),
        Err(fault) => {
            write_header(Opcode::Msg, frame.header(), out)?;
            let at = start + fault.at;
            let cause = fault.cause;
            write_msg_fault(MsgFault { at, cause }, out)
        }
    }
}

/// Writes the line of a checksum, if there is one.
fn write_checksum<W: Write>(checksum: Checksum, out: &mut W) -> io::Result<()>
    ensures { OnOk result (Appends (W.contents out.old) (W.contents out.new)
        (checksum_line checksum)) }
{
    match checksum {
        Checksum::Absent => Ok(()),
        Checksum::Right => out.write_all(b"checksum ok\n"),
        Checksum::Wrong => out.write_all(b"checksum bad\n"),
    }
}

/// Writes the text of a frame that begins at offset `start` of the input.
///
/// # Errors
///
/// Returns the error of the writer, which may have taken a part of the text.
pub fn write_frame<W: Write>(
    alloc: Global,
    frame: RawFrame<'_>,
    start: usize,
    out: &mut W,
) -> io::Result<()>
    requires { start + length (frame_bytes frame) < 2 ^ 64 }
    ensures { OnOk result (WritesOne W.contents out.old out.new
        (IsFrameText start (frame_bytes frame.entry))) }
{
    match frame.opcode() {
        Opcode::Msg => write_op_msg(alloc, frame, start, out)?,
        kind => write_header(kind, frame.header(), out)?,
    }
    write_checksum(frame.checksum(), out)
}
