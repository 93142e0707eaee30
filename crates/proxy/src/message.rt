//! Writes a message that passed: its text, or a line of JSON.

ghost use Rattle.std.specs.Prelude.{OnOk};
ghost use Rattle.std.specs.Io.KnownBytes.{Appends};
ghost use Rattle.bson_json.specs.{WritesOne};
ghost use Rattle.wire_frames.specs.{frame_bytes};
ghost use Rattle.proxy.specs.Shown.{IsKindLine, IsKindPairs, IsMsgLine, IsOtherLine};
ghost use Rattle.proxy.specs.Shown.{IsQueryPairs, IsShownLine, IsShownText, id_pairs, kind_pairs};
ghost use Rattle.proxy.specs.Told.{start_text};

use crate::direction::Direction;
use bson_json::{Mode, write_json, write_json_string};
use std::alloc::Global;
use std::io;
use std::io::Write;
use wire_frames::{Opcode, RawFrame};
use wire_msg::{MAX_MESSAGE_LEN, MsgHeader, RawMsg};
use wire_query::RawQuery;
use wire_text::{write_frame, write_message_json};

/// Writes what stands before a message that goes this way on the connection of this number.
fn write_start<W: Write>(number: u64, direction: Direction, out: &mut W) -> io::Result<()>
    ensures { OnOk result
        (Appends (W.contents out.old) (W.contents out.new) (start_text number direction)) }
{
    write!(out, "{number} {} ", direction.sign())
}

/// Writes the text of a message that goes this way on the connection of this number.
///
/// # Errors
///
/// Returns the error of the writer, which may have taken a part of the text.
pub fn write_message<W: Write>(
    alloc: Global,
    number: u64,
    direction: Direction,
    frame: RawFrame<'_>,
    out: &mut W,
) -> io::Result<()>
    ensures { OnOk result (WritesOne W.contents out.old out.new
        (IsShownText number direction (frame_bytes frame.entry))) }
{
    write_start(number, direction, out)?;
    write_frame(alloc, frame, 0, out)
}

/// Writes the line of an OP_MSG: one JSON object, or its fault.
fn write_op_msg<W: Write>(alloc: Global, frame: RawFrame<'_>, out: &mut W) -> io::Result<()>
    ensures { OnOk result
        (WritesOne W.contents out.old out.new (IsMsgLine (frame_bytes frame.entry))) }
{
    match RawMsg::parse_with(alloc, frame.as_bytes(), MAX_MESSAGE_LEN) {
        Ok(message) => {
            write_message_json(message, Mode::Canonical, out)?;
            out.write_all(b"\n")
        }
        Err(fault) => writeln!(out, "{fault}"),
    }
}

/// Writes what the query of a command asks, and of which database, behind the numbers of its
/// header. Of another message it writes nothing.
fn write_query<W: Write>(alloc: Global, frame: RawFrame<'_>, out: &mut W) -> io::Result<()>
    ensures { OnOk result
        (WritesOne W.contents out.old out.new (IsQueryPairs (frame_bytes frame.entry))) }
{
    match RawQuery::parse(alloc, frame.as_bytes(), MAX_MESSAGE_LEN) {
        Ok(query) => {
            out.write_all(b",\"database\":")?;
            write_json_string(query.database(), out)?;
            out.write_all(b",\"query\":")?;
            write_json(query.body(), Mode::Canonical, out)
        }
        Err(_) => Ok(()),
    }
}

/// Writes what follows the numbers of the header of a message of this kind, if it is an OP_QUERY.
fn write_kind<W: Write>(
    alloc: Global,
    kind: Opcode,
    frame: RawFrame<'_>,
    out: &mut W,
) -> io::Result<()>
    ensures { OnOk result
        (WritesOne W.contents out.old out.new (IsKindPairs kind (frame_bytes frame.entry))) }
{
    match kind {
        Opcode::Query => write_query(alloc, frame, out),
        Opcode::Msg | Opcode::Reply | Opcode::Compressed | Opcode::Other(_) => Ok(()),
    }
}

/// Writes the length and the id of a header.
fn write_id<W: Write>(header: MsgHeader, out: &mut W) -> io::Result<()>
    ensures { OnOk result
        (Appends (W.contents out.old) (W.contents out.new) (id_pairs header)) }
{
    let size = header.length;
    let id = header.id;
    write!(out, "\"messageLength\":{size},\"requestID\":{id}")
}

/// Writes whose reply the message of a header is, and its opCode.
fn write_opcode<W: Write>(header: MsgHeader, out: &mut W) -> io::Result<()>
    ensures { OnOk result
        (Appends (W.contents out.old) (W.contents out.new) (kind_pairs header)) }
{
    let response_to = header.response_to;
    let opcode = header.opcode;
    write!(out, ",\"responseTo\":{response_to},\"opCode\":{opcode}")
}

/// Writes the line of a message with another opCode, which is of this kind: one JSON object.
fn write_other<W: Write>(
    alloc: Global,
    kind: Opcode,
    frame: RawFrame<'_>,
    out: &mut W,
) -> io::Result<()>
    ensures { OnOk result
        (WritesOne W.contents out.old out.new (IsOtherLine kind (frame_bytes frame.entry))) }
{
    out.write_all(b"{")?;
    let header = frame.header();
    write_id(header, out)?;
    write_opcode(header, out)?;
    write_kind(alloc, kind, frame, out)?;
    out.write_all(b"}\n")
}

/// Writes the line of a message of this kind.
fn write_line<W: Write>(
    alloc: Global,
    kind: Opcode,
    frame: RawFrame<'_>,
    out: &mut W,
) -> io::Result<()>
    ensures { OnOk result
        (WritesOne W.contents out.old out.new (IsKindLine kind (frame_bytes frame.entry))) }
{
    match kind {
        Opcode::Msg => write_op_msg(alloc, frame, out),
        Opcode::Query | Opcode::Reply | Opcode::Compressed | Opcode::Other(_) => {
            write_other(alloc, kind, frame, out)
        }
    }
}

/// Writes a message that goes this way on the connection of this number as one line of canonical
/// Extended JSON; of an OP_MSG at fault, the fault.
///
/// # Errors
///
/// Returns the error of the writer, which may have taken a part of the line.
pub fn write_json_line<W: Write>(
    alloc: Global,
    number: u64,
    direction: Direction,
    frame: RawFrame<'_>,
    out: &mut W,
) -> io::Result<()>
    ensures { OnOk result (WritesOne W.contents out.old out.new
        (IsShownLine number direction (frame_bytes frame.entry))) }
{
    write_start(number, direction, out)?;
    write_line(alloc, frame.opcode(), frame, out)
}
