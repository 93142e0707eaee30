//! The text of a record: its head, and the text of its message.

ghost use Rattle.std.specs.Prelude.{◌≡◌, ◌+◌, ◌<◌, ◌≤◌, ◌^◌, OnOk, length};
ghost use Rattle.std.specs.Io.KnownBytes.{Appends};
ghost use Rattle.bson_json.specs.{WritesOne};
ghost use Rattle.wire_frames.specs.{frame_bytes};
ghost use Rattle.wire_frames.specs.{record_bytes};
ghost use Rattle.file_commands.specs.RecordText.{IsFrameJson, IsMsgJson, IsRecordText};
ghost use Rattle.file_commands.specs.RecordText.{direction_sign};
ghost use Rattle.file_commands.specs.RecordText.{faulty_json, head_json, head_line, header_front};
ghost use Rattle.file_commands.specs.RecordText.{header_json, named, record_closing, record_front};

use crate::json::{Layout, closing_text, end_text};
use bson_json::Mode;
use std::alloc::Global;
use std::io;
use std::io::Write;
use wire_frames::{Direction, HEAD_LEN, Opcode, RawFrame, RawRecord, RecordHead};
use wire_msg::{MAX_MESSAGE_LEN, MsgFault, MsgHeader, RawMsg};
use wire_text::{write_frame, write_message_json};

/// The offset of the first record in a file of records, behind its signature.
pub const FIRST_RECORD: usize = 8;

/// How a record is written.
#[derive(Clone, Copy)]
pub enum RecordForm {
    /// A line for its head, and then the text of its message.
    Text,
    /// A JSON object of its head and its message, whose documents are Extended JSON of this form.
    Json(Mode, Layout),
}

/// Returns the sign of a direction.
fn direction_sign(direction: Direction) -> &'static str
    ensures { result.now ≡ direction_sign direction }
{
    match direction {
        Direction::ToServer => ">",
        Direction::FromServer => "<",
    }
}

/// Writes the line of a head.
fn write_head_line<W: Write>(head: RecordHead, out: &mut W) -> io::Result<()>
    ensures { OnOk result (Appends (W.contents out.old) (W.contents out.new) (head_line head)) }
{
    let micros = head.micros;
    let connection = head.connection;
    let sign = direction_sign(head.direction);
    writeln!(out, "record {micros} {connection} {sign}")
}

/// Writes the beginning of a record's object, up to its message.
fn write_head_json<W: Write>(head: RecordHead, out: &mut W) -> io::Result<()>
    ensures { OnOk result (Appends (W.contents out.old) (W.contents out.new) (head_json head)) }
{
    let micros = head.micros;
    let connection = head.connection;
    let sign = direction_sign(head.direction);
    write!(
        out,
        "{{\"time\":{micros},\"connection\":{connection},\"direction\":\"{sign}\",\"message\":"
    )
}

/// Writes a number behind its name.
fn write_named<W: Write>(name: &str, number: i32, out: &mut W) -> io::Result<()>
    ensures { OnOk result (Appends (W.contents out.old) (W.contents out.new)
        (named name.now number)) }
{
    write!(out, "{name}{number}")
}

/// Writes the numbers of a header as the front of a JSON object.
fn write_header_front<W: Write>(header: MsgHeader, out: &mut W) -> io::Result<()>
    ensures { OnOk result (Appends (W.contents out.old) (W.contents out.new)
        (header_front header)) }
{
    let size = header.length;
    write!(out, "{{\"messageLength\":{size}")?;
    write_named(",\"requestID\":", header.id, out)?;
    write_named(",\"responseTo\":", header.response_to, out)?;
    write_named(",\"opCode\":", header.opcode, out)
}

/// Writes a header as a JSON object.
fn write_header_json<W: Write>(header: MsgHeader, out: &mut W) -> io::Result<()>
    ensures { OnOk result (Appends (W.contents out.old) (W.contents out.new)
        (header_json header)) }
{
    write_header_front(header, out)?;
    out.write_all(b"}")
}

/// Writes a header and a fault as a JSON object.
fn write_faulty_json<W: Write>(header: MsgHeader, fault: MsgFault, out: &mut W) -> io::Result<()>
    ensures { OnOk result (Appends (W.contents out.old) (W.contents out.new)
        (faulty_json header fault.at fault.cause)) }
{
    write_header_front(header, out)?;
    write!(out, ",\"fault\":\"{fault}\"}}")
}

/// Writes an OP_MSG that begins at offset `start` of the input as a JSON object; or, if it isn't a
/// message, its header and its fault.
fn write_op_msg_json<W: Write>(
    alloc: Global,
    mode: Mode,
    frame: RawFrame<'_>,
    start: usize,
    out: &mut W,
) -> io::Result<()>
    requires { start + length (frame_bytes frame) < 2 ^ 64 }
    ensures { OnOk result (WritesOne W.contents out.old out.new
        (IsMsgJson mode start (frame_bytes frame.entry))) }
{
    match RawMsg::parse_with(alloc, frame.as_bytes(), MAX_MESSAGE_LEN) {
        Ok(message) => write_message_json(message, mode, out),
        Err(fault) => {
            let at = start + fault.at;
            let cause = fault.cause;
            write_faulty_json(frame.header(), MsgFault { at, cause }, out)
        }
    }
}

/// Writes a message of any opCode that begins at offset `start` of the input as a JSON object: all
/// of an OP_MSG, or else its header.
fn write_frame_json<W: Write>(
    alloc: Global,
    mode: Mode,
    frame: RawFrame<'_>,
    start: usize,
    out: &mut W,
) -> io::Result<()>
    requires { start + length (frame_bytes frame) < 2 ^ 64 }
    ensures { OnOk result (WritesOne W.contents out.old out.new
        (IsFrameJson mode start (frame_bytes frame.entry))) }
{
    match frame.opcode() {
        Opcode::Msg => write_op_msg_json(alloc, mode, frame, start, out),
        _ => write_header_json(frame.header(), out),
    }
}

/// Returns what stands in front of the object of a record that begins at offset `start`.
fn front_text(layout: Layout, start: usize) -> &'static str
    ensures { result.now ≡ record_front layout start }
{
    match layout {
        Layout::Lines => "",
        Layout::Array if start == FIRST_RECORD => "[",
        Layout::Array => ",\n",
    }
}

/// Writes a record that begins at offset `start` as a JSON object.
fn write_record_json<W: Write>(
    alloc: Global,
    mode: Mode,
    layout: Layout,
    one: RawRecord<'_>,
    start: usize,
    out: &mut W,
) -> io::Result<()>
    requires long { 20 ≤ length (record_bytes one) }
    requires offset { start + length (record_bytes one) < 2 ^ 64 }
    ensures { OnOk result (WritesOne W.contents out.old out.new
        (IsRecordText (RecordForm.Json mode layout) start (record_bytes one.entry))) }
{
    out.write_all(front_text(layout, start).as_bytes())?;
    write_head_json(one.head(), out)?;
    write_frame_json(alloc, mode, one.frame(), start + HEAD_LEN, out)?;
    out.write_all(b"}")?;
    out.write_all(end_text(layout).as_bytes())
}

/// Writes the line of the head of a record that begins at offset `start`, and the text of its
/// message.
fn write_record_lines<W: Write>(
    alloc: Global,
    one: RawRecord<'_>,
    start: usize,
    out: &mut W,
) -> io::Result<()>
    requires long { 20 ≤ length (record_bytes one) }
    requires offset { start + length (record_bytes one) < 2 ^ 64 }
    ensures { OnOk result (WritesOne W.contents out.old out.new
        (IsRecordText RecordForm.Text start (record_bytes one.entry))) }
{
    write_head_line(one.head(), out)?;
    write_frame(alloc, one.frame(), start + HEAD_LEN, out)
}

/// Writes a record that begins at offset `start`, in this form.
pub fn write_record<W: Write>(
    alloc: Global,
    form: RecordForm,
    one: RawRecord<'_>,
    start: usize,
    out: &mut W,
) -> io::Result<()>
    requires long { 20 ≤ length (record_bytes one) }
    requires offset { start + length (record_bytes one) < 2 ^ 64 }
    ensures { OnOk result (WritesOne W.contents out.old out.new
        (IsRecordText form start (record_bytes one.entry))) }
{
    match form {
        RecordForm::Text => write_record_lines(alloc, one, start, out),
        RecordForm::Json(mode, layout) => write_record_json(alloc, mode, layout, one, start, out),
    }
}

/// Returns what follows the texts of all records. `any` says whether there are any.
pub fn record_closing(form: RecordForm, any: bool) -> &'static str
    ensures { result.now ≡ record_closing form any }
{
    match form {
        RecordForm::Text => "",
        RecordForm::Json(_, layout) => closing_text(layout, any),
    }
}
