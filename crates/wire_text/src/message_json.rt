//! Writes a message as one JSON object. No function here takes memory.

ghost use Rattle.std.specs.Prelude.{◌≡◌, [], List, OnOk};
ghost use Rattle.bson_elem.specs.{Tree};
ghost use Rattle.bson_json.specs.{IsJson, WritesOne};
ghost use Rattle.text_writer.specs.{WritesOut};
ghost use Rattle.wire_msg.specs.{Carries, Content, DocumentsAre, Message, Sequence, SpellsMsg};
ghost use Rattle.wire_msg.specs.{msg_bytes};
ghost use Rattle.wire_text.specs.MessageJson.{AreItems, IsMessageJson, IsSequenceJson};
ghost use Rattle.wire_text.specs.MessageJson.{flags_json, header_json};

use bson_json::{Mode, write_json, write_json_string};
use std::io;
use std::io::Write;
use wire_msg::{Documents, MsgFlags, Payload, RawMsg};

/// Writes the numbers of a message's header.
fn write_header<W: Write>(message: RawMsg<'_>, out: &mut W) -> io::Result<()>
    ensures { (m : Message) → SpellsMsg m (msg_bytes message.entry) → OnOk result
        (WritesOut W.contents out.old out.new (header_json m)) }
{
    let size = message.as_bytes().len();
    let id = message.id();
    let response_to = message.response_to();
    write!(
        out,
        "\"messageLength\":{size},\"requestID\":{id},\"responseTo\":{response_to}"
    )
}

/// Writes the flags.
fn write_flags<W: Write>(flags: MsgFlags, out: &mut W) -> io::Result<()>
    ensures { OnOk result (WritesOut W.contents out.old out.new (flags_json flags)) }
{
    let more_to_come = flags.more_to_come;
    let exhaust_allowed = flags.exhaust_allowed;
    write!(
        out,
        ",\"moreToCome\":{more_to_come},\"exhaustAllowed\":{exhaust_allowed}"
    )
}

/// Writes documents, with commas between.
fn write_documents<W: Write>(documents: Documents<'_>, mode: Mode, out: &mut W) -> io::Result<()>
    ensures { (ts : List Tree) → DocumentsAre documents.entry ts → OnOk result
        (WritesOne W.contents out.old out.new (AreItems (IsJson mode) [] ts)) }
{
    let mut before: &[u8] = b"";
    for document in documents.iter() {
        out.write_all(before)?;
        write_json(document, mode, out)?;
        before = b",";
    }
    Ok(())
}

/// Writes a document sequence: an object of its identifier and its documents.
fn write_sequence<W: Write>(
    identifier: &str,
    documents: Documents<'_>,
    mode: Mode,
    out: &mut W,
) -> io::Result<()>
    ensures { (q : Sequence) → identifier.now ≡ q.identifier
        → DocumentsAre documents.entry q.documents → OnOk result
        (WritesOne W.contents out.old out.new (IsSequenceJson mode q)) }
{
    out.write_all(b"{\"identifier\":")?;
    write_json_string(identifier, out)?;
    out.write_all(b",\"documents\":[")?;
    write_documents(documents, mode, out)?;
    out.write_all(b"]}")
}

/// Writes the document sequences of a payload, in order, with commas between.
fn write_sequences<W: Write>(payload: Payload<'_>, mode: Mode, out: &mut W) -> io::Result<()>
    ensures { (c : Content) → Carries payload.entry c → OnOk result
        (WritesOne W.contents out.old out.new (AreItems (IsSequenceJson mode) [] c.sequences)) }
{
    let mut before: &[u8] = b"";
    for (identifier, documents) in payload.sequences() {
        out.write_all(before)?;
        write_sequence(identifier, documents, mode, out)?;
        before = b",";
    }
    Ok(())
}

/// Writes a message as one JSON object, without white space and with no line feed behind it:
/// `messageLength`, `requestID`, `responseTo`, `moreToCome`, `exhaustAllowed`, `body` and
/// `sequences`, each of these with `identifier` and `documents`. The documents are Extended JSON in
/// the form `mode`.
///
/// # Errors
///
/// Returns the error of the writer, which may have taken a part of the text.
pub fn write_message_json<W: Write>(message: RawMsg<'_>, mode: Mode, out: &mut W) -> io::Result<()>
    ensures { (m : Message) → SpellsMsg m (msg_bytes message.entry) → OnOk result
        (WritesOne W.contents out.old out.new (IsMessageJson mode m)) }
{
    let payload = message.payload();
    out.write_all(b"{")?;
    write_header(message, out)?;
    write_flags(message.flags(), out)?;
    out.write_all(b",\"body\":")?;
    write_json(payload.body(), mode, out)?;
    out.write_all(b",\"sequences\":[")?;
    write_sequences(payload, mode, out)?;
    out.write_all(b"]}")
}
