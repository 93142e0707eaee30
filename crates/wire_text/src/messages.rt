//! Writes the text of a message, and the line of a fault. No function here takes memory.

ghost use Rattle.std.specs.Prelude.{◌≡◌, List, OnOk, flat_map};
ghost use Rattle.std.specs.Io.KnownBytes.{Appends};
ghost use Rattle.text_writer.specs.{WritesOut};
ghost use Rattle.bson_elem.specs.{Spells, Tree};
ghost use Rattle.bson_raw.specs.{document_bytes};
ghost use Rattle.wire_msg.specs.{Carries, Content, DocumentsAre, Message, Sequence, SpellsMsg};
ghost use Rattle.wire_msg.specs.{msg_bytes};
ghost use Rattle.wire_text.specs.MessageText.{body_text, flags_text, member_text, message_line};
ghost use Rattle.wire_text.specs.MessageText.{message_text, msg_fault_line, sequence_line};
ghost use Rattle.wire_text.specs.MessageText.{text_of_sequence};

use bson_raw::RawDocument;
use bson_text::{dump_elements, quoted_to};
use std::io;
use std::io::Write;
use wire_msg::{Documents, MsgFault, MsgFlags, Payload, RawMsg};

/// How much of a document sequence is written.
#[derive(Clone, Copy, Debug, PartialEq, Eq)]
pub enum Detail {
    /// Its line: the identifier, and the number of documents.
    Line,
    /// That line, and the documents.
    Documents,
}

/// Returns the word for the flags.
fn flags_word(flags: MsgFlags) -> &'static str
    ensures { result.now ≡ flags_text flags }
{
    match (flags.more_to_come, flags.exhaust_allowed) {
        (false, false) => "-",
        (true, false) => "more",
        (false, true) => "exhaust",
        (true, true) => "more+exhaust",
    }
}

/// Writes the first line of a message.
fn write_message_line<W: Write>(message: RawMsg<'_>, out: &mut W) -> io::Result<()>
    ensures { (m : Message) → SpellsMsg m (msg_bytes message.entry) → OnOk result
        (WritesOut W.contents out.old out.new (message_line m)) }
{
    let size = message.as_bytes().len();
    let id = message.id();
    let response_to = message.response_to();
    let flags = flags_word(message.flags());
    writeln!(out, "message {size} id {id} to {response_to} flags {flags}")
}

/// Writes the line of the body's size, and those of its elements.
fn write_body<W: Write>(body: RawDocument<'_>, out: &mut W) -> io::Result<()>
    ensures { (t : Tree) → Spells t (document_bytes body.entry) → OnOk result
        (WritesOut W.contents out.old out.new (body_text t)) }
{
    let size = body.as_bytes().len();
    writeln!(out, "body {size}")?;
    dump_elements(body, 1, out)
}

/// Writes a document of a sequence, indented one level deeper than the body.
fn write_member<W: Write>(document: RawDocument<'_>, out: &mut W) -> io::Result<()>
    ensures { (t : Tree) → Spells t (document_bytes document.entry) → OnOk result
        (WritesOut W.contents out.old out.new (member_text t)) }
{
    let size = document.as_bytes().len();
    writeln!(out, "  document {size}")?;
    dump_elements(document, 2, out)
}

/// Writes the documents of a sequence.
fn write_documents<W: Write>(documents: Documents<'_>, out: &mut W) -> io::Result<()>
    ensures { (ts : List Tree) → DocumentsAre documents.entry ts → OnOk result
        (WritesOut W.contents out.old out.new (flat_map member_text ts)) }
{
    for document in documents.iter() {
        write_member(document, out)?;
    }
    Ok(())
}

/// Writes the line of a document sequence: its identifier, and the number of its documents.
fn write_sequence_line<W: Write>(
    identifier: &str,
    documents: Documents<'_>,
    out: &mut W,
) -> io::Result<()>
    ensures { (q : Sequence) → identifier.now ≡ q.identifier
        → DocumentsAre documents.entry q.documents → OnOk result
        (WritesOut W.contents out.old out.new (sequence_line q)) }
{
    let count = documents.count();
    out.write_all(b"sequence ")?;
    quoted_to(identifier, out)?;
    writeln!(out, " {count}")
}

/// Writes a document sequence: its line, and its documents if `detail` says so.
fn write_sequence<W: Write>(
    identifier: &str,
    documents: Documents<'_>,
    detail: Detail,
    out: &mut W,
) -> io::Result<()>
    ensures { (q : Sequence) → identifier.now ≡ q.identifier
        → DocumentsAre documents.entry q.documents → OnOk result
        (WritesOut W.contents out.old out.new (text_of_sequence detail q)) }
{
    write_sequence_line(identifier, documents, out)?;
    match detail {
        Detail::Line => Ok(()),
        Detail::Documents => write_documents(documents, out),
    }
}

/// Writes the document sequences of a payload, in order, each as `detail` says.
///
/// # Errors
///
/// Returns the error of the writer, which may have taken a part of the text.
pub fn write_sequences<W: Write>(
    payload: Payload<'_>,
    detail: Detail,
    out: &mut W,
) -> io::Result<()>
    ensures { (c : Content) → Carries payload.entry c → OnOk result
        (WritesOut W.contents out.old out.new (flat_map (text_of_sequence detail) c.sequences)) }
{
    for (identifier, documents) in payload.sequences() {
        write_sequence(identifier, documents, detail, out)?;
    }
    Ok(())
}

/// Writes the text of a message: its first line, its body, and its document sequences in order.
///
/// # Errors
///
/// Returns the error of the writer, which may have taken a part of the text.
pub fn write_message<W: Write>(message: RawMsg<'_>, out: &mut W) -> io::Result<()>
    ensures { (m : Message) → SpellsMsg m (msg_bytes message.entry) → OnOk result
        (WritesOut W.contents out.old out.new (message_text m)) }
{
    let payload = message.payload();
    write_message_line(message, out)?;
    write_body(payload.body(), out)?;
    write_sequences(payload, Detail::Documents, out)
}

/// Writes the line of the fault of a message.
///
/// # Errors
///
/// Returns the error of the writer, which may have taken a part of the line.
pub fn write_msg_fault<W: Write>(fault: MsgFault, out: &mut W) -> io::Result<()>
    ensures { OnOk result (Appends (W.contents out.old) (W.contents out.new)
        (msg_fault_line fault.at fault.cause)) }
{
    writeln!(out, "{fault}")
}
