//! What an answer holds: what is compared of it, and shown.

ghost use Rattle.std.specs.Prelude.{◌≡◌, ◌↔◌, ◌≤◌, IfOk, IsTrue, List, ℕ, drop, false, length, map};
ghost use Rattle.bson_elem.specs.{Tree};
ghost use Rattle.bson_raw.specs.{DocumentSplit};
ghost use Rattle.wire_frames.specs.{frame_bytes};
ghost use Rattle.wire_msg.specs.{Carries, DocumentsAre, IsMessage, Message, Sequence, SpellsMsg};
ghost use Rattle.wire_msg.specs.{Content as Carried, msg_bytes};
ghost use Rattle.replay.specs.Held.{IsMessageOf, IsNoMessage, IsNoReply, IsOtherOf, IsReply};
ghost use Rattle.replay.specs.Held.{IsReplyOf};
ghost use Rattle.replay.specs.Plain.{plain_bytes, with_length, with_no_flag, without_checksum};
ghost use Rattle.replay.specs.Same.{AreSameDocuments, AreSameMessages, IsSameSequence, OneByOne};

use crate::flags::{CHECKSUM_PRESENT, FLAGS, has_flag};
use crate::ignored::{are_same, without_ignored};
use bson_json::{Mode, write_json, write_json_string};
use bson_raw::RawDocument;
use std::alloc::{AllocError, Global};
use std::io;
use std::io::Write;
use wire_frames::RawFrame;
use wire_msg::{Documents, HEADER_LEN, MAX_MESSAGE_LEN, Payload, RawMsg};

/// The number of bytes of a checksum.
const CHECKSUM: usize = 4;

/// The offset of the opCode of a message.
const OPCODE: usize = 12;

/// The opCode of an OP_REPLY.
const REPLY: [u8; 4] = [1, 0, 0, 0];

/// The offset of the documents of an OP_REPLY.
const REPLIES: usize = 36;

/// Writes the number of bytes as the messageLength of a message.
fn set_length(bytes: &mut Vec<u8>, len: usize)
    ensures { bytes.new.items ≡ with_length len bytes.old.items }
{
    let [a, b, c, d, ..] = len.to_le_bytes();
    if let Some(length) = bytes.first_chunk_mut::<4>() {
        *length = [a, b, c, d];
    }
}

/// Clears the flag checksumPresent of a message.
fn clear_flag(bytes: &mut Vec<u8>)
    ensures { bytes.new.items ≡ with_no_flag bytes.old.items }
{
    if FLAGS < bytes.len() {
        bytes[FLAGS] &= !CHECKSUM_PRESENT;
    }
}

/// Turns the bytes of a message with a checksum into those of the same one without.
fn remove_checksum(bytes: &mut Vec<u8>)
    ensures { bytes.new.items ≡ without_checksum bytes.old.items }
{
    let len = bytes.len().saturating_sub(CHECKSUM);
    bytes.truncate(len);
    set_length(bytes, len);
    clear_flag(bytes);
}

/// Returns the bytes of a message, without the checksum if it has one.
///
/// # Errors
///
/// Returns `AllocError` if memory runs out.
pub fn plain_bytes(alloc: Global, frame: RawFrame<'_>) -> Result<Vec<u8>, AllocError>
    ensures { IfOk result (λ plain. plain.items ≡ plain_bytes (frame_bytes frame.entry)) }
{
    let mut bytes = Vec::from_slice(alloc, frame.as_bytes())?;
    if has_flag(frame, CHECKSUM_PRESENT) {
        remove_checksum(&mut bytes);
    }
    Ok(bytes)
}

/// What an answer holds.
#[derive(Clone, Copy)]
enum Content<'a> {
    Message(RawMsg<'a>),
    /// The documents of an OP_REPLY, one after another.
    Reply(&'a [u8]),
    /// A message that is none of these: its opCode and what is behind it.
    Other(&'a [u8]),
}

impl<'a> Content<'a> {
    /// Reads what an answer holds out of its bytes.
    fn of(alloc: Global, bytes: &'a [u8]) -> Content<'a>
        ensures message { (m : Message) → SpellsMsg m bytes.now → length bytes.now ≤ MAX_MESSAGE_LEN
            → IsMessageOf bytes.now result }
        ensures none { ¬ IsMessage MAX_MESSAGE_LEN bytes.now → IsNoMessage result }
        ensures other { ¬ IsMessage MAX_MESSAGE_LEN bytes.now → ¬ IsReply bytes.now
            → IsOtherOf bytes.now result }
        ensures reply { IsReply bytes.now → IsReplyOf bytes.now result }
        ensures no_reply { ¬ IsReply bytes.now → IsNoReply result }
    {
        if let Ok(message) = RawMsg::parse_with(alloc, bytes, MAX_MESSAGE_LEN) {
            return Content::Message(message);
        }
        let opcode = bytes.get(OPCODE..HEADER_LEN as usize).unwrap_or(&[]);
        match bytes.get(REPLIES..) {
            Some(documents) if opcode == REPLY.as_slice() => Content::Reply(documents),
            _ => Content::Other(bytes.get(OPCODE..).unwrap_or(&[])),
        }
    }
}

/// Returns true if the documents at the front, one after another, are the same but for the fields of
/// these names, and what is behind them has the same bytes.
fn are_same_replies(
    alloc: Global,
    names: &[&str],
    recorded: &[u8],
    received: &[u8],
) -> Result<bool, AllocError>
    ensures { (ts us : List Tree) (rest other : List ℕ) → DocumentSplit recorded.now ts rest
        → DocumentSplit received.now us other → IfOk result (λ same. IsTrue same
        ↔ (AreSameDocuments (map (λ n. n.now) names.now) ts us × (rest ≡ other))) }
{
    let mut left = recorded;
    let mut other = received;
    while let Ok((a, behind)) = RawDocument::front(left) {
        let Ok((b, others)) = RawDocument::front(other) else {
            return Ok(false);
        };
        if !are_same(alloc, names, a, b)? {
            return Ok(false);
        }
        left = behind;
        other = others;
    }
    Ok(left == other)
}

/// Returns true if the documents of two sequences are the same but for the fields of these names.
fn are_same_lists(
    alloc: Global,
    names: &[&str],
    recorded: Documents<'_>,
    received: Documents<'_>,
) -> Result<bool, AllocError>
    ensures { (ts us : List Tree) → DocumentsAre recorded.entry ts → DocumentsAre received.entry us
        → IfOk result (λ same.
        IsTrue same ↔ AreSameDocuments (map (λ n. n.now) names.now) ts us) }
{
    let mut others = received.iter();
    for document in recorded.iter() {
        let Some(other) = others.next() else {
            return Ok(false);
        };
        if !are_same(alloc, names, document, other)? {
            return Ok(false);
        }
    }
    Ok(others.next().is_none())
}

/// Returns true if two sequences have the same identifier, and the same documents but for the
/// fields of these names.
fn is_same_sequence(
    alloc: Global,
    names: &[&str],
    recorded: (&str, Documents<'_>),
    received: (&str, Documents<'_>),
) -> Result<bool, AllocError>
    ensures { (q r : Sequence) → recorded.entry.0.now ≡ q.identifier
        → DocumentsAre recorded.entry.1 q.documents → received.entry.0.now ≡ r.identifier
        → DocumentsAre received.entry.1 r.documents
        → IfOk result (λ same. IsTrue same ↔ IsSameSequence (map (λ n. n.now) names.now) q r) }
{
    let (identifier, documents) = recorded;
    let (other, theirs) = received;
    if identifier != other {
        return Ok(false);
    }
    are_same_lists(alloc, names, documents, theirs)
}

/// Returns true if the document sequences of two payloads are the same but for the fields of these
/// names.
fn are_same_sequences(
    alloc: Global,
    names: &[&str],
    recorded: Payload<'_>,
    received: Payload<'_>,
) -> Result<bool, AllocError>
    ensures { (c d : Carried) → Carries recorded.entry c → Carries received.entry d
        → IfOk result (λ same. IsTrue same
        ↔ OneByOne (IsSameSequence (map (λ n. n.now) names.now)) c.sequences d.sequences) }
{
    let mut others = received.sequences();
    for sequence in recorded.sequences() {
        let Some(other) = others.next() else {
            return Ok(false);
        };
        if !is_same_sequence(alloc, names, sequence, other)? {
            return Ok(false);
        }
    }
    Ok(others.next().is_none())
}

/// Returns true if two messages hold the same but for the fields of these names.
fn are_same_messages(
    alloc: Global,
    names: &[&str],
    recorded: RawMsg<'_>,
    received: RawMsg<'_>,
) -> Result<bool, AllocError>
    ensures { (m n : Message) → SpellsMsg m (msg_bytes recorded.entry)
        → SpellsMsg n (msg_bytes received.entry)
        → IfOk result (λ same. IsTrue same ↔ AreSameMessages (map (λ n. n.now) names.now) m n) }
{
    let (a, b) = (recorded.payload(), received.payload());
    if recorded.more_to_come() != received.more_to_come() {
        return Ok(false);
    }
    if !are_same(alloc, names, a.body(), b.body())? {
        return Ok(false);
    }
    are_same_sequences(alloc, names, a, b)
}

/// Returns true if an answer is a message that holds the same as this one but for the fields of
/// these names.
fn is_same_message(
    alloc: Global,
    names: &[&str],
    recorded: RawMsg<'_>,
    received: &[u8],
) -> Result<bool, AllocError>
    ensures message { (m n : Message) → SpellsMsg m (msg_bytes recorded.entry)
        → SpellsMsg n received.now → length received.now ≤ MAX_MESSAGE_LEN
        → IfOk result (λ same. IsTrue same ↔ AreSameMessages (map (λ n. n.now) names.now) m n) }
    ensures none { ¬ IsMessage MAX_MESSAGE_LEN received.now → IfOk result (λ same. same ≡ false) }
{
    match Content::of(alloc, received) {
        Content::Message(message) => are_same_messages(alloc, names, recorded, message),
        _ => Ok(false),
    }
}

/// Returns true if an answer is an OP_REPLY with the same documents as these but for the fields of
/// these names.
fn is_same_reply(
    alloc: Global,
    names: &[&str],
    recorded: &[u8],
    received: &[u8],
) -> Result<bool, AllocError>
    ensures reply { (ts us : List Tree) (rest other : List ℕ) → DocumentSplit recorded.now ts rest
        → IsReply received.now → DocumentSplit (drop 36 received.now) us other
        → IfOk result (λ same. IsTrue same
        ↔ (AreSameDocuments (map (λ n. n.now) names.now) ts us × (rest ≡ other))) }
    ensures none { ¬ IsReply received.now → IfOk result (λ same. same ≡ false) }
{
    match Content::of(alloc, received) {
        Content::Reply(documents) => are_same_replies(alloc, names, recorded, documents),
        Content::Message(_) | Content::Other(_) => Ok(false),
    }
}

/// Returns true if an answer is neither a message nor an OP_REPLY, and has these bytes from its
/// opCode on.
fn is_same_other(alloc: Global, recorded: &[u8], received: &[u8]) -> bool
    ensures other { ¬ IsMessage MAX_MESSAGE_LEN received.now → ¬ IsReply received.now
        → (IsTrue result ↔ (recorded.now ≡ drop 12 received.now)) }
    ensures message { (n : Message) → SpellsMsg n received.now
        → length received.now ≤ MAX_MESSAGE_LEN → result ≡ false }
    ensures reply { IsReply received.now → result ≡ false }
{
    match Content::of(alloc, received) {
        Content::Other(bytes) => recorded == bytes,
        Content::Message(_) | Content::Reply(_) => false,
    }
}

/// Returns true if two answers hold the same but for the fields of these names. Their ids aren't
/// compared.
///
/// # Errors
///
/// Returns `AllocError` if memory runs out.
pub fn are_same_answers(
    alloc: Global,
    names: &[&str],
    recorded: &[u8],
    received: &[u8],
) -> Result<bool, AllocError>
    ensures messages { (m n : Message) → SpellsMsg m recorded.now → SpellsMsg n received.now
        → length recorded.now ≤ MAX_MESSAGE_LEN → length received.now ≤ MAX_MESSAGE_LEN
        → IfOk result (λ same. IsTrue same ↔ AreSameMessages (map (λ n. n.now) names.now) m n) }
    ensures other { ¬ IsMessage MAX_MESSAGE_LEN recorded.now
        → ¬ IsMessage MAX_MESSAGE_LEN received.now → ¬ IsReply recorded.now → ¬ IsReply received.now
        → IfOk result (λ same. IsTrue same ↔ (drop 12 recorded.now ≡ drop 12 received.now)) }
    ensures recorded_alone { (m : Message) → SpellsMsg m recorded.now
        → length recorded.now ≤ MAX_MESSAGE_LEN → ¬ IsMessage MAX_MESSAGE_LEN received.now
        → IfOk result (λ same. same ≡ false) }
    ensures received_alone { (n : Message) → ¬ IsMessage MAX_MESSAGE_LEN recorded.now
        → SpellsMsg n received.now → length received.now ≤ MAX_MESSAGE_LEN
        → IfOk result (λ same. same ≡ false) }
    ensures replies { (ts us : List Tree) (rest other : List ℕ) → IsReply recorded.now
        → IsReply received.now → DocumentSplit (drop 36 recorded.now) ts rest
        → DocumentSplit (drop 36 received.now) us other → IfOk result (λ same. IsTrue same
        ↔ (AreSameDocuments (map (λ n. n.now) names.now) ts us × (rest ≡ other))) }
    ensures recorded_reply_alone { IsReply recorded.now → ¬ IsReply received.now
        → IfOk result (λ same. same ≡ false) }
    ensures received_reply_alone { ¬ IsReply recorded.now → IsReply received.now
        → IfOk result (λ same. same ≡ false) }
{
    match Content::of(alloc, recorded) {
        Content::Message(message) => is_same_message(alloc, names, message, received),
        Content::Reply(documents) => is_same_reply(alloc, names, documents, received),
        Content::Other(bytes) => Ok(is_same_other(alloc, bytes, received)),
    }
}

/// Writes a document as Extended JSON, without the fields of these names.
fn write_document<W: Write>(
    alloc: Global,
    names: &[&str],
    document: RawDocument<'_>,
    out: &mut W,
) -> io::Result<()> {
    match without_ignored(alloc, names, document)? {
        Some(left) => write_json(left.as_raw(), Mode::Canonical, out),
        None => write_json(document, Mode::Canonical, out),
    }
}

/// Writes bytes in hexadecimal.
fn write_bytes<W: Write>(bytes: &[u8], out: &mut W) -> io::Result<()> {
    for byte in bytes {
        write!(out, "{byte:02x}")?;
    }
    Ok(())
}

/// Writes documents that stand one after another, and behind them what is no document, in
/// hexadecimal, with spaces between.
fn write_replies<W: Write>(
    alloc: Global,
    names: &[&str],
    documents: &[u8],
    out: &mut W,
) -> io::Result<()> {
    let mut rest = documents;
    let mut before: &[u8] = b"";
    for _ in 0..u64::MAX {
        let Ok((document, after)) = RawDocument::front(rest) else {
            break;
        };
        out.write_all(before)?;
        write_document(alloc, names, document, out)?;
        before = b" ";
        rest = after;
    }
    if rest.is_empty() {
        return Ok(());
    }
    out.write_all(before)?;
    write_bytes(rest, out)
}

/// Writes the documents of a sequence behind its identifier.
fn write_sequence<W: Write>(
    alloc: Global,
    names: &[&str],
    documents: Documents<'_>,
    out: &mut W,
) -> io::Result<()> {
    for document in documents.iter() {
        out.write_all(b" ")?;
        write_document(alloc, names, document, out)?;
    }
    Ok(())
}

/// Writes what a message holds: the body, and each sequence, with spaces between.
fn write_message<W: Write>(
    alloc: Global,
    names: &[&str],
    message: RawMsg<'_>,
    out: &mut W,
) -> io::Result<()> {
    let payload = message.payload();
    write_document(alloc, names, payload.body(), out)?;
    for (identifier, documents) in payload.sequences() {
        out.write_all(b" ")?;
        write_json_string(identifier, out)?;
        write_sequence(alloc, names, documents, out)?;
    }
    if message.more_to_come() {
        out.write_all(b" moreToCome")?;
    }
    Ok(())
}

/// Writes what an answer holds, in one line, without the fields of these names.
///
/// # Errors
///
/// Returns an error if writing fails or memory runs out.
pub fn write_answer<W: Write>(
    alloc: Global,
    names: &[&str],
    bytes: &[u8],
    out: &mut W,
) -> io::Result<()> {
    match Content::of(alloc, bytes) {
        Content::Message(message) => write_message(alloc, names, message, out),
        Content::Reply(documents) => write_replies(alloc, names, documents, out),
        Content::Other(bytes) => write_bytes(bytes, out),
    }
}
