//! The content of a message that is given as the bytes of its body and of its document sequences.

ghost use Rattle.std.specs.Prelude.{◌≡◌, ◌≤◌, [], IfErr, IfOk, OnOk};
ghost use Rattle.bson_raw.specs.{IsSpelled};
ghost use Rattle.wire_msg.specs.declared.header.TheConstants.{MAX_MESSAGE_LEN};
ghost use Rattle.wire_msg.specs.{IsMessage, Message, SpellsMsg};
ghost use Rattle.wire_msg.specs.Payload.{AreParts};
ghost use Rattle.byte_views.specs.Contents.{IsContentRefusal, IsLengthWithin, content_len};
ghost use Rattle.byte_views.specs.Contents.{plain_message};

use bson_elem::BsonFault;
use bson_raw::RawDocument;
use std::alloc::{AllocError, Global};
use wire_msg::{MsgFault, RawMsg};

/// Why a body and document sequences aren't the content of a message.
#[derive(Clone, Copy, Debug, PartialEq, Eq)]
pub enum ContentRefusal {
    /// The body isn't a document, by this fault.
    Body(BsonFault),
    /// The message would have more bytes than the limit.
    TooLarge,
    /// The message would have this fault.
    Message(MsgFault),
    /// Memory ran out.
    OutOfMemory,
}

/// What follows the length of a message up to its body: no ids, the opCode of OP_MSG, no flag, and
/// the kind byte.
const FRONT: [u8; 17] = [0, 0, 0, 0, 0, 0, 0, 0, 0xdd, 7, 0, 0, 0, 0, 0, 0, 0];

/// Returns a message of `len` bytes with no ids and no flag, whose sections are these.
fn join_sections(
    alloc: Global,
    len: u32,
    body: &[u8],
    sequences: &[u8],
) -> Result<Vec<u8>, AllocError>
    requires { len ≡ content_len body.now sequences.now }
    ensures { IfOk result (λ message. message.items ≡ plain_message body.now sequences.now) }
{
    let mut message = Vec::with_capacity(alloc, len as usize)?;
    message.extend_from_slice(&len.to_le_bytes())?;
    message.extend_from_slice(&FRONT)?;
    message.extend_from_slice(body)?;
    message.extend_from_slice(sequences)?;
    Ok(message)
}

/// Returns the length of a message with these sections, or `None` if it is greater than `limit`.
fn len_within(body: &[u8], sequences: &[u8], limit: u32) -> Option<u32>
    requires { limit ≤ MAX_MESSAGE_LEN }
    ensures { IsLengthWithin limit (content_len body.now sequences.now) result }
{
    let most = limit as usize;
    if body.len() > most || sequences.len() > most {
        return None;
    }
    let len = body.len() + sequences.len() + 21;
    if len > most {
        return None;
    }
    Some(len as u32)
}

/// Like `spell_content`, but doesn't say what the content is.
fn spell_sections(
    alloc: Global,
    body: &[u8],
    sequences: &[u8],
    limit: u32,
) -> Result<Vec<u8>, ContentRefusal>
    requires { limit ≤ MAX_MESSAGE_LEN }
    ensures body { OnOk result (IsSpelled body.now) }
    ensures joined { IfOk result (λ message.
        message.items ≡ plain_message body.now sequences.now) }
    ensures spelled { OnOk result (IsMessage limit (plain_message body.now sequences.now)) }
    ensures refused { IfErr result (λ e. IsContentRefusal limit body.now sequences.now e) }
{
    match RawDocument::from_bytes(body) {
        Ok(_) => {}
        Err(fault) => return Err(ContentRefusal::Body(fault)),
    }
    let Some(len) = len_within(body, sequences, limit) else {
        return Err(ContentRefusal::TooLarge);
    };
    let Ok(message) = join_sections(alloc, len, body, sequences) else {
        return Err(ContentRefusal::OutOfMemory);
    };
    match RawMsg::parse_with(alloc, &message, limit) {
        Ok(_) => Ok(message),
        Err(fault) => Err(ContentRefusal::Message(fault)),
    }
}

/// Returns a message of at most `limit` bytes, with no ids and no flag, whose body is the document
/// that `body` is, and whose document sequences are the sections that `sequences` are.
///
/// # Errors
///
/// The first that applies of `Body`, `TooLarge`, `OutOfMemory` and `Message`, which has the first
/// fault of the message.
pub fn spell_content(
    alloc: Global,
    body: &[u8],
    sequences: &[u8],
    limit: u32,
) -> Result<Vec<u8>, ContentRefusal>
    requires { limit ≤ MAX_MESSAGE_LEN }
    ensures joined { IfOk result (λ message.
        message.items ≡ plain_message body.now sequences.now) }
    ensures spelled { IfOk result (λ message. IsMessage limit message.items) }
    ensures content { IfOk result (λ message. (m : Message) → SpellsMsg m message.items
        → AreParts [] body.now sequences.now m.content) }
    ensures refused { IfErr result (λ e. IsContentRefusal limit body.now sequences.now e) }
{
    spell_sections(alloc, body, sequences, limit)
}
