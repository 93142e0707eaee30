//! Writes replies of one document (MongoDB Wire Protocol manual: OP_REPLY).

ghost use Rattle.std.specs.Prelude.{◌≡◌, ◌≤◌, ◌<◌, ◌^◌, ◌++◌, OnOk, OnErr, IfErr};
ghost use Rattle.std.specs.Io.{StartsWith};
ghost use Rattle.bson_elem.specs.{Spells, Tree};
ghost use Rattle.bson_raw.specs.{document_bytes};
ghost use Rattle.wire_msg.specs.{IsWriteRefusal};
ghost use Rattle.wire_query.specs.Replies.{command_head, numbers_bytes, reply_bytes, reply_len};

use crate::write::{write_header, write_i32, write_i64, write_u32};
use bson_raw::RawDocument;
use std::alloc::AllocError;
use wire_msg::MsgRefusal;

/// The opCode of OP_REPLY.
pub const OP_REPLY: i32 = 1;

/// The number of bytes before the documents of a reply.
const REPLY_FRONT: u64 = 36;

/// The numbers of a reply that don't follow from its documents.
#[derive(Clone, Copy, Debug, PartialEq, Eq)]
pub struct ReplyHead {
    /// requestID.
    pub id: i32,
    /// responseTo: the requestID of the query.
    pub response_to: i32,
    /// responseFlags.
    pub flags: u32,
    /// cursorID.
    pub cursor_id: i64,
    /// startingFrom.
    pub starting_from: i32,
}

impl ReplyHead {
    /// Returns the numbers of a reply to a command: no flag is set, and there is no cursor.
    pub fn of_command(id: i32, response_to: i32) -> ReplyHead
        ensures { result ≡ command_head id response_to }
    {
        ReplyHead {
            id,
            response_to,
            flags: 0,
            cursor_id: 0,
            starting_from: 0,
        }
    }
}

/// Appends the numbers that follow the header of a reply with one document.
fn write_numbers(head: ReplyHead, out: &mut Vec<u8>) -> Result<(), AllocError>
    ensures added { OnOk result (out.new.items ≡ out.old.items ++ numbers_bytes head) }
    ensures kept { OnErr result (StartsWith out.new.items out.old.items) }
{
    write_u32(head.flags, out)?;
    write_i64(head.cursor_id, out)?;
    write_i32(head.starting_from, out)?;
    write_u32(1, out)
}

/// Appends a reply of `len` bytes. If memory runs out, `out` may end with some of them.
fn write_parts(
    out: &mut Vec<u8>,
    len: u32,
    head: ReplyHead,
    document: RawDocument<'_>,
) -> Result<(), AllocError>
    requires { (t : Tree) → Spells t (document_bytes document) → len ≡ reply_len t }
    ensures added { (t : Tree) → Spells t (document_bytes document.entry)
        → OnOk result (out.new.items ≡ out.old.items ++ reply_bytes head t) }
    ensures kept { OnErr result (StartsWith out.new.items out.old.items) }
{
    write_header(len, head.id, head.response_to, OP_REPLY as u32, out)?;
    write_numbers(head, out)?;
    out.extend_from_slice(document.as_bytes())
}

/// Appends a reply of one document to `out`.
///
/// # Errors
///
/// Returns `TooLarge` if the reply has more than `limit` bytes, and otherwise `OutOfMemory`. Then
/// `out` is unchanged.
pub fn write_reply(
    out: &mut Vec<u8>,
    head: ReplyHead,
    document: RawDocument<'_>,
    limit: u32,
) -> Result<(), MsgRefusal>
    requires { limit < 2 ^ 31 }
    ensures written { (t : Tree) → Spells t (document_bytes document.entry)
        → OnOk result (out.new.items ≡ out.old.items ++ reply_bytes head t) }
    ensures within { (t : Tree) → Spells t (document_bytes document.entry)
        → OnOk result (reply_len t ≤ limit) }
    ensures refused { (t : Tree) → Spells t (document_bytes document.entry)
        → IfErr result (λ e. IsWriteRefusal limit (reply_len t) e) }
    ensures unchanged { OnErr result (out.new.items ≡ out.old.items) }
{
    let len = REPLY_FRONT + document.as_bytes().len() as u64;
    if len > limit as u64 {
        return Err(MsgRefusal::TooLarge);
    }
    let start = out.len();
    out.try_reserve(len as usize)?;
    match write_parts(out, len as u32, head, document) {
        Ok(()) => Ok(()),
        Err(_) => {
            out.truncate(start);
            Err(MsgRefusal::OutOfMemory)
        }
    }
}
