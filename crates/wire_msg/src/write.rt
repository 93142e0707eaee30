//! Writes messages in their canonical spelling (MongoDB Wire Protocol manual: OP_MSG): the body
//! comes before the document sequences, and no meaningless flag bit is set.

ghost use Rattle.std.specs.Prelude.{◌≡◌, ◌≤◌, ◌++◌, OnOk, OnErr, IfErr};
ghost use Rattle.std.specs.Io.{StartsWith};
ghost use Rattle.bson_elem.specs.{little};
ghost use Rattle.wire_msg.specs.Carrying.{Carries};
ghost use Rattle.wire_msg.specs.Messages.{Content, Message};
ghost use Rattle.wire_msg.specs.Spelling.{canonical, flag_word, header_bytes, message_len, signed};
ghost use Rattle.wire_msg.specs.Writing.{IsWriteRefusal};

use crate::flags::MsgFlags;
use crate::header::OP_MSG;
use crate::payloads::Payload;
use crate::refusal::MsgRefusal;
use byteorder::{ByteOrder, LittleEndian};
use std::alloc::AllocError;

/// Appends a number as four bytes, lowest byte first.
fn write_u32(n: u32, out: &mut Vec<u8>) -> Result<(), AllocError>
    ensures added { OnOk result (out.new.items ≡ out.old.items ++ little n) }
    ensures kept { OnErr result (StartsWith out.new.items out.old.items) }
{
    let mut bytes = [0; 4];
    LittleEndian::write_u32(&mut bytes, n);
    out.extend_from_slice(&bytes)
}

/// Appends an int32.
fn write_i32(n: i32, out: &mut Vec<u8>) -> Result<(), AllocError>
    ensures added { OnOk result (out.new.items ≡ out.old.items ++ signed n) }
    ensures kept { OnErr result (StartsWith out.new.items out.old.items) }
{
    let mut bytes = [0; 4];
    LittleEndian::write_i32(&mut bytes, n);
    out.extend_from_slice(&bytes)
}

/// Appends the header of a message of `len` bytes.
fn write_header(len: u32, id: i32, response_to: i32, out: &mut Vec<u8>) -> Result<(), AllocError>
    ensures added { OnOk result
        (out.new.items ≡ out.old.items ++ header_bytes len id response_to) }
    ensures kept { OnErr result (StartsWith out.new.items out.old.items) }
{
    write_u32(len, out)?;
    write_i32(id, out)?;
    write_i32(response_to, out)?;
    write_i32(OP_MSG, out)
}

/// Appends a message of `len` bytes. If memory runs out, `out` may end with some of them.
fn write_parts(
    out: &mut Vec<u8>,
    len: u32,
    id: i32,
    response_to: i32,
    flags: MsgFlags,
    payload: Payload<'_>,
) -> Result<(), AllocError>
    requires { (c : Content) → Carries payload c → len ≡ message_len c }
    ensures added { (c : Content) → Carries payload.entry c
        → OnOk result (out.new.items ≡ out.old.items ++ canonical (record {
          id = id;
          response_to = response_to;
          flags = flags;
          content = c;
        })) }
    ensures kept { OnErr result (StartsWith out.new.items out.old.items) }
{
    write_header(len, id, response_to, out)?;
    write_u32(flags.word(), out)?;
    payload.write_sections(out)
}

/// Appends a message to `out`. The document sequences keep their order.
///
/// # Errors
///
/// Returns `TooLarge` if the message has more than `limit` bytes, and otherwise `OutOfMemory`.
/// Then `out` is unchanged.
pub fn write_msg(
    out: &mut Vec<u8>,
    id: i32,
    response_to: i32,
    flags: MsgFlags,
    payload: Payload<'_>,
    limit: u32,
) -> Result<(), MsgRefusal>
    ensures written { (c : Content) → Carries payload.entry c
        → OnOk result (out.new.items ≡ out.old.items ++ canonical (record {
          id = id;
          response_to = response_to;
          flags = flags;
          content = c;
        })) }
    ensures within { (c : Content) → Carries payload.entry c
        → OnOk result (message_len c ≤ limit) }
    ensures refused { (c : Content) → Carries payload.entry c
        → IfErr result (λ e. IsWriteRefusal limit (message_len c) e) }
    ensures unchanged { OnErr result (out.new.items ≡ out.old.items) }
{
    let len = payload.msg_len();
    if len > limit as u64 {
        return Err(MsgRefusal::TooLarge);
    }
    let start = out.len();
    out.try_reserve(len as usize)?;
    match write_parts(out, len as u32, id, response_to, flags, payload) {
        Ok(()) => Ok(()),
        Err(_) => {
            out.truncate(start);
            Err(MsgRefusal::OutOfMemory)
        }
    }
}
