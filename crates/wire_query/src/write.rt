//! Writes the numbers and the header of a message, and what stands before the body of an OP_MSG
//! (MongoDB Wire Protocol manual: Standard Message Header, OP_MSG).

ghost use Rattle.std.specs.Prelude.{◌≡◌, ◌+◌, ◌<◌, ◌^◌, ◌++◌, OnOk, OnErr};
ghost use Rattle.std.specs.Io.{StartsWith};
ghost use Rattle.bson_elem.specs.{little};
ghost use Rattle.wire_query.specs.Spelling.{header_bytes, message_front, signed};
ghost use Rattle.wire_query.specs.Replies.{long};

use byteorder::{ByteOrder, LittleEndian};
use std::alloc::AllocError;
use wire_msg::OP_MSG;

/// The number of bytes before the body in a message with no document sequence.
const BODY: usize = 21;

/// Appends a number as four bytes, lowest byte first.
pub(crate) fn write_u32(n: u32, out: &mut Vec<u8>) -> Result<(), AllocError>
    ensures added { OnOk result (out.new.items ≡ out.old.items ++ little n) }
    ensures kept { OnErr result (StartsWith out.new.items out.old.items) }
{
    let mut bytes = [0; 4];
    LittleEndian::write_u32(&mut bytes, n);
    out.extend_from_slice(&bytes)
}

/// Appends an int32.
pub(crate) fn write_i32(n: i32, out: &mut Vec<u8>) -> Result<(), AllocError>
    ensures added { OnOk result (out.new.items ≡ out.old.items ++ signed n) }
    ensures kept { OnErr result (StartsWith out.new.items out.old.items) }
{
    let mut bytes = [0; 4];
    LittleEndian::write_i32(&mut bytes, n);
    out.extend_from_slice(&bytes)
}

/// Appends an int64.
pub(crate) fn write_i64(n: i64, out: &mut Vec<u8>) -> Result<(), AllocError>
    ensures added { OnOk result (out.new.items ≡ out.old.items ++ long n) }
    ensures kept { OnErr result (StartsWith out.new.items out.old.items) }
{
    let mut bytes = [0; 8];
    LittleEndian::write_i64(&mut bytes, n);
    out.extend_from_slice(&bytes)
}

/// Appends the header of a message of `len` bytes.
pub(crate) fn write_header(
    len: u32,
    id: i32,
    response_to: i32,
    opcode: u32,
    out: &mut Vec<u8>,
) -> Result<(), AllocError>
    ensures added { OnOk result
        (out.new.items ≡ out.old.items ++ header_bytes len id response_to opcode) }
    ensures kept { OnErr result (StartsWith out.new.items out.old.items) }
{
    write_u32(len, out)?;
    write_i32(id, out)?;
    write_i32(response_to, out)?;
    write_u32(opcode, out)
}

/// Appends the header of an OP_MSG with a body of `len` bytes and no flag, and the body's kind.
pub(crate) fn write_message_front(
    len: usize,
    id: i32,
    response_to: i32,
    out: &mut Vec<u8>,
) -> Result<(), AllocError>
    requires { BODY + len < 2 ^ 32 }
    ensures added { OnOk result
        (out.new.items ≡ out.old.items ++ message_front id response_to len) }
    ensures kept { OnErr result (StartsWith out.new.items out.old.items) }
{
    write_header((BODY + len) as u32, id, response_to, OP_MSG as u32, out)?;
    out.extend_from_slice(&[0, 0, 0, 0, 0])
}
