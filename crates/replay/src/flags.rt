//! The flags of an OP_MSG, as its bytes have them, and whether a request wants an answer.

ghost use Rattle.std.specs.Prelude.{◌≡◌};
ghost use Rattle.wire_frames.specs.{frame_bytes};
ghost use Rattle.replay.specs.Flags.{flags_of, has_flag, is_msg, is_unanswered};
ghost use Rattle.replay.specs.Flags.{wants_answer};

use wire_frames::RawFrame;
use wire_msg::OP_MSG;

/// The offset of the flags of an OP_MSG.
pub const FLAGS: usize = 16;

/// The flag checksumPresent in the first byte of them.
pub const CHECKSUM_PRESENT: u8 = 1;

/// The flag moreToCome in the first byte of them.
pub const MORE_TO_COME: u8 = 2;

/// The opCodes of requests to which no answer comes.
const OP_UPDATE: i32 = 2001;

const OP_INSERT: i32 = 2002;

const OP_DELETE: i32 = 2006;

const OP_KILL_CURSORS: i32 = 2007;

/// Returns true if a message is an OP_MSG.
fn is_msg(frame: RawFrame<'_>) -> bool
    ensures { result ≡ is_msg (frame_bytes frame.entry) }
{
    frame.header().opcode == OP_MSG
}

/// Returns the first byte of the flags of an OP_MSG, or 0 if the message ends before them.
fn flags_of(frame: RawFrame<'_>) -> u8
    ensures { result ≡ flags_of (frame_bytes frame.entry) }
{
    frame.as_bytes().get(FLAGS).copied().unwrap_or(0)
}

/// Returns true if a message is an OP_MSG that has this flag in the first byte of its flags.
pub fn has_flag(frame: RawFrame<'_>, flag: u8) -> bool
    ensures { result ≡ has_flag flag (frame_bytes frame.entry) }
{
    is_msg(frame) && flags_of(frame) & flag != 0
}

/// Returns true if no answer comes to requests with this opCode.
fn is_unanswered(opcode: i32) -> bool
    ensures { result ≡ is_unanswered opcode }
{
    opcode == OP_UPDATE || opcode == OP_INSERT || opcode == OP_DELETE || opcode == OP_KILL_CURSORS
}

/// Returns true if an answer comes to a request: to each OP_MSG without moreToCome, and to each
/// other message unless its opCode is one to which none comes.
pub fn wants_answer(frame: RawFrame<'_>) -> bool
    ensures { result ≡ wants_answer (frame_bytes frame.entry) }
{
    !has_flag(frame, MORE_TO_COME) && !is_unanswered(frame.header().opcode)
}
