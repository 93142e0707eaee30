//! Proves the laws of frames, which everything that cuts bytes into messages of any opCode needs.
//! The contract of each function is the law.

ghost use Rattle.std.specs.Prelude.{◌≡◌, ◌≤◌, ◌++◌, ◌⊎◌, ℕ, List, codes, pos};
ghost use Rattle.wire_msg.specs.declared.header.TheConstants.{MAX_MESSAGE_LEN};
ghost use Rattle.wire_msg.specs.{header_of, IsBad, IsMessage, msg_fault};
ghost use Rattle.wire_msg.specs.declared.fault.MsgCause.TheVariants.{Length};
ghost use Rattle.wire_frames.specs.declared.checksum.Checksum.{Checksum};
ghost use Rattle.wire_frames.specs.declared.opcode.Opcode.{Opcode};
ghost use Rattle.wire_frames.specs.Checksums.{IsChecksumOf};
ghost use Rattle.wire_frames.specs.Crc32c.{crc32c_of};
ghost use Rattle.wire_frames.specs.Frames.{FrameSplit, IsFrame, IsWholeFrame, LacksFrame, StandsAs};
ghost use Rattle.wire_frames.specs.Frames.{WantsMore};
ghost use Rattle.wire_frames.specs.Opcodes.{IsOwnKind, opcode_number};

use crate::frame::RawFrame;
use crate::frames::WireFrames;

/// Proves that at most one frame is at the front of bytes, and that open bytes want one number of
/// bytes.
pub fn one_front()
    ensures whole { (limit : ℕ) (bytes frame other rest after : List ℕ)
        → IsWholeFrame limit bytes frame rest → IsWholeFrame limit bytes other after
        → (frame ≡ other) × (rest ≡ after) }
    ensures too_few { (limit : ℕ) (bytes : List ℕ) (n m : ℕ) → WantsMore limit bytes n
        → WantsMore limit bytes m → n ≡ m }
{}

/// Proves that no bytes are two of open, a frame and a rest, and bytes that begin with no frame.
pub fn one_standing()
    ensures open_or_whole { (limit : ℕ) (bytes frame rest : List ℕ) (n : ℕ)
        → WantsMore limit bytes n → IsWholeFrame limit bytes frame rest → ⊥ }
    ensures open_or_bad { (limit : ℕ) (bytes : List ℕ) (n : ℕ) → WantsMore limit bytes n
        → LacksFrame limit bytes → ⊥ }
    ensures bad_or_whole { (limit : ℕ) (bytes frame rest : List ℕ) → LacksFrame limit bytes
        → IsWholeFrame limit bytes frame rest → ⊥ }
{}

/// Proves that bytes are one of these. Reads `bytes` to find out which.
pub fn open_whole_or_bad(bytes: &[u8], limit: u32)
    requires { limit ≤ MAX_MESSAGE_LEN }
    ensures { StandsAs limit bytes.now }
{
    let _ = RawFrame::front(bytes, limit);
}

/// Proves that bytes which begin with no frame begin with none when more bytes follow.
pub fn bad_stays_bad()
    ensures { (limit : ℕ) (bytes more : List ℕ) → LacksFrame limit bytes
        → LacksFrame limit (bytes ++ more) }
{}

/// Proves that bytes split into frames and a rest in at most one way.
pub fn one_split()
    ensures { (limit : ℕ) (bytes : List ℕ) (frames others : List (List ℕ)) (rest after : List ℕ)
        → FrameSplit limit bytes frames rest → FrameSplit limit bytes others after
        → (frames ≡ others) × (rest ≡ after) }
{}

/// Splits `bytes` into frames of at most `limit` bytes and a rest, which is open or begins with no
/// frame. Returns the rest.
pub fn split_of(bytes: &[u8], limit: u32) -> &[u8]
    requires { limit ≤ MAX_MESSAGE_LEN }
    ensures split { (frames : List (List ℕ)) × FrameSplit limit bytes.now frames result.now }
    ensures ends { ((n : ℕ) × WantsMore limit result.now n) ⊎ LacksFrame limit result.now }
{
    framing::laws::split_of(&WireFrames { limit }, bytes)
}

/// Proves that a message is a frame of the same limit whose opCode is that of OP_MSG, and that
/// where no frame begins, no message does, by the same fault.
pub fn messages_are_frames()
    ensures message { (limit : ℕ) (bytes : List ℕ) → IsMessage limit bytes
        → IsFrame limit bytes × ((header_of bytes).opcode ≡ pos 2013) }
    ensures fault { (limit : ℕ) (bytes : List ℕ) → LacksFrame limit bytes
        → IsBad limit bytes (msg_fault 0 Length) }
{}

/// Proves that an opCode is that of one kind.
pub fn one_kind()
    ensures { (a b : Opcode) → IsOwnKind a → IsOwnKind b → opcode_number a ≡ opcode_number b
        → a ≡ b }
{}

/// Proves that a frame has no checksum, a right one, or a wrong one, and no two of these.
pub fn one_checksum()
    ensures { (bytes : List ℕ) (a b : Checksum) → IsChecksumOf bytes a → IsChecksumOf bytes b
        → a ≡ b }
{}

/// Proves that the digits from 1 to 9 have the CRC-32C by which its implementations are told.
pub fn check_value()
    ensures { crc32c_of (codes "123456789") ≡ 0xE3069283 }
{}
