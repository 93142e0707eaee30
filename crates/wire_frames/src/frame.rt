//! A message of any opCode, borrowed from its bytes.

ghost use Rattle.std.specs.Prelude.{◌≡◌};
ghost use Rattle.wire_msg.specs.{header_of};
ghost use Rattle.wire_frames.specs.Frames.{IsFramed};

use crate::opcode::Opcode;
use wire_msg::MsgHeader;

/// A whole message of any opCode, borrowed from its bytes: a header, and what it announces.
/// Nothing behind the header was checked.
#[derive(Clone, Copy, Debug, PartialEq, Eq)]
pub struct RawFrame<'a> {
    bytes: &'a [u8],
    pub ghost framed: { IsFramed bytes.now },
}

impl<'a> RawFrame<'a> {
    ghost use Rattle.wire_frames.specs.Opcodes.{IsOwnKind, opcode_number};
    ghost use Rattle.wire_frames.specs.RawFrame.{frame_bytes};

    /// Makes the frame that the bytes are known to be, without checking them.
    pub(crate) fn from_framed(bytes: &'a [u8]) -> RawFrame<'a>
        requires { IsFramed bytes.now }
        ensures { frame_bytes result ≡ bytes.now }
    {
        RawFrame { bytes }
    }

    /// Returns the bytes of the frame.
    pub fn as_bytes(self) -> &'a [u8]
        ensures { result.now ≡ frame_bytes self.entry }
    {
        self.bytes
    }

    /// Reads the header of the frame.
    pub fn header(self) -> MsgHeader
        ensures { result ≡ header_of (frame_bytes self.entry) }
    {
        let Some((header, _)) = self.bytes.split_first_chunk::<16>() else {
            unreachable!();
        };
        MsgHeader::read(*header)
    }

    /// Returns the kind of the message.
    pub fn opcode(self) -> Opcode
        ensures number { opcode_number result ≡ (header_of (frame_bytes self.entry)).opcode }
        ensures own { IsOwnKind result }
    {
        Opcode::from_number(self.header().opcode)
    }
}
