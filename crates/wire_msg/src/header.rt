//! Reads and checks the header of a message (MongoDB Wire Protocol manual: Standard Message
//! Header).

ghost use Rattle.std.specs.Prelude.{◌≡◌, ◌≤◌, MatchResult};
ghost use Rattle.wire_msg.specs.Header.{HeaderFault, header_of, IsGoodHeader};

use crate::fault::{MsgCause, MsgFault};
use byteorder::{ByteOrder, LittleEndian};

/// The length of a header, in bytes.
pub const HEADER_LEN: u32 = 16;

/// The greatest limit that a connection may have (maxMessageSizeBytes), which is the length of the
/// longest message, in bytes.
pub const MAX_MESSAGE_LEN: u32 = 48_000_000;

/// The opCode of OP_MSG.
pub const OP_MSG: i32 = 2013;

/// The four numbers of a header.
#[derive(Clone, Copy, Debug, PartialEq, Eq)]
pub struct MsgHeader {
    /// messageLength, the number of bytes of the whole message. This int32 is read as an unsigned
    /// number, so a negative one is above every limit.
    pub length: u32,
    /// requestID.
    pub id: i32,
    /// responseTo.
    pub response_to: i32,
    /// opCode.
    pub opcode: i32,
}

impl MsgHeader {
    /// Reads a header from its 16 bytes.
    pub fn read(bytes: [u8; 16]) -> MsgHeader
        ensures { result ≡ header_of bytes }
    {
        MsgHeader {
            length: LittleEndian::read_u32(&bytes[0..4]),
            id: LittleEndian::read_i32(&bytes[4..8]),
            response_to: LittleEndian::read_i32(&bytes[8..12]),
            opcode: LittleEndian::read_i32(&bytes[12..16]),
        }
    }

    /// Checks that a message of at most `limit` bytes can have this header.
    ///
    /// # Errors
    ///
    /// Returns `Length` at 0 if the length is below 16 or above the limit, and otherwise `Opcode`
    /// at 12 if the opcode isn't that of OP_MSG.
    pub fn check(&self, limit: u32) -> Result<(), MsgFault>
        requires { limit ≤ MAX_MESSAGE_LEN }
        ensures { MatchResult result
            (λ _. IsGoodHeader limit self.now)
            (λ f. HeaderFault limit self.now f) }
    {
        if self.length < HEADER_LEN || self.length > limit {
            return Err(MsgFault {
                at: 0,
                cause: MsgCause::Length,
            });
        }
        let opcode = self.opcode;
        if opcode != OP_MSG {
            return Err(MsgFault {
                at: 12,
                cause: MsgCause::Opcode(opcode),
            });
        }
        Ok(())
    }
}
