//! Reads and writes the flags of a message (MongoDB Wire Protocol manual: OP_MSG, flagBits).

ghost use Rattle.std.specs.Prelude.{◌≡◌, MatchResult, Some, None};
ghost use Rattle.wire_msg.specs.Spelling.{FlagsAre, flag_word};
ghost use Rattle.wire_msg.specs.Faults.{flags_fault};

use crate::fault::{MsgCause, MsgFault};

/// The required bits, 0 to 15. A message with an unknown one set is refused, while unknown bits
/// above them are ignored.
const REQUIRED_BITS: u32 = 0xffff;

/// checksumPresent, bit 0: a CRC-32C follows the sections.
const CHECKSUM_PRESENT: u32 = 1;

/// moreToCome, bit 1.
const MORE_TO_COME: u32 = 2;

/// exhaustAllowed, bit 16.
const EXHAUST_ALLOWED: u32 = 0x1_0000;

/// The flags that mean something to an endpoint.
#[derive(Clone, Copy, Debug, PartialEq, Eq)]
pub struct MsgFlags {
    /// moreToCome, bit 1: on a request, no reply is wanted; on a reply, another one follows.
    pub more_to_come: bool,
    /// exhaustAllowed, bit 16: more than one reply may be sent to this request.
    pub exhaust_allowed: bool,
}

impl MsgFlags {
    /// No flag is set.
    pub const NONE: MsgFlags = MsgFlags {
        more_to_come: false,
        exhaust_allowed: false,
    };

    /// Reads the flags from `word`, the number in their four bytes, lowest byte first.
    ///
    /// # Errors
    ///
    /// Returns `Flags` at offset 16 if an unknown bit is set among the bits 2 to 15, and otherwise
    /// `Checksum` at offset 16 if bit 0 is set.
    pub(crate) fn read(word: u32) -> Result<MsgFlags, MsgFault>
        ensures read { MatchResult result
            (λ flags. FlagsAre word flags)
            (λ f. flags_fault word ≡ Some f) }
        ensures none { MatchResult result (λ _. flags_fault word ≡ None) (λ _. Unit {0}) }
    {
        let required = word & REQUIRED_BITS;
        if required > (CHECKSUM_PRESENT | MORE_TO_COME) {
            return Err(MsgFault {
                at: 16,
                cause: MsgCause::Flags,
            });
        }
        if required & CHECKSUM_PRESENT != 0 {
            return Err(MsgFault {
                at: 16,
                cause: MsgCause::Checksum,
            });
        }
        Ok(MsgFlags {
            more_to_come: required & MORE_TO_COME != 0,
            exhaust_allowed: word & EXHAUST_ALLOWED != 0,
        })
    }

    /// Returns the flag bits as a number, with no other bit set.
    pub(crate) fn word(self) -> u32
        ensures { result ≡ flag_word self }
    {
        u32::from(self.more_to_come) * MORE_TO_COME
            + u32::from(self.exhaust_allowed) * EXHAUST_ALLOWED
    }
}
