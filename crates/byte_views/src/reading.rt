//! Reads messages with memory for the names of a body, or without.

ghost use Rattle.std.specs.Prelude.{◌≡◌, ◌≤◌, IfErr, IfOk, length};
ghost use Rattle.wire_msg.specs.declared.header.TheConstants.{MAX_MESSAGE_LEN};
ghost use Rattle.wire_msg.specs.{FaultMsg, IsMessage, IsOpen, msg_bytes};
ghost use Rattle.wire_msg.specs.Front.{IsFront};

use std::alloc::Global;
use wire_msg::{MsgFault, MsgFront, RawMsg};

/// How the names of a body are compared. It is a type and no value, so that what reads messages in
/// place reaches nothing that takes memory.
pub trait Reading: Copy {
    /// Reads `bytes` as one message, of at most `limit` bytes.
    ///
    /// # Errors
    ///
    /// Returns the first fault.
    fn parse(self, bytes: &[u8], limit: u32) -> Result<RawMsg<'_>, MsgFault>
        requires { limit ≤ MAX_MESSAGE_LEN }
        ensures found { IfOk result (λ m. (msg_bytes m ≡ bytes.now) × IsMessage limit bytes.now) }
        ensures fault { IfErr result (λ f. FaultMsg bytes.now limit f) }
        ensures inside { IfErr result (λ f. f.at ≤ length bytes.now) };

    /// Reads the message at the front of `bytes`, of at most `limit` bytes.
    fn front(self, bytes: &[u8], limit: u32) -> MsgFront<'_>
        requires { limit ≤ MAX_MESSAGE_LEN }
        ensures front { IsFront limit bytes.now result };
}

/// Compares each name with all others, and takes no memory.
#[derive(Clone, Copy)]
pub struct InPlace;

impl Reading for InPlace {
    fn parse(self, bytes: &[u8], limit: u32) -> Result<RawMsg<'_>, MsgFault> {
        RawMsg::parse(bytes, limit)
    }

    fn front(self, bytes: &[u8], limit: u32) -> MsgFront<'_> {
        RawMsg::front(bytes, limit)
    }
}

/// Sorts the names in memory, if there is some.
impl Reading for Global {
    fn parse(self, bytes: &[u8], limit: u32) -> Result<RawMsg<'_>, MsgFault> {
        RawMsg::parse_with(self, bytes, limit)
    }

    fn front(self, bytes: &[u8], limit: u32) -> MsgFront<'_> {
        RawMsg::front_with(self, bytes, limit)
    }
}
