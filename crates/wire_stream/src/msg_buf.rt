//! Holds a whole message in bytes of its own.

ghost use Rattle.std.specs.Prelude.{◌≡◌};
ghost use Rattle.wire_msg.specs.{msg_bytes, IsSpelledMsg};

use std::marker::Model;
use wire_msg::RawMsg;

/// A whole message that was moved out of a reader. Contracts see its bytes.
#[derive(Drop)]
pub struct MsgBuf {
    bytes: Vec<u8>,
}

impl Model for MsgBuf {
    ghost use Rattle.std.specs.Prelude.{List, ℕ};
    ghost use Rattle.wire_msg.specs.{IsSpelledMsg};

    ghost Value = { List ℕ };

    ghost view = { λ s. s.bytes.items };

    ghost invariant = { λ s. ∥ IsSpelledMsg s.bytes.items ∥₁ };
}

impl MsgBuf {
    /// Makes the message that the bytes are known to spell, without checking them.
    pub(crate) fn from_spelled(bytes: Vec<u8>) -> MsgBuf
        requires { ∥ IsSpelledMsg bytes.items ∥₁ }
        ensures { result ≡ bytes.items }
    {
        MsgBuf { bytes }
    }

    /// Borrows the message. Takes no memory, and checks nothing again.
    pub fn as_msg(&self) -> RawMsg<'_>
        ensures { msg_bytes result ≡ self.now }
    {
        RawMsg::from_spelled(&self.bytes)
    }
}
