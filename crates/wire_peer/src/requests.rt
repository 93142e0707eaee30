//! Requests, as a handler sees them.

ghost use Rattle.std.specs.Prelude.{◌≡◌};
ghost use Rattle.wire_msg.specs.{Message, SpellsMsg, msg_bytes};
ghost use Rattle.wire_peer.specs.Requests.{asked, asked_by, takes_more};

use wire_msg::{Payload, RawMsg};

/// A request that a handler is asked, borrowed.
#[derive(Clone, Copy, Debug)]
pub struct Request<'a> {
    /// The body and the document sequences.
    pub payload: Payload<'a>,
    /// exhaustAllowed: more than one reply may be sent.
    pub exhaust_allowed: bool,
    /// moreToCome: no reply is wanted.
    pub more_to_come: bool,
}

impl Request<'_> {
    /// Returns true if more than one answer may be given: if more than one reply may be sent, and
    /// one is wanted at all.
    pub fn takes_more(&self) -> bool
        ensures { result ≡ takes_more (asked self.now) }
    {
        self.exhaust_allowed && !self.more_to_come
    }
}

/// Returns the request that a message is.
pub(crate) fn request_of(message: RawMsg<'_>) -> Request<'_>
    ensures { (m : Message) → SpellsMsg m (msg_bytes message.entry) → asked result ≡ asked_by m }
{
    Request {
        payload: message.payload(),
        exhaust_allowed: message.exhaust_allowed(),
        more_to_come: message.more_to_come(),
    }
}
