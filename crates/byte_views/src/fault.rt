//! Puts the first fault of some bytes into numbers.

ghost use Rattle.std.specs.Prelude.{◌≡◌, ◌+◌, ◌<◌, ◌^◌, None, Some};
ghost use Rattle.bson_elem.specs.{fault};
ghost use Rattle.wire_msg.specs.{msg_fault};
ghost use Rattle.byte_views.specs.Fault.{document_fault, first_fault, message_fault};
ghost use Rattle.byte_views.specs.Fault.{ended_inside_fault, limit_fault};

use bson_elem::BsonFault;
use wire_msg::{MsgCause, MsgFault};

/// The first fault of some bytes, if there is one.
#[derive(Clone, Copy)]
#[repr(C)]
pub struct FirstFault {
    /// The number of its cause, or 0 if there is no fault.
    pub number: u32,
    /// Its offset, or 0 if there is no fault.
    pub offset: usize,
}

impl FirstFault {
    /// Returns number 0 and offset 0, which mean that there is no fault.
    pub fn none() -> FirstFault
        ensures { result ≡ first_fault None }
    {
        FirstFault {
            number: 0,
            offset: 0,
        }
    }

    /// Returns the fault `found` in a document that begins at offset `start`.
    pub fn of_document(start: usize, found: BsonFault) -> FirstFault
        requires { start + found.at < 2 ^ 64 }
        ensures { result ≡ first_fault (Some (fault (start + found.at) found.cause)) }
    {
        FirstFault {
            number: u32::from(found.cause.number()),
            offset: start + found.at,
        }
    }

    /// Returns the `fault` of a message that begins at offset `start`.
    pub fn of_message(start: usize, fault: MsgFault) -> FirstFault
        requires { start + fault.at < 2 ^ 64 }
        ensures { result ≡ message_fault (msg_fault (start + fault.at) fault.cause) }
    {
        FirstFault {
            number: u32::from(fault.cause.number()),
            offset: start + fault.at,
        }
    }

    /// Returns the fault of the document inside the message, if that is the message's `cause`. Its
    /// offset is counted from the document's first byte.
    pub fn inside(cause: MsgCause) -> FirstFault
        ensures { result ≡ document_fault cause }
    {
        match cause {
            MsgCause::Document(found) => FirstFault::of_document(0, found),
            _ => FirstFault::none(),
        }
    }

    /// Returns the fault of bytes that end inside the message that begins at `offset`.
    pub fn ended_inside(offset: usize) -> FirstFault
        ensures { result ≡ ended_inside_fault offset }
    {
        FirstFault { number: 14, offset }
    }

    /// Returns the fault of a call whose limit on the length of messages is too large.
    pub fn of_limit() -> FirstFault
        ensures { result ≡ limit_fault }
    {
        FirstFault {
            number: 255,
            offset: 0,
        }
    }
}
