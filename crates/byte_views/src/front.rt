//! Tells what stands in front of bytes that more may follow, as a message is read in pieces.

ghost use Rattle.std.specs.Prelude.{◌≡◌, ◌≤◌, ◌<◌};
ghost use Rattle.byte_views.specs.Front.{IsMessageFront, bytes_wanted, limit_front};

use crate::fault::FirstFault;
use crate::reading::Reading;
use bson_elem::little_u32;
use wire_msg::{MAX_MESSAGE_LEN, MsgFront};

/// What bytes begin with.
#[derive(Clone, Copy)]
#[repr(C)]
pub struct MessageFront {
    /// 0 if more bytes are wanted, 1 if a message stands in front, and 2 if there is a fault.
    pub state: u32,
    /// If the state is 0, how many bytes there have to be, from the first on, before more can be
    /// told. If it is 1, the length of the message. Else 0.
    pub length: usize,
    /// If the state is 2, the first fault, by the number of its cause, from 1 to 13. The number is
    /// 255 if the limit is too large; then nothing was read.
    pub fault: FirstFault,
    /// If the cause is 7, the fault of the document at that offset. Its own offset is counted from
    /// there.
    pub document_fault: FirstFault,
}

/// Returns how many bytes there have to be before more can be told of these: those of a header, or
/// as many as the header says.
fn bytes_wanted(bytes: &[u8]) -> usize
    ensures { result ≡ bytes_wanted bytes.now }
{
    if bytes.len() < 16 {
        return 16;
    }
    little_u32(bytes) as usize
}

/// Tells whether a message of at most `limit` bytes stands in front of `bytes`. Reads it
/// by `reading`.
pub fn message_front<R: Reading>(reading: R, bytes: &[u8], limit: u32) -> MessageFront
    ensures read { limit ≤ MAX_MESSAGE_LEN → IsMessageFront limit bytes.now result }
    ensures large_limit { MAX_MESSAGE_LEN < limit → result ≡ limit_front }
{
    let none = FirstFault::none();
    if limit > MAX_MESSAGE_LEN {
        return MessageFront {
            state: 2,
            length: 0,
            fault: FirstFault::of_limit(),
            document_fault: none,
        };
    }
    match reading.front(bytes, limit) {
        MsgFront::Open => MessageFront {
            state: 0,
            length: bytes_wanted(bytes),
            fault: none,
            document_fault: none,
        },
        MsgFront::Whole { message, .. } => MessageFront {
            state: 1,
            length: message.as_bytes().len(),
            fault: none,
            document_fault: none,
        },
        MsgFront::Bad(found) => MessageFront {
            state: 2,
            length: 0,
            fault: FirstFault::of_message(0, found),
            document_fault: FirstFault::inside(found.cause),
        },
    }
}
