//! Checks a message, and messages one after another.

ghost use Rattle.std.specs.Prelude.{◌≡◌, ◌≤◌, ◌<◌};
ghost use Rattle.byte_views.specs.Messages.{IsMessageCheck, limit_message_check};
ghost use Rattle.byte_views.specs.Messages.{IsMessagesCheck, limit_messages_check};

use crate::fault::FirstFault;
use crate::reading::Reading;
use wire_msg::{MAX_MESSAGE_LEN, MsgFront};

/// The result of checking one message.
#[derive(Clone, Copy)]
#[repr(C)]
pub struct MessageCheck {
    /// The first fault, by the number of its cause, from 1 to 13. The number is 255 if the limit
    /// is too large; then nothing was read.
    pub fault: FirstFault,
    /// If the cause is 7, the fault of the document at that offset. Its own offset is counted from
    /// there.
    pub document_fault: FirstFault,
}

/// Checks that `bytes` are exactly one message, of at most `limit` bytes. Reads it by
/// `reading`.
pub fn check_message<R: Reading>(reading: R, bytes: &[u8], limit: u32) -> MessageCheck
    ensures read { limit ≤ MAX_MESSAGE_LEN → IsMessageCheck limit bytes.now result }
    ensures large_limit { MAX_MESSAGE_LEN < limit → result ≡ limit_message_check }
{
    let none = FirstFault::none();
    if limit > MAX_MESSAGE_LEN {
        return MessageCheck {
            fault: FirstFault::of_limit(),
            document_fault: none,
        };
    }
    match reading.parse(bytes, limit) {
        Ok(_) => MessageCheck {
            fault: none,
            document_fault: none,
        },
        Err(fault) => MessageCheck {
            fault: FirstFault::of_message(0, fault),
            document_fault: FirstFault::inside(fault.cause),
        },
    }
}

/// The result of checking messages one after another.
#[derive(Clone, Copy)]
#[repr(C)]
pub struct MessagesCheck {
    /// The number of whole messages before the end of the bytes or before the first fault.
    pub messages: usize,
    /// The number of bytes that these messages take.
    pub bytes_read: usize,
    /// The first fault, by the number of its cause, from 1 to 13. The number is 14 if the bytes
    /// end inside the message that begins at the offset, and 255 if the limit is too large; then
    /// nothing was read.
    pub fault: FirstFault,
    /// If the cause is 7, the fault of the document at that offset. Its own offset is counted from
    /// there.
    pub document_fault: FirstFault,
}

/// Checks the messages that `bytes` hold one after another, each of at most `limit` bytes. Reads
/// each by `reading`.
pub fn check_messages<R: Reading>(reading: R, bytes: &[u8], limit: u32) -> MessagesCheck
    ensures read { limit ≤ MAX_MESSAGE_LEN → IsMessagesCheck limit bytes.now result }
    ensures large_limit { MAX_MESSAGE_LEN < limit → result ≡ limit_messages_check }
{
    let none = FirstFault::none();
    if limit > MAX_MESSAGE_LEN {
        return MessagesCheck {
            messages: 0,
            bytes_read: 0,
            fault: FirstFault::of_limit(),
            document_fault: none,
        };
    }
    let mut messages = 0;
    let mut rest = bytes;
    while !rest.is_empty() {
        let bytes_read = bytes.len() - rest.len();
        match reading.front(rest, limit) {
            MsgFront::Whole { rest: after, .. } => rest = after,
            MsgFront::Open => {
                return MessagesCheck {
                    messages,
                    bytes_read,
                    fault: FirstFault::ended_inside(bytes_read),
                    document_fault: none,
                };
            }
            MsgFront::Bad(found) => {
                return MessagesCheck {
                    messages,
                    bytes_read,
                    fault: FirstFault::of_message(bytes_read, found),
                    document_fault: FirstFault::inside(found.cause),
                };
            }
        }
        messages += 1;
    }
    MessagesCheck {
        messages,
        bytes_read: bytes.len(),
        fault: none,
        document_fault: none,
    }
}
