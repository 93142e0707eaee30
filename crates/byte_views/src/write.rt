//! Writes a message into the caller's room.

ghost use Rattle.std.specs.Prelude.{◌≡◌, ◌≤◌, ◌<◌, IfSome, None};
ghost use Rattle.wire_msg.specs.{IsMessage, Message, SpellsMsg, canonical, message_len};
ghost use Rattle.byte_views.specs.Fault.{first_fault, limit_fault};
ghost use Rattle.byte_views.specs.Writing.{IsMessageWritten, content_fault, flags_of, message_of};
ghost use Rattle.byte_views.specs.Writing.{message_put, no_message};

use crate::content::{ContentRefusal, spell_content};
use crate::fault::FirstFault;
use crate::text::{TextWritten, put};
use std::alloc::Global;
use wire_msg::{MAX_MESSAGE_LEN, MsgFlags, RawMsg, write_msg};

/// The numbers of a message that is written.
#[derive(Clone, Copy)]
#[repr(C)]
pub struct MessageNumbers {
    /// requestID.
    pub id: i32,
    /// responseTo.
    pub response_to: i32,
    /// flagBits: moreToCome is 2 and exhaustAllowed 65,536, and no other bit is set.
    pub flag_bits: u32,
}

/// What became of a message.
#[derive(Clone, Copy)]
#[repr(C)]
pub struct MessageWritten {
    /// The first fault that the message would have, by the number of its cause, from 3 to 12. The
    /// number is 253 if it would have more bytes than the limit, 254 if there was no memory for
    /// it, and 255 if the limit is too large.
    pub fault: FirstFault,
    /// If the cause is 7, the fault of the document at that offset. Its own offset is counted from
    /// there.
    pub document_fault: FirstFault,
    /// The number of bytes of the message, whether it was written or not. If there is a fault, 0.
    pub length: usize,
    /// Whether the message was written. It wasn't if there is a fault, or if it has no room.
    pub written: bool,
}

/// Returns the flags with these bits, or `None` if any other bit is set.
fn flags_of(bits: u32) -> Option<MsgFlags>
    ensures { result ≡ flags_of bits }
{
    let (more_to_come, exhaust_allowed) = match bits {
        0 => (false, false),
        2 => (true, false),
        0x1_0000 => (false, true),
        0x1_0002 => (true, true),
        _ => return None,
    };
    Some(MsgFlags {
        more_to_come,
        exhaust_allowed,
    })
}

impl MessageWritten {
    /// Returns that there is no message, by these faults.
    fn none(fault: FirstFault, document_fault: FirstFault) -> MessageWritten
        ensures { result ≡ no_message fault document_fault }
    {
        MessageWritten {
            fault,
            document_fault,
            length: 0,
            written: false,
        }
    }

    /// Returns that there is no message, by a fault with this number, at this offset.
    fn by_number(number: u32, offset: usize) -> MessageWritten
        ensures { result ≡ no_message (record { number = number; offset = offset })
            (first_fault None) }
    {
        MessageWritten::none(FirstFault { number, offset }, FirstFault::none())
    }

    /// Returns that there is no message, since it has no such content.
    fn of_refusal(refusal: ContentRefusal) -> MessageWritten
        ensures { result ≡ content_fault refusal }
    {
        match refusal {
            ContentRefusal::Body(fault) => MessageWritten::none(
                FirstFault {
                    number: 7,
                    offset: 21,
                },
                FirstFault::of_document(0, fault),
            ),
            ContentRefusal::TooLarge => MessageWritten::by_number(253, 0),
            ContentRefusal::OutOfMemory => MessageWritten::by_number(254, 0),
            ContentRefusal::Message(fault) => MessageWritten::none(
                FirstFault::of_message(0, fault),
                FirstFault::inside(fault.cause),
            ),
        }
    }

    /// Returns that there is a message, and what became of its bytes.
    fn of_put(put: TextWritten) -> MessageWritten
        ensures { result ≡ message_put put }
    {
        MessageWritten {
            fault: put.fault,
            document_fault: FirstFault::none(),
            length: put.length,
            written: put.written,
        }
    }
}

/// Returns the message with these numbers that has the content of `message`, in its canonical
/// spelling, or `None` if memory runs out.
fn with_numbers(
    alloc: Global,
    numbers: &MessageNumbers,
    flags: MsgFlags,
    message: &[u8],
    limit: u32,
) -> Option<Vec<u8>>
    requires { IsMessage limit message.now }
    ensures { (m : Message) → SpellsMsg m message.now → IfSome result (λ written.
        (written.items ≡ canonical (message_of numbers.now flags m.content))
        × (message_len m.content ≤ limit)) }
{
    let payload = RawMsg::from_spelled(message).payload();
    let mut written = Vec::new(alloc);
    match write_msg(
        &mut written,
        numbers.id,
        numbers.response_to,
        flags,
        payload,
        limit,
    ) {
        Ok(()) => Some(written),
        Err(_) => None,
    }
}

/// Writes a message of at most `limit` bytes to the front of `room`, in its canonical spelling. Its
/// body is the document that `body` is, and its document sequences are the sections that
/// `sequences` are, as `build::append_sequence` puts them. If the message has no room,
/// nothing is written, and its length is told.
pub fn write_message(
    alloc: Global,
    numbers: &MessageNumbers,
    body: &[u8],
    sequences: &[u8],
    limit: u32,
    room: &mut [u8],
) -> MessageWritten
    ensures written { limit ≤ MAX_MESSAGE_LEN
        → IsMessageWritten numbers.now body.now sequences.now limit room.old room.new result }
    ensures large_limit { MAX_MESSAGE_LEN < limit
        → (result ≡ no_message limit_fault (first_fault None)) × (room.new ≡ room.old) }
{
    if limit > MAX_MESSAGE_LEN {
        return MessageWritten::by_number(255, 0);
    }
    let Some(flags) = flags_of(numbers.flag_bits) else {
        return MessageWritten::by_number(3, 16);
    };
    let message = match spell_content(alloc, body, sequences, limit) {
        Ok(message) => message,
        Err(refusal) => return MessageWritten::of_refusal(refusal),
    };
    match with_numbers(alloc, numbers, flags, &message, limit) {
        Some(written) => MessageWritten::of_put(put(&written, room)),
        None => MessageWritten::by_number(254, 0),
    }
}
