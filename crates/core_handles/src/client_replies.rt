//! Copies the output and the replies of a client into the caller's memory.

ghost use Rattle.std.specs.Prelude.{◌≡◌};
ghost use Rattle.core_handles.specs.Replying.{IsOutputCopied, IsReplyCopied, IsReplyPut};
ghost use Rattle.core_handles.specs.Replying.{IsReplySpelled, no_output, no_reply};

use crate::numbers::{DONE, NO_CORE, NO_MEMORY, NO_ROOM, NOT_READY};
use std::alloc::Global;
use wire_msg::{MAX_MESSAGE_LEN, MsgFlags, write_msg};
use wire_peer::{Client, ReadyReply};

/// What became of a copy of the bytes that wait to be sent.
#[derive(Clone, Copy)]
#[repr(C)]
pub struct OutputCopied {
    /// 0, or 255 where the handle has no core.
    pub refusal: u32,
    /// How many bytes were copied.
    pub copied: usize,
    /// How many bytes wait.
    pub waiting: usize,
}

impl OutputCopied {
    /// Returns that the handle has no core.
    pub(crate) fn no_core() -> OutputCopied
        ensures { result ≡ no_output }
    {
        OutputCopied {
            refusal: NO_CORE,
            copied: 0,
            waiting: 0,
        }
    }
}

/// Copies the first bytes that wait to be sent to the front of `room`, as many as it has room for.
pub(crate) fn copy_output(output: &[u8], room: &mut [u8]) -> OutputCopied
    ensures { IsOutputCopied output.now room.old room.new result }
{
    let waiting = output.len();
    let copied = waiting.min(room.len());
    room[..copied].copy_from_slice(&output[..copied]);
    OutputCopied {
        refusal: DONE,
        copied,
        waiting,
    }
}

/// What became of a copy of a reply.
#[derive(Clone, Copy)]
#[repr(C)]
pub struct ReplyCopied {
    /// 0 if the reply was copied, else why it wasn't: 5 where the room is too short, 7 where no
    /// reply is ready, 254 where there was no memory, and 255 where the handle has no core. Then
    /// nothing changed.
    pub refusal: u32,
    /// No other reply to that call comes.
    pub last: bool,
    /// The number of the call that it belongs to.
    pub call: u64,
    /// The number of its bytes, whether it was copied or had no room.
    pub length: usize,
}

impl ReplyCopied {
    /// Returns that there is none, by this number.
    fn refused(refusal: u32) -> ReplyCopied
        ensures { result ≡ no_reply refusal }
    {
        ReplyCopied {
            refusal,
            last: false,
            call: 0,
            length: 0,
        }
    }

    /// Returns that the handle has no core.
    pub(crate) fn no_core() -> ReplyCopied
        ensures { result ≡ no_reply 255 }
    {
        ReplyCopied::refused(NO_CORE)
    }
}

/// Puts a reply of these bytes to the front of `room`, if it has as many.
fn put_reply(reply: ReadyReply, message: &[u8], room: &mut [u8]) -> ReplyCopied
    ensures { IsReplyPut reply message.now room.old room.new result }
{
    let length = message.len();
    let told = ReplyCopied {
        refusal: DONE,
        last: reply.last,
        call: reply.call,
        length,
    };
    if length > room.len() {
        return ReplyCopied {
            refusal: NO_ROOM,
            ..told
        };
    }
    room[..length].copy_from_slice(message);
    told
}

/// Returns the reply that is ready, as a message with no ids and no flag.
///
/// # Errors
///
/// The number of `NOT_READY`, and else of `NO_MEMORY`.
fn spell_reply(alloc: Global, client: &Client) -> Result<(ReadyReply, Vec<u8>), u32>
    ensures { IsReplySpelled client.now result }
{
    let Some(reply) = client.reply() else {
        return Err(NOT_READY);
    };
    let mut message = Vec::new(alloc);
    let ready = ReadyReply {
        call: reply.call,
        last: reply.last,
    };
    match write_msg(
        &mut message,
        0,
        0,
        MsgFlags::NONE,
        reply.payload,
        MAX_MESSAGE_LEN,
    ) {
        Ok(()) => Ok((ready, message)),
        Err(_) => Err(NO_MEMORY),
    }
}

/// Copies the reply that is ready to the front of `room`, as a message with no ids and no flag.
pub(crate) fn copy_reply(alloc: Global, client: &Client, room: &mut [u8]) -> ReplyCopied
    ensures { IsReplyCopied client.now room.old room.new result }
{
    match spell_reply(alloc, client) {
        Ok((reply, message)) => put_reply(reply, &message, room),
        Err(refusal) => ReplyCopied::refused(refusal),
    }
}
