//! Copies a request that waits into the caller's memory.

ghost use Rattle.std.specs.Prelude.{◌≡◌};
ghost use Rattle.core_handles.specs.Requesting.{IsRequestCopied, IsRequestPut, IsRequestSpelled};
ghost use Rattle.core_handles.specs.Requesting.{no_request};

use crate::numbers::{DONE, NO_CORE, NO_MEMORY, NO_ROOM, NOT_READY};
use std::alloc::Global;
use wire_msg::{MAX_MESSAGE_LEN, MsgFlags, write_msg};
use wire_peer::Server;

/// What became of a copy of a request.
#[derive(Clone, Copy)]
#[repr(C)]
pub struct RequestCopied {
    /// 0 if the request was copied, else why it wasn't: 5 where the room is too short, 7 where no
    /// such request waits, 254 where there was no memory, and 255 where the handle has no server.
    /// Nothing changed then.
    pub refusal: u32,
    /// More than one answer may be given.
    pub takes_more: bool,
    /// The number of its bytes, whether it was copied or had no room.
    pub length: usize,
}

impl RequestCopied {
    /// Returns that there is none, by this number.
    fn refused(refusal: u32) -> RequestCopied
        ensures { result ≡ no_request refusal }
    {
        RequestCopied {
            refusal,
            takes_more: false,
            length: 0,
        }
    }

    /// Returns that the handle has no server.
    pub(crate) fn no_core() -> RequestCopied
        ensures { result ≡ no_request 255 }
    {
        RequestCopied::refused(NO_CORE)
    }
}

/// Puts a request of these bytes to the front of `room`, if it has as many.
fn put_request(takes_more: bool, message: &[u8], room: &mut [u8]) -> RequestCopied
    ensures { IsRequestPut takes_more message.now room.old room.new result }
{
    let length = message.len();
    if length > room.len() {
        return RequestCopied {
            refusal: NO_ROOM,
            takes_more,
            length,
        };
    }
    room[..length].copy_from_slice(message);
    RequestCopied {
        refusal: DONE,
        takes_more,
        length,
    }
}

/// Returns the `k`-th request that waits, as a message with no ids and with its flags, and whether
/// it takes more than one answer.
///
/// # Errors
///
/// The number of `NOT_READY`, and else of `NO_MEMORY`.
fn spell_request(alloc: Global, server: &Server, k: usize) -> Result<(bool, Vec<u8>), u32>
    ensures { IsRequestSpelled server.now k result }
{
    if k >= server.waiting() {
        return Err(NOT_READY);
    }
    let Some(request) = server.request(k) else {
        unreachable!()
    };
    let flags = MsgFlags {
        more_to_come: request.more_to_come,
        exhaust_allowed: request.exhaust_allowed,
    };
    let mut message = Vec::new(alloc);
    match write_msg(&mut message, 0, 0, flags, request.payload, MAX_MESSAGE_LEN) {
        Ok(()) => Ok((request.takes_more(), message)),
        Err(_) => Err(NO_MEMORY),
    }
}

/// Copies the `k`-th request that waits to the front of `room`, as a message with no ids and with
/// its flags.
pub(crate) fn copy_request(
    alloc: Global,
    server: &Server,
    k: usize,
    room: &mut [u8],
) -> RequestCopied
    ensures { IsRequestCopied server.now k room.old room.new result }
{
    match spell_request(alloc, server, k) {
        Ok((takes_more, message)) => put_request(takes_more, &message, room),
        Err(refusal) => RequestCopied::refused(refusal),
    }
}
