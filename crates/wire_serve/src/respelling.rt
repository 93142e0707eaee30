//! Spells the reply to a query in the older way.

ghost use Rattle.std.specs.Prelude.{◌≡◌, Vec};
ghost use Rattle.wire_serve.specs.Respelling.{IsRespelled};

use crate::cause::CloseCause;
use std::alloc::Global;
use wire_msg::{MAX_MESSAGE_LEN, MsgRefusal, RawMsg};
use wire_query::{ReplyHead, write_reply};

/// Returns the OP_REPLY with the ids and the body of the message in `bytes`.
///
/// # Errors
///
/// Returns why there is none.
pub(crate) fn respelled(alloc: Global, bytes: &[u8]) -> Result<Vec<u8>, CloseCause>
    ensures { IsRespelled bytes.now result }
{
    let Ok(message) = RawMsg::parse_with(alloc, bytes, MAX_MESSAGE_LEN) else {
        return Err(CloseCause::NotAlone);
    };
    let payload = message.payload();
    if payload.sequences().next().is_some() {
        return Err(CloseCause::NotAlone);
    }
    let head = ReplyHead::of_command(message.id(), message.response_to());
    let mut reply = Vec::new(alloc);
    match write_reply(&mut reply, head, payload.body(), MAX_MESSAGE_LEN) {
        Ok(()) => Ok(reply),
        Err(MsgRefusal::TooLarge) => Err(CloseCause::ReplyTooLarge),
        Err(_) => Err(CloseCause::NoMemory),
    }
}
