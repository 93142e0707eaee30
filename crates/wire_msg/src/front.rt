//! Reads the first of the messages that bytes hold one after another.

ghost use Rattle.std.specs.Prelude.{◌≡◌, ◌≤◌, ℕ, List};
ghost use Rattle.wire_msg.specs.declared.fault.MsgFault.{MsgFault};
ghost use Rattle.wire_msg.specs.Messages.{Message};
ghost use Rattle.wire_msg.specs.Standing.{IsBad, IsOpen, IsWhole};
ghost use Rattle.wire_msg.specs.Front.{HasWhole, IsFrame, IsFront};
ghost use Rattle.wire_msg.specs.declared.header.TheConstants.{MAX_MESSAGE_LEN};

use crate::fault::MsgFault;
use crate::header::MsgHeader;
use crate::msg::{RawMsg, check_parts};
use crate::names::{InPlace, Memory};
use std::alloc::Global;

/// What bytes begin with, as `RawMsg::front` returns it.
#[derive(Clone, Copy, Debug, PartialEq, Eq)]
pub enum MsgFront<'a> {
    /// A message, and the bytes after it.
    Whole {
        /// The message.
        message: RawMsg<'a>,
        /// The bytes after it.
        rest: &'a [u8],
    },
    /// Fewer bytes than a header has, or than a good header announces.
    Open,
    /// Bytes that no message begins with. The fault's offset is counted from the first of them.
    Bad(MsgFault),
}

/// The bytes of a message, cut by what its header says.
enum Frame<'a> {
    /// The bytes that a good header announces, and those after them.
    Whole(&'a [u8], &'a [u8]),
    /// Fewer bytes than a header has, or than a good header announces.
    Open,
    /// A header with this fault.
    Bad(MsgFault),
}

/// Reads the header at the front of `bytes`, and cuts them where it says that the message ends.
fn read_frame(bytes: &[u8], limit: u32) -> Frame<'_>
    requires { limit ≤ MAX_MESSAGE_LEN }
    ensures { IsFrame limit bytes.now result }
{
    let Some((header, _)) = bytes.split_first_chunk::<16>() else {
        return Frame::Open;
    };
    let header = MsgHeader::read(*header);
    if let Err(fault) = header.check(limit) {
        return Frame::Bad(fault);
    }
    let len = header.length as usize;
    if bytes.len() < len {
        return Frame::Open;
    }
    let (message, rest) = bytes.split_at(len);
    Frame::Whole(message, rest)
}

impl<'a> RawMsg<'a> {
    /// Reads the message at the front, as `front` does. Looks names up by `memory`.
    fn read_front<M: Memory>(memory: M, bytes: &'a [u8], limit: u32) -> MsgFront<'a>
        requires { limit ≤ MAX_MESSAGE_LEN }
        ensures { IsFront limit bytes.now result }
    {
        match read_frame(bytes, limit) {
            Frame::Whole(message, rest) => match check_parts(memory, message) {
                Ok(()) => MsgFront::Whole {
                    message: RawMsg::from_spelled(message),
                    rest,
                },
                Err(fault) => MsgFront::Bad(fault),
            },
            Frame::Open => MsgFront::Open,
            Frame::Bad(fault) => MsgFront::Bad(fault),
        }
    }

    /// Returns the message of at most `limit` bytes at the front of `bytes`, and the bytes after
    /// it. Returns `Open` if `bytes` end before that message does, and otherwise `Bad` with the
    /// first fault and its offset.
    ///
    /// A fault in the header is found as soon as the header is there, and all other faults once
    /// all announced bytes are there. They are the faults that `RawMsg::parse` returns for those
    /// bytes. This takes as much time as `RawMsg::parse`, and no memory.
    pub fn front(bytes: &'a [u8], limit: u32) -> MsgFront<'a>
        requires { limit ≤ MAX_MESSAGE_LEN }
        ensures front { IsFront limit bytes.now result }
        ensures whole { (m : Message) (rest : List ℕ) (w : IsWhole limit bytes.now m rest)
            → HasWhole w.front rest result }
        ensures too_few { IsOpen limit bytes.now → result ≡ MsgFront.Open }
        ensures bad { (f : MsgFault) → IsBad limit bytes.now f → result ≡ MsgFront.Bad f }
    {
        RawMsg::read_front(InPlace, bytes, limit)
    }

    /// Returns what `front` does, but sorts the body's names as `RawMsg::parse_with` does, in as
    /// much time. If memory runs out, it compares them as `front` does.
    pub fn front_with(alloc: Global, bytes: &'a [u8], limit: u32) -> MsgFront<'a>
        requires { limit ≤ MAX_MESSAGE_LEN }
        ensures front { IsFront limit bytes.now result }
        ensures whole { (m : Message) (rest : List ℕ) (w : IsWhole limit bytes.now m rest)
            → HasWhole w.front rest result }
        ensures too_few { IsOpen limit bytes.now → result ≡ MsgFront.Open }
        ensures bad { (f : MsgFault) → IsBad limit bytes.now f → result ≡ MsgFront.Bad f }
    {
        RawMsg::read_front(alloc, bytes, limit)
    }
}
