//! Reads the first of the frames that bytes hold one after another.

ghost use Rattle.std.specs.Prelude.{◌≡◌, ◌≤◌, ℕ, List};
ghost use Rattle.wire_msg.specs.{msg_fault};
ghost use Rattle.wire_frames.specs.Frames.{IsWholeFrame, LacksFrame, WantsMore};
ghost use Rattle.wire_frames.specs.Fronts.{HasFrame, IsFrontFrame};

use crate::frame::RawFrame;
use crate::frames::WireFrames;
use framing::{FirstItem, read_item};
use wire_msg::{MAX_MESSAGE_LEN, MsgCause, MsgFault};

/// What bytes begin with, as `RawFrame::front` returns it.
#[derive(Clone, Copy, Debug, PartialEq, Eq)]
pub enum FrameFront<'a> {
    /// A frame, and the bytes after it.
    Whole {
        /// The frame.
        frame: RawFrame<'a>,
        /// The bytes after it.
        rest: &'a [u8],
    },
    /// Fewer bytes than a header has, or than it announces.
    Open {
        /// How many more bytes belong to the header, or to what it announces. At least 1.
        wanted: usize,
    },
    /// Bytes that no frame begins with: the fault is `Length`, at 0.
    Bad(MsgFault),
}

/// Reads the first item of `bytes`, and tells it as a frame.
fn read_front(bytes: &[u8], limit: u32) -> FrameFront<'_>
    ensures { IsFrontFrame limit bytes.now result }
{
    match read_item(&WireFrames { limit }, bytes) {
        FirstItem::Whole { item, rest } => FrameFront::Whole {
            frame: RawFrame::from_framed(item),
            rest,
        },
        FirstItem::Open { wanted } => FrameFront::Open { wanted },
        FirstItem::Bad(fault) => FrameFront::Bad(fault),
    }
}

impl<'a> RawFrame<'a> {
    /// Returns the frame of at most `limit` bytes at the front of `bytes`, and the bytes after it.
    /// Returns `Open` if `bytes` end before the header does, or before what it announces, and
    /// `Bad` if it announces fewer than 16 bytes or more than `limit`. Takes no memory, and the
    /// same time whatever the length is.
    pub fn front(bytes: &'a [u8], limit: u32) -> FrameFront<'a>
        requires { limit ≤ MAX_MESSAGE_LEN }
        ensures front { IsFrontFrame limit bytes.now result }
        ensures whole { (frame rest : List ℕ) → IsWholeFrame limit bytes.now frame rest
            → HasFrame frame rest result }
        ensures too_few { (n : ℕ) → WantsMore limit bytes.now n → result ≡ FrameFront.Open n }
        ensures bad { LacksFrame limit bytes.now
            → result ≡ FrameFront.Bad (msg_fault 0 MsgCause.Length) }
    {
        read_front(bytes, limit)
    }
}
