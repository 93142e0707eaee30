//! Frames as items that tell their length.

ghost use Rattle.wire_frames.specs.FrameRule.{frame_rule, frame_sound};

use bson_elem::little_u32;
use framing::Framing;
use wire_msg::{HEADER_LEN, MsgCause, MsgFault};

/// Frames of at most `limit` bytes.
#[derive(Clone, Copy, Debug, PartialEq, Eq)]
pub(crate) struct WireFrames {
    /// How many bytes a frame has at most.
    pub(crate) limit: u32,
}

impl Framing for WireFrames {
    type Fault = MsgFault;

    ghost rule = { λ x. frame_rule x.limit };

    fn lead_len(&self) -> usize {
        0
    }

    fn check_lead(&self, _lead: &[u8]) -> Result<(), MsgFault> {
        Ok(())
    }

    fn header_len(&self) -> usize {
        HEADER_LEN as usize
    }

    fn total(&self, header: &[u8]) -> Result<usize, MsgFault> {
        let announced = little_u32(header);
        if announced < HEADER_LEN || announced > self.limit {
            return Err(MsgFault {
                at: 0,
                cause: MsgCause::Length,
            });
        }
        Ok(announced as usize)
    }

    ghost sound = { λ x. frame_sound x.limit };
}
