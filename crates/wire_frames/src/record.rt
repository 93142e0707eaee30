//! A record, borrowed from its bytes.

ghost use Rattle.std.specs.Prelude.{◌≡◌, ◌≤◌, length};
ghost use Rattle.wire_frames.specs.Frames.{IsFramed};
ghost use Rattle.wire_frames.specs.RawFrame.{frame_bytes};
ghost use Rattle.wire_frames.specs.Heads.{HasHead, IsConnection, IsGoodHead};
ghost use Rattle.wire_frames.specs.Records.{head_of, message_of};

use crate::frame::RawFrame;
use crate::head::RecordHead;

/// A whole record, borrowed from its bytes: a head, and a message of any opCode.
#[derive(Clone, Copy, Debug, PartialEq, Eq)]
pub struct RawRecord<'a> {
    bytes: &'a [u8],
    head: RecordHead,
    frame: RawFrame<'a>,
    pub ghost read: { HasHead (head_of bytes.now) head × IsConnection head.connection
        × (frame_bytes frame ≡ message_of bytes.now) },
}

impl<'a> RawRecord<'a> {
    ghost use Rattle.wire_frames.specs.RawRecord.{record_bytes};

    /// Makes the record that the bytes are known to be.
    pub(crate) fn from_good(bytes: &'a [u8]) -> RawRecord<'a>
        requires long { 20 ≤ length bytes.now }
        requires good { IsGoodHead (head_of bytes.now) }
        requires framed { IsFramed (message_of bytes.now) }
        ensures { record_bytes result ≡ bytes.now }
    {
        let Some((head, message)) = bytes.split_first_chunk::<20>() else {
            unreachable!();
        };
        let Ok(head) = RecordHead::read(head) else {
            unreachable!();
        };
        let frame = RawFrame::from_framed(message);
        RawRecord { bytes, head, frame }
    }

    /// Returns the bytes of the record.
    pub fn as_bytes(self) -> &'a [u8]
        ensures { result.now ≡ record_bytes self.entry }
    {
        self.bytes
    }

    /// Returns the time, the number of the connection and the direction.
    pub fn head(self) -> RecordHead
        ensures read { HasHead (head_of (record_bytes self.entry)) result }
        ensures connection { IsConnection result.connection }
    {
        self.head
    }

    /// Returns the message.
    pub fn frame(self) -> RawFrame<'a>
        ensures { frame_bytes result ≡ message_of (record_bytes self.entry) }
    {
        self.frame
    }
}
