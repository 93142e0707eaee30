//! Checks the checksum of an OP_MSG (MongoDB Wire Protocol manual: OP_MSG, checksumPresent).

ghost use Rattle.std.specs.Prelude.{◌≡◌};
ghost use Rattle.wire_frames.specs.Checksums.{IsChecksumOf};

use crate::crc::crc32c;
use crate::frame::RawFrame;
use bson_elem::little_u32;
use wire_msg::OP_MSG;

/// What a frame says of its checksum.
#[derive(Clone, Copy, Debug, PartialEq, Eq)]
pub enum Checksum {
    /// It has none: it isn't an OP_MSG, or its flag checksumPresent isn't set.
    Absent,
    /// Its last four bytes are the CRC-32C of all bytes before them.
    Right,
    /// They aren't, or there are no four bytes behind the flags.
    Wrong,
}

/// The offset of the flags of an OP_MSG.
const FLAGS: usize = 16;

/// The offset behind them.
const SECTIONS: usize = 20;

impl<'a> RawFrame<'a> {
    ghost use Rattle.wire_frames.specs.RawFrame.{frame_bytes};

    /// Returns whether the frame has a checksum, and whether that is right.
    pub fn checksum(self) -> Checksum
        ensures { IsChecksumOf (frame_bytes self.entry) result }
    {
        let bytes = self.as_bytes();
        if self.header().opcode != OP_MSG || bytes.len() < SECTIONS {
            return Checksum::Absent;
        }
        if little_u32(&bytes[FLAGS..SECTIONS]) % 2 == 0 {
            return Checksum::Absent;
        }
        if bytes.len() < SECTIONS + 4 {
            return Checksum::Wrong;
        }
        let (before, last) = bytes.split_at(bytes.len() - 4);
        if crc32c(before) == little_u32(last) {
            Checksum::Right
        } else {
            Checksum::Wrong
        }
    }
}
