//! Reads the first of the records that bytes hold one after another.

ghost use Rattle.std.specs.Prelude.{◌≡◌, ◌≤◌, ℕ, List};
ghost use Rattle.wire_frames.specs.RecordFronts.{IsFrontRecord, IsRecordAnd};
ghost use Rattle.wire_frames.specs.Records.{IsAtFault, IsWholeRecord, WantsMore};
ghost use Rattle.wire_frames.specs.declared.fault.RecordFault.{RecordFault};

use crate::fault::RecordFault;
use crate::record::RawRecord;
use crate::records::WireRecords;
use framing::{FirstItem, read_item};
use wire_msg::MAX_MESSAGE_LEN;

/// What bytes begin with, as `RawRecord::front` returns it.
#[derive(Clone, Copy, Debug, PartialEq, Eq)]
pub enum RecordFront<'a> {
    /// A record, and the bytes after it.
    Whole {
        /// The record.
        record: RawRecord<'a>,
        /// The bytes after it.
        rest: &'a [u8],
    },
    /// Fewer bytes than a head has, than the header of the message has, or than it announces.
    Open {
        /// How many more bytes belong to these. At least 1.
        wanted: usize,
    },
    /// Bytes that no record begins with, and the first fault.
    Bad(RecordFault),
}

/// Reads the first item of `bytes`, and tells it as a record.
fn read_front(bytes: &[u8], limit: u32) -> RecordFront<'_>
    ensures { IsFrontRecord limit bytes.now result }
{
    match read_item(&WireRecords { limit }, bytes) {
        FirstItem::Whole { item, rest } => RecordFront::Whole {
            record: RawRecord::from_good(item),
            rest,
        },
        FirstItem::Open { wanted } => RecordFront::Open { wanted },
        FirstItem::Bad(fault) => RecordFront::Bad(fault),
    }
}

impl<'a> RawRecord<'a> {
    /// Returns the record at the front of `bytes`, whose message has at most `limit` bytes, and the
    /// bytes after it. Returns `Open` if `bytes` end before the head does, before the header of the
    /// message, or before what that announces, and `Bad` with the first fault if no record begins
    /// so. Takes no memory, and the same time whatever the length is.
    pub fn front(bytes: &'a [u8], limit: u32) -> RecordFront<'a>
        requires { limit ≤ MAX_MESSAGE_LEN }
        ensures front { IsFrontRecord limit bytes.now result }
        ensures whole { (one rest : List ℕ) → IsWholeRecord limit bytes.now one rest
            → IsRecordAnd one rest result }
        ensures too_few { (n : ℕ) → WantsMore limit bytes.now n → result ≡ RecordFront.Open n }
        ensures bad { (f : RecordFault) → IsAtFault limit bytes.now f
            → result ≡ RecordFront.Bad f }
    {
        read_front(bytes, limit)
    }
}
