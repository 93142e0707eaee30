//! Says why bytes are not a record, and at which offset.

ghost use Rattle.std.specs.Prelude.{◌≡◌};
ghost use Rattle.wire_frames.specs.Causes.{cause_name, cause_number, record_fault};

use std::fmt;

/// What is wrong with the bytes.
#[derive(Clone, Copy, Debug, PartialEq, Eq)]
pub enum RecordCause {
    /// The messageLength of the record's message is below 16 or above the limit.
    Length,
    /// The number of the connection is below 1.
    Connection,
    /// The direction is neither 0 nor 1.
    Direction,
}

impl RecordCause {
    /// Returns the number of the cause in a fault line: 1, 17 or 18. The program has the numbers
    /// from 14 to 16 for other faults of an input, and a message's own length has 1 too.
    pub fn number(self) -> u8
        ensures { result ≡ cause_number self }
    {
        match self {
            RecordCause::Length => 1,
            RecordCause::Connection => 17,
            RecordCause::Direction => 18,
        }
    }

    /// Returns the name of the cause in a fault line.
    pub fn name(self) -> &'static str
        ensures { result.now ≡ cause_name self }
    {
        match self {
            RecordCause::Length => "Length",
            RecordCause::Connection => "Connection",
            RecordCause::Direction => "Direction",
        }
    }
}

/// The first fault of some bytes, in the order of the bytes that have it. It is displayed as its
/// fault line.
#[derive(Clone, Copy, Debug, PartialEq, Eq)]
pub struct RecordFault {
    /// The offset of the fault in the record: 8 for the connection, 16 for the direction, and 20
    /// for the length of the message.
    pub at: usize,
    /// What is wrong there.
    pub cause: RecordCause,
}

/// Returns the fault with this `cause`, at offset `at`.
pub(crate) fn fault_at(at: usize, cause: RecordCause) -> RecordFault
    ensures { result ≡ record_fault at cause }
{
    RecordFault { at, cause }
}

impl fmt::Display for RecordFault {
    ghost use Rattle.wire_frames.specs.FaultText.{shown_record_fault};

    ghost output = { shown_record_fault };

    fn fmt<W: fmt::Write>(&self, f: &mut fmt::Formatter<W>) -> fmt::Result {
        let number = self.cause.number();
        let name = self.cause.name();
        let at = self.at;
        write!(f, "fault {number} {name} at {at}")
    }
}

impl std::error::Error for RecordFault {}
