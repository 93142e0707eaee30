//! Why a file isn't one of records.

use std::fmt;
use wire_frames::RecordCause;

/// Why a file isn't one of records. An `offset` counts from the file's first byte.
#[derive(Clone, Copy)]
pub enum InputFault {
    /// It doesn't begin with the signature of such files.
    Signature,
    /// It ends inside the record at `offset`.
    EndedInside { offset: u64 },
    /// A record is at fault at `offset`.
    Record { offset: u64, cause: RecordCause },
}

/// Displays the line of the fault.
impl fmt::Display for InputFault {
    ghost use Rattle.replay.specs.LastLines.{shown_input_fault};

    ghost output = { shown_input_fault };

    fn fmt<W: fmt::Write>(&self, f: &mut fmt::Formatter<W>) -> fmt::Result {
        match *self {
            InputFault::Signature => f.write_str("fault 19 Signature at 0"),
            InputFault::EndedInside { offset } => write!(f, "fault 14 EndedInside at {offset}"),
            InputFault::Record { offset, cause } => {
                let number = cause.number();
                let name = cause.name();
                write!(f, "fault {number} {name} at {offset}")
            }
        }
    }
}
