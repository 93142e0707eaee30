//! What is wrong with an input, and the line that tells it.

ghost use Rattle.std.specs.Prelude.{OnOk};
ghost use Rattle.std.specs.Io.KnownBytes.{Appends};
ghost use Rattle.file_commands.specs.InputFault.{input_fault_line};

use crate::fault_line::{write_bson_fault, write_record_fault};
use bson_elem::BsonFault;
use command_run::write_fault;
use std::io;
use std::io::Write;
use wire_frames::RecordFault;
use wire_msg::MsgFault;
use wire_text::write_msg_fault;

/// A fault of an input. An `offset` counts from the input's first byte, or from the first of those
/// that hexadecimal text spells.
#[derive(Clone, Copy)]
pub enum InputFault {
    /// The input isn't hexadecimal text. `offset` counts its digits, and no white space.
    Hex { offset: usize },
    /// No document begins where one should.
    Bson(BsonFault),
    /// The canonical form of the document at `offset` has too many bytes for a document; or no
    /// document is found at `offset`, since one there would be above the limit.
    TooLarge { offset: usize },
    /// A message has this fault. If the fault is a document's own, its offset inside the document
    /// is counted from the document's first byte.
    Msg(MsgFault),
    /// A record has this fault.
    Record(RecordFault),
    /// The input ends inside the message or record at `offset`.
    EndedInside { offset: usize },
}

impl InputFault {
    /// Writes the line of the fault.
    pub fn write<W: Write>(self, out: &mut W) -> io::Result<()>
        ensures { OnOk result (Appends (W.contents out.old) (W.contents out.new)
            (input_fault_line self)) }
    {
        match self {
            InputFault::Hex { offset } => write_fault(0, "Hex", offset, out),
            InputFault::Bson(fault) => write_bson_fault(fault, out),
            InputFault::TooLarge { offset } => write_fault(16, "TooLarge", offset, out),
            InputFault::Msg(fault) => write_msg_fault(fault, out),
            InputFault::Record(fault) => write_record_fault(fault, out),
            InputFault::EndedInside { offset } => write_fault(14, "EndedInside", offset, out),
        }
    }
}
