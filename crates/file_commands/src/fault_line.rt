//! The lines of the faults of documents and records.

ghost use Rattle.std.specs.Prelude.{◌++◌, OnOk, codes};
ghost use Rattle.std.specs.Io.KnownBytes.{Appends};
ghost use Rattle.bson_elem.specs.{bson_fault_text};
ghost use Rattle.file_commands.specs.InputFault.{record_line};

use bson_elem::BsonFault;
use std::io;
use std::io::Write;
use wire_frames::RecordFault;

/// Writes the line of the fault of a document.
pub fn write_bson_fault<W: Write>(fault: BsonFault, out: &mut W) -> io::Result<()>
    ensures { OnOk result (Appends (W.contents out.old) (W.contents out.new)
        (bson_fault_text fault.at fault.cause ++ codes "\n")) }
{
    writeln!(out, "{fault}")
}

/// Writes the line of the fault of a record.
pub fn write_record_fault<W: Write>(fault: RecordFault, out: &mut W) -> io::Result<()>
    ensures { OnOk result (Appends (W.contents out.old) (W.contents out.new)
        (record_line fault.at fault.cause)) }
{
    writeln!(out, "{fault}")
}
