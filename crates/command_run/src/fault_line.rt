//! The line that ends a text whose input has a fault.

ghost use Rattle.std.specs.Prelude.{OnOk};
ghost use Rattle.std.specs.Io.KnownBytes.{Appends};
ghost use Rattle.command_run.specs.FaultLine.{fault_line};

use std::io;
use std::io::Write;

/// Writes the line of the fault with this number and name, at `offset` in the input.
///
/// # Errors
///
/// Returns the error of the writer, which may have taken a part of the line.
pub fn write_fault<W: Write>(number: u8, name: &str, offset: usize, out: &mut W) -> io::Result<()>
    ensures { OnOk result (Appends (W.contents out.old) (W.contents out.new)
        (fault_line number name.now offset)) }
{
    writeln!(out, "fault {number} {name} at {offset}")
}
