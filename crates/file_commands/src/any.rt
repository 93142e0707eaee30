//! The command `msg --any`: the text of each message, of any opCode, or of each record.

ghost use Rattle.std.specs.Prelude.{◌≡◌, IfSome, true};
ghost use Rattle.std.specs.Io.KnownBytes.{IsAtEnd};
ghost use Rattle.command_run.specs.{AppendsText, is_done, is_fault};
ghost use Rattle.file_commands.specs.Any.{AllFrames, AnyText, FirstFrames};
ghost use Rattle.file_commands.specs.OrRecords.{AllOrRecords, FirstOrRecords, TextOrRecords};
ghost use Rattle.file_commands.specs.Output.{AppendsOne, IsAllOf, IsFirstOf, IsOutput};
ghost use Rattle.file_commands.specs.Output.{WritesRead};

use crate::frames::Frames;
use crate::or_records::OrRecords;
use crate::pieces::run_walk;
use crate::record_text::RecordForm;
use crate::records::Records;
use command_run::RunEnd;
use std::alloc::Global;
use std::io::{Read, Write};

/// Writes each message in the input, of any opCode, which has at most 48,000,000 bytes. If `hex` is
/// true, the input is hexadecimal text. If the input begins as a file of records does, it writes
/// each record: a line for its head, and then its message.
///
/// A fault inside a message is told there, and what is behind the message is read. Where no message
/// can be cut, as its length is at fault, or the input ends inside one, the last line tells that,
/// and the run ends as `Fault`.
pub fn run_any<R: Read, W: Write>(
    alloc: Global,
    hex: bool,
    reader: &mut R,
    writer: &mut W,
) -> RunEnd
    ensures read { is_done result ≡ true → IsAtEnd (R.remaining reader.new) }
    ensures written { IfSome (R.remaining reader.old) (λ input. is_done result ≡ true →
        AppendsText (IsOutput (TextOrRecords RecordForm.Text AnyText) hex input)
        (is_fault result) (W.contents writer.old) (W.contents writer.new)) }
    ensures unread { result ≡ RunEnd.Unread
        → WritesRead (IsAllOf (AllOrRecords RecordForm.Text AllFrames) hex)
        (R.remaining reader.old) (R.remaining reader.new)
        (W.contents writer.old) (W.contents writer.new) }
    ensures memory { result ≡ RunEnd.OutOfMemory → IfSome (R.remaining reader.old) (λ input.
        AppendsOne (IsFirstOf (FirstOrRecords RecordForm.Text FirstFrames) hex input)
        (W.contents writer.old) (W.contents writer.new)) }
{
    let form = RecordForm::Text;
    let walk = OrRecords {
        others: Frames,
        records: Records { form },
    };
    run_walk(alloc, &walk, hex, reader, writer)
}
