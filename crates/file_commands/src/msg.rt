//! The command `msg`: the text of each message or record, or one JSON object.

ghost use Rattle.std.specs.Prelude.{◌≡◌, ◌⊎◌, IfOk, IfSome, false, true};
ghost use Rattle.std.specs.Io.KnownBytes.{IsAtEnd, Keeps};
ghost use Rattle.command_run.specs.{AppendsText, is_done, is_fault};
ghost use Rattle.file_commands.specs.Msg.{AllMessages, FirstMessages, MsgText};
ghost use Rattle.file_commands.specs.OrRecords.{AllOrRecords, FirstOrRecords, TextOrRecords};
ghost use Rattle.file_commands.specs.OrRecords.{as_messages};
ghost use Rattle.file_commands.specs.Output.{AppendsOne, IsAllOf, IsFirstOf, IsOutput};
ghost use Rattle.file_commands.specs.Output.{WritesRead};

use crate::json::Layout;
use crate::messages::Messages;
use crate::or_records::OrRecords;
use crate::pieces::run_walk;
use crate::record_text::RecordForm;
use crate::records::Records;
use bson_json::Mode;
use command_run::RunEnd;
use std::alloc::Global;
use std::io::{Read, Write};

/// How a message is written.
#[derive(Clone, Copy, Debug, PartialEq, Eq)]
pub enum MessageForm {
    /// A line for its numbers and flags, one for each document, and one for each element.
    Text,
    /// One line, a JSON object whose documents are Extended JSON of this form.
    Json(Mode),
}

impl MessageForm {
    /// Returns how records are written: as `msg --any` writes their messages, or as `json` does.
    fn of_records(self) -> RecordForm
        ensures { result ≡ as_messages self }
    {
        match self {
            MessageForm::Text => RecordForm::Text,
            MessageForm::Json(mode) => RecordForm::Json(mode, Layout::Lines),
        }
    }
}

/// Writes each message in the input, which has at most 48,000,000 bytes, in this form. If `hex` is
/// true, the input is hexadecimal text. If the input begins as a file of records does, it writes
/// each record, whose message is of any opCode.
///
/// Where a message has many names and memory for their list is refused, they are compared in pairs.
pub fn run_msg<R: Read, W: Write>(
    alloc: Global,
    form: MessageForm,
    hex: bool,
    reader: &mut R,
    writer: &mut W,
) -> RunEnd
    ensures read { is_done result ≡ true → IsAtEnd (R.remaining reader.new) }
    ensures written { IfSome (R.remaining reader.old) (λ input. is_done result ≡ true →
        AppendsText (IsOutput (TextOrRecords (as_messages form) (MsgText form)) hex input)
        (is_fault result) (W.contents writer.old) (W.contents writer.new)) }
    ensures unread { result ≡ RunEnd.Unread
        → WritesRead (IsAllOf (AllOrRecords (as_messages form) (AllMessages form)) hex)
        (R.remaining reader.old) (R.remaining reader.new)
        (W.contents writer.old) (W.contents writer.new) }
    ensures memory { result ≡ RunEnd.OutOfMemory → IfSome (R.remaining reader.old) (λ input.
        AppendsOne (IsFirstOf (FirstOrRecords (as_messages form) (FirstMessages form)) hex input)
        (W.contents writer.old) (W.contents writer.new)) }
{
    let walk = OrRecords {
        others: Messages { form },
        records: Records {
            form: form.of_records(),
        },
    };
    run_walk(alloc, &walk, hex, reader, writer)
}
