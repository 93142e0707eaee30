//! The command `json`: each document or record as MongoDB Extended JSON.

ghost use Rattle.std.specs.Prelude.{◌≡◌, ◌⊎◌, IfOk, IfSome, OnOk, false, true};
ghost use Rattle.std.specs.Io.KnownBytes.{Appends, IsAtEnd};
ghost use Rattle.command_run.specs.{AppendsText, is_done, is_fault};
ghost use Rattle.file_commands.specs.Documents.{AllTexts, FirstTexts};
ghost use Rattle.file_commands.specs.Json.{JsonText, MayBeJson, behind_values, front_of};
ghost use Rattle.file_commands.specs.Json.{end_of_value};
ghost use Rattle.file_commands.specs.OrRecords.{AllOrRecords, FirstOrRecords, TextOrRecords};
ghost use Rattle.file_commands.specs.Output.{AppendsOne, IsAllOf, IsFirstOf, IsOutput};
ghost use Rattle.file_commands.specs.Output.{WritesRead};

use crate::documents::{Documents, EachDocument, Written};
use crate::or_records::OrRecords;
use crate::pieces::run_walk;
use crate::record_text::RecordForm;
use crate::records::Records;
use bson_json::{Mode, write_json};
use bson_raw::RawDocument;
use command_run::RunEnd;
use std::alloc::Global;
use std::io;
use std::io::{Read, Write};

/// How the JSON values of documents stand one after another.
#[derive(Clone, Copy, Debug, PartialEq, Eq)]
pub enum Layout {
    /// One value a line.
    Lines,
    /// The items of one array, one a line.
    Array,
}

/// The command `json`.
#[derive(Drop)]
struct Json {
    mode: Mode,
    layout: Layout,
}

/// Returns what stands before the value of a document that begins at offset `start`.
fn front_text(layout: Layout, start: usize) -> &'static str
    ensures { result.now ≡ front_of layout start }
{
    match layout {
        Layout::Lines => "",
        Layout::Array if start == 0 => "[",
        Layout::Array => ",\n",
    }
}

/// Returns what stands behind each value.
pub fn end_text(layout: Layout) -> &'static str
    ensures { result.now ≡ end_of_value layout }
{
    match layout {
        Layout::Lines => "\n",
        Layout::Array => "",
    }
}

/// Returns what stands behind all values. `any` says whether there are any.
pub fn closing_text(layout: Layout, any: bool) -> &'static str
    ensures { result.now ≡ behind_values layout any }
{
    match layout {
        Layout::Lines => "",
        Layout::Array if any => "]\n",
        Layout::Array => "[]\n",
    }
}

impl EachDocument for Json {
    ghost rule = { λ j. MayBeJson j.mode j.layout };

    ghost closing = { λ j. behind_values j.layout };

    fn write_document<W: Write>(
        &self,
        document: RawDocument<'_>,
        start: usize,
        _canonical: bool,
        out: &mut W,
    ) -> io::Result<Written> {
        out.write_all(front_text(self.layout, start).as_bytes())?;
        write_json(document, self.mode, out)?;
        out.write_all(end_text(self.layout).as_bytes())?;
        Ok(Written::Whole)
    }

    fn write_closing<W: Write>(&self, any: bool, out: &mut W) -> io::Result<()> {
        out.write_all(closing_text(self.layout, any).as_bytes())
    }
}

/// Writes each document in the input as a JSON object: as a line, or as an item of one array. If
/// `hex` is true, the input is hexadecimal text. If the input begins as a file of records does, it
/// writes an object for each record.
pub fn run_json<R: Read, W: Write>(
    alloc: Global,
    mode: Mode,
    layout: Layout,
    hex: bool,
    reader: &mut R,
    writer: &mut W,
) -> RunEnd
    ensures read { is_done result ≡ true → IsAtEnd (R.remaining reader.new) }
    ensures written { IfSome (R.remaining reader.old) (λ input. is_done result ≡ true →
        AppendsText (IsOutput (TextOrRecords (RecordForm.Json mode layout) (JsonText mode layout))
        hex input) (is_fault result) (W.contents writer.old) (W.contents writer.new)) }
    ensures unread { result ≡ RunEnd.Unread → WritesRead (IsAllOf
        (AllOrRecords (RecordForm.Json mode layout) (AllTexts (MayBeJson mode layout))) hex)
        (R.remaining reader.old) (R.remaining reader.new)
        (W.contents writer.old) (W.contents writer.new) }
    ensures memory { result ≡ RunEnd.OutOfMemory → IfSome (R.remaining reader.old) (λ input.
        AppendsOne (IsFirstOf (FirstOrRecords (RecordForm.Json mode layout)
        (FirstTexts (MayBeJson mode layout))) hex input)
        (W.contents writer.old) (W.contents writer.new)) }
{
    let each = Json { mode, layout };
    let walk = OrRecords {
        others: Documents { each },
        records: Records {
            form: RecordForm::Json(mode, layout),
        },
    };
    run_walk(alloc, &walk, hex, reader, writer)
}
