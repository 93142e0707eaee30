//! The command `check`: a line for each document.

ghost use Rattle.std.specs.Prelude.{◌≡◌, ◌⊎◌, IfOk, IfSome, OnOk, false, true};
ghost use Rattle.std.specs.Io.KnownBytes.{Appends, IsAtEnd};
ghost use Rattle.command_run.specs.{AppendsText, is_done, is_fault};
ghost use Rattle.file_commands.specs.Check.{CheckText, check_of, form_word, sized_line};
ghost use Rattle.file_commands.specs.Documents.{AppendsFirst, WritesAll, told_by};
ghost use Rattle.file_commands.specs.Output.{AppendsOne, IsOutput, WritesRead, nothing};
ghost use Rattle.file_commands.specs.Salvaged.{FirstSalvaged, SalvageText, SalvagedSoFar};

use crate::documents::{EachDocument, Written, run_documents};
use crate::salvage::{SALVAGE_LIMIT, run_salvage};
use bson_raw::RawDocument;
use bson_text::number_to;
use command_run::RunEnd;
use std::alloc::Global;
use std::io;
use std::io::{Read, Write};

/// The command `check`.
#[derive(Drop)]
struct Check;

/// Returns the end of the line of a document.
fn form_text(canonical: bool) -> &'static str
    ensures { result.now ≡ form_word canonical }
{
    if canonical {
        " canonical\n"
    } else {
        " other\n"
    }
}

/// Writes the line of a document of `size` bytes.
fn write_check_line<W: Write>(size: usize, canonical: bool, out: &mut W) -> io::Result<()>
    ensures { OnOk result (Appends (W.contents out.old) (W.contents out.new)
        (sized_line size canonical)) }
{
    out.write_all(b"ok ")?;
    number_to(size, out)?;
    out.write_all(form_text(canonical).as_bytes())
}

impl EachDocument for Check {
    ghost rule = { λ _. told_by check_of };

    ghost closing = { λ _. nothing };

    fn write_document<W: Write>(
        &self,
        document: RawDocument<'_>,
        _start: usize,
        canonical: bool,
        out: &mut W,
    ) -> io::Result<Written> {
        write_check_line(document.as_bytes().len(), canonical, out)?;
        Ok(Written::Whole)
    }

    fn write_closing<W: Write>(&self, _any: bool, _out: &mut W) -> io::Result<()> {
        Ok(())
    }
}

/// Writes a line for each document in the input: `ok`, the number of its bytes, and `canonical` or
/// `other`. If `hex` is true, the input is hexadecimal text.
pub fn run_check<R: Read, W: Write>(
    alloc: Global,
    hex: bool,
    reader: &mut R,
    writer: &mut W,
) -> RunEnd
    ensures read { is_done result ≡ true → IsAtEnd (R.remaining reader.new) }
    ensures written { IfSome (R.remaining reader.old) (λ input. is_done result ≡ true →
        AppendsText (IsOutput CheckText hex input) (is_fault result)
        (W.contents writer.old) (W.contents writer.new)) }
    ensures unread { result ≡ RunEnd.Unread → WritesAll (told_by check_of) hex
        (R.remaining reader.old) (R.remaining reader.new)
        (W.contents writer.old) (W.contents writer.new) }
    ensures memory { result ≡ RunEnd.OutOfMemory → IfSome (R.remaining reader.old) (λ input.
        AppendsFirst (told_by check_of) hex input (W.contents writer.old) (W.contents writer.new)) }
{
    run_documents(alloc, Check, hex, reader, writer)
}

/// Writes the line of each document that is found in the input, some of whose bytes may be damaged,
/// and of each gap between them the line of its fault and that of its offsets.
pub fn salvage_check<R: Read, W: Write>(alloc: Global, reader: &mut R, writer: &mut W) -> RunEnd
    ensures read { is_done result ≡ true → IsAtEnd (R.remaining reader.new) }
    ensures written { IfSome (R.remaining reader.old) (λ input. is_done result ≡ true →
        AppendsText (SalvageText (told_by check_of) true SALVAGE_LIMIT input) (is_fault result)
        (W.contents writer.old) (W.contents writer.new)) }
    ensures unread { result ≡ RunEnd.Unread
        → WritesRead (SalvagedSoFar (told_by check_of) true SALVAGE_LIMIT)
        (R.remaining reader.old) (R.remaining reader.new)
        (W.contents writer.old) (W.contents writer.new) }
    ensures memory { result ≡ RunEnd.OutOfMemory → IfSome (R.remaining reader.old) (λ input.
        AppendsOne (FirstSalvaged (told_by check_of) true SALVAGE_LIMIT input)
        (W.contents writer.old) (W.contents writer.new)) }
{
    run_salvage(alloc, Check, true, SALVAGE_LIMIT, reader, writer)
}
