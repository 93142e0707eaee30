//! The command `dump`: the text of each document.

ghost use Rattle.std.specs.Prelude.{◌≡◌, ◌⊎◌, ◌+◌, ◌<◌, ◌^◌, IfOk, IfSome, OnOk, false};
ghost use Rattle.std.specs.Prelude.{length, true};
ghost use Rattle.std.specs.Io.KnownBytes.{Appends, IsAtEnd};
ghost use Rattle.bson_elem.specs.{Spells, Tree};
ghost use Rattle.bson_raw.specs.{document_bytes};
ghost use Rattle.command_run.specs.{AppendsText, is_done, is_fault};
ghost use Rattle.file_commands.specs.Documents.{AppendsFirst, WritesAll, told_at};
ghost use Rattle.file_commands.specs.Dump.{DumpText, dump_of, dump_text};
ghost use Rattle.file_commands.specs.Output.{IsOutput, nothing};

use crate::documents::{EachDocument, Written, run_documents};
use bson_raw::RawDocument;
use bson_text::{dump_to, dump_with_offsets};
use command_run::RunEnd;
use std::alloc::Global;
use std::io;
use std::io::{Read, Write};

/// The command `dump`.
#[derive(Drop)]
struct Dump {
    /// True if offsets are written.
    offsets: bool,
}

/// Writes the text of `document`, which begins at offset `start` of the input.
fn write_dump<W: Write>(
    offsets: bool,
    document: RawDocument<'_>,
    start: usize,
    out: &mut W,
) -> io::Result<()>
    requires { start + length (document_bytes document) < 2 ^ 64 }
    ensures { (t : Tree) → Spells t (document_bytes document.entry) → OnOk result
        (Appends (W.contents out.old) (W.contents out.new) (dump_text offsets start t)) }
{
    if offsets {
        return dump_with_offsets(document, start, out);
    }
    dump_to(document, out)
}

impl EachDocument for Dump {
    ghost rule = { λ d. told_at (dump_of d.offsets) };

    ghost closing = { λ _. nothing };

    fn write_document<W: Write>(
        &self,
        document: RawDocument<'_>,
        start: usize,
        _canonical: bool,
        out: &mut W,
    ) -> io::Result<Written> {
        write_dump(self.offsets, document, start, out)?;
        Ok(Written::Whole)
    }

    fn write_closing<W: Write>(&self, _any: bool, _out: &mut W) -> io::Result<()> {
        Ok(())
    }
}

/// Writes the text of each document in the input. If `offsets` is true, the offset in the input of
/// what a line shows stands before it. If `hex` is true, the input is hexadecimal text, and offsets
/// count the bytes that it spells.
pub fn run_dump<R: Read, W: Write>(
    alloc: Global,
    offsets: bool,
    hex: bool,
    reader: &mut R,
    writer: &mut W,
) -> RunEnd
    ensures read { is_done result ≡ true → IsAtEnd (R.remaining reader.new) }
    ensures written { IfSome (R.remaining reader.old) (λ input. is_done result ≡ true →
        AppendsText (IsOutput (DumpText offsets) hex input) (is_fault result)
        (W.contents writer.old) (W.contents writer.new)) }
    ensures unread { result ≡ RunEnd.Unread → WritesAll (told_at (dump_of offsets)) hex
        (R.remaining reader.old) (R.remaining reader.new)
        (W.contents writer.old) (W.contents writer.new) }
    ensures memory { result ≡ RunEnd.OutOfMemory → IfSome (R.remaining reader.old) (λ input.
        AppendsFirst (told_at (dump_of offsets)) hex input
        (W.contents writer.old) (W.contents writer.new)) }
{
    run_documents(alloc, Dump { offsets }, hex, reader, writer)
}
