//! The command `canon`: the canonical form of each document.

ghost use Rattle.std.specs.Prelude.{◌≡◌, ◌⊎◌, ◌≤◌, ◌<◌, ◌^◌, IfOk, IfSome, None, Some, false};
ghost use Rattle.std.specs.Prelude.{if◌then◌else◌, length, nat_lt, true};
ghost use Rattle.std.specs.Io.KnownBytes.{IsAtEnd};
ghost use Rattle.command_run.specs.{AppendsText, is_done, is_fault};
ghost use Rattle.file_commands.specs.Canon.{CanonText, behind_forms, canon_of, in_form};
ghost use Rattle.file_commands.specs.Documents.{AppendsFirst, WritesAll, told_by};
ghost use Rattle.file_commands.specs.Output.{AppendsOne, IsOutput, WritesRead};
ghost use Rattle.file_commands.specs.Salvaged.{FirstSalvaged, SalvageText, SalvagedSoFar};
ghost use Rattle.file_commands.specs.DocumentWalk.{IsWritten};

use crate::documents::{EachDocument, Written, run_documents};
use crate::salvage::{SALVAGE_LIMIT, run_salvage};
use bson_doc::{DocRefusal, renumbered};
use bson_elem::MAX_LEN;
use bson_raw::RawDocument;
use bson_text::hex_to;
use command_run::RunEnd;
use std::alloc::Global;
use std::io;
use std::io::{Read, Write};

/// The command `canon`.
#[derive(Drop)]
struct Canon {
    alloc: Global,
    /// True if the canonical form is written as hexadecimal text.
    hex: bool,
    /// The most bytes that the canonical form of a document has.
    limit: usize,
    ghost within: { limit < 2 ^ 31 },
}

impl Canon {
    /// Writes `bytes`, the canonical form of a document, unless they are more than the limit.
    fn write_bytes<W: Write>(&self, bytes: &[u8], out: &mut W) -> io::Result<Written>
        ensures { IfOk result (λ written. IsWritten
            (λ shown. (if nat_lt self.now.limit (length bytes.now) then None
            else Some (in_form self.now.hex bytes.now)) ≡ shown) written
            (W.contents out.old) (W.contents out.new)) }
    {
        if bytes.len() > self.limit {
            return Ok(Written::TooLarge);
        }
        if self.hex {
            hex_to(bytes, out)?;
        } else {
            out.write_all(bytes)?;
        }
        Ok(Written::Whole)
    }
}

impl EachDocument for Canon {
    ghost rule = { λ c. told_by (canon_of c.limit c.hex) };

    ghost closing = { λ c. behind_forms c.hex };

    fn write_document<W: Write>(
        &self,
        document: RawDocument<'_>,
        _start: usize,
        canonical: bool,
        out: &mut W,
    ) -> io::Result<Written> {
        if canonical {
            return self.write_bytes(document.as_bytes(), out);
        }
        match renumbered(self.alloc, document) {
            Ok(form) => self.write_bytes(form.as_raw().as_bytes(), out),
            Err(DocRefusal::TooLarge) => Ok(Written::TooLarge),
            Err(_) => Ok(Written::OutOfMemory),
        }
    }

    fn write_closing<W: Write>(&self, any: bool, out: &mut W) -> io::Result<()> {
        let end: &[u8] = if self.hex && any { b"\n" } else { b"" };
        out.write_all(end)
    }
}

/// Writes the canonical form of each document in the input. If `hex` is true, the input is
/// hexadecimal text, and so is the output, in one line.
///
/// The form of a document is written before that of the next one is made.
pub fn run_canon<R: Read, W: Write>(
    alloc: Global,
    hex: bool,
    reader: &mut R,
    writer: &mut W,
) -> RunEnd
    ensures read { is_done result ≡ true → IsAtEnd (R.remaining reader.new) }
    ensures written { IfSome (R.remaining reader.old) (λ input. is_done result ≡ true →
        AppendsText (IsOutput (CanonText MAX_LEN hex) hex input) (is_fault result)
        (W.contents writer.old) (W.contents writer.new)) }
    ensures unread { result ≡ RunEnd.Unread → WritesAll (told_by (canon_of MAX_LEN hex)) hex
        (R.remaining reader.old) (R.remaining reader.new)
        (W.contents writer.old) (W.contents writer.new) }
    ensures memory { result ≡ RunEnd.OutOfMemory → IfSome (R.remaining reader.old) (λ input.
        AppendsFirst (told_by (canon_of MAX_LEN hex)) hex input
        (W.contents writer.old) (W.contents writer.new)) }
{
    run_canon_within(alloc, MAX_LEN, hex, reader, writer)
}

/// Like `run_canon`, but a canonical form has at most `limit` bytes.
pub fn run_canon_within<R: Read, W: Write>(
    alloc: Global,
    limit: usize,
    hex: bool,
    reader: &mut R,
    writer: &mut W,
) -> RunEnd
    requires { limit ≤ MAX_LEN }
    ensures read { is_done result ≡ true → IsAtEnd (R.remaining reader.new) }
    ensures written { IfSome (R.remaining reader.old) (λ input. is_done result ≡ true →
        AppendsText (IsOutput (CanonText limit hex) hex input) (is_fault result)
        (W.contents writer.old) (W.contents writer.new)) }
    ensures unread { result ≡ RunEnd.Unread → WritesAll (told_by (canon_of limit hex)) hex
        (R.remaining reader.old) (R.remaining reader.new)
        (W.contents writer.old) (W.contents writer.new) }
    ensures memory { result ≡ RunEnd.OutOfMemory → IfSome (R.remaining reader.old) (λ input.
        AppendsFirst (told_by (canon_of limit hex)) hex input
        (W.contents writer.old) (W.contents writer.new)) }
{
    let canon = Canon { alloc, hex, limit };
    run_documents(alloc, canon, hex, reader, writer)
}

/// Writes the canonical form of each document that is found in the input, some of whose bytes may
/// be damaged. Nothing is written for a gap, nor for a document whose form is too long.
pub fn salvage_canon<R: Read, W: Write>(alloc: Global, reader: &mut R, writer: &mut W) -> RunEnd
    ensures read { is_done result ≡ true → IsAtEnd (R.remaining reader.new) }
    ensures written { IfSome (R.remaining reader.old) (λ input. is_done result ≡ true →
        AppendsText (SalvageText (told_by (canon_of MAX_LEN false)) false SALVAGE_LIMIT input)
        (is_fault result) (W.contents writer.old) (W.contents writer.new)) }
    ensures unread { result ≡ RunEnd.Unread
        → WritesRead (SalvagedSoFar (told_by (canon_of MAX_LEN false)) false SALVAGE_LIMIT)
        (R.remaining reader.old) (R.remaining reader.new)
        (W.contents writer.old) (W.contents writer.new) }
    ensures memory { result ≡ RunEnd.OutOfMemory → IfSome (R.remaining reader.old) (λ input.
        AppendsOne (FirstSalvaged (told_by (canon_of MAX_LEN false)) false SALVAGE_LIMIT input)
        (W.contents writer.old) (W.contents writer.new)) }
{
    let canon = Canon {
        alloc,
        hex: false,
        limit: MAX_LEN,
    };
    run_salvage(alloc, canon, false, SALVAGE_LIMIT, reader, writer)
}
