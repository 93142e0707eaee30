//! Documents out of an input, for each of which a command writes a text.

ghost use Rattle.std.specs.Prelude.{◌≡◌, ◌+◌, ◌<◌, ◌^◌, ℕ, Bool, List, Option, IfOk, IfSome};
ghost use Rattle.std.specs.Prelude.{OnOk, length, true};
ghost use Rattle.std.specs.Io.KnownBytes.{Appends, IsAtEnd};
ghost use Rattle.bson_elem.specs.{Spells, Tree};
ghost use Rattle.bson_raw.specs.{document_bytes};
ghost use Rattle.bson_stream.specs.{IsOpen, TellsForm};
ghost use Rattle.command_run.specs.{AppendsText, is_done, is_fault};
ghost use Rattle.file_commands.specs.DocumentWalk.{IsWritten, IsWrittenOrStops, document_reading};
ghost use Rattle.file_commands.specs.DocumentWalk.{document_tells};
ghost use Rattle.file_commands.specs.Documents.{AppendsFirst, IsWholeText, TextRule, WritesAll};
ghost use Rattle.file_commands.specs.Documents.{documents_of};
ghost use Rattle.file_commands.specs.ItemWalk.{GoesOverItems};
ghost use Rattle.file_commands.specs.Output.{IsOutput};
ghost use Rattle.file_commands.specs.Walk.{Tells};

use crate::input_fault::InputFault;
use crate::pieces::run_walk;
use crate::walk::{Stop, Walk};
use bson_elem::MAX_LEN;
use bson_raw::RawDocument;
use bson_stream::{DocumentReader, ReaderState};
use command_run::RunEnd;
use std::alloc::Global;
use std::io;
use std::io::{Read, Write};

/// What became of the text of a document.
#[derive(Clone, Copy)]
pub enum Written {
    /// It was written.
    Whole,
    /// There is none, since the document's canonical form has too many bytes. Nothing was written.
    TooLarge,
    /// Memory ran out. Nothing was written.
    OutOfMemory,
}

/// What a command writes for documents.
pub trait EachDocument {
    // What is written for a document.
    ghost rule: { Self → TextRule };
    // What follows the texts of all documents, by whether there are any.
    ghost closing: { Self → Bool → List ℕ };

    /// Writes the text of `document`, which begins at offset `start` of the input. `canonical` says
    /// whether it is in canonical form. Errs if the writer does.
    fn write_document<W: Write>(
        &self,
        document: RawDocument<'_>,
        start: usize,
        canonical: bool,
        out: &mut W,
    ) -> io::Result<Written>
        requires canonical { TellsForm (document_bytes document) canonical }
        requires offset { start + length (document_bytes document) < 2 ^ 64 }
        ensures { (t : Tree) → Spells t (document_bytes document.entry) → IfOk result
            (λ written. IsWritten (rule self.now start t) written
            (W.contents out.old) (W.contents out.new)) };

    /// Writes what follows the texts of all documents. `any` says whether there are any.
    fn write_closing<W: Write>(&self, any: bool, out: &mut W) -> io::Result<()>
        ensures { OnOk result (Appends (W.contents out.old) (W.contents out.new)
            (closing self.now any)) };
}

/// Writes the text of `document`, which begins at offset `start` of the input. Returns why no more
/// documents are read, if none are. Errs if the writer does.
fn write_one<E: EachDocument, W: Write>(
    each: &E,
    document: RawDocument<'_>,
    start: usize,
    canonical: bool,
    out: &mut W,
) -> io::Result<Option<Stop>>
    requires canonical { TellsForm (document_bytes document) canonical }
    requires offset { start + length (document_bytes document) < 2 ^ 64 }
    ensures { (t : Tree) → Spells t (document_bytes document.entry) → IfOk result
        (λ stop. IsWrittenOrStops (E.rule each.now start t) start stop
        (W.contents out.old) (W.contents out.new)) }
{
    match each.write_document(document, start, canonical, out)? {
        Written::Whole => Ok(None),
        Written::TooLarge => Ok(Some(Stop::Fault(InputFault::TooLarge { offset: start }))),
        Written::OutOfMemory => Ok(Some(Stop::OutOfMemory)),
    }
}

/// Writes the text of each document that becomes whole by `piece`: from where it stands, if all of
/// it is in `piece`, and else from `documents`, which gathers it. Returns why no more documents are
/// read, if none are: then the reader stands where that is. Errs if the writer does.
fn write_each<E: EachDocument, W: Write>(
    each: &E,
    documents: &mut DocumentReader,
    piece: &[u8],
    out: &mut W,
) -> io::Result<Option<Stop>>
    requires { IsOpen documents.old.held }
    ensures { IfOk result (λ stop.
        GoesOverItems (λ limit. documents_of (E.rule each.now)) (document_reading documents.old)
        piece.now (document_reading documents.new) stop
        (W.contents out.old) (W.contents out.new)) }
{
    let mut rest = piece;
    loop {
        if let Some(front) = documents.front(rest) {
            let start = documents.start();
            let stop = write_one(each, front.document, start, front.canonical, out)?;
            if stop.is_some() {
                return Ok(stop);
            }
            documents.pass(front.document);
            rest = front.rest;
            continue;
        }
        // The limit is that of all documents, and an offset counts the bytes of the piece: a reader
        // refuses to be fed only if memory runs out.
        let Ok(fed) = documents.feed(rest) else {
            return Ok(Some(Stop::OutOfMemory));
        };
        rest = &rest[fed.taken..];
        let canonical = match fed.state {
            ReaderState::Need => return Ok(None),
            ReaderState::Ready { canonical } => canonical,
            ReaderState::Bad(fault) => return Ok(Some(Stop::Fault(InputFault::Bson(fault)))),
        };
        let start = documents.start();
        let Some(document) = documents.document() else {
            unreachable!()
        };
        let stop = write_one(each, document, start, canonical, out)?;
        if stop.is_some() {
            return Ok(stop);
        }
        documents.release();
    }
}

/// The documents of an input, and what a command writes for them.
#[derive(Drop)]
pub struct Documents<E> {
    pub each: E,
}

impl<E: EachDocument> Walk for Documents<E> {
    type Reader = DocumentReader;

    ghost tells = { λ d. document_tells (E.rule d.each) (E.closing d.each) };

    fn start(&self, alloc: Global) -> DocumentReader {
        DocumentReader::new(alloc, MAX_LEN as u32)
    }

    fn write_piece<W: Write>(
        &self,
        reader: &mut DocumentReader,
        piece: &[u8],
        out: &mut W,
    ) -> io::Result<Option<Stop>> {
        write_each(&self.each, reader, piece, out)
    }

    fn fault_at_end(&self, reader: &DocumentReader) -> Option<InputFault> {
        match reader.end() {
            Ok(()) => None,
            Err(fault) => Some(InputFault::Bson(fault)),
        }
    }

    fn write_closing<W: Write>(&self, reader: &DocumentReader, out: &mut W) -> io::Result<()> {
        let any = reader.start() > 0;
        self.each.write_closing(any, out)
    }
}

/// Writes what a command makes of the documents in the input. If `hex` is true, the input is
/// hexadecimal text.
pub fn run_documents<E: EachDocument + Drop, R: Read, W: Write>(
    alloc: Global,
    each: E,
    hex: bool,
    reader: &mut R,
    writer: &mut W,
) -> RunEnd
    ensures read { is_done result ≡ true → IsAtEnd (R.remaining reader.new) }
    ensures written { IfSome (R.remaining reader.old) (λ input. is_done result ≡ true →
        AppendsText (IsOutput (IsWholeText (E.rule each) (E.closing each)) hex input)
        (is_fault result) (W.contents writer.old) (W.contents writer.new)) }
    ensures unread { result ≡ RunEnd.Unread → WritesAll (E.rule each) hex
        (R.remaining reader.old) (R.remaining reader.new)
        (W.contents writer.old) (W.contents writer.new) }
    ensures memory { result ≡ RunEnd.OutOfMemory → IfSome (R.remaining reader.old) (λ input.
        AppendsFirst (E.rule each) hex input (W.contents writer.old) (W.contents writer.new)) }
{
    let documents = Documents { each };
    run_walk(alloc, &documents, hex, reader, writer)
}
