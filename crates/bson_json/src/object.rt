//! Writes a document as one JSON object.

ghost use Rattle.std.specs.Prelude.{OnOk};
ghost use Rattle.bson_elem.specs.{Spells, Tree};
ghost use Rattle.bson_raw.specs.{document_bytes};
ghost use Rattle.text_writer.specs.{text_contents};
ghost use Rattle.bson_json.specs.Json.{IsJson};
ghost use Rattle.bson_json.specs.Walks.{WritesOne};

use crate::mode::Mode;
use crate::pairs::write_pairs;
use bson_elem::Kind;
use bson_raw::RawDocument;
use core::mem::replace_with;
use std::io;
use std::io::Write;
use text_writer::{Failed, TextWriter};

/// Writes a document.
fn write_object<W: Write>(
    document: RawDocument<'_>,
    mode: Mode,
    out: &mut TextWriter<W>,
) -> Result<(), Failed>
    ensures { (t : Tree) → Spells t (document_bytes document.entry) → OnOk result
        (WritesOne (text_contents W.contents) out.old out.new (IsJson mode t)) }
{
    out.write_all(b"{")?;
    write_pairs(Kind::Document, document, mode, out)?;
    out.write_all(b"}")
}

/// Like `write_json`, but takes the writer by value and returns it.
fn json_through<W: Write>(out: W, what: (RawDocument<'_>, Mode)) -> (W, io::Result<()>)
    ensures { (t : Tree) → Spells t (document_bytes what.entry.0) → OnOk result.1
        (WritesOne W.contents out result.0 (IsJson what.entry.1 t)) }
{
    let (document, mode) = what;
    let mut text = TextWriter::new(out);
    let written = write_object(document, mode, &mut text);
    text.finish(written)
}

/// Writes a document as one JSON object in the form `mode`, without white space and with no line
/// feed behind it (MongoDB Extended JSON v2: "Conversion table"). The options of a regular
/// expression are written in alphabetical order, and a name that is there twice is written twice.
///
/// # Errors
///
/// Returns the error of the writer, which may have taken a part of the text.
pub fn write_json<W: Write>(document: RawDocument<'_>, mode: Mode, out: &mut W) -> io::Result<()>
    ensures { (t : Tree) → Spells t (document_bytes document.entry) → OnOk result
        (WritesOne W.contents out.old out.new (IsJson mode t)) }
{
    replace_with(out, (document, mode), json_through)
}
