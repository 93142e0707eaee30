//! Writes a document as a pickle, from which Python makes dicts and lists (Python's manual:
//! `pickle`).
//!
//! It takes no memory, and makes no copy of the document.

mod held;
mod leaf;
mod opcodes;
mod pairs;
mod parts;

ghost use Rattle.std.specs.Prelude.{OnOk};
ghost use Rattle.bson_elem.specs.{Spells, Tree};
ghost use Rattle.bson_raw.specs.{document_bytes};
ghost use Rattle.text_writer.specs.{WritesOut, text_contents};
ghost use Rattle.byte_views.specs.Pickles as spec;
ghost use Rattle.byte_views.specs.Pickles.{document_pickle};

use bson_elem::Kind;
use bson_raw::RawDocument;
use core::mem::replace_with;
use opcodes::{BINGET, BINPUT, EMPTY_DICT, EMPTY_LIST, MARK, POP, PROTO, SETITEMS, STOP, TUPLE3};
use pairs::write_pairs;
use parts::write_long;
use std::io;
use std::io::Write;
use text_writer::{Failed, TextWriter};

/// Writes a document, and what stands before and behind it.
fn write_whole<W: Write>(document: RawDocument<'_>, out: &mut TextWriter<W>) -> Result<(), Failed>
    ensures { (t : Tree) → Spells t (document_bytes document.entry) → OnOk result
        (WritesOut (text_contents W.contents) out.old out.new (document_pickle t)) }
{
    out.write_all(&[PROTO, 4, EMPTY_LIST, BINPUT, 0, POP, EMPTY_DICT, MARK])?;
    let names = write_pairs(Kind::Document, document, out)?;
    write_end(names, out)
}

/// Writes what stands behind the pairs of a document with so many names.
fn write_end<W: Write>(names: usize, out: &mut TextWriter<W>) -> Result<(), Failed>
    ensures { OnOk result (WritesOut (text_contents W.contents) out.old out.new (spec.end names)) }
{
    out.write_all(&[SETITEMS, BINGET, 0])?;
    write_long(names as u64, out)?;
    out.write_all(&[TUPLE3, STOP])
}

/// Like `write_pickle`, but takes the writer by value and returns it.
fn pickle_through<W: Write>(out: W, document: RawDocument<'_>) -> (W, io::Result<()>)
    ensures { (t : Tree) → Spells t (document_bytes document.entry) → OnOk result.1
        (WritesOut W.contents out result.0 (document_pickle t)) }
{
    let mut text = TextWriter::new(out);
    let written = write_whole(document, &mut text);
    text.finish(written)
}

/// Writes a document as a pickle of protocol 4 (Python's manual: `pickle`), of which Python makes a
/// tuple: the document as a dict, a list of the dicts of all documents and scopes inside, and the
/// number of the names in all dicts. A dict keeps the last of the elements with one name, so where
/// these are fewer, a name stands twice. Arrays are lists. An ObjectId, a date and each kind for
/// which Python has no type of its own is what a function returns for its parts, the one that
/// Python's `copyreg` has under the sum of 0x4C554700 and the type byte of the kind; so is a binary
/// of another subtype than 00.
///
/// # Errors
///
/// Returns the error of the writer, which may have taken a part of the pickle.
pub(crate) fn write_pickle<W: Write>(document: RawDocument<'_>, out: &mut W) -> io::Result<()>
    ensures { (t : Tree) → Spells t (document_bytes document.entry) → OnOk result
        (WritesOut W.contents out.old out.new (document_pickle t)) }
{
    replace_with(out, document, pickle_through)
}
