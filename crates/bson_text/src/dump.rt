//! Writes the text of a document: the line of its size, and a line for each element, at all
//! depths. Before each line the offset of what it shows may stand. No function here takes memory.

ghost use Rattle.std.specs.Prelude.{◌≡◌, ◌+◌, ◌<◌, ◌≤◌, ◌^◌, IfOk, IfSome, MatchOption, None, OnOk};
ghost use Rattle.std.specs.Prelude.{length};
ghost use Rattle.bson_elem.specs.{Spells, Tree};
ghost use Rattle.bson_raw.specs.{PairsLeft, Shows, TreeValue, document_bytes, held_len};
ghost use Rattle.bson_raw.specs.{pairs_bound, walked_len};
ghost use Rattle.bson_text.specs.Dump.{document_text, document_text_at, element_line};
ghost use Rattle.bson_text.specs.Dump.{element_lines};
ghost use Rattle.bson_text.specs.DumpValues.{IsHeld, StopsAt, held_tree, lines_to, offset_before};
ghost use Rattle.bson_text.specs.DumpValues.{offset_front, text_to, value_text};
ghost use Rattle.text_writer.specs.{WritesOut, text_contents};

use crate::text::{write_indent, write_quoted};
use crate::value_text::{
    write_array, write_binary, write_boolean, write_code, write_codescope, write_datetime,
    write_dbpointer, write_inner_document, write_int32, write_int64, write_raw, write_regex,
    write_string, write_symbol, write_timestamp,
};
use bson_raw::{RawBson, RawDocument, RawIter};
use core::mem::replace_with;
use std::io;
use std::io::Write;
use text_writer::{Failed, TextWriter, write_number};

/// Writes the word of the value's kind, and the value, as they follow an element's name.
pub(crate) fn write_value<W: Write>(
    value: RawBson<'_>,
    out: &mut TextWriter<W>,
) -> Result<(), Failed>
    ensures { (v : TreeValue) → Shows value.entry v → OnOk result
        (WritesOut (text_contents W.contents) out.old out.new (value_text v)) }
{
    match value {
        RawBson::Double(bytes) => write_raw(b" double ", &bytes, out),
        RawBson::String(text) => write_string(text, out),
        RawBson::Document(document) => write_inner_document(document.as_bytes().len(), out),
        RawBson::Array(array) => write_array(array.as_bytes().len(), out),
        RawBson::Binary { subtype, bytes } => write_binary(subtype, bytes, out),
        RawBson::Undefined => out.write_all(b" undefined"),
        RawBson::ObjectId(bytes) => write_raw(b" objectid ", &bytes, out),
        RawBson::Boolean(value) => write_boolean(value, out),
        RawBson::DateTime(milliseconds) => write_datetime(milliseconds, out),
        RawBson::Null => out.write_all(b" null"),
        RawBson::Regex { pattern, options } => write_regex(pattern, options, out),
        RawBson::DbPointer { namespace, id } => write_dbpointer(namespace, &id, out),
        RawBson::Code(text) => write_code(text, out),
        RawBson::Symbol(text) => write_symbol(text, out),
        RawBson::CodeWithScope { code, scope } => {
            write_codescope(code, scope.as_bytes().len(), out)
        }
        RawBson::Int32(value) => write_int32(value, out),
        RawBson::Timestamp { increment, seconds } => write_timestamp(seconds, increment, out),
        RawBson::Int64(value) => write_int64(value, out),
        RawBson::Decimal128(bytes) => write_raw(b" decimal128 ", &bytes, out),
        RawBson::MinKey => out.write_all(b" minkey"),
        RawBson::MaxKey => out.write_all(b" maxkey"),
    }
}

/// Returns the offset that is `left` bytes before `end`, if there is an `end`.
#[inline(always)]
fn before_end(end: Option<usize>, left: usize) -> Option<usize>
    requires { IfSome end (λ e. left ≤ e) }
    ensures { result ≡ offset_before end left }
{
    let end = end?;
    Some(end - left)
}

/// Writes the offset of what the next line shows, and a tab, if there is an offset.
#[inline(always)]
fn write_offset<W: Write>(offset: Option<usize>, out: &mut TextWriter<W>) -> Result<(), Failed>
    ensures { OnOk result (WritesOut (text_contents W.contents) out.old out.new
        (offset_front offset)) }
{
    match offset {
        None => Ok(()),
        Some(offset) => {
            write_number(offset, out)?;
            out.write_all(b"\t")
        }
    }
}

/// Writes the line of an element at depth `deep`.
#[inline(always)]
fn write_line<W: Write>(
    deep: u32,
    name: &str,
    value: RawBson<'_>,
    out: &mut TextWriter<W>,
) -> Result<(), Failed>
    ensures { (v : TreeValue) → Shows value.entry v → OnOk result
        (WritesOut (text_contents W.contents) out.old out.new
        (element_line deep name.now (value_text v))) }
{
    write_indent(deep, out)?;
    write_quoted(name, out)?;
    write_value(value, out)?;
    out.write_all(b"\n")
}

/// Returns the document, array or scope that a value holds, if it holds one.
fn held_document(value: RawBson<'_>) -> Option<RawDocument<'_>>
    ensures tree { (v : TreeValue) → Shows value.entry v → MatchOption result (held_tree v ≡ None)
        (λ d. IsHeld v (document_bytes d)) }
    ensures size { IfSome result (λ d. length (document_bytes d) ≡ held_len value.entry) }
{
    match value {
        RawBson::Document(document) => Some(document),
        RawBson::Array(array) => Some(array.as_document()),
        RawBson::CodeWithScope { scope, .. } => Some(scope),
        _ => None,
    }
}

/// Writes the lines of the next elements, up to and with the first that holds a document: behind
/// offsets, if `end` tells the offset at which the document of the elements ends. Returns the
/// document that is held, or `None` after the last element. Not inlined, so that each level of
/// nesting takes little stack.
#[inline(never)]
fn write_to_held<'a, W: Write>(
    pairs: &mut RawIter<'a>,
    end: Option<usize>,
    deep: u32,
    out: &mut TextWriter<W>,
) -> Result<Option<RawDocument<'a>>, Failed>
    requires { IfSome end (λ e. walked_len pairs.old ≤ e) }
    ensures lines { (t : Tree) → PairsLeft pairs.old t → IfOk result (λ held. MatchOption held
        (WritesOut (text_contents W.contents) out.old out.new (lines_to end deep t))
        (λ d. StopsAt end deep t (document_bytes d) (PairsLeft pairs.new)
        (WritesOut (text_contents W.contents) out.old out.new))) }
    ensures inside { IfOk result (λ held. IfSome held
        (λ d. length (document_bytes d) + pairs_bound pairs.new < walked_len pairs.old)) }
    ensures goes { IfOk result (λ held. IfSome held
        (λ d. pairs_bound pairs.new < pairs_bound pairs.old)) }
    ensures same { walked_len pairs.new ≡ walked_len pairs.old }
{
    let mut left = pairs.bytes_left();
    while let Some((name, value)) = pairs.next_inlined() {
        write_offset(before_end(end, left), out)?;
        write_line(deep, name, value, out)?;
        if let Some(held) = held_document(value) {
            return Ok(Some(held));
        }
        left = pairs.bytes_left();
    }
    Ok(None)
}

/// Writes the lines of a document's elements, and of those inside them: behind offsets, if `end`
/// tells the offset at which the document ends. The outer lines begin with two spaces `deep` times.
fn write_lines<W: Write>(
    document: RawDocument<'_>,
    end: Option<usize>,
    deep: u32,
    out: &mut TextWriter<W>,
) -> Result<(), Failed>
    requires depth { deep + length (document_bytes document) < 2 ^ 32 }
    requires end { IfSome end (λ e. length (document_bytes document) ≤ e) }
    ensures { (t : Tree) → Spells t (document_bytes document.entry) → OnOk result
        (WritesOut (text_contents W.contents) out.old out.new (lines_to end deep t)) }
{
    let mut pairs = document.iter();
    while let Some(held) = write_to_held(&mut pairs, end, deep, out)? {
        // A document is the last part of its element.
        let held_end = before_end(end, pairs.bytes_left());
        write_lines(held, held_end, deep + 1, out)?;
    }
    Ok(())
}

/// Like `dump_elements`, but takes the writer by value and returns it.
fn lines_through<W: Write>(out: W, what: (RawDocument<'_>, u32)) -> (W, io::Result<()>)
    requires { what.1 ≤ 2 }
    ensures { (t : Tree) → Spells t (document_bytes what.entry.0) → OnOk result.1
        (WritesOut W.contents out result.0 (element_lines what.entry.1 t)) }
{
    let (document, deep) = what;
    let mut text = TextWriter::new(out);
    let written = write_lines(document, None, deep, &mut text);
    text.finish(written)
}

/// Writes the lines of a document's elements, and of those inside them. The outer lines begin with
/// two spaces `deep` times, and those one level further in with two more. `deep` is 1 or 2.
///
/// # Errors
///
/// Returns the error of the writer, which may have taken a part of the text.
pub fn dump_elements<W: Write>(document: RawDocument<'_>, deep: u32, out: &mut W) -> io::Result<()>
    requires { (1 ≤ deep) × (deep ≤ 2) }
    ensures { (t : Tree) → Spells t (document_bytes document.entry) → OnOk result
        (WritesOut W.contents out.old out.new (element_lines deep t)) }
{
    replace_with(out, (document, deep), lines_through)
}

/// Writes the line of a document's size, and its elements' lines: behind offsets, if `end` tells
/// the offset at which the document ends.
fn write_text<W: Write>(
    document: RawDocument<'_>,
    end: Option<usize>,
    out: &mut TextWriter<W>,
) -> Result<(), Failed>
    requires { IfSome end (λ e. length (document_bytes document) ≤ e) }
    ensures { (t : Tree) → Spells t (document_bytes document.entry) → OnOk result
        (WritesOut (text_contents W.contents) out.old out.new (text_to end t)) }
{
    let size = document.as_bytes().len();
    write_offset(before_end(end, size), out)?;
    out.write_all(b"document ")?;
    write_number(size, out)?;
    out.write_all(b"\n")?;
    write_lines(document, end, 1, out)
}

/// Like `write_text`, but takes the inner writer by value and returns it.
fn document_through<W: Write>(out: W, what: (RawDocument<'_>, Option<usize>)) -> (W, io::Result<()>)
    requires { IfSome what.1 (λ e. length (document_bytes what.0) ≤ e) }
    ensures { (t : Tree) → Spells t (document_bytes what.entry.0) → OnOk result.1
        (WritesOut W.contents out result.0 (text_to what.entry.1 t)) }
{
    let (document, end) = what;
    let mut text = TextWriter::new(out);
    let written = write_text(document, end, &mut text);
    text.finish(written)
}

/// Writes the text of a document: a line with the count of its bytes, and its elements' lines.
///
/// # Errors
///
/// Returns the error of the writer, which may have taken a part of the text.
pub fn dump_to<W: Write>(document: RawDocument<'_>, out: &mut W) -> io::Result<()>
    ensures { (t : Tree) → Spells t (document_bytes document.entry) → OnOk result
        (WritesOut W.contents out.old out.new (document_text t)) }
{
    replace_with(out, (document, None), document_through)
}

/// Writes the text of a document as `dump_to` does, and before each line, with a tab behind it, the
/// offset of what the line shows: of the document's first byte, and of each element's. The document
/// begins at offset `start`.
///
/// # Errors
///
/// Returns the error of the writer, which may have taken a part of the text.
pub fn dump_with_offsets<W: Write>(
    document: RawDocument<'_>,
    start: usize,
    out: &mut W,
) -> io::Result<()>
    requires { start + length (document_bytes document) < 2 ^ 64 }
    ensures { (t : Tree) → Spells t (document_bytes document.entry) → OnOk result
        (WritesOut W.contents out.old out.new (document_text_at start t)) }
{
    let end = start + document.as_bytes().len();
    replace_with(out, (document, Some(end)), document_through)
}
