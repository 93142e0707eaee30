//! Writes the value of one element that was read alone, as it stands in the element's line. What
//! follows the element may have a fault, and so may a document in it.

ghost use Rattle.std.specs.Prelude.{ℕ, OnOk};
ghost use Rattle.bson_elem.specs.{item_kind, item_value};
ghost use Rattle.bson_elem.specs.Items.{LendsFramed};
ghost use Rattle.bson_text.specs.Items.{read_text};
ghost use Rattle.text_writer.specs.{WritesOut, text_contents};

use crate::dump::write_value;
use crate::value_text::{write_array, write_codescope, write_inner_document};
use bson_elem::Item;
use bson_raw::RawBson;
use core::mem::replace_with;
use std::io;
use std::io::Write;
use text_writer::{Failed, TextWriter};

/// Writes the word of the item's kind, and the value, as they follow an element's name.
fn write_item<W: Write>(item: Item<'_>, out: &mut TextWriter<W>) -> Result<(), Failed>
    requires { LendsFramed item }
    ensures { (next : ℕ) → OnOk result (WritesOut (text_contents W.contents) out.old out.new
        (read_text (item_kind item.entry) (item_value next item.entry))) }
{
    match item {
        Item::Document(bytes) => write_inner_document(bytes.len(), out),
        Item::Array(bytes) => write_array(bytes.len(), out),
        Item::CodeWithScope { code, scope } => write_codescope(code, scope.len(), out),
        _ => write_value(RawBson::of_item(item), out),
    }
}

/// Like `value_to`, but takes the writer by value and returns it.
fn value_through<W: Write>(out: W, item: Item<'_>) -> (W, io::Result<()>)
    requires { LendsFramed item }
    ensures { (next : ℕ) → OnOk result.1 (WritesOut W.contents out result.0
        (read_text (item_kind item.entry) (item_value next item.entry))) }
{
    let mut text = TextWriter::new(out);
    let written = write_item(item, &mut text);
    text.finish(written)
}

/// Writes the value of an element as `dump_to` does behind its name: a space, the word of its kind,
/// and the value if the kind has one. Of a document it is the size.
///
/// # Errors
///
/// Returns the error of the writer, which may have taken a part of the text.
pub fn value_to<W: Write>(item: Item<'_>, out: &mut W) -> io::Result<()>
    requires { LendsFramed item }
    ensures { (next : ℕ) → OnOk result (WritesOut W.contents out.old out.new
        (read_text (item_kind item.entry) (item_value next item.entry))) }
{
    replace_with(out, item, value_through)
}
