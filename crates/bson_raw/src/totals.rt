//! Counts what a document holds, at all depths.

ghost use Rattle.std.specs.Prelude.{◌≡◌, ◌+◌, ◌≤◌, length};
ghost use Rattle.bson_elem.specs.{Spells, Tree};
ghost use Rattle.bson_raw.specs.Pairs.{TreeValue};
ghost use Rattle.bson_raw.specs.RawBson.{Shows};
ghost use Rattle.bson_raw.specs.RawDocument.{document_bytes};
ghost use Rattle.bson_raw.specs.Totals.{elements_in, elements_held, sizes_held, sizes_in};

use crate::document::RawDocument;
use crate::value::RawBson;

/// The totals of a document, which include the documents, arrays and scopes inside it.
#[derive(Clone, Copy, Debug, PartialEq, Eq)]
pub struct DocumentTotals {
    /// The number of elements.
    pub elements: usize,
    /// The number of bytes of all names, texts and data.
    pub sizes: usize,
}

impl DocumentTotals {
    /// Returns the totals of a value that holds no document, and whose texts and data have `sizes`
    /// bytes.
    fn of_leaf(sizes: usize) -> DocumentTotals
        ensures { (result.elements ≡ 0) × (result.sizes ≡ sizes) }
    {
        DocumentTotals { elements: 0, sizes }
    }
}

/// Counts the elements inside the value, and the bytes of its names, texts and data, without its
/// own name.
#[cycle(totals)]
fn value_totals(value: RawBson<'_>) -> DocumentTotals
    ensures { (v : TreeValue) → Shows value.entry v
        → (result.elements ≡ elements_held v) × (result.sizes ≡ sizes_held v) }
{
    match value {
        RawBson::Document(document) => document_totals(document),
        RawBson::Array(array) => document_totals(array.as_document()),
        RawBson::CodeWithScope { code, scope } => {
            let inner = document_totals(scope);
            DocumentTotals {
                elements: inner.elements,
                sizes: code.len() + inner.sizes,
            }
        }
        RawBson::String(text) | RawBson::Code(text) | RawBson::Symbol(text) => {
            DocumentTotals::of_leaf(text.len())
        }
        RawBson::DbPointer { namespace, .. } => DocumentTotals::of_leaf(namespace.len()),
        RawBson::Binary { bytes, .. } => DocumentTotals::of_leaf(bytes.len()),
        RawBson::Regex { pattern, options } => {
            DocumentTotals::of_leaf(pattern.len() + options.len())
        }
        _ => DocumentTotals::of_leaf(0),
    }
}

/// Counts the elements of the document, and the bytes of its names, texts and data, at all depths.
#[cycle(totals)]
fn document_totals(document: RawDocument<'_>) -> DocumentTotals
    ensures all { (t : Tree) → Spells t (document_bytes document.entry)
        → (result.elements ≡ elements_in t) × (result.sizes ≡ sizes_in t) }
    ensures within { result.elements + result.sizes ≤ length (document_bytes document.entry) }
{
    let mut elements = 0;
    let mut sizes = 0;
    for (name, value) in document.iter() {
        let held = value_totals(value);
        elements += 1 + held.elements;
        sizes += name.len() + held.sizes;
    }
    DocumentTotals { elements, sizes }
}

impl<'a> RawDocument<'a> {
    /// Counts the elements of the document, and the bytes of its names, texts and data, at all
    /// depths. The sum of the two counts is at most the length of the document.
    pub fn totals(self) -> DocumentTotals
        ensures all { (t : Tree) → Spells t (document_bytes self.entry)
            → (result.elements ≡ elements_in t) × (result.sizes ≡ sizes_in t) }
        ensures within { result.elements + result.sizes ≤ length (document_bytes self.entry) }
    {
        document_totals(self)
    }
}
