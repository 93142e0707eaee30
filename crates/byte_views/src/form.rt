//! Tells whether a document is in canonical form, and the first element whose name isn't.

ghost use Rattle.std.specs.Prelude.{◌≡◌, ◌↔◌, IsTrue};
ghost use Rattle.bson_elem.specs.{Spells, Tree};
ghost use Rattle.bson_raw.specs.{Shows, TreeValue, document_bytes};
ghost use Rattle.bson_raw.specs.Naming.{is_named};
ghost use Rattle.byte_views.specs.Documents.{IsCanonical};
ghost use Rattle.byte_views.specs.Forms.{IsFormPlace, misnamed, misnamed_in};

use crate::fault::FirstFault;
use bson_raw::{RawBson, RawDocument};
use itoa::Buffer;

/// Whether a document is in canonical form, and where not.
#[derive(Clone, Copy)]
#[repr(C)]
pub struct FormPlace {
    /// The first fault of the document, by the number of its cause.
    pub fault: FirstFault,
    /// Whether the document is in canonical form.
    pub canonical: bool,
    /// If there is no fault and it isn't, the offset of the first element of an array whose name
    /// isn't its index. Else 0.
    pub offset: usize,
}

/// Returns true if the name is the canonical one of the pair at `index` of a container.
fn is_named(name: &str, in_array: bool, index: usize) -> bool
    ensures { result ≡ is_named in_array index name.now }
{
    if !in_array {
        return true;
    }
    let mut digits = Buffer::new();
    name == digits.format(index)
}

/// Returns how many bytes the document in the value has from the first element on whose name isn't
/// canonical, if it holds one with such an element.
#[cycle(misnamed)]
fn misnamed_in(value: RawBson<'_>) -> Option<usize>
    ensures { (v : TreeValue) → Shows value.entry v → result ≡ misnamed_in v }
{
    match value {
        RawBson::Document(document) => misnamed(document, false),
        RawBson::Array(array) => misnamed(array.as_document(), true),
        RawBson::CodeWithScope { scope, .. } => misnamed(scope, false),
        _ => None,
    }
}

/// Returns how many bytes the document has from the first element on, at any depth, whose name
/// isn't canonical. In an array these are "0", "1" and so on.
#[cycle(misnamed)]
fn misnamed(document: RawDocument<'_>, in_array: bool) -> Option<usize>
    ensures { (t : Tree) → Spells t (document_bytes document.entry)
        → result ≡ misnamed in_array 0 t }
{
    let mut pairs = document.iter();
    let mut left = pairs.bytes_left();
    let mut index = 0;
    while let Some((name, value)) = pairs.next() {
        if !is_named(name, in_array, index) {
            return Some(left);
        }
        left = pairs.bytes_left();
        if let Some(within) = misnamed_in(value) {
            // A document is the last part of its element.
            return Some(left.saturating_add(within));
        }
        index += 1;
    }
    None
}

/// Tells whether `bytes` are exactly one document, in canonical form, and where not: the first
/// element of an array whose name isn't "0", "1" and so on, by its index.
pub fn form_place(bytes: &[u8]) -> FormPlace
    ensures place { IsFormPlace bytes.now result }
    ensures canonical { IsTrue result.canonical ↔ IsCanonical bytes.now }
{
    let document = match RawDocument::from_bytes(bytes) {
        Ok(document) => document,
        Err(fault) => {
            return FormPlace {
                fault: FirstFault::of_document(0, fault),
                canonical: false,
                offset: 0,
            };
        }
    };
    match misnamed(document, false) {
        None => FormPlace {
            fault: FirstFault::none(),
            canonical: true,
            offset: 0,
        },
        Some(left) => FormPlace {
            fault: FirstFault::none(),
            canonical: false,
            offset: bytes.len().saturating_sub(left),
        },
    }
}
