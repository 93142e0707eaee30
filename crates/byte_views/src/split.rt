//! Splits documents that stand one after another.

ghost use Rattle.std.specs.Prelude.{◌≡◌, ◌↔◌, IsTrue, ◌∷◌, List};
ghost use Rattle.bson_elem.specs.{Tree, document, elements};
ghost use Rattle.bson_raw.specs.{AreDocuments, documents_bytes};
ghost use Rattle.byte_views.specs.Splits.{IsSplit, IsWithin};
ghost use Rattle.byte_views.specs.Views.{IsView};

use crate::view::View;
use bson_elem::read_document;

/// Returns true if the view lies in `bytes`.
fn is_within(bytes: &[u8], view: View) -> bool
    ensures { IsTrue result ↔ IsWithin bytes.now view }
{
    view.offset <= bytes.len() && view.length <= bytes.len() - view.offset
}

/// Reads the document at the front of `left`, by its length and its last byte. Returns its view and
/// that of what follows it; or the view of no bytes, and `left`.
fn split(bytes: &[u8], left: View) -> (View, View)
    ensures { IsSplit bytes.now left result.0 result.1 }
{
    if !is_within(bytes, left) {
        return (View::NONE, left);
    }
    let View { offset, length } = left;
    match read_document(0, 0, &bytes[offset..offset + length]) {
        Ok((document, rest)) => {
            let size = document.len();
            (
                View::new(offset, size),
                View::new(offset + size, rest.len()),
            )
        }
        Err(_) => (View::NONE, left),
    }
}

/// Moves `left` behind the document at its front, and `first` to that one. Its length and its
/// last byte are checked, but none of its elements. If none stands there, `left` stays as it is,
/// and `first` has no bytes.
pub fn next_document(bytes: &[u8], left: &mut View, first: &mut View)
    ensures split { IsSplit bytes.now left.old first.new left.new }
    ensures documents { (t : Tree) (ts : List Tree) → AreDocuments (t ∷ ts)
        → IsView bytes.now left.old (documents_bytes (t ∷ ts))
        → IsView bytes.now first.new (document (elements t))
        × IsView bytes.now left.new (documents_bytes ts) }
{
    let (document, rest) = split(bytes, *left);
    *left = rest;
    *first = document;
}
