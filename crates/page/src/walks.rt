//! Exports the walks over the elements of a document.

ghost use Rattle.std.specs.Prelude.{◌≡◌};
ghost use Rattle.bson_elem.specs.{Spells, Tree};
ghost use Rattle.byte_views.specs.Iters.{CanEnter, IsFirst, IsStep, first_begins, inner_iter};
ghost use Rattle.byte_views.specs.Iters.{moved, wrong_iter};
ghost use Rattle.byte_views.specs.Pairs.{GivesNext, PairsFrom};
ghost use Rattle.byte_views.specs.Shown.{IsValueWritten};
ghost use Rattle.byte_views.specs.Spans.{IsDocumentSpan};

use byte_views::{Element, ElementIter, FirstElement, TextWritten, View};

/// Begins a walk over the document that `bytes` are, as `byte_views::walk_first` does.
#[unsafe(no_mangle)]
pub extern "C" fn page_first(bytes: &[u8]) -> FirstElement
    ensures first { IsFirst bytes.now result }
    ensures pairs { (t : Tree) → Spells t bytes.now
        → (result ≡ first_begins bytes.now) × PairsFrom bytes.now result.iter t }
{
    byte_views::walk_first(bytes)
}

/// Reads the element at the iterator, and moves the iterator behind it, as `byte_views::walk_next`
/// does.
#[unsafe(no_mangle)]
pub extern "C" fn page_next(bytes: &[u8], iter: &mut ElementIter, element: &mut Element)
    ensures step { IsStep bytes.now iter.old element.new iter.new.at }
    ensures same { iter.new ≡ moved iter.old iter.new.at }
    ensures pairs { (t : Tree) → PairsFrom bytes.now iter.old t
        → GivesNext bytes.now iter.old element.new iter.new t }
{
    byte_views::walk_next(bytes, iter, element)
}

/// Returns an iterator over the document, array or scope that `element` holds, as
/// `byte_views::walk_enter` does.
#[unsafe(no_mangle)]
pub extern "C" fn page_enter(iter: &ElementIter, element: &Element) -> ElementIter
    ensures enters { CanEnter iter.now element.now
        → result ≡ inner_iter iter.now.depth element.now.bytes }
    ensures wrong { (CanEnter iter.now element.now → ⊥) → result ≡ wrong_iter }
{
    byte_views::walk_enter(iter, element)
}

/// Writes the value of the element at the iterator to the front of `room`, as
/// `byte_views::put_value` does.
#[unsafe(no_mangle)]
pub extern "C" fn page_value(bytes: &[u8], iter: &ElementIter, room: &mut [u8]) -> TextWritten
    ensures { IsValueWritten bytes.now iter.now room.old room.new result }
{
    byte_views::put_value(bytes, iter, room)
}

/// Returns the view of the innermost element that has the byte at `offset` of the document in front
/// of `bytes`, or of the first one on the way there that can't be read, or else of the document, as
/// `byte_views::span_at` does.
#[unsafe(no_mangle)]
pub extern "C" fn page_span(bytes: &[u8], offset: usize) -> View
    ensures { IsDocumentSpan bytes.now offset result }
{
    byte_views::span_at(bytes, offset)
}
