//! Exports the walks over the elements of a document.

ghost use Rattle.std.specs.Prelude.{◌≡◌};
ghost use Rattle.bson_elem.specs.{Spells, Tree};
ghost use Rattle.byte_views.specs.Filling.{Fills};
ghost use Rattle.byte_views.specs.Finding.{Finds, Gets, GivesNamed};
ghost use Rattle.byte_views.specs.Iters.{CanEnter, IsFirst, IsStep, first_begins, inner_iter};
ghost use Rattle.byte_views.specs.Iters.{moved, wrong_iter};
ghost use Rattle.byte_views.specs.Pairs.{GivesNext, PairsFrom};

use byte_views::{Element, ElementIter, FirstElement};

/// Begins a walk over the document that `bytes` are, as `byte_views::walk_first` does.
#[unsafe(no_mangle)]
pub extern "C" fn lughemra_first_nonnull(bytes: &[u8]) -> FirstElement
    ensures first { IsFirst bytes.now result }
    ensures pairs { (t : Tree) → Spells t bytes.now
        → (result ≡ first_begins bytes.now) × PairsFrom bytes.now result.iter t }
{
    byte_views::walk_first(bytes)
}

/// Reads the element at the iterator, and moves the iterator behind it, as `byte_views::walk_next`
/// does.
#[unsafe(no_mangle)]
pub extern "C" fn lughemra_next_nonnull(bytes: &[u8], iter: &mut ElementIter, element: &mut Element)
    ensures step { IsStep bytes.now iter.old element.new iter.new.at }
    ensures same { iter.new ≡ moved iter.old iter.new.at }
    ensures pairs { (t : Tree) → PairsFrom bytes.now iter.old t
        → GivesNext bytes.now iter.old element.new iter.new t }
{
    byte_views::walk_next(bytes, iter, element)
}

/// Reads elements from the iterator on into `room`, until it is full, as
/// `byte_views::walk_next_elements` does.
#[unsafe(no_mangle)]
pub extern "C" fn lughemra_next_elements_nonnull(
    bytes: &[u8],
    iter: &mut ElementIter,
    room: &mut [Element],
) -> usize
    ensures fills { Fills bytes.now iter.old room.old room.new result iter.new.at }
    ensures same { iter.new ≡ moved iter.old iter.new.at }
{
    byte_views::walk_next_elements(bytes, iter, room)
}

/// Reads elements from the iterator on, up to the first with this `name`, as
/// `byte_views::walk_find` does.
#[unsafe(no_mangle)]
pub extern "C" fn lughemra_find_nonnull(
    bytes: &[u8],
    name: &[u8],
    iter: &mut ElementIter,
    element: &mut Element,
)
    ensures finds { Finds bytes.now name.now iter.old element.new iter.new.at }
    ensures same { iter.new ≡ moved iter.old iter.new.at }
    ensures pairs { (t : Tree) → PairsFrom bytes.now iter.old t
        → GivesNamed bytes.now name.now iter.old element.new iter.new t }
{
    byte_views::walk_find(bytes, name, iter, element)
}

/// Reads the first element with this `name` of the document that `bytes` are, as
/// `byte_views::walk_get` does.
#[unsafe(no_mangle)]
pub extern "C" fn lughemra_get_nonnull(bytes: &[u8], name: &[u8], element: &mut Element)
    ensures gets { Gets bytes.now name.now element.new }
    ensures pairs { (t : Tree) → Spells t bytes.now → (after : ElementIter)
        × GivesNamed bytes.now name.now (first_begins bytes.now).iter element.new after t }
{
    byte_views::walk_get(bytes, name, element)
}

/// Returns an iterator over the document, array or scope that `element` holds, as
/// `byte_views::walk_enter` does.
#[unsafe(no_mangle)]
pub extern "C" fn lughemra_enter_nonnull(iter: &ElementIter, element: &Element) -> ElementIter
    ensures enters { CanEnter iter.now element.now
        → result ≡ inner_iter iter.now.depth element.now.bytes }
    ensures wrong { (CanEnter iter.now element.now → ⊥) → result ≡ wrong_iter }
{
    byte_views::walk_enter(iter, element)
}
