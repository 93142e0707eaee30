//! Writes the value of one element into the caller's room.

ghost use Rattle.std.specs.Prelude.{◌≡◌, ℕ, IfSome};
ghost use Rattle.bson_elem.specs.{item_kind, item_value};
ghost use Rattle.bson_elem.specs.Items.{LendsFramed};
ghost use Rattle.bson_text.specs.{read_text};
ghost use Rattle.byte_views.specs.Shown.{IsValueWritten};

use crate::element::Element;
use crate::fault::FirstFault;
use crate::iter::ElementIter;
use crate::text::{SHORT, TextWritten, put};
use arrayvec::ArrayVec;
use bson_elem::{Item, read_element};
use bson_text::value_to;

/// Returns the text of the item, or `None` if it has more bytes than a short one.
fn value_text(item: Item<'_>) -> Option<ArrayVec<u8, SHORT>>
    requires { LendsFramed item }
    ensures { (next : ℕ) → IfSome result
        (λ text. text.items ≡ read_text (item_kind item.entry) (item_value next item.entry)) }
{
    let mut text = ArrayVec::new();
    match value_to(item, &mut text) {
        Ok(()) => Some(text),
        Err(_) => None,
    }
}

/// Writes the value of the element at the iterator to the front of `room`, as the text of a
/// document has it behind the name: a space, the word of its kind, and the value. What follows the
/// element may have a fault, and so may a document in it. For a text of more than 64 KiB it tells
/// that there is no memory, and where no element stands it has the number 255.
pub fn put_value(bytes: &[u8], iter: &ElementIter, room: &mut [u8]) -> TextWritten
    ensures { IsValueWritten bytes.now iter.now room.old room.new result }
{
    if !iter.is_inside(bytes) || iter.at == iter.end {
        return TextWritten::none(Element::wrong().fault);
    }
    match read_element(bytes, iter.start, iter.at, iter.end, iter.depth) {
        Ok(element) => match value_text(element.value) {
            Some(text) => put(text.as_slice(), room),
            None => TextWritten::no_memory(),
        },
        Err(fault) => TextWritten::none(FirstFault::of_document(0, fault)),
    }
}
