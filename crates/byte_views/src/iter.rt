//! Walks over the elements of a document, one or many by a call, and finds one by its name.

ghost use Rattle.std.specs.Prelude.{◌≡◌, ◌+◌, ◌<◌, ◌≤◌, ◌↔◌, IfSome, IsTrue, ℕ, get_or, length};
ghost use Rattle.bson_elem.specs.{Spells, Tree};
ghost use Rattle.bson_raw.specs.Spelled.{IsLengthOf};
ghost use Rattle.byte_views.specs.Iters.{CanEnter, IsFirst, IsInside, IsStep, first_begins};
ghost use Rattle.byte_views.specs.Iters.{first_fails, inner_iter, moved, wrong_iter};
ghost use Rattle.byte_views.specs.Finding.{Finds, Gets, GivesNamed, IsPassed};
ghost use Rattle.byte_views.specs.Filling.{Fills};
ghost use Rattle.byte_views.specs.Pairs.{GivesNext, PairsFrom};
ghost use Rattle.byte_views.specs.Views.{IsView};

use crate::element::Element;
use crate::fault::FirstFault;
use crate::quick;
use crate::view::View;
use bson_elem::{BsonCause, fault_at, little_u32, read_cstring, read_document, read_element};

/// Where a walk stands in a document, an array or a scope.
#[derive(Clone, Copy)]
#[repr(C)]
pub struct ElementIter {
    /// The offset of the document's first byte.
    pub start: usize,
    /// The offset of the next element.
    pub at: usize,
    /// The offset of the document's last byte.
    pub end: usize,
    /// The depth of the document; the outermost one has depth 1.
    pub depth: u32,
}

impl ElementIter {
    /// Returns an iterator whose offsets are out of range, whatever the bytes are.
    fn wrong() -> ElementIter
        ensures { result ≡ wrong_iter }
    {
        ElementIter {
            start: 0,
            at: 1,
            end: 0,
            depth: 0,
        }
    }

    /// Returns true if the offsets are in range of `bytes`.
    #[inline(always)]
    pub(crate) fn is_inside(&self, bytes: &[u8]) -> bool
        ensures { IsTrue result ↔ IsInside bytes.now self.now }
    {
        self.at <= self.end && self.end < bytes.len()
    }
}

/// The beginning of a walk over a document.
#[derive(Clone, Copy)]
#[repr(C)]
pub struct FirstElement {
    /// The fault of the document's length or of its last byte, by the number of its cause.
    pub fault: FirstFault,
    /// The iterator at the first element. If there is a fault, its offsets are out of range.
    pub iter: ElementIter,
}

impl FirstElement {
    /// Returns that the document has this fault.
    fn of_fault(fault: FirstFault) -> FirstElement
        ensures { result ≡ first_fails fault }
    {
        FirstElement {
            fault,
            iter: ElementIter::wrong(),
        }
    }
}

/// Returns true if the length at the front is the number of the bytes, or if there are fewer than
/// four bytes.
fn is_length_of(bytes: &[u8]) -> bool
    ensures { IsTrue result ↔ IsLengthOf bytes.now }
{
    if bytes.len() < 4 {
        return true;
    }
    little_u32(bytes) as usize == bytes.len()
}

/// Begins a walk over the document that `bytes` are. Checks its length and its last byte, but none
/// of its elements.
pub fn walk_first(bytes: &[u8]) -> FirstElement
    ensures first { IsFirst bytes.now result }
    ensures pairs { (t : Tree) → Spells t bytes.now
        → (result ≡ first_begins bytes.now) × PairsFrom bytes.now result.iter t }
{
    if !is_length_of(bytes) {
        let fault = FirstFault::of_document(0, fault_at(0, BsonCause::Length));
        return FirstElement::of_fault(fault);
    }
    match read_document(0, 0, bytes) {
        Ok(_) => FirstElement {
            fault: FirstFault::none(),
            iter: ElementIter {
                start: 0,
                at: 4,
                end: bytes.len() - 1,
                depth: 1,
            },
        },
        Err(fault) => FirstElement::of_fault(FirstFault::of_document(0, fault)),
    }
}

/// Reads the element at the iterator, if its value is of a common kind and nothing is wrong with
/// it. Returns it, and the offset after it.
#[inline(always)]
fn quick_step(bytes: &[u8], iter: ElementIter) -> Option<(Element, usize)>
    requires inside { IsInside bytes.now iter }
    requires some { iter.at < iter.end }
    ensures { IfSome result (λ x. IsStep bytes.now iter x.0 x.1) }
{
    let byte = bytes[iter.at];
    match read_cstring(&bytes[iter.at + 1..iter.end]) {
        Ok((name, rest)) => {
            let place = View::new(iter.at + 1, name.len());
            let from = iter.at + 2 + name.len();
            let bare = Element::bare(place, byte);
            match quick::value(byte, rest, iter.depth, iter.at, from, bare) {
                Some((element, size)) => Some((element, from + size)),
                None => None,
            }
        }
        Err(_) => None,
    }
}

/// Reads the element at the iterator into `element`, like `step`, whatever its kind is.
#[inline(never)]
fn step_in_full(bytes: &[u8], iter: &ElementIter, element: &mut Element) -> usize
    ensures { IsStep bytes.now iter.now element.new result }
{
    if !iter.is_inside(bytes) {
        *element = Element::wrong();
        return iter.at;
    }
    if iter.at == iter.end {
        *element = Element::none();
        return iter.at;
    }
    match read_element(bytes, iter.start, iter.at, iter.end, iter.depth) {
        Ok(found) => {
            let length = found.name.len();
            let name = View::new(iter.at + 1, length);
            let from = iter.at + 2 + length;
            *element = Element::of_item(name, bytes[iter.at], found.value, from, found.next);
            found.next
        }
        Err(fault) => {
            *element = Element::of_fault(fault);
            iter.at
        }
    }
}

/// Reads the element at the iterator into `element`. Returns the offset after it, or the iterator's
/// own where there is none.
// Not inlined, so that there is one copy of the code that tells the common kinds apart. The other
// kinds are read by a call, so that this one has few values to keep.
#[inline(never)]
pub(crate) fn step(bytes: &[u8], iter: &ElementIter, element: &mut Element) -> usize
    ensures { IsStep bytes.now iter.now element.new result }
{
    if iter.is_inside(bytes) && iter.at != iter.end {
        if let Some((found, next)) = quick_step(bytes, *iter) {
            *element = found;
            return next;
        }
    }
    step_in_full(bytes, iter, element)
}

/// Reads the element at the iterator, and moves the iterator behind it. After the last element, and
/// at a fault, it stays where it is.
pub fn walk_next(bytes: &[u8], iter: &mut ElementIter, element: &mut Element)
    ensures step { IsStep bytes.now iter.old element.new iter.new.at }
    ensures same { iter.new ≡ moved iter.old iter.new.at }
    ensures pairs { (t : Tree) → PairsFrom bytes.now iter.old t
        → GivesNext bytes.now iter.old element.new iter.new t }
{
    iter.at = step(bytes, iter, element);
}

/// Reads elements from the iterator on into `room`, until it is full, and moves the iterator behind
/// them. Returns how many there are. If they are fewer than the room has places for, the place
/// behind them has kind 0, and the fault if there is one.
pub fn walk_next_elements(bytes: &[u8], iter: &mut ElementIter, room: &mut [Element]) -> usize
    ensures fills { Fills bytes.now iter.old room.old room.new result iter.new.at }
    ensures same { iter.new ≡ moved iter.old iter.new.at }
{
    let mut count = 0;
    while count < room.len() {
        iter.at = step(bytes, iter, &mut room[count]);
        if room[count].kind == 0 {
            return count;
        }
        count += 1;
    }
    count
}

/// Returns true if the view has the bytes of `name`.
fn is_named(bytes: &[u8], view: View, name: &[u8]) -> bool
    ensures { IsTrue result ↔ IsView bytes.now view name.now }
{
    let View { offset, length } = view;
    length == name.len()
        && offset <= bytes.len()
        && length <= bytes.len() - offset
        && &bytes[offset..offset + length] == name
}

/// Returns the first byte of a name, or 0 if it has none.
fn first_byte(name: &[u8]) -> u8
    ensures { result ≡ get_or name.now 0 0 }
{
    match name.first() {
        Some(first) => *first,
        None => 0,
    }
}

/// Returns true if the view, which a byte 00 follows, has the bytes of `name`, whose first byte is
/// `first`.
// Looks at the first byte first: names of the same length are too common for a test of that to be
// guessed.
#[inline(always)]
fn is_cstring_named(bytes: &[u8], view: View, name: &[u8], first: u8) -> bool
    requires first { first ≡ get_or name.now 0 0 }
    requires inside { view.offset + view.length < length bytes.now }
    requires zero { get_or bytes.now (view.offset + view.length) 0 ≡ 0 }
    ensures { IsTrue result ↔ IsView bytes.now view name.now }
{
    bytes[view.offset] == first && is_named(bytes, view, name)
}

/// Returns the offset after the element at the iterator, if it has another name, and its value is
/// of a common kind and nothing is wrong with it. The first byte of `name` is `first`.
#[inline(always)]
fn pass(bytes: &[u8], name: &[u8], first: u8, iter: ElementIter) -> Option<usize>
    requires { first ≡ get_or name.now 0 0 }
    ensures { IfSome result (λ next. IsPassed bytes.now name.now iter next) }
{
    if !iter.is_inside(bytes) || iter.at == iter.end {
        return None;
    }
    let byte = bytes[iter.at];
    let Ok((found, rest)) = read_cstring(&bytes[iter.at + 1..iter.end]) else {
        return None;
    };
    let place = View::new(iter.at + 1, found.len());
    if is_cstring_named(bytes, place, name, first) {
        return None;
    }
    let from = iter.at + 2 + found.len();
    let bare = Element::bare(place, byte);
    match quick::size(byte, rest, iter.depth, iter.at, from, bare) {
        Some(size) => Some(from + size),
        None => None,
    }
}

/// Reads elements from the iterator on, up to the first with this `name`, into `element`. Returns
/// the offset after that one, or where the walk ended if there is none.
fn find(bytes: &[u8], name: &[u8], iter: ElementIter, element: &mut Element) -> usize
    ensures { Finds bytes.now name.now iter element.new result }
{
    let first = first_byte(name);
    let mut at = iter.at;
    loop {
        if let Some(next) = pass(bytes, name, first, ElementIter { at, ..iter }) {
            at = next;
            continue;
        }
        let next = step(bytes, &ElementIter { at, ..iter }, element);
        if element.kind == 0 || is_named(bytes, element.name, name) {
            return next;
        }
        at = next;
    }
}

/// Reads elements from the iterator on, up to the first with this `name`, and moves the iterator
/// behind it. If there is none, or a fault comes before it, the iterator is moved there.
pub fn walk_find(bytes: &[u8], name: &[u8], iter: &mut ElementIter, element: &mut Element)
    ensures finds { Finds bytes.now name.now iter.old element.new iter.new.at }
    ensures same { iter.new ≡ moved iter.old iter.new.at }
    ensures pairs { (t : Tree) → PairsFrom bytes.now iter.old t
        → GivesNamed bytes.now name.now iter.old element.new iter.new t }
{
    iter.at = find(bytes, name, *iter, element);
}

/// Reads the first element with this `name` of the document that `bytes` are into `element`. Checks
/// the document's length and its last byte, and the elements up to that one.
pub fn walk_get(bytes: &[u8], name: &[u8], element: &mut Element)
    ensures gets { Gets bytes.now name.now element.new }
    ensures pairs { (t : Tree) → Spells t bytes.now → (after : ElementIter)
        × GivesNamed bytes.now name.now (first_begins bytes.now).iter element.new after t }
{
    let FirstElement { fault, mut iter } = walk_first(bytes);
    if fault.number != 0 {
        *element = Element {
            fault,
            ..Element::none()
        };
        return;
    }
    walk_find(bytes, name, &mut iter, element);
}

/// Returns an iterator over the document, array or scope that `element` holds. It was read by
/// `iter`. If it holds none, the offsets of the returned iterator are out of range.
pub fn walk_enter(iter: &ElementIter, element: &Element) -> ElementIter
    ensures enters { CanEnter iter.now element.now
        → result ≡ inner_iter iter.now.depth element.now.bytes }
    ensures wrong { (CanEnter iter.now element.now → ⊥) → result ≡ wrong_iter }
{
    let View { offset, length } = element.bytes;
    let holds = matches!(element.kind, 3 | 4 | 15) && length >= 5 && iter.depth < u32::MAX;
    if !holds {
        return ElementIter::wrong();
    }
    match offset.checked_add(length) {
        Some(after) => ElementIter {
            start: offset,
            at: offset + 4,
            end: after - 1,
            depth: iter.depth + 1,
        },
        None => ElementIter::wrong(),
    }
}
