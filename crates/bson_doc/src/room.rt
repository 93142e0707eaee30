//! How much room a limit leaves behind the bytes of a document, which are counted without being
//! written. No function here takes memory.

ghost use Rattle.std.specs.Prelude.{ℕ, ◌+◌, length};
ghost use Rattle.bson_elem.specs.{cstring, elements, inner_bytes, with_code};
ghost use Rattle.bson_elem.specs.Spelling as spelling;
ghost use Rattle.bson_raw.specs.{name_at};
ghost use Rattle.bson_doc.specs.Array.{array_tree};
ghost use Rattle.bson_doc.specs.Bson.{value_of};
ghost use Rattle.bson_doc.specs.Document.{tree_of};
ghost use Rattle.bson_doc.specs.Refusals.{IsLengthRefusal};
ghost use Rattle.bson_doc.specs.Room.{IsLengthWithin, IsRoomLeft};
ghost use Rattle.bson_doc.specs.Values.{value_bytes, value_len, element_bytes};

use crate::arrays::Array;
use crate::bson_values::Bson;
use crate::documents::Document;
use crate::leaf::room_after_leaf;
use crate::lent::Lent;
use crate::refusal::DocRefusal;
use itoa::Buffer;

/// Returns what is left of `room` behind `count` bytes, or `None` where they are more.
pub(crate) fn room_after(count: usize, room: usize) -> Option<usize>
    ensures { IsRoomLeft room count result }
{
    room.checked_sub(count)
}

/// Returns why bytes aren't written that leave `left` of a limit: `TooLarge` where they are more
/// than the limit, else that memory ran out.
pub(crate) fn refusal_of(left: Option<usize>) -> DocRefusal
    ensures { (limit count : ℕ) → IsRoomLeft limit count left → IsLengthRefusal limit count result }
{
    match left {
        Some(_) => DocRefusal::OutOfMemory,
        None => DocRefusal::TooLarge,
    }
}

/// Returns what is left of `room` behind the type byte and the canonical name of the pair at
/// `index`.
pub(crate) fn room_after_head(
    name: &str,
    in_array: bool,
    index: usize,
    room: usize,
) -> Option<usize>
    ensures { IsRoomLeft room (length (cstring (name_at in_array index name.now)) + 1) result }
{
    if !in_array {
        return room_after(name.len() + 2, room);
    }
    let mut digits = Buffer::new();
    room_after(digits.format(index).len() + 2, room)
}

/// Returns what is left of `room` behind the bytes of a value.
#[cycle(measure)]
fn room_after_value(value: &Bson, room: usize) -> Option<usize>
    ensures { IsRoomLeft room (length (value_bytes (value_of value.now))) result }
{
    match value.lend() {
        Lent::Document(document) => room_after_document(document, room),
        Lent::Array(array) => room_after_array(array, room),
        Lent::CodeWithScope { code, scope } => room_after_scope(code, scope, room),
        Lent::Leaf(leaf) => room_after_leaf(leaf, room),
    }
}

/// Returns what is left of `room` behind a code and its scope.
#[cycle(measure)]
fn room_after_scope(code: &str, scope: &Document, room: usize) -> Option<usize>
    ensures { IsRoomLeft room
        (length (inner_bytes (with_code code.now) (elements (tree_of scope.now)))) result }
{
    let left = room_after(code.len() + 9, room)?;
    room_after_document(scope, left)
}

/// Returns what is left of `room` behind the pair at `index` of a container.
#[cycle(measure)]
pub(crate) fn room_after_pair(
    name: &str,
    in_array: bool,
    index: usize,
    value: &Bson,
    room: usize,
) -> Option<usize>
    ensures { IsRoomLeft room
        (length (element_bytes (name_at in_array index name.now) (value_of value.now))) result }
{
    let left = room_after_head(name, in_array, index, room)?;
    room_after_value(value, left)
}

/// Returns what is left of `room` behind the bytes of an array.
#[cycle(measure)]
fn room_after_array(array: &Array, room: usize) -> Option<usize>
    ensures { IsRoomLeft room (length (spelling.document (elements (array_tree 0 array.now))))
        result }
{
    let mut left = room_after(5, room)?;
    for (index, value) in array.as_slice().iter().enumerate() {
        left = room_after_pair("", true, index, value, left)?;
    }
    Some(left)
}

/// Returns what is left of `room` behind the bytes of a document.
#[cycle(measure)]
pub(crate) fn room_after_document(document: &Document, room: usize) -> Option<usize>
    ensures { IsRoomLeft room (length (spelling.document (elements (tree_of document.now))))
        result }
{
    let mut left = room_after(5, room)?;
    for (name, value) in document.iter() {
        left = room_after_pair(name, false, 0, value, left)?;
    }
    Some(left)
}

impl Bson {
    /// Returns the length in bytes of the value as it is written behind its name (bsonspec.org,
    /// element), or `None` where that is above `limit`. It stops at the first part that is behind
    /// the limit, and takes no memory.
    pub fn encoded_len(&self, limit: usize) -> Option<usize>
        ensures { IsLengthWithin limit (value_len (value_of self.now)) result }
    {
        let left = room_after_value(self, limit)?;
        Some(limit - left)
    }
}
