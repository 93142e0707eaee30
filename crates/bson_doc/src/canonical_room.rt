//! How much room a limit leaves behind the canonical form of a document: its bytes are counted
//! without being written. No function here takes memory.

ghost use Rattle.std.specs.Prelude.{false, length};
ghost use Rattle.bson_elem.specs.{Spells, Tree, elements, inner_bytes, with_code};
ghost use Rattle.bson_elem.specs.Spelling as spelling;
ghost use Rattle.bson_raw.specs.{Shows, TreeValue, document_bytes, held_len, name_at};
ghost use Rattle.bson_doc.specs.Plain.{plain_from};
ghost use Rattle.bson_doc.specs.Room.{IsRoomLeft};
ghost use Rattle.bson_doc.specs.Values.{plain_value, value_bytes, element_bytes};

use crate::leaf::room_after_leaf;
use crate::room::{room_after, room_after_head};
use bson_raw::{RawBson, RawDocument};

/// Returns what is left of `room` behind the canonical bytes of a value.
#[cycle(measure)]
fn room_after_value(value: RawBson<'_>, room: usize) -> Option<usize>
    ensures { (v : TreeValue) → Shows value.entry v
        → IsRoomLeft room (length (value_bytes (plain_value v))) result }
{
    match value {
        RawBson::Document(document) => room_after_document(document, false, room),
        RawBson::Array(array) => room_after_document(array.as_document(), true, room),
        RawBson::CodeWithScope { code, scope } => room_after_scope(code, scope, room),
        leaf => room_after_leaf(leaf, room),
    }
}

/// Returns what is left of `room` behind a code and the canonical form of its scope.
#[cycle(measure)]
fn room_after_scope(code: &str, scope: RawDocument<'_>, room: usize) -> Option<usize>
    ensures { (t : Tree) → Spells t (document_bytes scope.entry)
        → IsRoomLeft room
        (length (inner_bytes (with_code code.now) (elements (plain_from false 0 t)))) result }
{
    let left = room_after(code.len() + 9, room)?;
    room_after_document(scope, false, left)
}

/// Returns what is left of `room` behind the pair at `index` of a container, in canonical form.
#[cycle(measure)]
fn room_after_pair(
    name: &str,
    in_array: bool,
    index: usize,
    value: RawBson<'_>,
    room: usize,
) -> Option<usize>
    ensures { (v : TreeValue) → Shows value.entry v
        → IsRoomLeft room (length (element_bytes (name_at in_array index name.now) (plain_value v)))
        result }
{
    let left = room_after_head(name, in_array, index, room)?;
    room_after_value(value, left)
}

/// Returns what is left of `room` behind the document with the canonical names at every depth; in
/// an array these are "0", "1" and so on.
#[cycle(measure)]
pub(crate) fn room_after_document(
    document: RawDocument<'_>,
    in_array: bool,
    room: usize,
) -> Option<usize>
    ensures { (t : Tree) → Spells t (document_bytes document.entry)
        → IsRoomLeft room (length (spelling.document (elements (plain_from in_array 0 t)))) result }
{
    let mut left = room_after(5, room)?;
    let mut index = 0;
    for (name, value) in document.iter() {
        left = room_after_pair(name, in_array, index, value, left)?;
        index += 1;
    }
    Some(left)
}
