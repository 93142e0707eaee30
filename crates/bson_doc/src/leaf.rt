//! Values that hold no document: their bytes, and how much room a limit leaves behind these.

ghost use Rattle.std.specs.Prelude.{◌≡◌, ◌++◌, length, IfNone, OnSome};
ghost use Rattle.std.specs.Io.{StartsWith};
ghost use Rattle.bson_elem.specs.{binary};
ghost use Rattle.bson_raw.specs.{Shows, TreeValue};
ghost use Rattle.bson_doc.specs.Leaves.{IsLeaf};
ghost use Rattle.bson_doc.specs.Room.{IsRoomLeft};
ghost use Rattle.bson_doc.specs.Values.{value_bytes};

use crate::bytes::{
    write_binary, write_bytes, write_dbpointer, write_int32, write_int64, write_regex,
    write_string, write_timestamp,
};
use crate::room::room_after;
use bson_raw::RawBson;

/// Returns what is left of `room` behind the bytes of a binary.
fn room_after_binary(subtype: u8, bytes: &[u8], room: usize) -> Option<usize>
    ensures { IsRoomLeft room (length (binary subtype bytes.now)) result }
{
    if subtype == 2 {
        return room_after(bytes.len() + 9, room);
    }
    room_after(bytes.len() + 5, room)
}

/// Returns what is left of `room` behind a value that holds no document.
pub(crate) fn room_after_leaf(leaf: RawBson<'_>, room: usize) -> Option<usize>
    requires { IsLeaf leaf }
    ensures { (v : TreeValue) → Shows leaf.entry v
        → IsRoomLeft room (length (value_bytes v)) result }
{
    match leaf {
        RawBson::Undefined | RawBson::Null | RawBson::MinKey | RawBson::MaxKey => Some(room),
        RawBson::Boolean(_) => room_after(1, room),
        RawBson::Int32(_) => room_after(4, room),
        RawBson::Int64(_) | RawBson::DateTime(_) => room_after(8, room),
        RawBson::Timestamp { .. } => room_after(8, room),
        RawBson::Double(bytes) => room_after(bytes.len(), room),
        RawBson::ObjectId(bytes) => room_after(bytes.len(), room),
        RawBson::Decimal128(bytes) => room_after(bytes.len(), room),
        RawBson::String(text) | RawBson::Code(text) | RawBson::Symbol(text) => {
            room_after(text.len() + 5, room)
        }
        RawBson::Binary { subtype, bytes } => room_after_binary(subtype, bytes, room),
        RawBson::Regex { pattern, options } => {
            let left = room_after(pattern.len() + 1, room)?;
            room_after(options.len() + 1, left)
        }
        RawBson::DbPointer { namespace, id } => room_after(namespace.len() + 5 + id.len(), room),
        RawBson::Document(_) | RawBson::Array(_) | RawBson::CodeWithScope { .. } => unreachable!(),
    }
}

/// Appends a value that holds no document.
pub(crate) fn write_leaf(leaf: RawBson<'_>, out: &mut Vec<u8>) -> Option<()>
    requires { IsLeaf leaf }
    ensures added { (v : TreeValue) → Shows leaf.entry v
        → OnSome result (out.new.items ≡ out.old.items ++ value_bytes v) }
    ensures kept { IfNone result (StartsWith out.new.items out.old.items) }
{
    match leaf {
        RawBson::Undefined | RawBson::Null | RawBson::MinKey | RawBson::MaxKey => Some(()),
        RawBson::Boolean(truth) => write_bytes(&[truth as u8], out),
        RawBson::Int32(n) => write_int32(n, out),
        RawBson::Int64(n) | RawBson::DateTime(n) => write_int64(n, out),
        RawBson::Timestamp { increment, seconds } => write_timestamp(increment, seconds, out),
        RawBson::Double(bytes) => write_bytes(&bytes, out),
        RawBson::ObjectId(bytes) => write_bytes(&bytes, out),
        RawBson::Decimal128(bytes) => write_bytes(&bytes, out),
        RawBson::String(text) | RawBson::Code(text) | RawBson::Symbol(text) => {
            write_string(text, out)
        }
        RawBson::Binary { subtype, bytes } => write_binary(subtype, bytes, out),
        RawBson::Regex { pattern, options } => write_regex(pattern, options, out),
        RawBson::DbPointer { namespace, id } => write_dbpointer(namespace, &id, out),
        RawBson::Document(_) | RawBson::Array(_) | RawBson::CodeWithScope { .. } => unreachable!(),
    }
}
