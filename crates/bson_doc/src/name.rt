//! What stands before the value of a pair: its type byte, and its name, which in an array is "0",
//! "1" and so on.

ghost use Rattle.std.specs.Prelude.{◌≡◌, ◌++◌, ◌∷◌, IfNone, IsUtf8, OnSome};
ghost use Rattle.std.specs.Io.{StartsWith};
ghost use Rattle.bson_elem.specs.{byte_of, cstring};
ghost use Rattle.bson_raw.specs.{name_at};

use crate::bytes::write_cstring;
use bson_elem::Kind;
use itoa::Buffer;

/// Appends the canonical name of the pair at `index` of a container, whose name is `name`: in an
/// array its index.
fn write_name(name: &str, in_array: bool, index: usize, out: &mut Vec<u8>) -> Option<()>
    ensures added { OnSome result
        (out.new.items ≡ out.old.items ++ cstring (name_at in_array index name.now)) }
    ensures kept { IfNone result (StartsWith out.new.items out.old.items) }
{
    if !in_array {
        return write_cstring(name, out);
    }
    let mut digits = Buffer::new();
    write_cstring(digits.format(index), out)
}

/// Appends the type byte of the pair at `index` of a container, and its name, which in an array is
/// its index.
pub(crate) fn write_head(
    kind: Kind,
    name: &str,
    in_array: bool,
    index: usize,
    out: &mut Vec<u8>,
) -> Option<()>
    ensures added { OnSome
        result
        (out.new.items
        ≡ out.old.items ++ (byte_of kind ∷ cstring (name_at in_array index name.now))) }
    ensures text { OnSome result (IsUtf8 (name_at in_array index name.now)) }
    ensures kept { IfNone result (StartsWith out.new.items out.old.items) }
{
    out.push(kind.byte()).ok()?;
    write_name(name, in_array, index, out)
}
