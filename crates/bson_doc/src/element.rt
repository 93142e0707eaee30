//! Appending the canonical form of a borrowed document to bytes.

ghost use Rattle.std.specs.Prelude.{◌≡◌, ◌≤◌, ◌++◌, length, OnSome, false};
ghost use Rattle.bson_elem.specs.{Spells, Tree, elements, inner_bytes, with_code};
ghost use Rattle.bson_elem.specs.Spelling as spelling;
ghost use Rattle.bson_raw.specs.{Shows, TreeValue, document_bytes, held_len, name_at};
ghost use Rattle.bson_doc.specs.Plain.{plain_from};
ghost use Rattle.bson_doc.specs.Values.{plain_value, value_bytes, element_bytes};

use crate::bytes::{begin, finish, put_len, write_string};
use crate::leaf::write_leaf;
use crate::name::write_head;
use bson_elem::MAX_LEN;
use bson_raw::{RawBson, RawDocument};

/// Appends a value, with canonical names in what it holds. Returns `None` if a container in it
/// has more than `limit` bytes.
#[cycle(write)]
fn write_value(value: RawBson<'_>, limit: usize, out: &mut Vec<u8>) -> Option<()>
    requires { limit ≤ MAX_LEN }
    ensures added { (v : TreeValue) → Shows value.entry v
        → OnSome result (out.new.items ≡ out.old.items ++ value_bytes (plain_value v)) }
{
    match value {
        RawBson::Document(document) => write_document(document, false, limit, out),
        RawBson::Array(array) => write_document(array.as_document(), true, limit, out),
        RawBson::CodeWithScope { code, scope } => write_scope(code, scope, limit, out),
        leaf => write_leaf(leaf, out),
    }
}

/// Appends a code and its scope, with canonical names in the scope. Returns `None` if they have
/// more than `limit` bytes.
#[cycle(write)]
fn write_scope(code: &str, scope: RawDocument<'_>, limit: usize, out: &mut Vec<u8>) -> Option<()>
    requires { limit ≤ MAX_LEN }
    ensures added { (t : Tree) → Spells t (document_bytes scope.entry)
        → OnSome
        result
        (out.new.items
        ≡ out.old.items
        ++ inner_bytes (with_code code.now) (elements (plain_from false 0 t))) }
{
    let start = out.len();
    begin(out)?;
    write_string(code, out)?;
    write_document(scope, false, limit, out)?;
    put_len(start, limit, out)
}

/// Appends the pair at `index` of a container, with canonical names. Returns `None` if a
/// container in it has more than `limit` bytes.
#[cycle(write)]
fn write_element(
    name: &str,
    value: RawBson<'_>,
    in_array: bool,
    index: usize,
    limit: usize,
    out: &mut Vec<u8>,
) -> Option<()>
    requires { limit ≤ MAX_LEN }
    ensures added { (v : TreeValue) → Shows value.entry v
        → OnSome result
        (out.new.items
        ≡ out.old.items ++ element_bytes (name_at in_array index name.now) (plain_value v)) }
{
    write_head(value.kind(), name, in_array, index, out)?;
    write_value(value, limit, out)
}

/// Appends the document with canonical names at every depth; in an array these are "0", "1" and so
/// on. Returns `None` if it has more than `limit` bytes.
#[cycle(write)]
pub(crate) fn write_document(
    document: RawDocument<'_>,
    in_array: bool,
    limit: usize,
    out: &mut Vec<u8>,
) -> Option<()>
    requires { limit ≤ MAX_LEN }
    ensures added { (t : Tree) → Spells t (document_bytes document.entry)
        → OnSome
        result
        (out.new.items
        ≡ out.old.items ++ spelling.document (elements (plain_from in_array 0 t))) }
    ensures within { (t : Tree) → Spells t (document_bytes document.entry)
        → OnSome result (length (spelling.document (elements (plain_from in_array 0 t))) ≤ limit) }
{
    let start = out.len();
    begin(out)?;
    let mut index = 0;
    for (name, value) in document.iter() {
        write_element(name, value, in_array, index, limit, out)?;
        index += 1;
    }
    finish(start, limit, out)
}
