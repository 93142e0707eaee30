//! Writing owned documents to bytes.

ghost use Rattle.std.specs.Prelude.{◌≡◌, ◌≤◌, ◌++◌, IfErr, IfNone, IfOk, OnOk, OnSome};
ghost use Rattle.std.specs.Prelude.{None, length};
ghost use Rattle.std.specs.Io.{StartsWith};
ghost use Rattle.bson_elem.specs.{Spells, elements, inner_bytes, with_code};
ghost use Rattle.bson_elem.specs.Spelling as spelling;
ghost use Rattle.bson_doc.specs.Array.{array_tree};
ghost use Rattle.bson_doc.specs.Bson.{value_of};
ghost use Rattle.bson_doc.specs.Document.{tree_of};
ghost use Rattle.bson_doc.specs.Formed.{IsFormed, IsFormedValue};
ghost use Rattle.bson_doc.specs.Plain.{plain};
ghost use Rattle.bson_doc.specs.RawDocumentBuf.{buf_bytes};
ghost use Rattle.bson_doc.specs.Repeats.{repeat_depth};
ghost use Rattle.bson_doc.specs.Unwritable.{IsUnwritable};
ghost use Rattle.bson_doc.specs.Values.{value_bytes};

use crate::arrays::Array;
use crate::bson_values::Bson;
use crate::buf::RawDocumentBuf;
use crate::bytes::{begin, finish, put_len, write_string};
use crate::documents::Document;
use crate::leaf::write_leaf;
use crate::lent::Lent;
use crate::name::write_head;
use crate::refusal::DocRefusal;
use crate::room::{refusal_of, room_after_document};
use crate::unwritable::check_document;
use bson_elem::MAX_LEN;

/// Appends a value.
#[cycle(write)]
pub(crate) fn write_value(value: &Bson, out: &mut Vec<u8>) -> Option<()>
    ensures added { OnSome result
        (out.new.items ≡ out.old.items ++ value_bytes (value_of value.now)) }
    ensures formed { OnSome result (IsFormedValue (value_of value.now)) }
    ensures kept { IfNone result (StartsWith out.new.items out.old.items) }
{
    match value.lend() {
        Lent::Document(document) => write_document(document, out),
        Lent::Array(array) => write_array(array, out),
        Lent::CodeWithScope { code, scope } => write_scope(code, scope, out),
        Lent::Leaf(leaf) => write_leaf(leaf, out),
    }
}

/// Appends a code and its scope.
#[cycle(write)]
fn write_scope(code: &str, scope: &Document, out: &mut Vec<u8>) -> Option<()>
    ensures added { OnSome result
        (out.new.items
        ≡ out.old.items ++ inner_bytes (with_code code.now) (elements (tree_of scope.now))) }
    ensures formed { OnSome result (IsFormed (tree_of scope.now)) }
    ensures kept { IfNone result (StartsWith out.new.items out.old.items) }
{
    let start = out.len();
    begin(out)?;
    write_string(code, out)?;
    write_document(scope, out)?;
    put_len(start, MAX_LEN, out)
}

/// Appends an array.
#[cycle(write)]
fn write_array(array: &Array, out: &mut Vec<u8>) -> Option<()>
    ensures added { OnSome result
        (out.new.items ≡ out.old.items ++ spelling.document (elements (array_tree 0 array.now))) }
    ensures formed { OnSome result (IsFormed (array_tree 0 array.now)) }
    ensures kept { IfNone result (StartsWith out.new.items out.old.items) }
{
    let start = out.len();
    begin(out)?;
    for (index, value) in array.as_slice().iter().enumerate() {
        write_head(value.kind(), "", true, index, out)?;
        write_value(value, out)?;
    }
    finish(start, MAX_LEN, out)
}

/// Appends a document.
#[cycle(write)]
pub(crate) fn write_document(document: &Document, out: &mut Vec<u8>) -> Option<()>
    ensures added { OnSome result
        (out.new.items ≡ out.old.items ++ spelling.document (elements (tree_of document.now))) }
    ensures within { OnSome result
        (length (spelling.document (elements (tree_of document.now))) ≤ MAX_LEN) }
    ensures formed { OnSome result (IsFormed (tree_of document.now)) }
    ensures kept { IfNone result (StartsWith out.new.items out.old.items) }
{
    let start = out.len();
    begin(out)?;
    for (name, value) in document.iter() {
        write_head(value.kind(), name, false, 0, out)?;
        write_value(value, out)?;
    }
    finish(start, MAX_LEN, out)
}

impl Document {
    /// Returns the document in bytes of its own.
    ///
    /// # Errors
    ///
    /// Returns `ZeroInName` for a 00 in a name, a pattern or options, and `Depth` for a container
    /// deeper than 200: the first of them in the order of the pairs. Else returns `TooLarge` for
    /// more than 2,147,483,647 bytes, and else `OutOfMemory` if memory is refused.
    pub fn to_raw(&self) -> Result<RawDocumentBuf, DocRefusal>
        ensures written { IfOk result (λ d. Spells (tree_of self.now) (buf_bytes d)) }
        ensures canonical { OnOk result (plain (tree_of self.now) ≡ tree_of self.now) }
        ensures unique { OnOk result (repeat_depth (tree_of self.now) ≡ None) }
        ensures refused { IfErr result (λ e. IsUnwritable (tree_of self.now) e) }
    {
        check_document(self, 1)?;
        let mut out = Vec::new(self.allocator());
        match write_document(self, &mut out) {
            Some(()) => Ok(RawDocumentBuf::from_spelled(out)),
            None => Err(refusal_of(room_after_document(self, MAX_LEN))),
        }
    }
}
