//! Reading documents out of their bytes.

ghost use Rattle.std.specs.Prelude.{◌≡◌, ◌+◌, ◌<◌, ◌^◌, [], None, false, true, length, ℕ, List};
ghost use Rattle.std.specs.Prelude.{map, string_bytes};
ghost use Rattle.std.specs.Prelude.{IfOk, IfErr, MatchResult, OnOk};
ghost use Rattle.bson_elem.specs.{Spells, Tree, regex_value, with_code};
ghost use Rattle.bson_elem.specs.declared.kinds.Kind.TheVariants as kinds;
ghost use Rattle.bson_raw.specs.{Shows, TreeValue, array_bytes, document_bytes, document_value};
ghost use Rattle.bson_raw.specs.{held_len, leaf_value};
ghost use Rattle.bson_doc.specs.declared.refusal.DocRefusal.TheVariants.{OutOfMemory};
ghost use Rattle.bson_doc.specs.Array.{array_tree};
ghost use Rattle.bson_doc.specs.Bson.{value_of};
ghost use Rattle.bson_doc.specs.Document.{paired, tree_of};
ghost use Rattle.bson_doc.specs.Leaves.{IsLeaf};
ghost use Rattle.bson_doc.specs.Plain.{plain, plain_from};
ghost use Rattle.bson_doc.specs.Repeats.{repeat_depth, repeat_in, repeat_in_value, IsRepeat};
ghost use Rattle.bson_doc.specs.Values.{plain_value};

use crate::arrays::Array;
use crate::bson_values::Bson;
use crate::documents::Document;
use crate::name_list::NameList;
use crate::refusal::DocRefusal;
use bson_raw::{RawArray, RawBson, RawDocument};
use std::alloc::{AllocError, Global};

/// Returns the owned pattern and options.
fn read_regex(alloc: Global, pattern: &str, options: &str) -> Result<Bson, AllocError>
    ensures { IfOk result (λ b.
        value_of b ≡ leaf_value kinds.Regex (regex_value pattern.now options.now)) }
{
    let pattern = String::from_str(alloc, pattern)?;
    let options = String::from_str(alloc, options)?;
    Ok(Bson::Regex { pattern, options })
}

/// Returns the owned value of one that holds no document.
fn read_leaf(alloc: Global, leaf: RawBson<'_>) -> Result<Bson, AllocError>
    requires { IsLeaf leaf }
    ensures { (v : TreeValue) → Shows leaf.entry v → IfOk result (λ b. value_of b ≡ v) }
{
    match leaf {
        RawBson::Double(bytes) => Ok(Bson::Double(bytes)),
        RawBson::String(text) => Ok(Bson::String(String::from_str(alloc, text)?)),
        RawBson::Binary { subtype, bytes } => Ok(Bson::Binary {
            subtype,
            bytes: Vec::from_slice(alloc, bytes)?,
        }),
        RawBson::Undefined => Ok(Bson::Undefined),
        RawBson::ObjectId(bytes) => Ok(Bson::ObjectId(bytes)),
        RawBson::Boolean(truth) => Ok(Bson::Boolean(truth)),
        RawBson::DateTime(millis) => Ok(Bson::DateTime(millis)),
        RawBson::Null => Ok(Bson::Null),
        RawBson::Regex { pattern, options } => read_regex(alloc, pattern, options),
        RawBson::DbPointer { namespace, id } => Ok(Bson::DbPointer {
            namespace: String::from_str(alloc, namespace)?,
            id,
        }),
        RawBson::Code(text) => Ok(Bson::Code(String::from_str(alloc, text)?)),
        RawBson::Symbol(text) => Ok(Bson::Symbol(String::from_str(alloc, text)?)),
        RawBson::Int32(n) => Ok(Bson::Int32(n)),
        RawBson::Timestamp { increment, seconds } => Ok(Bson::Timestamp { increment, seconds }),
        RawBson::Int64(n) => Ok(Bson::Int64(n)),
        RawBson::Decimal128(bytes) => Ok(Bson::Decimal128(bytes)),
        RawBson::MinKey => Ok(Bson::MinKey),
        RawBson::MaxKey => Ok(Bson::MaxKey),
        RawBson::Document(_) | RawBson::Array(_) | RawBson::CodeWithScope { .. } => unreachable!(),
    }
}

/// Returns the owned value of one that stands in a container of depth `depth`.
#[cycle(read)]
fn read_value(alloc: Global, value: RawBson<'_>, depth: u32) -> Result<Bson, DocRefusal>
    requires { depth + 1 + held_len value < 2 ^ 32 }
    ensures read { (v : TreeValue) → Shows value.entry v
        → IfOk result (λ b. value_of b ≡ plain_value v) }
    ensures unique { (v : TreeValue) → Shows value.entry v
        → OnOk result (repeat_in_value depth v ≡ None) }
    ensures refused { (v : TreeValue) → Shows value.entry v
        → IfErr result (λ e. IsRepeat (repeat_in_value depth v) e) }
{
    match value {
        RawBson::Document(document) => {
            Ok(Bson::Document(read_document(alloc, document, depth + 1)?))
        }
        RawBson::Array(array) => Ok(Bson::Array(read_array(alloc, array, depth + 1)?)),
        RawBson::CodeWithScope { code, scope } => read_scope(alloc, code, scope, depth + 1),
        leaf => Ok(read_leaf(alloc, leaf)?),
    }
}

/// Returns the owned code and its owned scope, which has depth `depth`.
#[cycle(read)]
fn read_scope(
    alloc: Global,
    code: &str,
    scope: RawDocument<'_>,
    depth: u32,
) -> Result<Bson, DocRefusal>
    requires { depth + length (document_bytes scope) < 2 ^ 32 }
    ensures read { (t : Tree) → Spells t (document_bytes scope.entry) → IfOk result (λ b.
        value_of b ≡ document_value kinds.CodeWithScope (with_code code.now) (plain t)) }
    ensures unique { (t : Tree) → Spells t (document_bytes scope.entry)
        → OnOk result (repeat_in false depth [] t ≡ None) }
    ensures refused { (t : Tree) → Spells t (document_bytes scope.entry)
        → IfErr result (λ e. IsRepeat (repeat_in false depth [] t) e) }
{
    let code = String::from_str(alloc, code)?;
    let scope = read_document(alloc, scope, depth)?;
    Ok(Bson::CodeWithScope { code, scope })
}

/// Returns the owned array of one of depth `depth`. Its names are not kept.
#[cycle(read)]
fn read_array(alloc: Global, array: RawArray<'_>, depth: u32) -> Result<Array, DocRefusal>
    requires { depth + length (array_bytes array) < 2 ^ 32 }
    ensures read { (t : Tree) → Spells t (array_bytes array.entry)
        → IfOk result (λ a. array_tree 0 a ≡ plain_from true 0 t) }
    ensures unique { (t : Tree) → Spells t (array_bytes array.entry)
        → OnOk result (repeat_in true depth [] t ≡ None) }
    ensures refused { (t : Tree) → Spells t (array_bytes array.entry)
        → IfErr result (λ e. IsRepeat (repeat_in true depth [] t) e) }
{
    let mut values = Vec::new(alloc);
    read_values(alloc, array, depth, &mut values)?;
    Ok(Array::from_vec(values))
}

/// Appends the owned values of an array of depth `depth` to no values.
#[cycle(read)]
fn read_values(
    alloc: Global,
    array: RawArray<'_>,
    depth: u32,
    values: &mut Vec<Bson>,
) -> Result<(), DocRefusal>
    requires small { depth + length (array_bytes array) < 2 ^ 32 }
    requires none { values.old.items ≡ [] }
    ensures read { (t : Tree) → Spells t (array_bytes array.entry)
        → OnOk result (array_tree 0 (map value_of values.new.items) ≡ plain_from true 0 t) }
    ensures unique { (t : Tree) → Spells t (array_bytes array.entry)
        → OnOk result (repeat_in true depth [] t ≡ None) }
    ensures refused { (t : Tree) → Spells t (array_bytes array.entry)
        → IfErr result (λ e. IsRepeat (repeat_in true depth [] t) e) }
{
    for value in array.iter() {
        values.push(read_value(alloc, value, depth)?)?;
    }
    Ok(())
}

/// Returns the owned document of one of depth `depth`.
#[cycle(read)]
fn read_document(
    alloc: Global,
    document: RawDocument<'_>,
    depth: u32,
) -> Result<Document, DocRefusal>
    requires { depth + length (document_bytes document) < 2 ^ 32 }
    ensures read { (t : Tree) → Spells t (document_bytes document.entry)
        → IfOk result (λ d. tree_of d ≡ plain t) }
    ensures unique { (t : Tree) → Spells t (document_bytes document.entry)
        → OnOk result (repeat_in false depth [] t ≡ None) }
    ensures refused { (t : Tree) → Spells t (document_bytes document.entry)
        → IfErr result (λ e. IsRepeat (repeat_in false depth [] t) e) }
{
    let mut names = NameList::new(alloc);
    let mut values = Vec::new(alloc);
    read_pairs(alloc, document, depth, &mut names, &mut values)?;
    Ok(Document::of_parts(names, values))
}

/// Appends the names and the owned values of a document of depth `depth` to no names and no values.
/// A name is looked up before it is copied, so that no memory is asked for one that is there.
#[cycle(read)]
fn read_pairs(
    alloc: Global,
    document: RawDocument<'_>,
    depth: u32,
    names: &mut NameList,
    values: &mut Vec<Bson>,
) -> Result<(), DocRefusal>
    requires small { depth + length (document_bytes document) < 2 ^ 32 }
    requires unnamed { names.old ≡ [] }
    requires none { values.old.items ≡ [] }
    ensures as_many { OnOk result (length names.new ≡ length values.new.items) }
    ensures read { (t : Tree) → Spells t (document_bytes document.entry)
        → OnOk result
        (tree_of (paired (map string_bytes names.new) (map value_of values.new.items)) ≡ plain t) }
    ensures unique { (t : Tree) → Spells t (document_bytes document.entry)
        → OnOk result (repeat_in false depth [] t ≡ None) }
    ensures refused { (t : Tree) → Spells t (document_bytes document.entry)
        → IfErr result (λ e. IsRepeat (repeat_in false depth [] t) e) }
{
    for (name, value) in document.iter() {
        if names.contains(name) {
            return Err(DocRefusal::RepeatedName { depth });
        }
        names.append(String::from_str(alloc, name)?)?;
        values.push(read_value(alloc, value, depth)?)?;
    }
    Ok(())
}

impl Document {
    /// Returns the document that the bytes spell, with the pairs in their order. The names in an
    /// array are not kept.
    ///
    /// # Errors
    ///
    /// Returns `RepeatedName` if a document or a scope has a name twice, with the depth of that
    /// container; of several repeated names, the first in the bytes. Returns `OutOfMemory` if
    /// memory is refused.
    pub fn from_raw(alloc: Global, raw: RawDocument<'_>) -> Result<Document, DocRefusal>
        ensures read { (t : Tree) → Spells t (document_bytes raw.entry)
            → IfOk result (λ d. tree_of d ≡ plain t) }
        ensures unique { (t : Tree) → Spells t (document_bytes raw.entry)
            → OnOk result (repeat_depth t ≡ None) }
        ensures refused { (t : Tree) → Spells t (document_bytes raw.entry)
            → IfErr result (λ e. IsRepeat (repeat_depth t) e) }
        ensures back { (pairs : List (List ℕ × TreeValue))
            → Spells (tree_of pairs) (document_bytes raw.entry)
            → plain (tree_of pairs) ≡ tree_of pairs → repeat_depth (tree_of pairs) ≡ None
            → MatchResult result (λ d. d ≡ pairs) (λ e. e ≡ OutOfMemory) }
    {
        let _bytes = raw.as_bytes();
        read_document(alloc, raw, 1)
    }
}
