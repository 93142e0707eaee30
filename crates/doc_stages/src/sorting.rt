//! Sorts documents by the keys of a command.

ghost use Rattle.std.specs.Prelude.{◌≡◌, Err, IfErr, IfOk, MatchOption, None, Ok, OnErr, OnOk};
ghost use Rattle.std.specs.Prelude.{Option, map, option_map};
ghost use Rattle.bson_elem.specs.{Spells, Tree};
ghost use Rattle.bson_raw.specs.{ShowsFound, TreeValue, document_bytes};
ghost use Rattle.bson_doc.specs.{tree_of, value_of};
ghost use Rattle.doc_query.specs.{IsFailure};
ghost use Rattle.doc_stages.specs.Sorting.{all_ordered, are_keys, are_ordered, field_in};
ghost use Rattle.doc_stages.specs.Sorting.{is_down, is_key, is_ordered, is_up};
ghost use Rattle.doc_stages.specs.Sorting.{key_order, keys_in, keys_of, keys_order, read_keys};
ghost use Rattle.doc_stages.specs.Sorting.{sort_field, sorted, sorted_in};

use bson_doc::{Bson, DocRefusal, Document};
use bson_raw::{RawBson, RawDocument};
use doc_query::{
    CommandError, Failure, field_order, has_place, is_number, is_operator, single_from,
};
use std::alloc::{AllocError, Global};
use std::cmp::Ordering;

/// Returns true if a direction is up: if it is the number 1.
fn is_up(direction: &Bson) -> bool
    ensures { result ≡ is_up (value_of direction.now) }
{
    is_number(direction, 1)
}

/// Returns true if a direction is down: if it is the number -1.
fn is_down(direction: &Bson) -> bool
    ensures { result ≡ is_down (value_of direction.now) }
{
    is_number(direction, -1)
}

/// Returns true if a field of a sort is a key with its direction.
fn is_key(name: &str, direction: &Bson) -> bool
    ensures { result ≡ is_key name.now (value_of direction.now) }
{
    !is_operator(name) && (is_up(direction) || is_down(direction))
}

/// Returns true if all fields of a sort are keys.
pub fn are_keys(keys: &Document) -> bool
    ensures { result ≡ are_keys (tree_of keys.now) }
{
    for (name, direction) in keys {
        if !is_key(name, direction) {
            return false;
        }
    }
    true
}

/// Reads keys out of their bytes.
fn read_keys(alloc: Global, keys: RawDocument<'_>) -> Result<Document, Failure>
    ensures ok { (t : Tree) → Spells t (document_bytes keys.entry)
        → IfOk result (λ d. read_keys t ≡ Ok (tree_of d)) }
    ensures refused { (t : Tree) → Spells t (document_bytes keys.entry)
        → IfErr result (λ e. IsFailure (read_keys t) e) }
{
    let keys = match Document::from_raw(alloc, keys) {
        Ok(keys) => keys,
        Err(DocRefusal::OutOfMemory) => return Err(Failure::OutOfMemory),
        Err(_) => return Err(Failure::Refused(CommandError::Sort)),
    };
    if are_keys(&keys) {
        Ok(keys)
    } else {
        Err(Failure::Refused(CommandError::Direction))
    }
}

/// Reads the keys out of a value.
fn keys_of(alloc: Global, value: Option<RawBson<'_>>) -> Result<Document, Failure>
    ensures ok { (found : Option TreeValue)
        → MatchOption value.entry (found ≡ None) (λ v. ShowsFound v found)
        → IfOk result (λ d. keys_of found ≡ Ok (tree_of d)) }
    ensures refused { (found : Option TreeValue)
        → MatchOption value.entry (found ≡ None) (λ v. ShowsFound v found)
        → IfErr result (λ e. IsFailure (keys_of found) e) }
{
    let Some(value) = value else {
        return Ok(Document::new(alloc));
    };
    match value {
        RawBson::Document(keys) => read_keys(alloc, keys),
        _ => Err(Failure::Refused(CommandError::Sort)),
    }
}

/// Reads the keys that a command sorts by, in its field `sort`. If there is no such field, there
/// are none.
///
/// # Errors
///
/// Returns `Sort` if it isn't a document or a name is repeated in it, and otherwise `Direction` if
/// a field of it isn't a key with a direction. Returns `OutOfMemory` if memory runs out.
pub fn sort_field(alloc: Global, body: RawDocument<'_>) -> Result<Document, Failure>
    ensures ok { (t : Tree) → Spells t (document_bytes body.entry)
        → IfOk result (λ d. sort_field t ≡ Ok (tree_of d)) }
    ensures refused { (t : Tree) → Spells t (document_bytes body.entry)
        → IfErr result (λ e. IsFailure (sort_field t) e) }
{
    keys_of(alloc, body.get("sort"))
}

/// Returns the value that a document is sorted by, if it has one. An array on the way to it stands
/// for it.
fn field_in<'a>(value: &'a Bson, path: &str) -> Option<&'a Bson>
    ensures { option_map (λ v. value_of v.now) result ≡ field_in path.now (value_of value.now) }
{
    single_from(Some(path), Some(value))
}

/// Compares two documents by one key.
fn key_order(name: &str, direction: &Bson, a: &Bson, b: &Bson) -> Ordering
    ensures { result
        ≡ key_order name.now (value_of direction.now) (value_of a.now) (value_of b.now) }
{
    let first = field_in(a, name);
    let second = field_in(b, name);
    if is_down(direction) {
        field_order(second, first)
    } else {
        field_order(first, second)
    }
}

/// Compares two documents by the first key by which they differ.
fn keys_order(keys: &Document, a: &Bson, b: &Bson) -> Ordering
    ensures { result ≡ keys_order (tree_of keys.now) (value_of a.now) (value_of b.now) }
{
    for (name, direction) in keys {
        match key_order(name, direction, a, b) {
            Ordering::Equal => {}
            order => return order,
        }
    }
    Ordering::Equal
}

/// Returns true if the value of a field has a place in the order of values.
fn is_ordered(own: Option<&Bson>) -> bool
    ensures { result ≡ is_ordered (option_map (λ v. value_of v.now) own.entry) }
{
    match own {
        Some(own) => has_place(own),
        None => true,
    }
}

/// Returns true if all values of a document by which it is sorted have a place.
fn are_ordered(keys: &Document, value: &Bson) -> bool
    ensures { result ≡ are_ordered (tree_of keys.now) (value_of value.now) }
{
    for (name, _) in keys {
        if !is_ordered(field_in(value, name)) {
            return false;
        }
    }
    true
}

/// Returns true if all values by which these documents are sorted have a place.
fn all_ordered(keys: &Document, documents: &[Bson]) -> bool
    ensures { result ≡ all_ordered (tree_of keys.now) (map value_of documents.now) }
{
    for document in documents {
        if !are_ordered(keys, document) {
            return false;
        }
    }
    true
}

/// Sorts documents. Those that are equal by all keys stay in their order.
fn sort(keys: &Document, documents: &mut Vec<Bson>) -> Result<(), AllocError>
    ensures sorted { OnOk result (map value_of documents.new.items
        ≡ sorted (keys_order (tree_of keys.now)) (map value_of documents.old.items)) }
    ensures unchanged { OnErr result (documents.new.items ≡ documents.old.items) }
{
    documents.sort_by(|a, b| keys_order(keys, a, b))?;
    Ok(())
}

/// Sorts documents by the keys of a command.
///
/// # Errors
///
/// Returns `Unsorted` if a document has a value that isn't compared in a field by which they are
/// sorted, and `OutOfMemory` if memory runs out. Then the documents are unchanged.
pub fn sort_in(keys: &Document, documents: &mut Vec<Bson>) -> Result<(), Failure>
    ensures ok { OnOk result (sorted_in (tree_of keys.now) (map value_of documents.old.items)
        ≡ Ok (map value_of documents.new.items)) }
    ensures refused { IfErr result (λ e. IsFailure
        (sorted_in (tree_of keys.now) (map value_of documents.old.items)) e) }
    ensures unchanged { OnErr result (documents.new.items ≡ documents.old.items) }
{
    if !all_ordered(keys, documents.as_slice()) {
        return Err(Failure::Refused(CommandError::Unsorted));
    }
    Ok(sort(keys, documents)?)
}
