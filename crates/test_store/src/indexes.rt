//! The indexes of a collection. They are listed, and change no answer.

ghost use Rattle.std.specs.Prelude.{◌≡◌, ◌++◌, ◌∷◌, [], IfErr, IfOk, MatchOption, None, Ok, OnOk};
ghost use Rattle.std.specs.Prelude.{Some, if◌then◌else◌, map, not};
ghost use Rattle.std.specs.List.{list_any};
ghost use Rattle.bson_doc.specs.{tree_of, value_of};
ghost use Rattle.doc_query.specs.{IsFailure, inner};
ghost use Rattle.test_store.specs.Indexes.{has_index_fields, has_key, has_name};
ghost use Rattle.test_store.specs.Indexes.{id_index, index_in, index_listing, index_view, is_index};
ghost use Rattle.test_store.specs.Indexes.{is_index_field, is_key_document, may_have};
ghost use Rattle.test_store.specs.Indexes.{with_asked, with_index};
ghost use Rattle.test_store.specs.Indexes.{with_indexes};
ghost use Rattle.test_store.specs.Options.{asks};

use crate::values::{push, set_copy};
use bson_doc::{Bson, Document};
use command_parts::set_text;
use doc_query::{CommandError, Failure, field, is_equal, set};
use doc_stages::are_keys;
use std::alloc::{AllocError, Global};

/// An index of a collection.
#[derive(Debug, Drop)]
pub struct Index {
    /// Its name.
    pub name: String,
    /// The document of the fields that it is by, each with its direction.
    pub key: Bson,
}

/// Makes the key of the index on `_id`.
fn id_key(alloc: Global) -> Result<Bson, AllocError>
    ensures { IfOk result (λ key. value_of key ≡ id_index.key) }
{
    let mut key = Document::new(alloc);
    set(alloc, &mut key, "_id", Bson::Int32(1)).and(Ok(Bson::Document(key)))
}

/// Makes an index with copies of this name and of this key.
fn index_with(alloc: Global, name: &str, key: &Bson) -> Result<Index, AllocError>
    ensures { IfOk result
        (λ i. index_view i ≡ record { name = name.now; key = value_of key.now }) }
{
    let name = String::from_str(alloc, name)?;
    match key.try_clone() {
        Ok(key) => Ok(Index { name, key }),
        Err(refused) => {
            drop(name);
            Err(refused)
        }
    }
}

/// Appends the index with this name and this key.
fn push_index(
    alloc: Global,
    indexes: &mut Vec<Index>,
    name: &str,
    key: &Bson,
) -> Result<(), AllocError>
    ensures { OnOk result (map index_view indexes.new.items ≡ map index_view indexes.old.items
        ++ record { name = name.now; key = value_of key.now } ∷ []) }
{
    let index = index_with(alloc, name, key)?;
    indexes.push(index)?;
    Ok(())
}

/// Makes the indexes of a new collection, which has the one on `_id`.
///
/// # Errors
///
/// Returns `AllocError` if memory runs out.
pub fn first_indexes(alloc: Global) -> Result<Vec<Index>, AllocError>
    ensures { IfOk result (λ is. map index_view is.items ≡ id_index ∷ []) }
{
    let key = id_key(alloc)?;
    let mut indexes = Vec::new(alloc);
    let pushed = push_index(alloc, &mut indexes, "_id_", &key);
    drop(key);
    pushed.and(Ok(indexes))
}

/// Returns true if this is a field of an index that can be made.
fn is_index_field(name: &str) -> bool
    ensures { result ≡ is_index_field name.now }
{
    matches!(name, "key" | "name" | "v" | "ns" | "background")
}

/// Returns true if a value is false.
fn is_off(value: &Bson) -> bool
    ensures { result ≡ not (asks (value_of value.now)) }
{
    match value {
        Bson::Boolean(truth) => !truth,
        _ => false,
    }
}

/// Returns true if an index that can be made may have this field.
fn may_have(name: &str, value: &Bson) -> bool
    ensures { result ≡ may_have name.now (value_of value.now) }
{
    is_index_field(name) || is_off(value)
}

/// Returns true if an index that is asked for has no other fields.
fn has_index_fields(index: &Document) -> bool
    ensures { result ≡ has_index_fields (tree_of index.now) }
{
    for (name, value) in index {
        if !may_have(name, value) {
            return false;
        }
    }
    true
}

/// Returns true if a value is a document of fields that an index can be by.
fn is_key_document(value: &Bson) -> bool
    ensures { result ≡ is_key_document (value_of value.now) }
{
    match value {
        Bson::Document(key) => !key.is_empty() && are_keys(key),
        _ => false,
    }
}

/// Returns the name and the key of the index that a value asks for, if it can be made.
fn parts_of(value: &Bson) -> Option<(&str, &Bson)>
    ensures { MatchOption result (index_in (value_of value.now) ≡ None)
        (λ p. index_in (value_of value.now)
        ≡ Some (record { name = p.0.now; key = value_of p.1.now })) }
{
    let Bson::Document(index) = value else {
        return None;
    };
    if !has_index_fields(index) {
        return None;
    }
    match (field(index, "name"), field(index, "key")) {
        (Some(Bson::String(name)), Some(key)) if is_key_document(key) => {
            Some((name.as_str(), key))
        }
        _ => None,
    }
}

/// Returns true if one of the indexes has this name.
fn any_has_name(indexes: &[Index], name: &str) -> bool
    ensures { result ≡ list_any (has_name name.now) (map index_view indexes.now) }
{
    for index in indexes {
        if index.name.as_str() == name {
            return true;
        }
    }
    false
}

/// Returns true if one of the indexes has this key.
fn any_has_key(indexes: &[Index], key: &Bson) -> bool
    ensures { result ≡ list_any (has_key (value_of key.now)) (map index_view indexes.now) }
{
    for index in indexes {
        if is_equal(&index.key, key) {
            return true;
        }
    }
    false
}

/// Returns true if an index with this name and this key is one of the indexes.
fn is_held(indexes: &[Index], name: &str, key: &Bson) -> bool
    ensures { result ≡ list_any
        (is_index (record { name = name.now; key = value_of key.now }))
        (map index_view indexes.now) }
{
    for index in indexes {
        if index.name.as_str() == name && is_equal(&index.key, key) {
            return true;
        }
    }
    false
}

/// Returns true if this key is that of the index on `_id`.
fn is_id_key(alloc: Global, key: &Bson) -> Result<bool, AllocError>
    ensures { IfOk result (λ is. is ≡ has_key (value_of key.now) id_index) }
{
    let id_key = id_key(alloc)?;
    let is_id_key = is_equal(&id_key, key);
    drop(id_key);
    Ok(is_id_key)
}

/// Returns true if an index with this name and this key is to be added, and false if it is there.
///
/// # Errors
///
/// Returns `IndexName` or `IndexKey` if another index has its name or its key, and `OutOfMemory` if
/// memory runs out.
fn is_added(alloc: Global, indexes: &[Index], name: &str, key: &Bson) -> Result<bool, Failure>
    ensures ok { IfOk result (λ is_new.
        with_index (record { name = name.now; key = value_of key.now })
        (map index_view indexes.now) ≡ Ok (if is_new
        then map index_view indexes.now ++ record { name = name.now; key = value_of key.now } ∷ []
        else map index_view indexes.now)) }
    ensures refused { IfErr result (λ e. IsFailure
        (with_index (record { name = name.now; key = value_of key.now })
        (map index_view indexes.now)) e) }
{
    if is_id_key(alloc, key)? || is_held(indexes, name, key) {
        return Ok(false);
    }
    if any_has_name(indexes, name) {
        return Err(Failure::Refused(CommandError::IndexName));
    }
    if any_has_key(indexes, key) {
        return Err(Failure::Refused(CommandError::IndexKey));
    }
    Ok(true)
}

/// Adds the index that a value asks for, unless it is there.
fn add_index(alloc: Global, asked: &Bson, indexes: &mut Vec<Index>) -> Result<(), Failure>
    ensures ok { OnOk result
        (with_asked (value_of asked.now) (map index_view indexes.old.items)
        ≡ Ok (map index_view indexes.new.items)) }
    ensures refused { IfErr result (λ e. IsFailure
        (with_asked (value_of asked.now) (map index_view indexes.old.items)) e) }
{
    let Some((name, key)) = parts_of(asked) else {
        return Err(Failure::Refused(CommandError::Index));
    };
    if is_added(alloc, indexes, name, key)? {
        push_index(alloc, indexes, name, key)?;
    }
    Ok(())
}

/// Adds the indexes that the values ask for, in order.
///
/// # Errors
///
/// Returns `Index` if a value asks for none that can be made, `IndexName` or `IndexKey` if another
/// index has its name or its key, and `OutOfMemory` if memory runs out. Then some may be added.
pub fn add_indexes(alloc: Global, asked: &[Bson], indexes: &mut Vec<Index>) -> Result<(), Failure>
    ensures ok { OnOk result (with_indexes (map value_of asked.now)
        (map index_view indexes.old.items) ≡ Ok (map index_view indexes.new.items)) }
    ensures refused { IfErr result (λ e. IsFailure
        (with_indexes (map value_of asked.now) (map index_view indexes.old.items)) e) }
{
    for value in asked {
        add_index(alloc, value, indexes)?;
    }
    Ok(())
}

/// Appends copies of indexes.
fn push_copies(alloc: Global, indexes: &[Index], copies: &mut Vec<Index>) -> Result<(), AllocError>
    ensures { OnOk result (map index_view copies.new.items
        ≡ map index_view copies.old.items ++ map index_view indexes.now) }
{
    for index in indexes {
        push_index(alloc, copies, index.name.as_str(), &index.key)?;
    }
    Ok(())
}

/// Copies indexes.
///
/// # Errors
///
/// Returns `AllocError` if memory runs out.
pub fn copies(alloc: Global, indexes: &[Index]) -> Result<Vec<Index>, AllocError>
    ensures { IfOk result (λ is. map index_view is.items ≡ map index_view indexes.now) }
{
    let mut copies = Vec::new(alloc);
    push_copies(alloc, indexes, &mut copies).and(Ok(copies))
}

/// Sets the fields of the listing of an index.
fn set_listing(alloc: Global, listing: &mut Document, index: &Index) -> Result<(), AllocError>
    requires { listing.old ≡ [] }
    ensures { OnOk result (inner listing.new ≡ index_listing (index_view index.now)) }
{
    set(alloc, listing, "v", Bson::Int32(2))
        .and(set_copy(alloc, listing, "key", &index.key))
        .and(set_text(alloc, listing, "name", index.name.as_str()))
}

/// Makes the listing of an index.
fn listing(alloc: Global, index: &Index) -> Result<Document, AllocError>
    ensures { IfOk result (λ d. inner d ≡ index_listing (index_view index.now)) }
{
    let mut listing = Document::new(alloc);
    set_listing(alloc, &mut listing, index).and(Ok(listing))
}

/// Appends the listing of an index.
fn push_listing(alloc: Global, index: &Index, listings: &mut Vec<Bson>) -> Result<(), AllocError>
    ensures { OnOk result (map value_of listings.new.items
        ≡ map value_of listings.old.items ++ index_listing (index_view index.now) ∷ []) }
{
    let listing = listing(alloc, index)?;
    push(listings, Bson::Document(listing))
}

/// Appends the listings of indexes, in order.
fn push_listings(
    alloc: Global,
    indexes: &[Index],
    listings: &mut Vec<Bson>,
) -> Result<(), AllocError>
    ensures { OnOk result (map value_of listings.new.items
        ≡ map value_of listings.old.items ++ map index_listing (map index_view indexes.now)) }
{
    for index in indexes {
        push_listing(alloc, index, listings)?;
    }
    Ok(())
}

/// Makes the listings of indexes, in order.
///
/// # Errors
///
/// Returns `AllocError` if memory runs out.
pub fn index_listings(alloc: Global, indexes: &[Index]) -> Result<Vec<Bson>, AllocError>
    ensures { IfOk result
        (λ vs. map value_of vs.items ≡ map index_listing (map index_view indexes.now)) }
{
    let mut listings = Vec::new(alloc);
    push_listings(alloc, indexes, &mut listings).and(Ok(listings))
}
