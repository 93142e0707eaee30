//! Collects the documents that may be added to those of a namespace, in which no two have one
//! `_id`, and none has an array, a regex or undefined there.

ghost use Rattle.std.specs.Prelude.{◌≡◌, ◌<◌, ◌≤◌, ◌^◌, [], IfOk, Ok, OnOk, Some, codes, length};
ghost use Rattle.std.specs.Prelude.{map, option_map, pos, string_bytes};
ghost use Rattle.bson_doc.specs.{put, value_of};
ghost use Rattle.doc_query.specs.{inner, int32, text};
ghost use Rattle.doc_update.specs.{has_error, write_error};
ghost use Rattle.test_store.specs.Adding.{add_each, add_identified, adding_of, duplicate_error};
ghost use Rattle.test_store.specs.Adding.{duplicate_words};
ghost use Rattle.test_store.specs.Adding.{error_of, gathered, key_of};
ghost use Rattle.test_store.specs.Held.{namespace_of};

use crate::namespace::Namespace;
use crate::values::{push, set_copy};
use bson_doc::{Bson, Document};
use doc_query::{count_value, set};
use doc_update::{id_fault, id_in, identified, is_taken, write_error};
use std::alloc::{AllocError, Global};

/// What was made of the documents of a command so far.
#[derive(Drop)]
pub struct Adding {
    /// The documents to add.
    pub added: Vec<Bson>,
    /// The errors of those whose `_id` is taken, or can't be one.
    pub errors: Vec<Bson>,
}

impl Adding {
    /// Returns true if a document can't be added.
    fn has_error(&self) -> bool
        ensures { result ≡ has_error (adding_of self.now).errors }
    {
        !self.errors.is_empty()
    }
}

/// Appends the words of the error of a document whose `_id` is taken.
fn push_duplicate(words: &mut String, namespace: Namespace<'_>) -> Result<(), AllocError>
    requires { string_bytes words.old ≡ [] }
    ensures { OnOk result
        (string_bytes words.new ≡ duplicate_words (namespace_of namespace.entry)) }
{
    words
        .push_str("E11000 duplicate key error collection: ")
        .and(namespace.push_to(words))
        .and(words.push_str(" index: _id_"))
}

/// Makes the words of the error of a document whose `_id` is taken.
fn duplicate_words(alloc: Global, namespace: Namespace<'_>) -> Result<String, AllocError>
    ensures { IfOk result (λ s. string_bytes s ≡ duplicate_words (namespace_of namespace.entry)) }
{
    let mut words = String::new(alloc);
    push_duplicate(&mut words, namespace).and(Ok(words))
}

/// Sets the field `_id` to a copy of this value, if there is one.
fn set_key(alloc: Global, key: &mut Document, id: Option<&Bson>) -> Result<(), AllocError>
    requires { key.old ≡ [] }
    ensures { OnOk result
        (inner key.new ≡ key_of (option_map (λ v. value_of v.now) id.entry)) }
{
    match id {
        Some(id) => set_copy(alloc, key, "_id", id),
        None => Ok(()),
    }
}

/// Makes the document with the field `_id` of this value.
fn key_of(alloc: Global, id: Option<&Bson>) -> Result<Document, AllocError>
    ensures { IfOk result (λ d. inner d ≡ key_of (option_map (λ v. value_of v.now) id.entry)) }
{
    let mut key = Document::new(alloc);
    set_key(alloc, &mut key, id).and(Ok(key))
}

/// Sets the field `name` to the document with the field `_id` of this value.
fn set_key_in(
    alloc: Global,
    error: &mut Document,
    name: &str,
    id: Option<&Bson>,
) -> Result<(), AllocError>
    ensures { OnOk result
        (error.new ≡ put name.now (key_of (option_map (λ v. value_of v.now) id.entry)) error.old) }
{
    let key = key_of(alloc, id)?;
    set(alloc, error, name, Bson::Document(key))
}

/// Sets the fields that tell which `_id` is taken.
fn set_keys(alloc: Global, error: &mut Document, id: Option<&Bson>) -> Result<(), AllocError>
    ensures { OnOk result (error.new
        ≡ put (codes "keyValue") (key_of (option_map (λ v. value_of v.now) id.entry))
        (put (codes "keyPattern") (key_of (Some (int32 (pos 1)))) error.old)) }
{
    set_key_in(alloc, error, "keyPattern", Some(&Bson::Int32(1))).and(set_key_in(
        alloc, error, "keyValue", id,
    ))
}

/// Sets the words of the error of a document whose `_id` is taken.
fn set_words(
    alloc: Global,
    error: &mut Document,
    namespace: Namespace<'_>,
) -> Result<(), AllocError>
    ensures { OnOk result (error.new
        ≡ put (codes "errmsg") (text (duplicate_words (namespace_of namespace.entry))) error.old) }
{
    let words = duplicate_words(alloc, namespace)?;
    set(alloc, error, "errmsg", Bson::String(words))
}

/// Sets the fields of the error of the document at `index`, whose `_id`, which this is, is taken.
fn set_duplicate(
    alloc: Global,
    error: &mut Document,
    index: usize,
    namespace: Namespace<'_>,
    id: Option<&Bson>,
) -> Result<(), AllocError>
    requires index { index < 2 ^ 63 }
    requires none { error.old ≡ [] }
    ensures { OnOk result (inner error.new ≡ duplicate_error index (namespace_of namespace.entry)
        (option_map (λ v. value_of v.now) id.entry)) }
{
    set(alloc, error, "index", count_value(index))
        .and(set(alloc, error, "code", Bson::Int32(11000)))
        .and(set_keys(alloc, error, id))
        .and(set_words(alloc, error, namespace))
}

/// Makes the error of the document at `index`, whose `_id`, which this is, is taken.
fn duplicate_error(
    alloc: Global,
    index: usize,
    namespace: Namespace<'_>,
    id: Option<&Bson>,
) -> Result<Document, AllocError>
    requires { index < 2 ^ 63 }
    ensures { IfOk result (λ d. inner d ≡ duplicate_error index (namespace_of namespace.entry)
        (option_map (λ v. value_of v.now) id.entry)) }
{
    let mut error = Document::new(alloc);
    set_duplicate(alloc, &mut error, index, namespace, id).and(Ok(error))
}

/// Makes the error of the document at `index` whose `_id` can't be one, which these words say.
fn fault_error(alloc: Global, index: usize, words: &str) -> Result<Document, AllocError>
    requires { index < 2 ^ 63 }
    ensures { IfOk result (λ d. inner d ≡ write_error index (pos 2) words.now) }
{
    let words = String::from_str(alloc, words)?;
    write_error(alloc, index, 2, words)
}

/// Returns an error that was made, as that of a document.
fn told(error: Result<Document, AllocError>) -> Result<Option<Document>, AllocError>
    ensures { IfOk result (λ told. (d : Document) × (told ≡ Some d) × (error ≡ Ok d)) }
{
    match error {
        Ok(error) => Ok(Some(error)),
        Err(refused) => Err(refused),
    }
}

/// Makes the error of the document at `index` whose `_id` this is, if the `_id` can't be one, or is
/// that of one that is held or was added before.
fn error_of(
    alloc: Global,
    namespace: Namespace<'_>,
    held: &[Bson],
    added: &[Bson],
    index: usize,
    id: Option<&Bson>,
) -> Result<Option<Document>, AllocError>
    requires { index < 2 ^ 63 }
    ensures { IfOk result (λ error. option_map (λ d. inner d) error
        ≡ error_of (namespace_of namespace.entry) (map value_of held.now) (map value_of added.now)
        index (option_map (λ v. value_of v.now) id.entry)) }
{
    if let Some(words) = id_fault(id) {
        return told(fault_error(alloc, index, words));
    }
    if is_taken(id, held) || is_taken(id, added) {
        return told(duplicate_error(alloc, index, namespace, id));
    }
    Ok(None)
}

/// Adds a document, unless it has an error. One without `_id` is given one that is free.
fn add(
    alloc: Global,
    namespace: Namespace<'_>,
    held: &[Bson],
    index: usize,
    document: &Bson,
    adding: &mut Adding,
) -> Result<(), AllocError>
    requires { index < 2 ^ 63 }
    ensures { OnOk result (adding_of adding.new ≡ add_identified (namespace_of namespace.entry)
        (map value_of held.now) index (value_of document.now) (adding_of adding.old)) }
{
    let document = identified(alloc, document, held, &adding.added)?;
    let id = id_in(&document);
    match error_of(alloc, namespace, held, &adding.added, index, id) {
        Ok(None) => push(&mut adding.added, document),
        Ok(Some(error)) => {
            drop(document);
            push(&mut adding.errors, Bson::Document(error))
        }
        Err(refused) => {
            drop(document);
            Err(refused)
        }
    }
}

/// Adds documents one after another, except those that can't be added. Where they are ordered,
/// nothing follows the first error.
fn add_each(
    alloc: Global,
    is_ordered: bool,
    namespace: Namespace<'_>,
    held: &[Bson],
    documents: &[Bson],
    adding: &mut Adding,
) -> Result<(), AllocError>
    requires { length documents.now ≤ 100_000 }
    ensures { OnOk result (adding_of adding.new
        ≡ add_each is_ordered (namespace_of namespace.entry) (map value_of held.now) 0
        (map value_of documents.now) (adding_of adding.old)) }
{
    for (index, document) in documents.iter().enumerate() {
        if is_ordered && adding.has_error() {
            return Ok(());
        }
        add(alloc, namespace, held, index, document, adding)?;
    }
    Ok(())
}

/// Collects the documents to add, and the errors of those that can't be added. One without `_id` is
/// given one that is free. Where they are ordered, nothing follows the first error.
pub fn gather(
    alloc: Global,
    is_ordered: bool,
    namespace: Namespace<'_>,
    held: &[Bson],
    documents: &[Bson],
) -> Result<Adding, AllocError>
    requires { length documents.now ≤ 100_000 }
    ensures { IfOk result (λ a. adding_of a ≡ gathered is_ordered (namespace_of namespace.entry)
        (map value_of held.now) (map value_of documents.now)) }
{
    let mut adding = Adding {
        added: Vec::new(alloc),
        errors: Vec::new(alloc),
    };
    add_each(alloc, is_ordered, namespace, held, documents, &mut adding).and(Ok(adding))
}
