//! Carries out the command createIndexes.

ghost use Rattle.std.specs.Prelude.{◌≡◌, ◌<◌, ◌^◌, [], IfOk, OnErr, OnOk, length, map};
ghost use Rattle.bson_elem.specs.{Spells, Tree};
ghost use Rattle.bson_raw.specs.{document_bytes};
ghost use Rattle.bson_doc.specs.{tree_of, value_of};
ghost use Rattle.test_store.specs.Answers.{created_pairs};
ghost use Rattle.test_store.specs.Commands.{IsCarriedOut, create_indexes, created_by};
ghost use Rattle.test_store.specs.Commands.{created_in, created_reply, no_index_pairs};
ghost use Rattle.test_store.specs.Held.{indexes_in, namespace_of, store_of};
ghost use Rattle.test_store.specs.Indexes.{index_view};

use crate::answer::in_memory;
use crate::fields::namespace_field;
use crate::indexes::{Index, add_indexes, copies, first_indexes};
use crate::namespace::Namespace;
use crate::store::Store;
use bson_doc::{Bson, Document};
use bson_raw::RawDocument;
use command_parts::{error_answer, set_ok};
use doc_query::{CommandError, Failure, array_field, count_value, owned_body, set};
use std::alloc::{AllocError, Global};

/// Sets the fields of the answer that tells how many indexes there were and are, and whether the
/// collection is new.
fn set_created(
    alloc: Global,
    answer: &mut Document,
    before: usize,
    after: usize,
    is_new: bool,
) -> Result<(), AllocError>
    requires few { before < 2 ^ 63 }
    requires fits { after < 2 ^ 63 }
    requires none { answer.old ≡ [] }
    ensures { OnOk result (answer.new ≡ created_pairs before after is_new) }
{
    let is_new = Bson::Boolean(is_new);
    set(alloc, answer, "numIndexesBefore", count_value(before))
        .and(set(alloc, answer, "numIndexesAfter", count_value(after)))
        .and(set(alloc, answer, "createdCollectionAutomatically", is_new))
        .and(set_ok(alloc, answer))
}

/// Makes the answer that tells how many indexes there were and are, and whether the collection is
/// new.
fn created_answer(
    alloc: Global,
    before: usize,
    after: usize,
    is_new: bool,
) -> Result<Document, AllocError>
    requires few { before < 2 ^ 63 }
    requires fits { after < 2 ^ 63 }
    ensures { IfOk result (λ d. d ≡ created_pairs before after is_new) }
{
    let mut answer = Document::new(alloc);
    set_created(alloc, &mut answer, before, after, is_new).and(Ok(answer))
}

/// Copies the indexes of a namespace, or makes those of a new collection.
fn indexes_in(
    alloc: Global,
    store: &Store,
    namespace: Namespace<'_>,
) -> Result<Vec<Index>, AllocError>
    ensures { IfOk result (λ is. map index_view is.items
        ≡ indexes_in (namespace_of namespace.entry) (store_of store.now).collections) }
{
    match store.indexes(namespace) {
        Some(indexes) => copies(alloc, indexes),
        None => first_indexes(alloc),
    }
}

/// Makes the answer that says that a command asks for no index.
fn no_index(alloc: Global) -> Result<Document, AllocError>
    ensures { IfOk result (λ d. d ≡ no_index_pairs) }
{
    error_answer(
        alloc,
        "Must specify at least one index to create",
        2,
        "BadValue",
    )
}

/// Puts indexes in the place of those of a collection, and answers with how many there were and
/// are.
fn put_created(
    alloc: Global,
    store: &mut Store,
    namespace: Namespace<'_>,
    before: usize,
    indexes: Vec<Index>,
) -> Result<Document, AllocError>
    requires were { before ≡ length (indexes_in (namespace_of namespace)
        (store_of store.old).collections) }
    requires few { before < 2 ^ 63 }
    ensures answered { IfOk result (λ d. created_reply (store_of store.old)
        (namespace_of namespace.entry) (map index_view indexes.items)
        ≡ record { answer = d; held = store_of store.new }) }
    ensures kept { OnErr result
        ((store_of store.new).collections ≡ (store_of store.old).collections) }
{
    let is_new = store.indexes(namespace).is_none();
    match created_answer(alloc, before, indexes.len(), is_new) {
        Ok(answer) => store.put_indexes(namespace, indexes).and(Ok(answer)),
        Err(refused) => {
            drop(indexes);
            Err(refused)
        }
    }
}

/// Makes the indexes of a collection that these values ask for, and the collection if there is
/// none.
fn created_by(
    alloc: Global,
    store: &mut Store,
    namespace: Namespace<'_>,
    asked: &[Bson],
) -> Result<Document, Failure>
    ensures carried { IsCarriedOut
        (created_by (store_of store.old) (namespace_of namespace.entry) (map value_of asked.now))
        (store_of store.old) result (store_of store.new) }
    ensures kept { OnErr result
        ((store_of store.new).collections ≡ (store_of store.old).collections) }
{
    if asked.is_empty() {
        return in_memory(no_index(alloc));
    }
    let mut indexes = indexes_in(alloc, store, namespace)?;
    let before = indexes.len();
    match add_indexes(alloc, asked, &mut indexes) {
        Ok(()) => in_memory(put_created(alloc, store, namespace, before, indexes)),
        Err(failure) => {
            drop(indexes);
            Err(failure)
        }
    }
}

/// Makes the indexes of a collection that the array `indexes` in these fields asks for, and the
/// collection if there is none.
fn created_in(
    alloc: Global,
    store: &mut Store,
    namespace: Namespace<'_>,
    fields: &Document,
) -> Result<Document, Failure>
    ensures carried { IsCarriedOut
        (created_in (store_of store.old) (namespace_of namespace.entry) (tree_of fields.now))
        (store_of store.old) result (store_of store.new) }
    ensures kept { OnErr result
        ((store_of store.new).collections ≡ (store_of store.old).collections) }
{
    match array_field(fields, "indexes") {
        Some(asked) => created_by(alloc, store, namespace, asked.as_slice()),
        None => Err(Failure::Refused(CommandError::Indexes)),
    }
}

/// Makes indexes of a collection, and the collection if there is none.
pub fn create_indexes(
    alloc: Global,
    store: &mut Store,
    body: RawDocument<'_>,
) -> Result<Document, Failure>
    ensures carried { (t : Tree) → Spells t (document_bytes body.entry)
        → IsCarriedOut (create_indexes (store_of store.old) t) (store_of store.old) result
        (store_of store.new) }
    ensures kept { OnErr result
        ((store_of store.new).collections ≡ (store_of store.old).collections) }
{
    let namespace = namespace_field(body, "createIndexes", CommandError::CreateIndexes)?;
    let fields = owned_body(alloc, body)?;
    let answer = created_in(alloc, store, namespace, &fields);
    drop(fields);
    answer
}
