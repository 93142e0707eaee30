//! Carries out the command insert.

ghost use Rattle.std.specs.Prelude.{◌≡◌, ◌≤◌, IfOk, OnErr, length, map};
ghost use Rattle.bson_doc.specs.{value_of};
ghost use Rattle.wire_msg.specs.{Carries, Content};
ghost use Rattle.test_store.specs.Adding.{adding_of};
ghost use Rattle.test_store.specs.Commands.{IsCarriedOut, insert, insert_by, insert_reply};
ghost use Rattle.test_store.specs.Held.{namespace_of, store_of};

use crate::adding::{Adding, gather};
use crate::answer::{in_memory, written_answer};
use crate::fields::{flag_field, namespace_field};
use crate::namespace::Namespace;
use crate::store::Store;
use bson_doc::{Bson, Document};
use command_parts::brought_documents;
use doc_query::{CommandError, Failure};
use std::alloc::{AllocError, Global};
use wire_msg::Payload;

/// Inserts what was gathered of a command's documents, and answers with how many these are, and
/// with the errors of the others.
fn put_added(
    alloc: Global,
    store: &mut Store,
    namespace: Namespace<'_>,
    adding: Adding,
) -> Result<Document, AllocError>
    ensures answered { IfOk result (λ d.
        insert_reply (store_of store.old) (namespace_of namespace.entry) (adding_of adding)
        ≡ record { answer = d; held = store_of store.new }) }
    ensures kept { OnErr result
        ((store_of store.new).collections ≡ (store_of store.old).collections) }
{
    let Adding { added, errors } = adding;
    match written_answer(alloc, added.len(), errors) {
        Ok(answer) => store.insert_any(namespace, added).and(Ok(answer)),
        Err(refused) => {
            drop(added);
            Err(refused)
        }
    }
}

/// Inserts documents into a namespace, except those whose `_id` is taken or can't be one.
fn insert_each(
    alloc: Global,
    store: &mut Store,
    is_ordered: bool,
    namespace: Namespace<'_>,
    documents: &[Bson],
) -> Result<Document, AllocError>
    requires { length documents.now ≤ 100_000 }
    ensures answered { IfOk result (λ d.
        insert_by (store_of store.old) (namespace_of namespace.entry) is_ordered
        (map value_of documents.now) ≡ record { answer = d; held = store_of store.new }) }
    ensures kept { OnErr result
        ((store_of store.new).collections ≡ (store_of store.old).collections) }
{
    let held = store.documents(namespace);
    let adding = gather(alloc, is_ordered, namespace, held, documents)?;
    put_added(alloc, store, namespace, adding)
}

/// Inserts the documents of the array `documents` in the body, or of the sequences with the
/// identifier `documents`, except those whose `_id` is taken or can't be one. An insert of none
/// makes no collection.
pub fn insert(alloc: Global, store: &mut Store, payload: Payload<'_>) -> Result<Document, Failure>
    ensures carried { (c : Content) → Carries payload.entry c
        → IsCarriedOut (insert (store_of store.old) c) (store_of store.old) result
        (store_of store.new) }
    ensures kept { OnErr result
        ((store_of store.new).collections ≡ (store_of store.old).collections) }
{
    let body = payload.body();
    let namespace = namespace_field(body, "insert", CommandError::Insert)?;
    let is_ordered = flag_field(body, "ordered", true, CommandError::Ordered)?;
    let documents = brought_documents(alloc, payload, "documents")?;
    let answer = insert_each(alloc, store, is_ordered, namespace, documents.as_slice());
    drop(documents);
    in_memory(answer)
}
