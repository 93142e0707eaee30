//! Carries out the command delete.

ghost use Rattle.std.specs.Prelude.{◌≡◌, ◌≤◌, IfOk, OnErr, length, map};
ghost use Rattle.bson_doc.specs.{value_of};
ghost use Rattle.wire_msg.specs.{Carries, Content};
ghost use Rattle.test_store.specs.Commands.{IsCarriedOut, delete, delete_by, delete_reply};
ghost use Rattle.test_store.specs.Held.{namespace_of, store_of};

use crate::answer::{in_memory, written_answer};
use crate::fields::{flag_field, namespace_field};
use crate::namespace::Namespace;
use crate::store::Store;
use bson_doc::{Bson, Document};
use command_parts::brought_documents;
use doc_query::{CommandError, Failure};
use doc_update::{Deletes, after_deletes};
use std::alloc::{AllocError, Global};
use wire_msg::Payload;

/// Puts what statements left of the documents of a namespace in their place, and answers with how
/// many were deleted, and with the errors of the others.
fn put_left(
    alloc: Global,
    store: &mut Store,
    namespace: Namespace<'_>,
    left: Vec<Bson>,
    errors: Vec<Bson>,
) -> Result<Document, AllocError>
    ensures answered { IfOk result (λ d. delete_reply (store_of store.old)
        (namespace_of namespace.entry) (map value_of left.items) (map value_of errors.items)
        ≡ record { answer = d; held = store_of store.new }) }
    ensures kept { OnErr result
        ((store_of store.new).collections ≡ (store_of store.old).collections) }
{
    let held = store.documents(namespace);
    let count = held.len().saturating_sub(left.len());
    match written_answer(alloc, count, errors) {
        Ok(answer) => store.put_documents(namespace, left).and(Ok(answer)),
        Err(refused) => {
            drop(left);
            Err(refused)
        }
    }
}

/// Deletes documents of a namespace by statements.
fn delete_by(
    alloc: Global,
    store: &mut Store,
    is_ordered: bool,
    namespace: Namespace<'_>,
    statements: &[Bson],
) -> Result<Document, AllocError>
    requires { length statements.now ≤ 100_000 }
    ensures answered { IfOk result (λ d.
        delete_by (store_of store.old) (namespace_of namespace.entry) is_ordered
        (map value_of statements.now) ≡ record { answer = d; held = store_of store.new }) }
    ensures kept { OnErr result
        ((store_of store.new).collections ≡ (store_of store.old).collections) }
{
    let held = store.documents(namespace);
    let Deletes { documents, errors } = after_deletes(alloc, is_ordered, statements, held)?;
    put_left(alloc, store, namespace, documents, errors)
}

/// Deletes documents, by the statements of the array `deletes` in the body, or of the sequences
/// with the identifier `deletes`.
pub fn delete(alloc: Global, store: &mut Store, payload: Payload<'_>) -> Result<Document, Failure>
    ensures carried { (c : Content) → Carries payload.entry c
        → IsCarriedOut (delete (store_of store.old) c) (store_of store.old) result
        (store_of store.new) }
    ensures kept { OnErr result
        ((store_of store.new).collections ≡ (store_of store.old).collections) }
{
    let body = payload.body();
    let namespace = namespace_field(body, "delete", CommandError::Delete)?;
    let is_ordered = flag_field(body, "ordered", true, CommandError::Ordered)?;
    let statements = brought_documents(alloc, payload, "deletes")?;
    let answer = delete_by(alloc, store, is_ordered, namespace, statements.as_slice());
    drop(statements);
    in_memory(answer)
}
