//! Carries out the command update.

ghost use Rattle.std.specs.Prelude.{◌≡◌, ◌≤◌, ◌∷◌, [], IfOk, OnErr, OnOk, codes, length, map};
ghost use Rattle.bson_doc.specs.{put, value_of};
ghost use Rattle.wire_msg.specs.{Carries, Content};
ghost use Rattle.doc_query.specs.{count_value};
ghost use Rattle.doc_update.specs.Updating.{updates_view};
ghost use Rattle.test_store.specs.Answers.{updated_pairs};
ghost use Rattle.test_store.specs.Commands.{IsCarriedOut, update, update_by, update_reply};
ghost use Rattle.test_store.specs.Held.{namespace_of, store_of};

use crate::answer::{in_memory, set_any};
use crate::fields::{flag_field, namespace_field};
use crate::namespace::Namespace;
use crate::store::Store;
use bson_doc::{Bson, Document};
use command_parts::{brought_documents, set_ok};
use doc_query::{CommandError, Failure, count_value, set};
use doc_update::{Updates, after_updates};
use std::alloc::{AllocError, Global};
use wire_msg::Payload;

/// More documents than any memory has room for.
const TOO_MANY: usize = 1 << 63;

/// Sets a field in the answer to a number of documents.
///
/// # Errors
///
/// Returns `AllocError` if it is more than an int64, or memory runs out.
fn set_count(
    alloc: Global,
    answer: &mut Document,
    name: &str,
    count: usize,
) -> Result<(), AllocError>
    ensures { OnOk result (answer.new ≡ put name.now (count_value count) answer.old) }
{
    if count < TOO_MANY {
        set(alloc, answer, name, count_value(count))
    } else {
        Err(AllocError)
    }
}

/// Sets the first fields of the answer: how many documents matched or were inserted, and how many
/// became others.
fn set_counts(
    alloc: Global,
    answer: &mut Document,
    matched: usize,
    modified: usize,
) -> Result<(), AllocError>
    requires { answer.old ≡ [] }
    ensures { OnOk result (answer.new
        ≡ (codes "n", count_value matched) ∷ (codes "nModified", count_value modified) ∷ []) }
{
    set_count(alloc, answer, "n", matched).and(set_count(alloc, answer, "nModified", modified))
}

/// Sets the fields of the answer: how many documents matched or were inserted, how many became
/// others, which statements inserted one, and why others weren't carried out.
fn set_updated(
    alloc: Global,
    answer: &mut Document,
    matched: usize,
    modified: usize,
    upserted: Vec<Bson>,
    errors: Vec<Bson>,
) -> Result<(), AllocError>
    requires { answer.old ≡ [] }
    ensures { OnOk result (answer.new ≡ updated_pairs matched modified
        (map value_of upserted.items) (map value_of errors.items)) }
{
    set_counts(alloc, answer, matched, modified)
        .and(set_any(alloc, answer, "upserted", upserted))
        .and(set_any(alloc, answer, "writeErrors", errors))
        .and(set_ok(alloc, answer))
}

/// Makes the answer: how many documents matched or were inserted, how many became others, which
/// statements inserted one, and why others weren't carried out.
fn updated_answer(
    alloc: Global,
    matched: usize,
    modified: usize,
    upserted: Vec<Bson>,
    errors: Vec<Bson>,
) -> Result<Document, AllocError>
    ensures { IfOk result (λ d. d ≡ updated_pairs matched modified
        (map value_of upserted.items) (map value_of errors.items)) }
{
    let mut answer = Document::new(alloc);
    set_updated(alloc, &mut answer, matched, modified, upserted, errors).and(Ok(answer))
}

/// Puts what statements made of the documents of a namespace in their place, and answers with what
/// they did.
fn put_updated(
    alloc: Global,
    store: &mut Store,
    namespace: Namespace<'_>,
    updates: Updates,
) -> Result<Document, AllocError>
    ensures answered { IfOk result (λ d.
        update_reply (store_of store.old) (namespace_of namespace.entry) (updates_view updates)
        ≡ record { answer = d; held = store_of store.new }) }
    ensures kept { OnErr result
        ((store_of store.new).collections ≡ (store_of store.old).collections) }
{
    let Updates {
        documents,
        matched,
        modified,
        upserted,
        errors,
    } = updates;
    match updated_answer(alloc, matched, modified, upserted, errors) {
        Ok(answer) => store.put_documents(namespace, documents).and(Ok(answer)),
        Err(refused) => {
            drop(documents);
            Err(refused)
        }
    }
}

/// Changes documents of a namespace, or inserts some, by statements.
fn update_by(
    alloc: Global,
    store: &mut Store,
    is_ordered: bool,
    namespace: Namespace<'_>,
    statements: &[Bson],
) -> Result<Document, AllocError>
    requires { length statements.now ≤ 100_000 }
    ensures answered { IfOk result (λ d.
        update_by (store_of store.old) (namespace_of namespace.entry) is_ordered
        (map value_of statements.now) ≡ record { answer = d; held = store_of store.new }) }
    ensures kept { OnErr result
        ((store_of store.new).collections ≡ (store_of store.old).collections) }
{
    let held = store.documents(namespace);
    let updates = after_updates(alloc, is_ordered, statements, held)?;
    put_updated(alloc, store, namespace, updates)
}

/// Changes documents, or inserts some, by the statements of the array `updates` in the body, or of
/// the sequences with the identifier `updates`.
pub fn update(alloc: Global, store: &mut Store, payload: Payload<'_>) -> Result<Document, Failure>
    ensures carried { (c : Content) → Carries payload.entry c
        → IsCarriedOut (update (store_of store.old) c) (store_of store.old) result
        (store_of store.new) }
    ensures kept { OnErr result
        ((store_of store.new).collections ≡ (store_of store.old).collections) }
{
    let body = payload.body();
    let namespace = namespace_field(body, "update", CommandError::Update)?;
    let is_ordered = flag_field(body, "ordered", true, CommandError::Ordered)?;
    let statements = brought_documents(alloc, payload, "updates")?;
    let answer = update_by(alloc, store, is_ordered, namespace, statements.as_slice());
    drop(statements);
    in_memory(answer)
}
