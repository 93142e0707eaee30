//! Carries out the command find.

ghost use Rattle.std.specs.Prelude.{◌≡◌, IfErr, IfOk, Ok, map};
ghost use Rattle.bson_elem.specs.{Spells, Tree};
ghost use Rattle.bson_raw.specs.{document_bytes};
ghost use Rattle.bson_doc.specs.{value_of};
ghost use Rattle.doc_query.specs.{IsFailure};
ghost use Rattle.test_store.specs.Commands.{IsCarriedOut, find, find_reply_to, found_reply};
ghost use Rattle.test_store.specs.Commands.{left_of, query_in, shape_in};
ghost use Rattle.test_store.specs.Held.{namespace_of, store_of};
ghost use Rattle.test_store.specs.Queries.{query_of, shape_of};

use crate::answer::{Batch, cursor_answer, in_memory};
use crate::fields::{first_batch_size, flag_field};
use crate::namespace::Namespace;
use crate::selection::{Selection, selected, selection_in};
use crate::store::Store;
use bson_doc::{Bson, Document};
use bson_raw::RawDocument;
use doc_query::{CommandError, Failure};
use doc_stages::{next_batch, projected, projection_field};
use std::alloc::{AllocError, Global};

/// What find asks for.
#[derive(Drop)]
struct Query<'a> {
    /// The documents that are found.
    selection: Selection<'a>,
    /// What is told of them.
    shape: Shape,
}

/// What find asks for beside the documents that are found.
#[derive(Drop)]
struct Shape {
    /// The most documents in the first batch.
    count: usize,
    /// Whether no cursor is opened over the others.
    is_single: bool,
    /// The fields that are kept of them.
    projection: Document,
}

/// Reads what find asks for beside the documents that are found.
fn shape_in(alloc: Global, body: RawDocument<'_>) -> Result<Shape, Failure>
    ensures ok { (t : Tree) → Spells t (document_bytes body.entry)
        → IfOk result (λ s. shape_in t ≡ Ok (shape_of s)) }
    ensures refused { (t : Tree) → Spells t (document_bytes body.entry)
        → IfErr result (λ e. IsFailure (shape_in t) e) }
{
    let count = first_batch_size(body)?;
    let is_single = flag_field(body, "singleBatch", false, CommandError::SingleBatch)?;
    let projection = projection_field(alloc, body)?;
    Ok(Shape {
        count,
        is_single,
        projection,
    })
}

/// Reads what find asks for.
fn query_in(alloc: Global, body: RawDocument<'_>) -> Result<Query<'_>, Failure>
    ensures ok { (t : Tree) → Spells t (document_bytes body.entry)
        → IfOk result (λ q. query_in t ≡ Ok (query_of q)) }
    ensures refused { (t : Tree) → Spells t (document_bytes body.entry)
        → IfErr result (λ e. IsFailure (query_in t) e) }
{
    let selection = selection_in(alloc, body, "find", CommandError::Find, "filter")?;
    match shape_in(alloc, body) {
        Ok(shape) => Ok(Query { selection, shape }),
        Err(failure) => {
            drop(selection);
            Err(failure)
        }
    }
}

/// Removes all documents if no cursor is to be opened over them.
fn keep_for_cursor(left: &mut Vec<Bson>, is_single: bool)
    ensures { left.new.items ≡ left_of is_single left.old.items }
{
    if is_single {
        left.clear();
    }
}

/// Answers with the first batch of the documents that were found, at most `count`, and opens a
/// cursor over the others.
pub fn answer_found(
    alloc: Global,
    store: &mut Store,
    namespace: Namespace<'_>,
    mut found: Vec<Bson>,
    count: usize,
    is_single: bool,
) -> Result<Document, AllocError>
    ensures answered { IfOk result (λ d. found_reply (store_of store.old)
        (namespace_of namespace.entry) (map value_of found.items) count is_single
        ≡ record { answer = d; held = store_of store.new }) }
    ensures steady { (store_of store.new).collections ≡ (store_of store.old).collections }
{
    let Ok(batch) = next_batch(&mut found, count) else {
        drop(found);
        return Err(AllocError);
    };
    keep_for_cursor(&mut found, is_single);
    match store.open_cursor(namespace, found) {
        Ok(id) => cursor_answer(alloc, Batch::First, batch, id, namespace),
        Err(refused) => {
            drop(batch);
            Err(refused)
        }
    }
}

/// Answers with the first documents that a query finds, and opens a cursor over the others.
fn answer_query(alloc: Global, store: &mut Store, query: &Query<'_>) -> Result<Document, Failure>
    ensures carried { IsCarriedOut (find_reply_to (store_of store.old) (query_of query.now))
        (store_of store.old) result (store_of store.new) }
    ensures steady { (store_of store.new).collections ≡ (store_of store.old).collections }
{
    let namespace = query.selection.namespace;
    let found = selected(alloc, store, &query.selection)?;
    let shape = &query.shape;
    let found = projected(alloc, &shape.projection, found)?;
    let count = shape.count;
    in_memory(answer_found(alloc, store, namespace, found, count, shape.is_single))
}

/// Finds the documents of a collection that match a filter, and of each the fields that a projection
/// keeps. Answers with the first of them, and opens a cursor over the others.
pub fn find(alloc: Global, store: &mut Store, body: RawDocument<'_>) -> Result<Document, Failure>
    ensures carried { (t : Tree) → Spells t (document_bytes body.entry)
        → IsCarriedOut (find (store_of store.old) t) (store_of store.old) result
        (store_of store.new) }
    ensures steady { (store_of store.new).collections ≡ (store_of store.old).collections }
{
    let query = query_in(alloc, body)?;
    let answer = answer_query(alloc, store, &query);
    drop(query);
    answer
}
