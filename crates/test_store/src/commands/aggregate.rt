//! Carries out the command aggregate, of pipelines that count.

ghost use Rattle.std.specs.Prelude.{◌≡◌, codes};
ghost use Rattle.bson_elem.specs.{Spells, Tree};
ghost use Rattle.bson_raw.specs.{document_bytes, first_named};
ghost use Rattle.bson_doc.specs.{tree_of};
ghost use Rattle.test_store.specs.Commands.{IsCarriedOut, aggregate, aggregate_reply};
ghost use Rattle.test_store.specs.Fields.{first_size};
ghost use Rattle.test_store.specs.Held.{namespace_of, store_of};

use crate::answer::in_memory;
use crate::commands::find::answer_found;
use crate::fields::{DEFAULT_BATCH_SIZE, namespace_field};
use crate::namespace::Namespace;
use crate::store::Store;
use bson_doc::{Bson, Document};
use bson_raw::RawDocument;
use doc_query::{CommandError, Failure, array_field, field, owned_body, whole_of};
use doc_stages::after_stages;
use std::alloc::Global;

/// Returns the most documents of the first batch: the field `batchSize` of the field `cursor`, or
/// 101 if there is none.
fn first_size(fields: &Document) -> Result<usize, CommandError>
    ensures { result ≡ first_size (first_named (codes "cursor") (tree_of fields.now)) }
{
    let Some(Bson::Document(cursor)) = field(fields, "cursor") else {
        return Err(CommandError::Cursor);
    };
    let Some(size) = field(cursor, "batchSize") else {
        return Ok(DEFAULT_BATCH_SIZE);
    };
    whole_of(size).ok_or(CommandError::FirstBatchSize)
}

/// Answers with the documents that the pipeline in these fields makes of a collection.
fn answer_stages(
    alloc: Global,
    store: &mut Store,
    namespace: Namespace<'_>,
    fields: &Document,
) -> Result<Document, Failure>
    ensures carried { IsCarriedOut
        (aggregate_reply (store_of store.old) (namespace_of namespace.entry) (tree_of fields.now))
        (store_of store.old) result (store_of store.new) }
    ensures steady { (store_of store.new).collections ≡ (store_of store.old).collections }
{
    let Some(stages) = array_field(fields, "pipeline") else {
        return Err(Failure::Refused(CommandError::Stage));
    };
    let count = first_size(fields)?;
    let found = after_stages(alloc, stages.as_slice(), store.documents(namespace))?;
    in_memory(answer_found(alloc, store, namespace, found, count, false))
}

/// Answers with the documents that a pipeline makes of a collection.
pub fn aggregate(
    alloc: Global,
    store: &mut Store,
    body: RawDocument<'_>,
) -> Result<Document, Failure>
    ensures carried { (t : Tree) → Spells t (document_bytes body.entry)
        → IsCarriedOut (aggregate (store_of store.old) t) (store_of store.old) result
        (store_of store.new) }
    ensures steady { (store_of store.new).collections ≡ (store_of store.old).collections }
{
    let namespace = namespace_field(body, "aggregate", CommandError::Aggregate)?;
    let fields = owned_body(alloc, body)?;
    let answer = answer_stages(alloc, store, namespace, &fields);
    drop(fields);
    answer
}
