//! Carries out the command getMore.

ghost use Rattle.std.specs.Prelude.{◌≡◌};
ghost use Rattle.bson_elem.specs.{Spells, Tree};
ghost use Rattle.bson_raw.specs.{document_bytes};
ghost use Rattle.test_store.specs.Commands.{IsCarriedOut, get_more, next_answer};
ghost use Rattle.test_store.specs.Held.{namespace_of, store_of};

use crate::answer::{Batch, cursor_answer, in_memory};
use crate::fields::{id_field, namespace_field, next_batch_size};
use crate::namespace::Namespace;
use crate::store::Store;
use bson_doc::Document;
use bson_raw::RawDocument;
use doc_query::{CommandError, Failure};
use std::alloc::Global;

/// Answers with the next documents of the cursor with this id and this namespace, at most `count`.
fn answer_next(
    alloc: Global,
    store: &mut Store,
    id: i64,
    namespace: Namespace<'_>,
    count: usize,
) -> Result<Document, Failure>
    ensures carried { IsCarriedOut
        (next_answer (store_of store.old) id (namespace_of namespace.entry) count)
        (store_of store.old) result (store_of store.new) }
    ensures steady { (store_of store.new).collections ≡ (store_of store.old).collections }
{
    let (batch, id) = store.next_batch(id, namespace, count)?;
    in_memory(cursor_answer(alloc, Batch::Next, batch, id, namespace))
}

/// Answers with the next documents of a cursor.
pub fn get_more(
    alloc: Global,
    store: &mut Store,
    body: RawDocument<'_>,
) -> Result<Document, Failure>
    ensures carried { (t : Tree) → Spells t (document_bytes body.entry)
        → IsCarriedOut (get_more (store_of store.old) t) (store_of store.old) result
        (store_of store.new) }
    ensures steady { (store_of store.new).collections ≡ (store_of store.old).collections }
{
    let id = id_field(body)?;
    let namespace = namespace_field(body, "collection", CommandError::Collection)?;
    let count = next_batch_size(body)?;
    answer_next(alloc, store, id, namespace, count)
}
