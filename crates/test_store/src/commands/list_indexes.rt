//! Carries out the command listIndexes.

ghost use Rattle.std.specs.Prelude.{◌≡◌};
ghost use Rattle.bson_elem.specs.{Spells, Tree};
ghost use Rattle.bson_raw.specs.{document_bytes};
ghost use Rattle.test_store.specs.Commands.{IsCarriedOut, list_indexes};
ghost use Rattle.test_store.specs.Held.{store_of};

use crate::answer::in_memory;
use crate::commands::find::answer_found;
use crate::fields::{list_size, namespace_field};
use crate::indexes::index_listings;
use crate::store::Store;
use bson_doc::Document;
use bson_raw::RawDocument;
use doc_query::{CommandError, Failure};
use std::alloc::Global;

/// Answers with the first listings of the indexes of a collection, and opens a cursor over the
/// others.
pub fn list_indexes(
    alloc: Global,
    store: &mut Store,
    body: RawDocument<'_>,
) -> Result<Document, Failure>
    ensures carried { (t : Tree) → Spells t (document_bytes body.entry)
        → IsCarriedOut (list_indexes (store_of store.old) t) (store_of store.old) result
        (store_of store.new) }
    ensures steady { (store_of store.new).collections ≡ (store_of store.old).collections }
{
    let namespace = namespace_field(body, "listIndexes", CommandError::ListIndexes)?;
    let count = list_size(body)?;
    let Some(indexes) = store.indexes(namespace) else {
        return Err(Failure::Refused(CommandError::NamespaceNotFound));
    };
    let listings = index_listings(alloc, indexes)?;
    in_memory(answer_found(alloc, store, namespace, listings, count, false))
}
