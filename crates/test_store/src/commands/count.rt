//! Carries out the command count.

ghost use Rattle.std.specs.Prelude.{◌≡◌};
ghost use Rattle.bson_elem.specs.{Spells, Tree};
ghost use Rattle.bson_raw.specs.{document_bytes};
ghost use Rattle.test_store.specs.Commands.{IsCarriedOut, count};
ghost use Rattle.test_store.specs.Held.{store_of};

use crate::answer::{counted_answer, in_memory};
use crate::selection::{selected, selection_in};
use crate::store::Store;
use bson_doc::Document;
use bson_raw::RawDocument;
use doc_query::{CommandError, Failure};
use std::alloc::Global;

/// Answers with the number of documents that are selected.
pub fn count(alloc: Global, store: &mut Store, body: RawDocument<'_>) -> Result<Document, Failure>
    ensures carried { (t : Tree) → Spells t (document_bytes body.entry)
        → IsCarriedOut (count (store_of store.old) t) (store_of store.old) result
        (store_of store.new) }
    ensures steady { (store_of store.new).collections ≡ (store_of store.old).collections }
{
    let selection = selection_in(alloc, body, "count", CommandError::Count, "query")?;
    let found = selected(alloc, store, &selection);
    drop(selection);
    let found = found?;
    let answer = counted_answer(alloc, found.len());
    drop(found);
    in_memory(answer)
}
