//! Selects documents of a collection: those that match a filter, sorted by keys, from one of them
//! on, and no more than a limit.

ghost use Rattle.std.specs.Prelude.{◌≡◌, IfErr, IfOk, Ok, OnOk, map};
ghost use Rattle.bson_elem.specs.{Spells, Tree};
ghost use Rattle.bson_raw.specs.{document_bytes};
ghost use Rattle.bson_doc.specs.{value_of};
ghost use Rattle.doc_query.specs.{IsFailure};
ghost use Rattle.test_store.specs.Held.{store_of};
ghost use Rattle.test_store.specs.Selecting.{arranged, bounds_in, limited, selected};
ghost use Rattle.test_store.specs.Selecting.{selection_in, selection_of};

use crate::fields::{namespace_field, number_field};
use crate::namespace::Namespace;
use crate::store::Store;
use bson_doc::{Bson, Document};
use bson_raw::RawDocument;
use doc_query::{CommandError, Failure, filter_field, found_in};
use doc_stages::{sort_field, sort_in, take_batch};
use std::alloc::Global;

/// Which documents are selected.
#[derive(Drop)]
pub struct Selection<'a> {
    /// The namespace whose documents are searched.
    pub namespace: Namespace<'a>,
    /// The filter that they must match.
    pub filter: Document,
    /// The keys by which they are sorted.
    pub keys: Document,
    /// The number of documents that match and are passed over.
    pub skip: usize,
    /// The most documents after those, or 0 for all.
    pub limit: usize,
}

/// Reads how many of the documents that match are passed over, and the most after those.
fn bounds_in(body: RawDocument<'_>) -> Result<(usize, usize), CommandError>
    ensures { (t : Tree) → Spells t (document_bytes body.entry) → result ≡ bounds_in t }
{
    let skip = number_field(body, "skip", CommandError::Skip)?;
    let limit = number_field(body, "limit", CommandError::Limit)?;
    Ok((skip, limit))
}

/// Reads which documents a command selects. Its fields `name` and `filter` have these names.
pub fn selection_in<'a>(
    alloc: Global,
    body: RawDocument<'a>,
    name: &str,
    error: CommandError,
    filter: &str,
) -> Result<Selection<'a>, Failure>
    ensures ok { (t : Tree) → Spells t (document_bytes body.entry)
        → IfOk result (λ q. selection_in name.now error filter.now t ≡ Ok (selection_of q)) }
    ensures refused { (t : Tree) → Spells t (document_bytes body.entry)
        → IfErr result (λ e. IsFailure (selection_in name.now error filter.now t) e) }
{
    let namespace = namespace_field(body, name, error)?;
    let filter = filter_field(alloc, body, filter)?;
    let keys = match sort_field(alloc, body) {
        Ok(keys) => keys,
        Err(failure) => {
            drop(filter);
            return Err(failure);
        }
    };
    match bounds_in(body) {
        Ok((skip, limit)) => Ok(Selection {
            namespace,
            filter,
            keys,
            skip,
            limit,
        }),
        Err(error) => {
            drop(filter);
            drop(keys);
            Err(Failure::Refused(error))
        }
    }
}

/// Removes the documents after the first ones, of which there are `limit`, unless `limit` is 0.
fn keep_limit(found: &mut Vec<Bson>, limit: usize)
    ensures { found.new.items ≡ limited limit found.old.items }
{
    if limit != 0 {
        found.truncate(limit);
    }
}

/// Sorts documents, and removes those that are passed over, and those after the limit.
fn arrange(selection: &Selection<'_>, found: &mut Vec<Bson>) -> Result<(), Failure>
    ensures ok { OnOk result (arranged (selection_of selection.now) (map value_of found.old.items)
        ≡ Ok (map value_of found.new.items)) }
    ensures refused { IfErr result (λ e. IsFailure
        (arranged (selection_of selection.now) (map value_of found.old.items)) e) }
{
    sort_in(&selection.keys, found)?;
    let skipped = take_batch(found, selection.skip)?;
    drop(skipped);
    keep_limit(found, selection.limit);
    Ok(())
}

/// Returns copies of the documents that are selected, in order.
pub fn selected(
    alloc: Global,
    store: &Store,
    selection: &Selection<'_>,
) -> Result<Vec<Bson>, Failure>
    ensures ok { IfOk result (λ vs.
        selected (selection_of selection.now) (store_of store.now).collections
        ≡ Ok (map value_of vs.items)) }
    ensures refused { IfErr result (λ e. IsFailure
        (selected (selection_of selection.now) (store_of store.now).collections) e) }
{
    let documents = store.documents(selection.namespace);
    let mut found = found_in(alloc, &selection.filter, documents)?;
    arrange(selection, &mut found).and(Ok(found))
}
