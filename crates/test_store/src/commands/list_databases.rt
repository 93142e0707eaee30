//! Carries out the command listDatabases.

ghost use Rattle.std.specs.Prelude.{◌≡◌, ◌++◌, ◌∷◌, [], IfOk, OnOk, map};
ghost use Rattle.bson_elem.specs.{Spells, Tree};
ghost use Rattle.bson_raw.specs.{document_bytes};
ghost use Rattle.bson_doc.specs.{tree_of, value_of};
ghost use Rattle.doc_query.specs.{found, inner};
ghost use Rattle.test_store.specs.Answers.{database_listing, databases_pairs};
ghost use Rattle.test_store.specs.Commands.{IsCarriedOut, database_listings, list_databases};
ghost use Rattle.test_store.specs.Held.{collection_of, store_of};

use crate::answer::{in_memory, set_array};
use crate::fields::name_only_field;
use crate::store::{Collection, Store, has_database};
use crate::values::push;
use bson_doc::{Bson, Document};
use bson_raw::RawDocument;
use command_parts::{set_ok, set_text};
use doc_query::{Failure, filter_field, matching, set};
use std::alloc::{AllocError, Global};

/// Sets the fields of the listing of the database with this name: with `name_only` the name alone,
/// and else that it has something, in no files.
fn set_listing(
    alloc: Global,
    listing: &mut Document,
    name: &str,
    name_only: bool,
) -> Result<(), AllocError>
    requires { listing.old ≡ [] }
    ensures { OnOk result (inner listing.new ≡ database_listing name_only name.now) }
{
    let is_set = set_text(alloc, listing, "name", name);
    if name_only {
        return is_set;
    }
    is_set
        .and(set(alloc, listing, "sizeOnDisk", Bson::Int64(0)))
        .and(set(alloc, listing, "empty", Bson::Boolean(false)))
}

/// Makes the listing of the database with this name.
fn listing(alloc: Global, name: &str, name_only: bool) -> Result<Document, AllocError>
    ensures { IfOk result (λ d. inner d ≡ database_listing name_only name.now) }
{
    let mut listing = Document::new(alloc);
    set_listing(alloc, &mut listing, name, name_only).and(Ok(listing))
}

/// Appends the listing of the database with this name.
fn push_listing(
    alloc: Global,
    name: &str,
    name_only: bool,
    found: &mut Vec<Bson>,
) -> Result<(), AllocError>
    ensures { OnOk result
        (map value_of found.new.items ≡ map value_of found.old.items
        ++ database_listing name_only name.now ∷ []) }
{
    let listing = listing(alloc, name, name_only)?;
    push(found, Bson::Document(listing))
}

/// Makes the listing of each database, in the order of their first collections.
fn listings(
    alloc: Global,
    collections: &[Collection],
    name_only: bool,
) -> Result<Vec<Bson>, AllocError>
    ensures { IfOk result (λ vs. map value_of vs.items
        ≡ database_listings name_only (map collection_of collections.now)) }
{
    let mut found = Vec::new(alloc);
    for (i, collection) in collections.iter().enumerate() {
        let name = collection.namespace.database.as_str();
        if !has_database(&collections[..i], name) {
            push_listing(alloc, name, name_only, &mut found)?;
        }
    }
    Ok(found)
}

/// Sets the fields of the answer with these listings, and unless it is for names alone with their
/// sizes' sum.
fn set_databases(
    alloc: Global,
    answer: &mut Document,
    listings: Vec<Bson>,
    name_only: bool,
) -> Result<(), AllocError>
    requires { answer.old ≡ [] }
    ensures { OnOk result
        (answer.new ≡ databases_pairs name_only (map value_of listings.items)) }
{
    let is_set = set_array(alloc, answer, "databases", listings);
    if name_only {
        return is_set.and(set_ok(alloc, answer));
    }
    is_set
        .and(set(alloc, answer, "totalSize", Bson::Int64(0)))
        .and(set_ok(alloc, answer))
}

/// Makes the answer with these listings, and unless it is for names alone with their sizes' sum.
fn databases_answer(
    alloc: Global,
    listings: Vec<Bson>,
    name_only: bool,
) -> Result<Document, AllocError>
    ensures { IfOk result (λ d. d ≡ databases_pairs name_only (map value_of listings.items)) }
{
    let mut answer = Document::new(alloc);
    set_databases(alloc, &mut answer, listings, name_only).and(Ok(answer))
}

/// Answers with those of the listings of all databases that match a filter.
fn answer_list(
    alloc: Global,
    collections: &[Collection],
    name_only: bool,
    filter: &Document,
) -> Result<Document, AllocError>
    ensures { IfOk result (λ d. d ≡ databases_pairs name_only (found (tree_of filter.now)
        (database_listings name_only (map collection_of collections.now)))) }
{
    let all = listings(alloc, collections, name_only)?;
    let found = matching(alloc, filter, &all);
    drop(all);
    databases_answer(alloc, found?, name_only)
}

/// Answers with the listings of the databases that match a filter.
pub fn list_databases(
    alloc: Global,
    store: &mut Store,
    body: RawDocument<'_>,
) -> Result<Document, Failure>
    ensures carried { (t : Tree) → Spells t (document_bytes body.entry)
        → IsCarriedOut (list_databases (store_of store.old) t) (store_of store.old) result
        (store_of store.new) }
    ensures steady { (store_of store.new).collections ≡ (store_of store.old).collections }
{
    let name_only = name_only_field(body)?;
    let filter = filter_field(alloc, body, "filter")?;
    let answer = answer_list(alloc, &store.collections, name_only, &filter);
    drop(filter);
    in_memory(answer)
}
