//! Carries out the command listCollections.

ghost use Rattle.std.specs.Prelude.{◌≡◌, ◌++◌, IfOk, OnOk, map, codes, false, ◌∷◌, []};
ghost use Rattle.bson_elem.specs.{Spells, Tree};
ghost use Rattle.bson_raw.specs.{document_bytes};
ghost use Rattle.bson_doc.specs.{put, tree_of, value_of};
ghost use Rattle.doc_query.specs.{inner, truth};
ghost use Rattle.test_store.specs.Answers.{listing};
ghost use Rattle.test_store.specs.Commands.{IsCarriedOut, list_collections, list_reply, listings};
ghost use Rattle.test_store.specs.Held.{collection_of, store_of};

use crate::answer::in_memory;
use crate::commands::find::answer_found;
use crate::fields::{list_size, name_only_field, text_field};
use crate::namespace::Namespace;
use crate::store::{Collection, Store};
use crate::values::push;
use bson_doc::{Bson, Document};
use bson_raw::RawDocument;
use command_parts::set_text;
use doc_query::{CommandError, Failure, filter_field, matching, set};
use std::alloc::{AllocError, Global};

/// Makes the field `info` of a listing.
fn info(alloc: Global) -> Result<Document, AllocError>
    ensures { IfOk result (λ d. d ≡ (codes "readOnly", truth false) ∷ []) }
{
    let mut info = Document::new(alloc);
    set(alloc, &mut info, "readOnly", Bson::Boolean(false)).and(Ok(info))
}

/// Sets the fields of a listing that aren't asked for with `nameOnly`.
fn set_details(alloc: Global, listing: &mut Document) -> Result<(), AllocError>
    ensures { OnOk result (listing.new
        ≡ put (codes "info") (inner ((codes "readOnly", truth false) ∷ []))
        (put (codes "options") (inner []) listing.old)) }
{
    let info = info(alloc)?;
    let options = Document::new(alloc);
    set(alloc, listing, "options", Bson::Document(options)).and(set(
        alloc,
        listing,
        "info",
        Bson::Document(info),
    ))
}

/// Sets the fields of the listing of the collection with this name: with `name_only` its name and
/// type alone.
fn set_listing(
    alloc: Global,
    document: &mut Document,
    name: &str,
    name_only: bool,
) -> Result<(), AllocError>
    requires { document.old ≡ [] }
    ensures { OnOk result (inner document.new ≡ listing name_only name.now) }
{
    let is_set = set_text(alloc, document, "name", name).and(set_text(
        alloc,
        document,
        "type",
        "collection",
    ));
    if name_only {
        return is_set;
    }
    is_set.and(set_details(alloc, document))
}

/// Makes the listing of the collection with this name: with `name_only` its name and type alone.
fn listing(alloc: Global, name: &str, name_only: bool) -> Result<Document, AllocError>
    ensures { IfOk result (λ d. inner d ≡ listing name_only name.now) }
{
    let mut listing = Document::new(alloc);
    set_listing(alloc, &mut listing, name, name_only).and(Ok(listing))
}

/// Appends the listing of the collection with this name.
fn push_listing(
    alloc: Global,
    name: &str,
    name_only: bool,
    found: &mut Vec<Bson>,
) -> Result<(), AllocError>
    ensures { OnOk result
        (map value_of found.new.items ≡ map value_of found.old.items
        ++ listing name_only name.now ∷ []) }
{
    let listing = listing(alloc, name, name_only)?;
    push(found, Bson::Document(listing))
}

/// Appends the listings of the collections of a database, in order.
fn push_listings(
    alloc: Global,
    collections: &[Collection],
    database: &str,
    name_only: bool,
    found: &mut Vec<Bson>,
) -> Result<(), AllocError>
    ensures { OnOk result
        (map value_of found.new.items ≡ map value_of found.old.items
        ++ listings name_only database.now (map collection_of collections.now)) }
{
    for collection in collections {
        if collection.namespace.database.as_str() == database {
            let name = collection.namespace.collection.as_str();
            push_listing(alloc, name, name_only, found)?;
        }
    }
    Ok(())
}

/// Makes the listings of the collections of a database, in order.
fn listings(
    alloc: Global,
    collections: &[Collection],
    database: &str,
    name_only: bool,
) -> Result<Vec<Bson>, AllocError>
    ensures { IfOk result (λ vs. map value_of vs.items
        ≡ listings name_only database.now (map collection_of collections.now)) }
{
    let mut found = Vec::new(alloc);
    push_listings(alloc, collections, database, name_only, &mut found).and(Ok(found))
}

/// Answers with the first listings of the collections of a database that match a filter, and opens
/// a cursor over the others.
fn answer_list(
    alloc: Global,
    store: &mut Store,
    database: &str,
    name_only: bool,
    filter: &Document,
    count: usize,
) -> Result<Document, AllocError>
    ensures answered { IfOk result (λ d. list_reply (store_of store.old) database.now name_only
        (tree_of filter.now) count ≡ record { answer = d; held = store_of store.new }) }
    ensures steady { (store_of store.new).collections ≡ (store_of store.old).collections }
{
    let all = listings(alloc, &store.collections, database, name_only)?;
    let found = matching(alloc, filter, &all);
    drop(all);
    let found = found?;
    let namespace = Namespace {
        database,
        collection: "$cmd.listCollections",
    };
    answer_found(alloc, store, namespace, found, count, false)
}

/// Answers with the first listings of the collections of a database that match a filter, and opens
/// a cursor over the others.
pub fn list_collections(
    alloc: Global,
    store: &mut Store,
    body: RawDocument<'_>,
) -> Result<Document, Failure>
    ensures carried { (t : Tree) → Spells t (document_bytes body.entry)
        → IsCarriedOut (list_collections (store_of store.old) t) (store_of store.old) result
        (store_of store.new) }
    ensures steady { (store_of store.new).collections ≡ (store_of store.old).collections }
{
    let database = text_field(body, "$db", CommandError::Database)?;
    let name_only = name_only_field(body)?;
    let count = list_size(body)?;
    let filter = filter_field(alloc, body, "filter")?;
    let answer = answer_list(alloc, store, database, name_only, &filter, count);
    drop(filter);
    in_memory(answer)
}
