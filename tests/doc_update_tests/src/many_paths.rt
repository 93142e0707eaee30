//! Tests of an update of so many paths that they can't be compared in pairs: a test that runs for
//! three minutes fails.

use bson_doc::{Bson, Document};
use doc_query::set;
use doc_update::after_updates;
use std::alloc::Global;

/// How many paths `$set` names.
const PATHS: u32 = 20_000;

/// A path that `$set` names, too. Its bytes stand between `field0` and `field0.inner`.
const BETWEEN: &str = "field0-";

/// A path that `$unset` names beside them, and true if it overlaps none of them.
const BESIDE: [(&str, bool); 6] = [
    ("field", true),
    ("field20000", true),
    ("field.0", true),
    ("field0.inner", false),
    ("field19999.inner", false),
    ("field19999", false),
];

/// Returns what `$set` asks for.
fn set_fields(alloc: Global) -> Option<Document> {
    let mut fields = Document::new(alloc);
    for number in 0..PATHS {
        let name = format!(in alloc; "field{number}").ok()?;
        set(alloc, &mut fields, name.as_str(), Bson::Int32(1)).ok()?;
    }
    set(alloc, &mut fields, BETWEEN, Bson::Int32(1)).ok()?;
    Some(fields)
}

/// Returns a document with one field.
fn with_field(alloc: Global, name: &str, value: Bson) -> Option<Document> {
    let mut document = Document::new(alloc);
    set(alloc, &mut document, name, value).ok()?;
    Some(document)
}

/// Returns a statement that updates all documents so, and removes the value at a path.
fn statement(alloc: Global, path: &str) -> Option<Bson> {
    let unset = with_field(alloc, path, Bson::Null)?;
    let mut update = with_field(alloc, "$set", Bson::Document(set_fields(alloc)?))?;
    set(alloc, &mut update, "$unset", Bson::Document(unset)).ok()?;
    let mut statement = with_field(alloc, "q", Bson::Document(Document::new(alloc)))?;
    set(alloc, &mut statement, "u", Bson::Document(update)).ok()?;
    Some(Bson::Document(statement))
}

/// Returns true if the statement changes an empty document, and `None` if there is no memory.
fn changes(alloc: Global, path: &str) -> Option<bool> {
    let statements = [statement(alloc, path)?];
    let documents = [Bson::Document(Document::new(alloc))];
    let updates = after_updates(alloc, true, &statements, &documents).ok()?;
    Some(updates.modified == 1)
}

#[test]
fn many_paths_are_compared(rt: HostRuntime) {
    for (path, is_apart) in &BESIDE {
        assert!(rt; changes(rt.alloc(), path) == Some(*is_apart), "{path}");
    }
}
