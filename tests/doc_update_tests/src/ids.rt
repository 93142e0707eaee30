//! Tests of which `_id`s updates take for one, and which ones no document may have: the rows follow
//! MongoDB's manual (Documents: The _id Field, and Database Commands: update).

use bson_doc::Bson;
use bson_json_read::from_json;
use doc_update::{Updates, after_updates};
use std::alloc::Global;

/// The documents that are held.
const HELD: [&str; 2] = [r#"{"_id": 1, "a": 1}"#, r#"{"_id": {"b": 1}, "a": 2}"#];

/// A row for each statement: it, how many documents are held behind it, and the number of its error,
/// or `-` for none.
const STATEMENTS: &str = r#"{"q": {"_id": 1.0}, "u": {"$set": {"a": 5}}} | 2 | -
{"q": {"_id": {"b": 1.0}}, "u": {"a": 5}, "upsert": true} | 2 | -
{"q": {"_id": 7}, "u": {"$set": {"a": 5}}, "upsert": true} | 3 | -
{"q": {"a": 7}, "u": {"_id": 1.0}, "upsert": true} | 2 | 11000
{"q": {"a": 7}, "u": {"_id": {"b": {"$numberLong": "1"}}}, "upsert": true} | 2 | 11000
{"q": {"a": 7}, "u": {"$set": {"_id": 1.5}}, "upsert": true} | 3 | -
{"q": {"_id": [7]}, "u": {"$set": {"a": 5}}, "upsert": true} | 2 | 53
{"q": {"a": 7}, "u": {"_id": []}, "upsert": true} | 2 | 53
{"q": {"a": 7}, "u": {"$set": {"_id": {"$undefined": true}}}, "upsert": true} | 2 | 53
{"q": {"a": 7}, "u": {"_id": {"$regularExpression": {"pattern": "x", "options": ""}}}, "upsert": true} | 2 | 53
{"q": {"a": 7}, "u": {"_id": {"b": [7]}}, "upsert": true} | 3 | -
{"q": {"_id": 1}, "u": {"$set": {"_id": 1.0}}} | 2 | 66
{"q": {"_id": 1}, "u": {"$set": {"_id": [1]}}} | 2 | 66
{"q": {"_id": 1}, "u": {"$set": {"_id": 1}}} | 2 | -"#;

/// Returns what a statement makes of the documents, and `None` if there is no memory.
fn after(alloc: Global, statement: &str) -> Option<Updates> {
    let statements = [Bson::Document(from_json(alloc, statement).ok()?)];
    let [one, other] = HELD;
    let held = [
        Bson::Document(from_json(alloc, one).ok()?),
        Bson::Document(from_json(alloc, other).ok()?),
    ];
    after_updates(alloc, true, &statements, &held).ok()
}

/// Returns the number of the error, if there is just one.
fn code_of(errors: &[Bson]) -> Option<&Bson> {
    match errors {
        [Bson::Document(error)] => error.get("code"),
        _ => None,
    }
}

/// Returns what a statement makes of the documents, in the words of a row.
fn words_of(alloc: Global, statement: &str) -> Option<String> {
    let updates = after(alloc, statement)?;
    let count = updates.documents.len();
    if updates.errors.is_empty() {
        return format!(in alloc; "{count} | -").ok();
    }
    match code_of(&updates.errors)? {
        Bson::Int32(code) => format!(in alloc; "{count} | {code}").ok(),
        _ => None,
    }
}

/// Returns true if the row's statement makes of the documents what the row says.
fn is_made(alloc: Global, row: &str) -> Option<bool> {
    let (statement, wanted) = row.split_once(" | ")?;
    Some(words_of(alloc, statement)?.as_str() == wanted)
}

#[test]
fn ids_are_equal_by_value(rt: HostRuntime) {
    for row in STATEMENTS.split('\n') {
        assert!(rt; is_made(rt.alloc(), row) == Some(true), "{row}");
    }
}
