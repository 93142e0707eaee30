//! Tells which fields and document sequences a command carries out. A command with any other one is
//! refused by its name, since its answer would be another one than was asked for.

ghost use Rattle.std.specs.Prelude.{◌≡◌, ◌||◌, MatchOption, None, Some};
ghost use Rattle.bson_elem.specs.{Spells, Tree};
ghost use Rattle.bson_raw.specs.{Shows, TreeValue, document_bytes};
ghost use Rattle.wire_msg.specs.{Carries, Content};
ghost use Rattle.test_store.specs.Options.{asks, first_unread, is_aggregate_field, is_count_field};
ghost use Rattle.test_store.specs.Options.{is_databases_field, is_delete_field, is_find_field};
ghost use Rattle.test_store.specs.Options.{is_general};
ghost use Rattle.test_store.specs.Options.{is_insert_field, is_list_field, is_more_field};
ghost use Rattle.test_store.specs.Options.{is_unread, is_update_field};
ghost use Rattle.test_store.specs.Options.{reads, reads_cursor, reads_in, reads_sequence};
ghost use Rattle.test_store.specs.Options.{unread_field, unread_option, unread_sequence};

use crate::commands::Command;
use bson_raw::{RawBson, RawDocument};
use wire_msg::Payload;

/// A document whose fields are carried out or not.
#[derive(Clone, Copy)]
enum Scope {
    /// The body of this command.
    Body(Command),
    /// The field `cursor` of a command.
    Cursor,
}

/// Returns true if this field of a command never changes its answer.
fn is_general(name: &str) -> bool
    ensures { result ≡ is_general name.now }
{
    matches!(
        name,
        "$db"
            | "$clusterTime"
            | "$readPreference"
            | "lsid"
            | "readConcern"
            | "writeConcern"
            | "maxTimeMS"
            | "comment"
            | "apiVersion"
            | "apiStrict"
            | "apiDeprecationErrors"
    )
}

/// Returns true if insert carries out this field.
fn is_insert_field(name: &str) -> bool
    ensures { result ≡ is_insert_field name.now }
{
    matches!(
        name,
        "insert" | "documents" | "ordered" | "bypassDocumentValidation"
    )
}

/// Returns true if find carries out this field.
fn is_find_field(name: &str) -> bool
    ensures { result ≡ is_find_field name.now }
{
    matches!(
        name,
        "find"
            | "filter"
            | "sort"
            | "skip"
            | "limit"
            | "batchSize"
            | "singleBatch"
            | "projection"
            | "allowDiskUse"
            | "noCursorTimeout"
            | "allowPartialResults"
    )
}

/// Returns true if delete carries out this field.
fn is_delete_field(name: &str) -> bool
    ensures { result ≡ is_delete_field name.now }
{
    matches!(name, "delete" | "deletes" | "ordered")
}

/// Returns true if update carries out this field.
fn is_update_field(name: &str) -> bool
    ensures { result ≡ is_update_field name.now }
{
    matches!(
        name,
        "update" | "updates" | "ordered" | "bypassDocumentValidation"
    )
}

/// Returns true if count carries out this field.
fn is_count_field(name: &str) -> bool
    ensures { result ≡ is_count_field name.now }
{
    matches!(name, "count" | "query" | "skip" | "limit")
}

/// Returns true if aggregate carries out this field.
fn is_aggregate_field(name: &str) -> bool
    ensures { result ≡ is_aggregate_field name.now }
{
    matches!(
        name,
        "aggregate" | "pipeline" | "cursor" | "allowDiskUse" | "bypassDocumentValidation"
    )
}

/// Returns true if getMore carries out this field.
fn is_more_field(name: &str) -> bool
    ensures { result ≡ is_more_field name.now }
{
    matches!(name, "getMore" | "collection" | "batchSize")
}

/// Returns true if listCollections carries out this field.
fn is_list_field(name: &str) -> bool
    ensures { result ≡ is_list_field name.now }
{
    matches!(
        name,
        "listCollections" | "filter" | "nameOnly" | "cursor" | "authorizedCollections"
    )
}

/// Returns true if listDatabases carries out this field.
fn is_databases_field(name: &str) -> bool
    ensures { result ≡ is_databases_field name.now }
{
    matches!(
        name,
        "listDatabases" | "filter" | "nameOnly" | "authorizedDatabases"
    )
}

/// Returns true if a command carries out this field of its own, or gives one answer whatever the
/// field is.
fn reads_own(command: Command, name: &str) -> bool
    ensures { reads command name.now ≡ (result || is_general name.now) }
{
    match command {
        Command::Insert => is_insert_field(name),
        Command::Find => is_find_field(name),
        Command::GetMore => is_more_field(name),
        Command::Delete => is_delete_field(name),
        Command::Update => is_update_field(name),
        Command::Count => is_count_field(name),
        Command::Aggregate => is_aggregate_field(name),
        Command::KillCursors => matches!(name, "killCursors" | "cursors"),
        Command::Drop => matches!(name, "drop"),
        Command::DropDatabase => matches!(name, "dropDatabase"),
        Command::ListCollections => is_list_field(name),
        Command::ListDatabases => is_databases_field(name),
        Command::CreateIndexes => matches!(name, "createIndexes" | "indexes"),
        Command::ListIndexes => matches!(name, "listIndexes" | "cursor"),
        _ => true,
    }
}

/// Returns true if a command carries out this field, or gives one answer whatever the field is.
fn reads(command: Command, name: &str) -> bool
    ensures { result ≡ reads command name.now }
{
    reads_own(command, name) || is_general(name)
}

/// Returns true if a field of such a document is carried out, or never changes the answer.
fn reads_in(scope: Scope, name: &str) -> bool
    ensures { result ≡ reads_in scope name.now }
{
    match scope {
        Scope::Body(command) => reads(command, name),
        Scope::Cursor => name == "batchSize",
    }
}

/// Returns true unless the value is false. An option that is false asks for nothing.
fn asks(value: RawBson<'_>) -> bool
    ensures { (v : TreeValue) → Shows value.entry v → result ≡ asks v }
{
    match value {
        RawBson::Boolean(truth) => truth,
        _ => true,
    }
}

/// Returns true if a field asks for what isn't carried out.
fn is_unread(scope: Scope, name: &str, value: RawBson<'_>) -> bool
    ensures { (v : TreeValue) → Shows value.entry v → result ≡ is_unread scope name.now v }
{
    !reads_in(scope, name) && asks(value)
}

/// Returns the name of the first field of a document that asks for what isn't carried out.
fn unread_field(scope: Scope, document: RawDocument<'_>) -> Option<&str>
    ensures { (t : Tree) → Spells t (document_bytes document.entry)
        → MatchOption result (unread_field scope t ≡ None)
        (λ n. unread_field scope t ≡ Some n.now) }
{
    for (name, value) in document.iter() {
        if is_unread(scope, name, value) {
            return Some(name);
        }
    }
    None
}

/// Returns true if a command has a field `cursor`, which says how its cursor is made.
fn reads_cursor(command: Command) -> bool
    ensures { result ≡ reads_cursor command }
{
    matches!(
        command,
        Command::Aggregate | Command::ListCollections | Command::ListIndexes
    )
}

/// Returns the name of the first field of the field `cursor` that asks for what isn't carried out.
fn unread_option(command: Command, body: RawDocument<'_>) -> Option<&str>
    ensures { (t : Tree) → Spells t (document_bytes body.entry)
        → MatchOption result (unread_option command t ≡ None)
        (λ n. unread_option command t ≡ Some n.now) }
{
    if !reads_cursor(command) {
        return None;
    }
    match body.get("cursor") {
        Some(RawBson::Document(cursor)) => unread_field(Scope::Cursor, cursor),
        _ => None,
    }
}

/// Returns true if a command takes its documents or statements from a sequence with this
/// identifier.
fn reads_sequence(command: Command, identifier: &str) -> bool
    ensures { result ≡ reads_sequence command identifier.now }
{
    match command {
        Command::Insert => matches!(identifier, "documents"),
        Command::Update => matches!(identifier, "updates"),
        Command::Delete => matches!(identifier, "deletes"),
        _ => false,
    }
}

/// Returns the identifier of the first document sequence that a command doesn't read. It reads one
/// at most, the first.
fn unread_sequence(command: Command, payload: Payload<'_>) -> Option<&str>
    ensures { (c : Content) → Carries payload.entry c
        → MatchOption result (unread_sequence command c.sequences ≡ None)
        (λ n. unread_sequence command c.sequences ≡ Some n.now) }
{
    let mut sequences = payload.sequences();
    let (first, _) = sequences.next()?;
    if !reads_sequence(command, first) {
        return Some(first);
    }
    let (second, _) = sequences.next()?;
    Some(second)
}

/// Returns the name of the first field that asks for what a command doesn't carry out, or of the
/// first document sequence where no field does.
pub fn first_unread(command: Command, payload: Payload<'_>) -> Option<&str>
    ensures { (c : Content) → Carries payload.entry c
        → MatchOption result (first_unread command c ≡ None)
        (λ n. first_unread command c ≡ Some n.now) }
{
    let body = payload.body();
    if let Some(name) = unread_field(Scope::Body(command), body) {
        return Some(name);
    }
    if let Some(name) = unread_option(command, body) {
        return Some(name);
    }
    match command {
        Command::Unknown => None,
        _ => unread_sequence(command, payload),
    }
}
