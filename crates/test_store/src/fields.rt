//! Reads the fields of a command out of its body.

ghost use Rattle.std.specs.Prelude.{◌≡◌, Err, MatchOption, MatchResult, None, Ok, Option, Some};
ghost use Rattle.std.specs.Prelude.{codes};
ghost use Rattle.bson_elem.specs.{Spells, Tree};
ghost use Rattle.bson_raw.specs.{Shows, ShowsFound, TreeValue, document_bytes, first_named};
ghost use Rattle.doc_query.specs.{count_of, text_of};
ghost use Rattle.test_store.specs.Fields.{asked_size, first_batch_size, flag_field, id_field};
ghost use Rattle.test_store.specs.Fields.{id_of, list_size, name_only_field, namespace_at};
ghost use Rattle.test_store.specs.Fields.{next_batch_size, number_field, text_field};
ghost use Rattle.test_store.specs.Held.{namespace_of};

use crate::namespace::Namespace;
use bson_raw::{RawBson, RawDocument};
use doc_query::CommandError;

/// The most documents in the first batch, if the command doesn't say.
pub const DEFAULT_BATCH_SIZE: usize = 101;

/// The greatest number that a field can ask for.
const MAX_BATCH_SIZE: usize = 9_223_372_036_854_775_807;

/// Returns the text of a value, if it is a string.
fn text_of(value: Option<RawBson<'_>>) -> Option<&str>
    ensures { (found : Option TreeValue)
        → MatchOption value.entry (found ≡ None) (λ v. ShowsFound v found)
        → MatchOption result (text_of found ≡ None) (λ s. text_of found ≡ Some s.now) }
{
    match value {
        Some(RawBson::String(text)) => Some(text),
        _ => None,
    }
}

/// Returns the number, if the value is an int64.
fn id_of(value: Option<RawBson<'_>>) -> Option<i64>
    ensures { (found : Option TreeValue)
        → MatchOption value.entry (found ≡ None) (λ v. ShowsFound v found)
        → result ≡ id_of found }
{
    match value {
        Some(RawBson::Int64(n)) => Some(n),
        _ => None,
    }
}

/// Returns the number, if the value is an int32 or an int64 that isn't negative.
fn count_of(value: RawBson<'_>) -> Option<usize>
    ensures { (v : TreeValue) → Shows value.entry v → result ≡ count_of v }
{
    match value {
        RawBson::Int32(n) if n >= 0 => Some(n as usize),
        RawBson::Int64(n) if n >= 0 => Some(n as usize),
        _ => None,
    }
}

/// Returns the text of the field `name`.
///
/// # Errors
///
/// Returns `error` if it isn't a string.
pub fn text_field<'a>(
    body: RawDocument<'a>,
    name: &str,
    error: CommandError,
) -> Result<&'a str, CommandError>
    ensures { (t : Tree) → Spells t (document_bytes body.entry)
        → MatchResult result (λ s. text_field name.now error t ≡ Ok s.now)
        (λ e. text_field name.now error t ≡ Err e) }
{
    match text_of(body.get(name)) {
        Some(text) => Ok(text),
        None => Err(error),
    }
}

/// Returns the namespace that a command names: its database, and its collection in the field
/// `name`.
///
/// # Errors
///
/// Returns `Database` if the field `$db` isn't a string, and otherwise `error` if the field `name`
/// isn't.
pub fn namespace_field<'a>(
    body: RawDocument<'a>,
    name: &str,
    error: CommandError,
) -> Result<Namespace<'a>, CommandError>
    ensures { (t : Tree) → Spells t (document_bytes body.entry)
        → MatchResult result (λ n. namespace_at name.now error t ≡ Ok (namespace_of n))
        (λ e. namespace_at name.now error t ≡ Err e) }
{
    let database = text_field(body, "$db", CommandError::Database)?;
    let collection = text_field(body, name, error)?;
    Ok(Namespace {
        database,
        collection,
    })
}

/// Returns the id in the field `getMore`.
///
/// # Errors
///
/// Returns `GetMore` if it isn't an int64.
pub fn id_field(body: RawDocument<'_>) -> Result<i64, CommandError>
    ensures { (t : Tree) → Spells t (document_bytes body.entry) → result ≡ id_field t }
{
    match id_of(body.get("getMore")) {
        Some(id) => Ok(id),
        None => Err(CommandError::GetMore),
    }
}

/// Returns the whole number in the field `name`, or 0 if there is no such field.
///
/// # Errors
///
/// Returns `error` if it isn't a whole number.
pub fn number_field(
    body: RawDocument<'_>,
    name: &str,
    error: CommandError,
) -> Result<usize, CommandError>
    ensures { (t : Tree) → Spells t (document_bytes body.entry)
        → result ≡ number_field name.now error t }
{
    let Some(value) = body.get(name) else {
        return Ok(0);
    };
    match count_of(value) {
        Some(number) => Ok(number),
        None => Err(error),
    }
}

/// Returns the truth value in the field `name`, or `otherwise` if there is no such field.
///
/// # Errors
///
/// Returns `error` if it isn't a boolean.
pub fn flag_field(
    body: RawDocument<'_>,
    name: &str,
    otherwise: bool,
    error: CommandError,
) -> Result<bool, CommandError>
    ensures { (t : Tree) → Spells t (document_bytes body.entry)
        → result ≡ flag_field name.now otherwise error t }
{
    match body.get(name) {
        None => Ok(otherwise),
        Some(RawBson::Boolean(truth)) => Ok(truth),
        Some(_) => Err(error),
    }
}

/// Returns true if the field `nameOnly` asks for names alone: if it is true, or a whole number that
/// isn't 0, as some drivers write it.
///
/// # Errors
///
/// Returns `NameOnly` if it is neither a boolean nor a whole number.
pub fn name_only_field(body: RawDocument<'_>) -> Result<bool, CommandError>
    ensures { (t : Tree) → Spells t (document_bytes body.entry) → result ≡ name_only_field t }
{
    match body.get("nameOnly") {
        None => Ok(false),
        Some(RawBson::Boolean(truth)) => Ok(truth),
        Some(value) => match count_of(value) {
            Some(count) => Ok(count > 0),
            None => Err(CommandError::NameOnly),
        },
    }
}

/// Returns the most documents that a batch may have: the field `batchSize`, or `otherwise` if there
/// is none.
///
/// # Errors
///
/// Returns `error` if it isn't a whole number of at least `least`.
fn asked_size(
    body: RawDocument<'_>,
    otherwise: usize,
    least: usize,
    error: CommandError,
) -> Result<usize, CommandError>
    ensures { (t : Tree) → Spells t (document_bytes body.entry)
        → result ≡ asked_size otherwise least error (first_named (codes "batchSize") t) }
{
    let Some(value) = body.get("batchSize") else {
        return Ok(otherwise);
    };
    match count_of(value) {
        Some(count) if count >= least => Ok(count),
        _ => Err(error),
    }
}

/// Returns the most documents that the first batch may have: the field `batchSize`, or 101 if there
/// is none.
///
/// # Errors
///
/// Returns `FirstBatchSize` if it isn't a whole number.
pub fn first_batch_size(body: RawDocument<'_>) -> Result<usize, CommandError>
    ensures { (t : Tree) → Spells t (document_bytes body.entry) → result ≡ first_batch_size t }
{
    asked_size(body, DEFAULT_BATCH_SIZE, 0, CommandError::FirstBatchSize)
}

/// Returns the most documents that a later batch may have: the field `batchSize`, or the greatest
/// number that one can ask for if there is none.
///
/// # Errors
///
/// Returns `NextBatchSize` if it isn't a whole number of at least 1.
pub fn next_batch_size(body: RawDocument<'_>) -> Result<usize, CommandError>
    ensures { (t : Tree) → Spells t (document_bytes body.entry) → result ≡ next_batch_size t }
{
    asked_size(body, MAX_BATCH_SIZE, 1, CommandError::NextBatchSize)
}

/// Returns the most listings that the first batch may have: the field `batchSize` of the field
/// `cursor`, or 101 if there is none.
///
/// # Errors
///
/// Returns `Cursor` if the field `cursor` isn't a document, and `FirstBatchSize` if its field isn't
/// a whole number.
pub fn list_size(body: RawDocument<'_>) -> Result<usize, CommandError>
    ensures { (t : Tree) → Spells t (document_bytes body.entry) → result ≡ list_size t }
{
    match body.get("cursor") {
        None => Ok(DEFAULT_BATCH_SIZE),
        Some(RawBson::Document(cursor)) => first_batch_size(cursor),
        Some(_) => Err(CommandError::Cursor),
    }
}
