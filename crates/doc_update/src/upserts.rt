//! Makes the document that update inserts where none matches the filter of a statement.

ghost use Rattle.std.specs.Prelude.{◌≡◌, [], IfErr, IfOk, Ok, OnOk, codes, option_map};
ghost use Rattle.bson_doc.specs.{value_of};
ghost use Rattle.bson_doc.specs.Document.{value_named};
ghost use Rattle.doc_query.specs.{IsFailure};
ghost use Rattle.doc_update.specs.Upserts.{are_given, asks_in, equality, is_given, keeps_given};
ghost use Rattle.doc_update.specs.Upserts.{made_of, new_fields, with_equalities, with_equality};

use crate::changing::{changed_fields, still_has};
use crate::operators::Change;
use bson_doc::{Bson, Document};
use doc_query::{CommandError, Failure, field, has_operators, is_plain_name, set};
use std::alloc::{AllocError, Global};

// ---- the fields that the filter gives

/// Returns the value that a filter asks a field to equal: itself, or the operand of `$eq`.
fn equality(value: &Bson) -> Option<&Bson>
    ensures { option_map (λ v. value_of v.now) result ≡ equality (value_of value.now) }
{
    match value {
        Bson::Document(conditions) => {
            if has_operators(conditions) {
                field(conditions, "$eq")
            } else {
                Some(value)
            }
        }
        _ => Some(value),
    }
}

/// Returns true if a filter asks a field for `$in`.
fn asks_in(value: &Bson) -> bool
    ensures { result ≡ asks_in (value_of value.now) }
{
    match value {
        Bson::Document(conditions) => {
            has_operators(conditions) && field(conditions, "$in").is_some()
        }
        _ => false,
    }
}

/// Returns true if an upsert carries out a field of its filter.
fn is_given(name: &str, value: &Bson) -> bool
    ensures { result ≡ is_given name.now (value_of value.now) }
{
    is_plain_name(name) && !asks_in(value)
}

/// Returns true if an upsert carries out all fields of its filter.
fn are_given(filter: &Document) -> bool
    ensures { result ≡ are_given filter.now }
{
    for (name, value) in filter {
        if !is_given(name, value) {
            return false;
        }
    }
    true
}

/// Sets a field to a copy of the value that a filter asks it to equal, if it asks for one.
fn set_equality(
    alloc: Global,
    name: &str,
    value: &Bson,
    document: &mut Document,
) -> Result<(), AllocError>
    ensures { OnOk result (document.new
        ≡ with_equality name.now (equality (value_of value.now)) document.old) }
{
    match equality(value) {
        None => Ok(()),
        Some(value) => {
            let copy = value.try_clone()?;
            set(alloc, document, name, copy)
        }
    }
}

/// Returns the fields that a filter asks to equal a value.
fn equalities(alloc: Global, filter: &Document) -> Result<Document, AllocError>
    ensures { IfOk result (λ d. d ≡ with_equalities filter.now []) }
{
    let mut fields = Document::new(alloc);
    for (name, value) in filter {
        set_equality(alloc, name, value, &mut fields)?;
    }
    Ok(fields)
}

// ---- what is made of them

/// Returns true if a document has the `_id` of another one, or that has none.
fn keeps_given(given: &Document, new: &Document) -> bool
    ensures { result ≡ keeps_given (value_named (codes "_id") given.now)
        (value_named (codes "_id") new.now) }
{
    match given.get("_id") {
        None => true,
        Some(id) => still_has(new, "_id", id),
    }
}

/// Returns what an update makes of the fields that a filter gives.
fn made_of(alloc: Global, change: &Change, given: &Document) -> Result<Document, Failure>
    ensures ok { IfOk result (λ d. made_of change.now given.now ≡ Ok d) }
    ensures refused { IfErr result (λ e. IsFailure (made_of change.now given.now) e) }
{
    let made = changed_fields(alloc, change, given)?;
    if !keeps_given(given, &made) {
        return Err(Failure::Refused(CommandError::ImmutableId));
    }
    Ok(made)
}

/// Returns the fields of the document that an update inserts where none matches a filter, but for
/// an `_id` that is made.
///
/// # Errors
///
/// Returns `Upsert` if a field of the filter isn't carried out here; `NotViable` or `Backfill` if
/// nothing can be made at a path of the update; `Increment` or `Overflow` if a value can't be
/// incremented; and otherwise `ImmutableId` if the `_id` in the filter would change.
pub fn new_fields(alloc: Global, change: &Change, filter: &Document) -> Result<Document, Failure>
    ensures ok { IfOk result (λ d. new_fields change.now filter.now ≡ Ok d) }
    ensures refused { IfErr result (λ e. IsFailure (new_fields change.now filter.now) e) }
{
    if !are_given(filter) {
        return Err(Failure::Refused(CommandError::Upsert));
    }
    let given = equalities(alloc, filter)?;
    made_of(alloc, change, &given)
}
