//! Makes of a document what an update asks for.

ghost use Rattle.std.specs.Prelude.{◌≡◌, IfErr, IfOk, Ok, OnOk, codes};
ghost use Rattle.bson_doc.specs.{value_of};
ghost use Rattle.bson_doc.specs.Document.{value_named};
ghost use Rattle.doc_query.specs.{IsFailure};
ghost use Rattle.doc_update.specs.Changing.{changed, changed_fields, id_alone, keeps_id, operated};
ghost use Rattle.doc_update.specs.Changing.{replaced, still_has};

use crate::identity::put_each;
use crate::operators::{Change, Operators, has_field};
use crate::removing::remove_each;
use crate::setting::{Edit, edit_each};
use bson_doc::{Bson, Document};
use doc_query::{CommandError, Failure, is_same, set};
use std::alloc::{AllocError, Global};

/// Makes of a document what operators make of it.
fn operate(alloc: Global, operators: &Operators, document: &mut Document) -> Result<(), Failure>
    ensures ok { OnOk result (operated operators.now document.old ≡ Ok document.new) }
    ensures refused { IfErr result (λ e. IsFailure (operated operators.now document.old) e) }
{
    edit_each(alloc, Edit::Set, &operators.set, document)?;
    remove_each(alloc, &operators.unset, document)?;
    edit_each(alloc, Edit::Increment, &operators.increments, document)
}

/// Returns what operators make of a document.
fn operated(alloc: Global, operators: &Operators, document: &Document) -> Result<Document, Failure>
    ensures ok { IfOk result (λ d. operated operators.now document.now ≡ Ok d) }
    ensures refused { IfErr result (λ e. IsFailure (operated operators.now document.now) e) }
{
    let mut changed = document.try_clone()?;
    operate(alloc, operators, &mut changed)?;
    Ok(changed)
}

/// Returns a document with the `_id` of another one alone, or with nothing if that has none.
fn id_alone(alloc: Global, document: &Document) -> Result<Document, AllocError>
    ensures { IfOk result (λ d. d ≡ id_alone (value_named (codes "_id") document.now)) }
{
    match document.get("_id") {
        None => Ok(Document::new(alloc)),
        Some(id) => {
            let copy = id.try_clone()?;
            let mut alone = Document::new(alloc);
            set(alloc, &mut alone, "_id", copy)?;
            Ok(alone)
        }
    }
}

/// Returns a document that takes the place of another one, whose `_id` it keeps as its first field.
fn replaced(alloc: Global, new: &Document, document: &Document) -> Result<Document, AllocError>
    ensures { IfOk result (λ d. d ≡ replaced new.now document.now) }
{
    let mut replaced = id_alone(alloc, document)?;
    put_each(alloc, new, &mut replaced)?;
    Ok(replaced)
}

/// Returns what an update makes of the fields of a document.
///
/// # Errors
///
/// Returns `NotViable` or `Backfill` if nothing can be made at a path, and `Increment` or `Overflow` if
/// a value can't be incremented.
pub fn changed_fields(
    alloc: Global,
    change: &Change,
    document: &Document,
) -> Result<Document, Failure>
    ensures ok { IfOk result (λ d. changed_fields change.now document.now ≡ Ok d) }
    ensures refused { IfErr result (λ e. IsFailure (changed_fields change.now document.now) e) }
{
    match change {
        Change::Replace(new) => {
            let replaced = replaced(alloc, new, document)?;
            Ok(replaced)
        }
        Change::Operate(operators) => operated(alloc, operators, document),
    }
}

/// Returns true if the field `name` of a document has this value still.
pub fn still_has(document: &Document, name: &str, value: &Bson) -> bool
    ensures { result ≡ still_has (value_named name.now document.now) (value_of value.now) }
{
    match document.get(name) {
        Some(own) => is_same(own, value),
        None => false,
    }
}

/// Returns true if two documents have the same `_id`, or both have none.
fn keeps_id(old: &Document, new: &Document) -> bool
    ensures { result ≡ keeps_id (value_named (codes "_id") old.now)
        (value_named (codes "_id") new.now) }
{
    match old.get("_id") {
        None => !has_field(new, "_id"),
        Some(id) => still_has(new, "_id", id),
    }
}

/// Returns what an update makes of a document.
///
/// # Errors
///
/// Returns `NotViable` or `Backfill` if nothing can be made at a path, `Increment` or `Overflow` if a
/// value can't be incremented, and otherwise `ImmutableId` if the `_id` would change.
pub fn changed(alloc: Global, change: &Change, document: &Document) -> Result<Document, Failure>
    ensures ok { IfOk result (λ d. changed change.now document.now ≡ Ok d) }
    ensures refused { IfErr result (λ e. IsFailure (changed change.now document.now) e) }
{
    let changed = changed_fields(alloc, change, document)?;
    if !keeps_id(document, &changed) {
        return Err(Failure::Refused(CommandError::ImmutableId));
    }
    Ok(changed)
}
