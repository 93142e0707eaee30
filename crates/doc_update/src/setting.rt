//! Sets and increments the values at paths of a document, and makes the documents that are missing on
//! the way.

ghost use Rattle.std.specs.Prelude.{◌≡◌, Err, IfErr, IfOk, MatchResult, Ok, OnOk, map, option_map};
ghost use Rattle.bson_doc.specs.{value_of};
ghost use Rattle.doc_query.specs.{IsFailure, steps, steps_left};
ghost use Rattle.doc_update.specs.Increments.{number_of};
ghost use Rattle.doc_update.specs.Setting.{added, edit_each, edited, incremented, placed};
ghost use Rattle.doc_update.specs.Setting.{placed_in, with_element, with_field, with_inner};

use crate::elements::{index_in, put_at};
use crate::increments::{number_of, sum};
use bson_doc::{Array, Bson, Document};
use doc_query::{CommandError, Failure, first_step, set};
use std::alloc::Global;

/// What an operator makes of the value at a path, by its operand.
#[derive(Clone, Copy)]
pub enum Edit {
    /// The operand takes its place.
    Set,
    /// The operand is added to it.
    Increment,
}

// ---- the value itself

/// Returns the sum of two values.
///
/// # Errors
///
/// Returns `Increment` if one of them isn't a number, and `Overflow` if the sum of an int64 is no
/// int64.
fn added(value: &Bson, by: &Bson) -> Result<Bson, CommandError>
    ensures { MatchResult result
        (λ v. added (number_of (value_of value.now)) (number_of (value_of by.now))
        ≡ Ok (value_of v))
        (λ e. added (number_of (value_of value.now)) (number_of (value_of by.now)) ≡ Err e) }
{
    let Some(a) = number_of(value) else {
        return Err(CommandError::Increment);
    };
    let Some(b) = number_of(by) else {
        return Err(CommandError::Increment);
    };
    sum(a, b)
}

/// Returns what becomes of a value that is incremented, which may be missing.
fn incremented(by: &Bson, own: Option<&Bson>) -> Result<Bson, Failure>
    ensures ok { IfOk result (λ v. incremented (value_of by.now)
        (option_map (λ v. value_of v.now) own.entry) ≡ Ok (value_of v)) }
    ensures refused { IfErr result (λ e. IsFailure (incremented (value_of by.now)
        (option_map (λ v. value_of v.now) own.entry)) e) }
{
    match own {
        None => {
            let copy = by.try_clone()?;
            Ok(copy)
        }
        Some(value) => {
            let sum = added(value, by)?;
            Ok(sum)
        }
    }
}

/// Returns what an operator makes of the value at its path, which may be missing.
fn edited(edit: Edit, operand: &Bson, own: Option<&Bson>) -> Result<Bson, Failure>
    ensures ok { IfOk result (λ v. edited edit (value_of operand.now)
        (option_map (λ v. value_of v.now) own.entry) ≡ Ok (value_of v)) }
    ensures refused { IfErr result (λ e. IsFailure (edited edit (value_of operand.now)
        (option_map (λ v. value_of v.now) own.entry)) e) }
{
    match edit {
        Edit::Set => {
            let copy = operand.try_clone()?;
            Ok(copy)
        }
        Edit::Increment => incremented(operand, own),
    }
}

// ---- the values on the way

/// Returns what becomes of a value that the rest of a path leads through, or ends in.
#[cycle(placing)]
#[tactic(auto, using(crate::proofs::Owning::pairs_of_tree, crate::proofs::Owning::values_of_array))]
fn placed(
    alloc: Global,
    edit: Edit,
    operand: &Bson,
    rest: Option<&str>,
    own: Option<&Bson>,
) -> Result<Bson, Failure>
    ensures ok { IfOk result (λ v.
        placed (edited edit (value_of operand.now)) (steps_left rest.entry)
        (option_map (λ v. value_of v.now) own.entry) ≡ Ok (value_of v)) }
    ensures refused { IfErr result (λ e. IsFailure
        (placed (edited edit (value_of operand.now)) (steps_left rest.entry)
        (option_map (λ v. value_of v.now) own.entry)) e) }
{
    let Some(path) = rest else {
        return edited(edit, operand, own);
    };
    let (step, rest) = first_step(path);
    match own {
        None => with_inner(alloc, edit, operand, step, rest, Document::new(alloc)),
        Some(Bson::Document(document)) => {
            let copy = document.try_clone()?;
            with_inner(alloc, edit, operand, step, rest, copy)
        }
        Some(Bson::Array(array)) => {
            with_element(alloc, edit, operand, step, rest, array.as_slice())
        }
        Some(_) => Err(Failure::Refused(CommandError::NotViable)),
    }
}

/// Returns a document with what becomes of its field that a step names.
#[cycle(placing)]
fn with_inner(
    alloc: Global,
    edit: Edit,
    operand: &Bson,
    step: &str,
    rest: Option<&str>,
    mut document: Document,
) -> Result<Bson, Failure>
    ensures ok { IfOk result (λ v.
        with_inner (placed (edited edit (value_of operand.now)) (steps_left rest.entry))
        step.now document ≡ Ok (value_of v)) }
    ensures refused { IfErr result (λ e. IsFailure
        (with_inner (placed (edited edit (value_of operand.now)) (steps_left rest.entry))
        step.now document) e) }
{
    set_field(alloc, edit, operand, step, rest, &mut document)?;
    Ok(Bson::Document(document))
}

/// Sets the field of a document that a step names to what becomes of it.
#[cycle(placing)]
fn set_field(
    alloc: Global,
    edit: Edit,
    operand: &Bson,
    step: &str,
    rest: Option<&str>,
    document: &mut Document,
) -> Result<(), Failure>
    ensures ok { OnOk result
        (with_field (placed (edited edit (value_of operand.now)) (steps_left rest.entry))
        step.now document.old ≡ Ok document.new) }
    ensures refused { IfErr result (λ e. IsFailure
        (with_field (placed (edited edit (value_of operand.now)) (steps_left rest.entry))
        step.now document.old) e) }
{
    let value = placed(alloc, edit, operand, rest, document.get(step))?;
    set(alloc, document, step, value)?;
    Ok(())
}

/// Returns an array with what becomes of its element that a step names.
#[cycle(placing)]
fn with_element(
    alloc: Global,
    edit: Edit,
    operand: &Bson,
    step: &str,
    rest: Option<&str>,
    elements: &[Bson],
) -> Result<Bson, Failure>
    ensures ok { IfOk result (λ v.
        with_element (placed (edited edit (value_of operand.now)) (steps_left rest.entry))
        step.now (map value_of elements.now) ≡ Ok (value_of v)) }
    ensures refused { IfErr result (λ e. IsFailure
        (with_element (placed (edited edit (value_of operand.now)) (steps_left rest.entry))
        step.now (map value_of elements.now)) e) }
{
    let index = index_in(step, elements)?;
    let value = placed(alloc, edit, operand, rest, elements.get(index))?;
    let values = put_at(alloc, index, value, elements)?;
    Ok(Bson::Array(Array::from_vec(values)))
}

/// Edits the value at a path of a document.
fn place(
    alloc: Global,
    edit: Edit,
    path: &str,
    operand: &Bson,
    document: &mut Document,
) -> Result<(), Failure>
    ensures ok { OnOk result
        (placed_in (edited edit (value_of operand.now)) (steps path.now) document.old
        ≡ Ok document.new) }
    ensures refused { IfErr result (λ e. IsFailure
        (placed_in (edited edit (value_of operand.now)) (steps path.now) document.old) e) }
{
    let (step, rest) = first_step(path);
    set_field(alloc, edit, operand, step, rest, document)
}

/// Edits the value at each of these paths of a document by its operand, in order.
///
/// # Errors
///
/// Returns `NotViable` or `Backfill` if no value can be made at a path, and `Increment` or `Overflow`
/// if one can't be incremented.
pub fn edit_each(
    alloc: Global,
    edit: Edit,
    fields: &Document,
    document: &mut Document,
) -> Result<(), Failure>
    ensures ok { OnOk result (edit_each edit fields.now document.old ≡ Ok document.new) }
    ensures refused { IfErr result (λ e. IsFailure (edit_each edit fields.now document.old) e) }
{
    for (path, operand) in fields {
        place(alloc, edit, path, operand, document)?;
    }
    Ok(())
}
