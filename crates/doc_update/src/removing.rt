//! Removes the values at paths of a document.

ghost use Rattle.std.specs.Prelude.{◌≡◌, IfOk, OnOk, map, option_map};
ghost use Rattle.bson_doc.specs.{value_of};
ghost use Rattle.doc_query.specs.{steps, steps_left};
ghost use Rattle.doc_update.specs.Elements.{index_of};
ghost use Rattle.doc_update.specs.Removing.{left_by, left_field, left_in, left_of};
ghost use Rattle.doc_update.specs.Removing.{put_or_without, without_each};

use crate::elements::index_of;
use bson_doc::{Array, Bson, Document};
use doc_query::{copies, first_step, set};
use std::alloc::{AllocError, Global};
use std::mem;

/// Sets a field of a document, or removes it if there is no value.
fn set_or_remove(
    alloc: Global,
    document: &mut Document,
    name: &str,
    value: Option<Bson>,
) -> Result<(), AllocError>
    ensures { OnOk result (document.new
        ≡ put_or_without name.now (option_map value_of value) document.old) }
{
    match value {
        None => {
            drop(document.remove(name));
            Ok(())
        }
        Some(value) => set(alloc, document, name, value),
    }
}

/// Returns what is left of a value that the rest of a path leads through, or ends in.
#[cycle(leaving)]
#[tactic(auto, using(crate::proofs::Owning::pairs_of_tree, crate::proofs::Owning::values_of_array))]
fn left_of(
    alloc: Global,
    rest: Option<&str>,
    own: Option<&Bson>,
) -> Result<Option<Bson>, AllocError>
    ensures { IfOk result (λ left. option_map value_of left
        ≡ left_of (steps_left rest.entry) (option_map (λ v. value_of v.now) own.entry)) }
{
    let Some(path) = rest else {
        return Ok(None);
    };
    let (step, rest) = first_step(path);
    match own {
        None => Ok(None),
        Some(Bson::Document(document)) => {
            let mut copy = document.try_clone()?;
            leave_field(alloc, step, rest, &mut copy)?;
            Ok(Some(Bson::Document(copy)))
        }
        Some(Bson::Array(array)) => {
            let values = left_by(alloc, step, rest, array.as_slice())?;
            Ok(Some(Bson::Array(Array::from_vec(values))))
        }
        Some(value) => {
            let copy = value.try_clone()?;
            Ok(Some(copy))
        }
    }
}

/// Sets the field of a document that a step names to what is left of it.
#[cycle(leaving)]
fn leave_field(
    alloc: Global,
    step: &str,
    rest: Option<&str>,
    document: &mut Document,
) -> Result<(), AllocError>
    ensures { OnOk result (document.new
        ≡ left_field (left_of (steps_left rest.entry)) step.now document.old) }
{
    let left = left_of(alloc, rest, document.get(step))?;
    set_or_remove(alloc, document, step, left)
}

/// Returns copies of values, with what is left of the one that a step names.
#[cycle(leaving)]
fn left_by(
    alloc: Global,
    step: &str,
    rest: Option<&str>,
    elements: &[Bson],
) -> Result<Vec<Bson>, AllocError>
    ensures { IfOk result (λ vs. map value_of vs.items
        ≡ left_by (left_of (steps_left rest.entry)) (index_of step.now)
        (map value_of elements.now)) }
{
    let mut values = copies(alloc, elements)?;
    let Some(index) = index_of(step) else {
        return Ok(values);
    };
    let Some(element) = elements.get(index) else {
        return Ok(values);
    };
    let left = left_of(alloc, rest, Some(element))?;
    drop(mem::replace(&mut values[index], left.unwrap_or(Bson::Null)));
    Ok(values)
}

/// Removes the value at a path of a document, if it is there.
fn leave(alloc: Global, path: &str, document: &mut Document) -> Result<(), AllocError>
    ensures { OnOk result (document.new ≡ left_in (steps path.now) document.old) }
{
    let (step, rest) = first_step(path);
    leave_field(alloc, step, rest, document)
}

/// Removes the value at each of these paths from a document. An element of an array becomes null.
///
/// # Errors
///
/// Returns `AllocError` if memory runs out.
pub fn remove_each(
    alloc: Global,
    fields: &Document,
    document: &mut Document,
) -> Result<(), AllocError>
    ensures { OnOk result (document.new ≡ without_each fields.now document.old) }
{
    for (path, _) in fields {
        leave(alloc, path, document)?;
    }
    Ok(())
}
