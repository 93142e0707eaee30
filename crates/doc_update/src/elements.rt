//! Finds and sets the elements of arrays that the steps of an update name.

ghost use Rattle.std.specs.Prelude.{◌≡◌, ◌<◌, IfOk, OnOk, length, map};
ghost use Rattle.bson_raw.specs.{TreeValue};
ghost use Rattle.bson_doc.specs.{value_of};
ghost use Rattle.doc_update.specs.Elements.{index_in, index_of, is_near, put_at};

use crate::counts::plus;
use bson_doc::Bson;
use doc_query::{CommandError, copies, is_index};
use std::alloc::{AllocError, Global};
use std::mem;

/// The greatest index at which an element is made behind the end of an array.
const MAX_MADE_INDEX: usize = 1_500_000;

/// Returns the index that a step is: a number below 2^32, without zeros in front.
pub fn index_of(step: &str) -> Option<usize>
    ensures { result ≡ index_of step.now }
{
    let Ok(number) = step.parse::<u32>() else {
        return None;
    };
    let index = number as usize;
    if is_index(step, index) {
        Some(index)
    } else {
        None
    }
}

/// Returns true if an element can be made at this index of an array.
fn is_near(index: usize, elements: &[Bson]) -> bool
    ensures { result ≡ is_near index (map value_of elements.now) }
{
    index < elements.len() || index <= MAX_MADE_INDEX
}

/// Returns the index of the element of an array that a step makes.
///
/// # Errors
///
/// Returns `NotViable` if the step is no index, and `Backfill` if it is behind the end and above
/// 1,500,000.
pub fn index_in(step: &str, elements: &[Bson]) -> Result<usize, CommandError>
    ensures { result ≡ index_in step.now (map value_of elements.now) }
{
    let Some(index) = index_of(step) else {
        return Err(CommandError::NotViable);
    };
    if !is_near(index, elements) {
        return Err(CommandError::Backfill);
    }
    Ok(index)
}

/// Appends nulls to values until one stands at an index.
fn push_nulls(index: usize, values: &mut Vec<Bson>) -> Result<(), AllocError>
    ensures long { OnOk result (index < length values.new.items) }
    ensures same { (v : TreeValue) → OnOk result (put_at index v (map value_of values.new.items)
        ≡ put_at index v (map value_of values.old.items)) }
{
    let end = plus(index, 1)?;
    for count in values.len()..end {
        values.push(Bson::Null)?;
    }
    Ok(())
}

/// Returns copies of values, with null behind them until one stands at an index.
fn reaching(alloc: Global, index: usize, elements: &[Bson]) -> Result<Vec<Bson>, AllocError>
    ensures long { IfOk result (λ vs. index < length vs.items) }
    ensures same { (v : TreeValue) → IfOk result (λ vs. put_at index v (map value_of vs.items)
        ≡ put_at index v (map value_of elements.now)) }
{
    let mut values = copies(alloc, elements)?;
    push_nulls(index, &mut values)?;
    Ok(values)
}

/// Returns copies of values, with this one at an index, and with null where there was none before it.
///
/// # Errors
///
/// Returns `AllocError` if memory runs out.
pub fn put_at(
    alloc: Global,
    index: usize,
    value: Bson,
    elements: &[Bson],
) -> Result<Vec<Bson>, AllocError>
    ensures { IfOk result (λ vs. map value_of vs.items
        ≡ put_at index (value_of value) (map value_of elements.now)) }
{
    match reaching(alloc, index, elements) {
        Ok(mut values) => {
            drop(mem::replace(&mut values[index], value));
            Ok(values)
        }
        Err(refused) => {
            drop(value);
            Err(refused)
        }
    }
}
