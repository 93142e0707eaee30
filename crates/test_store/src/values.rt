//! Appends values to lists, and sets fields of documents to copies.

ghost use Rattle.std.specs.Prelude.{◌≡◌, ◌++◌, ◌∷◌, [], OnOk, map};
ghost use Rattle.bson_doc.specs.{put, value_of};

use bson_doc::{Bson, Document};
use doc_query::set;
use std::alloc::{AllocError, Global};

/// Appends a value.
///
/// # Errors
///
/// Returns `AllocError` if memory runs out.
pub fn push(values: &mut Vec<Bson>, value: Bson) -> Result<(), AllocError>
    ensures { OnOk result
        (map value_of values.new.items ≡ map value_of values.old.items ++ value_of value ∷ []) }
{
    values.push(value)?;
    Ok(())
}

/// Sets a field of a document to a copy of a value.
///
/// # Errors
///
/// Returns `AllocError` if memory runs out.
pub fn set_copy(
    alloc: Global,
    document: &mut Document,
    name: &str,
    value: &Bson,
) -> Result<(), AllocError>
    ensures { OnOk result (document.new ≡ put name.now (value_of value.now) document.old) }
{
    let copy = value.try_clone()?;
    set(alloc, document, name, copy)
}
