//! Copying the values and the names of documents and arrays. The values are owned here, so that
//! what copies them in turn owns few.

ghost use Rattle.std.specs.Prelude.{◌≡◌, ◌++◌, ◌∷◌, [], length, map, string_bytes, IfOk, OnOk};
ghost use Rattle.bson_raw.specs.{TreeValue};
ghost use Rattle.bson_doc.specs.Bson.{value_of};
ghost use Rattle.bson_doc.specs.Document.{paired};

use crate::bson_values::Bson;
use crate::documents::Document;
use crate::name_list::NameList;
use std::alloc::AllocError;

/// Appends a copy of a value, if there is one, to values.
pub(crate) fn push_copy(
    copy: Result<Bson, AllocError>,
    values: &mut Vec<Bson>,
) -> Result<(), AllocError>
    ensures { (v : TreeValue) → IfOk copy (λ b. value_of b ≡ v)
        → OnOk result (map value_of values.new.items ≡ map value_of values.old.items ++ v ∷ []) }
{
    values.push(copy?)?;
    Ok(())
}

/// Returns the document of copies of these names, and of their values.
pub(crate) fn with_names(names: &NameList, values: Vec<Bson>) -> Result<Document, AllocError>
    requires { length names.now ≡ length values.items }
    ensures { IfOk result
        (λ d. d ≡ paired (map string_bytes names.now) (map value_of values.items)) }
{
    let names = names.try_clone()?;
    Ok(Document::of_parts(names, values))
}
