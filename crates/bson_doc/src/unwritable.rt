//! Tests whether a document can be written, whatever its length.

ghost use Rattle.std.specs.Prelude.{◌≡◌, ◌≤◌, ◌<◌, [], Some, None, true, false, MatchResult, OnOk};
ghost use Rattle.bson_doc.specs.declared.refusal.DocRefusal.TheVariants.{ZeroInName, Depth};
ghost use Rattle.bson_doc.specs.Array.{array_tree};
ghost use Rattle.bson_doc.specs.Bson.{value_of};
ghost use Rattle.bson_doc.specs.Document.{tree_of};
ghost use Rattle.bson_doc.specs.Plain.{plain_from};
ghost use Rattle.bson_doc.specs.Repeats.{repeat_in, repeat_in_value};
ghost use Rattle.bson_doc.specs.Unwritable.{unwritable, unwritable_value};
ghost use Rattle.bson_doc.specs.Unwritable as spec;
ghost use Rattle.bson_doc.specs.Values.{plain_value};

use crate::arrays::Array;
use crate::bson_values::Bson;
use crate::documents::Document;
use crate::refusal::DocRefusal;
use bson_elem::MAX_DEPTH;

/// Returns true if one of the bytes is 00.
fn has_zero(bytes: &[u8]) -> bool
    ensures { result ≡ spec.has_zero bytes.now }
{
    bytes.iter().any(|b| *b == 0)
}

/// Checks that a name, a pattern or options have no 00.
pub(crate) fn check_cstring(text: &str) -> Result<(), DocRefusal>
    ensures { MatchResult result (λ _. spec.has_zero text.now ≡ false)
        (λ e. (spec.has_zero text.now ≡ true) × (e ≡ ZeroInName)) }
{
    if has_zero(text.as_bytes()) {
        return Err(DocRefusal::ZeroInName);
    }
    Ok(())
}

/// Checks that a container may stand in one of depth `depth`.
fn check_depth(depth: u32) -> Result<(), DocRefusal>
    ensures { MatchResult result (λ _. depth < 200) (λ e. (200 ≤ depth) × (e ≡ Depth)) }
{
    if depth >= MAX_DEPTH {
        return Err(DocRefusal::Depth);
    }
    Ok(())
}

/// Checks a value that stands in a container of depth `depth`.
#[cycle(check)]
pub(crate) fn check_value(value: &Bson, depth: u32) -> Result<(), DocRefusal>
    ensures reason { MatchResult result (λ _. unwritable_value depth (value_of value.now) ≡ None)
        (λ e. unwritable_value depth (value_of value.now) ≡ Some e) }
    ensures canonical { OnOk result (plain_value (value_of value.now) ≡ value_of value.now) }
    ensures unique { OnOk result (repeat_in_value depth (value_of value.now) ≡ None) }
{
    match value {
        Bson::Document(document) => {
            check_depth(depth)?;
            check_document(document, depth + 1)
        }
        Bson::Array(array) => {
            check_depth(depth)?;
            check_array(array, depth + 1)
        }
        Bson::CodeWithScope { scope, .. } => {
            check_depth(depth)?;
            check_document(scope, depth + 1)
        }
        Bson::Regex { pattern, options } => {
            check_cstring(pattern.as_str())?;
            check_cstring(options.as_str())
        }
        _ => Ok(()),
    }
}

/// Checks an array of depth `depth`.
#[cycle(check)]
fn check_array(array: &Array, depth: u32) -> Result<(), DocRefusal>
    ensures reason { MatchResult result (λ _. unwritable depth (array_tree 0 array.now) ≡ None)
        (λ e. unwritable depth (array_tree 0 array.now) ≡ Some e) }
    ensures canonical { OnOk result
        (plain_from true 0 (array_tree 0 array.now) ≡ array_tree 0 array.now) }
    ensures unique { OnOk result (repeat_in true depth [] (array_tree 0 array.now) ≡ None) }
{
    for value in array.as_slice() {
        check_value(value, depth)?;
    }
    Ok(())
}

/// Checks a document of depth `depth`. Returns the first refusal in the order of the pairs: a name
/// comes before its value, and the depth of a container before its pairs.
#[cycle(check)]
pub(crate) fn check_document(document: &Document, depth: u32) -> Result<(), DocRefusal>
    ensures reason { MatchResult result (λ _. unwritable depth (tree_of document.now) ≡ None)
        (λ e. unwritable depth (tree_of document.now) ≡ Some e) }
    ensures canonical { OnOk result
        (plain_from false 0 (tree_of document.now) ≡ tree_of document.now) }
    ensures unique { OnOk result (repeat_in false depth [] (tree_of document.now) ≡ None) }
{
    for (name, value) in document.iter() {
        check_cstring(name)?;
        check_value(value, depth)?;
    }
    Ok(())
}
