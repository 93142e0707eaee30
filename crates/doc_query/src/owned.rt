//! Reads, compares and copies values that own what they hold.

ghost use Rattle.std.specs.Prelude.{◌≡◌, IfErr, IfOk, MatchOption, None, Ok, Some, map, option_map};
ghost use Rattle.bson_elem.specs.{Spells, Tree};
ghost use Rattle.bson_raw.specs.{document_bytes, first_named};
ghost use Rattle.bson_doc.specs.{coded_value, same, tree_of, value_of};
ghost use Rattle.doc_query.specs.Errors.{IsFailure};
ghost use Rattle.doc_query.specs.Owned.{array_in, body_of};
ghost use Rattle.doc_query.specs.Values.{count_of};

use crate::failure::{CommandError, Failure};
use bson_doc::{Array, Bson, DocRefusal, Document};
use bson_raw::RawDocument;
use std::alloc::{AllocError, Global};

/// Returns the body of a command as a document of its own.
///
/// # Errors
///
/// Returns `Repeated` if a name is repeated in it or in a document inside, and `OutOfMemory` if
/// memory runs out before one is found.
pub fn owned_body(alloc: Global, body: RawDocument<'_>) -> Result<Document, Failure>
    ensures ok { (t : Tree) → Spells t (document_bytes body.entry)
        → IfOk result (λ d. body_of t ≡ Ok (tree_of d)) }
    ensures refused { (t : Tree) → Spells t (document_bytes body.entry)
        → IfErr result (λ e. IsFailure (body_of t) e) }
{
    match Document::from_raw(alloc, body) {
        Ok(document) => Ok(document),
        Err(DocRefusal::OutOfMemory) => Err(Failure::OutOfMemory),
        Err(_) => Err(Failure::Refused(CommandError::Repeated)),
    }
}

/// Returns the value of a field.
pub fn field<'a>(document: &'a Document, name: &str) -> Option<&'a Bson>
    ensures { option_map (λ v. value_of v.now) result
        ≡ first_named name.now (tree_of document.now) }
{
    document.get(name)
}

/// Returns the array in a field, if it is one.
#[tactic(auto, using(crate::proofs::Owning::values_of_array))]
pub fn array_field<'a>(document: &'a Document, name: &str) -> Option<&'a Array>
    ensures { MatchOption result (array_in (first_named name.now (tree_of document.now)) ≡ None)
        (λ a. array_in (first_named name.now (tree_of document.now)) ≡ Some a.now) }
{
    match field(document, name) {
        Some(Bson::Array(array)) => Some(array),
        _ => None,
    }
}

/// Returns true if two values are the same.
pub fn is_same(a: &Bson, b: &Bson) -> bool
    ensures { result ≡ same coded_value (value_of a.now) (value_of b.now) }
{
    a == b
}

/// Returns the number of a value, if it is an int32 or an int64 that isn't negative.
pub fn whole_of(value: &Bson) -> Option<usize>
    ensures { result ≡ count_of (value_of value.now) }
{
    match value {
        Bson::Int32(n) if *n >= 0 => Some(*n as usize),
        Bson::Int64(n) if *n >= 0 => Some(*n as usize),
        _ => None,
    }
}

/// Returns copies of documents, in order.
///
/// # Errors
///
/// Returns `AllocError` if memory runs out.
pub fn copies(alloc: Global, documents: &[Bson]) -> Result<Vec<Bson>, AllocError>
    ensures { IfOk result (λ vs. map value_of vs.items ≡ map value_of documents.now) }
{
    let mut copies = Vec::with_capacity(alloc, documents.len())?;
    for document in documents {
        copies.push(document.try_clone()?)?;
    }
    Ok(copies)
}
