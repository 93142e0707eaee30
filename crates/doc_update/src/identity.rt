//! Looks up and makes the `_id` of documents.

ghost use Rattle.std.specs.Prelude.{◌≡◌, ◌∷◌, [], ◌||◌, IfOk, OnOk, Some, codes, drop, map};
ghost use Rattle.std.specs.Prelude.{option_map};
ghost use Rattle.bson_doc.specs.{value_of};
ghost use Rattle.bson_doc.specs.Document.{put, value_named};
ghost use Rattle.doc_update.specs.Identity.{free_from, free_number, id_fault, id_in, identified};
ghost use Rattle.doc_update.specs.Identity.{is_same_id, is_taken, made_id, own_or_made, put_each};
ghost use Rattle.doc_update.specs.Identity.{with_id};

use crate::counts::plus;
use bson_doc::{Bson, Document};
use doc_query::{field, is_equal, set};
use std::alloc::{AllocError, Global};

/// Returns the `_id` of a value, if it is a document that has one.
pub fn id_in(value: &Bson) -> Option<&Bson>
    ensures { option_map (λ v. value_of v.now) result ≡ id_in (value_of value.now) }
{
    match value {
        Bson::Document(document) => field(document, "_id"),
        _ => None,
    }
}

/// Returns true if both are there and are equal.
fn is_same_id(a: Option<&Bson>, b: Option<&Bson>) -> bool
    ensures { result ≡ is_same_id (option_map (λ v. value_of v.now) a.entry)
        (option_map (λ v. value_of v.now) b.entry) }
{
    match (a, b) {
        (Some(a), Some(b)) => is_equal(a, b),
        _ => false,
    }
}

/// Returns true if there is an `_id`, and one of the documents has it.
pub fn is_taken(id: Option<&Bson>, documents: &[Bson]) -> bool
    ensures { result
        ≡ is_taken (option_map (λ v. value_of v.now) id.entry) (map value_of documents.now) }
{
    for document in documents {
        if is_same_id(id_in(document), id) {
            return true;
        }
    }
    false
}

/// Returns why a value can't be an `_id`, if it can't.
pub fn id_fault(id: Option<&Bson>) -> Option<&'static str>
    ensures { option_map (λ s. s.now) result
        ≡ id_fault (option_map (λ v. value_of v.now) id.entry) }
{
    match id {
        Some(Bson::Array(_)) => Some("can't use an array for _id"),
        Some(Bson::Regex { .. }) => Some("can't use a regex for _id"),
        Some(Bson::Undefined) => Some("can't use a undefined for _id"),
        _ => None,
    }
}

// ---- making one

/// Makes the ObjectId with this number.
fn made_id(number: usize) -> Bson
    ensures { value_of result ≡ made_id number }
{
    let [a, b, c, d, e, f, g, h] = number.to_be_bytes();
    Bson::ObjectId([0, 0, 0, 0, a, b, c, d, e, f, g, h])
}

/// Returns true if this is the `_id` of one of these documents, or of those.
fn is_taken_in(id: &Bson, held: &[Bson], added: &[Bson]) -> bool
    ensures { result ≡ (is_taken (Some (value_of id.now)) (map value_of held.now)
        || is_taken (Some (value_of id.now)) (map value_of added.now)) }
{
    is_taken(Some(id), held) || is_taken(Some(id), added)
}

/// Returns true if the ObjectId with this number is the `_id` of one of these documents, or of
/// those.
fn is_number_taken(number: usize, held: &[Bson], added: &[Bson]) -> bool
    ensures { result ≡ (is_taken (Some (made_id number)) (map value_of held.now)
        || is_taken (Some (made_id number)) (map value_of added.now)) }
{
    is_taken_in(&made_id(number), held, added)
}

/// Returns the number of the `_id` that is made beside these documents and those: the first one that
/// is free, from how many there are on.
///
/// # Errors
///
/// Returns `AllocError` if there are more documents than any memory holds.
#[tactic(auto, using(crate::proofs::Numbering::past_taken, crate::proofs::Numbering::at_free, crate::proofs::Numbering::none_left))]
fn free_number(held: &[Bson], added: &[Bson]) -> Result<usize, AllocError>
    ensures { IfOk result (λ n. n ≡ free_number (map value_of held.now) (map value_of added.now)) }
{
    let count = plus(held.len(), added.len())?;
    let mut number = count;
    for turn in 0..count {
        if !is_number_taken(number, held, added) {
            return Ok(number);
        }
        number = plus(number, 1)?;
    }
    Ok(number)
}

/// Sets each of these fields in a document to a copy of its value, in order.
pub fn put_each(alloc: Global, fields: &Document, document: &mut Document) -> Result<(), AllocError>
    ensures { OnOk result (document.new ≡ put_each fields.now document.old) }
{
    for (name, value) in fields {
        let copy = value.try_clone()?;
        set(alloc, document, name, copy)?;
    }
    Ok(())
}

/// Returns a copy of the `_id` of a document, or one that is made beside these documents and those
/// where it has none.
fn own_or_made(document: &Document, held: &[Bson], added: &[Bson]) -> Result<Bson, AllocError>
    ensures { IfOk result (λ v. value_of v ≡ own_or_made (value_named (codes "_id") document.now)
        (free_number (map value_of held.now) (map value_of added.now))) }
{
    match document.get("_id") {
        Some(id) => id.try_clone(),
        None => {
            let number = free_number(held, added)?;
            Ok(made_id(number))
        }
    }
}

/// Sets the `_id` of a document, and then each of these fields to a copy of its value, in order.
fn put_identified(
    alloc: Global,
    id: Bson,
    fields: &Document,
    document: &mut Document,
) -> Result<(), AllocError>
    ensures { OnOk result
        (document.new ≡ put_each fields.now (put (codes "_id") (value_of id) document.old)) }
{
    set(alloc, document, "_id", id)?;
    put_each(alloc, fields, document)
}

/// Returns a copy of a document whose first field is its `_id`, or one that is made beside these
/// documents and those where it has none.
///
/// # Errors
///
/// Returns `AllocError` if memory runs out.
pub fn with_id(
    alloc: Global,
    document: &Document,
    held: &[Bson],
    added: &[Bson],
) -> Result<Document, AllocError>
    ensures { IfOk result (λ d. d
        ≡ with_id (free_number (map value_of held.now) (map value_of added.now)) document.now) }
{
    let id = own_or_made(document, held, added)?;
    let mut identified = Document::new(alloc);
    put_identified(alloc, id, document, &mut identified)?;
    Ok(identified)
}

/// Returns a copy of a value, with the `_id` that `with_id` gives it if it is a document.
///
/// # Errors
///
/// Returns `AllocError` if memory runs out.
#[tactic(auto, using(crate::proofs::Owning::pairs_of_tree))]
pub fn identified(
    alloc: Global,
    value: &Bson,
    held: &[Bson],
    added: &[Bson],
) -> Result<Bson, AllocError>
    ensures { IfOk result (λ v. value_of v
        ≡ identified (free_number (map value_of held.now) (map value_of added.now))
        (value_of value.now)) }
{
    match value {
        Bson::Document(document) => {
            let identified = with_id(alloc, document, held, added)?;
            Ok(Bson::Document(identified))
        }
        _ => value.try_clone(),
    }
}
