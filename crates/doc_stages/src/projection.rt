//! Keeps the fields of documents that a projection asks for.

ghost use Rattle.std.specs.Prelude.{◌≡◌, Err, IfErr, IfOk, MatchOption, None, Ok, Option, map};
ghost use Rattle.bson_elem.specs.{Spells, Tree};
ghost use Rattle.bson_raw.specs.{ShowsFound, TreeValue, document_bytes};
ghost use Rattle.bson_doc.specs.{tree_of, value_of};
ghost use Rattle.doc_query.specs.{IsFailure};
ghost use Rattle.doc_stages.specs.Projection.{includes, is_flag, is_id, is_inclusion};
ghost use Rattle.doc_stages.specs.Projection.{keeps, kept, mix_fault, named_fault, projected};
ghost use Rattle.doc_stages.specs.Projection.{projection_fault, projection_field, projection_of};
ghost use Rattle.doc_stages.specs.Projection.{read_projection};

use bson_doc::{Bson, DocRefusal, Document};
use bson_raw::{RawBson, RawDocument};
use doc_query::{CommandError, Failure, field, is_number, is_plain_name, set};
use std::alloc::{AllocError, Global};

/// Returns true if a name is that of the field `_id`.
fn is_id(name: &str) -> bool
    ensures { result ≡ is_id name.now }
{
    name == "_id"
}

/// Returns true if a field may be asked for by this: a boolean, or a number.
fn is_flag(value: &Bson) -> bool
    ensures { result ≡ is_flag (value_of value.now) }
{
    matches!(
        value,
        Bson::Boolean(_) | Bson::Int32(_) | Bson::Int64(_) | Bson::Double(_)
    )
}

/// Returns true if a field that is asked for by this is included.
fn includes(value: &Bson) -> bool
    ensures { result ≡ includes (value_of value.now) }
{
    match value {
        Bson::Boolean(truth) => *truth,
        _ => !is_number(value, 0),
    }
}

/// Returns true if a projection includes the fields that it names, and false if it excludes them.
fn is_inclusion(projection: &Document) -> bool
    ensures { result ≡ is_inclusion (tree_of projection.now) }
{
    let mut by_id = false;
    for (name, value) in projection {
        if !is_id(name) {
            return includes(value);
        }
        by_id = includes(value);
    }
    by_id
}

/// Returns why a field can't be included, or excluded, by a projection that includes, or excludes.
fn mix_fault(inclusion: bool, included: bool) -> Option<CommandError>
    ensures { result ≡ mix_fault inclusion included }
{
    match (inclusion, included) {
        (true, false) => Some(CommandError::Exclusion),
        (false, true) => Some(CommandError::Inclusion),
        _ => None,
    }
}

/// Returns why a field of a projection isn't carried out.
fn named_fault(inclusion: bool, name: &str, value: &Bson) -> Option<CommandError>
    ensures { result ≡ named_fault inclusion name.now (value_of value.now) }
{
    if !(is_plain_name(name) && is_flag(value)) {
        return Some(CommandError::Projected);
    }
    if is_id(name) {
        return None;
    }
    mix_fault(inclusion, includes(value))
}

/// Returns why a projection isn't carried out, by its first field that isn't.
fn projection_fault(inclusion: bool, projection: &Document) -> Option<CommandError>
    ensures { result ≡ projection_fault inclusion (tree_of projection.now) }
{
    for (name, value) in projection {
        if let Some(fault) = named_fault(inclusion, name, value) {
            return Some(fault);
        }
    }
    None
}

/// Reads a projection out of its bytes.
fn read_projection(alloc: Global, projection: RawDocument<'_>) -> Result<Document, Failure>
    ensures ok { (t : Tree) → Spells t (document_bytes projection.entry)
        → IfOk result (λ d. read_projection t ≡ Ok (tree_of d)) }
    ensures refused { (t : Tree) → Spells t (document_bytes projection.entry)
        → IfErr result (λ e. IsFailure (read_projection t) e) }
{
    let projection = match Document::from_raw(alloc, projection) {
        Ok(projection) => projection,
        Err(DocRefusal::OutOfMemory) => return Err(Failure::OutOfMemory),
        Err(_) => return Err(Failure::Refused(CommandError::Projection)),
    };
    match projection_fault(is_inclusion(&projection), &projection) {
        Some(fault) => Err(Failure::Refused(fault)),
        None => Ok(projection),
    }
}

/// Reads the projection out of a value.
fn projection_of(alloc: Global, value: Option<RawBson<'_>>) -> Result<Document, Failure>
    ensures ok { (found : Option TreeValue)
        → MatchOption value.entry (found ≡ None) (λ v. ShowsFound v found)
        → IfOk result (λ d. projection_of found ≡ Ok (tree_of d)) }
    ensures refused { (found : Option TreeValue)
        → MatchOption value.entry (found ≡ None) (λ v. ShowsFound v found)
        → IfErr result (λ e. IsFailure (projection_of found) e) }
{
    let Some(value) = value else {
        return Ok(Document::new(alloc));
    };
    match value {
        RawBson::Document(projection) => read_projection(alloc, projection),
        _ => Err(Failure::Refused(CommandError::Projection)),
    }
}

/// Reads the projection in the field `projection` of a command. If there is no such field, it is
/// the empty one, which keeps all fields.
///
/// # Errors
///
/// Returns `Projection` if it isn't a document or a name is repeated in it, and otherwise the fault
/// of the first field that isn't carried out: `Projected`, or where fields are included and others
/// excluded, `Inclusion` or `Exclusion`. Returns `OutOfMemory` if memory runs out.
pub fn projection_field(alloc: Global, body: RawDocument<'_>) -> Result<Document, Failure>
    ensures ok { (t : Tree) → Spells t (document_bytes body.entry)
        → IfOk result (λ d. projection_field t ≡ Ok (tree_of d)) }
    ensures refused { (t : Tree) → Spells t (document_bytes body.entry)
        → IfErr result (λ e. IsFailure (projection_field t) e) }
{
    projection_of(alloc, body.get("projection"))
}

/// Returns true if a projection keeps the field with this name.
fn keeps(projection: &Document, name: &str) -> bool
    ensures { result ≡ keeps (tree_of projection.now) name.now }
{
    match field(projection, name) {
        Some(value) => includes(value),
        None => !is_inclusion(projection) || is_id(name),
    }
}

/// Returns the fields of a document that a projection keeps, in their order.
fn kept(alloc: Global, projection: &Document, document: &Document) -> Result<Document, AllocError>
    ensures { IfOk result (λ d. tree_of d ≡ kept (tree_of projection.now) (tree_of document.now)) }
{
    let mut fields = Document::new(alloc);
    for (name, value) in document.iter() {
        if keeps(projection, name) {
            set(alloc, &mut fields, name, value.try_clone()?)?;
        }
    }
    Ok(fields)
}

/// Returns what a projection keeps of a value, if that is a document.
fn projected_one(alloc: Global, projection: &Document, value: &Bson) -> Result<Bson, AllocError>
    ensures { IfOk result (λ v.
        value_of v ≡ projected (tree_of projection.now) (value_of value.now)) }
{
    match value {
        Bson::Document(document) => Ok(Bson::Document(kept(alloc, projection, document)?)),
        _ => value.try_clone(),
    }
}

/// Returns what a projection keeps of each document.
fn projected_each(
    alloc: Global,
    projection: &Document,
    documents: &[Bson],
) -> Result<Vec<Bson>, AllocError>
    ensures { IfOk result (λ vs. map value_of vs.items
        ≡ map (projected (tree_of projection.now)) (map value_of documents.now)) }
{
    let mut kept = Vec::with_capacity(alloc, documents.len())?;
    for document in documents {
        kept.push(projected_one(alloc, projection, document)?)?;
    }
    Ok(kept)
}

/// Returns what a projection keeps of each document.
///
/// # Errors
///
/// Returns `AllocError` if memory runs out.
pub fn projected(
    alloc: Global,
    projection: &Document,
    documents: Vec<Bson>,
) -> Result<Vec<Bson>, AllocError>
    ensures { IfOk result (λ vs. map value_of vs.items
        ≡ map (projected (tree_of projection.now)) (map value_of documents.items)) }
{
    if projection.is_empty() {
        return Ok(documents);
    }
    projected_each(alloc, projection, documents.as_slice())
}
