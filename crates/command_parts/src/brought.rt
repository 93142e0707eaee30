//! Collects the documents that a command brings: those of an array in its body, or of its
//! sequences.

ghost use Rattle.std.specs.Prelude.{◌≡◌, ◌∷◌, [], IfErr, IfOk, List, Ok, map, vec_len, ◌≤◌};
ghost use Rattle.bson_elem.specs.{Spells, Tree};
ghost use Rattle.bson_raw.specs.{Shows, TreeValue, array_bytes, document_bytes, first_named};
ghost use Rattle.bson_doc.specs.{value_of};
ghost use Rattle.wire_msg.specs.{Carries, Content, DocumentsAre, Sequence};
ghost use Rattle.doc_query.specs.{IsFailure};
ghost use Rattle.command_parts.specs.Brought.{Appended, alone, brought, in_array, in_field};
ghost use Rattle.command_parts.specs.Brought.{in_sequence, in_sequences, kept_value};
ghost use Rattle.command_parts.specs.Brought.{sequence_documents};

use bson_doc::{Bson, DocRefusal, Document};
use bson_raw::{RawArray, RawBson, RawDocument};
use doc_query::{CommandError, Failure};
use std::alloc::Global;
use wire_msg::{Documents, Payload};

/// The most documents or statements that a command brings.
const MOST_DOCUMENTS: usize = 100_000;

/// Appends a document, in its canonical form.
fn push_document(
    alloc: Global,
    document: RawDocument<'_>,
    documents: &mut Vec<Bson>,
) -> Result<(), Failure>
    ensures { (t : Tree) → Spells t (document_bytes document.entry)
        → Appended (map value_of documents.old.items) (in_sequence (t ∷ [])) result
        (map value_of documents.new.items) }
{
    match Document::from_raw(alloc, document) {
        Ok(document) => match documents.push(Bson::Document(document)) {
            Ok(()) => Ok(()),
            Err(_) => Err(Failure::OutOfMemory),
        },
        Err(DocRefusal::OutOfMemory) => Err(Failure::OutOfMemory),
        Err(_) => Err(Failure::Refused(CommandError::Documents)),
    }
}

/// Appends a value, which must be a document.
fn push_value(alloc: Global, value: RawBson<'_>, documents: &mut Vec<Bson>) -> Result<(), Failure>
    ensures { (v : TreeValue) → Shows value.entry v
        → Appended (map value_of documents.old.items) (alone (kept_value v)) result
        (map value_of documents.new.items) }
{
    match value {
        RawBson::Document(document) => push_document(alloc, document, documents),
        _ => Err(Failure::Refused(CommandError::Documents)),
    }
}

/// Appends the values of an array, which must be documents.
fn push_array(alloc: Global, array: RawArray<'_>, documents: &mut Vec<Bson>) -> Result<(), Failure>
    ensures { (t : Tree) → Spells t (array_bytes array.entry)
        → Appended (map value_of documents.old.items) (in_array t) result
        (map value_of documents.new.items) }
{
    for value in array.iter() {
        push_value(alloc, value, documents)?;
    }
    Ok(())
}

/// Appends the documents of a sequence, in their canonical form.
///
/// # Errors
///
/// Returns `Documents` if a name is repeated in one of them, and `OutOfMemory` if memory runs out.
/// Some may have been appended then.
pub fn push_sequence(
    alloc: Global,
    sequence: Documents<'_>,
    documents: &mut Vec<Bson>,
) -> Result<(), Failure>
    ensures { (ts : List Tree) → DocumentsAre sequence.entry ts
        → Appended (map value_of documents.old.items) (in_sequence ts) result
        (map value_of documents.new.items) }
{
    for document in sequence.iter() {
        push_document(alloc, document, documents)?;
    }
    Ok(())
}

/// Appends the documents of a sequence if its identifier is `name`, and otherwise none.
fn push_brought(
    alloc: Global,
    name: &str,
    identifier: &str,
    sequence: Documents<'_>,
    documents: &mut Vec<Bson>,
) -> Result<(), Failure>
    ensures { (q : Sequence) → identifier.now ≡ q.identifier
        → DocumentsAre sequence.entry q.documents
        → Appended (map value_of documents.old.items) (sequence_documents name.now q) result
        (map value_of documents.new.items) }
{
    if identifier == name {
        push_sequence(alloc, sequence, documents)
    } else {
        Ok(())
    }
}

/// Appends the documents of all sequences with the identifier `name`, in order.
fn push_sequences(
    alloc: Global,
    name: &str,
    payload: Payload<'_>,
    documents: &mut Vec<Bson>,
) -> Result<(), Failure>
    ensures { (c : Content) → Carries payload.entry c
        → Appended (map value_of documents.old.items) (in_sequences name.now c.sequences) result
        (map value_of documents.new.items) }
{
    for (identifier, sequence) in payload.sequences() {
        push_brought(alloc, name, identifier, sequence, documents)?;
    }
    Ok(())
}

/// Appends the documents that a command brings under a name.
fn push_all(
    alloc: Global,
    name: &str,
    payload: Payload<'_>,
    documents: &mut Vec<Bson>,
) -> Result<(), Failure>
    ensures { (c : Content) → Carries payload.entry c
        → Appended (map value_of documents.old.items)
        (in_field name.now c.sequences (first_named name.now c.body)) result
        (map value_of documents.new.items) }
{
    match payload.body().get(name) {
        None => push_sequences(alloc, name, payload, documents),
        Some(RawBson::Array(array)) => push_array(alloc, array, documents),
        Some(_) => Err(Failure::Refused(CommandError::Documents)),
    }
}

/// Returns the documents that a command brings under a name: those of the array in its body, or of
/// the sequences with this identifier.
///
/// # Errors
///
/// Returns `Documents` if they aren't 1 to 100,000 documents, or a name is repeated in one.
pub fn brought_documents(
    alloc: Global,
    payload: Payload<'_>,
    name: &str,
) -> Result<Vec<Bson>, Failure>
    ensures ok { (c : Content) → Carries payload.entry c
        → IfOk result (λ vs. brought name.now c ≡ Ok (map value_of vs.items)) }
    ensures refused { (c : Content) → Carries payload.entry c
        → IfErr result (λ e. IsFailure (brought name.now c) e) }
    ensures few { IfOk result (λ vs. vec_len vs ≤ 100_000) }
{
    let mut documents = Vec::new(alloc);
    push_all(alloc, name, payload, &mut documents)?;
    if documents.is_empty() || documents.len() > MOST_DOCUMENTS {
        return Err(Failure::Refused(CommandError::Documents));
    }
    Ok(documents)
}
