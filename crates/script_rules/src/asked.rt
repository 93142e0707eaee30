//! What a request asks for, as the filters of rules see it.

ghost use Rattle.std.specs.Prelude.{◌≡◌, IfOk, List, None, Option, Some, option_map};
ghost use Rattle.std.specs.Prelude.{if◌then◌else◌};
ghost use Rattle.bson_elem.specs.{Tree};
ghost use Rattle.bson_doc.specs.{value_of};
ghost use Rattle.doc_query.specs.{array};
ghost use Rattle.wire_msg.specs.{Carries, Content, DocumentsAre, Sequence};
ghost use Rattle.wire_peer.specs.{content_of};
ghost use Rattle.command_parts.specs.{first_name, in_sequence};
ghost use Rattle.script_rules.specs.Asked.{asked_value, with_sequence, with_sequences};

use bson_doc::{Array, Bson, Document};
use command_parts::{name_of, push_sequence};
use doc_query::{Failure, owned_body, set};
use std::alloc::{AllocError, Global};
use wire_msg::{Documents, Payload};

/// Returns the name of the command that a request asks for.
pub fn asked_name(payload: Payload<'_>) -> &str
    ensures { result.now ≡ first_name (content_of payload.entry).body }
{
    name_of(payload.body())
}

/// Returns the documents of a sequence in an array, if no name is repeated in them.
fn array_of(alloc: Global, documents: Documents<'_>) -> Result<Option<Bson>, AllocError>
    ensures { (ts : List Tree) → DocumentsAre documents.entry ts
        → IfOk result (λ v. option_map value_of v ≡ option_map array (in_sequence ts)) }
{
    let mut values = Vec::new(alloc);
    match push_sequence(alloc, documents, &mut values) {
        Ok(()) => Ok(Some(Bson::Array(Array::from_vec(values)))),
        Err(Failure::Refused(_)) => Ok(None),
        Err(Failure::OutOfMemory) => Err(AllocError),
    }
}

/// Puts the documents of a sequence into a body, in an array at its identifier. Returns false if a
/// name is repeated in one of them.
fn put_sequence(
    alloc: Global,
    identifier: &str,
    documents: Documents<'_>,
    body: &mut Document,
) -> Result<bool, AllocError>
    ensures { (q : Sequence) → identifier.now ≡ q.identifier
        → DocumentsAre documents.entry q.documents
        → IfOk result (λ fits. with_sequence q (Some body.old)
        ≡ if fits then Some body.new else None) }
{
    let Some(array) = array_of(alloc, documents)? else {
        return Ok(false);
    };
    set(alloc, body, identifier, array)?;
    Ok(true)
}

/// Puts the documents of each sequence into a body. Returns false if a name is repeated in one of
/// them.
fn put_sequences(
    alloc: Global,
    payload: Payload<'_>,
    body: &mut Document,
) -> Result<bool, AllocError>
    ensures { (c : Content) → Carries payload.entry c
        → IfOk result (λ fits. with_sequences c.sequences (Some body.old)
        ≡ if fits then Some body.new else None) }
{
    for (identifier, documents) in payload.sequences() {
        if !put_sequence(alloc, identifier, documents, body)? {
            return Ok(false);
        }
    }
    Ok(true)
}

/// Returns what a request asks for, as filters see it: its body, with each of its sequences as an
/// array, if no name is repeated in one of their documents.
///
/// # Errors
///
/// Returns `AllocError` if memory runs out.
pub fn asked_value(alloc: Global, payload: Payload<'_>) -> Result<Option<Bson>, AllocError>
    ensures { IfOk result (λ v. option_map value_of v ≡ asked_value (content_of payload.entry)) }
{
    let mut body = match owned_body(alloc, payload.body()) {
        Ok(body) => body,
        Err(Failure::Refused(_)) => return Ok(None),
        Err(Failure::OutOfMemory) => return Err(AllocError),
    };
    if !put_sequences(alloc, payload, &mut body)? {
        return Ok(None);
    }
    Ok(Some(Bson::Document(body)))
}
