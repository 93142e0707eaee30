//! Takes the first ones of documents, as batches.

ghost use Rattle.std.specs.Prelude.{◌≡◌, IfOk, OnErr, OnOk, drop, map, take};
ghost use Rattle.bson_doc.specs.{value_of};
ghost use Rattle.doc_stages.specs.Batches.{after_batch, batch_len, fitting, next_batch};

use bson_doc::Bson;
use std::alloc::AllocError;
use std::mem;

/// The most bytes that the documents of a batch have together, where it has more than one: 16 MiB.
const MAX_BATCH_BYTES: usize = 16_777_216;

/// Removes the first documents, at most `count`, and returns them.
///
/// # Errors
///
/// Returns `AllocError` if memory runs out. Then the documents are unchanged.
pub fn take_batch(documents: &mut Vec<Bson>, count: usize) -> Result<Vec<Bson>, AllocError>
    ensures taken { IfOk result (λ batch. batch.items ≡ take count documents.old.items) }
    ensures left { OnOk result (documents.new.items ≡ drop count documents.old.items) }
    ensures unchanged { OnErr result (documents.new.items ≡ documents.old.items) }
{
    let count = count.min(documents.len());
    let rest = documents.split_off(count)?;
    Ok(mem::replace(documents, rest))
}

/// Returns how many of the first documents have no more than `room` bytes together.
fn fitting(documents: &[Bson], room: usize) -> usize
    ensures { result ≡ fitting room (map value_of documents.now) }
{
    let mut left = room;
    for (index, document) in documents.iter().enumerate() {
        let Some(len) = document.encoded_len(left) else {
            return index;
        };
        left -= len;
    }
    documents.len()
}

/// Returns how many of these documents are in one batch.
fn batch_len(documents: &[Bson]) -> usize
    ensures { result ≡ batch_len (map value_of documents.now) }
{
    let Some((first, others)) = documents.split_first() else {
        return 0;
    };
    let room = match first.encoded_len(MAX_BATCH_BYTES) {
        Some(len) => MAX_BATCH_BYTES - len,
        None => 0,
    };
    1 + fitting(others, room)
}

/// Removes the next batch of documents, and returns it: at most `count`, of which those behind the
/// first are no more than fit in 16 MiB with it.
///
/// # Errors
///
/// Returns `AllocError` if memory runs out. Then the documents are unchanged.
pub fn next_batch(documents: &mut Vec<Bson>, count: usize) -> Result<Vec<Bson>, AllocError>
    ensures taken { IfOk result (λ batch. map value_of batch.items
        ≡ next_batch count (map value_of documents.old.items)) }
    ensures left { OnOk result (map value_of documents.new.items
        ≡ after_batch count (map value_of documents.old.items)) }
    ensures unchanged { OnErr result (documents.new.items ≡ documents.old.items) }
{
    let most = count.min(documents.len());
    let count = batch_len(&documents[..most]);
    take_batch(documents, count)
}
