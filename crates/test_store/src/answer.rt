//! Makes the answers that several commands give.

ghost use Rattle.std.specs.Prelude.{◌≡◌, ◌<◌, ◌^◌, ◌∷◌, [], IfOk, MatchResult, Ok, OnOk, codes};
ghost use Rattle.std.specs.Prelude.{is_err, map, true};
ghost use Rattle.bson_doc.specs.{put, value_of};
ghost use Rattle.doc_query.specs.{array, inner, text};
ghost use Rattle.command_parts.specs.{ok_alone};
ghost use Rattle.test_store.specs.Answers.{batch_name, counted_pairs, cursor_answer, cursor_pairs};
ghost use Rattle.test_store.specs.Answers.{put_any, written_pairs};
ghost use Rattle.test_store.specs.Held.{namespace_of, namespace_text};

use crate::namespace::Namespace;
use bson_doc::{Array, Bson, Document};
use command_parts::set_ok;
use doc_query::{Failure, count_value, set};
use std::alloc::{AllocError, Global};

/// Which batch of a cursor an answer has.
#[derive(Clone, Copy)]
pub enum Batch {
    /// The first one.
    First,
    /// A later one.
    Next,
}

impl Batch {
    /// Returns the name of the field for the batch.
    fn name(self) -> &'static str
        ensures { result.now ≡ batch_name self }
    {
        match self {
            Batch::First => "firstBatch",
            Batch::Next => "nextBatch",
        }
    }
}

/// Returns the answer, unless memory ran out.
pub fn in_memory(answer: Result<Document, AllocError>) -> Result<Document, Failure>
    ensures { MatchResult result (λ d. answer ≡ Ok d)
        (λ e. (is_err answer ≡ true) × (e ≡ Failure.OutOfMemory)) }
{
    match answer {
        Ok(answer) => Ok(answer),
        Err(_) => Err(Failure::OutOfMemory),
    }
}

// ---- fields of answers

/// Sets a field in an answer to an array of these values.
pub fn set_array(
    alloc: Global,
    answer: &mut Document,
    name: &str,
    values: Vec<Bson>,
) -> Result<(), AllocError>
    ensures { OnOk result
        (answer.new ≡ put name.now (array (map value_of values.items)) answer.old) }
{
    let values = Array::from_vec(values);
    set(alloc, answer, name, Bson::Array(values))
}

/// Sets a field in an answer to an array of these values, unless there are none.
pub fn set_any(
    alloc: Global,
    answer: &mut Document,
    name: &str,
    values: Vec<Bson>,
) -> Result<(), AllocError>
    ensures { OnOk result (answer.new ≡ put_any name.now (map value_of values.items) answer.old) }
{
    if values.is_empty() {
        drop(values);
        return Ok(());
    }
    set_array(alloc, answer, name, values)
}

/// Sets the field `ns` in an answer to the text of a namespace.
pub fn set_namespace(
    alloc: Global,
    answer: &mut Document,
    namespace: Namespace<'_>,
) -> Result<(), AllocError>
    ensures { OnOk result (answer.new
        ≡ put (codes "ns") (text (namespace_text (namespace_of namespace.entry))) answer.old) }
{
    let text = namespace.to_text(alloc)?;
    set(alloc, answer, "ns", Bson::String(text))
}

// ---- answers with a number of documents

/// Sets the fields of the answer with a number of documents in its field `n`.
fn set_counted(alloc: Global, answer: &mut Document, count: usize) -> Result<(), AllocError>
    requires count { count < 2 ^ 63 }
    requires none { answer.old ≡ [] }
    ensures { OnOk result (answer.new ≡ counted_pairs count) }
{
    set(alloc, answer, "n", count_value(count)).and(set_ok(alloc, answer))
}

/// Makes the answer with a number of documents in its field `n`.
pub fn counted_answer(alloc: Global, count: usize) -> Result<Document, AllocError>
    requires { count < 2 ^ 63 }
    ensures { IfOk result (λ d. d ≡ counted_pairs count) }
{
    let mut answer = Document::new(alloc);
    set_counted(alloc, &mut answer, count).and(Ok(answer))
}

/// Sets the fields of the answer with a number of documents in its field `n`, and the errors of
/// others, if there are any.
#[tactic(auto, using(crate::proofs::Replies::written))]
fn set_written(
    alloc: Global,
    answer: &mut Document,
    count: usize,
    errors: Vec<Bson>,
) -> Result<(), AllocError>
    requires count { count < 2 ^ 63 }
    requires none { answer.old ≡ [] }
    ensures { OnOk result (answer.new ≡ written_pairs count (map value_of errors.items)) }
{
    set(alloc, answer, "n", count_value(count))
        .and(set_any(alloc, answer, "writeErrors", errors))
        .and(set_ok(alloc, answer))
}

/// Makes the answer that says how many documents a command wrote, and why others, or statements,
/// weren't carried out.
pub fn written_answer(
    alloc: Global,
    count: usize,
    errors: Vec<Bson>,
) -> Result<Document, AllocError>
    requires { count < 2 ^ 63 }
    ensures { IfOk result (λ d. d ≡ written_pairs count (map value_of errors.items)) }
{
    let mut answer = Document::new(alloc);
    set_written(alloc, &mut answer, count, errors).and(Ok(answer))
}

// ---- answers with a batch of documents

/// Sets the fields of a cursor in an answer: a batch of documents, the id of the cursor that has
/// more of them (0 if none has), and the namespace.
fn set_cursor(
    alloc: Global,
    cursor: &mut Document,
    which: Batch,
    batch: Vec<Bson>,
    id: i64,
    namespace: Namespace<'_>,
) -> Result<(), AllocError>
    requires { cursor.old ≡ [] }
    ensures { OnOk result (cursor.new ≡ cursor_pairs which (map value_of batch.items) id
        (namespace_text (namespace_of namespace.entry))) }
{
    set_array(alloc, cursor, which.name(), batch)
        .and(set(alloc, cursor, "id", Bson::Int64(id)))
        .and(set_namespace(alloc, cursor, namespace))
}

/// Makes the field `cursor` of an answer.
fn cursor_document(
    alloc: Global,
    which: Batch,
    batch: Vec<Bson>,
    id: i64,
    namespace: Namespace<'_>,
) -> Result<Document, AllocError>
    ensures { IfOk result (λ d. d ≡ cursor_pairs which (map value_of batch.items) id
        (namespace_text (namespace_of namespace.entry))) }
{
    let mut cursor = Document::new(alloc);
    set_cursor(alloc, &mut cursor, which, batch, id, namespace).and(Ok(cursor))
}

/// Sets the fields of the answer with this field `cursor`.
fn set_answer(alloc: Global, answer: &mut Document, cursor: Document) -> Result<(), AllocError>
    requires { answer.old ≡ [] }
    ensures { OnOk result (answer.new ≡ (codes "cursor", inner cursor) ∷ ok_alone) }
{
    set(alloc, answer, "cursor", Bson::Document(cursor)).and(set_ok(alloc, answer))
}

/// Makes the answer with a batch of documents, the id of the cursor that has more of them (0 if
/// none has), and the namespace.
pub fn cursor_answer(
    alloc: Global,
    which: Batch,
    batch: Vec<Bson>,
    id: i64,
    namespace: Namespace<'_>,
) -> Result<Document, AllocError>
    ensures { IfOk result (λ d. d ≡ cursor_answer which (map value_of batch.items) id
        (namespace_text (namespace_of namespace.entry))) }
{
    let cursor = cursor_document(alloc, which, batch, id, namespace)?;
    let mut answer = Document::new(alloc);
    set_answer(alloc, &mut answer, cursor).and(Ok(answer))
}
