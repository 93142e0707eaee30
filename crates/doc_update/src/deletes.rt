//! Applies the statements of delete to documents.

ghost use Rattle.std.specs.Prelude.{◌≡◌, ◌<◌, ◌≤◌, ◌^◌, Err, IfErr, IfOk, MatchResult, Ok, OnOk};
ghost use Rattle.std.specs.Prelude.{length, map};
ghost use Rattle.bson_doc.specs.{tree_of, value_of};
ghost use Rattle.doc_query.specs.{IsFailure};
ghost use Rattle.doc_update.specs.Deleting.{after_deletes, delete_by, delete_in, delete_of};
ghost use Rattle.doc_update.specs.Deleting.{delete_view, deleted_by, deletes_view, filter_at};
ghost use Rattle.doc_update.specs.Deleting.{refused, single_at, survivors};
ghost use Rattle.doc_update.specs.WriteErrors.{has_error};

use crate::write_errors::write_error;
use bson_doc::{Bson, Document};
use doc_query::{CommandError, Failure, applicable, compared, copies, field, is_match, whole_of};
use std::alloc::{AllocError, Global};

/// What a statement of delete asks for.
#[derive(Clone, Copy)]
struct Delete<'a> {
    /// The filter that the documents match.
    filter: &'a Document,
    /// Whether the first of them alone is deleted.
    is_single: bool,
}

/// Returns the filter in the field `q` of a statement.
pub fn filter_at(statement: &Document) -> Result<&Document, CommandError>
    ensures { MatchResult result (λ f. filter_at (tree_of statement.now) ≡ Ok (tree_of f.now))
        (λ e. filter_at (tree_of statement.now) ≡ Err e) }
{
    match field(statement, "q") {
        Some(Bson::Document(filter)) => {
            applicable(filter)?;
            Ok(filter)
        }
        _ => Err(CommandError::Filter),
    }
}

/// Returns true if the field `limit` of a statement is 1, and false if it is 0.
fn single_at(statement: &Document) -> Result<bool, CommandError>
    ensures { result ≡ single_at (tree_of statement.now) }
{
    let Some(value) = field(statement, "limit") else {
        return Err(CommandError::Deletes);
    };
    match whole_of(value) {
        Some(0) => Ok(false),
        Some(1) => Ok(true),
        _ => Err(CommandError::Deletes),
    }
}

/// Reads what a statement asks for.
#[tactic(auto, using(crate::proofs::Owning::names_count))]
fn delete_in(statement: &Document) -> Result<Delete<'_>, CommandError>
    ensures { MatchResult result (λ d. delete_in (tree_of statement.now) ≡ Ok (delete_view d))
        (λ e. delete_in (tree_of statement.now) ≡ Err e) }
{
    if statement.len() != 2 {
        return Err(CommandError::Deletes);
    }
    let filter = filter_at(statement)?;
    let is_single = single_at(statement)?;
    Ok(Delete { filter, is_single })
}

/// Reads what a value asks for, which must be a statement.
fn delete_of(statement: &Bson) -> Result<Delete<'_>, CommandError>
    ensures { MatchResult result (λ d. delete_of (value_of statement.now) ≡ Ok (delete_view d))
        (λ e. delete_of (value_of statement.now) ≡ Err e) }
{
    match statement {
        Bson::Document(statement) => delete_in(statement),
        _ => Err(CommandError::Deletes),
    }
}

/// Returns copies of the documents that are left after a statement, in order.
fn survivors(alloc: Global, delete: Delete<'_>, documents: &[Bson]) -> Result<Vec<Bson>, AllocError>
    ensures { IfOk result (λ vs. map value_of vs.items
        ≡ survivors (delete_view delete.entry) (map value_of documents.now)) }
{
    let mut left = Vec::new(alloc);
    let mut is_done = false;
    for document in documents {
        if !is_done && is_match(delete.filter, document) {
            is_done = delete.is_single;
        } else {
            left.push(document.try_clone()?)?;
        }
    }
    Ok(left)
}

/// Returns copies of the documents that a value leaves, in order, which must be a statement.
fn deleted_by(alloc: Global, statement: &Bson, documents: &[Bson]) -> Result<Vec<Bson>, Failure>
    ensures ok { IfOk result (λ vs.
        deleted_by (value_of statement.now) (map value_of documents.now)
        ≡ Ok (map value_of vs.items)) }
    ensures refused { IfErr result (λ e. IsFailure
        (deleted_by (value_of statement.now) (map value_of documents.now)) e) }
{
    let delete = delete_of(statement)?;
    compared(delete.filter, documents)?;
    let left = survivors(alloc, delete, documents)?;
    Ok(left)
}

// ---- all statements

/// What the statements of a command left of the documents of a namespace so far.
#[derive(Drop)]
pub struct Deletes {
    /// The documents that are left, in order.
    pub documents: Vec<Bson>,
    /// The errors of the statements that weren't carried out.
    pub errors: Vec<Bson>,
}

impl Deletes {
    /// Returns true if a statement wasn't carried out.
    fn has_error(&self) -> bool
        ensures { result ≡ has_error (deletes_view self.now).errors }
    {
        !self.errors.is_empty()
    }
}

/// Records why the statement at `index` isn't carried out.
fn refuse(
    alloc: Global,
    index: usize,
    error: CommandError,
    deletes: &mut Deletes,
) -> Result<(), AllocError>
    requires { index < 2 ^ 63 }
    ensures { OnOk result
        (deletes_view deletes.new ≡ refused index error (deletes_view deletes.old)) }
{
    let words = String::from_str(alloc, error.words())?;
    let error = write_error(alloc, index, error.code(), words)?;
    deletes.errors.push(Bson::Document(error))?;
    Ok(())
}

/// Carries out the statement at `index`.
fn delete_by(
    alloc: Global,
    index: usize,
    statement: &Bson,
    deletes: &mut Deletes,
) -> Result<(), AllocError>
    requires { index < 2 ^ 63 }
    ensures { OnOk result (deletes_view deletes.new
        ≡ delete_by index (value_of statement.now) (deletes_view deletes.old)) }
{
    match deleted_by(alloc, statement, deletes.documents.as_slice()) {
        Ok(left) => {
            deletes.documents = left;
            Ok(())
        }
        Err(Failure::Refused(error)) => refuse(alloc, index, error, deletes),
        Err(Failure::OutOfMemory) => Err(AllocError),
    }
}

/// Returns what all statements leave of documents, in order. Where they are ordered, nothing
/// follows the first one that isn't carried out.
///
/// # Errors
///
/// Returns `AllocError` if memory runs out.
pub fn after_deletes(
    alloc: Global,
    is_ordered: bool,
    statements: &[Bson],
    documents: &[Bson],
) -> Result<Deletes, AllocError>
    requires { length statements.now ≤ 100_000 }
    ensures { IfOk result (λ d. deletes_view d
        ≡ after_deletes is_ordered (map value_of statements.now) (map value_of documents.now)) }
{
    let mut deletes = Deletes {
        documents: copies(alloc, documents)?,
        errors: Vec::new(alloc),
    };
    for (index, statement) in statements.iter().enumerate() {
        if is_ordered && deletes.has_error() {
            return Ok(deletes);
        }
        delete_by(alloc, index, statement, &mut deletes)?;
    }
    Ok(deletes)
}
