//! Applies the statements of update to documents.

ghost use Rattle.std.specs.Prelude.{◌≡◌, ◌<◌, ◌≤◌, ◌+◌, ◌^◌, Err, IfErr, IfOk, MatchResult, Ok};
ghost use Rattle.std.specs.Prelude.{◌++◌, ◌∷◌, [], OnOk, drop, length, map, option_map};
ghost use Rattle.std.specs.Prelude.{if◌then◌else◌};
ghost use Rattle.bson_raw.specs.{names_of};
ghost use Rattle.bson_doc.specs.{coded_value, same, tree_of, value_of};
ghost use Rattle.doc_query.specs.{IsFailure, inner};
ghost use Rattle.doc_update.specs.Identity.{id_in};
ghost use Rattle.doc_update.specs.Updating.{after_updates, applied, are_statement_fields};
ghost use Rattle.doc_update.specs.Updating.{carried};
ghost use Rattle.doc_update.specs.Updating.{change_at, changed_value, flag_at, flags_in};
ghost use Rattle.doc_update.specs.Updating.{if_allowed};
ghost use Rattle.doc_update.specs.Updating.{insertable, inserted, inserted_by, is_statement_field};
ghost use Rattle.doc_update.specs.Updating.{nothing_updated, outcome_view, recorded, refused};
ghost use Rattle.doc_update.specs.Updating.{update_by, update_in, update_of, update_one};
ghost use Rattle.doc_update.specs.Updating.{update_view, updated, updated_by, updates_view};
ghost use Rattle.doc_update.specs.Updating.{upserted_of, upserted_pair, with_changed, with_kept};
ghost use Rattle.doc_update.specs.WriteErrors.{has_error};

use crate::changing::changed;
use crate::counts::plus;
use crate::deletes::filter_at;
use crate::identity::{id_fault, id_in, is_taken, with_id};
use crate::operators::{Change, change_in};
use crate::upserts::new_fields;
use crate::write_errors::write_error;
use bson_doc::{Bson, Document};
use doc_query::{
    CommandError, Failure, compared, copies, count_value, field, is_match, is_same, set,
};
use std::alloc::{AllocError, Global};

/// What a statement of update asks for.
#[derive(Drop)]
struct Update<'a> {
    /// The filter that the documents match.
    filter: &'a Document,
    /// What is made of them.
    change: Change,
    /// Whether all of them are changed, and not the first alone.
    is_multi: bool,
    /// Whether a document is inserted where none matches.
    is_upsert: bool,
}

/// What a statement made of documents so far.
#[derive(Drop)]
struct Outcome {
    documents: Vec<Bson>,
    /// How many of them matched.
    matched: usize,
    /// How many of those became others.
    modified: usize,
    /// The `_id` of the document that was inserted.
    inserted: Option<Bson>,
}

/// What the statements of a command made of the documents of a namespace so far.
#[derive(Drop)]
pub struct Updates {
    /// The documents.
    pub documents: Vec<Bson>,
    /// How many of them matched or were inserted, added up over the statements.
    pub matched: usize,
    /// How many of those became others.
    pub modified: usize,
    /// The index of each statement that inserted a document, and the `_id` of that.
    pub upserted: Vec<Bson>,
    /// The errors of the statements that weren't carried out.
    pub errors: Vec<Bson>,
}

impl Updates {
    /// Returns true if a statement wasn't carried out.
    fn has_error(&self) -> bool
        ensures { result ≡ has_error (updates_view self.now).errors }
    {
        !self.errors.is_empty()
    }
}

// ---- what a statement asks for

/// Returns true if a statement of update may have a field with this name.
fn is_statement_field(name: &str) -> bool
    ensures { result ≡ is_statement_field name.now }
{
    matches!(name, "q" | "u" | "multi" | "upsert")
}

/// Returns true if all fields are those of a statement of update.
fn are_statement_fields(statement: &Document) -> bool
    ensures { result ≡ are_statement_fields (names_of (tree_of statement.now)) }
{
    for (name, _) in statement {
        if !is_statement_field(name) {
            return false;
        }
    }
    true
}

/// Returns what the field `u` of a statement asks for.
#[tactic(auto, using(crate::proofs::Owning::pairs_of_tree))]
fn change_at(alloc: Global, statement: &Document) -> Result<Change, Failure>
    ensures ok { IfOk result (λ c. change_at (tree_of statement.now) ≡ Ok c) }
    ensures refused { IfErr result (λ e. IsFailure (change_at (tree_of statement.now)) e) }
{
    match field(statement, "u") {
        Some(Bson::Document(update)) => change_in(alloc, update),
        _ => Err(Failure::Refused(CommandError::Updates)),
    }
}

/// Returns the truth value in a field of a statement, or false if there is no such field.
fn flag_at(statement: &Document, name: &str) -> Result<bool, CommandError>
    ensures { result ≡ flag_at name.now (tree_of statement.now) }
{
    match field(statement, name) {
        None => Ok(false),
        Some(Bson::Boolean(truth)) => Ok(*truth),
        Some(_) => Err(CommandError::Updates),
    }
}

/// Returns an error if a statement asks for what isn't carried out.
fn if_allowed(change: &Change, is_multi: bool) -> Result<(), CommandError>
    ensures { result ≡ if_allowed change.now is_multi }
{
    match change {
        Change::Replace(_) if is_multi => Err(CommandError::Many),
        _ => Ok(()),
    }
}

/// Returns the truth values in the fields `multi` and `upsert` of a statement that asks for this
/// change.
fn flags_in(statement: &Document, change: &Change) -> Result<(bool, bool), CommandError>
    ensures { result ≡ flags_in change.now (tree_of statement.now) }
{
    let is_multi = flag_at(statement, "multi")?;
    let is_upsert = flag_at(statement, "upsert")?;
    if_allowed(change, is_multi)?;
    Ok((is_multi, is_upsert))
}

/// Reads what a statement asks for.
fn update_in(alloc: Global, statement: &Document) -> Result<Update<'_>, Failure>
    ensures ok { IfOk result (λ u. update_in (tree_of statement.now) ≡ Ok (update_view u)) }
    ensures refused { IfErr result (λ e. IsFailure (update_in (tree_of statement.now)) e) }
{
    if !are_statement_fields(statement) {
        return Err(Failure::Refused(CommandError::Updates));
    }
    let filter = filter_at(statement)?;
    let change = change_at(alloc, statement)?;
    match flags_in(statement, &change) {
        Ok((is_multi, is_upsert)) => Ok(Update {
            filter,
            change,
            is_multi,
            is_upsert,
        }),
        Err(error) => {
            drop(change);
            Err(Failure::Refused(error))
        }
    }
}

/// Reads what a value asks for, which must be a statement.
fn update_of(alloc: Global, statement: &Bson) -> Result<Update<'_>, Failure>
    ensures ok { IfOk result (λ u. update_of (value_of statement.now) ≡ Ok (update_view u)) }
    ensures refused { IfErr result (λ e. IsFailure (update_of (value_of statement.now)) e) }
{
    match statement {
        Bson::Document(statement) => update_in(alloc, statement),
        _ => Err(Failure::Refused(CommandError::Updates)),
    }
}

// ---- what it makes of documents

/// Returns what an update makes of a value, if it is a document.
#[tactic(auto, using(crate::proofs::Owning::pairs_of_tree))]
fn changed_value(alloc: Global, change: &Change, value: &Bson) -> Result<Bson, Failure>
    ensures ok { IfOk result
        (λ v. changed_value change.now (value_of value.now) ≡ Ok (value_of v)) }
    ensures refused { IfErr result
        (λ e. IsFailure (changed_value change.now (value_of value.now)) e) }
{
    match value {
        Bson::Document(document) => {
            let changed = changed(alloc, change, document)?;
            Ok(Bson::Document(changed))
        }
        _ => {
            let copy = value.try_clone()?;
            Ok(copy)
        }
    }
}

/// Returns 0 if two values are the same, and otherwise 1.
fn count_other(a: &Bson, b: &Bson) -> usize
    ensures { result ≡ (if same coded_value (value_of a.now) (value_of b.now) then 0 else 1) }
{
    if is_same(a, b) { 0 } else { 1 }
}

/// Adds a document that matched to those that the statement made, and counts it.
fn push_changed(old: &Bson, new: Bson, outcome: &mut Outcome) -> Result<(), AllocError>
    ensures { OnOk result (outcome_view outcome.new
        ≡ with_changed (value_of old.now) (value_of new) (outcome_view outcome.old)) }
{
    let others = count_other(old, &new);
    outcome.documents.push(new)?;
    outcome.matched = plus(outcome.matched, 1)?;
    outcome.modified = plus(outcome.modified, others)?;
    Ok(())
}

/// Adds a copy of a document to those that the statement made.
fn push_kept(document: &Bson, outcome: &mut Outcome) -> Result<(), AllocError>
    ensures { OnOk result (outcome_view outcome.new
        ≡ with_kept (value_of document.now) (outcome_view outcome.old)) }
{
    let copy = document.try_clone()?;
    outcome.documents.push(copy)?;
    Ok(())
}

/// Adds a document to those that the statement made: changed, if it matches and is to be changed.
fn update_one(
    alloc: Global,
    update: &Update<'_>,
    document: &Bson,
    outcome: &mut Outcome,
) -> Result<(), Failure>
    ensures ok { OnOk result
        (update_one (update_view update.now) (value_of document.now) (outcome_view outcome.old)
        ≡ Ok (outcome_view outcome.new)) }
    ensures refused { IfErr result (λ e. IsFailure
        (update_one (update_view update.now) (value_of document.now) (outcome_view outcome.old))
        e) }
{
    if is_match(update.filter, document) && (update.is_multi || outcome.matched == 0) {
        let new = changed_value(alloc, &update.change, document)?;
        push_changed(document, new, outcome)?;
        Ok(())
    } else {
        push_kept(document, outcome)?;
        Ok(())
    }
}

/// Adds documents to those that the statement made, one after another.
fn update_each(
    alloc: Global,
    update: &Update<'_>,
    documents: &[Bson],
    outcome: &mut Outcome,
) -> Result<(), Failure>
    ensures ok { OnOk result
        (updated (update_view update.now) (map value_of documents.now) (outcome_view outcome.old)
        ≡ Ok (outcome_view outcome.new)) }
    ensures refused { IfErr result (λ e. IsFailure
        (updated (update_view update.now) (map value_of documents.now) (outcome_view outcome.old))
        e) }
{
    for document in documents {
        update_one(alloc, update, document, outcome)?;
    }
    Ok(())
}

/// Returns what a statement makes of documents.
fn updated(alloc: Global, update: &Update<'_>, documents: &[Bson]) -> Result<Outcome, Failure>
    ensures ok { IfOk result (λ r.
        updated (update_view update.now) (map value_of documents.now) nothing_updated
        ≡ Ok (outcome_view r)) }
    ensures refused { IfErr result (λ e. IsFailure
        (updated (update_view update.now) (map value_of documents.now) nothing_updated) e) }
{
    let mut outcome = Outcome {
        documents: Vec::new(alloc),
        matched: 0,
        modified: 0,
        inserted: None,
    };
    match update_each(alloc, update, documents, &mut outcome) {
        Ok(()) => Ok(outcome),
        Err(failure) => {
            drop(outcome);
            Err(failure)
        }
    }
}

// ---- what it inserts

/// Returns a copy of the `_id` of a value, if it is a document that has one.
fn copied_id(value: &Bson) -> Result<Option<Bson>, AllocError>
    ensures { IfOk result (λ id. option_map value_of id ≡ id_in (value_of value.now)) }
{
    match id_in(value) {
        None => Ok(None),
        Some(id) => {
            let copy = id.try_clone()?;
            Ok(Some(copy))
        }
    }
}

/// Returns copies of documents, and another document behind them.
fn with_last(alloc: Global, documents: &[Bson], last: Bson) -> Result<Vec<Bson>, AllocError>
    ensures { IfOk result
        (λ vs. map value_of vs.items ≡ map value_of documents.now ++ value_of last ∷ []) }
{
    match copies(alloc, documents) {
        Ok(mut copies) => {
            copies.push(last)?;
            Ok(copies)
        }
        Err(refused) => {
            drop(last);
            Err(refused)
        }
    }
}

/// Returns an error if a document isn't inserted behind others.
fn insertable(document: &Bson, documents: &[Bson]) -> Result<(), CommandError>
    ensures { result ≡ insertable (value_of document.now) (map value_of documents.now) }
{
    if id_fault(id_in(document)).is_some() {
        return Err(CommandError::InvalidId);
    }
    if is_taken(id_in(document), documents) {
        return Err(CommandError::Duplicate);
    }
    Ok(())
}

/// Returns a copy of the `_id` of a document that is inserted behind others.
fn inserted_id(document: &Bson, documents: &[Bson]) -> Result<Option<Bson>, Failure>
    ensures ok { IfOk result (λ id.
        (insertable (value_of document.now) (map value_of documents.now) ≡ Ok tt)
        × (option_map value_of id ≡ id_in (value_of document.now))) }
    ensures refused { IfErr result (λ e. IsFailure
        (insertable (value_of document.now) (map value_of documents.now)) e) }
{
    insertable(document, documents)?;
    let id = copied_id(document)?;
    Ok(id)
}

/// Inserts a document behind others.
///
/// # Errors
///
/// Returns `InvalidId` if no document may have its `_id`, and `Duplicate` if it is taken.
fn inserted(alloc: Global, document: Bson, documents: &[Bson]) -> Result<Outcome, Failure>
    ensures ok { IfOk result (λ r.
        inserted (value_of document) (map value_of documents.now) ≡ Ok (outcome_view r)) }
    ensures refused { IfErr result (λ e. IsFailure
        (inserted (value_of document) (map value_of documents.now)) e) }
{
    let id = match inserted_id(&document, documents) {
        Ok(id) => id,
        Err(failure) => {
            drop(document);
            return Err(failure);
        }
    };
    match with_last(alloc, documents, document) {
        Ok(documents) => Ok(Outcome {
            documents,
            matched: 1,
            modified: 0,
            inserted: id,
        }),
        Err(_) => {
            drop(id);
            Err(Failure::OutOfMemory)
        }
    }
}

/// Inserts what a statement makes of the values in its filter behind documents.
#[tactic(auto, using(crate::proofs::Owning::pairs_of_tree))]
fn inserted_by(alloc: Global, update: &Update<'_>, documents: &[Bson]) -> Result<Outcome, Failure>
    ensures ok { IfOk result (λ r.
        inserted_by (update_view update.now) (map value_of documents.now)
        ≡ Ok (outcome_view r)) }
    ensures refused { IfErr result (λ e. IsFailure
        (inserted_by (update_view update.now) (map value_of documents.now)) e) }
{
    let fields = new_fields(alloc, &update.change, update.filter)?;
    let document = with_id(alloc, &fields, documents, &[])?;
    inserted(alloc, Bson::Document(document), documents)
}

/// Returns what a statement makes of documents: it inserts one where none matches, if it asks so.
fn carried(alloc: Global, update: &Update<'_>, documents: &[Bson]) -> Result<Outcome, Failure>
    ensures ok { IfOk result (λ r.
        carried (update_view update.now) (map value_of documents.now) ≡ Ok (outcome_view r)) }
    ensures refused { IfErr result (λ e. IsFailure
        (carried (update_view update.now) (map value_of documents.now)) e) }
{
    let outcome = updated(alloc, update, documents)?;
    if update.is_upsert && outcome.matched == 0 {
        drop(outcome);
        return inserted_by(alloc, update, documents);
    }
    Ok(outcome)
}

/// Returns what a statement makes of documents that its filter can be compared with.
fn applied(alloc: Global, update: &Update<'_>, documents: &[Bson]) -> Result<Outcome, Failure>
    ensures ok { IfOk result (λ r.
        applied (update_view update.now) (map value_of documents.now) ≡ Ok (outcome_view r)) }
    ensures refused { IfErr result (λ e. IsFailure
        (applied (update_view update.now) (map value_of documents.now)) e) }
{
    compared(update.filter, documents)?;
    carried(alloc, update, documents)
}

/// Returns what a value makes of documents, which must be a statement.
fn updated_by(alloc: Global, statement: &Bson, documents: &[Bson]) -> Result<Outcome, Failure>
    ensures ok { IfOk result (λ r.
        updated_by (value_of statement.now) (map value_of documents.now) ≡ Ok (outcome_view r)) }
    ensures refused { IfErr result (λ e. IsFailure
        (updated_by (value_of statement.now) (map value_of documents.now)) e) }
{
    let update = update_of(alloc, statement)?;
    let outcome = applied(alloc, &update, documents);
    drop(update);
    outcome
}

// ---- all statements

/// Sets the fields of what is told of the statement at `index`, which inserted a document with this
/// `_id`.
fn set_upserted(
    alloc: Global,
    index: usize,
    id: Bson,
    pair: &mut Document,
) -> Result<(), AllocError>
    requires index { index < 2 ^ 63 }
    requires none { pair.old ≡ [] }
    ensures { OnOk result (inner pair.new ≡ upserted_pair index (value_of id)) }
{
    set(alloc, pair, "index", count_value(index))?;
    set(alloc, pair, "_id", id)
}

/// Makes what is told of the statement at `index`, which inserted a document with this `_id`.
fn upserted_pair(alloc: Global, index: usize, id: Bson) -> Result<Document, AllocError>
    requires { index < 2 ^ 63 }
    ensures { IfOk result (λ d. inner d ≡ upserted_pair index (value_of id)) }
{
    let mut pair = Document::new(alloc);
    set_upserted(alloc, index, id, &mut pair)?;
    Ok(pair)
}

/// Appends what is told of the statement at `index`, if it inserted a document.
fn push_upserted(
    alloc: Global,
    index: usize,
    inserted: Option<Bson>,
    upserted: &mut Vec<Bson>,
) -> Result<(), AllocError>
    requires { index < 2 ^ 63 }
    ensures { OnOk result (map value_of upserted.new.items ≡ map value_of upserted.old.items
        ++ upserted_of index (option_map value_of inserted)) }
{
    match inserted {
        None => Ok(()),
        Some(id) => {
            let pair = upserted_pair(alloc, index, id)?;
            upserted.push(Bson::Document(pair))?;
            Ok(())
        }
    }
}

/// Records what the statement at `index` made of the documents.
fn record(
    alloc: Global,
    index: usize,
    outcome: Outcome,
    updates: &mut Updates,
) -> Result<(), AllocError>
    requires { index < 2 ^ 63 }
    ensures { OnOk result (updates_view updates.new
        ≡ recorded index (outcome_view outcome) (updates_view updates.old)) }
{
    let Outcome {
        documents,
        matched,
        modified,
        inserted,
    } = outcome;
    updates.documents = documents;
    push_upserted(alloc, index, inserted, &mut updates.upserted)?;
    updates.matched = plus(updates.matched, matched)?;
    updates.modified = plus(updates.modified, modified)?;
    Ok(())
}

/// Records why the statement at `index` isn't carried out.
fn refuse(
    alloc: Global,
    index: usize,
    error: CommandError,
    updates: &mut Updates,
) -> Result<(), AllocError>
    requires { index < 2 ^ 63 }
    ensures { OnOk result
        (updates_view updates.new ≡ refused index error (updates_view updates.old)) }
{
    let words = String::from_str(alloc, error.words())?;
    let error = write_error(alloc, index, error.code(), words)?;
    updates.errors.push(Bson::Document(error))?;
    Ok(())
}

/// Carries out the statement at `index`.
fn update_by(
    alloc: Global,
    index: usize,
    statement: &Bson,
    updates: &mut Updates,
) -> Result<(), AllocError>
    requires { index < 2 ^ 63 }
    ensures { OnOk result (updates_view updates.new
        ≡ update_by index (value_of statement.now) (updates_view updates.old)) }
{
    match updated_by(alloc, statement, updates.documents.as_slice()) {
        Ok(outcome) => record(alloc, index, outcome, updates),
        Err(Failure::Refused(error)) => refuse(alloc, index, error, updates),
        Err(Failure::OutOfMemory) => Err(AllocError),
    }
}

/// Returns what all statements make of documents, in order. Where they are ordered, nothing follows
/// the first one that isn't carried out.
///
/// # Errors
///
/// Returns `AllocError` if memory runs out.
pub fn after_updates(
    alloc: Global,
    is_ordered: bool,
    statements: &[Bson],
    documents: &[Bson],
) -> Result<Updates, AllocError>
    requires { length statements.now ≤ 100_000 }
    ensures { IfOk result (λ u. updates_view u
        ≡ after_updates is_ordered (map value_of statements.now) (map value_of documents.now)) }
{
    let mut updates = Updates {
        documents: copies(alloc, documents)?,
        matched: 0,
        modified: 0,
        upserted: Vec::new(alloc),
        errors: Vec::new(alloc),
    };
    for (index, statement) in statements.iter().enumerate() {
        if is_ordered && updates.has_error() {
            return Ok(updates);
        }
        update_by(alloc, index, statement, &mut updates)?;
    }
    Ok(updates)
}
