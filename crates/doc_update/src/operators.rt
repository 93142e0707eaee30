//! Reads what an update asks for: a document in the place of another one, or operators.

ghost use Rattle.std.specs.Prelude.{◌≡◌, IfErr, IfOk, Ok, OnOk, false, is_some};
ghost use Rattle.bson_doc.specs.Document.{value_named};
ghost use Rattle.doc_query.specs.{IsFailure};
ghost use Rattle.doc_update.specs.Operators.{are_modifiers, are_numbers, change_in, has_conflict};
ghost use Rattle.doc_update.specs.Operators.{increments_in, is_modifier, names_operator, operand};
ghost use Rattle.doc_update.specs.Operators.{operators_in, paths_in, replacement_in};
ghost use Rattle.doc_update.specs.Operators.{unless_conflict};

use crate::increments::number_of;
use crate::paths::{overlap_within, paths_fault, push_paths};
use bson_doc::{Bson, Document};
use doc_query::{CommandError, Failure, begins_with_operator, is_operator};
use std::alloc::{AllocError, Global};

/// The paths that the operators of an update name, each with its operand.
#[derive(Drop)]
pub struct Operators {
    /// Those of `$set`.
    pub set: Document,
    /// Those of `$unset`, whose operands mean nothing.
    pub unset: Document,
    /// Those of `$inc`.
    pub increments: Document,
}

/// What an update makes of a document.
#[derive(Drop)]
pub enum Change {
    /// Puts this document in its place, except for the `_id`.
    Replace(Document),
    /// Applies these operators to its fields.
    Operate(Operators),
}

/// Returns true if all values are numbers that `$inc` adds.
fn are_numbers(fields: &Document) -> bool
    ensures { result ≡ are_numbers fields.now }
{
    for (_, value) in fields {
        if number_of(value).is_none() {
            return false;
        }
    }
    true
}

/// Returns true if this is the name of an operator that is carried out.
fn is_modifier(name: &str) -> bool
    ensures { result ≡ is_modifier name.now }
{
    matches!(name, "$set" | "$unset" | "$inc")
}

/// Returns true if all names are those of operators that are carried out.
fn are_modifiers(update: &Document) -> bool
    ensures { result ≡ are_modifiers update.now }
{
    for (name, _) in update {
        if !is_modifier(name) {
            return false;
        }
    }
    true
}

/// Returns true if one of the names is that of an operator.
fn names_operator(fields: &Document) -> bool
    ensures { result ≡ names_operator fields.now }
{
    for (name, _) in fields {
        if is_operator(name) {
            return true;
        }
    }
    false
}

/// Returns true if a document has a field with this name.
pub fn has_field(document: &Document, name: &str) -> bool
    ensures { result ≡ is_some (value_named name.now document.now) }
{
    document.get(name).is_some()
}

/// Returns true if two paths overlap, of one operator or of two.
fn has_conflict(alloc: Global, operators: &Operators) -> Result<bool, AllocError>
    ensures { IfOk result (λ b. b ≡ has_conflict operators.now) }
{
    let mut paths = Vec::new(alloc);
    push_paths(&operators.set, &mut paths)?;
    push_paths(&operators.unset, &mut paths)?;
    push_paths(&operators.increments, &mut paths)?;
    overlap_within(paths)
}

/// Returns an error if two paths overlap.
fn check_conflict(alloc: Global, operators: &Operators) -> Result<(), Failure>
    ensures ok { OnOk result (has_conflict operators.now ≡ false) }
    ensures refused { IfErr result (λ e. IsFailure (unless_conflict operators.now) e) }
{
    if has_conflict(alloc, operators)? {
        return Err(Failure::Refused(CommandError::Conflict));
    }
    Ok(())
}

/// Returns the operators, unless two paths overlap.
fn unless_conflict(alloc: Global, operators: Operators) -> Result<Operators, Failure>
    ensures ok { IfOk result (λ o. unless_conflict operators ≡ Ok o) }
    ensures refused { IfErr result (λ e. IsFailure (unless_conflict operators) e) }
{
    match check_conflict(alloc, &operators) {
        Ok(()) => Ok(operators),
        Err(failure) => {
            drop(operators);
            Err(failure)
        }
    }
}

/// Returns the paths that an operator of an update names. There are none if it isn't there.
#[tactic(auto, using(crate::proofs::Owning::pairs_of_tree))]
fn operand(alloc: Global, update: &Document, operator: &str) -> Result<Document, Failure>
    ensures ok { IfOk result (λ d. operand operator.now update.now ≡ Ok d) }
    ensures refused { IfErr result (λ e. IsFailure (operand operator.now update.now) e) }
{
    match update.get(operator) {
        None => Ok(Document::new(alloc)),
        Some(Bson::Document(fields)) => paths_in(fields),
        Some(_) => Err(Failure::Refused(CommandError::Modifiers)),
    }
}

/// Returns a copy of the paths that an operator names, each with its operand.
fn paths_in(fields: &Document) -> Result<Document, Failure>
    ensures ok { IfOk result (λ d. paths_in fields.now ≡ Ok d) }
    ensures refused { IfErr result (λ e. IsFailure (paths_in fields.now) e) }
{
    if let Some(fault) = paths_fault(fields) {
        return Err(Failure::Refused(fault));
    }
    let copy = fields.try_clone()?;
    Ok(copy)
}

/// Returns the paths that `$inc` names, each with the number that is added.
fn increments_in(alloc: Global, update: &Document) -> Result<Document, Failure>
    ensures ok { IfOk result (λ d. increments_in update.now ≡ Ok d) }
    ensures refused { IfErr result (λ e. IsFailure (increments_in update.now) e) }
{
    let increments = operand(alloc, update, "$inc")?;
    if !are_numbers(&increments) {
        return Err(Failure::Refused(CommandError::Increment));
    }
    Ok(increments)
}

/// Reads the operators of an update.
fn operators_in(alloc: Global, update: &Document) -> Result<Operators, Failure>
    ensures ok { IfOk result (λ o. operators_in update.now ≡ Ok o) }
    ensures refused { IfErr result (λ e. IsFailure (operators_in update.now) e) }
{
    if !are_modifiers(update) {
        return Err(Failure::Refused(CommandError::Modifiers));
    }
    let set = operand(alloc, update, "$set")?;
    let unset = operand(alloc, update, "$unset")?;
    let increments = increments_in(alloc, update)?;
    unless_conflict(
        alloc,
        Operators {
            set,
            unset,
            increments,
        },
    )
}

/// Returns the document that an update puts in the place of another one.
fn replacement_in(update: &Document) -> Result<Document, Failure>
    ensures ok { IfOk result (λ d. replacement_in update.now ≡ Ok d) }
    ensures refused { IfErr result (λ e. IsFailure (replacement_in update.now) e) }
{
    if names_operator(update) {
        return Err(Failure::Refused(CommandError::Modifiers));
    }
    let copy = update.try_clone()?;
    Ok(copy)
}

/// Reads what an update asks for. Its first name says whether it is one of operators.
///
/// # Errors
///
/// Returns `Modifiers` if it has operators that aren't carried out, or operators beside fields;
/// `Steps`, `EmptyStep` or `Path` if a path isn't carried out; `Increment` if `$inc` adds no number;
/// and `Conflict` if two paths overlap.
pub fn change_in(alloc: Global, update: &Document) -> Result<Change, Failure>
    ensures ok { IfOk result (λ c. change_in update.now ≡ Ok c) }
    ensures refused { IfErr result (λ e. IsFailure (change_in update.now) e) }
{
    if begins_with_operator(update) {
        let operators = operators_in(alloc, update)?;
        return Ok(Change::Operate(operators));
    }
    let replacement = replacement_in(update)?;
    Ok(Change::Replace(replacement))
}
