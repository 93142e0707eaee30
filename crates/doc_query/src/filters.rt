//! Applies the filters of find: a document matches if it has each field of the filter, with a value
//! that the filter asks for.

ghost use Rattle.std.specs.Prelude.{◌≡◌, Err, IfErr, IfOk, MatchOption, None, Ok, OnOk, Option};
ghost use Rattle.std.specs.Prelude.{map};
ghost use Rattle.std.specs.List.{list_any};
ghost use Rattle.bson_elem.specs.{Spells, Tree};
ghost use Rattle.bson_raw.specs.{ShowsFound, TreeValue, document_bytes, first_named};
ghost use Rattle.bson_doc.specs.{array_tree, tree_of, value_of};
ghost use Rattle.doc_query.specs.Errors.{IsFailure};
ghost use Rattle.doc_query.specs.Filters.{array_fault, begins_with_operator, clause_fault};
ghost use Rattle.doc_query.specs.Filters.{compared, compares, compares_all, field_fault};
ghost use Rattle.doc_query.specs.Filters.{filter_fault, filter_field, filter_in, filter_of, found};
ghost use Rattle.doc_query.specs.Filters.{found_in, has_clause, has_clauses, has_field, has_fields};
ghost use Rattle.doc_query.specs.Filters.{has_pair, has_value, is_asked, is_operator, is_path};
ghost use Rattle.doc_query.specs.Filters.{has_operators, is_nested, is_plain_name, is_reference};
ghost use Rattle.doc_query.specs.Filters.{is_refused_field};
ghost use Rattle.doc_query.specs.Filters.{is_uncompared, lists_operator, matches, nests_operator};
ghost use Rattle.doc_query.specs.Filters.{read_filter, value_fault};
ghost use Rattle.doc_query.specs.Paths.{own_values};

use crate::conditions::{Operator, are_conditions, elements, is_equated};
use crate::criteria::Criterion;
use crate::failure::{CommandError, Failure};
use crate::logical::{Logical, Purpose, joined_none, joining, logical_of, no_array};
use crate::meeting::{finds, meets_all};
use crate::owned::field;
use crate::paths::OwnValues;
use bson_doc::{Bson, DocRefusal, Document};
use bson_raw::{RawBson, RawDocument};
use std::alloc::{AllocError, Global};

/// Returns true if `name` is that of an operator: if it begins with `$`.
pub fn is_operator(name: &str) -> bool
    ensures { result ≡ is_operator name.now }
{
    name.as_bytes().first() == Some(&b'$')
}

/// Returns true if `name` is that of a field in an embedded document: if it has a dot.
fn is_path(name: &str) -> bool
    ensures { result ≡ is_path name.now }
{
    name.as_bytes().contains(&b'.')
}

/// Returns true if a name is that of a field of the document itself: if it isn't empty, begins with no
/// `$` and has no dot.
pub fn is_plain_name(name: &str) -> bool
    ensures { result ≡ is_plain_name name.now }
{
    !(name == "" || is_operator(name) || is_path(name))
}

/// Returns true if the first name of a document is that of an operator.
#[tactic(auto, using(crate::proofs::Filtering::begins_first))]
pub fn begins_with_operator(document: &Document) -> bool
    ensures { result ≡ begins_with_operator (tree_of document.now) }
{
    match document.iter().next() {
        Some((name, _)) => is_operator(name),
        None => false,
    }
}

/// Returns true if a document is a database reference, which is a value.
fn is_reference(document: &Document) -> bool
    ensures { result ≡ is_reference (tree_of document.now) }
{
    match field(document, "$ref") {
        Some(Bson::String(_)) => field(document, "$id").is_some(),
        _ => false,
    }
}

/// Returns true if a document asks for operators: its first name is that of one, and it is no
/// database reference.
pub fn has_operators(document: &Document) -> bool
    ensures { result ≡ has_operators (tree_of document.now) }
{
    begins_with_operator(document) && !is_reference(document)
}

/// Returns true if a field may be asked for this: a value that it equals, or operators that are
/// carried out.
fn is_asked(value: &Bson) -> bool
    ensures { result ≡ is_asked (value_of value.now) }
{
    match value {
        Bson::Document(document) if has_operators(document) => are_conditions(document),
        _ => is_equated(value),
    }
}

/// Returns true if a field of a filter isn't carried out.
fn is_refused_field(name: &str, value: &Bson) -> bool
    ensures { result ≡ is_refused_field name.now (value_of value.now) }
{
    is_operator(name) || !is_asked(value)
}

/// Returns true if a value in a list is a document of operators.
fn is_nested(value: &Bson) -> bool
    ensures { result ≡ is_nested (value_of value.now) }
{
    match value {
        Bson::Document(document) => has_operators(document),
        _ => false,
    }
}

/// Returns true if one of these values is a document of operators.
fn any_nested(values: &[Bson]) -> bool
    ensures { result ≡ list_any is_nested (map value_of values.now) }
{
    for value in values {
        if is_nested(value) {
            return true;
        }
    }
    false
}

/// Returns true if the operator with this name has a list with an operator.
fn lists_operator(conditions: &Document, name: &str) -> bool
    ensures { result ≡ lists_operator (first_named name.now (tree_of conditions.now)) }
{
    match field(conditions, name) {
        Some(list) => any_nested(elements(list)),
        None => false,
    }
}

/// Returns true if a field is asked for `$in` or `$nin` with a list that has an operator.
fn nests_operator(value: &Bson) -> bool
    ensures { result ≡ nests_operator (value_of value.now) }
{
    match value {
        Bson::Document(conditions) => {
            has_operators(conditions)
                && (lists_operator(conditions, "$in") || lists_operator(conditions, "$nin"))
        }
        _ => false,
    }
}

/// Returns why a field isn't carried out that is no logical operator.
fn field_fault(name: &str, value: &Bson) -> Option<CommandError>
    ensures { result ≡ field_fault name.now (value_of value.now) }
{
    if is_refused_field(name, value) {
        Some(CommandError::Operator)
    } else if nests_operator(value) {
        Some(CommandError::NestedOperator)
    } else {
        None
    }
}

/// Returns why a field of a filter isn't carried out.
#[cycle(faults)]
fn value_fault(name: &str, value: &Bson) -> Option<CommandError>
    ensures { result ≡ value_fault name.now (value_of value.now) }
{
    let Some(logical) = logical_of(name) else {
        return field_fault(name, value);
    };
    match value {
        Bson::Array(clauses) => array_fault(clauses.as_slice()),
        _ => Some(no_array(logical)),
    }
}

/// Returns why the array of a logical operator isn't carried out.
#[cycle(faults)]
fn array_fault(clauses: &[Bson]) -> Option<CommandError>
    ensures { result ≡ array_fault (array_tree 0 (map value_of clauses.now)) }
{
    if clauses.is_empty() {
        return Some(CommandError::NoClauses);
    }
    for clause in clauses {
        if let Some(fault) = clause_fault(clause) {
            return Some(fault);
        }
    }
    None
}

/// Returns why a clause isn't carried out.
#[cycle(faults)]
fn clause_fault(clause: &Bson) -> Option<CommandError>
    ensures { result ≡ clause_fault (value_of clause.now) }
{
    match clause {
        Bson::Document(filter) => filter_fault(filter),
        _ => Some(CommandError::Clause),
    }
}

/// Returns why a filter isn't carried out, by its first field that isn't.
#[cycle(faults)]
fn filter_fault(filter: &Document) -> Option<CommandError>
    ensures { result ≡ filter_fault (tree_of filter.now) }
{
    for (name, value) in filter {
        if let Some(fault) = value_fault(name, value) {
            return Some(fault);
        }
    }
    None
}

/// Checks that a filter can be applied.
///
/// # Errors
///
/// Returns the fault of the first field that isn't carried out.
pub fn applicable(filter: &Document) -> Result<(), CommandError>
    ensures ok { OnOk result
        (filter_in (tree_of filter.now) ≡ Ok (tree_of filter.now)) }
    ensures refused { IfErr result (λ e. filter_in (tree_of filter.now) ≡ Err e) }
{
    match filter_fault(filter) {
        Some(fault) => Err(fault),
        None => Ok(()),
    }
}

/// Reads a filter out of its bytes.
fn read_filter(alloc: Global, filter: RawDocument<'_>) -> Result<Document, Failure>
    ensures ok { (t : Tree) → Spells t (document_bytes filter.entry)
        → IfOk result (λ d. read_filter t ≡ Ok (tree_of d)) }
    ensures refused { (t : Tree) → Spells t (document_bytes filter.entry)
        → IfErr result (λ e. IsFailure (read_filter t) e) }
{
    let filter = match Document::from_raw(alloc, filter) {
        Ok(filter) => filter,
        Err(DocRefusal::OutOfMemory) => return Err(Failure::OutOfMemory),
        Err(_) => return Err(Failure::Refused(CommandError::Filter)),
    };
    applicable(&filter)?;
    Ok(filter)
}

/// Reads the filter out of a value.
fn filter_of(alloc: Global, value: Option<RawBson<'_>>) -> Result<Document, Failure>
    ensures ok { (found : Option TreeValue)
        → MatchOption value.entry (found ≡ None) (λ v. ShowsFound v found)
        → IfOk result (λ d. filter_of found ≡ Ok (tree_of d)) }
    ensures refused { (found : Option TreeValue)
        → MatchOption value.entry (found ≡ None) (λ v. ShowsFound v found)
        → IfErr result (λ e. IsFailure (filter_of found) e) }
{
    let Some(value) = value else {
        return Ok(Document::new(alloc));
    };
    match value {
        RawBson::Document(filter) => read_filter(alloc, filter),
        _ => Err(Failure::Refused(CommandError::Filter)),
    }
}

/// Reads the filter in the field `name` of a command. If there is no such field, it is the empty
/// one, which every document matches.
///
/// # Errors
///
/// Returns `Filter` if it isn't a document or a name is repeated in it, and otherwise the fault of
/// the first field that isn't carried out. Returns `OutOfMemory` if memory runs out.
pub fn filter_field(alloc: Global, body: RawDocument<'_>, name: &str) -> Result<Document, Failure>
    ensures ok { (t : Tree) → Spells t (document_bytes body.entry)
        → IfOk result (λ d. filter_field name.now t ≡ Ok (tree_of d)) }
    ensures refused { (t : Tree) → Spells t (document_bytes body.entry)
        → IfErr result (λ e. IsFailure (filter_field name.now t) e) }
{
    filter_of(alloc, body.get(name))
}

/// Returns true if the values of a field are as all operators ask, or one equals the value in the
/// filter.
fn has_value(own: OwnValues<'_>, value: &Bson) -> bool
    ensures { result ≡ has_value (own_values own.entry) (value_of value.now) }
{
    match value {
        Bson::Document(conditions) => {
            if has_operators(conditions) {
                meets_all(conditions, own)
            } else {
                finds(Operator::Eq, own, value)
            }
        }
        _ => finds(Operator::Eq, own, value),
    }
}

/// Returns true if the filter doesn't compare one of the values of a field.
fn is_uncompared(own: OwnValues<'_>) -> bool
    ensures { result ≡ is_uncompared (own_values own.entry) }
{
    own.any(Criterion::HasDecimal)
}

/// Returns true if the values of a field are as is asked.
fn has_field(purpose: Purpose, own: OwnValues<'_>, value: &Bson) -> bool
    ensures { result ≡ has_field purpose (own_values own.entry) (value_of value.now) }
{
    match purpose {
        Purpose::Match => has_value(own, value),
        Purpose::Compare => !is_uncompared(own),
    }
}

/// Returns true if a document has a field of the filter, as is asked.
#[cycle(asking)]
fn has_pair(purpose: Purpose, name: &str, value: &Bson, document: &Document) -> bool
    ensures { result
        ≡ has_pair name.now (value_of value.now) purpose (tree_of document.now) }
{
    match (logical_of(name), value) {
        (Some(logical), Bson::Array(clauses)) => {
            has_clauses(
                joining(purpose, logical),
                purpose,
                clauses.as_slice(),
                document,
            )
        }
        _ => {
            let path = name;
            has_field(purpose, OwnValues { document, path }, value)
        }
    }
}

/// Returns true if a document is as the clauses ask, joined so.
#[cycle(asking)]
fn has_clauses(logical: Logical, purpose: Purpose, clauses: &[Bson], document: &Document) -> bool
    ensures { result ≡ has_clauses (array_tree 0 (map value_of clauses.now)) logical purpose
        (tree_of document.now) }
{
    let otherwise = joined_none(logical);
    for clause in clauses {
        if has_clause(purpose, clause, document) != otherwise {
            return !otherwise;
        }
    }
    otherwise
}

/// Returns true if a document is as one clause asks.
#[cycle(asking)]
fn has_clause(purpose: Purpose, clause: &Bson, document: &Document) -> bool
    ensures { result ≡ has_clause (value_of clause.now) purpose (tree_of document.now) }
{
    match clause {
        Bson::Document(filter) => has_fields(purpose, filter, document),
        _ => false,
    }
}

/// Returns true if a document has each field of the filter, as is asked.
#[cycle(asking)]
fn has_fields(purpose: Purpose, filter: &Document, document: &Document) -> bool
    ensures { result ≡ has_fields (tree_of filter.now) purpose (tree_of document.now) }
{
    for (name, value) in filter {
        if !has_pair(purpose, name, value, document) {
            return false;
        }
    }
    true
}

/// Returns true if a value is a document that matches the filter.
pub fn is_match(filter: &Document, value: &Bson) -> bool
    ensures { result ≡ matches (tree_of filter.now) (value_of value.now) }
{
    match value {
        Bson::Document(document) => has_fields(Purpose::Match, filter, document),
        _ => false,
    }
}

/// Returns copies of the documents that match the filter, in order.
///
/// # Errors
///
/// Returns `AllocError` if memory runs out.
pub fn matching(
    alloc: Global,
    filter: &Document,
    documents: &[Bson],
) -> Result<Vec<Bson>, AllocError>
    ensures { IfOk result (λ vs.
        map value_of vs.items ≡ found (tree_of filter.now) (map value_of documents.now)) }
{
    let mut found = Vec::new(alloc);
    for document in documents {
        if is_match(filter, document) {
            found.push(document.try_clone()?)?;
        }
    }
    Ok(found)
}

/// Returns true if the filter compares all values of a document that it asks for.
fn compares(filter: &Document, value: &Bson) -> bool
    ensures { result ≡ compares (tree_of filter.now) (value_of value.now) }
{
    match value {
        Bson::Document(document) => has_fields(Purpose::Compare, filter, document),
        _ => true,
    }
}

/// Returns true if the filter compares all values of the documents that it asks for.
fn compares_all(filter: &Document, documents: &[Bson]) -> bool
    ensures { result ≡ compares_all (tree_of filter.now) (map value_of documents.now) }
{
    for document in documents {
        if !compares(filter, document) {
            return false;
        }
    }
    true
}

/// Checks that the filter compares all values of the documents that it asks for.
///
/// # Errors
///
/// Returns `Decimal` if a document has a value that the filter doesn't compare. A filter that isn't
/// carried out may be refused so too.
pub fn compared(filter: &Document, documents: &[Bson]) -> Result<(), CommandError>
    ensures ok { OnOk result (compared (tree_of filter.now) (map value_of documents.now)
        ≡ Ok (map value_of documents.now)) }
    ensures refused { IfErr result
        (λ e. compared (tree_of filter.now) (map value_of documents.now) ≡ Err e) }
{
    if compares_all(filter, documents) {
        Ok(())
    } else {
        Err(CommandError::Decimal)
    }
}

/// Returns copies of the documents that match the filter, in order, if it compares all of them.
///
/// # Errors
///
/// Returns `Decimal` if a document has a value that the filter doesn't compare, and `OutOfMemory`
/// if memory runs out.
pub fn found_in(alloc: Global, filter: &Document, documents: &[Bson]) -> Result<Vec<Bson>, Failure>
    ensures ok { IfOk result (λ vs. found_in (tree_of filter.now) (map value_of documents.now)
        ≡ Ok (map value_of vs.items)) }
    ensures refused { IfErr result
        (λ e. IsFailure (found_in (tree_of filter.now) (map value_of documents.now)) e) }
{
    compared(filter, documents)?;
    Ok(matching(alloc, filter, documents)?)
}
