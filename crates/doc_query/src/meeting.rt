//! Applies the operators of a filter to the values of a field.

ghost use Rattle.std.specs.Prelude.{◌≡◌, map};
ghost use Rattle.bson_doc.specs.{tree_of, value_of};
ghost use Rattle.doc_query.specs.Conditions.{finds, finds_one, is_there, is_true, meets, meets_all};
ghost use Rattle.doc_query.specs.Conditions.{meets_named, operator_of};
ghost use Rattle.doc_query.specs.Paths.{own_values};

use crate::conditions::{Operator, elements, operator_of, passes};
use crate::criteria::Criterion;
use crate::paths::OwnValues;
use bson_doc::{Bson, Document};

/// Returns true if one of the values of a field is ordered against the operand as the operator
/// asks.
pub fn finds(operator: Operator, own: OwnValues<'_>, operand: &Bson) -> bool
    ensures { result ≡ finds operator (own_values own.entry) (value_of operand.now) }
{
    own.any(Criterion::Passes(operator, operand))
}

/// Returns true if one of the values of a field equals one of the operands.
fn finds_one(own: OwnValues<'_>, operands: &[Bson]) -> bool
    ensures { result ≡ finds_one (own_values own.entry) (map value_of operands.now) }
{
    for operand in operands {
        if finds(Operator::Eq, own, operand) {
            return true;
        }
    }
    false
}

/// Returns true if a value is true: any but for false, null, undefined and the number 0.
fn is_true(value: &Bson) -> bool
    ensures { result ≡ is_true (value_of value.now) }
{
    match value {
        Bson::Boolean(truth) => *truth,
        Bson::Null | Bson::Undefined => false,
        _ => !passes(Operator::Eq, value, &Bson::Int32(0)),
    }
}

/// Returns true if a document has a value there.
fn is_there(own: OwnValues<'_>) -> bool
    ensures { result ≡ is_there (own_values own.entry) }
{
    own.any(Criterion::IsThere)
}

/// Returns true if the values of a field are as the operator asks.
fn meets(operator: Operator, own: OwnValues<'_>, operand: &Bson) -> bool
    ensures { result ≡ meets operator (own_values own.entry) (value_of operand.now) }
{
    match operator {
        Operator::Ne => !finds(Operator::Eq, own, operand),
        Operator::In => finds_one(own, elements(operand)),
        Operator::Nin => !finds_one(own, elements(operand)),
        Operator::Exists => is_there(own) == is_true(operand),
        _ => finds(operator, own, operand),
    }
}

/// Returns true if the values of a field are as the operator with this name asks.
fn meets_named(name: &str, own: OwnValues<'_>, operand: &Bson) -> bool
    ensures { result ≡ meets_named (operator_of name.now) (own_values own.entry)
        (value_of operand.now) }
{
    match operator_of(name) {
        Some(operator) => meets(operator, own, operand),
        None => false,
    }
}

/// Returns true if the values of a field are as all operators of a document ask.
pub fn meets_all(conditions: &Document, own: OwnValues<'_>) -> bool
    ensures { result ≡ meets_all (tree_of conditions.now) (own_values own.entry) }
{
    for (name, operand) in conditions {
        if !meets_named(name, own, operand) {
            return false;
        }
    }
    true
}
