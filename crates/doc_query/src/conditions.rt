//! The operators of filters that are carried out: which operands each of them takes, and what it
//! asks of one value.

ghost use Rattle.std.specs.Prelude.{◌≡◌, map};
ghost use Rattle.bson_doc.specs.{tree_of, value_of};
ghost use Rattle.doc_query.specs.Conditions.{accepts, are_conditions, are_equated, elements};
ghost use Rattle.doc_query.specs.Conditions.{is_equated, is_list, is_named_operand, is_operand};
ghost use Rattle.doc_query.specs.Conditions.{is_number, is_ranked, operator_of, passes};

use crate::comparing::{has_place, place_of, place_order};
use crate::decimals::holds_decimal;
use crate::equality::is_equal;
use bson_doc::{Bson, Document};
use std::cmp::Ordering;

/// An operator of a filter, which is named as in the filter.
#[derive(Clone, Copy)]
pub enum Operator {
    Eq,
    Ne,
    Gt,
    Gte,
    Lt,
    Lte,
    In,
    Nin,
    Exists,
}

/// Returns the operator with this name.
pub fn operator_of(name: &str) -> Option<Operator>
    ensures { result ≡ operator_of name.now }
{
    match name {
        "$eq" => Some(Operator::Eq),
        "$ne" => Some(Operator::Ne),
        "$gt" => Some(Operator::Gt),
        "$gte" => Some(Operator::Gte),
        "$lt" => Some(Operator::Lt),
        "$lte" => Some(Operator::Lte),
        "$in" => Some(Operator::In),
        "$nin" => Some(Operator::Nin),
        "$exists" => Some(Operator::Exists),
        _ => None,
    }
}

/// Returns true if a value may be equal to others.
pub fn is_equated(value: &Bson) -> bool
    ensures { result ≡ is_equated (value_of value.now) }
{
    match value {
        Bson::Regex { .. } | Bson::Undefined => false,
        _ => !holds_decimal(value),
    }
}

/// Returns true if all these values may be equal to others.
fn are_equated(values: &[Bson]) -> bool
    ensures { result ≡ are_equated (map value_of values.now) }
{
    for value in values {
        if !is_equated(value) {
            return false;
        }
    }
    true
}

/// Returns true if a value may be less or greater than others of its bracket.
fn is_ranked(value: &Bson) -> bool
    ensures { result ≡ is_ranked (value_of value.now) }
{
    match value {
        Bson::MinKey | Bson::MaxKey | Bson::Undefined => false,
        _ => has_place(value),
    }
}

/// Returns true if a value is an array whose values may be equal to others.
#[tactic(auto, using(crate::proofs::Owning::values_of_array))]
fn is_list(value: &Bson) -> bool
    ensures { result ≡ is_list (value_of value.now) }
{
    match value {
        Bson::Array(values) => are_equated(values.as_slice()),
        _ => false,
    }
}

/// Returns true if an operator takes this operand.
fn is_operand(operator: Operator, operand: &Bson) -> bool
    ensures { result ≡ is_operand operator (value_of operand.now) }
{
    match operator {
        Operator::Eq | Operator::Ne => is_equated(operand),
        Operator::In | Operator::Nin => is_list(operand),
        Operator::Exists => !holds_decimal(operand),
        _ => is_ranked(operand),
    }
}

/// Returns true if an operator asks for this order of a value and the operand.
fn accepts(operator: Operator, order: Ordering) -> bool
    ensures { result ≡ accepts operator order }
{
    match operator {
        Operator::Gt => order.is_gt(),
        Operator::Gte => order.is_ge(),
        Operator::Lt => order.is_lt(),
        Operator::Lte => order.is_le(),
        _ => order.is_eq(),
    }
}

/// Returns true if a value is ordered against the operand as the operator asks.
pub fn passes(operator: Operator, own: &Bson, operand: &Bson) -> bool
    ensures { result ≡ passes operator (value_of own.now) (value_of operand.now) }
{
    match (place_of(own), place_of(operand)) {
        (Some(a), Some(b)) => a.bracket == b.bracket && accepts(operator, place_order(a, b)),
        (None, None) => is_equal(own, operand),
        _ => false,
    }
}

/// Returns true if a value is equal to this number, whatever kind of number it is.
pub fn is_number(value: &Bson, number: i32) -> bool
    ensures { result ≡ is_number number (value_of value.now) }
{
    let number = Bson::Int32(number);
    let is_equal = passes(Operator::Eq, value, &number);
    drop(number);
    is_equal
}

/// Returns the values of an array, or none if the value is no array.
#[tactic(auto, using(crate::proofs::Owning::values_of_array))]
pub fn elements(value: &Bson) -> &[Bson]
    ensures { map value_of result.now ≡ elements (value_of value.now) }
{
    match value {
        Bson::Array(values) => values.as_slice(),
        _ => &[],
    }
}

/// Returns true if there is an operator with this name, and it takes the operand.
fn is_named_operand(name: &str, operand: &Bson) -> bool
    ensures { result ≡ is_named_operand (operator_of name.now) (value_of operand.now) }
{
    match operator_of(name) {
        Some(operator) => is_operand(operator, operand),
        None => false,
    }
}

/// Returns true if all pairs of a document are operators with operands that they take.
pub fn are_conditions(conditions: &Document) -> bool
    ensures { result ≡ are_conditions (tree_of conditions.now) }
{
    for (name, operand) in conditions {
        if !is_named_operand(name, operand) {
            return false;
        }
    }
    true
}
