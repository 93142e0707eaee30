//! Tells if two values are equal: numbers of all kinds by value, also inside documents and arrays.

ghost use Rattle.std.specs.Prelude.{◌≡◌, map};
ghost use Rattle.bson_elem.specs.{no_code};
ghost use Rattle.bson_elem.specs.declared.kinds.Kind.TheVariants as kinds;
ghost use Rattle.bson_raw.specs.{document_value};
ghost use Rattle.bson_doc.specs.{array_tree, tree_of, value_of};
ghost use Rattle.doc_query.specs.Equality.{equal, equal_alone, equal_each};

use crate::comparing::{place_of, place_order};
use crate::owned::is_same;
use bson_doc::{Bson, Document};

/// Returns true if two values have one place, or neither has one and they are the same.
fn is_equal_alone(a: &Bson, b: &Bson) -> bool
    ensures { result ≡ equal_alone (value_of a.now) (value_of b.now) }
{
    match (place_of(a), place_of(b)) {
        (Some(a), Some(b)) => place_order(a, b).is_eq(),
        (None, None) => is_same(a, b),
        _ => false,
    }
}

/// Returns true if the values of two lists are equal, in the same order.
#[cycle(equality)]
fn are_equal(own: &[Bson], other: &[Bson]) -> bool
    ensures { result ≡ equal_each (map value_of own.now) (map value_of other.now) }
{
    if own.len() != other.len() {
        return false;
    }
    for (i, value) in own.iter().enumerate() {
        if !is_equal(value, &other[i]) {
            return false;
        }
    }
    true
}

/// Returns true if a value is a document with the same names and equal values, in the same order.
#[cycle(equality)]
fn is_equal_document(own: &Document, other: &Bson) -> bool
    ensures { result ≡ equal (document_value kinds.Document no_code (tree_of own.now))
        (value_of other.now) }
{
    match other {
        Bson::Document(other) => {
            own.keys() == other.keys() && are_equal(own.values(), other.values())
        }
        _ => false,
    }
}

/// Returns true if a value is an array of equal values, in the same order.
#[cycle(equality)]
#[tactic(auto, using(crate::proofs::EqualValues::equal_arrays))]
fn is_equal_array(own: &[Bson], other: &Bson) -> bool
    ensures { result ≡ equal (document_value kinds.Array no_code
        (array_tree 0 (map value_of own.now))) (value_of other.now) }
{
    match other {
        Bson::Array(other) => are_equal(own, other.as_slice()),
        _ => false,
    }
}

/// Returns true if two values are equal: numbers by value, documents and arrays by what is in them,
/// in order, and others by their place, or by kind and bytes where they have none.
#[cycle(equality)]
#[tactic(auto, using(crate::proofs::EqualValues::scope_alone))]
pub fn is_equal(a: &Bson, b: &Bson) -> bool
    ensures { result ≡ equal (value_of a.now) (value_of b.now) }
{
    match a {
        Bson::Document(own) => is_equal_document(own, b),
        Bson::Array(own) => is_equal_array(own.as_slice(), b),
        _ => is_equal_alone(a, b),
    }
}
