//! Finds the place of a value in the order of values, and compares places.

ghost use Rattle.std.specs.Prelude.{◌≡◌, MatchOption, None, Some, is_some, option_map};
ghost use Rattle.bson_doc.specs.{value_of};
ghost use Rattle.doc_query.specs.Comparing.{double_place, field_order, field_place, lettered};
ghost use Rattle.doc_query.specs.Comparing.{numbered, place, place_order, place_view};
ghost use Rattle.doc_query.specs.Numbers.{number_value};

use crate::numbers::{Number, double_number, is_nan, number_order, whole_number};
use bson_doc::Bson;
use std::cmp::Ordering;

/// The place of a value.
#[derive(Clone, Copy)]
pub struct Place<'a> {
    /// The bracket of its kind: values of different brackets are ordered by these.
    pub bracket: u8,
    /// The number by which the values of a bracket are ordered first.
    pub number: Number,
    /// The bytes by which they are ordered then.
    pub bytes: &'a [u8],
}

/// The number of the places that have none.
const NO_NUMBER: Number = Number {
    digits: 0,
    power: 0,
};

/// The place of null, and of a field that is missing.
const NULL_PLACE: Place<'static> = Place {
    bracket: 1,
    number: NO_NUMBER,
    bytes: &[],
};

/// Returns the number that is `digits` itself.
fn plain_number(digits: i64) -> Number
    ensures { number_value result ≡ digits }
{
    Number { digits, power: 0 }
}

/// Returns a place without bytes.
fn numbered<'a>(bracket: u8, number: Number) -> Place<'a>
    ensures { place_view result ≡ numbered bracket (number_value number) }
{
    Place {
        bracket,
        number,
        bytes: &[],
    }
}

/// Returns a place by bytes alone.
fn lettered(bracket: u8, bytes: &[u8]) -> Place<'_>
    ensures { place_view result ≡ lettered bracket bytes.now }
{
    Place {
        bracket,
        number: NO_NUMBER,
        bytes,
    }
}

/// Returns the place of the double with these bits.
fn double_place<'a>(bits: u64) -> Place<'a>
    ensures { place_view result ≡ double_place bits }
{
    if is_nan(bits) {
        numbered(2, NO_NUMBER)
    } else {
        numbered(3, double_number(bits))
    }
}

/// Returns the place of a value, if it is compared.
pub fn place_of(value: &Bson) -> Option<Place<'_>>
    ensures { MatchOption result (place (value_of value.now) ≡ None)
        (λ p. place (value_of value.now) ≡ Some (place_view p)) }
{
    let place = match value {
        Bson::MinKey => numbered(0, NO_NUMBER),
        Bson::Undefined | Bson::Null => numbered(1, NO_NUMBER),
        Bson::Double(bytes) => double_place(u64::from_le_bytes(*bytes)),
        Bson::Int32(n) => numbered(3, whole_number(i64::from(*n))),
        Bson::Int64(n) => numbered(3, whole_number(*n)),
        Bson::String(text) | Bson::Symbol(text) => lettered(4, text.as_bytes()),
        Bson::ObjectId(bytes) => lettered(5, bytes),
        Bson::Boolean(truth) => numbered(6, plain_number(i64::from(*truth))),
        Bson::DateTime(millis) => numbered(7, plain_number(*millis)),
        Bson::MaxKey => numbered(8, NO_NUMBER),
        _ => return None,
    };
    Some(place)
}

/// Returns true if a value is compared: if it has a place.
pub fn has_place(value: &Bson) -> bool
    ensures { result ≡ is_some (place (value_of value.now)) }
{
    place_of(value).is_some()
}

/// Compares two places.
pub fn place_order(a: Place<'_>, b: Place<'_>) -> Ordering
    ensures { result ≡ place_order (place_view a.entry) (place_view b.entry) }
{
    a.bracket
        .cmp(&b.bracket)
        .then(number_order(a.number, b.number))
        .then(a.bytes.cmp(b.bytes))
}

/// Returns the place of the value of a field.
fn field_place(own: Option<&Bson>) -> Place<'_>
    ensures { place_view result ≡ field_place (option_map (λ v. value_of v.now) own.entry) }
{
    let Some(own) = own else {
        return NULL_PLACE;
    };
    match place_of(own) {
        Some(place) => place,
        None => NULL_PLACE,
    }
}

/// Compares the values of a field in two documents by their places. A field that is missing, or has
/// a value without a place, is as null.
pub fn field_order(a: Option<&Bson>, b: Option<&Bson>) -> Ordering
    ensures { result ≡ field_order (option_map (λ v. value_of v.now) a.entry)
        (option_map (λ v. value_of v.now) b.entry) }
{
    place_order(field_place(a), field_place(b))
}
