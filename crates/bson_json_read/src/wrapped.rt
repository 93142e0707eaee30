//! The values that members of objects of each form stand for, where they take no memory.

ghost use Rattle.std.specs.Prelude.{◌≡◌, None, option_map};
ghost use Rattle.json.specs.Find.{as_number, as_object, as_str};
ghost use Rattle.json.specs.Json.{object};
ghost use Rattle.json.specs.Value.{members_view, value_view};
ghost use Rattle.bson_doc.specs.{value_of};
ghost use Rattle.bson_json_read.specs.Leaf.{leaf_of};
ghost use Rattle.bson_json_read.specs.Table as spec;
ghost use Rattle.bson_json_read.specs.Table.{leaf_text, member_value, sole_text};
ghost use Rattle.bson_json_read.specs.declared.form.Form.TheVariants as forms;

use crate::bytes::read_object_id;
use crate::decimal::decimal128_from_text;
use crate::element::Leaf;
use crate::form::Form;
use crate::iso::read_iso;
use crate::members::{as_members, both_values, sole_value};
use crate::number::{read_double, read_i32, read_i64, read_u32};
use bson_doc::Bson;
use bson_raw::double_to_bytes;
use json::Value;

/// Returns the value that a text stands for in an object of this form, where it takes no memory.
#[tactic(auto, using(crate::proofs::FormRows::no_leaf))]
pub(crate) fn text_leaf(form: Form, text: &str) -> Option<Leaf>
    ensures { option_map leaf_of result ≡ leaf_text form text.now }
{
    match form {
        Form::ObjectId => match read_object_id(text) {
            Some(bytes) => Some(Leaf::ObjectId(bytes)),
            None => None,
        },
        Form::Int32 => match read_i32(text) {
            Some(n) => Some(Leaf::Int32(n)),
            None => None,
        },
        Form::Int64 => match read_i64(text) {
            Some(n) => Some(Leaf::Int64(n)),
            None => None,
        },
        Form::Double => match read_double(text) {
            Some(number) => Some(Leaf::Double(double_to_bytes(number))),
            None => None,
        },
        Form::Decimal128 => match decimal128_from_text(text) {
            Some(bytes) => Some(Leaf::Decimal128(bytes)),
            None => None,
        },
        Form::DateTime => match read_iso(text) {
            Some(ms) => Some(Leaf::DateTime(ms)),
            None => None,
        },
        _ => None,
    }
}

/// Returns the text of this name, if no other member is there.
fn text_alone<'v, 'a>(members: &'v [(&'a str, Value<'a>)], name: &str) -> Option<&'a str>
    ensures { option_map (λ s. s.now) result ≡ sole_text name.now (members_view members.now) }
{
    match sole_value(members, name) {
        Some(value) => value.as_str(),
        None => None,
    }
}

/// Returns the bytes of an object that is an ObjectId.
pub(crate) fn id_in(value: &Value<'_>) -> Option<[u8; 12]>
    ensures { result ≡ spec.id_in (value_view value.now) }
{
    let Some(members) = as_members(value) else {
        return None;
    };
    match text_alone(members, "$oid") {
        Some(text) => read_object_id(text),
        None => None,
    }
}

/// Returns the date of `$numberLong`.
pub(crate) fn long_date<'a>(members: &[(&'a str, Value<'a>)]) -> Option<Bson>
    ensures { option_map value_of result
        ≡ member_value forms.DateTime (object (members_view members.now)) }
{
    let Some(text) = text_alone(members, "$numberLong") else {
        return None;
    };
    match read_i64(text) {
        Some(ms) => Some(Bson::DateTime(ms)),
        None => None,
    }
}

/// Returns the number of a JSON number below 2^32 without a point or an exponent.
fn number_in(value: &Value<'_>) -> Option<u32>
    ensures { result ≡ spec.number_in (value_view value.now) }
{
    match value.as_number() {
        Some(text) => read_u32(text),
        None => None,
    }
}

/// Returns the timestamp of these members.
pub(crate) fn timestamp<'a>(members: &[(&'a str, Value<'a>)]) -> Option<Bson>
    ensures { option_map value_of result ≡ spec.timestamp_of (members_view members.now) }
{
    let Some((t, i)) = both_values(members, "t", "i") else {
        return None;
    };
    let Some(seconds) = number_in(t) else {
        return None;
    };
    match number_in(i) {
        Some(increment) => Some(Bson::Timestamp { increment, seconds }),
        None => None,
    }
}

/// Returns true if the value is the number 1.
fn is_one(value: &Value<'_>) -> bool
    ensures { result ≡ spec.is_one (as_number (value_view value.now)) }
{
    match value.as_number() {
        Some(text) => text == "1",
        None => false,
    }
}

/// Returns the value that a number or a truth value stands for in an object of this form.
#[tactic(auto, using(crate::proofs::FormRows::of_word))]
pub(crate) fn word_value(form: Form, value: &Value<'_>) -> Option<Bson>
    requires no_text { as_str (value_view value.now) ≡ None }
    requires no_object { as_object (value_view value.now) ≡ None }
    ensures { option_map value_of result ≡ member_value form (value_view value.now) }
{
    match form {
        Form::MinKey => match is_one(value) {
            true => Some(Bson::MinKey),
            false => None,
        },
        Form::MaxKey => match is_one(value) {
            true => Some(Bson::MaxKey),
            false => None,
        },
        Form::Undefined => match value.as_bool() {
            Some(true) => Some(Bson::Undefined),
            _ => None,
        },
        _ => None,
    }
}
