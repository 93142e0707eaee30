//! The values that objects of each form stand for.

ghost use Rattle.std.specs.Prelude.{◌≡◌, IfOk, option_map};
ghost use Rattle.json.specs.Json.{object, string};
ghost use Rattle.json.specs.Value.{members_view, value_view};
ghost use Rattle.bson_doc.specs.{value_of};
ghost use Rattle.bson_json_read.specs.Leaf.{leaf_of};
ghost use Rattle.bson_json_read.specs.Table as spec;
ghost use Rattle.bson_json_read.specs.Table.{both_texts, form_value, member_value};
ghost use Rattle.bson_json_read.specs.declared.form.Form.TheVariants as forms;

use crate::bytes::{read_base64, read_subtype, read_uuid};
use crate::element::Leaf;
use crate::form::Form;
use crate::members::{as_members, both_values, sole_value};
use crate::options::read_options;
use crate::wrapped::{id_in, long_date, text_leaf, timestamp, word_value};
use crate::zero::has_zero;
use bson_doc::Bson;
use json::Value;
use std::alloc::{AllocError, Global};

/// Returns the value that a leaf is.
fn bson_of(leaf: Leaf) -> Bson
    ensures { value_of result ≡ leaf_of leaf }
{
    match leaf {
        Leaf::Null => Bson::Null,
        Leaf::Boolean(truth) => Bson::Boolean(truth),
        Leaf::Int32(n) => Bson::Int32(n),
        Leaf::Int64(n) => Bson::Int64(n),
        Leaf::DateTime(n) => Bson::DateTime(n),
        Leaf::Double(bytes) => Bson::Double(bytes),
        Leaf::ObjectId(bytes) => Bson::ObjectId(bytes),
        Leaf::Decimal128(bytes) => Bson::Decimal128(bytes),
    }
}

/// Returns the value of `$uuid`.
fn uuid(alloc: Global, text: &str) -> Result<Option<Bson>, AllocError>
    ensures { IfOk result (λ read. option_map value_of read
        ≡ member_value forms.Uuid (string text.now)) }
{
    let Some(id) = read_uuid(text) else {
        return Ok(None);
    };
    match Vec::from_slice(alloc, &id) {
        Ok(bytes) => Ok(Some(Bson::Binary { subtype: 4, bytes })),
        Err(error) => Err(error),
    }
}

/// Returns the value that a text stands for in an object of this form.
#[tactic(auto, using(crate::proofs::FormRows::of_text))]
fn text_value(alloc: Global, form: Form, text: &str) -> Result<Option<Bson>, AllocError>
    ensures { IfOk result (λ read. option_map value_of read
        ≡ member_value form (string text.now)) }
{
    match form {
        Form::Symbol => match String::from_str(alloc, text) {
            Ok(symbol) => Ok(Some(Bson::Symbol(symbol))),
            Err(error) => Err(error),
        },
        Form::Code => match String::from_str(alloc, text) {
            Ok(code) => Ok(Some(Bson::Code(code))),
            Err(error) => Err(error),
        },
        Form::Uuid => uuid(alloc, text),
        _ => match text_leaf(form, text) {
            Some(leaf) => Ok(Some(bson_of(leaf))),
            None => Ok(None),
        },
    }
}

/// Returns the texts of these two names, if they alone are there.
fn texts_alone<'a>(members: &[(&'a str, Value<'a>)], a: &str, b: &str) -> Option<(&'a str, &'a str)>
    ensures { option_map (λ p. (p.0.now, p.1.now)) result
        ≡ both_texts a.now b.now (members_view members.now) }
{
    let Some((first, second)) = both_values(members, a, b) else {
        return None;
    };
    let Some(first) = first.as_str() else {
        return None;
    };
    match second.as_str() {
        Some(second) => Some((first, second)),
        None => None,
    }
}

/// Returns the binary of these texts.
fn binary_of(alloc: Global, base64: &str, subtype: &str) -> Result<Option<Bson>, AllocError>
    ensures { IfOk result (λ read. option_map value_of read
        ≡ spec.binary_texts (base64.now, subtype.now)) }
{
    let Some(subtype) = read_subtype(subtype) else {
        return Ok(None);
    };
    match read_base64(alloc, base64)? {
        Some(bytes) => Ok(Some(Bson::Binary { subtype, bytes })),
        None => Ok(None),
    }
}

/// Returns the regular expression of these texts.
fn regex_of(alloc: Global, pattern: &str, options: &str) -> Result<Option<Bson>, AllocError>
    ensures { IfOk result (λ read. option_map value_of read
        ≡ spec.regex_texts (pattern.now, options.now)) }
{
    if has_zero(pattern.as_bytes()) || has_zero(options.as_bytes()) {
        return Ok(None);
    }
    let options = read_options(alloc, options)?;
    match String::from_str(alloc, pattern) {
        Ok(pattern) => Ok(Some(Bson::Regex { pattern, options })),
        Err(error) => Err(error),
    }
}

/// Returns the DBPointer of these members.
fn pointer_of<'a>(
    alloc: Global,
    members: &[(&'a str, Value<'a>)],
) -> Result<Option<Bson>, AllocError>
    ensures { IfOk result (λ read. option_map value_of read
        ≡ spec.pointer_of (members_view members.now)) }
{
    let Some((namespace, id)) = both_values(members, "$ref", "$id") else {
        return Ok(None);
    };
    let Some(namespace) = namespace.as_str() else {
        return Ok(None);
    };
    let Some(id) = id_in(id) else {
        return Ok(None);
    };
    match String::from_str(alloc, namespace) {
        Ok(namespace) => Ok(Some(Bson::DbPointer { namespace, id })),
        Err(error) => Err(error),
    }
}

/// Returns the value that an object stands for in an object of this form.
#[tactic(auto, using(crate::proofs::FormRows::of_object))]
fn object_value<'a>(
    alloc: Global,
    form: Form,
    members: &[(&'a str, Value<'a>)],
) -> Result<Option<Bson>, AllocError>
    ensures { IfOk result (λ read. option_map value_of read
        ≡ member_value form (object (members_view members.now))) }
{
    match form {
        Form::Binary => match texts_alone(members, "base64", "subType") {
            Some((base64, subtype)) => binary_of(alloc, base64, subtype),
            None => Ok(None),
        },
        Form::Regex => match texts_alone(members, "pattern", "options") {
            Some((pattern, options)) => regex_of(alloc, pattern, options),
            None => Ok(None),
        },
        Form::DbPointer => pointer_of(alloc, members),
        Form::Timestamp => Ok(timestamp(members)),
        Form::DateTime => Ok(long_date(members)),
        _ => Ok(None),
    }
}

/// Returns the value of an object of this form, or `None` if it isn't of it.
///
/// # Errors
///
/// Returns `AllocError` if memory is refused.
#[tactic(auto, using(crate::proofs::FormRows::as_text, crate::proofs::FormRows::as_members))]
pub(crate) fn read_form<'a>(
    alloc: Global,
    form: Form,
    members: &[(&'a str, Value<'a>)],
) -> Result<Option<Bson>, AllocError>
    ensures { IfOk result (λ read. option_map value_of read
        ≡ form_value form (members_view members.now)) }
{
    let Some(value) = sole_value(members, form.name()) else {
        return Ok(None);
    };
    if let Some(text) = value.as_str() {
        return text_value(alloc, form, text);
    }
    if let Some(members) = as_members(value) {
        return object_value(alloc, form, members);
    }
    Ok(word_value(form, value))
}
