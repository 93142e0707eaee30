//! Reads JSON values, and those inside them.

ghost use Rattle.std.specs.Prelude.{◌≡◌, ◌∷◌, [], ◌++◌, IfErr, IfOk, IsTrue, MatchResult, Ok, OnOk};
ghost use Rattle.std.specs.Prelude.{map, option_map};
ghost use Rattle.json.specs.Json as json_spec;
ghost use Rattle.json.specs.Value.{items_view, members_view, value_view};
ghost use Rattle.bson_doc.specs.{value_of};
ghost use Rattle.bson_doc.specs.Document.{value_named};
ghost use Rattle.bson_json_read.specs.Forms.{form_in};
ghost use Rattle.bson_json_read.specs.Reads.{IsFault, and_map};
ghost use Rattle.bson_json_read.specs.Table.{string_value};
ghost use Rattle.bson_json_read.specs.Values as spec;
ghost use Rattle.bson_json_read.specs.Values.{IsRead, array_read, document_read, items_read};
ghost use Rattle.bson_json_read.specs.Values.{pairs_read, value_read};

use crate::fault::{Cause, JsonFault};
use crate::form::Form;
use crate::members::{as_items, as_members, both_values, form_among};
use crate::number::{read_finite, read_i32, read_i64};
use crate::owned::read_form;
use crate::zero::has_zero;
use bson_doc::{Array, Bson, Document};
use json::Value;
use std::alloc::Global;

/// Returns the value of a number: without point and exponent the smallest integer that holds it, and
/// else the nearest double.
fn number_of(text: &str) -> Result<Bson, Cause>
    ensures { spec.number_read text.now ≡ spec.plain result }
{
    if let Some(number) = read_i32(text) {
        return Ok(Bson::Int32(number));
    }
    if let Some(number) = read_i64(text) {
        return Ok(Bson::Int64(number));
    }
    match read_finite(text) {
        Some(number) => Ok(Bson::from(number)),
        None => Err(Cause::NumberTooLarge),
    }
}

/// Returns the value of a number.
fn read_number(alloc: Global, text: &str) -> Result<Bson, JsonFault>
    ensures { IsRead (spec.number_read text.now) result }
{
    match number_of(text) {
        Ok(number) => Ok(number),
        Err(cause) => Err(JsonFault::here(alloc, cause)),
    }
}

/// Returns why a name can't stand behind these pairs, if it can't.
fn name_refusal(document: &Document, name: &str) -> Option<Cause>
    ensures { result ≡ spec.name_refused name.now document.now }
{
    if has_zero(name.as_bytes()) {
        Some(Cause::ZeroInName)
    } else if document.contains_key(name) {
        Some(Cause::RepeatedName)
    } else {
        None
    }
}

/// Returns the code and the members of the scope, where an object has both and no others.
fn scoped_parts<'v, 'a>(
    members: &'v [(&'a str, Value<'a>)],
) -> Option<(&'a str, &'v [(&'a str, Value<'a>)])>
    ensures { option_map (λ p. (p.0.now, members_view p.1.now)) result
        ≡ spec.scoped (members_view members.now) }
{
    let Some((code, scope)) = both_values(members, "$code", "$scope") else {
        return None;
    };
    let Some(code) = code.as_str() else {
        return None;
    };
    match as_members(scope) {
        Some(scope) => Some((code, scope)),
        None => None,
    }
}

/// Returns the index of the scope of such an object.
fn scope_index<'a>(members: &[(&'a str, Value<'a>)]) -> usize
    ensures { result ≡ spec.scope_index (members_view members.now) }
{
    if members.len() > 0 && members[0].0 == "$scope" {
        0
    } else {
        1
    }
}

/// Appends a pair whose name is new. Returns false if memory is refused.
#[tactic(auto, using(crate::proofs::Walking::put_last))]
fn append(alloc: Global, document: &mut Document, name: &str, value: Bson) -> bool
    requires { value_named name.now document.old ≡ None }
    ensures { IsTrue result
        → document.new ≡ document.old ++ (name.now, value_of value) ∷ [] }
{
    let Ok(name) = String::from_str(alloc, name) else {
        drop(value);
        return false;
    };
    let inserted = document.insert(name, value);
    let done = inserted.is_ok();
    drop(inserted);
    done
}

/// Appends an item. Returns false if memory is refused.
fn push(values: &mut Vec<Bson>, value: Bson) -> bool
    ensures { IsTrue result → values.new.items ≡ values.old.items ++ value ∷ [] }
{
    let pushed = values.push(value);
    let done = pushed.is_ok();
    drop(pushed);
    done
}

/// Returns the value of an object that has the name of this form.
fn read_wrapped<'a>(
    alloc: Global,
    form: Form,
    members: &[(&'a str, Value<'a>)],
) -> Result<Bson, JsonFault>
    ensures { IsRead (spec.form_read form (members_view members.now)) result }
{
    match read_form(alloc, form, members) {
        Ok(Some(value)) => Ok(value),
        Ok(None) => Err(JsonFault::here(alloc, Cause::WrongForm(form))),
        Err(_) => Err(JsonFault::here(alloc, Cause::OutOfMemory)),
    }
}

/// Returns the value of a string.
fn read_string(alloc: Global, text: &str) -> Result<Bson, JsonFault>
    ensures { IsRead (Ok (string_value text.now)) result }
{
    match String::from_str(alloc, text) {
        Ok(text) => Ok(Bson::String(text)),
        Err(_) => Err(JsonFault::here(alloc, Cause::OutOfMemory)),
    }
}

/// Returns the code with this scope.
fn code_with_scope(alloc: Global, code: &str, scope: Document) -> Result<Bson, JsonFault>
    ensures { MatchResult result (λ b. value_of b ≡ spec.scope_of code.now scope)
        (λ e. e.cause ≡ Cause.OutOfMemory) }
{
    match String::from_str(alloc, code) {
        Ok(code) => Ok(Bson::CodeWithScope { code, scope }),
        Err(_) => {
            drop(scope);
            Err(JsonFault::here(alloc, Cause::OutOfMemory))
        }
    }
}

/// Appends the pair of a member, in whose value at most `room` documents and arrays may be nested.
#[cycle(read)]
fn read_pair<'a>(
    alloc: Global,
    document: &mut Document,
    name: &str,
    value: &Value<'a>,
    room: u32,
) -> Result<(), JsonFault>
    ensures ok { OnOk result ((ms : json_spec.Members)
        → pairs_read (value_read room) document.old
        (json_spec.member name.now (value_view value.now) ms)
        ≡ pairs_read (value_read room) document.new ms) }
    ensures err { IfErr result (λ e. (ms : json_spec.Members)
        → IsFault (pairs_read (value_read room) document.old
        (json_spec.member name.now (value_view value.now) ms)) e) }
{
    let index = document.len();
    if let Some(cause) = name_refusal(document, name) {
        return Err(JsonFault::here(alloc, cause).within(index));
    }
    match read_value(alloc, value, room) {
        Ok(value) => {
            if !append(alloc, document, name, value) {
                return Err(JsonFault::here(alloc, Cause::OutOfMemory));
            }
            Ok(())
        }
        Err(fault) => Err(fault.within(index)),
    }
}

/// Returns the pairs of a document. So many documents and arrays may be nested, with it.
#[cycle(read)]
#[tactic(auto, using(crate::proofs::Walking::document_at))]
pub(crate) fn read_document<'a>(
    alloc: Global,
    members: &[(&'a str, Value<'a>)],
    room: u32,
) -> Result<Document, JsonFault>
    ensures ok { IfOk result (λ d. document_read room (members_view members.now) ≡ Ok d) }
    ensures err { IfErr result
        (λ e. IsFault (document_read room (members_view members.now)) e) }
{
    if room == 0 {
        return Err(JsonFault::here(alloc, Cause::Depth));
    }
    let mut document = Document::new(alloc);
    for member in members {
        match read_pair(alloc, &mut document, member.0, &member.1, room - 1) {
            Ok(()) => {}
            Err(fault) => {
                drop(document);
                return Err(fault);
            }
        }
    }
    Ok(document)
}

/// Appends an item, in which at most `room` documents and arrays may be nested.
#[cycle(read)]
fn read_item<'a>(
    alloc: Global,
    values: &mut Vec<Bson>,
    value: &Value<'a>,
    room: u32,
) -> Result<(), JsonFault>
    ensures ok { OnOk result ((js : json_spec.Items)
        → items_read (value_read room) (map value_of values.old.items)
        (json_spec.item (value_view value.now) js)
        ≡ items_read (value_read room) (map value_of values.new.items) js) }
    ensures err { IfErr result (λ e. (js : json_spec.Items)
        → IsFault (items_read (value_read room) (map value_of values.old.items)
        (json_spec.item (value_view value.now) js)) e) }
{
    let index = values.len();
    match read_value(alloc, value, room) {
        Ok(value) => {
            if !push(values, value) {
                return Err(JsonFault::here(alloc, Cause::OutOfMemory));
            }
            Ok(())
        }
        Err(fault) => Err(fault.within(index)),
    }
}

/// Returns the array of items. So many documents and arrays may be nested, with it.
#[cycle(read)]
#[tactic(auto, using(crate::proofs::Walking::array_at))]
fn read_array<'a>(alloc: Global, items: &[Value<'a>], room: u32) -> Result<Array, JsonFault>
    ensures ok { IfOk result (λ a. array_read room (items_view items.now) ≡ Ok a) }
    ensures err { IfErr result (λ e. IsFault (array_read room (items_view items.now)) e) }
{
    if room == 0 {
        return Err(JsonFault::here(alloc, Cause::Depth));
    }
    let mut values = Vec::new(alloc);
    for item in items {
        match read_item(alloc, &mut values, item, room - 1) {
            Ok(()) => {}
            Err(fault) => {
                drop(values);
                return Err(fault);
            }
        }
    }
    Ok(Array::from_vec(values))
}

/// Returns the value of an array.
#[cycle(read)]
fn read_items<'a>(alloc: Global, items: &[Value<'a>], room: u32) -> Result<Bson, JsonFault>
    ensures { IsRead (and_map spec.array_of (array_read room (items_view items.now))) result }
{
    Ok(Bson::Array(read_array(alloc, items, room)?))
}

/// Returns the value of an object that has the name `$code`.
#[cycle(read)]
fn read_code<'a>(
    alloc: Global,
    members: &[(&'a str, Value<'a>)],
    room: u32,
) -> Result<Bson, JsonFault>
    ensures { IsRead (spec.code_read (document_read room) (members_view members.now)
        (spec.scoped (members_view members.now))) result }
{
    match scoped_parts(members) {
        Some((code, scope)) => match read_document(alloc, scope, room) {
            Ok(scope) => code_with_scope(alloc, code, scope),
            Err(fault) => Err(fault.within(scope_index(members))),
        },
        None => read_wrapped(alloc, Form::Code, members),
    }
}

/// Returns the value of an object.
#[cycle(read)]
fn read_object<'a>(
    alloc: Global,
    members: &[(&'a str, Value<'a>)],
    room: u32,
) -> Result<Bson, JsonFault>
    ensures { IsRead (spec.object_as (document_read room) (members_view members.now)
        (form_in (members_view members.now))) result }
{
    match form_among(members) {
        None => Ok(Bson::Document(read_document(alloc, members, room)?)),
        Some(Form::Code) => read_code(alloc, members, room),
        Some(form) => read_wrapped(alloc, form, members),
    }
}

/// Returns the value of a JSON value, in which at most `room` documents and arrays may be nested.
#[cycle(read)]
#[tactic(auto, using(crate::proofs::Walking::of_string, crate::proofs::Walking::of_number, crate::proofs::Walking::of_object, crate::proofs::Walking::of_array, crate::proofs::Walking::of_boolean, crate::proofs::Walking::of_null))]
fn read_value<'a>(alloc: Global, value: &Value<'a>, room: u32) -> Result<Bson, JsonFault>
    ensures { IsRead (value_read room (value_view value.now)) result }
{
    if let Some(text) = value.as_str() {
        return read_string(alloc, text);
    }
    if let Some(text) = value.as_number() {
        return read_number(alloc, text);
    }
    if let Some(members) = as_members(value) {
        return read_object(alloc, members, room);
    }
    if let Some(items) = as_items(value) {
        return read_items(alloc, items, room);
    }
    match value.as_bool() {
        Some(truth) => Ok(Bson::Boolean(truth)),
        None => Ok(Bson::Null),
    }
}
