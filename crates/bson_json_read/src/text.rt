//! Reads a document from a text.

ghost use Rattle.std.specs.Prelude.{◌≡◌, ◌⊎◌, IfErr, IfOk, MatchResult, None, Ok, Some};
ghost use Rattle.json.specs.Value.{value_view};
ghost use Rattle.bson_json_read.specs.Reads.{IsFault};
ghost use Rattle.bson_json_read.specs.Texts.{document_as, document_in, json_in};

use crate::fault::{Cause, JsonFault};
use crate::members::as_members;
use crate::value::read_document;
use bson_doc::Document;
use json::{Error, Reader, Scratch, Value};
use std::alloc::Global;

/// The most arrays and objects one in another: 199 scopes, which are two objects each, in the
/// outermost document, and three more of a DBPointer.
pub(crate) const JSON_DEPTH: usize = 402;

/// Returns the one JSON value that the text is.
fn json_of<'a>(alloc: Global, text: &'a str, scratch: &'a mut Scratch) -> Result<Value<'a>, Cause>
    ensures { MatchResult result (λ v. json_in text.now ≡ Some (value_view v))
        (λ e. (e ≡ Cause.OutOfMemory) ⊎ ((e ≡ Cause.NotJson) × (json_in text.now ≡ None))) }
{
    let Ok(mut reader) = Reader::new(text, scratch) else {
        return Err(Cause::OutOfMemory);
    };
    match Value::read(alloc, &mut reader, JSON_DEPTH) {
        Ok(value) => {
            if reader.next().is_some() {
                drop(value);
                return Err(Cause::NotJson);
            }
            Ok(value)
        }
        Err(Error::Invalid) => Err(Cause::NotJson),
        Err(_) => Err(Cause::OutOfMemory),
    }
}

/// Returns the document of a JSON value.
fn document_of<'a>(alloc: Global, value: &Value<'a>) -> Result<Document, JsonFault>
    ensures ok { IfOk result (λ d. document_as (Some (value_view value.now)) ≡ Ok d) }
    ensures err { IfErr result (λ e. IsFault (document_as (Some (value_view value.now))) e) }
{
    match as_members(value) {
        Some(members) => read_document(alloc, members, 200),
        None => Err(JsonFault::here(alloc, Cause::NotAnObject)),
    }
}

/// Returns the document of a text like `from_json`, with this memory for reading.
pub(crate) fn from_json_in<'a>(
    alloc: Global,
    text: &'a str,
    scratch: &'a mut Scratch,
) -> Result<Document, JsonFault>
    ensures ok { IfOk result (λ d. document_in text.now ≡ Ok d) }
    ensures err { IfErr result (λ e. IsFault (document_in text.now) e) }
{
    match json_of(alloc, text, scratch) {
        Ok(value) => {
            let read = document_of(alloc, &value);
            drop(value);
            read
        }
        Err(cause) => Err(JsonFault::here(alloc, cause)),
    }
}

/// Returns the document that the text is in MongoDB Extended JSON v2, canonical or relaxed, with
/// the pairs in their order. An object that has one of the names of `Form` stands for the value of
/// that form, and every other object is a document. The outermost object is always a document. A
/// number is an int32 or an int64 where it has no point and no exponent and fits, and else the
/// nearest double.
///
/// # Errors
///
/// Returns the first fault in the order of the text. Where the text is no JSON, that comes before
/// all others. Returns `OutOfMemory` if memory is refused.
pub fn from_json(alloc: Global, text: &str) -> Result<Document, JsonFault>
    ensures ok { IfOk result (λ d. document_in text.now ≡ Ok d) }
    ensures err { IfErr result (λ e. IsFault (document_in text.now) e) }
{
    from_json_in(alloc, text, &mut Scratch::new(alloc))
}
