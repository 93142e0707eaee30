//! Reads documents and names that are written in a line.

ghost use Rattle.std.specs.Prelude.{◌≡◌, ℕ, Err, IfNone, IfOk, IfSome, List, Ok, false, true};
ghost use Rattle.bson_raw.specs.{TreeValue};
ghost use Rattle.bson_json_read.specs.{document_in};
ghost use Rattle.test_script.specs.Written.{IsDocument, IsDocumentAs, IsJsonCause};
ghost use Rattle.test_script.specs.Written.{IsNoDocumentFor, IsQuoted, IsSpelledBy};

use crate::fault::Cause;
use crate::token::begins_object;
use bson_doc::Document;
use bson_json_read::{Cause as JsonCause, from_json};
use bson_raw::RawDocument;
use doc_query::{Failure, owned_body};
use script_lines::{LineError, bytes_of};
use std::alloc::Global;

/// Returns the document that the text is as Extended JSON.
fn read_json(alloc: Global, text: &str) -> Result<Document, LineError>
    ensures is { IfOk result (λ d. document_in text.now ≡ Ok d) }
    ensures none { result ≡ Err LineError.Malformed → (d : List (List ℕ × TreeValue))
        → document_in text.now ≡ Ok d → ⊥ }
{
    match from_json(alloc, text) {
        Ok(document) => Ok(document),
        Err(fault) => match fault.cause {
            JsonCause::OutOfMemory => Err(LineError::OutOfMemory),
            _ => Err(LineError::Malformed),
        },
    }
}

/// Returns the document that the word is as Extended JSON.
fn json_document(alloc: Global, word: &[u8]) -> Result<Document, LineError>
    ensures is { IfOk result (λ d. IsDocumentAs true word.now d) }
    ensures none { result ≡ Err LineError.Malformed → (d : List (List ℕ × TreeValue))
        → IsDocumentAs true word.now d → ⊥ }
{
    match str::from_utf8(word) {
        Ok(text) => read_json(alloc, text),
        Err(_) => Err(LineError::Malformed),
    }
}

/// Returns the document that the bytes spell, if no name is repeated in it.
fn document_of(alloc: Global, bytes: &[u8]) -> Result<Document, LineError>
    ensures is { IfOk result (λ d. IsSpelledBy bytes.now d) }
    ensures none { result ≡ Err LineError.Malformed → (d : List (List ℕ × TreeValue))
        → IsSpelledBy bytes.now d → ⊥ }
{
    let Ok(raw) = RawDocument::from_bytes(bytes) else {
        return Err(LineError::Malformed);
    };
    match owned_body(alloc, raw) {
        Ok(document) => Ok(document),
        Err(Failure::OutOfMemory) => Err(LineError::OutOfMemory),
        Err(Failure::Refused(_)) => Err(LineError::Malformed),
    }
}

/// Returns the document that the word is as hexadecimal text.
fn hex_document(alloc: Global, word: &[u8]) -> Result<Document, LineError>
    ensures is { IfOk result (λ d. IsDocumentAs false word.now d) }
    ensures none { result ≡ Err LineError.Malformed → (d : List (List ℕ × TreeValue))
        → IsDocumentAs false word.now d → ⊥ }
{
    let bytes = bytes_of(alloc, word)?;
    document_of(alloc, &bytes)
}

/// Returns the document that the word is: as Extended JSON if it begins with a brace, and else as
/// hexadecimal text.
pub(crate) fn read_document(alloc: Global, word: &[u8]) -> Result<Document, LineError>
    ensures is { IfOk result (λ d. IsDocument word.now d) }
    ensures none { result ≡ Err LineError.Malformed → (d : List (List ℕ × TreeValue))
        → IsDocument word.now d → ⊥ }
{
    if begins_object(word) {
        json_document(alloc, word)
    } else {
        hex_document(alloc, word)
    }
}

/// Returns why the text isn't read as Extended JSON.
fn json_cause(alloc: Global, text: &str) -> Cause
    requires { (d : List (List ℕ × TreeValue)) → document_in text.now ≡ Ok d → ⊥ }
    ensures { IsJsonCause text.now result }
{
    let Err(fault) = from_json(alloc, text) else {
        unreachable!();
    };
    match fault.place(alloc, text) {
        Ok(place) if fault.cause != JsonCause::OutOfMemory => Cause::Json {
            cause: fault.cause,
            column: place.column,
        },
        _ => Cause::OutOfMemory,
    }
}

/// Returns why a word is no document: by its Extended JSON, which is read once more for that, if it
/// begins so, and else the cause that is named.
pub(crate) fn no_document(alloc: Global, word: &[u8], cause: Cause) -> Cause
    requires { (d : List (List ℕ × TreeValue)) → IsDocument word.now d → ⊥ }
    ensures { IsNoDocumentFor cause word.now result }
{
    if !begins_object(word) {
        return cause;
    }
    match str::from_utf8(word) {
        Ok(text) => json_cause(alloc, text),
        Err(_) => cause,
    }
}

/// Returns the text in quotes that the word is, if it is one.
pub(crate) fn quoted(word: &[u8]) -> Option<&str>
    ensures found { IfSome result (λ name. IsQuoted word.now name.now) }
    ensures none { IfNone result ((name : List ℕ) → IsQuoted word.now name → ⊥) }
{
    let (first, rest) = word.split_first()?;
    let (last, name) = rest.split_last()?;
    if *first != b'"' || *last != b'"' {
        return None;
    }
    str::from_utf8(name).ok()
}
