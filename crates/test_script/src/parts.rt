//! Finds the parts of a line, and reads the filter and the number of times.

ghost use Rattle.std.specs.Prelude.{◌≡◌, ◌≢◌, [], ℕ, IfErr, IfNone, IfOk, IfSome, Option};
ghost use Rattle.std.specs.Prelude.{option_map};
ghost use Rattle.test_script.specs.Lines.{IsCommand, IsFilter, IsFilterFault, IsTimes};
ghost use Rattle.test_script.specs.Lines.{behind_filter, behind_times, filter_at, times_at};

use crate::fault::Cause;
use crate::keyword::is_no_filter;
use crate::token::cut_word;
use crate::written::{no_document, read_document};
use bson_doc::Document;
use doc_query::applicable;
use script_lines::{LineError, number};
use std::alloc::{AllocError, Global};

/// Cuts off the filter, if there is one. Returns it, and what stands behind it.
pub(crate) fn cut_filter(text: &[u8]) -> (Option<&[u8]>, &[u8])
    ensures filter { option_map (λ word. word.now) result.0 ≡ filter_at text.now }
    ensures behind { result.1.now ≡ behind_filter text.now }
{
    let (word, rest) = cut_word(text);
    if is_no_filter(word) {
        (None, text)
    } else {
        (Some(word), rest)
    }
}

/// Cuts off the number of times, if there is one. Returns it, and what stands behind it.
pub(crate) fn cut_times(text: &[u8]) -> (Option<&[u8]>, &[u8])
    ensures times { option_map (λ word. word.now) result.0 ≡ times_at text.now }
    ensures behind { result.1.now ≡ behind_times text.now }
{
    let (word, rest) = cut_word(text);
    if word == b"times".as_slice() {
        let (count, rest) = cut_word(rest);
        (Some(count), rest)
    } else {
        (None, text)
    }
}

/// Reads the filter. One that is left out is the empty one.
///
/// # Errors
///
/// Returns `Filter` if it is no document, or `Json` if it begins as Extended JSON; `Operator` if it
/// can't be applied; and `OutOfMemory` if memory runs out.
pub(crate) fn read_filter(alloc: Global, word: Option<&[u8]>) -> Result<Document, Cause>
    ensures is { IfOk result (λ f. IsFilter (option_map (λ word. word.now) word.entry) f) }
    ensures fault { IfErr result (λ e. IsFilterFault (option_map (λ word. word.now) word.entry) e) }
{
    let Some(word) = word else {
        return Ok(Document::new(alloc));
    };
    let filter = match read_document(alloc, word) {
        Ok(filter) => filter,
        Err(LineError::Malformed) => return Err(no_document(alloc, word, Cause::Filter)),
        Err(LineError::OutOfMemory) => return Err(Cause::OutOfMemory),
    };
    match applicable(&filter) {
        Ok(()) => Ok(filter),
        Err(_) => Err(Cause::Operator),
    }
}

/// Reads how often a rule may be used, or `None` if there is no number in its text.
pub(crate) fn read_times(word: Option<&[u8]>) -> Option<Option<u64>>
    ensures is { IfSome result (λ left. IsTimes (option_map (λ word. word.now) word.entry) left) }
    ensures none { IfNone result ((left : Option ℕ)
        → IsTimes (option_map (λ word. word.now) word.entry) left → ⊥) }
{
    match word {
        Some(word) => Some(Some(number(word)?)),
        None => Some(None),
    }
}

/// Returns the name of the command that the word is, or `None` for any.
pub(crate) fn read_command(alloc: Global, word: &[u8]) -> Result<Option<Vec<u8>>, AllocError>
    requires { word.now ≢ [] }
    ensures { IfOk result (λ name. IsCommand word.now (option_map (λ n. n.items) name)) }
{
    if word == b"*".as_slice() {
        return Ok(None);
    }
    Ok(Some(Vec::from_slice(alloc, word)?))
}
