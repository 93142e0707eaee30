//! Reads the operands of actions.

ghost use Rattle.std.specs.Prelude.{◌≡◌, ◌↔◌, ℕ, Err, IfNone, IfOk, IfSome, IsTrue, List};
ghost use Rattle.bson_raw.specs.{TreeValue};
ghost use Rattle.test_script.specs.Lines.{IsCoded, IsError, IsOneNumber, IsReply};
ghost use Rattle.test_script.specs.Written.{AreTwoWords, IsNothing, IsOneWord};

use crate::token::cut_word;
use crate::written::{quoted, read_document};
use bson_doc::Document;
use command_parts::error_answer;
use script_lines::{LineError, number, number_i32};
use std::alloc::Global;

/// Returns true if nothing but spaces is left.
pub(crate) fn is_nothing(text: &[u8]) -> bool
    ensures { IsTrue result ↔ IsNothing text.now }
{
    cut_word(text).0.is_empty()
}

/// Returns the word that is left, if it is left alone.
pub(crate) fn one_word(text: &[u8]) -> Option<&[u8]>
    ensures found { IfSome result (λ word. IsOneWord text.now word.now) }
    ensures none { IfNone result ((word : List ℕ) → IsOneWord text.now word → ⊥) }
{
    let (word, rest) = cut_word(text);
    if is_nothing(rest) { Some(word) } else { None }
}

/// Returns the two words that are left, if there are two.
fn two_words(text: &[u8]) -> Option<(&[u8], &[u8])>
    ensures found { IfSome result (λ x. AreTwoWords text.now x.0.now x.1.now) }
    ensures none { IfNone result ((v w : List ℕ) → AreTwoWords text.now v w → ⊥) }
{
    let (first, rest) = cut_word(text);
    let second = one_word(rest)?;
    Some((first, second))
}

/// Returns the number that is left.
pub(crate) fn one_number(operands: &[u8]) -> Option<u64>
    ensures found { IfSome result (λ n. IsOneNumber operands.now n) }
    ensures none { IfNone result ((n : ℕ) → IsOneNumber operands.now n → ⊥) }
{
    number(one_word(operands)?)
}

/// Returns the document that is left.
pub(crate) fn reply(alloc: Global, operands: &[u8]) -> Result<Document, LineError>
    ensures is { IfOk result (λ d. IsReply operands.now d) }
    ensures none { result ≡ Err LineError.Malformed → (d : List (List ℕ × TreeValue))
        → IsReply operands.now d → ⊥ }
{
    match one_word(operands) {
        Some(word) => read_document(alloc, word),
        None => Err(LineError::Malformed),
    }
}

/// The number and the name of an error, as they are left.
fn code_and_name(operands: &[u8]) -> Option<(i32, &str)>
    ensures found { IfSome result (λ x. IsCoded operands.now x.0 x.1.now) }
    ensures none { IfNone result ((d : List (List ℕ × TreeValue)) → IsError operands.now d → ⊥) }
{
    let (first, second) = two_words(operands)?;
    let code = number_i32(first)?;
    let name = quoted(second)?;
    Some((code, name))
}

/// Returns the answer of an error whose number and name are left.
pub(crate) fn error(alloc: Global, operands: &[u8]) -> Result<Document, LineError>
    ensures is { IfOk result (λ d. IsError operands.now d) }
    ensures none { result ≡ Err LineError.Malformed → (d : List (List ℕ × TreeValue))
        → IsError operands.now d → ⊥ }
{
    let Some((code, name)) = code_and_name(operands) else {
        return Err(LineError::Malformed);
    };
    match error_answer(alloc, name, code, name) {
        Ok(answer) => Ok(answer),
        Err(_) => Err(LineError::OutOfMemory),
    }
}
