//! Makes the parts of answers that many commands have, and the answers to errors.

ghost use Rattle.std.specs.Prelude.{◌≡◌, IfOk, OnOk, codes};
ghost use Rattle.bson_doc.specs.{put};
ghost use Rattle.doc_query.specs.{text};
ghost use Rattle.command_parts.specs.Answers.{double_one, error_pairs, ok_alone, refusal_pairs};

use bson_doc::{Bson, Document};
use doc_query::{CommandError, set};
use std::alloc::{AllocError, Global};

/// The number 1 as a double.
const ONE: [u8; 8] = [0, 0, 0, 0, 0, 0, 0xf0, 0x3f];

/// Sets a field in an answer to a text.
pub fn set_text(
    alloc: Global,
    answer: &mut Document,
    name: &str,
    words: &str,
) -> Result<(), AllocError>
    ensures { OnOk result (answer.new ≡ put name.now (text words.now) answer.old) }
{
    let words = String::from_str(alloc, words)?;
    set(alloc, answer, name, Bson::String(words))
}

/// Sets the field `ok` in an answer to 1.
pub fn set_ok(alloc: Global, answer: &mut Document) -> Result<(), AllocError>
    ensures { OnOk result (answer.new ≡ put (codes "ok") double_one answer.old) }
{
    set(alloc, answer, "ok", Bson::Double(ONE))
}

/// Makes the answer with `ok` alone, which says that a command was carried out.
pub fn ok_alone(alloc: Global) -> Result<Document, AllocError>
    ensures { IfOk result (λ d. d ≡ ok_alone) }
{
    let mut answer = Document::new(alloc);
    set_ok(alloc, &mut answer)?;
    Ok(answer)
}

/// Makes the answer for an error.
pub fn error_answer(
    alloc: Global,
    words: &str,
    code: i32,
    code_name: &str,
) -> Result<Document, AllocError>
    ensures { IfOk result (λ d. d ≡ error_pairs words.now code code_name.now) }
{
    let mut answer = Document::new(alloc);
    set(alloc, &mut answer, "ok", Bson::Double([0; 8]))?;
    set_text(alloc, &mut answer, "errmsg", words)?;
    set(alloc, &mut answer, "code", Bson::Int32(code))?;
    set_text(alloc, &mut answer, "codeName", code_name)?;
    Ok(answer)
}

/// Makes the answer to a refused command.
pub fn refusal_answer(alloc: Global, error: CommandError) -> Result<Document, AllocError>
    ensures { IfOk result (λ d. d ≡ refusal_pairs error) }
{
    error_answer(alloc, error.words(), error.code(), error.code_name())
}
