//! Makes the errors of single documents and statements of a write.

ghost use Rattle.std.specs.Prelude.{◌≡◌, ◌<◌, ◌^◌, [], IfOk, OnOk, string_bytes};
ghost use Rattle.doc_query.specs.{inner};
ghost use Rattle.doc_update.specs.WriteErrors.{write_error};

use bson_doc::{Bson, Document};
use doc_query::{count_value, set};
use std::alloc::{AllocError, Global};

/// Sets the fields of the error of the document or the statement of a write at `index`.
fn set_error(
    alloc: Global,
    index: usize,
    code: i32,
    words: String,
    error: &mut Document,
) -> Result<(), AllocError>
    requires index { index < 2 ^ 63 }
    requires none { error.old ≡ [] }
    ensures { OnOk result (inner error.new ≡ write_error index code (string_bytes words)) }
{
    set(alloc, error, "index", count_value(index))?;
    set(alloc, error, "code", Bson::Int32(code))?;
    set(alloc, error, "errmsg", Bson::String(words))
}

/// Makes the error of the document or the statement of a write at `index`.
///
/// # Errors
///
/// Returns `AllocError` if memory runs out.
pub fn write_error(
    alloc: Global,
    index: usize,
    code: i32,
    words: String,
) -> Result<Document, AllocError>
    requires { index < 2 ^ 63 }
    ensures { IfOk result (λ d. inner d ≡ write_error index code (string_bytes words)) }
{
    let mut error = Document::new(alloc);
    set_error(alloc, index, code, words, &mut error)?;
    Ok(error)
}
