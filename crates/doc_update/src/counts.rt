//! Adds up numbers of documents.

ghost use Rattle.std.specs.Prelude.{◌≡◌, ◌+◌, IfOk};

use std::alloc::AllocError;

/// Returns the sum of two numbers of documents.
///
/// # Errors
///
/// Returns `AllocError` if it doesn't fit. No memory has room for so many documents.
pub fn plus(a: usize, b: usize) -> Result<usize, AllocError>
    ensures { IfOk result (λ n. n ≡ a + b) }
{
    match a.checked_add(b) {
        Some(sum) => Ok(sum),
        None => Err(AllocError),
    }
}
