//! Reads bytes in hexadecimal digits.

ghost use Rattle.std.specs.Prelude.{◌≡◌, ℕ, Err, IfOk, List};
ghost use Rattle.script_lines.specs.Words.{IsHex};

use crate::errors::LineError;
use hex::FromHexError;
use std::alloc::Global;

/// Returns the bytes that the word spells.
///
/// # Errors
///
/// Returns `Malformed` if it spells none, and `OutOfMemory` if memory runs out.
pub fn bytes_of(alloc: Global, word: &[u8]) -> Result<Vec<u8>, LineError>
    ensures spelled { IfOk result (λ v. IsHex word.now v.items) }
    ensures nothing { result ≡ Err LineError.Malformed → (bytes : List ℕ) → IsHex word.now bytes
        → ⊥ }
{
    match hex::decode(alloc, word) {
        Ok(bytes) => Ok(bytes),
        Err(FromHexError::OutOfMemory) => Err(LineError::OutOfMemory),
        Err(_) => Err(LineError::Malformed),
    }
}
