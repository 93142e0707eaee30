//! The reader of the hexadecimal digits in which the rows of the tests are written.

ghost use Rattle.std.specs.Prelude.{◌≡◌, ◌⊎◌, IfErr, IfOk, Err, Ok};
ghost use Rattle.hex.specs.Hex.{decode_of};
ghost use Rattle.bson_raw_tests.specs.Digits.{without_spaces};

use hex::FromHexError;
use std::alloc::Global;

/// Removes the spaces from `text`.
fn pack(text: &mut Vec<u8>)
    ensures { text.new.items ≡ without_spaces text.old.items }
{
    text.retain(|b| *b != b' ');
}

/// Returns the bytes that hexadecimal `digits`, in either case, spell. Spaces are skipped.
///
/// # Errors
///
/// Returns the errors of `hex::decode`: an odd number of digits, a character that is no digit, and
/// out of memory.
pub fn read_digits(alloc: Global, digits: &str) -> Result<Vec<u8>, FromHexError>
    ensures read { IfOk result (λ bytes. decode_of (without_spaces digits.now) ≡ Ok bytes.items) }
    ensures refused { IfErr result (λ e. (e ≡ FromHexError.OutOfMemory)
        ⊎ (decode_of (without_spaces digits.now) ≡ Err e)) }
{
    let Ok(mut packed) = Vec::from_slice(alloc, digits.as_bytes()) else {
        return Err(FromHexError::OutOfMemory);
    };
    pack(&mut packed);
    hex::decode(alloc, packed.as_slice())
}
