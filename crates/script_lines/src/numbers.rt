//! Reads numbers.

ghost use Rattle.std.specs.Prelude.{◌≡◌, ◌^◌, ℕ, IfSome, Some, pos};
ghost use Rattle.script_lines.specs.Words.{IsNumber};

/// The most digits that a number has.
const MAX_DIGITS: usize = 20;

/// Returns the number that the word spells, if it spells one that fits.
pub fn number(word: &[u8]) -> Option<u64>
    ensures found { IfSome result (λ n. IsNumber (2 ^ 64) word.now n) }
    ensures only { (n : ℕ) → IsNumber (2 ^ 64) word.now n → result ≡ Some n }
{
    if word.len() > MAX_DIGITS || word.starts_with(b"+") {
        return None;
    }
    let text = str::from_utf8(word).ok()?;
    text.parse().ok()
}

/// Returns the number that the word spells, if it spells one that fits.
pub fn number_u32(word: &[u8]) -> Option<u32>
    ensures found { IfSome result (λ n. IsNumber (2 ^ 32) word.now n) }
    ensures only { (n : ℕ) → IsNumber (2 ^ 32) word.now n → result ≡ Some n }
{
    u32::try_from(number(word)?).ok()
}

/// Returns the number that the word spells, if it spells one that fits.
pub fn number_i32(word: &[u8]) -> Option<i32>
    ensures found { IfSome result (λ i. (n : ℕ) × (i ≡ pos n) × IsNumber (2 ^ 31) word.now n) }
    ensures only { (n : ℕ) → IsNumber (2 ^ 31) word.now n → result ≡ Some (pos n) }
{
    i32::try_from(number(word)?).ok()
}
