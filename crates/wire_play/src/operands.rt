//! Parses the operands of a line.

ghost use Rattle.std.specs.Prelude.{◌≡◌, ◌↔◌, ◌∷◌, [], ℕ, Err, IfOk, IfSome, IsSomeAnd, IsTrue};
ghost use Rattle.std.specs.Prelude.{List, Some};
ghost use Rattle.wire_msg.specs.{BufCarries, Carries, Content};
ghost use Rattle.wire_msg.specs.declared.payloads.Payload.{Payload};
ghost use Rattle.wire_play.specs.Naming.{AreTwoNumbers, HasHex, IsCall, IsOneNumber, IsRaw};
ghost use Rattle.wire_play.specs.Naming.{IsSetup, handler_word};
ghost use Rattle.wire_play.specs.Reading.{setup_words, words_behind};

use crate::body::payload_of;
use crate::cut::next_word;
use crate::named::{HandlerName, Setup};
use script_lines::{LineError, bytes_of, number, number_i32, number_u32};
use std::alloc::Global;
use wire_model::WorldLimits;
use wire_msg::PayloadBuf;

/// Returns the word after a keyword, if there is exactly one.
fn one_word(rest: Option<&[u8]>) -> Option<&[u8]>
    ensures found { IfSome result (λ w. words_behind rest.entry ≡ w.now ∷ []) }
    ensures only { (w : List ℕ) → words_behind rest.entry ≡ w ∷ []
        → IsSomeAnd result (λ x. x.now ≡ w) }
{
    let (word, rest) = next_word(rest)?;
    if rest.is_some() {
        return None;
    }
    Some(word)
}

/// Returns the words after a keyword, if there are exactly two.
fn two_words(rest: Option<&[u8]>) -> Option<(&[u8], &[u8])>
    ensures found { IfSome result (λ x. words_behind rest.entry ≡ x.0.now ∷ x.1.now ∷ []) }
    ensures only { (v w : List ℕ) → words_behind rest.entry ≡ v ∷ w ∷ []
        → IsSomeAnd result (λ x. (x.0.now ≡ v) × (x.1.now ≡ w)) }
{
    let (first, rest) = next_word(rest)?;
    let second = one_word(rest)?;
    Some((first, second))
}

/// The five operands of `world`, as words.
#[derive(Clone, Copy)]
struct SetupWords<'a> {
    handler: &'a [u8],
    first: &'a [u8],
    window: &'a [u8],
    max: &'a [u8],
    limit: &'a [u8],
}

/// Returns the words after a keyword, if there are exactly five.
fn five_words(rest: Option<&[u8]>) -> Option<SetupWords<'_>>
    ensures found { IfSome result (λ x. words_behind rest.entry ≡ setup_words x) }
    ensures only { (a b c d e : List ℕ) → words_behind rest.entry ≡ a ∷ b ∷ c ∷ d ∷ e ∷ []
        → IsSomeAnd result (λ x. setup_words x ≡ a ∷ b ∷ c ∷ d ∷ e ∷ []) }
{
    let (handler, rest) = next_word(rest)?;
    let (first, rest) = next_word(rest)?;
    let (window, rest) = next_word(rest)?;
    let (max, limit) = two_words(rest)?;
    Some(SetupWords {
        handler,
        first,
        window,
        max,
        limit,
    })
}

/// Returns true if there are no words.
pub(crate) fn has_no_words(rest: Option<&[u8]>) -> bool
    ensures { IsTrue result ↔ (words_behind rest.entry ≡ []) }
{
    rest.is_none()
}

/// Parses the operand C: a number.
pub(crate) fn one_number(rest: Option<&[u8]>) -> Option<u64>
    ensures found { IfSome result (λ c. IsOneNumber (words_behind rest.entry) c) }
    ensures only { (c : ℕ) → IsOneNumber (words_behind rest.entry) c → result ≡ Some c }
{
    number(one_word(rest)?)
}

/// Parses the operands C and N: two numbers.
pub(crate) fn two_numbers(rest: Option<&[u8]>) -> Option<(u64, usize)>
    ensures found { IfSome result (λ x. AreTwoNumbers (words_behind rest.entry) x.0 x.1) }
    ensures only { (c n : ℕ) → AreTwoNumbers (words_behind rest.entry) c n → result ≡ Some (c, n) }
{
    let (connection, count) = two_words(rest)?;
    let connection = number(connection)?;
    let count = number(count)?;
    Some((connection, count as usize))
}

/// Parses the operands C and HEX: a number, and a word that isn't looked at.
fn number_and_hex(rest: Option<&[u8]>) -> Option<(u64, &[u8])>
    ensures found { IfSome result (λ x. HasHex (words_behind rest.entry) x.0 x.1.now) }
    ensures only { (c : ℕ) (hex : List ℕ) → HasHex (words_behind rest.entry) c hex
        → IsSomeAnd result (λ x. (x.0 ≡ c) × (x.1.now ≡ hex)) }
{
    let (connection, hex) = two_words(rest)?;
    let connection = number(connection)?;
    Some((connection, hex))
}

/// Parses the operands of a call: a connection, and a document, which becomes the body of a
/// payload.
pub(crate) fn call(alloc: Global, rest: Option<&[u8]>) -> Result<(u64, PayloadBuf), LineError>
    ensures found { IfOk result (λ x. (payload : Payload)
        → ((content : Content) → BufCarries x.1 content → Carries payload content)
        → IsCall (words_behind rest.entry) x.0 payload) }
    ensures nothing { result ≡ Err LineError.Malformed → (c : ℕ) (payload : Payload)
        → IsCall (words_behind rest.entry) c payload → ⊥ }
    ensures memory { result ≡ Err LineError.OutOfMemory → (c : ℕ) × (hex : List ℕ)
        × HasHex (words_behind rest.entry) c hex }
{
    let Some((connection, hex)) = number_and_hex(rest) else {
        return Err(LineError::Malformed);
    };
    let payload = payload_of(alloc, hex)?;
    Ok((connection, payload))
}

/// Parses the operands of raw bytes: a connection, and at least one byte.
pub(crate) fn raw(alloc: Global, rest: Option<&[u8]>) -> Result<(u64, Vec<u8>), LineError>
    ensures found { IfOk result (λ x. IsRaw (words_behind rest.entry) x.0 x.1.items) }
    ensures nothing { result ≡ Err LineError.Malformed → (c : ℕ) (bytes : List ℕ)
        → IsRaw (words_behind rest.entry) c bytes → ⊥ }
    ensures memory { result ≡ Err LineError.OutOfMemory → (c : ℕ) × (hex : List ℕ)
        × HasHex (words_behind rest.entry) c hex }
{
    let Some((connection, hex)) = number_and_hex(rest) else {
        return Err(LineError::Malformed);
    };
    let bytes = bytes_of(alloc, hex)?;
    if bytes.is_empty() {
        return Err(LineError::Malformed);
    }
    Ok((connection, bytes))
}

/// Returns the handler with this name, if there is one.
fn handler(word: &[u8]) -> Option<HandlerName>
    ensures known { IfSome result (λ h. word.now ≡ handler_word h) }
    ensures only { (h : HandlerName) → word.now ≡ handler_word h → result ≡ Some h }
{
    match word {
        b"echo" => Some(HandlerName::Echo),
        b"count" => Some(HandlerName::Count),
        _ => None,
    }
}

/// Parses the operands of `world`: handler, first id, window, connections, limit.
pub(crate) fn setup(rest: Option<&[u8]>) -> Option<Setup>
    ensures found { IfSome result (λ s. IsSetup (words_behind rest.entry) s) }
    ensures only { (s : Setup) → IsSetup (words_behind rest.entry) s → result ≡ Some s }
{
    let words = five_words(rest)?;
    let handler = handler(words.handler)?;
    let first_id = number_i32(words.first)?;
    let window = number(words.window)? as usize;
    let connections = number(words.max)? as usize;
    let limit = number_u32(words.limit)?;
    Some(Setup {
        handler,
        limits: WorldLimits {
            first_id,
            window,
            connections,
            limit,
        },
    })
}
