//! Passing over bytes of a JSON text: white space, and the part of a string that stands as it is.

ghost use Rattle.std.specs.Prelude.{◌≡◌, ◌+◌, ◌≤◌, ◌||◌, drop, get_or, length, map, true};
ghost use Rattle.std.specs.List.{prefix_len};
ghost use Rattle.std.specs.Simd.Lanes.{mask_l};
ghost use Rattle.json.specs.Lex.{between, lex};
ghost use Rattle.json.specs.Run.{is_plain, is_stop};
ghost use Rattle.json.specs.Word.{ends_word, head, is_operator, is_space};

use std::simd::prelude::*;

/// Returns the byte at an offset, or a space behind the end.
#[inline(always)]
pub(crate) fn byte_at(text: &[u8], offset: usize) -> u8
    ensures value { result ≡ get_or text.now offset 32 }
    ensures head { result ≡ head (drop offset text.now) }
{
    if offset < text.len() {
        text[offset]
    } else {
        b' '
    }
}

/// Returns true if a byte is white space.
#[inline(always)]
fn is_space(b: u8) -> bool
    ensures { result ≡ is_space b }
{
    (b == b' ') | (b == b'\t') | (b == b'\n') | (b == b'\r')
}

/// Returns the offset of the first byte from `from` on that is no white space, or the length.
#[inline(never)]
fn past_more_spaces(text: &[u8], from: usize) -> usize
    requires { from ≤ length text.now }
    ensures lex { lex between (drop from text.now) ≡ lex between (drop result text.now) }
    ensures inside { result ≤ length text.now }
{
    let mut at = from;
    while at < text.len() && is_space(text[at]) {
        at += 1;
    }
    at
}

/// Returns the offset of the first byte from `from` on that is no white space, or the length.
#[inline(always)]
pub(crate) fn past_spaces(text: &[u8], from: usize) -> usize
    requires { from ≤ length text.now }
    ensures lex { lex between (drop from text.now) ≡ lex between (drop result text.now) }
    ensures inside { result ≤ length text.now }
{
    if byte_at(text, from) > b' ' {
        from
    } else {
        past_more_spaces(text, from)
    }
}

/// Returns a bit for each of 16 bytes, which tells whether a string's plain part stops there.
#[inline(always)]
fn stops(v: u8x16) -> u64
    ensures { result ≡ mask_l (map is_stop v) }
{
    (v.simd_eq(u8x16::splat(b'"'))
        | v.simd_eq(u8x16::splat(b'\\'))
        | v.simd_lt(u8x16::splat(0x20))).to_bitmask()
}

/// Returns the offset of the first quote, backslash or control byte from `from` on, or the length.
#[inline(never)]
fn plain_end_slowly(text: &[u8], from: usize) -> usize
    requires { from ≤ length text.now }
    ensures { result ≡ from + prefix_len is_plain (drop from text.now) }
{
    let mut at = from;
    while at < text.len() && text[at] != b'"' && text[at] != b'\\' && text[at] >= 0x20 {
        at += 1;
    }
    at
}

/// Returns the offset of the first quote, backslash or control byte from `from` on, or the length.
#[inline(always)]
pub(crate) fn plain_end(text: &[u8], from: usize) -> usize
    requires { from ≤ length text.now }
    ensures value { result ≡ from + prefix_len is_plain (drop from text.now) }
    ensures inside { result ≤ length text.now }
{
    let mut at = from;
    while text.len() - at >= 16 {
        let found = stops(u8x16::from_slice(&text[at..]));
        if found != 0 {
            return at + found.trailing_zeros() as usize;
        }
        at += 16;
    }
    plain_end_slowly(text, at)
}

/// Returns true if a byte ends a word: white space, or one that stands between values.
#[inline(always)]
fn ends_word(b: u8) -> bool
    ensures { result ≡ (is_operator b || is_space b) }
{
    let operator = (b == b'{')
        | (b == b'}')
        | (b == b'[')
        | (b == b']')
        | (b == b':')
        | (b == b',');
    operator | is_space(b)
}

/// Returns the offset of the first byte from `from` on that ends a word, or the length.
pub(crate) fn word_end(text: &[u8], from: usize) -> usize
    requires { from ≤ length text.now }
    ensures ends { ends_word (drop result text.now) ≡ true }
    ensures inside { (from ≤ result) × (result ≤ length text.now) }
{
    let mut at = from;
    while at < text.len() && !ends_word(text[at]) {
        at += 1;
    }
    at
}
