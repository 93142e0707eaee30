//! Finds the line and the column of a fault.

ghost use Rattle.std.specs.Prelude.{◌≡◌, ◌+◌, ◌<◌, ◌≤◌, ◌^◌, IfOk, length, map, take};
ghost use Rattle.std.specs.Simd.Lanes.{mask_l};
ghost use Rattle.bson_json_read.specs.Places.{StandsIn, begins, characters, place_behind};

use crate::fault::{Cause, JsonFault};
use crate::misfit::misfit;
use crate::text::JSON_DEPTH;
use json::{Reader, Scratch, Token};
use memchr::memchr;
use std::alloc::{AllocError, Global};
use std::simd::prelude::*;

/// A place in a text. Lines, and the characters of a line, are counted from 1.
#[derive(Clone, Copy, Debug, PartialEq, Eq)]
pub struct Place {
    pub line: usize,
    pub column: usize,
}

/// Returns a bit for each of 16 bytes, which tells whether a character begins there.
#[inline(always)]
fn begins(v: u8x16) -> u64
    ensures { result ≡ mask_l (map begins v) }
{
    (v.simd_lt(u8x16::splat(128)) | v.simd_ge(u8x16::splat(192))).to_bitmask()
}

/// Returns how many characters begin in these bytes, which are few.
fn characters_of_few(bytes: &[u8]) -> usize
    ensures count { result ≡ characters bytes.now }
    ensures few { result ≤ length bytes.now }
{
    let mut count = 0;
    for b in bytes {
        if *b < 128 || *b >= 192 {
            count += 1;
        }
    }
    count
}

/// Returns how many characters begin in these bytes.
fn characters(bytes: &[u8]) -> usize
    ensures count { result ≡ characters bytes.now }
    ensures few { result ≤ length bytes.now }
{
    let mut count = 0;
    let mut at = 0;
    while bytes.len() - at >= 16 {
        count += begins(u8x16::from_slice(&bytes[at..])).count_ones() as usize;
        at += 16;
    }
    count + characters_of_few(&bytes[at..])
}

impl Place {
    /// The place of the first byte.
    pub(crate) const FIRST: Place = Place { line: 1, column: 1 };

    /// Returns the place behind these bytes, which begin at this one.
    pub(crate) fn behind(self, bytes: &[u8]) -> Place
        requires lines { self.line + length bytes.now < 2 ^ 64 }
        requires columns { self.column + length bytes.now < 2 ^ 64 }
        ensures { (result.line, result.column) ≡ place_behind self.line self.column bytes.now }
    {
        let mut place = self;
        let mut rest = bytes;
        while let Some(len) = memchr(b'\n', rest) {
            place = Place {
                line: place.line + 1,
                column: 1,
            };
            rest = &rest[len + 1..];
        }
        place.column += characters(rest);
        place
    }
}

/// Returns the place behind the first `offset` bytes.
fn place_at(text: &[u8], offset: usize) -> Place
    requires { offset ≤ length text.now }
    ensures { (result.line, result.column) ≡ place_behind 1 1 (take offset text.now) }
{
    Place::FIRST.behind(&text[..offset])
}

/// Passes over this number of members, and then over a name, unless `at_name`.
fn pass_members(reader: &mut Reader<'_>, count: usize, at_name: bool) {
    for _ in 0..count {
        if reader.next_key().is_err() || reader.skip_value(JSON_DEPTH).is_err() {
            return;
        }
    }
    if !at_name {
        let _passed = reader.next_key();
    }
}

/// Passes over what stands before the value at this index of the object or the array that is next,
/// or, if `at_name`, before its name.
fn enter(reader: &mut Reader<'_>, index: usize, at_name: bool) {
    match reader.next() {
        Some(Token::BeginObject) => pass_members(reader, index, at_name),
        Some(Token::BeginArray) => {
            for _ in 0..index {
                if reader.skip_value(JSON_DEPTH).is_err() {
                    return;
                }
            }
        }
        _ => {}
    }
}

/// Passes over what stands before the value of this path.
fn follow(reader: &mut Reader<'_>, path: &[usize], at_name: bool) {
    let mut left = path.len();
    while left > 0 {
        left -= 1;
        enter(reader, path[left], at_name && left == 0);
    }
}

impl JsonFault {
    /// Returns the offset of the fault in `text`, by a reader that stands at its beginning.
    fn offset_by(
        &self,
        alloc: Global,
        text: &[u8],
        reader: &mut Reader<'_>,
    ) -> Result<usize, AllocError>
        ensures { IfOk result (λ n. n ≤ length text.now) }
    {
        match self.cause {
            Cause::NotJson => return misfit(alloc, text, reader),
            Cause::RepeatedName | Cause::ZeroInName => follow(reader, &self.path, true),
            _ => follow(reader, &self.path, false),
        }
        Ok(reader.offset().min(text.len()))
    }

    /// Returns the offset of the fault in `text`, as `place` does its line and column.
    pub(crate) fn offset(&self, alloc: Global, text: &str) -> Result<usize, AllocError>
        ensures { IfOk result (λ n. n ≤ length text.now) }
    {
        let mut scratch = Scratch::new(alloc);
        match Reader::new(text, &mut scratch) {
            Ok(mut reader) => self.offset_by(alloc, text.as_bytes(), &mut reader),
            Err(error) => Err(error),
        }
    }

    /// Returns where in `text` the fault is, which is one of reading this text: at the value at
    /// fault, or at its name if that is at fault. Where the text is no JSON, it is the place of the
    /// first token that doesn't fit, or behind the text where that ends too early.
    ///
    /// # Errors
    ///
    /// Returns `AllocError` if memory is refused.
    pub fn place(&self, alloc: Global, text: &str) -> Result<Place, AllocError>
        ensures { IfOk result (λ p. StandsIn text.now p.line p.column) }
    {
        match self.offset(alloc, text) {
            Ok(offset) => Ok(place_at(text.as_bytes(), offset)),
            Err(error) => Err(error),
        }
    }
}
