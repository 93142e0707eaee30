//! The words of an event.

use script_lines::{bytes_of, number};
use std::alloc::Global;
use wire_share::Use;

/// The words of an event that weren't read yet.
#[derive(Drop)]
pub struct Words<'a> {
    rest: &'a [u8],
}

impl<'a> Words<'a> {
    /// Begins with all words of a line, between which one space stands.
    pub fn new(line: &'a [u8]) -> Words<'a> {
        Words { rest: line }
    }

    /// Returns the next word: none of it is there behind the last one.
    pub fn word(&mut self) -> &'a [u8] {
        let end = self
            .rest
            .iter()
            .position(|byte: &u8| -> bool { *byte == b' ' })
            .unwrap_or(self.rest.len());
        let (word, rest) = self.rest.split_at(end);
        self.rest = rest.get(1..).unwrap_or(&[]);
        word
    }

    /// Returns the number that the next word is, or 0, which is the number of nothing.
    pub fn number(&mut self) -> u64 {
        number(self.word()).unwrap_or(0)
    }

    /// Returns the bytes that the next word spells in hexadecimal digits.
    pub fn bytes(&mut self, alloc: Global) -> Option<Vec<u8>> {
        bytes_of(alloc, self.word()).ok()
    }

    /// Returns the use that the next words name.
    pub fn used(&mut self) -> Option<Use> {
        match self.word() {
            b"shared" => Some(Use::Shared),
            b"once" => Some(Use::Once),
            b"kept" => Some(Use::Kept(self.number())),
            b"transaction" => Some(Use::Transaction(self.number())),
            _ => None,
        }
    }
}
