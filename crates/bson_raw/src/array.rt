//! Borrows an array from the bytes of its document.

ghost use Rattle.std.specs.Prelude.{◌≡◌, length, MatchOption, None};
ghost use Rattle.bson_elem.specs.{Spells, Tree};
ghost use Rattle.bson_raw.specs.Spelled.{IsSpelled};

use crate::document::RawDocument;
use crate::iter::RawArrayIter;
use crate::value::RawBson;
use std::convert::AsSlice;

/// A borrowed array. Its bytes are those of a document with the same values, in which the names of
/// the pairs, usually "0", "1" and so on, are kept as they were.
#[derive(Clone, Copy, Debug, PartialEq, Eq)]
pub struct RawArray<'a> {
    bytes: &'a [u8],
    pub ghost spelled: { ∥ IsSpelled bytes.now ∥₁ },
}

impl<'a> RawArray<'a> {
    ghost use Rattle.bson_raw.specs.RawArray.{array_bytes};
    ghost use Rattle.bson_raw.specs.RawDocument.{document_bytes};
    ghost use Rattle.bson_raw.specs.Pairs.{nth_value};
    ghost use Rattle.bson_raw.specs.RawBson.{ShowsFound};
    ghost use Rattle.bson_raw.specs.RawIter.{ValuesLeft, walked_array_len};

    /// Returns the array that the bytes are known to spell, without a check.
    pub(crate) fn of_spelled(bytes: &'a [u8]) -> RawArray<'a>
        requires { ∥ IsSpelled bytes.now ∥₁ }
        ensures { array_bytes result ≡ bytes.now }
    {
        RawArray { bytes }
    }

    /// Returns the bytes of the array.
    pub fn as_bytes(self) -> &'a [u8]
        ensures { result.now ≡ array_bytes self.entry }
    {
        self.bytes
    }

    /// Returns the array as a document, with the names of its pairs as they were.
    pub fn as_document(self) -> RawDocument<'a>
        ensures { document_bytes result ≡ array_bytes self.entry }
    {
        RawDocument::from_spelled(self.bytes)
    }

    /// Returns an iterator over the values, in order.
    pub fn iter(self) -> RawArrayIter<'a>
        ensures values { (t : Tree) → Spells t (array_bytes self.entry) → ValuesLeft result t }
        ensures walked { walked_array_len result ≡ length (array_bytes self.entry) }
    {
        RawArrayIter::of_spelled(self.bytes)
    }

    /// Returns the value at `index`, counted from 0, or `None` if the array is shorter.
    pub fn get(self, index: usize) -> Option<RawBson<'a>>
        ensures { (t : Tree) → Spells t (array_bytes self.entry)
            → MatchOption result (nth_value index t ≡ None)
            (λ value. ShowsFound value (nth_value index t)) }
    {
        let mut before = index;
        for value in self.iter() {
            if before == 0 {
                return Some(value);
            }
            before -= 1;
        }
        None
    }
}

impl<'a> AsSlice<u8> for RawArray<'a> {
    ghost use Rattle.bson_raw.specs.RawArray.{array_bytes};

    ghost items = { array_bytes };

    fn as_slice(&self) -> &[u8] {
        self.as_bytes()
    }
}
