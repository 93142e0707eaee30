//! Iterates over the pairs of a document, and over the values of an array, in order.

ghost use Rattle.std.specs.Prelude.{◌≡◌, ◌+◌, ◌<◌, IsSome, length};
ghost use Rattle.std.specs.Iterator.{at_most};
ghost use Rattle.bson_elem.specs.{Spells, Tree, elements};
ghost use Rattle.bson_raw.specs.Spelled.{IsSpelled};
ghost use Rattle.bson_raw.specs.Left.{HasLeft};

use crate::array::RawArray;
use crate::document::RawDocument;
use crate::value::RawBson;
use bson_elem::reread_element;

/// Iterates over the pairs of a document. After the last one it returns `None` for ever.
#[derive(Debug, Drop)]
pub struct RawIter<'a> {
    bytes: &'a [u8],
    offset: usize,
    pub ghost left: { ∥ HasLeft bytes.now offset ∥₁ },
}

impl<'a> RawIter<'a> {
    ghost use Rattle.bson_raw.specs.RawIter.{PairsLeft, StepsTo, pairs_bound, walked_len};

    /// Returns an iterator over all pairs of the document that the bytes are known to spell.
    pub(crate) fn of_spelled(bytes: &'a [u8]) -> RawIter<'a>
        requires { ∥ IsSpelled bytes.now ∥₁ }
        ensures pairs { (t : Tree) → Spells t bytes.now → PairsLeft result t }
        ensures walked { walked_len result ≡ length bytes.now }
    {
        RawIter { bytes, offset: 4 }
    }

    /// Returns the number of bytes from the next pair to the end of the document. After the last
    /// pair only the document's last byte is left.
    pub fn bytes_left(&self) -> usize
        ensures pairs { (t : Tree) → PairsLeft self.now t → result ≡ length (elements t) + 1 }
        ensures bound { result ≡ pairs_bound self.now }
    {
        self.bytes.len() - self.offset
    }

    /// Returns what `next` returns, and leaves what it leaves. It is inlined, which is faster in a
    /// loop that goes over many pairs, and takes more of the caller's stack.
    #[inline(always)]
    pub fn next_inlined(&mut self) -> Option<(&'a str, RawBson<'a>)>
        ensures steps { StepsTo self.old result self.new }
        ensures goes { IsSome result → pairs_bound self.new < pairs_bound self.old }
    {
        let bytes = self.bytes;
        let end = bytes.len() - 1;
        if self.offset >= end {
            return None;
        }
        let element = reread_element(bytes, self.offset, end);
        self.offset = element.next;
        Some((element.name, RawBson::of_item(element.value)))
    }
}

impl<'a> Iterator for RawIter<'a> {
    ghost use Rattle.bson_raw.specs.RawIter.{pairs_bound, StepsTo};

    type Item = (&'a str, RawBson<'a>);

    ghost remaining = { λ s. at_most (pairs_bound s) };

    ghost next_gives = { StepsTo };

    // Not inlined, so that a caller that goes into inner documents needs little stack for each
    // level.
    #[inline(never)]
    fn next(&mut self) -> Option<(&'a str, RawBson<'a>)> {
        self.next_inlined()
    }
}

impl<'a> IntoIterator for RawDocument<'a> {
    ghost use Rattle.bson_raw.specs.RawIter.{BeginsAtFirstPair};

    type Item = (&'a str, RawBson<'a>);

    type IntoIter = RawIter<'a>;

    ghost into_iter_gives = { BeginsAtFirstPair };

    fn into_iter(self) -> RawIter<'a> {
        self.iter()
    }
}

/// Iterates over the values of an array. After the last one it returns `None` for ever.
#[derive(Debug, Drop)]
pub struct RawArrayIter<'a> {
    pairs: RawIter<'a>,
}

impl<'a> RawArrayIter<'a> {
    ghost use Rattle.bson_raw.specs.RawIter.{ValuesLeft, walked_array_len};

    /// Returns an iterator over all values of the array that the bytes are known to spell.
    pub(crate) fn of_spelled(bytes: &'a [u8]) -> RawArrayIter<'a>
        requires { ∥ IsSpelled bytes.now ∥₁ }
        ensures values { (t : Tree) → Spells t bytes.now → ValuesLeft result t }
        ensures walked { walked_array_len result ≡ length bytes.now }
    {
        RawArrayIter {
            pairs: RawIter::of_spelled(bytes),
        }
    }
}

impl<'a> Iterator for RawArrayIter<'a> {
    ghost use Rattle.bson_raw.specs.RawIter.{values_bound, ValueStepsTo};

    type Item = RawBson<'a>;

    ghost remaining = { λ s. at_most (values_bound s) };

    ghost next_gives = { ValueStepsTo };

    fn next(&mut self) -> Option<RawBson<'a>> {
        let (_, value) = self.pairs.next()?;
        Some(value)
    }
}

impl<'a> IntoIterator for RawArray<'a> {
    ghost use Rattle.bson_raw.specs.RawIter.{BeginsAtFirstValue};

    type Item = RawBson<'a>;

    type IntoIter = RawArrayIter<'a>;

    ghost into_iter_gives = { BeginsAtFirstValue };

    fn into_iter(self) -> RawArrayIter<'a> {
        self.iter()
    }
}
