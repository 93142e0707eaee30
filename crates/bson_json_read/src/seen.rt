//! The names of a text that were seen, each by its code, which is a hash.

ghost use Rattle.std.specs.Prelude.{◌≡◌, ◌<◌, ◌≤◌, ◌+◌, ◌-◌, IsTrue, vec_len};
ghost use Rattle.std.specs.Bool.{MatchBool};
ghost use Rattle.bson_json_read.specs.Seen as spec;
ghost use Rattle.bson_json_read.specs.Seen.{IsPacked, IsPutFrom, IsSeen};

use std::alloc::Global;
use std::hash::{FoldHasher, Hasher};
use std::marker::Model;

/// At how many places a code may stand, from its first one on.
const PLACES: usize = 64;

/// Spreads the offsets of documents.
const SPREAD: u64 = 0x9e37_79b9_7f4a_7c15;

/// The least size of a table, by the first places of codes.
const LEAST: usize = 512;

/// The codes that were seen, in a table. An empty place has 0. Contracts see the places.
///
/// No place is empty between the first one of a code and its own, so that one look is enough. Codes
/// of several texts stand there until it is half full, so that it is seldom emptied.
#[derive(Drop)]
pub(crate) struct Seen {
    places: Vec<u64>,
    /// How many codes stand there.
    count: usize,
    /// What the offsets of the text's documents are counted from.
    origin: usize,
}

impl Model for Seen {
    ghost use Rattle.std.specs.Prelude.{ℕ, List};
    ghost use Rattle.bson_json_read.specs.Seen.{IsPacked};

    ghost Value = { List ℕ };

    ghost view = { λ s. s.places.items };

    ghost invariant = { λ s. IsPacked s.places.items };
}

/// Returns the code of a name in the document that begins at this offset.
#[inline(always)]
pub(crate) fn code_of(offset: usize, name: &str) -> u64
    ensures code { result ≡ spec.code_of offset name.now }
    ensures some { 0 < result }
{
    let mut hasher = FoldHasher::default();
    hasher.write(name.as_bytes());
    let code = hasher.finish() ^ (offset as u64).wrapping_mul(SPREAD);
    if code == 0 { 1 } else { code }
}

/// Returns the first place of a code, of so many.
#[inline(always)]
fn first_place(size: usize, code: u64) -> usize
    requires { 0 < size }
    ensures place { result ≡ spec.first_place size code }
    ensures within { result < size }
{
    (code >> 32) as usize & (size - 1)
}

/// Makes a table one of so many empty places. Returns false if memory is refused.
fn empty(len: usize, places: &mut Vec<u64>) -> bool
    ensures { IsPacked places.new.items }
{
    places.clear();
    places.resize(len, 0).is_ok()
}

/// Puts a code into the first empty place of those from `first` on. Returns false if none of them is
/// empty, or the code stands there.
#[inline(always)]
fn put_from(first: usize, code: u64, places: &mut Vec<u64>) -> bool
    requires { first + 64 ≤ vec_len places.old }
    ensures { MatchBool result (IsPutFrom first code places.old.items places.new.items)
        (places.new.items ≡ places.old.items) }
{
    for at in first..first + PLACES {
        let seen = places[at];
        if seen == 0 {
            places[at] = code;
            return true;
        }
        if seen == code {
            return false;
        }
    }
    false
}

impl Seen {
    /// Returns a table with no room.
    pub(crate) fn new(alloc: Global) -> Seen {
        Seen {
            places: Vec::new(alloc),
            count: 0,
            origin: 0,
        }
    }

    /// Begins another text, of at most so many names. Returns false if memory is refused.
    pub(crate) fn begin_text(&mut self, names: usize) -> bool {
        self.origin = self.origin.wrapping_add(1 << 32);
        let size = self.places.len().saturating_sub(PLACES);
        if self.count.saturating_add(names) <= size / 2 {
            return true;
        }
        if names > 1 << 40 {
            return false;
        }
        self.count = 0;
        let size = (2 * names).max(LEAST).next_power_of_two();
        empty(size + PLACES, &mut self.places)
    }

    /// Returns the offset of the text's document that begins at `start`, apart from those of other
    /// texts.
    #[inline(always)]
    pub(crate) fn offset(&self, start: usize) -> usize {
        self.origin.wrapping_add(start)
    }

    /// Puts a code into the table. Returns false if that may have been seen, or has no place.
    #[tactic(auto, using(crate::proofs::Codes::is_packed, crate::proofs::Codes::is_seen))]
    #[inline(always)]
    pub(crate) fn put(&mut self, code: u64) -> bool
        requires { 0 < code }
        ensures { IsTrue result → IsSeen self.old self.new code }
    {
        let len = self.places.len();
        if len <= PLACES {
            return false;
        }
        let first = first_place(len - PLACES, code);
        self.count = self.count.wrapping_add(1);
        put_from(first, code, &mut self.places)
    }
}
