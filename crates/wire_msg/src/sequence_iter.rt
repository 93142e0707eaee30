//! Walks over the document sequences of a payload, borrowed from its bytes.

ghost use Rattle.std.specs.Prelude.{◌≡◌, ◌≢◌, ◌+◌, ◌<◌, ◌≤◌, ◌++◌, ◌∷◌, List, ℕ, length};
ghost use Rattle.std.specs.Iterator.{at_most};
ghost use Rattle.wire_msg.specs.Messages.{AreSequences, IsSequence, Sequence, sequence_size};
ghost use Rattle.wire_msg.specs.Spelling.{sequence_section, sequences_bytes};
ghost use Rattle.wire_msg.specs.Checks.{HasDocuments, HasSequences};
ghost use Rattle.wire_msg.specs.Known.{ArePartsOf, AreRuns, BeginsSequence, IsLastOffset};

use crate::document_iter::Documents;
use bson_elem::{little_u32, read_cstring};

/// Reads the size of the sequence that `bytes` are known to begin with.
pub(crate) fn known_size(bytes: &[u8]) -> usize
    requires { ∥ BeginsSequence bytes.now ∥₁ }
    ensures within { (5 ≤ result) × (1 + result ≤ length bytes.now) }
    ensures size { (q : Sequence) (rest : List ℕ) → IsSequence q
        → bytes.now ≡ sequence_section q ++ rest → result ≡ sequence_size q }
{
    little_u32(&bytes[1..]) as usize
}

/// Splits sequences into the identifier of the first, its documents, and the others.
pub(crate) fn split_sequence(bytes: &[u8]) -> (&str, &[u8], &[u8])
    requires some { length bytes.now ≢ 0 }
    requires known { ∥ HasSequences bytes.now ∥₁ }
    ensures documents { ∥ HasDocuments result.1.now ∥₁ }
    ensures others { ∥ HasSequences result.2.now ∥₁ }
    ensures shorter { length result.2.now < length bytes.now }
    ensures parts { (q : Sequence) (qs : List Sequence) → AreSequences (q ∷ qs)
        → bytes.now ≡ sequences_bytes (q ∷ qs)
        → ArePartsOf result.0.now result.1.now result.2.now q qs }
{
    let size = known_size(bytes);
    let (identifier, documents) = read_cstring(&bytes[5..1 + size]).unwrap();
    (identifier, documents, &bytes[1 + size..])
}

/// Returns the offset of the last of some sequences, or 0 if there is none.
pub(crate) fn last_offset(bytes: &[u8]) -> usize
    requires { ∥ HasSequences bytes.now ∥₁ }
    ensures { IsLastOffset bytes.now result }
{
    let mut last = 0;
    let mut next = 0;
    while next < bytes.len() {
        last = next;
        next += 1 + known_size(&bytes[next..]);
    }
    last
}

/// Returns the two runs of sequences, or the second run and an empty one if the first is used up.
fn next_run<'a>(bytes: &'a [u8], then: &'a [u8]) -> (&'a [u8], &'a [u8])
    requires first { ∥ HasSequences bytes.now ∥₁ }
    requires last { ∥ HasSequences then.now ∥₁ }
    ensures first { ∥ HasSequences result.0.now ∥₁ }
    ensures last { ∥ HasSequences result.1.now ∥₁ }
    ensures runs { (qs : List Sequence) → AreRuns bytes.now then.now qs
        → AreRuns result.0.now result.1.now qs }
    ensures same { length result.0.now + length result.1.now ≡ length bytes.now + length then.now }
    ensures used { length result.0.now ≡ 0 → length result.1.now ≡ 0 }
{
    if bytes.is_empty() {
        (then, &[])
    } else {
        (bytes, then)
    }
}

/// Iterates over document sequences, each as its identifier and its documents. After the last one
/// it returns `None` for ever.
#[derive(Debug, Drop)]
pub struct SequencesIter<'a> {
    bytes: &'a [u8],
    then: &'a [u8],
    pub ghost known: { ∥ HasSequences bytes.now ∥₁ },
    pub ghost then_known: { ∥ HasSequences then.now ∥₁ },
}

impl<'a> SequencesIter<'a> {
    /// Makes an iterator over the sequences of `bytes` and then those of `then`. Both are known to
    /// be sequences.
    pub(crate) fn of_known(bytes: &'a [u8], then: &'a [u8]) -> SequencesIter<'a>
        requires first { ∥ HasSequences bytes.now ∥₁ }
        requires last { ∥ HasSequences then.now ∥₁ }
        ensures first { result.bytes.now ≡ bytes.now }
        ensures last { result.then.now ≡ then.now }
    {
        SequencesIter { bytes, then }
    }
}

impl<'a> Iterator for SequencesIter<'a> {
    ghost use Rattle.wire_msg.specs.Sequences.{sequences_bound, SequenceStepsTo};

    type Item = (&'a str, Documents<'a>);

    ghost remaining = { λ s. at_most (sequences_bound s) };

    ghost next_gives = { SequenceStepsTo };

    fn next(&mut self) -> Option<(&'a str, Documents<'a>)> {
        let (bytes, then) = next_run(self.bytes, self.then);
        if bytes.is_empty() {
            return None;
        }
        let (identifier, documents, rest) = split_sequence(bytes);
        self.bytes = rest;
        self.then = then;
        Some((identifier, Documents::of_known(documents)))
    }
}
