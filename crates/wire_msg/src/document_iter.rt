//! Walks over the documents of a document sequence, borrowed from its bytes.

ghost use Rattle.std.specs.Prelude.{◌≡◌, ◌≢◌, ◌<◌, List, ◌∷◌, length};
ghost use Rattle.std.specs.Iterator.{at_most};
ghost use Rattle.bson_elem.specs.{Spells, Tree};
ghost use Rattle.bson_raw.specs.{AreDocuments, IsSpelled, documents_bytes};
ghost use Rattle.wire_msg.specs.Checks.{HasDocuments};

use bson_elem::little_u32;
use bson_raw::RawDocument;

/// Splits documents, one after another, into the first of them and the others.
fn split_document(bytes: &[u8]) -> (&[u8], &[u8])
    requires some { length bytes.now ≢ 0 }
    requires known { ∥ HasDocuments bytes.now ∥₁ }
    ensures first { ∥ IsSpelled result.0.now ∥₁ }
    ensures others { ∥ HasDocuments result.1.now ∥₁ }
    ensures shorter { length result.1.now < length bytes.now }
    ensures parts { (t : Tree) (ts : List Tree) → AreDocuments (t ∷ ts)
        → bytes.now ≡ documents_bytes (t ∷ ts)
        → Spells t result.0.now × (result.1.now ≡ documents_bytes ts) }
{
    bytes.split_at(little_u32(bytes) as usize)
}

/// Documents one after another, each of them checked.
#[derive(Clone, Copy, Debug, PartialEq, Eq)]
pub struct Documents<'a> {
    bytes: &'a [u8],
    pub ghost known: { ∥ HasDocuments bytes.now ∥₁ },
}

impl<'a> Documents<'a> {
    ghost use Rattle.wire_msg.specs.Documents.{DocumentsAre, DocumentsLeft};

    /// Makes the documents of bytes that are known to be documents one after another.
    pub(crate) fn of_known(bytes: &'a [u8]) -> Documents<'a>
        requires { ∥ HasDocuments bytes.now ∥₁ }
        ensures { (ts : List Tree) → AreDocuments ts → bytes.now ≡ documents_bytes ts
            → DocumentsAre result ts }
    {
        Documents { bytes }
    }

    /// Counts the documents, by walking over them.
    pub fn count(self) -> usize
        ensures { (ts : List Tree) → DocumentsAre self.entry ts → result ≡ length ts }
    {
        let mut count = 0;
        let mut rest = self.bytes;
        while !rest.is_empty() {
            let (_, others) = split_document(rest);
            rest = others;
            count += 1;
        }
        count
    }

    /// Returns the documents, in order.
    pub fn iter(self) -> DocumentsIter<'a>
        ensures { (ts : List Tree) → DocumentsAre self.entry ts → DocumentsLeft result ts }
    {
        DocumentsIter { bytes: self.bytes }
    }
}

impl<'a> IntoIterator for Documents<'a> {
    ghost use Rattle.wire_msg.specs.Documents.{DocumentsAre, DocumentsLeft};

    type Item = RawDocument<'a>;

    type IntoIter = DocumentsIter<'a>;

    ghost into_iter_gives = { λ documents iter.
        (ts : List Tree) → DocumentsAre documents ts → DocumentsLeft iter ts };

    fn into_iter(self) -> DocumentsIter<'a> {
        self.iter()
    }
}

/// Iterates over documents. After the last one it returns `None` for ever.
#[derive(Debug, Drop)]
pub struct DocumentsIter<'a> {
    bytes: &'a [u8],
    pub ghost left: { ∥ HasDocuments bytes.now ∥₁ },
}

impl<'a> Iterator for DocumentsIter<'a> {
    ghost use Rattle.wire_msg.specs.Documents.{documents_bound, DocumentStepsTo};

    type Item = RawDocument<'a>;

    ghost remaining = { λ s. at_most (documents_bound s) };

    ghost next_gives = { DocumentStepsTo };

    fn next(&mut self) -> Option<RawDocument<'a>> {
        let bytes = self.bytes;
        if bytes.is_empty() {
            return None;
        }
        let (document, rest) = split_document(bytes);
        self.bytes = rest;
        Some(RawDocument::from_spelled(document))
    }
}
