//! Laws of documents back to back, and of the numbers of doubles. The contract of each function is
//! the law.

ghost use Rattle.std.specs.Prelude.{◌≡◌, ℕ, List};
ghost use Rattle.bson_elem.specs.{IsBytes, Tree};
ghost use Rattle.bson_raw.specs.Doubles.{double_bytes, double_of};
ghost use Rattle.bson_raw.specs.Split.{DocumentSplit};

use crate::document::RawDocument;

/// Proves that bytes split into documents and a rest in at most one way. Does nothing.
pub fn one_document_split()
    ensures { (bytes : List ℕ) (documents others : List Tree) (rest after : List ℕ) → IsBytes bytes
        → DocumentSplit bytes documents rest → DocumentSplit bytes others after
        → (documents ≡ others) × (rest ≡ after) }
{}

/// Returns the bytes after the documents at the front of `bytes`. So any bytes split into documents
/// and a rest.
pub fn documents_split(bytes: &[u8]) -> &[u8]
    ensures { (documents : List Tree) × DocumentSplit bytes.now documents result.now }
{
    let mut rest = bytes;
    while !rest.is_empty() {
        match RawDocument::front(rest) {
            Ok((_, after)) => rest = after,
            Err(_) => return rest,
        }
    }
    rest
}

/// Proves that a number written as a double is read as that number. Does nothing.
pub fn double_keeps_its_number(number: f64)
    ensures { double_of (double_bytes number) ≡ number }
{}
