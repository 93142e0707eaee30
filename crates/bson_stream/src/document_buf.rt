//! Holds a whole document in bytes of its own.

ghost use Rattle.std.specs.Prelude.{◌≡◌, IfOk};
ghost use Rattle.bson_raw.specs.{IsSpelled, document_bytes};

use bson_raw::RawDocument;
use std::alloc::{AllocError, Global};
use std::marker::Model;

/// A whole document that was copied out of a stream. Contracts see its bytes.
#[derive(Drop)]
pub struct DocumentBuf {
    bytes: Vec<u8>,
}

impl Model for DocumentBuf {
    ghost use Rattle.std.specs.Prelude.{List, ℕ};
    ghost use Rattle.bson_raw.specs.{IsSpelled};

    ghost Value = { List ℕ };

    ghost view = { λ s. s.bytes.items };

    ghost invariant = { λ s. ∥ IsSpelled s.bytes.items ∥₁ };
}

impl DocumentBuf {
    /// Copies `document`.
    ///
    /// # Errors
    ///
    /// Returns `AllocError` if memory runs out.
    pub fn copy_of(alloc: Global, document: RawDocument<'_>) -> Result<DocumentBuf, AllocError>
        ensures { IfOk result (λ copy. copy ≡ document_bytes document.entry) }
    {
        let mut bytes = Vec::new(alloc);
        bytes.extend_from_slice(document.as_bytes())?;
        Ok(DocumentBuf { bytes })
    }

    /// Borrows the document. Takes no memory, and checks nothing again.
    pub fn as_document(&self) -> RawDocument<'_>
        ensures { document_bytes result ≡ self.now }
    {
        RawDocument::from_spelled(&self.bytes)
    }
}
