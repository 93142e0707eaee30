//! Documents that own their bytes.

ghost use Rattle.std.specs.Prelude.{◌≡◌, IfOk};
ghost use Rattle.bson_elem.specs.{Spells, no_pairs};
ghost use Rattle.bson_raw.specs.{IsSpelled, document_bytes};

use crate::append::append_pair;
use crate::bson_values::Bson;
use crate::refusal::DocRefusal;
use bson_raw::RawDocument;
use std::alloc::{AllocError, Global};

/// A document that owns its bytes.
#[derive(Debug, Drop, PartialEq, Eq)]
pub struct RawDocumentBuf {
    bytes: Vec<u8>,
    pub ghost spelled: { ∥ IsSpelled bytes.items ∥₁ },
}

impl RawDocumentBuf {
    ghost use Rattle.std.specs.Prelude.{OnOk, OnErr, IfErr};
    ghost use Rattle.bson_elem.specs.{Tree};
    ghost use Rattle.bson_doc.specs.Bson.{value_of};
    ghost use Rattle.bson_doc.specs.Appended.{with_pair_appended};
    ghost use Rattle.bson_doc.specs.RawDocumentBuf.{buf_bytes};
    ghost use Rattle.bson_doc.specs.Unwritable.{IsUnwritable};

    /// Returns the empty document.
    ///
    /// # Errors
    ///
    /// Returns `AllocError` if memory is refused.
    pub fn new(alloc: Global) -> Result<RawDocumentBuf, AllocError>
        ensures { IfOk result (λ d. Spells no_pairs (buf_bytes d)) }
    {
        Ok(RawDocumentBuf::from_spelled(Vec::from_slice(alloc, &[5, 0, 0, 0, 0])?))
    }

    /// Returns the document that `bytes` spell.
    pub(crate) fn from_spelled(bytes: Vec<u8>) -> RawDocumentBuf
        requires { ∥ IsSpelled bytes.items ∥₁ }
        ensures { buf_bytes result ≡ bytes.items }
    {
        RawDocumentBuf { bytes }
    }

    /// Appends a pair, with canonical names in the arrays of `value`. The name may be there
    /// already. If the pair is refused, the document is unchanged.
    ///
    /// # Errors
    ///
    /// Returns `ZeroInName` for a 00 in `name`, or in a name, a pattern or options in `value`, and
    /// `Depth` for a container in it deeper than 200: the first of them in order. Else returns
    /// `TooLarge` if the document would have more than 2,147,483,647 bytes, and else `OutOfMemory`
    /// if memory is refused.
    pub fn append(&mut self, name: &str, value: &Bson) -> Result<(), DocRefusal>
        ensures added { (t : Tree) → Spells t (buf_bytes self.old)
            → OnOk result
            (Spells (with_pair_appended name.now (value_of value.now) t) (buf_bytes self.new)) }
        ensures unchanged { OnErr result (buf_bytes self.new ≡ buf_bytes self.old) }
        ensures refused { (t : Tree) → Spells t (buf_bytes self.old)
            → IfErr result
            (λ e. IsUnwritable (with_pair_appended name.now (value_of value.now) t) e) }
    {
        append_pair(name, value, &mut self.bytes)
    }

    /// Returns the document, borrowed.
    pub fn as_raw(&self) -> RawDocument<'_>
        ensures { document_bytes result ≡ buf_bytes self.now }
    {
        RawDocument::from_spelled(&self.bytes)
    }
}
