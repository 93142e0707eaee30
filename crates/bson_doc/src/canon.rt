//! The canonical form of a document, in which the names of each array are "0", "1" and so on.

ghost use Rattle.std.specs.Prelude.{◌≡◌, ◌≤◌, ◌↔◌, ◌⊎◌, false, length, IsTrue, IfErr, IfOk, IfSome};
ghost use Rattle.bson_elem.specs.{Spells, Tree};
ghost use Rattle.bson_raw.specs.{document_bytes, is_plain};
ghost use Rattle.bson_doc.specs.Plain.{plain, canonical_len};
ghost use Rattle.bson_doc.specs.Refusals.{IsLengthRefusal};
ghost use Rattle.bson_doc.specs.RawDocumentBuf.{buf_bytes};

use crate::buf::RawDocumentBuf;
use crate::canonical_room::room_after_document;
use crate::element::write_document;
use crate::refusal::DocRefusal;
use crate::room::refusal_of;
use bson_elem::MAX_LEN;
use bson_raw::RawDocument;
use std::alloc::Global;

/// Returns true if the document is in canonical form: the names in each array are "0", "1" and so
/// on. It takes no memory.
pub fn is_canonical(document: RawDocument<'_>) -> bool
    ensures named { (t : Tree) → Spells t (document_bytes document.entry)
        → result ≡ is_plain false 0 t }
    ensures same { (t : Tree) → Spells t (document_bytes document.entry)
        → (IsTrue result ↔ (plain t ≡ t)) }
{
    document.is_canonical()
}

/// Writes the canonical form, and returns its bytes, if they are no more than `limit`.
fn written_bytes(alloc: Global, document: RawDocument<'_>, limit: usize) -> Option<Vec<u8>>
    requires { limit ≤ MAX_LEN }
    ensures { (t : Tree) → Spells t (document_bytes document.entry)
        → IfSome result (λ bytes. Spells (plain t) bytes.items × (length bytes.items ≤ limit)) }
{
    let Ok(mut out) = Vec::with_capacity(alloc, document.as_bytes().len()) else {
        return None;
    };
    write_document(document, false, limit, &mut out)?;
    Some(out)
}

/// Like `canonical_bytes`, but writes every document anew.
fn renumbered_bytes(
    alloc: Global,
    document: RawDocument<'_>,
    limit: usize,
) -> Result<Vec<u8>, DocRefusal>
    requires { limit ≤ MAX_LEN }
    ensures written { (t : Tree) → Spells t (document_bytes document.entry)
        → IfOk result (λ bytes. Spells (plain t) bytes.items × (length bytes.items ≤ limit)) }
    ensures refused { (t : Tree) → Spells t (document_bytes document.entry)
        → IfErr result (λ e. IsLengthRefusal limit (canonical_len t) e) }
{
    match written_bytes(alloc, document, limit) {
        Some(bytes) => Ok(bytes),
        None => Err(refusal_of(room_after_document(document, false, limit))),
    }
}

/// Returns the bytes of the canonical form, if they are no more than `limit`.
///
/// # Errors
///
/// Returns `TooLarge` if the canonical form has more than `limit` bytes, else `OutOfMemory` if
/// memory is refused.
pub fn canonical_bytes(
    alloc: Global,
    document: RawDocument<'_>,
    limit: usize,
) -> Result<Vec<u8>, DocRefusal>
    requires { limit ≤ MAX_LEN }
    ensures written { (t : Tree) → Spells t (document_bytes document.entry)
        → IfOk result (λ bytes. Spells (plain t) bytes.items × (length bytes.items ≤ limit)) }
    ensures refused { (t : Tree) → Spells t (document_bytes document.entry)
        → IfErr result (λ e. IsLengthRefusal limit (canonical_len t) e) }
{
    if !is_canonical(document) {
        return renumbered_bytes(alloc, document, limit);
    }
    let whole = document.as_bytes();
    if whole.len() > limit {
        return Err(DocRefusal::TooLarge);
    }
    Ok(Vec::from_slice(alloc, whole)?)
}

/// Returns the canonical form of the document: the names in each array become "0", "1" and so on,
/// and nothing else changes. A document that is canonical already is copied.
///
/// # Errors
///
/// Returns `TooLarge` if the canonical form has more than 2,147,483,647 bytes, else `OutOfMemory`
/// if memory is refused.
pub fn to_canonical(alloc: Global, document: RawDocument<'_>) -> Result<RawDocumentBuf, DocRefusal>
    ensures canonical { (t : Tree) → Spells t (document_bytes document.entry)
        → IfOk result (λ d. Spells (plain t) (buf_bytes d)) }
    ensures only { IfErr result (λ e. (e ≡ DocRefusal.OutOfMemory) ⊎ (e ≡ DocRefusal.TooLarge)) }
    ensures refused { (t : Tree) → Spells t (document_bytes document.entry)
        → IfErr result (λ e. IsLengthRefusal MAX_LEN (canonical_len t) e) }
{
    let bytes = canonical_bytes(alloc, document, MAX_LEN)?;
    Ok(RawDocumentBuf::from_spelled(bytes))
}

/// Like `to_canonical`, but writes every document anew: it doesn't test whether the document is
/// canonical already.
///
/// # Errors
///
/// Returns the errors of `to_canonical`.
pub fn renumbered(alloc: Global, document: RawDocument<'_>) -> Result<RawDocumentBuf, DocRefusal>
    ensures canonical { (t : Tree) → Spells t (document_bytes document.entry)
        → IfOk result (λ d. Spells (plain t) (buf_bytes d)) }
    ensures only { IfErr result (λ e. (e ≡ DocRefusal.OutOfMemory) ⊎ (e ≡ DocRefusal.TooLarge)) }
    ensures refused { (t : Tree) → Spells t (document_bytes document.entry)
        → IfErr result (λ e. IsLengthRefusal MAX_LEN (canonical_len t) e) }
{
    let bytes = renumbered_bytes(alloc, document, MAX_LEN)?;
    Ok(RawDocumentBuf::from_spelled(bytes))
}
