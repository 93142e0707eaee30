//! Checks a document, and documents one after another.

ghost use Rattle.std.specs.Prelude.{IsTrue, ◌↔◌};
ghost use Rattle.byte_views.specs.Documents.{IsCanonical, IsDocumentCheck, IsDocumentsCheck};

use crate::fault::FirstFault;
use bson_raw::RawDocument;

/// Checks that `bytes` are exactly one document. Returns the first fault, by the number of its
/// cause.
pub fn check_document(bytes: &[u8]) -> FirstFault
    ensures { IsDocumentCheck bytes.now result }
{
    match RawDocument::from_bytes(bytes) {
        Ok(_) => FirstFault::none(),
        Err(found) => FirstFault::of_document(0, found),
    }
}

/// Returns true if `bytes` are exactly one document, in canonical form: the names of each array in
/// it are "0", "1" and so on.
pub fn is_canonical(bytes: &[u8]) -> bool
    ensures { IsTrue result ↔ IsCanonical bytes.now }
{
    match RawDocument::front_with_form(bytes) {
        Ok(front) => front.canonical && front.rest.is_empty(),
        Err(_) => false,
    }
}

/// The result of checking documents one after another.
#[derive(Clone, Copy)]
#[repr(C)]
pub struct DocumentsCheck {
    /// The number of whole documents before the end of the bytes or before the first fault.
    pub documents: usize,
    /// The number of bytes that these documents take.
    pub bytes_read: usize,
    /// The first fault, by the number of its cause.
    pub fault: FirstFault,
}

/// Checks the documents that `bytes` hold one after another.
pub fn check_documents(bytes: &[u8]) -> DocumentsCheck
    ensures { IsDocumentsCheck bytes.now result }
{
    let mut documents = 0;
    let mut rest = bytes;
    while !rest.is_empty() {
        match RawDocument::front(rest) {
            Ok((_, after)) => rest = after,
            Err(found) => {
                let bytes_read = bytes.len() - rest.len();
                return DocumentsCheck {
                    documents,
                    bytes_read,
                    fault: FirstFault::of_document(bytes_read, found),
                };
            }
        }
        documents += 1;
    }
    DocumentsCheck {
        documents,
        bytes_read: bytes.len(),
        fault: FirstFault::none(),
    }
}
