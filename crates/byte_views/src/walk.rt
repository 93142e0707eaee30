//! Counts the elements of documents, and the bytes of their names, texts and data, at all depths.

ghost use Rattle.byte_views.specs.Walk.{IsDocumentsWalk};

use crate::fault::FirstFault;
use bson_raw::RawDocument;

/// The result of walking over documents one after another.
#[derive(Clone, Copy)]
#[repr(C)]
pub struct DocumentsWalk {
    /// The number of whole documents before the end of the bytes or before the first fault.
    pub documents: usize,
    /// The number of bytes that these documents take.
    pub bytes_read: usize,
    /// The number of elements in them, including those of the documents, arrays and scopes inside.
    pub elements: usize,
    /// The number of bytes of all names, texts and data in them.
    pub sizes: usize,
    /// The first fault, by the number of its cause.
    pub fault: FirstFault,
}

/// Checks the documents that `bytes` hold one after another, and counts their elements and the
/// bytes of their names, texts and data, at all depths.
pub fn walk_documents(bytes: &[u8]) -> DocumentsWalk
    ensures { IsDocumentsWalk bytes.now result }
{
    let mut documents = 0;
    let mut elements = 0;
    let mut sizes = 0;
    let mut rest = bytes;
    while !rest.is_empty() {
        let (document, after) = match RawDocument::front(rest) {
            Ok(read) => read,
            Err(found) => {
                let bytes_read = bytes.len() - rest.len();
                return DocumentsWalk {
                    documents,
                    bytes_read,
                    elements,
                    sizes,
                    fault: FirstFault::of_document(bytes_read, found),
                };
            }
        };
        let totals = document.totals();
        documents += 1;
        elements += totals.elements;
        sizes += totals.sizes;
        rest = after;
    }
    DocumentsWalk {
        documents,
        bytes_read: bytes.len(),
        elements,
        sizes,
        fault: FirstFault::none(),
    }
}
