//! Exports the checks of documents, and what counts and splits them.

ghost use Rattle.std.specs.Prelude.{◌↔◌, ◌∷◌, IsTrue, List};
ghost use Rattle.bson_elem.specs.{Tree, document, elements};
ghost use Rattle.bson_raw.specs.{AreDocuments, documents_bytes};
ghost use Rattle.byte_views.specs.Documents.{IsCanonical, IsDocumentCheck, IsDocumentsCheck};
ghost use Rattle.byte_views.specs.Splits.{IsSplit};
ghost use Rattle.byte_views.specs.Views.{IsView};
ghost use Rattle.byte_views.specs.Walk.{IsDocumentsWalk};

use byte_views::{DocumentsCheck, DocumentsWalk, FirstFault, View};

/// Checks that `bytes` are exactly one document, as `byte_views::check_document` does.
#[unsafe(no_mangle)]
pub extern "C" fn lughemra_check_document_nonnull(bytes: &[u8]) -> FirstFault
    ensures { IsDocumentCheck bytes.now result }
{
    byte_views::check_document(bytes)
}

/// Returns true if `bytes` are exactly one document, in canonical form, as
/// `byte_views::is_canonical` does.
#[unsafe(no_mangle)]
pub extern "C" fn lughemra_is_canonical_nonnull(bytes: &[u8]) -> bool
    ensures { IsTrue result ↔ IsCanonical bytes.now }
{
    byte_views::is_canonical(bytes)
}

/// Checks the documents that `bytes` hold one after another, as `byte_views::check_documents` does.
#[unsafe(no_mangle)]
pub extern "C" fn lughemra_check_documents_nonnull(bytes: &[u8]) -> DocumentsCheck
    ensures { IsDocumentsCheck bytes.now result }
{
    byte_views::check_documents(bytes)
}

/// Checks the documents that `bytes` hold one after another, and counts what is in them, as
/// `byte_views::walk_documents` does.
#[unsafe(no_mangle)]
pub extern "C" fn lughemra_walk_documents_nonnull(bytes: &[u8]) -> DocumentsWalk
    ensures { IsDocumentsWalk bytes.now result }
{
    byte_views::walk_documents(bytes)
}

/// Moves `left` behind the document at its front, and `first` to that one, as
/// `byte_views::next_document` does.
#[unsafe(no_mangle)]
pub extern "C" fn lughemra_next_document_nonnull(bytes: &[u8], left: &mut View, first: &mut View)
    ensures split { IsSplit bytes.now left.old first.new left.new }
    ensures documents { (t : Tree) (ts : List Tree) → AreDocuments (t ∷ ts)
        → IsView bytes.now left.old (documents_bytes (t ∷ ts))
        → IsView bytes.now first.new (document (elements t))
        × IsView bytes.now left.new (documents_bytes ts) }
{
    byte_views::next_document(bytes, left, first)
}
