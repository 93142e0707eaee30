//! Exports the checks of documents, their texts, and what splits them.

ghost use Rattle.std.specs.Prelude.{◌↔◌, ◌∷◌, IsTrue, List};
ghost use Rattle.bson_elem.specs.{Tree, document, elements};
ghost use Rattle.bson_json.specs.{IsJson};
ghost use Rattle.bson_raw.specs.{AreDocuments, documents_bytes};
ghost use Rattle.byte_views.specs.Documents.{IsCanonical, IsDocumentsCheck};
ghost use Rattle.byte_views.specs.Forms.{IsFormPlace};
ghost use Rattle.byte_views.specs.Splits.{IsSplit};
ghost use Rattle.byte_views.specs.Texts.{IsDump, IsTextWritten, json_mode};
ghost use Rattle.byte_views.specs.Views.{IsView};

use byte_views::{DocumentsCheck, FormPlace, TextWritten, View};

/// Tells whether the document that `bytes` are is in canonical form, and where not, as
/// `byte_views::form_place` does.
#[unsafe(no_mangle)]
pub extern "C" fn page_form(bytes: &[u8]) -> FormPlace
    ensures place { IsFormPlace bytes.now result }
    ensures canonical { IsTrue result.canonical ↔ IsCanonical bytes.now }
{
    byte_views::form_place(bytes)
}

/// Checks the documents that `bytes` hold one after another, as `byte_views::check_documents` does.
#[unsafe(no_mangle)]
pub extern "C" fn page_check_documents(bytes: &[u8]) -> DocumentsCheck
    ensures { IsDocumentsCheck bytes.now result }
{
    byte_views::check_documents(bytes)
}

/// Moves `left` behind the document at its front, and `first` to that one, as
/// `byte_views::next_document` does.
#[unsafe(no_mangle)]
pub extern "C" fn page_next_document(bytes: &[u8], left: &mut View, first: &mut View)
    ensures split { IsSplit bytes.now left.old first.new left.new }
    ensures documents { (t : Tree) (ts : List Tree) → AreDocuments (t ∷ ts)
        → IsView bytes.now left.old (documents_bytes (t ∷ ts))
        → IsView bytes.now first.new (document (elements t))
        × IsView bytes.now left.new (documents_bytes ts) }
{
    byte_views::next_document(bytes, left, first)
}

/// Writes the text of the document that `bytes` are to the front of `room`, as
/// `byte_views::put_short_dump` does.
#[unsafe(no_mangle)]
pub extern "C" fn page_dump(bytes: &[u8], room: &mut [u8]) -> TextWritten
    ensures { IsTextWritten bytes.now IsDump room.old room.new result }
{
    byte_views::put_short_dump(bytes, room)
}

/// Writes the document that `bytes` are as Extended JSON to the front of `room`, as
/// `byte_views::put_short_json` does.
#[unsafe(no_mangle)]
pub extern "C" fn page_json(bytes: &[u8], relaxed: bool, room: &mut [u8]) -> TextWritten
    ensures { IsTextWritten bytes.now (IsJson (json_mode relaxed)) room.old room.new result }
{
    byte_views::put_short_json(bytes, relaxed, room)
}
