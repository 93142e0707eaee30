//! BSON documents that own what they hold, documents in their bytes that are owned, and the
//! canonical form of documents.
//!
//! A `Document` keeps its pairs in order, and no choice of names makes it slow to find one. A
//! contract sees it as the list of its pairs. The values in that list are those of the trees that
//! bytes of documents spell. `Document::from_raw` reads a document out of its bytes, and
//! `Document::to_raw` writes it to bytes of its own, a `RawDocumentBuf`.
//!
//! The values of an array stand in the bytes as pairs, whose names should be "0", "1" and so on. A
//! document is in canonical form where those of each array in it are. `is_canonical` tells whether
//! a borrowed document is, and `to_canonical` makes the canonical form of one, as a
//! `RawDocumentBuf`. What `Document::to_raw` writes is canonical.
//!
//! `dump_to` and `dump_elements` of the crate `bson_text`, which write the text of a borrowed
//! document, are given on.
//!
//! Stands on bson_raw and bson_text. bson_json_read, byte_views, byte_builder, doc_query,
//! doc_stages, doc_update, command_parts, test_store, test_script, file_commands, loopback, proxy
//! and replay stand on it. Read first: `documents`, `from_raw` and `to_raw`, and then `canon`.
#![tactic(auto)]

mod append;
mod arrays;
mod bson_values;
mod buf;
mod bytes;
mod canon;
mod canonical_room;
mod copying;
mod documents;
mod element;
mod from_raw;
mod iter;
pub mod laws;
mod leaf;
mod lent;
mod name;
mod name_list;
mod name_table;
mod refusal;
mod room;
mod to_raw;
mod unwritable;

pub use arrays::Array;
pub use bson_text::{dump_elements, dump_to};
pub use bson_values::Bson;
pub use buf::RawDocumentBuf;
pub use canon::{canonical_bytes, is_canonical, renumbered, to_canonical};
pub use documents::Document;
pub use iter::DocumentIter;
pub use refusal::DocRefusal;
