//! Updates of documents: what the statements of update and delete make of the documents of a
//! collection.
//!
//! An update puts a document in the place of another one, or sets, removes and increments values at
//! paths of it. No two documents get one `_id`, and none changes its own. A document that is inserted without
//! an `_id` is given one, which is a function of the documents beside it.
//!
//! Stands on bson_doc and doc_query. test_store stands on it. Read first: `operators`, `setting`,
//! `removing` and `changing`, then `identity`, and then `updates`.
#![tactic(auto)]

mod changing;
mod counts;
mod deletes;
mod elements;
mod identity;
mod increments;
pub mod laws;
mod operators;
mod paths;
mod removing;
mod setting;
mod updates;
mod upserts;
mod write_errors;

pub use deletes::{Deletes, after_deletes};
pub use identity::{id_fault, id_in, identified, is_taken};
pub use updates::{Updates, after_updates};
pub use write_errors::write_error;
