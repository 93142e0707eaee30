//! The elements of BSON documents (bsonspec.org, version 1.1): a type byte, a name and a value.
//!
//! `read_element` reads one element, or returns the first check that fails. `skip_value` makes the
//! same checks of a value without returning it, and `reread_element` reads an element of bytes that
//! were checked before. None of them enters a document that a value holds.
//!
//! Uses the kit alone. Used by bson_raw; all crates above cite its definitions. Read first:
//! `specs/Spelling.antt` and `specs/Checks.antt`, and then `elements`.
#![tactic(auto)]

mod container;
mod elements;
mod extent;
mod fault;
mod items;
mod kinds;
pub mod laws;
mod leaf;
mod number;
mod reread;
mod text;

pub use container::{MAX_DEPTH, fault_at, read_document};
pub use elements::{Element, read_element};
pub use extent::skip_value;
pub use fault::{BsonCause, BsonFault};
pub use items::Item;
pub use kinds::Kind;
pub use number::{MAX_LEN, little_u32};
pub use reread::reread_element;
pub use text::{read_cstring, read_string};
