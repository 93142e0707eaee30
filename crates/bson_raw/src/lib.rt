//! Checks BSON documents whole once, and then walks them without errors and without a copy.
//!
//! A `RawDocument` borrows bytes that spell a document. `from_bytes` and `front` make one: they
//! run every check, and return the first fault and its offset if there is one. From then on the
//! type carries the fact that its bytes are a document, so `get` and `iter` can't fail. Its values
//! are `RawBson`s, whose texts, bytes and inner documents borrow the same bytes. Nothing here
//! takes memory.
//!
//! `totals` counts what a document holds at all depths. `laws` proves that bytes split into
//! documents and a rest in exactly one way.
//!
//! Uses bson_elem and framing. Used by bson_text, bson_doc and wire_msg. Read first: `document`, and then
//! `check`.
#![tactic(auto)]

mod array;
mod check;
mod document;
mod double;
mod iter;
pub mod laws;
mod name;
mod totals;
mod value;

pub use array::RawArray;
pub use document::{Front, RawDocument};
pub use double::{double_from_bytes, double_to_bytes};
pub use iter::{RawArrayIter, RawIter};
pub use totals::DocumentTotals;
pub use value::RawBson;
