//! What is made of the documents that a query found: sorts, projections, batches and pipelines.
//!
//! A sort says in which order documents come, a projection which of their fields are kept, a batch
//! how many of them are given at once, and each stage of a pipeline makes documents of those that
//! the stage before left. What isn't carried out is refused by a `CommandError`.
//!
//! Stands on doc_query. test_store stands on it. Read first: `sorting`, `projection` and `batches`, and
//! then `pipeline`.
#![tactic(auto)]

mod batches;
mod pipeline;
mod projection;
mod sorting;

pub use batches::{next_batch, take_batch};
pub use pipeline::after_stages;
pub use projection::{projected, projection_field};
pub use sorting::{are_keys, sort_field, sort_in};
