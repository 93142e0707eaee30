//! Builds documents in the room of a caller, pair by pair, by numbers alone, and the document
//! sequences of a message.
//!
//! A `Builder` is a struct of numbers that its caller holds beside the room; a document or an array
//! inside has one of its own, while it is open. `append` puts a pair behind the others, `begin`
//! opens a container as the value of the next pair, `end` ends it, and `finish` the outermost one.
//! `append_sequence` puts a document sequence behind others. None takes memory, and none has a
//! `requires`: any numbers and any room have an answer. Where the room is too short nothing
//! changes, and the answer tells how long it has to be. Read first: `builder` and `nest`.

mod builder;
mod built;
mod given;
mod nest;
mod place;
mod plain;
mod refusal;
mod sequence;
mod value;

pub use builder::{Builder, append};
pub use built::Built;
pub use given::ValueNumbers;
pub use nest::{begin, end, finish, first};
pub use refusal::BuildRefusal;
pub use sequence::append_sequence;
