//! Writes texts of many short parts: a small buffer in front of a writer, numbers, hexadecimal
//! digits, and a search for the bytes that quoted text escapes.
//!
//! A part returns one byte, and the writer's first error is kept until the end. No function of
//! this crate takes memory.
//!
//! Uses nothing of this repository. Used by bson_text and bson_json. Read first: `writer`.
#![tactic(auto)]

mod digits;
mod escapes;
mod writer;

pub use digits::{write_hex, write_number};
pub use escapes::first_escaped;
pub use writer::{Failed, TextWriter};
