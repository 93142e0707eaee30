//! Reads documents from MongoDB Extended JSON v2 (the drivers' specification), canonical or
//! relaxed.
//!
//! `from_json` reads a text as an owned document, or tells its first fault. The kit's `json` tells
//! which JSON value a text is. `wrapped` and `owned` have the forms of objects that stand for
//! values, and `value` reads documents and arrays by them. `TextReader` reads the documents of an
//! input of several texts, which may come in pieces.
//!
//! Uses bson_doc and bson_json. Used by test_script, file_commands and bsonwire. Read first: `text`,
//! and then `value`.
#![tactic(auto)]

mod bracket;
mod bytes;
mod cursor;
mod decimal;
mod direct;
mod element;
mod extent;
mod fault;
mod form;
mod frame;
mod iso;
pub mod laws;
mod members;
mod misfit;
mod nodes;
mod number;
mod options;
mod owned;
mod place;
mod run;
mod seek;
mod seen;
mod source;
mod text;
mod text_bytes;
mod text_reader;
mod texts;
mod value;
mod wrapped;
mod zero;

pub use decimal::decimal128_from_text;
pub use extent::text_extent;
pub use fault::{Cause, JsonFault};
pub use form::Form;
pub use place::Place;
pub use text::from_json;
pub use text_reader::TextReader;
pub use texts::{NextBytes, TextFault};
