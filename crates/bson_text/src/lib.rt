//! Writes the text of BSON documents.
//!
//! `dump::dump_to` writes the text of a borrowed document: a line with its size in bytes, and a
//! line for each element at all depths. `dump::dump_with_offsets` writes the same lines behind the
//! offsets of what they show, and `dump::dump_elements` the elements' lines alone. `item::value_to`
//! writes the value of one element. `to_writer` writes the parts that other texts share with it:
//! numbers, quoted text and hexadecimal digits. No function of this crate takes memory.
//!
//! Uses bson_raw and text_writer. Used by bson_doc, byte_views, wire_text, wire_play, engines and
//! test_server. Read first: `dump`.
#![tactic(auto)]

mod dump;
mod item;
mod text;
mod to_writer;
mod value_text;

pub use dump::{dump_elements, dump_to, dump_with_offsets};
pub use item::value_to;
pub use to_writer::{hex_to, number_to, quoted_to};
