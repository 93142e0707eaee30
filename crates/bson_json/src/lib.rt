//! Writes documents as MongoDB Extended JSON v2 (the drivers' specification), canonical or
//! relaxed.
//!
//! `write_json` writes a borrowed document as one JSON object, with no white space and no line
//! feed. It takes no memory, and makes no copy of the document. `write_json_string` writes a text.
//!
//! Uses bson_raw and text_writer. Used by bson_json_read, wire_text, byte_views, engines, proxy and
//! replay. Read first: `object`, and then `pairs`.
#![tactic(auto)]

mod date;
mod decimal128;
mod double;
mod held;
mod mode;
mod object;
mod options;
mod pairs;
mod text;
mod value;

pub use date::{days_before_year, days_in_month, is_leap};
pub use mode::Mode;
pub use object::write_json;
pub use options::is_out_of_order;
pub use text::write_json_string;
