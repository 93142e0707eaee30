//! The commands of the program `bsonwire` that read an input, each a function over a reader and a
//! writer.
//!
//! `run_dump`, `run_check`, `run_canon` and `run_json` read documents piece by piece, `run_bson`
//! texts, `run_msg` messages, and `run_any` messages of any opCode, and write as these come.
//! `run_json`, `run_msg` and `run_any` know a file of records by its first bytes, and write its
//! records. Each writes one text for its input, through a buffer of 64 KiB, which the writer gets
//! when it is full, when a read gave less than a piece, and at the end, and that of `run_bson` behind
//! each piece; and tells how that ended.
//! Documents, messages or records stand back to back in the input, as bytes or as hexadecimal text,
//! which is read whole; the input of `run_bson` is Extended JSON. A fault in the input is told by the
//! last line of the text, and by `run_bson` in what it returns. `salvage_check` and `salvage_canon`
//! go on behind a fault; the one tells each, at its gap, and the other none.
//!
//! Stands on command_run, bson_json_read, bson_stream, wire_frames and wire_stream. bsonwire stands
//! on it. Read first: `walk`, `pieces`, `documents`, and then `dump`.
#![tactic(auto)]

mod any;
mod bson;
mod canon;
mod check;
mod documents;
mod dump;
mod fault_line;
mod frames;
mod hex_input;
mod input_fault;
mod json;
pub mod laws;
mod messages;
mod msg;
mod or_records;
mod pieces;
mod record_text;
mod records;
mod salvage;
mod source;
mod texts;
mod walk;

pub use any::run_any;
pub use bson::{TextStop, run_bson};
pub use bson_json::Mode;
pub use canon::{run_canon, run_canon_within, salvage_canon};
pub use check::{run_check, salvage_check};
pub use dump::run_dump;
pub use json::{Layout, run_json};
pub use msg::{MessageForm, run_msg};
pub use record_text::RecordForm;
