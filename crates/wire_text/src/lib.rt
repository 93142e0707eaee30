//! Writes the text of a message to any writer, as lines or as JSON, and that of a message of any
//! opCode as lines. `write_frame` alone takes memory, to check an OP_MSG.
//!
//! Uses bson_text, bson_json, wire_msg and wire_frames. Used by engines, proxy and test_server.
#![tactic(auto)]

mod frame_text;
mod message_json;
mod messages;

pub use frame_text::write_frame;
pub use message_json::write_message_json;
pub use messages::{Detail, write_message, write_msg_fault, write_sequences};
