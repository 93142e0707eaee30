//! Reads, checks and writes messages of the MongoDB Wire Protocol's OP_MSG.
//!
//! A message is a header of 16 bytes (`MsgHeader`), four bytes of flags, and sections: one body,
//! and any number of document sequences. `RawMsg::parse` runs every check, and returns the first
//! fault and its offset if there is one. From then on the type carries the fact that its bytes are
//! a message, so a walk over it has no errors. Its `Payload` is borrowed from the same bytes. None
//! of this takes memory. `RawMsg::parse_with` returns the same, but takes memory to sort the names
//! of the body, so that no message is slow to read. `PayloadBuf` is a payload in bytes of its own,
//! to which document sequences and their documents are appended. `write_msg` appends the canonical
//! spelling of a message to bytes.
//!
//! Checksums aren't verified: a message with one is refused by a cause of its own. Other opcodes
//! and compression are left out.
//!
//! Uses bson_raw and framing. Used by wire_stream, wire_peer, wire_query, wire_text and byte_views.
//! Read first: `specs/Spelling.antt`, and then `msg` and `front`.
#![tactic(auto)]

mod append;
mod document_iter;
mod fault;
mod fields;
mod flags;
mod front;
mod header;
pub mod laws;
mod msg;
mod names;
mod payload_buf;
mod payloads;
mod refusal;
mod sections;
mod sequence;
mod sequence_iter;
mod write;

pub use document_iter::{Documents, DocumentsIter};
pub use fault::{MsgCause, MsgFault};
pub use fields::has_repeated_name;
pub use flags::MsgFlags;
pub use front::MsgFront;
pub use header::{HEADER_LEN, MAX_MESSAGE_LEN, MsgHeader, OP_MSG};
pub use msg::RawMsg;
pub use payload_buf::PayloadBuf;
pub use payloads::Payload;
pub use refusal::MsgRefusal;
pub use sequence_iter::SequencesIter;
pub use write::write_msg;
