//! Cuts bytes into messages of the MongoDB Wire Protocol of any opCode, which are not read beyond
//! their header, and into records of such messages.
//!
//! A frame is a header of 16 bytes and the bytes that its length announces. `RawFrame::front`
//! returns the frame in front of bytes, and a `FrameReader` makes frames of bytes that come in
//! pieces. `RawFrame::opcode` says which kind of message a frame is, and `RawFrame::checksum`
//! whether the CRC-32C of an OP_MSG is right.
//!
//! A record is a message that passed between a client and a server, with its time, the number of
//! its connection, and its direction. A file of records is `SIGNATURE` and then records back to
//! back. `write_record` appends one, and a `RecordReader` makes records of bytes that come in
//! pieces. Bytes are told as records and a rest in one way, and the first fault by its number,
//! cause and offset.
//!
//! Both are kinds of items of framing (`frames` and `records`). Uses framing and wire_msg. Used by
//! engines, proxy, shared_proxy and replay. Read first: `specs/Frames.antt`, `specs/Records.antt`,
//! and then `frame`, `reader`, `head` and `record`.
#![tactic(auto)]

mod checksum;
mod crc;
mod fault;
mod frame;
mod frames;
mod front;
mod head;
pub mod laws;
mod opcode;
mod reader;
mod record;
mod record_front;
pub mod record_laws;
mod record_reader;
mod records;
mod write;

pub use checksum::Checksum;
pub use crc::crc32c;
pub use fault::{RecordCause, RecordFault};
pub use frame::RawFrame;
pub use front::FrameFront;
pub use head::{Direction, HEAD_LEN, RecordHead, SIGNATURE};
pub use opcode::Opcode;
pub use reader::FrameReader;
pub use record::RawRecord;
pub use record_front::RecordFront;
pub use record_reader::RecordReader;
pub use write::write_record;
