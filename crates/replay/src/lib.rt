//! Sends what a record's clients sent to a server, and tells which answers differ from the recorded
//! ones.
//!
//! The records of a file are taken in order. A request goes to the server, over a connection of its
//! recorded connection's own, and a recorded answer is awaited and compared with the one that comes:
//! on each connection the answer to the same request, and of several the one at the same index. All
//! connections are served in one thread.
//!
//! A cursor has another id on the server than in the record. Requests are sent, and recorded answers
//! compared, with the ids of the server.
//!
//! A connection finds what its answers are and what it is given to send, and writes nothing: what
//! it found is told and counted once it is done.
//!
//! Uses wire_frames, wire_stream, bson_doc, bson_json and sockets. Used by bsonproxy. Read first:
//! `specs/Matchings.antt`, `matching`, `pace`, `ignored`, `carrying`, and then `conn`, `lanes` and
//! `player`.
#![tactic(auto)]

mod answers;
mod asked;
mod carrying;
mod channel;
mod conn;
mod content;
mod cursors;
mod dialog;
mod fault;
mod finding;
mod flags;
mod follows;
mod ignored;
mod input_fault;
mod lanes;
pub mod laws;
mod matching;
mod options;
mod pace;
mod piece;
mod player;
mod records;
mod replaying;
mod requests;
mod tally;
mod teller;
mod waiting;
mod watch;

pub use fault::ReplayFault;
pub use options::ReplayOptions;
pub use replaying::{Outcome, run};
