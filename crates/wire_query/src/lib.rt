//! Reads the older spelling of a command, and writes that of its answer: the MongoDB Wire
//! Protocol's OP_QUERY to a database's `$cmd`, and OP_REPLY.
//!
//! `RawQuery::parse` runs every check, and returns the first fault and its offset if there is one.
//! From then on the type carries the fact that its bytes are the query of a command.
//! `RawQuery::write_msg` appends the OP_MSG that asks the same, whose body names the database, and
//! `write_reply` an OP_REPLY with one document.
//!
//! Queries of collections other than `$cmd` are refused by a cause of their own.
//!
//! Uses bson_raw and wire_msg. Used by wire_serve and proxy. Read first: `query`, and then `check`.
#![tactic(auto)]

mod check;
mod database;
mod fault;
pub mod laws;
mod query;
mod reply;
mod write;

pub use fault::{QueryCause, QueryFault};
pub use query::{OP_QUERY, RawQuery};
pub use reply::{OP_REPLY, ReplyHead, write_reply};
