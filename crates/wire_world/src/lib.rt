//! The world of connections: a pool, clients and servers, and bytes that move between them.
//!
//! A `World` has connections, each with a client and a server of its own, one handler with its log,
//! and a record of each call. An `Event` moves bytes over a connection, makes a call, has a request
//! answered, cuts a way, or lends and takes back a connection. `step` makes one event happen, and
//! `run` many.
//!
//! Uses wire_model, and the code of wire_peer and wire_pool. Used by wire_play. Read first:
//! `worlds`.
#![tactic(auto)]

mod connections;
mod lists;
mod moving;
mod records;
mod rooms;
mod runs;
mod worlds;

pub use records::{CallRecord, CallState};
pub use wire_model::{Event, Report, SetupRefusal, WorldLimits, WorldRefusal};
pub use worlds::World;
