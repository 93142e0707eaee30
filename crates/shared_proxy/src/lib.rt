//! Listens at one address, and passes the requests of all clients on to the server at another one
//! over few connections.
//!
//! Over which connection a request goes, who gets a reply, and who is gone with a connection is said
//! by the `Core` of wire_share, of which its laws are proved. This crate has the sockets: it moves
//! bytes between them and the core, and tells what it did. All connections are served in one thread.
//!
//! Uses wire_share and proxy. Used by bsonproxy. Read first: `client`, `server`, `sharing`, and then
//! `turns`.
#![tactic(auto)]

mod client;
mod clients;
mod closing;
mod connector;
mod leave;
mod line;
mod server;
mod servers;
mod serving;
mod sharing;
mod side;
mod steering;
mod turns;

pub use serving::run;
