//! Shares connections to a server among clients: the requests of many go over few, and each reply
//! goes back to the request whose call it answers.
//!
//! A `Downstream` is the connection of a client, and an `Upstream` one to the server. A request
//! that waits at a downstream is passed on as a call of an upstream, under an id of that one, and
//! awaited; the reply to that call, and no other, is what the request is answered with.
//!
//! `laws` says that answers are never mixed: each is the answer that the server gave to a call of
//! the request's own payload, and no two requests get one answer; and that each connection's
//! requests are answered in order, each once.
//!
//! A `Core` has all of them by their numbers, without sockets and without a clock: it says over
//! which connection a request may go, passes it on there and nowhere else, gives replies back, and
//! drops what is lost. `core_laws` says what holds of all that was ever done with one: a connection
//! over which a client authenticates is that client's alone, nobody awaits a reply of a connection
//! that is lost, answers are never mixed, and requests go where their cursors and transactions are.
//!
//! Uses wire_serve, wire_peer and wire_model. Read first: `specs/Sharing.antt`, then `downstream`
//! and `laws`; of the core `specs/Placing.antt`, `specs/Cores.antt`, `core_views`, `core_steps` and
//! `core_laws`.
#![tactic(auto)]

mod awaited;
mod client;
pub mod core_laws;
mod core_steps;
mod core_views;
mod downstream;
mod giving;
pub mod laws;
mod moving;
mod need;
mod opening;
mod placing;
mod refusals;
mod relayed;
mod route_table;
mod routes;
mod server;
mod shared_core;
mod state;
mod steps;
mod up_moving;
mod upstream;
mod uses;

pub use awaited::Awaited;
pub use client::{Client, Wish};
pub use downstream::Downstream;
pub use need::{Need, SessionId, begun_by, command_in, need_of};
pub use placing::Place;
pub use refusals::{GiveRefusal, PassRefusal};
pub use routes::Routes;
pub use server::Server;
pub use shared_core::Core;
pub use steps::PassFault;
pub use upstream::Upstream;
pub use uses::Use;
