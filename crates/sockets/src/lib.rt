//! What programs over sockets have in common: a listener that accepts as many connections as are
//! wanted, and what is told of where it is; standard input that is watched for its end; the address
//! that a name has; sockets whose events are waited for; which connections are to take another
//! turn, and of which a message is held; whether a connection stands, and why a call of the system
//! failed.
//!
//! A `Relay` passes bytes between two links, both ways, unchanged. It holds two `Way`s, each with
//! bytes that came over the one link and weren't sent over the other yet, and takes turns of a
//! bounded number of steps. Where a link ends, what came over it is sent, and then the other link's
//! sending ends, while bytes still go the other way. A `Tap` of each way sees the bytes that come on
//! it. `relay_laws` says that what was sent over a link is a beginning of what came over the other,
//! and all of it where that one ended.
//!
//! Uses mio and wire_stream. Used by proxy, shared_proxy, replay, bsonproxy and bsonserver. Read
//! first: `polling`, and then `acceptor`; of relays `way`, and then `relay`.
#![tactic(auto)]

mod acceptor;
mod address;
mod connecting;
mod delays;
mod due;
mod failure;
mod listening;
mod polling;
mod relay;
pub mod relay_laws;
mod standing;
mod stdin;
mod tap;
mod turned;
mod way;

pub use acceptor::{ACCEPTS, Acceptor};
pub use address::address_of;
pub use connecting::is_connected;
pub use delays::Delays;
pub use due::Due;
pub use failure::IoFailure;
pub use listening::{bind, tell_listening, tell_port};
pub use polling::{EVENTS, LISTENER, STDIN, register, wait};
pub use relay::Relay;
pub use standing::WaitReason;
pub use stdin::{Stdin, watch_stdin};
pub use tap::{NoTap, Tap};
pub use turned::{RelayFault, Turned};
pub use way::EndSending;
