//! Listens at one address, and passes the bytes of each connection to the server at another one and
//! back, unchanged.
//!
//! It writes where it listens. A `Watch` finds the messages of what passed, and gives each, once it
//! is whole, to a `Sink`, which shows or records it, as `Options` ask for. What is proved of the
//! bytes is the law `sockets::relay_laws::what_went_came`. All connections are served in one
//! thread.
//!
//! Faults are made by a script, whose rules say what becomes of requests and their replies, or by a
//! seed, from which it is drawn where each connection is cut. With a script a `HeldLink` holds each
//! message until it is whole, and `fate` asks the script.
//!
//! Uses sockets, script_rules, wire_frames and wire_text. Used by shared_proxy and bsonproxy. Read
//! first: `options`, `pair`, `sink`, and then `proxy`.
#![tactic(auto)]

mod chance;
mod direction;
mod ending;
mod event_loop;
mod fate;
mod fault;
mod held;
mod held_link;
pub mod hold_laws;
mod marks;
mod message;
mod options;
mod outcome;
mod pair;
mod pairs;
mod proxy;
mod record_buf;
mod recorder;
mod serving;
mod sink;
mod socket;
mod steer;
mod watch;

pub use chance::{Cut, drawn_cut};
pub use direction::Direction;
pub use event_loop::{EventLoop, serve};
pub use fate::{Fate, fate_of};
pub use fault::ProxyFault;
pub use held_link::HeldLink;
pub use options::{Options, Show, Watching};
pub use serving::{listen, run};
pub use sink::Sink;
pub use socket::Socket;
pub use sockets::{LISTENER, STDIN};
pub use watch::{Watch, Watches};
