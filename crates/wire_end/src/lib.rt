//! The two ends of a connection, each over a link: a client with the records of its calls, and a
//! server.
//!
//! A `ClientEnd` makes calls, sends what waits, and hands out one reply after another. A
//! `ServerEnd` receives requests, which wait, answers them in any order, and sends the replies; or
//! it serves the whole connection, and answers its requests in order. Each of their functions tells
//! what it did as acts of the owner of a client or of the servers, and which bytes went over the
//! link for them. So what `wire_model::pair_laws` says of owners holds of a program that keeps an
//! end.
//!
//! Stands on wire_model, and on the code of wire_peer and wire_stream. loopback and client_examples
//! stand on it. Read first: `client_end` and `specs/Ends.antt`, then `server_end` and
//! `specs/ServerEnds.antt`, and then `serving` and `specs/Serving.antt`.
#![tactic(auto)]

mod call_record;
mod client_end;
pub mod laws;
mod next;
mod requesting;
mod server_end;
mod serving;
mod steps;

pub use call_record::{CallRecord, CallState};
pub use client_end::ClientEnd;
pub use next::{EndFault, Next, NextRequest, RequestFault};
pub use server_end::ServerEnd;
pub use serving::ServeEnd;
