//! Handles of cores that take memory, for programs in other languages, and what is done with a
//! client, a server or a pool by one.
//!
//! A `CoreHandle` is what a program in C holds of a core: a pointer that it never reads through,
//! and whether there is one. It owns the core, or none. What can't cross the border of Rattle, as an
//! enum, a borrowed value or a slice that is kept, doesn't: output, replies and requests are copied
//! into the caller's memory, and every refusal and every state is a number. None of the calls has a
//! `requires`: a handle of no core, any bytes and any numbers have an answer.
//!
//! Uses wire_peer, wire_pool and byte_views. Used by lughemra. Read first: `handle`, and then
//! `clients`, `servers` and `pools`.
#![tactic(auto)]

mod client_calls;
mod client_replies;
mod client_states;
mod clients;
mod cores;
mod given;
mod handle;
mod numbers;
mod parts;
mod pool_answers;
mod pools;
mod server_answers;
mod server_requests;
mod server_states;
mod servers;

pub use client_calls::CallMade;
pub use client_replies::{OutputCopied, ReplyCopied};
pub use client_states::{ClientShown, CountTold, PieceFed};
pub use clients::{
    client_call, client_end, client_feed, client_new, client_output, client_outstanding,
    client_release, client_reply, client_sent, client_state, free,
};
pub use handle::CoreHandle;
pub use pool_answers::{CheckedIn, CheckedOut};
pub use pools::{pool_check_in, pool_check_out, pool_clear, pool_close, pool_new};
pub use server_answers::AnswerGiven;
pub use server_requests::RequestCopied;
pub use server_states::{ServerFed, ServerShown};
pub use servers::{
    server_answer, server_end, server_feed, server_new, server_output, server_request, server_sent,
    server_state,
};
