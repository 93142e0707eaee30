//! The two ends of a connection that speaks in messages.
//!
//! A `Client` puts requests out under ids that no outstanding call bears, and gives each reply to
//! the call that it belongs to.
//!
//! A `Handler` answers a `Request` by putting `Answers` together, or stops. `Logged` asks a
//! handler, and keeps an `Entry` of each request with what became of it; it takes the room for the
//! entry before it asks. A `ReplyBuf` holds the replies of one connection until they are sent.
//! `Echo`, `Count` and `StopAt` are handlers. A `Server` is the whole end without a link: bytes are
//! fed to it, requests wait in it and are answered in any order, and its output is taken off as it
//! is sent.
//!
//! Stands on wire_stream. Cores of handles, worlds, ends over links, fronts, stores and scripts stand
//! on it. Read first: `handlers` and `log`, then `servers` and `clients`.
#![tactic(auto)]

mod answer_list;
mod call_table;
mod calls;
mod client_state;
mod clients;
mod counting;
mod echoing;
mod free_id;
mod handlers;
pub mod laws;
mod limits;
mod log;
mod reply;
mod reply_buf;
mod request_buf;
mod requests;
mod server_state;
mod servers;
mod stop_at;

pub use answer_list::Answers;
pub use call_table::{Outstanding, ReadyReply};
pub use calls::{CallKind, CallNo, CallRefusal};
pub use client_state::{ClientCause, ClientRefusal, ClientState};
pub use clients::Client;
pub use counting::Count;
pub use echoing::Echo;
pub use free_id::next_free;
pub use handlers::{Handler, HandlerStop};
pub use limits::{MAX_WINDOW, MIN_LIMIT};
pub use log::{AskRefusal, Entry, Logged, NoReplies, Outcome};
pub use reply::Reply;
pub use reply_buf::{ReplyBuf, ReplyRefusal};
pub use requests::Request;
pub use server_state::{AnswerRefusal, ServerCause, ServerRefusal, ServerState};
pub use servers::Server;
pub use stop_at::StopAt;
