//! The core of a server for trying out drivers: it serves connections by the rules of a script, and
//! writes the transcript of what they asked, what was answered, and how they ended.
//!
//! `Serving` has the connections and the rules of what becomes of replies. It has no socket and no
//! clock: links are given to it, and it is told which connection takes a turn. `laws` says that what
//! is written is the transcript of what was done, and that its entries are one run of the handler.
//!
//! Uses wire_serve, script_rules and wire_text. Used by bsonserver. Read first: `serving`, then
//! `transcript`, and then `laws`.
#![tactic(auto)]

pub mod laws;
mod output;
mod reply_rules;
mod serving;
mod stop;
mod transcript;

pub use output::Output;
pub use reply_rules::ReplyRules;
pub use serving::{ANSWER_STEPS, STEPS, Serving, settle};
pub use stop::{Stop, wants_memory};
