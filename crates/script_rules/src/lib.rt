//! Rules that say what is done with requests: which request a rule is for, and what it does then.
//!
//! A `Script` has rules in their order. Each request meets the first live rule that it is for, and
//! that rule has one use fewer then. What it does is its `Action`, and what becomes of the bytes of
//! a reply is the `Flow` of that. A `Scripted` handler answers as the rules say, and where they say
//! nothing, as another handler does.
//!
//! Stands on doc_query and command_parts. test_script, which reads rules out of lines, proxy,
//! shared_proxy and bsonserver stand on it. Read first: `rule`, and then `script`.
#![tactic(auto)]

mod action;
mod asked;
pub mod laws;
mod rule;
mod script;
mod scripted;

pub use action::{Action, Flow};
pub use rule::Rule;
pub use script::Script;
pub use scripted::Scripted;
