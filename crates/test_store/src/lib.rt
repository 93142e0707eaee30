//! Documents in memory, and the commands over them, as a handler of requests.
//!
//! A `Store` holds documents by namespace, and the cursors over what was found. It answers each
//! request by a stated function of what it holds (`reply_to`), which says what it holds then, too.
//! A command that errs changes nothing. It knows no connection: a server that holds one calls it.
//!
//! Stands on command_parts, doc_stages, doc_update, wire_msg and wire_peer. bsonserver stands on
//! it. Read first: `store`, then `commands`, and then `handling`.
#![tactic(auto)]

mod adding;
mod answer;
mod commands;
mod fields;
mod handling;
mod indexes;
mod namespace;
mod options;
mod selection;
mod store;
mod values;

pub use store::Store;
