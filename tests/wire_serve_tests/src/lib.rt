//! Tests of server connections, slots and connections by what no contract says: that queries and
//! messages are answered where memory is there, and what is sent byte for byte, as the Wire
//! Protocol manual has it.
//!
//! Uses wire_serve. Read first: `spellings`, and then `connections`.
#![tactic(auto)]

#[cfg(test)]
mod connection_refusals;
#[cfg(test)]
mod connections;
#[cfg(test)]
mod server_connection_refusals;
#[cfg(test)]
mod spellings;
