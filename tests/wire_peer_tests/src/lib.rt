//! Tests of what no contract of peers says: that calls succeed if there is memory, what is sent
//! byte for byte, and that the definitions mean the protocol.
//!
//! Uses wire_peer. Used by wire_end_tests, for `log_rows`. Read first: `clients` and `servers`.
#![tactic(auto)]

#[cfg(test)]
mod client_refusals;
#[cfg(test)]
mod client_streams;
#[cfg(test)]
mod clients;
#[cfg(test)]
mod flushes;
#[cfg(test)]
mod handlers;
#[cfg(test)]
mod log_refusals;
pub mod log_rows;
#[cfg(test)]
mod logs;
#[cfg(test)]
mod refused_calls;
#[cfg(test)]
mod server_refusals;
#[cfg(test)]
mod servers;
#[cfg(test)]
mod texts;
