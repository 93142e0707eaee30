//! Tests of what no contract of messages says: rows that were worked out by hand from the manual,
//! that calls succeed if there is memory, and that nothing changes if it is refused.
//!
//! Uses wire_msg and bson_raw_tests. Read first: `messages`.
#![tactic(auto)]

#[cfg(test)]
mod altered;
#[cfg(test)]
mod message_refusals;
#[cfg(test)]
mod messages;
#[cfg(test)]
mod payload_refusals;
#[cfg(test)]
mod payloads;
#[cfg(test)]
mod written_messages;
