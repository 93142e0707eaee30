//! Tests of what no contract of queries and replies says: the bytes that drivers send, rows that
//! were worked out by hand from the Wire Protocol manual, and that calls succeed if there is
//! memory.
//!
//! Uses wire_query. Read first: `queries`, and then `messages`.
#![tactic(auto)]

#[cfg(test)]
mod messages;
#[cfg(test)]
mod queries;
#[cfg(test)]
mod query_refusals;
