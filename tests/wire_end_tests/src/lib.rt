//! Tests of ends over links in memory, by what no contract says: that replies come where memory is
//! there, and what is sent byte for byte.
//!
//! Uses wire_end, and `log_rows` of wire_peer_tests. Read first: `answered`, `requests` and `serving`.
#![tactic(auto)]

#[cfg(test)]
mod answered;
#[cfg(test)]
mod end_refusals;
#[cfg(test)]
mod links;
#[cfg(test)]
mod requests;
#[cfg(test)]
mod serving;
#[cfg(test)]
mod serving_refusals;
#[cfg(test)]
mod waiting;
