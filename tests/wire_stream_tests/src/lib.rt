//! Tests of what no contract of readers, links and outputs says: that calls succeed if there is
//! memory, and what a TCP link does over a stream.
//!
//! Uses wire_stream. Read first: `readers`.
#![tactic(auto)]

#[cfg(test)]
mod links;
#[cfg(test)]
mod messages_in_pieces;
#[cfg(test)]
mod pieces;
#[cfg(test)]
mod pieces_refusals;
#[cfg(test)]
mod readers;
#[cfg(test)]
mod stream_refusals;
#[cfg(test)]
mod tcp_links;
#[cfg(test)]
mod texts;
