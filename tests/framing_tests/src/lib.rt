//! Tests of what no contract of framing says: that calls succeed if there is memory, and what is
//! read of a kind whose lead is checked before its header is there.
//!
//! Uses framing. Read first: `marked`.
#![tactic(auto)]

#[cfg(test)]
mod cuts;
#[cfg(test)]
mod item_refusals;
#[cfg(test)]
mod marked;
