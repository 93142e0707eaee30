//! Tests of what no contract of pools says: that calls succeed if there is memory, and that the
//! definitions mean a pool.
//!
//! Uses wire_pool. Read first: `pools`.
#![tactic(auto)]

#[cfg(test)]
mod pool_refusals;
#[cfg(test)]
mod pools;
#[cfg(test)]
mod texts;
