//! Tests of what no contract says: that calls of `Due` succeed if there is memory, and that relays
//! pass bytes where both links move some.
//!
//! Uses sockets. Read first: `relays`.
#![tactic(auto)]

#[cfg(test)]
mod due_refusals;
#[cfg(test)]
mod relay_refusals;
#[cfg(test)]
mod relays;
