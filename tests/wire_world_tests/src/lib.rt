//! Tests of what no contract of worlds says: that events succeed if there is memory, and that the
//! definitions mean the protocol.
//!
//! Uses wire_world. Read first: `runs`.
#![tactic(auto)]

#[cfg(test)]
mod deliveries;
#[cfg(test)]
mod limits;
#[cfg(test)]
mod neighbours;
#[cfg(test)]
mod quiet;
#[cfg(test)]
mod rows;
#[cfg(test)]
mod runs;
#[cfg(test)]
mod streams;
#[cfg(test)]
mod world_refusals;
