//! Tests of shared connections by what no contract says: that requests are passed on and answered
//! where memory is there, byte for byte as the Wire Protocol manual has it.
//!
//! Uses wire_share. Read first: `steps`, and then `sharing`.
#![tactic(auto)]

#[cfg(test)]
mod core_refusals;
#[cfg(test)]
mod passing;
#[cfg(test)]
mod route_refusals;
#[cfg(test)]
mod routes;
#[cfg(test)]
mod share_refusals;
#[cfg(test)]
mod sharing;
#[cfg(test)]
mod steps;
