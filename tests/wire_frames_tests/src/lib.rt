//! Tests of what no contract of frames and records says: the bytes that drivers send and that files
//! have, the check values of CRC-32C, and that calls succeed if there is memory.
//!
//! Uses wire_frames. Read first: `frames` and `records`.
#![tactic(auto)]

#[cfg(test)]
mod checksums;
#[cfg(test)]
mod frame_refusals;
#[cfg(test)]
mod frames;
#[cfg(test)]
mod record_refusals;
#[cfg(test)]
mod records;
