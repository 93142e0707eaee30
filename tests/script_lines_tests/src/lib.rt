//! Tests of what no contract of lines says: that bytes are read if there is memory, and that the
//! definitions mean the lines.
//!
//! Uses script_lines. Read first: `cuts`.
#![tactic(auto)]

#[cfg(test)]
mod byte_refusals;
#[cfg(test)]
mod cuts;
