//! Tests of what no contract of elements says: rows that were worked out by hand from the standard,
//! and the texts of faults.
//!
//! Uses bson_elem. Read first: `elements`.
#![tactic(auto)]

#[cfg(test)]
mod elements;
