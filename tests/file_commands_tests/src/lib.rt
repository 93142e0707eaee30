//! Tests of the commands that read an input, by what no contract says: readers and writers that fail, and refused allocations. The
//! texts that a run writes are tried by the program that is built, in `scripts/checks/try-tables` and `scripts/checks/try-json`.
//!
//! Stands on file_commands and command_run_tests. Read first: `dump`.
#![tactic(auto)]

#[cfg(test)]
mod any;
#[cfg(test)]
mod bson;
#[cfg(test)]
mod canon;
#[cfg(test)]
mod check;
#[cfg(test)]
mod command_refusals;
#[cfg(test)]
mod dump;
#[cfg(test)]
mod json;
#[cfg(test)]
mod msg;
#[cfg(test)]
mod pieces;
#[cfg(test)]
mod records;
#[cfg(test)]
mod salvage;
