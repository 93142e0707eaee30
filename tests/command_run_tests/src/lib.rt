//! Tests of what no contract of a run says: the bytes of the line of a fault. For the tests of commands, readers and writers that fail.
//!
//! Stands on command_run. Used by file_commands_tests and wire_play_tests, for `readers` and `writers`.
#![tactic(auto)]

#[cfg(test)]
mod fault_line;
pub mod readers;
pub mod writers;
