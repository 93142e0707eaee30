//! What a run of a command is: how it ends, and what the commands write through.
//!
//! A `RunEnd` says how a run ended, and `end_of` and `end_of_read` which end an error comes to. An
//! `Engine` writes the text of an input that is read whole, and `run_engine` does that from a
//! reader to a writer. `Buffered` is the buffer of 64 KiB through which commands write.
//! `write_fault` writes the line that ends the text of an input at fault.
//!
//! Stands on no other crate here. file_commands, loopback and wire_play stand on it. Read first:
//! `run`, and then `buffered`.
#![tactic(auto)]

mod buffered;
mod fault_line;
mod run;

pub use buffered::Buffered;
pub use fault_line::write_fault;
pub use run::{BUFFER, Engine, RunEnd, end_of, end_of_read, run_engine};
