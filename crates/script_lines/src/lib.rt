//! Reads scripts, which are text, a line at a time.
//!
//! `Lines` cuts a script into its lines, and skips empty ones and those that begin with `#`. What a
//! line says is no part of this crate, but for the words that scripts of all kinds have: numbers in
//! decimal digits, and bytes in hexadecimal ones.
//!
//! Stands on no other crate here. wire_script, wire_play and test_script stand on it. Read first:
//! `numbered_lines`.
#![tactic(auto)]

mod bytes;
mod errors;
pub mod laws;
mod numbered_lines;
mod numbers;

pub use bytes::bytes_of;
pub use errors::LineError;
pub use numbered_lines::{Lines, NumberedLine};
pub use numbers::{number, number_i32, number_u32};
