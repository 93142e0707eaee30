//! The commands `play` and `loop`: a script of events is played in a world of connections, or calls
//! are made over one connection of the program with itself.
//!
//! `parse_line` reads a line: it names the limits and the handler of a world, or an event in it.
//! `play` reads a script line by line. The first line makes a world, and each of the others names
//! an event in it. For the result of an event one line is written. A line that names no event ends
//! the text, and its number is returned. `run_play` does that from a reader to a writer, and tells
//! such a line by a last one.
//!
//! `run_loop` connects the program to itself over TCP. Each call is made at a client's end, answered
//! at a server's end, and taken back, and then its line is written. The specs say what was done at
//! both ends, and that the headline holds of these calls where bytes arrived in order.
//!
//! Uses script_lines, wire_world, wire_end and command_run. Used by bsonwire. Read first:
//! docs/SCRIPTS.md, `parse`, `specs/Scripts.antt`, and then `playing`; of the other command
//! `loop_call`, and then `specs/Loopback.antt`.
#![tactic(auto)]

mod body;
mod closing;
mod cut;
mod keyword;
pub mod laws;
mod loop_call;
mod loopback;
mod named;
mod operands;
mod parse;
mod playing;
mod reports;
mod running;

pub use loopback::run_loop;
pub use named::{HandlerName, Line, ScriptEvent, Setup};
pub use parse::parse_line;
pub use playing::{PlayStop, play};
pub use running::run_play;
