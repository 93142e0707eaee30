//! Scripts of a test server and of a proxy: reads rules that say what is done with requests.
//!
//! A script is text, one rule a line. `parse` reads one, or tells the line at fault and why. What
//! its rules do is said in script_rules.
//!
//! Stands on script_rules, bson_json_read, script_lines and command_parts. bsonproxy and bsonserver
//! stand on it. Read first: `specs/Lines.antt`, and then `line` and `script`.
#![tactic(auto)]

mod fault;
mod keyword;
mod line;
mod operands;
mod parts;
mod script;
mod token;
mod written;

pub use fault::{Cause, ScriptFault};
pub use script::parse;
