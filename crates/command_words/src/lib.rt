//! What programs have in common where they meet the user: the words of the command line, exit
//! statuses, and what a message tells of an input or of a failed call.
//!
//! A command line is a table. It has a form for each command, and a form has a row for each argument.
//! `parse` makes of it what `clap` reads the words by, and what it returns holds what the rows say:
//! proved once, for the tables of all programs. If the words can't be read or ask for nothing,
//! `Program` says why, and returns the exit status for that.
//!
//! A line on standard error begins with the program's name. If standard error takes no line, there
//! is only the exit status.
//!
//! Uses clap. Used by bsonwire, bsonproxy and test_server. Read first: `table`, and then `program`.
#![tactic(auto)]

mod arguments;
mod input_name;
mod noted;
mod program;
mod table;
mod values;

pub use arguments::{flag, number_option, text_option};
pub use input_name::InputName;
pub use noted::{Because, Noted};
pub use program::{IN_OUT, MEMORY, Program, USAGE, VERSION, status_of_error, texts};
pub use table::{Form, Kind, Row, Table, parse, refusal};
pub use values::{count_of, flag_of, is_given, number_of, operand_of, small_number_of, text_of};
