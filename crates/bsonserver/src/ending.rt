//! Why the server ends.

use server_core::Stop;
use std::io;
use test_script::ScriptFault;

/// Why the server ends.
#[derive(Drop)]
pub enum ServingEnd {
    /// This many connections were served.
    Served(u64),
    /// The script is at fault.
    Script(ScriptFault),
    /// The script can't be read.
    ScriptFile(io::Error),
    /// The server stopped early.
    Stopped(Stop),
}
