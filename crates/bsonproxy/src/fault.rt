//! Why `serve` ends early.

use proxy::ProxyFault;
use std::{fmt, io};
use test_script::ScriptFault;

/// Why `serve` ends early.
#[derive(Drop)]
pub enum ServeFault {
    /// The script is at fault.
    Script(ScriptFault),
    /// The script can't be read.
    ScriptFile(io::Error),
    /// The proxy ended early.
    Proxy(ProxyFault),
}

impl fmt::Display for ServeFault {
    fn fmt<W: fmt::Write>(&self, f: &mut fmt::Formatter<W>) -> fmt::Result {
        match self {
            ServeFault::Script(fault) => write!(f, "the script is at fault: {fault}"),
            ServeFault::ScriptFile(error) => write!(f, "the script can't be read: {error}"),
            ServeFault::Proxy(fault) => write!(f, "{fault}"),
        }
    }
}
