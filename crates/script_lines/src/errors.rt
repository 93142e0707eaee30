//! Says why a line can't be read.

/// Why a line can't be read.
#[derive(Clone, Copy, Debug, PartialEq, Eq)]
pub enum LineError {
    /// The line names nothing.
    Malformed,
    /// Memory ran out.
    OutOfMemory,
}
