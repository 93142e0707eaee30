//! Why nothing happens in a world, and why none is made.

use wire_peer::{AnswerRefusal, CallRefusal};

/// Why an event is refused. Nothing changes then, except with `OutOfMemory`.
#[derive(Clone, Copy, Debug, PartialEq, Eq)]
pub enum WorldRefusal {
    /// There is no connection of this number.
    NoConnection,
    /// The way is cut.
    Cut,
    /// The pool hasn't lent the connection.
    NotLent,
    /// The pool has no connection to lend, or no number is left.
    Full,
    /// The client refuses the call.
    Call(CallRefusal),
    /// The server refuses to answer.
    Answer(AnswerRefusal),
    /// Out of memory. If a connection was to be made, nothing changes. Otherwise some of the bytes
    /// may have been moved, and the event's connection is cut both ways.
    OutOfMemory,
    /// The connection is raw.
    Raw,
    /// The connection isn't raw.
    NotRaw,
}

/// Why no world is made.
#[derive(Clone, Copy, Debug, PartialEq, Eq)]
pub enum SetupRefusal {
    /// The first id isn't 1 to 2,147,483,647.
    BadFirstId,
    /// The window isn't 1 to 1,024.
    BadWindow,
    /// The limit isn't 26 to 48,000,000.
    BadLimit,
    /// The number of connections isn't 1 to 1,024.
    BadMax,
    /// Out of memory.
    OutOfMemory,
}
