//! What an event has done.

use wire_peer::ServerCause;

/// What an event that isn't refused has done.
#[derive(Debug, Drop)]
pub enum Report {
    /// The connection of this number is lent.
    Opened {
        /// Its number.
        connection: u64,
        /// True if it was made now.
        new: bool,
    },
    /// The connection is idle.
    Kept,
    /// The connection was dropped, and cut both ways.
    Dropped,
    /// The call was made.
    Called {
        /// Its index among the calls of the world.
        call: usize,
        /// The id of its request.
        id: i32,
    },
    /// How many bytes were moved.
    Moved(usize),
    /// The request was answered, by the entry of this index.
    Entry(usize),
    /// The request was taken, and the server closed.
    ClosedBy(ServerCause),
    /// The event is done.
    Done,
    /// The raw connection of this number was made.
    RawOpened(u64),
    /// Bytes were fed to the server of a raw connection.
    RawMoved {
        /// How many.
        moved: usize,
        /// Why the server closed, if it did so now.
        closed: Option<ServerCause>,
    },
    /// These bytes were taken away.
    Bytes(Vec<u8>),
}
