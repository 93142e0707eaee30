//! Names the states of a reader, and what it did with a piece.

use thiserror::Error;
use wire_msg::MsgFault;

/// The state of a reader.
#[derive(Clone, Copy, Debug, PartialEq, Eq)]
pub enum ReaderState {
    /// The held bytes are the beginning of a message, and more of it is needed.
    Need,
    /// The held bytes are a message.
    Ready,
    /// No message begins with the held bytes. The fault's offset is counted from the first of
    /// them.
    Bad(MsgFault),
}

/// What a reader took of a piece, and its state after that.
#[derive(Clone, Copy, Debug, PartialEq, Eq)]
pub struct Fed {
    /// The number of bytes that were taken from the front of the piece.
    pub taken: usize,
    /// The state after them.
    pub state: ReaderState,
}

/// Why a reader took nothing.
#[derive(Clone, Copy, Debug, PartialEq, Eq, Error)]
pub enum ReadRefusal {
    /// There was no memory for the announced message.
    #[error("out of memory")]
    OutOfMemory,
}

/// Where the bytes end, if no more come.
#[derive(Clone, Copy, Debug, PartialEq, Eq)]
pub enum ReadEnd {
    /// Between messages.
    Ended,
    /// Inside a message.
    EndedInside,
}
