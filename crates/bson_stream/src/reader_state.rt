//! Names the states of a reader, what it did with a piece, and why it took nothing.

use bson_elem::BsonFault;
use thiserror::Error;

/// The state of a reader.
#[derive(Clone, Copy, Debug, PartialEq, Eq)]
pub enum ReaderState {
    /// More bytes are needed: the held ones end inside a length, or before the end that a good
    /// length announces.
    Need,
    /// The held bytes are a document. `canonical` says whether it is in canonical form.
    Ready { canonical: bool },
    /// No document begins with the held bytes. The fault's offset is counted from the first byte of
    /// the stream.
    Bad(BsonFault),
}

/// What a reader took of a piece, and its state after that.
#[derive(Clone, Copy, Debug, PartialEq, Eq)]
pub struct Fed {
    /// The number of bytes that were taken from the front of the piece.
    pub taken: usize,
    /// The state after them.
    pub state: ReaderState,
}

/// Why a reader took nothing.
#[derive(Clone, Copy, Debug, PartialEq, Eq, Error)]
pub enum ReadRefusal {
    /// There was no memory for the bytes of the current document.
    #[error("out of memory")]
    OutOfMemory,
    /// A good length is above the reader's limit.
    #[error("the document is longer than the limit")]
    TooLong,
    /// The stream would have more bytes than an offset counts.
    #[error("the stream is longer than an offset counts")]
    TooFar,
}
