//! Names what a turn came to, and why no connection is opened.

use crate::cause::CloseCause;
use thiserror::Error;
use wire_stream::LinkFault;

/// Why a connection is over.
#[derive(Clone, Copy, Debug, PartialEq, Eq, Error)]
pub enum Leave {
    /// The server connection closed, for this cause.
    #[error("{0}")]
    Closed(CloseCause),
    /// The link failed.
    #[error("{0}")]
    Link(LinkFault),
    /// The allocator refused memory. Nothing is lost, and another turn may be taken.
    #[error("out of memory")]
    OutOfMemory,
}

/// What a turn came to.
#[derive(Clone, Copy, Debug, PartialEq, Eq)]
pub enum Turned {
    /// All steps were taken, and there may be more to do.
    Again,
    /// There is nothing to do until the link has bytes, or takes some.
    Waits,
    /// The connection is over, for this reason.
    Over(Leave),
}

/// Why a connection isn't opened.
#[derive(Clone, Copy, Debug, PartialEq, Eq, Error)]
pub enum OpenRefusal {
    /// Connections had all numbers up to 2^64 - 2.
    #[error("all numbers of connections are spent")]
    NumbersSpent,
    /// The allocator refused memory.
    #[error("out of memory")]
    OutOfMemory,
}
