//! Says whether a server connection is open, and why it closed.

use thiserror::Error;
use wire_peer::ServerCause;
use wire_query::QueryFault;

/// Why a server connection closed.
#[derive(Clone, Copy, Debug, PartialEq, Eq, Error)]
pub enum CloseCause {
    /// The server closed, for this cause.
    #[error("{0}")]
    Server(ServerCause),
    /// The bytes that came are no query of a command. The fault's offset is counted from the first
    /// byte behind the last request.
    #[error("the bytes are no query: {0}")]
    Query(QueryFault),
    /// The bytes ended inside a header or a query.
    #[error("the bytes ended inside a header or a query")]
    EndedInside,
    /// The answer to a query isn't a body alone, as that of an OP_REPLY is.
    #[error("the answer to a query isn't a body alone")]
    NotAlone,
    /// The OP_REPLY would have more than 48,000,000 bytes.
    #[error("a reply is too large")]
    ReplyTooLarge,
    /// Memory ran out for the OP_REPLY.
    #[error("out of memory")]
    NoMemory,
}

/// Whether a server connection is open.
#[derive(Clone, Copy, Debug, PartialEq, Eq)]
pub enum ConnState {
    /// It takes bytes and answers requests.
    Open,
    /// It does neither, for this cause.
    Closed(CloseCause),
}
