//! Names what comes of waiting for a reply, and of waiting for a request.

use thiserror::Error;
use wire_peer::{ClientCause, ReadyReply, ServerCause};
use wire_stream::LinkFault;

/// What `next_reply` found.
#[derive(Clone, Copy, Debug, PartialEq, Eq)]
pub enum Next {
    /// A reply came, and stands in the record of its call as the last part.
    Reply(ReadyReply),
    /// No whole reply has come yet, and the link has no more bytes now. A link that waits returns
    /// it where its time is limited.
    Later,
}

/// Why there is no next reply.
#[derive(Clone, Copy, Debug, PartialEq, Eq, Error)]
pub enum EndFault {
    /// The link failed. What came before stands, and the calls that await replies are still
    /// pending.
    #[error("{0}")]
    Link(LinkFault),
    /// The client is closed, and no more replies come. The calls that awaited one are lost.
    #[error("the client is closed: {0}")]
    Closed(ClientCause),
    /// The allocator refused memory. Nothing is lost, and the call may be made again.
    #[error("out of memory")]
    OutOfMemory,
}

/// What `next_request` found.
#[derive(Clone, Copy, Debug, PartialEq, Eq)]
pub enum NextRequest {
    /// One more request waits, behind the others.
    Waits,
    /// No whole request has come yet, and the link has no more bytes now. A link that waits returns
    /// it where its time is limited.
    Later,
    /// As many requests wait as may, and nothing was received.
    Full,
}

/// Why there is no next request.
#[derive(Clone, Copy, Debug, PartialEq, Eq, Error)]
pub enum RequestFault {
    /// The link failed. What came before stands.
    #[error("{0}")]
    Link(LinkFault),
    /// The server is closed, and no more requests come. Those that wait still wait, and aren't
    /// answered any more.
    #[error("the server is closed: {0}")]
    Closed(ServerCause),
    /// The allocator refused memory. Nothing is lost, and the call may be made again.
    #[error("out of memory")]
    OutOfMemory,
}
