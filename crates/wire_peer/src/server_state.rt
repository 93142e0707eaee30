//! Whether a server is open, why it closed, and why a call of it is refused.

use thiserror::Error;
use wire_msg::MsgFault;

/// Why a server closed. The first cause stays.
#[derive(Clone, Copy, Debug, PartialEq, Eq, Error)]
pub enum ServerCause {
    /// The bytes that came begin no message. The fault's offset is counted from the first byte
    /// behind the last request.
    #[error("the bytes are no message: {0}")]
    Message(MsgFault),
    /// The bytes ended between messages.
    #[error("the bytes ended")]
    Ended,
    /// The bytes ended inside a message.
    #[error("the bytes ended inside a message")]
    EndedInside,
    /// A reply would have more bytes than the limit.
    #[error("a reply is too large")]
    ReplyTooLarge,
    /// The handler stopped because memory ran out, or memory ran out for the replies.
    #[error("out of memory")]
    NoMemory,
    /// The handler failed.
    #[error("the handler failed")]
    HandlerFailed,
}

/// Whether a server is open.
#[derive(Clone, Copy, Debug, PartialEq, Eq)]
pub enum ServerState {
    /// It takes bytes and answers requests.
    Open,
    /// It does neither, for this cause.
    Closed(ServerCause),
}

/// Why no server is made.
#[derive(Clone, Copy, Debug, PartialEq, Eq, Error)]
pub enum ServerRefusal {
    /// The window isn't 1 to 1,024.
    #[error("the window isn't from 1 to 1,024")]
    BadWindow,
    /// The limit isn't 26 to 48,000,000.
    #[error("the limit isn't from 26 to 48,000,000")]
    BadLimit,
    /// Memory ran out for the waiting list.
    #[error("out of memory")]
    OutOfMemory,
}

/// Why a request isn't answered.
#[derive(Clone, Copy, Debug, PartialEq, Eq, Error)]
pub enum AnswerRefusal {
    /// No more than `k` requests wait. Nothing changed.
    #[error("no such request waits")]
    NoSuchRequest,
    /// The server is closed. Nothing changed.
    #[error("the server is closed")]
    Closed,
    /// Memory ran out for the entry. The handler wasn't asked, and nothing changed.
    #[error("out of memory")]
    OutOfMemory,
    /// The server closed in this call, for this cause. The request has its entry and waits no
    /// longer, and none of its replies is put out.
    #[error("the server closed: {0}")]
    NowClosed(ServerCause),
}
