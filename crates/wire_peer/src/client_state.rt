//! Whether a client is open, and why it was closed or isn't made.

use thiserror::Error;
use wire_msg::MsgFault;

/// Why a client was closed. The first cause stays.
#[derive(Clone, Copy, Debug, PartialEq, Eq, Error)]
pub enum ClientCause {
    /// The bytes begin no message.
    #[error("the bytes are no message: {0}")]
    Message(MsgFault),
    /// No outstanding call bears this responseTo.
    #[error("no outstanding call bears id {0}")]
    UnknownReply(i32),
    /// A reply says that more will come, and its call doesn't allow it.
    #[error("more replies were announced than the call allows")]
    MoreNotAllowed,
    /// A call has had a part, and a message answers neither its request nor that part.
    #[error("a message breaks a stream of replies")]
    StreamBroken,
    /// No more bytes come, and they ended between messages.
    #[error("the bytes ended")]
    Ended,
    /// No more bytes come, and the last ones ended inside a message.
    #[error("the bytes ended inside a message")]
    EndedInside,
}

/// Whether a client is open.
#[derive(Clone, Copy, Debug, PartialEq, Eq)]
pub enum ClientState {
    /// It makes calls and takes bytes.
    Open,
    /// It was closed, and stays so.
    Closed(ClientCause),
}

/// Why a client isn't made.
#[derive(Clone, Copy, Debug, PartialEq, Eq, Error)]
pub enum ClientRefusal {
    /// The first id isn't from 1 to 2,147,483,647.
    #[error("the first id isn't from 1 to 2,147,483,647")]
    BadFirstId,
    /// The window isn't from 1 to 1,024.
    #[error("the window isn't from 1 to 1,024")]
    BadWindow,
    /// The limit isn't from 26 to 48,000,000.
    #[error("the limit isn't from 26 to 48,000,000")]
    BadLimit,
}
