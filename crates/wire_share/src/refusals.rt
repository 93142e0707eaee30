//! Why a request isn't passed on, and why none is answered.

use thiserror::Error;
use wire_peer::CallRefusal;

/// Why a request isn't passed on.
#[derive(Clone, Copy, Debug, PartialEq, Eq, Error)]
pub enum PassRefusal {
    /// No request waits, the one that does was passed on before, bytes are yet to be sent, or the
    /// downstream is closed.
    #[error("no request waits")]
    NothingWaits,
    /// The upstream refuses the call.
    #[error("{0}")]
    Call(CallRefusal),
    /// The request wants no reply and was passed on, and the allocator refused memory for letting go
    /// of it. Nothing more comes of the downstream.
    #[error("out of memory")]
    OutOfMemory,
}

/// Why no request is answered.
#[derive(Clone, Copy, Debug, PartialEq, Eq, Error)]
pub enum GiveRefusal {
    /// The upstream has no reply ready, or the downstream awaits another one.
    #[error("the reply isn't awaited")]
    NotAwaited,
    /// The downstream is closed.
    #[error("the downstream is closed")]
    Closed,
    /// The allocator refused memory. The reply is still ready.
    #[error("out of memory")]
    OutOfMemory,
}
