//! Whether connections wait that aren't accepted, and why.

use crate::failure::IoFailure;
use thiserror::Error;

/// Whether a connection may wait at the listener.
#[derive(Clone, Copy, Debug, PartialEq, Eq)]
pub(crate) enum Standing {
    /// One may wait.
    Ready,
    /// None waits, or none is wanted.
    Waits,
    /// Accepting failed, and is tried again after a pause.
    Pauses,
}

/// Why no more connections are accepted for now.
#[derive(Clone, Copy, Debug, PartialEq, Eq, Error)]
pub enum WaitReason {
    /// As many connections are open as may be.
    #[error("accepting waits: as many connections are open as may be")]
    Room,
    /// Accepting one failed, or the system had no open file or memory left for it.
    #[error("accepting waits: {0}")]
    Failed(IoFailure),
}

/// Whether connections may wait that aren't accepted for now.
#[derive(Clone, Copy, Debug, PartialEq, Eq)]
pub(crate) enum Backlog {
    /// None waits.
    None,
    /// They may, for this reason, which wasn't told yet.
    Untold(WaitReason),
    /// They may, and why was told.
    Told,
}
