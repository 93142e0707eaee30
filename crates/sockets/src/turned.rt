//! What a turn of a relay came to.

ghost use Rattle.std.specs.Prelude.{◌≡◌};
ghost use Rattle.sockets.specs.RelaySteps.{taken_together};

use thiserror::Error;
use wire_stream::LinkFault;

/// What a turn, or a step of it, came to.
#[derive(Clone, Copy, Debug, PartialEq, Eq)]
pub enum Turned {
    /// All steps were taken, and there may be more to do.
    Again,
    /// There is nothing to do until a link has bytes, or takes some.
    Waits,
    /// All that came was sent, and the ends were passed on.
    Over,
}

impl Turned {
    /// Returns what two steps came to, one on each way.
    pub(crate) fn and(self, other: Turned) -> Turned
        ensures { result ≡ taken_together self other }
    {
        match (self, other) {
            (Turned::Over, Turned::Over) => Turned::Over,
            (Turned::Again, _) | (_, Turned::Again) => Turned::Again,
            _ => Turned::Waits,
        }
    }
}

/// Which link failed.
#[derive(Clone, Copy, Debug, PartialEq, Eq, Error)]
pub enum RelayFault {
    /// The one that bytes come over.
    #[error("receiving: {0}")]
    Receiving(LinkFault),
    /// The one that bytes are sent over.
    #[error("sending: {0}")]
    Sending(LinkFault),
}
