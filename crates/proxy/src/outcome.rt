//! What a turn of a pair of connections came to.

ghost use Rattle.std.specs.Prelude.{◌≡◌, ◌↔◌, IfErr, IfOk, IsTrue};
ghost use Rattle.std.specs.IoError.{error_kind};
ghost use Rattle.proxy.specs.Steering.{comes_to};
ghost use Rattle.proxy.specs.Turning.{LacksMemory, cut_way, failed_by, or_again, outcome_of};

use crate::direction::Direction;
use crate::ending::{Ending, Side};
use crate::fate::Fate;
use sockets::{RelayFault, Turned};
use std::io;
use std::io::ErrorKind;

/// What a turn came to.
#[derive(Clone, Copy)]
pub enum Outcome {
    /// There may be more to do.
    Again,
    /// There is nothing to do until a connection has bytes, or takes some.
    Waits,
    /// A request is held for so many milliseconds, and there may be more to do.
    Held(u64),
    /// Both connections are over.
    Over(Ending),
}

/// Returns true if memory ran out for what a link holds.
fn wants_memory(fault: RelayFault) -> bool
    ensures { IsTrue result ↔ (failed_by fault ≡ ErrorKind.OutOfMemory) }
{
    match fault {
        RelayFault::Receiving(fault) | RelayFault::Sending(fault) => {
            matches!(fault.kind, ErrorKind::OutOfMemory)
        }
    }
}

/// Returns how a connection was cut on this way, if no more than so many bytes may go there, and
/// the sending on it was ended.
pub(crate) fn cut_way(has_ended: bool, direction: Direction, count: Option<u64>) -> Option<Ending>
    ensures { result ≡ cut_way has_ended direction count }
{
    match count {
        Some(count) if has_ended => Some(Ending::Cut(direction, count)),
        _ => None,
    }
}

impl Outcome {
    /// Returns what steps came to, if the connection was cut so, or not, and this is the side whose
    /// link failed, once one did.
    pub(crate) fn of(cut: Option<Ending>, side: Side, turned: Result<Turned, RelayFault>) -> Outcome
        ensures { result ≡ outcome_of cut side turned }
    {
        if let Some(ending) = cut {
            return Outcome::Over(ending);
        }
        match turned {
            Ok(Turned::Again) => Outcome::Again,
            Ok(Turned::Waits) => Outcome::Waits,
            Ok(Turned::Over) => Outcome::Over(Ending::Ended),
            Err(fault) => Outcome::Over(Ending::Failed(side, fault)),
        }
    }

    /// Returns what a turn comes to by what becomes of the request with this id, if it is over
    /// then.
    pub(crate) fn of_fate(id: i32, fate: &Fate) -> Option<Outcome>
        ensures { result ≡ comes_to id fate.now }
    {
        match fate {
            Fate::Delay(millis) => Some(Outcome::Held(*millis)),
            Fate::HangUp => Some(Outcome::Over(Ending::HungUp(id))),
            Fate::Pass(_) | Fate::CutUp(_) | Fate::Reply(_) => None,
        }
    }

    /// Returns `Again` if there is more to do, and else the same.
    pub(crate) fn or_again(self, more: bool) -> Outcome
        ensures { result ≡ or_again self more }
    {
        if more { Outcome::Again } else { self }
    }

    /// Returns the same, if no link failed since memory ran out.
    pub(crate) fn with_memory(self) -> io::Result<Outcome>
        ensures ok { IfOk result (λ o. (o ≡ self) × (LacksMemory self → ⊥)) }
        ensures err { IfErr result (λ e. (error_kind e ≡ ErrorKind.OutOfMemory)
            × LacksMemory self) }
    {
        match self {
            Outcome::Over(Ending::Failed(_, fault)) if wants_memory(fault) => {
                Err(io::Error::from(ErrorKind::OutOfMemory))
            }
            outcome => Ok(outcome),
        }
    }
}
