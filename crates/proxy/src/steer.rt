//! What is done with a message that is held.

ghost use Rattle.std.specs.Prelude.{◌≡◌};
ghost use Rattle.proxy.specs.Steering.{flow_steer, kept_of, sent_of, steer_of};

use crate::fate::Fate;
use script_rules::Flow;

/// What is done with a message that is held.
#[derive(Clone, Copy)]
pub(crate) enum Steer {
    /// It is held on, or its connection is closed.
    Stay,
    /// It is given.
    Pass,
    /// At most so many of its first bytes are given, and then the end is told.
    Cut(u64),
    /// None of its bytes is given.
    Skip,
}

impl Steer {
    /// Returns what is done with a request of which this becomes.
    pub(crate) fn of_fate(fate: &Fate) -> Steer
        ensures { result ≡ steer_of fate.now }
    {
        match fate {
            Fate::Pass(_) => Steer::Pass,
            Fate::Delay(_) | Fate::HangUp => Steer::Stay,
            Fate::CutUp(count) => Steer::Cut(*count),
            Fate::Reply(_) => Steer::Skip,
        }
    }

    /// Returns what is done with a reply of whose bytes this becomes.
    pub(crate) fn of_flow(flow: Flow) -> Steer
        ensures { result ≡ flow_steer flow }
    {
        match flow {
            Flow::Whole | Flow::Held(_) => Steer::Pass,
            Flow::Cut(count) => Steer::Cut(count),
            Flow::Dropped => Steer::Skip,
        }
    }

    /// Returns how many bytes of a reply go on at the most.
    pub(crate) fn kept(self) -> u64
        ensures { result ≡ kept_of self }
    {
        match self {
            Steer::Stay | Steer::Pass => u64::MAX,
            Steer::Cut(count) => count,
            Steer::Skip => 0,
        }
    }
}

/// Returns how many bytes of a request go on at the most, if this becomes of it.
pub(crate) fn sent_of(fate: &Fate) -> u64
    ensures { result ≡ sent_of fate.now }
{
    match fate {
        Fate::Pass(_) | Fate::Delay(_) => u64::MAX,
        Fate::HangUp | Fate::Reply(_) => 0,
        Fate::CutUp(count) => *count,
    }
}
