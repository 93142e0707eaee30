//! The laws of the core. The contract of each function is the law.

ghost use Rattle.std.specs.Prelude.{List};
ghost use Rattle.wire_share.specs.Cores.{CoreAct, CoreRun, CoreSeen, new_core};
ghost use Rattle.wire_share.specs.Core_laws.{AuthenticatedAlone, GoesThere, IsKept, LawfulRun};
ghost use Rattle.wire_share.specs.Core_laws.{Routed, Told, Unmixed, shared_in};

use crate::laws::answers_are_never_mixed;

/// Proves that a connection over which a client authenticates is that client's alone, whatever is
/// done with the core.
pub fn authenticated_alone()
    ensures { (acts : List CoreAct) (now : CoreSeen) → CoreRun new_core acts now
        → AuthenticatedAlone (shared_in acts) }
{}

/// Proves that no client awaits a reply of a connection that was lost, and that what the core keeps
/// stays, whatever is done with it.
pub fn told()
    ensures kept { (acts : List CoreAct) (now : CoreSeen) → CoreRun new_core acts now → IsKept now }
    ensures told { (acts : List CoreAct) (now : CoreSeen) → CoreRun new_core acts now
        → Told acts now }
{}

/// Proves that answers are never mixed, whatever is done with the core: what was done at each end is
/// a run of wire_share's acts, so that its laws hold.
pub fn unmixed()
    ensures { (acts : List CoreAct) (now : CoreSeen) → CoreRun new_core acts now
        → Unmixed (shared_in acts) now }
{
    answers_are_never_mixed();
}

/// Proves that each request goes where it may, and so over the connection where the routes say that
/// its cursor or its transaction lives, whatever is done with the core.
pub fn routed()
    ensures routed { (acts : List CoreAct) (now : CoreSeen) → CoreRun new_core acts now
        → Routed acts }
    ensures there { GoesThere }
{}

/// Proves all laws at once.
pub fn lawful()
    ensures { (acts : List CoreAct) (now : CoreSeen) → CoreRun new_core acts now → LawfulRun now }
{
    unmixed();
}
