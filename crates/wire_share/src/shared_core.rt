//! The core of a proxy that shares connections: the clients, the connections to the server, and
//! over which of those each request goes. It has no sockets and no clock.

ghost use Rattle.std.specs.Prelude.{List};
ghost use Rattle.wire_share.specs.Cores.{CoreAct, CoreRun, core_seen, new_core};

use crate::state::State;

/// The clients and the connections to the server, by their numbers, as some acts led to them from
/// the beginning. So all laws of `core_laws` hold of what was done with it.
#[derive(Drop)]
pub struct Core {
    pub(crate) state: State,
    ghost reached: { ∥ ((acts : List CoreAct) × CoreRun new_core acts (core_seen state)) ∥₁ },
}
