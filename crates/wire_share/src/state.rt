//! The clients and the connections to the server.

ghost use Rattle.std.specs.Prelude.{◌≡◌, ℕ, Some, nat_eq};
ghost use Rattle.std.proofs.Props.{props};
ghost use Rattle.indexmap.specs.IndexMap.{IsUnique, get};
ghost use Rattle.wire_share.specs.declared.server.Server.{Server};

use crate::client::Client;
use crate::routes::Routes;
use crate::server::Server;
use indexmap::IndexMap;
use std::alloc::Global;

/// The clients and the connections to the server, by their numbers, and where cursors and
/// transactions live. Contracts see of it the record `CoreSeen`, by `core_seen`.
#[derive(Drop)]
pub struct State {
    pub(crate) alloc: Global,
    pub(crate) downs: IndexMap<u64, Client>,
    pub(crate) ups: IndexMap<u64, Server>,
    pub(crate) routes: Routes,
    pub(crate) accepted: u64,
    pub(crate) opened: u64,
    ghost numbers: { (u : ℕ) (y : Server) → get nat_eq ups u ≡ Some y → y.upstream.number ≡ u },
    ghost unique: { IsUnique nat_eq downs } by { Prim.hlevel props },
}
