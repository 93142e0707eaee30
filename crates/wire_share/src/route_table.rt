//! Which connection to the server each of many names stands for.

ghost use Rattle.std.specs.Prelude.{◌≡◌, [], OnErr, OnOk, nat_eq, not};
ghost use Rattle.std.specs.Map.{lookup, remove_entry};
ghost use Rattle.wire_share.specs.Routing.{made_room, noted, off};

use indexmap::IndexMap;
use std::alloc::{AllocError, Global};
use std::hash::Hash;
use std::marker::Model;

/// The most entries of a table.
pub const MAX_ROUTES: usize = 65_536;

/// The numbers of upstreams by names, the oldest first, at most 65,536 of them. Contracts see the
/// list of names and numbers.
#[derive(Drop)]
pub(crate) struct RouteTable<K: Eq + Hash> {
    upstreams: IndexMap<K, u64>,
}

impl<K: Eq + Hash> Model for RouteTable<K> {
    ghost use Rattle.std.specs.Prelude.{List, ℕ, ◌≤◌, length};

    ghost Value = { List (K × ℕ) };

    ghost view = { λ s. s.upstreams.entries };

    ghost invariant = { λ s. length s.upstreams.entries ≤ 65536 };
}

impl<K: Eq + Hash + Copy + Drop> RouteTable<K> {
    /// Makes an empty table. It takes no memory.
    pub(crate) fn new(alloc: Global) -> RouteTable<K>
        ensures { result ≡ [] }
    {
        RouteTable {
            upstreams: IndexMap::new(alloc),
        }
    }

    /// Returns the number of the upstream that a name stands for, if it stands for one.
    pub(crate) fn get(&self, name: K) -> Option<u64>
        ensures { result ≡ lookup (K.eq name) self.now }
    {
        self.upstreams.get(&name).copied()
    }

    /// Notes that a name stands for this upstream from now on. If the name is new and there are
    /// 65,536 others, the oldest one goes.
    ///
    /// # Errors
    ///
    /// Returns `AllocError` if memory runs out. Nothing changes then, except that the oldest may be
    /// gone.
    pub(crate) fn note(&mut self, name: K, upstream: u64) -> Result<(), AllocError>
        ensures noted { OnOk result (self.new ≡ noted K.eq name upstream self.old) }
        ensures room { OnErr result (self.new ≡ made_room K.eq name self.old) }
    {
        if self.upstreams.len() >= MAX_ROUTES && !self.upstreams.contains_key(&name) {
            drop(self.upstreams.shift_remove_index(0));
        }
        self.upstreams.insert(name, upstream)?;
        Ok(())
    }

    /// Forgets what a name stands for.
    pub(crate) fn forget(&mut self, name: K)
        ensures { self.new ≡ remove_entry (K.eq name) self.old }
    {
        self.upstreams.shift_remove(&name);
    }

    /// Forgets the names that stand for this upstream.
    pub(crate) fn forget_upstream(&mut self, upstream: u64)
        ensures { self.new ≡ off upstream self.old }
    {
        self.upstreams.retain(
            |_name: &K, other: &mut u64| -> bool
                ensures { (result ≡ not (nat_eq other.old upstream)) × (other.new ≡ other.old) }
            { *other != upstream },
        );
    }
}
