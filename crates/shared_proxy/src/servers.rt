//! The connections to the server, by their numbers.

ghost use Rattle.std.specs.Prelude.{◌≡◌, ◌⊎◌, ◌≤◌, ◌++◌, ◌∷◌, [], IfSome, IsNone, None, OnOk, Some};
ghost use Rattle.std.specs.Prelude.{if◌then◌else◌, length, nat_eq, not};
ghost use Rattle.indexmap.specs.IndexMap.{Updates, get};
ghost use Rattle.shared_proxy.specs.Queues.{AreGone, IsLeastBusy, load_in, without};

use crate::line::Line;
use crate::server::{Server, is_full};
use indexmap::IndexMap;
use std::alloc::{AllocError, Global};
use wire_share::Core;

/// A connection for which requests wait is busier than any number of calls makes one.
const FULL: usize = 1 << 16;

/// The connections that all clients share.
#[derive(Drop)]
struct Shared {
    numbers: Vec<u64>,
    /// The most of them.
    most: usize,
}

/// The connections to the server, by the numbers that they have in the core.
#[derive(Drop)]
pub struct Servers {
    alloc: Global,
    pub map: IndexMap<u64, Server>,
    shared: Shared,
}

impl Servers {
    /// Begins without connections. At most `most` of them are shared. It takes no memory.
    pub fn new(alloc: Global, most: usize) -> Servers
        ensures none { result.map.entries ≡ [] }
        ensures shared { result.shared.numbers.items ≡ [] }
        ensures most { result.shared.most ≡ most }
    {
        Servers {
            alloc,
            map: IndexMap::new(alloc),
            shared: Shared {
                numbers: Vec::new(alloc),
                most,
            },
        }
    }

    /// Returns how busy a connection is: how many calls await a reply over it; or, if it is full or
    /// requests wait for it, more than that, and how many do.
    fn load(&self, core: &Core, number: u64) -> usize
        ensures { result ≡ load_in self.now core.now number }
    {
        match self.map.get(&number) {
            Some(server) if is_full(core, number) || !server.blocked.is_empty() => {
                FULL.saturating_add(server.blocked.len())
            }
            Some(_) => match core.server(number) {
                Some(server) => server.outstanding(),
                None => usize::MAX,
            },
            None => usize::MAX,
        }
    }

    /// Returns the shared connection that is the least busy, if there is one.
    pub fn least_busy(&self, core: &Core) -> Option<u64>
        ensures least { IfSome result (λ upstream. IsLeastBusy (load_in self.now core.now)
            self.now.shared.numbers.items upstream) }
        ensures none { IsNone result
            → AreGone (load_in self.now core.now) self.now.shared.numbers.items }
    {
        let mut found = None;
        let mut least = usize::MAX;
        for number in self.shared.numbers.iter() {
            let load = self.load(core, *number);
            if load < least {
                least = load;
                found = Some(*number);
            }
        }
        found
    }

    /// Returns over which shared connection a request goes: one without calls for which no request
    /// has to wait, else none, which stands for a new one, if there may be one more, and else the
    /// least busy one.
    pub fn place_shared(&self, core: &Core) -> Option<u64>
        ensures least { IfSome result (λ upstream. IsLeastBusy (load_in self.now core.now)
            self.now.shared.numbers.items upstream) }
        ensures idle { IfSome result (λ upstream.
            (self.now.shared.most ≤ length self.now.shared.numbers.items)
            ⊎ (load_in self.now core.now upstream ≡ 0)) }
        ensures none { IsNone result → self.now.shared.most ≤ length self.now.shared.numbers.items
            → AreGone (load_in self.now core.now) self.now.shared.numbers.items }
    {
        let number = self.least_busy(core)?;
        if self.shared.numbers.len() >= self.shared.most || self.load(core, number) == 0 {
            Some(number)
        } else {
            None
        }
    }

    /// Adds the connection of this number, which is shared if `is_shared` is true.
    ///
    /// # Errors
    ///
    /// Returns `AllocError` if memory runs out.
    pub fn open(&mut self, number: u64, line: Line, is_shared: bool) -> Result<(), AllocError>
        ensures there { OnOk result ((s : Server) × (s.line ≡ line) × (s.callers.entries ≡ [])
            × (s.blocked.items ≡ [])
            × Updates nat_eq self.old.map self.new.map number (Some s)) }
        ensures shared { OnOk result (self.new.shared.numbers.items
            ≡ (if is_shared then self.old.shared.numbers.items ++ number ∷ []
            else self.old.shared.numbers.items)) }
        ensures most { self.new.shared.most ≡ self.old.shared.most }
    {
        let server = Server::new(self.alloc, line);
        let _ = self.map.insert(number, server)?;
        if is_shared {
            self.shared.numbers.push(number)?;
        }
        Ok(())
    }

    /// Closes a connection, and returns it.
    pub fn close(&mut self, number: u64) -> Option<Server>
        ensures was { result ≡ get nat_eq self.old.map number }
        ensures gone { Updates nat_eq self.old.map self.new.map number None }
        ensures shared { self.new.shared.numbers.items
            ≡ without number self.old.shared.numbers.items }
        ensures most { self.new.shared.most ≡ self.old.shared.most }
    {
        let server = self.map.swap_remove(&number);
        self.shared.numbers.retain(
            |other: &u64| -> bool
                ensures { result ≡ not (nat_eq other.now number) }
            { *other != number },
        );
        server
    }
}
