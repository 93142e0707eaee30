//! Accepts clients, and opens connections to the server.

ghost use Rattle.std.specs.Prelude.{◌≡◌, IfOk, None, OnErr, Some, nat_eq, true};
ghost use Rattle.indexmap.specs.IndexMap.{IsUnique, get};
ghost use Rattle.wire_share.specs.declared.client.Client.{Client};
ghost use Rattle.wire_share.specs.Cores.{ClosesDown, CoreDoes, KeepsFor, MayKeep, OpensDown};
ghost use Rattle.wire_share.specs.Cores.{OpensUp, core_seen};

use crate::client::Client;
use crate::downstream::Downstream;
use crate::server::Server;
use crate::state::State;
use crate::upstream::Upstream;
use crate::uses::Use;
use indexmap::IndexMap;
use std::alloc::AllocError;

/// Returns true if the client for which a connection is used alone is there and keeps none, or if
/// it is used otherwise.
fn may_keep(downs: &IndexMap<u64, Client>, used: Use) -> bool
    ensures { result ≡ true → MayKeep used (λ d. get nat_eq downs.now d) }
{
    match used {
        Use::Kept(owner) => match downs.get(&owner) {
            Some(client) => client.kept.is_none(),
            None => false,
        },
        _ => true,
    }
}

/// Has the client keep a connection that is used by it alone.
fn keep(downs: &mut IndexMap<u64, Client>, used: Use, upstream: u64)
    requires { MayKeep used (λ d. get nat_eq downs.old d) }
    ensures kept { KeepsFor used upstream (λ d. get nat_eq downs.old d)
        (λ d. get nat_eq downs.new d) }
    ensures unique { IsUnique nat_eq downs.old → IsUnique nat_eq downs.new }
{
    if let Use::Kept(owner) = used
        && let Some(client) = downs.get_mut(&owner)
    {
        client.kept = Some(upstream);
    }
}

impl State {
    /// Accepts a client, and returns its number.
    ///
    /// # Errors
    ///
    /// Returns `AllocError` if memory or the numbers run out. Nothing changes then.
    pub(crate) fn open_down(&mut self) -> Result<u64, AllocError>
        ensures opened { IfOk result (λ d. CoreDoes (OpensDown d)
            (core_seen self.old) (core_seen self.new)) }
        ensures unchanged { OnErr result (core_seen self.new ≡ core_seen self.old) }
    {
        let Some(number) = self.accepted.checked_add(1) else {
            return Err(AllocError);
        };
        let downstream = Downstream::new(self.alloc, number)?;
        let client = Client {
            downstream,
            kept: None,
        };
        let _ = self.downs.insert(number, client)?;
        self.accepted = number;
        Ok(number)
    }

    /// Opens a connection to the server for this use, and returns its number.
    ///
    /// # Errors
    ///
    /// Returns `AllocError` if memory or the numbers run out, or if the client that is to keep it
    /// isn't there or keeps another one. Nothing changes then.
    pub(crate) fn open_up(&mut self, used: Use) -> Result<u64, AllocError>
        ensures opened { IfOk result (λ u. CoreDoes (OpensUp u used)
            (core_seen self.old) (core_seen self.new)) }
        ensures unchanged { OnErr result (core_seen self.new ≡ core_seen self.old) }
    {
        let Some(number) = self.opened.checked_add(1) else {
            return Err(AllocError);
        };
        if !may_keep(&self.downs, used) {
            return Err(AllocError);
        }
        let upstream = Upstream::new(self.alloc, number);
        let _ = self.ups.insert(number, Server { upstream, used })?;
        keep(&mut self.downs, used, number);
        self.opened = number;
        Ok(number)
    }

    /// Closes a client.
    pub(crate) fn close(&mut self, number: u64)
        ensures { CoreDoes (ClosesDown number) (core_seen self.old) (core_seen self.new) }
    {
        let _ = self.downs.swap_remove(&number);
    }
}
