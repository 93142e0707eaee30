//! What is seen of a core, and over which connection a request of it goes.

ghost use Rattle.std.specs.Prelude.{◌≡◌, IfSome, IsNone, None, Some, false, true};
ghost use Rattle.std.specs.List.{list_any};
ghost use Rattle.indexmap.specs.IndexMap.{values};
ghost use Rattle.wire_msg.specs.{Message};
ghost use Rattle.wire_stream.specs.{Rose};
ghost use Rattle.wire_share.specs.Cores.{IsPlace, IsPlaced, core_seen};
ghost use Rattle.wire_share.specs.Placing.{IsDone, is_of, is_transaction, owner_of};
ghost use Rattle.wire_share.specs.Refusing.{AsksFor};
ghost use Rattle.wire_share.specs.Routing.{found};
ghost use Rattle.wire_share.specs.Running.{has_output, output_over, output_to, seen};
ghost use Rattle.wire_share.specs.declared.client.Client.{Client};
ghost use Rattle.wire_share.specs.declared.server.Server.{Server};

use crate::client::Client;
use crate::need::Need;
use crate::placing::Place;
use crate::server::Server;
use crate::shared_core::Core;
use crate::uses::Use;

impl Core {
    /// Returns the client of this number, if it is there.
    pub fn client(&self, number: u64) -> Option<&Client>
        ensures there { IfSome result (λ x. (core_seen self.now.state).downs number ≡ Some x.now) }
        ensures none { IsNone result → (core_seen self.now.state).downs number ≡ None }
    {
        self.state.downs.get(&number)
    }

    /// Returns the connection to the server of this number, if it is there.
    pub fn server(&self, upstream: u64) -> Option<&Server>
        ensures there { IfSome result (λ y. (core_seen self.now.state).ups upstream ≡ Some y.now) }
        ensures none { IsNone result → (core_seen self.now.state).ups upstream ≡ None }
    {
        self.state.ups.get(&upstream)
    }

    /// Lends the bytes that are to be sent to this client: none if it isn't there.
    pub fn output(&self, number: u64) -> &[u8]
        ensures { result.now ≡ output_to ((seen self.now).downs number) }
    {
        match self.state.downs.get(&number) {
            Some(client) => client.downstream.output(),
            None => &[],
        }
    }

    /// Lends the bytes that are to be sent over this connection: none if it isn't there.
    pub fn server_output(&self, upstream: u64) -> &[u8]
        ensures { result.now ≡ output_over ((seen self.now).ups upstream) }
    {
        match self.state.ups.get(&upstream) {
            Some(server) => server.upstream.output(),
            None => &[],
        }
    }

    /// Returns true if bytes are to be sent over a connection to the server.
    pub fn has_output(&self) -> bool
        ensures { result ≡ list_any has_output (values self.now.state.ups) }
    {
        self.state.ups.values().any(
            |server: &Server| -> bool
                ensures { result ≡ has_output server.now }
            { !server.output().is_empty() },
        )
    }

    /// Returns the number that the next client has.
    pub fn next_client(&self) -> u64
        ensures { Rose (core_seen self.now.state).accepted result }
    {
        self.state.accepted.saturating_add(1)
    }

    /// Returns the number that the next connection to the server has.
    pub fn next_server(&self) -> u64
        ensures { Rose (core_seen self.now.state).opened result }
    {
        self.state.opened.saturating_add(1)
    }

    /// Returns the number of the connection where what this need is for lives, if it is known.
    pub fn find(&self, need: Need) -> Option<u64>
        ensures { result ≡ found (core_seen self.now.state).routes need }
    {
        self.state.routes.find(need)
    }

    /// Returns over which connection the request of this client goes that waits, and `None` if none
    /// does. One that has no home goes over `shared`, if it may.
    pub fn place(&self, number: u64, shared: Option<u64>) -> Option<Place>
        ensures none { IsNone result → (m : Message)
            → AsksFor (core_seen self.now.state) number m → ⊥ }
        ensures place { IfSome result (λ place. (m : Message)
            → AsksFor (core_seen self.now.state) number m
            → IsPlace (core_seen self.now.state) number m place) }
    {
        self.state.place(number, shared)
    }

    /// Returns true if the request of this client that waits may go over this connection, and false
    /// if none waits.
    pub fn may_go(&self, number: u64, upstream: u64) -> bool
        ensures yes { result ≡ true → (m : Message) → AsksFor (core_seen self.now.state) number m
            → IsPlaced (core_seen self.now.state) number upstream m }
        ensures no { result ≡ false → (m : Message) → AsksFor (core_seen self.now.state) number m
            → IsPlaced (core_seen self.now.state) number upstream m → ⊥ }
    {
        self.state.may_go(number, upstream)
    }

    /// Returns the client that alone uses this connection, if it is there and one does.
    pub fn owner(&self, upstream: u64) -> Option<u64>
        ensures { result ≡ owner_of ((core_seen self.now.state).ups upstream) }
    {
        match self.state.ups.get(&upstream) {
            Some(server) => match server.used {
                Use::Kept(owner) => Some(owner),
                _ => None,
            },
            None => None,
        }
    }

    /// Returns a connection that only this client uses, or that is for a transaction that it began, if
    /// there is one.
    pub fn used_by(&self, client: u64) -> Option<u64>
        ensures { IfSome result (λ u. (y : Server)
            × ((core_seen self.now.state).ups u ≡ Some y) × (is_of client y.used ≡ true)) }
    {
        let mut found = None;
        for (number, server) in self.state.ups.iter() {
            if server.used.is_of(client) {
                found = Some(*number);
            }
        }
        let upstream = found?;
        match self.state.ups.get(&upstream) {
            Some(server) if server.used.is_of(client) => Some(upstream),
            _ => None,
        }
    }

    /// Returns true if this connection is there, and is for a transaction.
    pub fn has_transaction(&self, upstream: u64) -> bool
        ensures { result ≡ true → (y : Server)
            × ((core_seen self.now.state).ups upstream ≡ Some y)
            × (is_transaction y.used ≡ true) }
    {
        match self.state.ups.get(&upstream) {
            Some(server) => server.used.is_transaction(),
            None => false,
        }
    }

    /// Returns the connection of the session's earlier transaction, if the request of this client
    /// begins another, and there is one.
    pub fn earlier(&self, number: u64) -> Option<u64>
        ensures { IfSome result (λ u. (y : Server)
            × ((core_seen self.now.state).ups u ≡ Some y) × (is_transaction y.used ≡ true)) }
    {
        let session = self.state.downs.get(&number)?.wish()?.begun?;
        let upstream = self.state.routes.find(Need::Transaction(session))?;
        if self.has_transaction(upstream) {
            Some(upstream)
        } else {
            None
        }
    }

    /// Returns true if this connection is there, nobody uses it any more, and the calls over it are
    /// over.
    pub fn is_done(&self, upstream: u64) -> bool
        ensures { result ≡ true → (y : Server)
            × ((core_seen self.now.state).ups upstream ≡ Some y) × IsDone y }
    {
        match self.state.ups.get(&upstream) {
            Some(server) => server.is_done(),
            None => false,
        }
    }
}
