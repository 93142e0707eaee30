//! Over which connection a request may go.

ghost use Rattle.std.specs.Prelude.{◌≡◌, IfSome, IsNone, Some, false, true};
ghost use Rattle.wire_msg.specs.{Message};
ghost use Rattle.wire_share.specs.Routing.{found};
ghost use Rattle.wire_share.specs.Cores.{IsPlace, IsPlaced, core_seen};
ghost use Rattle.wire_share.specs.Placing.{MayServe, home, if_serves, is_home, serves};
ghost use Rattle.wire_share.specs.Refusing.{AsksFor};

use crate::client::Wish;
use crate::need::Need;
use crate::state::State;
use crate::uses::Use;

/// Over which connection a request goes.
#[derive(Clone, Copy)]
pub enum Place {
    /// The one of this number.
    At(u64),
    /// A new one, used so.
    New(Use),
    /// None: it may go over the one of this number alone, which is gone.
    Gone(u64),
}

/// Returns how a new connection is used for a request of this client.
fn use_for(wish: Wish, client: u64) -> Use
    ensures { serves wish.need client result ≡ true }
{
    match wish.need {
        Need::Own => Use::Once,
        Need::Kept => Use::Kept(client),
        Need::Transaction(_) if wish.begun.is_some() => Use::Transaction(client),
        Need::Any | Need::Cursor(_) | Need::Transaction(_) => Use::Shared,
    }
}

/// Returns true if this connection is the one where a request has to go, or there is none such.
fn is_home(home: Option<u64>, upstream: u64) -> bool
    ensures { result ≡ is_home home upstream }
{
    match home {
        Some(number) => number == upstream,
        None => true,
    }
}

impl State {
    /// Returns the connection that was found, if it is there and serves.
    fn if_serves(&self, need: Need, client: u64, found: Option<u64>) -> Option<u64>
        ensures { result ≡ if_serves (core_seen self.now).ups need client found }
    {
        let upstream = found?;
        match self.ups.get(&upstream) {
            Some(server) if server.used.serves(need, client) => Some(upstream),
            _ => None,
        }
    }

    /// Returns the one connection over which a request goes, if there is one.
    fn home(&self, need: Need, begins: bool, client: u64, kept: Option<u64>) -> Option<u64>
        ensures { result ≡ home (core_seen self.now).ups need begins client kept
            (found (core_seen self.now).routes need) }
    {
        match kept {
            Some(number) => Some(number),
            None if begins => None,
            None => self.if_serves(need, client, self.routes.find(need)),
        }
    }

    /// Returns true if the request of this client that waits may go over this connection, and false
    /// if none waits.
    pub(crate) fn may_go(&self, number: u64, upstream: u64) -> bool
        ensures yes { result ≡ true → (m : Message) → AsksFor (core_seen self.now) number m
            → IsPlaced (core_seen self.now) number upstream m }
        ensures no { result ≡ false → (m : Message) → AsksFor (core_seen self.now) number m
            → IsPlaced (core_seen self.now) number upstream m → ⊥ }
    {
        let Some(client) = self.downs.get(&number) else {
            return false;
        };
        let Some(server) = self.ups.get(&upstream) else {
            return false;
        };
        let Some(wish) = client.wish() else {
            return false;
        };
        let begins = wish.begun.is_some();
        server.used.serves(wish.need, number)
            && is_home(self.home(wish.need, begins, number, client.kept), upstream)
    }

    /// Returns where the request is to go that has no home: over this shared connection, if it may,
    /// or else over a new one.
    fn free_place(&self, wish: Wish, number: u64, shared: Option<u64>) -> Place
        ensures { MayServe (core_seen self.now).ups wish.need number result }
    {
        let used = use_for(wish, number);
        if used != Use::Shared {
            return Place::New(used);
        }
        match self.if_serves(wish.need, number, shared) {
            Some(upstream) => Place::At(upstream),
            None => Place::New(used),
        }
    }

    /// Returns over which connection the request of this client goes that waits, and `None` if none
    /// does. One that has no home goes over `shared`, if it may.
    pub(crate) fn place(&self, number: u64, shared: Option<u64>) -> Option<Place>
        ensures none { IsNone result → (m : Message) → AsksFor (core_seen self.now) number m → ⊥ }
        ensures place { IfSome result (λ place. (m : Message)
            → AsksFor (core_seen self.now) number m
            → IsPlace (core_seen self.now) number m place) }
    {
        let Some(client) = self.downs.get(&number) else {
            return None;
        };
        let Some(wish) = client.wish() else {
            return None;
        };
        let begins = wish.begun.is_some();
        let Some(upstream) = self.home(wish.need, begins, number, client.kept) else {
            return Some(self.free_place(wish, number, shared));
        };
        if self.may_go(number, upstream) {
            return Some(Place::At(upstream));
        }
        Some(Place::Gone(upstream))
    }
}
