//! A client of the core.

ghost use Rattle.std.specs.Prelude.{◌≡◌, ◌<◌, IfSome, IsNone, false, length, true};
ghost use Rattle.wire_msg.specs.{Message};
ghost use Rattle.wire_peer.specs.{WaitsAt};
ghost use Rattle.wire_serve.specs.{state_of};
ghost use Rattle.wire_share.specs.Cores.{command_of, hangs_on, is_call_of, need_in};
ghost use Rattle.wire_share.specs.Needs.{begun_by};

use crate::awaited::Awaited;
use crate::downstream::Downstream;
use crate::need::{Need, SessionId, begun_by, command_in, need_of};
use wire_serve::ConnState;

/// The connection of a client, and the connection to the server that it alone uses, if there is
/// one.
#[derive(Drop)]
pub struct Client {
    pub(crate) downstream: Downstream,
    pub(crate) kept: Option<u64>,
}

/// What a request needs, and the session whose transaction begins with it, if one does.
#[derive(Clone, Copy)]
pub struct Wish {
    pub need: Need,
    pub begun: Option<SessionId>,
}

/// Returns true if the call that is awaited is one of this upstream.
fn is_call_of(awaited: Option<Awaited>, upstream: u64) -> bool
    ensures { result ≡ is_call_of upstream awaited }
{
    match awaited {
        Some(call) => call.upstream == upstream,
        None => false,
    }
}

impl Client {
    /// Returns whether the connection is open, or why it closed.
    pub fn state(&self) -> ConnState
        ensures { result ≡ state_of self.now.downstream.conn }
    {
        self.downstream.state()
    }

    /// Returns the bytes that are to be sent.
    pub fn output(&self) -> &[u8]
        ensures { result.now ≡ self.now.downstream.conn.output }
    {
        self.downstream.output()
    }

    /// Returns the call whose reply is awaited, or `None` if none is.
    pub fn awaited(&self) -> Option<Awaited>
        ensures { result ≡ self.now.downstream.awaited }
    {
        self.downstream.awaited()
    }

    /// Returns true if a request waits, passed on or not.
    pub fn asks(&self) -> bool
        ensures yes { result ≡ true → 0 < length self.now.downstream.conn.server.waiting }
        ensures no { result ≡ false → 0 < length self.now.downstream.conn.server.waiting → ⊥ }
    {
        self.downstream.request().is_some()
    }

    /// Returns the number of the connection to the server that it alone uses, if there is one.
    pub fn kept(&self) -> Option<u64>
        ensures { result ≡ self.now.kept }
    {
        self.kept
    }

    /// Returns true if it awaits a reply of this upstream.
    pub(crate) fn hangs_on(&self, upstream: u64) -> bool
        ensures { result ≡ hangs_on upstream self.now }
    {
        is_call_of(self.downstream.awaited(), upstream)
    }

    /// Returns what the request that waits wishes, passed on or not, and `None` if none does.
    pub fn wish(&self) -> Option<Wish>
        ensures none { IsNone result → (m : Message)
            → WaitsAt self.now.downstream.conn.server 0 m → ⊥ }
        ensures need { IfSome result (λ w. (m : Message)
            → WaitsAt self.now.downstream.conn.server 0 m → w.need ≡ need_in m) }
        ensures begun { IfSome result (λ w. (m : Message)
            → WaitsAt self.now.downstream.conn.server 0 m → w.begun ≡ begun_by (command_of m)) }
    {
        let request = self.downstream.request()?;
        let command = command_in(request.payload.body());
        Some(Wish {
            need: need_of(command),
            begun: begun_by(command),
        })
    }
}
