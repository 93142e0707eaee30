//! Moves the bytes of connections to the server.

ghost use Rattle.std.specs.Prelude.{◌≡◌, ◌≤◌, IfOk, OnErr, Some, false, length, take, true};
ghost use Rattle.bson_elem.specs.{IsBytes};
ghost use Rattle.wire_msg.specs.{Message, SpellsMsg};
ghost use Rattle.wire_peer.specs.{MayTake, Takes};
ghost use Rattle.wire_peer.specs.declared.call_table.ReadyReply.{ReadyReply};
ghost use Rattle.wire_share.specs.Acts.{EndsUp, LetsGo, SendsUp, TakesUp};
ghost use Rattle.wire_share.specs.declared.server.Server.{Server};
ghost use Rattle.wire_share.specs.Cores.{CoreDoes, Ran, Shares, core_seen};

use crate::state::State;
use crate::upstream::Upstream;
use wire_peer::ClientState;
use wire_stream::ReadRefusal;

/// Returns true if bytes are taken: the connection is open, and no reply is ready.
fn may_take(upstream: &Upstream) -> bool
    ensures yes { result ≡ true → MayTake upstream.now.client }
    ensures no { result ≡ false → MayTake upstream.now.client → ⊥ }
{
    upstream.reply().is_none() && upstream.state() == ClientState::Open
}

/// Feeds a piece to a connection that takes bytes, and returns how many it took.
fn feed(upstream: &mut Upstream, piece: &[u8]) -> Result<usize, ReadRefusal>
    requires { MayTake upstream.old.client }
    ensures bytes { IsBytes piece.now }
    ensures takes { IfOk result (λ n. Takes upstream.old.client piece.now n upstream.new.client) }
    ensures number { upstream.new.number ≡ upstream.old.number }
    ensures unchanged { OnErr result (upstream.new ≡ upstream.old) }
{
    upstream.feed(piece)
}

impl State {
    /// Has this connection take the first bytes of `piece`, and returns how many: none if it isn't
    /// there, has a reply ready, or is closed.
    ///
    /// # Errors
    ///
    /// Returns `OutOfMemory` if memory runs out. Nothing is taken then.
    pub(crate) fn take_up(&mut self, upstream: u64, piece: &[u8]) -> Result<usize, ReadRefusal>
        ensures run { Ran (core_seen self.old) (core_seen self.new) }
        ensures taken { (y : Server) → (core_seen self.old).ups upstream ≡ Some y
            → MayTake y.upstream.client
            → IfOk result (λ n. CoreDoes (Shares (TakesUp upstream (take n piece.now)))
            (core_seen self.old) (core_seen self.new)) }
    {
        let Some(server) = self.ups.get_mut(&upstream) else {
            return Ok(0);
        };
        if !may_take(&server.upstream) {
            return Ok(0);
        }
        feed(&mut server.upstream, piece)
    }

    /// Drops the first `n` of the bytes that are to be sent over this connection, which were sent, if
    /// there are as many.
    pub(crate) fn sent_up(&mut self, upstream: u64, n: usize)
        ensures run { Ran (core_seen self.old) (core_seen self.new) }
        ensures sent { (y : Server) → (core_seen self.old).ups upstream ≡ Some y
            → n ≤ length y.upstream.client.requests.output
            → CoreDoes (Shares (SendsUp upstream (take n y.upstream.client.requests.output)))
            (core_seen self.old) (core_seen self.new) }
    {
        let Some(server) = self.ups.get_mut(&upstream) else {
            return;
        };
        if n > server.upstream.output().len() {
            return;
        }
        server.upstream.sent(n);
    }

    /// Tells this connection that no more bytes come, if it is there.
    pub(crate) fn end_up(&mut self, upstream: u64)
        ensures run { Ran (core_seen self.old) (core_seen self.new) }
        ensures ended { (y : Server) → (core_seen self.old).ups upstream ≡ Some y
            → CoreDoes (Shares (EndsUp upstream)) (core_seen self.old) (core_seen self.new) }
    {
        let Some(server) = self.ups.get_mut(&upstream) else {
            return;
        };
        server.upstream.end();
    }

    /// Lets go of the reply that this connection has ready, if it has one.
    pub(crate) fn release(&mut self, upstream: u64)
        ensures run { Ran (core_seen self.old) (core_seen self.new) }
        ensures released { (y : Server) (reply : ReadyReply) (m : Message)
            → (core_seen self.old).ups upstream ≡ Some y → y.upstream.client.reply ≡ Some reply
            → SpellsMsg m y.upstream.client.held
            → CoreDoes (Shares (LetsGo upstream reply m))
            (core_seen self.old) (core_seen self.new) }
    {
        let Some(server) = self.ups.get_mut(&upstream) else {
            return;
        };
        if server.upstream.reply().is_none() {
            return;
        }
        server.upstream.release();
    }
}
