//! The connection of a client, whose requests are passed on.

ghost use Rattle.std.specs.Prelude.{◌≡◌, ◌≢◌, ◌≤◌, ◌<◌, ◌↔◌, ◌⊎◌, [], Ok, IfErr, IfOk, IfSome};
ghost use Rattle.std.specs.Prelude.{IsNone, IsSome, OnErr, OnOk, Some, drop, false, length};
ghost use Rattle.std.specs.Prelude.{take, true};
ghost use Rattle.wire_msg.specs.{Message};
ghost use Rattle.wire_peer.specs.{WaitsAt, asked, asked_by, content_of, ready_of};
ghost use Rattle.wire_peer.specs.declared.call_table.ReadyReply.{ReadyReply};
ghost use Rattle.wire_peer.specs.declared.echoing.Echo.{Echo};
ghost use Rattle.wire_stream.specs.{CompletesHeader};
ghost use Rattle.wire_serve.specs.{ConnTakes, HasLeft, IsReady, ended_conn, state_of};
ghost use Rattle.wire_share.specs.Sharing.{Awaits, GiveStep, IsGiven, Leaves, PassStep, Waits};
ghost use Rattle.wire_share.specs.Sharing.{echoes, new_downstream};

use crate::awaited::Awaited;
use crate::refusals::{GiveRefusal, PassRefusal};
use crate::relayed::Relayed;
use crate::upstream::Upstream;
use std::alloc::{AllocError, Global};
use std::marker::Model;
use wire_msg::Payload;
use wire_peer::{AnswerRefusal, Echo, Logged, Reply, Request};
use wire_serve::{ConnState, ServerConnection};
use wire_stream::ReadRefusal;

/// The server's side of one connection, and the call that its request was passed on as. It reads
/// and writes nothing itself. Contracts see it as the record `DownSeen`.
#[derive(Drop)]
pub struct Downstream {
    alloc: Global,
    conn: ServerConnection,
    awaited: Option<Awaited>,
}

impl Model for Downstream {
    ghost use Rattle.wire_share.specs.Kept.{AreKept};
    ghost use Rattle.wire_share.specs.Sharing.{DownSeen};

    ghost Value = { DownSeen };

    ghost view = { λ s. record { conn = s.conn; awaited = s.awaited } };

    ghost invariant = { λ s. AreKept s.conn s.awaited };
}

/// Returns true if the request waits no more that was answered with this result.
fn has_left(answered: Result<usize, AnswerRefusal>) -> bool
    ensures yes { result ≡ true → HasLeft answered }
    ensures no { result ≡ false → HasLeft answered → ⊥ }
{
    matches!(answered, Ok(_) | Err(AnswerRefusal::NowClosed(_)))
}

/// Lets go of the request that waits and wants no reply. Returns false if memory runs out. Nothing
/// changes then.
fn let_go(alloc: Global, conn: &mut ServerConnection) -> bool
    requires { conn.old.output ≡ [] }
    ensures done { result ≡ true → (h : Echo) × Leaves echoes h conn.old conn.new }
    ensures not_done { result ≡ false → conn.new ≡ conn.old }
{
    let mut logged = Logged::new(alloc, Echo);
    has_left(conn.answer(&mut logged))
}

/// Answers the request that waits with this payload. It leaves the server connection, or closes it.
///
/// # Errors
///
/// Returns `OutOfMemory` if memory runs out. Nothing changes then.
fn give(alloc: Global, conn: &mut ServerConnection, payload: Payload<'_>) -> Result<(), GiveRefusal>
    requires { conn.old.output ≡ [] }
    ensures given { OnOk result (IsGiven (content_of payload.entry) conn.old conn.new) }
    ensures refused { IfErr result (λ refusal. refusal ≡ GiveRefusal.OutOfMemory) }
    ensures unchanged { OnErr result (conn.new ≡ conn.old) }
{
    let mut logged = Logged::new(alloc, Relayed { payload });
    if has_left(conn.answer(&mut logged)) {
        Ok(())
    } else {
        Err(GiveRefusal::OutOfMemory)
    }
}

impl Downstream {
    /// Makes the downstream of the connection of this number.
    ///
    /// # Errors
    ///
    /// Returns `AllocError` if memory runs out.
    pub fn new(alloc: Global, connection: u64) -> Result<Downstream, AllocError>
        ensures { IfOk result (λ d. d ≡ new_downstream connection) }
    {
        let conn = ServerConnection::new(alloc, connection)?;
        Ok(Downstream {
            alloc,
            conn,
            awaited: None,
        })
    }

    /// Returns the number of the connection.
    pub fn connection(&self) -> u64
        ensures { result ≡ self.now.conn.server.connection }
    {
        self.conn.connection()
    }

    /// Returns whether the server connection is open, or why it closed.
    pub fn state(&self) -> ConnState
        ensures { result ≡ state_of self.now.conn }
    {
        self.conn.state()
    }

    /// Returns the call whose reply is awaited, or `None` if none is.
    pub fn awaited(&self) -> Option<Awaited>
        ensures { result ≡ self.now.awaited }
    {
        self.awaited
    }

    /// Returns the request that waits, passed on or not, or `None` if none does.
    pub fn request(&self) -> Option<Request<'_>>
        ensures found { IsSome result ↔ (0 < length self.now.conn.server.waiting) }
        ensures shown { IfSome result (λ r. (m : Message) × WaitsAt self.now.conn.server 0 m
            × (asked r ≡ asked_by m)) }
    {
        self.conn.request()
    }

    /// Returns the bytes that are to be sent.
    pub fn output(&self) -> &[u8]
        ensures { result.now ≡ self.now.conn.output }
    {
        self.conn.output()
    }

    /// Drops the first `n` of the bytes that are to be sent, which were sent.
    pub fn sent(&mut self, n: usize)
        requires { n ≤ length self.old.conn.output }
        ensures { self.new ≡ record self.old
            { conn = record (self.old.conn) { output = drop n self.old.conn.output } } }
    {
        self.conn.sent(n);
    }

    /// Returns true if bytes are taken: the server connection is open, no request waits, and all
    /// that was put out was sent.
    pub fn is_ready(&self) -> bool
        ensures yes { result ≡ true → IsReady self.now.conn }
        ensures no { result ≡ false → IsReady self.now.conn → ⊥ }
    {
        self.conn.is_ready()
    }

    /// Takes the first bytes of `piece`, and returns how many, as `ServerConnection::feed` does:
    /// none if it isn't ready. A request that is whole then waits, and bytes with a fault close the
    /// server connection.
    ///
    /// # Errors
    ///
    /// Returns `OutOfMemory` if memory runs out for a message or a query, which it doesn't inside a
    /// message whose header was taken before. Nothing is taken then.
    pub fn feed(&mut self, piece: &[u8]) -> Result<usize, ReadRefusal>
        ensures busy { (IsReady self.old.conn → ⊥) → (result ≡ Ok 0) × (self.new ≡ self.old) }
        ensures within { IfOk result (λ n. n ≤ length piece.now) }
        ensures taken { IsReady self.old.conn
            → IfOk result (λ n. ConnTakes self.old.conn (take n piece.now) self.new.conn) }
        ensures some { IsReady self.old.conn → 0 < length piece.now
            → IfOk result (λ n. 0 < n) }
        ensures awaited { self.new.awaited ≡ self.old.awaited }
        ensures refused { OnErr result ((self.old.conn.server.held ≡ []) ⊎ CompletesHeader
            self.old.conn.server.limit self.old.conn.server.held piece.now) }
        ensures unchanged { OnErr result (self.new ≡ self.old) }
    {
        self.conn.feed(piece)
    }

    /// Tells the downstream that no more bytes come, so that it closes. A closed one stays as it is.
    pub fn end(&mut self)
        ensures { self.new ≡ record self.old { conn = ended_conn self.old.conn } }
    {
        self.conn.end();
    }

    /// Returns the request that waits and wasn't passed on, where all that was put out was sent.
    fn unpassed(&self) -> Option<Request<'_>>
        ensures none { IsNone result → (m : Message) → Waits self.now m → ⊥ }
        ensures some { IfSome result (λ r. (m : Message) × Waits self.now m
            × (asked r ≡ asked_by m)) }
    {
        if self.awaited.is_some()
            || self.conn.state() != ConnState::Open
            || !self.conn.output().is_empty()
        {
            return None;
        }
        self.request()
    }

    /// Passes the request that waits on as a call of `upstream`, whose reply is awaited from now
    /// on. A request that wants no reply goes as an unacknowledged call, and waits no more; where
    /// memory runs out for its answer, which isn't sent, the downstream is closed.
    ///
    /// # Errors
    ///
    /// Returns `NothingWaits` if no request waits, the one that does was passed on, bytes are yet to
    /// be sent or the downstream is closed, and else `Call` if the upstream refuses the call.
    /// Nothing changes then. Returns `OutOfMemory` if a request that wants no reply was passed on,
    /// and still waits, since memory ran out before it was let go of.
    pub fn pass_on(&mut self, upstream: &mut Upstream) -> Result<(), PassRefusal>
        ensures { PassStep result self.old upstream.old self.new upstream.new }
    {
        let Some(request) = self.unpassed() else {
            return Err(PassRefusal::NothingWaits);
        };
        let wants_none = request.more_to_come;
        let call = match upstream.call(request) {
            Ok(call) => call,
            Err(refusal) => return Err(PassRefusal::Call(refusal)),
        };
        if !wants_none {
            self.awaited = Some(call);
            return Ok(());
        }
        if let_go(self.alloc, &mut self.conn) {
            return Ok(());
        }
        self.awaited = Some(call);
        Err(PassRefusal::OutOfMemory)
    }

    /// Returns true if this reply of `upstream` is the one that is awaited, the only one of its
    /// call.
    pub(crate) fn awaits(&self, upstream: &Upstream, reply: Reply<'_>) -> bool
        requires { Some (ready_of reply) ≡ upstream.now.client.reply }
        ensures yes { result ≡ true → Awaits self.now upstream.now (ready_of reply.entry) }
        ensures no { result ≡ false → (other : ReadyReply) → Awaits self.now upstream.now other
            → ⊥ }
    {
        let call = Awaited {
            upstream: upstream.number(),
            call: reply.call,
        };
        reply.last && self.awaited == Some(call)
    }

    /// Answers the request whose reply is awaited with the reply that `upstream` has ready, and
    /// lets go of that. An answer that is too large, or for which there is no memory, closes the
    /// server connection.
    ///
    /// # Errors
    ///
    /// Returns `NotAwaited` if the upstream has no reply ready, or another one than is awaited;
    /// `Closed` if the downstream is closed; and `OutOfMemory` if memory runs out. Nothing changes
    /// then.
    pub fn answer(&mut self, upstream: &mut Upstream) -> Result<(), GiveRefusal>
        ensures { GiveStep result self.old upstream.old self.new upstream.new }
    {
        let Some(reply) = upstream.reply() else {
            return Err(GiveRefusal::NotAwaited);
        };
        if !self.awaits(upstream, reply) {
            return Err(GiveRefusal::NotAwaited);
        }
        if self.conn.state() != ConnState::Open {
            return Err(GiveRefusal::Closed);
        }
        give(self.alloc, &mut self.conn, reply.payload)?;
        self.awaited = None;
        upstream.release();
        Ok(())
    }
}
