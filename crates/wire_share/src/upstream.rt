//! A connection to the server, over which calls of many clients go.

ghost use Rattle.std.specs.Prelude.{◌≡◌, ◌≤◌, IfOk, IfSome, IsOkAnd, MatchResult, OnErr, drop};
ghost use Rattle.std.specs.Prelude.{length, option_map};
ghost use Rattle.wire_msg.specs.{Carries, IsMessage, Message, SpellsMsg};
ghost use Rattle.wire_peer.specs.{IsCallRefusal, IsCalled, MayTake, Takes, called, content_of};
ghost use Rattle.wire_peer.specs.{ended, ready_of, released};
ghost use Rattle.wire_peer.specs.declared.calls.CallNo.{CallNo};
ghost use Rattle.wire_stream.specs.{CompletesHeader};
ghost use Rattle.wire_share.specs.Sharing.{kind_by, new_upstream, of_call, with_client};

use crate::awaited::Awaited;
use std::alloc::Global;
use std::marker::Model;
use wire_msg::MAX_MESSAGE_LEN;
use wire_peer::{CallRefusal, Client, ClientState, MAX_WINDOW, Reply, Request};
use wire_stream::ReadRefusal;

/// A client of the server, over a connection of its own. It reads and writes nothing itself.
/// Contracts see it as the record `UpSeen`.
#[derive(Drop)]
pub struct Upstream {
    number: u64,
    client: Client,
}

impl Model for Upstream {
    ghost use Rattle.wire_share.specs.Sharing.{UpSeen};

    ghost Value = { UpSeen };

    ghost view = { λ s. record { number = s.number; client = s.client } };
}

impl Upstream {
    /// Makes the upstream of this number, which no other one has. Up to 1,024 calls may be
    /// outstanding, of messages of up to 48,000,000 bytes. It takes no memory.
    pub fn new(alloc: Global, number: u64) -> Upstream
        ensures { result ≡ new_upstream number }
    {
        match Client::new(alloc, 1, MAX_WINDOW, MAX_MESSAGE_LEN) {
            Ok(client) => Upstream { number, client },
            Err(_) => unreachable!(),
        }
    }

    /// Returns the number of the upstream.
    pub fn number(&self) -> u64
        ensures { result ≡ self.now.number }
    {
        self.number
    }

    /// Returns whether the client is open, or why it closed.
    pub fn state(&self) -> ClientState
        ensures { result ≡ self.now.client.state }
    {
        self.client.state()
    }

    /// Returns how many calls await a reply.
    pub fn outstanding(&self) -> usize
        ensures { result ≡ length self.now.client.requests.outstanding }
    {
        self.client.outstanding()
    }

    /// Returns the bytes that are to be sent.
    pub fn output(&self) -> &[u8]
        ensures { result.now ≡ self.now.client.requests.output }
    {
        self.client.output()
    }

    /// Drops the first `n` of the bytes that are to be sent, which were sent.
    pub fn sent(&mut self, n: usize)
        requires { n ≤ length self.old.client.requests.output }
        ensures { self.new ≡ with_client self.old (record (self.old.client) {
          requests = record (self.old.client.requests)
              { output = drop n self.old.client.requests.output };
        }) }
    {
        self.client.sent(n);
    }

    /// Takes the first bytes of `piece`, and returns how many, as `Client::feed` does: none while a
    /// reply is ready or the client is closed.
    ///
    /// # Errors
    ///
    /// Returns `OutOfMemory` if memory runs out for a message. Nothing is taken then.
    pub fn feed(&mut self, piece: &[u8]) -> Result<usize, ReadRefusal>
        ensures fed { MayTake self.old.client
            → IfOk result (λ n. Takes self.old.client piece.now n self.new.client) }
        ensures none { (MayTake self.old.client → ⊥)
            → IsOkAnd result (λ n. n ≡ 0) × (self.new ≡ self.old) }
        ensures number { self.new.number ≡ self.old.number }
        ensures refused { OnErr result (CompletesHeader
            self.old.client.requests.limit self.old.client.held piece.now) }
        ensures unchanged { OnErr result (self.new ≡ self.old) }
    {
        self.client.feed(piece)
    }

    /// Lends the reply that is ready, and `None` where none is.
    pub fn reply(&self) -> Option<Reply<'_>>
        ensures ready { option_map ready_of result ≡ self.now.client.reply }
        ensures message { IfSome result
            (λ r. IsMessage self.now.client.requests.limit self.now.client.held) }
        ensures payload { IfSome result (λ r. (m : Message) → SpellsMsg m self.now.client.held
            → Carries r.payload m.content) }
    {
        self.client.reply()
    }

    /// Lets go of the reply that is ready, so that more bytes are taken. Where none is, nothing
    /// changes.
    pub fn release(&mut self)
        ensures { self.new ≡ with_client self.old (released self.old.client) }
    {
        self.client.release();
    }

    /// Tells the upstream that no more bytes come, which closes it, if it is open.
    pub fn end(&mut self)
        ensures { self.new ≡ with_client self.old (ended self.old.client) }
    {
        self.client.end();
    }

    /// Makes a call of the request: one that has a reply, if one is wanted.
    ///
    /// # Errors
    ///
    /// As `Client::call`. Nothing changes then.
    pub(crate) fn call(&mut self, request: Request<'_>) -> Result<Awaited, CallRefusal>
        ensures called { MatchResult result
            (λ awaited. (call : CallNo) × (awaited ≡ of_call self.old call)
            × IsCalled self.old.client (kind_by request.entry.more_to_come)
            (content_of request.entry.payload) call
            × (self.new ≡ with_client self.old (called self.old.client
            (kind_by request.entry.more_to_come) (content_of request.entry.payload) call)))
            (λ e. IsCallRefusal self.old.client (kind_by request.entry.more_to_come)
            (content_of request.entry.payload) e) }
        ensures unchanged { OnErr result (self.new ≡ self.old) }
    {
        let call = if request.more_to_come {
            self.client.send_unacknowledged(request.payload)?
        } else {
            self.client.call(request.payload)?
        };
        Ok(Awaited {
            upstream: self.number,
            call: call.number,
        })
    }
}
