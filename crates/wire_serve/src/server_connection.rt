//! The server's side of one connection: a server, before which queries and their replies are
//! respelled.

ghost use Rattle.std.specs.Prelude.{◌≡◌, ◌≢◌, ◌≤◌, ◌<◌, ◌↔◌, ◌⊎◌, [], Ok, IfOk, IfSome, IsSome};
ghost use Rattle.std.specs.Prelude.{OnErr, drop, false, length, take, true};
ghost use Rattle.wire_msg.specs.{IsOpen, Message};
ghost use Rattle.wire_peer.specs.{WaitsAt, asked, asked_by, log_of};
ghost use Rattle.wire_stream.specs.{CompletesHeader};
ghost use Rattle.wire_serve.specs.ServerConnections.{ConnAnswers, ConnTakes, HasLeft, IsReady};
ghost use Rattle.wire_serve.specs.ServerConnections.{RespellsReply, ended_conn, new_conn, state_of};

use crate::cause::{CloseCause, ConnState};
use crate::passing::{Passed, gather};
use crate::respelling::respelled;
use std::alloc::{AllocError, Global};
use std::marker::Model;
use wire_msg::MAX_MESSAGE_LEN;
use wire_peer::{AnswerRefusal, Handler, Logged, Request, Server, ServerState};
use wire_stream::ReadRefusal;

/// A server of one connection that also takes queries of commands. It reads and writes nothing
/// itself. Contracts see it as the record `ConnView`.
#[derive(Drop)]
pub struct ServerConnection {
    alloc: Global,
    server: Server,
    /// The bytes that were taken and not passed on.
    part: Vec<u8>,
    /// What the server was fed last came as a query.
    queried: bool,
    reply: Vec<u8>,
    /// The number of bytes of the reply that were sent.
    gone: usize,
    cause: Option<CloseCause>,
}

impl Model for ServerConnection {
    ghost use Rattle.wire_serve.specs.ServerConnections.{ConnView};
    ghost use Rattle.wire_serve.specs.Kept.{AreKept, view_of};

    ghost Value = { ConnView };

    ghost view = { λ s. view_of s.server s.part.items s.queried s.reply.items s.gone s.cause };

    ghost invariant = { λ s. AreKept s.server s.part.items s.reply.items s.gone s.cause };
}

impl ServerConnection {
    /// Makes the server's side of the connection of this number, which takes messages of up to
    /// 48,000,000 bytes.
    ///
    /// # Errors
    ///
    /// Returns `AllocError` if memory runs out.
    pub fn new(alloc: Global, connection: u64) -> Result<ServerConnection, AllocError>
        ensures { IfOk result (λ conn. conn ≡ new_conn connection) }
    {
        let Ok(server) = Server::new(alloc, connection, 1, MAX_MESSAGE_LEN) else {
            return Err(AllocError);
        };
        Ok(ServerConnection {
            alloc,
            server,
            part: Vec::new(alloc),
            queried: false,
            reply: Vec::new(alloc),
            gone: 0,
            cause: None,
        })
    }

    /// Returns the number of the connection.
    pub fn connection(&self) -> u64
        ensures { result ≡ self.now.server.connection }
    {
        self.server.connection()
    }

    /// Returns whether the server connection is open, or why it closed.
    pub fn state(&self) -> ConnState
        ensures { result ≡ state_of self.now }
    {
        match (self.cause, self.server.state()) {
            (Some(cause), _) => ConnState::Closed(cause),
            (None, ServerState::Closed(cause)) => ConnState::Closed(CloseCause::Server(cause)),
            (None, ServerState::Open) => ConnState::Open,
        }
    }

    /// Returns how many requests wait, at most one.
    pub fn waiting(&self) -> usize
        ensures count { result ≡ length self.now.server.waiting }
        ensures window { self.now.server.window ≡ 1 }
    {
        self.server.waiting()
    }

    /// Returns the request that waits, or `None` if none does.
    pub fn request(&self) -> Option<Request<'_>>
        ensures found { IsSome result ↔ (0 < length self.now.server.waiting) }
        ensures shown { IfSome result (λ r. (m : Message) × WaitsAt self.now.server 0 m
            × (asked r ≡ asked_by m)) }
    {
        if self.server.waiting() == 0 {
            return None;
        }
        self.server.request(0)
    }

    /// Returns the bytes that are to be sent.
    pub fn output(&self) -> &[u8]
        ensures { result.now ≡ self.now.output }
    {
        if self.gone < self.reply.len() {
            &self.reply[self.gone..]
        } else {
            self.server.output()
        }
    }

    /// Returns true if the server connection takes bytes: it is open, no request waits, and all
    /// that was put out was sent.
    pub fn is_ready(&self) -> bool
        ensures yes { result ≡ true → IsReady self.now }
        ensures no { result ≡ false → IsReady self.now → ⊥ }
        ensures inside { result ≡ true → IsOpen self.now.server.limit self.now.server.held }
    {
        self.cause.is_none()
            && self.server.state() == ServerState::Open
            && self.server.waiting() == 0
            && self.output().is_empty()
    }

    /// Takes the first bytes of `piece`, and returns how many: none if the server connection isn't
    /// ready. A request that is whole then waits, and bytes with a fault close the server
    /// connection.
    ///
    /// # Errors
    ///
    /// Returns `OutOfMemory` if memory runs out for a message or a query, which it doesn't inside a
    /// message whose header was taken before. Nothing is taken then.
    pub fn feed(&mut self, piece: &[u8]) -> Result<usize, ReadRefusal>
        ensures busy { (IsReady self.old → ⊥) → (result ≡ Ok 0) × (self.new ≡ self.old) }
        ensures within { IfOk result (λ n. n ≤ length piece.now) }
        ensures taken { IsReady self.old
            → IfOk result (λ n. ConnTakes self.old (take n piece.now) self.new) }
        ensures some { IsReady self.old → 0 < length piece.now → IfOk result (λ n. 0 < n) }
        ensures refused { OnErr result ((self.old.server.held ≡ [])
            ⊎ CompletesHeader self.old.server.limit self.old.server.held piece.now) }
        ensures unchanged { OnErr result (self.new ≡ self.old) }
    {
        if !self.is_ready() {
            return Ok(0);
        }
        if self.server.is_inside() {
            let n = self.server.feed(piece)?;
            self.queried = false;
            return Ok(n);
        }
        let (n, passed) = gather(self.alloc, piece, &mut self.part, &mut self.server)?;
        match passed {
            Passed::Nothing => {}
            Passed::Header => {
                self.part.clear();
                self.queried = false;
            }
            Passed::Query => {
                self.part.clear();
                self.queried = true;
            }
            Passed::Refused(fault) => self.cause = Some(CloseCause::Query(fault)),
        }
        Ok(n)
    }

    /// Puts these bytes out in the place of those that are to be sent.
    fn put(&mut self, reply: Vec<u8>)
        ensures { self.new ≡ record self.old { output = reply.items } }
    {
        let all = self.server.output().len();
        self.server.sent(all);
        self.reply = reply;
        self.gone = 0;
    }

    /// Puts the OP_REPLY of what is to be sent in its place, or closes.
    fn respell(&mut self)
        ensures { RespellsReply self.old self.new }
    {
        match respelled(self.alloc, self.output()) {
            Ok(reply) => self.put(reply),
            Err(cause) => {
                self.put(Vec::new(self.alloc));
                self.cause = Some(cause);
            }
        }
    }

    /// Answers the first request that waits, by the handler of `logged`, and puts the reply out.
    /// Returns the number of its entry. All that was put out before was sent.
    ///
    /// # Errors
    ///
    /// As `Server::answer`. If a query has no OP_REPLY, its entry stands and the server connection
    /// is closed.
    pub fn answer<H: Handler>(&mut self, logged: &mut Logged<H>) -> Result<usize, AnswerRefusal>
        requires { self.old.output ≡ [] }
        ensures answers { ConnAnswers H.does H.stops result
            self.old logged.old.handler (log_of logged.old.entries.items)
            self.new logged.new.handler (log_of logged.new.entries.items) }
        ensures unchanged { (HasLeft result → ⊥) → self.new ≡ self.old }
    {
        match self.server.answer(0, logged) {
            Ok(entry) => {
                if self.queried {
                    self.respell();
                }
                Ok(entry)
            }
            Err(refusal) => Err(refusal),
        }
    }

    /// Drops the first `n` of the bytes that are to be sent, which were sent.
    pub fn sent(&mut self, n: usize)
        requires { n ≤ length self.old.output }
        ensures { self.new ≡ record self.old { output = drop n self.old.output } }
    {
        if self.gone < self.reply.len() {
            self.gone += n;
        } else {
            self.server.sent(n);
        }
    }

    /// Tells the server connection that no more bytes come, so that it closes. A closed one stays
    /// as it is.
    pub fn end(&mut self)
        ensures { self.new ≡ ended_conn self.old }
    {
        if self.state() != ConnState::Open {
            return;
        }
        if self.part.is_empty() {
            self.server.end();
        } else {
            self.cause = Some(CloseCause::EndedInside);
        }
    }
}
