//! A server's end: a server and its link.

ghost use Rattle.std.specs.Prelude.{◌≡◌, ◌≢◌, ◌↔◌, ◌<◌, ◌∷◌, ◌++◌, [], ℕ, List, Ok, IfOk, IfSome};
ghost use Rattle.std.specs.Prelude.{IsSome, OnErr, OnOk, length};
ghost use Rattle.std.specs.Io.KnownBytes.{Keeps};
ghost use Rattle.wire_msg.specs.{Message};
ghost use Rattle.wire_peer.specs.{WaitsAt, asked, asked_by};
ghost use Rattle.wire_peer.specs.declared.server_state.ServerState.TheVariants.{Closed};
ghost use Rattle.wire_model.specs.{ServerAct, bytes_taken_up};
ghost use Rattle.wire_model.specs.Owners.{Answers, EndsUp, SendsDown};
ghost use Rattle.wire_stream.specs.{AddsTurns, FlushesLater, Rose, Turn};
ghost use Rattle.wire_end.specs.NextRequests.{RequestComes, RequestFails, RequestLater};
ghost use Rattle.wire_end.specs.ServerEnds.{ServerEndMoves, ServerEndRuns, new_server_end};
ghost use Rattle.wire_end.specs.Turns.{AreBetween};

use crate::next::{NextRequest, RequestFault};
use crate::requesting::{end, receive_request};
use std::alloc::{AllocError, Global};
use std::marker::Model;
use wire_peer::{AnswerRefusal, Handler, Logged, Request, Server, ServerCause, ServerState};
use wire_stream::{Flushed, Inlet, Link, LinkFault, flush};

/// A server and its link. Contracts see it as the record `ServerEndSeen`.
///
/// Requests wait until they are answered, in any order. A reply is put out at once and sent by
/// `flush`, so that many replies go in one piece.
#[derive(Drop)]
pub struct ServerEnd<L> {
    server: Server,
    link: L,
    inlet: Inlet,
}

impl<L> Model for ServerEnd<L> {
    ghost use Rattle.wire_end.specs.ServerEnds.{ServerEndSeen};

    ghost Value = { ServerEndSeen L };

    ghost view = { λ s. record { server = s.server; link = s.link; inlet = s.inlet } };
}

impl<L: Link + Drop> ServerEnd<L> {
    /// Makes the end of `server` at `link`. Takes memory for one piece of bytes.
    ///
    /// # Errors
    ///
    /// Returns `AllocError` if memory runs out. The server and the link are dropped then.
    pub fn new(alloc: Global, server: Server, link: L) -> Result<ServerEnd<L>, AllocError>
        ensures { IfOk result (λ end. end ≡ new_server_end server link) }
    {
        let inlet = Inlet::new(alloc)?;
        Ok(ServerEnd {
            server,
            link,
            inlet,
        })
    }

    /// Receives until one more request waits than before. What was put out must be sent by `flush`
    /// before, where the other end waits for it.
    ///
    /// # Errors
    ///
    /// Returns `Closed` if no more requests come: the link ended, what came is no message, or the
    /// server was closed before. Returns `Link` if the link failed, and `OutOfMemory` if memory
    /// runs out for a message.
    pub fn next_request(&mut self) -> Result<NextRequest, RequestFault>
        ensures comes { (acts : List ServerAct)
            × ServerEndMoves L.sent L.received self.old acts self.new
            × RequestComes L.ends result (self.old.server.held ++ bytes_taken_up acts) self.old
            self.new }
        ensures sent { Keeps (L.sent self.old.link) (L.sent self.new.link) }
        ensures turns { (ts : List Turn)
            × AddsTurns (L.turns self.old.link) (L.turns self.new.link) ts
            × AreBetween self.old.server.limit (L.received self.old.link) (L.sent self.old.link)
            (self.old.server.held ++ self.old.inlet) ts }
        ensures later { RequestLater result (L.waits self.old.link) (L.waits self.new.link) }
        ensures fails { RequestFails result (L.failures self.old.link) (L.failures self.new.link) }
    {
        if let ServerState::Closed(cause) = self.server.state() {
            return Err(RequestFault::Closed(cause));
        }
        if self.server.is_full() {
            return Ok(NextRequest::Full);
        }
        receive_request(&mut self.link, &mut self.inlet, &mut self.server)
    }

    /// Returns how many requests wait.
    pub fn waiting(&self) -> usize
        ensures { result ≡ length self.now.server.waiting }
    {
        self.server.waiting()
    }

    /// Returns the `k`-th request that waits, counted from 0, or `None` if no more than `k` wait.
    pub fn request(&self, k: usize) -> Option<Request<'_>>
        ensures found { IsSome result ↔ (k < length self.now.server.waiting) }
        ensures shown { (m : Message) → WaitsAt self.now.server k m
            → IfSome result (λ r. asked r ≡ asked_by m) }
    {
        self.server.request(k)
    }

    /// Answers the `k`-th request that waits, counted from 0, by the handler of `logged`. Its
    /// replies are put out. Returns the number of its entry.
    ///
    /// # Errors
    ///
    /// As `Server::answer`: `Closed`, `NoSuchRequest` and `OutOfMemory` change nothing, and by
    /// `NowClosed` the entry stands, no reply is put out, and the server is closed.
    pub fn answer<H: Handler>(
        &mut self,
        k: usize,
        logged: &mut Logged<H>,
    ) -> Result<usize, AnswerRefusal>
        ensures ran { ServerEndRuns H.does H.stops L.sent L.received self.old logged.old
            (Answers k result ∷ []) self.new logged.new }
        ensures link { self.new.link ≡ self.old.link }
        ensures inlet { self.new.inlet ≡ self.old.inlet }
    {
        self.server.answer(k, logged)
    }

    /// Sends the replies that were put out: all of them, or as many bytes as the link takes now.
    ///
    /// # Errors
    ///
    /// Returns `LinkFault` if the link failed. What wasn't sent yet still waits.
    pub fn flush(&mut self) -> Result<Flushed, LinkFault>
        ensures ran { (gone : List ℕ)
            × ServerEndMoves L.sent L.received self.old (SendsDown gone ∷ []) self.new }
        ensures inlet { self.new.inlet ≡ self.old.inlet }
        ensures all { result ≡ Ok Flushed.All → self.new.server.output ≡ [] }
        ensures later { result ≡ Ok Flushed.Later → self.new.server.output ≢ [] }
        ensures waits { FlushesLater result (L.waits self.old.link) (L.waits self.new.link) }
        ensures received { Keeps (L.received self.old.link) (L.received self.new.link) }
        ensures turns { AddsTurns (L.turns self.old.link) (L.turns self.new.link) [] }
        ensures ends { L.ends self.new.link ≡ L.ends self.old.link }
        ensures works { OnOk result (L.failures self.new.link ≡ L.failures self.old.link) }
        ensures fails { OnErr result (Rose (L.failures self.old.link) (L.failures self.new.link)) }
    {
        flush(&mut self.link, &mut self.server)
    }

    /// Gives the connection up: tells the server that no more bytes come. It answers no request
    /// any more. Returns the cause for which it is closed, the first one if there were more.
    pub fn end(&mut self) -> ServerCause
        ensures ran { ServerEndMoves L.sent L.received self.old (EndsUp ∷ []) self.new }
        ensures closed { self.new.server.state ≡ Closed result }
        ensures link { self.new.link ≡ self.old.link }
        ensures inlet { self.new.inlet ≡ self.old.inlet }
    {
        end(&mut self.server)
    }

    /// Returns whether the server is open, or why it was closed.
    pub fn state(&self) -> ServerState
        ensures { result ≡ self.now.server.state }
    {
        self.server.state()
    }

    /// Returns the link.
    pub fn link(&self) -> &L
        ensures { result.now ≡ self.now.link }
    {
        &self.link
    }
}
