//! A connection of a world: its two ends, and which ways are cut.

ghost use Rattle.std.specs.Prelude.{◌≡◌, ◌≢◌, ◌++◌, ◌∷◌, [], false, IfErr, IfOk, MatchResult};
ghost use Rattle.std.specs.Prelude.{OnErr, length, option_map};
ghost use Rattle.wire_peer.specs.{AnswerStep, IsCallRefusal, IsCalled, called, content_of, log_of};
ghost use Rattle.wire_world.specs.Connections.{is_quiet, is_stopped};
ghost use Rattle.wire_model.specs.{AreGood, answer_reason, cut_both, cut_down, cut_up, is_closed};
ghost use Rattle.wire_model.specs.{is_cut_for, is_empty, is_healthy, new_conn, new_raw_conn};
ghost use Rattle.wire_model.specs.{restarted};

use crate::rooms::make_room;
use std::alloc::{AllocError, Global};
use std::marker::Model;
use wire_model::{Needs, WorldLimits, WorldRefusal};
use wire_msg::Payload;
use wire_peer::{
    AnswerRefusal, CallKind, CallNo, CallRefusal, Client, ClientState, Handler, Logged, Server,
    ServerCause, ServerState,
};

/// A connection. A raw one has no client of ours.
///
/// A contract sees it as the record `Conn`.
#[derive(Drop)]
pub(crate) struct Connection {
    pub(crate) client: Option<Client>,
    pub(crate) server: Server,
    /// For each call of the client, by its number, its index among the world's calls.
    pub(crate) calls: Vec<usize>,
    pub(crate) up_cut: bool,
    pub(crate) down_cut: bool,
}

impl Model for Connection {
    ghost use Rattle.std.specs.Vec.{vec_capacity, vec_len};
    ghost use Rattle.wire_model.specs.{Conn};
    ghost use Rattle.wire_world.specs.Connections.{IsReleased, conn_of};
    ghost use Rattle.wire_world.specs.Rooms.{IsFair};

    ghost Value = { Conn };

    ghost view = { λ s. conn_of s.client s.server s.calls.items s.up_cut s.down_cut };

    ghost invariant = { λ s. record {
      released : IsReleased s.client;
      room : IsFair (vec_len s.calls) (vec_capacity s.calls);
    } };
}

impl Connection {
    /// Returns a connection of this number that has carried nothing.
    pub(crate) fn new(
        alloc: Global,
        limits: WorldLimits,
        number: u64,
    ) -> Result<Connection, AllocError>
        requires { AreGood limits }
        ensures { IfOk result (λ k. k ≡ new_conn limits number) }
    {
        let Ok(server) = Server::new(alloc, number, limits.window, limits.limit) else {
            return Err(AllocError);
        };
        match Client::new(alloc, limits.first_id, limits.window, limits.limit) {
            Ok(client) => Ok(Connection {
                client: Some(client),
                server,
                calls: Vec::new(alloc),
                up_cut: false,
                down_cut: false,
            }),
            Err(_) => unreachable!(),
        }
    }

    /// Returns a raw connection of this number that has carried nothing.
    pub(crate) fn new_raw(
        alloc: Global,
        limits: WorldLimits,
        number: u64,
    ) -> Result<Connection, AllocError>
        requires { AreGood limits }
        ensures { IfOk result (λ k. k ≡ new_raw_conn limits number) }
    {
        match Server::new(alloc, number, limits.window, limits.limit) {
            Ok(server) => Ok(Connection {
                client: None,
                server,
                calls: Vec::new(alloc),
                up_cut: false,
                down_cut: false,
            }),
            Err(_) => Err(AllocError),
        }
    }

    /// Returns true if the connection is raw.
    pub(crate) fn is_raw(&self) -> bool
        ensures { result ≡ self.now.raw }
    {
        self.client.is_none()
    }

    /// Returns true if the client is closed, or was never there.
    pub(crate) fn is_closed(&self) -> bool
        ensures { result ≡ is_closed self.now.client.state }
    {
        match &self.client {
            Some(client) => client.state() != ClientState::Open,
            None => true,
        }
    }

    /// Returns true if the connection may be used again: no way is cut, the client is open, and no
    /// call is outstanding.
    pub(crate) fn is_healthy(&self) -> bool
        ensures { result ≡ is_healthy self.now }
    {
        match &self.client {
            Some(client) => {
                !self.up_cut
                    && !self.down_cut
                    && client.state() == ClientState::Open
                    && client.outstanding() == 0
            }
            None => false,
        }
    }

    /// Returns true if neither way is cut, no answer closed the server, nothing is on the ways, and
    /// no request waits.
    pub(crate) fn is_quiet(&self) -> bool
        ensures { result ≡ is_quiet self.now }
    {
        !self.up_cut
            && !self.down_cut
            && !is_stopped(self.server.state())
            && self.is_up_empty()
            && self.server.output().is_empty()
            && self.server.waiting() == 0
    }

    /// Returns true if the client has nothing to send, or was never there.
    fn is_up_empty(&self) -> bool
        ensures { result ≡ is_empty self.now.client.requests.output }
    {
        match &self.client {
            Some(client) => client.output().is_empty(),
            None => true,
        }
    }

    /// Returns true if a way that `needs` names is cut.
    pub(crate) fn is_cut_for(&self, needs: Needs) -> bool
        ensures { result ≡ is_cut_for needs self.now }
    {
        (needs.up && self.up_cut) || (needs.down && self.down_cut)
    }

    /// Cuts the way up: nothing more moves, and the server is told the end.
    pub(crate) fn cut_up(&mut self)
        ensures { self.new ≡ cut_up self.old }
    {
        self.server.end();
        self.up_cut = true;
    }

    /// Cuts the way down: nothing more moves, and the client is told the end.
    pub(crate) fn cut_down(&mut self)
        ensures { self.new ≡ cut_down self.old }
    {
        if let Some(client) = &mut self.client {
            client.end();
        }
        self.down_cut = true;
    }

    /// Cuts both ways.
    pub(crate) fn cut_both(&mut self)
        ensures { self.new ≡ cut_both self.old }
    {
        self.cut_up();
        self.cut_down();
    }

    /// Cuts the way down, unless it is cut or the connection is raw.
    pub(crate) fn restart(&mut self)
        ensures { self.new ≡ restarted self.old }
    {
        if !self.is_raw() && !self.down_cut {
            self.cut_down();
        }
    }

    /// Makes a call of this kind, which has this index among the world's calls.
    ///
    /// # Errors
    ///
    /// Returns why the client refuses the call, or `OutOfMemory`. Nothing changes then.
    pub(crate) fn call(
        &mut self,
        kind: CallKind,
        payload: Payload<'_>,
        index: usize,
    ) -> Result<CallNo, CallRefusal>
        requires { self.old.raw ≡ false }
        ensures called { IfOk result
            (λ no. IsCalled self.old.client kind (content_of payload.entry) no
            × (self.new ≡ record self.old {
              client = called self.old.client kind (content_of payload.entry) no;
              calls = self.old.calls ++ index ∷ [];
            })) }
        ensures refused { IfErr result (λ e. e ≢ CallRefusal.OutOfMemory
            → IsCallRefusal self.old.client kind (content_of payload.entry) e) }
        ensures unchanged { OnErr result (self.new ≡ self.old) }
    {
        if make_room(&mut self.calls).is_err() {
            return Err(CallRefusal::OutOfMemory);
        }
        let Some(client) = &mut self.client else {
            unreachable!()
        };
        let call = call_as(client, kind, payload)?;
        self.calls.push_reserved(index);
        Ok(call)
    }

    /// Returns why the server would refuse to answer the waiting request of index `k`, if it would.
    pub(crate) fn answer_refusal(&self, k: usize) -> Option<AnswerRefusal>
        ensures { option_map WorldRefusal.Answer result
            ≡ answer_reason self.now.server.state (length self.now.server.waiting) k }
    {
        if self.server.state() != ServerState::Open {
            return Some(AnswerRefusal::Closed);
        }
        if self.server.waiting() <= k {
            return Some(AnswerRefusal::NoSuchRequest);
        }
        None
    }

    /// Has the server answer the waiting request of index `k`.
    pub(crate) fn answer<H: Handler>(
        &mut self,
        k: usize,
        logged: &mut Logged<H>,
    ) -> Result<usize, AnswerRefusal>
        ensures answered { AnswerStep H.does H.stops k result
            self.old.server logged.old.handler (log_of logged.old.entries.items)
            self.new.server logged.new.handler (log_of logged.new.entries.items) }
        ensures others { self.new ≡ record self.old { server = self.new.server } }
    {
        self.server.answer(k, logged)
    }
}

/// Returns true if an answer closed the server.
fn is_stopped(state: ServerState) -> bool
    ensures { result ≡ is_stopped state }
{
    match state {
        ServerState::Closed(
            ServerCause::ReplyTooLarge | ServerCause::NoMemory | ServerCause::HandlerFailed,
        ) => true,
        _ => false,
    }
}

/// Makes a call of this kind.
fn call_as(client: &mut Client, kind: CallKind, payload: Payload<'_>) -> Result<CallNo, CallRefusal>
    ensures called { MatchResult result
        (λ no. IsCalled client.old kind (content_of payload.entry) no
        × (client.new ≡ called client.old kind (content_of payload.entry) no))
        (λ e. IsCallRefusal client.old kind (content_of payload.entry) e) }
    ensures unchanged { OnErr result (client.new ≡ client.old) }
{
    match kind {
        CallKind::Plain => client.call(payload),
        CallKind::Exhaust => client.call_exhaust(payload),
        CallKind::Unacknowledged => client.send_unacknowledged(payload),
    }
}
