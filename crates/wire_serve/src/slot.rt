//! One connection of many, which is served in turns.

ghost use Rattle.std.specs.Prelude.{◌≡◌, ◌≢◌, [], IfOk};
ghost use Rattle.wire_serve.specs.ServerConnections.{IsReady, state_of};
ghost use Rattle.wire_serve.specs.Slots.{MovesAs, SetsGate, SlotMoves, StandsAs, Turns, new_slot};
ghost use Rattle.wire_serve.specs.Slots.{tells};

use crate::cause::ConnState;
use crate::gated_link::{Gate, Gated};
use crate::server_connection::ServerConnection;
use crate::turned::{Leave, Turned};
use std::alloc::{AllocError, Global};
use std::marker::Model;
use wire_peer::{AnswerRefusal, Handler, Logged};
use wire_stream::{Inlet, Link, Moved, Pulled};

/// A server connection and its link. Contracts see it as the record `SlotSeen`.
#[derive(Drop)]
pub struct Slot<L> {
    conn: ServerConnection,
    link: L,
    inlet: Inlet,
}

impl<L> Model for Slot<L> {
    ghost use Rattle.wire_serve.specs.Slots.{SlotSeen};

    ghost Value = { SlotSeen L };

    ghost view = { λ s. record { conn = s.conn; link = s.link; inlet = s.inlet } };
}

impl<L: Link + Drop> Slot<L> {
    /// Makes the slot of the connection of this number over `link`. Takes memory for one piece of
    /// bytes.
    ///
    /// # Errors
    ///
    /// Returns `AllocError` if memory runs out. The link is dropped then.
    pub(crate) fn new(alloc: Global, connection: u64, link: L) -> Result<Slot<L>, AllocError>
        ensures { IfOk result (λ slot. slot ≡ new_slot connection link) }
    {
        let conn = ServerConnection::new(alloc, connection)?;
        let inlet = Inlet::new(alloc)?;
        Ok(Slot { conn, link, inlet })
    }

    /// Returns the number of the connection.
    pub fn connection(&self) -> u64
        ensures { result ≡ self.now.conn.server.connection }
    {
        self.conn.connection()
    }

    /// Returns the link.
    pub fn link(&self) -> &L
        ensures { result.now ≡ self.now.link }
    {
        &self.link
    }

    /// Returns the bytes that are to be sent.
    pub fn output(&self) -> &[u8]
        ensures { result.now ≡ self.now.conn.output }
    {
        self.conn.output()
    }

    /// Returns `Again` if the server connection is open.
    fn standing(&self) -> Turned
        ensures { StandsAs result self.now.conn }
    {
        match self.conn.state() {
            ConnState::Open => Turned::Again,
            ConnState::Closed(cause) => Turned::Over(Leave::Closed(cause)),
        }
    }

    /// Returns what a turn came to whose answer was refused.
    fn refused(&self, refusal: AnswerRefusal) -> Turned
        ensures memory { refusal ≡ AnswerRefusal.OutOfMemory
            → result ≡ Turned.Over Leave.OutOfMemory }
        ensures other { refusal ≢ AnswerRefusal.OutOfMemory → StandsAs result self.now.conn }
    {
        match refusal {
            AnswerRefusal::OutOfMemory => Turned::Over(Leave::OutOfMemory),
            _ => self.standing(),
        }
    }

    /// Sends some of what waits.
    fn send(&mut self) -> Turned
        requires { self.old.conn.output ≢ [] }
        ensures { MovesAs (tells L.received L.sent L.ends L.waits L.failures) result
            self.old self.new }
    {
        match self.link.send(self.conn.output()) {
            Ok(Moved::Bytes(n)) => {
                self.conn.sent(n);
                Turned::Again
            }
            Ok(Moved::Later) => Turned::Waits,
            Err(fault) => Turned::Over(Leave::Link(fault)),
        }
    }

    /// Takes some of what came.
    fn take(&mut self) -> Turned
        requires ready { IsReady self.old.conn }
        requires some { self.old.inlet ≢ [] }
        ensures { MovesAs (tells L.received L.sent L.ends L.waits L.failures) result
            self.old self.new }
    {
        match self.conn.feed(self.inlet.bytes()) {
            Ok(n) => {
                self.inlet.used(n);
                self.standing()
            }
            Err(_) => Turned::Over(Leave::OutOfMemory),
        }
    }

    /// Receives a piece, or tells the server connection the end of the link.
    fn receive(&mut self) -> Turned
        requires ready { IsReady self.old.conn }
        requires none { self.old.inlet ≡ [] }
        ensures { MovesAs (tells L.received L.sent L.ends L.waits L.failures) result
            self.old self.new }
    {
        match self.inlet.pull(&mut self.link) {
            Ok(Pulled::Bytes) => Turned::Again,
            Ok(Pulled::Later) => Turned::Waits,
            Ok(Pulled::End) => {
                self.conn.end();
                self.standing()
            }
            Err(fault) => Turned::Over(Leave::Link(fault)),
        }
    }

    /// Answers the first request.
    fn answer<H: Handler>(&mut self, logged: &mut Logged<H>) -> Turned
        requires sent { self.old.conn.output ≡ [] }
        requires open { state_of self.old.conn ≡ ConnState.Open }
        requires waits { self.old.conn.server.waiting ≢ [] }
        ensures { Turns H.does H.stops (tells L.received L.sent L.ends L.waits L.failures) 1 result
            self.old logged.old self.new logged.new }
    {
        match self.conn.answer(logged) {
            Ok(_) => self.standing(),
            Err(refusal) => self.refused(refusal),
        }
    }

    /// Takes a step: sends what waits, else answers the first request, else takes what came, else
    /// receives.
    fn step<H: Handler>(&mut self, logged: &mut Logged<H>) -> Turned
        ensures { Turns H.does H.stops (tells L.received L.sent L.ends L.waits L.failures) 1 result
            self.old logged.old self.new logged.new }
    {
        match self.conn.state() {
            ConnState::Open => {}
            ConnState::Closed(cause) => return Turned::Over(Leave::Closed(cause)),
        }
        if !self.conn.output().is_empty() {
            self.send()
        } else if self.conn.waiting() > 0 {
            self.answer(logged)
        } else if !self.inlet.bytes().is_empty() {
            self.take()
        } else {
            self.receive()
        }
    }

    /// Takes a turn of at most `steps` steps.
    pub(crate) fn turn<H: Handler>(&mut self, logged: &mut Logged<H>, steps: u32) -> Turned
        ensures { Turns H.does H.stops
            (tells L.received L.sent L.ends L.waits L.failures) steps result
            self.old logged.old self.new logged.new }
    {
        for i in 0..steps {
            match self.step(logged) {
                Turned::Again => {}
                over => return over,
            }
        }
        Turned::Again
    }
}

impl<L: Gated + Drop> Slot<L> {
    /// Says what becomes of the bytes that are sent from now on.
    pub(crate) fn set_gate(&mut self, to: Gate)
        ensures gate { L.gate self.new.link ≡ to }
        ensures idle { SlotMoves (tells L.received L.sent L.ends L.waits L.failures) SetsGate
            self.old self.new }
    {
        self.link.set_gate(to);
    }
}
