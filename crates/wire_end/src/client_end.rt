//! A client's end: a client, its link, and the records of its calls.

ghost use Rattle.std.specs.Prelude.{◌≡◌, ◌≢◌, ◌∷◌, ◌++◌, [], ℕ, List, Err, Ok, IfErr, IfOk, OnErr};
ghost use Rattle.std.specs.Prelude.{None, OnOk, Some, false, length, option_map, slice_get, true};
ghost use Rattle.std.specs.Io.KnownBytes.{Keeps};
ghost use Rattle.wire_model.specs.Owners.{Calls, ClientAct, EndsDown, SendsUp};
ghost use Rattle.wire_end.specs.Ends.{EndRuns, FailsAs, HandsOut, IsWaiting, NextEnds, NextLater};
ghost use Rattle.wire_end.specs.Ends.{StandsAs, new_end};
ghost use Rattle.wire_end.specs.Records.{record_of};
ghost use Rattle.wire_end.specs.Steps.{ClosesNothing, CollectsAs, Grows, Hears, HoldsMore};
ghost use Rattle.wire_end.specs.Steps.{StepEnds, StepLater};
ghost use Rattle.wire_end.specs.Turns.{AreBetween};
ghost use Rattle.wire_msg.specs.{IsOpen};
ghost use Rattle.wire_peer.specs.{IsCallRefusal, MayTake, content_of};
ghost use Rattle.wire_peer.specs.declared.calls.CallKind.TheVariants.{Exhaust, Plain};
ghost use Rattle.wire_peer.specs.declared.calls.CallKind.TheVariants.{Unacknowledged};
ghost use Rattle.wire_peer.specs.declared.client_state.ClientState.TheVariants.{Closed};
ghost use Rattle.wire_stream.specs.{AddsTurns, FlushesLater, Rose, Turn};

use crate::call_record::CallRecord;
use crate::next::{EndFault, Next};
use crate::steps::{call_as, feed, give, lose_all};
use std::alloc::{AllocError, Global};
use std::marker::Model;
use wire_msg::Payload;
use wire_peer::{CallKind, CallNo, CallRefusal, Client, ClientCause, ClientState, ReadyReply};
use wire_stream::{Flushed, Inlet, Link, LinkFault, Pulled, flush};

/// A client, its link, and the records of its calls. Contracts see it as the record `EndSeen`.
///
/// A call is put out at once and sent by `flush`, so that many calls go in one piece. A reply is a
/// part of the record of its call.
#[derive(Drop)]
pub struct ClientEnd<L> {
    connection: u64,
    client: Client,
    records: Vec<CallRecord>,
    link: L,
    inlet: Inlet,
}

impl<L> Model for ClientEnd<L> {
    ghost use Rattle.wire_end.specs.Ends.{EndSeen};

    ghost Value = { EndSeen L };

    ghost use Rattle.std.specs.Coded.{codes};
    ghost use Rattle.wire_peer.specs.{coded_content};

    ghost coded = { Prim.hlevel (codes, coded_content) };

    ghost use Rattle.wire_end.specs.Records.{records_of};

    ghost view = { λ s. record {
      connection = s.connection;
      own = record { client = s.client; records = records_of s.connection s.records.items };
      link = s.link;
      inlet = s.inlet;
    } };
}

impl<L: Link + Drop> ClientEnd<L> {
    /// Makes the end of `client` at `link`, over the connection of this number. `client` has made
    /// no call. Takes memory for one piece of bytes.
    ///
    /// # Errors
    ///
    /// Returns `AllocError` if memory runs out. The client and the link are dropped then.
    pub fn new(
        alloc: Global,
        connection: u64,
        client: Client,
        link: L,
    ) -> Result<ClientEnd<L>, AllocError>
        requires { client.requests.next_number ≡ Some 0 }
        ensures { IfOk result (λ end. end ≡ new_end connection client link) }
    {
        let inlet = Inlet::new(alloc)?;
        Ok(ClientEnd {
            connection,
            client,
            records: Vec::new(alloc),
            link,
            inlet,
        })
    }

    /// Makes a call that has one reply, and puts its request out. Its record has a copy of
    /// `payload`.
    ///
    /// # Errors
    ///
    /// Returns `OutOfMemory` if memory runs out, and else the first that applies of `Closed`,
    /// `WindowFull`, `TooLarge` and `NumbersSpent`. Nothing changes then.
    pub fn call(&mut self, payload: Payload<'_>) -> Result<CallNo, CallRefusal>
        ensures called { IfOk result (λ no. EndRuns L.sent L.received self.old
            (Calls Plain payload.entry no ∷ []) self.new) }
        ensures refused { IfErr result (λ e. e ≢ CallRefusal.OutOfMemory
            → IsCallRefusal self.old.own.client Plain (content_of payload.entry) e) }
        ensures unchanged { OnErr result (self.new ≡ self.old) }
        ensures link { self.new.link ≡ self.old.link }
        ensures inlet { self.new.inlet ≡ self.old.inlet }
    {
        self.call_as(CallKind::Plain, payload)
    }

    /// Makes a call that may have more than one reply, and puts its request out.
    ///
    /// # Errors
    ///
    /// As for `call`. Nothing changes then.
    pub fn call_exhaust(&mut self, payload: Payload<'_>) -> Result<CallNo, CallRefusal>
        ensures called { IfOk result (λ no. EndRuns L.sent L.received self.old
            (Calls Exhaust payload.entry no ∷ []) self.new) }
        ensures refused { IfErr result (λ e. e ≢ CallRefusal.OutOfMemory
            → IsCallRefusal self.old.own.client Exhaust (content_of payload.entry) e) }
        ensures unchanged { OnErr result (self.new ≡ self.old) }
        ensures link { self.new.link ≡ self.old.link }
        ensures inlet { self.new.inlet ≡ self.old.inlet }
    {
        self.call_as(CallKind::Exhaust, payload)
    }

    /// Makes a call that has no reply, and puts its request out.
    ///
    /// # Errors
    ///
    /// As for `call`, but never `WindowFull`. Nothing changes then.
    pub fn send_unacknowledged(&mut self, payload: Payload<'_>) -> Result<CallNo, CallRefusal>
        ensures called { IfOk result (λ no. EndRuns L.sent L.received self.old
            (Calls Unacknowledged payload.entry no ∷ []) self.new) }
        ensures refused { IfErr result (λ e. e ≢ CallRefusal.OutOfMemory
            → IsCallRefusal self.old.own.client Unacknowledged (content_of payload.entry) e) }
        ensures unchanged { OnErr result (self.new ≡ self.old) }
        ensures link { self.new.link ≡ self.old.link }
        ensures inlet { self.new.inlet ≡ self.old.inlet }
    {
        self.call_as(CallKind::Unacknowledged, payload)
    }

    /// Makes a call of this kind.
    fn call_as(&mut self, kind: CallKind, payload: Payload<'_>) -> Result<CallNo, CallRefusal>
        ensures called { IfOk result (λ no. EndRuns L.sent L.received self.old
            (Calls kind payload.entry no ∷ []) self.new) }
        ensures refused { IfErr result (λ e. e ≢ CallRefusal.OutOfMemory
            → IsCallRefusal self.old.own.client kind (content_of payload.entry) e) }
        ensures unchanged { OnErr result (self.new ≡ self.old) }
        ensures link { self.new.link ≡ self.old.link }
        ensures inlet { self.new.inlet ≡ self.old.inlet }
    {
        let alloc = *self.records.allocator();
        let Ok(record) = CallRecord::new(alloc, kind, payload) else {
            return Err(CallRefusal::OutOfMemory);
        };
        let Ok(()) = self.records.try_reserve(1) else {
            return Err(CallRefusal::OutOfMemory);
        };
        let call = call_as(&mut self.client, kind, payload)?;
        self.records.push_reserved(record);
        Ok(call)
    }

    /// Sends the requests that were put out: all of them, or as many bytes as the link takes now.
    ///
    /// # Errors
    ///
    /// Returns `LinkFault` if the link failed. What wasn't sent yet still waits.
    pub fn flush(&mut self) -> Result<Flushed, LinkFault>
        ensures ran { (gone : List ℕ)
            × EndRuns L.sent L.received self.old (SendsUp gone ∷ []) self.new }
        ensures inlet { self.new.inlet ≡ self.old.inlet }
        ensures all { result ≡ Ok Flushed.All → self.new.own.client.requests.output ≡ [] }
        ensures later { result ≡ Ok Flushed.Later → self.new.own.client.requests.output ≢ [] }
        ensures waits { FlushesLater result (L.waits self.old.link) (L.waits self.new.link) }
        ensures received { Keeps (L.received self.old.link) (L.received self.new.link) }
        ensures turns { AddsTurns (L.turns self.old.link) (L.turns self.new.link) [] }
        ensures ends { L.ends self.new.link ≡ L.ends self.old.link }
        ensures works { OnOk result (L.failures self.new.link ≡ L.failures self.old.link) }
        ensures fails { OnErr result (Rose (L.failures self.old.link) (L.failures self.new.link)) }
    {
        flush(&mut self.link, &mut self.client)
    }

    /// Receives until a reply is whole, adds a copy of it to the record of its call, and tells
    /// which call that is. What was called must be sent by `flush` before.
    ///
    /// # Errors
    ///
    /// Returns `Closed` if no more replies come: the link ended, what came was no reply to a call,
    /// or the client was closed before. Returns `Link` if the link failed, and `OutOfMemory` if
    /// memory runs out.
    pub fn next_reply(&mut self) -> Result<Next, EndFault>
        ensures handed { (acts : List ClientAct)
            × EndRuns L.sent L.received self.old acts self.new × HandsOut result acts }
        ensures stands { StandsAs result self.new }
        ensures turns { (ts : List Turn)
            × AddsTurns (L.turns self.old.link) (L.turns self.new.link) ts
            × AreBetween self.old.own.client.requests.limit (L.received self.old.link)
            (L.sent self.old.link) (self.old.own.client.held ++ self.old.inlet) ts }
        ensures ends { NextEnds L.ends result self.old self.new }
        ensures later { NextLater result (L.waits self.old.link) (L.waits self.new.link) }
        ensures fails { FailsAs result (L.failures self.old.link) (L.failures self.new.link) }
    {
        match self.receive()? {
            Pulled::Bytes => {}
            Pulled::End => return Err(EndFault::Closed(self.end())),
            Pulled::Later => return Ok(Next::Later),
        }
        match self.collect() {
            Ok(Some(reply)) => Ok(Next::Reply(reply)),
            Ok(None) => Err(EndFault::Closed(self.end())),
            Err(_) => Err(EndFault::OutOfMemory),
        }
    }

    /// Receives until the client takes no more bytes, since a reply is ready or it is closed; or
    /// until the link has ended, or has no more bytes now.
    fn receive(&mut self) -> Result<Pulled, EndFault>
        ensures heard { Hears L.sent L.received self.old self.new }
        ensures taken { result ≡ Ok Pulled.Bytes → MayTake self.new.own.client → ⊥ }
        ensures ended { result ≡ Ok Pulled.End → IsWaiting self.new }
        ensures waits { result ≡ Ok Pulled.Later → IsWaiting self.new }
        ensures closes { IfErr result (λ e. ClosesNothing e) }
        ensures stands { IfErr result (λ e. StandsAs (Err e) self.new) }
        ensures turns { (ts : List Turn)
            × AddsTurns (L.turns self.old.link) (L.turns self.new.link) ts
            × AreBetween self.old.own.client.requests.limit (L.received self.old.link)
            (L.sent self.old.link) (self.old.own.client.held ++ self.old.inlet) ts }
        ensures ends { StepEnds result (L.ends self.old.link) (L.ends self.new.link) }
        ensures later { StepLater result (L.waits self.old.link) (L.waits self.new.link) }
        ensures fails { FailsAs result (L.failures self.old.link) (L.failures self.new.link) }
    {
        while self.is_receiving() {
            match self.step()? {
                Pulled::Bytes => {}
                Pulled::End => return Ok(Pulled::End),
                Pulled::Later => return Ok(Pulled::Later),
            }
        }
        Ok(Pulled::Bytes)
    }

    /// Returns true if the client takes bytes: it is open, and no reply is ready.
    fn is_receiving(&self) -> bool
        ensures takes { result ≡ true → MayTake self.now.own.client }
        ensures not { result ≡ false → MayTake self.now.own.client → ⊥ }
        ensures open { result ≡ true
            → IsOpen self.now.own.client.requests.limit self.now.own.client.held }
    {
        self.client.reply().is_none() && self.client.state() == ClientState::Open
    }

    /// Receives a piece, where none is held, and feeds the client.
    fn step(&mut self) -> Result<Pulled, EndFault>
        requires { MayTake self.old.own.client }
        ensures heard { Hears L.sent L.received self.old self.new }
        ensures ended { result ≡ Ok Pulled.End → IsWaiting self.new }
        ensures waits { result ≡ Ok Pulled.Later → IsWaiting self.new }
        ensures closes { IfErr result (λ e. ClosesNothing e) }
        ensures stands { IfErr result (λ e. StandsAs (Err e) self.new) }
        ensures more { result ≡ Ok Pulled.Bytes
            → HoldsMore self.old.own.client self.new.own.client }
        ensures grows { result ≡ Ok Pulled.Bytes → MayTake self.new.own.client
            → Grows L.received self.old self.new }
        ensures sent { Keeps (L.sent self.old.link) (L.sent self.new.link) }
        ensures stays { self.old.inlet ≢ []
            → L.turns self.new.link ≡ L.turns self.old.link }
        ensures turn { self.old.inlet ≡ []
            → AddsTurns (L.turns self.old.link) (L.turns self.new.link)
            (record { received = L.received self.old.link; sent = L.sent self.old.link } ∷ []) }
        ensures ends { StepEnds result (L.ends self.old.link) (L.ends self.new.link) }
        ensures later { StepLater result (L.waits self.old.link) (L.waits self.new.link) }
        ensures fails { FailsAs result (L.failures self.old.link) (L.failures self.new.link) }
    {
        match self.inlet.pull(&mut self.link) {
            Ok(Pulled::Bytes) => {}
            Ok(Pulled::End) => return Ok(Pulled::End),
            Ok(Pulled::Later) => return Ok(Pulled::Later),
            Err(fault) => return Err(EndFault::Link(fault)),
        }
        let Ok(()) = feed(&mut self.client, &mut self.inlet) else {
            return Err(EndFault::OutOfMemory);
        };
        Ok(Pulled::Bytes)
    }

    /// Adds a copy of the reply that is ready to the record of its call, and lets go of it. `None`
    /// if none is ready.
    ///
    /// # Errors
    ///
    /// Returns `AllocError` if memory runs out. Nothing changes then.
    fn collect(&mut self) -> Result<Option<ReadyReply>, AllocError>
        ensures collected { IfOk result (λ ready.
            CollectsAs L.sent L.received ready self.old self.new) }
        ensures link { self.new.link ≡ self.old.link }
        ensures ready { OnErr result (self.new.own.client.reply ≢ None) }
        ensures unchanged { OnErr result (self.new ≡ self.old) }
    {
        let Some(reply) = self.client.reply() else {
            return Ok(None);
        };
        give(&mut self.records, reply)?;
        let ready = ReadyReply {
            call: reply.call,
            last: reply.last,
        };
        self.client.release();
        Ok(Some(ready))
    }

    /// Gives the connection up: tells the client that no more bytes come. Its pending calls are
    /// lost. Returns the cause for which it is closed, the first one if there were more.
    pub fn end(&mut self) -> ClientCause
        ensures ran { EndRuns L.sent L.received self.old (EndsDown ∷ []) self.new }
        ensures closed { self.new.own.client.state ≡ Closed result }
        ensures link { self.new.link ≡ self.old.link }
        ensures inlet { self.new.inlet ≡ self.old.inlet }
    {
        self.client.end();
        lose_all(&mut self.records);
        match self.client.state() {
            ClientState::Closed(cause) => cause,
            ClientState::Open => unreachable!(),
        }
    }

    /// Returns the record of the call of this number, if it was made.
    pub fn record(&self, call: u64) -> Option<&CallRecord>
        ensures { option_map (λ r. record_of self.now.connection r.now) result
            ≡ slice_get self.now.own.records call }
    {
        self.records.get(call as usize)
    }

    /// Returns whether the client is open, or why it was closed.
    pub fn state(&self) -> ClientState
        ensures { result ≡ self.now.own.client.state }
    {
        self.client.state()
    }

    /// Returns the number of calls that await a reply.
    pub fn outstanding(&self) -> usize
        ensures { result ≡ length self.now.own.client.requests.outstanding }
    {
        self.client.outstanding()
    }

    /// Returns the link.
    pub fn link(&self) -> &L
        ensures { result.now ≡ self.now.link }
    {
        &self.link
    }
}
