//! The steps of a core: what a program does with the clients and the connections to the server.

ghost use Rattle.std.specs.Prelude.{◌≡◌, ◌≤◌, ◌<◌, IfErr, IfOk, List, None, OnErr, OnOk, Some};
ghost use Rattle.std.specs.Prelude.{length, take};
ghost use Rattle.wire_msg.specs.{Message, SpellsMsg};
ghost use Rattle.wire_msg.specs.declared.payloads.Payload.{Payload};
ghost use Rattle.wire_peer.specs.{LogEntry, MayTake};
ghost use Rattle.wire_peer.specs.declared.call_table.ReadyReply.{ReadyReply};
ghost use Rattle.wire_peer.specs.declared.calls.CallNo.{CallNo};
ghost use Rattle.wire_serve.specs.{IsReady};
ghost use Rattle.wire_share.specs.Acts.{Ends, EndsUp, Gives, LetsGo, MovesDown, Passes, Sends};
ghost use Rattle.wire_share.specs.Acts.{SendsUp, Takes, TakesUp};
ghost use Rattle.wire_share.specs.Core_laws.{IsLawful};
ghost use Rattle.wire_share.specs.Cores.{ClosesDown, CoreDoes, Finishes, LosesUp, OpensDown};
ghost use Rattle.wire_share.specs.Cores.{OpensUp, Shares, core_seen, new_core};
ghost use Rattle.wire_share.specs.Refusing.{GiveFails, PassFails};
ghost use Rattle.wire_share.specs.Running.{IsRun};
ghost use Rattle.wire_share.specs.declared.client.Client.{Client};
ghost use Rattle.wire_share.specs.declared.server.Server.{Server};

use crate::core_laws::lawful;
use crate::refusals::GiveRefusal;
use crate::shared_core::Core;
use crate::state::State;
use crate::steps::PassFault;
use crate::uses::Use;
use std::alloc::{AllocError, Global};
use wire_stream::ReadRefusal;

impl Core {
    /// Begins without connections. It takes no memory.
    pub fn new(alloc: Global) -> Core
        ensures { core_seen result.state ≡ new_core }
    {
        Core {
            state: State::new(alloc),
        }
    }

    /// Proves that all laws hold of what was done with it.
    pub fn laws(&self)
        ensures { IsLawful (core_seen self.now.state) }
    {
        lawful();
    }

    /// Accepts a client, and returns its number.
    ///
    /// # Errors
    ///
    /// Returns `AllocError` if memory or the numbers run out. Nothing changes then.
    pub fn accept(&mut self) -> Result<u64, AllocError>
        ensures run { IsRun self.old self.new }
        ensures opened { IfOk result (λ d. CoreDoes (OpensDown d)
            (core_seen self.old.state) (core_seen self.new.state)) }
        ensures unchanged { OnErr result (core_seen self.new.state ≡ core_seen self.old.state) }
    {
        self.state.open_down()
    }

    /// Opens a connection to the server for this use, and returns its number.
    ///
    /// # Errors
    ///
    /// Returns `AllocError` if memory or the numbers run out, or if the client that is to keep it
    /// isn't there or keeps another one. Nothing changes then.
    pub fn open(&mut self, used: Use) -> Result<u64, AllocError>
        ensures run { IsRun self.old self.new }
        ensures opened { IfOk result (λ u. CoreDoes (OpensUp u used)
            (core_seen self.old.state) (core_seen self.new.state)) }
        ensures unchanged { OnErr result (core_seen self.new.state ≡ core_seen self.old.state) }
    {
        self.state.open_up(used)
    }

    /// Passes the request of a client that waits on over this connection, if it may go there.
    ///
    /// # Errors
    ///
    /// Returns `Elsewhere` if it may not, `Refused` if none was passed on, and `OutOfMemory` if it
    /// was and memory ran out.
    pub fn pass(&mut self, number: u64, upstream: u64) -> Result<(), PassFault>
        ensures run { IsRun self.old self.new }
        ensures passed { OnOk result ((m : Message) × (payload : Payload) × (call : CallNo)
            × (made : List LogEntry)
            × CoreDoes (Shares (Passes number upstream m payload call made))
            (core_seen self.old.state) (core_seen self.new.state)) }
        ensures refused { IfErr result (λ fault. PassFails fault number upstream
            (core_seen self.old.state) (core_seen self.new.state)) }
    {
        self.state.pass(number, upstream)
    }

    /// Gives the reply that a connection has ready to this client, if it awaits that.
    ///
    /// # Errors
    ///
    /// Returns `NotAwaited` if it doesn't, or one of both isn't there, `Closed` if the client is,
    /// and `OutOfMemory` if memory runs out. What the reply tells may be noted then.
    pub fn give(&mut self, upstream: u64, number: u64) -> Result<(), GiveRefusal>
        ensures run { IsRun self.old self.new }
        ensures given { OnOk result ((m answer : Message) × (reply : ReadyReply)
            × (made : List LogEntry)
            × CoreDoes (Shares (Gives number upstream m reply answer made))
            (core_seen self.old.state) (core_seen self.new.state)) }
        ensures refused { IfErr result (λ refusal. GiveFails refusal number upstream
            (core_seen self.old.state) (core_seen self.new.state)) }
    {
        self.state.give(upstream, number)
    }

    /// Has this client take the first bytes of `piece`, and returns how many: none if it isn't
    /// there, or isn't ready.
    ///
    /// # Errors
    ///
    /// Returns `OutOfMemory` if memory runs out. Nothing is taken then.
    pub fn take(&mut self, number: u64, piece: &[u8]) -> Result<usize, ReadRefusal>
        ensures run { IsRun self.old self.new }
        ensures within { IfOk result (λ n. n ≤ length piece.now) }
        ensures taken { (x : Client) → (core_seen self.old.state).downs number ≡ Some x
            → IsReady x.downstream.conn
            → IfOk result (λ n. CoreDoes (Shares (MovesDown number (Takes (take n piece.now))))
            (core_seen self.old.state) (core_seen self.new.state)) }
        ensures some { (x : Client) → (core_seen self.old.state).downs number ≡ Some x
            → IsReady x.downstream.conn → 0 < length piece.now → IfOk result (λ n. 0 < n) }
    {
        self.state.take(number, piece)
    }

    /// Drops the first `n` of the bytes that are to be sent to this client, which were sent, if there
    /// are as many.
    pub fn sent(&mut self, number: u64, n: usize)
        ensures run { IsRun self.old self.new }
        ensures sent { (x : Client) → (core_seen self.old.state).downs number ≡ Some x
            → n ≤ length x.downstream.conn.output
            → CoreDoes (Shares (MovesDown number (Sends (take n x.downstream.conn.output))))
            (core_seen self.old.state) (core_seen self.new.state) }
    {
        self.state.sent(number, n);
    }

    /// Tells this client that no more bytes come, if it is there.
    pub fn end(&mut self, number: u64)
        ensures run { IsRun self.old self.new }
        ensures ended { (x : Client) → (core_seen self.old.state).downs number ≡ Some x
            → CoreDoes (Shares (MovesDown number Ends))
            (core_seen self.old.state) (core_seen self.new.state) }
    {
        self.state.end(number);
    }

    /// Has this connection take the first bytes of `piece`, and returns how many: none if it isn't
    /// there, has a reply ready, or is closed.
    ///
    /// # Errors
    ///
    /// Returns `OutOfMemory` if memory runs out. Nothing is taken then.
    pub fn take_up(&mut self, upstream: u64, piece: &[u8]) -> Result<usize, ReadRefusal>
        ensures run { IsRun self.old self.new }
        ensures taken { (y : Server) → (core_seen self.old.state).ups upstream ≡ Some y
            → MayTake y.upstream.client
            → IfOk result (λ n. CoreDoes (Shares (TakesUp upstream (take n piece.now)))
            (core_seen self.old.state) (core_seen self.new.state)) }
    {
        self.state.take_up(upstream, piece)
    }

    /// Drops the first `n` of the bytes that are to be sent over this connection, which were sent, if
    /// there are as many.
    pub fn sent_up(&mut self, upstream: u64, n: usize)
        ensures run { IsRun self.old self.new }
        ensures sent { (y : Server) → (core_seen self.old.state).ups upstream ≡ Some y
            → n ≤ length y.upstream.client.requests.output
            → CoreDoes (Shares (SendsUp upstream (take n y.upstream.client.requests.output)))
            (core_seen self.old.state) (core_seen self.new.state) }
    {
        self.state.sent_up(upstream, n);
    }

    /// Tells this connection that no more bytes come, if it is there.
    pub fn end_up(&mut self, upstream: u64)
        ensures run { IsRun self.old self.new }
        ensures ended { (y : Server) → (core_seen self.old.state).ups upstream ≡ Some y
            → CoreDoes (Shares (EndsUp upstream))
            (core_seen self.old.state) (core_seen self.new.state) }
    {
        self.state.end_up(upstream);
    }

    /// Lets go of the reply that this connection has ready, if it has one.
    pub fn release(&mut self, upstream: u64)
        ensures run { IsRun self.old self.new }
        ensures released { (y : Server) (reply : ReadyReply) (m : Message)
            → (core_seen self.old.state).ups upstream ≡ Some y
            → y.upstream.client.reply ≡ Some reply → SpellsMsg m y.upstream.client.held
            → CoreDoes (Shares (LetsGo upstream reply m))
            (core_seen self.old.state) (core_seen self.new.state) }
    {
        self.state.release(upstream);
    }

    /// Closes a client.
    pub fn close(&mut self, number: u64)
        ensures run { IsRun self.old self.new }
        ensures closed { CoreDoes (ClosesDown number)
            (core_seen self.old.state) (core_seen self.new.state) }
    {
        self.state.close(number);
    }

    /// Notes that a connection to the server is used no more, if it is there.
    pub fn finish(&mut self, upstream: u64)
        ensures run { IsRun self.old self.new }
        ensures finished { (y : Server) → (core_seen self.old.state).ups upstream ≡ Some y
            → CoreDoes (Finishes upstream) (core_seen self.old.state) (core_seen self.new.state) }
        ensures none { (core_seen self.old.state).ups upstream ≡ None
            → core_seen self.new.state ≡ core_seen self.old.state }
    {
        self.state.finish(upstream);
    }

    /// Loses a connection to the server, if it is there, with the clients that await a reply of it.
    pub fn lose(&mut self, upstream: u64)
        ensures run { IsRun self.old self.new }
        ensures lost { (y : Server) → (core_seen self.old.state).ups upstream ≡ Some y
            → CoreDoes (LosesUp upstream) (core_seen self.old.state) (core_seen self.new.state) }
        ensures none { (core_seen self.old.state).ups upstream ≡ None
            → core_seen self.new.state ≡ core_seen self.old.state }
    {
        self.state.lose(upstream);
    }
}
