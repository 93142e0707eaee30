//! Serves connections, and writes what they ask and how they end.

ghost use Rattle.std.specs.Prelude.{◌≡◌, ◌↔◌, ◌+◌, [], IfOk, IfSome, IsTrue, None, Ok, OnOk, Some};
ghost use Rattle.std.specs.Prelude.{flat_map, min};
ghost use Rattle.slab.specs.Slab.{Updates, get, slab_len};
ghost use Rattle.std.specs.Io.KnownBytes.{Keeps};
ghost use Rattle.text_writer.specs.{WritesOut};
ghost use Rattle.wire_serve.specs.{SlotSeen, tells};
ghost use Rattle.wire_peer.specs.{log_of};
ghost use Rattle.server_core.specs.Serving.{IsServing, IsSteered, IsStepped, ServesOn, TakesTurn};
ghost use Rattle.server_core.specs.Serving.{gate_after, reply_flow, settled};
ghost use Rattle.server_core.specs.Transcript.{end_text, told_text};

use crate::output::Output;
use crate::reply_rules::{ReplyRules, gate_for};
use crate::stop::Stop;
use crate::transcript::{write_end, write_entries, write_new};
use script_rules::Flow;
use std::alloc::Global;
use std::io::Write;
use wire_peer::{Handler, ServerCause};
use wire_serve::{CloseCause, Connections, Gate, Gated, Leave, Turned};
use wire_stream::Link;

/// The most steps of a turn.
pub const STEPS: u32 = 32;

/// The steps in which a connection receives, takes a header and what stands behind it, and answers
/// a request. It sends nothing in them, unless output or a part of the request was there before.
pub const ANSWER_STEPS: u32 = 4;

/// Writes the entries that were made, in order, and forgets them.
fn tell<L: Link + Drop, H: Handler + Drop, W: Output>(
    conns: &mut Connections<L, H>,
    out: &mut W,
) -> Result<(), Stop>
    ensures told { OnOk result (WritesOut W.contents out.old out.new
        (flat_map told_text (log_of conns.old.logged.entries.items))) }
    ensures forgotten { OnOk result (log_of conns.new.logged.entries.items ≡ []) }
    ensures handler { conns.new.logged.handler ≡ conns.old.logged.handler }
    ensures slots { conns.new.slots ≡ conns.old.slots }
    ensures next { conns.new.next ≡ conns.old.next }
{
    if !out.is_sink() {
        write_entries(conns.entries(), out).map_err(Stop::Output)?;
    }
    let told = conns.entries().len();
    conns.forget(told);
    Ok(())
}

/// Returns `Ok` if the server goes on after a connection that is over for this reason.
pub fn settle(leave: Leave) -> Result<(), Stop>
    ensures { result ≡ settled leave }
{
    match leave {
        Leave::OutOfMemory
        | Leave::Closed(CloseCause::NoMemory | CloseCause::Server(ServerCause::NoMemory)) => {
            Err(Stop::OutOfMemory)
        }
        _ => Ok(()),
    }
}

/// Returns the gate of a link once a reply waits that goes so: what was cut stays cut.
fn gate_after(flow: Flow, gate: Gate) -> Gate
    ensures { result ≡ gate_after flow gate }
{
    match gate {
        Gate::Cut(left) => Gate::Cut(left),
        Gate::Open | Gate::Swallowed => gate_for(flow),
    }
}

/// The connections that are served, how many ended, and the rules of what becomes of replies.
#[derive(Drop)]
pub struct Serving<L, H> {
    conns: Connections<L, H>,
    ended: u64,
    replies: ReplyRules,
}

impl<L: Gated + Drop, H: Handler + Drop> Serving<L, H> {
    /// Begins without connections. Requests are asked of `handler`, and told to `replies`.
    pub fn new(alloc: Global, handler: H, replies: ReplyRules) -> Serving<L, H>
        ensures { IsServing H.does H.stops
            (tells L.received L.sent L.ends L.waits L.failures) L.gate handler
            replies.script.rules.items result 0 [] }
    {
        Serving {
            conns: Connections::new(alloc, handler),
            ended: 0,
            replies,
        }
    }

    /// Returns how many connections are open.
    pub fn len(&self) -> usize
        ensures { result ≡ slab_len self.now.conns.slots }
    {
        self.conns.len()
    }

    /// Returns how many connections ended, counted up to 2^64 - 1.
    pub fn ended(&self) -> u64
        ensures { result ≡ self.now.ended }
    {
        self.ended
    }

    /// Returns true if there are no rules, so that each reply goes as it comes.
    pub fn has_no_rules(&self) -> bool
        ensures { IsTrue result ↔ (self.now.replies.script.rules.items ≡ []) }
    {
        self.replies.is_idle()
    }

    /// Returns what becomes of the reply that the connection of this key put out in the last turn,
    /// if that was its turn, and it put one out and has it to send.
    pub fn flow(&self, key: usize) -> Option<Flow>
        ensures { result ≡ reply_flow (get self.now.conns.slots key) self.now.replies.flow }
    {
        match self.conns.slot(key) {
            Some(slot) if !slot.output().is_empty() => self.replies.flow(),
            _ => None,
        }
    }

    /// Returns the key that the next connection has.
    pub fn next_key(&self) -> usize
        ensures { result ≡ self.now.conns.slots.vacant_key }
    {
        self.conns.next_key()
    }

    /// Returns how many steps a turn has that may have `most`: one where there are rules.
    fn steps(&self, most: u32) -> u32
        ensures { IsStepped self.now.replies.script.rules.items result }
    {
        if self.has_no_rules() { most } else { 1 }
    }

    /// Opens the connection over `link`, whose gate is open, and writes its line.
    ///
    /// # Errors
    ///
    /// Returns `OutOfMemory` if there is no memory or no number for it, and `Output` if writing
    /// fails.
    pub fn open<W: Write>(&mut self, link: L, out: &mut W) -> Result<(), Stop>
        requires { L.gate link ≡ Gate.Open }
        ensures opened { OnOk result (self.new.conns.next ≡ self.old.conns.next + 1) }
        ensures served { OnOk result (ServesOn H.does H.stops
            (tells L.received L.sent L.ends L.waits L.failures) L.gate
            self.old self.new (W.contents out.old) (W.contents out.new)) }
    {
        let number = self.conns.next_number();
        let Ok(_key) = self.conns.open(link) else {
            return Err(Stop::OutOfMemory);
        };
        match write_new(number, out) {
            Ok(()) => Ok(()),
            Err(error) => Err(Stop::Output(error)),
        }
    }

    /// Forgets the connection of this key, which is over, and writes its last line.
    fn close<W: Write>(&mut self, key: usize, leave: Leave, out: &mut W) -> Result<(), Stop>
        ensures told { (slot : SlotSeen L) → get self.old.conns.slots key ≡ Some slot
            → OnOk result (WritesOut W.contents out.old out.new
            (end_text slot.conn.server.connection leave)) }
        ensures slots { Updates self.old.conns.slots self.new.conns.slots key None }
        ensures logged { self.new.conns.logged ≡ self.old.conns.logged }
        ensures next { self.new.conns.next ≡ self.old.conns.next }
        ensures replies { self.new.replies ≡ self.old.replies }
        ensures ended { (slot : SlotSeen L) → get self.old.conns.slots key ≡ Some slot
            → self.new.ended ≡ min (self.old.ended + 1) 18446744073709551615 }
    {
        let number = match self.conns.slot(key) {
            Some(slot) => slot.connection(),
            None => return Ok(()),
        };
        self.conns.close(key);
        self.ended = self.ended.saturating_add(1);
        write_end(number, leave, out).map_err(Stop::Output)
    }

    /// Says what becomes of the reply that the connection of this key put out in its turn, if it put
    /// one out. What was cut stays cut.
    fn steer(&mut self, key: usize)
        ensures steered { IsSteered (tells L.received L.sent L.ends L.waits L.failures) L.gate
            (reply_flow (get self.old.conns.slots key) self.old.replies.flow) key
            self.old.conns.slots self.new.conns.slots }
        ensures logged { self.new.conns.logged ≡ self.old.conns.logged }
        ensures next { self.new.conns.next ≡ self.old.conns.next }
        ensures replies { self.new.replies ≡ self.old.replies }
        ensures ended { self.new.ended ≡ self.old.ended }
    {
        let Some(flow) = self.flow(key) else {
            return;
        };
        let gate = match self.conns.slot(key) {
            Some(slot) => slot.link().gate(),
            None => return,
        };
        self.conns.set_gate(key, gate_after(flow, gate));
    }

    /// Has the connection of this key take a turn of at most `most` steps, which is a single one
    /// where there are rules, and writes the entries that it made. If it is over then, forgets it and
    /// writes its last line, and else says what becomes of its reply. Returns what the turn came to,
    /// or `None` if there is no such connection.
    ///
    /// # Errors
    ///
    /// Returns `Output` if writing fails, and `OutOfMemory` if memory runs out.
    pub fn turn<W: Output>(
        &mut self,
        key: usize,
        most: u32,
        out: &mut W,
    ) -> Result<Option<Turned>, Stop>
        ensures none { result ≡ Ok None → (get self.old.conns.slots key ≡ None)
            × (self.new.conns.slots ≡ self.old.conns.slots)
            × (self.new.conns.logged ≡ self.old.conns.logged) × (self.new.ended ≡ self.old.ended)
            × Keeps (W.contents out.old) (W.contents out.new) }
        ensures turned { IfOk result (λ o. IfSome o (λ how. TakesTurn H.does H.stops
            (tells L.received L.sent L.ends L.waits L.failures) L.gate key how
            self.old self.new (W.contents out.old) (W.contents out.new))) }
        ensures served { OnOk result (ServesOn H.does H.stops
            (tells L.received L.sent L.ends L.waits L.failures) L.gate
            self.old self.new (W.contents out.old) (W.contents out.new)) }
    {
        let steps = self.steps(most);
        let Some(turned) = self.conns.turn(key, steps) else {
            return Ok(None);
        };
        let Ok(()) = self.replies.follow(self.conns.entries()) else {
            return Err(Stop::OutOfMemory);
        };
        tell(&mut self.conns, out)?;
        match turned {
            Turned::Over(leave) => {
                self.close(key, leave, out)?;
                Ok(Some(turned))
            }
            Turned::Again | Turned::Waits => {
                self.steer(key);
                Ok(Some(turned))
            }
        }
    }
}
