//! Many connections, with one handler and its log.

ghost use Rattle.std.specs.Prelude.{◌≡◌, ◌+◌, ◌≤◌, ◌^◌, [], ℕ, None, Some, Err, IfOk};
ghost use Rattle.std.specs.Prelude.{OnErr, OnOk, drop, option_copied, take};
ghost use Rattle.std.specs.Vec.{vec_len};
ghost use Rattle.slab.specs.Slab.{Updates, get, slab_len};
ghost use Rattle.wire_peer.specs.{log_of};
ghost use Rattle.wire_serve.specs.Connections.{ConnsAct, ConnsDo, IsClosed, IsForgotten, IsGated};
ghost use Rattle.wire_serve.specs.Connections.{AreNewConns, IsOpened, IsSame, IsTurned, conns_seen};
ghost use Rattle.wire_serve.specs.Slots.{SlotSeen, new_slot, tells};

use crate::gated_link::{Gate, Gated};
use crate::slot::Slot;
use crate::turned::{OpenRefusal, Turned};
use slab::Slab;
use std::alloc::Global;
use wire_peer::{Entry, Handler, Logged};
use wire_stream::Link;

/// Serves many connections by one handler, and keeps the log of what it was asked.
#[derive(Drop)]
pub struct Connections<L, H> {
    alloc: Global,
    slots: Slab<Slot<L>>,
    logged: Logged<H>,
    /// The number of the next connection.
    next: u64,
}

impl<L: Link + Drop, H: Handler + Drop> Connections<L, H> {
    /// Begins without connections, and asks `handler`. The first connection has number 1.
    pub fn new(alloc: Global, handler: H) -> Connections<L, H>
        ensures slots { (key : ℕ) → get result.slots key ≡ None }
        ensures handler { result.logged.handler ≡ handler }
        ensures empty { log_of result.logged.entries.items ≡ [] }
        ensures next { result.next ≡ 1 }
        ensures act { AreNewConns handler (conns_seen result.slots result.logged result.next) }
    {
        Connections {
            alloc,
            slots: Slab::new(alloc),
            logged: Logged::new(alloc, handler),
            next: 1,
        }
    }

    /// Makes a slot for the connection over `link`, under the next number, and returns its key.
    ///
    /// # Errors
    ///
    /// Returns `NumbersSpent` if no number is left, and `OutOfMemory` if memory runs out. The link
    /// is dropped then, and nothing else changes.
    pub fn open(&mut self, link: L) -> Result<usize, OpenRefusal>
        ensures free { IfOk result (λ key. get self.old.slots key ≡ None) }
        ensures key { IfOk result (λ key. key ≡ self.old.slots.vacant_key) }
        ensures slots { IfOk result (λ key. Updates self.old.slots self.new.slots key
            (Some (new_slot self.old.next link))) }
        ensures next { OnOk result (self.new.next ≡ self.old.next + 1) }
        ensures spent { result ≡ Err OpenRefusal.NumbersSpent → self.old.next + 1 ≡ 2 ^ 64 }
        ensures unchanged { OnErr result ((self.new.slots.slots ≡ self.old.slots.slots)
            × (self.new.next ≡ self.old.next)) }
        ensures logged { self.new.logged ≡ self.old.logged }
        ensures act { IfOk result (λ key. IsOpened key link
            (conns_seen self.old.slots self.old.logged self.old.next)
            (conns_seen self.new.slots self.new.logged self.new.next)) }
        ensures same { OnErr result (IsSame
            (conns_seen self.old.slots self.old.logged self.old.next)
            (conns_seen self.new.slots self.new.logged self.new.next)) }
    {
        let Some(next) = self.next.checked_add(1) else {
            return Err(OpenRefusal::NumbersSpent);
        };
        let Ok(slot) = Slot::new(self.alloc, self.next, link) else {
            return Err(OpenRefusal::OutOfMemory);
        };
        match self.slots.insert(slot) {
            Ok(key) => {
                self.next = next;
                Ok(key)
            }
            Err(_) => Err(OpenRefusal::OutOfMemory),
        }
    }

    /// Returns the key that the next connection has.
    pub fn next_key(&self) -> usize
        ensures { result ≡ self.now.slots.vacant_key }
    {
        self.slots.vacant_key()
    }

    /// Returns the number that the next connection has.
    pub fn next_number(&self) -> u64
        ensures { result ≡ self.now.next }
    {
        self.next
    }

    /// Returns the slot of this key, or `None` if there is none.
    pub fn slot(&self, key: usize) -> Option<&Slot<L>>
        ensures { option_copied result ≡ get self.now.slots key }
    {
        self.slots.get(key)
    }

    /// Has the slot of this key take a turn of at most `steps` steps. `None` if there is no such
    /// slot.
    pub fn turn(&mut self, key: usize, steps: u32) -> Option<Turned>
        ensures turned { IsTurned H.does H.stops
            (tells L.received L.sent L.ends L.waits L.failures)
            key steps result self.old.slots self.old.logged self.new.slots self.new.logged }
        ensures next { self.new.next ≡ self.old.next }
        ensures act { (act : ConnsAct L)
            × ConnsDo H.does H.stops (tells L.received L.sent L.ends L.waits L.failures) act
            (conns_seen self.old.slots self.old.logged self.old.next)
            (conns_seen self.new.slots self.new.logged self.new.next) }
    {
        let slot = self.slots.get_mut(key)?;
        Some(slot.turn(&mut self.logged, steps))
    }

    /// Closes the connection of this key, if there is one, and forgets it.
    pub fn close(&mut self, key: usize)
        ensures slots { Updates self.old.slots self.new.slots key None }
        ensures logged { self.new.logged ≡ self.old.logged }
        ensures next { self.new.next ≡ self.old.next }
        ensures act { IsClosed key (conns_seen self.old.slots self.old.logged self.old.next)
            (conns_seen self.new.slots self.new.logged self.new.next) }
    {
        let _ = self.slots.try_remove(key);
    }

    /// Returns how many connections there are.
    pub fn len(&self) -> usize
        ensures { result ≡ slab_len self.now.slots }
    {
        self.slots.len()
    }

    /// Returns the entries of the log, in order.
    pub fn entries(&self) -> &[Entry]
        ensures { result.now ≡ self.now.logged.entries.items }
    {
        self.logged.entries()
    }

    /// Drops the first `n` entries of the log, which were read.
    pub fn forget(&mut self, n: usize)
        requires { n ≤ vec_len self.old.logged.entries }
        ensures entries { log_of self.new.logged.entries.items
            ≡ drop n (log_of self.old.logged.entries.items) }
        ensures handler { self.new.logged.handler ≡ self.old.logged.handler }
        ensures slots { self.new.slots ≡ self.old.slots }
        ensures next { self.new.next ≡ self.old.next }
        ensures act { IsForgotten (take n (log_of self.old.logged.entries.items))
            (conns_seen self.old.slots self.old.logged self.old.next)
            (conns_seen self.new.slots self.new.logged self.new.next) }
    {
        self.logged.forget(n);
    }
}

impl<L: Gated + Drop, H: Handler + Drop> Connections<L, H> {
    /// Says what becomes of the bytes that are sent at the slot of this key from now on. Its link
    /// is called, and moves no byte. Returns false if there is no such slot.
    pub fn set_gate(&mut self, key: usize, to: Gate) -> bool
        ensures gated { IsGated (tells L.received L.sent L.ends L.waits L.failures)
            L.gate key to result
            self.old.slots self.new.slots }
        ensures logged { self.new.logged ≡ self.old.logged }
        ensures next { self.new.next ≡ self.old.next }
        ensures act { (act : ConnsAct L)
            × ConnsDo H.does H.stops (tells L.received L.sent L.ends L.waits L.failures) act
            (conns_seen self.old.slots self.old.logged self.old.next)
            (conns_seen self.new.slots self.new.logged self.new.next) }
    {
        let Some(gated) = self.slots.get_mut(key) else {
            return false;
        };
        gated.set_gate(to);
        true
    }
}
