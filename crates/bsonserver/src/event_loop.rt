//! Waits for what happens at the listener and on connections, and notes which of them are to take
//! another turn.

ghost use Rattle.std.specs.Prelude.{◌≡◌, ◌↔◌, ◌++◌, [], IfOk, IsTrue, None, Ok, OnOk, Some, false};
ghost use Rattle.std.specs.Prelude.{is_some, option_to_list};
ghost use Rattle.std.specs.VecDeque.{deque_len};
ghost use Rattle.sockets.specs.{Holds, IsReady, index_of, with_key};
ghost use Rattle.server_core.specs.{settled};
ghost use Rattle.bsonserver.specs.Turning.{IsNext, StayDue};
ghost use Rattle.wire_serve.specs.declared.turned.Leave.{Leave};

use crate::edge_triggered::{EdgeTriggered, Turns};
use mio::Events;
use mio::event::Event;
use mio::net::TcpStream;
use server_core::{Stop, settle};
use sockets::{Acceptor, Delays, Due};
use std::alloc::{AllocError, Global};
use std::time::Clock;
use wire_serve::Turned;

/// The most connections that are open at once. More of them wait at the listener.
pub const ROOM: usize = 1024;

/// Which connections are to take another turn. It takes its memory before there is a listener.
#[derive(Drop)]
pub struct Pending {
    /// The turn that a connection takes.
    turns: Turns,
    /// The connections whose replies are held.
    delays: Delays,
    /// The connections whose turns ended before there was nothing to do. There is room for all, so
    /// another turn wants no memory.
    again: Due,
}

impl Pending {
    /// Begins before the first turn.
    ///
    /// # Errors
    ///
    /// Returns `AllocError` if memory runs out.
    pub fn new(alloc: Global) -> Result<Pending, AllocError>
        ensures { IfOk result (λ p. (p.delays.list.items ≡ []) × (p.again.keys.items ≡ [])) }
    {
        let turns = Turns::new(alloc)?;
        let again = Due::with_room(alloc, ROOM)?;
        Ok(Pending {
            turns,
            delays: Delays::new(alloc),
            again,
        })
    }

    /// Has the connections take another turn whose replies were held for long enough.
    fn release(&mut self, clock: &impl Clock) -> Result<(), Stop>
        ensures { StayDue self.old.again.keys.items self.new.again.keys.items }
    {
        for _ in 0..ROOM {
            match self.delays.take_due(clock)? {
                Some(key) => self.again.push(key)?,
                None => break,
            }
        }
        Ok(())
    }
}

/// A listener, and which of its connections are to take another turn.
#[derive(Drop)]
pub struct EventLoop {
    acceptor: Acceptor,
    pending: Pending,
}

impl EventLoop {
    /// Begins to wait.
    pub fn new(acceptor: Acceptor, pending: Pending) -> EventLoop
        ensures acceptor { result.acceptor ≡ acceptor }
        ensures pending { result.pending ≡ pending }
    {
        EventLoop { acceptor, pending }
    }

    /// Returns what accepts connections, and waits for the events of sockets.
    pub fn acceptor(&self) -> &Acceptor
        ensures { result.now ≡ self.now.acceptor }
    {
        &self.acceptor
    }

    /// Returns true if a connection may wait at the listener.
    pub fn is_ready(&self) -> bool
        ensures { IsTrue result ↔ IsReady self.now.acceptor }
    {
        self.acceptor.is_ready()
    }

    /// Notes that a connection may wait at the listener.
    pub fn resume(&mut self)
        ensures ready { IsReady self.new.acceptor }
        ensures pending { self.new.pending ≡ self.old.pending }
    {
        self.acceptor.resume();
    }

    /// Accepts the connection that is to have this key, if one waits, one more is wanted and there
    /// is room for it. If it can't be registered, it is accepted once more after a pause.
    ///
    /// # Errors
    ///
    /// Returns `AllocError` if there are more streams than are counted.
    pub fn accept(
        &mut self,
        has_room: bool,
        key: usize,
    ) -> Result<Option<EdgeTriggered<TcpStream>>, AllocError>
        ensures room { has_room ≡ false → result ≡ Ok None }
        ensures pending { self.new.pending ≡ self.old.pending }
    {
        match self.acceptor.accept_under(has_room, key) {
            Some(stream) => Ok(Some(self.pending.turns.edge_triggered(stream)?)),
            None => Ok(None),
        }
    }

    /// Counts that the system told events.
    pub fn count(&mut self)
        ensures { IsNext self.old.pending.turns.told self.new.pending.turns.told }
    {
        self.pending.turns.count();
    }

    /// Begins a turn by one of the events that the system told last.
    pub fn begin_turn(&self, event: &Event) {
        let turns = &self.pending.turns;
        turns.current.set(turns.number_of(event));
    }

    /// Returns how many connections are to take another turn.
    pub fn due(&self) -> usize
        ensures { result ≡ deque_len self.now.pending.again.keys }
    {
        self.pending.again.len()
    }

    /// Begins the turn of the next connection that is to take another one. Returns its key.
    pub fn resume_turn(&mut self) -> Option<usize>
        ensures { self.old.pending.again.keys.items
            ≡ option_to_list result ++ self.new.pending.again.keys.items }
    {
        let key = self.pending.again.pop()?;
        self.pending.turns.current.set(None);
        Some(key)
    }

    /// Notes that a connection is to take another turn.
    pub fn take_up(&mut self, key: usize) -> Result<(), Stop>
        ensures { OnOk result (self.new.pending.again.keys.items
            ≡ with_key key self.old.pending.again.keys.items) }
    {
        Ok(self.pending.again.push(key)?)
    }

    /// Returns true if the reply of this connection is held.
    pub fn holds(&self, key: usize) -> bool
        ensures { result ≡ is_some (index_of key self.now.pending.delays.list.items) }
    {
        self.pending.delays.holds(key)
    }

    /// Holds the reply of a connection for so many milliseconds.
    pub fn hold(&mut self, clock: &impl Clock, key: usize, millis: u64) -> Result<(), Stop>
        ensures { OnOk result (Holds key millis self.old.pending.delays.list.items
            self.new.pending.delays.list.items) }
    {
        Ok(self.pending.delays.hold(clock, key, millis)?)
    }

    /// Goes on after a turn of a connection. Returns why the server stops, if it does.
    pub fn after_turn(&mut self, key: usize, turned: Option<Turned>) -> Result<(), Stop>
        ensures over { (leave : Leave) → turned ≡ Some (Turned.Over leave)
            → result ≡ settled leave }
        ensures again { turned ≡ Some Turned.Again → OnOk result
            (self.new.pending.again.keys.items
            ≡ with_key key self.old.pending.again.keys.items) }
        ensures due { OnOk result (StayDue self.old.pending.again.keys.items
            self.new.pending.again.keys.items) }
    {
        match turned {
            Some(Turned::Again) => self.take_up(key),
            Some(Turned::Over(leave)) => {
                self.resume();
                settle(leave)
            }
            Some(Turned::Waits) | None => Ok(()),
        }
    }

    /// Says on standard error why connections wait, once until none does. If standard error takes no
    /// line, they wait all the same.
    fn tell_backlog(&mut self, rt: &impl Eprint)
        ensures { self.new.pending ≡ self.old.pending }
    {
        if let Some(reason) = self.acceptor.take_reason() {
            let _ = eprintln!(rt; "bsonserver: {reason}");
        }
    }

    /// Waits for events: not at all if there is more to do, and no longer than a reply is held. Then
    /// has the connections take another turn whose replies were held for long enough.
    pub fn wait<R: Clock + Eprint>(
        &mut self,
        rt: &R,
        events: &mut Events<Global>,
    ) -> Result<(), Stop>
        ensures { StayDue self.old.pending.again.keys.items self.new.pending.again.keys.items }
    {
        self.tell_backlog(rt);
        let held = self.pending.delays.least(rt)?;
        let has_more = !self.pending.again.is_empty();
        self.acceptor.wait(events, has_more, held)?;
        self.pending.release(rt)
    }
}
