//! Worlds of connections, and the events that happen in them.

ghost use Rattle.std.specs.Prelude.{◌≡◌, ◌≢◌, ◌↔◌, ◌-◌, IfErr, IfNone, IfOk, IfSome, IsTrue, Err};
ghost use Rattle.std.specs.Prelude.{MatchResult, None, Ok, OnErr, Some, map};
ghost use Rattle.wire_model.specs.{Calls, CutsDown, CutsUp, Happens, IsQuiet, RefusesCall};
ghost use Rattle.wire_model.specs.{Returns, cleared_world, dropped, first_reason, is_full_for};
ghost use Rattle.wire_model.specs.{restarted_world};
ghost use Rattle.wire_model.specs.declared.events.Event.TheVariants as events;
ghost use Rattle.wire_model.specs.declared.reports.Report.TheVariants as reports;
ghost use Rattle.wire_peer.specs.{content_of, log_of};
ghost use Rattle.wire_world.specs.Places.{IsPlace};
ghost use Rattle.wire_world.specs.Records.{record_of};
ghost use Rattle.wire_world.specs.Setups.{AreGoodForEnds, IsNewWorld, IsSetupRefusal};

use crate::connections::Connection;
use crate::lists::{connection_at, cut_all, cut_at, restart_all, settle};
use crate::moving::closed_now;
use crate::records::CallRecord;
use crate::rooms::make_room;
use std::alloc::{AllocError, Global};
use std::marker::Model;
use wire_model::{Event, Report, SetupRefusal, WorldLimits, WorldRefusal};
use wire_msg::{MAX_MESSAGE_LEN, Payload};
use wire_peer::{
    AnswerRefusal, CallKind, CallNo, CallRefusal, Entry, Handler, Logged, MAX_WINDOW, MIN_LIMIT,
};
use wire_pool::{CheckIn, CheckOut, Pool, PoolRefusal};

/// A world: a pool, its connections, the records of the calls, and a handler with its log. Its
/// lists have at most twice the room that they need, or room for four more.
///
/// A contract sees it as the record `WorldSeen`.
#[derive(Drop)]
pub struct World<H> {
    limits: WorldLimits,
    pool: Pool,
    connections: Vec<Connection>,
    calls: Vec<CallRecord>,
    logged: Logged<H>,
}

impl<H> Model for World<H> {
    ghost use Rattle.std.specs.Prelude.{map};
    ghost use Rattle.wire_peer.specs.{log_of};
    ghost use Rattle.std.specs.Vec.{vec_capacity, vec_len};
    ghost use Rattle.wire_world.specs.Records.{record_of};
    ghost use Rattle.wire_world.specs.Rooms.{IsFair};
    ghost use Rattle.wire_world.specs.Worlds.{AreParts, WorldSeen};

    ghost Value = { WorldSeen H };

    ghost use Rattle.std.specs.Coded.{codes};
    ghost use Rattle.wire_peer.specs.{coded_content};

    ghost coded = { Prim.hlevel (codes, coded_content) };

    ghost view = { λ w. record {
      limits = w.limits;
      state = record {
        pool = w.pool;
        conns = w.connections.items;
        calls = map record_of w.calls.items;
        log = log_of w.logged.entries.items;
        handler = w.logged.handler;
      };
    } };

    ghost invariant = { λ w. record {
      parts : AreParts w.limits w.pool w.connections.items (map record_of w.calls.items);
      rooms : IsFair (vec_len w.connections) (vec_capacity w.connections)
          × IsFair (vec_len w.calls) (vec_capacity w.calls);
    } };
}

/// Returns the refusal of the first limit that is outside its range, if one is. The pool checks the
/// number of connections.
fn limits_refusal(limits: WorldLimits) -> Option<SetupRefusal>
    ensures refused { IfSome result (λ refusal. IsSetupRefusal limits refusal) }
    ensures none { IfNone result (AreGoodForEnds limits) }
{
    if limits.first_id < 1 {
        return Some(SetupRefusal::BadFirstId);
    }
    if limits.window < 1 || limits.window > MAX_WINDOW {
        return Some(SetupRefusal::BadWindow);
    }
    if limits.limit < MIN_LIMIT || limits.limit > MAX_MESSAGE_LEN {
        return Some(SetupRefusal::BadLimit);
    }
    None
}

impl<H: Handler + Drop> World<H> {
    /// Returns a world in which nothing has happened.
    ///
    /// # Errors
    ///
    /// Returns the refusal of the first limit that is outside its range, or `OutOfMemory`. The
    /// handler is dropped then.
    pub fn new(alloc: Global, handler: H, limits: WorldLimits) -> Result<World<H>, SetupRefusal>
        ensures { IsNewWorld limits handler result }
    {
        if let Some(refusal) = limits_refusal(limits) {
            return Err(refusal);
        }
        match Pool::new(alloc, limits.connections) {
            Ok(pool) => Ok(World {
                limits,
                pool,
                connections: Vec::new(alloc),
                calls: Vec::new(alloc),
                logged: Logged::new(alloc, handler),
            }),
            Err(PoolRefusal::BadMax) => Err(SetupRefusal::BadMax),
            Err(PoolRefusal::OutOfMemory) => Err(SetupRefusal::OutOfMemory),
        }
    }
}

impl<H> World<H> {
    /// Returns the records of the calls, in the order in which they were made.
    pub fn calls(&self) -> &[CallRecord]
        ensures { map record_of result.now ≡ self.now.state.calls }
    {
        &self.calls
    }

    /// Returns the entries of the log, in order.
    pub fn log(&self) -> &[Entry]
        ensures { log_of result.now ≡ self.now.state.log }
    {
        self.logged.entries()
    }

    /// Returns true if neither way of the connection of this number was cut, no answer closed its
    /// server, nothing is on the ways, and no request waits.
    pub fn is_quiet(&self, number: u64) -> bool
        ensures { IsTrue result ↔ IsQuiet self.now.state number }
    {
        match connection_at(&self.connections, number) {
            Some(connection) => connection.is_quiet(),
            None => false,
        }
    }

    /// Returns the index of the event's connection, or 0 if it has none.
    ///
    /// # Errors
    ///
    /// Returns the first reason to refuse the event. A call that passes may still be refused by its
    /// client.
    fn check(&self, event: &Event<'_>) -> Result<usize, WorldRefusal>
        ensures reason { MatchResult result
            (λ _. first_reason self.now.state event.now ≡ None)
            (λ refusal. first_reason self.now.state event.now ≡ Some refusal) }
        ensures place { IfOk result (λ at. IsPlace event.now at) }
    {
        if self.is_full_for(event) {
            return Err(WorldRefusal::Full);
        }
        let Some(needs) = event.needs() else {
            return Ok(0);
        };
        let Some(connection) = connection_at(&self.connections, needs.connection) else {
            return Err(WorldRefusal::NoConnection);
        };
        if needs.client && connection.is_raw() {
            return Err(WorldRefusal::Raw);
        }
        if needs.raw && !connection.is_raw() {
            return Err(WorldRefusal::NotRaw);
        }
        if needs.loan && !self.pool.is_lent(needs.connection) {
            return Err(WorldRefusal::NotLent);
        }
        if connection.is_cut_for(needs) {
            return Err(WorldRefusal::Cut);
        }
        if let Event::Answer(_, k) = *event
            && let Some(refusal) = connection.answer_refusal(k)
        {
            return Err(WorldRefusal::Answer(refusal));
        }
        Ok((needs.connection - 1) as usize)
    }

    /// Returns true if the event is `Open` and the pool has nothing to lend, or `RawOpen` and no
    /// number is left.
    fn is_full_for(&self, event: &Event<'_>) -> bool
        ensures { result ≡ is_full_for self.now.state event.now }
    {
        match *event {
            Event::Open => self.pool.peek() == CheckOut::Full,
            Event::RawOpen => self.pool.next_id().is_none(),
            _ => false,
        }
    }

    /// Cuts both ways of a connection, and marks its pending calls as lost.
    fn drop_connection(&mut self, number: u64)
        ensures { self.new ≡ record self.old { state = dropped self.old.state number } }
    {
        cut_at(&mut self.connections, number);
        settle(&mut self.calls, &self.connections);
    }

    /// Checks in a lent connection. Returns true if it is kept, and false if it is dropped.
    fn give_back(&mut self, number: u64, at: usize) -> bool
        requires passes { first_reason self.old.state (events.Return number) ≡ None }
        requires place { at ≡ number - 1 }
        ensures limits { self.new.limits ≡ self.old.limits }
        ensures state { Returns self.old.state number result self.new.state }
    {
        let connection = &self.connections[at];
        let healthy = connection.is_healthy();
        match self.pool.check_in(number, healthy) {
            CheckIn::Kept => true,
            CheckIn::Dropped => {
                self.drop_connection(number);
                false
            }
            CheckIn::NotLent => unreachable!(),
        }
    }

    /// Cuts the way up.
    fn cut_up(&mut self, number: u64, at: usize)
        requires passes { first_reason self.old.state (events.CutUp number) ≡ None }
        requires place { at ≡ number - 1 }
        ensures limits { self.new.limits ≡ self.old.limits }
        ensures state { CutsUp self.old.state number self.new.state }
    {
        let connection = &mut self.connections[at];
        connection.cut_up();
    }

    /// Cuts the way down.
    fn cut_down(&mut self, number: u64, at: usize)
        requires passes { first_reason self.old.state (events.CutDown number) ≡ None }
        requires place { at ≡ number - 1 }
        ensures limits { self.new.limits ≡ self.old.limits }
        ensures state { CutsDown self.old.state number self.new.state }
    {
        let connection = &mut self.connections[at];
        connection.cut_down();
        settle(&mut self.calls, &self.connections);
    }

    /// Clears the pool, and cuts both ways of the connections that were idle.
    fn clear(&mut self)
        ensures { self.new ≡ record self.old { state = cleared_world self.old.state } }
    {
        cut_all(&mut self.connections, self.pool.idle());
        self.pool.clear();
        settle(&mut self.calls, &self.connections);
    }

    /// Ends all clients, and resets the pool.
    fn restart(&mut self)
        ensures { self.new ≡ record self.old { state = restarted_world self.old.state } }
    {
        restart_all(&mut self.connections);
        self.pool.reset();
        settle(&mut self.calls, &self.connections);
    }
}

impl<H: Handler> World<H> {
    /// Checks out a connection.
    ///
    /// # Errors
    ///
    /// Returns `OutOfMemory` if memory runs out. Nothing changes then.
    fn open(&mut self) -> Result<Report, WorldRefusal>
        requires { first_reason self.old.state events.Open ≡ None }
        ensures limits { self.new.limits ≡ self.old.limits }
        ensures state { Happens H.does H.stops self.old.limits self.old.state events.Open result
            self.new.state }
    {
        match self.pool.peek() {
            CheckOut::Use(connection) => {
                let _ = self.pool.check_out();
                Ok(Report::Opened {
                    connection,
                    new: false,
                })
            }
            CheckOut::Open(connection) => {
                if make_room(&mut self.connections).is_err() {
                    return Err(WorldRefusal::OutOfMemory);
                }
                let alloc = *self.connections.allocator();
                let Ok(opened) = Connection::new(alloc, self.limits, connection) else {
                    return Err(WorldRefusal::OutOfMemory);
                };
                self.connections.push_reserved(opened);
                let _ = self.pool.check_out();
                Ok(Report::Opened {
                    connection,
                    new: true,
                })
            }
            CheckOut::Full | CheckOut::PoolClosed => unreachable!(),
        }
    }

    /// Makes a raw connection.
    ///
    /// # Errors
    ///
    /// Returns `OutOfMemory` if memory runs out. Nothing changes then.
    fn open_raw(&mut self) -> Result<Report, WorldRefusal>
        requires { first_reason self.old.state events.RawOpen ≡ None }
        ensures limits { self.new.limits ≡ self.old.limits }
        ensures state { Happens H.does H.stops self.old.limits self.old.state events.RawOpen result
            self.new.state }
    {
        let Some(number) = self.pool.next_id() else {
            unreachable!()
        };
        if make_room(&mut self.connections).is_err() {
            return Err(WorldRefusal::OutOfMemory);
        }
        let alloc = *self.connections.allocator();
        let Ok(connection) = Connection::new_raw(alloc, self.limits, number) else {
            return Err(WorldRefusal::OutOfMemory);
        };
        self.connections.push_reserved(connection);
        let _ = self.pool.draw();
        Ok(Report::RawOpened(number))
    }

    /// Makes a call, and its record.
    ///
    /// # Errors
    ///
    /// Returns why the client refuses the call, or `OutOfMemory`. Nothing changes then.
    fn make_call(
        &mut self,
        number: u64,
        at: usize,
        kind: CallKind,
        payload: Payload<'_>,
    ) -> Result<CallNo, CallRefusal>
        requires passes { first_reason self.old.state (events.Call number kind payload) ≡ None }
        requires place { at ≡ number - 1 }
        ensures limits { self.new.limits ≡ self.old.limits }
        ensures called { IfOk result
            (λ no. Calls self.old.state number kind (content_of payload.entry) no self.new.state) }
        ensures refused { IfErr result (λ e. e ≢ CallRefusal.OutOfMemory
            → RefusesCall self.old.state (events.Call number kind payload.entry) e) }
        ensures unchanged { OnErr result (self.new ≡ self.old) }
    {
        if make_room(&mut self.calls).is_err() {
            return Err(CallRefusal::OutOfMemory);
        }
        let alloc = *self.calls.allocator();
        let Ok(record) = CallRecord::new(alloc, number, kind, payload) else {
            return Err(CallRefusal::OutOfMemory);
        };
        let connection = &mut self.connections[at];
        let call = connection.call(kind, payload, self.calls.len())?;
        self.calls.push_reserved(record);
        Ok(call)
    }

    /// Makes a call.
    ///
    /// # Errors
    ///
    /// Returns why the client refuses the call, and nothing changes then; or `OutOfMemory`, and the
    /// connection is cut both ways then.
    fn call(
        &mut self,
        number: u64,
        at: usize,
        kind: CallKind,
        payload: Payload<'_>,
    ) -> Result<Report, WorldRefusal>
        requires passes { first_reason self.old.state (events.Call number kind payload) ≡ None }
        requires place { at ≡ number - 1 }
        ensures limits { self.new.limits ≡ self.old.limits }
        ensures state { Happens H.does H.stops self.old.limits self.old.state
            (events.Call number kind payload.entry) result self.new.state }
    {
        let index = self.calls.len();
        match self.make_call(number, at, kind, payload) {
            Ok(call) => Ok(Report::Called {
                call: index,
                id: call.id,
            }),
            Err(CallRefusal::OutOfMemory) => {
                self.drop_connection(number);
                Err(WorldRefusal::OutOfMemory)
            }
            Err(refusal) => Err(WorldRefusal::Call(refusal)),
        }
    }

    /// Has a waiting request answered.
    ///
    /// # Errors
    ///
    /// Returns `OutOfMemory` if memory runs out before the handler is asked. The connection is cut
    /// both ways then.
    fn answer(&mut self, number: u64, at: usize, k: usize) -> Result<Report, WorldRefusal>
        requires passes { first_reason self.old.state (events.Answer number k) ≡ None }
        requires place { at ≡ number - 1 }
        ensures limits { self.new.limits ≡ self.old.limits }
        ensures state { Happens H.does H.stops self.old.limits self.old.state
            (events.Answer number k) result self.new.state }
    {
        let connection = &mut self.connections[at];
        match connection.answer(k, &mut self.logged) {
            Ok(entry) => Ok(Report::Entry(entry)),
            Err(AnswerRefusal::NowClosed(cause)) => Ok(Report::ClosedBy(cause)),
            Err(AnswerRefusal::OutOfMemory) => {
                self.drop_connection(number);
                Err(WorldRefusal::OutOfMemory)
            }
            Err(AnswerRefusal::Closed) => unreachable!(),
            Err(AnswerRefusal::NoSuchRequest) => unreachable!(),
        }
    }

    /// Moves bytes up.
    ///
    /// # Errors
    ///
    /// Returns `OutOfMemory` if memory runs out. The connection is cut both ways then.
    fn up(&mut self, number: u64, at: usize, n: usize) -> Result<Report, WorldRefusal>
        requires passes { first_reason self.old.state (events.Up number n) ≡ None }
        requires place { at ≡ number - 1 }
        ensures limits { self.new.limits ≡ self.old.limits }
        ensures state { Happens H.does H.stops self.old.limits self.old.state (events.Up number n)
            result self.new.state }
    {
        let connection = &mut self.connections[at];
        match connection.move_up(n) {
            Ok(moved) => Ok(Report::Moved(moved)),
            Err(_) => {
                self.drop_connection(number);
                Err(WorldRefusal::OutOfMemory)
            }
        }
    }

    /// Moves bytes down, and marks the pending calls as lost if the client is closed then. Returns
    /// how many bytes were moved.
    ///
    /// # Errors
    ///
    /// Returns `OutOfMemory` if memory runs out. The connection is cut both ways then.
    fn move_down(&mut self, number: u64, at: usize, n: usize) -> Result<usize, AllocError>
        requires passes { first_reason self.old.state (events.Down number n) ≡ None }
        requires place { at ≡ number - 1 }
        ensures limits { self.new.limits ≡ self.old.limits }
        ensures state { MatchResult result
            (λ moved. Happens H.does H.stops self.old.limits self.old.state (events.Down number n)
            (Ok (reports.Moved moved)) self.new.state)
            (λ _. Happens H.does H.stops self.old.limits self.old.state (events.Down number n)
            (Err WorldRefusal.OutOfMemory) self.new.state) }
    {
        let connection = &mut self.connections[at];
        let moved = connection.move_down(n, &mut self.calls);
        if connection.is_closed() {
            settle(&mut self.calls, &self.connections);
        }
        moved
    }

    /// Moves bytes down.
    ///
    /// # Errors
    ///
    /// Returns `OutOfMemory` if memory runs out. The connection is cut both ways then.
    fn down(&mut self, number: u64, at: usize, n: usize) -> Result<Report, WorldRefusal>
        requires passes { first_reason self.old.state (events.Down number n) ≡ None }
        requires place { at ≡ number - 1 }
        ensures limits { self.new.limits ≡ self.old.limits }
        ensures state { Happens H.does H.stops self.old.limits self.old.state (events.Down number n)
            result self.new.state }
    {
        match self.move_down(number, at, n) {
            Ok(moved) => Ok(Report::Moved(moved)),
            Err(_) => Err(WorldRefusal::OutOfMemory),
        }
    }

    /// Feeds the server of a raw connection.
    ///
    /// # Errors
    ///
    /// Returns `OutOfMemory` if memory runs out. The connection is cut both ways then.
    fn feed_raw(&mut self, number: u64, at: usize, bytes: &[u8]) -> Result<Report, WorldRefusal>
        requires passes { first_reason self.old.state (events.Raw number bytes) ≡ None }
        requires place { at ≡ number - 1 }
        ensures limits { self.new.limits ≡ self.old.limits }
        ensures state { Happens H.does H.stops self.old.limits self.old.state
            (events.Raw number bytes.entry) result self.new.state }
    {
        let connection = &mut self.connections[at];
        let before = connection.server.state();
        match connection.take_raw(bytes) {
            Ok(moved) => Ok(Report::RawMoved {
                moved,
                closed: closed_now(before, connection.server.state()),
            }),
            Err(_) => {
                self.drop_connection(number);
                Err(WorldRefusal::OutOfMemory)
            }
        }
    }

    /// Takes away bytes of the output of a raw connection's server.
    ///
    /// # Errors
    ///
    /// Returns `OutOfMemory` if memory runs out. The connection is cut both ways then.
    fn take_raw(&mut self, number: u64, at: usize, n: usize) -> Result<Report, WorldRefusal>
        requires passes { first_reason self.old.state (events.RawTake number n) ≡ None }
        requires place { at ≡ number - 1 }
        ensures limits { self.new.limits ≡ self.old.limits }
        ensures state { Happens H.does H.stops self.old.limits self.old.state
            (events.RawTake number n) result self.new.state }
    {
        let alloc = *self.calls.allocator();
        let connection = &mut self.connections[at];
        match connection.give_raw(alloc, n) {
            Ok(bytes) => Ok(Report::Bytes(bytes)),
            Err(_) => {
                self.drop_connection(number);
                Err(WorldRefusal::OutOfMemory)
            }
        }
    }

    /// Makes an event happen, and returns what it has done.
    ///
    /// # Errors
    ///
    /// Returns the first reason to refuse the event. Nothing changes then, except with
    /// `OutOfMemory`: some bytes may have been moved, and the event's connection, if it has one, is
    /// cut both ways.
    pub fn step(&mut self, event: &Event<'_>) -> Result<Report, WorldRefusal>
        ensures limits { self.new.limits ≡ self.old.limits }
        ensures state { Happens H.does H.stops self.old.limits self.old.state event.now result
            self.new.state }
    {
        let at = self.check(event)?;
        match *event {
            Event::Open => self.open(),
            Event::Return(c) => Ok(if self.give_back(c, at) {
                Report::Kept
            } else {
                Report::Dropped
            }),
            Event::Call(c, kind, payload) => self.call(c, at, kind, payload),
            Event::Up(c, n) => self.up(c, at, n),
            Event::Down(c, n) => self.down(c, at, n),
            Event::Answer(c, k) => self.answer(c, at, k),
            Event::CutUp(c) => {
                self.cut_up(c, at);
                Ok(Report::Done)
            }
            Event::CutDown(c) => {
                self.cut_down(c, at);
                Ok(Report::Done)
            }
            Event::Clear => {
                self.clear();
                Ok(Report::Done)
            }
            Event::Restart => {
                self.restart();
                Ok(Report::Done)
            }
            Event::RawOpen => self.open_raw(),
            Event::Raw(c, bytes) => self.feed_raw(c, at, bytes),
            Event::RawTake(c, n) => self.take_raw(c, at, n),
        }
    }
}
