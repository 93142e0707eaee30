//! Keeps a pool: which connections are idle, and which are lent.

ghost use Rattle.std.specs.Prelude.{◌≡◌, ◌<◌, ℕ, All, IfSome, Some, is_some};
ghost use Rattle.wire_pool.specs.declared.pool_answers.CheckOut.TheVariants.{Open};
ghost use Rattle.wire_pool.specs.Loans.{loan_of};
ghost use Rattle.wire_pool.specs.Pools.{IsNewPool, checked_in, checked_out, cleared_pool};
ghost use Rattle.wire_pool.specs.Pools.{closed_pool, drawn, known_ids, reset_pool};

use crate::loans::{Loan, clear_all, loan_of, take_out};
use crate::pool_answers::{CheckIn, CheckOut, PoolRefusal};
use std::alloc::Global;
use std::collections::VecDeque;
use std::marker::Model;

/// The most connections that a pool may have.
const MAX_CONNECTIONS: usize = 1024;

/// A pool that lends connections, and takes them back. It gives each new one an id, from 1
/// upwards, and never gives an id twice. No call after `new` takes memory.
///
/// Contracts see it as the record `PoolSeen`.
#[derive(Drop)]
pub struct Pool {
    max: usize,
    /// The ids of the idle connections, the most recently returned one first.
    idle: VecDeque<u64>,
    lent: Vec<Loan>,
    /// The next new id, unless the greatest was given.
    next: Option<u64>,
    closed: bool,
}

impl Model for Pool {
    ghost use Rattle.wire_pool.specs.Pools.{PoolSeen};
    ghost use Rattle.wire_pool.specs.PoolParts.{AreParts, view_of};

    ghost Value = { PoolSeen };

    ghost view = { λ s. view_of s.max s.idle s.lent s.next s.closed };

    ghost invariant = { λ s. AreParts s.max s.idle s.lent s.next s.closed };
}

impl Pool {
    /// Makes a pool of at most `max` connections, 1 to 1,024. Takes all memory that it will need:
    /// each of its lists has room for exactly `max`.
    ///
    /// # Errors
    ///
    /// Returns `BadMax` if `max` is out of range, and otherwise `OutOfMemory` if memory runs out.
    pub fn new(alloc: Global, max: usize) -> Result<Pool, PoolRefusal>
        ensures { IsNewPool max result }
    {
        if max < 1 || max > MAX_CONNECTIONS {
            return Err(PoolRefusal::BadMax);
        }
        let Ok(idle) = VecDeque::with_capacity(alloc, max) else {
            return Err(PoolRefusal::OutOfMemory);
        };
        match Vec::with_capacity(alloc, max) {
            Ok(lent) => Ok(Pool {
                max,
                idle,
                lent,
                next: Some(1),
                closed: false,
            }),
            Err(_) => Err(PoolRefusal::OutOfMemory),
        }
    }

    /// Lends a connection: the most recently returned idle one, or else a new one, with an id
    /// greater than all given before. Returns `Full` if none is idle and `max` are lent or the
    /// greatest id was given, and `PoolClosed` if the pool is closed. Takes no memory.
    pub fn check_out(&mut self) -> CheckOut
        ensures step { (result, self.new) ≡ checked_out self.old }
        ensures newer { (id : ℕ) → result ≡ Open id
            → All (λ known. known < id) (known_ids self.old) }
    {
        if self.closed {
            return CheckOut::PoolClosed;
        }
        if let Some(id) = self.idle.pop_front() {
            self.lent.push_reserved(Loan { id, cleared: false });
            return CheckOut::Use(id);
        }
        let Some(id) = self.next else {
            return CheckOut::Full;
        };
        if self.lent.len() >= self.max {
            return CheckOut::Full;
        }
        self.next = id.checked_add(1);
        self.lent.push_reserved(Loan { id, cleared: false });
        CheckOut::Open(id)
    }

    /// Returns what `check_out` would answer now.
    pub fn peek(&self) -> CheckOut
        ensures { result ≡ (checked_out self.now).0 }
    {
        if self.closed {
            return CheckOut::PoolClosed;
        }
        if let Some(id) = self.idle.front() {
            return CheckOut::Use(*id);
        }
        match self.next {
            Some(id) if self.lent.len() < self.max => CheckOut::Open(id),
            _ => CheckOut::Full,
        }
    }

    /// Returns the next new id, or `None` if the greatest was given.
    pub fn next_id(&self) -> Option<u64>
        ensures { result ≡ self.now.next }
    {
        self.next
    }

    /// Returns true if the connection with this id is lent.
    pub fn is_lent(&self, id: u64) -> bool
        ensures { result ≡ is_some (loan_of id self.now.lent) }
    {
        loan_of(&self.lent, id).is_some()
    }

    /// Returns the ids of the idle connections, the most recently returned one first.
    pub fn idle(&self) -> &VecDeque<u64>
        ensures { result.now.items ≡ self.now.idle }
    {
        &self.idle
    }

    /// Takes back the connection with this id. It becomes idle if it is `healthy`, the pool is
    /// open, and the pool wasn't cleared since the connection was lent; otherwise it is dropped.
    /// Returns `NotLent` if it wasn't lent. Takes no memory.
    pub fn check_in(&mut self, id: u64, healthy: bool) -> CheckIn
        ensures { (result, self.new) ≡ checked_in self.old id healthy }
    {
        let Some(loan) = loan_of(&self.lent, id) else {
            return CheckIn::NotLent;
        };
        take_out(&mut self.lent, id);
        if loan.is_kept(healthy, self.closed) {
            self.idle.push_front_reserved(id);
            CheckIn::Kept
        } else {
            CheckIn::Dropped
        }
    }

    /// Drops the idle connections, and each lent one when it is returned. Takes no memory.
    pub fn clear(&mut self)
        ensures { self.new ≡ cleared_pool self.old }
    {
        self.idle.clear();
        clear_all(&mut self.lent);
    }

    /// Closes the pool for good. Drops the idle connections, and each lent one when it is
    /// returned. Takes no memory.
    pub fn close(&mut self)
        ensures { self.new ≡ closed_pool self.old }
    {
        self.idle.clear();
        self.closed = true;
    }

    /// Forgets all idle and lent connections. The next new id stays the same, and a closed pool
    /// stays closed. Takes no memory.
    pub fn reset(&mut self)
        ensures { self.new ≡ reset_pool self.old }
    {
        self.idle.clear();
        self.lent.clear();
    }

    /// Returns the next new id without lending anything, or `None` if the greatest was given. Works
    /// however many are lent, and on a closed pool. Takes no memory.
    pub fn draw(&mut self) -> Option<u64>
        ensures given { result ≡ self.old.next }
        ensures step { self.new ≡ drawn self.old }
        ensures newer { IfSome result (λ id. All (λ known. known < id) (known_ids self.old)) }
    {
        let id = self.next?;
        self.next = id.checked_add(1);
        Some(id)
    }
}
