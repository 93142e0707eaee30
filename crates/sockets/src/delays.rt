//! The connections of which a message is held, each until a moment.

ghost use Rattle.std.specs.Prelude.{◌≡◌, [], IfOk, MatchOption, OnErr, OnOk};
ghost use Rattle.std.specs.Prelude.{is_some, min, option_map};
ghost use Rattle.std.specs.Duration.{as_nanos};
ghost use Rattle.sockets.specs.Delaying.{Holds, IsLeast, IsTaken, index_of, is_due, nanos_left};
ghost use Rattle.sockets.specs.Delaying.{sooner, without};

use std::alloc::Global;
use std::io;
use std::time::{Clock, Duration, Instant};

/// A connection of which a message is held.
#[derive(Clone, Copy)]
struct Delay {
    /// The key of the connection.
    key: usize,
    /// When the message is let go, or `None` where there is no such moment.
    due: Option<Instant>,
}

/// Returns the shorter one of two times.
fn shorter(a: Duration, b: Duration) -> Duration
    ensures { as_nanos result ≡ min (as_nanos a) (as_nanos b) }
{
    if a.saturating_sub(b).is_zero() { a } else { b }
}

/// Returns the shorter one of two times, or the one that there is.
pub(crate) fn sooner(a: Option<Duration>, b: Option<Duration>) -> Option<Duration>
    ensures { option_map as_nanos result
        ≡ sooner (option_map as_nanos a) (option_map as_nanos b) }
{
    match (a, b) {
        (Some(a), Some(b)) => Some(shorter(a, b)),
        (Some(a), None) => Some(a),
        (None, b) => b,
    }
}

impl Delay {
    /// Returns for how long the message is held from this moment on, if it is let go.
    fn left(&self, now: Instant) -> Option<Duration>
        ensures { option_map as_nanos result ≡ nanos_left self.now.due now }
    {
        Some(self.due?.saturating_duration_since(now))
    }

    /// Returns true if the message is let go at this moment.
    fn is_due(self, now: Instant) -> bool
        ensures { result ≡ is_due self.due now }
    {
        match self.due {
            Some(due) => due.saturating_duration_since(now).is_zero(),
            None => false,
        }
    }
}

/// The connections of which a message is held, by their keys.
#[derive(Drop)]
pub struct Delays {
    list: Vec<Delay>,
}

impl Delays {
    /// Makes an empty list. It takes no memory.
    pub fn new(alloc: Global) -> Delays
        ensures { result.list.items ≡ [] }
    {
        Delays {
            list: Vec::new(alloc),
        }
    }

    /// Returns the index of this connection, if a message of it is held.
    fn index(&self, key: usize) -> Option<usize>
        ensures { result ≡ index_of key self.now.list.items }
    {
        self.list.iter().position(|delay| delay.key == key)
    }

    /// Returns true if a message of this connection is held.
    pub fn holds(&self, key: usize) -> bool
        ensures { result ≡ is_some (index_of key self.now.list.items) }
    {
        self.index(key).is_some()
    }

    /// Notes that a message of this connection is held for so many milliseconds from now on.
    ///
    /// # Errors
    ///
    /// Returns an error if the clock can't be read, or memory runs out.
    pub fn hold(&mut self, clock: &impl Clock, key: usize, millis: u64) -> io::Result<()>
        ensures held { OnOk result (Holds key millis self.old.list.items self.new.list.items) }
        ensures unchanged { OnErr result (self.new.list.items ≡ self.old.list.items) }
    {
        let due = Instant::now(clock)?.checked_add(Duration::from_millis(millis));
        self.list.push(Delay { key, due })?;
        Ok(())
    }

    /// Forgets that a message of this connection is held, if one is.
    pub fn forget(&mut self, key: usize)
        ensures { self.new.list.items
            ≡ without (index_of key self.old.list.items) self.old.list.items }
    {
        if let Some(i) = self.index(key) {
            let _ = self.list.remove(i);
        }
    }

    /// Returns in how long the first message is let go, if one is.
    ///
    /// # Errors
    ///
    /// Returns an error if the clock can't be read.
    pub fn least(&self, clock: &impl Clock) -> io::Result<Option<Duration>>
        ensures { IfOk result (λ left. IsLeast (option_map as_nanos left) self.now.list.items) }
    {
        if self.list.is_empty() {
            return Ok(None);
        }
        let now = Instant::now(clock)?;
        let mut least = None;
        for delay in self.list.iter() {
            least = sooner(least, delay.left(now));
        }
        Ok(least)
    }

    /// Returns a connection of which a message was held for long enough, and forgets it.
    ///
    /// # Errors
    ///
    /// Returns an error if the clock can't be read.
    pub fn take_due(&mut self, clock: &impl Clock) -> io::Result<Option<usize>>
        ensures taken { IfOk result (λ found. MatchOption found
            (self.new.list.items ≡ self.old.list.items)
            (λ key. IsTaken key self.old.list.items self.new.list.items)) }
        ensures unchanged { OnErr result (self.new.list.items ≡ self.old.list.items) }
    {
        if self.list.is_empty() {
            return Ok(None);
        }
        let now = Instant::now(clock)?;
        match self.list.iter().position(|delay| delay.is_due(now)) {
            Some(i) => Ok(Some(self.list.remove(i).key)),
            None => Ok(None),
        }
    }
}
