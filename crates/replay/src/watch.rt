//! How long a replay has run.

ghost use Rattle.std.specs.Prelude.{IfOk};
ghost use Rattle.std.specs.Time.{FitsClock, instant_nanos};
ghost use Rattle.replay.specs.Watches.{IsRead};

use std::io;
use std::time::{Clock, Instant};

/// The moment at which a replay began.
#[derive(Clone, Copy)]
pub struct Watch {
    begun: Instant,
}

impl Watch {
    /// Begins now.
    ///
    /// # Errors
    ///
    /// Returns an error if the clock can't be read.
    pub fn start(clock: &impl Clock) -> io::Result<Watch>
        ensures { IfOk result (λ watch. FitsClock (instant_nanos watch.begun)) }
    {
        Ok(Watch {
            begun: Instant::now(clock)?,
        })
    }

    /// Returns how many microseconds ago that was.
    ///
    /// # Errors
    ///
    /// Returns an error if the clock can't be read.
    pub fn now(self, clock: &impl Clock) -> io::Result<u64>
        ensures { IfOk result (λ micros. IsRead self.begun micros) }
    {
        let gone = Instant::now(clock)?.saturating_duration_since(self.begun);
        Ok(u64::try_from(gone.as_micros()).unwrap_or(u64::MAX))
    }
}
