//! Says when records are taken. The moments of a replay are microseconds since it began, and the
//! times of records microseconds since the earliest one that a record can have.

ghost use Rattle.std.specs.Prelude.{◌≡◌, ◌&&◌, None, is_none, not};
ghost use Rattle.replay.specs.Paces.{due_at, least, patience_of, plus, scaled, taken_at};

/// How long an answer is awaited, in microseconds, beside as long as the record took for it.
const PATIENCE: u64 = 5_000_000;

/// Where the clock and the times of the record stood when the first record was taken.
#[derive(Clone, Copy)]
struct Begun {
    now: u64,
    micros: u64,
}

/// When a record is taken, and the times of it and of the record before it.
#[derive(Clone, Copy)]
pub struct Taken {
    pub now: u64,
    pub micros: u64,
    pub last: u64,
}

impl Taken {
    /// Returns for how many microseconds is waited for what the record has, and began when a record
    /// of the time `since` was taken, or the one before it if that isn't known.
    pub fn patience(self, since: Option<u64>) -> u64
        ensures { result ≡ patience_of self since }
    {
        let gap = self.micros.saturating_sub(since.unwrap_or(self.last));
        gap.saturating_add(PATIENCE)
    }

    /// Returns up to when is waited for that, from now on.
    pub fn due(self, since: Option<u64>) -> u64
        ensures { result ≡ plus self.now (patience_of self since) }
    {
        self.now.saturating_add(self.patience(since))
    }
}

/// When a record is taken.
#[derive(Clone, Copy)]
pub enum Timing {
    /// Now.
    Now(Taken),
    /// Not before this moment.
    At(u64),
}

/// When the records are taken.
#[derive(Clone, Copy)]
pub struct Pace {
    /// How fast, in percent, or as fast as answers come.
    speed: Option<u64>,
    begun: Option<Begun>,
    /// The time of the record that was taken last.
    last: Option<u64>,
}

/// Returns the earlier one of two moments, or the one that there is.
pub fn earlier(a: Option<u64>, b: Option<u64>) -> Option<u64>
    ensures { result ≡ least a b }
{
    match (a, b) {
        (Some(a), Some(b)) => Some(a.min(b)),
        (Some(a), None) => Some(a),
        (None, b) => b,
    }
}

/// Returns a number of microseconds at a speed in percent.
fn scaled(micros: u64, speed: u64) -> u64
    ensures { result ≡ scaled micros speed }
{
    let parts = u128::from(micros) * 100 / u128::from(speed.max(1));
    u64::try_from(parts).unwrap_or(u64::MAX)
}

impl Begun {
    /// Returns the moment before which a record of this time isn't taken.
    fn due(self, speed: Option<u64>, micros: u64) -> u64
        ensures { result ≡ due_at self speed micros }
    {
        match speed {
            Some(speed) => {
                let late = scaled(micros.saturating_sub(self.micros), speed);
                self.now.saturating_add(late)
            }
            None => 0,
        }
    }
}

impl Pace {
    /// Begins at this speed in percent; without it, records are taken as fast as answers come.
    pub fn new(speed: Option<u64>) -> Pace
        ensures speed { result.speed ≡ speed }
        ensures begun { result.begun ≡ None }
        ensures last { result.last ≡ None }
    {
        Pace {
            speed,
            begun: None,
            last: None,
        }
    }

    /// Returns true if the next record may be taken once its time has come: all requests were sent,
    /// and unless records are taken at their times, no answer is awaited.
    pub fn may_go_on(&self, is_sent: bool, awaits: bool) -> bool
        ensures { result ≡ (is_sent && not (is_none self.now.speed && awaits)) }
    {
        is_sent && !(self.speed.is_none() && awaits)
    }

    /// Returns when a record of this time is taken. If that is now, notes it.
    pub fn take(&mut self, now: u64, micros: u64) -> Timing
        ensures { (result, self.new) ≡ taken_at now micros self.old }
    {
        let begun = self.begun.unwrap_or(Begun { now, micros });
        self.begun = Some(begun);
        let due = begun.due(self.speed, micros);
        if now < due {
            return Timing::At(due);
        }
        let last = self.last.unwrap_or(micros);
        self.last = Some(micros);
        Timing::Now(Taken { now, micros, last })
    }
}
