//! A line on standard error that tells how much of the input was read, redrawn while reading goes
//! on.

ghost use Rattle.std.specs.Prelude.{◌≡◌};

use std::io::{ErrorKind, Read};
use std::time::{Clock, Duration, Instant};
use std::{fmt, io};

/// How many milliseconds reading goes on before the line is drawn.
const BEFORE: u64 = 1000;

/// How many milliseconds the line stands before it is drawn again.
const BETWEEN: u64 = 250;

/// A reader that draws, while it reads, how much it read. At the end of the input, or if reading
/// fails, it wipes the line out.
#[derive(Drop)]
pub struct Progress<'a, R, E> {
    pub inner: R,
    rt: &'a E,
    line: Option<Line>,
}

impl<'a, R: Read, E: Eprint + Clock> Progress<'a, R, E> {
    /// Makes a reader that reads from `inner`, which has `size` bytes if that is known. Draws
    /// nothing if `drawn` is false, or if the clock can't be read.
    pub fn new(inner: R, size: Option<u64>, drawn: bool, rt: &'a E) -> Progress<'a, R, E>
        ensures { result.inner ≡ inner }
    {
        let line = if drawn {
            Line::new(size, rt).ok()
        } else {
            None
        };
        Progress { inner, rt, line }
    }

    /// Wipes the line out, if it is drawn.
    pub fn wipe(&mut self)
        ensures { self.new.inner ≡ self.old.inner }
    {
        if let Some(line) = &mut self.line {
            line.wipe(self.rt);
        }
    }

    /// Draws the line if it is time to, after this was read.
    fn draw(&mut self, read: &io::Result<usize>)
        ensures { self.new.inner ≡ self.old.inner }
    {
        let Some(line) = &mut self.line else {
            return;
        };
        match read {
            Ok(0) => line.wipe(self.rt),
            Ok(n) => line.add(*n as u64, self.rt),
            Err(error) if error.kind() == ErrorKind::Interrupted => {}
            Err(_) => line.wipe(self.rt),
        }
    }
}

impl<R: Read, E: Eprint + Clock> Read for Progress<'_, R, E> {
    ghost remaining = { λ p. R.remaining p.inner };

    fn read(&mut self, buf: &mut [u8]) -> io::Result<usize> {
        let read = self.inner.read(buf);
        self.draw(&read);
        read
    }
}

/// The line: how much was read, of how much, and since when.
#[derive(Clone, Copy)]
struct Line {
    size: Option<u64>,
    read: u64,
    began: Instant,
    /// When the line is to be drawn next, counted from the beginning.
    due: Duration,
    is_drawn: bool,
}

impl Line {
    /// Makes a line for an input of this size, if that is known. Errs if the clock can't be read.
    fn new(size: Option<u64>, clock: &impl Clock) -> io::Result<Line> {
        Ok(Line {
            size,
            read: 0,
            began: Instant::now(clock)?,
            due: Duration::from_millis(BEFORE),
            is_drawn: false,
        })
    }

    /// Counts `n` more bytes, and draws the line if it is time to.
    fn add(&mut self, n: u64, rt: &(impl Eprint + Clock)) {
        self.read = self.read.saturating_add(n);
        let Ok(taken) = self.began.elapsed(rt) else {
            return;
        };
        if taken >= self.due {
            self.due = taken.saturating_add(Duration::from_millis(BETWEEN));
            self.is_drawn = true;
            let state = State {
                read: self.read,
                size: self.size,
                taken,
            };
            // If standard error takes no line, there is none.
            let _ = eprint!(rt; "\r{state}\x1b[K");
        }
    }

    /// Wipes the line out, if it is drawn.
    fn wipe(&mut self, rt: &impl Eprint) {
        if self.is_drawn {
            self.is_drawn = false;
            let _ = eprint!(rt; "\r\x1b[K");
        }
    }
}

/// What the line tells: how much was read, of how much, how much a second, and the time left.
#[derive(Clone, Copy)]
struct State {
    read: u64,
    size: Option<u64>,
    taken: Duration,
}

impl State {
    /// Returns how many bytes were read a second.
    fn rate(&self) -> u64 {
        let millis = self.taken.as_millis().max(1);
        u64::try_from(u128::from(self.read) * 1000 / millis).unwrap_or(u64::MAX)
    }
}

impl fmt::Display for State {
    fn fmt<W: fmt::Write>(&self, f: &mut fmt::Formatter<W>) -> fmt::Result {
        let rate = self.rate();
        write!(f, "{}", Megabytes(self.read))?;
        if let Some(size) = self.size {
            let share = u128::from(self.read) * 100 / u128::from(size.max(1));
            write!(f, " of {}, {share} %", Megabytes(size))?;
        }
        write!(f, ", {} a second", Megabytes(rate))?;
        if let Some(size) = self.size {
            let left = size.saturating_sub(self.read) / rate.max(1);
            write!(f, ", {left} s left")?;
        }
        Ok(())
    }
}

/// A number of bytes, told in millions.
#[derive(Clone, Copy)]
struct Megabytes(u64);

impl fmt::Display for Megabytes {
    fn fmt<W: fmt::Write>(&self, f: &mut fmt::Formatter<W>) -> fmt::Result {
        let tenths = self.0 / 100_000;
        write!(f, "{}.{} MB", tenths / 10, tenths % 10)
    }
}
