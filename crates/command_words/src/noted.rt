//! Readers and writers that keep why they failed, for the message that tells of it.

use std::io::{ErrorKind, Read, Write};
use std::{fmt, io};

/// The kind of an error and the system's number of it, if it is one of the system's.
#[derive(Clone, Copy)]
struct Failure {
    kind: ErrorKind,
    code: Option<i32>,
}

impl Failure {
    /// Returns what is kept of this error.
    fn of(error: &io::Error) -> Failure {
        Failure {
            kind: error.kind(),
            code: error.raw_os_error(),
        }
    }
}

/// A reader or a writer, with the error of its last call.
#[derive(Drop)]
pub struct Noted<T> {
    pub inner: T,
    failure: Option<Failure>,
}

impl<T> Noted<T> {
    ghost use Rattle.std.specs.Prelude.{◌≡◌};

    /// Makes one of `inner`, which has not failed yet.
    pub fn new(inner: T) -> Noted<T>
        ensures { result.inner ≡ inner }
    {
        Noted {
            inner,
            failure: None,
        }
    }

    /// Returns what a message tells of how the last call failed: nothing if it didn't.
    pub fn because(&self) -> Because {
        Because(self.failure)
    }

    /// Keeps the error of a call, if there is one.
    fn note<O>(&mut self, done: &io::Result<O>)
        ensures { self.new.inner ≡ self.old.inner }
    {
        self.failure = match done {
            Ok(_) => None,
            Err(error) => Some(Failure::of(error)),
        };
    }
}

impl<R: Read> Read for Noted<R> {
    ghost remaining = { λ reader. R.remaining reader.inner };

    fn read(&mut self, buf: &mut [u8]) -> io::Result<usize> {
        let read = self.inner.read(buf);
        self.note(&read);
        read
    }
}

impl<W: Write> Write for Noted<W> {
    ghost contents = { λ writer. W.contents writer.inner };

    fn write(&mut self, buf: &[u8]) -> io::Result<usize> {
        let written = self.inner.write(buf);
        self.note(&written);
        written
    }

    fn flush(&mut self) -> io::Result<()> {
        let flushed = self.inner.flush();
        self.note(&flushed);
        flushed
    }
}

/// The end of a message: a colon and why it failed, or nothing if that isn't known.
#[derive(Clone, Copy)]
pub struct Because(Option<Failure>);

impl Because {
    /// Returns true if it is known that it failed.
    pub fn is_known(&self) -> bool {
        self.0.is_some()
    }
}

impl fmt::Display for Because {
    fn fmt<W: fmt::Write>(&self, f: &mut fmt::Formatter<W>) -> fmt::Result {
        let Some(failure) = self.0 else {
            return Ok(());
        };
        match failure.code {
            Some(code) => write!(f, ": {}", io::Error::from_raw_os_error(code)),
            None => write!(f, ": {}", failure.kind),
        }
    }
}
