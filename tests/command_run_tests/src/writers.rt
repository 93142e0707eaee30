//! A writer that counts what it is given, and may fail.

use std::io;
use std::io::Write;

/// A writer that counts what it is given, and fails at its call number `fails_at`.
#[derive(Drop)]
pub struct Counter {
    fails_at: u64,
    pub calls: u64,
    pub flushes: u64,
    pub taken: u64,
}

impl Counter {
    pub fn failing_at(fails_at: u64) -> Counter {
        Counter {
            fails_at,
            calls: 0,
            flushes: 0,
            taken: 0,
        }
    }

    fn call(&mut self) -> io::Result<()> {
        self.calls = self.calls.saturating_add(1);
        if self.calls == self.fails_at {
            return Err(io::Error::other("full"));
        }
        Ok(())
    }
}

impl Write for Counter {
    fn write(&mut self, buf: &[u8]) -> io::Result<usize> {
        self.call()?;
        self.taken = self.taken.saturating_add(buf.len() as u64);
        Ok(buf.len())
    }

    fn flush(&mut self) -> io::Result<()> {
        self.call()?;
        self.flushes = self.flushes.saturating_add(1);
        Ok(())
    }
}
