//! Bytes that wait to be sent.

ghost use Rattle.std.specs.Prelude.{◌≡◌, ◌≤◌, ◌++◌, [], OnErr, OnOk, drop, length, refl};

use std::alloc::{AllocError, Global};
use std::marker::Model;
use wire_stream::Outlet;

/// The longest request whose memory is kept for the next one.
const KEPT: usize = 1 << 16;

/// Bytes that wait to be sent. Contracts see those that weren't sent yet.
#[derive(Drop)]
pub struct Waiting {
    alloc: Global,
    bytes: Vec<u8>,
    /// How many of them were sent.
    start: usize,
}

impl Model for Waiting {
    ghost use Rattle.std.specs.Prelude.{List, ℕ, ◌≤◌, drop, length};

    ghost Value = { List ℕ };

    ghost view = { λ s. drop s.start s.bytes.items };

    ghost invariant = { λ s. s.start ≤ length s.bytes.items };
}

impl Waiting {
    /// Begins without bytes. It takes no memory.
    pub fn new(alloc: Global) -> Waiting
        ensures { result ≡ [] }
    {
        Waiting {
            alloc,
            bytes: Vec::new(alloc),
            start: 0,
        }
    }

    /// Adds bytes, behind all others.
    ///
    /// # Errors
    ///
    /// Returns `AllocError` if memory runs out.
    pub fn push(&mut self, bytes: &[u8]) -> Result<(), AllocError>
        ensures pushed { OnOk result (self.new ≡ self.old ++ bytes.now) }
        ensures unchanged { OnErr result (self.new ≡ self.old) }
    {
        self.bytes.extend_from_slice(bytes)
    }

    /// Returns how many bytes wait.
    pub fn len(&self) -> usize
        ensures { result ≡ length self.now }
    {
        self.bytes.len() - self.start
    }

    /// Lets go of all bytes, and of the memory of many.
    fn clear(&mut self)
        ensures { self.new ≡ [] }
    {
        if self.bytes.capacity() > KEPT {
            self.bytes = Vec::new(self.alloc);
        } else {
            self.bytes.clear();
        }
        self.start = 0;
    }
}

impl Outlet for Waiting {
    ghost waiting = { λ s. s };

    ghost with_waiting = { λ s bytes. bytes };

    ghost waits = { λ o bytes. refl };

    ghost unchanged = { λ o. refl };

    ghost last = { λ o first then. refl };

    fn output(&self) -> &[u8] {
        &self.bytes[self.start..]
    }

    fn sent(&mut self, n: usize) {
        let start = self.start + n;
        if start == self.bytes.len() {
            self.clear();
        } else {
            self.start = start;
        }
    }
}
