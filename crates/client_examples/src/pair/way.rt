//! One way of the connection: bytes in flight.

ghost use Rattle.std.specs.Prelude.{◌≡◌, ◌≤◌, ◌++◌, ℕ, [], List, None, OnOk, drop, length};
ghost use Rattle.wire_model.specs.Channels.{Comes, IsCut, fewer, idle_way, put_in};

use std::alloc::{AllocError, Global};
use std::marker::Model;

/// Bytes in flight, in order; and, if the way is cut, how many of them still arrive.
#[derive(Drop)]
pub(crate) struct Way {
    bytes: Vec<u8>,
    left: Option<usize>,
}

impl Model for Way {
    ghost use Rattle.wire_model.specs.Channels.{Way as Flight};

    ghost Value = { Flight };

    ghost view = { λ s. record { bytes = s.bytes.items; left = s.left } };
}

impl Way {
    /// Returns a way on which nothing is in flight.
    pub(crate) fn new(alloc: Global) -> Way
        ensures { result ≡ idle_way }
    {
        Way {
            bytes: Vec::new(alloc),
            left: None,
        }
    }

    /// Puts `bytes` in flight, after the others. Errs if memory runs out.
    pub(crate) fn put(&mut self, bytes: &[u8]) -> Result<(), AllocError>
        ensures { OnOk result (self.new ≡ put_in self.old bytes.now) }
    {
        self.bytes.extend_from_slice(bytes)
    }

    /// Returns the first bytes in flight: `most`, or as many as can still arrive.
    pub(crate) fn coming(&self, most: usize) -> &[u8]
        ensures first { (rest : List ℕ) × (self.now.bytes ≡ result.now ++ rest) }
        ensures comes { Comes self.now.left (length result.now) }
    {
        let n = most.min(self.bytes.len());
        let n = match self.left {
            Some(left) => n.min(left),
            None => n,
        };
        &self.bytes[..n]
    }

    /// Takes the first `n` bytes off, which arrived.
    pub(crate) fn arrived(&mut self, n: usize)
        requires { n ≤ length self.old.bytes }
        ensures { self.new ≡ record {
          bytes = drop n self.old.bytes;
          left = fewer self.old.left n;
        } }
    {
        if n == 0 {
            return;
        }
        let rest = self.bytes.len() - n;
        self.bytes.as_mut_slice().copy_within(n.., 0);
        self.bytes.truncate(rest);
        self.left = match self.left {
            Some(left) => Some(left.saturating_sub(n)),
            None => None,
        };
    }

    /// Cuts the way: at most `most` of the bytes in flight still arrive.
    pub(crate) fn cut(&mut self, most: usize)
        ensures { (n : ℕ) × IsCut self.old n self.new }
    {
        let n = most.min(self.bytes.len());
        let n = match self.left {
            Some(left) => n.min(left),
            None => n,
        };
        self.left = Some(n);
    }
}
