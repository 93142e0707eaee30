//! Holds the piece of bytes that a link gave last.

ghost use Rattle.std.specs.Prelude.{◌≡◌, ◌≢◌, ◌≤◌, ◌<◌, ◌++◌, ◌∷◌, [], Ok, OnErr, OnOk, IfErr};
ghost use Rattle.std.specs.Prelude.{IfOk, List, drop, length, ℕ};
ghost use Rattle.std.specs.Io.KnownBytes.{Appends, Keeps};
ghost use Rattle.wire_stream.specs.Links.{AddsTurns, Rose};
ghost use Rattle.wire_stream.specs.Pulls.{IsPulled, PullsLater};

use crate::link::{Link, LinkFault, Moved};
use std::alloc::{AllocError, Global};
use std::io::ErrorKind;
use std::marker::Model;

/// The most bytes that a piece has.
const PIECE: usize = 4096;

/// The outcome of `pull`.
#[derive(Clone, Copy, Debug, PartialEq, Eq)]
pub enum Pulled {
    /// Bytes are held.
    Bytes,
    /// The link has ended, and no bytes are held.
    End,
    /// No byte has come yet, and none is held.
    Later,
}

/// One piece of at most 4,096 received bytes, of which the first ones may have been used.
/// Contracts see the bytes that are still held.
#[derive(Drop)]
pub struct Inlet {
    piece: Vec<u8>,
    start: usize,
    end: usize,
}

impl Model for Inlet {
    ghost use Rattle.std.specs.Prelude.{List, ℕ, ◌≡◌, ◌≤◌, ◌-◌, take, drop, length};

    ghost Value = { List ℕ };

    ghost view = { λ s. take (s.end - s.start) (drop s.start s.piece.items) };

    ghost invariant = { λ s. record {
      in_order : s.start ≤ s.end;
      within : s.end ≤ length s.piece.items;
      whole : length s.piece.items ≡ 4096;
    } };
}

impl Inlet {
    /// Makes an inlet that holds nothing. Takes memory for a piece; no other call takes any.
    ///
    /// # Errors
    ///
    /// Returns `AllocError` if memory runs out.
    pub fn new(alloc: Global) -> Result<Inlet, AllocError>
        ensures { IfOk result (λ inlet. inlet ≡ []) }
    {
        let piece = vec![in alloc; 0u8; PIECE]?;
        Ok(Inlet {
            piece,
            start: 0,
            end: 0,
        })
    }

    /// Returns the held bytes, at most 4,096.
    pub fn bytes(&self) -> &[u8]
        ensures bytes { result.now ≡ self.now }
        ensures within { length self.now ≤ 4096 }
    {
        &self.piece[self.start..self.end]
    }

    /// Drops the first `n` of the held bytes.
    pub fn used(&mut self, n: usize)
        requires { n ≤ length self.old }
        ensures { self.new ≡ drop n self.old }
    {
        self.start += n;
    }

    /// Receives a piece from `link` if no bytes are held. If some are, receives nothing and
    /// returns `Bytes`.
    ///
    /// # Errors
    ///
    /// Returns `LinkFault` if the link failed. The held bytes are unchanged then.
    pub fn pull<L: Link>(&mut self, link: &mut L) -> Result<Pulled, LinkFault>
        ensures held { self.old ≢ []
            → (result ≡ Ok Pulled.Bytes) × (self.new ≡ self.old) × (link.new ≡ link.old) }
        ensures received { (more : List ℕ)
            × Appends (L.received link.old) (L.received link.new) more
            × (self.new ≡ self.old ++ more) }
        ensures turn { self.old ≡ [] → AddsTurns (L.turns link.old) (L.turns link.new)
            (record { received = L.received link.old; sent = L.sent link.old } ∷ []) }
        ensures within { length self.new ≤ 4096 }
        ensures found { IsPulled result (self.new) (L.ends link.old) (L.ends link.new) }
        ensures later { PullsLater result (L.waits link.old) (L.waits link.new) }
        ensures never { IfErr result (λ fault. fault.kind ≢ ErrorKind.WouldBlock) }
        ensures sent { Keeps (L.sent link.old) (L.sent link.new) }
        ensures works { OnOk result (L.failures link.new ≡ L.failures link.old) }
        ensures fails { OnErr result (Rose (L.failures link.old) (L.failures link.new)) }
        ensures unchanged { OnErr result (self.new ≡ self.old) }
    {
        if self.start < self.end {
            return Ok(Pulled::Bytes);
        }
        let Moved::Bytes(n) = link.recv(&mut self.piece)? else {
            return Ok(Pulled::Later);
        };
        self.start = 0;
        self.end = n;
        if n == 0 {
            Ok(Pulled::End)
        } else {
            Ok(Pulled::Bytes)
        }
    }
}
