//! Reads items from bytes that come in pieces.

ghost use Rattle.std.specs.Prelude.{◌≡◌, ◌≤◌, ◌++◌, [], IfOk, IsOkAnd, OnErr, length, min, take, ℕ};
ghost use Rattle.framing.specs.FirstItems.{IsFirstItem};
ghost use Rattle.framing.specs.Items.{IsItem, IsRefused, WantsMore};
ghost use Rattle.framing.specs.Readers.{Reading};

use crate::first_item::{FirstItem, read_item};
use crate::framing::Framing;
use std::alloc::{AllocError, Global};
use std::marker::Model;

/// Reads items, one at a time, from bytes that come in pieces. Contracts see how items are framed,
/// and the bytes of the current item so far.
#[derive(Drop)]
pub struct Reader<F> {
    framing: F,
    held: Vec<u8>,
}

impl<F> Model for Reader<F> {
    ghost use Rattle.framing.specs.Readers.{Reading};

    ghost Value = { Reading F };

    ghost view = { λ s. record { framing = s.framing; held = s.held.items } };
}

impl<F: Framing> Reader<F> {
    /// Makes a reader of items that are framed like this. It holds no bytes, and takes no memory.
    pub fn new(alloc: Global, framing: F) -> Reader<F>
        ensures { result ≡ record { framing = framing; held = [] } }
    {
        Reader {
            framing,
            held: Vec::new(alloc),
        }
    }

    /// Returns what the held bytes begin with.
    pub fn first(&self) -> FirstItem<'_, F::Fault>
        ensures { IsFirstItem (F.rule self.now.framing) self.now.held result }
    {
        read_item(&self.framing, &self.held)
    }

    /// Returns how items are framed.
    pub fn framing(&self) -> &F
        ensures { result.now ≡ self.now.framing }
    {
        &self.framing
    }

    /// Returns the held bytes.
    pub fn bytes(&self) -> &[u8]
        ensures { result.now ≡ self.now.held }
    {
        &self.held
    }

    /// Returns the number of held bytes.
    pub fn held(&self) -> usize
        ensures { result ≡ length self.now.held }
    {
        self.held.len()
    }

    /// Takes bytes from the front of `piece`, up to the end of the lead, of the header, or of what
    /// that announces. Returns how many. Takes none if an item is whole, or none begins with the
    /// held bytes.
    ///
    /// Memory is taken for a lead, for a header, and for all bytes that the header announces once
    /// it is there.
    ///
    /// # Errors
    ///
    /// Returns an error if there is no memory for those. Nothing is taken then.
    pub fn feed(&mut self, piece: &[u8]) -> Result<usize, AllocError>
        ensures framing { self.new.framing ≡ self.old.framing }
        ensures held { IfOk result (λ n. (n ≤ length piece.now)
            × (self.new.held ≡ self.old.held ++ take n piece.now)) }
        ensures wanted { (more : ℕ) → WantsMore (F.rule self.old.framing) self.old.held more
            → IfOk result (λ n. n ≡ min more (length piece.now)) }
        ensures whole { IsItem (F.rule self.old.framing) self.old.held
            → IsOkAnd result (λ n. n ≡ 0) }
        ensures refused { (fault : F.Fault)
            → IsRefused (F.rule self.old.framing) self.old.held fault
            → IsOkAnd result (λ n. n ≡ 0) }
        ensures unchanged { OnErr result (self.new ≡ self.old) }
    {
        let FirstItem::Open { wanted } = self.first() else {
            return Ok(0);
        };
        self.held.reserve_exact(wanted)?;
        let n = piece.len().min(wanted);
        self.held.extend_from_slice(&piece[..n])?;
        Ok(n)
    }

    /// Lets go of the held bytes, so that the next item can be read. Keeps their memory for it.
    pub fn release(&mut self)
        ensures { self.new ≡ record { framing = self.old.framing; held = [] } }
    {
        self.held.clear();
    }

    /// Goes on with another framing of the same kind, as with another limit, from the held bytes
    /// on.
    pub fn reframe(&mut self, framing: F)
    where
        F: Drop,
        ensures { self.new ≡ record { framing = framing; held = self.old.held } }
    {
        self.framing = framing;
    }
}
