//! Reads documents from bytes that come in pieces.

ghost use Rattle.std.specs.Prelude.{◌≡◌, ◌≢◌, ◌≤◌, ◌<◌, ◌+◌, ◌^◌, ◌++◌, ◌⊎◌, [], Err, IfErr};
ghost use Rattle.std.specs.Prelude.{IfOk, IfSome, IsOkAnd, IsSome, List, Ok, OnErr, length};
ghost use Rattle.std.specs.Prelude.{ℕ};
ghost use Rattle.bson_elem.specs.declared.fault.BsonCause.{BsonCause};
ghost use Rattle.bson_elem.specs.declared.fault.BsonFault.{BsonFault};
ghost use Rattle.bson_elem.specs.{fault};
ghost use Rattle.bson_raw.specs.{IsSpelled, document_bytes};
ghost use Rattle.bson_stream.specs.Readers.{AnnouncesMore, Feeds, IsInFront, IsRefused, Reading};
ghost use Rattle.bson_stream.specs.Readers.{StandsAt, TellsForm, moved_behind};
ghost use Rattle.bson_stream.specs.Standing.{IsBad, IsOpen};

use crate::gather::{put_behind, state_of, wanted, whole_len};
use crate::reader_state::{Fed, ReadRefusal, ReaderState};
use bson_elem::{BsonCause, BsonFault, fault_at};
use bson_raw::{Front, RawDocument};
use std::alloc::Global;
use std::marker::Model;

/// Reads documents of at most `limit` bytes, one at a time, from bytes that come in pieces.
///
/// Memory is taken as bytes are fed: at most twice what is held of a document, whatever its length
/// announces. What was taken is kept for the next documents. Contracts see the limit, the offset of
/// the current document in the stream, its bytes so far, and how many bytes there is memory for.
#[derive(Drop)]
pub struct DocumentReader {
    limit: u32,
    start: usize,
    /// The bytes of the current document so far, and room for more.
    bytes: Vec<u8>,
    /// The number of its bytes that are there.
    len: usize,
    state: ReaderState,
}

impl Model for DocumentReader {
    ghost use Rattle.std.specs.Prelude.{◌≡◌, ◌+◌, ◌<◌, ◌≤◌, ◌^◌, length, take};
    ghost use Rattle.bson_elem.specs.{IsBytes};
    ghost use Rattle.bson_stream.specs.Readers.{HoldsNoMore, Reading, StandsAt};

    ghost Value = { Reading };

    ghost view = { λ s. record {
      limit = s.limit;
      start = s.start;
      held = take s.len s.bytes.items;
      room = length s.bytes.items;
    } };

    ghost invariant = { λ s. record {
      limit : s.limit < 2 ^ 31;
      within : s.len ≤ length s.bytes.items;
      offset : s.start + s.len < 2 ^ 64;
      state : StandsAt s.start (take s.len s.bytes.items) s.state;
      no_more : HoldsNoMore s.limit (take s.len s.bytes.items);
      fits : IsBytes (take s.len s.bytes.items);
    } };
}

impl DocumentReader {
    /// Makes a reader of documents of at most `limit` bytes. It holds no bytes, and takes no
    /// memory.
    pub fn new(alloc: Global, limit: u32) -> DocumentReader
        requires { limit < 2 ^ 31 }
        ensures { result ≡ record { limit = limit; start = 0; held = []; room = 0 } }
    {
        DocumentReader {
            limit,
            start: 0,
            bytes: Vec::new(alloc),
            len: 0,
            state: ReaderState::Need,
        }
    }

    /// Returns the reader's state.
    pub fn state(&self) -> ReaderState
        ensures { StandsAt self.now.start self.now.held result }
    {
        self.state
    }

    /// Takes bytes from the front of `piece`, up to the end of the current document or the fourth
    /// byte of a bad length. Returns how many, and the reader's state after them. Takes none if a
    /// document is ready or the held bytes are bad.
    ///
    /// # Errors
    ///
    /// Nothing is taken then, and nothing changes.
    ///
    /// - `OutOfMemory` if memory runs out. It is asked for only where there is too little for what
    ///   is held and what the document wants of the piece.
    /// - `TooLong` if the piece completes a good length that is above the limit.
    /// - `TooFar` if the held bytes and the piece would end more than 2 ^ 64 - 1 bytes from the
    ///   start of the stream.
    pub fn feed(&mut self, piece: &[u8]) -> Result<Fed, ReadRefusal>
        ensures fed { IsOpen self.old.held
            → IfOk result (λ fed. Feeds self.old piece.now self.new fed) }
        ensures state { IfOk result (λ fed. StandsAt self.new.start self.new.held fed.state) }
        ensures none { (IsOpen self.old.held → ⊥)
            → IsOkAnd result (λ fed. fed.taken ≡ 0) × (self.new ≡ self.old) }
        ensures long { IsOpen self.old.held
            → AnnouncesMore self.old.limit (self.old.held ++ piece.now)
            → (result ≡ Err ReadRefusal.TooLong) ⊎ (result ≡ Err ReadRefusal.TooFar) }
        ensures refused { IfErr result (λ e. IsRefused self.old piece.now e) }
        ensures unchanged { OnErr result (self.new ≡ self.old) }
    {
        let ReaderState::Need = self.state else {
            return Ok(Fed {
                taken: 0,
                state: self.state,
            });
        };
        if piece.len() > usize::MAX - (self.start + self.len) {
            return Err(ReadRefusal::TooFar);
        }
        let wanted = wanted(&self.bytes[..self.len], piece, self.limit)?;
        let n = piece.len().min(wanted - self.len);
        put_behind(&mut self.bytes, self.len, &piece[..n], wanted)?;
        self.len += n;
        self.state = state_of(self.start, &self.bytes[..self.len], wanted);
        Ok(Fed {
            taken: n,
            state: self.state,
        })
    }

    /// Returns the document in front of `piece` as it stands there, and what follows it, if no bytes
    /// are held and all of the document is there. Otherwise returns `None`, also where the document
    /// has a fault, is longer than the limit, or ends more than 2 ^ 64 - 1 bytes from the start of
    /// the stream; `feed` tells which.
    pub fn front<'p>(&self, piece: &'p [u8]) -> Option<Front<'p>>
        ensures some { IfSome result
            (λ x. IsInFront self.now piece.now (document_bytes x.document) x.rest.now) }
        ensures canonical { IfSome result (λ x. TellsForm (document_bytes x.document) x.canonical) }
        ensures there { (document rest : List ℕ) → IsInFront self.now piece.now document rest
            → IsSome result }
    {
        if self.len != 0 {
            return None;
        }
        let len = whole_len(piece, self.limit)?;
        if len > usize::MAX - self.start {
            return None;
        }
        match RawDocument::front_with_form(piece) {
            Ok(front) => Some(front),
            Err(_) => None,
        }
    }

    /// Moves behind `document`, which counts as let go of. That `front` returned it isn't looked at.
    /// If bytes are held, or the document would end more than 2 ^ 64 - 1 bytes from the start of the
    /// stream, nothing changes.
    pub fn pass(&mut self, document: RawDocument<'_>)
        ensures passed { self.old.held ≡ []
            → self.old.start + length (document_bytes document.entry) < 2 ^ 64
            → self.new ≡ moved_behind self.old (length (document_bytes document.entry)) }
        ensures held { self.old.held ≢ [] → self.new ≡ self.old }
        ensures far { 2 ^ 64 ≤ self.old.start + length (document_bytes document.entry)
            → self.new ≡ self.old }
    {
        let len = document.as_bytes().len();
        if self.len != 0 || len > usize::MAX - self.start {
            return;
        }
        self.start += len;
    }

    /// Borrows the document that is ready, if one is. Checks nothing again.
    pub fn document(&self) -> Option<RawDocument<'_>>
        ensures some { IfSome result
            (λ d. (document_bytes d ≡ self.now.held) × IsSpelled self.now.held) }
        ensures ready { IsSpelled self.now.held → IsSome result }
        ensures offset { IfSome result
            (λ d. self.now.start + length (document_bytes d) < 2 ^ 64) }
    {
        match self.state {
            ReaderState::Ready { canonical: _ } => {
                Some(RawDocument::from_spelled(&self.bytes[..self.len]))
            }
            _ => None,
        }
    }

    /// Lets go of the document that is ready, and keeps its memory for the next one. If none is
    /// ready, nothing changes.
    pub fn release(&mut self)
        ensures ready { IsSpelled self.old.held
            → self.new ≡ moved_behind self.old (length self.old.held) }
        ensures other { (IsSpelled self.old.held → ⊥) → self.new ≡ self.old }
    {
        if self.document().is_none() {
            return;
        }
        self.start += self.len;
        self.len = 0;
        self.state = ReaderState::Need;
    }

    /// Tells that no more bytes come.
    ///
    /// # Errors
    ///
    /// Returns `Truncated` at the offset of the current document if it isn't whole, and the fault
    /// if the held bytes are bad.
    pub fn end(&self) -> Result<(), BsonFault>
        ensures inside { IsOpen self.now.held → self.now.held ≢ []
            → result ≡ Err (fault self.now.start BsonCause.Truncated) }
        ensures between { self.now.held ≡ [] → result ≡ Ok tt }
        ensures ready { IsSpelled self.now.held → result ≡ Ok tt }
        ensures bad { (f : BsonFault) → IsBad self.now.start self.now.held f → result ≡ Err f }
    {
        match self.state {
            ReaderState::Bad(fault) => Err(fault),
            ReaderState::Ready { canonical: _ } => Ok(()),
            ReaderState::Need => {
                if self.len == 0 {
                    return Ok(());
                }
                Err(fault_at(self.start, BsonCause::Truncated))
            }
        }
    }

    /// Returns the number of bytes of the documents that were passed or let go.
    pub fn start(&self) -> usize
        ensures { result ≡ self.now.start }
    {
        self.start
    }

    /// Returns the number of held bytes.
    pub fn held(&self) -> usize
        ensures { result ≡ length self.now.held }
    {
        self.len
    }

    /// Returns the number of bytes that there is memory for. Each call of `feed` leaves it at most
    /// twice what is held, or as it was.
    pub fn room(&self) -> usize
        ensures { result ≡ self.now.room }
    {
        self.bytes.len()
    }
}
