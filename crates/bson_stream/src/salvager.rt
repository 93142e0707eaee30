//! Finds the documents in a stream of which some bytes are damaged.

ghost use Rattle.std.specs.Prelude.{◌≡◌, ◌<◌, ◌≤◌, ◌+◌, ◌-◌, ◌*◌, ◌^◌, ◌++◌, ◌∷◌, [], Bool};
ghost use Rattle.std.specs.Prelude.{IfErr, IfOk, List, None, OnErr, OnOk, drop, false, length, max};
ghost use Rattle.std.specs.Prelude.{take, ℕ};
ghost use Rattle.bson_elem.specs.{Spells, Tree};
ghost use Rattle.bson_raw.specs.{IsSpelled, document_bytes};
ghost use Rattle.bson_stream.specs.Salvage.{Part, a_document};
ghost use Rattle.bson_stream.specs.Salvagers.{IsDocumentOf, IsFound, IsNotFed, IsOutcome};
ghost use Rattle.bson_stream.specs.Salvagers.{IsSettled, LeavesLess, SoFar};

use crate::gap::{Find, Gap, GapStart};
use crate::gather::{grow, put};
use crate::reader_state::ReadRefusal;
use crate::seek::{Sought, Stand, seek};
use bson_raw::RawDocument;
use std::alloc::Global;
use std::marker::Model;

/// Finds documents of at most `limit` bytes, and the gaps between them, in bytes that come in
/// pieces.
///
/// It holds the bytes that were fed, and neither passed over by `find` nor let go of by `release`.
/// Contracts see the limit, the offset of the first held byte in the stream, the
/// held bytes, the gap in which they begin, and how many bytes there is memory for.
#[derive(Drop)]
pub struct Salvager {
    limit: u32,
    /// The offset of the first held byte.
    start: usize,
    /// Some bytes that are behind, the held ones, and room for more.
    bytes: Vec<u8>,
    /// The number of those that are behind.
    at: usize,
    /// The end of the held ones.
    len: usize,
    /// The gap in which the held bytes begin, if they do.
    gap: Option<GapStart>,
}

impl Model for Salvager {
    ghost use Rattle.std.specs.Prelude.{◌+◌, ◌-◌, ◌<◌, ◌≤◌, ◌^◌, drop, length, take};
    ghost use Rattle.bson_stream.specs.Salvagers.{Salvaging};

    ghost Value = { Salvaging };

    ghost view = { λ s. record {
      limit = s.limit;
      start = s.start;
      held = drop s.at (take s.len s.bytes.items);
      gap = s.gap;
      room = length s.bytes.items;
    } };

    ghost invariant = { λ s. record {
      limit : s.limit < 2 ^ 31;
      behind : s.at ≤ s.len;
      within : s.len ≤ length s.bytes.items;
      offset : s.start + (s.len - s.at) < 2 ^ 64;
    } };
}

impl Salvager {
    /// Makes a salvager of documents of at most `limit` bytes. It holds no bytes, and takes no
    /// memory.
    pub fn new(alloc: Global, limit: u32) -> Salvager
        requires { limit < 2 ^ 31 }
        ensures fresh { SoFar false [] [] result }
        ensures settled { IsSettled false result }
        ensures limit { result.limit ≡ limit }
        ensures room { result.room ≡ 0 }
    {
        Salvager {
            limit,
            start: 0,
            bytes: Vec::new(alloc),
            at: 0,
            len: 0,
            gap: None,
        }
    }

    /// Takes all of `piece`, behind what is held.
    ///
    /// Memory is taken where there is too little behind what is held: at most for twice as many
    /// bytes as are held then. What was taken is kept.
    ///
    /// # Errors
    ///
    /// Nothing is taken then, and nothing changes.
    ///
    /// - `OutOfMemory` if memory runs out, and there is too little for what is held and the piece.
    /// - `TooFar` if the piece would end more than 2 ^ 64 - 1 bytes from the start of the stream.
    pub fn feed(&mut self, piece: &[u8]) -> Result<(), ReadRefusal>
        ensures held { OnOk result (self.new
            ≡ record self.old { held = self.old.held ++ piece.now; room = self.new.room }) }
        ensures fed { OnOk result ((fed : List ℕ) (told : List Part)
            → SoFar false fed told self.old → SoFar false (fed ++ piece.now) told self.new) }
        ensures kept { OnErr result (self.new ≡ self.old) }
        ensures grown { self.old.room ≤ self.new.room }
        ensures room { self.new.room
            ≤ max self.old.room (2 * (length self.old.held + length piece.now)) }
        ensures refused { IfErr result (λ e. IsNotFed self.old piece.now e) }
    {
        let held = self.len - self.at;
        if piece.len() > usize::MAX - (self.start + held) {
            return Err(ReadRefusal::TooFar);
        }
        self.at = make_way(&mut self.bytes, self.at, self.len, piece.len())?;
        put(&mut self.bytes, self.at + held, piece);
        self.len = self.at + held + piece.len();
        Ok(())
    }

    /// Returns the held bytes.
    fn held(&self) -> &[u8]
        ensures { result.now ≡ self.now.held }
    {
        &self.bytes[self.at..self.len]
    }

    /// Looks for what comes next. If `ended` is true, no more bytes come.
    ///
    /// A document that is found stays in front of what is held until `release` lets go of it.
    pub fn find(&mut self, ended: bool) -> Find
        ensures found { (fed : List ℕ) (told : List Part) → SoFar ended fed told self.old
            → IsFound ended fed told self.new result }
        ensures front { (len : ℕ) (canonical : Bool) → result ≡ Find.Document len canonical
            → IsDocumentOf self.new.limit self.new.held len canonical }
        ensures less { LeavesLess self.old self.new result }
        ensures limit { self.new.limit ≡ self.old.limit }
        ensures room { self.new.room ≡ self.old.room }
    {
        let sought = seek(self.held(), self.start, self.limit, ended, self.gap);
        self.at += sought.passed;
        self.start += sought.passed;
        let (gap, find) = outcome(sought, self.start, ended);
        self.gap = gap;
        find
    }

    /// Borrows the document of `len` bytes that was found. Checks nothing again.
    pub fn document(&self, len: usize) -> RawDocument<'_>
        requires within { len ≤ length self.now.held }
        requires spelled { IsSpelled (take len self.now.held) }
        ensures { document_bytes result ≡ take len self.now.held }
    {
        RawDocument::from_spelled(&self.held()[..len])
    }

    /// Lets go of the first `len` bytes, of which the document in front has as many.
    pub fn release(&mut self, len: usize)
        requires { len ≤ length self.old.held }
        ensures behind { self.new ≡ record self.old {
          start = self.old.start + len;
          held = drop len self.old.held;
        } }
        ensures told { (ended : Bool) (fed : List ℕ) (told : List Part) (t : Tree)
            → SoFar ended fed told self.old → self.old.gap ≡ None → len ≤ self.old.limit
            → Spells t (take len self.old.held)
            → SoFar ended fed (told ++ a_document self.old.start t ∷ []) self.new }
    {
        self.at += len;
        self.start += len;
    }

    /// Returns the offset of the first held byte in the stream.
    pub fn start(&self) -> usize
        ensures offset { result ≡ self.now.start }
        ensures behind { result + length self.now.held < 2 ^ 64 }
    {
        self.start
    }

    /// Returns the number of bytes that there is memory for. Each call of `feed` leaves it at most
    /// twice what is held, or as it was.
    pub fn room(&self) -> usize
        ensures { result ≡ self.now.room }
    {
        self.bytes.len()
    }
}

/// Returns the gap that goes on behind what was sought, and what is found, whose end is at `to`.
fn outcome(sought: Sought, to: usize, ended: bool) -> (Option<GapStart>, Find)
    ensures { IsOutcome ended to sought result.0 result.1 }
{
    match sought.stand {
        Stand::Open => (sought.gap, Find::Nothing),
        Stand::Document { len, canonical } => match sought.gap {
            Some(gap) => (None, Find::Gap(gap.up_to(to))),
            None => (None, Find::Document { len, canonical }),
        },
        Stand::End => {
            if !ended {
                return (sought.gap, Find::Nothing);
            }
            match sought.gap {
                Some(gap) => (None, Find::Gap(gap.up_to(to))),
                None => (None, Find::Nothing),
            }
        }
    }
}

/// Moves the bytes from `at` to `len` to the front.
fn move_to_front(bytes: &mut [u8], at: usize, len: usize)
    requires behind { at ≤ len }
    requires within { len ≤ length bytes.old }
    ensures whole { length bytes.new ≡ length bytes.old }
    ensures moved { take (len - at) bytes.new ≡ drop at (take len bytes.old) }
{
    bytes.copy_within(at..len, 0);
}

/// Makes room for `more` bytes behind those from `at` to `len`, and returns where these begin then:
/// at the front where there was no room behind them. There is room for twice as many then, unless
/// memory runs out, so that bytes are seldom moved.
///
/// # Errors
///
/// Returns `OutOfMemory` if memory runs out. `bytes` is unchanged then.
fn make_way(bytes: &mut Vec<u8>, at: usize, len: usize, more: usize) -> Result<usize, ReadRefusal>
    requires behind { at ≤ len }
    requires within { len ≤ length bytes.old.items }
    requires small { len - at + more < 2 ^ 64 }
    ensures there { IfOk result (λ to. to + (len - at) + more ≤ length bytes.new.items) }
    ensures kept { IfOk result (λ to. drop to (take (to + (len - at)) bytes.new.items)
        ≡ drop at (take len bytes.old.items)) }
    ensures grown { length bytes.old.items ≤ length bytes.new.items }
    ensures most { length bytes.new.items
        ≤ max (length bytes.old.items) (2 * (len - at + more)) }
    ensures unchanged { OnErr result (bytes.new.items ≡ bytes.old.items) }
    ensures refused { IfErr result (λ e. (e ≡ ReadRefusal.OutOfMemory)
        × (length bytes.old.items < len - at + more)) }
{
    if more <= bytes.len() - len {
        return Ok(at);
    }
    let least = len - at + more;
    if grow(bytes, least.saturating_mul(2)).is_err() && bytes.len() < least {
        return Err(ReadRefusal::OutOfMemory);
    }
    move_to_front(bytes, at, len);
    Ok(0)
}
