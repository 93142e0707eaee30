//! Reads records from bytes that come in pieces.

ghost use Rattle.std.specs.Prelude.{◌≡◌, ◌≤◌, ◌++◌, [], IfOk, IsOkAnd, List, OnErr, length, min};
ghost use Rattle.std.specs.Prelude.{take, ℕ};
ghost use Rattle.wire_frames.specs.RecordFronts.{IsFrontRecord};
ghost use Rattle.wire_frames.specs.RecordReaders.{RecordReading};
ghost use Rattle.wire_frames.specs.Records.{IsAtFault, IsRecord, WantsMore};
ghost use Rattle.wire_frames.specs.declared.fault.RecordFault.{RecordFault};

use crate::record::RawRecord;
use crate::record_front::RecordFront;
use crate::records::WireRecords;
use framing::Reader;
use std::alloc::{AllocError, Global};
use std::marker::Model;
use wire_msg::MAX_MESSAGE_LEN;

/// Reads records, one at a time, whose messages have at most `limit` bytes, from bytes that come in
/// pieces. Contracts see the limit, and the bytes of the current record so far.
#[derive(Drop)]
pub struct RecordReader {
    reader: Reader<WireRecords>,
}

impl Model for RecordReader {
    ghost use Rattle.std.specs.Prelude.{◌≤◌};
    ghost use Rattle.wire_frames.specs.RecordReaders.{RecordReading};
    ghost use Rattle.wire_msg.specs.declared.header.TheConstants.{MAX_MESSAGE_LEN};

    ghost Value = { RecordReading };

    ghost view = { λ s. record { limit = s.reader.framing.limit; held = s.reader.held } };

    ghost invariant = { λ s. s.reader.framing.limit ≤ MAX_MESSAGE_LEN };
}

impl RecordReader {
    /// Makes a reader of records whose messages have at most `limit` bytes. It holds no bytes, and
    /// takes no memory.
    pub fn new(alloc: Global, limit: u32) -> RecordReader
        requires { limit ≤ MAX_MESSAGE_LEN }
        ensures { result ≡ record { limit = limit; held = [] } }
    {
        RecordReader {
            reader: Reader::new(alloc, WireRecords { limit }),
        }
    }

    /// Returns what the held bytes begin with.
    pub fn front(&self) -> RecordFront<'_>
        ensures { IsFrontRecord self.now.limit self.now.held result }
    {
        RawRecord::front(self.reader.bytes(), self.reader.framing().limit)
    }

    /// Returns the number of held bytes.
    pub fn held(&self) -> usize
        ensures { result ≡ length self.now.held }
    {
        self.reader.held()
    }

    /// Takes bytes from the front of `piece`, up to the end of the head, of the header of the
    /// message, or of what that announces. Returns how many. Takes none if a record is whole, or
    /// the held bytes are at fault.
    ///
    /// Memory is taken for a head, for a header, and for all bytes that the header announces once
    /// it is there.
    ///
    /// # Errors
    ///
    /// Returns an error if there is no memory for those. Nothing is taken then.
    pub fn feed(&mut self, piece: &[u8]) -> Result<usize, AllocError>
        ensures limit { self.new.limit ≡ self.old.limit }
        ensures held { IfOk result (λ n. (n ≤ length piece.now)
            × (self.new.held ≡ self.old.held ++ take n piece.now)) }
        ensures wanted { (more : ℕ) → WantsMore self.old.limit self.old.held more
            → IfOk result (λ n. n ≡ min more (length piece.now)) }
        ensures whole { IsRecord self.old.limit self.old.held → IsOkAnd result (λ n. n ≡ 0) }
        ensures bad { (f : RecordFault) → IsAtFault self.old.limit self.old.held f
            → IsOkAnd result (λ n. n ≡ 0) }
        ensures unchanged { OnErr result (self.new ≡ self.old) }
    {
        self.reader.feed(piece)
    }

    /// Lets go of the held bytes, so that the next record can be read. Keeps their memory for it.
    pub fn release(&mut self)
        ensures { self.new ≡ record { limit = self.old.limit; held = [] } }
    {
        self.reader.release();
    }
}
