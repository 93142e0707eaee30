//! Reads frames from bytes that come in pieces.

ghost use Rattle.std.specs.Prelude.{◌≡◌, ◌≤◌, ◌++◌, [], IfOk, IsOkAnd, List, OnErr, length, min};
ghost use Rattle.std.specs.Prelude.{take, ℕ};
ghost use Rattle.wire_frames.specs.Frames.{IsFrame, LacksFrame, WantsMore};
ghost use Rattle.wire_frames.specs.Fronts.{IsFrontFrame};
ghost use Rattle.wire_frames.specs.Readers.{FrameReading};

use crate::frame::RawFrame;
use crate::frames::WireFrames;
use crate::front::FrameFront;
use framing::Reader;
use std::alloc::{AllocError, Global};
use std::marker::Model;
use wire_msg::MAX_MESSAGE_LEN;

/// Reads frames of at most `limit` bytes, one at a time, from bytes that come in pieces. Contracts
/// see the limit, and the bytes of the current frame so far.
#[derive(Drop)]
pub struct FrameReader {
    reader: Reader<WireFrames>,
}

impl Model for FrameReader {
    ghost use Rattle.std.specs.Prelude.{◌≤◌};
    ghost use Rattle.wire_frames.specs.Readers.{FrameReading};
    ghost use Rattle.wire_msg.specs.declared.header.TheConstants.{MAX_MESSAGE_LEN};

    ghost Value = { FrameReading };

    ghost view = { λ s. record { limit = s.reader.framing.limit; held = s.reader.held } };

    ghost invariant = { λ s. s.reader.framing.limit ≤ MAX_MESSAGE_LEN };
}

impl FrameReader {
    /// Makes a reader of frames of at most `limit` bytes. It holds no bytes, and takes no memory.
    pub fn new(alloc: Global, limit: u32) -> FrameReader
        requires { limit ≤ MAX_MESSAGE_LEN }
        ensures { result ≡ record { limit = limit; held = [] } }
    {
        FrameReader {
            reader: Reader::new(alloc, WireFrames { limit }),
        }
    }

    /// Returns what the held bytes begin with.
    pub fn front(&self) -> FrameFront<'_>
        ensures { IsFrontFrame self.now.limit self.now.held result }
    {
        RawFrame::front(self.reader.bytes(), self.reader.framing().limit)
    }

    /// Returns the number of held bytes.
    pub fn held(&self) -> usize
        ensures { result ≡ length self.now.held }
    {
        self.reader.held()
    }

    /// Takes bytes from the front of `piece`, up to the end of the header or of what it announces.
    /// Returns how many. Takes none if a frame is whole, or none begins with the held bytes.
    ///
    /// Memory is taken for a header, and for all bytes that it announces once it is there.
    ///
    /// # Errors
    ///
    /// Returns an error if there is no memory for those. Nothing is taken then.
    pub fn feed(&mut self, piece: &[u8]) -> Result<usize, AllocError>
        ensures limit { self.new.limit ≡ self.old.limit }
        ensures held { IfOk result (λ n. (n ≤ length piece.now)
            × (self.new.held ≡ self.old.held ++ take n piece.now)) }
        ensures wanted { (more : ℕ) → WantsMore self.old.limit self.old.held more
            → IfOk result (λ n. n ≡ min more (length piece.now)) }
        ensures whole { IsFrame self.old.limit self.old.held → IsOkAnd result (λ n. n ≡ 0) }
        ensures bad { LacksFrame self.old.limit self.old.held → IsOkAnd result (λ n. n ≡ 0) }
        ensures unchanged { OnErr result (self.new ≡ self.old) }
    {
        self.reader.feed(piece)
    }

    /// Lets go of the held bytes, so that the next frame can be read. Keeps their memory for it.
    pub fn release(&mut self)
        ensures { self.new ≡ record { limit = self.old.limit; held = [] } }
    {
        self.reader.release();
    }
}
