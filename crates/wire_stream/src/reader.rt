//! Reads messages from bytes that come in pieces.

ghost use Rattle.std.specs.Prelude.{◌≡◌, ◌≢◌, ◌≤◌, ◌<◌, ◌+◌, ◌++◌, [], IfOk, IfNone, IfSome};
ghost use Rattle.std.specs.Prelude.{IsOkAnd, IsSome, List, OnErr, length, max, take, ℕ};
ghost use Rattle.wire_msg.specs.declared.header.TheConstants.{MAX_MESSAGE_LEN};
ghost use Rattle.wire_msg.specs.{IsBad, IsMessage, IsOpen, msg_bytes};
ghost use Rattle.wire_msg.specs.declared.fault.MsgFault.{MsgFault};
ghost use Rattle.wire_stream.specs.Readers.{CompletesHeader, Feeds, IsRoom, Reading, StandsAt};

use crate::held::{append_piece, begin_message, fill_header};
use crate::msg_buf::MsgBuf;
use crate::reader_state::{Fed, ReadEnd, ReadRefusal, ReaderState};
use bson_elem::little_u32;
use std::alloc::Global;
use std::marker::Model;
use wire_msg::{HEADER_LEN, MsgHeader, RawMsg};

/// Reads messages of at most `limit` bytes, one at a time, from bytes that come in pieces.
///
/// The bytes of a header are held without taking memory. Once a good header is there, memory is
/// taken for all bytes that it announces, one time for each message, and once these are there for a
/// list of the names in the body, while they are checked. Contracts see the limit, and the bytes of
/// the current message so far.
#[derive(Drop)]
pub struct MsgReader {
    alloc: Global,
    limit: u32,
    header: [u8; 16],
    /// The number of header bytes that are there, while there is no message.
    len: usize,
    /// The bytes of the message from its header on, once that is known to be good.
    message: Option<Vec<u8>>,
    state: ReaderState,
}

impl Model for MsgReader {
    ghost use Rattle.std.specs.Prelude.{◌≡◌, ◌≤◌, length};
    ghost use Rattle.wire_msg.specs.declared.header.TheConstants.{MAX_MESSAGE_LEN};
    ghost use Rattle.wire_stream.specs.Holding.{IsKept, held_of};
    ghost use Rattle.wire_stream.specs.Readers.{Reading, StandsAt};

    ghost Value = { Reading };

    ghost view = { λ s. record { limit = s.limit; held = held_of s.header s.len s.message } };

    ghost invariant = { λ s. record {
      limit : s.limit ≤ MAX_MESSAGE_LEN;
      whole : length s.header ≡ 16;
      state : StandsAt s.limit (held_of s.header s.len s.message) s.state;
      kept : IsKept s.limit s.header s.len s.message;
    } };
}

impl MsgReader {
    /// Makes a reader of messages of at most `limit` bytes. It holds no bytes, and takes no
    /// memory.
    pub fn new(alloc: Global, limit: u32) -> MsgReader
        requires { limit ≤ MAX_MESSAGE_LEN }
        ensures { result ≡ record { limit = limit; held = [] } }
    {
        MsgReader {
            alloc,
            limit,
            header: [0; 16],
            len: 0,
            message: None,
            state: ReaderState::Need,
        }
    }

    /// Returns the reader's state.
    pub fn state(&self) -> ReaderState
        ensures { StandsAt self.now.limit self.now.held result }
    {
        self.state
    }

    /// Takes bytes from the front of `piece`, up to the end of the current message or the 16th
    /// byte of a bad header. Returns how many, and the reader's state after them. Takes none if a
    /// message is ready or the held bytes are bad.
    ///
    /// # Errors
    ///
    /// Returns `OutOfMemory` if the piece completes a good header and there is no memory for the
    /// announced message. Nothing is taken then, and the piece may be fed again.
    pub fn feed(&mut self, piece: &[u8]) -> Result<Fed, ReadRefusal>
        ensures limit { self.new.limit ≡ self.old.limit }
        ensures fed { IsOpen self.old.limit self.old.held
            → IfOk result (λ fed. Feeds self.old.limit self.old.held piece.now self.new.held fed) }
        ensures state { IfOk result (λ fed. StandsAt self.new.limit self.new.held fed.state) }
        ensures none { (IsOpen self.old.limit self.old.held → ⊥)
            → IsOkAnd result (λ fed. fed.taken ≡ 0) × (self.new ≡ self.old) }
        ensures refused { OnErr result (CompletesHeader self.old.limit self.old.held piece.now) }
        ensures unchanged { OnErr result (self.new ≡ self.old) }
    {
        let ReaderState::Need = self.state else {
            return Ok(Fed {
                taken: 0,
                state: self.state,
            });
        };
        match &mut self.message {
            Some(message) => {
                let fed = append_piece(self.alloc, message, self.limit, piece);
                self.state = fed.state;
                Ok(fed)
            }
            None => self.feed_header(piece),
        }
    }

    /// Takes bytes from the front of `piece` while the header isn't complete.
    fn feed_header(&mut self, piece: &[u8]) -> Result<Fed, ReadRefusal>
        requires { length self.old.held < 16 }
        ensures limit { self.new.limit ≡ self.old.limit }
        ensures fed { IfOk result
            (λ fed. Feeds self.old.limit self.old.held piece.now self.new.held fed) }
        ensures refused { OnErr result (CompletesHeader self.old.limit self.old.held piece.now) }
        ensures unchanged { OnErr result (self.new ≡ self.old) }
    {
        let n = fill_header(&mut self.header, self.len, piece);
        if self.len + n < HEADER_LEN as usize {
            self.len += n;
            return Ok(Fed {
                taken: n,
                state: ReaderState::Need,
            });
        }
        if let Err(fault) = MsgHeader::read(self.header).check(self.limit) {
            self.len += n;
            self.state = ReaderState::Bad(fault);
            return Ok(Fed {
                taken: n,
                state: self.state,
            });
        }
        let mut message = begin_message(self.alloc, &self.header, self.limit)?;
        let fed = append_piece(self.alloc, &mut message, self.limit, &piece[n..]);
        self.message = Some(message);
        self.state = fed.state;
        Ok(Fed {
            taken: n + fed.taken,
            state: fed.state,
        })
    }

    /// Borrows the message that is ready, if one is. Checks nothing again.
    pub fn message(&self) -> Option<RawMsg<'_>>
        ensures some { IfSome result
            (λ m. (msg_bytes m ≡ self.now.held) × IsMessage self.now.limit self.now.held) }
        ensures ready { IsMessage self.now.limit self.now.held → IsSome result }
    {
        let ReaderState::Ready = self.state else {
            return None;
        };
        match &self.message {
            Some(message) => Some(RawMsg::from_spelled(message)),
            None => None,
        }
    }

    /// Drops the message that is ready, and its memory, so that the next one can be read. If none
    /// is ready, nothing changes.
    pub fn release(&mut self)
        ensures ready { IsMessage self.old.limit self.old.held
            → self.new ≡ record { limit = self.old.limit; held = [] } }
        ensures open { IsOpen self.old.limit self.old.held → self.new ≡ self.old }
        ensures bad { (f : MsgFault) → IsBad self.old.limit self.old.held f → self.new ≡ self.old }
    {
        let _ = self.take();
    }

    /// Moves the message that is ready out, so that the next one can be read. If none is ready,
    /// returns `None` and changes nothing. Takes no memory.
    pub fn take(&mut self) -> Option<MsgBuf>
        ensures some { IfSome result (λ m. (m ≡ self.old.held) × IsMessage self.old.limit m
            × (self.new ≡ record { limit = self.old.limit; held = [] })) }
        ensures ready { IsMessage self.old.limit self.old.held → IsSome result }
        ensures none { IfNone result (self.new ≡ self.old) }
    {
        let ReaderState::Ready = self.state else {
            return None;
        };
        let Some(message) = self.message.take() else {
            unreachable!()
        };
        self.len = 0;
        self.state = ReaderState::Need;
        Some(MsgBuf::from_spelled(message))
    }

    /// Returns whether the bytes, if no more come, end inside a message. Behind one that is ready, or
    /// at fault, they don't.
    pub fn end(&self) -> ReadEnd
        ensures inside { IsOpen self.now.limit self.now.held → self.now.held ≢ []
            → result ≡ ReadEnd.EndedInside }
        ensures between { self.now.held ≡ [] → result ≡ ReadEnd.Ended }
        ensures ready { IsMessage self.now.limit self.now.held → result ≡ ReadEnd.Ended }
        ensures bad { (f : MsgFault) → IsBad self.now.limit self.now.held f
            → result ≡ ReadEnd.Ended }
    {
        let ReaderState::Need = self.state else {
            return ReadEnd::Ended;
        };
        if self.held() == 0 {
            ReadEnd::Ended
        } else {
            ReadEnd::EndedInside
        }
    }

    /// Returns the number of held bytes.
    pub fn held(&self) -> usize
        ensures { result ≡ length self.now.held }
    {
        match &self.message {
            Some(message) => message.len(),
            None => self.len,
        }
    }

    /// Returns the number of bytes of the current message for which memory was taken: those that a
    /// good header announces, or 0 if there is none. The reader holds at most that many bytes, or
    /// 16 if that is more.
    pub fn room(&self) -> usize
        ensures room { IsRoom self.now.limit self.now.held result }
        ensures held { length self.now.held ≤ max 16 result }
    {
        match &self.message {
            Some(message) => little_u32(message) as usize,
            None => 0,
        }
    }
}
