//! Finds the messages that pass on a connection.

ghost use Rattle.std.specs.Prelude.{◌≡◌, ◌≤◌, ◌++◌, [], ℕ, Bool, IfOk, IfSome, IsErr, IsOkAnd};
ghost use Rattle.std.specs.Prelude.{IsSomeAnd, None, OnOk, drop, false, is_some, length, take};
ghost use Rattle.std.specs.Prelude.{true};
ghost use Rattle.proxy.specs.Recording.{IsRecorded, log_of};
ghost use Rattle.proxy.specs.Watching.{IsGiven};

use crate::direction::Direction;
use crate::sink::Sink;
use sockets::Tap;
use std::alloc::Global;
use std::io;
use std::io::{ErrorKind, Write};
use std::rt::Files;
use std::time::Clock;
use wire_frames::{FrameFront, FrameReader};
use wire_msg::MAX_MESSAGE_LEN;

/// One way of the connection of a number.
#[derive(Clone, Copy)]
struct Side {
    number: u64,
    direction: Direction,
}

/// The bytes that passed on one way of a connection, which are given on message by message.
#[derive(Drop)]
pub struct Watch {
    side: Side,
    /// The bytes that passed and were not looked at yet.
    passed: Vec<u8>,
    /// Memory for these ran out.
    lost: bool,
    reader: FrameReader,
    /// Bytes came that no message begins with, so those behind them are passed over.
    over: bool,
}

impl Tap for Watch {
    ghost seen = { λ _. None };

    fn see(&mut self, bytes: &[u8]) {
        if self.passed.extend_from_slice(bytes).is_err() {
            self.lost = true;
        }
    }
}

impl Watch {
    /// Begins to watch one way of the connection of this number. It takes no memory.
    pub fn new(alloc: Global, number: u64, direction: Direction) -> Watch
        ensures number { result.side.number ≡ number }
        ensures direction { result.side.direction ≡ direction }
        ensures passed { result.passed.items ≡ [] }
        ensures held { result.reader ≡ record { limit = MAX_MESSAGE_LEN; held = [] } }
        ensures lost { result.lost ≡ false }
        ensures over { result.over ≡ false }
    {
        Watch {
            side: Side { number, direction },
            passed: Vec::new(alloc),
            lost: false,
            reader: FrameReader::new(alloc, MAX_MESSAGE_LEN),
            over: false,
        }
    }

    /// Gives the message that is whole to the sink, or the fault of bytes that no message begins
    /// with. Returns true if there was one of these.
    fn give_front<R: Files + Clock, W: Write>(
        &mut self,
        sink: &mut Sink<'_, R>,
        out: &mut W,
    ) -> io::Result<bool>
        ensures given { IfOk result (λ given. IsGiven self.old.reader.limit
            self.old.reader.held self.new.reader.held self.old.over self.new.over given
            (λ message. IfSome sink.old.recorder (λ old. IsSomeAnd sink.new.recorder (λ new.
            (ends : Bool) × IsRecorded
            (log_of (R.File.contents old.file) old.waiting.bytes.items)
            (log_of (R.File.contents new.file) new.waiting.bytes.items)
            old.waiting.left new.waiting.left self.old.side.number self.old.side.direction
            message ends))) (sink.new ≡ sink.old)) }
        ensures others { self.new
            ≡ record self.old { reader = self.new.reader; over = self.new.over } }
    {
        let Side { number, direction } = self.side;
        match self.reader.front() {
            FrameFront::Open { .. } => Ok(false),
            FrameFront::Whole { frame, .. } => {
                sink.put(number, direction, frame, out)?;
                self.reader.release();
                Ok(true)
            }
            FrameFront::Bad(fault) => {
                sink.put_fault(number, direction, fault, out)?;
                self.over = true;
                self.reader.release();
                Ok(true)
            }
        }
    }

    /// Has the reader take the first bytes of what passed, from `at` on. Returns how many.
    fn feed(&mut self, at: usize) -> io::Result<usize>
        ensures fed { IfOk result (λ n. (n ≤ length (drop at self.old.passed.items))
            × (self.new.reader.held
            ≡ self.old.reader.held ++ take n (drop at self.old.passed.items))) }
        ensures others { self.new ≡ record self.old { reader = self.new.reader } }
        ensures limit { self.new.reader.limit ≡ self.old.reader.limit }
    {
        match self.passed.get(at..) {
            Some(rest) => Ok(self.reader.feed(rest)?),
            None => Ok(0),
        }
    }

    /// Gives the messages to the sink that are whole by what passed.
    ///
    /// # Errors
    ///
    /// Returns an error if the sink fails, or memory ran out, now or when the bytes passed.
    pub fn show<R: Files + Clock, W: Write>(
        &mut self,
        sink: &mut Sink<'_, R>,
        out: &mut W,
    ) -> io::Result<()>
        ensures lost { self.old.lost ≡ true → IsErr result × (self.new ≡ self.old) }
        ensures passed { OnOk result (self.new.passed.items ≡ []) }
        ensures side { self.new.side ≡ self.old.side }
    {
        if self.lost {
            return Err(io::Error::from(ErrorKind::OutOfMemory));
        }
        let mut at = 0;
        'fronts: for _ in 0..u64::MAX {
            if self.over || !sink.wants_messages() {
                break;
            }
            let taken = self.feed(at)?;
            at = at.saturating_add(taken);
            if !self.give_front(sink, out)? && taken == 0 {
                break;
            }
        }
        self.passed.clear();
        Ok(())
    }
}

/// What finds the messages of a connection, on both ways.
#[derive(Drop)]
pub struct Watches {
    pub there: Watch,
    pub back: Watch,
}

impl Watches {
    /// Makes what finds the messages of the connection of this number. It takes no memory.
    pub fn new(alloc: Global, number: u64) -> Watches
        ensures there { result.there.side.direction ≡ Direction.There }
        ensures back { result.back.side.direction ≡ Direction.Back }
        ensures numbered { (result.there.side.number ≡ number)
            × (result.back.side.number ≡ number) }
    {
        Watches {
            there: Watch::new(alloc, number, Direction::There),
            back: Watch::new(alloc, number, Direction::Back),
        }
    }

    /// Makes the same if it is `wanted`. It takes no memory.
    pub fn if_wanted(alloc: Global, number: u64, wanted: bool) -> Option<Watches>
        ensures { is_some result ≡ wanted }
    {
        if wanted {
            Some(Watches::new(alloc, number))
        } else {
            None
        }
    }

    /// Gives the messages to the sink that are whole by what passed, those to the server first.
    ///
    /// # Errors
    ///
    /// Returns an error if the sink fails, or memory ran out, now or when the bytes passed.
    pub fn show<R: Files + Clock, W: Write>(
        &mut self,
        sink: &mut Sink<'_, R>,
        out: &mut W,
    ) -> io::Result<()>
        ensures lost { self.old.there.lost ≡ true → IsErr result × (self.new ≡ self.old) }
        ensures passed { OnOk result ((self.new.there.passed.items ≡ [])
            × (self.new.back.passed.items ≡ [])) }
        ensures sides { (self.new.there.side ≡ self.old.there.side)
            × (self.new.back.side ≡ self.old.back.side) }
    {
        self.there.show(sink, out)?;
        self.back.show(sink, out)
    }
}
