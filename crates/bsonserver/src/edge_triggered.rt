//! Leaves out reads that would find nothing.
//!
//! The system tells of each byte, and of the end, that comes after a read (`man 7 epoll`, edge-triggered).
//! So in a turn that an event began, a read that didn't fill its buffer left nothing, unless the event
//! told that the other side sends no more: that was told with the bytes before it, and isn't told again.

ghost use Rattle.std.specs.Prelude.{◌≡◌, IfOk, None, OnErr, Some, length};
ghost use Rattle.std.specs.Io.{ReadsAtMost};
ghost use Rattle.std.specs.Io.KnownBytes.{ReadConsumes};
ghost use Rattle.bsonserver.specs.Turning.{IsNext, turn_of};

use mio::event::Event;
use std::alloc::{AllocError, Global};
use std::cell::Cell;
use std::io;
use std::io::{ErrorKind, Read, Write};
use std::rc::Rc;

/// The turn that a connection takes.
#[derive(Drop)]
pub struct Turns {
    /// The number of the events that the system told last, up to 2^64 - 1. Those behind them have
    /// none.
    told: Option<u64>,
    /// That number, or none if all that came has to be read in the turn.
    pub current: Rc<Cell<Option<u64>>>,
}

impl Turns {
    /// Begins before the first turn. Takes memory for what the streams share.
    ///
    /// # Errors
    ///
    /// Returns `AllocError` if memory runs out.
    pub fn new(alloc: Global) -> Result<Turns, AllocError>
        ensures { IfOk result (λ t. t.told ≡ Some 0) }
    {
        let current = Rc::new(alloc, Cell::new(None))?;
        Ok(Turns {
            told: Some(0),
            current,
        })
    }

    /// Counts that the system told events.
    pub fn count(&mut self)
        ensures { IsNext self.old.told self.new.told }
    {
        self.told = match self.told {
            Some(told) => told.checked_add(1),
            None => None,
        };
    }

    /// Returns the number for a turn that one of the events that the system told last begins.
    pub fn number_of(&self, event: &Event) -> Option<u64>
        ensures { result ≡ turn_of self.now.told event.now }
    {
        if event.is_read_closed() || event.is_error() {
            None
        } else {
            self.told
        }
    }

    /// Returns a stream that leaves out reads in these turns.
    ///
    /// # Errors
    ///
    /// Returns `AllocError` if there are more streams than are counted.
    pub fn edge_triggered<S: Drop>(&self, stream: S) -> Result<EdgeTriggered<S>, AllocError>
        ensures { IfOk result (λ e. (e.stream ≡ stream) × (e.emptied ≡ None)) }
    {
        let turn = self.current.clone()?;
        Ok(EdgeTriggered {
            stream,
            turn,
            emptied: None,
        })
    }
}

/// A stream of a connection that the system tells of. A read that would find nothing fails with
/// `WouldBlock` and isn't made: since the same events a read didn't fill its buffer.
#[derive(Drop)]
pub struct EdgeTriggered<S> {
    stream: S,
    turn: Rc<Cell<Option<u64>>>,
    /// The number of the events in whose turn a read left nothing last.
    emptied: Option<u64>,
}

impl<S: Read> Read for EdgeTriggered<S> {
    ghost remaining = { λ stream. S.remaining stream.stream };

    fn read(&mut self, buffer: &mut [u8]) -> io::Result<usize>
        ensures bound { ReadsAtMost result buffer.new }
        ensures bytes { ReadConsumes (S.remaining self.old.stream) (S.remaining self.new.stream)
            result buffer.new }
        ensures filled { IfOk result (λ n. n ≡ length buffer.new → self.new.emptied ≡ None) }
        ensures failed { OnErr result (self.new.emptied ≡ self.old.emptied) }
    {
        let turn = self.turn.get();
        if turn.is_some() && self.emptied == turn {
            return Err(io::Error::from(ErrorKind::WouldBlock));
        }
        let count = self.stream.read(buffer)?;
        self.emptied = if count > 0 && count < buffer.len() {
            turn
        } else {
            None
        };
        Ok(count)
    }
}

impl<S: Write> Write for EdgeTriggered<S> {
    ghost contents = { λ stream. S.contents stream.stream };

    fn write(&mut self, bytes: &[u8]) -> io::Result<usize> {
        self.stream.write(bytes)
    }

    fn flush(&mut self) -> io::Result<()> {
        self.stream.flush()
    }
}
