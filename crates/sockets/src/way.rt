//! One way between two links.

ghost use Rattle.std.specs.Prelude.{◌≡◌, ◌≢◌, ℕ, IfOk, OnErr, OnOk, []};
ghost use Rattle.std.specs.Io.KnownBytes.{Keeps};
ghost use Rattle.wire_stream.specs.{Rose};
ghost use Rattle.sockets.specs.RelayActs.{new_way, tells};
ghost use Rattle.sockets.specs.RelaySteps.{Finishes, Receives, Sends, WaySteps};

use crate::tap::Tap;
use crate::turned::{RelayFault, Turned};
use std::alloc::{AllocError, Global};
use std::marker::Model;
use wire_stream::{Link, LinkFault, Moved};

/// The most bytes that are held.
const ROOM: usize = 65_536;

/// A link whose sending can be ended, while bytes still come.
pub trait EndSending: Link {
    // The number of calls that ended the sending, counted up to 2 ^ 64 - 1.
    ghost endings: { Self → ℕ };

    /// Tells the other side that no more bytes are sent.
    ///
    /// # Errors
    ///
    /// Returns `LinkFault` if the link failed.
    fn end_sending(&mut self) -> Result<(), LinkFault>
        ensures received { Keeps (Self.received self.old) (Self.received self.new) }
        ensures sent { Keeps (Self.sent self.old) (Self.sent self.new) }
        ensures ended { OnOk result (Rose (endings self.old) (endings self.new)) }
        ensures not_ended { OnErr result (endings self.new ≡ endings self.old) }
        ensures works { OnOk result (Self.failures self.new ≡ Self.failures self.old) }
        ensures fails { OnErr result (Rose (Self.failures self.old) (Self.failures self.new)) };
}

/// How far a way is.
#[derive(Clone, Copy, Debug, PartialEq, Eq)]
pub(crate) enum Stage {
    /// Bytes may come.
    Open,
    /// The link that bytes come over has ended. What is held is to be sent.
    Ending,
    /// All was sent, and the sending over the other link was ended.
    Ended,
}

/// At most 65,536 bytes that came over one link and weren't sent over the other yet. Contracts see
/// it as the record `WayView`.
#[derive(Drop)]
pub(crate) struct Way {
    piece: Vec<u8>,
    start: usize,
    end: usize,
    stage: Stage,
}

impl Model for Way {
    ghost use Rattle.sockets.specs.RelayActs.{WayView};
    ghost use Rattle.sockets.specs.WayParts.{AreParts, view_of};

    ghost Value = { WayView };

    ghost view = { λ s. view_of s.piece.items s.start s.end s.stage };

    ghost invariant = { λ s. AreParts s.piece.items s.start s.end s.stage };
}

impl Way {
    /// Makes a way that holds nothing. Takes memory for what it may hold; no other call takes any.
    ///
    /// # Errors
    ///
    /// Returns `AllocError` if memory runs out.
    pub(crate) fn new(alloc: Global) -> Result<Way, AllocError>
        ensures { IfOk result (λ way. way ≡ new_way) }
    {
        let piece = vec![in alloc; 0u8; ROOM]?;
        Ok(Way {
            piece,
            start: 0,
            end: 0,
            stage: Stage::Open,
        })
    }

    /// Sends some of what is held.
    fn send<T: EndSending>(&mut self, to: &mut T) -> Result<Turned, RelayFault>
        requires some { self.old.held ≢ [] }
        ensures { Sends (tells T.received T.sent T.ends T.waits T.failures T.endings) result
            self.old self.new to.old to.new }
    {
        match to.send(&self.piece[self.start..self.end]) {
            Ok(Moved::Bytes(n)) => {
                self.start += n;
                Ok(Turned::Again)
            }
            Ok(Moved::Later) => Ok(Turned::Waits),
            Err(fault) => Err(RelayFault::Sending(fault)),
        }
    }

    /// Receives a piece, or notes the end of the link.
    fn receive<F: EndSending, P: Tap>(
        &mut self,
        from: &mut F,
        tap: &mut P,
    ) -> Result<Turned, RelayFault>
        requires open { self.old.stage ≡ Stage.Open }
        requires none { self.old.held ≡ [] }
        ensures { Receives (tells F.received F.sent F.ends F.waits F.failures F.endings) result
            self.old self.new from.old from.new (P.seen tap.old) (P.seen tap.new) }
    {
        match from.recv(&mut self.piece) {
            Ok(Moved::Bytes(0)) => {
                self.stage = Stage::Ending;
                Ok(Turned::Again)
            }
            Ok(Moved::Bytes(n)) => {
                self.start = 0;
                self.end = n;
                tap.see(&self.piece[..n]);
                Ok(Turned::Again)
            }
            Ok(Moved::Later) => Ok(Turned::Waits),
            Err(fault) => Err(RelayFault::Receiving(fault)),
        }
    }

    /// Ends the sending, since all that came was sent.
    fn finish<T: EndSending>(&mut self, to: &mut T) -> Result<Turned, RelayFault>
        requires ending { self.old.stage ≡ Stage.Ending }
        requires none { self.old.held ≡ [] }
        ensures { Finishes (tells T.received T.sent T.ends T.waits T.failures T.endings) result
            self.old self.new to.old to.new }
    {
        match to.end_sending() {
            Ok(()) => {
                self.stage = Stage::Ended;
                Ok(Turned::Again)
            }
            Err(fault) => Err(RelayFault::Sending(fault)),
        }
    }

    /// Takes a step: sends what is held, else receives, which the tap sees, else ends the sending.
    ///
    /// # Errors
    ///
    /// Returns which link failed. Nothing is lost, and nothing is sent twice.
    pub(crate) fn step<F: EndSending, T: EndSending, P: Tap>(
        &mut self,
        from: &mut F,
        to: &mut T,
        tap: &mut P,
    ) -> Result<Turned, RelayFault>
        ensures { WaySteps (tells F.received F.sent F.ends F.waits F.failures F.endings)
            (tells T.received T.sent T.ends T.waits T.failures T.endings) result
            self.old self.new from.old from.new to.old to.new
            (P.seen tap.old) (P.seen tap.new) }
    {
        if self.start < self.end {
            return self.send(to);
        }
        match self.stage {
            Stage::Open => self.receive(from, tap),
            Stage::Ending => self.finish(to),
            Stage::Ended => Ok(Turned::Over),
        }
    }
}
