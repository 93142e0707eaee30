//! A link whose messages are held until it is said what becomes of them.

ghost use Rattle.std.specs.Prelude.{◌≡◌, ◌≢◌, ◌≤◌, ◌<◌, ◌↔◌, [], ℕ, List, IfErr, IfOk, IfSome};
ghost use Rattle.std.specs.Prelude.{IsSomeAnd, IsTrue, None, OnErr, OnOk, Some, false, length};
ghost use Rattle.std.specs.Prelude.{if◌then◌else◌, nat_lt, ◌==◌, take};
ghost use Rattle.std.specs.Io.KnownBytes.{Appends, Keeps};
ghost use Rattle.wire_frames.specs.{frame_bytes};
ghost use Rattle.wire_stream.specs.{Rose, TellsEnd, TellsLater, bytes_moved};
ghost use Rattle.proxy.specs.Holding.{Cuts, HoldMoves, Holds, Passes, Pulls, Puts, Skips, new_view};
ghost use Rattle.proxy.specs.Holding.{shown, view_of};
ghost use Rattle.proxy.specs.Steering.{IsSteered};
ghost use Rattle.proxy.specs.Turning.{cut_at};

use crate::held::Held;
use crate::steer::Steer;
use sockets::EndSending;
use std::alloc::{AllocError, Global};
use std::io::ErrorKind;
use std::mem::replace;
use wire_frames::RawFrame;
use wire_stream::{Link, LinkFault, Moved};

/// A link whose messages may be held: none of their bytes is received over it before it is said
/// what becomes of the message. As a `Link` it shows the bytes that came over the link under it, if
/// nothing was ever held or put, and those that were sent.
#[derive(Drop)]
pub struct HeldLink<L> {
    held: Held<L>,
    /// Its sending was ended.
    has_ended: bool,
    failures: u64,
    ends: u64,
    waits: u64,
    endings: u64,
}

impl<L: Link + Drop> HeldLink<L> {
    /// Makes a link that gives bytes as they come, but at most `left`. It takes no memory.
    pub fn new(alloc: Global, link: L, left: u64) -> HeldLink<L>
        ensures view { view_of result.held ≡ new_view link left }
        ensures shown { shown L.received result.held ≡ L.received link }
    {
        HeldLink {
            held: Held::new(alloc, link, left),
            has_ended: false,
            failures: 0,
            ends: 0,
            waits: 0,
            endings: 0,
        }
    }

    /// Holds each message from now on, until it is said what becomes of it. It is told before a byte
    /// is received.
    ///
    /// # Errors
    ///
    /// Returns `AllocError` if memory runs out.
    pub fn hold(&mut self, alloc: Global) -> Result<(), AllocError>
        ensures { view_of self.new.held ≡ view_of self.old.held }
    {
        self.held.hold(alloc)
    }

    /// Returns the message that is held and whole, if it wasn't said yet what becomes of it. All
    /// bytes before it were received.
    pub fn message(&self) -> Option<RawFrame<'_>>
        ensures held { IfSome result (λ frame. Holds self.now.held (frame_bytes frame)) }
        ensures all { (message : List ℕ) → Holds self.now.held message
            → IsSomeAnd result (λ frame. frame_bytes frame ≡ message) }
    {
        self.held.message()
    }

    /// Gives the message that is held.
    pub fn pass(&mut self)
        ensures { (message : List ℕ) → Holds self.old.held message → HoldMoves L.received
            (Passes message) (view_of self.old.held) (view_of self.new.held) }
    {
        self.held.pass();
    }

    /// Gives at most the first `count` bytes of the message that is held, and then tells the end.
    pub fn cut(&mut self, count: u64)
        ensures { (message : List ℕ) → Holds self.old.held message → HoldMoves L.received
            (Cuts message count) (view_of self.old.held) (view_of self.new.held) }
    {
        self.held.cut(count);
    }

    /// Lets go of the message that is held, and gives none of its bytes.
    pub fn skip(&mut self)
        ensures { (message : List ℕ) → Holds self.old.held message → HoldMoves L.received
            (Skips message) (view_of self.old.held) (view_of self.new.held) }
    {
        self.held.skip();
    }

    /// Does this with the message that is held.
    pub(crate) fn steer(&mut self, steer: Steer)
        ensures steered { (message : List ℕ) → Holds self.old.held message
            → IsSteered L.received steer message (view_of self.old.held) (view_of self.new.held) }
        ensures stays { steer ≡ Steer.Stay → self.new ≡ self.old }
    {
        match steer {
            Steer::Stay => {}
            Steer::Pass => self.pass(),
            Steer::Cut(count) => self.cut(count),
            Steer::Skip => self.skip(),
        }
    }

    /// Gives these bytes before the message that is held.
    ///
    /// # Errors
    ///
    /// Returns `AllocError` if memory runs out. Then what is given is no longer told.
    pub fn put(&mut self, bytes: &[u8]) -> Result<(), AllocError>
        ensures { OnOk result (HoldMoves L.received (Puts bytes.now)
            (view_of self.old.held) (view_of self.new.held)) }
    {
        self.held.put(bytes)
    }

    /// Returns true if more may be done at once, though the last call gave nothing.
    pub fn has_more(&self) -> bool
        ensures { result ≡ self.now.held.again }
    {
        self.held.again
    }

    /// Returns the same, and false from then on, until there is more again.
    pub fn take_more(&mut self) -> bool
        ensures told { result ≡ self.old.held.again }
        ensures once { self.new.held.again ≡ false }
    {
        replace(&mut self.held.again, false)
    }

    /// Returns true if bytes that may be given weren't yet.
    pub fn owes(&self) -> bool
        ensures owed { IsTrue result ↔ ((view_of self.now.held).owed ≢ []) }
        ensures exact { result ≡ nat_lt self.now.held.start self.now.held.may }
    {
        self.held.owes()
    }

    /// Returns how many bytes were given, if no more are because of a cut.
    pub fn cut_at(&self) -> Option<u64>
        ensures cut { self.now.held.left ≡ 0 → result ≡ Some self.now.held.given }
        ensures uncut { 0 < self.now.held.left → result ≡ None }
        ensures exact { result ≡ cut_at self.now }
    {
        if self.held.left == 0 {
            Some(self.held.given)
        } else {
            None
        }
    }

    /// Returns true if it told its end, so that it gives no more.
    pub fn has_told_end(&self) -> bool
        ensures told { IsTrue result ↔ (0 < self.now.ends) }
        ensures exact { result ≡ nat_lt 0 self.now.ends }
    {
        self.ends > 0
    }

    /// Returns true if a call of it failed.
    pub fn has_failed(&self) -> bool
        ensures failed { IsTrue result ↔ (0 < self.now.failures) }
        ensures exact { result ≡ nat_lt 0 self.now.failures }
    {
        self.failures > 0
    }

    /// Returns the link under it.
    pub fn link(&self) -> &L
        ensures { result.now ≡ self.now.held.link }
    {
        &self.held.link
    }

    /// Returns true if its sending was ended.
    pub fn has_ended_sending(&self) -> bool
        ensures { result ≡ self.now.has_ended }
    {
        self.has_ended
    }
}

impl<L: Link + Drop> Link for HeldLink<L> {
    ghost received = { λ s. shown L.received s.held };

    ghost sent = { λ s. L.sent s.held.link };

    ghost turns = { λ _. None };

    ghost failures = { λ s. s.failures };

    ghost ends = { λ s. s.ends };

    ghost waits = { λ s. s.waits };

    fn recv(&mut self, buffer: &mut [u8]) -> Result<Moved, LinkFault>
        ensures within { IfOk result (λ moved. bytes_moved moved ≤ length buffer.old) }
        ensures pulls { IfOk result (λ moved. Pulls L.received (take (bytes_moved moved) buffer.new)
            (view_of self.old.held) (view_of self.new.held)) }
        ensures shown { IfOk result (λ moved. Appends (shown L.received self.old.held)
            (shown L.received self.new.held) (take (bytes_moved moved) buffer.new)) }
        ensures none_shown { OnErr result
            (Keeps (shown L.received self.old.held) (shown L.received self.new.held)) }
        ensures sent { Keeps (L.sent self.old.held.link) (L.sent self.new.held.link) }
        ensures end { TellsEnd (length buffer.old) result self.old.ends self.new.ends }
        ensures later { TellsLater result self.old.waits self.new.waits }
        ensures never { IfErr result (λ fault. fault.kind ≢ ErrorKind.WouldBlock) }
        ensures works { OnOk result (self.new.failures ≡ self.old.failures) }
        ensures fails { OnErr result (Rose self.old.failures self.new.failures) }
    {
        if buffer.is_empty() {
            return Ok(Moved::Bytes(0));
        }
        let outcome = self.held.pull(buffer);
        match outcome {
            Ok(Moved::Bytes(0)) => self.ends = self.ends.saturating_add(1),
            Ok(Moved::Bytes(_)) => {}
            Ok(Moved::Later) => self.waits = self.waits.saturating_add(1),
            Err(_) => self.failures = self.failures.saturating_add(1),
        }
        outcome
    }

    fn send(&mut self, bytes: &[u8]) -> Result<Moved, LinkFault> {
        let outcome = self.held.send(bytes);
        match outcome {
            Ok(Moved::Bytes(_)) => {}
            Ok(Moved::Later) => self.waits = self.waits.saturating_add(1),
            Err(_) => self.failures = self.failures.saturating_add(1),
        }
        outcome
    }
}

impl<L: EndSending + Drop> EndSending for HeldLink<L> {
    ghost endings = { λ s. s.endings };

    fn end_sending(&mut self) -> Result<(), LinkFault> {
        self.has_ended = true;
        let outcome = self.held.link.end_sending();
        match outcome {
            Ok(()) => self.endings = self.endings.saturating_add(1),
            Err(_) => self.failures = self.failures.saturating_add(1),
        }
        outcome
    }
}
