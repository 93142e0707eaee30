//! A connection to the server, over which messages of any opCode go.

ghost use Rattle.std.specs.Prelude.{◌≡◌, ◌≢◌, ◌⊎◌, ◌↔◌, ◌++◌, [], IfNone, IfOk, IfSome, IsTrue};
ghost use Rattle.std.specs.Prelude.{List, Ok, OnErr, OnOk, false, true, ℕ};
ghost use Rattle.std.specs.Io.KnownBytes.{Appends, Keeps};
ghost use Rattle.wire_frames.specs.{IsWholeFrame, LacksFrame, WantsMore, frame_bytes};
ghost use Rattle.replay.specs.Gives.{Gives, sent_as};

use crate::waiting::Waiting;
use sockets::IoFailure;
use std::alloc::{AllocError, Global};
use std::fmt;
use std::io::ErrorKind;
use wire_frames::{FrameFront, FrameReader, RawFrame};
use wire_msg::{MAX_MESSAGE_LEN, MsgFault};
use wire_stream::{Flushed, Inlet, Link, LinkFault, Pulled, flush};

/// Why nothing more goes over a connection.
#[derive(Clone, Copy)]
pub enum Broken {
    /// Connecting to the server failed.
    Connecting(IoFailure),
    /// It failed before it stood.
    Unconnected(LinkFault),
    /// Sending failed.
    Sending(LinkFault),
    /// Receiving failed.
    Receiving(LinkFault),
    /// Bytes came that no message begins with.
    NoMessage(MsgFault),
    /// The server ended it.
    Ended,
}

impl fmt::Display for Broken {
    fn fmt<W: fmt::Write>(&self, f: &mut fmt::Formatter<W>) -> fmt::Result {
        match *self {
            Broken::Connecting(failure) => write!(f, "connecting: {failure}"),
            Broken::Unconnected(fault) => write!(f, "connecting: {}", fault.kind),
            Broken::Sending(fault) => write!(f, "sending: {fault}"),
            Broken::Receiving(fault) => write!(f, "receiving: {fault}"),
            Broken::NoMessage(fault) => write!(f, "receiving: {fault}"),
            Broken::Ended => f.write_str("the server ended it"),
        }
    }
}

/// What receiving came to.
#[derive(Clone, Copy)]
pub enum Coming {
    /// A message is whole.
    Message,
    /// No message is whole yet.
    Later,
    /// Nothing more comes.
    Over(Broken),
}

/// What sending came to.
#[derive(Clone, Copy)]
pub enum Sent {
    /// All bytes were sent.
    All,
    /// Some were, and the others wait.
    Part,
    /// None were, and all wait.
    Nothing,
}

/// The longest message that came whose memory a connection keeps for the next one.
const KEPT: usize = 1 << 16;

/// A connection to the server.
#[derive(Drop)]
pub struct Channel<L: Link + Drop> {
    alloc: Global,
    link: L,
    waiting: Waiting,
    /// Whether any byte was ever sent.
    moved: bool,
    inlet: Inlet,
    reader: FrameReader,
    /// Whether anything ever came.
    received: bool,
}

/// Returns true if the server reset the connection.
fn is_reset(kind: ErrorKind) -> bool
    ensures { IsTrue result ↔ (kind ≡ ErrorKind.ConnectionReset) }
{
    matches!(kind, ErrorKind::ConnectionReset)
}

/// Returns what sending came to that ended so, if `gone` bytes were sent.
fn sent_as(flushed: Flushed, gone: usize) -> Sent
    ensures { result ≡ sent_as flushed gone }
{
    match flushed {
        Flushed::All => Sent::All,
        Flushed::Later if gone > 0 => Sent::Part,
        Flushed::Later => Sent::Nothing,
    }
}

impl<L: Link + Drop> Channel<L> {
    /// Makes the connection over a link.
    ///
    /// # Errors
    ///
    /// Returns `AllocError` if memory runs out.
    pub fn new(alloc: Global, link: L) -> Result<Channel<L>, AllocError>
        ensures link { IfOk result (λ channel. channel.link ≡ link) }
        ensures waiting { IfOk result (λ channel. channel.waiting ≡ []) }
        ensures held { IfOk result (λ channel.
            (channel.reader.held ≡ []) × (channel.inlet ≡ [])) }
        ensures idle { IfOk result (λ channel.
            (channel.moved ≡ false) × (channel.received ≡ false)) }
    {
        let inlet = Inlet::new(alloc)?;
        Ok(Channel {
            alloc,
            link,
            waiting: Waiting::new(alloc),
            moved: false,
            inlet,
            reader: FrameReader::new(alloc, MAX_MESSAGE_LEN),
            received: false,
        })
    }

    /// Returns why nothing more goes over the connection after this fault: `known`, unless it failed
    /// before it stood. No byte was sent then, nothing came, and the server didn't reset it.
    pub fn cause(&self, fault: LinkFault, known: Broken) -> Broken
        ensures either { (result ≡ known) ⊎ (result ≡ Broken.Unconnected fault) }
        ensures stood { (self.now.moved ≡ true) ⊎ (self.now.received ≡ true)
            ⊎ (fault.kind ≡ ErrorKind.ConnectionReset) → result ≡ known }
        ensures unconnected { self.now.moved ≡ false → self.now.received ≡ false
            → fault.kind ≢ ErrorKind.ConnectionReset → result ≡ Broken.Unconnected fault }
    {
        if self.moved || self.received || is_reset(fault.kind) {
            known
        } else {
            Broken::Unconnected(fault)
        }
    }

    /// Takes bytes that are to be sent.
    ///
    /// # Errors
    ///
    /// Returns `AllocError` if memory runs out.
    pub fn push(&mut self, bytes: &[u8]) -> Result<(), AllocError>
        ensures given { OnOk result (self.new.waiting ≡ self.old.waiting ++ bytes.now) }
        ensures unchanged { OnErr result (self.new.waiting ≡ self.old.waiting) }
        ensures others { self.new ≡ record self.old { waiting = self.new.waiting } }
    {
        self.waiting.push(bytes)
    }

    /// Sends the bytes that wait, as many as the system takes now.
    ///
    /// # Errors
    ///
    /// Returns `LinkFault` if the connection failed.
    pub fn flush(&mut self) -> Result<Sent, LinkFault>
        ensures given { Gives (L.sent self.old.link) (L.sent self.new.link)
            self.old.waiting self.new.waiting [] }
        ensures all { result ≡ Ok Sent.All → self.new.waiting ≡ [] }
        ensures part { result ≡ Ok Sent.Part → self.new.waiting ≢ [] }
        ensures nothing { result ≡ Ok Sent.Nothing → self.new.waiting ≡ self.old.waiting }
        ensures received { Keeps (L.received self.old.link) (L.received self.new.link) }
        ensures others { self.new ≡ record self.old {
          link = self.new.link;
          waiting = self.new.waiting;
          moved = self.new.moved;
        } }
    {
        let before = self.waiting.len();
        let flushed = flush(&mut self.link, &mut self.waiting);
        let gone = before.saturating_sub(self.waiting.len());
        self.moved = self.moved || gone > 0;
        match flushed {
            Ok(flushed) => Ok(sent_as(flushed, gone)),
            Err(fault) => Err(fault),
        }
    }

    /// Returns the message that is whole, if one is.
    pub fn message(&self) -> Option<RawFrame<'_>>
        ensures some { IfSome result (λ frame. (rest : List ℕ)
            × IsWholeFrame self.now.reader.limit self.now.reader.held (frame_bytes frame) rest) }
        ensures none { IfNone result
            (((more : ℕ) × WantsMore self.now.reader.limit self.now.reader.held more)
            ⊎ LacksFrame self.now.reader.limit self.now.reader.held) }
    {
        match self.reader.front() {
            FrameFront::Whole { frame, .. } => Some(frame),
            FrameFront::Open { .. } | FrameFront::Bad(_) => None,
        }
    }

    /// Lets go of the message that is whole, and of the memory of a long one.
    pub fn release(&mut self)
        ensures held { self.new.reader.held ≡ [] }
        ensures others { self.new ≡ record self.old { reader = self.new.reader } }
    {
        if self.reader.held() > KEPT {
            // It has the bytes of that message alone.
            self.reader = FrameReader::new(self.alloc, MAX_MESSAGE_LEN);
        } else {
            self.reader.release();
        }
    }

    /// Receives until a message is whole.
    ///
    /// # Errors
    ///
    /// Returns `AllocError` if memory runs out.
    pub fn receive(&mut self) -> Result<Coming, AllocError>
        ensures bytes { (more : List ℕ)
            × Appends (L.received self.old.link) (L.received self.new.link) more
            × (self.old.reader.held ++ self.old.inlet ++ more
            ≡ self.new.reader.held ++ self.new.inlet) }
        ensures whole { result ≡ Ok Coming.Message → (frame : List ℕ) × (rest : List ℕ)
            × IsWholeFrame self.new.reader.limit self.new.reader.held frame rest }
        ensures sent { Keeps (L.sent self.old.link) (L.sent self.new.link) }
        ensures waiting { self.new.waiting ≡ self.old.waiting }
    {
        for _ in 0..u64::MAX {
            match self.reader.front() {
                FrameFront::Whole { .. } => return Ok(Coming::Message),
                FrameFront::Bad(fault) => return Ok(Coming::Over(Broken::NoMessage(fault))),
                FrameFront::Open { .. } => {}
            }
            match self.inlet.pull(&mut self.link) {
                Ok(Pulled::Bytes) => {
                    self.received = true;
                    let n = self.reader.feed(self.inlet.bytes())?;
                    self.inlet.used(n);
                }
                Ok(Pulled::Later) => break,
                Ok(Pulled::End) => return Ok(Coming::Over(Broken::Ended)),
                Err(fault) => {
                    return Ok(Coming::Over(self.cause(fault, Broken::Receiving(fault))));
                }
            }
        }
        Ok(Coming::Later)
    }
}
