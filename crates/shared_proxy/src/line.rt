//! A connection, and the bytes that came over it last.

ghost use Rattle.std.specs.Prelude.{◌≡◌, ◌≢◌, ◌≤◌, ◌<◌, [], ℕ, List, IfOk, IfSome, IsSomeAnd, Ok};
ghost use Rattle.std.specs.Prelude.{drop, false, length, min, not, true};
ghost use Rattle.proxy.specs.Holding.{HoldMoves, Holds, Passes, Skips, new_view, view_of};
ghost use Rattle.wire_frames.specs.{frame_bytes};
ghost use Rattle.wire_stream.specs.{bytes_moved};
ghost use Rattle.shared_proxy.specs.Lines.{SameButLink, after_send, cut_of, idle_step, left_by};
ghost use Rattle.shared_proxy.specs.Lines.{limited, new_sending, unseen};

use crate::leave::Leave;
use proxy::{Cut, Direction, HeldLink, Socket};
use sockets::IoFailure;
use std::alloc::{AllocError, Global};
use wire_frames::RawFrame;
use wire_stream::{Inlet, Link, Moved, Pulled};

/// What a step over a connection came to.
#[derive(Clone, Copy)]
pub enum Step {
    /// Something was done, and more may be.
    Again,
    /// Nothing can be done until the connection has bytes, or takes some.
    Waits,
    /// A message is held of which the script is to say what becomes of it.
    Held,
    /// A request or a reply is there, for the other side.
    Ready,
    /// The connection is over.
    Over(Leave),
}

/// What is sent over a connection: which way, how many bytes were, and how many more may be.
#[derive(Clone, Copy)]
struct Sending {
    direction: Direction,
    count: u64,
    left: u64,
}

/// A connection, and the bytes that came over it last.
#[derive(Drop)]
pub struct Line {
    link: HeldLink<Socket>,
    /// The connection is still being made.
    connecting: bool,
    inlet: Inlet,
    sending: Sending,
}

impl Line {
    /// Makes the line of the connection of a client.
    ///
    /// # Errors
    ///
    /// Returns `AllocError` if memory runs out. The connection is closed then.
    pub fn of_client(alloc: Global, socket: Socket) -> Result<Line, AllocError>
        ensures sending { IfOk result (λ l. l.sending
            ≡ new_sending Direction.Back 18446744073709551615) }
        ensures stands { IfOk result (λ l. l.connecting ≡ false) }
        ensures empty { IfOk result (λ l. l.inlet ≡ []) }
        ensures view { IfOk result (λ l. view_of l.link.held
            ≡ new_view socket 18446744073709551615) }
    {
        Ok(Line {
            link: HeldLink::new(alloc, socket, u64::MAX),
            connecting: false,
            inlet: Inlet::new(alloc)?,
            sending: Sending {
                direction: Direction::Back,
                count: 0,
                left: u64::MAX,
            },
        })
    }

    /// Makes the line of a connection to the server, which is cut so, if it is.
    ///
    /// # Errors
    ///
    /// Returns `AllocError` if memory runs out. The connection is closed then.
    pub fn of_server(alloc: Global, socket: Socket, cut: Option<Cut>) -> Result<Line, AllocError>
        ensures sending { IfOk result (λ l. l.sending ≡ new_sending Direction.There
            (left_by cut Direction.There)) }
        ensures connects { IfOk result (λ l. l.connecting ≡ true) }
        ensures empty { IfOk result (λ l. l.inlet ≡ []) }
        ensures view { IfOk result (λ l. view_of l.link.held
            ≡ new_view socket (left_by cut Direction.Back)) }
    {
        let (there, back) = match cut {
            Some(cut) => (cut.left(Direction::There), cut.left(Direction::Back)),
            None => (u64::MAX, u64::MAX),
        };
        Ok(Line {
            link: HeldLink::new(alloc, socket, back),
            connecting: true,
            inlet: Inlet::new(alloc)?,
            sending: Sending {
                direction: Direction::There,
                count: 0,
                left: there,
            },
        })
    }

    /// Holds each message from now on, until it is said what becomes of it.
    ///
    /// # Errors
    ///
    /// Returns `AllocError` if memory runs out.
    pub fn hold(&mut self, alloc: Global) -> Result<(), AllocError>
        ensures view { view_of self.new.link.held ≡ view_of self.old.link.held }
        ensures same { SameButLink self.old self.new }
    {
        self.link.hold(alloc)
    }

    /// Returns the message that is held, if it wasn't said yet what becomes of it.
    pub fn message(&self) -> Option<RawFrame<'_>>
        ensures held { IfSome result (λ frame. Holds self.now.link.held (frame_bytes frame)) }
        ensures all { (message : List ℕ) → Holds self.now.link.held message
            → IsSomeAnd result (λ frame. frame_bytes frame ≡ message) }
    {
        self.link.message()
    }

    /// Gives the message that is held.
    pub fn pass(&mut self)
        ensures passes { (message : List ℕ) → Holds self.old.link.held message → HoldMoves unseen
            (Passes message) (view_of self.old.link.held) (view_of self.new.link.held) }
        ensures same { SameButLink self.old self.new }
    {
        self.link.pass();
    }

    /// Lets go of the message that is held.
    pub fn skip(&mut self)
        ensures skips { (message : List ℕ) → Holds self.old.link.held message → HoldMoves unseen
            (Skips message) (view_of self.old.link.held) (view_of self.new.link.held) }
        ensures same { SameButLink self.old self.new }
    {
        self.link.skip();
    }

    /// Limits how many more bytes are sent to `left`. Behind them the connection is cut.
    pub fn limit_sending(&mut self, left: u64)
        ensures { self.new ≡ limited left self.old }
    {
        self.sending.left = self.sending.left.min(left);
    }

    /// Returns how the connection was cut, if no more may be sent over it.
    pub fn cut(&self) -> Option<Leave>
        ensures { result ≡ cut_of self.now.sending }
    {
        if self.sending.left == 0 {
            Some(Leave::Cut(self.sending.direction, self.sending.count))
        } else {
            None
        }
    }

    /// Returns true if the connection stands, and false while it is still being made; or why it can't
    /// be made.
    fn stands(&mut self) -> Result<bool, Leave>
        ensures stands { IfOk result (λ stands. stands ≡ not self.new.connecting) }
        ensures once { self.old.connecting ≡ false → (result ≡ Ok true) × (self.new ≡ self.old) }
        ensures link { self.new.link ≡ self.old.link }
        ensures inlet { self.new.inlet ≡ self.old.inlet }
        ensures sending { self.new.sending ≡ self.old.sending }
    {
        if self.connecting {
            match self.link.link().is_connected() {
                Ok(connected) => self.connecting = !connected,
                Err(error) => return Err(Leave::Unconnected(IoFailure::of(&error))),
            }
        }
        Ok(!self.connecting)
    }

    /// Sends bytes from the front of `bytes`, and returns how many, or why the connection is over.
    pub fn send(&mut self, bytes: &[u8]) -> Result<Moved, Leave>
        ensures within { IfOk result (λ moved. bytes_moved moved ≤ length bytes.now) }
        ensures left { IfOk result (λ moved. bytes_moved moved ≤ self.old.sending.left) }
        ensures sending { self.new.sending ≡ after_send result self.old.sending }
        ensures inlet { self.new.inlet ≡ self.old.inlet }
    {
        if !self.stands()? {
            return Ok(Moved::Later);
        }
        let most = bytes.len().min(self.sending.left as usize);
        match self.link.send(&bytes[..most]) {
            Ok(Moved::Bytes(n)) => {
                self.sending.count = self.sending.count.saturating_add(n as u64);
                self.sending.left = self.sending.left.saturating_sub(n as u64);
                Ok(Moved::Bytes(n))
            }
            Ok(Moved::Later) => Ok(Moved::Later),
            Err(fault) => Err(Leave::sending(fault)),
        }
    }

    /// Returns the bytes that came and were not taken yet.
    pub fn bytes(&self) -> &[u8]
        ensures bytes { result.now ≡ self.now.inlet }
        ensures within { length result.now ≤ 4096 }
    {
        self.inlet.bytes()
    }

    /// Drops the first `n` of the bytes that came, which were taken.
    pub fn used(&mut self, n: usize)
        ensures inlet { self.new.inlet ≡ drop (min n (length self.old.inlet)) self.old.inlet }
        ensures link { self.new.link ≡ self.old.link }
        ensures connecting { self.new.connecting ≡ self.old.connecting }
        ensures sending { self.new.sending ≡ self.old.sending }
    {
        self.inlet.used(n.min(self.inlet.bytes().len()));
    }

    /// Receives bytes, if none are there. Returns why the connection is over, if it is.
    pub fn pull(&mut self) -> Result<Pulled, Leave>
        ensures bytes { result ≡ Ok Pulled.Bytes → self.new.inlet ≢ [] }
        ensures end { result ≡ Ok Pulled.End
            → (self.new.inlet ≡ []) × (0 < self.new.link.held.left) }
        ensures sending { self.new.sending ≡ self.old.sending }
    {
        if !self.stands()? {
            return Ok(Pulled::Later);
        }
        match self.inlet.pull(&mut self.link) {
            Ok(Pulled::End) => match self.link.cut_at() {
                Some(count) => Err(Leave::Cut(Direction::Back, count)),
                None => Ok(Pulled::End),
            },
            Ok(pulled) => Ok(pulled),
            Err(fault) => Err(Leave::receiving(fault)),
        }
    }

    /// Returns what a step comes to that received nothing.
    pub fn idle(&self) -> Step
        ensures held { (message : List ℕ) → Holds self.now.link.held message → result ≡ Step.Held }
        ensures whole { result ≡ Step.Held → (message : List ℕ) × Holds self.now.link.held message }
        ensures others { result ≢ Step.Held → result ≡ idle_step self.now.link.held.again }
    {
        if self.link.message().is_some() {
            Step::Held
        } else if self.link.has_more() {
            Step::Again
        } else {
            Step::Waits
        }
    }
}
