//! Accepts connections, as many as are wanted, and waits for what happens on them.

ghost use Rattle.std.specs.Prelude.{◌≡◌, ◌↔◌, ◌+◌, [], IfOk, IfSome, IsTrue, None, OnErr, Some};
ghost use Rattle.std.specs.Prelude.{false, option_map, true};
ghost use Rattle.std.specs.Duration.{as_nanos};
ghost use Rattle.mio.specs.Events.{items};
ghost use Rattle.mio.specs.declared.net.stream.TcpStream.{TcpStream};
ghost use Rattle.sockets.specs.Waiting.{IsReady, wait_nanos};

use crate::delays::sooner;
use crate::failure::IoFailure;
use crate::polling;
use crate::standing::{Backlog, Standing, WaitReason};
use mio::net::{TcpListener, TcpStream};
use mio::{Events, Interest, Poll, Token};
use std::alloc::Global;
use std::io;
use std::io::{ErrorKind, Write};
use std::net::{Net, SocketAddr};
use std::time::Duration;

/// The most connections that are accepted at once, before others take turns.
pub const ACCEPTS: usize = 16;

/// How many milliseconds are waited where accepting failed, before it is tried again.
const PAUSE: u64 = 50;

/// A listener, and what tells of its connections and of others.
#[derive(Drop)]
pub struct Acceptor {
    pub(crate) poll: Poll,
    /// The listener, until as many connections came as are wanted.
    listener: Option<TcpListener>,
    standing: Standing,
    backlog: Backlog,
    /// A connection that came, and is accepted once more.
    returned: Option<TcpStream>,
    /// How many more connections are accepted.
    wanted: u64,
}

impl Acceptor {
    /// Begins to accept `wanted` connections at a listener, which is registered under `token`.
    ///
    /// # Errors
    ///
    /// Returns why the listener can't be registered.
    pub fn new(
        net: &impl Net,
        listener: TcpListener,
        token: Token,
        wanted: u64,
    ) -> io::Result<Acceptor>
        ensures wanted { IfOk result (λ a. a.wanted ≡ wanted) }
        ensures returned { IfOk result (λ a. a.returned ≡ None) }
        ensures ready { IfOk result IsReady }
    {
        let poll = Poll::new(net)?;
        let mut listener = listener;
        poll.registry()
            .register(&mut listener, token, Interest::READABLE)?;
        Ok(Acceptor {
            poll,
            listener: (wanted > 0).then_some(listener),
            standing: Standing::Ready,
            backlog: Backlog::None,
            returned: None,
            wanted,
        })
    }

    /// Registers a stream, so that its events come under this token.
    ///
    /// # Errors
    ///
    /// Returns why that failed.
    pub fn register(&self, stream: &mut TcpStream, token: usize) -> io::Result<()>
        ensures { stream.new ≡ stream.old }
    {
        polling::register(self.poll.registry(), stream, token)
    }

    /// Begins to connect to a server, and registers the connection under this token.
    ///
    /// # Errors
    ///
    /// Returns why that failed.
    pub fn connect(
        &self,
        net: &impl Net,
        address: SocketAddr,
        token: usize,
    ) -> io::Result<TcpStream> {
        let mut stream = TcpStream::connect(net, address)?;
        self.register(&mut stream, token)?;
        Ok(stream)
    }

    /// Notes that a connection may wait, or that there is room for one again.
    pub fn resume(&mut self)
        ensures kept { (self.new.returned ≡ self.old.returned)
            × (self.new.wanted ≡ self.old.wanted) }
        ensures ready { IsReady self.new }
    {
        self.standing = Standing::Ready;
    }

    /// Returns true if a connection may wait.
    pub fn is_ready(&self) -> bool
        ensures { IsTrue result ↔ IsReady self.now }
    {
        self.standing == Standing::Ready
    }

    /// Returns true if no connection is accepted any more.
    fn is_over(&self) -> bool
        ensures { result ≡ true → self.now.returned ≡ None }
    {
        self.listener.is_none() && self.returned.is_none()
    }

    /// Returns the next connection, if one waits, one more is wanted and there is room for it. Who
    /// comes behind the last one that is wanted is refused. One that was taken back comes first, and
    /// isn't counted again.
    pub fn accept(&mut self, has_room: bool) -> Option<TcpStream>
        ensures room { has_room ≡ false → result ≡ None }
        ensures none { result ≡ None → (self.new.returned ≡ self.old.returned)
            × (self.new.wanted ≡ self.old.wanted) }
        ensures returned { (s : TcpStream) → self.old.returned ≡ Some s → has_room ≡ true
            → (result ≡ Some s) × (self.new.wanted ≡ self.old.wanted) }
        ensures next { self.old.returned ≡ None
            → IfSome result (λ s. self.old.wanted ≡ self.new.wanted + 1) }
        ensures given { IfSome result (λ s. self.new.returned ≡ None) }
    {
        if self.is_over() {
            self.standing = Standing::Waits;
            return None;
        }
        if !has_room {
            self.hold_back(Standing::Waits, WaitReason::Room);
            return None;
        }
        match self.returned.take() {
            Some(stream) => Some(stream),
            None => self.accept_next(),
        }
    }

    /// Returns the next connection of the listener, if one waits and one more is wanted.
    fn accept_next(&mut self) -> Option<TcpStream>
        ensures none { result ≡ None → self.new.wanted ≡ self.old.wanted }
        ensures next { IfSome result (λ s. self.old.wanted ≡ self.new.wanted + 1) }
        ensures returned { self.new.returned ≡ self.old.returned }
    {
        let left = self.wanted.checked_sub(1)?;
        match self.listener.as_ref()?.accept() {
            Ok((stream, _)) => {
                self.wanted = left;
                if left == 0 {
                    self.listener = None;
                }
                Some(stream)
            }
            Err(error) if error.kind() == ErrorKind::WouldBlock => {
                self.backlog = Backlog::None;
                self.standing = Standing::Waits;
                None
            }
            Err(error) => {
                let failure = IoFailure::of(&error);
                self.hold_back(Standing::Pauses, WaitReason::Failed(failure));
                None
            }
        }
    }

    /// Returns the next connection, as `accept` does, registered under this token. If it can't be
    /// registered, it is taken back, and accepted once more after a pause.
    pub fn accept_under(&mut self, has_room: bool, token: usize) -> Option<TcpStream>
        ensures room { has_room ≡ false → result ≡ None }
        ensures given { IfSome result (λ s. self.new.returned ≡ None) }
    {
        let mut stream = self.accept(has_room)?;
        match self.register(&mut stream, token) {
            Ok(()) => Some(stream),
            Err(error) => {
                self.take_back(stream, IoFailure::of(&error));
                None
            }
        }
    }

    /// Notes why no more connections are accepted for now.
    fn hold_back(&mut self, standing: Standing, reason: WaitReason)
        ensures returned { self.new.returned ≡ self.old.returned }
        ensures wanted { self.new.wanted ≡ self.old.wanted }
        ensures standing { self.new.standing ≡ standing }
    {
        self.standing = standing;
        if self.backlog == Backlog::None {
            self.backlog = Backlog::Untold(reason);
        }
    }

    /// Takes a connection back that the system can't serve now, for this reason. It is registered no
    /// more, and is accepted once more after a pause.
    pub fn take_back(&mut self, stream: TcpStream, failure: IoFailure)
        ensures returned { self.new.returned ≡ Some stream }
        ensures wanted { self.new.wanted ≡ self.old.wanted }
        ensures pauses { self.new.standing ≡ Standing.Pauses }
    {
        let mut stream = stream;
        // It may not be registered.
        let _ = self.poll.registry().deregister(&mut stream);
        self.returned = Some(stream);
        self.hold_back(Standing::Pauses, WaitReason::Failed(failure));
    }

    /// Returns why connections wait that may have come, once until none waits again.
    pub fn take_reason(&mut self) -> Option<WaitReason>
        ensures kept { (self.new.returned ≡ self.old.returned)
            × (self.new.wanted ≡ self.old.wanted) }
    {
        let Backlog::Untold(reason) = self.backlog else {
            return None;
        };
        self.backlog = Backlog::Told;
        Some(reason)
    }

    /// Writes why connections wait that may have come, once until none waits again.
    ///
    /// # Errors
    ///
    /// Returns an error if writing fails.
    pub fn tell_backlog<W: Write>(&mut self, out: &mut W) -> io::Result<()>
        ensures kept { (self.new.returned ≡ self.old.returned)
            × (self.new.wanted ≡ self.old.wanted) }
    {
        match self.take_reason() {
            Some(reason) => writeln!(out, "{reason}"),
            None => Ok(()),
        }
    }

    /// Returns how long events are waited for: not at all if a connection may wait or there is more
    /// to do, for a pause if accepting failed, and no longer than `least`.
    fn timeout(&self, has_more: bool, least: Option<Duration>) -> Option<Duration>
        ensures { option_map as_nanos result
            ≡ wait_nanos self.now.standing has_more (option_map as_nanos least) }
    {
        if has_more {
            return Some(Duration::from_millis(0));
        }
        match self.standing {
            Standing::Ready => Some(Duration::from_millis(0)),
            Standing::Pauses => sooner(least, Some(Duration::from_millis(PAUSE))),
            Standing::Waits => least,
        }
    }

    /// Waits for events: not at all if there is more to do, and no longer than `least`.
    ///
    /// # Errors
    ///
    /// Returns why waiting failed.
    pub fn wait(
        &mut self,
        events: &mut Events<Global>,
        has_more: bool,
        least: Option<Duration>,
    ) -> io::Result<()>
        ensures kept { (self.new.returned ≡ self.old.returned)
            × (self.new.wanted ≡ self.old.wanted) }
        ensures failed { OnErr result (items events.new ≡ []) }
    {
        let timeout = self.timeout(has_more, least);
        polling::wait(&mut self.poll, events, timeout)?;
        if self.standing == Standing::Pauses {
            self.standing = Standing::Ready;
        }
        Ok(())
    }
}
