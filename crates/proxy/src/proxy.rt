//! Accepts connections, and passes their bytes to a server and back.

ghost use Rattle.std.specs.Prelude.{◌≡◌, ◌↔◌, IfErr, IsTrue, OnOk, nat_le};
ghost use Rattle.std.specs.IoError.{error_kind, raw_os_error};
ghost use Rattle.proxy.specs.Reaching.{IsNoneLeft, IsUnreached, LeavesNone, WantsNoRoom};
ghost use Rattle.proxy.specs.Serving.{IsTakenOn};

use crate::event_loop::EventLoop;
use crate::pairs::{Pairs, ROOM};
use crate::sink::Sink;
use mio::net::TcpStream;
use mio::{Events, Token};
use sockets::{ACCEPTS, Acceptor, IoFailure, LISTENER, STDIN};
use std::alloc::Global;
use std::io;
use std::io::Write;
use std::net::{Net, SocketAddr};
use std::rt::Files;
use std::time::Clock;

/// The system's numbers of the errors that it has no memory, no open file, for any process or for
/// this one, or no room for buffers left (`man 3 errno`). They have no kinds of their own.
const ENOMEM: i32 = 12;

const ENFILE: i32 = 23;

const EMFILE: i32 = 24;

const ENOBUFS: i32 = 105;

/// Returns true if the system tells by an error of this number that it has nothing left for one more
/// connection.
fn leaves_none(code: Option<i32>) -> bool
    ensures { IsTrue result ↔ LeavesNone code }
{
    matches!(code, Some(ENOMEM | ENFILE | EMFILE | ENOBUFS))
}

/// Why there is no connection to the server for one that came.
#[derive(Clone, Copy)]
enum Unreached {
    /// The system has nothing left for it, which may be otherwise after a pause.
    NoneLeft(IoFailure),
    /// Connecting failed.
    Refused(IoFailure),
}

/// Returns what it means for a connection that came that connecting to the server failed so.
fn why_unreached(error: &io::Error) -> Unreached
    ensures { IsUnreached (error_kind error.now) (raw_os_error error.now) result }
{
    let failure = IoFailure::of(error);
    if leaves_none(error.raw_os_error()) {
        Unreached::NoneLeft(failure)
    } else {
        Unreached::Refused(failure)
    }
}

/// What accepts connections, the address of the server, and the pairs of connections. The tokens of
/// the connections of a pair are twice its key, and one more.
#[derive(Drop)]
pub struct Proxy {
    acceptor: Acceptor,
    upstream: SocketAddr,
    pairs: Pairs,
}

impl Proxy {
    /// Makes the proxy of the connections that come to `acceptor`, which go to the server at
    /// `upstream`.
    pub fn new(acceptor: Acceptor, upstream: SocketAddr, pairs: Pairs) -> Proxy
        ensures upstream { result.upstream ≡ upstream }
        ensures pairs { result.pairs ≡ pairs }
    {
        Proxy {
            acceptor,
            upstream,
            pairs,
        }
    }

    /// Registers a connection to the server under this token.
    fn register(&self, far: TcpStream, token: usize) -> Result<TcpStream, Unreached>
        ensures { IfErr result IsNoneLeft }
    {
        let mut far = far;
        match self.acceptor.register(&mut far, token) {
            Ok(()) => Ok(far),
            Err(error) => Err(Unreached::NoneLeft(IoFailure::of(&error))),
        }
    }

    /// Connects to the server, and registers the connection under this token.
    fn connect(&self, net: &impl Net, token: usize) -> Result<TcpStream, Unreached>
        ensures { IfErr result WantsNoRoom }
    {
        match TcpStream::connect(net, self.upstream) {
            Ok(far) => self.register(far, token),
            Err(error) => Err(why_unreached(&error)),
        }
    }

    /// Connects to the server for a connection that came, and passes bytes between the two. If the
    /// system has nothing left for that, the connection is taken back, and it is tried again after a
    /// pause. If connecting fails else, the connection is closed, and others are served.
    fn open<W: Write>(
        &mut self,
        net: &impl Net,
        near: TcpStream,
        token: usize,
        out: &mut W,
    ) -> io::Result<()>
        ensures taken { OnOk result (IsTakenOn near self.old.pairs.opened self.new.pairs.opened
            self.old.pairs.ended self.new.pairs.ended self.new.acceptor) }
        ensures upstream { self.new.upstream ≡ self.old.upstream }
    {
        match self.connect(net, token) {
            Ok(far) => self.pairs.open(near, far, out),
            Err(Unreached::NoneLeft(failure)) => {
                self.acceptor.take_back(near, failure);
                Ok(())
            }
            Err(Unreached::Refused(failure)) => self.pairs.refuse(failure, out),
        }
    }

    /// Accepts a connection and opens it, if one waits. One that can't be registered is taken back.
    fn accept_one<W: Write>(&mut self, net: &impl Net, out: &mut W) -> io::Result<()>
        ensures { self.new.upstream ≡ self.old.upstream }
    {
        let token = self.pairs.next_key().saturating_mul(2);
        match self.acceptor.accept_under(self.pairs.len() < ROOM, token) {
            Some(near) => self.open(net, near, token | 1, out),
            None => Ok(()),
        }
    }

    /// Accepts connections, until none waits, and no more than `ACCEPTS`.
    fn accept_some<W: Write>(&mut self, net: &impl Net, out: &mut W) -> io::Result<()>
        ensures { self.new.upstream ≡ self.old.upstream }
    {
        'accepts: for _ in 0..ACCEPTS {
            self.accept_one(net, out)?;
            if !self.acceptor.is_ready() {
                break;
            }
        }
        self.acceptor.tell_backlog(out)
    }

    /// Has each pair of which these events are take a turn.
    fn take_turns<R: Files + Clock, W: Write>(
        &mut self,
        clock: &R,
        events: &Events<Global>,
        sink: &mut Sink<'_, R>,
        out: &mut W,
    ) -> io::Result<()>
        ensures opened { self.new.pairs.opened ≡ self.old.pairs.opened }
        ensures upstream { self.new.upstream ≡ self.old.upstream }
    {
        'events: for event in events.iter() {
            match event.token() {
                LISTENER => self.acceptor.resume(),
                STDIN => {}
                Token(token) => self.pairs.turn(clock, token / 2, sink, out)?,
            }
        }
        Ok(())
    }
}

impl EventLoop for Proxy {
    ghost use Rattle.std.specs.Prelude.{Some, nat_le};

    ghost over = { λ p wanted. Some (nat_le wanted p.pairs.ended) };

    ghost accepts = { λ p. p.acceptor };

    fn is_over(&self, wanted: u64) -> bool
        ensures { result ≡ nat_le wanted self.now.pairs.ended }
    {
        self.pairs.ended() >= wanted
    }

    fn acceptor(&self) -> &Acceptor {
        &self.acceptor
    }

    fn serve_some<R: Net + Files + Clock, W: Write>(
        &mut self,
        rt: &R,
        events: &mut Events<Global>,
        sink: &mut Sink<'_, R>,
        out: &mut W,
    ) -> io::Result<()>
        ensures { self.new.upstream ≡ self.old.upstream }
    {
        out.flush()?;
        sink.flush()?;
        let least = self.pairs.least_delay(rt)?;
        self.acceptor.wait(events, self.pairs.has_more(), least)?;
        let ended = self.pairs.ended();
        self.pairs.turn_again(rt, sink, out)?;
        self.take_turns(rt, events, sink, out)?;
        // Where a pair ended there is room for a connection that waits.
        if self.pairs.ended() != ended {
            self.acceptor.resume();
        }
        if self.acceptor.is_ready() {
            self.accept_some(rt, out)?;
        }
        Ok(())
    }
}
