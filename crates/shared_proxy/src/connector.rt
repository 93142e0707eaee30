//! Accepts clients, and connects to the server.

ghost use Rattle.std.specs.Prelude.{◌≡◌, ◌↔◌, IfOk, IfSome, IsTrue, None, Ok, false};
ghost use Rattle.sockets.specs.{IsReady};
ghost use Rattle.shared_proxy.specs.Connecting.{IsAccepted, IsBegun, SameServer, SameWanted};

use crate::line::Line;
use crate::side::Side;
use mio::Events;
use mio::net::TcpStream;
use proxy::{Socket, drawn_cut};
use sockets::{Acceptor, IoFailure};
use std::alloc::{AllocError, Global};
use std::io;
use std::io::Write;
use std::net::{Net, SocketAddr};
use std::time::Duration;

/// What accepts clients, and the address of the server.
#[derive(Drop)]
pub struct Connector {
    alloc: Global,
    acceptor: Acceptor,
    upstream: SocketAddr,
    /// From what it is drawn where connections to the server are cut.
    seed: Option<u64>,
    /// Requests are held until a script says what becomes of them.
    holds: bool,
}

impl Connector {
    /// Accepts clients at `acceptor`, whose requests are held if `holds` is true, and connects to the
    /// server at `upstream`.
    pub fn new(
        alloc: Global,
        acceptor: Acceptor,
        upstream: SocketAddr,
        seed: Option<u64>,
        holds: bool,
    ) -> Connector
        ensures acceptor { result.acceptor ≡ acceptor }
        ensures upstream { result.upstream ≡ upstream }
        ensures seed { result.seed ≡ seed }
        ensures holds { result.holds ≡ holds }
    {
        Connector {
            alloc,
            acceptor,
            upstream,
            seed,
            holds,
        }
    }

    /// Notes that a client may wait, or that there is room for one again.
    pub fn resume(&mut self)
        ensures ready { IsReady self.new.acceptor }
        ensures wanted { SameWanted self.old self.new }
        ensures server { SameServer self.old self.new }
    {
        self.acceptor.resume();
    }

    /// Returns what accepts connections, and waits for the events of sockets.
    pub fn acceptor(&self) -> &Acceptor
        ensures { result.now ≡ self.now.acceptor }
    {
        &self.acceptor
    }

    /// Returns true if a client may wait.
    pub fn is_ready(&self) -> bool
        ensures { IsTrue result ↔ IsReady self.now.acceptor }
    {
        self.acceptor.is_ready()
    }

    /// Waits for events: not at all if there is more to do, and no longer than `least`.
    ///
    /// # Errors
    ///
    /// Returns why waiting failed.
    pub fn wait(
        &mut self,
        events: &mut Events<Global>,
        has_more: bool,
        least: Option<Duration>,
    ) -> io::Result<()>
        ensures wanted { SameWanted self.old self.new }
        ensures server { SameServer self.old self.new }
    {
        self.acceptor.wait(events, has_more, least)
    }

    /// Writes why no more connections are accepted for now, once until none waits again.
    ///
    /// # Errors
    ///
    /// Returns an error if writing fails.
    pub fn tell_backlog<W: Write>(&mut self, out: &mut W) -> io::Result<()>
        ensures wanted { SameWanted self.old self.new }
        ensures server { SameServer self.old self.new }
    {
        self.acceptor.tell_backlog(out)
    }

    /// Makes the line of a client.
    fn client_line(&self, stream: TcpStream) -> Result<Line, AllocError>
        ensures { IfOk result IsAccepted }
    {
        let mut line = Line::of_client(self.alloc, Socket::new(self.alloc, stream)?)?;
        if self.holds {
            line.hold(self.alloc)?;
        }
        Ok(line)
    }

    /// Accepts the client that is to have this number, if one waits and there is room for it. If it
    /// can't be registered, it is accepted once more after a pause.
    ///
    /// # Errors
    ///
    /// Returns `AllocError` if memory runs out.
    pub fn accept(&mut self, number: u64, has_room: bool) -> Result<Option<Line>, AllocError>
        ensures room { has_room ≡ false → result ≡ Ok None }
        ensures line { IfOk result (λ found. IfSome found IsAccepted) }
        ensures given { IfOk result (λ found. IfSome found
            (λ line. self.new.acceptor.returned ≡ None)) }
        ensures server { SameServer self.old self.new }
    {
        let token = Side::Client(number).token();
        match self.acceptor.accept_under(has_room, token) {
            Some(stream) => Ok(Some(self.client_line(stream)?)),
            None => Ok(None),
        }
    }

    /// Makes the line of the connection to the server of this number.
    fn server_line(&self, stream: TcpStream, number: u64) -> Result<Line, AllocError>
        ensures { IfOk result (λ line. IsBegun self.now.seed line) }
    {
        let cut = self.seed.map(|seed| drawn_cut(seed, number));
        Line::of_server(self.alloc, Socket::new(self.alloc, stream)?, cut)
    }

    /// Connects to the server, and returns the line of the connection, which is to have this number,
    /// or why that failed.
    ///
    /// # Errors
    ///
    /// Returns `AllocError` if memory runs out.
    pub fn connect(
        &self,
        net: &impl Net,
        number: u64,
    ) -> Result<Result<Line, IoFailure>, AllocError>
        ensures { IfOk result (λ made. IfOk made (λ line. IsBegun self.now.seed line)) }
    {
        let token = Side::Server(number).token();
        match self.acceptor.connect(net, self.upstream, token) {
            Ok(stream) => Ok(Ok(self.server_line(stream, number)?)),
            Err(error) => Ok(Err(IoFailure::of(&error))),
        }
    }
}
