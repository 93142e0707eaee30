//! A TCP connection as a link whose sending can be ended.

ghost use Rattle.std.specs.Prelude.{◌≡◌, IfOk, IsOk, None};
ghost use Rattle.std.specs.Io.{ReadsAtMost, WritesAtMost};

use mio::net::TcpStream;
use sockets::EndSending;
use std::alloc::{AllocError, Global};
use std::io;
use std::io::{Read, Write};
use std::net::Shutdown;
use std::rc::Rc;
use wire_stream::{Link, LinkFault, Moved, TcpLink};

/// A stream that a link and its owner share.
#[derive(Drop)]
struct Shared(Rc<TcpStream>);

impl Read for Shared {
    fn read(&mut self, buffer: &mut [u8]) -> io::Result<usize>
        ensures bound { ReadsAtMost result buffer.new }
        ensures same { self.new ≡ self.old }
    {
        let mut stream: &TcpStream = &self.0;
        stream.read(buffer)
    }
}

impl Write for Shared {
    fn write(&mut self, bytes: &[u8]) -> io::Result<usize>
        ensures bound { WritesAtMost result bytes.now }
        ensures same { self.new ≡ self.old }
    {
        let mut stream: &TcpStream = &self.0;
        stream.write(bytes)
    }

    fn flush(&mut self) -> io::Result<()>
        ensures works { IsOk result }
        ensures same { self.new ≡ self.old }
    {
        Ok(())
    }
}

/// A connection over TCP. As a `Link` it shows no bytes, as `TcpLink` doesn't.
#[derive(Drop)]
pub struct Socket {
    link: TcpLink<Shared>,
    stream: Rc<TcpStream>,
    failures: u64,
    endings: u64,
}

impl Socket {
    /// Makes the link over a stream.
    ///
    /// # Errors
    ///
    /// Returns `AllocError` if memory runs out. The stream is closed then.
    pub fn new(alloc: Global, stream: TcpStream) -> Result<Socket, AllocError>
        ensures failures { IfOk result (λ s. s.failures ≡ 0) }
        ensures endings { IfOk result (λ s. s.endings ≡ 0) }
        ensures ends { IfOk result (λ s. s.link.ends ≡ 0) }
        ensures waits { IfOk result (λ s. s.link.waits ≡ 0) }
    {
        let stream = Rc::new(alloc, stream)?;
        let shared = Shared(stream.clone()?);
        Ok(Socket {
            link: TcpLink::new(shared),
            stream,
            failures: 0,
            endings: 0,
        })
    }

    /// Returns true if the connection stands, and false while it is still being made.
    ///
    /// # Errors
    ///
    /// Returns why it can't be made.
    pub fn is_connected(&self) -> io::Result<bool> {
        sockets::is_connected(&self.stream)
    }
}

impl Link for Socket {
    ghost received = { λ _. None };

    ghost sent = { λ _. None };

    ghost turns = { λ _. None };

    ghost failures = { λ s. s.failures };

    ghost ends = { λ s. s.link.ends };

    ghost waits = { λ s. s.link.waits };

    fn recv(&mut self, buffer: &mut [u8]) -> Result<Moved, LinkFault> {
        let outcome = self.link.recv(buffer);
        if outcome.is_err() {
            self.failures = self.failures.saturating_add(1);
        }
        outcome
    }

    fn send(&mut self, bytes: &[u8]) -> Result<Moved, LinkFault> {
        let outcome = self.link.send(bytes);
        if outcome.is_err() {
            self.failures = self.failures.saturating_add(1);
        }
        outcome
    }
}

impl EndSending for Socket {
    ghost endings = { λ s. s.endings };

    fn end_sending(&mut self) -> Result<(), LinkFault> {
        match self.stream.shutdown(Shutdown::Write) {
            Ok(()) => {
                self.endings = self.endings.saturating_add(1);
                Ok(())
            }
            Err(error) => {
                self.failures = self.failures.saturating_add(1);
                Err(LinkFault { kind: error.kind() })
            }
        }
    }
}
