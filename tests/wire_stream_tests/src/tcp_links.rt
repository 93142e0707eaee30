//! Tests of a TCP link over a made-up stream: it counts failures and ends, a write that takes
//! nothing is a failure, a call that was interrupted is made again, and one that would block is no
//! failure.

ghost use Rattle.std.specs.Prelude.{◌≤◌, IfOk};

use crate::links::{REPLY, push_reply};
use std::alloc::Global;
use std::io;
use std::io::{ErrorKind, Read, Write};
use std::net::TcpStream;
use wire_stream::{Flushed, Inlet, Link, LinkFault, Moved, OutBuf, Pulled, TcpLink, flush};

/// A stream whose first `interrupted` reads and writes are interrupted. Later ones move as many bytes
/// as `moves` says, or fail with its error.
#[derive(Drop)]
struct Stream {
    interrupted: u32,
    moves: Result<usize, ErrorKind>,
}

impl Stream {
    /// Returns how many bytes a call moves that may move at most `most`.
    fn moved(&mut self, most: usize) -> io::Result<usize>
        ensures { IfOk result (λ count. count ≤ most) }
    {
        if self.interrupted > 0 {
            self.interrupted -= 1;
            return Err(io::Error::from(ErrorKind::Interrupted));
        }
        match self.moves {
            Ok(count) => Ok(count.min(most)),
            Err(kind) => Err(io::Error::from(kind)),
        }
    }
}

impl Read for Stream {
    fn read(&mut self, buffer: &mut [u8]) -> io::Result<usize> {
        self.moved(buffer.len())
    }
}

impl Write for Stream {
    fn write(&mut self, bytes: &[u8]) -> io::Result<usize> {
        self.moved(bytes.len())
    }

    fn flush(&mut self) -> io::Result<()> {
        Ok(())
    }
}

/// Returns the link over a TCP connection. No test makes one; this shows that there is such a link.
fn over_tcp(stream: TcpStream) -> TcpLink<TcpStream> {
    TcpLink::new(stream)
}

/// Returns the result of a link's call that fails with this kind of error.
fn failed(kind: ErrorKind) -> Result<Moved, LinkFault> {
    Err(LinkFault { kind })
}

/// Returns true if `recv` returns `received` and `send` returns `sent` over a stream that moves
/// `count` bytes a call, or fails, after two interrupted calls.
fn moves(
    count: Result<usize, ErrorKind>,
    received: Result<Moved, LinkFault>,
    sent: Result<Moved, LinkFault>,
) -> bool {
    let mut link = TcpLink::new(Stream {
        interrupted: 2,
        moves: count,
    });
    let mut buffer = [0; 4];
    link.recv(&mut buffer) == received
        && link.send(b"abc") == sent
        && link.send(b"") == Ok(Moved::Bytes(0))
        && link.recv(&mut []) == Ok(Moved::Bytes(0))
}

#[test]
fn streams_move_bytes_or_fail(rt: HostRuntime) {
    assert!(rt; moves(Ok(2), Ok(Moved::Bytes(2)), Ok(Moved::Bytes(2))));
    assert!(rt; moves(Ok(9), Ok(Moved::Bytes(4)), Ok(Moved::Bytes(3))));
    assert!(rt; moves(Ok(0), Ok(Moved::Bytes(0)), failed(ErrorKind::WriteZero)));
    for kind in &[ErrorKind::ConnectionReset, ErrorKind::TimedOut] {
        assert!(rt; moves(Err(*kind), failed(*kind), failed(*kind)));
    }
}

#[test]
fn a_call_that_would_block_is_no_failure(rt: HostRuntime) {
    assert!(rt;
        moves(
            Err(ErrorKind::WouldBlock),
            Ok(Moved::Later),
            Ok(Moved::Later)
        )
    );
}

/// Returns true if nothing is pulled from a link that would block, and a flush over it leaves the
/// bytes that wait.
fn waits(alloc: Global) -> bool {
    let mut link = TcpLink::new(Stream {
        interrupted: 0,
        moves: Err(ErrorKind::WouldBlock),
    });
    let mut out = OutBuf::new(alloc);
    match Inlet::new(alloc) {
        Ok(mut inlet) => {
            inlet.pull(&mut link) == Ok(Pulled::Later)
                && push_reply(alloc, &mut out)
                && flush(&mut link, &mut out) == Ok(Flushed::Later)
                && out.output() == REPLY.as_slice()
        }
        Err(_) => false,
    }
}

#[test]
fn a_link_that_would_block_leaves_what_waits(rt: HostRuntime) {
    assert!(rt; waits(rt.alloc()));
}
