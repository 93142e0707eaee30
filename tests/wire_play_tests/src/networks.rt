//! How a run ends over a network that fails, or carries what no other end of a connection sent.

use command_run::RunEnd;
use command_run_tests::writers::Counter;
use std::alloc::Global;
use std::io;
use std::io::{ErrorKind, Read, Write};
use std::net::{Net, OpenListener, OpenStream, SocketAddr, TcpListener, TcpStream};
use std::os::fd::{AsRawFd, RawFd};
use wire_play::run_loop;

/// Where a network fails.
#[derive(Clone, Copy, Debug, PartialEq, Eq, Drop)]
enum Failure {
    /// It carries all.
    Nowhere,
    Bind,
    Connect,
    Accept,
    /// Another program's connection is accepted.
    Stranger,
    Send,
    Receive,
    /// Nothing is received any more.
    End,
    /// The number in the first reply's body is another one.
    Reply,
}

/// The offset of that number, behind the header, the flags, the kind of the section, the length of the body, and the kind and the
/// name of its field.
const NUMBER: usize = 28;

/// Errs if this is where the network fails.
fn pass(failure: Failure, here: Failure) -> io::Result<()> {
    if failure == here {
        return Err(io::Error::from(ErrorKind::ConnectionReset));
    }
    Ok(())
}

/// The system's network up to a failure. A socket is bound at a loopback address and nowhere else.
#[derive(Drop)]
struct Network<'a> {
    rt: &'a HostRuntime,
    failure: Failure,
}

#[derive(Drop)]
struct Listener {
    listener: TcpListener,
    failure: Failure,
}

#[derive(Drop)]
struct Stream {
    stream: TcpStream,
    failure: Failure,
    received: usize,
}

/// Returns a stream that fails so, and has received nothing.
fn stream_of(stream: TcpStream, failure: Failure) -> Stream {
    Stream {
        stream,
        failure,
        received: 0,
    }
}

impl Net for Network<'_> {
    type Stream = Stream;

    type Listener = Listener;

    fn bind(&self, address: SocketAddr) -> io::Result<Listener> {
        pass(self.failure, Failure::Bind)?;
        if !address.ip().is_loopback() {
            return Err(io::Error::from(ErrorKind::AddrNotAvailable));
        }
        let listener = TcpListener::bind(self.rt, address)?;
        let failure = self.failure;
        Ok(Listener { listener, failure })
    }

    fn connect(&self, address: SocketAddr) -> io::Result<Stream> {
        pass(self.failure, Failure::Connect)?;
        Ok(stream_of(TcpStream::connect(self.rt, address)?, self.failure))
    }
}

impl OpenListener for Listener {
    type Stream = Stream;

    fn accept(&self) -> io::Result<(Stream, SocketAddr)> {
        pass(self.failure, Failure::Accept)?;
        let (stream, mut address) = self.listener.accept()?;
        if self.failure == Failure::Stranger {
            address.set_port(1);
        }
        // What is received here are requests.
        let failure = match self.failure {
            Failure::Reply => Failure::Nowhere,
            failure => failure,
        };
        Ok((stream_of(stream, failure), address))
    }

    fn local_addr(&self) -> io::Result<SocketAddr> {
        self.listener.local_addr()
    }
}

impl OpenStream for Stream {
    fn local_addr(&self) -> io::Result<SocketAddr> {
        self.stream.local_addr()
    }
}

impl Read for Stream {
    fn read(&mut self, buf: &mut [u8]) -> io::Result<usize> {
        pass(self.failure, Failure::Receive)?;
        if self.failure == Failure::End {
            return Ok(0);
        }
        let n = self.stream.read(buf)?;
        if self.failure == Failure::Reply && self.received <= NUMBER && NUMBER - self.received < n {
            buf[NUMBER - self.received] ^= 1;
        }
        self.received = self.received.saturating_add(n);
        Ok(n)
    }
}

impl Write for Stream {
    fn write(&mut self, buf: &[u8]) -> io::Result<usize> {
        pass(self.failure, Failure::Send)?;
        self.stream.write(buf)
    }

    fn flush(&mut self) -> io::Result<()> {
        self.stream.flush()
    }
}

impl AsRawFd for Listener {
    fn as_raw_fd(&self) -> RawFd {
        self.listener.as_raw_fd()
    }
}

impl AsRawFd for Stream {
    fn as_raw_fd(&self) -> RawFd {
        self.stream.as_raw_fd()
    }
}

/// Returns true if a call over such a network ends as it should, with nothing written.
fn ends_unwritten(rt: &HostRuntime, alloc: Global, failure: Failure) -> bool {
    let mut writer = Counter::failing_at(0);
    let network = Network { rt, failure };
    run_loop(&(network, alloc), 1, &mut writer) == RunEnd::InOut && writer.calls == 0
}

#[test]
fn a_failed_network_ends_the_run(rt: HostRuntime) {
    for failure in [
        Failure::Bind,
        Failure::Connect,
        Failure::Accept,
        Failure::Stranger,
        Failure::Send,
        Failure::Receive,
        Failure::End,
        Failure::Reply,
    ] {
        assert!(rt; ends_unwritten(&rt, rt.alloc(), failure), "at {failure:?}");
    }
}

/// The text of one call.
const ONE_CALL: &str = "call 0 id 1 done\nloop 1 done\n";

/// Returns true if a call over a network that carries all is good.
fn is_carried(rt: &HostRuntime, alloc: Global) -> bool {
    let mut writer = Vec::new(alloc);
    let network = Network {
        rt,
        failure: Failure::Nowhere,
    };
    run_loop(&(network, alloc), 1, &mut writer) == RunEnd::Good
        && writer.as_slice() == ONE_CALL.as_bytes()
}

#[test]
fn a_network_that_carries_all_ends_it_well(rt: HostRuntime) {
    assert!(rt; is_carried(&rt, rt.alloc()));
}
