//! Runs a proxy, from its first line until enough connections ended, or standard input.

ghost use Rattle.std.specs.Prelude.{◌≡◌, ◌≢◌, IfErr, IfOk, IsOk, OnOk, false, is_some, true};
ghost use Rattle.std.specs.Io.KnownBytes.{Appends};
ghost use Rattle.std.specs.Net.Socket.{socket_ip, socket_port};
ghost use Rattle.std.specs.declared.net.socket_addr.SocketAddr.{SocketAddr};
ghost use Rattle.sockets.specs.{listening_line};
ghost use Rattle.proxy.specs.Addresses.{IsLoopback, IsReached};
ghost use Rattle.proxy.specs.Faults.{IsOfAddresses, IsOfTelling, IsPastListening, IsRecordFile};

use crate::event_loop::serve_lent;
use crate::fault::ProxyFault;
use crate::options::Options;
use crate::pairs::{Faults, Pairs};
use crate::proxy::Proxy;
use crate::sink::Sink;
use mio::Events;
use mio::net::{TcpListener, UdpSocket};
use script_rules::Script;
use sockets::{Acceptor, EVENTS, LISTENER, address_of, bind, tell_listening, tell_port};
use std::alloc::Global;
use std::io;
use std::io::{BufWriter, Input, Write};
use std::net::{IpAddr, Ipv4Addr, Ipv6Addr, Net, SocketAddr};
use std::rt::Files;
use std::time::Clock;

/// Returns the address that a connection to this one comes to: of all addresses the loopback one.
fn reached(address: IpAddr) -> IpAddr
    ensures { IsReached address result }
{
    match address.to_canonical() {
        IpAddr::V4(far) if far.is_unspecified() => IpAddr::V4(Ipv4Addr::LOCALHOST),
        IpAddr::V6(far) if far.is_unspecified() => IpAddr::V6(Ipv6Addr::LOCALHOST),
        far => far,
    }
}

/// Returns the address from which a socket sends to another one. No packet is sent.
fn sent_from(socket: &UdpSocket, address: IpAddr) -> io::Result<IpAddr> {
    socket.connect(SocketAddr::new(address, 9))?;
    Ok(socket.local_addr()?.ip())
}

/// Returns the address from which this machine sends to another one. No packet is sent.
fn sender<R: Net>(rt: &R, address: IpAddr) -> io::Result<IpAddr> {
    let any = match address {
        IpAddr::V4(_) => IpAddr::V4(Ipv4Addr::UNSPECIFIED),
        IpAddr::V6(_) => IpAddr::V6(Ipv6Addr::UNSPECIFIED),
    };
    sent_from(&UdpSocket::bind(rt, SocketAddr::new(any, 0))?, address)
}

/// Returns true if this machine has the address, so that it sends to it from there.
fn is_own<R: Net>(rt: &R, address: IpAddr) -> bool
    ensures { IsLoopback address → result ≡ true }
{
    address.is_loopback() || matches!(sender(rt, address), Ok(own) if own == address)
}

/// Returns true if who connects to `address` comes to the listener at `local`. One that listens at
/// all addresses, and those of IPv4 too if it is at one of IPv6, is met at this machine's own.
fn meets<R: Net>(rt: &R, address: SocketAddr, local: SocketAddr) -> bool
    ensures other { socket_port address ≢ socket_port local → result ≡ false }
    ensures same { socket_port address ≡ socket_port local
        → IsReached (socket_ip address) (socket_ip local) → result ≡ true }
{
    let (far, near) = (reached(address.ip()), local.ip());
    let is_all = near.is_unspecified() && (near.is_ipv6() || far.is_ipv4());
    address.port() == local.port() && (far == near || is_all && is_own(rt, far))
}

/// Writes to `out` where the proxy listens, and the port to the file, if one is given.
fn tell<R: Files, W: Write>(
    rt: &R,
    file: Option<&str>,
    local: SocketAddr,
    out: &mut W,
) -> Result<(), ProxyFault>
    ensures told { OnOk result
        (Appends (W.contents out.old) (W.contents out.new) (listening_line local)) }
    ensures kind { IfErr result IsOfTelling }
{
    tell_listening(local, out)?;
    match tell_port(rt, file, local.port()) {
        Ok(()) => Ok(()),
        Err(error) => Err(ProxyFault::PortFile(error)),
    }
}

/// Finds the addresses of the server and of the listener, which have to be two.
fn find_addresses<R: Net>(
    rt: &R,
    server: &str,
    listener: &TcpListener,
) -> Result<(SocketAddr, SocketAddr), ProxyFault>
    ensures kind { IfErr result IsOfAddresses }
    ensures two { IfOk result (λ two. socket_port two.0 ≡ socket_port two.1
        → IsReached (socket_ip two.0) (socket_ip two.1) → ⊥) }
{
    let upstream = match address_of(rt, server) {
        Ok(upstream) => upstream,
        Err(error) => return Err(ProxyFault::Upstream(error)),
    };
    let local = listener.local_addr()?;
    if meets(rt, upstream, local) {
        Err(ProxyFault::Itself)
    } else {
        Ok((upstream, local))
    }
}

/// Makes what shows and records messages.
fn make_sink<'r, R: Files + Clock>(
    rt: &'r R,
    alloc: Global,
    options: Options<'_>,
) -> Result<Sink<'r, R>, ProxyFault>
    ensures kind { IfErr result IsRecordFile }
    ensures show { IfOk result (λ s. s.show ≡ options.entry.show) }
    ensures recorder { IfOk result (λ s. is_some s.recorder ≡ is_some options.entry.record) }
{
    match Sink::new(rt, alloc, options) {
        Ok(sink) => Ok(sink),
        Err(error) => Err(ProxyFault::RecordFile(error)),
    }
}

/// Finds the server, creates the file of records, and tells where `listener` is.
fn begin<'r, R: Net + Files + Clock, W: Write>(
    rt: &'r R,
    alloc: Global,
    options: Options<'_>,
    listener: &TcpListener,
    out: &mut W,
) -> Result<(SocketAddr, Sink<'r, R>), ProxyFault>
    ensures told { OnOk result ((local : SocketAddr)
        × Appends (W.contents out.old) (W.contents out.new) (listening_line local)) }
    ensures show { IfOk result (λ begun. begun.1.show ≡ options.entry.show) }
    ensures recorder { IfOk result (λ begun.
        is_some begun.1.recorder ≡ is_some options.entry.record) }
    ensures kind { IfErr result IsPastListening }
{
    let (upstream, local) = find_addresses(rt, options.upstream, listener)?;
    let sink = make_sink(rt, alloc, options)?;
    tell(rt, options.port_file, local, out)?;
    Ok((upstream, sink))
}

/// Listens where the options say, creates the file of records, and writes to `out` where it
/// listens, and the port to its file. Returns the listener, the address of the server, and what
/// shows and records messages.
///
/// # Errors
///
/// Returns `Listen` if it can't listen there, `Upstream` if the server has no address, `Itself` if the
/// proxy would be its own server, `RecordFile` or `PortFile` if a file can't be written, and `Io` if
/// writing fails.
pub fn listen<'r, R: Net + Files + Clock, W: Write>(
    rt: &'r R,
    alloc: Global,
    options: Options<'_>,
    out: &mut W,
) -> Result<(TcpListener, SocketAddr, Sink<'r, R>), ProxyFault>
    ensures told { OnOk result ((local : SocketAddr)
        × Appends (W.contents out.old) (W.contents out.new) (listening_line local)) }
    ensures show { IfOk result (λ begun. begun.2.show ≡ options.entry.show) }
    ensures recorder { IfOk result (λ begun.
        is_some begun.2.recorder ≡ is_some options.entry.record) }
{
    let listener = match bind(rt, options.listen) {
        Ok(listener) => listener,
        Err(error) => return Err(ProxyFault::Listen(error)),
    };
    let (upstream, sink) = begin(rt, alloc, options, &listener, out)?;
    Ok((listener, upstream, sink))
}

/// Listens, and passes connections to the server, with these faults.
fn serve_pairs<R: Net + Files + Clock + Input, W: Write>(
    rt: &R,
    alloc: Global,
    options: Options<'_>,
    faults: Faults,
    events: &mut Events<Global>,
    out: &mut W,
) -> Result<(), ProxyFault> {
    let (listener, upstream, mut sink) = listen(rt, alloc, options, out)?;
    let acceptor = Acceptor::new(rt, listener, LISTENER, options.connections)?;
    let pairs = Pairs::new(alloc, options.watching(), faults);
    let mut proxy = Proxy::new(acceptor, upstream, pairs);
    serve_lent(rt, &mut proxy, options, events, &mut sink, out)
}

/// Makes room for events, and serves with these faults.
fn serve_faults<R: Net + Files + Clock + Input, W: Write>(
    rt: &R,
    alloc: Global,
    options: Options<'_>,
    faults: Faults,
    out: &mut W,
) -> Result<(), ProxyFault> {
    let mut events = Events::with_capacity(alloc, EVENTS)?;
    serve_pairs(rt, alloc, options, faults, &mut events, out)
}

/// Listens where the options say, and passes connections to the server until as many of them ended
/// as they ask for, or until standard input ends, if they say so. What becomes of requests and their
/// replies is said by the script, if there is one. Writes to `out` where it listens, and what is
/// shown of the connections, and to the file of records the messages. Opens no socket and no file if
/// they ask for 0 connections.
///
/// # Errors
///
/// Returns the errors of `listen` and `serve`. A connection that fails ends alone.
pub fn run<R: Net + Files + Clock + Input, W: Write + Drop>(
    rt: &R,
    alloc: Global,
    options: Options<'_>,
    script: Option<Script>,
    out: W,
) -> Result<(), ProxyFault>
    ensures { options.entry.connections ≡ 0 → IsOk result }
{
    if options.connections == 0 {
        return Ok(());
    }
    let faults = Faults {
        script,
        seed: options.seed,
    };
    let mut out = BufWriter::new(alloc, out)?;
    serve_faults(rt, alloc, options, faults, &mut out)
}
