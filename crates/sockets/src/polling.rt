//! Waits for what happens on sockets.

ghost use Rattle.std.specs.Prelude.{◌≡◌, ◌≤◌, [], length, OnErr};
ghost use Rattle.mio.specs.Events.{capacity as events_capacity, items};

use mio::net::TcpStream;
use mio::{Events, Interest, Poll, Registry, Token};
use std::alloc::Global;
use std::io;
use std::io::ErrorKind;
use std::time::Duration;

/// The most events that one wait tells.
pub const EVENTS: usize = 64;

/// The token of the listener. Those of connections are smaller than that of standard input.
pub const LISTENER: Token = Token(usize::MAX);

/// The token of standard input.
pub const STDIN: Token = Token(usize::MAX - 1);

/// Registers a stream, so that its events come under this token. Its bytes are sent as they are
/// written (`TCP_NODELAY`).
///
/// # Errors
///
/// Returns why that failed.
pub fn register(registry: &Registry, stream: &mut TcpStream, token: usize) -> io::Result<()>
    ensures { stream.new ≡ stream.old }
{
    stream.set_nodelay(true)?;
    let interest = Interest::READABLE | Interest::WRITABLE;
    registry.register(stream, Token(token), interest)
}

/// Waits for events, and no longer than `timeout`, if it is given. A wait that a signal interrupts
/// tells none.
///
/// # Errors
///
/// Returns why waiting failed.
pub fn wait(
    poll: &mut Poll,
    events: &mut Events<Global>,
    timeout: Option<Duration>,
) -> io::Result<()>
    ensures count { length (items events.new) ≤ events_capacity events.old }
    ensures capacity { events_capacity events.new ≡ events_capacity events.old }
    ensures failed { OnErr result (items events.new ≡ []) }
{
    match poll.poll(events, timeout) {
        Err(error) if error.kind() == ErrorKind::Interrupted => Ok(()),
        waited => waited,
    }
}
