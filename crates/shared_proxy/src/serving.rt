//! Runs a proxy that shares connections, from its first line until enough clients are gone, or
//! standard input has ended.

ghost use Rattle.std.specs.Prelude.{◌≡◌, Ok};

use crate::connector::Connector;
use crate::sharing::Sharing;
use crate::turns::Turns;
use mio::Events;
use proxy::{LISTENER, Options, ProxyFault, listen, serve};
use script_rules::Script;
use sockets::{Acceptor, EVENTS};
use std::alloc::Global;
use std::io::{BufWriter, Input, Write};
use std::net::Net;
use std::rt::Files;
use std::time::Clock;

/// Listens where the options say, and passes the requests of all clients on over at most `most`
/// connections to the server, until as many clients are gone as they ask for, or until standard input
/// ends, if they say so. What becomes of requests and their replies is said by the script, if there
/// is one. Writes to `out` where it listens, and what is told of the connections, and to the file of
/// records the messages. Opens no socket and no file if they ask for 0 clients.
///
/// # Errors
///
/// Returns the errors of `listen` and `serve`. A connection that fails ends alone, with the calls
/// that went over it.
pub fn run<R: Net + Files + Clock + Input, W: Write + Drop>(
    rt: &R,
    alloc: Global,
    options: Options<'_>,
    script: Option<Script>,
    most: usize,
    out: W,
) -> Result<(), ProxyFault>
    ensures none { options.entry.connections ≡ 0 → result ≡ Ok tt }
{
    if options.connections == 0 {
        return Ok(());
    }
    let mut out = BufWriter::new(alloc, out)?;
    let events = Events::with_capacity(alloc, EVENTS)?;
    let (listener, upstream, sink) = listen(rt, alloc, options, &mut out)?;
    let acceptor = Acceptor::new(rt, listener, LISTENER, options.connections)?;
    let holds = script.is_some();
    let connector = Connector::new(alloc, acceptor, upstream, options.seed, holds);
    let sharing = Sharing::new(alloc, connector, most, options.watching())?;
    let mut turns = Turns::new(alloc, sharing, script);
    serve(rt, &mut turns, options, events, sink, &mut out)
}
