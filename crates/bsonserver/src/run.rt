//! Runs the server, from its first line to its last.

ghost use Rattle.std.specs.Prelude.{◌≡◌, ◌<◌, IfOk, List, OnOk, Option, min, true, ℕ};
ghost use Rattle.std.specs.declared.net.socket_addr.SocketAddr.{SocketAddr};
ghost use Rattle.text_writer.specs.{WritesOut};
ghost use Rattle.bsonserver.specs.Runs.{EndsSo, GoesOnServing, HasBegun, HasServed, IsEnough};
ghost use Rattle.bsonserver.specs.Runs.{IsRun, ShowsServing, served_line};
ghost use Rattle.sockets.specs.{listening_line};
ghost use Rattle.script_rules.specs.{RuleView};

use crate::choice::Choice;
use crate::connections::{Connected, Socket, begin};
use crate::ending::ServingEnd;
use crate::event_loop::{EventLoop, Pending};
use crate::scripts::{Scripts, read_scripts};
use crate::sources::Sources;
use mio::Events;
use script_rules::Scripted;
use server_core::laws::what_is_written_was_done;
use server_core::{Output, Stop};
use sockets::{Acceptor, EVENTS, LISTENER, bind, tell_listening, tell_port, watch_stdin};
use std::alloc::Global;
use std::io;
use std::io::{BufRead, ErrorKind, Input, Write};
use std::net::{Net, SocketAddr};
use std::rt::Files;
use std::time::Clock;
use test_store::Store;

/// Listens where the words say, and writes to `out` where that is, and the port to its file.
fn listen<R: Net + Files, W: Write>(
    rt: &R,
    choice: Choice<'_>,
    out: &mut W,
) -> Result<Acceptor, Stop>
    ensures { OnOk result ((local : SocketAddr)
        × WritesOut W.contents out.old out.new (listening_line local)) }
{
    let listener = bind(rt, choice.address)?;
    let local = listener.local_addr()?;
    tell_listening(local, out).map_err(Stop::Output)?;
    tell_port(rt, choice.port_file, local.port()).map_err(Stop::PortFile)?;
    let acceptor = Acceptor::new(rt, listener, LISTENER, choice.connections)?;
    Ok(acceptor)
}

/// Serves connections until as many of them ended as the words ask for, or until standard input
/// ends, if they say so.
fn serve_until<R: Clock + Eprint, I: BufRead + Drop, W: Output>(
    rt: &R,
    sources: &mut Sources<I>,
    serving: &mut Connected,
    choice: Choice<'_>,
    out: &mut W,
) -> Result<(), Stop>
    ensures enough { OnOk result (IsEnough choice.entry serving.new.ended) }
    ensures served { OnOk result (GoesOnServing serving.old serving.new
        (W.contents out.old) (W.contents out.new)) }
{
    for _ in 0..u64::MAX {
        if serving.ended() >= choice.connections {
            return Ok(());
        }
        if choice.until_stdin_closes && sources.has_input_ended() {
            return Ok(());
        }
        sources.serve_some(rt, serving, out)?;
    }
    // No server serves some that often.
    Err(Stop::InOut(io::Error::from(ErrorKind::Other)))
}

/// Serves connections, and writes nothing.
fn serve_quietly<R: Clock + Eprint, I: BufRead + Drop>(
    rt: &R,
    sources: &mut Sources<I>,
    serving: &mut Connected,
    choice: Choice<'_>,
) -> Result<(), Stop>
    ensures enough { OnOk result (IsEnough choice.entry serving.new.ended) }
    ensures served { (a : Option (List ℕ)) → OnOk result (ShowsServing true
        serving.old serving.new a a) }
{
    serve_until(rt, sources, serving, choice, &mut io::sink())
}

/// Serves connections, and writes what was asked and answered, unless the words ask for quiet.
fn serve_shown<R: Clock + Eprint, I: BufRead + Drop, W: Output>(
    rt: &R,
    sources: &mut Sources<I>,
    serving: &mut Connected,
    choice: Choice<'_>,
    out: &mut W,
) -> Result<(), Stop>
    ensures enough { OnOk result (IsEnough choice.entry serving.new.ended) }
    ensures served { OnOk result (ShowsServing choice.entry.quiet serving.old serving.new
        (W.contents out.old) (W.contents out.new)) }
{
    if choice.quiet {
        serve_quietly(rt, sources, serving, choice)
    } else {
        serve_until(rt, sources, serving, choice, out)
    }
}

/// Listens where the words say, and writes to `out` where that is. Returns where events come from.
fn begin_at<R: Net + Files + Input, W: Write>(
    rt: &R,
    alloc: Global,
    choice: Choice<'_>,
    out: &mut W,
) -> Result<Sources<R::Reader>, Stop>
    ensures { OnOk result ((local : SocketAddr)
        × WritesOut W.contents out.old out.new (listening_line local)) }
{
    let events = Events::with_capacity(alloc, EVENTS)?;
    let pending = Pending::new(alloc)?;
    let acceptor = listen(rt, choice, out)?;
    let stdin = watch_stdin(rt, choice.until_stdin_closes, &acceptor);
    Ok(Sources::new(events, EventLoop::new(acceptor, pending), stdin))
}

/// Listens where the words say, and writes to `out` where that is, and serves connections until
/// there were enough. Returns how many ended, and no more than the words ask for.
fn serve_lent<R: Net + Files + Input + Clock + Eprint, W: Output>(
    rt: &R,
    alloc: Global,
    choice: Choice<'_>,
    serving: &mut Connected,
    out: &mut W,
) -> Result<u64, Stop>
    ensures { (rules replies : List RuleView) → HasBegun rules replies serving.old
        → IfOk result (λ n. HasServed choice.entry rules replies n
        (W.contents out.old) (W.contents out.new)) }
{
    let mut sources = begin_at(rt, alloc, choice, out)?;
    serve_shown(rt, &mut sources, serving, choice, out)?;
    what_is_written_was_done::<Socket, Scripted<Store>>();
    Ok(told_count(serving.ended(), choice.connections))
}

/// Begins by these scripts, without documents, and does the same.
fn serve_all<R: Net + Files + Input + Clock + Eprint, W: Output>(
    rt: &R,
    alloc: Global,
    choice: Choice<'_>,
    scripts: Scripts,
    out: &mut W,
) -> Result<u64, Stop>
    ensures { IfOk result (λ n. HasServed choice.entry scripts.script.rules.items
        scripts.replies.rules.items n (W.contents out.old) (W.contents out.new)) }
{
    serve_lent(rt, alloc, choice, &mut begin(alloc, scripts), out)
}

/// Returns how many of the connections that ended are told: no more than were asked for, which is a
/// number of 64 bits.
fn told_count(ended: u64, asked: u64) -> u64
    ensures least { result ≡ min ended asked }
    ensures range { asked < 18446744073709551616 }
{
    ended.min(asked)
}

/// Writes and flushes the last line.
fn write_last<W: Write>(count: u64, out: &mut W) -> io::Result<()>
    ensures { OnOk result (WritesOut W.contents out.old out.new (served_line count)) }
{
    writeln!(out, "served {count}")?;
    out.flush()
}

/// Serves what the words ask for, and writes what was asked and answered, unless they ask for
/// quiet. Opens no socket if they ask for 0 connections.
fn serve_at<R: Net + Files + Input + Clock + Eprint, W: Output>(
    rt: &R,
    alloc: Global,
    choice: Choice<'_>,
    scripts: Scripts,
    out: &mut W,
) -> ServingEnd
    ensures { IsRun choice.entry scripts.script.rules.items scripts.replies.rules.items
        result (W.contents out.old) (W.contents out.new) }
{
    let mut count = 0;
    if choice.connections > 0 {
        match serve_all(rt, alloc, choice, scripts, out) {
            Ok(served) => count = served,
            Err(stop) => return ServingEnd::Stopped(stop),
        }
    }
    match write_last(count, out) {
        Ok(()) => ServingEnd::Served(count),
        Err(error) => ServingEnd::Stopped(Stop::Output(error)),
    }
}

/// Reads the script, if the words name one, and serves what they ask for. Writes to `out` what was
/// asked and answered, unless they ask for quiet, between a first line and a last one.
pub fn run<R: Net + Files + Input + Clock + Eprint + Alloc, W: Output>(
    rt: &R,
    alloc: Global,
    choice: Choice<'_>,
    out: &mut W,
) -> ServingEnd
    ensures { EndsSo choice.entry result (W.contents out.old) (W.contents out.new) }
{
    match read_scripts(rt, alloc, choice.script) {
        Ok(scripts) => serve_at(rt, alloc, choice, scripts, out),
        Err(end) => end,
    }
}
