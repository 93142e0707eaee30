//! The command `loop`: calls over a connection of the program with itself.

ghost use Rattle.std.specs.Prelude.{◌≡◌, ◌≢◌, ◌+◌, ℕ, List, [], Err, IfErr, IfOk, OnOk, false, pos};
ghost use Rattle.std.specs.Io.KnownBytes.{Appends};
ghost use Rattle.command_run.specs.{is_done};
ghost use Rattle.wire_play.specs.Calling.{AreComplete};
ghost use Rattle.wire_play.specs.Loopback.{AppendsUpTo, HaveMade, HaveRun, HaveTold, call_line};
ghost use Rattle.wire_play.specs.Loopback.{echo_does, echo_stops, last_line, loop_text};
ghost use Rattle.wire_play.specs.Loopback.{requests_bytes};
ghost use Rattle.wire_model.specs.{ClientAct, ServerAct};
ghost use Rattle.wire_end.specs.{EndRuns, ServerEndRuns};

use crate::loop_call::Loopback;
use command_run::{RunEnd, end_of};
use std::alloc::Global;
use std::io;
use std::io::{ErrorKind, Write};
use std::net::{Net, OpenListener, OpenStream, SocketAddr, TcpListener, TcpStream};
use wire_peer::CallNo;
use wire_stream::{Link, TcpLink};

/// Returns the stream of an accepted connection if its other end is at `own`. Errs if not, since
/// another program may have been there first.
fn only_from<S: Drop>(own: SocketAddr, accepted: (S, SocketAddr)) -> io::Result<S>
    ensures { IfOk result (λ stream. (accepted.1 ≡ own) × (stream ≡ accepted.0)) }
{
    let (stream, address) = accepted;
    if address != own {
        return Err(io::Error::from(ErrorKind::ConnectionRefused));
    }
    Ok(stream)
}

/// Connects the program to itself, over 127.0.0.1 and a free port. Returns the two streams.
fn connect<R: Net>(rt: &R) -> io::Result<(R::Stream, R::Stream)> {
    let listener = TcpListener::bind(rt, "127.0.0.1:0")?;
    let near = TcpStream::connect(rt, listener.local_addr()?)?;
    let far = only_from(near.local_addr()?, listener.accept()?)?;
    Ok((near, far))
}

/// Writes `line` and flushes. Errs if the writer does.
///
/// Unlike the contract of `write_all`, that of this says what was written before an error: a
/// beginning of the line.
fn write_line<W: Write>(line: &[u8], out: &mut W) -> Result<(), RunEnd>
    ensures written { (left : List ℕ)
        × AppendsUpTo left line.now (W.contents out.old) (W.contents out.new)
        × OnOk result (left ≡ []) }
    ensures stopped { IfErr result (λ end. is_done end ≡ false) }
    ensures unread { result ≢ Err RunEnd.Unread }
{
    let mut rest = line;
    for _ in 0..u64::MAX {
        if rest.is_empty() {
            return match out.flush() {
                Ok(()) => Ok(()),
                Err(_) => Err(RunEnd::InOut),
            };
        }
        match out.write(rest) {
            Ok(n) if n > 0 => rest = &rest[n..],
            Err(error) if error.kind() == ErrorKind::Interrupted => {}
            _ => return Err(RunEnd::InOut),
        }
    }
    Err(RunEnd::InOut)
}

/// Writes the line of a call that is complete. Errs if the writer does, and if memory runs out.
fn write_call<W: Write>(alloc: Global, call: CallNo, out: &mut W) -> Result<(), RunEnd>
    ensures written { (k : ℕ) → call.number ≡ k → call.id ≡ pos (k + 1)
        → (left : List ℕ) × AppendsUpTo left (call_line k) (W.contents out.old) (W.contents out.new)
        × OnOk result (left ≡ []) }
    ensures stopped { IfErr result (λ end. is_done end ≡ false) }
    ensures unread { result ≢ Err RunEnd.Unread }
{
    let CallNo { number, id } = call;
    let Ok(line) = format!(in alloc; "call {number} id {id} done\n") else {
        return Err(RunEnd::OutOfMemory);
    };
    write_line(line.as_bytes(), out)
}

/// Writes the last line. Errs if the writer does, and if memory runs out.
fn write_last<W: Write>(alloc: Global, calls: u8, out: &mut W) -> Result<(), RunEnd>
    ensures written { (left : List ℕ) × AppendsUpTo left (last_line calls)
        (W.contents out.old) (W.contents out.new) × OnOk result (left ≡ []) }
    ensures stopped { IfErr result (λ end. is_done end ≡ false) }
    ensures unread { result ≢ Err RunEnd.Unread }
{
    let Ok(line) = format!(in alloc; "loop {calls} done\n") else {
        return Err(RunEnd::OutOfMemory);
    };
    write_line(line.as_bytes(), out)
}

/// Makes `calls` calls one after another, writes the line of each when it is complete, and then the
/// last line. Errs if a call is cut short, if the writer errs, and if memory runs out.
fn make_calls<L: Link + Drop, W: Write>(
    alloc: Global,
    loopback: &mut Loopback<L>,
    calls: u8,
    out: &mut W,
) -> Result<(), RunEnd>
    requires { AreComplete 0 loopback.old.client }
    ensures written { (left : List ℕ) × AppendsUpTo left (loop_text calls)
        (W.contents out.old) (W.contents out.new) × OnOk result (left ≡ []) }
    ensures made { OnOk result (AreComplete calls loopback.new.client) }
    ensures client { OnOk result ((acts : List ClientAct)
        × EndRuns L.sent L.received loopback.old.client acts loopback.new.client) }
    ensures server { OnOk result ((acts : List ServerAct)
        × ServerEndRuns echo_does echo_stops L.sent L.received loopback.old.server
        loopback.old.logged acts loopback.new.server loopback.new.logged) }
    ensures told { HaveMade L.sent L.received calls loopback.old.client loopback.old.server
        loopback.old.logged (W.contents out.old) (W.contents out.new) }
    ensures sent { OnOk result
        (Appends (L.sent loopback.old.client.link) (L.sent loopback.new.client.link)
        (requests_bytes calls)) }
    ensures stopped { IfErr result (λ end. is_done end ≡ false) }
    ensures unread { result ≢ Err RunEnd.Unread }
{
    for k in 0..calls {
        let call = loopback.call(alloc, k)?;
        write_call(alloc, call, out)?;
    }
    write_last(alloc, calls, out)
}

/// Connects, and makes the calls. Errs with the end of a run that is cut short.
fn run_calls<R: Net + AllocGlobal, W: Write>(rt: &R, calls: u8, out: &mut W) -> Result<(), RunEnd>
    ensures written { (left : List ℕ) × AppendsUpTo left (loop_text calls)
        (W.contents out.old) (W.contents out.new) × OnOk result (left ≡ []) }
    ensures ran { OnOk result (HaveRun calls) }
    ensures told { HaveTold calls (W.contents out.old) (W.contents out.new) }
    ensures stopped { IfErr result (λ end. is_done end ≡ false) }
    ensures unread { result ≢ Err RunEnd.Unread }
{
    let alloc = rt.alloc();
    let (near, far) = match connect(rt) {
        Ok(streams) => streams,
        Err(error) => return Err(end_of(&error)),
    };
    let Ok(mut loopback) = Loopback::new(alloc, TcpLink::new(near), TcpLink::new(far)) else {
        return Err(RunEnd::OutOfMemory);
    };
    make_calls(alloc, &mut loopback, calls, out)
}

/// Connects the program to itself over TCP, makes `calls` calls over that connection, each with the
/// body `{"n": number}` and answered with the same, and writes a line for each and a last one. The
/// calls are numbered from 0, and their ids count from 1.
///
/// The line of a call is written when its reply has come and carries what was sent. If all went
/// well, there are acts of a client and of its server, and `HaveRun` says the headline of them:
/// where bytes arrived in order, each call that is reported as done has an entry of its own in the
/// server's log, with the call's payload, and what it got back are the answers of that. The same
/// holds of the calls that were made before a run was cut short (`HaveTold`). That these are the
/// acts of this run is what `make_calls` says of the ends that it is given. No contract says that a
/// socket moves bytes in order, nor what it carries; so this is a premise, and no clause says that
/// the run is good.
pub fn run_loop<R: Net + AllocGlobal, W: Write>(rt: &R, calls: u8, writer: &mut W) -> RunEnd
    ensures ends { (result ≢ RunEnd.Fault) × (result ≢ RunEnd.Unread) }
    ensures written { (left : List ℕ) × AppendsUpTo left (loop_text calls)
        (W.contents writer.old) (W.contents writer.new) × (result ≡ RunEnd.Good → left ≡ []) }
    ensures ran { result ≡ RunEnd.Good → HaveRun calls }
    ensures told { HaveTold calls (W.contents writer.old) (W.contents writer.new) }
{
    match run_calls(rt, calls, writer) {
        Ok(()) => RunEnd::Good,
        Err(end) => end,
    }
}
