//! What each proxy does until enough connections ended, or standard input: it waits for events and
//! serves them.

ghost use Rattle.std.specs.Prelude.{◌≡◌, ℕ, [], Bool, IfErr, IfSome, IsErr, IsOk, None, OnErr};
ghost use Rattle.std.specs.Prelude.{OnOk, Option};
ghost use Rattle.sockets.specs.declared.acceptor.Acceptor.{Acceptor};
ghost use Rattle.proxy.specs.Faults.{IsOfServing};

use crate::fault::ProxyFault;
use crate::options::Options;
use crate::sink::Sink;
use mio::Events;
use sockets::{Acceptor, Stdin, watch_stdin};
use std::alloc::Global;
use std::io;
use std::io::{BufRead, Input, Write};
use std::net::Net;
use std::rt::Files;
use std::time::Clock;

/// A proxy that waits for events and serves them.
pub trait EventLoop {
    // Whether as many connections of clients ended as wanted, and nothing is left, if it is told.
    ghost over: { Self → ℕ → Option Bool } = { λ _ _. None };

    /// Returns true if as many connections of clients ended as wanted, and nothing is left to pass.
    fn is_over(&self, wanted: u64) -> bool
        ensures { IfSome (over self.now wanted) (λ told. result ≡ told) };

    // What accepts its connections.
    ghost accepts: { Self → Acceptor };

    /// Returns what accepts connections, and waits for the events of sockets.
    fn acceptor(&self) -> &Acceptor
        ensures { result.now ≡ accepts self.now };

    /// Waits for events, passes what can be passed, and gives the messages of it to the sink. What
    /// is shown or recorded until now is written before it waits.
    ///
    /// # Errors
    ///
    /// Returns an error if waiting or writing fails, or memory runs out.
    fn serve_some<R: Net + Files + Clock, W: Write>(
        &mut self,
        rt: &R,
        events: &mut Events<Global>,
        sink: &mut Sink<'_, R>,
        out: &mut W,
    ) -> io::Result<()>;
}

/// Serves until as many connections of clients ended as wanted, or standard input.
fn serve_until<P: EventLoop, R: Net + Files + Clock, I: BufRead + Drop, W: Write>(
    rt: &R,
    proxy: &mut P,
    wanted: u64,
    stdin: &mut Stdin<I>,
    events: &mut Events<Global>,
    sink: &mut Sink<'_, R>,
    out: &mut W,
) -> io::Result<()> {
    for _ in 0..u64::MAX {
        if proxy.is_over(wanted) || stdin.has_ended() {
            break;
        }
        proxy.serve_some(rt, events, sink, out)?;
        stdin.see(proxy.acceptor(), events);
    }
    out.flush()
}

/// Writes what was recorded to the file, and returns what came of a proxy that served so.
fn finish<R: Files + Clock>(
    sink: &mut Sink<'_, R>,
    served: io::Result<()>,
) -> Result<(), ProxyFault>
    ensures ok { OnOk result (IsOk served) }
    ensures failed { OnErr served (IsErr result) }
    ensures kind { IfErr result IsOfServing }
    ensures none_waits { IfSome sink.new.recorder (λ r. r.waiting.bytes.items ≡ []) }
{
    match served {
        Ok(()) => match sink.flush() {
            Ok(()) => Ok(()),
            Err(error) => Err(ProxyFault::RecordFile(error)),
        },
        Err(error) => {
            let fault = sink.fault_of(error);
            let _ = sink.flush();
            Err(fault)
        }
    }
}

/// Does the same as `serve`, with events and a sink that are lent. No record waits then.
pub(crate) fn serve_lent<P: EventLoop, R: Net + Files + Clock + Input, W: Write>(
    rt: &R,
    proxy: &mut P,
    options: Options<'_>,
    events: &mut Events<Global>,
    sink: &mut Sink<'_, R>,
    out: &mut W,
) -> Result<(), ProxyFault>
    ensures kind { IfErr result IsOfServing }
    ensures none_waits { IfSome sink.new.recorder (λ r. r.waiting.bytes.items ≡ []) }
{
    let mut stdin = watch_stdin(rt, options.until_stdin_closes, proxy.acceptor());
    let wanted = options.connections;
    let served = serve_until(rt, proxy, wanted, &mut stdin, events, sink, out);
    finish(sink, served)
}

/// Serves until as many connections of clients ended as the options say, or until standard input ends,
/// if they say so, and writes what was recorded to the file.
///
/// # Errors
///
/// Returns `RecordFile` if the file of records can't be written, and `Io` if writing or waiting
/// fails, or memory runs out. What was recorded by then is written to the file.
pub fn serve<P: EventLoop, R: Net + Files + Clock + Input, W: Write>(
    rt: &R,
    proxy: &mut P,
    options: Options<'_>,
    mut events: Events<Global>,
    mut sink: Sink<'_, R>,
    out: &mut W,
) -> Result<(), ProxyFault>
    ensures { IfErr result IsOfServing }
{
    serve_lent(rt, proxy, options, &mut events, &mut sink, out)
}
