//! Runs what the command line asks for, and returns the exit status.
ghost use Rattle.std.specs.Prelude.{◌≡◌, Err, option_map};
ghost use Rattle.bsonproxy.specs.ExitStatus.{IsStatusFor, IsStatusOfReplay, IsStatusOfServe};
ghost use Rattle.bsonproxy.specs.Serving.{MayEnd, file_at_fault, script_file};
ghost use Rattle.bsonproxy.specs.Serving.{serve_status as status_of_serve};

use crate::choice::Choice;
use crate::fault::ServeFault;
use crate::script::read_script;
use command_words::{InputName, Noted, USAGE, status_of_error};
use proxy::{Options, ProxyFault};
use replay::{Outcome, ReplayFault, ReplayOptions};
use std::io;
use std::io::Write;
use std::net::Net;
use std::rt::Files;
use std::time::Clock;

/// Does what the command line asks for, and returns the exit status. If it can't go on, standard
/// error says why.
pub fn run<R: Files + Input + Net + Clock + Print + Eprint + AllocGlobal>(
    rt: &R,
    choice: Choice<'_>,
) -> u8
    ensures { IsStatusFor choice.entry result }
{
    match choice {
        Choice::Serve(options) => serve_status(rt, options),
        Choice::Replay(options) => replay_status(rt, options),
    }
}

/// Passes connections to a server and back, or the requests of all clients over a few of them, by
/// the rules of the script.
fn run_proxy<R: Files + Input + Net + Clock + AllocGlobal, W: Write>(
    rt: &R,
    options: Options<'_>,
    out: &mut W,
) -> Result<(), ServeFault>
    ensures { MayEnd (script_file options.entry) result }
{
    let script = match read_script(rt, rt.alloc(), options.script) {
        Ok(script) => script,
        Err(fault) => return Err(fault),
    };
    let ended = match options.share {
        Some(most) => shared_proxy::run(rt, rt.alloc(), options, script, most as usize, out),
        None => proxy::run(rt, rt.alloc(), options, script, out),
    };
    match ended {
        Ok(()) => Ok(()),
        Err(fault) => Err(ServeFault::Proxy(fault)),
    }
}

/// Returns the exit status of a proxy that stopped early.
fn fault_status(fault: &ServeFault) -> u8
    ensures { result ≡ status_of_serve (Err fault.now) }
{
    match fault {
        ServeFault::Script(_) | ServeFault::Proxy(ProxyFault::Itself) => USAGE,
        ServeFault::ScriptFile(error)
        | ServeFault::Proxy(
            ProxyFault::Listen(error)
            | ProxyFault::Upstream(error)
            | ProxyFault::PortFile(error)
            | ProxyFault::RecordFile(error)
            | ProxyFault::Io(error),
        ) => status_of_error(error),
    }
}

/// Runs a proxy, and returns the exit status. If it stopped early, standard error says why.
fn serve_status<R: Files + Input + Net + Clock + Print + Eprint + AllocGlobal>(
    rt: &R,
    options: Options<'_>,
) -> u8
    ensures { IsStatusOfServe options.entry result }
{
    let mut writer = Noted::new(io::writer(rt));
    let Err(fault) = run_proxy(rt, options, &mut writer) else {
        return 0;
    };
    let because = writer.because();
    // If standard error takes no line, there is only the status.
    let _ = if because.is_known() {
        eprintln!(rt; "bsonproxy: could not write standard output{because}")
    } else if let Some(file) = file_at_fault(&fault, options) {
        eprintln!(rt; "bsonproxy: {file:?}: {fault}")
    } else {
        let Options {
            listen,
            upstream,
            ..
        } = options;
        eprintln!(rt; "bsonproxy: from {listen:?} to {upstream:?}: {fault}")
    };
    fault_status(&fault)
}

/// Returns the file of which a fault of a proxy is, if it is of one.
fn file_at_fault<'a>(fault: &ServeFault, options: Options<'a>) -> Option<&'a str>
    ensures { option_map (λ file. file.now) result ≡ file_at_fault fault.now options.entry }
{
    match fault {
        ServeFault::Script(_) | ServeFault::ScriptFile(_) => options.script,
        ServeFault::Proxy(ProxyFault::PortFile(_)) => options.port_file,
        ServeFault::Proxy(ProxyFault::RecordFile(_)) => options.record,
        ServeFault::Proxy(_) => None,
    }
}

/// Sends what a record's clients sent to a server, and returns the exit status. If that stopped
/// early, standard error says why.
fn replay_status<R: Files + Input + Net + Clock + Print + Eprint + AllocGlobal>(
    rt: &R,
    options: ReplayOptions<'_>,
) -> u8
    ensures { IsStatusOfReplay result }
{
    let mut writer = Noted::new(io::writer(rt));
    let fault = match replay::run(rt, rt.alloc(), options, &mut writer) {
        Ok(Outcome::Same) => return 0,
        Ok(Outcome::Different | Outcome::Fault) => return 1,
        Err(fault) => fault,
    };
    let because = writer.because();
    let ReplayOptions { file, address, .. } = options;
    // If standard error takes no line, there is only the status.
    let _ = if because.is_known() {
        eprintln!(rt; "bsonproxy: could not write standard output{because}")
    } else if let ReplayFault::Records(error) = &fault {
        let input = InputName::of(file);
        eprintln!(rt; "bsonproxy: could not read {input}: {error}")
    } else {
        eprintln!(rt; "bsonproxy: replay to {address:?}: {fault}")
    };
    status_of_error(fault.error())
}
