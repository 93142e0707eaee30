//! `bsonserver` is a server for trying out drivers. It has a `Store` of test_store answer the
//! commands that docs/SERVER.md lists, and writes down each request with its answer.
//!
//! It serves many connections at once, in one thread. Bytes that are neither a message nor the
//! query of a command, or a request that can't be answered, end at most that connection. The server
//! goes on with the others, unless memory ran out.
//!
//! With a script, the rules of that come before the `Store`, and say what becomes of the bytes of a
//! reply, too.
//!
//! The exit status is 0 if as many connections were served as the command line says, or if it says
//! to end with standard input, and that ended. It is 2 if the command line or the script is at
//! fault, 3 if reading the script, listening, waiting or writing the output or the file of the port
//! failed, and 4 if memory ran out. Where no connection can be accepted, as where no open file is
//! left, standard error says so, and it tries again until one can.
//!
//! Uses server_core, test_store, test_script, sockets and command_words. Read first: `connections`,
//! and then `run`.
#![tactic(auto)]

mod choice;
mod command_line;
mod connections;
mod edge_triggered;
mod ending;
mod event_loop;
mod run;
mod scripts;
mod sources;

ghost use Rattle.std.specs.Prelude.{◌≡◌, map};
ghost use Rattle.bsonserver.specs.ExitStatus.{IsExitStatus, IsStatusFor, IsStatusOf};
ghost use Rattle.bsonserver.specs.ExitStatus.{exit_status};

use choice::{Choice, choose};
use command_words::{IN_OUT, MEMORY, Program, USAGE, texts};
use ending::ServingEnd;
use run::run;
use server_core::Stop;
use std::io;
use std::io::BufWriter;
use std::process::ExitCode;

/// This program.
const PROGRAM: Program<'static> = Program { name: "bsonserver" };

fn main(rt: HostRuntime) -> ExitCode {
    ExitCode::from(status(&rt))
}

/// Reads the words, serves what they ask for, and returns the exit status.
fn status(rt: &HostRuntime) -> u8
    ensures { IsExitStatus result }
{
    let words = match PROGRAM.read_words(rt) {
        Ok(words) => words,
        Err(status) => return status,
    };
    match texts(rt.alloc(), words.as_slice()) {
        Ok(texts) => status_of_words(rt, texts.as_slice()),
        Err(_) => PROGRAM.out_of_memory(rt),
    }
}

/// Serves what the words ask for, or says why they ask for nothing. Returns the exit status.
fn status_of_words(rt: &HostRuntime, words: &[&str]) -> u8
    ensures { IsStatusOf (map (λ w. w.now) words.now) result }
{
    match choose(rt.alloc(), words) {
        Ok(choice) => run_choice(rt, choice),
        Err(error) => PROGRAM.tell_unchosen(rt, &error),
    }
}

/// Serves what the words ask for, and returns the exit status. If it stopped early, standard error
/// says why.
fn run_choice(rt: &HostRuntime, choice: Choice<'_>) -> u8
    ensures { IsStatusFor choice.entry result }
{
    let end = match BufWriter::new(rt.alloc(), io::writer(rt)) {
        Ok(mut out) => run(rt, rt.alloc(), choice, &mut out),
        Err(_) => ServingEnd::Stopped(Stop::OutOfMemory),
    };
    tell(rt, &end, choice)
}

/// Says on standard error why serving stopped early, if it did. Returns the exit status.
fn tell(rt: &impl Eprint, end: &ServingEnd, choice: Choice<'_>) -> u8
    ensures { result ≡ exit_status end.now }
{
    let address = choice.address;
    let script = choice.script.unwrap_or("");
    let file = choice.port_file.unwrap_or("");
    // If standard error takes no line, there is only the status.
    let _ = match end {
        ServingEnd::Served(_) => Ok(()),
        ServingEnd::Script(fault) => {
            eprintln!(rt; "bsonserver: the script {script:?} is at fault: {fault}")
        }
        ServingEnd::ScriptFile(error) => {
            eprintln!(rt; "bsonserver: the script {script:?} can't be read: {error}")
        }
        ServingEnd::Stopped(Stop::InOut(error)) => {
            eprintln!(rt; "bsonserver: could not serve at {address:?}: {error}")
        }
        ServingEnd::Stopped(Stop::Output(error)) => {
            eprintln!(rt; "bsonserver: could not write standard output: {error}")
        }
        ServingEnd::Stopped(Stop::PortFile(error)) => {
            eprintln!(rt; "bsonserver: the file of the port {file:?} can't be written: {error}")
        }
        ServingEnd::Stopped(Stop::OutOfMemory) => eprintln!(rt; "bsonserver: out of memory"),
    };
    status_of(end)
}

/// Returns the exit status of an end.
fn status_of(end: &ServingEnd) -> u8
    ensures { result ≡ exit_status end.now }
{
    match end {
        ServingEnd::Served(_) => 0,
        ServingEnd::Script(_) => USAGE,
        ServingEnd::Stopped(Stop::OutOfMemory) => MEMORY,
        ServingEnd::ScriptFile(_) | ServingEnd::Stopped(_) => IN_OUT,
    }
}
