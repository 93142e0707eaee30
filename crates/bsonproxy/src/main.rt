//! `bsonproxy` passes MongoDB wire messages between clients and a server, and sends what clients of a
//! record sent once more.
//!
//! The first word is the subcommand. `serve` listens at an address, connects each connection that
//! comes to a server, and shows or records what passes, cuts it or answers in its place. `replay`
//! reads the requests of a record, sends them to a server, and compares the answers. What they show
//! goes to standard output. Why they stopped early goes to standard error, in one line.
//!
//! The exit status is 0 if all went well; 1 if a replayed answer differs, is missing or is one too
//! many, a connection of a replay failed, or the record has a fault; 2 if the command line or the
//! script is at fault, or the proxy is its own server; 3 if reading, writing or the network failed;
//! and 4 if memory ran out.
//!
//! Uses proxy, shared_proxy, test_script, replay and command_words. Read first: `commands`, and then
//! `choice`.
#![tactic(auto)]

mod choice;
mod command_line;
mod commands;
mod fault;
mod script;

ghost use Rattle.std.specs.Prelude.{map};
ghost use Rattle.bsonproxy.specs.ExitStatus.{IsExitStatus, IsStatusOf};

use choice::choose;
use command_words::{Program, texts};
use std::process::ExitCode;

/// This program.
const PROGRAM: Program<'static> = Program { name: "bsonproxy" };

fn main(rt: HostRuntime) -> ExitCode {
    ExitCode::from(status(&rt))
}

/// Reads the words, runs what they ask for, and returns the exit status.
fn status(rt: &HostRuntime) -> u8
    ensures { IsExitStatus result }
{
    let words = match PROGRAM.read_words(rt) {
        Ok(words) => words,
        Err(status) => return status,
    };
    match texts(rt.alloc(), words.as_slice()) {
        Ok(texts) => status_of_words(rt, texts.as_slice()),
        Err(_) => PROGRAM.out_of_memory(rt),
    }
}

/// Runs what the words ask for, or says why they ask for nothing. Returns the exit status.
fn status_of_words(rt: &HostRuntime, words: &[&str]) -> u8
    ensures { IsStatusOf (map (λ w. w.now) words.now) result }
{
    match choose(rt.alloc(), words) {
        Ok(choice) => commands::run(rt, choice),
        Err(error) => PROGRAM.tell_unchosen(rt, &error),
    }
}
