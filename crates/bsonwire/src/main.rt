//! `bsonwire` reads BSON documents and MongoDB wire messages from a file or standard input.
//!
//! The first word is the subcommand, and `bsonwire --help` lists them. What a subcommand finds out
//! about its input goes to standard output, and so does the line of a fault in the input, which of
//! `canon` stands behind the documents; but that of `bson` goes to standard error, and
//! `canon --salvage` tells none. That it could not read or write goes to standard error, in one
//! line. So does it that `proxy` and `replay` are commands of `bsonproxy` now.
//!
//! The exit status is 0 if the input is good; 1 if it is at fault; 2 if the command line is at fault;
//! 3 if reading, writing or the network failed; and 4 if memory ran out.
//!
//! Uses file_commands, wire_play, command_run and command_words. Read first: `commands`, and then
//! `choice`.
#![tactic(auto)]

mod choice;
mod command_line;
mod commands;
mod progress;

ghost use Rattle.std.specs.Prelude.{◌≡◌, Bool, map};
ghost use Rattle.clap.specs.Words.{kind_of};
ghost use Rattle.command_words.specs.{words_status};
ghost use Rattle.bsonwire.specs.ExitStatus.{IsStatusOf};

use choice::choose;
use clap::error::ErrorKind;
use command_words::{Program, USAGE, texts};
use std::io::IsTerminal;
use std::process::ExitCode;

/// This program.
const PROGRAM: Program<'static> = Program { name: "bsonwire" };

fn main(rt: HostRuntime) -> ExitCode {
    ExitCode::from(status(&rt))
}

/// Reads the words, runs what they ask for, and returns the exit status.
fn status(rt: &HostRuntime) -> u8 {
    let words = match PROGRAM.read_words(rt) {
        Ok(words) => words,
        Err(status) => return status,
    };
    match texts(rt.alloc(), words.as_slice()) {
        Ok(texts) => status_of_words(rt, texts.as_slice()),
        Err(_) => PROGRAM.out_of_memory(rt),
    }
}

/// Returns whether a line of progress is seen: standard error is a terminal, and the output goes
/// elsewhere.
fn shows_progress(rt: &HostRuntime) -> bool {
    rt.stderr().is_terminal() && !rt.stdout().is_terminal()
}

/// Runs what the words ask for, or says why they ask for nothing. Returns the exit status.
fn status_of_words(rt: &HostRuntime, words: &[&str]) -> u8
    ensures { IsStatusOf (map (λ w. w.now) words.now) result }
{
    match choose(rt.alloc(), words) {
        Ok(choice) => commands::run(rt, choice, shows_progress(rt)),
        Err(error) => tell_unchosen(rt, words, &error),
    }
}

/// Returns the command of `bsonproxy` that was a subcommand of this program by the name of the first
/// word, if one was.
fn moved_to(words: &[&str]) -> Option<&'static str> {
    match words.get(1) {
        Some(&"proxy") => Some("serve"),
        Some(&"replay") => Some("replay"),
        _ => None,
    }
}

/// Prints the help, the version, what is wrong with the words, or which program has the subcommand
/// now. Returns the exit status.
fn tell_unchosen<R: Print + Eprint>(rt: &R, words: &[&str], error: &clap::Error) -> u8
    ensures { (printed : Bool) × (result ≡ words_status (kind_of error.now) printed) }
{
    match (error.kind(), moved_to(words)) {
        (ErrorKind::InvalidSubcommand, Some(command)) => {
            let _ = eprintln!(rt; "bsonwire: bsonproxy does this now: bsonproxy {command}");
            USAGE
        }
        _ => PROGRAM.tell_unchosen(rt, error),
    }
}
