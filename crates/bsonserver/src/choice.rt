//! Finds out what the words of the command line ask for.

ghost use Rattle.std.specs.Prelude.{◌≡◌, IfOk, IsErrAnd, IsOkAnd, MatchResult, codes, map};
ghost use Rattle.clap.specs.Words.{FailsBy, fault_of, first_of, found_of, rows_of};
ghost use Rattle.bsonserver.specs.Choices.{HasChoice, IsChosen, IsHeld, given_address};
ghost use Rattle.bsonserver.specs.CommandLine.{command_line};

use crate::command_line::program;
use clap::{ArgMatches, Error};
use command_words::{count_of, is_given, text_of};
use std::alloc::Global;

/// The address to listen at where none is given: that at which drivers look for a server.
const USUAL_ADDRESS: &str = "127.0.0.1:27017";

/// What the command line asks for.
#[derive(Clone, Copy)]
pub struct Choice<'a> {
    /// The address to listen at.
    pub address: &'a str,
    /// The number of connections to serve.
    pub connections: u64,
    /// Write no transcript.
    pub quiet: bool,
    /// End when standard input does.
    pub until_stdin_closes: bool,
    /// The file to write the port to.
    pub port_file: Option<&'a str>,
    /// The file of the script.
    pub script: Option<&'a str>,
}

/// Returns the operand ADDRESS, or the usual address if it wasn't given.
fn address_of<'a>(matches: &ArgMatches<'a>) -> &'a str
    ensures { result.now
        ≡ given_address (first_of (codes "address") (rows_of (found_of matches.now))) }
{
    match text_of(matches, "address") {
        Some(address) => address,
        None => USUAL_ADDRESS,
    }
}

/// Returns the choice that the matches of a parse hold, or the error of the parse.
fn chosen(parse: Result<ArgMatches<'_>, Error>) -> Result<Choice<'_>, Error>
    requires { IfOk parse (λ m. HasChoice (rows_of (found_of m))) }
    ensures { MatchResult parse.entry
        (λ m. IsOkAnd result (λ c. IsHeld c (rows_of (found_of m))))
        (λ e. IsErrAnd result (λ r. r ≡ e)) }
{
    let matches = parse?;
    Ok(Choice {
        address: address_of(&matches),
        connections: count_of(&matches, "connections"),
        quiet: is_given(&matches, "quiet"),
        until_stdin_closes: is_given(&matches, "until-stdin-closes"),
        port_file: text_of(&matches, "port-file"),
        script: text_of(&matches, "script"),
    })
}

/// Returns what the words ask for. The first is the program's own name.
///
/// # Errors
///
/// Returns `clap`'s own error: a fault in the words, a request for help or the version, or out of
/// memory.
pub fn choose<'a>(alloc: Global, words: &'a [&'a str]) -> Result<Choice<'a>, Error>
    ensures chosen { IfOk result (λ c. IsChosen c (map (λ w. w.now) words.now)) }
    ensures kinds { FailsBy (fault_of command_line (map (λ w. w.now) words.now)) result }
{
    let command = program(alloc)?;
    chosen(command.try_get_matches_from(words))
}
