//! Finds out what the words of the command line ask for.

ghost use Rattle.std.specs.Prelude.{◌≡◌, IfOk, IsOk, [], codes, is_some, map};
ghost use Rattle.clap.specs.Words.{FailsBy, first_of, found_of, rows_of, subcommand_rows_of};
ghost use Rattle.bsonproxy.specs.Choices.{HasOptions, HasReplay, HoldsOptions, HoldsReplay};
ghost use Rattle.bsonproxy.specs.Choices.{IsChosen, IsMetSubcommand, IsSubcommand, MayChoose};
ghost use Rattle.bsonproxy.specs.Choices.{NamesChoice, flags_fault, kinds_of_clash};
ghost use Rattle.bsonproxy.specs.Choices.{lacks_record, shown_by, shows_twice, words_fault};

use crate::command_line::{Clash, error_of, table};
use clap::{ArgMatches, Error};
use command_words::{count_of, is_given, number_of, operand_of, parse, text_of};
use proxy::{Options, Show};
use replay::ReplayOptions;
use std::alloc::Global;

/// What the command line asks for.
#[derive(Clone, Copy)]
pub enum Choice<'a> {
    /// Passes connections to a server and back.
    Serve(Options<'a>),
    /// Sends what a record's clients sent to a server, and compares the answers.
    Replay(ReplayOptions<'a>),
}

/// Returns true if the option of this name was given.
fn has_value(matches: &ArgMatches<'_>, name: &str) -> bool
    ensures { result ≡ is_some (first_of name.now (rows_of (found_of matches.now))) }
{
    text_of(matches, name).is_some()
}
/// Returns how a proxy shows messages.
fn show_of(matches: &ArgMatches<'_>) -> Show
    ensures { result ≡ shown_by (rows_of (found_of matches.now)) }
{
    if is_given(matches, "json") {
        Show::Json
    } else if is_given(matches, "text") {
        Show::Text
    } else {
        Show::Nothing
    }
}

/// Returns what a proxy is to do.
fn options_of<'a>(matches: &ArgMatches<'a>) -> Options<'a>
    requires { HasOptions (rows_of (found_of matches.now)) }
    ensures { HoldsOptions result (rows_of (found_of matches.now)) }
{
    Options {
        listen: operand_of(matches, "listen"),
        upstream: operand_of(matches, "upstream"),
        show: show_of(matches),
        connections: count_of(matches, "connections"),
        until_stdin_closes: is_given(matches, "until-stdin-closes"),
        port_file: text_of(matches, "port-file"),
        script: text_of(matches, "script"),
        seed: number_of(matches, "seed"),
        record: text_of(matches, "record"),
        limit: count_of(matches, "limit"),
        share: number_of(matches, "share"),
    }
}

/// Returns what a replay is to do.
fn replay_of<'a>(matches: &ArgMatches<'a>) -> ReplayOptions<'a>
    requires { HasReplay (rows_of (found_of matches.now)) }
    ensures { HoldsReplay result (rows_of (found_of matches.now)) }
{
    let file = operand_of(matches, "file");
    ReplayOptions {
        file,
        address: operand_of(matches, "address"),
        ignore: text_of(matches, "ignore"),
        speed: number_of(matches, "speed"),
    }
}

/// Returns the choice that the subcommand of `matches` makes.
fn choice_of<'a>(matches: &ArgMatches<'a>) -> Choice<'a>
    requires { NamesChoice (subcommand_rows_of matches.now) }
    ensures { IsMetSubcommand result (subcommand_rows_of matches.now) }
{
    match matches.subcommand() {
        Some((name, inner)) if name == "serve" => Choice::Serve(options_of(inner)),
        Some((_, inner)) => Choice::Replay(replay_of(inner)),
        None => unreachable!(),
    }
}

/// Returns true if `serve` has `--text` and `--json`.
fn is_shown_twice(matches: &ArgMatches<'_>) -> bool
    ensures { result ≡ shows_twice (subcommand_rows_of matches.now) }
{
    match matches.subcommand() {
        Some((name, inner)) => {
            name == "serve" && is_given(inner, "text") && is_given(inner, "json")
        }
        None => false,
    }
}

/// Returns true if `serve` has `--limit` without `--record`.
fn is_record_wanted(matches: &ArgMatches<'_>) -> bool
    ensures { result ≡ lacks_record (subcommand_rows_of matches.now) }
{
    match matches.subcommand() {
        Some((name, inner)) => {
            name == "serve" && has_value(inner, "limit") && !has_value(inner, "record")
        }
        None => false,
    }
}

/// Returns why the words are at fault, if they are.
fn clash_of(matches: &ArgMatches<'_>) -> Option<Clash>
    ensures { kinds_of_clash result ≡ flags_fault (subcommand_rows_of matches.now) }
{
    if is_shown_twice(matches) {
        Some(Clash::TextBesideJson)
    } else if is_record_wanted(matches) {
        Some(Clash::RecordWanted)
    } else {
        None
    }
}

/// Returns the choice that the matches name, or the error of their clash.
fn chosen<'a>(alloc: Global, matches: &ArgMatches<'a>) -> Result<Choice<'a>, Error>
    requires { MayChoose (subcommand_rows_of matches.now) }
    ensures met { IfOk result (λ c. IsMetSubcommand c (subcommand_rows_of matches.now)) }
    ensures kinds { FailsBy (flags_fault (subcommand_rows_of matches.now)) result }
    ensures found { flags_fault (subcommand_rows_of matches.now) ≡ [] → IsOk result }
{
    match clash_of(matches) {
        Some(clash) => Err(error_of(alloc, clash)?),
        None => Ok(choice_of(matches)),
    }
}

/// Returns what the words ask for. The first is the program's own name.
///
/// # Errors
///
/// Returns `clap`'s own error: a fault in the words, a request for help or the version, or out of
/// memory. The words that `clap` accepts always name a choice, but for those of `serve` with
/// `--text` and `--json`, or with `--limit` and without `--record`, which are at fault too.
pub fn choose<'a>(alloc: Global, words: &'a [&'a str]) -> Result<Choice<'a>, Error>
    ensures chosen { IfOk result (λ c. IsChosen c (map (λ w. w.now) words.now)) }
    ensures kinds { FailsBy (words_fault (map (λ w. w.now) words.now)) result }
{
    let matches = parse(alloc, &table(), words)?;
    chosen(alloc, &matches)
}
