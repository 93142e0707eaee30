//! Finds out what the words of the command line ask for.

ghost use Rattle.std.specs.Prelude.{◌≡◌, Bool, IfOk, IsOk, [], codes, false, map};
ghost use Rattle.clap.specs.Words.{FailsBy, found_of, rows_of, subcommand_rows_of};
ghost use Rattle.command_words.specs.{HoldsFlag};
ghost use Rattle.bsonwire.specs.Choices.{HasFile, HasQuiet, HoldsMessageForm, HoldsReading};
ghost use Rattle.bsonwire.specs.Choices.{IsChosen, IsCommand, IsMetSubcommand, IsSubcommand};
ghost use Rattle.bsonwire.specs.Choices.{MayChoose, NamesChoice, NamesCommand, any_as_json};
ghost use Rattle.bsonwire.specs.Choices.{flags_fault, is_array, is_relaxed, kinds_of_clash};
ghost use Rattle.bsonwire.specs.Choices.{lacks_json, salvages_text, words_fault};

use crate::command_line::{Clash, error_of, table};
use clap::{ArgMatches, Error};
use command_words::{flag_of, is_given, operand_of, parse, small_number_of};
use file_commands::{Layout, MessageForm, Mode};
use std::alloc::Global;

/// How a command reads documents.
#[derive(Clone, Copy, Debug, PartialEq, Eq)]
pub enum Reading {
    /// As bytes, up to the first fault.
    Bytes,
    /// As hexadecimal text, up to the first fault.
    Hex,
    /// As bytes of which some may be damaged.
    Salvage,
}

/// A command that reads an input.
#[derive(Clone, Copy, Debug, PartialEq, Eq)]
pub enum Command {
    /// Writes the text of each document. If `hex` is true, the input is hexadecimal text. If
    /// `offsets` is true, each line begins with the offset of what it shows.
    Dump {
        hex: bool,
        offsets: bool,
    },
    /// Says of each document whether it is in canonical form.
    Check(Reading),
    /// Writes the canonical form of each document.
    Canon(Reading),
    /// Writes each document as Extended JSON.
    Json {
        hex: bool,
        mode: Mode,
        layout: Layout,
    },
    /// Writes the document of each text, which is Extended JSON.
    Bson,
    /// Writes each message.
    Msg {
        hex: bool,
        form: MessageForm,
    },
    /// Writes each message of any opCode, and goes on behind faults in one.
    Any {
        hex: bool,
    },
    /// Runs a script, and writes what happened.
    Play,
}

/// What the command line asks for.
#[derive(Clone, Copy, Debug, PartialEq, Eq)]
pub enum Choice<'a> {
    /// Runs a command over the file with this path, or over standard input if it is `-`. If `quiet`
    /// is true, no line of progress is drawn.
    Over {
        command: Command,
        file: &'a str,
        quiet: bool,
    },
    /// Makes `calls` calls over a connection of the program with itself.
    Loop {
        calls: u8,
    },
}

/// Returns the form of Extended JSON.
fn mode_of(matches: &ArgMatches<'_>) -> Mode
    requires { (given : Bool) × HoldsFlag (codes "relaxed") given (rows_of (found_of matches.now)) }
    ensures { HoldsFlag (codes "relaxed") (is_relaxed result) (rows_of (found_of matches.now)) }
{
    if flag_of(matches, "relaxed") {
        Mode::Relaxed
    } else {
        Mode::Canonical
    }
}

/// Returns how JSON values stand one after another.
fn layout_of(matches: &ArgMatches<'_>) -> Layout
    requires { (given : Bool) × HoldsFlag (codes "array") given (rows_of (found_of matches.now)) }
    ensures { HoldsFlag (codes "array") (is_array result) (rows_of (found_of matches.now)) }
{
    if flag_of(matches, "array") {
        Layout::Array
    } else {
        Layout::Lines
    }
}

/// Returns how documents are read.
fn reading_of(matches: &ArgMatches<'_>) -> Reading
    requires { (reading : Reading) × HoldsReading reading (rows_of (found_of matches.now)) }
    ensures { HoldsReading result (rows_of (found_of matches.now)) }
{
    if flag_of(matches, "salvage") {
        Reading::Salvage
    } else if flag_of(matches, "hex") {
        Reading::Hex
    } else {
        Reading::Bytes
    }
}

/// Returns how messages are written.
fn form_of(matches: &ArgMatches<'_>) -> MessageForm
    requires { (form : MessageForm) × HoldsMessageForm form (rows_of (found_of matches.now)) }
    ensures { HoldsMessageForm result (rows_of (found_of matches.now)) }
{
    if flag_of(matches, "json") {
        MessageForm::Json(mode_of(matches))
    } else {
        MessageForm::Text
    }
}

/// Returns the command that the subcommand with this name is.
fn command_of(name: &str, matches: &ArgMatches<'_>) -> Command
    requires { NamesCommand name.now (rows_of (found_of matches.now)) }
    ensures { IsCommand result name.now (rows_of (found_of matches.now)) }
{
    if name == "play" {
        return Command::Play;
    }
    if name == "bson" {
        return Command::Bson;
    }
    if name == "check" {
        return Command::Check(reading_of(matches));
    }
    if name == "canon" {
        return Command::Canon(reading_of(matches));
    }
    let hex = flag_of(matches, "hex");
    match name {
        "dump" => Command::Dump {
            hex,
            offsets: flag_of(matches, "offsets"),
        },
        "json" => Command::Json {
            hex,
            mode: mode_of(matches),
            layout: layout_of(matches),
        },
        "msg" if flag_of(matches, "any") => Command::Any { hex },
        "msg" => Command::Msg {
            hex,
            form: form_of(matches),
        },
        _ => unreachable!(),
    }
}

/// Returns the choice to run the command with this name, whose matches these are.
fn over_of<'a>(name: &str, matches: &ArgMatches<'a>) -> Choice<'a>
    requires command { NamesCommand name.now (rows_of (found_of matches.now)) }
    requires file { HasFile (rows_of (found_of matches.now)) }
    requires quiet { HasQuiet (rows_of (found_of matches.now)) }
    ensures { IsSubcommand result name.now (rows_of (found_of matches.now)) }
{
    Choice::Over {
        command: command_of(name, matches),
        file: operand_of(matches, "file"),
        quiet: flag_of(matches, "quiet"),
    }
}

/// Returns the choice that the subcommand of `matches` makes.
fn choice_of<'a>(matches: &ArgMatches<'a>) -> Choice<'a>
    requires { NamesChoice (subcommand_rows_of matches.now) }
    ensures { IsMetSubcommand result (subcommand_rows_of matches.now) }
{
    match matches.subcommand() {
        Some((name, inner)) if name == "loop" => Choice::Loop {
            calls: small_number_of(inner, "calls"),
        },
        Some((name, inner)) => over_of(name, inner),
        None => unreachable!(),
    }
}

/// Returns true if `msg` has `--relaxed` without `--json`.
fn is_json_wanted(matches: &ArgMatches<'_>) -> bool
    ensures { result ≡ lacks_json (subcommand_rows_of matches.now) }
{
    match matches.subcommand() {
        Some((name, inner)) => {
            name == "msg" && is_given(inner, "relaxed") && !is_given(inner, "json")
        }
        None => false,
    }
}

/// Returns true if `check` or `canon` has `--salvage` and `--hex`.
fn is_text_salvaged(matches: &ArgMatches<'_>) -> bool
    ensures { result ≡ salvages_text (subcommand_rows_of matches.now) }
{
    match matches.subcommand() {
        Some((name, inner)) => {
            (name == "check" || name == "canon")
                && is_given(inner, "salvage")
                && is_given(inner, "hex")
        }
        None => false,
    }
}

/// Returns true if `msg` has `--any` and `--json`.
fn is_any_as_json(matches: &ArgMatches<'_>) -> bool
    ensures { result ≡ any_as_json (subcommand_rows_of matches.now) }
{
    match matches.subcommand() {
        Some((name, inner)) => {
            name == "msg" && is_given(inner, "any") && is_given(inner, "json")
        }
        None => false,
    }
}

/// Returns true if the subcommand is `canon`.
fn is_canon(matches: &ArgMatches<'_>) -> bool {
    matches
        .subcommand()
        .is_some_and(|(name, _)| name == "canon")
}

/// Returns why the words are at fault, if they are.
fn clash_of(matches: &ArgMatches<'_>) -> Option<Clash>
    ensures { kinds_of_clash result ≡ flags_fault (subcommand_rows_of matches.now) }
{
    if is_json_wanted(matches) {
        Some(Clash::JsonWanted)
    } else if is_text_salvaged(matches) {
        Some(if is_canon(matches) {
            Clash::CanonSalvagesText
        } else {
            Clash::CheckSalvagesText
        })
    } else if is_any_as_json(matches) {
        Some(Clash::AnyBesideJson)
    } else {
        None
    }
}

/// Returns the choice that the matches name, or the error of their clash.
fn chosen<'a>(alloc: Global, matches: &ArgMatches<'a>) -> Result<Choice<'a>, Error>
    requires { MayChoose (subcommand_rows_of matches.now) }
    ensures met { IfOk result (λ c. IsMetSubcommand c (subcommand_rows_of matches.now)) }
    ensures kinds { FailsBy (flags_fault (subcommand_rows_of matches.now)) result }
    ensures found { flags_fault (subcommand_rows_of matches.now) ≡ [] → IsOk result }
{
    match clash_of(matches) {
        Some(clash) => Err(error_of(alloc, clash)?),
        None => Ok(choice_of(matches)),
    }
}

/// Returns what the words ask for. The first is the program's own name.
///
/// # Errors
///
/// Returns `clap`'s own error: a fault in the words, a request for help or the version, or out of
/// memory. The words that `clap` accepts always name a choice, but for those of `msg` with
/// `--relaxed` and without `--json`, or with `--any` and `--json`, and of `check` or `canon` with
/// `--salvage` and `--hex`, which are at fault too.
pub fn choose<'a>(alloc: Global, words: &'a [&'a str]) -> Result<Choice<'a>, Error>
    ensures chosen { IfOk result (λ c. IsChosen c (map (λ w. w.now) words.now)) }
    ensures kinds { FailsBy (words_fault (map (λ w. w.now) words.now)) result }
{
    let matches = parse(alloc, &table(), words)?;
    chosen(alloc, &matches)
}
