//! A program's command line as a table: a form for each command, and a row for each argument of it.

ghost use Rattle.std.specs.Prelude.{◌≡◌, IfOk, false, map};
ghost use Rattle.clap.specs.Words.{FailsBy, app_of, fault_of, kind_of, rule_of};
ghost use Rattle.clap.specs.Words.{subcommand_of, subcommand_rows_of};
ghost use Rattle.clap.specs.declared.builder.command.Command.TheViews.{out-Command};
ghost use Rattle.command_words.specs.Tables.{IsMet, IsTable, count_rule, form_app, line_app};
ghost use Rattle.command_words.specs.Tables.{operand_rule, row_rule, top_app};

use crate::arguments::{flag, text_option};
use crate::program::VERSION;
use clap::builder::ValueParser;
use clap::error::ErrorKind;
use clap::{Arg, ArgMatches, Command, Error, value_parser};
use std::alloc::{AllocError, Global};

/// What an argument is.
#[derive(Clone, Copy)]
pub enum Kind {
    /// A flag.
    Flag,
    /// An option that gives a file, or another text.
    Text,
    /// An option that gives a number, from the first of these to the second.
    Number(u64, u64),
    /// An operand, which is required.
    Operand,
    /// An operand, which is required, a number from 1 to 100.
    Count,
}

/// An argument of a command.
#[derive(Clone, Copy)]
pub struct Row<'a> {
    /// The name: an option or a flag is given as `--name`.
    pub name: &'a str,
    /// What it is.
    pub kind: Kind,
    /// What help shows for its value.
    pub value: &'a str,
    /// What help says of it.
    pub help: &'a str,
}

/// A command, which is a subcommand of its program.
#[derive(Clone, Copy)]
pub struct Form<'a> {
    /// The name.
    pub name: &'a str,
    /// What help says of it.
    pub about: &'a str,
    /// Its arguments. Operands are given in their order.
    pub rows: &'a [Row<'a>],
}

/// A command line, of which the first word is one of these commands.
#[derive(Clone, Copy)]
pub struct Table<'a> {
    /// The program's name.
    pub name: &'a str,
    /// What help says of the program.
    pub about: &'a str,
    /// What help says at its end.
    pub after_help: &'a str,
    /// The commands.
    pub forms: &'a [Form<'a>],
}

/// Makes a required operand, which help shows as `shown`.
fn operand<'a>(alloc: Global, id: &'a str, shown: &'a str, help: &'a str) -> Arg<'a>
    ensures rule { rule_of result ≡ operand_rule id.entry.now }
    ensures local { result.global ≡ false }
{
    Arg::new(alloc, id)
        .value_name(shown)
        .help(help)
        .required(true)
}

/// Makes an operand that is a number from 1 to 100.
fn count<'a>(alloc: Global, id: &'a str, shown: &'a str, help: &'a str) -> Arg<'a>
    ensures rule { rule_of result ≡ count_rule id.entry.now }
    ensures local { result.global ≡ false }
{
    let number = value_parser!(u8).range(1..=100);
    operand(alloc, id, shown, help).value_parser(number)
}

/// Makes the argument of a row.
fn argument<'a>(alloc: Global, row: &Row<'a>) -> Arg<'a>
    ensures rule { rule_of result ≡ row_rule row.now }
    ensures local { result.global ≡ false }
{
    let Row {
        name,
        kind,
        value,
        help,
    } = *row;
    match kind {
        Kind::Flag => flag(alloc, name, help),
        Kind::Text => text_option(alloc, name, value, help),
        Kind::Number(least, most) => {
            text_option(alloc, name, value, help).value_parser(ValueParser::Unsigned(least, most))
        }
        Kind::Operand => operand(alloc, name, value, help),
        Kind::Count => count(alloc, name, value, help),
    }
}

/// Makes a command.
fn command<'a>(alloc: Global, form: &Form<'a>) -> Result<Command<'a>, AllocError>
    ensures app { IfOk result (λ c. app_of c ≡ form_app form.now) }
    ensures local { IfOk result (λ c. (out-Command c).has_globals ≡ false) }
{
    let mut command = Command::new(alloc, form.name).about(form.about);
    for row in form.rows {
        command = command.arg(argument(alloc, row))?;
    }
    Ok(command)
}

/// Makes a command line without its commands.
fn top<'a>(alloc: Global, table: &Table<'a>) -> Command<'a>
    ensures app { app_of result ≡ top_app table.now }
    ensures local { (out-Command result).has_globals ≡ false }
{
    Command::new(alloc, table.name)
        .about(table.about)
        .after_help(table.after_help)
        .version(VERSION)
        .subcommand_required(true)
}

/// Makes a command line.
fn line<'a>(alloc: Global, table: &Table<'a>) -> Result<Command<'a>, AllocError>
    ensures app { IfOk result (λ c. app_of c ≡ line_app table.now) }
    ensures local { IfOk result (λ c. (out-Command c).has_globals ≡ false) }
{
    let mut line = top(alloc, table);
    for form in table.forms {
        let command = command(alloc, form)?;
        line = line.subcommand(command)?;
    }
    Ok(line)
}

/// Returns the matches of the words, of which the first is the program's own name. They have a
/// command of the table, and what its rows say.
///
/// # Errors
///
/// Returns `clap`'s own error: a fault in the words, a request for help or the version, or out of
/// memory.
pub fn parse<'a>(
    alloc: Global,
    table: &Table<'a>,
    words: &'a [&'a str],
) -> Result<ArgMatches<'a>, Error>
    requires { IsTable table.now }
    ensures kinds { FailsBy (fault_of (line_app table.now) (map (λ w. w.now) words.now)) result }
    ensures matches { IfOk result (λ m. subcommand_rows_of m
        ≡ subcommand_of (line_app table.now) (map (λ w. w.now) words.now)) }
    ensures met { IfOk result (λ m. IsMet table.now.forms.now (subcommand_rows_of m)) }
{
    let command = line(alloc, table)?;
    command.try_get_matches_from(words)
}

/// Makes the error of words of a command that don't go together, in the form of `clap`'s own. Usage
/// names the command as `path`.
pub fn refusal(
    alloc: Global,
    form: &Form<'_>,
    path: &str,
    kind: ErrorKind,
    why: &str,
) -> Result<Error, AllocError>
    ensures { IfOk result (λ e. kind_of e ≡ kind) }
{
    let mut command = command(alloc, form)?.bin_name(path)?;
    command.error(kind, why)
}
