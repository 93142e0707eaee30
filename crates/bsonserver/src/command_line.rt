//! Describes the command line to `clap`: the address, and the options.

ghost use Rattle.std.specs.Prelude.{◌≡◌, IfOk, false};
ghost use Rattle.clap.specs.Words.{app_of, rule_of};
ghost use Rattle.bsonserver.specs.CommandLine.{address_rule, command_line, serving_line, top_app};

use clap::{Arg, ArgAction, Command};
use command_words::{VERSION, flag, number_option, text_option};
use std::alloc::{AllocError, Global};

/// What help says at its end.
const AFTER_HELP: &str = "Examples:
  bsonserver
      Serves drivers at 127.0.0.1:27017 until it is stopped, and shows what they send
  bsonserver --quiet --until-stdin-closes --port-file port 127.0.0.1:0
      Serves a run of tests at a free port, and ends with standard input

Exit status:
  0  it served what it was asked for
  2  the command line or the script is wrong
  3  reading, writing or the network failed
  4  memory ran out";

/// Makes the operand ADDRESS.
fn address_operand<'a>(alloc: Global) -> Arg<'a>
    ensures rule { rule_of result ≡ address_rule }
    ensures local { result.global ≡ false }
{
    Arg::new(alloc, "address")
        .value_name("ADDRESS")
        .help("The address to listen at, 127.0.0.1:27017 if left out; port 0 takes a free one")
        .action(ArgAction::Set)
}

/// Makes the command line without its operand and its options.
fn top<'a>(alloc: Global) -> Command<'a>
    ensures { app_of result ≡ top_app }
{
    Command::new(alloc, "bsonserver")
        .about("Answers drivers from documents in memory, and shows what they sent")
        .after_help(AFTER_HELP)
        .version(VERSION)
}

/// Makes the command line with what is served.
fn serving<'a>(alloc: Global) -> Result<Command<'a>, AllocError>
    ensures { IfOk result (λ c. app_of c ≡ serving_line) }
{
    let count = "End after this many connections; without it the server goes on";
    top(alloc)
        .arg(address_operand(alloc))?
        .arg(number_option(alloc, "connections", "N", count))
}

/// Makes the whole command line.
pub fn program<'a>(alloc: Global) -> Result<Command<'a>, AllocError>
    ensures { IfOk result (λ c. app_of c ≡ command_line) }
{
    let quiet = "Write only the first line and the last one";
    let until = "End when standard input does";
    let port = "Write the port and a line feed to FILE once the server listens";
    let script = "Answer by the rules of FILE, and where they say nothing, as without them";
    serving(alloc)?
        .arg(flag(alloc, "quiet", quiet))?
        .arg(flag(alloc, "until-stdin-closes", until))?
        .arg(text_option(alloc, "port-file", "FILE", port))?
        .arg(text_option(alloc, "script", "FILE", script))
}
