//! Makes arguments for `clap`.

ghost use Rattle.std.specs.Prelude.{◌≡◌, false};
ghost use Rattle.clap.specs.Words.{rule_of};
ghost use Rattle.command_words.specs.Arguments.{flag_rule, number_rule, text_rule};

use clap::{Arg, ArgAction, value_parser};
use std::alloc::Global;

/// Makes a flag.
pub fn flag<'a>(alloc: Global, name: &'a str, help: &'a str) -> Arg<'a>
    ensures rule { rule_of result ≡ flag_rule name.entry.now }
    ensures local { result.global ≡ false }
{
    Arg::new(alloc, name)
        .long(name)
        .help(help)
        .action(ArgAction::SetTrue)
}

/// Makes the option of this name that gives a file, or another text, which help shows as `shown`.
pub fn text_option<'a>(alloc: Global, name: &'a str, shown: &'a str, help: &'a str) -> Arg<'a>
    ensures rule { rule_of result ≡ text_rule name.entry.now }
    ensures local { result.global ≡ false }
{
    Arg::new(alloc, name)
        .long(name)
        .value_name(shown)
        .help(help)
        .action(ArgAction::Set)
}

/// Makes the option of this name that gives a number of 64 bits, which help shows as `shown`.
pub fn number_option<'a>(alloc: Global, name: &'a str, shown: &'a str, help: &'a str) -> Arg<'a>
    ensures rule { rule_of result ≡ number_rule name.entry.now }
    ensures local { result.global ≡ false }
{
    text_option(alloc, name, shown, help).value_parser(value_parser!(u64))
}
