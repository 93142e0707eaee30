//! Reads what the matches of `clap` hold.

ghost use Rattle.std.specs.Prelude.{◌≡◌, Bool, Some, is_some, option_map, true, ℕ};
ghost use Rattle.clap.specs.Words.{first_of, found_of, one_of, rows_of};
ghost use Rattle.command_words.specs.Tables.{HoldsFlag, IsCount};
ghost use Rattle.command_words.specs.Values.{AsksFor, AsksForMany, HasNumber, was_given};

use clap::ArgMatches;

/// Returns true if the matches hold the flag of this name, which was given.
pub fn is_given(matches: &ArgMatches<'_>, name: &str) -> bool
    ensures { result ≡ was_given name.now (rows_of (found_of matches.now)) }
{
    match matches.get_one::<bool>(name) {
        Some(given) => given,
        None => false,
    }
}

/// Returns the file, or the other text, that the option of this name gives, if it was given.
pub fn text_of<'a>(matches: &ArgMatches<'a>, name: &str) -> Option<&'a str>
    ensures { option_map (λ text. text.now) result
        ≡ first_of name.now (rows_of (found_of matches.now)) }
{
    matches.get_str(name)
}

/// Returns the number that the option of this name gives, if it was given.
pub fn number_of(matches: &ArgMatches<'_>, name: &str) -> Option<u64>
    requires { HasNumber name.now (rows_of (found_of matches.now)) }
    ensures { AsksFor result (one_of name.now (rows_of (found_of matches.now))) }
{
    matches.get_one::<u64>(name)
}

/// Returns the number that the option of this name gives, or the greatest number if it wasn't
/// given.
pub fn count_of(matches: &ArgMatches<'_>, name: &str) -> u64
    requires { HasNumber name.now (rows_of (found_of matches.now)) }
    ensures { AsksForMany result (one_of name.now (rows_of (found_of matches.now))) }
{
    match number_of(matches, name) {
        Some(count) => count,
        None => u64::MAX,
    }
}

/// Returns the operand with this id.
pub fn operand_of<'a>(matches: &ArgMatches<'a>, id: &str) -> &'a str
    requires { is_some (first_of id.now (rows_of (found_of matches.now))) ≡ true }
    ensures { first_of id.now (rows_of (found_of matches.now)) ≡ Some result.now }
{
    match matches.get_str(id) {
        Some(text) => text,
        None => unreachable!(),
    }
}

/// Returns true if the flag of this name was given, which the matches hold.
pub fn flag_of(matches: &ArgMatches<'_>, name: &str) -> bool
    requires { (given : Bool) × HoldsFlag name.now given (rows_of (found_of matches.now)) }
    ensures { HoldsFlag name.now result (rows_of (found_of matches.now)) }
{
    match matches.get_one::<bool>(name) {
        Some(held) => held,
        None => unreachable!(),
    }
}

/// Returns the operand with this id, which is a number from 1 to 100.
pub fn small_number_of(matches: &ArgMatches<'_>, id: &str) -> u8
    requires { (n : ℕ) × IsCount n (one_of id.now (rows_of (found_of matches.now))) }
    ensures { IsCount result (one_of id.now (rows_of (found_of matches.now))) }
{
    match matches.get_one::<u8>(id) {
        Some(number) => number,
        None => unreachable!(),
    }
}
