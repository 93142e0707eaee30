//! Names a program, and ends it before it begins.

ghost use Rattle.std.specs.Prelude.{◌≡◌, ◌⊎◌, Bool, IfErr, IfOk, map, string_bytes};
ghost use Rattle.std.specs.IoError.{error_kind, raw_os_error};
ghost use Rattle.clap.specs.Words.{kind_of};
ghost use Rattle.command_words.specs.Statuses.{error_status, unread_status, words_status};

use clap::error::ErrorKind;
use std::alloc::{AllocError, Global};
use std::rt::Env;
use std::{env, io};

/// The version of the programs.
pub const VERSION: &str = "0.1.0";

/// The exit status of a fault in the command line.
pub const USAGE: u8 = 2;

/// The exit status of a run that failed to read, to write or to connect.
pub const IN_OUT: u8 = 3;

/// The exit status of a run that ran out of memory.
pub const MEMORY: u8 = 4;

/// A program, by the name that begins its lines on standard error.
#[derive(Clone, Copy)]
pub struct Program<'a> {
    /// The name.
    pub name: &'a str,
}

impl Program<'_> {
    /// Returns the words of the command line. The first is the program's own name.
    ///
    /// # Errors
    ///
    /// Returns the exit status if the words can't be read. Standard error says why.
    pub fn read_words<R: Env + Eprint + AllocGlobal>(self, rt: &R) -> Result<Vec<String>, u8>
        ensures { IfErr result (λ status. (status ≡ 2) ⊎ (status ≡ 4)) }
    {
        let words = match env::args(rt) {
            Ok(words) => words,
            Err(error) => return Err(self.tell_unread(rt, &error)),
        };
        match words.collect::<Vec<String>>(rt.alloc()) {
            Ok(words) => Ok(words),
            Err(_) => Err(self.out_of_memory(rt)),
        }
    }

    /// Says on standard error why the words can't be read: memory ran out, or one of them isn't
    /// text. Returns the exit status.
    fn tell_unread(self, rt: &impl Eprint, error: &io::Error) -> u8
        ensures { result ≡ unread_status (error_kind error.now) }
    {
        if error.kind() == io::ErrorKind::OutOfMemory {
            return self.out_of_memory(rt);
        }
        let _ = eprintln!(rt; "{}: an argument is not UTF-8", self.name);
        USAGE
    }

    /// Says on standard error that memory ran out. Returns the exit status.
    pub fn out_of_memory(self, rt: &impl Eprint) -> u8
        ensures { result ≡ 4 }
    {
        let _ = eprintln!(rt; "{}: out of memory", self.name);
        MEMORY
    }

    /// Prints the help, the version or what is wrong with the words. Returns the exit status.
    pub fn tell_unchosen<R: Print + Eprint>(self, rt: &R, error: &clap::Error) -> u8
        ensures { (printed : Bool) × (result ≡ words_status (kind_of error.now) printed) }
    {
        let printed = self.print(rt, error);
        status_of_words(error, printed)
    }

    /// Prints the text of `clap`'s error. Returns true if that succeeded.
    fn print<R: Print + Eprint>(self, rt: &R, error: &clap::Error) -> bool {
        if error.kind() == ErrorKind::OutOfMemory {
            return eprintln!(rt; "{}: out of memory", self.name).is_ok();
        }
        let printed = error.print(rt).is_ok();
        if !printed && !error.use_stderr() {
            let _ = eprintln!(rt; "{}: could not write standard output", self.name);
        }
        printed
    }
}

/// Returns the exit status of words that ask for nothing. `printed` says whether `clap`'s text
/// could be printed.
fn status_of_words(error: &clap::Error, printed: bool) -> u8
    ensures { result ≡ words_status (kind_of error.now) printed }
{
    match error.kind() {
        ErrorKind::OutOfMemory => MEMORY,
        ErrorKind::DisplayHelp | ErrorKind::DisplayVersion if printed => 0,
        ErrorKind::DisplayHelp | ErrorKind::DisplayVersion => IN_OUT,
        _ => USAGE,
    }
}

/// Returns the exit status of a run that stops with `error`. A refused allocation has no code of the
/// system; if the error has one, it is the system that lacks memory, and not this program.
pub fn status_of_error(error: &io::Error) -> u8
    ensures { result ≡ error_status (error_kind error.now) (raw_os_error error.now) }
{
    if error.kind() == io::ErrorKind::OutOfMemory && error.raw_os_error().is_none() {
        MEMORY
    } else {
        IN_OUT
    }
}

/// Returns the words as text, in order.
pub fn texts<'a>(alloc: Global, words: &'a [String]) -> Result<Vec<&'a str>, AllocError>
    ensures { IfOk result (λ texts. map (λ t. t.now) texts.items ≡ map string_bytes words.now) }
{
    let mut texts = Vec::with_capacity(alloc, words.len())?;
    for word in words {
        texts.push_reserved(word.as_str());
    }
    Ok(texts)
}
