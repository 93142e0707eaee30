//! Runs what the command line asks for, and returns the exit status.
ghost use Rattle.std.specs.Prelude.{◌≡◌, ◌≢◌, ◌⊎◌, [], List, ℕ, IfErr, IfOk, IfSome, false};
ghost use Rattle.std.specs.Prelude.{is_some, true};
ghost use Rattle.std.specs.Io.KnownBytes.{IsAtEnd, Keeps};
ghost use Rattle.std.specs.IoError.{error_kind, raw_os_error};
ghost use Rattle.bsonwire.specs.ExitStatus.{IsStatusFor, exit_status, tells_done, tells_fault};
ghost use Rattle.bsonwire.specs.Texts.{AllOf, CommandText, FirstOf, reads_first};
ghost use Rattle.command_run.specs.{AppendsText, end_of_error, is_done, is_fault};
ghost use Rattle.file_commands.specs.{AppendsOne, WritesRead};
ghost use Rattle.wire_play.specs.{AppendsUpTo, loop_text};

use crate::choice::{Choice, Command, Reading};
use crate::progress::Progress;
use command_run::{RunEnd, end_of};
use command_words::{Because, IN_OUT, InputName, MEMORY, Noted};
use file_commands::{
    TextStop, run_any, run_bson, run_canon, run_check, run_dump, run_json, run_msg, salvage_canon,
    salvage_check,
};
use std::alloc::Global;
use std::fs::OpenFile;
use std::io::{ErrorKind, Read, Write};
use std::net::Net;
use std::rt::Files;
use std::time::Clock;
use std::{fs, io};
use wire_play::{run_loop, run_play};

/// Returns the exit status of an end: 0 if all was good, 1 for a fault in the input, 3 if reading
/// or writing failed, and 4 if memory ran out.
fn status_of(end: RunEnd) -> u8
    ensures { result ≡ exit_status end }
{
    match end {
        RunEnd::Good => 0,
        RunEnd::Fault => 1,
        RunEnd::Unread | RunEnd::InOut => IN_OUT,
        RunEnd::OutOfMemory => MEMORY,
    }
}

/// Does what the command line asks for, and returns the exit status. If it can't go on, standard
/// error says why. If `shown` is true, progress is seen there, and drawn unless the choice is quiet.
pub fn run<R: Files + Input + Print + Eprint + Clock + Net + AllocGlobal>(
    rt: &R,
    choice: Choice<'_>,
    shown: bool,
) -> u8
    ensures { IsStatusFor choice.entry result }
{
    match choice {
        Choice::Over {
            command,
            file,
            quiet,
        } => run_file(rt, command, file, shown && !quiet),
        Choice::Loop { calls } => loop_status(rt, calls, &mut Noted::new(io::writer(rt))),
    }
}

/// Runs a command over a file or standard input, and returns the exit status. Draws progress if
/// `drawn` is true.
fn run_file<R: Files + Input + Print + Eprint + Clock + AllocGlobal>(
    rt: &R,
    command: Command,
    file: &str,
    drawn: bool,
) -> u8
    ensures { (end : RunEnd) × (result ≡ exit_status end) }
{
    let input = InputName::of(file);
    let mut writer = Noted::new(io::writer(rt));
    if file == "-" {
        let mut reader = Progress::new(Noted::new(rt.reader()), None, drawn, rt);
        return status_over(rt, rt.alloc(), command, input, &mut reader, &mut writer);
    }
    match open(rt, file) {
        Ok((opened, size)) => {
            let mut reader = Progress::new(Noted::new(opened), size, drawn, rt);
            status_over(rt, rt.alloc(), command, input, &mut reader, &mut writer)
        }
        Err(error) => tell_unopened(rt, error, input),
    }
}

/// Opens a file to read. Returns its size too, if it is a regular file. Returns an error for a
/// directory, which the system would open and then not read.
fn open<R: Files>(rt: &R, file: &str) -> io::Result<(R::File, Option<u64>)> {
    let opened = fs::open(rt, file)?;
    let metadata = opened.metadata()?;
    if metadata.is_dir() {
        return Err(io::Error::from(ErrorKind::IsADirectory));
    }
    let size = metadata.is_file().then_some(metadata.len());
    Ok((opened, size))
}

/// Runs a command over its input, and returns the exit status. If the run stopped early, standard
/// error says why.
fn status_over<E: Eprint + Clock, R: Read, W: Write>(
    rt: &E,
    alloc: Global,
    command: Command,
    input: InputName<'_>,
    reader: &mut Progress<'_, Noted<R>, E>,
    writer: &mut Noted<W>,
) -> u8
    ensures ends { (end : RunEnd) × (result ≡ exit_status end) }
    ensures read { tells_done result ≡ true → IsAtEnd (R.remaining reader.new.inner.inner) }
    ensures written { IfSome (R.remaining reader.old.inner.inner) (λ input.
        tells_done result ≡ true → AppendsText (CommandText command input) (tells_fault result)
        (W.contents writer.old.inner) (W.contents writer.new.inner)) }
    ensures late { reads_first command ≡ true → (IsAtEnd (R.remaining reader.new.inner.inner)) ⊎
        Keeps (W.contents writer.old.inner) (W.contents writer.new.inner) }
    ensures first { result ≡ 4 → reads_first command ≡ false →
        IfSome (R.remaining reader.old.inner.inner) (λ input. AppendsOne (FirstOf command input)
        (W.contents writer.old.inner) (W.contents writer.new.inner)) }
{
    let end = run_over(rt, alloc, command, input, reader, writer);
    reader.wipe();
    tell(rt, end, input, reader.inner.because(), writer.because())
}

/// Says on standard error why `bson` wrote no more documents, if it stopped before the end of its
/// input. Returns how the run ended.
fn tell_stop(
    rt: &impl Eprint,
    ended: Result<Option<TextStop>, RunEnd>,
    input: InputName<'_>,
) -> RunEnd
    ensures ok { IfOk ended (λ stop. (is_done result ≡ true) × (is_fault result ≡ is_some stop)) }
    ensures err { IfErr ended (λ end. result ≡ end) }
{
    match ended {
        Ok(None) => RunEnd::Good,
        Ok(Some(stop)) => {
            let _ = eprintln!(rt; "bsonwire: {input}: {stop}");
            RunEnd::Fault
        }
        Err(end) => end,
    }
}

/// Runs a command over its input, and returns how the run ended. Standard error tells a fault that
/// standard output doesn't.
fn run_over<E: Eprint, R: Read, W: Write>(
    rt: &E,
    alloc: Global,
    command: Command,
    input: InputName<'_>,
    reader: &mut R,
    writer: &mut W,
) -> RunEnd
    ensures read { is_done result ≡ true → IsAtEnd (R.remaining reader.new) }
    ensures written { IfSome (R.remaining reader.old) (λ input. is_done result ≡ true →
        AppendsText (CommandText command input) (is_fault result)
        (W.contents writer.old) (W.contents writer.new)) }
    ensures late { reads_first command ≡ true → (IsAtEnd (R.remaining reader.new)) ⊎
        Keeps (W.contents writer.old) (W.contents writer.new) }
    ensures unread { result ≡ RunEnd.Unread → reads_first command ≡ false →
        WritesRead (AllOf command) (R.remaining reader.old) (R.remaining reader.new)
        (W.contents writer.old) (W.contents writer.new) }
    ensures first { result ≡ RunEnd.OutOfMemory → reads_first command ≡ false →
        IfSome (R.remaining reader.old) (λ input. AppendsOne (FirstOf command input)
        (W.contents writer.old) (W.contents writer.new)) }
{
    match command {
        Command::Dump { hex, offsets } => run_dump(alloc, offsets, hex, reader, writer),
        Command::Check(Reading::Bytes) => run_check(alloc, false, reader, writer),
        Command::Check(Reading::Hex) => run_check(alloc, true, reader, writer),
        Command::Check(Reading::Salvage) => salvage_check(alloc, reader, writer),
        Command::Canon(Reading::Bytes) => run_canon(alloc, false, reader, writer),
        Command::Canon(Reading::Hex) => run_canon(alloc, true, reader, writer),
        Command::Canon(Reading::Salvage) => salvage_canon(alloc, reader, writer),
        Command::Json { hex, mode, layout } => run_json(alloc, mode, layout, hex, reader, writer),
        Command::Bson => tell_stop(rt, run_bson(alloc, reader, writer), input),
        Command::Msg { hex, form } => run_msg(alloc, form, hex, reader, writer),
        Command::Any { hex } => run_any(alloc, hex, reader, writer),
        Command::Play => run_play(alloc, reader, writer),
    }
}

/// Makes `calls` calls over a connection of the program with itself, and returns the exit status.
/// If they were cut short, standard error says why.
fn loop_status<R: Net + Eprint + AllocGlobal, W: Write>(
    rt: &R,
    calls: u8,
    writer: &mut Noted<W>,
) -> u8
    ensures ends { (end : RunEnd) × (end ≢ RunEnd.Fault) × (result ≡ exit_status end) }
    ensures written { (left : List ℕ) × AppendsUpTo left (loop_text calls)
        (W.contents writer.old.inner) (W.contents writer.new.inner) × (result ≡ 0 → left ≡ []) }
{
    let end = run_loop(rt, calls, writer);
    tell_loop(rt, end, writer.because())
}

/// Says on standard error why the calls were cut short, if they were: writing failed for this
/// reason, or else the connection did. Returns the exit status.
fn tell_loop(rt: &impl Eprint, end: RunEnd, unwritten: Because) -> u8
    ensures { result ≡ exit_status end }
{
    let _ = match end {
        RunEnd::InOut if unwritten.is_known() => {
            eprintln!(rt; "bsonwire: could not write standard output{unwritten}")
        }
        RunEnd::InOut => eprintln!(rt; "bsonwire: the connection failed"),
        RunEnd::OutOfMemory => eprintln!(rt; "bsonwire: out of memory"),
        RunEnd::Good | RunEnd::Fault | RunEnd::Unread => Ok(()),
    };
    status_of(end)
}

/// Says on standard error why a run stopped early, if it did: reading failed for the first of these
/// reasons, or writing for the second. Returns its exit status.
fn tell(
    rt: &impl Eprint,
    end: RunEnd,
    input: InputName<'_>,
    unread: Because,
    unwritten: Because,
) -> u8
    ensures { result ≡ exit_status end }
{
    // If standard error takes no line, there is only the status.
    let _ = match end {
        RunEnd::Unread => eprintln!(rt; "bsonwire: could not read {input}{unread}"),
        RunEnd::InOut => eprintln!(rt; "bsonwire: could not write standard output{unwritten}"),
        RunEnd::OutOfMemory => eprintln!(rt; "bsonwire: {input}: out of memory"),
        RunEnd::Good | RunEnd::Fault => Ok(()),
    };
    status_of(end)
}

/// Says on standard error why the input could not be opened. Returns the exit status.
fn tell_unopened(rt: &impl Eprint, error: io::Error, input: InputName<'_>) -> u8
    ensures { result ≡ exit_status (end_of_error (error_kind error) (raw_os_error error)) }
{
    let _ = eprintln!(rt; "bsonwire: {input}: {error}");
    status_of(end_of(&error))
}
