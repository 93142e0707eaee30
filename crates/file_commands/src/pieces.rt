//! Reads an input piece by piece, and writes what a command makes of its documents or messages.
//!
//! Between two pieces there is the document or message that isn't whole yet, and the text that the
//! writer didn't take yet. Nothing else of the input is held. Hexadecimal text is read whole before,
//! and the bytes that it spells are held.

ghost use Rattle.std.specs.Prelude.{◌≡◌, ◌⊎◌, ◌<◌, ◌++◌, IfOk, IfSome, List, Ok, OnOk};
ghost use Rattle.std.specs.Prelude.{Option, [], length, true, ℕ};
ghost use Rattle.std.specs.Io.KnownBytes.{Consumes, IsAtEnd, Keeps, append_known};
ghost use Rattle.command_run.specs.{AppendsText, IsCutShort, buffered_contents, is_done, is_fault};
ghost use Rattle.file_commands.specs.Output.{AppendsOne, IsAllOf, IsFirstOf, IsOutput};
ghost use Rattle.file_commands.specs.Output.{WritesRead};
ghost use Rattle.file_commands.specs.Walk.{Ends, IsBetween, IsEnding, IsFinish, Tells, Walks};

use crate::hex_input::read_hex;
use crate::input_fault::InputFault;
use crate::source::{PIECE, read_piece, read_rest};
use crate::walk::{Stop, Walk};
use command_run::{BUFFER, Buffered, RunEnd};
use core::mem::replace_with;
use std::alloc::Global;
use std::io;
use std::io::{ErrorKind, Read, Write};

/// How an input ended.
#[derive(Clone, Copy)]
pub enum Ending {
    /// All of it was read. It has this fault, or none.
    Whole(Option<InputFault>),
    /// The run was cut short, and ends so.
    Cut(RunEnd),
}

/// What there is between two pieces.
#[derive(Drop)]
struct Between<S> {
    /// The document or message that isn't whole yet.
    reader: S,
    /// The text that waits for the writer.
    text: Vec<u8>,
}

/// A piece whose texts are to be written.
#[derive(Drop)]
struct Job<'a, E, S> {
    each: &'a E,
    before: Between<S>,
    piece: &'a [u8],
}

/// Passes on the text that waits, unless writing failed before. Errs then, and if the writer does.
fn flush_behind<W: Write>(
    stop: io::Result<Option<Stop>>,
    out: &mut Buffered<W>,
) -> io::Result<Option<Stop>>
    ensures bytes { Keeps (buffered_contents W.contents out.old)
        (buffered_contents W.contents out.new) }
    ensures same { IfOk result (λ s. stop ≡ Ok s) }
{
    let stop = stop?;
    out.flush()?;
    Ok(stop)
}

/// Like `pass_piece`, but takes the writer by value and returns it.
fn pass_through<E: Walk, W: Write>(
    writer: W,
    job: Job<'_, E, E::Reader>,
) -> (W, (Between<E::Reader>, io::Result<Option<Stop>>))
    requires { (read : List ℕ) × (texts : List ℕ)
        × IsBetween (E.tells job.each.now) job.before.reader read texts }
    ensures { (read texts : List ℕ)
        → IsBetween (E.tells job.entry.each.now) job.entry.before.reader read texts
        → IfOk result.1.1 (λ stop. Walks (E.tells job.entry.each.now) result.1.0.reader
        (read ++ job.entry.piece.now) texts stop
        (append_known (W.contents writer) job.entry.before.text.items)
        (append_known (W.contents result.0) result.1.0.text.items)) }
{
    let Job {
        each,
        before,
        piece,
    } = job;
    let Between { mut reader, text } = before;
    let mut out = Buffered::new(writer, text);
    let mut stop = each.write_piece(&mut reader, piece, &mut out);
    if piece.len() < PIECE {
        // There may be no more for a while, so the text doesn't wait.
        stop = flush_behind(stop, &mut out);
    }
    let (writer, text) = out.into_parts();
    (writer, (Between { reader, text }, stop))
}

/// Writes the texts of what becomes whole by `piece`, behind the text that waits for the writer.
fn pass_piece<E: Walk, W: Write>(
    each: &E,
    before: Between<E::Reader>,
    piece: &[u8],
    writer: &mut W,
) -> (Between<E::Reader>, io::Result<Option<Stop>>)
    requires { (read : List ℕ) × (texts : List ℕ)
        × IsBetween (E.tells each.now) before.reader read texts }
    ensures { (read texts : List ℕ) → IsBetween (E.tells each.now) before.reader read texts
        → IfOk result.1 (λ stop. Walks (E.tells each.now) result.0.reader
        (read ++ piece.now) texts stop
        (append_known (W.contents writer.old) before.text.items)
        (append_known (W.contents writer.new) result.0.text.items)) }
{
    let job = Job {
        each,
        before,
        piece,
    };
    replace_with(writer, job, pass_through)
}

/// Reads the rest of an input that has this fault. Returns how the input ended.
fn ending_at<R: Read>(fault: InputFault, reader: &mut R, room: &mut [u8]) -> Ending
    requires { 0 < length room.old }
    ensures read { (more : List ℕ)
        × Consumes (R.remaining reader.old) (R.remaining reader.new) more }
    ensures whole { (last : Option InputFault) → result ≡ Ending.Whole last
        → IsAtEnd (R.remaining reader.new) }
    ensures ending { (result ≡ Ending.Whole (Option.Some fault))
        ⊎ ((end : RunEnd) × (result ≡ Ending.Cut end) × IsCutShort end) }
{
    match read_rest(reader, room) {
        Ok(()) => Ending::Whole(Some(fault)),
        Err(end) => Ending::Cut(end),
    }
}

/// Writes the texts of what is in the input, up to the first fault, behind the `text` that waits
/// for the writer. `room` takes a piece. Returns how the input ended, and what there is then. Errs
/// if the writer does.
fn write_pieces<E: Walk, R: Read, W: Write>(
    each: &E,
    reader: &mut R,
    room: &mut [u8],
    mut between: Between<E::Reader>,
    writer: &mut W,
) -> io::Result<(Ending, Between<E::Reader>)>
    requires room { 0 < length room.old }
    requires fresh { IsBetween (E.tells each.now) between.reader [] [] }
    ensures whole { IfOk result (λ r. (last : Option InputFault) → r.0 ≡ Ending.Whole last
        → IsAtEnd (R.remaining reader.new)) }
    ensures written { IfOk result (λ r. Ends (E.tells each.now) r.1.reader r.0
        (R.remaining reader.old) (R.remaining reader.new)
        (append_known (W.contents writer.old) between.text.items)
        (append_known (W.contents writer.new) r.1.text.items)) }
{
    let mut so_far = 0;
    for _ in 0..u64::MAX {
        let n = match read_piece(so_far, reader, room) {
            Ok(Some(n)) => n,
            Ok(None) => {
                let last = each.fault_at_end(&between.reader);
                return Ok((Ending::Whole(last), between));
            }
            Err(end) => return Ok((Ending::Cut(end), between)),
        };
        so_far = so_far.saturating_add(n);
        let (after, stop) = pass_piece(each, between, &room[..n], writer);
        between = after;
        match stop? {
            None => {}
            Some(Stop::Fault(fault)) => return Ok((ending_at(fault, reader, room), between)),
            Some(Stop::OutOfMemory) => return Ok((Ending::Cut(RunEnd::OutOfMemory), between)),
        }
    }
    Err(io::Error::from(ErrorKind::Interrupted))
}

/// Writes what is behind the texts, and passes all of it on. Returns how the run ends. Errs if the
/// writer does.
fn write_ending<E: Walk, W: Write>(
    each: &E,
    reader: &E::Reader,
    ending: Ending,
    out: &mut Buffered<W>,
) -> io::Result<RunEnd>
    ensures written { (read texts : List ℕ)
        → IsEnding (E.tells each.now) reader.now read texts ending
        → IfOk result (λ end. IsFinish (E.tells each.now) read texts end
        (buffered_contents W.contents out.old) (buffered_contents W.contents out.new)) }
    ensures done { (read texts : List ℕ)
        → IsEnding (E.tells each.now) reader.now read texts ending
        → IfOk result (λ end. is_done end ≡ true
        → (last : Option InputFault) × (ending ≡ Ending.Whole last)) }
    ensures empty { OnOk result (out.new.buffer.items ≡ []) }
{
    let end = match ending {
        Ending::Cut(end) => end,
        Ending::Whole(last) => {
            each.write_closing(reader, out)?;
            match last {
                None => RunEnd::Good,
                Some(fault) => {
                    fault.write(out)?;
                    RunEnd::Fault
                }
            }
        }
    };
    out.flush()?;
    Ok(end)
}

/// How an input ended, where its reader stands, and the text that waits for the writer.
#[derive(Drop)]
struct Last<'a, E, S> {
    each: &'a E,
    reader: S,
    ending: Ending,
    text: Vec<u8>,
}

/// Writes what is behind the texts, and passes all of it on. Returns the writer, and how the run
/// ends.
fn finish<E: Walk, W: Write>(writer: W, last: Last<'_, E, E::Reader>) -> (W, RunEnd)
    ensures written { (read texts : List ℕ)
        → IsEnding (E.tells last.entry.each.now) last.entry.reader read texts last.entry.ending
        → IsFinish (E.tells last.entry.each.now) read texts result.1
        (append_known (W.contents writer) last.entry.text.items) (W.contents result.0) }
    ensures done { (read texts : List ℕ)
        → IsEnding (E.tells last.entry.each.now) last.entry.reader read texts last.entry.ending
        → is_done result.1 ≡ true
        → (fault : Option InputFault) × (last.entry.ending ≡ Ending.Whole fault) }
{
    let Last {
        each,
        reader,
        ending,
        text,
    } = last;
    let mut out = Buffered::new(writer, text);
    let end = write_ending(each, &reader, ending, &mut out);
    let writer = out.into_inner();
    match end {
        Ok(end) => (writer, end),
        Err(_) => (writer, RunEnd::InOut),
    }
}

/// Writes what a command makes of what is in the input, piece by piece, by a reader that has `begun`.
///
/// Beside what the command takes, the memory is one piece and one buffer of text, taken before the
/// first byte is read, and what the reader takes.
fn run_pieces<E: Walk, R: Read, W: Write>(
    alloc: Global,
    each: &E,
    begun: E::Reader,
    reader: &mut R,
    writer: &mut W,
) -> RunEnd
    requires { IsBetween (E.tells each.now) begun [] [] }
    ensures read { is_done result ≡ true → IsAtEnd (R.remaining reader.new) }
    ensures written { IfSome (R.remaining reader.old) (λ input. is_done result ≡ true →
        AppendsText (Tells.whole (E.tells each.now) input) (is_fault result)
        (W.contents writer.old) (W.contents writer.new)) }
    ensures unread { result ≡ RunEnd.Unread → WritesRead (Tells.all (E.tells each.now))
        (R.remaining reader.old) (R.remaining reader.new)
        (W.contents writer.old) (W.contents writer.new) }
    ensures memory { result ≡ RunEnd.OutOfMemory → IfSome (R.remaining reader.old) (λ input.
        AppendsOne (Tells.first (E.tells each.now) input)
        (W.contents writer.old) (W.contents writer.new)) }
{
    let Ok(text) = Vec::with_capacity(alloc, BUFFER) else {
        return RunEnd::OutOfMemory;
    };
    let mut room = Vec::new(alloc);
    let Ok(()) = room.resize(PIECE, 0) else {
        return RunEnd::OutOfMemory;
    };
    let between = Between {
        reader: begun,
        text,
    };
    let Ok((ending, last)) = write_pieces(each, reader, room.as_mut_slice(), between, writer) else {
        return RunEnd::InOut;
    };
    let Between {
        reader: stands,
        text,
    } = last;
    let last = Last {
        each,
        reader: stands,
        ending,
        text,
    };
    replace_with(writer, last, finish)
}

/// Writes what a command makes of what is in the input. If `hex` is true, the input is hexadecimal
/// text, which is read whole, since the number of its bytes decides first whether it has a fault: the
/// command is run on the bytes that it spells, or only the line of its fault is written.
pub fn run_walk<E: Walk, R: Read, W: Write>(
    alloc: Global,
    each: &E,
    hex: bool,
    reader: &mut R,
    writer: &mut W,
) -> RunEnd
    ensures read { is_done result ≡ true → IsAtEnd (R.remaining reader.new) }
    ensures written { IfSome (R.remaining reader.old) (λ input. is_done result ≡ true →
        AppendsText (IsOutput (Tells.whole (E.tells each.now)) hex input)
        (is_fault result) (W.contents writer.old) (W.contents writer.new)) }
    ensures unread { result ≡ RunEnd.Unread
        → WritesRead (IsAllOf (Tells.all (E.tells each.now)) hex)
        (R.remaining reader.old) (R.remaining reader.new)
        (W.contents writer.old) (W.contents writer.new) }
    ensures memory { result ≡ RunEnd.OutOfMemory → IfSome (R.remaining reader.old) (λ input.
        AppendsOne (IsFirstOf (Tells.first (E.tells each.now)) hex input)
        (W.contents writer.old) (W.contents writer.new)) }
{
    let begun = each.start(alloc);
    if !hex {
        return run_pieces(alloc, each, begun, reader, writer);
    }
    let text = match read_hex(alloc, reader) {
        Ok(text) => text,
        Err(end) => return end,
    };
    if let Some(offset) = text.fault() {
        return match (InputFault::Hex { offset }).write(writer) {
            Ok(()) => RunEnd::Fault,
            Err(_) => RunEnd::InOut,
        };
    }
    let mut bytes = text.bytes();
    match run_pieces(alloc, each, begun, &mut bytes, writer) {
        // No read of bytes fails.
        RunEnd::Unread => RunEnd::InOut,
        end => end,
    }
}
