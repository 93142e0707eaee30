//! The command `play`: what happens in a world by a script of events.

ghost use Rattle.std.specs.Prelude.{◌≡◌, ◌≢◌, ◌⊎◌, Err, IfErr, IfOk, IfSome, true};
ghost use Rattle.std.specs.Io.KnownBytes.{Appends, IsAtEnd, Keeps};
ghost use Rattle.command_run.specs.{AppendsText, is_done, is_fault, is_there, or_nothing};
ghost use Rattle.wire_play.specs.Running.{ScriptText, end_of_stop, last_of};

use crate::playing::{PlayStop, play};
use command_run::{Engine, RunEnd, run_engine, write_fault};
use std::alloc::Global;
use std::io::{Read, Write};

/// The command `play`.
#[derive(Drop)]
struct Play {
    alloc: Global,
}

/// Writes that the line of this number is at fault, if one is. Returns true if one is.
fn write_last<W: Write>(line: Option<usize>, out: &mut W) -> Result<bool, RunEnd>
    ensures written { IfOk result (λ there. (there ≡ is_there (last_of line))
        × Appends (W.contents out.old) (W.contents out.new) (or_nothing (last_of line))) }
    ensures stopped { IfErr result (λ end. end ≡ RunEnd.InOut) }
    ensures unread { result ≢ Err RunEnd.Unread }
{
    let Some(line) = line else {
        return Ok(false);
    };
    match write_fault(15, "Script", line, out) {
        Ok(()) => Ok(true),
        Err(_) => Err(RunEnd::InOut),
    }
}

/// Returns the end of a run whose play stopped so.
fn end_of_stop(stop: PlayStop) -> RunEnd
    ensures end { result ≡ end_of_stop stop }
    ensures unread { result ≢ RunEnd.Unread }
{
    match stop {
        PlayStop::Failed => RunEnd::InOut,
        PlayStop::OutOfMemory => RunEnd::OutOfMemory,
    }
}

impl Engine for Play {
    ghost is_text = { λ _. ScriptText };

    fn write_text<W: Write>(&self, bytes: &[u8], out: &mut W) -> Result<bool, RunEnd> {
        match play(self.alloc, bytes, out) {
            Ok(line) => write_last(line, out),
            Err(stop) => Err(end_of_stop(stop)),
        }
    }
}

/// Plays the script in the input: writes what each of its events comes to, and then the calls and
/// the log, or up to a line at fault, which is told by the last line.
///
/// Where memory runs out in an event, the line of that refusal is the last one written, and where it
/// runs out for a line of the script, that of the event before.
pub fn run_play<R: Read, W: Write>(alloc: Global, reader: &mut R, writer: &mut W) -> RunEnd
    ensures read { is_done result ≡ true → IsAtEnd (R.remaining reader.new) }
    ensures written { IfSome (R.remaining reader.old) (λ script. is_done result ≡ true →
        AppendsText (ScriptText script) (is_fault result) (W.contents writer.old)
        (W.contents writer.new)) }
    ensures late { (IsAtEnd (R.remaining reader.new)) ⊎
        Keeps (W.contents writer.old) (W.contents writer.new) }
    ensures unread { result ≡ RunEnd.Unread →
        Keeps (W.contents writer.old) (W.contents writer.new) }
{
    let play = Play { alloc };
    run_engine(alloc, &play, reader, writer)
}
