//! How a run of a command ends, and the frame of one that reads all of its input.

ghost use Rattle.std.specs.Prelude.{◌≡◌, ◌≢◌, ◌⊎◌, [], ℕ, Bool, List, IfErr, IfOk, IfSome, None};
ghost use Rattle.std.specs.Prelude.{Err, OnOk, Ok, codes, true, false};
ghost use Rattle.std.specs.Io.KnownBytes.{IsAtEnd, Keeps};
ghost use Rattle.std.specs.IoError.{error_kind, raw_os_error};
ghost use Rattle.command_run.specs.Buffered.{buffered_contents};
ghost use Rattle.command_run.specs.Output.{AppendsText};
ghost use Rattle.command_run.specs.Run.{IsCutShort, end_of_error, end_of_reading, is_done};
ghost use Rattle.command_run.specs.Run.{is_fault};

use crate::buffered::Buffered;
use core::mem::replace_with;
use std::alloc::Global;
use std::io;
use std::io::{ErrorKind, Read, Write};

/// The most bytes of text that wait for the writer.
pub const BUFFER: usize = 64 * 1024;

/// How a run ended.
#[derive(Clone, Copy, Debug, PartialEq, Eq, Drop)]
pub enum RunEnd {
    /// The whole text was written, and the input has no fault.
    Good,
    /// The whole text was written, and the input has a fault.
    Fault,
    /// Reading failed.
    Unread,
    /// Writing failed, or the network.
    InOut,
    /// Memory ran out.
    OutOfMemory,
}

/// What a command writes for the bytes of its input.
pub trait Engine {
    // The texts of some bytes, and whether a text ends with a fault line.
    ghost is_text: { Self → List ℕ → List ℕ → Bool → Type 0 };

    /// Writes the text of `bytes`. Returns true if it ends with a fault line. Errs if the writer
    /// does, and if memory runs out.
    fn write_text<W: Write>(&self, bytes: &[u8], out: &mut W) -> Result<bool, RunEnd>
        ensures written { IfOk result (λ fault. AppendsText (is_text self.now bytes.now) fault
            (W.contents out.old) (W.contents out.new)) }
        ensures stopped { IfErr result (λ end. is_done end ≡ false) }
        ensures unread { result ≢ Err RunEnd.Unread };
}

/// Writes the text of the whole input.
///
/// Beside the input and what the engine takes, the only memory is one buffer. It is taken before
/// the first byte is written.
pub fn run_engine<E: Engine, R: Read, W: Write>(
    alloc: Global,
    engine: &E,
    reader: &mut R,
    writer: &mut W,
) -> RunEnd
    ensures read { is_done result ≡ true → IsAtEnd (R.remaining reader.new) }
    ensures written { IfSome (R.remaining reader.old) (λ input. is_done result ≡ true →
        AppendsText (E.is_text engine.now input) (is_fault result)
        (W.contents writer.old) (W.contents writer.new)) }
    ensures late { (IsAtEnd (R.remaining reader.new)) ⊎
        Keeps (W.contents writer.old) (W.contents writer.new) }
    ensures unread { result ≡ RunEnd.Unread →
        Keeps (W.contents writer.old) (W.contents writer.new) }
{
    let input = match read_whole(alloc, reader) {
        Ok(input) => input,
        Err(end) => return end,
    };
    let Ok(buffer) = Vec::with_capacity(alloc, BUFFER) else {
        return RunEnd::OutOfMemory;
    };
    let job = Job {
        engine,
        input,
        buffer,
    };
    replace_with(writer, job, write_through)
}

/// Reads the whole input. Errs with the end of the run.
fn read_whole<R: Read>(alloc: Global, reader: &mut R) -> Result<Vec<u8>, RunEnd>
    ensures bytes { IfOk result (λ v. IfSome (R.remaining reader.old) (λ all. v.items ≡ all)) }
    ensures read { OnOk result (IsAtEnd (R.remaining reader.new)) }
    ensures cut { IfErr result (λ end. is_done end ≡ false) }
{
    let mut input = Vec::new(alloc);
    match reader.read_to_end(&mut input) {
        Ok(_) => Ok(input),
        Err(error) => Err(end_of_read(&error)),
    }
}

/// Returns the end of a run that meets `error`. A refused allocation has no code of the system; if
/// the error has one, it is the system that lacks memory, and not this program.
pub fn end_of(error: &io::Error) -> RunEnd
    ensures kind { result ≡ end_of_error (error_kind error.now) (raw_os_error error.now) }
    ensures unread { result ≢ RunEnd.Unread }
{
    if error.kind() == ErrorKind::OutOfMemory && error.raw_os_error().is_none() {
        RunEnd::OutOfMemory
    } else {
        RunEnd::InOut
    }
}

/// Returns the end of a run whose reader fails with `error`.
pub fn end_of_read(error: &io::Error) -> RunEnd
    ensures kind { result ≡ end_of_reading (error_kind error.now) (raw_os_error error.now) }
    ensures cut { IsCutShort result }
{
    match end_of(error) {
        RunEnd::OutOfMemory => RunEnd::OutOfMemory,
        _ => RunEnd::Unread,
    }
}

/// An input whose text is to be written, and the buffer for that.
#[derive(Drop)]
struct Job<'a, E> {
    engine: &'a E,
    input: Vec<u8>,
    buffer: Vec<u8>,
}

/// Writes the text of a job. Returns the writer, and how the run ended.
fn write_through<E: Engine, W: Write>(writer: W, job: Job<'_, E>) -> (W, RunEnd)
    requires { job.buffer.items ≡ [] }
    ensures written { is_done result.1 ≡ true →
        AppendsText (E.is_text job.entry.engine.now job.entry.input.items)
        (is_fault result.1) (W.contents writer) (W.contents result.0) }
    ensures unread { result.1 ≢ RunEnd.Unread }
{
    let mut out = Buffered::new(writer, job.buffer);
    let written = job.engine.write_text(&job.input, &mut out);
    finish(out, written)
}

/// Passes on what is left in the buffer, unless the writer failed. Returns the inner writer, and how
/// a run ended of which the writing ended as `written`.
fn finish<W: Write>(mut out: Buffered<W>, written: Result<bool, RunEnd>) -> (W, RunEnd)
    requires cut { IfErr written (λ end. is_done end ≡ false) }
    requires read { written ≢ Err RunEnd.Unread }
    ensures stopped { IfErr written (λ end. result.1 ≡ end) }
    ensures told { is_done result.1 ≡ true → written ≡ Ok (is_fault result.1) }
    ensures kept { is_done result.1 ≡ true →
        Keeps (buffered_contents W.contents out) (W.contents result.0) }
    ensures unread { result.1 ≢ RunEnd.Unread }
{
    let end = match written {
        Err(end) => {
            if end == RunEnd::OutOfMemory {
                // The run ends for want of memory, whatever comes of this.
                let _ = out.flush();
            }
            end
        }
        Ok(is_fault) => match out.flush() {
            Err(_) => RunEnd::InOut,
            Ok(()) if is_fault => RunEnd::Fault,
            Ok(()) => RunEnd::Good,
        },
    };
    (out.into_inner(), end)
}
