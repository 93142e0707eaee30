//! The command `bson`: the documents of Extended JSON texts.

ghost use Rattle.std.specs.Prelude.{◌≡◌, ◌≢◌, ◌⊎◌, ◌+◌, ◌<◌, ◌≤◌, ◌^◌, [], Err, IfErr, IfOk};
ghost use Rattle.std.specs.Prelude.{IfSome, List, OnOk, Option, false, length, true, ℕ};
ghost use Rattle.std.specs.Io.KnownBytes.{Consumes, IsAtEnd, Keeps};
ghost use Rattle.bson_json_read.specs.{MayFollow};
ghost use Rattle.command_run.specs.{IsCutShort, buffered_contents, is_done};
ghost use Rattle.file_commands.specs.BsonOf.{AllBson, FirstBson, IsPlaced, StopsAt, WritesTexts};
ghost use Rattle.file_commands.specs.Output.{AppendsOne, WritesRead};
ghost use Rattle.file_commands.specs.TextPieces.{HaveRead, IsBegun, IsPassed};

use crate::source::{PIECE, read_piece, read_rest};
use crate::texts::{Passed, Texts};
use bson_doc::DocRefusal;
use bson_json_read::TextFault;
use command_run::{BUFFER, Buffered, RunEnd};
use core::mem::replace_with;
use std::alloc::Global;
use std::fmt;
use std::io::{Read, Write};

/// Why `bson` writes no more documents.
#[derive(Clone, Copy)]
pub enum TextStop {
    /// The next text is at fault.
    Fault(TextFault),
    /// The document of the next text has no bytes, for this reason. Documents are counted from 1.
    Refused { refusal: DocRefusal, number: usize },
}

impl fmt::Display for TextStop {
    ghost use Rattle.file_commands.specs.BsonOf.{shown_stop};

    ghost output = { shown_stop };

    fn fmt<W: fmt::Write>(&self, f: &mut fmt::Formatter<W>) -> fmt::Result {
        match *self {
            TextStop::Fault(fault) => write!(f, "{fault}"),
            TextStop::Refused { refusal, number } => {
                write!(f, "fault 16 in document {number}: {refusal}")
            }
        }
    }
}

/// What there is between two pieces.
#[derive(Drop)]
struct Between {
    texts: Texts,
    /// The buffer in front of the writer, which is empty.
    buffer: Vec<u8>,
}

/// Texts of which a piece came.
#[derive(Drop)]
struct Job {
    alloc: Global,
    before: Between,
    /// True if nothing follows what came.
    last: bool,
}

/// Passes on what waits for the writer. Errs if the writer does, and else returns `passed`.
fn flush_behind<W: Write>(
    passed: Result<Passed, RunEnd>,
    out: &mut Buffered<W>,
) -> Result<Passed, RunEnd>
    ensures bytes { Keeps (buffered_contents W.contents out.old)
        (buffered_contents W.contents out.new) }
    ensures same { (result ≡ Err RunEnd.InOut)
        ⊎ ((result ≡ passed) × (out.new.buffer.items ≡ [])) }
{
    match out.flush() {
        Ok(()) => passed,
        Err(_) => Err(RunEnd::InOut),
    }
}

/// Like `write_held`, but takes the writer by value and returns it.
fn write_through<W: Write>(writer: W, job: Job) -> (W, (Between, Result<Passed, RunEnd>))
    requires empty { job.before.buffer.items ≡ [] }
    requires few { job.before.texts.count + length job.before.texts.reader.bytes < 2 ^ 64 }
    ensures empty { OnOk result.1.1 (result.1.0.buffer.items ≡ []) }
    ensures fewer { result.1.0.texts.count + length result.1.0.texts.reader.bytes
        ≤ job.before.texts.count + length job.before.texts.reader.bytes }
    ensures ok { (read : List ℕ) (start : Option (List ℕ))
        → HaveRead job.last read job.before.texts.count job.before.texts.reader start
        (W.contents writer) → IfOk result.1.1 (λ passed. IsPassed job.last read passed
        result.1.0.texts.count result.1.0.texts.reader start (W.contents result.0)) }
    ensures memory { (read : List ℕ) (start : Option (List ℕ))
        → HaveRead job.last read job.before.texts.count job.before.texts.reader start
        (W.contents writer) → result.1.1 ≡ Err RunEnd.OutOfMemory
        → HaveRead job.last read result.1.0.texts.count result.1.0.texts.reader start
        (W.contents result.0) }
    ensures cut { IfErr result.1.1 (λ end. is_done end ≡ false) }
    ensures unread { result.1.1 ≢ Err RunEnd.Unread }
{
    let Job {
        alloc,
        before,
        last,
    } = job;
    let Between { mut texts, buffer } = before;
    let mut out = Buffered::new(writer, buffer);
    let passed = texts.write_documents(alloc, last, &mut out);
    let passed = flush_behind(passed, &mut out);
    let (writer, buffer) = out.into_parts();
    (writer, (Between { texts, buffer }, passed))
}

/// Writes the documents of the texts that are whole, up to the first one at fault. `last` says that
/// nothing follows what came.
fn write_held<W: Write>(
    alloc: Global,
    before: Between,
    last: bool,
    writer: &mut W,
) -> (Between, Result<Passed, RunEnd>)
    requires empty { before.buffer.items ≡ [] }
    requires few { before.texts.count + length before.texts.reader.bytes < 2 ^ 64 }
    ensures empty { OnOk result.1 (result.0.buffer.items ≡ []) }
    ensures fewer { result.0.texts.count + length result.0.texts.reader.bytes
        ≤ before.texts.count + length before.texts.reader.bytes }
    ensures ok { (read : List ℕ) (start : Option (List ℕ))
        → HaveRead last read before.texts.count before.texts.reader start
        (W.contents writer.old) → IfOk result.1 (λ passed. IsPassed last read passed
        result.0.texts.count result.0.texts.reader start (W.contents writer.new)) }
    ensures memory { (read : List ℕ) (start : Option (List ℕ))
        → HaveRead last read before.texts.count before.texts.reader start
        (W.contents writer.old) → result.1 ≡ Err RunEnd.OutOfMemory
        → HaveRead last read result.0.texts.count result.0.texts.reader start
        (W.contents writer.new) }
    ensures cut { IfErr result.1 (λ end. is_done end ≡ false) }
    ensures unread { result.1 ≢ Err RunEnd.Unread }
{
    let job = Job {
        alloc,
        before,
        last,
    };
    replace_with(writer, job, write_through)
}

/// Reads the rest of an input in which no more documents are written, for this reason, which it
/// returns. `last` says that nothing is left.
fn end_behind<R: Read>(
    stop: Option<TextStop>,
    last: bool,
    reader: &mut R,
    room: &mut [u8],
) -> Result<Option<TextStop>, RunEnd>
    requires room { 0 < length room.old }
    requires ended { last ≡ true → IsAtEnd (R.remaining reader.old) }
    ensures read { (more : List ℕ) × Consumes (R.remaining reader.old) (R.remaining reader.new)
        more × MayFollow last more }
    ensures ok { IfOk result (λ s. (s ≡ stop) × IsAtEnd (R.remaining reader.new)) }
    ensures stopped { IfErr result (λ end. IsCutShort end × (last ≡ false)) }
{
    if last {
        return Ok(stop);
    }
    match read_rest(reader, room) {
        Ok(()) => Ok(stop),
        Err(end) => Err(end),
    }
}

/// Writes the documents of the texts in the input, piece by piece. `room` takes a piece. Returns why
/// that ended before the input did, if it did.
fn write_pieces<R: Read, W: Write>(
    alloc: Global,
    reader: &mut R,
    room: &mut [u8],
    mut between: Between,
    writer: &mut W,
) -> Result<Option<TextStop>, RunEnd>
    requires room { 0 < length room.old }
    requires piece { length room.old ≤ PIECE }
    requires begins { IsBegun between.texts.count between.texts.reader }
    requires empty { between.buffer.items ≡ [] }
    ensures read { OnOk result (IsAtEnd (R.remaining reader.new)) }
    ensures ok { IfOk result (λ stop. (read : List ℕ)
        × Consumes (R.remaining reader.old) (R.remaining reader.new) read
        × WritesTexts read (StopsAt stop) (W.contents writer.old) (W.contents writer.new)
        × IsPlaced read stop) }
    ensures unread { result ≡ Err RunEnd.Unread → WritesRead AllBson
        (R.remaining reader.old) (R.remaining reader.new)
        (W.contents writer.old) (W.contents writer.new) }
    ensures memory { result ≡ Err RunEnd.OutOfMemory → IfSome (R.remaining reader.old) (λ input.
        AppendsOne (FirstBson input) (W.contents writer.old) (W.contents writer.new)) }
    ensures cut { IfErr result (λ end. is_done end ≡ false) }
{
    let mut so_far = 0;
    for _ in 0..u64::MAX {
        let read = match read_piece(so_far, reader, room) {
            Ok(read) => read,
            Err(end) => return Err(end),
        };
        let last = read.is_none();
        let n = read.unwrap_or(0);
        so_far += n;
        let Ok(()) = between.texts.reader.feed(&room[..n]) else {
            return Err(RunEnd::OutOfMemory);
        };
        let (after, passed) = write_held(alloc, between, last, writer);
        between = after;
        match passed? {
            Passed::Wanted => {}
            Passed::Over(stop) => return end_behind(stop, last, reader, room),
        }
    }
    Err(RunEnd::InOut)
}

/// Writes the documents of the texts in the input, which are Extended JSON, back to back. Returns
/// why that ended before the input did, if it did.
///
/// The document of a text is written before the next text is read. Beside a piece, a buffer and the
/// document, only the text that isn't whole yet is held.
///
/// # Errors
///
/// Returns how a run ends that was cut short.
pub fn run_bson<R: Read, W: Write>(
    alloc: Global,
    reader: &mut R,
    writer: &mut W,
) -> Result<Option<TextStop>, RunEnd>
    ensures read { OnOk result (IsAtEnd (R.remaining reader.new)) }
    ensures written { IfSome (R.remaining reader.old) (λ input. IfOk result (λ stop.
        WritesTexts input (StopsAt stop) (W.contents writer.old) (W.contents writer.new))) }
    ensures unread { result ≡ Err RunEnd.Unread → WritesRead AllBson
        (R.remaining reader.old) (R.remaining reader.new)
        (W.contents writer.old) (W.contents writer.new) }
    ensures memory { result ≡ Err RunEnd.OutOfMemory → IfSome (R.remaining reader.old) (λ input.
        AppendsOne (FirstBson input) (W.contents writer.old) (W.contents writer.new)) }
    ensures cut { IfErr result (λ end. is_done end ≡ false) }
    ensures placed { IfSome (R.remaining reader.old) (λ input.
        IfOk result (λ stop. IsPlaced input stop)) }
{
    let Ok(buffer) = Vec::with_capacity(alloc, BUFFER) else {
        return Err(RunEnd::OutOfMemory);
    };
    let mut room = Vec::new(alloc);
    let Ok(()) = room.resize(PIECE, 0) else {
        return Err(RunEnd::OutOfMemory);
    };
    let texts = Texts::new(alloc);
    let between = Between { texts, buffer };
    write_pieces(alloc, reader, room.as_mut_slice(), between, writer)
}
