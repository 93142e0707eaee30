//! The documents of an input of which some bytes are damaged, for each of which a command writes a
//! text.

ghost use Rattle.std.specs.Prelude.{◌≡◌, ◌⊎◌, ◌<◌, ◌^◌, ◌++◌, IfOk, IfSome, List, OnOk, Option};
ghost use Rattle.std.specs.Prelude.{[], false, length, take, true, ℕ};
ghost use Rattle.std.specs.Io.KnownBytes.{Appends, IsAtEnd, Keeps, append_known};
ghost use Rattle.bson_elem.specs.{Spells, Tree};
ghost use Rattle.bson_stream.specs.{IsDocumentOf, IsSettled};
ghost use Rattle.command_run.specs.{AppendsText, is_done, is_fault};
ghost use Rattle.file_commands.specs.DocumentWalk.{IsWritten};
ghost use Rattle.file_commands.specs.Output.{AppendsOne, WritesRead};
ghost use Rattle.file_commands.specs.Salvaged.{FirstSalvaged, SalvageText, SalvagedSoFar, fault_of};
ghost use Rattle.file_commands.specs.Salvaged.{gap_text};
ghost use Rattle.file_commands.specs.SalvageWalk.{Passed, SalvageEnds, Wrote, end_of_parts, manner};

use crate::documents::{EachDocument, Written};
use crate::input_fault::InputFault;
use crate::source::{PIECE, read_piece};
use bson_stream::{Find, Gap, GapFault, Salvager};
use command_run::{BUFFER, Buffered, RunEnd};
use core::mem::replace_with;
use std::alloc::Global;
use std::io;
use std::io::{ErrorKind, Read, Write};

/// The most bytes that a document has which is found in a damaged input: as many as a server takes,
/// 16 MiB and 16 KiB.
pub const SALVAGE_LIMIT: u32 = 16_793_600;

/// What a command writes for the parts of a damaged input.
#[derive(Drop)]
struct Salvage<E> {
    each: E,
    /// True if lines are written for gaps.
    lines: bool,
}

/// What was written for what came so far.
#[derive(Clone, Copy)]
struct PartsWritten {
    /// True if something is at fault in it.
    fault: bool,
    /// False if memory ran out.
    whole: bool,
}

/// Returns the fault of an input at `from`, where no document begins for this reason.
fn fault_of(from: usize, fault: GapFault) -> InputFault
    ensures { result ≡ fault_of from fault }
{
    match fault {
        GapFault::Bson(fault) => InputFault::Bson(fault),
        GapFault::TooLong => InputFault::TooLarge { offset: from },
    }
}

/// Writes the lines of `gap`, if `lines` is true.
fn write_gap<W: Write>(lines: bool, gap: Gap, out: &mut W) -> io::Result<()>
    ensures { OnOk result (Appends (W.contents out.old) (W.contents out.new)
        (gap_text lines gap)) }
{
    if !lines {
        return Ok(());
    }
    fault_of(gap.from, gap.fault).write(out)?;
    let Gap { from, to, .. } = gap;
    writeln!(out, "gap {from} {to}")
}

/// Writes the text of the document of `len` bytes that `salvager` found. `canonical` says whether
/// it is in canonical form.
fn write_found<E: EachDocument, W: Write>(
    each: &E,
    salvager: &Salvager,
    len: usize,
    canonical: bool,
    out: &mut W,
) -> io::Result<Written>
    requires { IsDocumentOf salvager.now.limit salvager.now.held len canonical }
    ensures { (t : Tree) → Spells t (take len salvager.now.held) → IfOk result
        (λ written. IsWritten (E.rule each.now salvager.now.start t) written
        (W.contents out.old) (W.contents out.new)) }
{
    each.write_document(salvager.document(len), salvager.start(), canonical, out)
}

/// Writes the text of each part that `salvager` finds. If `ended` is true, no more bytes come.
/// `before` says whether something is at fault already. Errs if the writer does.
fn write_parts<E: EachDocument, W: Write>(
    salvage: &Salvage<E>,
    salvager: &mut Salvager,
    ended: bool,
    before: bool,
    out: &mut W,
) -> io::Result<PartsWritten>
    ensures { (limit : ℕ) (bytes : List ℕ) (start : Option (List ℕ))
        → Wrote (manner (E.rule salvage.now.each) salvage.now.lines limit)
        ended bytes salvager.old before start (W.contents out.old)
        → IfOk result (λ w. Passed (manner (E.rule salvage.now.each) salvage.now.lines limit)
        ended bytes salvager.new w.fault w.whole start (W.contents out.new)) }
{
    let mut fault = before;
    loop {
        match salvager.find(ended) {
            Find::Nothing => return Ok(PartsWritten { fault, whole: true }),
            Find::Gap(gap) => {
                write_gap(salvage.lines, gap, out)?;
                fault = true;
                continue;
            }
            Find::Document { len, canonical } => {
                match write_found(&salvage.each, salvager, len, canonical, out)? {
                    Written::Whole => {
                        salvager.release(len);
                        continue;
                    }
                    Written::TooLarge => {
                        salvager.release(len);
                        fault = true;
                        continue;
                    }
                    Written::OutOfMemory => {
                        return Ok(PartsWritten {
                            fault,
                            whole: false,
                        });
                    }
                }
            }
        }
    }
}

/// Feeds `piece` to `salvager`, and writes the text of each part that it finds then, as
/// `write_parts` does.
fn feed_parts<E: EachDocument, W: Write>(
    salvage: &Salvage<E>,
    salvager: &mut Salvager,
    piece: &[u8],
    ended: bool,
    before: bool,
    out: &mut W,
) -> io::Result<PartsWritten>
    ensures { (limit : ℕ) (bytes : List ℕ) (start : Option (List ℕ))
        → Wrote (manner (E.rule salvage.now.each) salvage.now.lines limit)
        false bytes salvager.old before start (W.contents out.old)
        → IfOk result (λ w. Passed (manner (E.rule salvage.now.each) salvage.now.lines limit)
        ended (bytes ++ piece.now) salvager.new w.fault w.whole start (W.contents out.new)) }
{
    let Ok(()) = salvager.feed(piece) else {
        return Ok(PartsWritten {
            fault: before,
            whole: false,
        });
    };
    write_parts(salvage, salvager, ended, before, out)
}

/// What there is between two pieces.
#[derive(Drop)]
struct Between {
    salvager: Salvager,
    /// True if something is at fault in what was written.
    fault: bool,
    /// The text that waits for the writer.
    text: Vec<u8>,
}

/// A piece whose parts are to be written. If `ended` is true, no more bytes follow it.
#[derive(Drop)]
struct Job<'a, E> {
    salvage: &'a Salvage<E>,
    before: Between,
    piece: &'a [u8],
    ended: bool,
}

/// Like `pass_piece`, but takes the writer by value and returns it.
fn pass_through<E: EachDocument, W: Write>(
    writer: W,
    job: Job<'_, E>,
) -> (W, (Between, io::Result<bool>))
    ensures { (limit : ℕ) (bytes : List ℕ) (start : Option (List ℕ)) → Wrote
        (manner (E.rule job.entry.salvage.now.each) job.entry.salvage.now.lines limit)
        false bytes job.entry.before.salvager job.entry.before.fault start
        (append_known (W.contents writer) job.entry.before.text.items)
        → IfOk result.1.1 (λ whole. Passed
        (manner (E.rule job.entry.salvage.now.each) job.entry.salvage.now.lines limit)
        job.entry.ended (bytes ++ job.entry.piece.now)
        result.1.0.salvager result.1.0.fault whole start
        (append_known (W.contents result.0) result.1.0.text.items)) }
{
    let Job {
        salvage,
        before,
        piece,
        ended,
    } = job;
    let Between {
        mut salvager,
        fault,
        text,
    } = before;
    let mut out = Buffered::new(writer, text);
    let written = feed_parts(salvage, &mut salvager, piece, ended, fault, &mut out);
    let (writer, text) = out.into_parts();
    let (fault, whole) = match written {
        Ok(PartsWritten { fault, whole }) => (fault, Ok(whole)),
        Err(error) => (fault, Err(error)),
    };
    let after = Between {
        salvager,
        fault,
        text,
    };
    (writer, (after, whole))
}

/// Writes the texts of the parts that `piece` decides, behind the text that waits for the writer.
/// If `ended` is true, no more bytes follow. Returns false if memory ran out. Errs if the writer
/// does.
fn pass_piece<E: EachDocument, W: Write>(
    salvage: &Salvage<E>,
    before: Between,
    piece: &[u8],
    ended: bool,
    writer: &mut W,
) -> (Between, io::Result<bool>)
    ensures { (limit : ℕ) (bytes : List ℕ) (start : Option (List ℕ))
        → Wrote (manner (E.rule salvage.now.each) salvage.now.lines limit)
        false bytes before.salvager before.fault start
        (append_known (W.contents writer.old) before.text.items)
        → IfOk result.1 (λ whole. Passed
        (manner (E.rule salvage.now.each) salvage.now.lines limit) ended (bytes ++ piece.now)
        result.0.salvager result.0.fault whole start
        (append_known (W.contents writer.new) result.0.text.items)) }
{
    let job = Job {
        salvage,
        before,
        piece,
        ended,
    };
    replace_with(writer, job, pass_through)
}

/// Returns how a run ends whose input ended, and whose parts were written as `whole` and `fault`
/// say.
fn end_of_parts(whole: bool, fault: bool) -> RunEnd
    ensures { result ≡ end_of_parts whole fault }
{
    if !whole {
        RunEnd::OutOfMemory
    } else if fault {
        RunEnd::Fault
    } else {
        RunEnd::Good
    }
}

/// Writes the texts of the parts of the input, behind the `text` that waits for the writer. `room`
/// takes a piece. Returns how the run ends, and what there is then. Errs if the writer does.
fn write_input<E: EachDocument, R: Read, W: Write>(
    salvage: &Salvage<E>,
    reader: &mut R,
    room: &mut [u8],
    mut between: Between,
    writer: &mut W,
) -> io::Result<(RunEnd, Between)>
    requires { 0 < length room.old }
    ensures { (limit : ℕ) (start : Option (List ℕ)) → IsSettled false between.salvager
        → Wrote (manner (E.rule salvage.now.each) salvage.now.lines limit)
        false [] between.salvager between.fault start
        (append_known (W.contents writer.old) between.text.items)
        → IfOk result (λ r. SalvageEnds
        (manner (E.rule salvage.now.each) salvage.now.lines limit) r.0
        (R.remaining reader.old) (R.remaining reader.new) start
        (append_known (W.contents writer.new) r.1.text.items)) }
{
    let mut so_far = 0;
    for _ in 0..u64::MAX {
        let n = match read_piece(so_far, reader, room) {
            Ok(Some(n)) => n,
            Ok(None) => {
                let (after, whole) = pass_piece(salvage, between, &[], true, writer);
                return Ok((end_of_parts(whole?, after.fault), after));
            }
            Err(end) => return Ok((end, between)),
        };
        so_far = so_far.saturating_add(n);
        let (after, whole) = pass_piece(salvage, between, &room[..n], false, writer);
        between = after;
        if !whole? {
            return Ok((RunEnd::OutOfMemory, between));
        }
    }
    Err(io::Error::from(ErrorKind::Interrupted))
}

/// Passes on the text that waits for the writer. Returns the writer, and how the run ends, which is
/// `last.0` unless the writer fails.
fn finish<W: Write>(writer: W, last: (RunEnd, Between)) -> (W, RunEnd)
    ensures { (result.1 ≡ RunEnd.InOut) ⊎ ((result.1 ≡ last.0)
        × Keeps (append_known (W.contents writer) last.1.text.items) (W.contents result.0)) }
{
    let (end, between) = last;
    let Between {
        salvager: _,
        fault: _,
        text,
    } = between;
    let mut out = Buffered::new(writer, text);
    let flushed = out.flush();
    let writer = out.into_inner();
    match flushed {
        Ok(()) => (writer, end),
        Err(_) => (writer, RunEnd::InOut),
    }
}

/// Writes what a command makes of the documents in an input of which some bytes are damaged. A
/// document has at most `limit` bytes. If `lines` is true, the lines of each gap are written too.
///
/// Beside what the command takes, the memory is one piece and one buffer of text, taken before the
/// first byte is read, and what the salvager takes.
pub fn run_salvage<E: EachDocument + Drop, R: Read, W: Write>(
    alloc: Global,
    each: E,
    lines: bool,
    limit: u32,
    reader: &mut R,
    writer: &mut W,
) -> RunEnd
    requires { limit < 2 ^ 31 }
    ensures read { is_done result ≡ true → IsAtEnd (R.remaining reader.new) }
    ensures written { IfSome (R.remaining reader.old) (λ input. is_done result ≡ true →
        AppendsText (SalvageText (E.rule each) lines limit input) (is_fault result)
        (W.contents writer.old) (W.contents writer.new)) }
    ensures unread { result ≡ RunEnd.Unread
        → WritesRead (SalvagedSoFar (E.rule each) lines limit)
        (R.remaining reader.old) (R.remaining reader.new)
        (W.contents writer.old) (W.contents writer.new) }
    ensures memory { result ≡ RunEnd.OutOfMemory → IfSome (R.remaining reader.old) (λ input.
        AppendsOne (FirstSalvaged (E.rule each) lines limit input)
        (W.contents writer.old) (W.contents writer.new)) }
{
    let salvage = Salvage { each, lines };
    let Ok(text) = Vec::with_capacity(alloc, BUFFER) else {
        return RunEnd::OutOfMemory;
    };
    let mut room = Vec::new(alloc);
    let Ok(()) = room.resize(PIECE, 0) else {
        return RunEnd::OutOfMemory;
    };
    let between = Between {
        salvager: Salvager::new(alloc, limit),
        fault: false,
        text,
    };
    let Ok(last) = write_input(&salvage, reader, room.as_mut_slice(), between, writer) else {
        return RunEnd::InOut;
    };
    replace_with(writer, last, finish)
}
