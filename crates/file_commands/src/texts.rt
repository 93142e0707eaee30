//! Writes the documents of Extended JSON texts that come piece by piece.

ghost use Rattle.std.specs.Prelude.{◌≡◌, ◌≢◌, ◌+◌, ◌<◌, ◌≤◌, ◌^◌, Err, IfErr, IfOk, List, OnOk};
ghost use Rattle.std.specs.Prelude.{Option, false, length, ℕ};
ghost use Rattle.std.specs.Io.KnownBytes.{Appends};
ghost use Rattle.command_run.specs.{is_done};
ghost use Rattle.file_commands.specs.TextPieces.{HaveRead, IsBegun, IsPassed};

use crate::bson::TextStop;
use bson_json_read::{Cause, NextBytes, TextReader};
use command_run::RunEnd;
use std::alloc::Global;
use std::io::Write;

/// The texts that came and weren't read yet.
#[derive(Drop)]
pub struct Texts {
    pub reader: TextReader,
    /// How many documents were written.
    pub count: usize,
    /// Room for the bytes of a document.
    pub bytes: Vec<u8>,
}

/// What became of the texts that came.
#[derive(Clone, Copy)]
pub enum Passed {
    /// All that are whole were read, and more may follow.
    Wanted,
    /// No more documents are written, for this reason, or since the input ends.
    Over(Option<TextStop>),
}

/// Writes the bytes of a document.
fn write_bytes<W: Write>(bytes: &[u8], out: &mut W) -> Result<(), RunEnd>
    ensures written { OnOk result
        (Appends (W.contents out.old) (W.contents out.new) bytes.now) }
    ensures cut { IfErr result (λ end. end ≡ RunEnd.InOut) }
{
    match out.write_all(bytes) {
        Ok(()) => Ok(()),
        Err(_) => Err(RunEnd::InOut),
    }
}

impl Texts {
    /// Begins before all texts.
    pub fn new(alloc: Global) -> Texts
        ensures { IsBegun result.count result.reader }
    {
        Texts {
            reader: TextReader::new(alloc),
            count: 0,
            bytes: Vec::new(alloc),
        }
    }

    /// Writes the documents of the texts that are whole, up to the first one at fault. `last` says
    /// that nothing follows what came.
    pub fn write_documents<W: Write>(
        &mut self,
        alloc: Global,
        last: bool,
        out: &mut W,
    ) -> Result<Passed, RunEnd>
        requires { self.old.count + length self.old.reader.bytes < 2 ^ 64 }
        ensures fewer { self.new.count + length self.new.reader.bytes
            ≤ self.old.count + length self.old.reader.bytes }
        ensures ok { (read : List ℕ) (start : Option (List ℕ))
            → HaveRead last read self.old.count self.old.reader start (W.contents out.old)
            → IfOk result (λ passed. IsPassed last read passed self.new.count self.new.reader
            start (W.contents out.new)) }
        ensures memory { (read : List ℕ) (start : Option (List ℕ))
            → HaveRead last read self.old.count self.old.reader start (W.contents out.old)
            → result ≡ Err RunEnd.OutOfMemory
            → HaveRead last read self.new.count self.new.reader start (W.contents out.new) }
        ensures cut { IfErr result (λ end. is_done end ≡ false) }
        ensures unread { result ≢ Err RunEnd.Unread }
    {
        loop {
            match self.reader.next_bytes(alloc, last, &mut self.bytes) {
                Ok(Some(NextBytes::Document)) => {}
                Ok(Some(NextBytes::AtEnd)) => return Ok(Passed::Over(None)),
                Ok(Some(NextBytes::Refused(refusal))) => {
                    let number = self.count + 1;
                    return Ok(Passed::Over(Some(TextStop::Refused { refusal, number })));
                }
                Ok(None) => return Ok(Passed::Wanted),
                Err(fault) => match fault.cause {
                    Cause::OutOfMemory => return Err(RunEnd::OutOfMemory),
                    _ => return Ok(Passed::Over(Some(TextStop::Fault(fault)))),
                },
            }
            write_bytes(&self.bytes, out)?;
            self.count += 1;
        }
    }
}
