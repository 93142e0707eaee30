//! Records out of an input, behind the signature of their file, and the text of each.

ghost use Rattle.std.specs.Prelude.{◌≡◌, ◌+◌, IfOk};
ghost use Rattle.file_commands.specs.InputFault.{input_fault_line, record_line};
ghost use Rattle.file_commands.specs.ItemWalk.{GoesOverItems};
ghost use Rattle.file_commands.specs.RecordWalk.{file_reading, record_tells};
ghost use Rattle.file_commands.specs.Records.{IsOpenRecord, records_of};
ghost use Rattle.file_commands.specs.Walk.{Tells};

use crate::input_fault::InputFault;
use crate::record_text::{FIRST_RECORD, RecordForm, record_closing, write_record};
use crate::walk::{Stop, Walk};
use std::alloc::Global;
use std::io;
use std::io::Write;
use wire_frames::{RecordFault, RecordFront, RecordReader};
use wire_msg::MAX_MESSAGE_LEN;

/// Reads the records of a file, behind its signature.
#[derive(Drop)]
pub struct FileReader {
    /// Looks the names of messages up.
    alloc: Global,
    /// Holds the record that isn't whole yet.
    records: RecordReader,
    /// The offset at which it begins, counted from the signature's first byte.
    start: usize,
}

/// Returns the stop at a record that begins at offset `start` and has this fault. No offset above
/// 2 ^ 64 - 1 is told: an input of so many bytes isn't read to its end.
fn stop_at(start: usize, fault: RecordFault) -> Stop
    ensures { (f : InputFault) → result ≡ Stop.Fault f
        → input_fault_line f ≡ record_line (start + fault.at) fault.cause }
{
    let Some(at) = start.checked_add(fault.at) else {
        return Stop::OutOfMemory;
    };
    let cause = fault.cause;
    Stop::Fault(InputFault::Record(RecordFault { at, cause }))
}

/// Feeds `piece` to `reader`, and writes the text of each record that becomes whole. Returns why no
/// more records are read, if none are: then the reader stands where that is. Errs if the writer
/// does.
fn write_each<W: Write>(
    form: RecordForm,
    reader: &mut FileReader,
    piece: &[u8],
    out: &mut W,
) -> io::Result<Option<Stop>>
    requires { IsOpenRecord reader.old.records.limit reader.old.records.held }
    ensures { IfOk result (λ stop. GoesOverItems (records_of form) (file_reading reader.old)
        piece.now (file_reading reader.new) stop (W.contents out.old) (W.contents out.new)) }
{
    let mut rest = piece;
    loop {
        let Ok(taken) = reader.records.feed(rest) else {
            return Ok(Some(Stop::OutOfMemory));
        };
        rest = &rest[taken..];
        match reader.records.front() {
            RecordFront::Open { .. } => {
                if rest.is_empty() {
                    return Ok(None);
                }
            }
            RecordFront::Bad(fault) => return Ok(Some(stop_at(reader.start, fault))),
            RecordFront::Whole { record: one, .. } => {
                let Some(behind) = reader.start.checked_add(one.as_bytes().len()) else {
                    return Ok(Some(Stop::OutOfMemory));
                };
                write_record(reader.alloc, form, one, reader.start, out)?;
                reader.records.release();
                reader.start = behind;
            }
        }
    }
}

/// The records of a file, which are written in this form.
#[derive(Drop)]
pub struct Records {
    pub form: RecordForm,
}

impl Walk for Records {
    type Reader = FileReader;

    ghost tells = { λ r. record_tells r.form };

    fn start(&self, alloc: Global) -> FileReader {
        let records = RecordReader::new(alloc, MAX_MESSAGE_LEN);
        FileReader {
            alloc,
            records,
            start: FIRST_RECORD,
        }
    }

    fn write_piece<W: Write>(
        &self,
        reader: &mut FileReader,
        piece: &[u8],
        out: &mut W,
    ) -> io::Result<Option<Stop>> {
        write_each(self.form, reader, piece, out)
    }

    fn fault_at_end(&self, reader: &FileReader) -> Option<InputFault> {
        if reader.records.held() == 0 {
            return None;
        }
        let offset = reader.start;
        Some(InputFault::EndedInside { offset })
    }

    fn write_closing<W: Write>(&self, reader: &FileReader, out: &mut W) -> io::Result<()> {
        let any = reader.start > FIRST_RECORD;
        out.write_all(record_closing(self.form, any).as_bytes())
    }
}
