//! Reads the records of a file, one at a time.

ghost use Rattle.std.specs.Prelude.{◌≡◌, ◌⊎◌, ◌++◌, [], IfOk, IfSome, IsSome, List, Ok, true};
ghost use Rattle.std.specs.Prelude.{None, OnOk, false, length, option_to_list, ℕ};
ghost use Rattle.std.specs.Io.KnownBytes.{Consumes, IsAtEnd};
ghost use Rattle.wire_frames.specs.{IsWholeRecord, record_bytes};
ghost use Rattle.replay.specs.Paces.{plus};
ghost use Rattle.replay.specs.Reading.{BeginsSo, EndsSo, end_fault, fault_of_record};

use crate::input_fault::InputFault;
use crate::piece::Piece;
use std::alloc::Global;
use std::io;
use std::io::{ErrorKind, Read};
use wire_frames::{RawRecord, RecordFault, RecordFront, RecordReader, SIGNATURE};
use wire_msg::MAX_MESSAGE_LEN;

/// The records of a file, of which one is held.
#[derive(Drop)]
pub struct Records<R: Read + Drop> {
    reader: R,
    piece: Piece,
    reading: RecordReader,
    /// The offset in the file of the record that is held.
    offset: u64,
    /// Why there are no more records, if the file isn't one of records from there on.
    fault: Option<InputFault>,
}

/// Returns the fault of a file in which a record at `offset` has this fault.
fn fault_of_record(offset: u64, fault: RecordFault) -> InputFault
    ensures { result ≡ fault_of_record offset fault }
{
    InputFault::Record {
        offset: offset.saturating_add(fault.at as u64),
        cause: fault.cause,
    }
}

/// Returns the fault of a file that ends behind so many bytes of the record at `offset`.
fn end_fault(offset: u64, held: usize) -> Option<InputFault>
    ensures { result ≡ end_fault offset held }
{
    if held == 0 {
        None
    } else {
        Some(InputFault::EndedInside { offset })
    }
}

impl<R: Read + Drop> Records<R> {
    /// Begins to read a file, at its signature.
    ///
    /// # Errors
    ///
    /// Returns an error if reading fails or memory runs out.
    pub fn new(alloc: Global, reader: R) -> io::Result<Records<R>>
        ensures begins { IfOk result (λ records. BeginsSo None records.fault records.offset) }
        ensures held { IfOk result (λ records. records.reading.held ≡ []) }
    {
        let piece = Piece::new(alloc)?;
        let mut records = Records {
            reader,
            piece,
            reading: RecordReader::new(alloc, MAX_MESSAGE_LEN),
            offset: 0,
            fault: None,
        };
        records.read_signature()?;
        Ok(records)
    }

    /// Reads the first byte that is held, if the file goes on.
    fn next_byte(&mut self) -> io::Result<Option<u8>>
        ensures read { IfOk result (λ byte. (more : List ℕ)
            × Consumes (R.remaining self.old.reader) (R.remaining self.new.reader) more
            × (self.old.piece ++ more ≡ option_to_list byte ++ self.new.piece)) }
        ensures others { self.new ≡ record self.old {
          reader = self.new.reader;
          piece = self.new.piece;
        } }
    {
        if !self.piece.fill(&mut self.reader)? {
            return Ok(None);
        }
        let byte = self.piece.bytes().first().copied();
        self.piece.used(1);
        Ok(byte)
    }

    /// Reads the signature.
    fn read_signature(&mut self) -> io::Result<()>
        ensures begins { OnOk result
            (BeginsSo self.old.fault self.new.fault self.new.offset) }
        ensures reading { OnOk result (self.new.reading ≡ self.old.reading) }
    {
        for i in 0..SIGNATURE.len() {
            if self.next_byte()? != Some(SIGNATURE[i]) {
                self.fault = Some(InputFault::Signature);
                return Ok(());
            }
        }
        self.offset = SIGNATURE.len() as u64;
        Ok(())
    }

    /// Returns why the file isn't one of records from where its reading ended, if that was not at
    /// its end.
    pub fn fault(&self) -> Option<InputFault>
        ensures { result ≡ self.now.fault }
    {
        self.fault
    }

    /// Returns the record that is held, if one is whole.
    pub fn record(&self) -> Option<RawRecord<'_>>
        ensures { IfSome result (λ r. (rest : List ℕ)
            × IsWholeRecord self.now.reading.limit self.now.reading.held (record_bytes r) rest) }
    {
        match self.reading.front() {
            RecordFront::Whole { record, .. } => Some(record),
            RecordFront::Open { .. } | RecordFront::Bad(_) => None,
        }
    }

    /// Lets go of the record that is held.
    pub fn release(&mut self)
        ensures held { self.new.reading.held ≡ [] }
        ensures offset { self.new.offset ≡ plus self.old.offset (length self.old.reading.held) }
        ensures others { self.new ≡ record self.old {
          reading = self.new.reading;
          offset = self.new.offset;
        } }
    {
        self.offset = self.offset.saturating_add(self.reading.held() as u64);
        self.reading.release();
    }

    /// Reads on until a record is whole. Returns false if there are no more.
    ///
    /// # Errors
    ///
    /// Returns an error if reading fails or memory runs out.
    pub fn read_one(&mut self) -> io::Result<bool>
        ensures bytes { OnOk result ((more : List ℕ)
            × Consumes (R.remaining self.old.reader) (R.remaining self.new.reader) more
            × (self.old.reading.held ++ self.old.piece ++ more
            ≡ self.new.reading.held ++ self.new.piece)) }
        ensures whole { result ≡ Ok true → (one : List ℕ) × (rest : List ℕ)
            × IsWholeRecord self.new.reading.limit self.new.reading.held one rest }
        ensures ended { result ≡ Ok false → (self.new.fault ≡ self.old.fault)
            ⊎ EndsSo self.new.reading.limit self.new.reading.held self.new.offset self.new.fault }
        ensures over { IsSome self.old.fault → result ≡ Ok false }
        ensures offset { OnOk result (self.new.offset ≡ self.old.offset) }
    {
        if self.fault.is_some() {
            return Ok(false);
        }
        for _ in 0..u64::MAX {
            match self.reading.front() {
                RecordFront::Whole { .. } => return Ok(true),
                RecordFront::Bad(fault) => {
                    self.fault = Some(fault_of_record(self.offset, fault));
                    return Ok(false);
                }
                RecordFront::Open { .. } => {}
            }
            if !self.piece.fill(&mut self.reader)? {
                self.fault = end_fault(self.offset, self.reading.held());
                return Ok(false);
            }
            let n = self.reading.feed(self.piece.bytes())?;
            self.piece.used(n);
        }
        Err(io::Error::from(ErrorKind::Interrupted))
    }
}
