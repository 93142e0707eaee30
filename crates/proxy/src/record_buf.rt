//! The records that wait to be written to their file, and how many more bytes that may have.

ghost use Rattle.std.specs.Prelude.{◌≡◌, ◌+◌, ◌++◌, ◌<◌, ◌≤◌, [], IfOk, IfSome, MatchBool, OnErr};
ghost use Rattle.std.specs.Prelude.{IsSomeAnd, None, Some, false, length, true};
ghost use Rattle.wire_frames.specs.{frame_bytes};
ghost use Rattle.wire_frames.specs.{IsConnection, record_of, signature};

use std::alloc::{AllocError, Global};
use wire_frames::{HEAD_LEN, RawFrame, RecordHead, SIGNATURE, write_record};

/// The greatest number of a connection that a record has.
const LAST: u64 = i64::MAX as u64;

/// Returns the number by which a record has a connection: its own, if a record can have that.
pub fn recorded_number(number: u64) -> u64
    ensures in_range { IsConnection result }
    ensures own { IsConnection number → result ≡ number }
{
    if number < 1 {
        1
    } else if number > LAST {
        LAST
    } else {
        number
    }
}

/// Records that weren't written to their file yet, and how many more bytes that may have.
#[derive(Drop)]
pub struct RecordBuf {
    pub bytes: Vec<u8>,
    /// How many more bytes the file may have, or `None` once a record didn't fit.
    pub left: Option<u64>,
}

impl RecordBuf {
    /// Begins a file that may have `limit` bytes, with the signature, if that fits.
    ///
    /// # Errors
    ///
    /// Returns `AllocError` if memory runs out.
    pub fn begin(alloc: Global, limit: u64) -> Result<RecordBuf, AllocError>
        ensures signed { 8 ≤ limit → IfOk result (λ b. (b.bytes.items ≡ signature)
            × IsSomeAnd b.left (λ left. left + 8 ≡ limit)) }
        ensures small { limit < 8 → IfOk result (λ b. (b.bytes.items ≡ []) × (b.left ≡ Some 0)) }
    {
        let mut bytes = Vec::new(alloc);
        let signed = SIGNATURE.len() as u64;
        if limit < signed {
            return Ok(RecordBuf {
                bytes,
                left: Some(0),
            });
        }
        bytes.extend_from_slice(&SIGNATURE)?;
        Ok(RecordBuf {
            bytes,
            left: Some(limit - signed),
        })
    }

    /// Appends the record of a message if it fits. If it doesn't, none behind it does. Returns true
    /// if it fits.
    ///
    /// # Errors
    ///
    /// Returns `AllocError` if memory runs out. Then nothing changes.
    pub fn put(&mut self, head: RecordHead, frame: RawFrame<'_>) -> Result<bool, AllocError>
        requires { IsConnection head.connection }
        ensures put { IfOk result (λ fits. MatchBool fits
            (self.new.bytes.items
            ≡ self.old.bytes.items ++ record_of head (frame_bytes frame.entry))
            ((self.new.bytes.items ≡ self.old.bytes.items) × (self.new.left ≡ None))) }
        ensures room { IfOk result (λ fits. fits ≡ true → IfSome self.old.left (λ before.
            IsSomeAnd self.new.left (λ after.
            after + length (record_of head (frame_bytes frame.entry)) ≡ before))) }
        ensures full { self.old.left ≡ None → IfOk result (λ fits. fits ≡ false) }
        ensures short { IfOk result (λ fits. fits ≡ false → IfSome self.old.left (λ before.
            before < length (record_of head (frame_bytes frame.entry)))) }
        ensures unchanged { OnErr result ((self.new.bytes.items ≡ self.old.bytes.items)
            × (self.new.left ≡ self.old.left)) }
    {
        let Some(left) = self.left else {
            return Ok(false);
        };
        let size = HEAD_LEN + frame.as_bytes().len();
        let Some(after) = left.checked_sub(size as u64) else {
            self.left = None;
            return Ok(false);
        };
        write_record(head, frame, &mut self.bytes)?;
        self.left = Some(after);
        Ok(true)
    }
}
