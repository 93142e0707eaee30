//! Appends records of the messages that pass to a file.

ghost use Rattle.std.specs.Prelude.{◌≡◌, ◌+◌, ◌<◌, ◌≤◌, [], IfOk, IsSomeAnd, OnOk, Some};
ghost use Rattle.std.specs.Prelude.{false, is_none};
ghost use Rattle.std.specs.Int.{IsNonNegative};
ghost use Rattle.std.specs.Io.KnownBytes.{Keeps};
ghost use Rattle.wire_frames.specs.{frame_bytes, signature};
ghost use Rattle.proxy.specs.Recording.{IsRecorded, log_of, recorded};

use crate::direction::Direction;
use crate::record_buf::{RecordBuf, recorded_number};
use std::alloc::Global;
use std::fs::File;
use std::io;
use std::io::Write;
use std::rt::Files;
use std::time::{Clock, SystemTime, UNIX_EPOCH};
use wire_frames::{RawFrame, RecordHead};

/// How many bytes of records wait at the least before the file is written.
const ROOM: usize = 65_536;

/// Returns the direction as a record has it.
fn recorded_direction(direction: Direction) -> wire_frames::Direction
    ensures { result ≡ recorded direction }
{
    match direction {
        Direction::There => wire_frames::Direction::ToServer,
        Direction::Back => wire_frames::Direction::FromServer,
    }
}

/// Returns the microseconds since 1970, or 0 before it.
fn micros_now(clock: &impl Clock) -> io::Result<i64>
    ensures { IfOk result IsNonNegative }
{
    let Ok(since) = SystemTime::now(clock)?.duration_since(UNIX_EPOCH) else {
        return Ok(0);
    };
    let micros = since
        .as_secs()
        .saturating_mul(1_000_000)
        .saturating_add(u64::from(since.subsec_micros()));
    Ok(i64::try_from(micros).unwrap_or(i64::MAX))
}

/// A file of records, to which one is appended for each message.
#[derive(Drop)]
pub struct Recorder<'r, R: Files + Clock> {
    rt: &'r R,
    file: R::File,
    /// The records that weren't written to the file yet.
    waiting: RecordBuf,
    /// The file couldn't be written.
    failed: bool,
}

impl<'r, R: Files + Clock> Recorder<'r, R> {
    /// Creates the file, or empties it. It is to have at most `limit` bytes.
    ///
    /// # Errors
    ///
    /// Returns an error if the file can't be created, or memory runs out.
    pub fn create(rt: &'r R, alloc: Global, path: &str, limit: u64) -> io::Result<Recorder<'r, R>>
        ensures signed { 8 ≤ limit → IfOk result (λ r. (r.waiting.bytes.items ≡ signature)
            × IsSomeAnd r.waiting.left (λ left. left + 8 ≡ limit)) }
        ensures small { limit < 8 → IfOk result (λ r. (r.waiting.bytes.items ≡ [])
            × (r.waiting.left ≡ Some 0)) }
        ensures works { IfOk result (λ r. r.failed ≡ false) }
    {
        let file = File::create(rt, path)?;
        let waiting = RecordBuf::begin(alloc, limit)?;
        Ok(Recorder {
            rt,
            file,
            waiting,
            failed: false,
        })
    }

    /// Returns true if a record didn't fit, so that none is appended any more.
    pub fn is_full(&self) -> bool
        ensures { result ≡ is_none self.now.waiting.left }
    {
        self.waiting.left.is_none()
    }

    /// Appends the record of a message that goes this way on the connection of this number. The
    /// first one that doesn't fit ends the file. Returns true if this is that one.
    ///
    /// # Errors
    ///
    /// Returns an error if the file can't be written, the clock can't be read, or memory runs out.
    pub fn put(
        &mut self,
        number: u64,
        direction: Direction,
        frame: RawFrame<'_>,
    ) -> io::Result<bool>
        ensures { IfOk result (λ ends. IsRecorded
            (log_of (R.File.contents self.old.file) self.old.waiting.bytes.items)
            (log_of (R.File.contents self.new.file) self.new.waiting.bytes.items)
            self.old.waiting.left self.new.waiting.left number direction
            (frame_bytes frame.entry) ends) }
    {
        if self.is_full() {
            return Ok(false);
        }
        let head = RecordHead {
            micros: micros_now(self.rt)?,
            connection: recorded_number(number),
            direction: recorded_direction(direction),
        };
        let fits = self.waiting.put(head, frame)?;
        if self.waiting.bytes.len() >= ROOM {
            self.flush()?;
        }
        Ok(!fits)
    }

    /// Writes the records that wait to the file. If that fails, they are let go, so that none is
    /// written twice.
    ///
    /// # Errors
    ///
    /// Returns an error if the file can't be written.
    pub fn flush(&mut self) -> io::Result<()>
        ensures written { OnOk result (Keeps
            (log_of (R.File.contents self.old.file) self.old.waiting.bytes.items)
            (log_of (R.File.contents self.new.file) self.new.waiting.bytes.items)) }
        ensures none_waits { self.new.waiting.bytes.items ≡ [] }
        ensures left { self.new.waiting.left ≡ self.old.waiting.left }
    {
        if self.waiting.bytes.is_empty() {
            return Ok(());
        }
        let written = self.file.write_all(&self.waiting.bytes);
        self.waiting.bytes.clear();
        self.failed = written.is_err();
        written
    }

    /// Returns true if the file couldn't be written the last time.
    pub(crate) fn has_failed(&self) -> bool
        ensures { result ≡ self.now.failed }
    {
        self.failed
    }
}
