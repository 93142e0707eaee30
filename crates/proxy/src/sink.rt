//! What the messages that pass are given to: some show them, and some record them.

ghost use Rattle.std.specs.Prelude.{◌≡◌, [], Bool, IfOk, IfSome, IsOk, IsSomeAnd, MatchOption};
ghost use Rattle.std.specs.Prelude.{OnOk, false, if◌then◌else◌, is_none, is_some, not, true};
ghost use Rattle.std.specs.Io.KnownBytes.{Appends, Keeps};
ghost use Rattle.bson_json.specs.{WritesOne};
ghost use Rattle.wire_frames.specs.{frame_bytes};
ghost use Rattle.proxy.specs.Recording.{IsRecorded, log_of};
ghost use Rattle.proxy.specs.Shown.{IsFullLine, IsWritten};
ghost use Rattle.proxy.specs.Told.{fault_line, shows};

use crate::direction::Direction;
use crate::fault::ProxyFault;
use crate::message::{write_json_line, write_message};
use crate::options::{Options, Show};
use crate::recorder::Recorder;
use std::alloc::Global;
use std::io;
use std::io::Write;
use std::rt::Files;
use std::time::Clock;
use wire_frames::RawFrame;
use wire_msg::MsgFault;

/// How messages are shown, and the file of records, if they are recorded.
#[derive(Drop)]
pub struct Sink<'r, R: Files + Clock> {
    alloc: Global,
    show: Show,
    recorder: Option<Recorder<'r, R>>,
}

impl<'r, R: Files + Clock> Sink<'r, R> {
    /// Makes what the options ask for. Creates the file of records, if they name one.
    ///
    /// # Errors
    ///
    /// Returns an error if the file can't be created, or memory runs out.
    pub fn new(rt: &'r R, alloc: Global, options: Options<'_>) -> io::Result<Sink<'r, R>>
        ensures show { IfOk result (λ s. s.show ≡ options.entry.show) }
        ensures recorder { IfOk result (λ s.
            is_some s.recorder ≡ is_some options.entry.record) }
        ensures unlost { IfOk result (λ s. IfSome s.recorder (λ r. r.failed ≡ false)) }
    {
        let recorder = match options.record {
            Some(path) => Some(Recorder::create(rt, alloc, path, options.limit)?),
            None => None,
        };
        Ok(Sink {
            alloc,
            show: options.show,
            recorder,
        })
    }

    /// Returns true if messages are shown, or the file of records has room.
    pub fn wants_messages(&self) -> bool
        ensures shown { shows self.now.show ≡ true → result ≡ true }
        ensures hidden { shows self.now.show ≡ false → MatchOption self.now.recorder
            (result ≡ false) (λ r. result ≡ not (is_none r.waiting.left)) }
    {
        if self.show.shows() {
            return true;
        }
        match &self.recorder {
            Some(recorder) => !recorder.is_full(),
            None => false,
        }
    }

    /// Records a message, if messages are recorded. Tells the first one that doesn't fit.
    fn record<W: Write>(
        &mut self,
        number: u64,
        direction: Direction,
        frame: RawFrame<'_>,
        out: &mut W,
    ) -> io::Result<()>
        ensures recorded { OnOk result (IfSome self.old.recorder (λ old.
            IsSomeAnd self.new.recorder (λ new. (ends : Bool) × IsRecorded
            (log_of (R.File.contents old.file) old.waiting.bytes.items)
            (log_of (R.File.contents new.file) new.waiting.bytes.items)
            old.waiting.left new.waiting.left number direction (frame_bytes frame.entry) ends))) }
        ensures told { OnOk result (WritesOne W.contents out.old out.new IsFullLine) }
        ensures show { self.new.show ≡ self.old.show }
    {
        let Some(recorder) = &mut self.recorder else {
            return Ok(());
        };
        if recorder.put(number, direction, frame)? {
            out.write_all(b"record full\n")
        } else {
            Ok(())
        }
    }

    /// Records and shows a message that goes this way on the connection of this number, as far as
    /// the options ask for that.
    ///
    /// # Errors
    ///
    /// Returns an error if the file or `out` can't be written, the clock can't be read, or memory
    /// runs out.
    pub fn put<W: Write>(
        &mut self,
        number: u64,
        direction: Direction,
        frame: RawFrame<'_>,
        out: &mut W,
    ) -> io::Result<()>
        ensures recorded { OnOk result (IfSome self.old.recorder (λ old.
            IsSomeAnd self.new.recorder (λ new. (ends : Bool) × IsRecorded
            (log_of (R.File.contents old.file) old.waiting.bytes.items)
            (log_of (R.File.contents new.file) new.waiting.bytes.items)
            old.waiting.left new.waiting.left number direction (frame_bytes frame.entry) ends))) }
        ensures written { OnOk result (WritesOne W.contents out.old out.new
            (IsWritten self.old.show number direction (frame_bytes frame.entry))) }
        ensures show { self.new.show ≡ self.old.show }
    {
        self.record(number, direction, frame, out)?;
        match self.show {
            Show::Nothing => Ok(()),
            Show::Text => write_message(self.alloc, number, direction, frame, out),
            Show::Json => write_json_line(self.alloc, number, direction, frame, out),
        }
    }

    /// Shows the fault of bytes that no message begins with, if messages are shown.
    ///
    /// # Errors
    ///
    /// Returns an error if `out` can't be written.
    pub fn put_fault<W: Write>(
        &self,
        number: u64,
        direction: Direction,
        fault: MsgFault,
        out: &mut W,
    ) -> io::Result<()>
        ensures hidden { shows self.now.show ≡ false → IsOk result × (out.new ≡ out.old) }
        ensures shown { shows self.now.show ≡ true → OnOk result (Appends
            (W.contents out.old) (W.contents out.new) (fault_line number direction fault)) }
    {
        match self.show {
            Show::Nothing => Ok(()),
            Show::Text | Show::Json => writeln!(out, "{number} {} {fault}", direction.sign()),
        }
    }

    /// Returns why a proxy ends that met this error: the file of records, if that couldn't be written.
    pub fn fault_of(&self, error: io::Error) -> ProxyFault
        ensures { MatchOption self.now.recorder (result ≡ ProxyFault.Io error)
            (λ r. result ≡ (if r.failed then ProxyFault.RecordFile error
            else ProxyFault.Io error)) }
    {
        match &self.recorder {
            Some(recorder) => {
                if recorder.has_failed() {
                    ProxyFault::RecordFile(error)
                } else {
                    ProxyFault::Io(error)
                }
            }
            None => ProxyFault::Io(error),
        }
    }

    /// Writes the records that wait to their file.
    ///
    /// # Errors
    ///
    /// Returns an error if the file can't be written.
    pub fn flush(&mut self) -> io::Result<()>
        ensures written { OnOk result (IfSome self.old.recorder (λ old.
            IsSomeAnd self.new.recorder (λ new. Keeps
            (log_of (R.File.contents old.file) old.waiting.bytes.items)
            (log_of (R.File.contents new.file) new.waiting.bytes.items)))) }
        ensures none_waits { IfSome self.new.recorder (λ r. r.waiting.bytes.items ≡ []) }
        ensures show { self.new.show ≡ self.old.show }
    {
        match &mut self.recorder {
            Some(recorder) => recorder.flush(),
            None => Ok(()),
        }
    }
}
