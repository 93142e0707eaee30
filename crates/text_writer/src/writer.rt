//! Puts a small buffer in front of a writer, and keeps the first error.

ghost use Rattle.std.specs.Prelude.{◌≡◌, [], Ok, OnErr, OnOk};
ghost use Rattle.std.specs.Io.KnownBytes.{Keeps};
ghost use Rattle.text_writer.specs.Writing.{WritesOut};
ghost use Rattle.text_writer.specs.Contents.{HasFailed, ReturnsKept, text_contents};

use arrayvec::ArrayVec;
use std::io;
use std::io::{ErrorKind, Write};

/// The most bytes that wait for the writer.
const BUFFER: usize = 256;

/// Tells that the writer failed. Its error is in the `TextWriter`.
#[derive(Clone, Copy, Debug, PartialEq, Eq)]
pub struct Failed;

/// A writer, and a few bytes that wait for it.
///
/// A text has many short parts, and an `io::Result` has 96 bytes, which each part would clear and
/// pass on. So each part returns one byte, and the error of the writer is kept until `finish`.
pub struct TextWriter<W> {
    out: W,
    text: ArrayVec<u8, BUFFER>,
    error: Option<io::Error>,
}

#[tactic(auto, unfolding(crate::specs::Contents::text_contents))]
impl<W: Write> TextWriter<W> {
    /// Makes a `TextWriter` over `out`, with nothing waiting.
    pub fn new(out: W) -> TextWriter<W>
        ensures { Keeps (W.contents out) (text_contents W.contents result) }
    {
        TextWriter {
            out,
            text: ArrayVec::new(),
            error: None,
        }
    }

    /// Writes all of `bytes`. If that fails, the writer's error is kept.
    #[inline(always)]
    pub fn write_all(&mut self, bytes: &[u8]) -> Result<(), Failed>
        ensures bytes { OnOk result
            (WritesOut (text_contents W.contents) self.old self.new bytes.now) }
        ensures kept { OnErr result (HasFailed self.new) }
    {
        match self.text.try_extend_from_slice(bytes) {
            Ok(()) => Ok(()),
            Err(_) => self.write_all_past(bytes),
        }
    }

    /// Writes bytes for which the buffer has no room. Not inlined, so that the test for room can
    /// be.
    #[cold]
    #[inline(never)]
    fn write_all_past(&mut self, bytes: &[u8]) -> Result<(), Failed>
        ensures bytes { OnOk result
            (WritesOut (text_contents W.contents) self.old self.new bytes.now) }
        ensures kept { OnErr result (HasFailed self.new) }
    {
        self.pass_on()?;
        match self.text.try_extend_from_slice(bytes) {
            Ok(()) => Ok(()),
            Err(_) => self.write_through(bytes),
        }
    }

    /// Writes the waiting bytes to the writer.
    fn pass_on(&mut self) -> Result<(), Failed>
        ensures bytes { OnOk result (Keeps (text_contents W.contents self.old)
            (text_contents W.contents self.new)) }
        ensures empty { OnOk result (self.new.text.items ≡ []) }
        ensures kept { OnErr result (HasFailed self.new) }
    {
        match self.out.write_all(self.text.as_slice()) {
            Ok(()) => {
                self.text.clear();
                Ok(())
            }
            Err(error) => {
                self.error = Some(error);
                Err(Failed)
            }
        }
    }

    /// Writes `bytes` to the writer. No bytes may wait.
    fn write_through(&mut self, bytes: &[u8]) -> Result<(), Failed>
        requires { self.old.text.items ≡ [] }
        ensures bytes { OnOk result
            (WritesOut (text_contents W.contents) self.old self.new bytes.now) }
        ensures kept { OnErr result (HasFailed self.new) }
    {
        match self.out.write_all(bytes) {
            Ok(()) => Ok(()),
            Err(error) => {
                self.error = Some(error);
                Err(Failed)
            }
        }
    }

    /// Writes the waiting bytes if `written`, which says whether all parts were written, is Ok.
    /// Returns the writer, and Ok or the error of this write; or where `written` is an error, the
    /// kept one, or one of the kind `Other` if none is kept.
    #[inline(always)]
    pub fn finish(mut self, written: Result<(), Failed>) -> (W, io::Result<()>)
        ensures whole { OnOk result.1 (written ≡ Ok tt) }
        ensures bytes { OnOk result.1
            (Keeps (text_contents W.contents self) (W.contents result.0)) }
        ensures failed { OnErr written (ReturnsKept self result.1) }
    {
        let ended = match written {
            Ok(()) => self.pass_on(),
            Err(failed) => Err(failed),
        };
        self.into_writer(ended)
    }

    /// Returns the writer, and the kept error if it failed. Inlined, as `finish` is, so that the
    /// buffer isn't moved.
    #[inline(always)]
    fn into_writer(self, ended: Result<(), Failed>) -> (W, io::Result<()>)
        ensures whole { OnOk result.1 (ended ≡ Ok tt) }
        ensures writer { result.0 ≡ self.out }
        ensures failed { OnErr ended (ReturnsKept self result.1) }
    {
        let TextWriter {
            out,
            text: _,
            error,
        } = self;
        match (ended, error) {
            (Ok(()), _) => (out, Ok(())),
            (Err(_), Some(error)) => (out, Err(error)),
            (Err(_), None) => (out, Err(io::Error::from(ErrorKind::Other))),
        }
    }
}
