//! A writer behind a buffer of a fixed size.

ghost use Rattle.std.specs.Prelude.{◌≡◌, ◌<◌, ◌≤◌, [], IfOk, OnOk, drop, length, min, vec_capacity};
ghost use Rattle.std.specs.Prelude.{vec_len};
ghost use Rattle.std.specs.Io.{WritesAtMost};
ghost use Rattle.std.specs.Io.KnownBytes.{Appends, Keeps, WriteAppends, append_known};
ghost use Rattle.command_run.specs.Buffered.{buffered_contents};

use std::io;
use std::io::{ErrorKind, Write};

/// A writer behind a buffer that never grows.
///
/// `std::io::BufWriter` takes the writer before it has its buffer, and drops it where there is no
/// memory. Here the buffer comes first, so that a run without one leaves the writer as it was.
/// What a failed write leaves in the buffer is never written.
pub struct Buffered<W> {
    inner: W,
    buffer: Vec<u8>,
}

impl<W: Write> Buffered<W> {
    /// Makes a writer of `inner` and a `buffer`, which takes as many bytes as its capacity. What is
    /// in it waits for the writer.
    pub fn new(inner: W, buffer: Vec<u8>) -> Buffered<W>
        ensures waiting { buffered_contents W.contents result
            ≡ append_known (W.contents inner) buffer.items }
        ensures empty { buffer.items ≡ []
            → Keeps (W.contents inner) (buffered_contents W.contents result) }
    {
        Buffered { inner, buffer }
    }

    /// Returns the inner writer, and the buffer with what waits for it.
    pub fn into_parts(self) -> (W, Vec<u8>)
        ensures contents { append_known (W.contents result.0) result.1.items
            ≡ buffered_contents W.contents self }
        ensures waiting { result.1 ≡ self.buffer }
    {
        let Buffered { inner, buffer } = self;
        (inner, buffer)
    }

    /// Returns the inner writer. What is still in the buffer is lost.
    pub fn into_inner(self) -> W
        ensures { result ≡ self.inner }
    {
        let Buffered { inner, buffer: _ } = self;
        inner
    }

    /// Gives the inner writer the front of the buffer, as much as it takes in one call. Errs if
    /// that call fails or takes nothing.
    fn pass_on(&mut self) -> io::Result<()>
        requires { 0 < vec_len self.old.buffer }
        ensures bytes { Keeps (buffered_contents W.contents self.old)
            (buffered_contents W.contents self.new) }
        ensures shorter { OnOk result (vec_len self.new.buffer < vec_len self.old.buffer) }
    {
        let taken = self.inner.write(self.buffer.as_slice())?;
        if taken == 0 {
            return Err(io::Error::from(ErrorKind::WriteZero));
        }
        remove_front(&mut self.buffer, taken);
        Ok(())
    }

    /// Gives the inner writer all of the buffer. Repeats a call that a signal interrupted.
    fn pass_on_all(&mut self) -> io::Result<()>
        ensures bytes { Keeps (buffered_contents W.contents self.old)
            (buffered_contents W.contents self.new) }
        ensures empty { OnOk result (self.new.buffer.items ≡ []) }
    {
        for _ in 0..u64::MAX {
            if self.buffer.is_empty() {
                return Ok(());
            }
            match self.pass_on() {
                Err(error) if error.kind() == ErrorKind::Interrupted => {}
                other => other?,
            }
        }
        Err(io::Error::from(ErrorKind::Interrupted))
    }

    /// Writes `bytes` for which the buffer has no room left. It stands apart, so that the test for
    /// room is inlined.
    #[cold]
    #[inline(never)]
    fn write_all_past(&mut self, bytes: &[u8]) -> io::Result<()>
        ensures { OnOk result (Appends (buffered_contents W.contents self.old)
            (buffered_contents W.contents self.new) bytes.now) }
    {
        self.pass_on_all()?;
        if bytes.len() > self.buffer.capacity() {
            return self.inner.write_all(bytes);
        }
        self.buffer.extend_from_slice(bytes)?;
        Ok(())
    }
}

impl<W: Write> Write for Buffered<W> {
    ghost contents = { buffered_contents W.contents };

    fn write(&mut self, bytes: &[u8]) -> io::Result<usize>
        ensures bound { WritesAtMost result bytes.now }
        ensures taken { IfOk result (λ n.
            n ≡ min (length bytes.now) (vec_capacity self.old.buffer)) }
        ensures bytes { WriteAppends (buffered_contents W.contents self.old)
            (buffered_contents W.contents self.new) result bytes.now }
    {
        let taken = bytes.len().min(self.buffer.capacity());
        if taken > self.buffer.capacity() - self.buffer.len() {
            self.pass_on_all()?;
        }
        // There is room, so that this allocates nothing.
        self.buffer.extend_from_slice(&bytes[..taken])?;
        Ok(taken)
    }

    fn flush(&mut self) -> io::Result<()>
        ensures bytes { Keeps (buffered_contents W.contents self.old)
            (buffered_contents W.contents self.new) }
        ensures empty { OnOk result (self.new.buffer.items ≡ []) }
    {
        self.pass_on_all()?;
        self.inner.flush()
    }

    #[inline(always)]
    fn write_all(&mut self, bytes: &[u8]) -> io::Result<()> {
        if bytes.len() <= self.buffer.capacity() - self.buffer.len() {
            self.buffer.extend_from_slice(bytes)?;
            return Ok(());
        }
        self.write_all_past(bytes)
    }
}

/// Removes the first `count` bytes.
fn remove_front(buffer: &mut Vec<u8>, count: usize)
    requires { count ≤ vec_len buffer.old }
    ensures { buffer.new.items ≡ drop count buffer.old.items }
{
    let len = buffer.len();
    buffer.as_mut_slice().copy_within(count..len, 0);
    buffer.truncate(len - count);
}
