//! Where the transcript goes.

ghost use Rattle.std.specs.Prelude.{◌≡◌, None, true};

use std::io;
use std::io::{BufWriter, Write};

/// A writer of the transcript.
pub trait Output: Write {
    /// Returns true if it keeps nothing that is written, so that no text need be made for it.
    fn is_sink(&self) -> bool
        ensures { result ≡ true → Self.contents self.now ≡ None };
}

impl Output for io::Sink {
    fn is_sink(&self) -> bool {
        true
    }
}

impl<W: Write + Drop> Output for BufWriter<W> {
    fn is_sink(&self) -> bool {
        false
    }
}
