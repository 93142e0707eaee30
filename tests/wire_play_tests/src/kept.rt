//! A script that is played where memory is refused, its texts, and a writer that takes no memory.

use std::io;
use std::io::Write;

/// A script that is played where memory is refused.
pub const SCRIPT: &[u8] = b"world echo 1 8 8 48000000\n\
    open\n\
    call 1 0c0000001061000100000000\n\
    up 1 33\n\
    answer 1 0\n\
    down 1 33\n";

/// Its text with ample memory.
pub const WHOLE: &[u8] = b"world\n\
    connection 1 new\n\
    call 0 id 1\n\
    moved 33\n\
    entry 0\n\
    moved 33\n\
    calls 1\n\
    call 0 connection 1 plain done 1\n\
    part 0c0000001061000100000000\n\
    entries 1\n\
    entry 0 connection 1 answers 1 body 0c0000001061000100000000\n";

/// Its text if there is no memory for the handler.
const STOPPED: &[u8] = b"world\n\
    connection 1 new\n\
    call 0 id 1\n\
    moved 33\n\
    closed 5 NoMemory\n\
    moved 0\n\
    calls 1\n\
    call 0 connection 1 plain pending 0\n\
    entries 1\n\
    entry 0 connection 1 failed body 0c0000001061000100000000\n";

/// Its text if there is none for the reply.
const UNSENT: &[u8] = b"world\n\
    connection 1 new\n\
    call 0 id 1\n\
    moved 33\n\
    closed 5 NoMemory\n\
    moved 0\n\
    calls 1\n\
    call 0 connection 1 plain pending 0\n\
    entries 1\n\
    entry 0 connection 1 answers 1 body 0c0000001061000100000000\n";

/// A writer that keeps some bytes, and takes no memory.
#[derive(Drop)]
pub struct Kept {
    bytes: [u8; 512],
    len: usize,
}

impl Write for Kept {
    fn write(&mut self, buf: &[u8]) -> io::Result<usize> {
        for byte in buf {
            match self.bytes.get_mut(self.len) {
                Some(place) => *place = *byte,
                None => return Err(io::Error::other("full")),
            }
            self.len = self.len.saturating_add(1);
        }
        Ok(buf.len())
    }

    fn flush(&mut self) -> io::Result<()> {
        Ok(())
    }
}

/// Returns a writer that has kept nothing.
pub fn empty() -> Kept {
    Kept {
        bytes: [0; 512],
        len: 0,
    }
}

impl Kept {
    /// Returns what was written.
    pub fn text(&self) -> &[u8] {
        match self.bytes.get(..self.len) {
            Some(text) => text,
            None => &[],
        }
    }
}

/// Returns true if the script was played, or `None` if it was and a server closed because memory
/// ran out.
pub fn is_played(text: &[u8]) -> Option<bool> {
    if text == STOPPED || text == UNSENT {
        None
    } else {
        Some(text == WHOLE)
    }
}

/// Returns true if the text is some of the first lines of the whole one, or none.
pub fn is_begun(text: &[u8]) -> bool {
    WHOLE.starts_with(text) && (text.is_empty() || text.ends_with(b"\n"))
}

/// Returns true if the text ends with the line that memory ran out in an event, after those of the
/// events before it.
pub fn ends_refused(text: &[u8]) -> bool {
    match text.strip_suffix(b"refused 7 OutOfMemory\n".as_slice()) {
        Some(lines) => is_begun(lines) && !lines.is_empty(),
        None => false,
    }
}
