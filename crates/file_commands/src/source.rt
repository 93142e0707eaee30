//! Reads an input once, a piece at a time, or to its end.

ghost use Rattle.std.specs.Prelude.{◌≡◌, ◌+◌, ◌≤◌, ◌<◌, ◌^◌, IfErr, IfOk, List, None, Ok, OnErr};
ghost use Rattle.std.specs.Prelude.{OnOk, length, take, ℕ};
ghost use Rattle.std.specs.Io.KnownBytes.{Consumes, IsAtEnd, Keeps};
ghost use Rattle.command_run.specs.{IsCutShort};
ghost use Rattle.file_commands.specs.Source.{given};

use command_run::{RunEnd, end_of_read};
use std::io::{ErrorKind, Read};

/// The most bytes that are read at once.
pub const PIECE: usize = 64 * 1024;

/// Reads once into `room`. Returns how many bytes came, which may be none where a signal interrupted
/// the call, or `None` at the end of the input. Errs with the end of a run that meets the reader's
/// error.
pub fn read_once<R: Read>(reader: &mut R, room: &mut [u8]) -> Result<Option<usize>, RunEnd>
    requires { 0 < length room.old }
    ensures size { length room.new ≡ length room.old }
    ensures within { IfOk result (λ n. given n ≤ length room.new) }
    ensures read { IfOk result (λ n. Consumes (R.remaining reader.old) (R.remaining reader.new)
        (take (given n) room.new)) }
    ensures ended { result ≡ Ok None → IsAtEnd (R.remaining reader.new) }
    ensures unread { OnErr result (Keeps (R.remaining reader.old) (R.remaining reader.new)) }
    ensures stopped { IfErr result (λ end. IsCutShort end) }
{
    match reader.read(room) {
        Ok(0) => Ok(None),
        Ok(n) => Ok(Some(n)),
        Err(error) if error.kind() == ErrorKind::Interrupted => Ok(Some(0)),
        Err(error) => Err(end_of_read(&error)),
    }
}

/// Reads the next piece into `room`, as `read_once` does. Errs also where no offset counts its
/// bytes, of which `so_far` were read.
pub fn read_piece<R: Read>(
    so_far: usize,
    reader: &mut R,
    room: &mut [u8],
) -> Result<Option<usize>, RunEnd>
    requires { 0 < length room.old }
    ensures size { length room.new ≡ length room.old }
    ensures within { IfOk result (λ n. given n ≤ length room.new) }
    ensures read { IfOk result (λ n. Consumes (R.remaining reader.old) (R.remaining reader.new)
        (take (given n) room.new)) }
    ensures counted { IfOk result (λ n. length room.old ≤ PIECE → so_far + given n < 2 ^ 64) }
    ensures ended { result ≡ Ok None → IsAtEnd (R.remaining reader.new) }
    ensures unread { OnErr result (Keeps (R.remaining reader.old) (R.remaining reader.new)) }
    ensures stopped { IfErr result (λ end. IsCutShort end) }
{
    if so_far > usize::MAX - PIECE {
        return Err(RunEnd::Unread);
    }
    read_once(reader, room)
}

/// Reads to the end of the input, and keeps nothing. What is in `room` is lost.
pub fn read_rest<R: Read>(reader: &mut R, room: &mut [u8]) -> Result<(), RunEnd>
    requires { 0 < length room.old }
    ensures size { length room.new ≡ length room.old }
    ensures read { (more : List ℕ)
        × Consumes (R.remaining reader.old) (R.remaining reader.new) more }
    ensures ended { OnOk result (IsAtEnd (R.remaining reader.new)) }
    ensures stopped { IfErr result (λ end. IsCutShort end) }
{
    for _ in 0..u64::MAX {
        if read_once(reader, room)?.is_none() {
            return Ok(());
        }
    }
    Err(RunEnd::Unread)
}
