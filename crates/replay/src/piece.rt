//! Holds the piece of bytes that a reader gave last.

ghost use Rattle.std.specs.Prelude.{◌≡◌, ◌≢◌, ◌≤◌, ◌++◌, [], IfOk, List, Ok, OnErr, drop, false};
ghost use Rattle.std.specs.Prelude.{length, take, true, ℕ};
ghost use Rattle.std.specs.Io.KnownBytes.{Consumes, IsAtEnd, Keeps};

use std::alloc::{AllocError, Global};
use std::io;
use std::io::{ErrorKind, Read};
use std::marker::Model;

/// The most bytes that a piece has.
const PIECE: usize = 65_536;

/// One piece of bytes, of which the first ones may have been used. Contracts see the bytes that
/// weren't used yet.
#[derive(Drop)]
pub struct Piece {
    bytes: Vec<u8>,
    start: usize,
    end: usize,
}

impl Model for Piece {
    ghost use Rattle.std.specs.Prelude.{List, ℕ, ◌≡◌, ◌≤◌, ◌-◌, take, drop, length};

    ghost Value = { List ℕ };

    ghost view = { λ s. take (s.end - s.start) (drop s.start s.bytes.items) };

    ghost invariant = { λ s. record {
      in_order : s.start ≤ s.end;
      within : s.end ≤ length s.bytes.items;
      whole : length s.bytes.items ≡ 65536;
    } };
}

/// Reads once into `room`, and again where a signal interrupted that. Returns how many bytes came,
/// which are none at the end.
fn read_some<R: Read>(reader: &mut R, room: &mut [u8]) -> io::Result<usize>
    ensures room { length room.new ≡ length room.old }
    ensures within { IfOk result (λ n. n ≤ length room.new) }
    ensures read { IfOk result (λ n. Consumes (R.remaining reader.old) (R.remaining reader.new)
        (take n room.new)) }
    ensures ended { 65536 ≤ length room.old → result ≡ Ok 0 → IsAtEnd (R.remaining reader.new) }
    ensures unread { OnErr result (Keeps (R.remaining reader.old) (R.remaining reader.new)) }
{
    for _ in 0..u64::MAX {
        match reader.read(room) {
            Ok(n) => return Ok(n),
            Err(error) if error.kind() == ErrorKind::Interrupted => {}
            Err(error) => return Err(error),
        }
    }
    Err(io::Error::from(ErrorKind::Interrupted))
}

impl Piece {
    /// Makes an empty piece. Takes memory for a whole one.
    ///
    /// # Errors
    ///
    /// Returns `AllocError` if memory runs out.
    pub fn new(alloc: Global) -> Result<Piece, AllocError>
        ensures { IfOk result (λ piece. piece ≡ []) }
    {
        let bytes = vec![in alloc; 0u8; PIECE]?;
        Ok(Piece {
            bytes,
            start: 0,
            end: 0,
        })
    }

    /// Returns the bytes that weren't used yet.
    pub fn bytes(&self) -> &[u8]
        ensures { result.now ≡ self.now }
    {
        &self.bytes[self.start..self.end]
    }

    /// Drops the first `n` of them.
    pub fn used(&mut self, n: usize)
        requires { n ≤ length self.old }
        ensures { self.new ≡ drop n self.old }
    {
        self.start += n;
    }

    /// Reads a piece, if all bytes were used. Returns false if there are no more.
    ///
    /// # Errors
    ///
    /// Returns the error of the reader.
    pub fn fill<R: Read>(&mut self, reader: &mut R) -> io::Result<bool>
        ensures read { (more : List ℕ)
            × Consumes (R.remaining reader.old) (R.remaining reader.new) more
            × (self.new ≡ self.old ++ more) }
        ensures some { result ≡ Ok true → self.new ≢ [] }
        ensures none { result ≡ Ok false → self.new ≡ [] }
        ensures ended { result ≡ Ok false → IsAtEnd (R.remaining reader.new) }
    {
        if self.start < self.end {
            return Ok(true);
        }
        let n = read_some(reader, &mut self.bytes)?;
        self.start = 0;
        self.end = n;
        Ok(n > 0)
    }
}
