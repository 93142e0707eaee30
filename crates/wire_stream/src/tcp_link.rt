//! Makes a link of a stream, such as a TCP connection.

ghost use Rattle.std.specs.Prelude.{◌≡◌, ◌≢◌, ◌≤◌, ◌<◌, None, IfErr, IfOk, OnErr, OnOk, length};
ghost use Rattle.std.specs.Io.KnownBytes.{ReadConsumes, WriteAppends};
ghost use Rattle.wire_stream.specs.Links.{Rose, TellsEnd, TellsLater, bytes_moved, count_of};

use crate::link::{Link, LinkFault, Moved};
use std::io::{ErrorKind, Read, Write};

/// A link over a stream such as `TcpStream`. As a `Link` it shows no bytes, since no contract can
/// say what a socket carries. Of a stream that shows its bytes, `recv` gives those that were read,
/// and `send` writes as many as it returns. A call that was interrupted is made again. One that
/// would block returns `Later` and is no failure. A `write` that takes none of some bytes is a
/// failure.
#[derive(Drop)]
pub struct TcpLink<S: Read + Write + Drop> {
    stream: S,
    failures: u64,
    ends: u64,
    waits: u64,
}

impl<S: Read + Write + Drop> TcpLink<S> {
    /// Makes the link over `stream`.
    pub fn new(stream: S) -> TcpLink<S>
        ensures stream { result.stream ≡ stream }
        ensures failures { result.failures ≡ 0 }
        ensures ends { result.ends ≡ 0 }
        ensures waits { result.waits ≡ 0 }
    {
        TcpLink {
            stream,
            failures: 0,
            ends: 0,
            waits: 0,
        }
    }

    /// Returns the result of a call for which the stream gave an error of this `kind`: `Later` if
    /// it would block, and else a failure. Either is counted.
    fn failed(&mut self, kind: ErrorKind) -> Result<Moved, LinkFault>
        ensures later { IfOk result (λ moved. moved ≡ Moved.Later) }
        ensures never { IfErr result (λ fault. fault.kind ≢ ErrorKind.WouldBlock) }
        ensures works { OnOk result (self.new.failures ≡ self.old.failures) }
        ensures fails { OnErr result (Rose self.old.failures self.new.failures) }
        ensures ends { self.new.ends ≡ self.old.ends }
        ensures waits { TellsLater result self.old.waits self.new.waits }
        ensures stream { self.new.stream ≡ self.old.stream }
    {
        if kind == ErrorKind::WouldBlock {
            self.waits = self.waits.saturating_add(1);
            return Ok(Moved::Later);
        }
        self.failures = self.failures.saturating_add(1);
        Err(LinkFault { kind })
    }
}

impl<S: Read + Write + Drop> Link for TcpLink<S> {
    ghost received = { λ _. None };

    ghost sent = { λ _. None };

    ghost turns = { λ _. None };

    ghost failures = { λ s. s.failures };

    ghost ends = { λ s. s.ends };

    ghost waits = { λ s. s.waits };

    fn recv(&mut self, buffer: &mut [u8]) -> Result<Moved, LinkFault>
        ensures within { IfOk result (λ moved. bytes_moved moved ≤ length buffer.old) }
        ensures read { ReadConsumes (S.remaining self.old.stream) (S.remaining self.new.stream)
            (count_of result)
            buffer.new }
        ensures end { TellsEnd (length buffer.old) result self.old.ends self.new.ends }
        ensures later { TellsLater result self.old.waits self.new.waits }
        ensures never { IfErr result (λ fault. fault.kind ≢ ErrorKind.WouldBlock) }
        ensures works { OnOk result (self.new.failures ≡ self.old.failures) }
        ensures fails { OnErr result (Rose self.old.failures self.new.failures) }
    {
        if buffer.is_empty() {
            return Ok(Moved::Bytes(0));
        }
        for _ in 0..u64::MAX {
            match self.stream.read(buffer) {
                Ok(0) => {
                    self.ends = self.ends.saturating_add(1);
                    return Ok(Moved::Bytes(0));
                }
                Ok(n) => return Ok(Moved::Bytes(n)),
                Err(error) if error.kind() == ErrorKind::Interrupted => {}
                Err(error) => return self.failed(error.kind()),
            }
        }
        self.failed(ErrorKind::Interrupted)
    }

    fn send(&mut self, bytes: &[u8]) -> Result<Moved, LinkFault>
        ensures within { IfOk result (λ moved. bytes_moved moved ≤ length bytes.now) }
        ensures some { 0 < length bytes.now → IfOk result (λ moved. moved ≢ Moved.Bytes 0) }
        ensures written { WriteAppends (S.contents self.old.stream) (S.contents self.new.stream)
            (count_of result)
            bytes.now }
        ensures end { self.new.ends ≡ self.old.ends }
        ensures later { TellsLater result self.old.waits self.new.waits }
        ensures never { IfErr result (λ fault. fault.kind ≢ ErrorKind.WouldBlock) }
        ensures works { OnOk result (self.new.failures ≡ self.old.failures) }
        ensures fails { OnErr result (Rose self.old.failures self.new.failures) }
    {
        if bytes.is_empty() {
            return Ok(Moved::Bytes(0));
        }
        for _ in 0..u64::MAX {
            match self.stream.write(bytes) {
                Ok(0) => return self.failed(ErrorKind::WriteZero),
                Ok(n) => return Ok(Moved::Bytes(n)),
                Err(error) if error.kind() == ErrorKind::Interrupted => {}
                Err(error) => return self.failed(error.kind()),
            }
        }
        self.failed(ErrorKind::Interrupted)
    }
}
