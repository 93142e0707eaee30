//! Makes a link of bytes in memory.

ghost use Rattle.std.specs.Prelude.{◌≡◌, ◌≢◌, ◌<◌, ◌≤◌, ◌-◌, ◌^◌, ◌++◌, [], Err, Ok, IfErr, IfOk};
ghost use Rattle.std.specs.Prelude.{OnErr, OnOk, None, Some, drop, false, length, take, true};
ghost use Rattle.std.specs.Io.KnownBytes.{Appends, Keeps};
ghost use Rattle.wire_stream.specs.Links.{Rose, TellsEnd, bytes_moved};
ghost use Rattle.wire_stream.specs.MemLinks.{is_due, moved, one_less};

use crate::link::{Link, LinkFault, Moved};
use std::alloc::{AllocError, Global};
use std::io::ErrorKind;
use std::marker::Model;

/// A link that gives the bytes of a vector, and keeps what is sent as long as there is room.
/// Contracts see all its bytes.
#[derive(Drop)]
pub struct MemLink {
    input: Vec<u8>,
    /// The number of input bytes that were received.
    start: usize,
    output: Vec<u8>,
    /// The number of bytes that may be sent in all.
    room: usize,
    /// The most bytes that a call moves.
    most: usize,
    fails_after: Option<u64>,
    failures: u64,
    ends: u64,
}

impl Model for MemLink {
    ghost use Rattle.std.specs.Prelude.{◌≤◌, ◌<◌, ◌-◌, drop, length, take, vec_capacity};
    ghost use Rattle.wire_stream.specs.MemLinks.{Memory};

    ghost Value = { Memory };

    ghost view = { λ s. record {
      received = take s.start s.input.items;
      left = drop s.start s.input.items;
      sent = s.output.items;
      room = s.room - length s.output.items;
      most = s.most;
      fails_after = s.fails_after;
      failures = s.failures;
      ends = s.ends;
    } };

    ghost invariant = { λ s. record {
      read : s.start ≤ length s.input.items;
      fits : length s.output.items ≤ s.room;
      kept : s.room ≤ vec_capacity s.output;
      some : 0 < s.most;
    } };
}

impl MemLink {
    /// Makes a link that gives the bytes of `input` and has room for `room` bytes. Takes memory
    /// for these; no other call takes any.
    ///
    /// # Errors
    ///
    /// Returns `AllocError` if memory runs out.
    pub fn new(alloc: Global, input: Vec<u8>, room: usize) -> Result<MemLink, AllocError>
        ensures { IfOk result (λ link. link ≡ record {
          received = [];
          left = input.items;
          sent = [];
          room = room;
          most = 2 ^ 64 - 1;
          fails_after = None;
          failures = 0;
          ends = 0;
        }) }
    {
        let output = Vec::with_capacity(alloc, room)?;
        Ok(MemLink {
            input,
            start: 0,
            output,
            room,
            most: usize::MAX,
            fails_after: None,
            failures: 0,
            ends: 0,
        })
    }

    /// Makes each call move at most `most` bytes.
    pub fn moving_at_most(self, most: usize) -> MemLink
        requires { 0 < most }
        ensures { result ≡ record self { most = most } }
    {
        let mut link = self;
        link.most = most;
        link
    }

    /// Makes one call fail, after `calls` others.
    pub fn failing_after(self, calls: u64) -> MemLink
        ensures { result ≡ record self { fails_after = Some calls } }
    {
        let mut link = self;
        link.fails_after = Some(calls);
        link
    }

    /// Returns the sent bytes.
    pub fn sent_bytes(&self) -> &[u8]
        ensures { result.now ≡ self.now.sent }
    {
        &self.output
    }

    /// Counts the call. Returns true if it is the one that fails.
    fn is_failing(&mut self) -> bool
        ensures { (result ≡ is_due self.old.fails_after)
            × (self.new ≡ record self.old { fails_after = one_less self.old.fails_after }) }
    {
        match self.fails_after {
            None => false,
            Some(0) => {
                self.fails_after = None;
                true
            }
            Some(calls) => {
                self.fails_after = Some(calls - 1);
                false
            }
        }
    }

    /// Counts a failure of this sort.
    fn fail(&mut self, kind: ErrorKind) -> LinkFault
        ensures fault { result ≡ record { kind = kind } }
        ensures counted { Rose self.old.failures self.new.failures }
        ensures others { self.new ≡ record self.old { failures = self.new.failures } }
    {
        self.failures = self.failures.saturating_add(1);
        LinkFault { kind }
    }

    /// Moves as many bytes of the input as a call may to the front of `buffer`, and returns how
    /// many.
    fn give(&mut self, buffer: &mut [u8]) -> usize
        ensures count { result ≡ moved self.old.most (length buffer.old) (length self.old.left) }
        ensures received { self.new.received ≡ self.old.received ++ take result buffer.new }
        ensures left { self.old.received ++ self.old.left ≡ self.new.received ++ self.new.left }
        ensures others { self.new ≡ record self.old
            { received = self.new.received; left = self.new.left } }
    {
        let n = buffer
            .len()
            .min(self.input.len() - self.start)
            .min(self.most);
        buffer[..n].copy_from_slice(&self.input[self.start..self.start + n]);
        self.start += n;
        n
    }
}

impl Link for MemLink {
    ghost received = { λ s. Some s.received };

    ghost sent = { λ s. Some s.sent };

    ghost turns = { λ _. None };

    ghost failures = { λ s. s.failures };

    ghost ends = { λ s. s.ends };

    ghost waits = { λ _. 0 };

    fn recv(&mut self, buffer: &mut [u8]) -> Result<Moved, LinkFault>
        ensures within { IfOk result (λ moved. bytes_moved moved ≤ length buffer.old) }
        ensures received { IfOk result (λ moved.
            self.new.received ≡ self.old.received ++ take (bytes_moved moved) buffer.new) }
        ensures none_received { OnErr result (self.new.received ≡ self.old.received) }
        ensures sent { self.new.sent ≡ self.old.sent }
        ensures end { TellsEnd (length buffer.old) result self.old.ends self.new.ends }
        ensures later { result ≢ Ok Moved.Later }
        ensures never { IfErr result (λ fault. fault.kind ≢ ErrorKind.WouldBlock) }
        ensures works { OnOk result (self.new.failures ≡ self.old.failures) }
        ensures fails { OnErr result (Rose self.old.failures self.new.failures) }
        ensures given { self.old.received ++ self.old.left ≡ self.new.received ++ self.new.left }
        ensures fault { is_due self.old.fails_after ≡ true
            → result ≡ Err (record { kind = ErrorKind.ConnectionReset }) }
        ensures moved { is_due self.old.fails_after ≡ false
            → result ≡ Ok (Moved.Bytes (moved self.old.most (length buffer.old)
            (length self.old.left))) }
        ensures counted { self.new.fails_after ≡ one_less self.old.fails_after }
        ensures limits { (self.new.room ≡ self.old.room) × (self.new.most ≡ self.old.most) }
    {
        if self.is_failing() {
            return Err(self.fail(ErrorKind::ConnectionReset));
        }
        let n = self.give(buffer);
        if n == 0 && !buffer.is_empty() {
            self.ends = self.ends.saturating_add(1);
        }
        Ok(Moved::Bytes(n))
    }

    fn send(&mut self, bytes: &[u8]) -> Result<Moved, LinkFault>
        ensures within { IfOk result (λ moved. bytes_moved moved ≤ length bytes.now) }
        ensures some { 0 < length bytes.now → IfOk result (λ moved. moved ≢ Moved.Bytes 0) }
        ensures sent { IfOk result (λ moved.
            self.new.sent ≡ self.old.sent ++ take (bytes_moved moved) bytes.now) }
        ensures none_sent { OnErr result (self.new.sent ≡ self.old.sent) }
        ensures received { (self.new.received ≡ self.old.received)
            × (self.new.left ≡ self.old.left) }
        ensures end { self.new.ends ≡ self.old.ends }
        ensures later { result ≢ Ok Moved.Later }
        ensures never { IfErr result (λ fault. fault.kind ≢ ErrorKind.WouldBlock) }
        ensures works { OnOk result (self.new.failures ≡ self.old.failures) }
        ensures fails { OnErr result (Rose self.old.failures self.new.failures) }
        ensures fault { is_due self.old.fails_after ≡ true
            → result ≡ Err (record { kind = ErrorKind.ConnectionReset }) }
        ensures full { is_due self.old.fails_after ≡ false → self.old.room ≡ 0 → bytes.now ≢ []
            → result ≡ Err (record { kind = ErrorKind.WriteZero }) }
        ensures empty { is_due self.old.fails_after ≡ false → bytes.now ≡ []
            → result ≡ Ok (Moved.Bytes 0) }
        ensures moved { is_due self.old.fails_after ≡ false
            → 0 < moved self.old.most (length bytes.now) self.old.room
            → result ≡ Ok (Moved.Bytes (moved self.old.most (length bytes.now) self.old.room)) }
        ensures counted { self.new.fails_after ≡ one_less self.old.fails_after }
        ensures limits { (self.new.room
            ≡ self.old.room - (length self.new.sent - length self.old.sent))
            × (self.new.most ≡ self.old.most) }
    {
        if self.is_failing() {
            return Err(self.fail(ErrorKind::ConnectionReset));
        }
        let n = bytes
            .len()
            .min(self.room - self.output.len())
            .min(self.most);
        if n == 0 && !bytes.is_empty() {
            return Err(self.fail(ErrorKind::WriteZero));
        }
        match self.output.extend_from_slice(&bytes[..n]) {
            Ok(()) => Ok(Moved::Bytes(n)),
            Err(_) => unreachable!(),
        }
    }
}
