//! A link whose sending is cut short or swallowed.

ghost use Rattle.std.specs.Prelude.{◌≡◌, ◌≢◌, ◌≤◌, ◌<◌, ◌-◌, ◌⊎◌, None, IfErr, IfOk, OnErr, OnOk};
ghost use Rattle.std.specs.Prelude.{length, min, take};
ghost use Rattle.std.specs.Io.KnownBytes.{Appends, Keeps};
ghost use Rattle.wire_stream.specs.{Rose, TellsEnd, TellsLater, bytes_moved};
ghost use Rattle.wire_serve.specs.Gates.{GoOver, Passes, count_moved};

use std::io::ErrorKind;
use wire_stream::{Link, LinkFault, Moved};

/// What becomes of the bytes that are sent.
#[derive(Clone, Copy, Debug, PartialEq, Eq)]
pub enum Gate {
    /// They go over the link.
    Open,
    /// At most this many more go over the link, and none behind those that are sent next. Then the
    /// link fails, and it receives none any more.
    Cut(u64),
    /// They are taken, and none goes over the link.
    Swallowed,
}

/// A link with a gate before its sending.
pub trait Gated: Link {
    ghost use Rattle.wire_serve.specs.declared.gated_link.Gate.{Gate};

    // What becomes of the bytes that are sent.
    ghost gate: { Self → Gate };

    /// Returns what becomes of the bytes that are sent.
    fn gate(&self) -> Gate
        ensures { result ≡ gate self.now };

    /// Says what becomes of the bytes that are sent from now on.
    fn set_gate(&mut self, to: Gate)
        ensures gate { gate self.new ≡ to }
        ensures received { Keeps (Self.received self.old) (Self.received self.new) }
        ensures sent { Keeps (Self.sent self.old) (Self.sent self.new) }
        ensures ends { Self.ends self.new ≡ Self.ends self.old }
        ensures waits { Self.waits self.new ≡ Self.waits self.old }
        ensures works { Self.failures self.new ≡ Self.failures self.old };
}

/// A gate before a link. As a `Link` it shows the bytes that came over the link inside, and none
/// that it sent, since not all that it takes goes over the link inside.
#[derive(Drop)]
pub struct GatedLink<L> {
    link: L,
    gate: Gate,
    /// How many calls failed, counted up to 2^64 - 1.
    failures: u64,
}

impl<L: Link + Drop> GatedLink<L> {
    /// Makes an open gate before `link`.
    pub fn new(link: L) -> GatedLink<L>
        ensures link { result.link ≡ link }
        ensures gate { result.gate ≡ Gate.Open }
        ensures failures { result.failures ≡ 0 }
    {
        GatedLink {
            link,
            gate: Gate::Open,
            failures: 0,
        }
    }

    /// Returns the fault of a call of what was cut, which is counted.
    fn fault(&mut self) -> LinkFault
        ensures kind { result.kind ≡ ErrorKind.ConnectionAborted }
        ensures failures { Rose self.old.failures self.new.failures }
        ensures link { self.new.link ≡ self.old.link }
        ensures gate { self.new.gate ≡ self.old.gate }
    {
        self.failures = self.failures.saturating_add(1);
        LinkFault {
            kind: ErrorKind::ConnectionAborted,
        }
    }

    /// Counts the result of a call of the link inside.
    fn count(&mut self, outcome: Result<Moved, LinkFault>)
        ensures works { OnOk outcome (self.new.failures ≡ self.old.failures) }
        ensures fails { OnErr outcome (Rose self.old.failures self.new.failures) }
        ensures link { self.new.link ≡ self.old.link }
        ensures gate { self.new.gate ≡ self.old.gate }
    {
        if outcome.is_err() {
            let _ = self.fault();
        }
    }

    /// Sends bytes from the front of `bytes` over the link inside.
    fn send_inside(&mut self, bytes: &[u8]) -> Result<Moved, LinkFault>
        ensures within { IfOk result (λ moved. bytes_moved moved ≤ length bytes.now) }
        ensures some { 0 < length bytes.now → IfOk result (λ moved. moved ≢ Moved.Bytes 0) }
        ensures sent { GoOver bytes.now result (L.sent self.old.link) (L.sent self.new.link) }
        ensures received { Keeps (L.received self.old.link) (L.received self.new.link) }
        ensures end { L.ends self.new.link ≡ L.ends self.old.link }
        ensures later { TellsLater result (L.waits self.old.link) (L.waits self.new.link) }
        ensures never { IfErr result (λ fault. fault.kind ≢ ErrorKind.WouldBlock) }
        ensures works { OnOk result (self.new.failures ≡ self.old.failures) }
        ensures fails { OnErr result (Rose self.old.failures self.new.failures) }
        ensures own { OnErr result (Rose (L.failures self.old.link) (L.failures self.new.link)) }
        ensures gate { self.new.gate ≡ self.old.gate }
    {
        let outcome = self.link.send(bytes);
        self.count(outcome);
        outcome
    }

    /// Sends bytes from the front of `bytes` over the link inside, at most so many as are left.
    fn send_cut(&mut self, bytes: &[u8], left: u64) -> Result<Moved, LinkFault>
        requires { 0 < left }
        ensures within { IfOk result (λ moved. bytes_moved moved ≤ length bytes.now) }
        ensures some { 0 < length bytes.now → IfOk result (λ moved. moved ≢ Moved.Bytes 0) }
        ensures few { count_moved result ≤ left }
        ensures sent { GoOver bytes.now result (L.sent self.old.link) (L.sent self.new.link) }
        ensures received { Keeps (L.received self.old.link) (L.received self.new.link) }
        ensures end { L.ends self.new.link ≡ L.ends self.old.link }
        ensures later { TellsLater result (L.waits self.old.link) (L.waits self.new.link) }
        ensures never { IfErr result (λ fault. fault.kind ≢ ErrorKind.WouldBlock) }
        ensures works { OnOk result (self.new.failures ≡ self.old.failures) }
        ensures fails { OnErr result (Rose self.old.failures self.new.failures) }
        ensures own { OnErr result (Rose (L.failures self.old.link) (L.failures self.new.link)) }
        ensures gate { self.new.gate
            ≡ Gate.Cut (min left (length bytes.now) - count_moved result) }
    {
        let most = bytes.len().min(left as usize);
        let outcome = self.send_inside(&bytes[..most]);
        let moved = match outcome {
            Ok(Moved::Bytes(count)) => count,
            Ok(Moved::Later) | Err(_) => 0,
        };
        self.gate = Gate::Cut((most - moved) as u64);
        outcome
    }

    /// Sends bytes from the front of `bytes`, as the gate says, and returns how many are taken: at
    /// least one, unless `bytes` is empty. `send` is the same.
    ///
    /// # Errors
    ///
    /// Returns `LinkFault` if the link failed, or was cut and has sent all that it was to send. No
    /// bytes were sent then.
    pub fn pass(&mut self, bytes: &[u8]) -> Result<Moved, LinkFault>
        ensures passes { Passes self.old.gate bytes.now result
            (L.sent self.old.link) (L.sent self.new.link) self.new.gate }
        ensures within { IfOk result (λ moved. bytes_moved moved ≤ length bytes.now) }
        ensures some { 0 < length bytes.now → IfOk result (λ moved. moved ≢ Moved.Bytes 0) }
        ensures received { Keeps (L.received self.old.link) (L.received self.new.link) }
        ensures end { L.ends self.new.link ≡ L.ends self.old.link }
        ensures later { TellsLater result (L.waits self.old.link) (L.waits self.new.link) }
        ensures never { IfErr result (λ fault. fault.kind ≢ ErrorKind.WouldBlock) }
        ensures works { OnOk result (self.new.failures ≡ self.old.failures) }
        ensures fails { OnErr result (Rose self.old.failures self.new.failures) }
        ensures own { OnErr result (Rose (L.failures self.old.link) (L.failures self.new.link)
            ⊎ (self.old.gate ≡ Gate.Cut 0)) }
    {
        match self.gate {
            Gate::Open => self.send_inside(bytes),
            Gate::Cut(0) => Err(self.fault()),
            Gate::Cut(left) => self.send_cut(bytes, left),
            Gate::Swallowed => Ok(Moved::Bytes(bytes.len())),
        }
    }
}

impl<L: Link + Drop> Link for GatedLink<L> {
    ghost received = { λ v. L.received v.link };

    ghost sent = { λ _. None };

    ghost turns = { λ _. None };

    ghost failures = { λ v. v.failures };

    ghost ends = { λ v. L.ends v.link };

    ghost waits = { λ v. L.waits v.link };

    fn recv(&mut self, buffer: &mut [u8]) -> Result<Moved, LinkFault>
        ensures within { IfOk result (λ moved. bytes_moved moved ≤ length buffer.old) }
        ensures received { IfOk result (λ moved. Appends (L.received self.old.link)
            (L.received self.new.link) (take (bytes_moved moved) buffer.new)) }
        ensures none_received { OnErr result
            (Keeps (L.received self.old.link) (L.received self.new.link)) }
        ensures inside { Keeps (L.sent self.old.link) (L.sent self.new.link) }
        ensures gate { self.new.gate ≡ self.old.gate }
        ensures end { TellsEnd (length buffer.old) result
            (L.ends self.old.link) (L.ends self.new.link) }
        ensures later { TellsLater result (L.waits self.old.link) (L.waits self.new.link) }
        ensures never { IfErr result (λ fault. fault.kind ≢ ErrorKind.WouldBlock) }
        ensures works { OnOk result (self.new.failures ≡ self.old.failures) }
        ensures fails { OnErr result (Rose self.old.failures self.new.failures) }
    {
        if let Gate::Cut(_) = self.gate {
            return Err(self.fault());
        }
        let outcome = self.link.recv(buffer);
        self.count(outcome);
        outcome
    }

    fn send(&mut self, bytes: &[u8]) -> Result<Moved, LinkFault> {
        self.pass(bytes)
    }
}

impl<L: Link + Drop> Gated for GatedLink<L> {
    ghost gate = { λ v. v.gate };

    fn gate(&self) -> Gate {
        self.gate
    }

    fn set_gate(&mut self, to: Gate)
        ensures gate { self.new.gate ≡ to }
        ensures link { self.new.link ≡ self.old.link }
        ensures works { self.new.failures ≡ self.old.failures }
    {
        self.gate = to;
    }
}
