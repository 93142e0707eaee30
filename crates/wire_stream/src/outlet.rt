//! Sends bytes that wait.

ghost use Rattle.std.specs.Prelude.{◌≡◌, ◌≢◌, ◌≤◌, ◌++◌, [], ℕ, List, IfErr, Ok, OnErr, OnOk, drop};
ghost use Rattle.std.specs.Prelude.{length};
ghost use Rattle.std.specs.Io.KnownBytes.{Appends, Keeps};
ghost use Rattle.wire_stream.specs.Links.{AddsTurns, Rose};
ghost use Rattle.wire_stream.specs.Flushes.{FlushesLater};

use crate::link::{Link, LinkFault, Moved};
use std::io::ErrorKind;

/// A thing that has bytes waiting to be sent.
pub trait Outlet {
    // The waiting bytes, in order.
    ghost waiting: { Self → List ℕ };
    // The outlet with these waiting bytes instead of its own. Nothing else of it differs.
    ghost with_waiting: { Self → List ℕ → Self };

    /// Returns the waiting bytes.
    fn output(&self) -> &[u8]
        ensures { result.now ≡ waiting self.now };

    /// Drops the first `n` of the waiting bytes, which were sent. Nothing else of the outlet
    /// changes.
    fn sent(&mut self, n: usize)
        requires { n ≤ length (waiting self.old) }
        ensures { self.new ≡ with_waiting self.old (drop n (waiting self.old)) };

    // The bytes that are put in are the waiting ones.
    ghost waits: { (o : Self) (bytes : List ℕ) → waiting (with_waiting o bytes) ≡ bytes };

    // Putting in the bytes that are waiting changes nothing.
    ghost unchanged: { (o : Self) → with_waiting o (waiting o) ≡ o };

    // The bytes that are put in last replace those that were put in before.
    ghost last: { (o : Self) (first then : List ℕ)
        → with_waiting (with_waiting o first) then ≡ with_waiting o then };
}

/// The outcome of `flush`.
#[derive(Clone, Copy, Debug, PartialEq, Eq)]
pub enum Flushed {
    /// All bytes were sent.
    All,
    /// The link takes no more bytes now. Those that weren't sent are still waiting.
    Later,
}

/// Sends over `link` the bytes that wait in `outlet`: all of them, or as many as the link takes
/// now. Nothing else of the outlet changes.
///
/// # Errors
///
/// Returns `LinkFault` if the link failed. What was sent by then no longer waits.
pub fn flush<L: Link, O: Outlet>(link: &mut L, outlet: &mut O) -> Result<Flushed, LinkFault>
    ensures sent { (gone : List ℕ) × Appends (L.sent link.old) (L.sent link.new) gone
        × (O.waiting outlet.old ≡ gone ++ O.waiting outlet.new) }
    ensures others { outlet.new ≡ O.with_waiting outlet.old (O.waiting outlet.new) }
    ensures all { result ≡ Ok Flushed.All → O.waiting outlet.new ≡ [] }
    ensures later { result ≡ Ok Flushed.Later → O.waiting outlet.new ≢ [] }
    ensures waits { FlushesLater result (L.waits link.old) (L.waits link.new) }
    ensures never { IfErr result (λ fault. fault.kind ≢ ErrorKind.WouldBlock) }
    ensures received { Keeps (L.received link.old) (L.received link.new) }
    ensures turns { AddsTurns (L.turns link.old) (L.turns link.new) [] }
    ensures end { L.ends link.new ≡ L.ends link.old }
    ensures works { OnOk result (L.failures link.new ≡ L.failures link.old) }
    ensures fails { OnErr result (Rose (L.failures link.old) (L.failures link.new)) }
{
    while !outlet.output().is_empty() {
        let Moved::Bytes(n) = link.send(outlet.output())? else {
            return Ok(Flushed::Later);
        };
        outlet.sent(n);
    }
    Ok(Flushed::All)
}
