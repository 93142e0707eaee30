//! Names what a link is: something that moves bytes both ways.

ghost use Rattle.std.specs.Prelude.{◌≡◌, ◌≢◌, ◌<◌, ◌≤◌, ◌∷◌, [], ℕ, List, Option, IfErr, IfOk};
ghost use Rattle.std.specs.Prelude.{OnErr, OnOk, length, take};
ghost use Rattle.std.specs.Io.KnownBytes.{Appends, Keeps};
ghost use Rattle.wire_stream.specs.Links.{AddsTurns, Rose, TellsEnd, TellsLater, Turn, bytes_moved};

use std::io::ErrorKind;
use thiserror::Error;

/// The link failed to move bytes.
#[derive(Clone, Copy, Debug, PartialEq, Eq, Error)]
#[error("the link failed: {kind}")]
pub struct LinkFault {
    /// What sort of failure it was. A call of a `Link` never fails with `WouldBlock`.
    pub kind: ErrorKind,
}

/// What a call of a link did, if it didn't fail.
#[derive(Clone, Copy, Debug, PartialEq, Eq)]
pub enum Moved {
    /// This many bytes were moved.
    Bytes(usize),
    /// No byte can be moved now, but one may be later. A link that waits never returns it.
    Later,
}

/// Moves bytes both ways, in the order in which they were put in.
pub trait Link {
    // The bytes received since the link was made, if the link shows them.
    ghost received: { Self → Option (List ℕ) };
    // The bytes sent since the link was made, if the link shows them.
    ghost sent: { Self → Option (List ℕ) };
    // What had been received and sent before each call of `recv`, in order, if the link shows it.
    ghost turns: { Self → Option (List Turn) };
    // The number of calls that failed, counted up to 2 ^ 64 - 1.
    ghost failures: { Self → ℕ };
    // The number of calls of `recv` that returned the end of the link, counted up to 2 ^ 64 - 1.
    ghost ends: { Self → ℕ };
    // The number of calls that returned `Later`, counted up to 2 ^ 64 - 1.
    ghost waits: { Self → ℕ };

    /// Receives bytes into the front of `buffer`, and returns how many. 0 means that the link has
    /// ended, unless `buffer` is empty, and `Later` that no byte has come yet.
    ///
    /// # Errors
    ///
    /// Returns `LinkFault` if the link failed. No bytes were received then.
    fn recv(&mut self, buffer: &mut [u8]) -> Result<Moved, LinkFault>
        ensures within { IfOk result (λ moved. bytes_moved moved ≤ length buffer.old) }
        ensures received { IfOk result (λ moved.
            Appends (received self.old) (received self.new) (take (bytes_moved moved) buffer.new)) }
        ensures none_received { OnErr result (Keeps (received self.old) (received self.new)) }
        ensures sent { Keeps (sent self.old) (sent self.new) }
        ensures turn { AddsTurns (turns self.old) (turns self.new)
            (record { received = received self.old; sent = sent self.old } ∷ []) }
        ensures end { TellsEnd (length buffer.old) result (ends self.old) (ends self.new) }
        ensures later { TellsLater result (waits self.old) (waits self.new) }
        ensures never { IfErr result (λ fault. fault.kind ≢ ErrorKind.WouldBlock) }
        ensures works { OnOk result (failures self.new ≡ failures self.old) }
        ensures fails { OnErr result (Rose (failures self.old) (failures self.new)) };

    /// Sends bytes from the front of `bytes`, and returns how many: at least one, unless `bytes`
    /// is empty. `Later` means that the link takes none now.
    ///
    /// # Errors
    ///
    /// Returns `LinkFault` if the link failed. No bytes were sent then.
    fn send(&mut self, bytes: &[u8]) -> Result<Moved, LinkFault>
        ensures within { IfOk result (λ moved. bytes_moved moved ≤ length bytes.now) }
        ensures some { 0 < length bytes.now → IfOk result (λ moved. moved ≢ Moved.Bytes 0) }
        ensures sent { IfOk result (λ moved.
            Appends (sent self.old) (sent self.new) (take (bytes_moved moved) bytes.now)) }
        ensures none_sent { OnErr result (Keeps (sent self.old) (sent self.new)) }
        ensures received { Keeps (received self.old) (received self.new) }
        ensures turns { AddsTurns (turns self.old) (turns self.new) [] }
        ensures end { ends self.new ≡ ends self.old }
        ensures later { TellsLater result (waits self.old) (waits self.new) }
        ensures never { IfErr result (λ fault. fault.kind ≢ ErrorKind.WouldBlock) }
        ensures works { OnOk result (failures self.new ≡ failures self.old) }
        ensures fails { OnErr result (Rose (failures self.old) (failures self.new)) };
}
