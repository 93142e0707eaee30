//! Sends bytes of a client over a link, as its owner does.

ghost use Rattle.std.specs.Prelude.{◌≡◌, ◌≢◌, ◌++◌, ◌<◌, ℕ, List, [], length};
ghost use Rattle.std.specs.Prelude.{IfErr, IfOk, MatchResult, OnErr, OnOk};
ghost use Rattle.std.specs.Io.KnownBytes.{Appends, Keeps};
ghost use Rattle.wire_model.specs.Conns.{Record};
ghost use Rattle.wire_stream.specs.{AddsTurns};
ghost use Rattle.wire_stream.specs.Links.{Rose, TellsLater, bytes_moved};
ghost use Rattle.wire_model.specs.Owners.{ClientDoes, SendsUp};

use std::io::ErrorKind;
use wire_peer::Client;
use wire_stream::{Link, LinkFault, Moved};

/// Sends the first bytes that wait in `client` over `link`, as many as the link takes in one call.
/// Returns how many: at least one, unless no bytes wait, or `Later` if the link takes none now. It
/// receives nothing.
///
/// # Errors
///
/// Returns `LinkFault` if the link failed. No bytes were sent then, and `client` is unchanged.
pub fn send_some<L: Link>(link: &mut L, client: &mut Client) -> Result<Moved, LinkFault>
    ensures sent { (bytes : List ℕ) × Appends (L.sent link.old) (L.sent link.new) bytes
        × MatchResult result (λ moved. length bytes ≡ bytes_moved moved) (λ _. bytes ≡ [])
        × ((c : ℕ) (records : List Record) → ClientDoes c (SendsUp bytes)
        (record { client = client.old; records = records })
        (record { client = client.new; records = records })) }
    ensures some { 0 < length client.old.requests.output
        → IfOk result (λ moved. moved ≢ Moved.Bytes 0) }
    ensures received { Keeps (L.received link.old) (L.received link.new) }
    ensures turns { AddsTurns (L.turns link.old) (L.turns link.new) [] }
    ensures ends { L.ends link.new ≡ L.ends link.old }
    ensures later { TellsLater result (L.waits link.old) (L.waits link.new) }
    ensures never { IfErr result (λ fault. fault.kind ≢ ErrorKind.WouldBlock) }
    ensures works { OnOk result (L.failures link.new ≡ L.failures link.old) }
    ensures fails { OnErr result (Rose (L.failures link.old) (L.failures link.new)) }
    ensures unchanged { OnErr result (client.new ≡ client.old) }
{
    let moved = link.send(client.output())?;
    if let Moved::Bytes(n) = moved {
        client.sent(n);
    }
    Ok(moved)
}
