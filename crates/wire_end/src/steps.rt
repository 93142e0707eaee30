//! The steps that an end is made of, over its client, its inlet and its records.

ghost use Rattle.std.specs.Prelude.{◌≡◌, ◌≢◌, ℕ, [], IfOk, MatchResult, OnErr, OnOk, Some, map};
ghost use Rattle.bson_elem.specs.{IsBytes};
ghost use Rattle.wire_end.specs.Records.{records_of};
ghost use Rattle.wire_end.specs.Steps.{IsFed};
ghost use Rattle.wire_model.specs.{lost_record, put_at};
ghost use Rattle.wire_peer.specs.{IsCallRefusal, IsCalled, MayTake, Takes, called, content_of};

use crate::call_record::CallRecord;
use std::alloc::AllocError;
use wire_msg::Payload;
use wire_peer::{CallKind, CallNo, CallRefusal, Client, Reply};
use wire_stream::{Inlet, ReadRefusal};

/// Makes a call of this kind.
pub(crate) fn call_as(
    client: &mut Client,
    kind: CallKind,
    payload: Payload<'_>,
) -> Result<CallNo, CallRefusal>
    ensures called { MatchResult result
        (λ no. IsCalled client.old kind (content_of payload.entry) no
        × (client.new ≡ called client.old kind (content_of payload.entry) no))
        (λ e. IsCallRefusal client.old kind (content_of payload.entry) e) }
    ensures unchanged { OnErr result (client.new ≡ client.old) }
{
    match kind {
        CallKind::Plain => client.call(payload),
        CallKind::Exhaust => client.call_exhaust(payload),
        CallKind::Unacknowledged => client.send_unacknowledged(payload),
    }
}

/// Feeds `piece` to `client`. Returns how many bytes it took.
///
/// # Errors
///
/// Returns `OutOfMemory` if memory for a message runs out. Nothing changes then.
fn feed_piece(client: &mut Client, piece: &[u8]) -> Result<usize, ReadRefusal>
    requires { MayTake client.old }
    ensures bytes { IsBytes piece.now }
    ensures takes { IfOk result (λ taken. Takes client.old piece.now taken client.new) }
    ensures unchanged { OnErr result (client.new ≡ client.old) }
{
    client.feed(piece)
}

/// Feeds `client` the bytes that `inlet` holds, and drops those that it took.
///
/// # Errors
///
/// Returns `OutOfMemory` if memory for a message runs out. Nothing changes then.
pub(crate) fn feed(client: &mut Client, inlet: &mut Inlet) -> Result<(), ReadRefusal>
    requires may { MayTake client.old }
    requires some { inlet.old ≢ [] }
    ensures fed { OnOk result (IsFed client.old inlet.old client.new inlet.new) }
    ensures unchanged { OnErr result ((client.new ≡ client.old) × (inlet.new ≡ inlet.old)) }
{
    let taken = feed_piece(client, inlet.bytes())?;
    inlet.used(taken);
    Ok(())
}

/// Adds a copy of `reply` to the record of its call, if there is one.
///
/// # Errors
///
/// Returns `AllocError` if memory runs out. Nothing changes then.
pub(crate) fn give(records: &mut [CallRecord], reply: Reply<'_>) -> Result<(), AllocError>
    ensures given { OnOk result ((c : ℕ) → records_of c records.new ≡ put_at (Some reply.entry.call)
        (content_of reply.entry.payload) reply.entry.last (records_of c records.old)) }
    ensures unchanged { OnErr result
        ((c : ℕ) → records_of c records.new ≡ records_of c records.old) }
{
    let index = reply.call as usize;
    if index >= records.len() {
        return Ok(());
    }
    records[index].give(reply.payload, reply.last)
}

/// Notes of each call that no more parts come.
pub(crate) fn lose_all(records: &mut [CallRecord])
    ensures { (c : ℕ) → records_of c records.new ≡ map lost_record (records_of c records.old) }
{
    for record in records.iter_mut() {
        record.lose();
    }
}
