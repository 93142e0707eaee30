//! The records of the client's calls.

ghost use Rattle.std.specs.Prelude.{◌≡◌, IfOk, OnOk, Some, map};
ghost use Rattle.wire_end.specs.{record_of, records_of};
ghost use Rattle.wire_model.specs.{asked_as, given_record, lost_record, new_record, put_at};
ghost use Rattle.wire_peer.specs.{content_of};

use std::alloc::{AllocError, Global};
use wire_end::{CallRecord, CallState};
use wire_msg::Payload;
use wire_peer::{CallKind, Reply};

/// Returns the record of a call that is made now: it has no part, and a copy of the payload. Errs
/// if memory runs out.
pub(crate) fn new_record(
    alloc: Global,
    kind: CallKind,
    payload: Payload<'_>,
) -> Result<CallRecord, AllocError>
    ensures { IfOk result
        (λ r. record_of 1 r ≡ new_record 1 (asked_as kind (content_of payload.entry))) }
{
    let payload = payload.to_buf(alloc)?;
    Ok(CallRecord {
        kind,
        payload,
        parts: Vec::new(alloc),
        state: if kind.awaits_reply() {
            CallState::Pending
        } else {
            CallState::Sent
        },
    })
}

/// Adds a copy of a part to the record of a call. With the last one the call is done. Errs if
/// memory runs out.
fn give_part(call: &mut CallRecord, part: Payload<'_>, last: bool) -> Result<(), AllocError>
    ensures { OnOk result (record_of 1 call.new
        ≡ given_record (record_of 1 call.old) (content_of part.entry) last) }
{
    let alloc = *call.parts.allocator();
    let part = part.to_buf(alloc)?;
    call.parts.push(part)?;
    if last {
        call.state = CallState::Done;
    }
    Ok(())
}

/// Adds a copy of a reply to the record of its call, if there is one. Errs if memory runs out.
pub(crate) fn give(records: &mut [CallRecord], reply: Reply<'_>) -> Result<(), AllocError>
    ensures { OnOk result (records_of 1 records.new ≡ put_at (Some reply.entry.call)
        (content_of reply.entry.payload) reply.entry.last (records_of 1 records.old)) }
{
    let index = reply.call as usize;
    if index >= records.len() {
        return Ok(());
    }
    give_part(&mut records[index], reply.payload, reply.last)
}

/// Notes that no more parts come to a call: a pending one is lost.
fn lose(call: &mut CallRecord)
    ensures { record_of 1 call.new ≡ lost_record (record_of 1 call.old) }
{
    if call.state == CallState::Pending {
        call.state = CallState::Lost;
    }
}

/// Notes of each call that no more parts come to it.
pub(crate) fn lose_all(records: &mut [CallRecord])
    ensures { records_of 1 records.new ≡ map lost_record (records_of 1 records.old) }
{
    for call in records.iter_mut() {
        lose(call);
    }
}
