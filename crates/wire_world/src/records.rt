//! The calls of a world, as their callers see them.

ghost use Rattle.std.specs.Prelude.{◌≡◌, IfOk, OnErr, OnOk};
ghost use Rattle.wire_model.specs.{asked_as, given_record, lost_record, new_record};
ghost use Rattle.std.specs.Vec.{vec_capacity, vec_len};
ghost use Rattle.wire_peer.specs.{IsGrown, content_of};
ghost use Rattle.wire_world.specs.Records.{record_of};

use crate::rooms::make_room;
use std::alloc::{AllocError, Global};
use wire_msg::{Payload, PayloadBuf};
use wire_peer::CallKind;

/// The state of a call.
#[derive(Clone, Copy, Debug, PartialEq, Eq)]
pub enum CallState {
    /// It awaits a part.
    Pending,
    /// It has all its parts.
    Done,
    /// It is unacknowledged, and its request was put out. It may not have been sent yet.
    Sent,
    /// Its client was closed while it was pending.
    Lost,
}

/// A call that was made.
#[derive(Debug, Drop)]
pub struct CallRecord {
    /// The number of the connection that it was made over.
    pub connection: u64,
    /// How many replies it may have.
    pub kind: CallKind,
    /// The payload of the request.
    pub payload: PayloadBuf,
    /// The payloads of the replies that came, in order.
    pub parts: Vec<PayloadBuf>,
    /// Its state.
    pub state: CallState,
}

impl CallRecord {
    /// Returns the record of a call that is made now, and has no part. The only memory that it
    /// takes is that of the copied payload.
    pub(crate) fn new(
        alloc: Global,
        connection: u64,
        kind: CallKind,
        payload: Payload<'_>,
    ) -> Result<CallRecord, AllocError>
        ensures { IfOk result
            (λ r. record_of r ≡ new_record connection (asked_as kind (content_of payload.entry))) }
    {
        let payload = payload.to_buf(alloc)?;
        Ok(CallRecord {
            connection,
            kind,
            payload,
            parts: Vec::new(alloc),
            state: if kind.awaits_reply() {
                CallState::Pending
            } else {
                CallState::Sent
            },
        })
    }

    /// Adds a copy of a part. With the last one the call is done.
    ///
    /// # Errors
    ///
    /// Returns `AllocError` if memory runs out. Nothing changes then.
    pub(crate) fn give(&mut self, part: Payload<'_>, last: bool) -> Result<(), AllocError>
        ensures given { OnOk result
            (record_of self.new ≡ given_record (record_of self.old) (content_of part.entry) last) }
        ensures unchanged { OnErr result (record_of self.new ≡ record_of self.old) }
        ensures room { IsGrown (vec_len self.old.parts) (vec_capacity self.old.parts)
            (vec_capacity self.new.parts) }
    {
        make_room(&mut self.parts)?;
        let alloc = *self.parts.allocator();
        let part = part.to_buf(alloc)?;
        self.parts.push_reserved(part);
        if last {
            self.state = CallState::Done;
        }
        Ok(())
    }

    /// Marks the call as lost, if it is pending: its client was closed.
    pub(crate) fn lose(&mut self)
        ensures { record_of self.new ≡ lost_record (record_of self.old) }
    {
        if self.state == CallState::Pending {
            self.state = CallState::Lost;
        }
    }
}
