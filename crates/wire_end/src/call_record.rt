//! Keeps the record of one call: what it asked, and what came of it.

ghost use Rattle.std.specs.Prelude.{◌≡◌, ℕ, IfOk, OnErr, OnOk};
ghost use Rattle.wire_end.specs.Records.{record_of};
ghost use Rattle.wire_model.specs.{asked_as, given_record, lost_record, new_record};
ghost use Rattle.wire_peer.specs.{content_of};

use std::alloc::{AllocError, Global};
use wire_msg::{Payload, PayloadBuf};
use wire_peer::CallKind;

/// How a call stands.
#[derive(Clone, Copy, Debug, PartialEq, Eq)]
pub enum CallState {
    /// It awaits a part.
    Pending,
    /// It has all its parts.
    Done,
    /// It is unacknowledged, and its request was put out. It may not have been sent yet.
    Sent,
    /// Its client was closed while it was pending.
    Lost,
}

/// A call that was made over an end.
#[derive(Debug, Drop)]
pub struct CallRecord {
    /// How many replies it may have.
    pub kind: CallKind,
    /// The payload of the request.
    pub payload: PayloadBuf,
    /// The payloads of the replies that came, in order.
    pub parts: Vec<PayloadBuf>,
    /// How it stands.
    pub state: CallState,
}

impl CallRecord {
    /// Returns the record of a call that is made now. It has no part, and a copy of the payload.
    ///
    /// # Errors
    ///
    /// Returns `AllocError` if memory runs out.
    pub(crate) fn new(
        alloc: Global,
        kind: CallKind,
        payload: Payload<'_>,
    ) -> Result<CallRecord, AllocError>
        ensures { IfOk result (λ r. (c : ℕ)
            → record_of c r ≡ new_record c (asked_as kind (content_of payload.entry))) }
    {
        let payload = payload.to_buf(alloc)?;
        Ok(CallRecord {
            kind,
            payload,
            parts: Vec::new(alloc),
            state: if kind.awaits_reply() {
                CallState::Pending
            } else {
                CallState::Sent
            },
        })
    }

    /// Adds a copy of a part. With the last one the call is done.
    ///
    /// # Errors
    ///
    /// Returns `AllocError` if memory runs out. Nothing changes then.
    pub(crate) fn give(&mut self, part: Payload<'_>, last: bool) -> Result<(), AllocError>
        ensures given { OnOk result ((c : ℕ)
            → record_of c self.new
            ≡ given_record (record_of c self.old) (content_of part.entry) last) }
        ensures unchanged { OnErr result ((c : ℕ) → record_of c self.new ≡ record_of c self.old) }
    {
        self.parts.try_reserve(1)?;
        let alloc = *self.parts.allocator();
        let part = part.to_buf(alloc)?;
        self.parts.push_reserved(part);
        if last {
            self.state = CallState::Done;
        }
        Ok(())
    }

    /// Notes that no more parts come: a pending call is lost.
    pub(crate) fn lose(&mut self)
        ensures { (c : ℕ) → record_of c self.new ≡ lost_record (record_of c self.old) }
    {
        if self.state == CallState::Pending {
            self.state = CallState::Lost;
        }
    }
}
