//! What a client puts out: requests, under ids that no outstanding call bears.

ghost use Rattle.std.specs.Prelude.{◌≡◌, ◌≤◌, ◌≤ℤ◌, ◌↔◌, ◌++◌, ◌∷◌, [], None, Some, IfErr, IfOk};
ghost use Rattle.std.specs.Prelude.{IsTrue, MatchResult, OnErr, OnOk, drop, length, pos};
ghost use Rattle.std.specs.List.{IsDistinct};
ghost use Rattle.std.specs.Ordering.{int_eq};
ghost use Rattle.wire_msg.specs.{canonical, message_len};
ghost use Rattle.wire_peer.specs.declared.calls.CallRefusal.TheVariants.{OutOfMemory};
ghost use Rattle.wire_peer.specs.Calls.{request};
ghost use Rattle.wire_peer.specs.Contents.{content_of};
ghost use Rattle.wire_peer.specs.CallTables.{allowed, bearer, HasOneStream, ids, IsReceived, owner};
ghost use Rattle.wire_peer.specs.Requesting.{after_call, awaiting, IsAccepted, IsFull, IsRefused};

use crate::call_table::{CallTable, ReadyReply};
use crate::calls::{CallKind, CallNo, CallRefusal};
use crate::client_state::ClientCause;
use crate::free_id::next_after;
use std::alloc::Global;
use std::marker::Model;
use wire_msg::Payload;
use wire_stream::OutBuf;

/// The requests of a client that weren't sent yet, and the calls that await replies.
#[derive(Drop)]
pub(crate) struct RequestBuf {
    limit: u32,
    window: usize,
    output: OutBuf,
    table: CallTable,
    /// Where the search for the next id begins.
    next_id: i32,
    /// The number of the next call, unless the greatest was given.
    next_number: Option<u64>,
}

impl Model for RequestBuf {
    ghost use Rattle.std.specs.Prelude.{◌≤◌, ◌≤ℤ◌, length, pos};
    ghost use Rattle.wire_peer.specs.Requesting.{RequestState};

    ghost Value = { RequestState };

    ghost view = { λ s. record {
      limit = s.limit;
      window = s.window;
      output = s.output;
      outstanding = s.table;
      next_id = s.next_id;
      next_number = s.next_number;
    } };

    ghost invariant = { λ s. record {
      window : s.window ≤ 1024;
      few : length s.table ≤ s.window;
      next_id : pos 1 ≤ℤ s.next_id;
    } };
}

/// Returns the length of a message with this payload, in bytes.
fn length_of(payload: Payload<'_>) -> u64
    ensures { result ≡ message_len (content_of payload.entry) }
{
    payload.msg_len()
}

/// Puts a request out.
fn push_request(
    output: &mut OutBuf,
    no: CallNo,
    kind: CallKind,
    payload: Payload<'_>,
    limit: u32,
) -> Result<(), CallRefusal>
    requires { message_len (content_of payload) ≤ limit }
    ensures put { OnOk result
        (output.new ≡ output.old ++ canonical (request no.id kind (content_of payload.entry))) }
    ensures refused { IfErr result (λ e. e ≡ OutOfMemory) }
    ensures unchanged { OnErr result (output.new ≡ output.old) }
{
    match output.push_msg(no.id, 0, kind.flags(), payload, limit) {
        Ok(()) => Ok(()),
        Err(_) => Err(CallRefusal::OutOfMemory),
    }
}

/// Puts a request out, and its call into the table, if it awaits a reply. Where the second of the
/// two is refused memory, the first is taken back.
fn put_out(
    output: &mut OutBuf,
    table: &mut CallTable,
    no: CallNo,
    kind: CallKind,
    payload: Payload<'_>,
    limit: u32,
) -> Result<(), CallRefusal>
    requires fits { message_len (content_of payload) ≤ limit }
    requires free { bearer no.id table.old ≡ None }
    ensures put { OnOk result
        (output.new ≡ output.old ++ canonical (request no.id kind (content_of payload.entry))) }
    ensures awaiting { OnOk result (table.new ≡ awaiting table.old kind no) }
    ensures refused { IfErr result (λ e. e ≡ OutOfMemory) }
    ensures unchanged { OnErr result (output.new ≡ output.old) }
    ensures same_table { OnErr result (table.new ≡ table.old) }
{
    if !kind.awaits_reply() {
        return push_request(output, no, kind, payload, limit);
    }
    let Ok(()) = table.push(no.id, no.number, kind) else {
        return Err(CallRefusal::OutOfMemory);
    };
    match push_request(output, no, kind, payload, limit) {
        Ok(()) => Ok(()),
        Err(refusal) => {
            table.take_back();
            Err(refusal)
        }
    }
}

impl RequestBuf {
    /// Returns the requests of a client that has made no call. It takes no memory.
    pub(crate) fn new(alloc: Global, first_id: i32, window: usize, limit: u32) -> RequestBuf
        requires window { window ≤ 1024 }
        requires first_id { pos 1 ≤ℤ first_id }
        ensures { result ≡ record {
          limit = limit;
          window = window;
          output = [];
          outstanding = [];
          next_id = first_id;
          next_number = Some 0;
        } }
    {
        RequestBuf {
            limit,
            window,
            output: OutBuf::new(alloc),
            table: CallTable::new(alloc),
            next_id: first_id,
            next_number: Some(0),
        }
    }

    /// Returns the bytes that weren't sent yet.
    pub(crate) fn output(&self) -> &[u8]
        ensures { result.now ≡ self.now.output }
    {
        self.output.output()
    }

    /// Takes the first `n` bytes of the output off, since they were sent.
    pub(crate) fn sent(&mut self, n: usize)
        requires { n ≤ length self.old.output }
        ensures { self.new ≡ record self.old { output = drop n self.old.output } }
    {
        self.output.sent(n);
    }

    /// Returns the number of calls that await a reply.
    pub(crate) fn outstanding(&self) -> usize
        ensures count { result ≡ length self.now.outstanding }
        ensures window { length self.now.outstanding ≤ self.now.window }
        ensures distinct { IsDistinct int_eq (ids self.now.outstanding) }
        ensures stream { HasOneStream self.now.outstanding }
    {
        self.table.len()
    }

    /// Returns true if the window has no room for a call of this kind.
    fn is_full(&self, kind: CallKind) -> bool
        ensures { IsTrue result ↔ IsFull self.now kind }
    {
        kind.awaits_reply() && self.table.len() >= self.window
    }

    /// Makes a call.
    ///
    /// # Errors
    ///
    /// The first that applies of `WindowFull`, which isn't told of a call without a reply,
    /// `TooLarge`, `NumbersSpent` and `OutOfMemory`. Nothing changes then.
    pub(crate) fn call(
        &mut self,
        kind: CallKind,
        payload: Payload<'_>,
    ) -> Result<CallNo, CallRefusal>
        ensures called { MatchResult result
            (λ no. IsAccepted self.old kind (content_of payload.entry) no
            × (self.new ≡ after_call self.old kind (content_of payload.entry) no))
            (λ e. IsRefused self.old kind (content_of payload.entry) e) }
        ensures limit { self.new.limit ≡ self.old.limit }
        ensures unchanged { OnErr result (self.new ≡ self.old) }
    {
        if self.is_full(kind) {
            return Err(CallRefusal::WindowFull);
        }
        if length_of(payload) > self.limit as u64 {
            return Err(CallRefusal::TooLarge);
        }
        let Some(number) = self.next_number else {
            return Err(CallRefusal::NumbersSpent);
        };
        let id = self.table.free_id(self.next_id);
        let no = CallNo { number, id };
        put_out(
            &mut self.output,
            &mut self.table,
            no,
            kind,
            payload,
            self.limit,
        )?;
        self.next_id = next_after(id);
        self.next_number = number.checked_add(1);
        Ok(no)
    }

    /// Gives a message with this requestID, responseTo and moreToCome to the call that it belongs
    /// to.
    ///
    /// # Errors
    ///
    /// Why it belongs to none. Nothing changes then.
    pub(crate) fn receive(
        &mut self,
        id: i32,
        to: i32,
        more: bool,
    ) -> Result<ReadyReply, ClientCause>
        ensures received { IsReceived self.old.outstanding id more
            (allowed more (owner self.old.outstanding to))
            result self.new.outstanding }
        ensures others { self.new ≡ record self.old { outstanding = self.new.outstanding } }
    {
        self.table.receive(id, to, more)
    }
}
