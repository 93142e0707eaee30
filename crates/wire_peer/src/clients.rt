//! The client's end of a connection.

ghost use Rattle.std.specs.Prelude.{◌≡◌, ◌≢◌, ◌≤◌, None, IfOk, IfSome, IsNone, IsOkAnd};
ghost use Rattle.std.specs.Prelude.{MatchResult, OnErr, drop, length, option_map, refl};
ghost use Rattle.std.specs.List.{IsDistinct};
ghost use Rattle.std.specs.Ordering.{int_eq};
ghost use Rattle.wire_msg.specs.{Carries, IsMessage, IsOpen, Message, SpellsMsg};
ghost use Rattle.wire_stream.specs.{CompletesHeader};
ghost use Rattle.wire_peer.specs.declared.calls.CallKind.TheVariants.{Exhaust, Plain};
ghost use Rattle.wire_peer.specs.declared.calls.CallKind.TheVariants.{Unacknowledged};
ghost use Rattle.wire_peer.specs.declared.client_state.ClientState.TheVariants.{Open};
ghost use Rattle.wire_peer.specs.ClientCauses.{IsSetupRefusal};
ghost use Rattle.wire_peer.specs.ClientSteps.{called, end_cause, ended, IsCalled, IsCallRefusal};
ghost use Rattle.wire_peer.specs.ClientSteps.{new_client, released, Takes, MayTake};
ghost use Rattle.wire_peer.specs.CallTables.{allowed, HasOneStream, ids, IsReceived, owner};
ghost use Rattle.wire_peer.specs.Contents.{content_of};
ghost use Rattle.wire_peer.specs.LentReplies.{ready_of};

use crate::call_table::ReadyReply;
use crate::calls::{CallKind, CallNo, CallRefusal};
use crate::client_state::{ClientCause, ClientRefusal, ClientState};
use crate::limits::{MAX_WINDOW, MIN_LIMIT};
use crate::reply::Reply;
use crate::request_buf::RequestBuf;
use std::alloc::Global;
use std::marker::Model;
use wire_msg::{MAX_MESSAGE_LEN, Payload};
use wire_stream::{MsgReader, Outlet, ReadEnd, ReadRefusal, ReaderState};

/// Makes calls under ids that no outstanding call bears, and gives each reply to the call that it
/// belongs to. Bytes go in and out by way of its caller.
///
/// A reply belongs to the call whose id is its responseTo. Once a call has had a part, replies
/// belong to that call until it is complete, and answer its request or the part before.
#[derive(Drop)]
pub struct Client {
    requests: RequestBuf,
    reader: MsgReader,
    reply: Option<ReadyReply>,
    state: ClientState,
}

impl Model for Client {
    ghost use Rattle.std.specs.Prelude.{◌≡◌};
    ghost use Rattle.wire_peer.specs.ClientSteps.{ClientSeen};
    ghost use Rattle.wire_peer.specs.Standing.{HoldsFor};

    ghost Value = { ClientSeen };

    ghost view = { λ s. record {
      requests = s.requests;
      held = s.reader.held;
      reply = s.reply;
      state = s.state;
    } };

    ghost invariant = { λ s. record {
      limit : s.reader.limit ≡ s.requests.limit;
      holds : HoldsFor s.reader.limit s.reader.held s.reply s.state;
    } };
}

/// Gives the message that a reader has ready to the call that it belongs to.
///
/// # Errors
///
/// Why it belongs to none. Nothing changes then.
fn receive(reader: &MsgReader, requests: &mut RequestBuf) -> Result<ReadyReply, ClientCause>
    requires { IsMessage reader.now.limit reader.now.held }
    ensures received { (m : Message) → SpellsMsg m reader.now.held
        → IsReceived requests.old.outstanding m.id m.flags.more_to_come
        (allowed m.flags.more_to_come (owner requests.old.outstanding m.response_to)) result
        requests.new.outstanding }
    ensures others { requests.new
        ≡ record (requests.old) { outstanding = requests.new.outstanding } }
{
    let Some(message) = reader.message() else {
        unreachable!()
    };
    requests.receive(message.id(), message.response_to(), message.more_to_come())
}

impl Client {
    /// Returns an open client that has made no call. Its ids begin with `first_id`, from 1 to
    /// 2,147,483,647. At most `window` calls are outstanding, from 1 to 1,024. Messages both ways
    /// have at most `limit` bytes, from 26 to 48,000,000. It takes no memory.
    ///
    /// # Errors
    ///
    /// `BadFirstId`, `BadWindow` or `BadLimit`, the first number that is outside its range.
    pub fn new(
        alloc: Global,
        first_id: i32,
        window: usize,
        limit: u32,
    ) -> Result<Client, ClientRefusal>
        ensures { MatchResult result
            (λ client. ((e : ClientRefusal) → IsSetupRefusal first_id window limit e → ⊥)
            × (client ≡ new_client first_id window limit))
            (λ e. IsSetupRefusal first_id window limit e) }
    {
        if first_id < 1 {
            return Err(ClientRefusal::BadFirstId);
        }
        if window < 1 || window > MAX_WINDOW {
            return Err(ClientRefusal::BadWindow);
        }
        if limit < MIN_LIMIT || limit > MAX_MESSAGE_LEN {
            return Err(ClientRefusal::BadLimit);
        }
        Ok(Client {
            requests: RequestBuf::new(alloc, first_id, window, limit),
            reader: MsgReader::new(alloc, limit),
            reply: None,
            state: ClientState::Open,
        })
    }

    /// Makes a call that has one reply.
    ///
    /// # Errors
    ///
    /// The first that applies of `Closed`, `WindowFull`, `TooLarge`, `NumbersSpent` and
    /// `OutOfMemory`. Nothing changes then.
    pub fn call(&mut self, payload: Payload<'_>) -> Result<CallNo, CallRefusal>
        ensures called { MatchResult result
            (λ no. IsCalled self.old Plain (content_of payload.entry) no
            × (self.new ≡ called self.old Plain (content_of payload.entry) no))
            (λ e. IsCallRefusal self.old Plain (content_of payload.entry) e) }
        ensures unchanged { OnErr result (self.new ≡ self.old) }
    {
        self.call_as(CallKind::Plain, payload)
    }

    /// Makes a call that may have more than one reply.
    ///
    /// # Errors
    ///
    /// As for `call`. Nothing changes then.
    pub fn call_exhaust(&mut self, payload: Payload<'_>) -> Result<CallNo, CallRefusal>
        ensures called { MatchResult result
            (λ no. IsCalled self.old Exhaust (content_of payload.entry) no
            × (self.new ≡ called self.old Exhaust (content_of payload.entry) no))
            (λ e. IsCallRefusal self.old Exhaust (content_of payload.entry) e) }
        ensures unchanged { OnErr result (self.new ≡ self.old) }
    {
        self.call_as(CallKind::Exhaust, payload)
    }

    /// Makes a call that has no reply. It is never outstanding.
    ///
    /// # Errors
    ///
    /// As for `call`, but never `WindowFull`. Nothing changes then.
    pub fn send_unacknowledged(&mut self, payload: Payload<'_>) -> Result<CallNo, CallRefusal>
        ensures called { MatchResult result
            (λ no. IsCalled self.old Unacknowledged (content_of payload.entry) no
            × (self.new ≡ called self.old Unacknowledged (content_of payload.entry) no))
            (λ e. IsCallRefusal self.old Unacknowledged (content_of payload.entry) e) }
        ensures unchanged { OnErr result (self.new ≡ self.old) }
    {
        self.call_as(CallKind::Unacknowledged, payload)
    }

    /// Makes a call of this kind.
    fn call_as(&mut self, kind: CallKind, payload: Payload<'_>) -> Result<CallNo, CallRefusal>
        ensures called { MatchResult result
            (λ no. IsCalled self.old kind (content_of payload.entry) no
            × (self.new ≡ called self.old kind (content_of payload.entry) no))
            (λ e. IsCallRefusal self.old kind (content_of payload.entry) e) }
        ensures unchanged { OnErr result (self.new ≡ self.old) }
    {
        if self.state != ClientState::Open {
            return Err(CallRefusal::Closed);
        }
        self.requests.call(kind, payload)
    }

    /// Returns the bytes that weren't sent yet.
    pub fn output(&self) -> &[u8]
        ensures { result.now ≡ self.now.requests.output }
    {
        self.requests.output()
    }

    /// Takes the first `n` bytes of the output off, since they were sent.
    pub fn sent(&mut self, n: usize)
        requires { n ≤ length self.old.requests.output }
        ensures { self.new ≡ record self.old {
          requests = record (self.old.requests) { output = drop n self.old.requests.output };
        } }
    {
        self.requests.sent(n);
    }

    /// Takes the first bytes of `piece`, up to the end of the current message or the 16th byte of a
    /// bad header, and returns how many. It takes none while a reply is ready or the client is
    /// closed. A message that becomes whole makes a reply ready, or closes the client, as bad bytes
    /// do.
    ///
    /// # Errors
    ///
    /// `OutOfMemory` where the piece completes a good header and memory runs out for the announced
    /// message. Nothing changes then, and the piece may be fed again.
    pub fn feed(&mut self, piece: &[u8]) -> Result<usize, ReadRefusal>
        ensures fed { MayTake self.old → IfOk result (λ n. Takes self.old piece.now n self.new) }
        ensures none { (MayTake self.old → ⊥)
            → IsOkAnd result (λ n. n ≡ 0) × (self.new ≡ self.old) }
        ensures refused { OnErr result
            (CompletesHeader self.old.requests.limit self.old.held piece.now) }
        ensures unchanged { OnErr result (self.new ≡ self.old) }
    {
        if self.reply.is_some() || self.state != ClientState::Open {
            return Ok(0);
        }
        let fed = self.reader.feed(piece)?;
        match fed.state {
            ReaderState::Need => Ok(fed.taken),
            ReaderState::Ready => match receive(&self.reader, &mut self.requests) {
                Ok(reply) => {
                    self.reply = Some(reply);
                    Ok(fed.taken)
                }
                Err(cause) => {
                    self.state = ClientState::Closed(cause);
                    Ok(fed.taken)
                }
            },
            ReaderState::Bad(fault) => {
                self.state = ClientState::Closed(ClientCause::Message(fault));
                Ok(fed.taken)
            }
        }
    }

    /// Lends the reply that is ready, and `None` where none is.
    pub fn reply(&self) -> Option<Reply<'_>>
        ensures ready { option_map ready_of result ≡ self.now.reply }
        ensures message { IfSome result (λ r. IsMessage self.now.requests.limit self.now.held) }
        ensures payload { IfSome result (λ r. (m : Message) → SpellsMsg m self.now.held
            → Carries r.payload m.content) }
    {
        let reply = self.reply?;
        let Some(message) = self.reader.message() else {
            unreachable!()
        };
        Some(Reply {
            call: reply.call,
            last: reply.last,
            payload: message.payload(),
        })
    }

    /// Lets go of the reply that is ready, so that more bytes are taken. Where none is, nothing
    /// changes.
    pub fn release(&mut self)
        ensures { self.new ≡ released self.old }
    {
        if self.reply.is_some() {
            self.reader.release();
            self.reply = None;
        }
    }

    /// Tells the client that no more bytes come, which closes it, if it is open.
    pub fn end(&mut self)
        ensures { self.new ≡ ended self.old }
    {
        if self.state == ClientState::Open {
            self.state = ClientState::Closed(self.end_cause());
        }
    }

    /// Returns why an open client is closed where no more bytes come.
    fn end_cause(&self) -> ClientCause
        requires { self.now.state ≡ Open }
        ensures { result ≡ end_cause self.now.reply self.now.held }
    {
        match self.reader.end() {
            ReadEnd::Ended => ClientCause::Ended,
            ReadEnd::EndedInside => ClientCause::EndedInside,
        }
    }

    /// Returns whether the client is open, or why it was closed. An open one that has no reply
    /// ready is between messages or inside one.
    pub fn state(&self) -> ClientState
        ensures state { result ≡ self.now.state }
        ensures between { result ≡ Open → self.now.reply ≡ None
            → IsOpen self.now.requests.limit self.now.held }
    {
        self.state
    }

    /// Returns the number of calls that await a reply. No two of them bear one id, and at most one
    /// has had a part.
    pub fn outstanding(&self) -> usize
        ensures count { result ≡ length self.now.requests.outstanding }
        ensures window { length self.now.requests.outstanding ≤ self.now.requests.window }
        ensures distinct { IsDistinct int_eq (ids self.now.requests.outstanding) }
        ensures stream { HasOneStream self.now.requests.outstanding }
    {
        self.requests.outstanding()
    }
}

impl Outlet for Client {
    ghost waiting = { λ s. s.requests.output };

    ghost with_waiting = { λ s bytes. record s
        { requests = record (s.requests) { output = bytes } } };

    ghost waits = { λ o bytes. refl };

    ghost unchanged = { λ o. refl };

    ghost last = { λ o first then. refl };

    fn output(&self) -> &[u8] {
        Client::output(self)
    }

    fn sent(&mut self, n: usize) {
        Client::sent(self, n);
    }
}
