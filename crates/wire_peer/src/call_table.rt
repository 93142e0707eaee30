//! The calls that await replies, by the ids of their requests.

ghost use Rattle.std.specs.Prelude.{◌≡◌, ◌≤◌, ◌≤ℤ◌, ◌++◌, ◌∷◌, [], ℤ, None, Some, OnOk, OnErr};
ghost use Rattle.std.specs.Prelude.{IfOk, IsOk, length, pos};
ghost use Rattle.std.specs.List.{IsDistinct};
ghost use Rattle.std.specs.Map.{set_value};
ghost use Rattle.std.specs.Ordering.{int_eq};
ghost use Rattle.wire_peer.specs.Begun.{IsAlone, IsBegun, IsFreshLast, NoneBegun};
ghost use Rattle.wire_peer.specs.FreeIds.{IsFirstFree};
ghost use Rattle.wire_peer.specs.CallTables.{after_part, allowed, bearer, HasOneStream, ids};
ghost use Rattle.wire_peer.specs.CallTables.{IsReceived, of_bearer, of_stream, owner, Table};
ghost use Rattle.wire_peer.specs.CallTables.{without};

use crate::calls::CallKind;
use crate::client_state::ClientCause;
use crate::free_id::next_free;
use indexmap::IndexMap;
use std::alloc::{AllocError, Global};
use std::marker::Model;

/// A call that awaits a reply.
#[derive(Clone, Copy, Debug, PartialEq, Eq)]
pub struct Outstanding {
    /// The call's number.
    pub call: u64,
    /// What replies it may have.
    pub kind: CallKind,
    /// The requestID of its last part, if it has had one.
    pub last: Option<i32>,
}

/// A reply that is ready.
#[derive(Clone, Copy, Debug, PartialEq, Eq)]
pub struct ReadyReply {
    /// The number of the call that it belongs to.
    pub call: u64,
    /// No other reply to that call comes.
    pub last: bool,
}

/// The outstanding calls in the order in which they were made. No two bear one id, and at most one
/// has had a part. A contract sees them as a list of ids and calls.
#[derive(Drop)]
pub(crate) struct CallTable {
    calls: IndexMap<i32, Outstanding>,
    /// The id of the call that has had a part.
    begun: Option<i32>,
}

impl Model for CallTable {
    ghost use Rattle.wire_peer.specs.Begun.{IsBegun};
    ghost use Rattle.wire_peer.specs.CallTables.{Table};

    ghost Value = { Table };

    ghost view = { λ s. s.calls.entries };

    ghost invariant = { λ s. IsBegun s.calls.entries s.begun };
}

/// Takes the call out that bears this id. Those behind it close up.
fn take_out(calls: &mut IndexMap<i32, Outstanding>, id: i32)
    ensures { calls.new.entries ≡ without id calls.old.entries }
{
    calls.shift_remove(&id);
}

impl CallTable {
    /// Returns a table without calls. It takes no memory.
    pub(crate) fn new(alloc: Global) -> CallTable
        ensures { result ≡ [] }
    {
        CallTable {
            calls: IndexMap::new(alloc),
            begun: None,
        }
    }

    /// Returns the number of calls.
    pub(crate) fn len(&self) -> usize
        ensures count { result ≡ length self.now }
        ensures distinct { IsDistinct int_eq (ids self.now) }
        ensures stream { HasOneStream self.now }
    {
        self.calls.len()
    }

    /// Returns the first id from `next` on that no call bears.
    pub(crate) fn free_id(&self, next: i32) -> i32
        requires next { pos 1 ≤ℤ next }
        requires few { length self.now ≤ 1024 }
        ensures free { IsFirstFree next (ids self.now) result }
        ensures least { pos 1 ≤ℤ result }
    {
        if self.calls.contains_key(&next) {
            next_free(next, self.calls.keys().as_slice())
        } else {
            next
        }
    }

    /// Puts a call behind the others, whose id none of them bears.
    ///
    /// # Errors
    ///
    /// Returns `AllocError` if memory runs out. Then nothing changes.
    pub(crate) fn push(&mut self, id: i32, call: u64, kind: CallKind) -> Result<(), AllocError>
        requires { bearer id self.old ≡ None }
        ensures pushed { OnOk result
            (self.new ≡ self.old ++ (id, record { call = call; kind = kind; last = None }) ∷ []) }
        ensures unchanged { OnErr result (self.new ≡ self.old) }
    {
        let outstanding = Outstanding {
            call,
            kind,
            last: None,
        };
        self.calls.insert(id, outstanding)?;
        Ok(())
    }

    /// Takes the call away that was put last. It has had no part.
    pub(crate) fn take_back(&mut self)
        requires { IsFreshLast self.old }
        ensures { (t : Table) (o : ℤ × Outstanding) → self.old ≡ t ++ o ∷ [] → self.new ≡ t }
    {
        drop(self.calls.pop());
    }

    /// Gives a message with this requestID, responseTo and moreToCome to the call that it belongs
    /// to. A call whose last reply it is leaves the table, and those after it close up.
    ///
    /// # Errors
    ///
    /// `StreamBroken` where a call has had a part and the message doesn't answer it, `UnknownReply`
    /// where no call has and none bears the id, and else `MoreNotAllowed` where more replies are
    /// announced than the call may have. Nothing changes then.
    pub(crate) fn receive(
        &mut self,
        id: i32,
        to: i32,
        more: bool,
    ) -> Result<ReadyReply, ClientCause>
        ensures { IsReceived self.old id more (allowed more (owner self.old to)) result self.new }
    {
        let (request, call) = self.owner(to)?;
        if more && !call.kind.allows_more() {
            return Err(ClientCause::MoreNotAllowed);
        }
        if more {
            self.note_part(request, call, id);
        } else {
            self.complete(request, call);
        }
        Ok(ReadyReply {
            call: call.call,
            last: !more,
        })
    }

    /// Returns the id and the call that a message with this responseTo belongs to.
    fn owner(&self, to: i32) -> Result<(i32, Outstanding), ClientCause>
        ensures owner { result ≡ owner self.now to }
        ensures alone { IfOk result (λ o. IsAlone self.now o.0 o.1) }
    {
        match self.begun {
            Some(id) => self.stream_owner(id, to),
            None => self.bearer_owner(to),
        }
    }

    /// Returns the call that bears this id, with the id.
    fn bearer_owner(&self, to: i32) -> Result<(i32, Outstanding), ClientCause>
        requires { NoneBegun self.now }
        ensures owner { result ≡ of_bearer (bearer to self.now) to }
        ensures alone { IfOk result (λ o. IsAlone self.now o.0 o.1) }
    {
        match self.calls.get(&to) {
            Some(call) => Ok((to, *call)),
            None => Err(ClientCause::UnknownReply(to)),
        }
    }

    /// Returns the call that has had a part and bears this id, if the message answers its request
    /// or that part.
    fn stream_owner(&self, id: i32, to: i32) -> Result<(i32, Outstanding), ClientCause>
        requires { IsBegun self.now (Some id) }
        ensures owner { (o : Outstanding) → bearer id self.now ≡ Some o
            → result ≡ of_stream (id, o) to }
        ensures alone { IfOk result (λ o. IsAlone self.now o.0 o.1) }
    {
        let Some(call) = self.calls.get(&id) else {
            unreachable!()
        };
        if to == id || call.last == Some(to) {
            Ok((id, *call))
        } else {
            Err(ClientCause::StreamBroken)
        }
    }

    /// Notes that the call has had a part with this id.
    fn note_part(&mut self, id: i32, call: Outstanding, part: i32)
        requires { IsAlone self.old id call }
        ensures { self.new ≡ set_value (int_eq id) self.old (after_part call part) }
    {
        let after = Outstanding {
            last: Some(part),
            ..call
        };
        match self.calls.insert(id, after) {
            Ok(_) => {}
            Err(_) => unreachable!(),
        }
        self.begun = Some(id);
    }

    /// Takes the call out that bears this id, since its last reply came.
    fn complete(&mut self, id: i32, call: Outstanding)
        requires { IsAlone self.old id call }
        ensures { self.new ≡ without id self.old }
    {
        take_out(&mut self.calls, id);
        self.begun = None;
    }
}
