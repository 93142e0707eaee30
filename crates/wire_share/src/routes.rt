//! On which connections to the server the cursors and transactions of clients live.

ghost use Rattle.std.specs.Ordering.{int_eq};
ghost use Rattle.std.specs.Prelude.{◌≡◌, ◌≢◌, ℤ, [], MatchOption, None, OnErr, OnOk, Option, Some};
ghost use Rattle.std.specs.Prelude.{pos};
ghost use Rattle.bson_elem.specs.{Spells, Tree};
ghost use Rattle.bson_raw.specs.{ShowsFound, TreeValue, array_bytes, document_bytes};
ghost use Rattle.wire_share.specs.Needs.{command_name, ended_by, id_of, more_of, opened_by};
ghost use Rattle.wire_share.specs.Needs.{topic_of};
ghost use Rattle.wire_share.specs.Routing.{after_begin, after_cursor, after_kill, after_loss};
ghost use Rattle.wire_share.specs.Routing.{after_reply, found, made_room, no_routes, without_begin};
ghost use Rattle.wire_share.specs.Routing.{with_cursors, with_transactions, without_cursor};
ghost use Rattle.wire_share.specs.Routing.{without_id};
ghost use Rattle.wire_share.specs.Routing.{without_ids, without_listed, without_session};

use crate::need::{Need, SessionId, Topic, ended_by, id_of, more_of, opened_by, topic_in};
use crate::route_table::RouteTable;
use bson_raw::{RawArray, RawBson, RawDocument};
use std::alloc::{AllocError, Global};
use std::marker::Model;

/// The cursors that are open, by their ids, and the transactions that began, by their sessions,
/// each with the number of its upstream. At most 65,536 of each are kept: where one more is noted,
/// the one that was noted first is forgotten. Contracts see the record `RoutesSeen`.
#[derive(Drop)]
pub struct Routes {
    cursors: RouteTable<i64>,
    transactions: RouteTable<SessionId>,
}

impl Model for Routes {
    ghost use Rattle.wire_share.specs.Routing.{RoutesSeen};

    ghost Value = { RoutesSeen };

    ghost view = { λ s. record { cursors = s.cursors; transactions = s.transactions } };
}

impl Routes {
    /// Begins without cursors and transactions. It takes no memory.
    pub fn new(alloc: Global) -> Routes
        ensures { result ≡ no_routes }
    {
        Routes {
            cursors: RouteTable::new(alloc),
            transactions: RouteTable::new(alloc),
        }
    }

    /// Returns the number of the upstream that serves this need alone, if one is known.
    pub fn find(&self, need: Need) -> Option<u64>
        ensures { result ≡ found self.now need }
    {
        match need {
            Need::Any | Need::Own | Need::Kept => None,
            Need::Cursor(id) => self.cursors.get(id),
            Need::Transaction(session) => self.transactions.get(session),
        }
    }

    /// Notes that the transaction of a session began on this upstream.
    ///
    /// # Errors
    ///
    /// Returns `AllocError` if memory runs out. Nothing changes then, except that the oldest
    /// transaction may be gone.
    pub fn begin(&mut self, session: SessionId, upstream: u64) -> Result<(), AllocError>
        ensures noted { OnOk result (self.new ≡ after_begin session upstream self.old) }
        ensures room { OnErr result (self.new ≡ without_begin session self.old) }
    {
        self.transactions.note(session, upstream)
    }

    /// Forgets the cursor whose id is this value, if it is an id.
    fn forget_id(&mut self, value: Option<RawBson<'_>>)
        ensures { (found : Option TreeValue)
            → MatchOption value.entry (found ≡ None) (λ v. ShowsFound v found)
            → self.new ≡ with_cursors self.old (without_id (id_of found) self.old.cursors) }
    {
        if let Some(id) = id_of(value) {
            self.cursors.forget(id);
        }
    }

    /// Forgets the cursors with these ids.
    fn kill(&mut self, ids: RawArray<'_>)
        ensures { (t : Tree) → Spells t (array_bytes ids.entry)
            → self.new ≡ with_cursors self.old (without_ids t self.old.cursors) }
    {
        for id in ids.iter() {
            self.forget_id(Some(id));
        }
    }

    /// Forgets the cursors whose ids this value lists, if it lists any.
    fn kill_listed(&mut self, value: Option<RawBson<'_>>)
        ensures { (found : Option TreeValue)
            → MatchOption value.entry (found ≡ None) (λ v. ShowsFound v found)
            → self.new ≡ with_cursors self.old (without_listed found self.old.cursors) }
    {
        if let Some(RawBson::Array(ids)) = value {
            self.kill(ids);
        }
    }

    /// Forgets the cursors that a request has closed, if it closes cursors.
    fn forget_cursors(&mut self, request: RawDocument<'_>)
        ensures { (t : Tree) → Spells t (document_bytes request.entry)
            → self.new ≡ with_cursors self.old
            (after_kill (topic_of (command_name t)) t self.old.cursors) }
    {
        match topic_in(request) {
            Topic::KillCursors => self.kill_listed(request.get("cursors")),
            _ => {}
        }
    }

    /// Forgets the transaction that a request has ended, if it ends one.
    fn forget_transaction(&mut self, request: RawDocument<'_>)
        ensures { (t : Tree) → Spells t (document_bytes request.entry)
            → self.new ≡ with_transactions self.old
            (without_session (ended_by t) self.old.transactions) }
    {
        if let Some(session) = ended_by(request) {
            self.transactions.forget(session);
        }
    }

    /// Forgets the cursor that a request asked for more of, if it asked for more.
    fn forget_asked(&mut self, request: RawDocument<'_>)
        ensures { (t : Tree) → Spells t (document_bytes request.entry)
            → self.new ≡ with_cursors self.old
            (without_id (more_of (topic_of (command_name t)) t) self.old.cursors) }
    {
        if let Some(id) = more_of(request) {
            self.cursors.forget(id);
        }
    }

    /// Notes what a reply of this upstream tells of a cursor: that it is open, or has no more to
    /// give to the request.
    fn note_cursor(
        &mut self,
        request: RawDocument<'_>,
        told: Option<i64>,
        upstream: u64,
    ) -> Result<(), AllocError>
        ensures noted { (t : Tree) → Spells t (document_bytes request.entry)
            → OnOk result (self.new ≡ with_cursors self.old
            (after_cursor told t upstream self.old.cursors)) }
        ensures room { OnErr result ((id : ℤ) × (told ≡ Some id) × (id ≢ pos 0)
            × (self.new ≡ with_cursors self.old (made_room int_eq id self.old.cursors))) }
    {
        match told {
            None => Ok(()),
            Some(0) => {
                self.forget_asked(request);
                Ok(())
            }
            Some(id) => self.cursors.note(id, upstream),
        }
    }

    /// Notes what the reply of this upstream to a request tells: that a cursor is open, that one
    /// has no more to give, that cursors were closed, or that a transaction ended.
    ///
    /// # Errors
    ///
    /// Returns `AllocError` if memory runs out for a cursor that is open. What the request has ended
    /// is forgotten then, and the oldest cursor may be gone.
    pub fn answered(
        &mut self,
        request: RawDocument<'_>,
        reply: RawDocument<'_>,
        upstream: u64,
    ) -> Result<(), AllocError>
        ensures noted { (asked told : Tree) → Spells asked (document_bytes request.entry)
            → Spells told (document_bytes reply.entry)
            → OnOk result (self.new ≡ after_reply asked told upstream self.old) }
        ensures room { (asked told : Tree) → Spells asked (document_bytes request.entry)
            → Spells told (document_bytes reply.entry)
            → OnErr result ((id : ℤ) × (opened_by told ≡ Some id) × (id ≢ pos 0)
            × (self.new ≡ without_cursor asked id self.old)) }
    {
        self.forget_cursors(request);
        self.forget_transaction(request);
        self.note_cursor(request, opened_by(reply), upstream)
    }

    /// Forgets the cursors and transactions of an upstream that was lost.
    pub fn lose(&mut self, upstream: u64)
        ensures { self.new ≡ after_loss upstream self.old }
    {
        self.cursors.forget_upstream(upstream);
        self.transactions.forget_upstream(upstream);
    }
}
