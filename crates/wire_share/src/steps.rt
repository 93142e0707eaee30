//! Passes requests on, and loses connections.

ghost use Rattle.std.specs.Prelude.{◌≡◌, IfErr, List, None, OnOk, Some};
ghost use Rattle.wire_msg.specs.{Message};
ghost use Rattle.wire_msg.specs.declared.payloads.Payload.{Payload};
ghost use Rattle.wire_peer.specs.{LogEntry};
ghost use Rattle.wire_peer.specs.declared.calls.CallNo.{CallNo};
ghost use Rattle.wire_share.specs.Acts.{Passes};
ghost use Rattle.wire_share.specs.Cores.{CoreDoes, Finishes, LosesUp, NotesBegin, Ran, Shares};
ghost use Rattle.wire_share.specs.Cores.{core_seen, new_core};
ghost use Rattle.wire_share.specs.Refusing.{PassFails, refused_as};
ghost use Rattle.wire_share.specs.declared.server.Server.{Server};

use crate::need::SessionId;
use crate::refusals::PassRefusal;
use crate::routes::Routes;
use crate::server::was_passed;
use crate::state::State;
use crate::uses::Use;
use indexmap::IndexMap;
use std::alloc::{AllocError, Global};

/// Why a request wasn't passed on, or what was missing then.
#[derive(Clone, Copy)]
pub enum PassFault {
    /// It may not go over this connection, one of both isn't there, or no request waits.
    Elsewhere,
    /// It may go there, and was refused.
    Refused(PassRefusal),
    /// It was passed on, and memory ran out.
    OutOfMemory,
}

/// Notes on which connection a transaction begins, if one does.
fn note_begin(
    routes: &mut Routes,
    begun: Option<SessionId>,
    upstream: u64,
) -> Result<(), AllocError>
    ensures { NotesBegin begun upstream routes.old routes.new }
{
    match begun {
        Some(session) => routes.begin(session, upstream),
        None => Ok(()),
    }
}

/// Returns the fault of a request that was not passed on, and had this result.
fn refused_as(answer: Result<(), PassRefusal>) -> PassFault
    ensures { result ≡ refused_as answer }
{
    match answer {
        Ok(()) => PassFault::Elsewhere,
        Err(refusal) => PassFault::Refused(refusal),
    }
}

/// Returns what comes of a request that was passed on, and had this result.
fn passed_as(answer: Result<(), PassRefusal>) -> Result<(), PassFault>
    ensures { IfErr result (λ fault. fault ≡ PassFault.OutOfMemory) }
{
    match answer {
        Err(PassRefusal::OutOfMemory) => Err(PassFault::OutOfMemory),
        _ => Ok(()),
    }
}

impl State {
    /// Begins without connections. It takes no memory.
    pub(crate) fn new(alloc: Global) -> State
        ensures { core_seen result ≡ new_core }
    {
        State {
            alloc,
            downs: IndexMap::new(alloc),
            ups: IndexMap::new(alloc),
            routes: Routes::new(alloc),
            accepted: 0,
            opened: 0,
        }
    }

    /// Loses a connection to the server, if it is there, with the clients that await a reply of it.
    pub(crate) fn lose(&mut self, upstream: u64)
        ensures lost { (y : Server) → (core_seen self.old).ups upstream ≡ Some y
            → CoreDoes (LosesUp upstream) (core_seen self.old) (core_seen self.new) }
        ensures none { (core_seen self.old).ups upstream ≡ None
            → core_seen self.new ≡ core_seen self.old }
    {
        let Some(_lost) = self.ups.swap_remove(&upstream) else {
            return;
        };
        self.routes.lose(upstream);
        self.downs.retain(|_, client| !client.hangs_on(upstream));
    }

    /// Notes that a connection to the server is used no more, if it is there.
    pub(crate) fn finish(&mut self, upstream: u64)
        ensures finished { (y : Server) → (core_seen self.old).ups upstream ≡ Some y
            → CoreDoes (Finishes upstream) (core_seen self.old) (core_seen self.new) }
        ensures none { (core_seen self.old).ups upstream ≡ None
            → core_seen self.new ≡ core_seen self.old }
    {
        if let Some(server) = self.ups.get_mut(&upstream) {
            server.used = Use::Over;
        }
    }

    /// Passes the request of a client that waits on over this connection, if it may go there.
    ///
    /// # Errors
    ///
    /// Returns `Elsewhere` if it may not, `Refused` if none was passed on, and `OutOfMemory` if it
    /// was and memory ran out.
    pub(crate) fn pass(&mut self, number: u64, upstream: u64) -> Result<(), PassFault>
        ensures run { Ran (core_seen self.old) (core_seen self.new) }
        ensures passed { OnOk result ((m : Message) × (payload : Payload) × (call : CallNo)
            × (made : List LogEntry)
            × CoreDoes (Shares (Passes number upstream m payload call made))
            (core_seen self.old) (core_seen self.new)) }
        ensures refused { IfErr result (λ fault. PassFails fault number upstream
            (core_seen self.old) (core_seen self.new)) }
    {
        if !self.may_go(number, upstream) {
            return Err(PassFault::Elsewhere);
        }
        let Some(client) = self.downs.get_mut(&number) else {
            return Err(PassFault::Elsewhere);
        };
        let Some(wish) = client.wish() else {
            return Err(PassFault::Elsewhere);
        };
        let Some(server) = self.ups.get_mut(&upstream) else {
            return Err(PassFault::Elsewhere);
        };
        let result = server.pass_on(&mut client.downstream);
        if !was_passed(result) {
            return Err(refused_as(result));
        }
        match note_begin(&mut self.routes, wish.begun, upstream) {
            Ok(()) => passed_as(result),
            Err(_) => Err(PassFault::OutOfMemory),
        }
    }
}
