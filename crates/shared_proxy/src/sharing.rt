//! Passes requests on to the server, and gives replies to their clients.

#![tactic(auto, using(crate::proofs::Runs::run_on, crate::proofs::Runs::run_none))]

ghost use Rattle.std.specs.Prelude.{◌≡◌, ℕ, ◌⊎◌, [], IfOk, IfSome, IsSome, None, Ok};
ghost use Rattle.std.specs.Prelude.{Err, IsSomeAnd, OnOk, Some, false, nat_eq, true};
ghost use Rattle.indexmap.specs.IndexMap.{get};
ghost use Rattle.wire_msg.specs.{Message};
ghost use Rattle.wire_serve.specs.{state_of};
ghost use Rattle.wire_share.specs.Cores.{CoreDoes, OpensDown, OpensUp, new_core};
ghost use Rattle.wire_share.specs.Routing.{found};
ghost use Rattle.wire_share.specs.Running.{IsRun, seen};
ghost use Rattle.wire_share.specs.declared.awaited.Awaited.{Awaited};
ghost use Rattle.wire_share.specs.declared.client.Client as connections;
ghost use Rattle.shared_proxy.specs.Closing.{IsClosed};
ghost use Rattle.shared_proxy.specs.Leaving.{leave_of_state, wants_memory};
ghost use Rattle.shared_proxy.specs.Passing.{Asks, AwaitsCall, GoesOver, IsBlocked, IsNoted};
ghost use Rattle.shared_proxy.specs.Passing.{IsRefused, NoneAsks, PassesOn, Places, Went};
ghost use Rattle.shared_proxy.specs.Queues.{is_full};
ghost use Rattle.shared_proxy.specs.Shares.{SameClients, SameNumbers, has_to_wait};

use crate::clients::Clients;
use crate::connector::Connector;
use crate::leave::Leave;
use crate::server::is_full;
use crate::servers::Servers;
use crate::side::Side;
use crate::steering::steer_reply;
use proxy::{Sink, Watching};
use sockets::{Delays, Due};
use std::alloc::{AllocError, Global};
use std::io;
use std::io::Write;
use std::net::Net;
use std::rt::Files;
use std::time::Clock;
use wire_peer::CallRefusal;
use wire_share::{Core, GiveRefusal, Need, PassFault, PassRefusal, Place, Use};

/// The core, the lines of its clients and of its connections to the server, which of both are to take
/// a turn, and of which clients a request is held.
#[derive(Drop)]
pub struct Sharing {
    pub core: Core,
    pub clients: Clients,
    pub servers: Servers,
    pub due: Due,
    pub delays: Delays,
    pub connector: Connector,
}

/// Returns true if a client is closed since memory ran out.
fn wants_memory(core: &Core, number: u64) -> bool
    ensures out { result ≡ true → (x : connections.Client) × ((seen core.now).downs number ≡ Some x)
        × IsSomeAnd (leave_of_state (state_of x.downstream.conn))
        (λ leave. wants_memory leave ≡ true) }
    ensures gone { (seen core.now).downs number ≡ None → result ≡ false }
{
    match core.client(number) {
        Some(client) => Leave::of_state(client.state()).is_some_and(|leave| leave.wants_memory()),
        None => false,
    }
}

/// Returns true if a client is there and open.
fn is_open(core: &Core, number: u64) -> bool
    ensures open { result ≡ true → (x : connections.Client)
        × ((seen core.now).downs number ≡ Some x)
        × (leave_of_state (state_of x.downstream.conn) ≡ None) }
    ensures gone { (seen core.now).downs number ≡ None → result ≡ false }
{
    match core.client(number) {
        Some(client) => Leave::of_state(client.state()).is_none(),
        None => false,
    }
}

/// Returns the transaction to which the request of a client belongs that awaits a reply, and the
/// connection where it lives, if there is one.
fn transaction_of(core: &Core, number: u64) -> Option<(Need, u64)>
    ensures routed { IfSome result (λ t. found (seen core.now).routes t.0 ≡ Some t.1) }
    ensures gone { (seen core.now).downs number ≡ None → result ≡ None }
{
    let need = core.client(number)?.wish()?.need;
    match need {
        Need::Transaction(_) => Some((need, core.find(need)?)),
        Need::Any | Need::Own | Need::Kept | Need::Cursor(_) => None,
    }
}

impl Sharing {
    /// Begins without connections. At most `most` of those to the server are shared.
    ///
    /// # Errors
    ///
    /// Returns `AllocError` if memory runs out.
    pub fn new(
        alloc: Global,
        connector: Connector,
        most: usize,
        watching: Watching,
    ) -> Result<Sharing, AllocError>
        ensures begun { IfOk result (λ s. seen s.core ≡ new_core) }
        ensures clients { IfOk result (λ s. (s.clients.map.entries ≡ []) × (s.clients.ended ≡ 0)) }
        ensures servers { IfOk result (λ s. (s.servers.map.entries ≡ [])
            × (s.servers.shared.most ≡ most)) }
        ensures due { IfOk result (λ s. (s.due.keys.items ≡ []) × (s.delays.list.items ≡ [])) }
        ensures connector { IfOk result (λ s. s.connector ≡ connector) }
    {
        Ok(Sharing {
            core: Core::new(alloc),
            clients: Clients::new(alloc, watching),
            servers: Servers::new(alloc, most),
            due: Due::with_room(alloc, 0)?,
            delays: Delays::new(alloc),
            connector,
        })
    }

    /// Accepts a client, if one waits. Returns false if none does.
    ///
    /// # Errors
    ///
    /// Returns an error if memory runs out or writing fails.
    pub fn accept<W: Write>(&mut self, out: &mut W) -> io::Result<bool>
        ensures run { IsRun self.old.core self.new.core }
        ensures accepted { result ≡ Ok true → (d : ℕ)
            × CoreDoes (OpensDown d) (seen self.old.core) (seen self.new.core)
            × IsSome (get nat_eq self.new.clients.map d) }
        ensures none { result ≡ Ok false
            → (self.new.core ≡ self.old.core) × (self.new.clients ≡ self.old.clients) }
        ensures servers { self.new.servers ≡ self.old.servers }
        ensures due { (self.new.due ≡ self.old.due) × (self.new.delays ≡ self.old.delays) }
    {
        let next = self.core.next_client();
        match self.connector.accept(next, self.clients.has_room())? {
            Some(line) => {
                let number = self.core.accept()?;
                self.clients.open(number, line, out)?;
                Ok(true)
            }
            None => Ok(false),
        }
    }

    /// Opens a connection to the server that is used so, and returns its number. If that fails, a
    /// request that needs none of its own, and one that begins a transaction, goes over a shared one,
    /// if there is one.
    fn open(&mut self, net: &impl Net, used: Use) -> Result<Result<u64, Leave>, AllocError>
        ensures run { IsRun self.old.core self.new.core }
        ensures places { Places self.old.core self.new.core }
        ensures opened { (upstream : ℕ) → result ≡ Ok (Ok upstream)
            → CoreDoes (OpensUp upstream used) (seen self.old.core) (seen self.new.core)
            ⊎ (self.new.core ≡ self.old.core) }
        ensures refused { (leave : Leave) → result ≡ Ok (Err leave)
            → (self.new.core ≡ self.old.core) × (self.new.servers ≡ self.old.servers) }
        ensures same { SameClients self.old self.new }
        ensures due { self.new.due ≡ self.old.due }
    {
        match self.connector.connect(net, self.core.next_server())? {
            Ok(line) => {
                let number = self.core.open(used)?;
                self.servers.open(number, line, used == Use::Shared)?;
                Ok(Ok(number))
            }
            Err(failure) => match self.servers.least_busy(&self.core) {
                Some(other) if matches!(used, Use::Shared | Use::Transaction(_)) => Ok(Ok(other)),
                _ => Ok(Err(Leave::Unconnected(failure))),
            },
        }
    }

    /// Returns over which connection the request of a client goes that waits for none, and a new one
    /// if it has to be. Closes that of the session's earlier transaction, if it begins the next one.
    #[tactic(auto, using(crate::proofs::Runs::run_on, crate::proofs::Runs::run_none, crate::proofs::Placings::places_none, crate::proofs::Placings::ends_places))]
    fn place_anew(&mut self, net: &impl Net, number: u64) -> Result<Result<u64, Leave>, AllocError>
        ensures run { IsRun self.old.core self.new.core }
        ensures places { Places self.old.core self.new.core }
        ensures same { SameClients self.old self.new }
    {
        self.end_earlier(number)?;
        match self
            .core
            .place(number, self.servers.place_shared(&self.core))
        {
            Some(Place::At(upstream)) => Ok(Ok(upstream)),
            Some(Place::New(used)) => self.open(net, used),
            Some(Place::Gone(upstream)) => Ok(Err(Leave::Lost(upstream))),
            None => Ok(Err(Leave::Ended)),
        }
    }

    /// Returns over which connection the request of a client goes: the one for which it waits, if that
    /// still serves it, and a new one if it has to be.
    #[tactic(auto, using(crate::proofs::Runs::run_on, crate::proofs::Runs::run_none, crate::proofs::Placings::places_none, crate::proofs::Placings::ends_places))]
    fn place(&mut self, net: &impl Net, number: u64) -> Result<Result<u64, Leave>, AllocError>
        ensures run { IsRun self.old.core self.new.core }
        ensures places { Places self.old.core self.new.core }
        ensures same { SameClients self.old self.new }
    {
        let Some(client) = self.clients.map.get(&number) else {
            return Ok(Err(Leave::Ended));
        };
        if let Some(upstream) = client.waits_at
            && self.core.may_go(number, upstream)
        {
            return Ok(Ok(upstream));
        }
        self.place_anew(net, number)
    }

    /// Cuts a connection, if the script says so of the request of a client that was passed on over
    /// it: behind the `before` bytes that waited before the request.
    fn cut_up(&mut self, number: u64, upstream: u64, before: usize)
        ensures core { self.new.core ≡ self.old.core }
        ensures due { self.new.due ≡ self.old.due }
        ensures same { SameNumbers self.old self.new }
    {
        let Some(client) = self.clients.map.get_mut(&number) else {
            return;
        };
        let Some(server) = self.servers.map.get_mut(&upstream) else {
            return;
        };
        if let Some(count) = client.steering.cut_up {
            client.steering.cut_up = None;
            server.cut_behind(before, self.core.server_output(upstream).len(), count);
        }
    }

    /// Notes that a client awaits the reply to its call over this connection, if it does.
    fn note_caller(&mut self, number: u64, upstream: u64) -> Result<(), AllocError>
        ensures noted { OnOk result ((call : Awaited) → AwaitsCall self.old.core number call
            → IsNoted call.call number upstream self.new.servers) }
        ensures core { self.new.core ≡ self.old.core }
        ensures due { self.new.due ≡ self.old.due }
        ensures same { SameClients self.old self.new }
    {
        let Some(server) = self.servers.map.get_mut(&upstream) else {
            return Ok(());
        };
        match self.core.client(number) {
            Some(client) => match client.awaited() {
                Some(awaited) => server.note(awaited.call, number),
                None => Ok(()),
            },
            None => Ok(()),
        }
    }

    /// Notes who awaits the reply to a request that was passed on, and where the connection is cut,
    /// if the script says so: behind the `before` bytes that waited before it.
    fn note(&mut self, number: u64, upstream: u64, before: usize) -> Result<(), AllocError>
        ensures noted { OnOk result ((call : Awaited) → AwaitsCall self.old.core number call
            → IsNoted call.call number upstream self.new.servers) }
        ensures core { self.new.core ≡ self.old.core }
        ensures due { self.new.due ≡ self.old.due }
        ensures same { SameNumbers self.old self.new }
    {
        if wants_memory(&self.core, number) {
            return Err(AllocError);
        }
        self.cut_up(number, upstream, before);
        self.note_caller(number, upstream)
    }

    /// Passes the request of a client on over this connection. Returns why the client is to be closed,
    /// if it is.
    fn pass_on(&mut self, number: u64, upstream: u64) -> Result<Option<Leave>, AllocError>
        ensures run { IsRun self.old.core self.new.core }
        ensures passed { result ≡ Ok None → GoesOver number upstream self.old.core self.new.core
            ⊎ NoneAsks number self.old.core self.new.core }
        ensures refused { (leave : Leave) → result ≡ Ok (Some leave)
            → seen self.new.core ≡ seen self.old.core }
        ensures same { SameNumbers self.old self.new }
    {
        let before = self.core.server_output(upstream).len();
        match self.core.pass(number, upstream) {
            Ok(()) => {
                self.note(number, upstream, before)?;
                self.due.push(Side::Server(upstream).token())?;
                Ok(None)
            }
            Err(PassFault::Elsewhere) => Ok(Some(Leave::Lost(upstream))),
            Err(PassFault::Refused(PassRefusal::NothingWaits)) => Ok(None),
            Err(PassFault::OutOfMemory)
            | Err(PassFault::Refused(PassRefusal::OutOfMemory))
            | Err(PassFault::Refused(PassRefusal::Call(CallRefusal::OutOfMemory))) => {
                Err(AllocError)
            }
            Err(PassFault::Refused(PassRefusal::Call(refusal))) => {
                Ok(Some(Leave::Refused(refusal)))
            }
        }
    }

    /// Returns true if the request of a client has to wait for this connection, and notes that it
    /// does, or that it doesn't any more.
    fn waits(&mut self, number: u64, upstream: u64) -> Result<bool, AllocError>
        ensures waits { IfOk result (λ waits. waits
            ≡ has_to_wait (is_full self.old.core upstream) number
            (get nat_eq self.old.clients.map number)
            (get nat_eq self.old.servers.map upstream)) }
        ensures blocked { result ≡ Ok true → IsBlocked number upstream self.new }
        ensures core { self.new.core ≡ self.old.core }
        ensures due { self.new.due ≡ self.old.due }
        ensures same { SameNumbers self.old self.new }
    {
        let full = is_full(&self.core, upstream);
        let Some(client) = self.clients.map.get_mut(&number) else {
            return Ok(false);
        };
        let Some(server) = self.servers.map.get_mut(&upstream) else {
            return Ok(false);
        };
        if server.has_to_wait(number, full) {
            server.block(number)?;
            client.waits_at = Some(upstream);
            return Ok(true);
        }
        server.unblock(number);
        client.waits_at = None;
        Ok(false)
    }

    /// Closes a client for this reason, if there is one.
    fn close_for<W: Write>(
        &mut self,
        number: u64,
        leave: Option<Leave>,
        out: &mut W,
    ) -> io::Result<()>
        ensures run { IsRun self.old.core self.new.core }
        ensures closed { (why : Leave) → leave ≡ Some why → IsClosed number self.old self.new }
        ensures none { leave ≡ None
            → (result ≡ Ok tt) × (self.new ≡ self.old) × (out.new ≡ out.old) }
    {
        match leave {
            Some(leave) => self.close(number, leave, out),
            None => Ok(()),
        }
    }

    /// Passes the request of a client on over this connection, and has the next one that waits for it
    /// follow. Returns false if it waits.
    fn pass_over<W: Write>(&mut self, number: u64, upstream: u64, out: &mut W) -> io::Result<bool>
        ensures run { IsRun self.old.core self.new.core }
        ensures went { result ≡ Ok true → Went number upstream self.old self.new }
        ensures waits { result ≡ Ok false
            → IsBlocked number upstream self.new × (self.new.core ≡ self.old.core) }
    {
        if self.waits(number, upstream)? {
            return Ok(false);
        }
        let leave = self.pass_on(number, upstream)?;
        self.close_for(number, leave, out)?;
        self.unblock(upstream)?;
        Ok(true)
    }

    /// Passes the request of a client on. Returns false if it waits, or its client was closed.
    ///
    /// # Errors
    ///
    /// Returns an error if memory runs out or writing fails.
    pub fn pass<W: Write>(&mut self, net: &impl Net, number: u64, out: &mut W) -> io::Result<bool>
        ensures run { IsRun self.old.core self.new.core }
        ensures passed { (m : Message) → Asks (seen self.old.core) number m → result ≡ Ok true
            → PassesOn number self.old.core self.new.core ⊎ IsRefused number self.old self.new }
        ensures waits { result ≡ Ok false → ((upstream : ℕ) × IsBlocked number upstream self.new)
            ⊎ IsRefused number self.old self.new }
    {
        match self.place(net, number)? {
            Ok(upstream) => self.pass_over(number, upstream, out),
            Err(leave) => {
                self.close(number, leave, out)?;
                Ok(false)
            }
        }
    }

    /// Returns the client that awaits the reply that is ready, and forgets that it does.
    fn take_caller(&mut self, upstream: u64) -> Option<u64>
        ensures core { self.new.core ≡ self.old.core }
        ensures none { (seen self.old.core).ups upstream ≡ None → result ≡ None }
        ensures due { self.new.due ≡ self.old.due }
        ensures same { SameClients self.old self.new }
    {
        let call = self.core.server(upstream)?.reply()?.call;
        self.servers
            .map
            .get_mut(&upstream)?
            .callers
            .swap_remove(&call)
    }

    /// Answers a client with the reply that is ready, if it is the one that the client awaits, and lets
    /// go of that. Returns true if the client is to get it.
    fn answer(&mut self, upstream: u64, number: u64) -> Result<bool, AllocError>
        ensures run { IsRun self.old.core self.new.core }
        ensures servers { self.new.servers ≡ self.old.servers }
        ensures due { self.new.due ≡ self.old.due }
        ensures same { SameClients self.old self.new }
    {
        match self.core.give(upstream, number) {
            Ok(()) if wants_memory(&self.core, number) => Err(AllocError),
            Ok(()) => Ok(is_open(&self.core, number)),
            Err(GiveRefusal::NotAwaited | GiveRefusal::Closed) => {
                self.core.release(upstream);
                Ok(false)
            }
            Err(GiveRefusal::OutOfMemory) => Err(AllocError),
        }
    }

    /// Answers a client with the reply that is ready, and does with that what the rule says that its
    /// request met.
    fn steer_answer<R: Files + Clock, W: Write>(
        &mut self,
        upstream: u64,
        number: u64,
        sink: &mut Sink<'_, R>,
        out: &mut W,
    ) -> io::Result<()>
        ensures run { IsRun self.old.core self.new.core }
        ensures servers { self.new.servers ≡ self.old.servers }
        ensures due { self.new.due ≡ self.old.due }
        ensures same { SameNumbers self.old self.new }
    {
        if !self.answer(upstream, number)? {
            return Ok(());
        }
        match self.clients.map.get_mut(&number) {
            Some(client) => steer_reply(&mut self.core, number, client, sink, out),
            None => Ok(()),
        }
    }

    /// Closes the connection of a transaction, if an answer ended it: no route of it is left.
    fn end_transaction(&mut self, transaction: Option<(Need, u64)>) -> Result<(), AllocError>
        ensures run { IsRun self.old.core self.new.core }
        ensures same { SameClients self.old self.new }
        ensures none { transaction ≡ None → (result ≡ Ok tt) × (self.new ≡ self.old) }
    {
        let Some((need, at)) = transaction else {
            return Ok(());
        };
        if self.core.find(need).is_some() || !self.core.has_transaction(at) {
            return Ok(());
        }
        self.finish(at)
    }

    /// Gives the reply that is ready to the client that awaits it, or to none.
    ///
    /// # Errors
    ///
    /// Returns an error if memory runs out, or the sink or writing fails.
    pub fn give<R: Files + Clock, W: Write>(
        &mut self,
        upstream: u64,
        sink: &mut Sink<'_, R>,
        out: &mut W,
    ) -> io::Result<()>
        ensures run { IsRun self.old.core self.new.core }
        ensures delays { self.new.delays ≡ self.old.delays }
        ensures connector { self.new.connector ≡ self.old.connector }
    {
        let Some(number) = self.take_caller(upstream) else {
            self.core.release(upstream);
            return Ok(());
        };
        let transaction = transaction_of(&self.core, number);
        self.steer_answer(upstream, number, sink, out)?;
        self.end_transaction(transaction)?;
        Ok(self.due.push(Side::Client(number).token())?)
    }
}
