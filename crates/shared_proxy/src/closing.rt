//! Closes clients and connections to the server, and lets go of what was for them.

#![tactic(auto, using(crate::proofs::Runs::run_on, crate::proofs::Runs::run_none))]

ghost use Rattle.std.specs.Prelude.{◌≡◌, IfOk, IfSome, None, Ok, OnOk, Some, false, nat_eq};
ghost use Rattle.indexmap.specs.IndexMap.{Updates, get};
ghost use Rattle.sockets.specs.{IsReady};
ghost use Rattle.wire_share.specs.Cores.{CoreDoes, Finishes, LosesUp};
ghost use Rattle.wire_share.specs.Running.{IsRun, seen};
ghost use Rattle.wire_share.specs.declared.server.Server as upstreams;
ghost use Rattle.shared_proxy.specs.Closing.{Closes, Ends, Leaves, Loses};
ghost use Rattle.shared_proxy.specs.Queues.{is_full};
ghost use Rattle.shared_proxy.specs.Shares.{SameClients, unblocked};

use crate::leave::Leave;
use crate::server::{Server, is_full};
use crate::sharing::Sharing;
use crate::side::Side;
use std::alloc::AllocError;
use std::io;
use std::io::Write;
use wire_share::Core;

/// Notes in the core that a connection to the server is used no more, if it is there.
fn end_use(core: &mut Core, upstream: u64)
    ensures run { IsRun core.old core.new }
    ensures ends { Ends core.old core.new }
    ensures finished { (y : upstreams.Server) → (seen core.old).ups upstream ≡ Some y
        → CoreDoes (Finishes upstream) (seen core.old) (seen core.new) }
{
    core.finish(upstream);
}

impl Sharing {
    /// Closes a connection to the server, with which its cursors and transactions are lost. Returns
    /// it.
    pub fn drop_server(&mut self, upstream: u64) -> Option<Server>
        ensures run { IsRun self.old.core self.new.core }
        ensures ends { Ends self.old.core self.new.core }
        ensures lost { (y : upstreams.Server) → (seen self.old.core).ups upstream ≡ Some y
            → CoreDoes (LosesUp upstream) (seen self.old.core) (seen self.new.core) }
        ensures was { result ≡ get nat_eq self.old.servers.map upstream }
        ensures gone { Updates nat_eq self.old.servers.map self.new.servers.map upstream None }
        ensures same { SameClients self.old self.new }
        ensures due { self.new.due ≡ self.old.due }
    {
        self.core.lose(upstream);
        self.servers.close(upstream)
    }

    /// Closes a connection to the server behind the calls over it, since what used it is over. The
    /// requests that wait for it go over others.
    #[tactic(auto)]
    pub fn finish(&mut self, upstream: u64) -> Result<(), AllocError>
        ensures run { IsRun self.old.core self.new.core }
        ensures ends { Ends self.old.core self.new.core }
        ensures finished { (y : upstreams.Server) → (seen self.old.core).ups upstream ≡ Some y
            → CoreDoes (Finishes upstream) (seen self.old.core) (seen self.new.core) }
        ensures same { SameClients self.old self.new }
    {
        end_use(&mut self.core, upstream);
        let Some(server) = self.servers.map.get_mut(&upstream) else {
            return Ok(());
        };
        for number in server.blocked.iter() {
            self.due.push(Side::Client(*number).token())?;
        }
        server.blocked.clear();
        self.due.push(Side::Server(upstream).token())
    }

    /// Closes a connection to the server that a client used which is gone: its own at once, if nothing
    /// waits to be sent over it, and else behind what does.
    #[tactic(auto, using(crate::proofs::Runs::run_on, crate::proofs::Runs::run_none, crate::proofs::Closings::ends_on, crate::proofs::Closings::ends_none))]
    fn leave_server(&mut self, upstream: u64) -> Result<(), AllocError>
        ensures run { IsRun self.old.core self.new.core }
        ensures ends { Ends self.old.core self.new.core }
        ensures same { SameClients self.old self.new }
    {
        if !self.core.has_transaction(upstream) && self.core.server_output(upstream).is_empty() {
            let _ = self.drop_server(upstream);
            return Ok(());
        }
        self.finish(upstream)
    }

    /// Closes the connection of the session's earlier transaction, if it has one, where the request of
    /// a client begins the next one.
    #[tactic(auto, using(crate::proofs::Runs::run_on, crate::proofs::Runs::run_none, crate::proofs::Closings::ends_on, crate::proofs::Closings::ends_none))]
    pub fn end_earlier(&mut self, number: u64) -> Result<(), AllocError>
        ensures run { IsRun self.old.core self.new.core }
        ensures ends { Ends self.old.core self.new.core }
        ensures same { SameClients self.old self.new }
    {
        match self.core.earlier(number) {
            Some(upstream) => self.finish(upstream),
            None => Ok(()),
        }
    }

    /// Closes the connections to the server that only a client used which is gone, and those for the
    /// transactions that it began. What still comes of these goes over others.
    #[tactic(auto, using(crate::proofs::Runs::run_on, crate::proofs::Runs::run_none, crate::proofs::Closings::ends_on, crate::proofs::Closings::ends_none))]
    fn leave_servers(&mut self, number: u64) -> Result<(), AllocError>
        ensures run { IsRun self.old.core self.new.core }
        ensures ends { Ends self.old.core self.new.core }
        ensures same { SameClients self.old self.new }
    {
        for _ in 0..u64::MAX {
            match self.core.used_by(number) {
                Some(upstream) => self.leave_server(upstream)?,
                None => break,
            }
        }
        Ok(())
    }

    /// Lets the requests that wait for a connection go on without that of a client, which is gone, if
    /// it waited for one.
    fn leave_queue(&mut self, number: u64, waits_at: Option<u64>) -> Result<(), AllocError>
        ensures core { self.new.core ≡ self.old.core }
        ensures same { SameClients self.old self.new }
    {
        let Some(upstream) = waits_at else {
            return Ok(());
        };
        if let Some(server) = self.servers.map.get_mut(&upstream) {
            server.unblock(number);
        }
        self.unblock(upstream)
    }

    /// Lets go of the line of a client that the core has closed, for this reason, and of the
    /// connections to the server that it alone uses, or that are for transactions that it began.
    #[tactic(auto, using(crate::proofs::Runs::run_on, crate::proofs::Runs::run_none, crate::proofs::Closings::ends_on, crate::proofs::Closings::ends_none))]
    fn let_go<W: Write>(&mut self, number: u64, leave: Leave, out: &mut W) -> io::Result<()>
        ensures run { IsRun self.old.core self.new.core }
        ensures ends { Ends self.old.core self.new.core }
        ensures gone { Updates nat_eq self.old.clients.map self.new.clients.map number None }
        ensures connector { self.new.connector ≡ self.old.connector }
    {
        let Some(client) = self.clients.close(number, leave, out)? else {
            return Ok(());
        };
        let waits_at = client.waits_at;
        drop(client);
        self.leave_queue(number, waits_at)?;
        Ok(self.leave_servers(number)?)
    }

    /// Closes a client, for this reason, and the connections to the server that it alone uses, or
    /// that are for transactions that it began.
    ///
    /// # Errors
    ///
    /// Returns an error if memory runs out or writing fails.
    pub fn close<W: Write>(&mut self, number: u64, leave: Leave, out: &mut W) -> io::Result<()>
        ensures run { IsRun self.old.core self.new.core }
        ensures closed { Closes number self.old.core self.new.core }
        ensures gone { Updates nat_eq self.old.clients.map self.new.clients.map number None }
        ensures ready { IsReady self.new.connector.acceptor }
    {
        self.connector.resume();
        self.delays.forget(number as usize);
        self.core.close(number);
        self.let_go(number, leave, out)
    }

    /// Writes why a connection to the server is lost, but that the server ended it only where
    /// connections are told of.
    fn tell_lost<W: Write>(&self, upstream: u64, leave: Leave, out: &mut W) -> io::Result<()>
        ensures silent { self.now.clients.watching.told ≡ false → leave ≡ Leave.Ended
            → (result ≡ Ok tt) × (out.new ≡ out.old) }
    {
        if self.clients.are_told() || !matches!(leave, Leave::Ended) {
            writeln!(out, "upstream {upstream} {leave}")?;
        }
        Ok(())
    }

    /// Closes a client that awaited a reply of a connection to the server, which is lost, if it is
    /// gone with that.
    #[tactic(auto, using(crate::proofs::Runs::run_none, crate::proofs::Closings::leaves_none, crate::proofs::Closings::closes_leaves))]
    fn close_caller<W: Write>(&mut self, number: u64, upstream: u64, out: &mut W) -> io::Result<()>
        ensures run { IsRun self.old.core self.new.core }
        ensures leaves { Leaves self.old.core self.new.core }
    {
        if self.core.client(number).is_none() {
            return self.close(number, Leave::Lost(upstream), out);
        }
        Ok(())
    }

    /// Closes the clients that awaited a reply of a connection to the server, which is lost.
    #[tactic(auto, using(crate::proofs::Runs::run_on, crate::proofs::Runs::run_none, crate::proofs::Closings::leaves_on, crate::proofs::Closings::leaves_none))]
    fn close_lost<W: Write>(
        &mut self,
        server: &Server,
        upstream: u64,
        out: &mut W,
    ) -> io::Result<()>
        ensures run { IsRun self.old.core self.new.core }
        ensures leaves { Leaves self.old.core self.new.core }
    {
        for number in server.callers.values() {
            self.close_caller(*number, upstream, out)?;
        }
        Ok(())
    }

    /// Has the client take a turn that alone used a connection to the server, which is lost, if one
    /// did.
    fn wake_owner(&mut self, owner: Option<u64>) -> Result<(), AllocError>
        ensures core { self.new.core ≡ self.old.core }
        ensures servers { self.new.servers ≡ self.old.servers }
        ensures same { SameClients self.old self.new }
    {
        match owner {
            Some(number) => self.due.push(Side::Client(number).token()),
            None => Ok(()),
        }
    }

    /// Has the clients take a turn whose requests waited for a connection to the server, which is lost.
    fn wake(&mut self, server: &Server) -> Result<(), AllocError>
        ensures core { self.new.core ≡ self.old.core }
        ensures servers { self.new.servers ≡ self.old.servers }
        ensures same { SameClients self.old self.new }
    {
        for waiting in server.blocked.iter() {
            self.due.push(Side::Client(*waiting).token())?;
        }
        Ok(())
    }

    /// Closes all clients that awaited a reply of a connection to the server, which is lost for this
    /// reason, and has those take a turn that used it alone or whose requests waited for it.
    #[tactic(auto, using(crate::proofs::Runs::run_on, crate::proofs::Runs::run_none, crate::proofs::Closings::leaves_on, crate::proofs::Closings::leaves_none, crate::proofs::Closings::closes_leaves))]
    fn end_calls<W: Write>(
        &mut self,
        server: &Server,
        upstream: u64,
        leave: Leave,
        owner: Option<u64>,
        out: &mut W,
    ) -> io::Result<()>
        ensures run { IsRun self.old.core self.new.core }
        ensures leaves { Leaves self.old.core self.new.core }
    {
        self.tell_lost(upstream, leave, out)?;
        self.close_lost(server, upstream, out)?;
        self.wake_owner(owner)?;
        Ok(self.wake(server)?)
    }

    /// Closes a connection to the server, for this reason, and all clients that await a reply of it.
    /// Why is written, too, but that the server ended it only where connections are told of. The client
    /// that alone uses it takes a turn, to leave.
    ///
    /// # Errors
    ///
    /// Returns an error if writing fails.
    #[tactic(auto, using(crate::proofs::Runs::run_on, crate::proofs::Runs::run_none, crate::proofs::Closings::leaves_on, crate::proofs::Closings::leaves_none, crate::proofs::Closings::ends_leaves))]
    pub fn lose<W: Write>(&mut self, upstream: u64, leave: Leave, out: &mut W) -> io::Result<()>
        ensures run { IsRun self.old.core self.new.core }
        ensures leaves { Leaves self.old.core self.new.core }
        ensures lost { (y : upstreams.Server) → (seen self.old.core).ups upstream ≡ Some y
            → Loses upstream self.old.core self.new.core }
        ensures none { get nat_eq self.old.servers.map upstream ≡ None
            → (result ≡ Ok tt) × (self.new.clients ≡ self.old.clients) × (out.new ≡ out.old) }
    {
        let owner = self.core.owner(upstream);
        match self.drop_server(upstream) {
            Some(server) => self.end_calls(&server, upstream, leave, owner, out),
            None => Ok(()),
        }
    }

    /// Has the client take a turn whose request is the first one that waits for a connection, if it may
    /// be passed on now.
    ///
    /// # Errors
    ///
    /// Returns `AllocError` if memory runs out.
    pub fn unblock(&mut self, upstream: u64) -> Result<(), AllocError>
        ensures due { OnOk result (self.new.due.keys.items
            ≡ unblocked (is_full self.old.core upstream)
            (get nat_eq self.old.servers.map upstream) self.old.due.keys.items) }
        ensures core { self.new.core ≡ self.old.core }
        ensures servers { self.new.servers ≡ self.old.servers }
        ensures same { SameClients self.old self.new }
    {
        let Some(server) = self.servers.map.get(&upstream) else {
            return Ok(());
        };
        match server.blocked.front() {
            Some(number) if !is_full(&self.core, upstream) => self
                .due
                .push(Side::Client(*number).token()),
            _ => Ok(()),
        }
    }
}
