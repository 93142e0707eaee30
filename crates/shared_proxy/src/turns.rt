//! Accepts clients, and has each connection take its turns.

#![tactic(auto, using(crate::proofs::Runs::run_on, crate::proofs::Runs::run_none))]

ghost use Rattle.std.specs.Prelude.{◌≡◌, ◌&&◌, nat_le, not};
ghost use Rattle.std.specs.IoError.{error_kind};
ghost use Rattle.std.specs.List.{list_any};
ghost use Rattle.indexmap.specs.IndexMap.{values};
ghost use Rattle.wire_share.specs.Running.{IsRun, has_output};

use crate::line::Step;
use crate::sharing::Sharing;
use crate::side::Side;
use crate::steering::{Steered, release, steer};
use mio::{Events, Token};
use proxy::{EventLoop, LISTENER, STDIN, Sink};
use script_rules::Script;
use sockets::{ACCEPTS, Acceptor};
use std::alloc::Global;
use std::io;
use std::io::{ErrorKind, Write};
use std::net::Net;
use std::rt::Files;
use std::time::Clock;

/// The most steps of a turn.
const STEPS: u32 = 16;

/// The most requests that are held at once.
const HELD: usize = crate::clients::ROOM;

/// The connections, and what a script says of their requests, if there is one.
#[derive(Drop)]
pub struct Turns {
    alloc: Global,
    sharing: Sharing,
    script: Option<Script>,
}

/// Returns the error that memory ran out.
fn out_of_memory() -> io::Error
    ensures { error_kind result ≡ ErrorKind.OutOfMemory }
{
    io::Error::from(ErrorKind::OutOfMemory)
}

impl Turns {
    /// Begins with these connections, and this script.
    pub fn new(alloc: Global, sharing: Sharing, script: Option<Script>) -> Turns
        ensures sharing { result.sharing ≡ sharing }
        ensures script { result.script ≡ script }
    {
        Turns {
            alloc,
            sharing,
            script,
        }
    }

    /// Does with the request that a client's line holds what the script says.
    fn steer<R: Files + Clock, W: Write>(
        &mut self,
        clock: &R,
        number: u64,
        sink: &mut Sink<'_, R>,
        out: &mut W,
    ) -> io::Result<()>
        ensures run { IsRun self.old.sharing.core self.new.sharing.core }
    {
        let Some(client) = self.sharing.clients.map.get_mut(&number) else {
            return Ok(());
        };
        let Some(script) = &mut self.script else {
            return Ok(());
        };
        match steer(self.alloc, number, client, script, sink, out)? {
            Steered::Again => Ok(()),
            Steered::Held(millis) => self.sharing.delays.hold(clock, number as usize, millis),
            Steered::Over(leave) => self.sharing.close(number, leave, out),
        }
    }

    /// Has a client take a step, if there is one of this number. Returns true if it may take another
    /// one at once.
    fn step_client<R: Net + Files + Clock, W: Write>(
        &mut self,
        rt: &R,
        number: u64,
        sink: &mut Sink<'_, R>,
        out: &mut W,
    ) -> io::Result<bool>
        ensures run { IsRun self.old.sharing.core self.new.sharing.core }
    {
        let Some(client) = self.sharing.clients.map.get_mut(&number) else {
            return Ok(false);
        };
        let step = client.step(&mut self.sharing.core, number)?;
        client.show(sink, out)?;
        match step {
            Step::Again => Ok(true),
            Step::Waits => Ok(false),
            Step::Held => {
                self.steer(rt, number, sink, out)?;
                Ok(true)
            }
            Step::Ready => self.sharing.pass(rt, number, out),
            Step::Over(leave) if leave.wants_memory() => Err(out_of_memory()),
            Step::Over(leave) => {
                self.sharing.close(number, leave, out)?;
                Ok(true)
            }
        }
    }

    /// Has a connection to the server take a step, if there is one of this number. Returns true if
    /// it may take another one at once.
    fn step_server<R: Files + Clock, W: Write>(
        &mut self,
        upstream: u64,
        sink: &mut Sink<'_, R>,
        out: &mut W,
    ) -> io::Result<bool>
        ensures run { IsRun self.old.sharing.core self.new.sharing.core }
    {
        let Some(server) = self.sharing.servers.map.get_mut(&upstream) else {
            return Ok(false);
        };
        if self.sharing.core.is_done(upstream) {
            let _ = self.sharing.drop_server(upstream);
            return Ok(false);
        }
        match server.step(&mut self.sharing.core, upstream)? {
            Step::Again => {
                self.sharing.unblock(upstream)?;
                Ok(true)
            }
            Step::Waits | Step::Held => Ok(false),
            Step::Ready => {
                self.sharing.give(upstream, sink, out)?;
                Ok(true)
            }
            Step::Over(leave) if leave.wants_memory() => Err(out_of_memory()),
            Step::Over(leave) => {
                self.sharing.lose(upstream, leave, out)?;
                Ok(true)
            }
        }
    }

    /// Has a connection take a step, if it is still there. Returns true if it may take another one at
    /// once.
    fn step<R: Net + Files + Clock, W: Write>(
        &mut self,
        rt: &R,
        side: Side,
        sink: &mut Sink<'_, R>,
        out: &mut W,
    ) -> io::Result<bool>
        ensures run { IsRun self.old.sharing.core self.new.sharing.core }
    {
        match side {
            Side::Client(number) => self.step_client(rt, number, sink, out),
            Side::Server(upstream) => self.step_server(upstream, sink, out),
        }
    }

    /// Has a connection take a turn, if it is still there.
    fn turn<R: Net + Files + Clock, W: Write>(
        &mut self,
        rt: &R,
        side: Side,
        sink: &mut Sink<'_, R>,
        out: &mut W,
    ) -> io::Result<()>
        ensures run { IsRun self.old.sharing.core self.new.sharing.core }
    {
        for _ in 0..STEPS {
            if !self.step(rt, side, sink, out)? {
                return Ok(());
            }
        }
        Ok(self.sharing.due.push(side.token())?)
    }

    /// Lets each request go on that was held for long enough.
    fn release(&mut self, clock: &impl Clock) -> io::Result<()>
        ensures core { self.new.sharing.core ≡ self.old.sharing.core }
        ensures script { self.new.script ≡ self.old.script }
    {
        for _ in 0..HELD {
            let Some(number) = self.sharing.delays.take_due(clock)? else {
                break;
            };
            let number = number as u64;
            if let Some(client) = self.sharing.clients.map.get_mut(&number) {
                release(client);
                self.sharing.due.push(Side::Client(number).token())?;
            }
        }
        Ok(())
    }

    /// Has each connection take a turn that is to take one now.
    fn turn_due<R: Net + Files + Clock, W: Write>(
        &mut self,
        rt: &R,
        sink: &mut Sink<'_, R>,
        out: &mut W,
    ) -> io::Result<()>
        ensures run { IsRun self.old.sharing.core self.new.sharing.core }
    {
        let due = self.sharing.due.len();
        for _ in 0..due {
            if let Some(token) = self.sharing.due.pop() {
                self.turn(rt, Side::of_token(token), sink, out)?;
            }
        }
        Ok(())
    }

    /// Has each connection of which these events are take a turn.
    fn take_turns<R: Net + Files + Clock, W: Write>(
        &mut self,
        rt: &R,
        events: &Events<Global>,
        sink: &mut Sink<'_, R>,
        out: &mut W,
    ) -> io::Result<()>
        ensures run { IsRun self.old.sharing.core self.new.sharing.core }
    {
        for event in events.iter() {
            match event.token() {
                LISTENER => self.sharing.connector.resume(),
                STDIN => {}
                Token(token) => self.turn(rt, Side::of_token(token), sink, out)?,
            }
        }
        Ok(())
    }

    /// Accepts clients, until none waits, and no more than `ACCEPTS`.
    fn accept_some<W: Write>(&mut self, out: &mut W) -> io::Result<()>
        ensures run { IsRun self.old.sharing.core self.new.sharing.core }
    {
        for _ in 0..ACCEPTS {
            if !self.sharing.accept(out)? {
                break;
            }
        }
        self.sharing.connector.tell_backlog(out)
    }
}

impl EventLoop for Turns {
    ghost accepts = { λ t. t.sharing.connector.acceptor };

    fn is_over(&self, wanted: u64) -> bool
        ensures { result ≡ (nat_le wanted self.now.sharing.clients.ended
            && not (list_any has_output (values self.now.sharing.core.state.ups))) }
    {
        self.sharing.clients.ended() >= wanted && !self.sharing.core.has_output()
    }

    fn acceptor(&self) -> &Acceptor {
        self.sharing.connector.acceptor()
    }

    fn serve_some<R: Net + Files + Clock, W: Write>(
        &mut self,
        rt: &R,
        events: &mut Events<Global>,
        sink: &mut Sink<'_, R>,
        out: &mut W,
    ) -> io::Result<()>
        ensures run { IsRun self.old.sharing.core self.new.sharing.core }
    {
        out.flush()?;
        sink.flush()?;
        let least = self.sharing.delays.least(rt)?;
        let has_more = !self.sharing.due.is_empty();
        self.sharing.connector.wait(events, has_more, least)?;
        self.release(rt)?;
        self.take_turns(rt, events, sink, out)?;
        self.turn_due(rt, sink, out)?;
        if !self.sharing.connector.is_ready() {
            return Ok(());
        }
        self.accept_some(out)
    }
}
