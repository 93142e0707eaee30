//! Plays records to a server.

ghost use Rattle.std.specs.Prelude.{◌≡◌, ◌≢◌, [], IfOk, OnOk, length, option_map};
ghost use Rattle.std.specs.Duration.{as_nanos};
ghost use Rattle.replay.specs.Counts.{HasTold};
ghost use Rattle.replay.specs.Lanes.{AddsConn, place_of};
ghost use Rattle.replay.specs.Matchings.{nothing, seen};
ghost use Rattle.replay.specs.Watches.{IsRead, timeout_nanos};

use crate::channel::{Broken, Channel};
use crate::conn::Conn;
use crate::lanes::Lanes;
use crate::pace::{Taken, earlier};
use crate::teller::Teller;
use crate::watch::Watch;
use mio::net::TcpStream;
use mio::{Events, Poll, Token};
use sockets::{EVENTS, IoFailure};
use std::alloc::{AllocError, Global};
use std::io;
use std::io::Write;
use std::net::{Net, SocketAddr};
use std::time::{Clock, Duration};
use wire_frames::{Direction, RawRecord};
use wire_stream::TcpLink;

/// The connections of the record, and the server to which they go.
#[derive(Drop)]
pub struct Player {
    alloc: Global,
    poll: Poll,
    server: SocketAddr,
    watch: Watch,
    lanes: Lanes<TcpLink<TcpStream>>,
}

/// Returns for how long events are waited for from now on: up to the moment `due`, if there is one;
/// not at all if more may be there.
fn timeout(has_more: bool, due: Option<u64>, now: u64) -> Option<Duration>
    ensures { option_map as_nanos result ≡ timeout_nanos has_more due now }
{
    if has_more {
        return Some(Duration::from_micros(0));
    }
    match due {
        Some(due) => Some(Duration::from_micros(due.saturating_sub(now))),
        None => None,
    }
}

impl Player {
    /// Begins without connections.
    ///
    /// # Errors
    ///
    /// Returns an error if the system can't wait for sockets.
    pub fn new(
        net: &impl Net,
        alloc: Global,
        server: SocketAddr,
        watch: Watch,
    ) -> io::Result<Player>
        ensures { IfOk result (λ player. player.lanes.conns.items ≡ []) }
    {
        Ok(Player {
            alloc,
            poll: Poll::new(net)?,
            server,
            watch,
            lanes: Lanes::new(alloc),
        })
    }

    /// Returns the connections.
    pub fn lanes(&self) -> &Lanes<TcpLink<TcpStream>>
        ensures { result.now ≡ self.now.lanes }
    {
        &self.lanes
    }

    /// Connects to the server, under this token.
    fn connect(&self, net: &impl Net, token: usize) -> io::Result<TcpStream> {
        let mut stream = TcpStream::connect(net, self.server)?;
        sockets::register(self.poll.registry(), &mut stream, token)?;
        Ok(stream)
    }

    /// Connects to the server for one more connection of the record.
    fn open(&self, net: &impl Net, number: u64) -> Result<Conn<TcpLink<TcpStream>>, AllocError>
        ensures { IfOk result (λ conn. (conn.number ≡ number)
            × (seen conn.dialog.matching ≡ nothing)) }
    {
        match self.connect(net, self.lanes.len()) {
            Ok(stream) => {
                let channel = Channel::new(self.alloc, TcpLink::new(stream))?;
                Ok(Conn::over(self.alloc, number, channel))
            }
            Err(error) => {
                let broken = Broken::Connecting(IoFailure::of(&error));
                Ok(Conn::lost(self.alloc, number, broken))
            }
        }
    }

    /// Returns the index of the connection of this number, which is made if there is none.
    fn index_of(&mut self, net: &impl Net, number: u64) -> Result<usize, AllocError>
        ensures place { IfOk result (λ i. i ≡ place_of number self.old.lanes.conns.items) }
        ensures there { place_of number self.old.lanes.conns.items
            ≢ length self.old.lanes.conns.items
            → OnOk result (self.new.lanes.conns.items ≡ self.old.lanes.conns.items) }
        ensures made { place_of number self.old.lanes.conns.items
            ≡ length self.old.lanes.conns.items
            → OnOk result (AddsConn number self.old.lanes.conns.items
            self.new.lanes.conns.items) }
    {
        let i = self.lanes.place_of(number);
        if i == self.lanes.len() {
            let conn = self.open(net, number)?;
            self.lanes.add(conn)?;
        }
        Ok(i)
    }

    /// Sends the request of a record that is taken now, or awaits its answer.
    ///
    /// # Errors
    ///
    /// Returns an error if writing fails or memory runs out.
    pub fn take<W: Write + Drop>(
        &mut self,
        net: &impl Net,
        record: RawRecord<'_>,
        taken: Taken,
        teller: &mut Teller<'_, W>,
    ) -> io::Result<()>
        ensures { OnOk result (HasTold teller.old.tally teller.new.tally) }
    {
        let i = self.index_of(net, record.head().connection)?;
        match record.head().direction {
            Direction::ToServer => self.lanes.send(i, record.frame(), taken, teller),
            Direction::FromServer => self.lanes.expect(i, record.frame(), taken, teller),
        }
    }

    /// Waits for events, but not beyond the moment `until`, if there is one, and no longer than for
    /// an answer; not at all if more may be there. Returns the moment behind that.
    fn wait<R: Net + Clock>(
        &mut self,
        rt: &R,
        events: &mut Events<Global>,
        until: Option<u64>,
    ) -> io::Result<u64>
        ensures now { IfOk result (λ now. IsRead self.old.watch.begun now) }
        ensures others { (self.new.lanes ≡ self.old.lanes) × (self.new.watch ≡ self.old.watch) }
    {
        let due = earlier(until, self.lanes.least_due());
        let timeout = timeout(self.lanes.has_more(), due, self.watch.now(rt)?);
        sockets::wait(&mut self.poll, events, timeout)?;
        self.watch.now(rt)
    }

    /// Has each connection take a turn of which these events are. Returns how many events there are.
    #[tactic(auto, using(crate::proofs::Counting::told_none, crate::proofs::Counting::told_both))]
    fn turn_told<W: Write + Drop>(
        &mut self,
        now: u64,
        events: &Events<Global>,
        teller: &mut Teller<'_, W>,
    ) -> io::Result<usize>
        ensures { OnOk result (HasTold teller.old.tally teller.new.tally) }
    {
        let mut left = events.iter();
        for told in 0..usize::MAX {
            let Some(event) = left.next() else {
                return Ok(told);
            };
            let Token(token) = event.token();
            self.lanes.turn(token, now, teller)?;
        }
        Ok(usize::MAX)
    }

    /// Tells which answers are missing by now.
    fn expire<W: Write + Drop>(
        &mut self,
        clock: &impl Clock,
        teller: &mut Teller<'_, W>,
    ) -> io::Result<()>
        ensures { OnOk result (HasTold teller.old.tally teller.new.tally) }
    {
        let now = self.watch.now(clock)?;
        self.lanes.expire(now, teller)
    }

    /// Writes out what was told, and waits for events, but not beyond the moment `until`, if there is
    /// one. Sends what can be sent, takes what came, and tells which answers differ or are missing.
    ///
    /// # Errors
    ///
    /// Returns an error if waiting or writing fails, or memory runs out.
    #[tactic(auto, using(crate::proofs::Counting::told_none, crate::proofs::Counting::told_both))]
    pub fn turn<R: Net + Clock, W: Write + Drop>(
        &mut self,
        rt: &R,
        events: &mut Events<Global>,
        until: Option<u64>,
        teller: &mut Teller<'_, W>,
    ) -> io::Result<()>
        ensures { OnOk result (HasTold teller.old.tally teller.new.tally) }
    {
        teller.flush()?;
        let now = self.wait(rt, events, until)?;
        let told = self.turn_told(now, events, teller)?;
        self.lanes.turn_rest(now, teller)?;
        // Where a wait told as many events as it can, answers may be there of which it told none.
        if told < EVENTS {
            self.expire(rt, teller)?;
        }
        Ok(())
    }

    /// Tells the answers that nothing recorded.
    ///
    /// # Errors
    ///
    /// Returns an error if writing fails or memory runs out.
    pub fn finish<W: Write + Drop>(&mut self, teller: &mut Teller<'_, W>) -> io::Result<()>
        ensures { OnOk result (HasTold teller.old.tally teller.new.tally) }
    {
        self.lanes.finish(teller)
    }
}
