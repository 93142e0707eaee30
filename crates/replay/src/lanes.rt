//! The connections of the record, each over one of its own to the server.

ghost use Rattle.std.specs.Prelude.{◌≡◌, ◌++◌, ◌∷◌, [], IsOk, List, None, OnOk, length, not, ℕ};
ghost use Rattle.std.specs.List.{list_any};
ghost use Rattle.wire_frames.specs.{frame_bytes};
ghost use Rattle.replay.specs.Carried.{IsCarried};
ghost use Rattle.replay.specs.Counts.{HasTold};
ghost use Rattle.replay.specs.Notes.{AreNoted};
ghost use Rattle.replay.specs.Lanes.{GivesAt, awaits, has_more_at, least_from, place_of, waits};

use crate::carrying::carried;
use crate::conn::Conn;
use crate::cursors::Cursors;
use crate::finding::Finding;
use crate::pace::{Taken, earlier};
use crate::teller::Teller;
use std::alloc::{AllocError, Global};
use std::io;
use std::io::Write;
use wire_frames::RawFrame;
use wire_stream::Link;

/// The most messages that a connection takes in a turn.
const STEPS: u32 = 1024;

/// The connections of the record.
#[derive(Drop)]
pub struct Lanes<L: Link + Drop> {
    conns: Vec<Conn<L>>,
    /// What was found on a connection and not told yet.
    findings: Vec<Finding>,
    /// The cursors of the record whose ids on the server are known.
    cursors: Cursors,
}

impl<L: Link + Drop> Lanes<L> {
    /// Begins without connections. It takes no memory.
    pub fn new(alloc: Global) -> Lanes<L>
        ensures conns { result.conns.items ≡ [] }
        ensures findings { result.findings.items ≡ [] }
        ensures cursors { result.cursors.list.items ≡ [] }
    {
        Lanes {
            conns: Vec::new(alloc),
            findings: Vec::new(alloc),
            cursors: Cursors::new(alloc),
        }
    }

    /// Returns how many connections there are.
    pub fn len(&self) -> usize
        ensures { result ≡ length self.now.conns.items }
    {
        self.conns.len()
    }

    /// Returns the index of the connection of this number, or how many there are if there is none.
    pub fn place_of(&self, number: u64) -> usize
        ensures { result ≡ place_of number self.now.conns.items }
    {
        match self.conns.iter().position(|conn| conn.number == number) {
            Some(i) => i,
            None => self.conns.len(),
        }
    }

    /// Adds a connection, behind all others.
    ///
    /// # Errors
    ///
    /// Returns `AllocError` if memory runs out.
    pub fn add(&mut self, conn: Conn<L>) -> Result<(), AllocError>
        ensures added { OnOk result (self.new.conns.items ≡ self.old.conns.items ++ conn ∷ []) }
        ensures others { self.new ≡ record self.old { conns = self.new.conns } }
    {
        self.conns.push(conn)?;
        Ok(())
    }

    /// Tells what was found on the connection of this number, also if that ended in an error, which
    /// is returned then.
    fn tell<W: Write + Drop>(
        &mut self,
        number: u64,
        done: Result<(), AllocError>,
        teller: &mut Teller<'_, W>,
    ) -> io::Result<()>
        ensures conns { self.new.conns.items ≡ self.old.conns.items }
        ensures done { OnOk result (IsOk done) }
        ensures counted { OnOk result (HasTold teller.old.tally teller.new.tally) }
        ensures told { OnOk result (self.new.findings.items ≡ []) }
        ensures noted { OnOk result (AreNoted self.old.findings.items
            self.old.cursors.list.items self.new.cursors.list.items) }
    {
        teller.tell_all(number, &mut self.findings, &mut self.cursors)?;
        done?;
        Ok(())
    }

    /// Sends a recorded request that is taken now over the connection at this index, as these bytes.
    #[tactic(auto, using(crate::proofs::Counting::told_none, crate::proofs::Counting::told_both))]
    fn send_as<W: Write + Drop>(
        &mut self,
        i: usize,
        frame: RawFrame<'_>,
        sent: &[u8],
        taken: Taken,
        teller: &mut Teller<'_, W>,
    ) -> io::Result<()>
        ensures given { OnOk result (GivesAt L.sent i sent.now
            self.old.conns.items self.new.conns.items) }
        ensures told { OnOk result (HasTold teller.old.tally teller.new.tally) }
    {
        let Some(conn) = self.conns.get_mut(i) else {
            return Ok(());
        };
        let number = conn.number;
        let done = conn.send(frame, sent, taken, &mut self.findings);
        self.tell(number, done, teller)?;
        Ok(())
    }

    /// Sends a recorded request that is taken now over the connection at this index, and over no
    /// other one, with the ids on the server of the cursors in it.
    ///
    /// # Errors
    ///
    /// Returns an error if writing fails or memory runs out.
    pub fn send<W: Write + Drop>(
        &mut self,
        i: usize,
        frame: RawFrame<'_>,
        taken: Taken,
        teller: &mut Teller<'_, W>,
    ) -> io::Result<()>
        ensures given { OnOk result ((sent : List ℕ)
            × IsCarried self.old.cursors.list.items (frame_bytes frame.entry) sent
            × GivesAt L.sent i sent self.old.conns.items self.new.conns.items) }
        ensures told { OnOk result (HasTold teller.old.tally teller.new.tally) }
    {
        let alloc = *self.findings.allocator();
        let sent = carried(alloc, &self.cursors, frame.as_bytes())?;
        self.send_as(i, frame, &sent, taken, teller)
    }

    /// Awaits a recorded answer that is taken now on the connection at this index.
    ///
    /// # Errors
    ///
    /// Returns an error if writing fails or memory runs out.
    #[tactic(auto, using(crate::proofs::Counting::told_none, crate::proofs::Counting::told_both))]
    pub fn expect<W: Write + Drop>(
        &mut self,
        i: usize,
        frame: RawFrame<'_>,
        taken: Taken,
        teller: &mut Teller<'_, W>,
    ) -> io::Result<()>
        ensures told { OnOk result (HasTold teller.old.tally teller.new.tally) }
    {
        let Some(conn) = self.conns.get_mut(i) else {
            return Ok(());
        };
        let number = conn.number;
        let done = conn.expect(frame, taken, &mut self.findings);
        self.tell(number, done, teller)
    }

    /// Returns true if recorded answers are awaited.
    pub fn awaits(&self) -> bool
        ensures { result ≡ list_any awaits self.now.conns.items }
    {
        for conn in &self.conns {
            if conn.awaits() {
                return true;
            }
        }
        false
    }

    /// Returns true if something is left to be sent.
    fn waits(&self) -> bool
        ensures { result ≡ list_any waits self.now.conns.items }
    {
        for conn in &self.conns {
            if conn.waits() {
                return true;
            }
        }
        false
    }

    /// Returns true if all requests were sent.
    pub fn is_sent(&self) -> bool
        ensures { result ≡ not (list_any waits self.now.conns.items) }
    {
        !self.waits()
    }

    /// Returns true if a connection is to take another turn at once.
    pub fn has_more(&self) -> bool
        ensures { result ≡ list_any (λ c. c.has_more) self.now.conns.items }
    {
        for conn in &self.conns {
            if conn.has_more() {
                return true;
            }
        }
        false
    }

    /// Returns the first moment up to which an answer is awaited, or bytes have to be sent.
    pub fn least_due(&self) -> Option<u64>
        ensures { result ≡ least_from None self.now.conns.items }
    {
        let mut least = None;
        for conn in &self.conns {
            least = earlier(least, conn.least_due());
        }
        least
    }

    /// Sends what waits on a connection.
    #[tactic(auto, using(crate::proofs::Counting::told_none, crate::proofs::Counting::told_both))]
    fn resume<W: Write + Drop>(
        &mut self,
        i: usize,
        now: u64,
        teller: &mut Teller<'_, W>,
    ) -> io::Result<()>
        ensures given { OnOk result
            (GivesAt L.sent i [] self.old.conns.items self.new.conns.items) }
        ensures told { OnOk result (HasTold teller.old.tally teller.new.tally) }
    {
        let Some(conn) = self.conns.get_mut(i) else {
            return Ok(());
        };
        let number = conn.number;
        let done = conn.resume(now, &mut self.findings);
        self.tell(number, done, teller)?;
        Ok(())
    }

    /// Takes a message that came on a connection. Returns true if more may be there.
    #[tactic(auto, using(crate::proofs::Counting::told_none, crate::proofs::Counting::told_both))]
    fn step<W: Write + Drop>(&mut self, i: usize, teller: &mut Teller<'_, W>) -> io::Result<bool>
        ensures given { OnOk result
            (GivesAt L.sent i [] self.old.conns.items self.new.conns.items) }
        ensures told { OnOk result (HasTold teller.old.tally teller.new.tally) }
    {
        let Some(conn) = self.conns.get_mut(i) else {
            return Ok(false);
        };
        let number = conn.number;
        let done = conn.step(&mut self.findings);
        let has_more = conn.has_more();
        self.tell(number, done, teller)?;
        Ok(has_more)
    }

    /// Sends what waits on the connection at this index, if there is one, and takes the messages
    /// that came, up to `STEPS`, so that a server that sends without end keeps nothing else waiting.
    ///
    /// # Errors
    ///
    /// Returns an error if writing fails or memory runs out.
    #[tactic(auto, using(crate::proofs::Counting::told_none, crate::proofs::Counting::told_both))]
    pub fn turn<W: Write + Drop>(
        &mut self,
        i: usize,
        now: u64,
        teller: &mut Teller<'_, W>,
    ) -> io::Result<()>
        ensures { OnOk result (HasTold teller.old.tally teller.new.tally) }
    {
        self.resume(i, now, teller)?;
        for _ in 0..STEPS {
            if !self.step(i, teller)? {
                break;
            }
        }
        Ok(())
    }

    /// Has each connection take another turn that is to take one at once.
    ///
    /// # Errors
    ///
    /// Returns an error if writing fails or memory runs out.
    #[tactic(auto, using(crate::proofs::Counting::told_none, crate::proofs::Counting::told_both))]
    pub fn turn_rest<W: Write + Drop>(
        &mut self,
        now: u64,
        teller: &mut Teller<'_, W>,
    ) -> io::Result<()>
        ensures { OnOk result (HasTold teller.old.tally teller.new.tally) }
    {
        for i in 0..self.conns.len() {
            self.turn_again(i, now, teller)?;
        }
        Ok(())
    }

    /// Has a connection take another turn if it is to take one at once.
    #[tactic(auto, using(crate::proofs::Counting::told_none))]
    fn turn_again<W: Write + Drop>(
        &mut self,
        i: usize,
        now: u64,
        teller: &mut Teller<'_, W>,
    ) -> io::Result<()>
        ensures { OnOk result (HasTold teller.old.tally teller.new.tally) }
    {
        if !self.has_more_at(i) {
            return Ok(());
        }
        self.turn(i, now, teller)
    }

    /// Returns true if the connection at this index is to take another turn at once.
    fn has_more_at(&self, i: usize) -> bool
        ensures { result ≡ has_more_at i self.now.conns.items }
    {
        match self.conns.get(i) {
            Some(conn) => conn.has_more(),
            None => false,
        }
    }

    /// Tells which answers are missing by now on a connection.
    #[tactic(auto, using(crate::proofs::Counting::told_none, crate::proofs::Counting::told_both))]
    fn expire_one<W: Write + Drop>(
        &mut self,
        i: usize,
        now: u64,
        teller: &mut Teller<'_, W>,
    ) -> io::Result<()>
        ensures given { OnOk result
            (GivesAt L.sent i [] self.old.conns.items self.new.conns.items) }
        ensures told { OnOk result (HasTold teller.old.tally teller.new.tally) }
    {
        let Some(conn) = self.conns.get_mut(i) else {
            return Ok(());
        };
        let number = conn.number;
        let done = conn.expire(now, &mut self.findings);
        self.tell(number, done, teller)?;
        Ok(())
    }

    /// Tells which answers are missing by now.
    ///
    /// # Errors
    ///
    /// Returns an error if writing fails or memory runs out.
    #[tactic(auto, using(crate::proofs::Counting::told_none, crate::proofs::Counting::told_both))]
    pub fn expire<W: Write + Drop>(
        &mut self,
        now: u64,
        teller: &mut Teller<'_, W>,
    ) -> io::Result<()>
        ensures { OnOk result (HasTold teller.old.tally teller.new.tally) }
    {
        for i in 0..self.conns.len() {
            self.expire_one(i, now, teller)?;
        }
        Ok(())
    }

    /// Tells the answers that nothing recorded on a connection.
    #[tactic(auto, using(crate::proofs::Counting::told_none, crate::proofs::Counting::told_both))]
    fn finish_one<W: Write + Drop>(
        &mut self,
        i: usize,
        teller: &mut Teller<'_, W>,
    ) -> io::Result<()>
        ensures { OnOk result (HasTold teller.old.tally teller.new.tally) }
    {
        let Some(conn) = self.conns.get_mut(i) else {
            return Ok(());
        };
        let number = conn.number;
        let done = conn.finish(&mut self.findings);
        self.tell(number, done, teller)
    }

    /// Tells the answers that nothing recorded.
    ///
    /// # Errors
    ///
    /// Returns an error if writing fails or memory runs out.
    #[tactic(auto, using(crate::proofs::Counting::told_none, crate::proofs::Counting::told_both))]
    pub fn finish<W: Write + Drop>(&mut self, teller: &mut Teller<'_, W>) -> io::Result<()>
        ensures { OnOk result (HasTold teller.old.tally teller.new.tally) }
    {
        for i in 0..self.conns.len() {
            self.finish_one(i, teller)?;
        }
        Ok(())
    }
}
