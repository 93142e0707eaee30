//! The pairs of connections, by their keys.

ghost use Rattle.std.specs.Prelude.{◌≡◌, ◌+◌, ◌==◌, ◌⊎◌, [], Bool, IfOk, IfSome, IsOk, None, OnErr};
ghost use Rattle.std.specs.Prelude.{OnOk, Some, false, is_some, not, true};
ghost use Rattle.std.specs.VecDeque.{deque_len};
ghost use Rattle.std.specs.Io.KnownBytes.{Appends};
ghost use Rattle.slab.specs.Slab.{Updates, get, slab_len};
ghost use Rattle.wire_stream.specs.{Rose};
ghost use Rattle.sockets.specs.{with_key};
ghost use Rattle.proxy.specs.Drawing.{MayGo};
ghost use Rattle.proxy.specs.Holding.{view_of};
ghost use Rattle.proxy.specs.Told.{new_line};
ghost use Rattle.proxy.specs.Settling.{IsSettled, delays_without};

use crate::chance::drawn_cut;
use crate::direction::Direction;
use crate::ending::Ending;
use crate::held_link::HeldLink;
use crate::options::Watching;
use crate::outcome::Outcome;
use crate::pair::Pair;
use crate::sink::Sink;
use crate::socket::Socket;
use mio::net::TcpStream;
use script_rules::Script;
use slab::Slab;
use sockets::{Delays, IoFailure};
use std::alloc::{AllocError, Global};
use std::collections::VecDeque;
use std::io;
use std::io::Write;
use std::rt::Files;
use std::time::{Clock, Duration};

/// The most pairs at once.
pub const ROOM: usize = 1024;

/// The faults that are made: none, or those of a script, and cuts that are drawn from a seed.
#[derive(Drop)]
pub struct Faults {
    pub script: Option<Script>,
    pub seed: Option<u64>,
}

/// The pairs of connections, by their keys.
#[derive(Drop)]
pub struct Pairs {
    alloc: Global,
    pairs: Slab<Pair>,
    /// What is told of them.
    watching: Watching,
    faults: Faults,
    /// The pairs of which a request is held.
    delays: Delays,
    /// The keys of those whose turns ended before there was nothing to do, each once.
    again: VecDeque<usize>,
    /// How many were opened, counted up to 2^64 - 1.
    opened: u64,
    /// How many ended, counted up to 2^64 - 1.
    ended: u64,
}

impl Pairs {
    /// Begins without pairs. It takes no memory.
    pub fn new(alloc: Global, watching: Watching, faults: Faults) -> Pairs
        ensures pairs { slab_len result.pairs ≡ 0 }
        ensures watching { result.watching ≡ watching }
        ensures faults { result.faults ≡ faults }
        ensures delays { result.delays.list.items ≡ [] }
        ensures again { result.again.items ≡ [] }
        ensures opened { result.opened ≡ 0 }
        ensures ended { result.ended ≡ 0 }
    {
        Pairs {
            alloc,
            pairs: Slab::new(alloc),
            watching,
            faults,
            delays: Delays::new(alloc),
            again: VecDeque::new(alloc),
            opened: 0,
            ended: 0,
        }
    }

    /// Returns how many there are.
    pub fn len(&self) -> usize
        ensures { result ≡ slab_len self.now.pairs }
    {
        self.pairs.len()
    }

    /// Returns how many ended.
    pub fn ended(&self) -> u64
        ensures { result ≡ self.now.ended }
    {
        self.ended
    }

    /// Returns true if a turn ended before there was nothing to do.
    pub fn has_more(&self) -> bool
        ensures { result ≡ not (deque_len self.now.again == 0) }
    {
        !self.again.is_empty()
    }

    /// Returns the key that the next pair has.
    pub fn next_key(&self) -> usize
        ensures { result ≡ self.now.pairs.vacant_key }
    {
        self.pairs.vacant_key()
    }

    /// Returns how many bytes of the connection of this number may go this way.
    fn left(&self, number: u64, direction: Direction) -> u64
        ensures { MayGo self.now.faults.seed number direction result }
    {
        match self.faults.seed {
            Some(seed) => drawn_cut(seed, number).left(direction),
            None => u64::MAX,
        }
    }

    /// Has a link hold its messages, if a script says what becomes of them.
    fn hold(&self, link: &mut HeldLink<Socket>) -> Result<(), AllocError>
        ensures none { self.now.faults.script ≡ None → IsOk result × (link.new ≡ link.old) }
        ensures view { view_of link.new.held ≡ view_of link.old.held }
    {
        if self.faults.script.is_some() {
            link.hold(self.alloc)
        } else {
            Ok(())
        }
    }

    /// Returns the link over a stream of the connection of this number. Bytes that come over it go
    /// this way.
    fn link(
        &self,
        number: u64,
        stream: TcpStream,
        direction: Direction,
    ) -> Result<HeldLink<Socket>, AllocError>
        ensures left { IfOk result (λ l. MayGo self.now.faults.seed number direction l.held.left) }
        ensures owed { IfOk result (λ l. (view_of l.held).owed ≡ []) }
        ensures rest { IfOk result (λ l. (view_of l.held).rest ≡ []) }
    {
        let socket = Socket::new(self.alloc, stream)?;
        let mut link = HeldLink::new(self.alloc, socket, self.left(number, direction));
        self.hold(&mut link)?;
        Ok(link)
    }

    /// Makes the pair of this number.
    fn pair(&self, number: u64, near: TcpStream, far: TcpStream) -> Result<Pair, AllocError>
        ensures number { IfOk result (λ p. p.number ≡ number) }
        ensures there { IfOk result (λ p. MayGo self.now.faults.seed number Direction.There
            p.relay.near.held.left) }
        ensures back { IfOk result (λ p. MayGo self.now.faults.seed number Direction.Back
            p.relay.far.held.left) }
        ensures watched { IfOk result (λ p. is_some p.watches ≡ self.now.watching.watched) }
        ensures marks { IfOk result (λ p. p.marks.marks.items ≡ []) }
        ensures delayed { IfOk result (λ p. p.delayed ≡ false) }
    {
        let near = self.link(number, near, Direction::There)?;
        let far = self.link(number, far, Direction::Back)?;
        Pair::new(self.alloc, number, near, far, self.watching.watched)
    }

    /// Writes that the connection of this number is new, if that is told.
    fn tell_new<W: Write>(&self, number: u64, out: &mut W) -> io::Result<()>
        ensures told { self.now.watching.told ≡ true
            → OnOk result (Appends (W.contents out.old) (W.contents out.new) (new_line number)) }
        ensures untold { self.now.watching.told ≡ false → IsOk result × (out.new ≡ out.old) }
    {
        if self.watching.told {
            writeln!(out, "{number} new")
        } else {
            Ok(())
        }
    }

    /// Passes bytes between two connections from now on, and writes that they are new, if that is
    /// told.
    ///
    /// # Errors
    ///
    /// Returns an error if memory runs out, where both are closed, or if writing fails.
    pub fn open<W: Write>(&mut self, near: TcpStream, far: TcpStream, out: &mut W) -> io::Result<()>
        ensures len { OnOk result (slab_len self.new.pairs ≡ slab_len self.old.pairs + 1) }
        ensures opened { OnOk result (Rose self.old.opened self.new.opened) }
        ensures numbered { OnOk result (IfSome (get self.new.pairs self.old.pairs.vacant_key)
            (λ p. p.number ≡ self.new.opened)) }
        ensures unopened { OnErr result (self.new.opened ≡ self.old.opened) }
        ensures others { self.new
            ≡ record self.old { pairs = self.new.pairs; opened = self.new.opened } }
    {
        let number = self.opened.saturating_add(1);
        let pair = self.pair(number, near, far)?;
        self.tell_new(number, out)?;
        let _ = self.pairs.insert(pair)?;
        self.opened = number;
        Ok(())
    }

    /// Counts a connection that is closed at once, since connecting to the server failed, and
    /// writes that.
    ///
    /// # Errors
    ///
    /// Returns an error if writing fails.
    pub fn refuse<W: Write>(&mut self, failure: IoFailure, out: &mut W) -> io::Result<()>
        ensures opened { Rose self.old.opened self.new.opened }
        ensures ended { Rose self.old.ended self.new.ended }
        ensures others { self.new
            ≡ record self.old { opened = self.new.opened; ended = self.new.ended } }
    {
        let number = self.opened.saturating_add(1);
        self.opened = number;
        self.ended = self.ended.saturating_add(1);
        self.tell_new(number, out)?;
        writeln!(out, "{number} failed: connecting: {failure}")
    }

    /// Notes that a pair is to take another turn.
    fn take_up(&mut self, key: usize) -> io::Result<()>
        ensures added { OnOk result (self.new.again.items ≡ with_key key self.old.again.items) }
        ensures unchanged { OnErr result (self.new.again.items ≡ self.old.again.items) }
        ensures others { self.new ≡ record self.old { again = self.new.again } }
    {
        if !self.again.contains(&key) {
            self.again.push_back(key)?;
        }
        Ok(())
    }

    /// Closes both connections of a pair, which ended so.
    fn close<W: Write>(&mut self, key: usize, ending: Ending, out: &mut W) -> io::Result<()>
        ensures ended { Rose self.old.ended self.new.ended }
        ensures forgot { self.new.delays.list.items
            ≡ delays_without key self.old.delays.list.items }
        ensures removed { Updates self.old.pairs self.new.pairs key None }
        ensures others { self.new ≡ record self.old {
          ended = self.new.ended;
          delays = self.new.delays;
          pairs = self.new.pairs;
        } }
    {
        self.ended = self.ended.saturating_add(1);
        self.delays.forget(key);
        match self.pairs.try_remove(key) {
            Some(pair) => pair.write_end(ending, self.watching.told, out),
            None => Ok(()),
        }
    }

    /// Does with a pair what its turn came to: it takes another turn, now or where a request was
    /// held for long enough, or waits for an event, or is closed.
    fn settle<R: Clock, W: Write>(
        &mut self,
        clock: &R,
        key: usize,
        outcome: Outcome,
        out: &mut W,
    ) -> io::Result<()>
        ensures settled { OnOk result (IsSettled key outcome
            self.old.pairs self.new.pairs self.old.delays.list.items self.new.delays.list.items
            self.old.again.items self.new.again.items self.old.ended self.new.ended) }
        ensures ended { (self.new.ended ≡ self.old.ended) ⊎ Rose self.old.ended self.new.ended }
        ensures others { self.new ≡ record self.old {
          ended = self.new.ended;
          delays = self.new.delays;
          pairs = self.new.pairs;
          again = self.new.again;
        } }
    {
        match outcome {
            Outcome::Again => self.take_up(key),
            Outcome::Waits => Ok(()),
            Outcome::Held(millis) => {
                self.delays.hold(clock, key, millis)?;
                self.take_up(key)
            }
            Outcome::Over(ending) => self.close(key, ending, out),
        }
    }

    /// Has a pair take a turn, if there is one of this key.
    ///
    /// # Errors
    ///
    /// Returns an error if memory runs out, the sink or writing fails, or the clock can't be read.
    pub fn turn<R: Files + Clock, W: Write>(
        &mut self,
        clock: &R,
        key: usize,
        sink: &mut Sink<'_, R>,
        out: &mut W,
    ) -> io::Result<()>
        ensures none { get self.old.pairs key ≡ None → IsOk result × (out.new ≡ out.old) }
        ensures opened { self.new.opened ≡ self.old.opened }
        ensures watching { self.new.watching ≡ self.old.watching }
        ensures ended { (self.new.ended ≡ self.old.ended) ⊎ Rose self.old.ended self.new.ended }
    {
        let Some(pair) = self.pairs.get_mut(key) else {
            return Ok(());
        };
        let outcome = pair.turn(self.faults.script.as_mut(), sink, out)?;
        self.settle(clock, key, outcome, out)
    }

    /// Has each pair take another turn that isn't done, or of which a request was held for long
    /// enough.
    ///
    /// # Errors
    ///
    /// Returns an error if memory runs out, the sink or writing fails, or the clock can't be read.
    pub fn turn_again<R: Files + Clock, W: Write>(
        &mut self,
        clock: &R,
        sink: &mut Sink<'_, R>,
        out: &mut W,
    ) -> io::Result<()>
        ensures opened { self.new.opened ≡ self.old.opened }
        ensures watching { self.new.watching ≡ self.old.watching }
    {
        self.release(clock)?;
        let due = self.again.len();
        'due: for _ in 0..due {
            if let Some(key) = self.again.pop_front() {
                self.turn(clock, key, sink, out)?;
            }
        }
        Ok(())
    }

    /// Lets each request go on that was held for long enough.
    fn release(&mut self, clock: &impl Clock) -> io::Result<()>
        ensures opened { self.new.opened ≡ self.old.opened }
        ensures watching { self.new.watching ≡ self.old.watching }
        ensures ended { self.new.ended ≡ self.old.ended }
    {
        'due: for _ in 0..ROOM {
            let Some(key) = self.delays.take_due(clock)? else {
                break;
            };
            if let Some(pair) = self.pairs.get_mut(key) {
                pair.release();
            }
            self.take_up(key)?;
        }
        Ok(())
    }

    /// Returns in how long the first request goes on that is held, if one is.
    ///
    /// # Errors
    ///
    /// Returns an error if the clock can't be read.
    pub fn least_delay(&self, clock: &impl Clock) -> io::Result<Option<Duration>> {
        self.delays.least(clock)
    }
}
