//! A pair of connections, and its turns.

ghost use Rattle.std.specs.Prelude.{◌≡◌, ◌≢◌, ◌≤◌, ◌<◌, ◌||◌, [], ℕ, List, Bool, IfOk, IfSome};
ghost use Rattle.std.specs.Prelude.{IsOk, IsOkAnd, IsSomeAnd, None, OnOk, Some, false, is_some};
ghost use Rattle.std.specs.Prelude.{length, nat_lt, true};
ghost use Rattle.std.specs.Io.KnownBytes.{Appends};
ghost use Rattle.wire_frames.specs.{frame_bytes};
ghost use Rattle.wire_msg.specs.{header_of};
ghost use Rattle.sockets.specs.{new_relay};
ghost use Rattle.proxy.specs.Holding.{Holds};
ghost use Rattle.proxy.specs.Marks.{index_of, without};
ghost use Rattle.proxy.specs.Recording.{IsRecorded, log_of};
ghost use Rattle.proxy.specs.Steering.{comes_to, delays, marks_by};
ghost use Rattle.proxy.specs.Told.{end_line, ending_text, is_told, reply_line};
ghost use Rattle.proxy.specs.Turning.{IsConnecting, IsMet, LacksMemory, cut_of, failed_side};
ghost use Rattle.proxy.specs.Turning.{may_steer, outcome_of};
ghost use Rattle.proxy.specs.declared.held.Standing.TheVariants as stands;

use crate::direction::Direction;
use crate::ending::{Ending, Side};
use crate::fate::{Fate, fate_of};
use crate::held_link::HeldLink;
use crate::marks::Marks;
use crate::outcome::{Outcome, cut_way};
use crate::sink::Sink;
use crate::socket::Socket;
use crate::steer::{Steer, sent_of};
use crate::watch::Watches;
use script_rules::Script;
use sockets::{IoFailure, NoTap, Relay, RelayFault, Turned};
use std::alloc::{AllocError, Global};
use std::io;
use std::io::Write;
use std::rt::Files;
use std::time::Clock;
use wire_frames::RawFrame;

/// The most steps of a turn.
const STEPS: u32 = 16;

/// Two connections between which bytes are passed, and what finds their messages, if they are shown
/// or recorded.
#[derive(Drop)]
pub struct Pair {
    alloc: Global,
    number: u64,
    relay: Relay<HeldLink<Socket>, HeldLink<Socket>>,
    /// The connection to the server is still being made.
    connecting: bool,
    watches: Option<Watches>,
    /// What becomes of replies that don't go on whole.
    marks: Marks,
    /// A request is held for some time.
    delayed: bool,
}

impl Pair {
    /// Makes the pair of this number, whose messages are shown or recorded if `watched` is true.
    ///
    /// # Errors
    ///
    /// Returns `AllocError` if memory runs out. Then both connections are closed.
    pub fn new(
        alloc: Global,
        number: u64,
        near: HeldLink<Socket>,
        far: HeldLink<Socket>,
        watched: bool,
    ) -> Result<Pair, AllocError>
        ensures number { IfOk result (λ p. p.number ≡ number) }
        ensures relay { IfOk result (λ p. p.relay ≡ new_relay near far) }
        ensures connecting { IfOk result (λ p. p.connecting ≡ true) }
        ensures watched { IfOk result (λ p. is_some p.watches ≡ watched) }
        ensures marks { IfOk result (λ p. p.marks.marks.items ≡ []) }
        ensures delayed { IfOk result (λ p. p.delayed ≡ false) }
    {
        let relay = Relay::new(alloc, near, far)?;
        Ok(Pair {
            alloc,
            number,
            relay,
            connecting: true,
            watches: Watches::if_wanted(alloc, number, watched),
            marks: Marks::new(alloc),
            delayed: false,
        })
    }

    /// Takes a step on each way, and gives the messages that are whole then to the sink, if messages
    /// are shown or recorded.
    fn step<R: Files + Clock, W: Write>(
        &mut self,
        sink: &mut Sink<'_, R>,
        out: &mut W,
    ) -> io::Result<Result<Turned, RelayFault>>
        ensures unwatched { self.old.watches ≡ None
            → IsOk result × (out.new ≡ out.old) × (self.new.watches ≡ None) }
        ensures others { self.new
            ≡ record self.old { relay = self.new.relay; watches = self.new.watches } }
    {
        let Some(watches) = &mut self.watches else {
            return Ok(self.relay.turn(1, &mut NoTap, &mut NoTap));
        };
        let turned = self.relay.turn(1, &mut watches.there, &mut watches.back);
        watches.show(sink, out)?;
        Ok(turned)
    }

    /// Returns how the connection was cut, if it was, and all bytes before that were passed.
    fn cut(&self) -> Option<Ending>
        ensures { result ≡ cut_of self.now.relay.near self.now.relay.far }
    {
        let (near, far) = (self.relay.near(), self.relay.far());
        match cut_way(far.has_ended_sending(), Direction::There, near.cut_at()) {
            Some(ending) => Some(ending),
            None => cut_way(near.has_ended_sending(), Direction::Back, far.cut_at()),
        }
    }

    /// Returns whose link failed, once one did.
    fn failed_side(&self) -> Side
        ensures { result ≡ failed_side self.now.relay.near }
    {
        if self.relay.near().has_failed() {
            Side::Client
        } else {
            Side::Server
        }
    }

    /// Returns what steps came to.
    fn outcome(&self, turned: Result<Turned, RelayFault>) -> Outcome
        ensures { result ≡ outcome_of (cut_of self.now.relay.near self.now.relay.far)
            (failed_side self.now.relay.near) turned }
    {
        Outcome::of(self.cut(), self.failed_side(), turned)
    }

    /// Gives the message that is held, if one is, to the sink, if only its first `count` bytes go
    /// on. One that goes on whole is found as it passes.
    fn show<R: Files + Clock, W: Write>(
        &self,
        message: Option<RawFrame<'_>>,
        direction: Direction,
        count: u64,
        sink: &mut Sink<'_, R>,
        out: &mut W,
    ) -> io::Result<()>
        ensures recorded { IfSome message.entry (λ frame. count < length (frame_bytes frame)
            → OnOk result (IfSome sink.old.recorder (λ old.
            IsSomeAnd sink.new.recorder (λ new. (ends : Bool) × IsRecorded
            (log_of (R.File.contents old.file) old.waiting.bytes.items)
            (log_of (R.File.contents new.file) new.waiting.bytes.items)
            old.waiting.left new.waiting.left self.now.number direction
            (frame_bytes frame) ends)))) }
        ensures whole { IfSome message.entry (λ frame. length (frame_bytes frame) ≤ count
            → IsOk result × (sink.new ≡ sink.old) × (out.new ≡ out.old)) }
        ensures none { message.entry ≡ None
            → IsOk result × (sink.new ≡ sink.old) × (out.new ≡ out.old) }
    {
        match message {
            Some(frame) => {
                if count < frame.as_bytes().len() as u64 {
                    sink.put(self.number, direction, frame, out)
                } else {
                    Ok(())
                }
            }
            None => Ok(()),
        }
    }

    /// Does with a reply that is held, if one is, what the rule says that its request met.
    fn steer_reply<R: Files + Clock, W: Write>(
        &mut self,
        sink: &mut Sink<'_, R>,
        out: &mut W,
    ) -> io::Result<()>
        ensures taken { (message : List ℕ) → Holds self.old.relay.far.held message
            → self.new.marks.marks.items
            ≡ without (index_of (header_of message).response_to self.old.marks.marks.items)
            self.old.marks.marks.items }
        ensures none { self.old.relay.far.held.standing ≢ stands.Whole
            → IsOk result × (self.new ≡ self.old) }
        ensures others { self.new
            ≡ record self.old { relay = self.new.relay; marks = self.new.marks } }
    {
        let frame = match self.relay.far().message() {
            Some(frame) => frame,
            None => return Ok(()),
        };
        let header = frame.header();
        let to = header.response_to;
        let size = frame.as_bytes().len();
        let flow = self.marks.take(to);
        let steer = Steer::of_flow(flow);
        let held = self.relay.far().message();
        self.show(held, Direction::Back, steer.kept(), sink, out)?;
        if let Steer::Skip = steer {
            writeln!(out, "{} drop {size} to {to}", self.number)?;
        }
        self.relay.far_mut().steer(steer);
        Ok(())
    }

    /// Gives these bytes to the client in the place of a request that was let go, to which they
    /// reply. Behind the server's end nothing is given to the client any more.
    fn reply<W: Write>(&mut self, id: i32, bytes: &[u8], out: &mut W) -> io::Result<()>
        ensures ended { nat_lt 0 self.old.relay.far.ends ≡ true
            → IsOk result × (self.new ≡ self.old) × (out.new ≡ out.old) }
        ensures told { nat_lt 0 self.old.relay.far.ends ≡ false → OnOk result
            (Appends (W.contents out.old) (W.contents out.new) (reply_line self.old.number id)) }
        ensures others { self.new ≡ record self.old { relay = self.new.relay } }
    {
        if self.relay.far().has_told_end() {
            return Ok(());
        }
        writeln!(out, "{} reply to {id}", self.number)?;
        Ok(self.relay.far_mut().put(bytes)?)
    }

    /// Notes what becomes of the request with this id, and writes it if the request is delayed.
    fn note<W: Write>(&mut self, id: i32, fate: &Fate, out: &mut W) -> io::Result<()>
        ensures marks { OnOk result
            (self.new.marks.marks.items ≡ marks_by id fate.now self.old.marks.marks.items) }
        ensures delayed { OnOk result (self.new.delayed ≡ (delays fate.now || self.old.delayed)) }
        ensures others { self.new
            ≡ record self.old { marks = self.new.marks; delayed = self.new.delayed } }
    {
        match fate {
            Fate::Pass(flow) => self.marks.put(id, *flow)?,
            Fate::Delay(millis) => {
                writeln!(out, "{} delay {millis} id {id}", self.number)?;
                self.delayed = true;
            }
            Fate::HangUp | Fate::CutUp(_) | Fate::Reply(_) => {}
        }
        Ok(())
    }

    /// Does with the request that is held, and has this id, what becomes of it. Returns what the turn
    /// comes to, if it is over.
    fn meet_fate<R: Files + Clock, W: Write>(
        &mut self,
        id: i32,
        fate: &Fate,
        sink: &mut Sink<'_, R>,
        out: &mut W,
    ) -> io::Result<Option<Outcome>>
        ensures comes { IfOk result (λ outcome. outcome ≡ comes_to id fate.now) }
        ensures marks { OnOk result
            (self.new.marks.marks.items ≡ marks_by id fate.now self.old.marks.marks.items) }
        ensures delayed { OnOk result (self.new.delayed ≡ (delays fate.now || self.old.delayed)) }
        ensures others { self.new ≡ record self.old {
          relay = self.new.relay;
          marks = self.new.marks;
          delayed = self.new.delayed;
        } }
    {
        let held = self.relay.near().message();
        self.show(held, Direction::There, sent_of(fate), sink, out)?;
        self.note(id, fate, out)?;
        self.relay.near_mut().steer(Steer::of_fate(fate));
        if let Fate::Reply(bytes) = fate {
            self.reply(id, bytes, out)?;
        }
        Ok(Outcome::of_fate(id, fate))
    }

    /// Does with a request that is held, if one is, what the script says. Returns what the turn
    /// comes to, if it is over.
    fn steer_request<R: Files + Clock, W: Write>(
        &mut self,
        script: &mut Script,
        sink: &mut Sink<'_, R>,
        out: &mut W,
    ) -> io::Result<Option<Outcome>>
        ensures met { (message : List ℕ) → Holds self.old.relay.near.held message
            → IfOk result (λ outcome. IsMet message script.old.rules.items script.new.rules.items
            outcome self.old.marks.marks.items self.new.marks.marks.items
            self.old.delayed self.new.delayed) }
        ensures none { self.old.relay.near.held.standing ≢ stands.Whole
            → IsOkAnd result (λ outcome. outcome ≡ None) × (self.new ≡ self.old)
            × (script.new ≡ script.old) }
        ensures others { self.new ≡ record self.old {
          relay = self.new.relay;
          marks = self.new.marks;
          delayed = self.new.delayed;
        } }
    {
        let frame = match self.relay.near().message() {
            Some(frame) => frame,
            None => return Ok(None),
        };
        let id = frame.header().id;
        let fate = fate_of(self.alloc, script, frame)?;
        self.meet_fate(id, &fate, sink, out)
    }

    /// Returns true if more may be done at once, though no byte could be passed. It is told once: a
    /// way that can't send yet takes no more, and goes on by the event that it can.
    fn take_more(&mut self) -> bool
        ensures more { result
            ≡ (self.old.relay.far.held.again || self.old.relay.near.held.again) }
        ensures others { self.new ≡ record self.old { relay = self.new.relay } }
    {
        let more = self.relay.far().has_more() || self.relay.near().has_more();
        let _ = self.relay.near_mut().take_more();
        let _ = self.relay.far_mut().take_more();
        more
    }

    /// Returns true if a request may be answered or go on: none is delayed, and what was to be given
    /// to the client before was given, so that no more than one reply waits for it.
    fn may_steer(&self) -> bool
        ensures { result ≡ may_steer self.now.delayed
            (nat_lt self.now.relay.far.held.start self.now.relay.far.held.may)
            (nat_lt 0 self.now.relay.far.ends) }
    {
        !self.delayed && (!self.relay.far().owes() || self.relay.far().has_told_end())
    }

    /// Does with each message that is whole what the script says. Returns what the turn comes to, if
    /// it is over.
    fn steer<R: Files + Clock, W: Write>(
        &mut self,
        script: &mut Script,
        sink: &mut Sink<'_, R>,
        out: &mut W,
    ) -> io::Result<Option<Outcome>>
        ensures delayed { self.old.delayed ≡ true
            → IfOk result (λ outcome. outcome ≡ None) × (script.new ≡ script.old)
            × (self.new.delayed ≡ true) }
        ensures others { self.new ≡ record self.old {
          relay = self.new.relay;
          marks = self.new.marks;
          delayed = self.new.delayed;
        } }
    {
        self.steer_reply(sink, out)?;
        if self.may_steer() {
            self.steer_request(script, sink, out)
        } else {
            Ok(None)
        }
    }

    /// Takes a step, and does with each message that is whole then what the script says.
    fn step_by<R: Files + Clock, W: Write>(
        &mut self,
        script: &mut Script,
        sink: &mut Sink<'_, R>,
        out: &mut W,
    ) -> io::Result<Outcome>
        ensures delayed { self.old.delayed ≡ true
            → (script.new ≡ script.old) × (self.new.delayed ≡ true) }
        ensures others { self.new ≡ record self.old {
          relay = self.new.relay;
          watches = self.new.watches;
          marks = self.new.marks;
          delayed = self.new.delayed;
        } }
    {
        let turned = self.step(sink, out)?;
        let outcome = self.outcome(turned);
        if let Outcome::Over(_) = outcome {
            return Ok(outcome);
        }
        if let Some(over) = self.steer(script, sink, out)? {
            return Ok(over);
        }
        Ok(outcome.or_again(self.take_more()))
    }

    /// Takes a turn in single steps, and does with each message that is whole then what the script
    /// says.
    fn turn_by<R: Files + Clock, W: Write>(
        &mut self,
        script: &mut Script,
        sink: &mut Sink<'_, R>,
        out: &mut W,
    ) -> io::Result<Outcome>
        ensures delayed { self.old.delayed ≡ true
            → (script.new ≡ script.old) × (self.new.delayed ≡ true) }
        ensures others { self.new ≡ record self.old {
          relay = self.new.relay;
          watches = self.new.watches;
          marks = self.new.marks;
          delayed = self.new.delayed;
        } }
    {
        'steps: for _ in 0..STEPS {
            match self.step_by(script, sink, out)? {
                Outcome::Again => {}
                outcome => return Ok(outcome),
            }
        }
        Ok(Outcome::Again)
    }

    /// Takes a turn in single steps, so that no message is given to the sink before one that came
    /// earlier on the other way.
    fn turn_watched<R: Files + Clock, W: Write>(
        &mut self,
        sink: &mut Sink<'_, R>,
        out: &mut W,
    ) -> io::Result<Outcome>
        ensures { self.new
            ≡ record self.old { relay = self.new.relay; watches = self.new.watches } }
    {
        'steps: for _ in 0..STEPS {
            let turned = self.step(sink, out)?;
            match self.outcome(turned) {
                Outcome::Again => {}
                outcome => return Ok(outcome),
            }
        }
        Ok(Outcome::Again)
    }

    /// Returns what a turn comes to before the connection to the server stands, and `None` where it
    /// does. Until then nothing is moved, and no end is passed on, which would break it off.
    fn connect(&mut self) -> Option<Outcome>
        ensures stands { self.old.connecting ≡ false → result ≡ None }
        ensures comes { IsConnecting result self.new.connecting }
        ensures others { self.new ≡ record self.old { connecting = self.new.connecting } }
    {
        if !self.connecting {
            return None;
        }
        match self.relay.far().link().is_connected() {
            Ok(true) => {
                self.connecting = false;
                None
            }
            Ok(false) => Some(Outcome::Waits),
            Err(error) => {
                let failure = IoFailure::of(&error);
                Some(Outcome::Over(Ending::Unconnected(failure)))
            }
        }
    }

    /// Takes a turn where both connections stand.
    fn turn_standing<R: Files + Clock, W: Write>(
        &mut self,
        script: Option<&mut Script>,
        sink: &mut Sink<'_, R>,
        out: &mut W,
    ) -> io::Result<Outcome>
        ensures { self.new ≡ record self.old {
          relay = self.new.relay;
          watches = self.new.watches;
          marks = self.new.marks;
          delayed = self.new.delayed;
        } }
    {
        match script {
            Some(script) => self.turn_by(script, sink, out),
            None if self.watches.is_some() => self.turn_watched(sink, out),
            None => {
                let turned = self.relay.turn(STEPS, &mut NoTap, &mut NoTap);
                Ok(self.outcome(turned))
            }
        }
    }

    /// Takes a turn, and gives the messages that are whole then to the sink.
    ///
    /// # Errors
    ///
    /// Returns an error if memory runs out, or the sink or writing fails.
    pub fn turn<R: Files + Clock, W: Write>(
        &mut self,
        script: Option<&mut Script>,
        sink: &mut Sink<'_, R>,
        out: &mut W,
    ) -> io::Result<Outcome>
        ensures memory { IfOk result (λ outcome. LacksMemory outcome → ⊥) }
        ensures number { self.new.number ≡ self.old.number }
    {
        if let Some(outcome) = self.connect() {
            return Ok(outcome);
        }
        self.turn_standing(script, sink, out)?.with_memory()
    }

    /// Lets a request go on that is held for some time.
    pub fn release(&mut self)
        ensures delayed { self.new.delayed ≡ false }
        ensures idle { self.old.delayed ≡ false → self.new ≡ self.old }
        ensures others { self.new
            ≡ record self.old { relay = self.new.relay; delayed = self.new.delayed } }
    {
        if self.delayed {
            self.delayed = false;
            self.relay.near_mut().pass();
        }
    }

    /// Writes how the connection ended, if `told` is true or that is told where nothing is shown.
    pub fn write_end<W: Write>(&self, ending: Ending, told: bool, out: &mut W) -> io::Result<()>
        ensures untold { (told || is_told ending) ≡ false → IsOk result × (out.new ≡ out.old) }
        ensures told { (text : List ℕ) → (told || is_told ending) ≡ true
            → ending_text ending ≡ Some text → OnOk result
            (Appends (W.contents out.old) (W.contents out.new) (end_line self.now.number text)) }
    {
        if told || ending.is_told() {
            writeln!(out, "{} {ending}", self.number)?;
        }
        Ok(())
    }
}
