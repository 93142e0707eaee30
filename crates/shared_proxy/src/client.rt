//! The connection of a client, and its steps.

#![tactic(auto, using(crate::proofs::Runs::run_on, crate::proofs::Runs::run_none))]

ghost use Rattle.std.specs.Prelude.{◌≡◌, ◌≢◌, ℕ, [], IfOk, Ok, OnErr, OnOk, None, Some, drop};
ghost use Rattle.std.specs.Prelude.{false, is_some, take, true};
ghost use Rattle.wire_share.specs.Acts.{Ends, MovesDown, Sends};
ghost use Rattle.wire_share.specs.Cores.{CoreDoes, Shares};
ghost use Rattle.wire_share.specs.Running.{IsRun, seen};
ghost use Rattle.wire_share.specs.declared.client.Client as connections;
ghost use Rattle.shared_proxy.specs.Clients.{IsFree, IsNew, IsUnsteered, SameButReply};
ghost use Rattle.shared_proxy.specs.Clients.{SameButWatches, SameRequest};
ghost use Rattle.shared_proxy.specs.Lines.{after_bytes};

use crate::leave::Leave;
use crate::line::{Line, Step};
use proxy::{Sink, Watches};
use script_rules::Flow;
use sockets::Tap;
use std::alloc::{AllocError, Global};
use std::io;
use std::io::Write;
use std::rt::Files;
use std::time::Clock;
use wire_share::Core;
use wire_stream::{Moved, Pulled};

/// What a script says of the request that waits.
#[derive(Drop)]
pub struct Steering {
    /// What becomes of its reply.
    pub flow: Flow,
    /// How many of its bytes are passed on, before the connection to the server is cut.
    pub cut_up: Option<u64>,
    /// It is held for some time.
    pub delayed: bool,
    /// The bytes of the script's reply that were not sent yet.
    pub reply: Vec<u8>,
}

impl Steering {
    /// Returns what is said where a script says nothing. It takes no memory.
    fn new(alloc: Global) -> Steering
        ensures { IsUnsteered result }
    {
        Steering {
            flow: Flow::Whole,
            cut_up: None,
            delayed: false,
            reply: Vec::new(alloc),
        }
    }
}

/// The connection of a client, whose requests stand in the core under the same number.
#[derive(Drop)]
pub struct Client {
    pub line: Line,
    /// The number of the connection to the server over which its request waits to be passed on, if it
    /// does.
    pub waits_at: Option<u64>,
    pub steering: Steering,
    watches: Option<Watches>,
}

/// Notes that the first `n` of these bytes were sent, if messages are shown or recorded.
fn see_back(watches: &mut Option<Watches>, bytes: &[u8], n: usize)
    ensures { is_some watches.new ≡ is_some watches.old }
{
    if let Some(watches) = watches
        && let Some(sent) = bytes.get(..n)
    {
        watches.back.see(sent);
    }
}

/// Returns what a step of a client comes to where nothing is to be sent, and `None` if it is to
/// receive. One whose own connection to the server is lost, and that asks for nothing, is over.
fn standing(core: &Core, number: u64) -> Option<Step>
    ensures gone { (seen core.now).downs number ≡ None → result ≡ Some (Step.Over Leave.Ended) }
    ensures ready { result ≡ Some Step.Ready → IsFree core.now number }
    ensures receives { result ≡ None → IsFree core.now number }
{
    let Some(client) = core.client(number) else {
        return Some(Step::Over(Leave::Ended));
    };
    if let Some(leave) = Leave::of_state(client.state()) {
        return Some(Step::Over(leave));
    }
    if client.awaited().is_some() {
        return Some(Step::Waits);
    }
    if client.asks() {
        return Some(Step::Ready);
    }
    match client.kept() {
        Some(kept) if core.server(kept).is_none() => Some(Step::Over(Leave::Ended)),
        _ => None,
    }
}

impl Client {
    /// Makes the client of the connection of this number, whose messages are shown or recorded if
    /// `watched` is true. It takes no memory.
    pub fn new(alloc: Global, number: u64, line: Line, watched: bool) -> Client
        ensures { IsNew line watched result }
    {
        Client {
            line,
            waits_at: None,
            steering: Steering::new(alloc),
            watches: Watches::if_wanted(alloc, number, watched),
        }
    }

    /// Notes the bytes that came and weren't taken yet, if messages are shown or recorded.
    fn see_there(&mut self)
        ensures same { SameButWatches self.old self.new }
        ensures watched { is_some self.new.watches ≡ is_some self.old.watches }
    {
        if let Some(watches) = &mut self.watches {
            watches.there.see(self.line.bytes());
        }
    }

    /// Gives the messages that are whole by what came and was sent to the sink, if messages are shown
    /// or recorded.
    ///
    /// # Errors
    ///
    /// Returns an error if the sink fails or memory runs out.
    pub fn show<R: Files + Clock, W: Write>(
        &mut self,
        sink: &mut Sink<'_, R>,
        out: &mut W,
    ) -> io::Result<()>
        ensures same { SameButWatches self.old self.new }
        ensures watched { is_some self.new.watches ≡ is_some self.old.watches }
    {
        match &mut self.watches {
            Some(watches) => watches.show(sink, out),
            None => Ok(()),
        }
    }

    /// Sends some of what the core has to send to the client.
    fn send(&mut self, core: &mut Core, number: u64) -> Step
        ensures run { IsRun core.old core.new }
        ensures sent { (x : connections.Client) → (seen core.old).downs number ≡ Some x
            → result ≡ Step.Again → (n : ℕ) × CoreDoes (Shares (MovesDown number (Sends
            (take n x.downstream.conn.output)))) (seen core.old) (seen core.new)
            × (self.new.line.sending ≡ after_bytes n self.old.line.sending) }
        ensures others { result ≢ Step.Again → core.new ≡ core.old }
        ensures request { SameRequest self.old self.new }
    {
        match self.line.send(core.output(number)) {
            Ok(Moved::Bytes(n)) => {
                see_back(&mut self.watches, core.output(number), n);
                core.sent(number, n);
                Step::Again
            }
            Ok(Moved::Later) => Step::Waits,
            Err(leave) => Step::Over(leave),
        }
    }

    /// Sends some of the script's reply.
    fn send_reply(&mut self) -> Step
        ensures sent { result ≡ Step.Again → (n : ℕ)
            × (self.new.steering.reply.items ≡ drop n self.old.steering.reply.items)
            × (self.new.line.sending ≡ after_bytes n self.old.line.sending) }
        ensures others { result ≢ Step.Again → self.new.steering ≡ self.old.steering }
        ensures same { SameButReply self.old self.new }
    {
        match self.line.send(&self.steering.reply) {
            Ok(Moved::Bytes(n)) => {
                see_back(&mut self.watches, &self.steering.reply, n);
                let _ = self.steering.reply.drain(..n);
                Step::Again
            }
            Ok(Moved::Later) => Step::Waits,
            Err(leave) => Step::Over(leave),
        }
    }

    /// Receives bytes, or tells the core that no more come.
    fn pull(&mut self, core: &mut Core, number: u64) -> Step
        ensures run { IsRun core.old core.new }
        ensures ended { (x : connections.Client) → (seen core.old).downs number ≡ Some x
            → result ≡ Step.Again → self.new.line.inlet ≡ [] → self.new.line.link.held.again ≡ false
            → CoreDoes (Shares (MovesDown number Ends)) (seen core.old) (seen core.new) }
        ensures others { result ≢ Step.Again → core.new ≡ core.old }
        ensures delayed { self.old.steering.delayed ≡ true → result ≢ Step.Held }
        ensures request { SameRequest self.old self.new }
        ensures sending { self.new.line.sending ≡ self.old.line.sending }
    {
        match self.line.pull() {
            Ok(Pulled::Bytes) => {
                self.see_there();
                Step::Again
            }
            Ok(Pulled::Later) if self.steering.delayed => Step::Waits,
            Ok(Pulled::Later) => self.line.idle(),
            Ok(Pulled::End) => {
                core.end(number);
                Step::Again
            }
            Err(leave) => Step::Over(leave),
        }
    }

    /// Has the core take bytes that came, or receives some.
    fn receive(&mut self, core: &mut Core, number: u64) -> Result<Step, AllocError>
        ensures run { IsRun core.old core.new }
        ensures request { SameRequest self.old self.new }
        ensures sending { self.new.line.sending ≡ self.old.line.sending }
    {
        if self.line.bytes().is_empty() {
            return Ok(self.pull(core, number));
        }
        match core.take(number, self.line.bytes()) {
            Ok(n) => {
                self.line.used(n);
                Ok(Step::Again)
            }
            Err(_) => Err(AllocError),
        }
    }

    /// Takes a step of the client of this number: sends what is to be sent, or receives. Returns
    /// `Ready` if a request is to be passed on.
    ///
    /// # Errors
    ///
    /// Returns `AllocError` if memory runs out.
    pub fn step(&mut self, core: &mut Core, number: u64) -> Result<Step, AllocError>
        ensures run { IsRun core.old core.new }
        ensures same { SameButReply self.old self.new }
    {
        if let Some(leave) = self.line.cut() {
            return Ok(Step::Over(leave));
        }
        if !self.steering.reply.is_empty() {
            return Ok(self.send_reply());
        }
        if !core.output(number).is_empty() {
            return Ok(self.send(core, number));
        }
        match standing(core, number) {
            Some(step) => Ok(step),
            None => self.receive(core, number),
        }
    }
}
