//! A connection to the server, and its turns.

#![tactic(auto, using(crate::proofs::Runs::run_on, crate::proofs::Runs::run_none))]

ghost use Rattle.std.specs.Prelude.{◌≡◌, ◌≢◌, ℕ, ◌+◌, ◌-◌, ◌||◌, [], IfOk, Ok, OnErr, OnOk, Some};
ghost use Rattle.std.specs.Prelude.{None, length, min, nat_eq, not, take};
ghost use Rattle.indexmap.specs.IndexMap.{Updates, get};
ghost use Rattle.sockets.specs.{with_key};
ghost use Rattle.wire_share.specs.Acts.{EndsUp, SendsUp};
ghost use Rattle.wire_share.specs.Cores.{CoreDoes, Shares};
ghost use Rattle.wire_share.specs.Running.{IsRun, output_over, seen};
ghost use Rattle.wire_share.specs.declared.server.Server as connections;
ghost use Rattle.shared_proxy.specs.Lines.{after_bytes, limited};
ghost use Rattle.shared_proxy.specs.Queues.{SameQueues, is_behind, is_full, without};

use crate::leave::Leave;
use crate::line::{Line, Step};
use indexmap::IndexMap;
use std::alloc::{AllocError, Global};
use std::collections::VecDeque;
use wire_share::Core;
use wire_stream::{Moved, Pulled};

/// How many bytes may wait to be sent over a connection before another request is passed on.
const OUTPUT: usize = 1 << 20;

/// Returns true if so many bytes wait to be sent over a connection that no other request is passed
/// on.
pub fn is_full(core: &Core, upstream: u64) -> bool
    ensures { result ≡ is_full core.now upstream }
{
    core.server_output(upstream).len() >= OUTPUT
}

/// A connection to the server, whose calls stand in the core under the same number.
#[derive(Drop)]
pub struct Server {
    line: Line,
    /// The clients that await replies, by the numbers of their calls.
    pub callers: IndexMap<u64, u64>,
    /// The clients whose requests wait to be passed on, each once, in the order in which they came.
    pub blocked: VecDeque<u64>,
}

impl Server {
    /// Makes the connection over this line. It takes no memory.
    pub fn new(alloc: Global, line: Line) -> Server
        ensures line { result.line ≡ line }
        ensures callers { result.callers.entries ≡ [] }
        ensures blocked { result.blocked.items ≡ [] }
    {
        Server {
            line,
            callers: IndexMap::new(alloc),
            blocked: VecDeque::new(alloc),
        }
    }

    /// Notes that a client awaits the reply to this call.
    ///
    /// # Errors
    ///
    /// Returns `AllocError` if memory runs out.
    pub fn note(&mut self, call: u64, client: u64) -> Result<(), AllocError>
        ensures noted { OnOk result (Updates nat_eq self.old.callers self.new.callers call
            (Some client)) }
        ensures unchanged { OnErr result (self.new.callers.entries ≡ self.old.callers.entries) }
        ensures line { self.new.line ≡ self.old.line }
        ensures blocked { self.new.blocked ≡ self.old.blocked }
    {
        let _ = self.callers.insert(call, client)?;
        Ok(())
    }

    /// Returns true if the request of this client waits: the connection is full, or the first one that
    /// waits is another client's.
    pub fn has_to_wait(&self, client: u64, is_full: bool) -> bool
        ensures { result ≡ (is_full || is_behind client self.now.blocked.items) }
    {
        is_full || matches!(self.blocked.front(), Some(first) if *first != client)
    }

    /// Notes that the request of a client waits.
    ///
    /// # Errors
    ///
    /// Returns `AllocError` if memory runs out.
    pub fn block(&mut self, client: u64) -> Result<(), AllocError>
        ensures waits { OnOk result (self.new.blocked.items
            ≡ with_key client self.old.blocked.items) }
        ensures unchanged { OnErr result (self.new.blocked.items ≡ self.old.blocked.items) }
        ensures line { self.new.line ≡ self.old.line }
        ensures callers { self.new.callers ≡ self.old.callers }
    {
        if !self.blocked.contains(&client) {
            self.blocked.push_back(client)?;
        }
        Ok(())
    }

    /// Notes that the request of a client waits no more.
    pub fn unblock(&mut self, client: u64)
        ensures blocked { self.new.blocked.items ≡ without client self.old.blocked.items }
        ensures line { self.new.line ≡ self.old.line }
        ensures callers { self.new.callers ≡ self.old.callers }
    {
        self.blocked.retain(
            |other: &u64| -> bool
                ensures { result ≡ not (nat_eq other.now client) }
            { *other != client },
        );
    }

    /// Sends some of what is to be sent.
    fn send(&mut self, core: &mut Core, upstream: u64) -> Step
        ensures run { IsRun core.old core.new }
        ensures sent { (y : connections.Server) → (seen core.old).ups upstream ≡ Some y
            → result ≡ Step.Again → (n : ℕ) × CoreDoes (Shares (SendsUp upstream
            (take n y.upstream.client.requests.output))) (seen core.old) (seen core.new)
            × (self.new.line.sending ≡ after_bytes n self.old.line.sending) }
        ensures others { result ≢ Step.Again → core.new ≡ core.old }
        ensures none { output_over ((seen core.old).ups upstream) ≡ []
            → (result ≡ Step.Waits) × (self.new ≡ self.old) × (core.new ≡ core.old) }
        ensures never { result ≢ Step.Ready }
        ensures inlet { self.new.line.inlet ≡ self.old.line.inlet }
        ensures queues { SameQueues self.old self.new }
    {
        if core.server_output(upstream).is_empty() {
            return Step::Waits;
        }
        match self.line.send(core.server_output(upstream)) {
            Ok(Moved::Bytes(n)) => {
                core.sent_up(upstream, n);
                Step::Again
            }
            Ok(Moved::Later) => Step::Waits,
            Err(leave) => Step::Over(leave),
        }
    }

    /// Receives bytes, or tells the core that no more come.
    fn pull(&mut self, core: &mut Core, upstream: u64) -> Step
        ensures run { IsRun core.old core.new }
        ensures ended { (y : connections.Server) → (seen core.old).ups upstream ≡ Some y
            → result ≡ Step.Again → self.new.line.inlet ≡ []
            → CoreDoes (Shares (EndsUp upstream)) (seen core.old) (seen core.new) }
        ensures others { result ≢ Step.Again → core.new ≡ core.old }
        ensures never { result ≢ Step.Ready }
        ensures sending { self.new.line.sending ≡ self.old.line.sending }
        ensures queues { SameQueues self.old self.new }
    {
        match self.line.pull() {
            Ok(Pulled::Bytes) => Step::Again,
            Ok(Pulled::Later) => Step::Waits,
            Ok(Pulled::End) => {
                core.end_up(upstream);
                Step::Again
            }
            Err(leave) => Step::Over(leave),
        }
    }

    /// Has the core take bytes that came, or receives some.
    fn receive(&mut self, core: &mut Core, upstream: u64) -> Result<Step, AllocError>
        ensures run { IsRun core.old core.new }
        ensures never { IfOk result (λ step. step ≢ Step.Ready) }
        ensures sending { self.new.line.sending ≡ self.old.line.sending }
        ensures queues { SameQueues self.old self.new }
    {
        if self.line.bytes().is_empty() {
            return Ok(self.pull(core, upstream));
        }
        match core.take_up(upstream, self.line.bytes()) {
            Ok(n) => {
                self.line.used(n);
                Ok(Step::Again)
            }
            Err(_) => Err(AllocError),
        }
    }

    /// Cuts the connection once the first `before` bytes of the `size` that are to be sent were sent,
    /// and at most `count` more.
    pub fn cut_behind(&mut self, before: usize, size: usize, count: u64)
        ensures line { self.new.line ≡ limited (min count (size - before) + before) self.old.line }
        ensures queues { SameQueues self.old self.new }
    {
        let more = size.saturating_sub(before) as u64;
        self.line
            .limit_sending(count.min(more).saturating_add(before as u64));
    }

    /// Takes a step of the connection of this number: sends, and if nothing can be sent, receives.
    /// Returns `Ready` if a reply is.
    ///
    /// # Errors
    ///
    /// Returns `AllocError` if memory runs out.
    pub fn step(&mut self, core: &mut Core, upstream: u64) -> Result<Step, AllocError>
        ensures run { IsRun core.old core.new }
        ensures gone { (seen core.old).ups upstream ≡ None
            → (result ≡ Ok Step.Waits) × (self.new ≡ self.old) × (core.new ≡ core.old) }
        ensures ready { result ≡ Ok Step.Ready → (y : connections.Server) × (core.new ≡ core.old)
            × ((seen core.old).ups upstream ≡ Some y) × (y.upstream.client.reply ≢ None) }
        ensures queues { SameQueues self.old self.new }
    {
        let Some(server) = core.server(upstream) else {
            return Ok(Step::Waits);
        };
        if server.reply().is_some() {
            return Ok(Step::Ready);
        }
        if let Some(leave) = self.line.cut() {
            return Ok(Step::Over(leave));
        }
        if let Some(leave) = Leave::of_client(server.state()) {
            return Ok(Step::Over(leave));
        }
        match self.send(core, upstream) {
            Step::Waits => self.receive(core, upstream),
            sent => Ok(sent),
        }
    }
}
