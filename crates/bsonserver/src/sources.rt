//! Where the events of a server come from: sockets, and standard input.

ghost use Rattle.std.specs.Prelude.{◌≡◌, None, OnOk, false};
ghost use Rattle.bsonserver.specs.Runs.{GoesOnServing};

use crate::connections::{Connected, serve_some};
use crate::event_loop::EventLoop;
use mio::Events;
use server_core::{Output, Stop};
use sockets::Stdin;
use std::alloc::Global;
use std::io::BufRead;
use std::time::Clock;

/// The events that came last, what waits for them, and standard input, if its end is waited for.
#[derive(Drop)]
pub struct Sources<I> {
    events: Events<Global>,
    event_loop: EventLoop,
    stdin: Stdin<I>,
}

impl<I: BufRead + Drop> Sources<I> {
    /// Begins before the first event.
    pub fn new(events: Events<Global>, event_loop: EventLoop, stdin: Stdin<I>) -> Sources<I>
        ensures events { result.events ≡ events }
        ensures event_loop { result.event_loop ≡ event_loop }
        ensures stdin { result.stdin ≡ stdin }
    {
        Sources {
            events,
            event_loop,
            stdin,
        }
    }

    /// Returns true if standard input was waited for, and has ended.
    pub fn has_input_ended(&self) -> bool
        ensures unwatched { self.now.stdin.reader ≡ None → result ≡ false }
    {
        self.stdin.has_ended()
    }

    /// Waits for events, and serves the connections that they are of. Takes what came over standard
    /// input.
    pub fn serve_some<R: Clock + Eprint, W: Output>(
        &mut self,
        rt: &R,
        serving: &mut Connected,
        out: &mut W,
    ) -> Result<(), Stop>
        ensures { OnOk result (GoesOnServing serving.old serving.new
            (W.contents out.old) (W.contents out.new)) }
    {
        serve_some(rt, &mut self.event_loop, serving, &mut self.events, out)?;
        self.stdin.see(self.event_loop.acceptor(), &self.events);
        Ok(())
    }
}
