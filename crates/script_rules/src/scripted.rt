//! A handler that answers by a script.

ghost use Rattle.std.specs.Prelude.{◌≡◌};

use crate::action::Action;
use crate::script::Script;
use command_parts::put_answer;
use std::alloc::Global;
use wire_peer::{Answers, Handler, HandlerStop, Request};

/// Answers as the rules of a script say, and where they say nothing, as another handler does.
#[derive(Drop)]
pub struct Scripted<H> {
    alloc: Global,
    script: Script,
    inner: H,
}

impl<H> Scripted<H> {
    /// Returns the handler with these rules, and with `inner` for what they pass on.
    pub fn new(alloc: Global, script: Script, inner: H) -> Scripted<H>
        ensures script { result.script ≡ script }
        ensures inner { result.inner ≡ inner }
    {
        Scripted {
            alloc,
            script,
            inner,
        }
    }
}

impl<H: Handler> Handler for Scripted<H> {
    ghost use Rattle.script_rules.specs.Handling.{IsAnswered, IsStopped};

    ghost does = { IsAnswered H.does };

    ghost stops = { IsStopped H.stops };

    fn respond(&mut self, request: &Request<'_>, answers: &mut Answers) -> Result<(), HandlerStop> {
        let Ok(found) = self.script.meet(self.alloc, request.payload) else {
            return Err(HandlerStop::OutOfMemory);
        };
        match self.script.action(found) {
            Some(action) => match action {
                Action::Reply(answer) => put_answer(answer, answers),
                Action::HangUp => Err(HandlerStop::Failed),
                Action::CutUp(_) => Err(HandlerStop::Failed),
                _ => self.inner.respond(request, answers),
            },
            None => self.inner.respond(request, answers),
        }
    }
}
