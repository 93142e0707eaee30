//! The handler whose answers were given beforehand.

ghost use Rattle.std.specs.Prelude.{◌≡◌, ◌↔◌, IsTrue, length};
ghost use Rattle.wire_peer.specs.{IsCount, answers_of, asked};

use std::mem::swap;
use wire_peer::{Answers, Handler, HandlerStop, Request};

/// Answers a request with the answers that it holds, and fails if it may not get as many.
#[derive(Drop)]
pub(crate) struct Given {
    pub(crate) answers: Answers,
}

/// Returns true if a request may get so many answers.
pub(crate) fn is_count(request: &Request<'_>, count: usize) -> bool
    ensures { IsTrue result ↔ IsCount (asked request.now) count }
{
    count == 1 || (count > 1 && request.takes_more())
}

impl Handler for Given {
    ghost use Rattle.std.specs.Prelude.{◌≡◌, length};
    ghost use Rattle.wire_peer.specs.{IsCount, answers_of};
    ghost use Rattle.wire_peer.specs.declared.handlers.HandlerStop.TheVariants.{Failed};

    ghost does = { λ h a answers h'. answers ≡ answers_of h.answers };

    ghost stops = { λ h a stop h'.
        (stop ≡ Failed) × (IsCount a (length (answers_of h.answers)) → ⊥) };

    fn respond(&mut self, request: &Request<'_>, answers: &mut Answers) -> Result<(), HandlerStop> {
        if !is_count(request, self.answers.len()) {
            return Err(HandlerStop::Failed);
        }
        swap(answers, &mut self.answers);
        Ok(())
    }
}
