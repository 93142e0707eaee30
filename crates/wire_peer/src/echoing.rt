//! The handler that gives each request back.

ghost use Rattle.std.specs.Prelude.{◌≡◌, ◌∷◌, []};

use crate::answer_list::Answers;
use crate::handlers::{Handler, HandlerStop};
use crate::requests::Request;

/// Gives one answer to each request, the request's own payload. It stops only if memory runs out.
#[derive(Clone, Copy, Debug, Drop)]
pub struct Echo;

impl Handler for Echo {
    ghost use Rattle.wire_peer.specs.declared.handlers.HandlerStop.TheVariants.{OutOfMemory};

    ghost does = { λ _ a answers _. answers ≡ a.payload ∷ [] };

    ghost stops = { λ _ _ stop _. stop ≡ OutOfMemory };

    fn respond(&mut self, request: &Request<'_>, answers: &mut Answers) -> Result<(), HandlerStop> {
        match answers.push(request.payload) {
            Ok(()) => Ok(()),
            Err(_) => Err(HandlerStop::OutOfMemory),
        }
    }
}
