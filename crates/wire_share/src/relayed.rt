//! The handler that answers with what another server answered.

ghost use Rattle.std.specs.Prelude.{◌≡◌, ◌∷◌, []};
ghost use Rattle.wire_peer.specs.{content_of};

use wire_msg::Payload;
use wire_peer::{Answers, Handler, HandlerStop, Request};

/// Gives this payload as the one answer. It stops only if memory runs out.
#[derive(Clone, Copy, Debug)]
pub(crate) struct Relayed<'a> {
    pub(crate) payload: Payload<'a>,
}

impl Handler for Relayed<'_> {
    ghost use Rattle.wire_peer.specs.declared.handlers.HandlerStop.TheVariants.{OutOfMemory};

    ghost does = { λ h a answers _. answers ≡ content_of h.payload ∷ [] };

    ghost stops = { λ _ _ stop _. stop ≡ OutOfMemory };

    fn respond(&mut self, request: &Request<'_>, answers: &mut Answers) -> Result<(), HandlerStop> {
        let _ = request;
        match answers.push(self.payload) {
            Ok(()) => Ok(()),
            Err(_) => Err(HandlerStop::OutOfMemory),
        }
    }
}
