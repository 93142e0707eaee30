//! The handler that stops at one request.

ghost use Rattle.std.specs.Prelude.{◌≡◌, ◌≢◌, ◌⊎◌, None, Some};
ghost use Rattle.wire_peer.specs.Stopping.{one_fewer};

use crate::answer_list::Answers;
use crate::handlers::{Handler, HandlerStop};
use crate::requests::Request;

/// Answers as another handler does, but stops at one request. What it stops at, that handler isn't
/// asked.
#[derive(Drop)]
pub struct StopAt<H> {
    inner: H,
    /// How many requests come before the one to stop at; none where it came.
    at: Option<u64>,
    stop: HandlerStop,
}

impl<H> StopAt<H> {
    /// Returns the handler that answers as `inner`, but ends request number `at`, counted from 0,
    /// with `stop`.
    pub fn new(inner: H, at: u64, stop: HandlerStop) -> StopAt<H>
        ensures inner { result.inner ≡ inner }
        ensures at { result.at ≡ Some at }
        ensures stop { result.stop ≡ stop }
    {
        StopAt {
            inner,
            at: Some(at),
            stop,
        }
    }
}

impl<H: Handler> Handler for StopAt<H> {
    ghost does = { λ h a answers h'. (h.at ≢ Some 0) × H.does h.inner a answers h'.inner
        × (h'.at ≡ one_fewer h.at) × (h'.stop ≡ h.stop) };

    ghost stops = { λ h a stop h'.
        ((h.at ≡ Some 0) × (stop ≡ h.stop) × (h'.inner ≡ h.inner) × (h'.at ≡ None)
        × (h'.stop ≡ h.stop))
        ⊎
        ((h.at ≢ Some 0) × H.stops h.inner a stop h'.inner × (h'.at ≡ one_fewer h.at)
        × (h'.stop ≡ h.stop)) };

    fn respond(&mut self, request: &Request<'_>, answers: &mut Answers) -> Result<(), HandlerStop> {
        match self.at {
            Some(0) => {
                self.at = None;
                return Err(self.stop);
            }
            Some(k) => self.at = Some(k - 1),
            None => {}
        }
        self.inner.respond(request, answers)
    }
}
