//! A connection of the core to the server.

ghost use Rattle.std.specs.Prelude.{◌≡◌, length, option_map, true};
ghost use Rattle.wire_peer.specs.{ready_of};
ghost use Rattle.wire_share.specs.{PassStep};
ghost use Rattle.wire_share.specs.Placing.{IsDone, used_after, was_passed};

use crate::downstream::Downstream;
use crate::refusals::PassRefusal;
use crate::upstream::Upstream;
use crate::uses::Use;
use wire_peer::{ClientState, Reply};

/// A connection to the server, and who uses it.
#[derive(Drop)]
pub struct Server {
    pub(crate) upstream: Upstream,
    pub(crate) used: Use,
}

/// Returns true if the request was passed on that had this result.
pub(crate) fn was_passed(answer: Result<(), PassRefusal>) -> bool
    ensures { result ≡ was_passed answer }
{
    matches!(answer, Ok(()) | Err(PassRefusal::OutOfMemory))
}

impl Server {
    /// Returns who uses it.
    pub fn used(&self) -> Use
        ensures { result ≡ self.now.used }
    {
        self.used
    }

    /// Returns whether the client at our end is open, or why it closed.
    pub fn state(&self) -> ClientState
        ensures { result ≡ self.now.upstream.client.state }
    {
        self.upstream.state()
    }

    /// Returns how many calls await a reply.
    pub fn outstanding(&self) -> usize
        ensures { result ≡ length self.now.upstream.client.requests.outstanding }
    {
        self.upstream.outstanding()
    }

    /// Returns the bytes that are to be sent.
    pub fn output(&self) -> &[u8]
        ensures { result.now ≡ self.now.upstream.client.requests.output }
    {
        self.upstream.output()
    }

    /// Lends the reply that is ready, and `None` where none is.
    pub fn reply(&self) -> Option<Reply<'_>>
        ensures { option_map ready_of result ≡ self.now.upstream.client.reply }
    {
        self.upstream.reply()
    }

    /// Returns true if nobody uses it any more, and the calls over it are over.
    pub(crate) fn is_done(&self) -> bool
        ensures { result ≡ true → IsDone self.now }
    {
        self.used == Use::Over
            && self.upstream.outstanding() == 0
            && self.upstream.output().is_empty()
            && self.upstream.reply().is_none()
    }

    /// Notes that a request goes over it, if one was passed on.
    fn use_up(&mut self, passed: bool)
        ensures upstream { self.new.upstream ≡ self.old.upstream }
        ensures used { self.new.used ≡ used_after passed self.old.used }
    {
        if passed && self.used == Use::Once {
            self.used = Use::Over;
        }
    }

    /// Passes on the request that waits at a downstream, as `Downstream::pass_on` does.
    pub(crate) fn pass_on(&mut self, downstream: &mut Downstream) -> Result<(), PassRefusal>
        ensures passed { PassStep result downstream.old self.old.upstream
            downstream.new self.new.upstream }
        ensures used { self.new.used ≡ used_after (was_passed result) self.old.used }
    {
        let result = downstream.pass_on(&mut self.upstream);
        self.use_up(was_passed(result));
        result
    }
}
