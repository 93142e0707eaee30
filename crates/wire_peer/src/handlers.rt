//! What answers requests.

ghost use Rattle.std.specs.Prelude.{◌≡◌, [], IfErr, List, OnOk, length};
ghost use Rattle.wire_msg.specs.{Content};
ghost use Rattle.wire_peer.specs.AnswerLists.{answers_of};
ghost use Rattle.wire_peer.specs.Requests.{Asked, IsCount, asked};

use crate::answer_list::Answers;
use crate::requests::Request;
use thiserror::Error;

/// Why a handler stopped.
#[derive(Clone, Copy, Debug, PartialEq, Eq, Error)]
pub enum HandlerStop {
    /// It can't answer.
    #[error("the handler failed")]
    Failed,
    /// The allocator refused memory.
    #[error("the handler is out of memory")]
    OutOfMemory,
}

/// Answers requests.
pub trait Handler {
    ghost use Rattle.wire_peer.specs.declared.handlers.HandlerStop.{HandlerStop};

    /// In this state the handler may answer this request so, and is in that state then.
    ghost does: { Self → Asked → List Content → Self → Type 0 };

    /// In this state the handler may stop at this request so, and is in that state then.
    ghost stops: { Self → Asked → HandlerStop → Self → Type 0 };

    /// Puts the answers to `request` into `answers`, which has none yet: one, or more where the
    /// request takes more.
    ///
    /// # Errors
    ///
    /// Why the handler stops. The answers say nothing then.
    fn respond(&mut self, request: &Request<'_>, answers: &mut Answers) -> Result<(), HandlerStop>
        requires { answers_of answers.old ≡ [] }
        ensures answered { OnOk result
            (does self.old (asked request.now) (answers_of answers.new) self.new) }
        ensures count { OnOk result
            (IsCount (asked request.now) (length (answers_of answers.new))) }
        ensures stopped { IfErr result (λ stop. stops self.old (asked request.now) stop self.new) };
}
