//! What a rule does with a request that meets it.

ghost use Rattle.std.specs.Prelude.{◌≡◌};
ghost use Rattle.script_rules.specs.Rules.{flow_of};

use bson_doc::Document;

/// What a rule does with a request that meets it.
#[derive(Debug, Drop)]
pub enum Action {
    /// The answer is this document.
    Reply(Document),
    /// A server holds the reply for this many milliseconds, and a proxy the request.
    Delay(u64),
    /// The connection is closed without an answer.
    HangUp,
    /// This many bytes of the reply are sent, and then the connection is closed.
    Cut(u64),
    /// This many bytes of the request are passed on, and then the connection is closed.
    CutUp(u64),
    /// No reply is sent, and the connection stays open.
    NoReply,
    /// The request is answered as if there were no script.
    Pass,
}

/// What becomes of the bytes of a reply.
#[derive(Clone, Copy, Debug, PartialEq, Eq)]
pub enum Flow {
    /// All are sent.
    Whole,
    /// All are sent, this many milliseconds later.
    Held(u64),
    /// The first ones are sent, at most this many, and then the connection is closed.
    Cut(u64),
    /// None is sent.
    Dropped,
}

impl Action {
    /// Returns what becomes of the bytes of the reply.
    pub fn flow(&self) -> Flow
        ensures { result ≡ flow_of self.now }
    {
        match self {
            Action::Delay(millis) => Flow::Held(*millis),
            Action::Cut(count) => Flow::Cut(*count),
            Action::NoReply => Flow::Dropped,
            Action::Reply(_) | Action::HangUp | Action::CutUp(_) | Action::Pass => Flow::Whole,
        }
    }
}
