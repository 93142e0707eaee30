//! Says why a message or a payload is refused.

ghost use Rattle.std.specs.Prelude.{◌≡◌};
ghost use Rattle.wire_msg.specs.Refusals.{refusal_text};
ghost use Rattle.wire_msg.specs.declared.refusal.MsgRefusal.TheVariants.{OutOfMemory};

use std::alloc::{AllocError, AllocFailed};
use std::fmt;

/// Why a message or a payload is refused.
#[derive(Clone, Copy, Debug, PartialEq, Eq)]
pub enum MsgRefusal {
    /// The message would have more bytes than the limit, or a payload more than 2,147,483,647.
    TooLarge,
    /// A top-level name of the body is repeated.
    RepeatedField,
    /// The identifier of a document sequence is a top-level name of the body.
    SequenceInBody,
    /// An identifier has a 00 in it.
    ZeroInName,
    /// A document was pushed before any sequence was begun.
    NoSequence,
    /// Memory ran out.
    OutOfMemory,
}

impl MsgRefusal {
    /// Returns the text that displays the refusal.
    fn text(self) -> &'static str
        ensures { result.now ≡ refusal_text self }
    {
        match self {
            MsgRefusal::TooLarge => "the message is too large",
            MsgRefusal::RepeatedField => "a top-level name of the body is repeated",
            MsgRefusal::SequenceInBody => "an identifier is a top-level name of the body",
            MsgRefusal::ZeroInName => "an identifier has a 00 in it",
            MsgRefusal::NoSequence => "no sequence was begun",
            MsgRefusal::OutOfMemory => "out of memory",
        }
    }
}

impl fmt::Display for MsgRefusal {
    ghost use Rattle.wire_msg.specs.Refusals.{shown_refusal};

    ghost output = { shown_refusal };

    fn fmt<W: fmt::Write>(&self, f: &mut fmt::Formatter<W>) -> fmt::Result {
        f.write_str(self.text())
    }
}

impl std::error::Error for MsgRefusal {}

impl From<AllocError> for MsgRefusal {
    ghost from_gives = { λ _ e. e ≡ OutOfMemory };

    fn from(_error: AllocError) -> MsgRefusal {
        MsgRefusal::OutOfMemory
    }
}

impl<T: Drop> From<AllocFailed<T>> for MsgRefusal {
    ghost from_gives = { λ _ e. e ≡ OutOfMemory };

    fn from(_error: AllocFailed<T>) -> MsgRefusal {
        MsgRefusal::OutOfMemory
    }
}
