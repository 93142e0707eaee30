//! Calls: their kinds, their numbers, and why one is refused.

ghost use Rattle.std.specs.Prelude.{◌≡◌};
ghost use Rattle.wire_peer.specs.Calls.{awaits_reply, allows_more, refusal_text, request_flags};

use std::fmt;
use wire_msg::MsgFlags;

/// What replies a call may have.
#[derive(Clone, Copy, Debug, PartialEq, Eq)]
pub enum CallKind {
    /// Just one.
    Plain,
    /// One or more. Each one before the last says that more will come.
    Exhaust,
    /// None.
    Unacknowledged,
}

impl CallKind {
    /// Returns the flags of a request of this kind.
    pub fn flags(self) -> MsgFlags
        ensures { result ≡ request_flags self }
    {
        match self {
            CallKind::Plain => MsgFlags::NONE,
            CallKind::Exhaust => MsgFlags {
                more_to_come: false,
                exhaust_allowed: true,
            },
            CallKind::Unacknowledged => MsgFlags {
                more_to_come: true,
                exhaust_allowed: false,
            },
        }
    }

    /// Returns true if such a call has a reply.
    pub fn awaits_reply(self) -> bool
        ensures { result ≡ awaits_reply self }
    {
        match self {
            CallKind::Plain | CallKind::Exhaust => true,
            CallKind::Unacknowledged => false,
        }
    }

    /// Returns true if such a call may have more than one reply.
    pub fn allows_more(self) -> bool
        ensures { result ≡ allows_more self }
    {
        match self {
            CallKind::Exhaust => true,
            CallKind::Plain | CallKind::Unacknowledged => false,
        }
    }
}

/// A call that was accepted: its number among the calls of its client, counted from 0, and the id
/// of its request.
#[derive(Clone, Copy, Debug, PartialEq, Eq)]
pub struct CallNo {
    /// The call's number.
    pub number: u64,
    /// The request's requestID.
    pub id: i32,
}

/// Why a call is refused. Nothing changes then.
#[derive(Clone, Copy, Debug, PartialEq, Eq)]
pub enum CallRefusal {
    /// The client is closed.
    Closed,
    /// As many calls are outstanding as the window allows.
    WindowFull,
    /// The request would have more bytes than the limit.
    TooLarge,
    /// The greatest call number was given.
    NumbersSpent,
    /// The allocator refused memory.
    OutOfMemory,
}

impl CallRefusal {
    /// Returns what the refusal displays as.
    fn text(self) -> &'static str
        ensures { result.now ≡ refusal_text self }
    {
        match self {
            CallRefusal::Closed => "the client is closed",
            CallRefusal::WindowFull => "the window is full",
            CallRefusal::TooLarge => "the request is too large",
            CallRefusal::NumbersSpent => "the call numbers are spent",
            CallRefusal::OutOfMemory => "out of memory",
        }
    }
}

impl fmt::Display for CallRefusal {
    ghost use Rattle.wire_peer.specs.Calls.{shown_refusal};

    ghost output = { shown_refusal };

    fn fmt<W: fmt::Write>(&self, f: &mut fmt::Formatter<W>) -> fmt::Result {
        f.write_str(self.text())
    }
}

impl std::error::Error for CallRefusal {}
