//! The numbers of refusals and causes. Those of calls are the ones that scripts have.

ghost use Rattle.std.specs.Prelude.{◌≡◌};
ghost use Rattle.core_handles.specs.Numbers.{answer_number, call_number, cause_number};
ghost use Rattle.core_handles.specs.Numbers.{server_cause_number, server_setup_number};
ghost use Rattle.core_handles.specs.Numbers.{pool_number, setup_number};

use wire_peer::{
    AnswerRefusal, CallRefusal, ClientCause, ClientRefusal, ServerCause, ServerRefusal,
};
use wire_pool::PoolRefusal;

/// It is done.
pub(crate) const DONE: u32 = 0;

/// The client, the server or the pool is closed.
pub(crate) const CLOSED: u32 = 1;

/// The body and the document sequences aren't the content of a message, or the documents aren't
/// bodies of messages.
pub(crate) const BAD_CONTENT: u32 = 4;

/// The room is too short.
pub(crate) const NO_ROOM: u32 = 5;

/// No reply is ready, or no such request waits.
pub(crate) const NOT_READY: u32 = 7;

/// More bytes were sent than wait.
pub(crate) const TOO_MANY: u32 = 8;

/// The handle has a core.
pub(crate) const IN_USE: u32 = 9;

/// The request may not get as many answers.
pub(crate) const BAD_COUNT: u32 = 10;

/// No connection is idle, and as many are lent as may, or no id is left.
pub(crate) const FULL: u32 = 11;

/// No connection with this id is lent.
pub(crate) const NOT_LENT: u32 = 12;

/// The allocator refused memory.
pub(crate) const NO_MEMORY: u32 = 254;

/// The handle has no core.
pub(crate) const NO_CORE: u32 = 255;

/// Returns the number of a call's refusal.
pub(crate) fn call_number(refusal: CallRefusal) -> u32
    ensures { result ≡ call_number refusal }
{
    match refusal {
        CallRefusal::Closed => CLOSED,
        CallRefusal::WindowFull => 2,
        CallRefusal::TooLarge => 3,
        CallRefusal::NumbersSpent => 6,
        CallRefusal::OutOfMemory => NO_MEMORY,
    }
}

/// Returns the number of the reason why a client isn't made.
pub(crate) fn setup_number(refusal: ClientRefusal) -> u32
    ensures { result ≡ setup_number refusal }
{
    match refusal {
        ClientRefusal::BadFirstId => 1,
        ClientRefusal::BadWindow => 2,
        ClientRefusal::BadLimit => 3,
    }
}

/// Returns the number of the cause for which a client was closed.
pub(crate) fn cause_number(cause: ClientCause) -> u32
    ensures { result ≡ cause_number cause }
{
    match cause {
        ClientCause::Message(_) => 1,
        ClientCause::UnknownReply(_) => 2,
        ClientCause::MoreNotAllowed => 3,
        ClientCause::StreamBroken => 4,
        ClientCause::Ended => 5,
        ClientCause::EndedInside => 6,
    }
}

/// Returns the number of the reason why a server isn't made.
pub(crate) fn server_setup_number(refusal: ServerRefusal) -> u32
    ensures { result ≡ server_setup_number refusal }
{
    match refusal {
        ServerRefusal::BadWindow => 2,
        ServerRefusal::BadLimit => 3,
        ServerRefusal::OutOfMemory => NO_MEMORY,
    }
}

/// Returns the number of the cause for which a server closed.
pub(crate) fn server_cause_number(cause: ServerCause) -> u32
    ensures { result ≡ server_cause_number cause }
{
    match cause {
        ServerCause::Message(_) => 1,
        ServerCause::Ended => 5,
        ServerCause::EndedInside => 6,
        ServerCause::ReplyTooLarge => 7,
        ServerCause::NoMemory => 8,
        ServerCause::HandlerFailed => 9,
    }
}

/// Returns the number of the reason why a request isn't answered. Its handler's answers are as many
/// as it may get.
pub(crate) fn answer_number(refusal: AnswerRefusal) -> u32
    ensures { result ≡ answer_number refusal }
{
    match refusal {
        AnswerRefusal::Closed => CLOSED,
        AnswerRefusal::NoSuchRequest => NOT_READY,
        AnswerRefusal::OutOfMemory => NO_MEMORY,
        AnswerRefusal::NowClosed(ServerCause::ReplyTooLarge) => 3,
        AnswerRefusal::NowClosed(_) => NO_MEMORY,
    }
}

/// Returns the number of the reason why a pool isn't made.
pub(crate) fn pool_number(refusal: PoolRefusal) -> u32
    ensures { result ≡ pool_number refusal }
{
    match refusal {
        PoolRefusal::BadMax => 4,
        PoolRefusal::OutOfMemory => NO_MEMORY,
    }
}
