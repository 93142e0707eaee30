//! Feeds a client, tells it what was sent, and shows how it stands.

ghost use Rattle.std.specs.Prelude.{◌≡◌, length};
ghost use Rattle.std.specs.Option.{is_some};
ghost use Rattle.core_handles.specs.States.{IsFed, IsSent, cause_shown, client_shown, count_told};
ghost use Rattle.core_handles.specs.States.{fault_shown, no_count, no_feed, no_state, state_shown};

use crate::numbers::{DONE, NO_CORE, NO_MEMORY, TOO_MANY, cause_number};
use byte_views::FirstFault;
use wire_msg::MsgFault;
use wire_peer::{Client, ClientCause, ClientState};

/// How a client stands.
#[derive(Clone, Copy)]
#[repr(C)]
pub struct ClientShown {
    /// 0, or 255 where the handle has no core.
    pub refusal: u32,
    /// 0 if it is open, else why it was closed: 1 by the fault of a message, 2 by a reply that no
    /// call bears the id of, 3 by a reply that announces more than its call allows, 4 by a message
    /// that breaks a stream of replies, 5 by the end of the bytes, and 6 by their end inside a
    /// message.
    pub cause: u32,
    /// If the cause is 2, the responseTo of that reply, else 0.
    pub id: i32,
    /// A reply is ready.
    pub ready: bool,
    /// If the cause is 1, the message's fault.
    pub fault: FirstFault,
    /// If the cause of that is 7, the fault of the document at its offset. Its own offset is
    /// counted from there.
    pub document_fault: FirstFault,
}

impl ClientShown {
    /// Returns a client with no reply that is closed for this cause, or open where it is 0.
    fn by_number(refusal: u32, cause: u32, id: i32) -> ClientShown
        ensures { result ≡ cause_shown refusal cause id }
    {
        ClientShown {
            refusal,
            cause,
            id,
            ready: false,
            fault: FirstFault::none(),
            document_fault: FirstFault::none(),
        }
    }

    /// Returns that the handle has no core.
    pub(crate) fn no_core() -> ClientShown
        ensures { result ≡ no_state }
    {
        ClientShown::by_number(NO_CORE, 0, 0)
    }

    /// Returns a client with no reply that is closed by this fault.
    fn by_fault(fault: MsgFault) -> ClientShown
        ensures { result ≡ fault_shown fault }
    {
        ClientShown {
            fault: FirstFault::of_message(0, fault),
            document_fault: FirstFault::inside(fault.cause),
            ..ClientShown::by_number(DONE, 1, 0)
        }
    }

    /// Returns a client with no reply that stands so.
    fn of_state(state: ClientState) -> ClientShown
        ensures { result ≡ state_shown state }
    {
        match state {
            ClientState::Open => ClientShown::by_number(DONE, 0, 0),
            ClientState::Closed(ClientCause::Message(fault)) => ClientShown::by_fault(fault),
            ClientState::Closed(ClientCause::UnknownReply(id)) => {
                ClientShown::by_number(DONE, 2, id)
            }
            ClientState::Closed(cause) => ClientShown::by_number(DONE, cause_number(cause), 0),
        }
    }
}

/// Returns true if a reply is ready.
fn is_ready(client: &Client) -> bool
    ensures { result ≡ is_some client.now.reply }
{
    client.reply().is_some()
}

/// Returns how a client stands.
pub(crate) fn show(client: &Client) -> ClientShown
    ensures { result ≡ client_shown client.now }
{
    ClientShown {
        ready: is_ready(client),
        ..ClientShown::of_state(client.state())
    }
}

/// A count.
#[derive(Clone, Copy)]
#[repr(C)]
pub struct CountTold {
    /// 0, or 255 where the handle has no core.
    pub refusal: u32,
    /// The count, or 0.
    pub count: usize,
}

impl CountTold {
    /// Returns that the handle has no core.
    pub(crate) fn no_core() -> CountTold
        ensures { result ≡ no_count }
    {
        CountTold {
            refusal: NO_CORE,
            count: 0,
        }
    }
}

/// Counts the calls that await a reply.
pub(crate) fn count_outstanding(client: &Client) -> CountTold
    ensures { result ≡ count_told (length client.now.requests.outstanding) }
{
    CountTold {
        refusal: DONE,
        count: client.outstanding(),
    }
}

/// What became of a piece of bytes.
#[derive(Clone, Copy)]
#[repr(C)]
pub struct PieceFed {
    /// 0, or 254 where there was no memory for the message, and 255 where the handle has no core.
    /// Then nothing changed, and the piece may be fed again.
    pub refusal: u32,
    /// How many of the first bytes were taken.
    pub taken: usize,
    /// How the client stands then.
    pub state: ClientShown,
}

impl PieceFed {
    /// Returns that the handle has no core.
    pub(crate) fn no_core() -> PieceFed
        ensures { result ≡ no_feed }
    {
        PieceFed {
            refusal: NO_CORE,
            taken: 0,
            state: ClientShown::no_core(),
        }
    }
}

/// Takes the first bytes of `piece`, as `Client::feed` does.
pub(crate) fn feed_piece(client: &mut Client, piece: &[u8]) -> PieceFed
    ensures { IsFed client.old piece.now client.new result }
{
    match client.feed(piece) {
        Ok(taken) => PieceFed {
            refusal: DONE,
            taken,
            state: show(client),
        },
        Err(_) => PieceFed {
            refusal: NO_MEMORY,
            taken: 0,
            state: show(client),
        },
    }
}

/// Takes the first `n` bytes of the output off, since they were sent. Returns `TOO_MANY` if fewer
/// wait; then nothing changes.
pub(crate) fn take_sent(client: &mut Client, n: usize) -> u32
    ensures { IsSent client.old n client.new result }
{
    if n > client.output().len() {
        return TOO_MANY;
    }
    client.sent(n);
    DONE
}
