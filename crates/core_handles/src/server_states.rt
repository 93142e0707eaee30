//! Feeds a server, and shows how it stands.

ghost use Rattle.std.specs.Prelude.{◌≡◌, length};
ghost use Rattle.core_handles.specs.Standing.{IsServerFed, IsServerSent, cause_shown, fault_shown};
ghost use Rattle.core_handles.specs.Standing.{no_server, not_fed, server_shown, state_shown};

use crate::numbers::{DONE, NO_CORE, NO_MEMORY, TOO_MANY, server_cause_number};
use byte_views::FirstFault;
use wire_msg::MsgFault;
use wire_peer::{Server, ServerCause, ServerState};

/// How a server stands.
#[derive(Clone, Copy)]
#[repr(C)]
pub struct ServerShown {
    /// 0, or 255 where the handle has no server.
    pub refusal: u32,
    /// 0 if it is open, else why it closed: 1 by the fault of a message, 5 by the end of the bytes,
    /// 6 by their end inside a message, 7 by a reply that would be too large, 8 for want of memory
    /// and 9 by its handler.
    pub cause: u32,
    /// As many requests wait as may, so no bytes are taken.
    pub full: bool,
    /// How many requests wait.
    pub waiting: usize,
    /// If the cause is 1, the message's fault.
    pub fault: FirstFault,
    /// If the cause of that is 7, the fault of the document at its offset. Its own offset is
    /// counted from there.
    pub document_fault: FirstFault,
}

impl ServerShown {
    /// Returns a server with no request that is closed for this cause, or open where it is 0.
    fn by_number(refusal: u32, cause: u32) -> ServerShown
        ensures { result ≡ cause_shown refusal cause }
    {
        ServerShown {
            refusal,
            cause,
            full: false,
            waiting: 0,
            fault: FirstFault::none(),
            document_fault: FirstFault::none(),
        }
    }

    /// Returns that the handle has no server.
    pub(crate) fn no_core() -> ServerShown
        ensures { result ≡ no_server }
    {
        ServerShown::by_number(NO_CORE, 0)
    }

    /// Returns a server with no request that is closed by this fault.
    fn by_fault(fault: MsgFault) -> ServerShown
        ensures { result ≡ fault_shown fault }
    {
        ServerShown {
            fault: FirstFault::of_message(0, fault),
            document_fault: FirstFault::inside(fault.cause),
            ..ServerShown::by_number(DONE, 1)
        }
    }

    /// Returns a server with no request that stands so.
    fn of_state(state: ServerState) -> ServerShown
        ensures { result ≡ state_shown state }
    {
        match state {
            ServerState::Open => ServerShown::by_number(DONE, 0),
            ServerState::Closed(ServerCause::Message(fault)) => ServerShown::by_fault(fault),
            ServerState::Closed(cause) => ServerShown::by_number(DONE, server_cause_number(cause)),
        }
    }
}

/// Returns how a server stands.
pub(crate) fn show(server: &Server) -> ServerShown
    ensures { result ≡ server_shown server.now }
{
    ServerShown {
        full: server.is_full(),
        waiting: server.waiting(),
        ..ServerShown::of_state(server.state())
    }
}

/// What became of a piece of bytes.
#[derive(Clone, Copy)]
#[repr(C)]
pub struct ServerFed {
    /// 0, or 254 where there was no memory for the message, and 255 where the handle has no server.
    /// Then nothing changed, and the piece may be fed again.
    pub refusal: u32,
    /// How many of the first bytes were taken.
    pub taken: usize,
    /// How the server stands then.
    pub state: ServerShown,
}

impl ServerFed {
    /// Returns that the handle has no server.
    pub(crate) fn no_core() -> ServerFed
        ensures { result ≡ not_fed }
    {
        ServerFed {
            refusal: NO_CORE,
            taken: 0,
            state: ServerShown::no_core(),
        }
    }
}

/// Takes the first bytes of `piece`, as `Server::feed` does.
pub(crate) fn feed_piece(server: &mut Server, piece: &[u8]) -> ServerFed
    ensures { IsServerFed server.old piece.now server.new result }
{
    match server.feed(piece) {
        Ok(taken) => ServerFed {
            refusal: DONE,
            taken,
            state: show(server),
        },
        Err(_) => ServerFed {
            refusal: NO_MEMORY,
            taken: 0,
            state: show(server),
        },
    }
}

/// Takes the first `n` bytes of the output off, since they were sent. Returns `TOO_MANY` if fewer
/// wait; then nothing changes.
pub(crate) fn take_sent(server: &mut Server, n: usize) -> u32
    ensures { IsServerSent server.old n server.new result }
{
    if n > server.output().len() {
        return TOO_MANY;
    }
    server.sent(n);
    DONE
}
