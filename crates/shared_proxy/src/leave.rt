//! Why a connection is over.

ghost use Rattle.std.specs.Prelude.{◌≡◌};
ghost use Rattle.shared_proxy.specs.Leaving.{is_told, leave_of_client, leave_of_state};
ghost use Rattle.shared_proxy.specs.Leaving.{wants_memory};

use proxy::Direction;
use sockets::{IoFailure, RelayFault};
use std::fmt;
use std::io::ErrorKind;
use wire_peer::{CallRefusal, ClientCause, ClientState, ServerCause};
use wire_serve::{CloseCause, ConnState};
use wire_stream::LinkFault;

/// Why a connection is over.
#[derive(Clone, Copy)]
pub enum Leave {
    /// The peer ended it, between messages.
    Ended,
    /// Moving bytes failed.
    Failed(RelayFault),
    /// What the client sent is no request, or its reply can't be written.
    BadClient(CloseCause),
    /// What the server sent is no reply to a call.
    BadServer(ClientCause),
    /// The server can't be asked.
    Refused(CallRefusal),
    /// Connecting to the server failed.
    Unconnected(IoFailure),
    /// The script hung up at the request with this id, which was not passed on.
    HungUp(i32),
    /// It was cut once so many bytes went this way.
    Cut(Direction, u64),
    /// The connection to the server of this number was lost, and with it the reply.
    Lost(u64),
}

impl Leave {
    /// Returns why the connection of a client is over whose state is this, and `None` if it is open.
    pub fn of_state(state: ConnState) -> Option<Leave>
        ensures { result ≡ leave_of_state state }
    {
        match state {
            ConnState::Open => None,
            ConnState::Closed(CloseCause::Server(ServerCause::Ended)) => Some(Leave::Ended),
            ConnState::Closed(cause) => Some(Leave::BadClient(cause)),
        }
    }

    /// Returns why a connection to the server is over whose client isn't open, and `None` if it is.
    pub fn of_client(state: ClientState) -> Option<Leave>
        ensures { result ≡ leave_of_client state }
    {
        match state {
            ClientState::Open => None,
            ClientState::Closed(ClientCause::Ended) => Some(Leave::Ended),
            ClientState::Closed(cause) => Some(Leave::BadServer(cause)),
        }
    }

    /// Returns why a connection is over over which receiving failed.
    pub fn receiving(fault: LinkFault) -> Leave
        ensures { result ≡ Leave.Failed (RelayFault.Receiving fault) }
    {
        Leave::Failed(RelayFault::Receiving(fault))
    }

    /// Returns why a connection is over over which sending failed.
    pub fn sending(fault: LinkFault) -> Leave
        ensures { result ≡ Leave.Failed (RelayFault.Sending fault) }
    {
        Leave::Failed(RelayFault::Sending(fault))
    }

    /// Returns true if memory ran out.
    pub fn wants_memory(self) -> bool
        ensures { result ≡ wants_memory self }
    {
        match self {
            Leave::Failed(RelayFault::Receiving(fault) | RelayFault::Sending(fault)) => {
                matches!(fault.kind, ErrorKind::OutOfMemory)
            }
            Leave::BadClient(CloseCause::NoMemory | CloseCause::Server(ServerCause::NoMemory)) => {
                true
            }
            _ => false,
        }
    }

    /// Returns true if it is told also where nothing is shown: the proxy ended the connection,
    /// connecting to the server failed at once, or a reply was lost.
    pub fn is_told(self) -> bool
        ensures { result ≡ is_told self }
    {
        matches!(
            self,
            Leave::HungUp(_) | Leave::Cut(..) | Leave::Unconnected(_) | Leave::Lost(_)
        )
    }
}

impl fmt::Display for Leave {
    fn fmt<W: fmt::Write>(&self, f: &mut fmt::Formatter<W>) -> fmt::Result {
        match *self {
            Leave::Ended => f.write_str("ended"),
            Leave::Failed(fault) => write!(f, "failed: {fault}"),
            Leave::BadClient(cause) => write!(f, "closed: {cause}"),
            Leave::BadServer(cause) => write!(f, "closed: {cause}"),
            Leave::Refused(refusal) => write!(f, "closed: {refusal}"),
            Leave::Unconnected(failure) => write!(f, "failed: connecting: {failure}"),
            Leave::HungUp(id) => write!(f, "hangup id {id}"),
            Leave::Cut(direction, count) => write!(f, "cut {} {count}", direction.word()),
            Leave::Lost(upstream) => write!(f, "lost with upstream {upstream}"),
        }
    }
}
