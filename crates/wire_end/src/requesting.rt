//! The bytes of the next request: they come over a link, and a server takes them.

ghost use Rattle.std.specs.Prelude.{◌≡◌, ◌≤◌, ◌++◌, List, IfOk, OnErr, drop, length};
ghost use Rattle.std.specs.Io.KnownBytes.{Keeps};
ghost use Rattle.bson_elem.specs.{IsBytes};
ghost use Rattle.wire_msg.specs.{IsOpen};
ghost use Rattle.wire_model.specs.{ServerAct, bytes_taken_up, ended_server};
ghost use Rattle.wire_peer.specs.declared.server_state.ServerState.TheVariants.{Closed};
ghost use Rattle.wire_stream.specs.{AddsTurns, CompletesHeader, Turn};
ghost use Rattle.wire_end.specs.NextRequests.{RequestComes, RequestFails, RequestLater};
ghost use Rattle.wire_end.specs.NextRequests.{TakesMore};
ghost use Rattle.wire_end.specs.ServerEnds.{ServerEndMoves, parts};
ghost use Rattle.wire_end.specs.ServerFeeds.{IsFedAs, standing};
ghost use Rattle.wire_end.specs.Turns.{AreBetween};

use crate::next::{NextRequest, RequestFault};
use wire_peer::{Server, ServerCause, ServerState};
use wire_stream::{Fed, Inlet, Link, Pulled, ReadRefusal, ReaderState};

/// Returns where a server stands with the bytes that it was fed, in which `before` requests waited
/// before that.
fn standing(server: &Server, before: usize) -> ReaderState
    ensures { result ≡ standing server.now.state before (length server.now.waiting) }
{
    match server.state() {
        ServerState::Closed(ServerCause::Message(fault)) => ReaderState::Bad(fault),
        ServerState::Open if server.waiting() > before => ReaderState::Ready,
        ServerState::Open | ServerState::Closed(_) => ReaderState::Need,
    }
}

/// Feeds `piece` to `server`.
///
/// # Errors
///
/// Returns `OutOfMemory` if memory for a message runs out. Nothing is taken then.
fn feed(server: &mut Server, piece: &[u8]) -> Result<Fed, ReadRefusal>
    requires { TakesMore server.old }
    ensures bytes { IsBytes piece.now }
    ensures within { IfOk result (λ fed. fed.taken ≤ length piece.now) }
    ensures fed { IfOk result (λ fed.
        IsFedAs fed.state server.old piece.now server.new (drop fed.taken piece.now)) }
    ensures refused { OnErr result
        (CompletesHeader server.old.limit server.old.held piece.now) }
    ensures unchanged { OnErr result (server.new ≡ server.old) }
{
    let before = server.waiting();
    let taken = server.feed(piece)?;
    Ok(Fed {
        taken,
        state: standing(server, before),
    })
}

/// Tells `server` that no more bytes come. Returns the cause for which it is closed.
pub(crate) fn end(server: &mut Server) -> ServerCause
    ensures ended { server.new ≡ ended_server server.old }
    ensures closed { server.new.state ≡ Closed result }
{
    server.end();
    match server.state() {
        ServerState::Closed(cause) => cause,
        ServerState::Open => unreachable!(),
    }
}

/// Receives over `link` until one more request waits in `server`, and takes no byte behind it out
/// of `inlet`.
///
/// # Errors
///
/// Returns why no request comes.
pub(crate) fn receive_request<L: Link>(
    link: &mut L,
    inlet: &mut Inlet,
    server: &mut Server,
) -> Result<NextRequest, RequestFault>
    requires more { TakesMore server.old }
    requires open { IsOpen server.old.limit server.old.held }
    ensures comes { (acts : List ServerAct)
        × ServerEndMoves L.sent L.received (parts server.old link.old inlet.old) acts
        (parts server.new link.new inlet.new)
        × RequestComes L.ends result (server.old.held ++ bytes_taken_up acts)
        (parts server.old link.old inlet.old) (parts server.new link.new inlet.new) }
    ensures sent { Keeps (L.sent link.old) (L.sent link.new) }
    ensures turns { (ts : List Turn) × AddsTurns (L.turns link.old) (L.turns link.new) ts
        × AreBetween server.old.limit (L.received link.old) (L.sent link.old)
        (server.old.held ++ inlet.old) ts }
    ensures later { RequestLater result (L.waits link.old) (L.waits link.new) }
    ensures fails { RequestFails result (L.failures link.old) (L.failures link.new) }
{
    loop {
        match inlet.pull(link) {
            Ok(Pulled::Bytes) => {}
            Ok(Pulled::Later) => return Ok(NextRequest::Later),
            Ok(Pulled::End) => return Err(RequestFault::Closed(end(server))),
            Err(fault) => return Err(RequestFault::Link(fault)),
        }
        let Ok(fed) = feed(server, inlet.bytes()) else {
            return Err(RequestFault::OutOfMemory);
        };
        inlet.used(fed.taken);
        match fed.state {
            ReaderState::Need => {}
            ReaderState::Ready => return Ok(NextRequest::Waits),
            ReaderState::Bad(fault) => {
                return Err(RequestFault::Closed(ServerCause::Message(fault)));
            }
        }
    }
}
