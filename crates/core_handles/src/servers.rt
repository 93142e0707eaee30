//! What is done with the server of a handle. Where the handle has no server, each call answers 255.

ghost use Rattle.std.specs.Prelude.{◌≡◌};
ghost use Rattle.wire_peer.specs.{closed_for, end_cause};
ghost use Rattle.core_handles.specs.Handles.{OnServer, held};
ghost use Rattle.core_handles.specs.Making.{IsServerMade};
ghost use Rattle.core_handles.specs.Replying.{IsOutputCopied, no_output};
ghost use Rattle.core_handles.specs.Requesting.{IsRequestCopied, no_request};
ghost use Rattle.core_handles.specs.Serving.{IsAnswerGiven, answer_told};
ghost use Rattle.core_handles.specs.Standing.{IsServerFed, IsServerSent, no_server, not_fed};
ghost use Rattle.core_handles.specs.Standing.{server_shown};

use crate::client_replies::{OutputCopied, copy_output};
use crate::cores::Core;
use crate::handle::CoreHandle;
use crate::numbers::{DONE, IN_USE, NO_CORE, server_setup_number};
use crate::server_answers::{AnswerGiven, give_answer};
use crate::server_requests::{RequestCopied, copy_request};
use crate::server_states::{ServerFed, ServerShown, feed_piece, show, take_sent};
use std::alloc::Global;
use wire_peer::Server;

/// Puts a server into a handle of no core, as `Server::new` makes it.
///
/// Returns 0, or 2 where `window` is out of range and 3 where `limit` is, 9 where the handle has a
/// core, and 254 where there was no memory. Then nothing changed.
pub fn server_new(alloc: Global, core: &mut CoreHandle, window: usize, limit: u32) -> u32
    ensures { IsServerMade window limit (held core.old) (held core.new) result }
{
    if core.there {
        return IN_USE;
    }
    match Server::new(alloc, 0, window, limit) {
        Ok(server) => core.put_new(alloc, Core::Server(server)),
        Err(refusal) => server_setup_number(refusal),
    }
}

/// Feeds the server the first bytes of `piece`, as `Server::feed` does.
pub fn server_feed(alloc: Global, core: &mut CoreHandle, piece: &[u8]) -> ServerFed
    ensures { OnServer (held core.old) (held core.new) not_fed result
        (λ s after. IsServerFed s piece.now after result) }
{
    let Some(mut boxed) = core.take(alloc) else {
        return ServerFed::no_core();
    };
    let Core::Server(server) = &mut *boxed else {
        core.put(boxed);
        return ServerFed::no_core();
    };
    let fed = feed_piece(server, piece);
    core.put(boxed);
    fed
}

/// Copies the `k`-th request that waits to the front of `room`, as a message with no ids and with
/// its flags. If it has no room, nothing is written, and its length is told.
pub fn server_request(
    alloc: Global,
    core: &mut CoreHandle,
    k: usize,
    room: &mut [u8],
) -> RequestCopied
    ensures told { OnServer (held core.old) (held core.new) (no_request 255) result
        (λ s after. IsRequestCopied s k room.old room.new result × (after ≡ s)) }
    ensures none { result.refusal ≡ 255 → room.new ≡ room.old }
{
    let Some(boxed) = core.take(alloc) else {
        return RequestCopied::no_core();
    };
    let Core::Server(server) = &*boxed else {
        core.put(boxed);
        return RequestCopied::no_core();
    };
    let copied = copy_request(alloc, server, k, room);
    core.put(boxed);
    copied
}

/// Answers the `k`-th request that waits with the documents, which stand one behind the other: one
/// answer each, whose body it is.
pub fn server_answer(
    alloc: Global,
    core: &mut CoreHandle,
    k: usize,
    documents: &[u8],
) -> AnswerGiven
    ensures { OnServer (held core.old) (held core.new) (answer_told 255) result
        (λ s after. IsAnswerGiven s k documents.now after result) }
{
    let Some(mut boxed) = core.take(alloc) else {
        return AnswerGiven::no_core();
    };
    let Core::Server(server) = &mut *boxed else {
        core.put(boxed);
        return AnswerGiven::no_core();
    };
    let given = give_answer(alloc, server, k, documents);
    core.put(boxed);
    given
}

/// Copies the first bytes that wait to be sent to the front of `room`, as many as it has room for.
pub fn server_output(alloc: Global, core: &mut CoreHandle, room: &mut [u8]) -> OutputCopied
    ensures told { OnServer (held core.old) (held core.new) no_output result
        (λ s after. IsOutputCopied s.output room.old room.new result × (after ≡ s)) }
    ensures none { result.refusal ≡ 255 → room.new ≡ room.old }
{
    let Some(boxed) = core.take(alloc) else {
        return OutputCopied::no_core();
    };
    let Core::Server(server) = &*boxed else {
        core.put(boxed);
        return OutputCopied::no_core();
    };
    let copied = copy_output(server.output(), room);
    core.put(boxed);
    copied
}

/// Takes the first `n` bytes that wait off, since they were sent. Returns 0, or 8 where fewer wait;
/// then nothing changed.
pub fn server_sent(alloc: Global, core: &mut CoreHandle, n: usize) -> u32
    ensures { OnServer (held core.old) (held core.new) 255 result
        (λ s after. IsServerSent s n after result) }
{
    let Some(mut boxed) = core.take(alloc) else {
        return NO_CORE;
    };
    let Core::Server(server) = &mut *boxed else {
        core.put(boxed);
        return NO_CORE;
    };
    let told = take_sent(server, n);
    core.put(boxed);
    told
}

/// Tells the server that no more bytes come, which closes it, if it is open. Returns 0.
pub fn server_end(alloc: Global, core: &mut CoreHandle) -> u32
    ensures { OnServer (held core.old) (held core.new) 255 result
        (λ s after. (after ≡ record s { state = closed_for (end_cause s.held) s.state })
        × (result ≡ 0)) }
{
    let Some(mut boxed) = core.take(alloc) else {
        return NO_CORE;
    };
    let Core::Server(server) = &mut *boxed else {
        core.put(boxed);
        return NO_CORE;
    };
    server.end();
    core.put(boxed);
    DONE
}

/// Returns how the server stands.
pub fn server_state(alloc: Global, core: &mut CoreHandle) -> ServerShown
    ensures { OnServer (held core.old) (held core.new) no_server result
        (λ s after. (result ≡ server_shown s) × (after ≡ s)) }
{
    let Some(boxed) = core.take(alloc) else {
        return ServerShown::no_core();
    };
    let Core::Server(server) = &*boxed else {
        core.put(boxed);
        return ServerShown::no_core();
    };
    let shown = show(server);
    core.put(boxed);
    shown
}
