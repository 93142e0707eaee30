//! What is done with the client of a handle. Where the handle has no client, each call answers 255.

ghost use Rattle.std.specs.Prelude.{◌≡◌, None, length};
ghost use Rattle.wire_peer.specs.{ended, released};
ghost use Rattle.byte_views.specs.Fault.{first_fault};
ghost use Rattle.core_handles.specs.Calling.{IsCallMade, call_refused};
ghost use Rattle.core_handles.specs.Handles.{OnClient, held};
ghost use Rattle.core_handles.specs.Making.{IsFreed, IsMade};
ghost use Rattle.core_handles.specs.Replying.{IsOutputCopied, IsReplyCopied, no_output, no_reply};
ghost use Rattle.core_handles.specs.States.{IsFed, IsSent, client_shown, count_told, no_count};
ghost use Rattle.core_handles.specs.States.{no_feed, no_state};

use crate::client_calls::{CallMade, make_call};
use crate::client_replies::{OutputCopied, ReplyCopied, copy_output, copy_reply};
use crate::client_states::{
    ClientShown, CountTold, PieceFed, count_outstanding, feed_piece, show, take_sent,
};
use crate::cores::Core;
use crate::handle::CoreHandle;
use crate::numbers::{DONE, IN_USE, NO_CORE, setup_number};
use std::alloc::Global;
use wire_peer::{CallKind, Client};

/// Puts a client into a handle of no core, as `Client::new` makes it.
///
/// Returns 0, or 1 where `first_id` is out of range, 2 where `window` is and 3 where `limit` is, 9
/// where the handle has a core, and 254 where there was no memory. Then nothing changed.
pub fn client_new(
    alloc: Global,
    core: &mut CoreHandle,
    first_id: i32,
    window: usize,
    limit: u32,
) -> u32
    ensures { IsMade first_id window limit (held core.old) (held core.new) result }
{
    if core.there {
        return IN_USE;
    }
    match Client::new(alloc, first_id, window, limit) {
        Ok(client) => core.put_new(alloc, Core::Client(client)),
        Err(refusal) => setup_number(refusal),
    }
}

/// Frees the core of a handle, which has none then. Returns 0, or 255 where it had none.
pub fn free(alloc: Global, core: &mut CoreHandle) -> u32
    ensures { IsFreed (held core.old) (held core.new) result }
{
    match core.take(alloc) {
        Some(boxed) => {
            drop(boxed);
            DONE
        }
        None => NO_CORE,
    }
}

/// Makes a call of this kind with the client of a handle. Its body is the document that `body` is,
/// and its document sequences are the sections that `sequences` are.
pub fn client_call(
    alloc: Global,
    core: &mut CoreHandle,
    kind: CallKind,
    body: &[u8],
    sequences: &[u8],
) -> CallMade
    ensures { OnClient (held core.old) (held core.new)
        (call_refused 255 (first_fault None) (first_fault None)) result
        (λ k after. IsCallMade k kind body.now sequences.now after result) }
{
    let Some(mut boxed) = core.take(alloc) else {
        return CallMade::no_core();
    };
    let Core::Client(client) = &mut *boxed else {
        core.put(boxed);
        return CallMade::no_core();
    };
    let made = make_call(alloc, client, kind, body, sequences);
    core.put(boxed);
    made
}

/// Copies the first bytes that wait to be sent to the front of `room`, as many as it has room for.
pub fn client_output(alloc: Global, core: &mut CoreHandle, room: &mut [u8]) -> OutputCopied
    ensures told { OnClient (held core.old) (held core.new) no_output result
        (λ k after. IsOutputCopied k.requests.output room.old room.new result × (after ≡ k)) }
    ensures none { result.refusal ≡ 255 → room.new ≡ room.old }
{
    let Some(boxed) = core.take(alloc) else {
        return OutputCopied::no_core();
    };
    let Core::Client(client) = &*boxed else {
        core.put(boxed);
        return OutputCopied::no_core();
    };
    let copied = copy_output(client.output(), room);
    core.put(boxed);
    copied
}

/// Takes the first `n` bytes that wait off, since they were sent. Returns 0, or 8 where fewer wait;
/// then nothing changed.
pub fn client_sent(alloc: Global, core: &mut CoreHandle, n: usize) -> u32
    ensures { OnClient (held core.old) (held core.new) 255 result
        (λ k after. IsSent k n after result) }
{
    let Some(mut boxed) = core.take(alloc) else {
        return NO_CORE;
    };
    let Core::Client(client) = &mut *boxed else {
        core.put(boxed);
        return NO_CORE;
    };
    let told = take_sent(client, n);
    core.put(boxed);
    told
}

/// Feeds the client the first bytes of `piece`, as `Client::feed` does.
pub fn client_feed(alloc: Global, core: &mut CoreHandle, piece: &[u8]) -> PieceFed
    ensures { OnClient (held core.old) (held core.new) no_feed result
        (λ k after. IsFed k piece.now after result) }
{
    let Some(mut boxed) = core.take(alloc) else {
        return PieceFed::no_core();
    };
    let Core::Client(client) = &mut *boxed else {
        core.put(boxed);
        return PieceFed::no_core();
    };
    let fed = feed_piece(client, piece);
    core.put(boxed);
    fed
}

/// Copies the reply that is ready to the front of `room`, as a message with no ids and no flag. If
/// it has no room, nothing is written, and its length is told.
pub fn client_reply(alloc: Global, core: &mut CoreHandle, room: &mut [u8]) -> ReplyCopied
    ensures told { OnClient (held core.old) (held core.new) (no_reply 255) result
        (λ k after. IsReplyCopied k room.old room.new result × (after ≡ k)) }
    ensures none { result.refusal ≡ 255 → room.new ≡ room.old }
{
    let Some(boxed) = core.take(alloc) else {
        return ReplyCopied::no_core();
    };
    let Core::Client(client) = &*boxed else {
        core.put(boxed);
        return ReplyCopied::no_core();
    };
    let copied = copy_reply(alloc, client, room);
    core.put(boxed);
    copied
}

/// Lets go of the reply that is ready, so that more bytes are taken. Returns 0.
pub fn client_release(alloc: Global, core: &mut CoreHandle) -> u32
    ensures { OnClient (held core.old) (held core.new) 255 result
        (λ k after. (after ≡ released k) × (result ≡ 0)) }
{
    let Some(mut boxed) = core.take(alloc) else {
        return NO_CORE;
    };
    let Core::Client(client) = &mut *boxed else {
        core.put(boxed);
        return NO_CORE;
    };
    client.release();
    core.put(boxed);
    DONE
}

/// Tells the client that no more bytes come, which closes it, if it is open. Returns 0.
pub fn client_end(alloc: Global, core: &mut CoreHandle) -> u32
    ensures { OnClient (held core.old) (held core.new) 255 result
        (λ k after. (after ≡ ended k) × (result ≡ 0)) }
{
    let Some(mut boxed) = core.take(alloc) else {
        return NO_CORE;
    };
    let Core::Client(client) = &mut *boxed else {
        core.put(boxed);
        return NO_CORE;
    };
    client.end();
    core.put(boxed);
    DONE
}

/// Returns how the client stands.
pub fn client_state(alloc: Global, core: &mut CoreHandle) -> ClientShown
    ensures { OnClient (held core.old) (held core.new) no_state result
        (λ k after. (result ≡ client_shown k) × (after ≡ k)) }
{
    let Some(boxed) = core.take(alloc) else {
        return ClientShown::no_core();
    };
    let Core::Client(client) = &*boxed else {
        core.put(boxed);
        return ClientShown::no_core();
    };
    let shown = show(client);
    core.put(boxed);
    shown
}

/// Counts the calls of the client that await a reply.
pub fn client_outstanding(alloc: Global, core: &mut CoreHandle) -> CountTold
    ensures { OnClient (held core.old) (held core.new) no_count result
        (λ k after. (result ≡ count_told (length k.requests.outstanding)) × (after ≡ k)) }
{
    let Some(boxed) = core.take(alloc) else {
        return CountTold::no_core();
    };
    let Core::Client(client) = &*boxed else {
        core.put(boxed);
        return CountTold::no_core();
    };
    let told = count_outstanding(client);
    core.put(boxed);
    told
}
