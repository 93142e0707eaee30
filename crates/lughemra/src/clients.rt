//! Exports what is done with the client of a handle. What makes a client, makes a call,
//! feeds bytes or copies a reply takes memory.

ghost use Rattle.std.specs.Prelude.{◌≡◌, None, length};
ghost use Rattle.wire_peer.specs.{ended, released};
ghost use Rattle.wire_peer.specs.declared.calls.CallKind.TheVariants.{Exhaust, Plain};
ghost use Rattle.wire_peer.specs.declared.calls.CallKind.TheVariants.{Unacknowledged};
ghost use Rattle.byte_views.specs.Fault.{first_fault};
ghost use Rattle.core_handles.specs.Calling.{IsCallMade, call_refused};
ghost use Rattle.core_handles.specs.Handles.{OnClient, held};
ghost use Rattle.core_handles.specs.Making.{IsFreed, IsMade};
ghost use Rattle.core_handles.specs.Replying.{IsOutputCopied, IsReplyCopied, no_output, no_reply};
ghost use Rattle.core_handles.specs.States.{IsFed, IsSent, client_shown, count_told, no_count};
ghost use Rattle.core_handles.specs.States.{no_feed, no_state};

use core_handles::{
    CallMade, ClientShown, CoreHandle, CountTold, OutputCopied, PieceFed, ReplyCopied,
};
use std::alloc::Global;
use wire_peer::CallKind;

/// Puts a client into a handle of no core, as `core_handles::client_new` does.
#[unsafe(no_mangle)]
pub extern "C" fn lughemra_client_new_nonnull(
    alloc: Global,
    core: &mut CoreHandle,
    first_id: i32,
    window: usize,
    limit: u32,
) -> u32
    ensures { IsMade first_id window limit (held core.old) (held core.new) result }
{
    core_handles::client_new(alloc, core, first_id, window, limit)
}

/// Frees the core of a handle, as `core_handles::free` does.
#[unsafe(no_mangle)]
pub extern "C" fn lughemra_free_nonnull(alloc: Global, core: &mut CoreHandle) -> u32
    ensures { IsFreed (held core.old) (held core.new) result }
{
    core_handles::free(alloc, core)
}

/// Makes a call that has one reply, as `core_handles::client_call` does.
#[unsafe(no_mangle)]
pub extern "C" fn lughemra_client_call_nonnull(
    alloc: Global,
    core: &mut CoreHandle,
    body: &[u8],
    sequences: &[u8],
) -> CallMade
    ensures { OnClient (held core.old) (held core.new)
        (call_refused 255 (first_fault None) (first_fault None)) result
        (λ k after. IsCallMade k Plain body.now sequences.now after result) }
{
    core_handles::client_call(alloc, core, CallKind::Plain, body, sequences)
}

/// Makes a call that may have more than one reply, as `core_handles::client_call` does.
#[unsafe(no_mangle)]
pub extern "C" fn lughemra_client_call_exhaust_nonnull(
    alloc: Global,
    core: &mut CoreHandle,
    body: &[u8],
    sequences: &[u8],
) -> CallMade
    ensures { OnClient (held core.old) (held core.new)
        (call_refused 255 (first_fault None) (first_fault None)) result
        (λ k after. IsCallMade k Exhaust body.now sequences.now after result) }
{
    core_handles::client_call(alloc, core, CallKind::Exhaust, body, sequences)
}

/// Makes a call that has no reply, as `core_handles::client_call` does.
#[unsafe(no_mangle)]
pub extern "C" fn lughemra_client_send_unacknowledged_nonnull(
    alloc: Global,
    core: &mut CoreHandle,
    body: &[u8],
    sequences: &[u8],
) -> CallMade
    ensures { OnClient (held core.old) (held core.new)
        (call_refused 255 (first_fault None) (first_fault None)) result
        (λ k after. IsCallMade k Unacknowledged body.now sequences.now after result) }
{
    core_handles::client_call(alloc, core, CallKind::Unacknowledged, body, sequences)
}

/// Copies the bytes that wait to be sent, as `core_handles::client_output` does.
#[unsafe(no_mangle)]
pub extern "C" fn lughemra_client_output_nonnull(
    alloc: Global,
    core: &mut CoreHandle,
    room: &mut [u8],
) -> OutputCopied
    ensures told { OnClient (held core.old) (held core.new) no_output result
        (λ k after. IsOutputCopied k.requests.output room.old room.new result × (after ≡ k)) }
    ensures none { result.refusal ≡ 255 → room.new ≡ room.old }
{
    core_handles::client_output(alloc, core, room)
}

/// Copies the reply that is ready, as `core_handles::client_reply` does.
#[unsafe(no_mangle)]
pub extern "C" fn lughemra_client_reply_nonnull(
    alloc: Global,
    core: &mut CoreHandle,
    room: &mut [u8],
) -> ReplyCopied
    ensures told { OnClient (held core.old) (held core.new) (no_reply 255) result
        (λ k after. IsReplyCopied k room.old room.new result × (after ≡ k)) }
    ensures none { result.refusal ≡ 255 → room.new ≡ room.old }
{
    core_handles::client_reply(alloc, core, room)
}

/// Takes the first `n` bytes that wait off, as `core_handles::client_sent` does.
#[unsafe(no_mangle)]
pub extern "C" fn lughemra_client_sent_nonnull(
    alloc: Global,
    core: &mut CoreHandle,
    n: usize,
) -> u32
    ensures { OnClient (held core.old) (held core.new) 255 result
        (λ k after. IsSent k n after result) }
{
    core_handles::client_sent(alloc, core, n)
}

/// Feeds the client a piece, as `core_handles::client_feed` does.
#[unsafe(no_mangle)]
pub extern "C" fn lughemra_client_feed_nonnull(
    alloc: Global,
    core: &mut CoreHandle,
    piece: &[u8],
) -> PieceFed
    ensures { OnClient (held core.old) (held core.new) no_feed result
        (λ k after. IsFed k piece.now after result) }
{
    core_handles::client_feed(alloc, core, piece)
}

/// Lets go of the reply that is ready, as `core_handles::client_release` does.
#[unsafe(no_mangle)]
pub extern "C" fn lughemra_client_release_nonnull(alloc: Global, core: &mut CoreHandle) -> u32
    ensures { OnClient (held core.old) (held core.new) 255 result
        (λ k after. (after ≡ released k) × (result ≡ 0)) }
{
    core_handles::client_release(alloc, core)
}

/// Tells the client that no more bytes come, as `core_handles::client_end` does.
#[unsafe(no_mangle)]
pub extern "C" fn lughemra_client_end_nonnull(alloc: Global, core: &mut CoreHandle) -> u32
    ensures { OnClient (held core.old) (held core.new) 255 result
        (λ k after. (after ≡ ended k) × (result ≡ 0)) }
{
    core_handles::client_end(alloc, core)
}

/// Returns how the client stands, as `core_handles::client_state` does.
#[unsafe(no_mangle)]
pub extern "C" fn lughemra_client_state_nonnull(alloc: Global, core: &mut CoreHandle) -> ClientShown
    ensures { OnClient (held core.old) (held core.new) no_state result
        (λ k after. (result ≡ client_shown k) × (after ≡ k)) }
{
    core_handles::client_state(alloc, core)
}

/// Counts the calls that await a reply, as `core_handles::client_outstanding` does.
#[unsafe(no_mangle)]
pub extern "C" fn lughemra_client_outstanding_nonnull(
    alloc: Global,
    core: &mut CoreHandle,
) -> CountTold
    ensures { OnClient (held core.old) (held core.new) no_count result
        (λ k after. (result ≡ count_told (length k.requests.outstanding)) × (after ≡ k)) }
{
    core_handles::client_outstanding(alloc, core)
}
