//! Exports what is done with the server of a handle. What makes a server, feeds bytes,
//! copies a request or answers one takes memory.

ghost use Rattle.std.specs.Prelude.{◌≡◌};
ghost use Rattle.wire_peer.specs.{closed_for, end_cause};
ghost use Rattle.core_handles.specs.Handles.{OnServer, held};
ghost use Rattle.core_handles.specs.Making.{IsServerMade};
ghost use Rattle.core_handles.specs.Replying.{IsOutputCopied, no_output};
ghost use Rattle.core_handles.specs.Requesting.{IsRequestCopied, no_request};
ghost use Rattle.core_handles.specs.Serving.{IsAnswerGiven, answer_told};
ghost use Rattle.core_handles.specs.Standing.{IsServerFed, IsServerSent, no_server, not_fed};
ghost use Rattle.core_handles.specs.Standing.{server_shown};

use core_handles::{AnswerGiven, CoreHandle, OutputCopied, RequestCopied, ServerFed, ServerShown};
use std::alloc::Global;

/// Puts a server into a handle of no core, as `core_handles::server_new` does.
#[unsafe(no_mangle)]
pub extern "C" fn lughemra_server_new_nonnull(
    alloc: Global,
    core: &mut CoreHandle,
    window: usize,
    limit: u32,
) -> u32
    ensures { IsServerMade window limit (held core.old) (held core.new) result }
{
    core_handles::server_new(alloc, core, window, limit)
}

/// Feeds the server a piece, as `core_handles::server_feed` does.
#[unsafe(no_mangle)]
pub extern "C" fn lughemra_server_feed_nonnull(
    alloc: Global,
    core: &mut CoreHandle,
    piece: &[u8],
) -> ServerFed
    ensures { OnServer (held core.old) (held core.new) not_fed result
        (λ s after. IsServerFed s piece.now after result) }
{
    core_handles::server_feed(alloc, core, piece)
}

/// Copies a request that waits, as `core_handles::server_request` does.
#[unsafe(no_mangle)]
pub extern "C" fn lughemra_server_request_nonnull(
    alloc: Global,
    core: &mut CoreHandle,
    k: usize,
    room: &mut [u8],
) -> RequestCopied
    ensures told { OnServer (held core.old) (held core.new) (no_request 255) result
        (λ s after. IsRequestCopied s k room.old room.new result × (after ≡ s)) }
    ensures none { result.refusal ≡ 255 → room.new ≡ room.old }
{
    core_handles::server_request(alloc, core, k, room)
}

/// Answers a request that waits, as `core_handles::server_answer` does.
#[unsafe(no_mangle)]
pub extern "C" fn lughemra_server_answer_nonnull(
    alloc: Global,
    core: &mut CoreHandle,
    k: usize,
    documents: &[u8],
) -> AnswerGiven
    ensures { OnServer (held core.old) (held core.new) (answer_told 255) result
        (λ s after. IsAnswerGiven s k documents.now after result) }
{
    core_handles::server_answer(alloc, core, k, documents)
}

/// Copies the bytes that wait to be sent, as `core_handles::server_output` does.
#[unsafe(no_mangle)]
pub extern "C" fn lughemra_server_output_nonnull(
    alloc: Global,
    core: &mut CoreHandle,
    room: &mut [u8],
) -> OutputCopied
    ensures told { OnServer (held core.old) (held core.new) no_output result
        (λ s after. IsOutputCopied s.output room.old room.new result × (after ≡ s)) }
    ensures none { result.refusal ≡ 255 → room.new ≡ room.old }
{
    core_handles::server_output(alloc, core, room)
}

/// Takes the first `n` bytes that wait off, as `core_handles::server_sent` does.
#[unsafe(no_mangle)]
pub extern "C" fn lughemra_server_sent_nonnull(
    alloc: Global,
    core: &mut CoreHandle,
    n: usize,
) -> u32
    ensures { OnServer (held core.old) (held core.new) 255 result
        (λ s after. IsServerSent s n after result) }
{
    core_handles::server_sent(alloc, core, n)
}

/// Tells the server that no more bytes come, as `core_handles::server_end` does.
#[unsafe(no_mangle)]
pub extern "C" fn lughemra_server_end_nonnull(alloc: Global, core: &mut CoreHandle) -> u32
    ensures { OnServer (held core.old) (held core.new) 255 result
        (λ s after. (after ≡ record s { state = closed_for (end_cause s.held) s.state })
        × (result ≡ 0)) }
{
    core_handles::server_end(alloc, core)
}

/// Returns how the server stands, as `core_handles::server_state` does.
#[unsafe(no_mangle)]
pub extern "C" fn lughemra_server_state_nonnull(alloc: Global, core: &mut CoreHandle) -> ServerShown
    ensures { OnServer (held core.old) (held core.new) no_server result
        (λ s after. (result ≡ server_shown s) × (after ≡ s)) }
{
    core_handles::server_state(alloc, core)
}
