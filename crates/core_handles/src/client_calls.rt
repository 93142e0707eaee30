//! Makes a call of a client, of bytes that its caller has.

ghost use Rattle.std.specs.Prelude.{◌≡◌, ◌≤◌, [], IfSome, MatchResult, None};
ghost use Rattle.wire_msg.specs.{BufCarries, Carries, Content, Message, SpellsMsg, message_len};
ghost use Rattle.wire_msg.specs.Payload.{AreParts};
ghost use Rattle.wire_peer.specs.{IsCallRefusal, IsCalled, called, content_of};
ghost use Rattle.byte_views.specs.Fault.{first_fault};
ghost use Rattle.core_handles.specs.Calling.{CallsWith, IsCallMade, call_made, call_refused};
ghost use Rattle.core_handles.specs.Calling.{content_refused};

use crate::numbers::{BAD_CONTENT, DONE, NO_CORE, NO_MEMORY, call_number};
use bson_raw::RawDocument;
use byte_views::{ContentRefusal, FirstFault, spell_content};
use std::alloc::Global;
use wire_msg::{MAX_MESSAGE_LEN, Payload, PayloadBuf, RawMsg};
use wire_peer::{CallKind, CallNo, CallRefusal, Client};

/// The greatest length of a body alone: what a message has room for beside its header, its flags
/// and the kind of its section.
const MAX_BODY_LEN: usize = MAX_MESSAGE_LEN as usize - 21;

/// What became of a call.
#[derive(Clone, Copy)]
#[repr(C)]
pub struct CallMade {
    /// 0 if the call was made, else why it wasn't: 1 where the client is closed, 2 where the window
    /// is full, 3 where the request would be too large, 4 where there is no such content, 6 where
    /// the call numbers are spent, 254 where there was no memory, and 255 where the handle has no
    /// core. Then nothing changed.
    pub refusal: u32,
    /// The request's requestID, or 0 if the call wasn't made.
    pub id: i32,
    /// The call's number among those of its client, or 0 if the call wasn't made.
    pub number: u64,
    /// Where there is no such content, the first fault of a message with it.
    pub fault: FirstFault,
    /// If the cause of that is 7, the fault of the document at its offset. Its own offset is
    /// counted from there.
    pub document_fault: FirstFault,
}

impl CallMade {
    /// Returns that the call has this number and this id.
    fn made(no: CallNo) -> CallMade
        ensures { result ≡ call_made no }
    {
        CallMade {
            refusal: DONE,
            id: no.id,
            number: no.number,
            fault: FirstFault::none(),
            document_fault: FirstFault::none(),
        }
    }

    /// Returns that the call is refused, by this number.
    fn refused(refusal: u32) -> CallMade
        ensures { result ≡ call_refused refusal (first_fault None) (first_fault None) }
    {
        CallMade {
            refusal,
            id: 0,
            number: 0,
            fault: FirstFault::none(),
            document_fault: FirstFault::none(),
        }
    }

    /// Returns that the handle has no core.
    pub(crate) fn no_core() -> CallMade
        ensures { result ≡ call_refused 255 (first_fault None) (first_fault None) }
    {
        CallMade::refused(NO_CORE)
    }

    /// Returns that there is no such content, by these faults.
    fn of_faults(fault: FirstFault, document_fault: FirstFault) -> CallMade
        ensures { result ≡ call_refused 4 fault document_fault }
    {
        CallMade {
            refusal: BAD_CONTENT,
            id: 0,
            number: 0,
            fault,
            document_fault,
        }
    }

    /// Returns that there is no such content.
    fn of_content(refusal: ContentRefusal) -> CallMade
        ensures { result ≡ content_refused refusal }
    {
        match refusal {
            ContentRefusal::Body(fault) => CallMade::of_faults(
                FirstFault {
                    number: 7,
                    offset: 21,
                },
                FirstFault::of_document(0, fault),
            ),
            ContentRefusal::TooLarge => CallMade::refused(3),
            ContentRefusal::OutOfMemory => CallMade::refused(NO_MEMORY),
            ContentRefusal::Message(fault) => CallMade::of_faults(
                FirstFault::of_message(0, fault),
                FirstFault::inside(fault.cause),
            ),
        }
    }
}

/// Makes a call of this kind.
fn call_as(client: &mut Client, kind: CallKind, payload: Payload<'_>) -> Result<CallNo, CallRefusal>
    ensures { MatchResult result
        (λ no. IsCalled client.old kind (content_of payload.entry) no
        × (client.new ≡ called client.old kind (content_of payload.entry) no))
        (λ e. IsCallRefusal client.old kind (content_of payload.entry) e
        × (client.new ≡ client.old)) }
{
    match kind {
        CallKind::Plain => client.call(payload),
        CallKind::Exhaust => client.call_exhaust(payload),
        CallKind::Unacknowledged => client.send_unacknowledged(payload),
    }
}

/// Makes a call of this kind with the content of a payload.
fn call_on(client: &mut Client, kind: CallKind, payload: Payload<'_>) -> CallMade
    ensures { (c : Content) → Carries payload.entry c
        → CallsWith client.old kind c client.new result }
{
    match call_as(client, kind, payload) {
        Ok(no) => CallMade::made(no),
        Err(refusal) => CallMade::refused(call_number(refusal)),
    }
}

/// Makes a call of this kind with the content of a message.
fn call_with(client: &mut Client, kind: CallKind, message: &[u8]) -> CallMade
    requires { (m : Message) × SpellsMsg m message.now }
    ensures { (m : Message) → SpellsMsg m message.now
        → CallsWith client.old kind m.content client.new result }
{
    call_on(client, kind, RawMsg::from_spelled(message).payload())
}

/// Returns the payload of the document that `body` is and no document sequence; or `None` if it is
/// none, or too large for a message, or if there is no memory for it.
fn payload_alone(alloc: Global, body: &[u8]) -> Option<PayloadBuf>
    ensures { IfSome result (λ b. (c : Content) × BufCarries b c × AreParts [] body.now [] c
        × (message_len c ≤ MAX_MESSAGE_LEN)) }
{
    if body.len() > MAX_BODY_LEN {
        return None;
    }
    let Ok(document) = RawDocument::from_bytes(body) else {
        return None;
    };
    match PayloadBuf::new(alloc, document) {
        Ok(payload) => Some(payload),
        Err(_) => None,
    }
}

/// Makes a call of this kind, with the content of a message of the body and the sequences.
fn call_spelled(
    alloc: Global,
    client: &mut Client,
    kind: CallKind,
    body: &[u8],
    sequences: &[u8],
) -> CallMade
    ensures { IsCallMade client.old kind body.now sequences.now client.new result }
{
    let message = match spell_content(alloc, body, sequences, MAX_MESSAGE_LEN) {
        Ok(message) => message,
        Err(refusal) => return CallMade::of_content(refusal),
    };
    call_with(client, kind, &message)
}

/// Makes a call of this kind. Its body is the document that `body` is, and its document sequences
/// are the sections that `sequences` are.
pub(crate) fn make_call(
    alloc: Global,
    client: &mut Client,
    kind: CallKind,
    body: &[u8],
    sequences: &[u8],
) -> CallMade
    ensures { IsCallMade client.old kind body.now sequences.now client.new result }
{
    // A body alone, as most calls have, is no message that has to be written and read.
    if sequences.is_empty()
        && let Some(payload) = payload_alone(alloc, body)
    {
        return call_on(client, kind, payload.as_payload());
    }
    call_spelled(alloc, client, kind, body, sequences)
}
