//! Tests that payloads stay the same after a refused allocation. `scripts/checks/try-refusals` runs
//! them with each of their allocations refused in turn. Only one is refused in a run, so what is
//! tried again succeeds.

use bson_raw::RawDocument;
use std::alloc::Global;
use wire_msg::{MsgFlags, MsgRefusal, Payload, PayloadBuf, write_msg};

/// `{"insert": "c"}`
const BODY: &[u8] = b"\x13\0\0\0\x02insert\0\x02\0\0\0c\0\0";

/// Two bytes, and then `BODY` as request 2, with the empty sequence "documents".
const WRITTEN: &[u8] = b"ab\x37\0\0\0\x02\0\0\0\0\0\0\0\xdd\x07\0\0\0\0\0\0\
    \0\x13\0\0\0\x02insert\0\x02\0\0\0c\0\0\x01\x0e\0\0\0documents\0";

/// Returns a payload of `BODY` alone.
fn payload(alloc: Global) -> Option<PayloadBuf> {
    let body = RawDocument::from_bytes(BODY).ok()?;
    PayloadBuf::new(alloc, body).ok()
}

/// Returns a payload of `BODY` alone. Makes it again if memory is refused.
fn payload_again(alloc: Global) -> Option<PayloadBuf> {
    match payload(alloc) {
        Some(made) => Some(made),
        None => payload(alloc),
    }
}

/// Begins the sequence "documents". Tries again if memory is refused.
fn begin(payload: &mut PayloadBuf) -> bool {
    payload.begin_sequence("documents").is_ok() || payload.begin_sequence("documents").is_ok()
}

/// Returns a payload of `BODY` and an empty sequence.
fn begun(alloc: Global) -> Option<PayloadBuf> {
    let mut payload = payload_again(alloc)?;
    if begin(&mut payload) {
        Some(payload)
    } else {
        None
    }
}

/// Returns true if the message of the payload has `len` bytes.
fn has_len(payload: &PayloadBuf, len: u64) -> bool {
    payload.as_payload().msg_len() == len
}

/// Returns true if the payload of `BODY` is made, at the second try if memory runs out.
fn is_made(alloc: Global, body: RawDocument<'_>) -> bool {
    match PayloadBuf::new(alloc, body) {
        Ok(made) => has_len(&made, 40),
        Err(refusal) => refusal == MsgRefusal::OutOfMemory && payload(alloc).is_some(),
    }
}

#[test]
fn a_refused_payload_is_not_made(rt: HostRuntime) {
    let Ok(body) = RawDocument::from_bytes(BODY) else {
        assert!(rt; false);
        return;
    };
    assert!(rt; is_made(rt.alloc(), body));
}

/// Returns whether a copy by `to_buf` is equal to the payload, or `None` if memory is refused.
fn copies(alloc: Global, payload: &PayloadBuf) -> Option<bool> {
    let copy = payload.as_payload().to_buf(alloc).ok()?;
    Some(copy == *payload)
}

/// Returns whether a copy by `try_clone` is equal to the payload, or `None` if memory is refused.
fn clones(payload: &PayloadBuf) -> Option<bool> {
    let copy = payload.try_clone().ok()?;
    Some(copy == *payload)
}

/// Returns true if both tries came right, or one did and memory was refused to the other.
fn comes_right(first: Option<bool>, second: Option<bool>) -> bool {
    match (first, second) {
        (Some(right), Some(again)) => right && again,
        (Some(right), None) | (None, Some(right)) => right,
        (None, None) => false,
    }
}

/// Returns true if a payload is copied, and stays as it is.
fn stays(alloc: Global) -> bool {
    match begun(alloc) {
        Some(payload) => {
            comes_right(copies(alloc, &payload), copies(alloc, &payload))
                && comes_right(clones(&payload), clones(&payload))
                && has_len(&payload, 55)
        }
        None => false,
    }
}

#[test]
fn a_payload_that_is_copied_stays(rt: HostRuntime) {
    assert!(rt; stays(rt.alloc()));
}

/// Returns true if a sequence is begun; or memory runs out, the payload is still `before`, and the
/// sequence is begun at the second try.
fn begins(changed: &mut PayloadBuf, before: &PayloadBuf) -> bool {
    match changed.begin_sequence("documents") {
        Ok(()) => has_len(changed, 55),
        Err(refusal) => {
            refusal == MsgRefusal::OutOfMemory
                && &*changed == before
                && changed.begin_sequence("documents").is_ok()
                && has_len(changed, 55)
        }
    }
}

/// Returns true if a second payload is made, and `begins` holds of it.
fn begins_in_another(alloc: Global, before: &PayloadBuf) -> bool {
    match payload_again(alloc) {
        Some(mut changed) => begins(&mut changed, before),
        None => false,
    }
}

/// Returns true if a payload is made, and a sequence is begun in one like it.
fn leaves_at_begin(alloc: Global) -> bool {
    match payload_again(alloc) {
        Some(before) => begins_in_another(alloc, &before),
        None => false,
    }
}

#[test]
fn begin_sequence_leaves_the_payload(rt: HostRuntime) {
    assert!(rt; leaves_at_begin(rt.alloc()));
}

/// Returns true if the document is added; or memory runs out, the payload is still `before`, and
/// the document is added at the second try.
fn pushes(changed: &mut PayloadBuf, document: RawDocument<'_>, before: &PayloadBuf) -> bool {
    match changed.push_document(document) {
        Ok(()) => has_len(changed, 74),
        Err(refusal) => {
            refusal == MsgRefusal::OutOfMemory
                && &*changed == before
                && changed.push_document(document).is_ok()
                && has_len(changed, 74)
        }
    }
}

/// Returns true if a second payload is made, and `pushes` holds of it.
fn pushes_in_another(alloc: Global, document: RawDocument<'_>, before: &PayloadBuf) -> bool {
    match begun(alloc) {
        Some(mut changed) => pushes(&mut changed, document, before),
        None => false,
    }
}

/// Returns true if a payload is made, and the document is added to one like it.
fn leaves_at_push(alloc: Global, document: RawDocument<'_>) -> bool {
    match begun(alloc) {
        Some(before) => pushes_in_another(alloc, document, &before),
        None => false,
    }
}

#[test]
fn push_document_leaves_the_payload(rt: HostRuntime) {
    let Ok(document) = RawDocument::from_bytes(BODY) else {
        assert!(rt; false);
        return;
    };
    assert!(rt; leaves_at_push(rt.alloc(), document));
}

/// Returns true if the message is appended to two bytes; or memory runs out, the bytes are still
/// these two, and it is appended at the second try.
fn is_written(out: &mut Vec<u8>, payload: Payload<'_>) -> bool {
    match write_msg(out, 2, 0, MsgFlags::NONE, payload, 55) {
        Ok(()) => out.as_slice() == WRITTEN,
        Err(refusal) => {
            refusal == MsgRefusal::OutOfMemory
                && out.as_slice() == b"ab".as_slice()
                && write_msg(out, 2, 0, MsgFlags::NONE, payload, 55).is_ok()
                && out.as_slice() == WRITTEN
        }
    }
}

/// Returns the two bytes. Copies them again if memory is refused.
fn two_bytes(alloc: Global) -> Option<Vec<u8>> {
    match Vec::from_slice(alloc, b"ab") {
        Ok(bytes) => Some(bytes),
        Err(_) => Vec::from_slice(alloc, b"ab").ok(),
    }
}

/// Returns true if `is_written` holds of two bytes.
fn is_written_behind(alloc: Global, payload: Payload<'_>) -> bool {
    match two_bytes(alloc) {
        Some(mut out) => is_written(&mut out, payload),
        None => false,
    }
}

/// Returns true if a payload is made, and its message is written.
fn adds_nothing(alloc: Global) -> bool {
    match begun(alloc) {
        Some(payload) => is_written_behind(alloc, payload.as_payload()),
        None => false,
    }
}

#[test]
fn a_refused_message_adds_nothing(rt: HostRuntime) {
    assert!(rt; adds_nothing(rt.alloc()));
}
