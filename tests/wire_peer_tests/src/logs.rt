//! Tests of the entries of a log, and of the bytes of the replies.

use bson_raw::RawDocument;
use std::alloc::Global;
use wire_msg::PayloadBuf;
use wire_peer::{
    AskRefusal, Count, Echo, Entry, Handler, HandlerStop, Logged, NoReplies, Outcome, ReplyBuf,
    Request, StopAt,
};

/// `{"s": 3}`.
const THREE: &[u8] = b"\x0c\0\0\0\x10s\0\x03\0\0\0\0";

/// The replies to request 7 that count to 3: with ids 1 to 3, to 7, 1 and 2, and moreToCome on the
/// first two.
const REPLIES: [&[u8; 33]; 3] = [
    b"\x21\0\0\0\x01\0\0\0\x07\0\0\0\xdd\x07\0\0\x02\0\0\0\0\x0c\0\0\0\x10n\0\x01\0\0\0\0",
    b"\x21\0\0\0\x02\0\0\0\x01\0\0\0\xdd\x07\0\0\x02\0\0\0\0\x0c\0\0\0\x10n\0\x02\0\0\0\0",
    b"\x21\0\0\0\x03\0\0\0\x02\0\0\0\xdd\x07\0\0\0\0\0\0\0\x0c\0\0\0\x10n\0\x03\0\0\0\0",
];

/// Returns a payload of the document above alone.
fn three(alloc: Global) -> Option<PayloadBuf> {
    let body = RawDocument::from_bytes(THREE).ok()?;
    PayloadBuf::new(alloc, body).ok()
}

/// Returns the request with this payload, which allows more replies.
fn asking(payload: &PayloadBuf, more_to_come: bool) -> Request<'_> {
    Request {
        payload: payload.as_payload(),
        exhaust_allowed: true,
        more_to_come,
    }
}

/// Returns true if the entry is that of the payload over connection 5, with `count` answers, or
/// failed if that is `None`.
fn is_entry(entry: &Entry, payload: &PayloadBuf, count: Option<usize>) -> bool {
    let same = match &entry.outcome {
        Outcome::Answered(answers) => count == Some(answers.len()),
        Outcome::Failed => count.is_none(),
    };
    same && entry.connection == 5 && &entry.payload == payload
}

/// Returns true if the entries are those of the payload, each with its number of answers.
fn are_entries(entries: &[Entry], payload: &PayloadBuf, counts: &[Option<usize>]) -> bool {
    if entries.len() != counts.len() {
        return false;
    }
    for (entry, count) in entries.iter().zip(counts) {
        if !is_entry(entry, payload, *count) {
            return false;
        }
    }
    true
}

/// Returns true if asking returns `wanted`.
fn asks<H: Handler>(
    logged: &mut Logged<H>,
    payload: &PayloadBuf,
    wanted: Result<(), AskRefusal>,
) -> bool {
    logged.ask(5, &asking(payload, false)) == wanted
}

/// Returns true if the first two entries are forgotten, and the log goes on behind the third.
fn forgets<H: Handler>(logged: &mut Logged<H>, payload: &PayloadBuf) -> bool {
    if logged.entries().len() < 2 {
        return false;
    }
    logged.forget(2);
    are_entries(logged.entries(), payload, &[Some(3)])
        && asks(logged, payload, Ok(()))
        && are_entries(logged.entries(), payload, &[Some(3), Some(3)])
}

/// Returns true if three requests make three entries, the second of which failed, and the first two
/// are forgotten.
fn enters(alloc: Global) -> bool {
    let Some(payload) = three(alloc) else {
        return false;
    };
    let mut logged = Logged::new(alloc, StopAt::new(Count, 1, HandlerStop::Failed));
    asks(&mut logged, &payload, Ok(()))
        && asks(
            &mut logged,
            &payload,
            Err(AskRefusal::Stopped(HandlerStop::Failed)),
        )
        && asks(&mut logged, &payload, Ok(()))
        && are_entries(logged.entries(), &payload, &[Some(3), None, Some(3)])
        && forgets(&mut logged, &payload)
}

#[test]
fn requests_make_entries(rt: HostRuntime) {
    assert!(rt; enters(rt.alloc()));
}

/// Returns true if the bytes are the replies above.
fn are_replies(bytes: &[u8]) -> bool {
    let mut rest = bytes;
    for reply in &REPLIES {
        match rest.strip_prefix(reply.as_slice()) {
            Some(after) => rest = after,
            None => return false,
        }
    }
    rest.is_empty()
}

/// Returns true if asking for the replies to request 7 returns `wanted`, and `count` bytes wait
/// then.
fn replies<H: Handler>(
    logged: &mut Logged<H>,
    out: &mut ReplyBuf,
    request: &Request<'_>,
    wanted: Result<(), NoReplies>,
    count: usize,
) -> bool {
    logged.reply(5, 7, request, out) == wanted && out.output().len() == count
}

/// Returns true if a counted request has the replies above, and one before it that wants no reply
/// has none.
fn counted(alloc: Global) -> bool {
    let Some(payload) = three(alloc) else {
        return false;
    };
    let mut logged = Logged::new(alloc, Count);
    let mut out = ReplyBuf::new(alloc, 33);
    replies(&mut logged, &mut out, &asking(&payload, true), Ok(()), 0)
        && replies(&mut logged, &mut out, &asking(&payload, false), Ok(()), 99)
        && are_replies(out.output())
        && are_entries(logged.entries(), &payload, &[Some(1), Some(3)])
}

#[test]
fn replies_are_chained(rt: HostRuntime) {
    assert!(rt; counted(rt.alloc()));
}

/// Returns true if a reply of 33 bytes is too large for a limit of 32, and a request that wants no
/// reply isn't.
fn too_large(alloc: Global) -> bool {
    let Some(payload) = three(alloc) else {
        return false;
    };
    let mut logged = Logged::new(alloc, Echo);
    let mut out = ReplyBuf::new(alloc, 32);
    replies(
        &mut logged,
        &mut out,
        &asking(&payload, false),
        Err(NoReplies::TooLarge),
        0,
    ) && replies(&mut logged, &mut out, &asking(&payload, true), Ok(()), 0)
        && are_entries(logged.entries(), &payload, &[Some(1), Some(1)])
}

#[test]
fn a_reply_is_too_large(rt: HostRuntime) {
    assert!(rt; too_large(rt.alloc()));
}

/// Returns true if a handler that stops leaves a failed entry and no bytes.
fn stopped(alloc: Global, stop: HandlerStop) -> bool {
    let Some(payload) = three(alloc) else {
        return false;
    };
    let mut logged = Logged::new(alloc, StopAt::new(Echo, 0, stop));
    let mut out = ReplyBuf::new(alloc, 33);
    replies(
        &mut logged,
        &mut out,
        &asking(&payload, false),
        Err(NoReplies::Stopped(stop)),
        0,
    ) && replies(&mut logged, &mut out, &asking(&payload, false), Ok(()), 33)
        && are_entries(logged.entries(), &payload, &[None, Some(1)])
}

#[test]
fn a_stop_leaves_a_failed_entry(rt: HostRuntime) {
    assert!(rt; stopped(rt.alloc(), HandlerStop::Failed));
    assert!(rt; stopped(rt.alloc(), HandlerStop::OutOfMemory));
}

/// Returns true if sent bytes are dropped, and the ids go on.
fn goes_on(alloc: Global) -> bool {
    let Some(payload) = three(alloc) else {
        return false;
    };
    let mut logged = Logged::new(alloc, Echo);
    let mut out = ReplyBuf::new(alloc, 33);
    if !replies(&mut logged, &mut out, &asking(&payload, false), Ok(()), 33) {
        return false;
    }
    if out.output().len() < 30 {
        return false;
    }
    out.sent(30);
    replies(&mut logged, &mut out, &asking(&payload, false), Ok(()), 36)
        && out
            .output()
            .starts_with(b"\0\0\0\x21\0\0\0\x02\0\0\0\x07\0\0\0")
}

#[test]
fn ids_go_on_after_sent_bytes(rt: HostRuntime) {
    assert!(rt; goes_on(rt.alloc()));
}
