//! Tests that a client stays the same after a refused allocation. `scripts/checks/try-refusals`
//! runs them with each of their allocations refused in turn. Only one is refused in a run, so what
//! is tried again succeeds.

use crate::refused_calls::{CallEnd, again, at_once, both, goes_on};
use bson_raw::RawDocument;
use std::alloc::Global;
use wire_msg::PayloadBuf;
use wire_peer::{CallKind, CallNo, CallRefusal, Client, ClientState};
use wire_stream::ReadRefusal;

/// `{"a": 1}`.
const ONE: &[u8] = b"\x0c\0\0\0\x10a\0\x01\0\0\0\0";

/// `{"a": 1}` as the reply 5 to request 1.
const REPLY: &[u8; 33] =
    b"\x21\0\0\0\x05\0\0\0\x01\0\0\0\xdd\x07\0\0\0\0\0\0\0\x0c\0\0\0\x10a\0\x01\0\0\0\0";

/// The state of a client: how many calls are outstanding, and how many bytes wait to be sent.
type Standing = (usize, usize);

/// A call: its kind, its number and id, and the state of the client before it and after it.
type Row = (CallKind, CallNo, Standing, Standing);

/// The first call, and the second one.
const FIRST: CallNo = CallNo { number: 0, id: 1 };

const SECOND: CallNo = CallNo { number: 1, id: 2 };

/// Calls of each kind; each kind is first once and second once.
const PLAIN_FIRST: [Row; 2] = [
    (CallKind::Plain, FIRST, (0, 0), (1, 33)),
    (CallKind::Exhaust, SECOND, (1, 33), (2, 66)),
];

const EXHAUST_FIRST: [Row; 2] = [
    (CallKind::Exhaust, FIRST, (0, 0), (1, 33)),
    (CallKind::Unacknowledged, SECOND, (1, 33), (1, 66)),
];

const UNACKNOWLEDGED_FIRST: [Row; 2] = [
    (CallKind::Unacknowledged, FIRST, (0, 0), (0, 33)),
    (CallKind::Plain, SECOND, (0, 33), (1, 66)),
];

/// The bytes that they put out.
const PLAIN_FIRST_BYTES: &[u8] =
    b"\x21\0\0\0\x01\0\0\0\0\0\0\0\xdd\x07\0\0\0\0\0\0\0\x0c\0\0\0\x10a\0\x01\0\0\0\0\x21\0\0\0\x02\0\0\0\0\0\0\0\xdd\x07\0\0\0\0\x01\0\0\x0c\0\0\0\x10a\0\x01\0\0\0\0";

const EXHAUST_FIRST_BYTES: &[u8] =
    b"\x21\0\0\0\x01\0\0\0\0\0\0\0\xdd\x07\0\0\0\0\x01\0\0\x0c\0\0\0\x10a\0\x01\0\0\0\0\x21\0\0\0\x02\0\0\0\0\0\0\0\xdd\x07\0\0\x02\0\0\0\0\x0c\0\0\0\x10a\0\x01\0\0\0\0";

const UNACKNOWLEDGED_FIRST_BYTES: &[u8] =
    b"\x21\0\0\0\x01\0\0\0\0\0\0\0\xdd\x07\0\0\x02\0\0\0\0\x0c\0\0\0\x10a\0\x01\0\0\0\0\x21\0\0\0\x02\0\0\0\0\0\0\0\xdd\x07\0\0\0\0\0\0\0\x0c\0\0\0\x10a\0\x01\0\0\0\0";

/// Makes a call of this kind.
fn call_as(
    client: &mut Client,
    kind: CallKind,
    payload: &PayloadBuf,
) -> Result<CallNo, CallRefusal> {
    match kind {
        CallKind::Plain => client.call(payload.as_payload()),
        CallKind::Exhaust => client.call_exhaust(payload.as_payload()),
        CallKind::Unacknowledged => client.send_unacknowledged(payload.as_payload()),
    }
}

/// Returns the payload of the document above alone. Makes it again if memory is refused.
fn one_again(alloc: Global) -> Option<PayloadBuf> {
    let body = RawDocument::from_bytes(ONE).ok()?;
    match PayloadBuf::new(alloc, body) {
        Ok(payload) => Some(payload),
        Err(_) => PayloadBuf::new(alloc, body).ok(),
    }
}

/// Returns true if the client is open and without a reply, `outstanding` calls are outstanding, and
/// the first `unsent` of these bytes wait to be sent.
fn stands(client: &Client, (outstanding, unsent): Standing, bytes: &[u8]) -> bool {
    client.state() == ClientState::Open
        && client.outstanding() == outstanding
        && client.reply().is_none()
        && client.output().len() == unsent
        && bytes.starts_with(client.output())
}

/// Makes a call. If it is refused, which has to change nothing, makes it again.
fn calls(client: &mut Client, payload: &PayloadBuf, row: &Row, bytes: &[u8]) -> CallEnd {
    let (kind, call, before, after) = *row;
    match call_as(client, kind, payload) {
        Ok(made) => at_once(made == call && stands(client, after, bytes)),
        Err(refusal) => again(
            refusal == CallRefusal::OutOfMemory
                && stands(client, before, bytes)
                && call_as(client, kind, payload) == Ok(call)
                && stands(client, after, bytes),
        ),
    }
}

/// Makes the calls one after another.
fn calls_all(client: &mut Client, payload: &PayloadBuf, rows: &[Row], bytes: &[u8]) -> CallEnd {
    let mut all = CallEnd::AtOnce;
    for row in rows {
        all = both(all, calls(client, payload, row, bytes));
        if !goes_on(all) {
            return all;
        }
    }
    all
}

/// Like `calls_all`, with a client that is made for it.
fn calls_of_one(alloc: Global, payload: &PayloadBuf, rows: &[Row], bytes: &[u8]) -> CallEnd {
    match Client::new(alloc, 1, 8, 48_000_000) {
        Ok(mut client) => calls_all(&mut client, payload, rows, bytes),
        Err(_) => CallEnd::Otherwise,
    }
}

/// Returns true if each call is made at the first try; or one of them at the second, and then each
/// by another client at the first.
fn calls_at_last(alloc: Global, rows: &[Row], bytes: &[u8]) -> bool {
    match one_again(alloc) {
        Some(payload) => match calls_of_one(alloc, &payload, rows, bytes) {
            CallEnd::AtOnce => true,
            CallEnd::Again => calls_of_one(alloc, &payload, rows, bytes) == CallEnd::AtOnce,
            _ => false,
        },
        None => false,
    }
}

#[test]
fn a_refused_call_is_made_again(rt: HostRuntime) {
    assert!(rt; calls_at_last(rt.alloc(), &PLAIN_FIRST, PLAIN_FIRST_BYTES));
    assert!(rt; calls_at_last(rt.alloc(), &EXHAUST_FIRST, EXHAUST_FIRST_BYTES));
    assert!(rt;
        calls_at_last(
            rt.alloc(),
            &UNACKNOWLEDGED_FIRST,
            UNACKNOWLEDGED_FIRST_BYTES
        )
    );
}

/// Returns true if the first call alone was made, and no reply has come.
fn awaits(client: &Client) -> bool {
    stands(client, (1, 33), PLAIN_FIRST_BYTES)
}

/// Returns true if the reply to the first call has come.
fn has_reply(client: &Client) -> bool {
    match client.reply() {
        Some(reply) => reply.call == 0 && reply.last && reply.payload.body().as_bytes() == ONE,
        None => false,
    }
}

/// Returns true if the reply to the first call has come whole, or, if `whole` is false, none has
/// come yet.
fn has_come(client: &Client, whole: bool) -> bool {
    if whole {
        client.state() == ClientState::Open && client.outstanding() == 0 && has_reply(client)
    } else {
        awaits(client)
    }
}

/// Feeds a piece, after which the reply is `whole` or not. If it is refused, which has to change
/// nothing, feeds it again.
fn feeds(client: &mut Client, piece: &[u8], whole: bool) -> CallEnd {
    match client.feed(piece) {
        Ok(taken) => at_once(taken == piece.len() && has_come(client, whole)),
        Err(ReadRefusal::OutOfMemory) => again(
            awaits(client) && client.feed(piece) == Ok(piece.len()) && has_come(client, whole),
        ),
    }
}

/// Makes the first call, and feeds its reply in two pieces, cut at offset `cut`.
fn feeds_all(client: &mut Client, payload: &PayloadBuf, cut: usize) -> CallEnd {
    let Some((first, rest)) = REPLY.split_at_checked(cut) else {
        return CallEnd::Otherwise;
    };
    let called = calls(client, payload, &PLAIN_FIRST[0], PLAIN_FIRST_BYTES);
    let begun = both(called, feeds(client, first, false));
    both(begun, feeds(client, rest, true))
}

/// Like `feeds_all`, with a client that is made for it.
fn feeds_one(alloc: Global, payload: &PayloadBuf, cut: usize) -> CallEnd {
    match Client::new(alloc, 1, 8, 48_000_000) {
        Ok(mut client) => feeds_all(&mut client, payload, cut),
        Err(_) => CallEnd::Otherwise,
    }
}

/// Returns true if each piece of the reply is taken at the first try; or one of them at the second,
/// and then each by another client at the first.
fn feeds_at_last(alloc: Global, cut: usize) -> bool {
    match one_again(alloc) {
        Some(payload) => match feeds_one(alloc, &payload, cut) {
            CallEnd::AtOnce => true,
            CallEnd::Again => feeds_one(alloc, &payload, cut) == CallEnd::AtOnce,
            _ => false,
        },
        None => false,
    }
}

#[test]
fn a_refused_piece_is_fed_again(rt: HostRuntime) {
    assert!(rt; feeds_at_last(rt.alloc(), 0));
    assert!(rt; feeds_at_last(rt.alloc(), 7));
    assert!(rt; feeds_at_last(rt.alloc(), 20));
}
