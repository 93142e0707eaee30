//! Tests of a client: its ids, what it puts out, to which call a reply is given, and why it closes.

use bson_raw::RawDocument;
use std::alloc::Global;
use wire_msg::{MsgCause, MsgFault, PayloadBuf};
use wire_peer::{
    CallKind, CallNo, CallRefusal, Client, ClientCause, ClientRefusal, ClientState, next_free,
};

/// `{"a": 1}`.
const ONE: &[u8] = b"\x0c\0\0\0\x10a\0\x01\0\0\0\0";

/// `{"s": 3}`.
const THREE: &[u8] = b"\x0c\0\0\0\x10s\0\x03\0\0\0\0";

/// `{"a": 1}` as the reply 5 to request 1.
const REPLY: &[u8; 33] =
    b"\x21\0\0\0\x05\0\0\0\x01\0\0\0\xdd\x07\0\0\0\0\0\0\0\x0c\0\0\0\x10a\0\x01\0\0\0\0";

/// The same as the reply 5 to request 9.
const STRANGE: &[u8; 33] =
    b"\x21\0\0\0\x05\0\0\0\x09\0\0\0\xdd\x07\0\0\0\0\0\0\0\x0c\0\0\0\x10a\0\x01\0\0\0\0";

/// The first reply with moreToCome.
const PART: &[u8; 33] =
    b"\x21\0\0\0\x05\0\0\0\x01\0\0\0\xdd\x07\0\0\x02\0\0\0\0\x0c\0\0\0\x10a\0\x01\0\0\0\0";

/// `{"s": 3}` as request 2,147,483,647, with exhaustAllowed.
const EXHAUST: &[u8; 33] =
    b"\x21\0\0\0\xff\xff\xff\x7f\0\0\0\0\xdd\x07\0\0\0\0\x01\0\0\x0c\0\0\0\x10s\0\x03\0\0\0\0";

/// `{"a": 1}` as request 1, with moreToCome.
const SILENT: &[u8; 33] =
    b"\x21\0\0\0\x01\0\0\0\0\0\0\0\xdd\x07\0\0\x02\0\0\0\0\x0c\0\0\0\x10a\0\x01\0\0\0\0";

/// A header of opcode 2004.
const QUERY: &[u8; 16] = b"\x21\0\0\0\x01\0\0\0\0\0\0\0\xd4\x07\0\0";

/// First ids, windows and limits, and why no client is made with them.
const REFUSED: [(i32, usize, u32, ClientRefusal); 8] = [
    (0, 8, 26, ClientRefusal::BadFirstId),
    (-1, 0, 25, ClientRefusal::BadFirstId),
    (1, 1025, 26, ClientRefusal::BadWindow),
    (1, 0, 26, ClientRefusal::BadWindow),
    (1, 1025, 25, ClientRefusal::BadWindow),
    (1, 8, 25, ClientRefusal::BadLimit),
    (2147483647, 1024, 48_000_001, ClientRefusal::BadLimit),
    (1, 1, 0, ClientRefusal::BadLimit),
];

/// Bytes, and the state of a client with the outstanding call 1 that took them.
const CLOSED: [(&[u8], ClientState); 6] = [
    (REPLY, ClientState::Open),
    (b"\x21\0\0", ClientState::Open),
    (STRANGE, ClientState::Closed(ClientCause::UnknownReply(9))),
    (PART, ClientState::Closed(ClientCause::MoreNotAllowed)),
    (
        QUERY,
        ClientState::Closed(ClientCause::Message(MsgFault {
            at: 12,
            cause: MsgCause::Opcode(2004),
        })),
    ),
    (
        b"\xff\xff\xff\xff\x01\0\0\0\0\0\0\0\xdd\x07\0\0",
        ClientState::Closed(ClientCause::Message(MsgFault {
            at: 0,
            cause: MsgCause::Length,
        })),
    ),
];

/// Makes a call of this kind with this body.
pub(crate) fn call_as(
    alloc: Global,
    client: &mut Client,
    kind: CallKind,
    body: &[u8],
) -> Result<CallNo, CallRefusal> {
    let Ok(body) = RawDocument::from_bytes(body) else {
        return Err(CallRefusal::TooLarge);
    };
    let Ok(payload) = PayloadBuf::new(alloc, body) else {
        return Err(CallRefusal::OutOfMemory);
    };
    match kind {
        CallKind::Plain => client.call(payload.as_payload()),
        CallKind::Exhaust => client.call_exhaust(payload.as_payload()),
        CallKind::Unacknowledged => client.send_unacknowledged(payload.as_payload()),
    }
}

/// Returns true if a call is made with this number and id.
pub(crate) fn calls(
    alloc: Global,
    client: &mut Client,
    kind: CallKind,
    number: u64,
    id: i32,
) -> bool {
    call_as(alloc, client, kind, ONE) == Ok(CallNo { number, id })
}

/// Returns true if no client is made with these numbers, for this reason.
fn is_refused(
    alloc: Global,
    first_id: i32,
    window: usize,
    limit: u32,
    refusal: ClientRefusal,
) -> bool {
    match Client::new(alloc, first_id, window, limit) {
        Ok(_) => false,
        Err(found) => found == refusal,
    }
}

#[test]
fn numbers_outside_their_ranges(rt: HostRuntime) {
    for (first_id, window, limit, refusal) in &REFUSED {
        assert!(rt;
            is_refused(rt.alloc(), *first_id, *window, *limit, *refusal),
            "{first_id} {window} {limit}"
        );
    }
}

#[test]
fn the_first_free_id(rt: HostRuntime) {
    assert!(rt; next_free(5, &[5, 6]) == 7);
    assert!(rt; next_free(2147483647, &[2147483647, 1]) == 2);
    assert!(rt; next_free(5, &[7, 6]) == 5);
    assert!(rt; next_free(2147483647, &[]) == 2147483647);
    assert!(rt; next_free(1, &[0, -1, 2, 1]) == 3);
}

/// Returns true if the ids of three calls go round.
fn ids_go_round(alloc: Global) -> bool {
    match Client::new(alloc, 2147483647, 8, 48_000_000) {
        Ok(mut client) => {
            calls(alloc, &mut client, CallKind::Plain, 0, 2147483647)
                && calls(alloc, &mut client, CallKind::Unacknowledged, 1, 1)
                && calls(alloc, &mut client, CallKind::Exhaust, 2, 2)
                && client.outstanding() == 2
        }
        Err(_) => false,
    }
}

#[test]
fn ids_begin_again_at_1(rt: HostRuntime) {
    assert!(rt; ids_go_round(rt.alloc()));
}

/// Returns true if a call of this kind with this body is put out as these bytes.
fn puts_out(alloc: Global, first_id: i32, kind: CallKind, body: &[u8], bytes: &[u8]) -> bool {
    match Client::new(alloc, first_id, 1, 33) {
        Ok(mut client) => {
            let made = call_as(alloc, &mut client, kind, body);
            made.is_ok() && client.output() == bytes
        }
        Err(_) => false,
    }
}

#[test]
fn requests_have_the_flags_of_their_kind(rt: HostRuntime) {
    assert!(rt; puts_out(rt.alloc(), 2147483647, CallKind::Exhaust, THREE, EXHAUST));
    assert!(rt; puts_out(rt.alloc(), 1, CallKind::Unacknowledged, ONE, SILENT));
}

/// Returns true if the window has no room for a call of this kind.
fn is_full(alloc: Global, client: &mut Client, kind: CallKind) -> bool {
    call_as(alloc, client, kind, ONE) == Err(CallRefusal::WindowFull)
}

/// Returns true if a window of one call has room for one, and for any number of those without a
/// reply.
fn window_fills(alloc: Global) -> bool {
    match Client::new(alloc, 1, 1, 33) {
        Ok(mut client) => {
            calls(alloc, &mut client, CallKind::Plain, 0, 1)
                && is_full(alloc, &mut client, CallKind::Plain)
                && is_full(alloc, &mut client, CallKind::Exhaust)
                && calls(alloc, &mut client, CallKind::Unacknowledged, 1, 2)
                && client.outstanding() == 1
        }
        Err(_) => false,
    }
}

/// Returns true if a request is too large for a limit of 32 bytes, and nothing is put out.
fn limit_is_kept(alloc: Global) -> bool {
    match Client::new(alloc, 1, 1, 32) {
        Ok(mut client) => {
            call_as(alloc, &mut client, CallKind::Plain, ONE) == Err(CallRefusal::TooLarge)
                && client.output().is_empty()
        }
        Err(_) => false,
    }
}

#[test]
fn a_window_and_a_limit(rt: HostRuntime) {
    assert!(rt; window_fills(rt.alloc()));
    assert!(rt; limit_is_kept(rt.alloc()));
}

/// Returns a client with the outstanding call 1.
fn calling(alloc: Global) -> Option<Client> {
    let mut client = Client::new(alloc, 1, 8, 48_000_000).ok()?;
    call_as(alloc, &mut client, CallKind::Plain, ONE).ok()?;
    Some(client)
}

/// Returns true if a client with the outstanding call 1 takes all these bytes and is in this state
/// then.
fn comes_to(alloc: Global, bytes: &[u8], state: ClientState) -> bool {
    match calling(alloc) {
        Some(mut client) => {
            client.feed(bytes) == Ok(bytes.len())
                && client.state() == state
                && client.outstanding() == usize::from(bytes != REPLY.as_slice())
        }
        None => false,
    }
}

#[test]
fn bytes_close_a_client(rt: HostRuntime) {
    for (bytes, state) in &CLOSED {
        assert!(rt; comes_to(rt.alloc(), bytes, *state), "{bytes:?}");
    }
}

/// Returns true if the bytes of the reply are taken one by one, and it is ready with the last one.
fn comes_in_bytes(client: &mut Client) -> bool {
    for byte in REPLY {
        if client.reply().is_some() || client.feed(&[*byte]) != Ok(1) {
            return false;
        }
    }
    client.feed(REPLY) == Ok(0)
}

/// Returns true if the last reply to call 0 is ready and has the body `ONE`, and is gone when it is
/// released.
fn is_lent(client: &mut Client) -> bool {
    let ready = match client.reply() {
        Some(reply) => reply.call == 0 && reply.last && reply.payload.body().as_bytes() == ONE,
        None => false,
    };
    client.release();
    ready && client.reply().is_none()
}

/// Returns true if a reply comes in bytes and is lent, and then the end closes the client.
fn is_read(alloc: Global) -> bool {
    match calling(alloc) {
        Some(mut client) => {
            let read = comes_in_bytes(&mut client) && is_lent(&mut client);
            client.end();
            read && client.state() == ClientState::Closed(ClientCause::Ended)
        }
        None => false,
    }
}

#[test]
fn a_reply_comes_byte_by_byte(rt: HostRuntime) {
    assert!(rt; is_read(rt.alloc()));
}

/// Returns true if the end after these bytes closes the client with this cause, and no call is made
/// any more.
fn ends_so(alloc: Global, bytes: &[u8], cause: ClientCause) -> bool {
    match calling(alloc) {
        Some(mut client) => {
            let fed = client.feed(bytes) == Ok(bytes.len());
            client.end();
            fed && client.state() == ClientState::Closed(cause)
                && call_as(alloc, &mut client, CallKind::Plain, ONE) == Err(CallRefusal::Closed)
        }
        None => false,
    }
}

#[test]
fn an_end_closes_a_client(rt: HostRuntime) {
    assert!(rt; ends_so(rt.alloc(), b"", ClientCause::Ended));
    assert!(rt; ends_so(rt.alloc(), b"\x21", ClientCause::EndedInside));
    assert!(rt; ends_so(rt.alloc(), REPLY, ClientCause::Ended));
    assert!(rt; ends_so(rt.alloc(), STRANGE, ClientCause::UnknownReply(9)));
}

/// Returns true if sent bytes leave the output.
fn is_sent(alloc: Global) -> bool {
    match calling(alloc) {
        Some(mut client) => {
            let whole = client.output().len();
            if whole == 33 {
                client.sent(4);
            }
            whole == 33 && client.output().first() == Some(&1)
        }
        None => false,
    }
}

#[test]
fn sent_bytes_leave_the_output(rt: HostRuntime) {
    assert!(rt; is_sent(rt.alloc()));
}
