//! Tests of what a client and a server put out, flushed over a link in memory.

use crate::clients::call_as;
use bson_raw::RawDocument;
use std::alloc::Global;
use wire_msg::PayloadBuf;
use wire_peer::{CallKind, Client, Count, Logged, Server};
use wire_stream::{MemLink, Outlet, flush};

/// `{"a": 1}`.
const A1: &[u8] = b"\x0c\0\0\0\x10a\0\x01\0\0\0\0";

/// `{"s": 3}`.
const S3: &[u8] = b"\x0c\0\0\0\x10s\0\x03\0\0\0\0";

/// `{"a": 2}`.
const A2: &[u8] = b"\x0c\0\0\0\x10a\0\x02\0\0\0\0";

/// The requests 1 to 3 with these bodies. The second one allows more replies.
const REQUESTS: [&[u8; 33]; 3] = [
    b"\x21\0\0\0\x01\0\0\0\0\0\0\0\xdd\x07\0\0\0\0\0\0\0\x0c\0\0\0\x10a\0\x01\0\0\0\0",
    b"\x21\0\0\0\x02\0\0\0\0\0\0\0\xdd\x07\0\0\0\0\x01\0\0\x0c\0\0\0\x10s\0\x03\0\0\0\0",
    b"\x21\0\0\0\x03\0\0\0\0\0\0\0\xdd\x07\0\0\0\0\0\0\0\x0c\0\0\0\x10a\0\x02\0\0\0\0",
];

/// The replies with ids 1 to 5: `{"n": 1}` to `{"n": 3}` to request 2, each but the first answering
/// the one before it, and `{"n": 0}` to the requests 1 and 3.
const REPLIES: [&[u8; 33]; 5] = [
    b"\x21\0\0\0\x01\0\0\0\x02\0\0\0\xdd\x07\0\0\x02\0\0\0\0\x0c\0\0\0\x10n\0\x01\0\0\0\0",
    b"\x21\0\0\0\x02\0\0\0\x01\0\0\0\xdd\x07\0\0\x02\0\0\0\0\x0c\0\0\0\x10n\0\x02\0\0\0\0",
    b"\x21\0\0\0\x03\0\0\0\x02\0\0\0\xdd\x07\0\0\0\0\0\0\0\x0c\0\0\0\x10n\0\x03\0\0\0\0",
    b"\x21\0\0\0\x04\0\0\0\x01\0\0\0\xdd\x07\0\0\0\0\0\0\0\x0c\0\0\0\x10n\0\0\0\0\0\0",
    b"\x21\0\0\0\x05\0\0\0\x03\0\0\0\xdd\x07\0\0\0\0\0\0\0\x0c\0\0\0\x10n\0\0\0\0\0\0",
];

/// Returns true if the bytes are these messages.
fn are_messages(bytes: &[u8], messages: &[&[u8; 33]]) -> bool {
    let mut rest = bytes;
    for message in messages {
        match rest.strip_prefix(message.as_slice()) {
            Some(after) => rest = after,
            None => return false,
        }
    }
    rest.is_empty()
}

/// Returns true if all that waits is these messages, and goes out over a link that moves at most 20
/// bytes a call.
fn goes_out<O: Outlet>(alloc: Global, outlet: &mut O, messages: &[&[u8; 33]]) -> bool {
    match MemLink::new(alloc, Vec::new(alloc), 165) {
        Ok(link) => {
            let mut link = link.moving_at_most(20);
            flush(&mut link, outlet).is_ok()
                && are_messages(link.sent_bytes(), messages)
                && outlet.output().is_empty()
        }
        Err(_) => false,
    }
}

/// Returns true if the three calls are made.
fn calls_each(alloc: Global, client: &mut Client) -> bool {
    call_as(alloc, client, CallKind::Plain, A1).is_ok()
        && call_as(alloc, client, CallKind::Exhaust, S3).is_ok()
        && call_as(alloc, client, CallKind::Plain, A2).is_ok()
}

/// Returns true if the requests of a client go out.
fn client_flushes(alloc: Global) -> bool {
    match Client::new(alloc, 1, 8, 48_000_000) {
        Ok(mut client) => {
            calls_each(alloc, &mut client) && goes_out(alloc, &mut client, &REQUESTS)
        }
        Err(_) => false,
    }
}

#[test]
fn a_client_is_flushed(rt: HostRuntime) {
    assert!(rt; client_flushes(rt.alloc()));
}

/// Returns true if the server takes each request whole.
fn takes_requests(server: &mut Server) -> bool {
    for request in &REQUESTS {
        if server.feed(*request) != Ok(33) {
            return false;
        }
    }
    server.waiting() == 3
}

/// Returns true if the first request that waits has this body and this `exhaust_allowed`, and wants
/// a reply.
fn is_first(server: &Server, body: &[u8], exhaust_allowed: bool) -> bool {
    match server.request(0) {
        Some(request) => {
            request.payload.body().as_bytes() == body
                && request.exhaust_allowed == exhaust_allowed
                && !request.more_to_come
        }
        None => false,
    }
}

/// Returns true if the second request is answered first, and then the others in order.
fn answers_each(server: &mut Server, logged: &mut Logged<Count>) -> bool {
    is_first(server, A1, false)
        && server.answer(1, logged) == Ok(0)
        && is_first(server, A1, false)
        && server.answer(0, logged) == Ok(1)
        && is_first(server, A2, false)
        && server.answer(0, logged) == Ok(2)
        && server.request(0).is_none()
}

/// Returns true if the replies of a server go out.
fn server_flushes(alloc: Global) -> bool {
    let mut logged = Logged::new(alloc, Count);
    match Server::new(alloc, 1, 8, 48_000_000) {
        Ok(mut server) => {
            takes_requests(&mut server)
                && answers_each(&mut server, &mut logged)
                && goes_out(alloc, &mut server, &REPLIES)
        }
        Err(_) => false,
    }
}

#[test]
fn a_stream_is_answered_before_other_requests(rt: HostRuntime) {
    assert!(rt; server_flushes(rt.alloc()));
}
