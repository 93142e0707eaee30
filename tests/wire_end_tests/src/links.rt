//! Links in memory that give some bytes, the ends of tests over links, the payload of their calls,
//! and how a call stands.

ghost use Rattle.std.specs.Prelude.{◌<◌, ◌≤◌, IfSome};
ghost use Rattle.wire_end.specs.{IsUnused};

use bson_raw::RawDocument;
use std::alloc::Global;
use wire_end::{CallRecord, CallState, ClientEnd, ServerEnd};
use wire_msg::PayloadBuf;
use wire_peer::{Client, Server};
use wire_stream::{Link, MemLink};

/// `{"a": 1}`.
const ONE: &[u8] = b"\x0c\0\0\0\x10a\0\x01\0\0\0\0";

/// Returns a link that gives the bytes of `input`, and has room for 99.
pub(crate) fn link_over(alloc: Global, input: Vec<u8>) -> Option<MemLink> {
    MemLink::new(alloc, input, 99).ok()
}

/// Returns the same of a copy of these bytes.
pub(crate) fn link_of(alloc: Global, input: &[u8]) -> Option<MemLink> {
    match Vec::from_slice(alloc, input) {
        Ok(bytes) => link_over(alloc, bytes),
        Err(_) => None,
    }
}

/// Returns the end of a client over this link.
pub(crate) fn client_over<L: Link + Drop>(alloc: Global, link: L) -> Option<ClientEnd<L>> {
    let client = Client::new(alloc, 1, 8, 48_000_000).ok()?;
    ClientEnd::new(alloc, 1, client, link).ok()
}

/// Returns the end of a client over a link that gives these bytes, in pieces of at most `most`.
pub(crate) fn client_of(alloc: Global, input: &[u8], most: usize) -> Option<ClientEnd<MemLink>>
    requires { 0 < most }
{
    match link_of(alloc, input) {
        Some(link) => client_over(alloc, link.moving_at_most(most)),
        None => None,
    }
}

/// Returns the end of a server over this link, in which `window` requests may wait.
pub(crate) fn server_over<L: Link + Drop>(
    alloc: Global,
    link: L,
    window: usize,
    limit: u32,
) -> Option<ServerEnd<L>>
    ensures { 1 ≤ window → IfSome result (λ end. IsUnused end) }
{
    let Ok(server) = Server::new(alloc, 1, window, limit) else {
        return None;
    };
    match ServerEnd::new(alloc, server, link) {
        Ok(end) => Some(end),
        Err(_) => None,
    }
}

/// Returns the payload `{"a": 1}`.
pub(crate) fn one(alloc: Global) -> Option<PayloadBuf> {
    let body = RawDocument::from_bytes(ONE).ok()?;
    PayloadBuf::new(alloc, body).ok()
}

/// Returns true if a call has this number of parts, and this state.
pub(crate) fn stands(record: &CallRecord, parts: usize, state: CallState) -> bool {
    record.parts.len() == parts && record.state == state
}

/// Returns true if `call` was made, and has this number of parts, and this state.
pub(crate) fn call_stands<L: Link + Drop>(
    end: &ClientEnd<L>,
    call: u64,
    parts: usize,
    state: CallState,
) -> bool {
    match end.record(call) {
        Some(record) => stands(record, parts, state),
        None => false,
    }
}
