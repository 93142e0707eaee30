//! Tests of replies that belong to one call until it is complete, beside other calls.

use crate::clients::{call_as, calls};
use std::alloc::Global;
use wire_peer::{CallKind, Client, ClientCause, ClientState};

/// A reply: its id, the id that it answers, and whether another one follows; then the call that it
/// belongs to.
type Row = (u8, i32, bool, u64);

/// The replies to calls of the ids 1, 2 and 3, the second an exhaust call. Each part answers the
/// one before it, and the responseTo of the second is the id of the first call, too.
const CHAINED: [Row; 5] = [
    (1, 2, true, 1),
    (2, 1, true, 1),
    (3, 2, false, 1),
    (4, 1, false, 0),
    (5, 3, false, 2),
];

/// The same calls, and parts that answer the request.
const REPEATED: [Row; 5] = [
    (1, 2, true, 1),
    (2, 2, true, 1),
    (3, 2, false, 1),
    (4, 1, false, 0),
    (5, 3, false, 2),
];

/// Returns `{"a": 1}` as a reply.
fn reply(id: u8, to: i32, more: bool) -> [u8; 33] {
    let mut bytes =
        *b"\x21\0\0\0\0\0\0\0\0\0\0\0\xdd\x07\0\0\0\0\0\0\0\x0c\0\0\0\x10a\0\x01\0\0\0\0";
    let [a, b, c, d] = to.to_le_bytes();
    bytes[4] = id;
    bytes[8] = a;
    bytes[9] = b;
    bytes[10] = c;
    bytes[11] = d;
    bytes[16] = if more { 2 } else { 0 };
    bytes
}

/// Feeds the reply to the client, and releases it. Returns true if it was taken and ready, belonged
/// to this call, and was its last one unless `more`.
fn is_given(client: &mut Client, id: u8, to: i32, more: bool, call: u64) -> bool {
    let fed = client.feed(&reply(id, to, more)) == Ok(33);
    let given = match client.reply() {
        Some(reply) => reply.call == call && reply.last != more,
        None => false,
    };
    client.release();
    fed && given
}

/// Returns true if each reply is given to its call.
fn are_given(client: &mut Client, rows: &[Row]) -> bool {
    for (id, to, more, call) in rows {
        if !is_given(client, *id, *to, *more, *call) {
            return false;
        }
    }
    client.outstanding() == 0
}

/// Returns true if three calls are made, and the replies are given to those that they belong to.
fn belong(alloc: Global, rows: &[Row]) -> bool {
    match Client::new(alloc, 1, 8, 48_000_000) {
        Ok(mut client) => {
            calls(alloc, &mut client, CallKind::Plain, 0, 1)
                && calls(alloc, &mut client, CallKind::Exhaust, 1, 2)
                && calls(alloc, &mut client, CallKind::Plain, 2, 3)
                && are_given(&mut client, rows)
        }
        Err(_) => false,
    }
}

#[test]
fn streams_beside_other_calls(rt: HostRuntime) {
    assert!(rt; belong(rt.alloc(), &CHAINED));
    assert!(rt; belong(rt.alloc(), &REPEATED));
}

/// Returns true if reply 8 to the id `to` closes a client with one exhaust call, for this cause. If
/// `part` is true, part 7 of that call comes before.
fn breaks(alloc: Global, part: bool, to: i32, cause: ClientCause) -> bool {
    match Client::new(alloc, 1, 8, 33) {
        Ok(mut client) => {
            calls(alloc, &mut client, CallKind::Exhaust, 0, 1)
                && (!part || is_given(&mut client, 7, 1, true, 0))
                && client.feed(&reply(8, to, false)) == Ok(33)
                && client.state() == ClientState::Closed(cause)
                && client.reply().is_none()
                && client.outstanding() == 1
        }
        Err(_) => false,
    }
}

#[test]
fn a_broken_stream(rt: HostRuntime) {
    assert!(rt; breaks(rt.alloc(), true, 9, ClientCause::StreamBroken));
    assert!(rt; breaks(rt.alloc(), false, 9, ClientCause::UnknownReply(9)));
}

/// Returns true if an exhaust call with the greatest id is given its part 7, and its last reply,
/// which answers the id `last_to`.
fn is_chained(alloc: Global, last_to: i32) -> bool {
    match Client::new(alloc, 2147483647, 1, 33) {
        Ok(mut client) => {
            call_as(alloc, &mut client, CallKind::Exhaust, b"\x05\0\0\0\0").is_ok()
                && is_given(&mut client, 7, 2147483647, true, 0)
                && client.outstanding() == 1
                && is_given(&mut client, 8, last_to, false, 0)
                && client.outstanding() == 0
        }
        Err(_) => false,
    }
}

#[test]
fn a_part_is_answered_by_either_id(rt: HostRuntime) {
    assert!(rt; is_chained(rt.alloc(), 7));
    assert!(rt; is_chained(rt.alloc(), 2147483647));
}
