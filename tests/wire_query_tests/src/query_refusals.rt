//! Tests that nothing is appended if memory is refused. `scripts/checks/try-refusals` runs them
//! with each of their allocations refused in turn. Only one is refused in a run, so what is tried
//! again succeeds.

use bson_raw::RawDocument;
use std::alloc::Global;
use wire_msg::MsgRefusal;
use wire_query::{RawQuery, ReplyHead, write_reply};

/// The bytes to which others are appended.
const TWO: &[u8] = b"ab";

/// `{"ismaster": 1}` as query 3 to `admin.$cmd`.
const QUERY: &[u8] = b"\x3a\0\0\0\x03\0\0\0\0\0\0\0\xd4\x07\0\0\0\0\0\0admin.$cmd\0\
    \0\0\0\0\xff\xff\xff\xff\x13\0\0\0\x10ismaster\0\x01\0\0\0\0";

/// Two bytes, and then the message of the query.
const MESSAGE: &[u8] = b"ab\x37\0\0\0\x03\0\0\0\0\0\0\0\xdd\x07\0\0\0\0\0\0\0\
    \x22\0\0\0\x10ismaster\0\x01\0\0\0\x02$db\0\x06\0\0\0admin\0\0";

/// `{"ok": 1.0}`
const OK: &[u8] = b"\x11\0\0\0\x01ok\0\0\0\0\0\0\0\xf0\x3f\0";

/// Two bytes, and then `OK` as reply 7 to query 3.
const REPLY: &[u8] = b"ab\x35\0\0\0\x07\0\0\0\x03\0\0\0\x01\0\0\0\0\0\0\0\0\0\0\0\0\0\0\0\
    \0\0\0\0\x01\0\0\0\x11\0\0\0\x01ok\0\0\0\0\0\0\0\xf0\x3f\0";

/// Returns two bytes, or `None` if memory is refused twice.
fn two_bytes(alloc: Global) -> Option<Vec<u8>> {
    match Vec::from_slice(alloc, TWO) {
        Ok(bytes) => Some(bytes),
        Err(_) => Vec::from_slice(alloc, TWO).ok(),
    }
}

/// Returns true if the message is appended; or nothing is, and the message is at the second try.
fn is_written(query: RawQuery<'_>, out: &mut Vec<u8>) -> bool {
    match query.write_msg(out) {
        Ok(()) => out.as_slice() == MESSAGE,
        Err(_) => {
            out.as_slice() == TWO && query.write_msg(out).is_ok() && out.as_slice() == MESSAGE
        }
    }
}

#[test]
fn a_refused_message_adds_nothing(rt: HostRuntime) {
    let Some(mut out) = two_bytes(rt.alloc()) else {
        assert!(rt; false);
        return;
    };
    match RawQuery::parse(rt.alloc(), QUERY, 65_536) {
        Ok(query) => assert!(rt; is_written(query, &mut out)),
        Err(fault) => assert!(rt; false, "{fault}"),
    }
}

/// Returns true if the reply is appended; or memory runs out, nothing is appended, and the reply is
/// at the second try.
fn is_answered(document: RawDocument<'_>, out: &mut Vec<u8>) -> bool {
    let head = ReplyHead::of_command(7, 3);
    match write_reply(out, head, document, 53) {
        Ok(()) => out.as_slice() == REPLY,
        Err(refusal) => {
            refusal == MsgRefusal::OutOfMemory
                && out.as_slice() == TWO
                && write_reply(out, head, document, 53).is_ok()
                && out.as_slice() == REPLY
        }
    }
}

#[test]
fn a_refused_reply_adds_nothing(rt: HostRuntime) {
    let Some(mut out) = two_bytes(rt.alloc()) else {
        assert!(rt; false);
        return;
    };
    match RawDocument::from_bytes(OK) {
        Ok(document) => assert!(rt; is_answered(document, &mut out)),
        Err(fault) => assert!(rt; false, "{fault}"),
    }
}
