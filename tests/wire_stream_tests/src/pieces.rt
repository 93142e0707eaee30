//! Tests of messages from bytes that come in pieces: two pings cut at every offset, and bad bytes
//! after a ping.

use std::alloc::Global;
use wire_msg::{MsgCause, MsgFault};
use wire_stream::{MsgBuf, PiecesRead, ReadEnd, ReaderState, read_pieces};

/// `{"ping": 1, "$db": "admin"}` as request 1.
pub(crate) const PING: &[u8; 51] =
    b"\x33\0\0\0\x01\0\0\0\0\0\0\0\xdd\x07\0\0\0\0\0\0\0\x1e\0\0\0\x10ping\0\x01\0\0\0\x02$db\0\x06\0\0\0admin\0\0";

/// The first 9 bytes of the header of a message of 51 bytes with opcode 2004.
const OLD_FRONT: &[u8; 9] = b"\x33\0\0\0\x01\0\0\0\0";

/// The other 7 bytes of it, and one more.
const OLD_REST: &[u8; 8] = b"\0\0\0\xd4\x07\0\0\0";

/// Returns the bytes of two pings.
fn two_pings(alloc: Global) -> Option<Vec<u8>> {
    let mut bytes = Vec::from_slice(alloc, PING).ok()?;
    bytes.extend_from_slice(PING).ok()?;
    Some(bytes)
}

/// Returns true if each message is a ping.
fn are_pings(messages: &[MsgBuf]) -> bool {
    for message in messages {
        if message.as_msg().as_bytes() != PING.as_slice() {
            return false;
        }
    }
    true
}

/// Returns true if these are two pings, and nothing after them.
pub(crate) fn is_two_pings(read: &PiecesRead) -> bool {
    read.messages.len() == 2 && are_pings(&read.messages) && read.reader.end() == ReadEnd::Ended
}

/// Returns true if the pieces are read as two pings.
pub(crate) fn reads_two(alloc: Global, pieces: &[&[u8]]) -> bool {
    match read_pieces(alloc, 48_000_000, pieces) {
        Ok(read) => is_two_pings(&read),
        Err(_) => false,
    }
}

/// Returns true if two pings are read as two messages if they are cut at this offset.
fn reads_cut(alloc: Global, at: usize) -> bool {
    let Some(bytes) = two_pings(alloc) else {
        return false;
    };
    match bytes.split_at_checked(at) {
        Some((front, rest)) => reads_two(alloc, [front, rest].as_slice()),
        None => false,
    }
}

#[test]
fn two_pings_are_read_however_they_are_cut(rt: HostRuntime) {
    for at in 0..103 {
        assert!(rt; reads_cut(rt.alloc(), at), "{at}");
    }
}

/// Returns the bytes as pieces of one byte each.
fn single_bytes(alloc: Global, bytes: &[u8]) -> Option<Vec<&[u8]>> {
    let mut pieces = Vec::new(alloc);
    for piece in bytes.chunks(1) {
        pieces.push(piece).ok()?;
    }
    Some(pieces)
}

/// Returns true if two pings that come byte by byte are read as two messages.
fn reads_bytes(alloc: Global) -> bool {
    let Some(bytes) = two_pings(alloc) else {
        return false;
    };
    match single_bytes(alloc, &bytes) {
        Some(pieces) => reads_two(alloc, &pieces),
        None => false,
    }
}

#[test]
fn two_pings_are_read_byte_by_byte(rt: HostRuntime) {
    assert!(rt; reads_bytes(rt.alloc()));
}

/// Returns true if a reader of a ping and 48 bytes of another one has one message, and ends inside
/// the other.
fn reads_inside(alloc: Global) -> bool {
    match read_pieces(alloc, 48_000_000, [PING, &PING[..48]].as_slice()) {
        Ok(read) => {
            read.messages.len() == 1
                && read.reader.held() == 48
                && read.reader.end() == ReadEnd::EndedInside
        }
        Err(_) => false,
    }
}

#[test]
fn a_ping_ends_inside(rt: HostRuntime) {
    assert!(rt; reads_inside(rt.alloc()));
}

/// Returns true if one ping was read, and the reader holds the header with opcode 2004 as bad
/// bytes.
fn stands_at_old(read: &PiecesRead) -> bool {
    let fault = MsgFault {
        cause: MsgCause::Opcode(2004),
        at: 12,
    };
    read.messages.len() == 1
        && are_pings(&read.messages)
        && read.reader.held() == 16
        && read.reader.state() == ReaderState::Bad(fault)
}

/// Returns true if nothing is taken after a bad header, from its own piece or a later one.
fn stops_at_old(alloc: Global) -> bool {
    let pieces: [&[u8]; 4] = [PING, OLD_FRONT, OLD_REST, PING];
    match read_pieces(alloc, 48_000_000, pieces.as_slice()) {
        Ok(read) => stands_at_old(&read),
        Err(_) => false,
    }
}

#[test]
fn nothing_is_taken_behind_bad_bytes(rt: HostRuntime) {
    assert!(rt; stops_at_old(rt.alloc()));
}
