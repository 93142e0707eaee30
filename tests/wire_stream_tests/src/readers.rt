//! Tests of a reader of messages: byte by byte, cut at each offset, with a bad header, and with
//! more than one message in a piece.

use std::alloc::Global;
use wire_msg::{MsgCause, MsgFault, RawMsg};
use wire_stream::{Fed, MsgReader, ReadEnd, ReaderState};

/// The greatest limit of a message's bytes.
pub(crate) const LIMIT: u32 = 48_000_000;

/// Request 1, `{"ping": 1, "$db": "admin"}`.
pub(crate) const PING: &[u8; 51] = b"\x33\0\0\0\x01\0\0\0\0\0\0\0\xdd\x07\0\0\0\0\0\0\0\
    \x1e\0\0\0\x10ping\0\x01\0\0\0\x02$db\0\x06\0\0\0admin\0\0";

/// Request 2, an insert, its documents before its body.
pub(crate) const INSERT: &[u8; 69] = b"\x45\0\0\0\x02\0\0\0\0\0\0\0\xdd\x07\0\0\0\0\0\0\
    \x01\x1c\0\0\0documents\0\x0e\0\0\0\x10_id\0\x01\0\0\0\0\
    \0\x13\0\0\0\x02insert\0\x02\0\0\0c\0\0";

/// `PING` with the opcode of a query.
const QUERY: &[u8; 51] = b"\x33\0\0\0\x01\0\0\0\0\0\0\0\xd4\x07\0\0\0\0\0\0\0\
    \x1e\0\0\0\x10ping\0\x01\0\0\0\x02$db\0\x06\0\0\0admin\0\0";

/// The state of a reader whose message has an unknown opcode.
const BAD_OPCODE: ReaderState = ReaderState::Bad(MsgFault {
    at: 12,
    cause: MsgCause::Opcode(2004),
});

/// The state of a reader whose message has a length outside the limits.
const BAD_LENGTH: ReaderState = ReaderState::Bad(MsgFault {
    at: 0,
    cause: MsgCause::Length,
});

/// Returns true if the reader takes `taken` bytes of `piece` and is in `state` then.
pub(crate) fn takes(
    reader: &mut MsgReader,
    piece: &[u8],
    taken: usize,
    state: ReaderState,
) -> bool {
    reader.feed(piece) == Ok(Fed { taken, state })
}

/// Returns true if the reader holds `held` bytes, and its `room` is this.
pub(crate) fn has(reader: &MsgReader, held: usize, room: usize) -> bool {
    reader.held() == held && reader.room() == room
}

/// Returns true if the reader lends the message of these bytes.
pub(crate) fn lends(reader: &MsgReader, bytes: &[u8]) -> bool {
    match reader.message() {
        Some(message) => message.as_bytes() == bytes,
        None => false,
    }
}

/// Returns true if the reader takes each of these bytes by itself and needs more.
fn needs_more(reader: &mut MsgReader, bytes: &[u8]) -> bool {
    for byte in bytes {
        if !takes(reader, &[*byte], 1, ReaderState::Need) {
            return false;
        }
    }
    true
}

/// Returns true if a reader that takes these bytes one by one is ready with the last one, and not
/// before.
fn comes_byte_by_byte(alloc: Global, bytes: &[u8]) -> bool {
    let Some((last, first)) = bytes.split_last() else {
        return false;
    };
    let mut reader = MsgReader::new(alloc, LIMIT);
    needs_more(&mut reader, first)
        && takes(&mut reader, &[*last], 1, ReaderState::Ready)
        && lends(&reader, bytes)
}

#[test]
fn a_message_comes_byte_by_byte(rt: HostRuntime) {
    assert!(rt; comes_byte_by_byte(rt.alloc(), PING));
    assert!(rt; comes_byte_by_byte(rt.alloc(), INSERT));
}

/// Returns true if the bytes are no message, for their length.
fn is_short(bytes: &[u8]) -> bool {
    let fault = MsgFault {
        at: 0,
        cause: MsgCause::Length,
    };
    RawMsg::parse(bytes, LIMIT) == Err(fault)
}

/// Returns true if a reader needs more after these first bytes of a message, and `end` is what it
/// returns if no more come.
fn ends(alloc: Global, bytes: &[u8], end: ReadEnd) -> bool {
    let mut reader = MsgReader::new(alloc, LIMIT);
    is_short(bytes)
        && takes(&mut reader, bytes, bytes.len(), ReaderState::Need)
        && reader.end() == end
}

/// Returns true if a reader that holds nothing ends between messages, and one that holds any other
/// proper beginning of the message ends inside it.
fn is_open_until_its_end(alloc: Global, bytes: &[u8]) -> bool {
    for len in 1..bytes.len() {
        if !ends(alloc, &bytes[..len], ReadEnd::EndedInside) {
            return false;
        }
    }
    ends(alloc, &[], ReadEnd::Ended)
}

#[test]
fn each_beginning_needs_more(rt: HostRuntime) {
    assert!(rt; is_open_until_its_end(rt.alloc(), PING));
    assert!(rt; is_open_until_its_end(rt.alloc(), INSERT));
}

/// Headers, the state of a reader that is fed each, and how many bytes it has room for then.
const HEADERS: [(&[u8; 16], ReaderState, usize); 5] = [
    (
        b"\x33\0\0\0\x01\0\0\0\0\0\0\0\xdd\x07\0\0",
        ReaderState::Need,
        51,
    ),
    (
        b"\0\x6c\xdc\x02\x01\0\0\0\0\0\0\0\xdd\x07\0\0",
        ReaderState::Need,
        48_000_000,
    ),
    (
        b"\x01\x6c\xdc\x02\x01\0\0\0\0\0\0\0\xdd\x07\0\0",
        BAD_LENGTH,
        0,
    ),
    (
        b"\xff\xff\xff\xff\x01\0\0\0\0\0\0\0\xdd\x07\0\0",
        BAD_LENGTH,
        0,
    ),
    (b"\x33\0\0\0\x01\0\0\0\0\0\0\0\xd4\x07\0\0", BAD_OPCODE, 0),
];

/// Returns true if a reader that takes 15 bytes of the header, and then the last one, is in `state`
/// and has this `room` then.
fn is_judged_by_its_last_byte(
    alloc: Global,
    header: &[u8; 16],
    state: ReaderState,
    room: usize,
) -> bool {
    let (first, last) = header.split_at(15);
    let mut reader = MsgReader::new(alloc, LIMIT);
    takes(&mut reader, first, 15, ReaderState::Need)
        && has(&reader, 15, 0)
        && takes(&mut reader, last, 1, state)
        && has(&reader, 16, room)
}

#[test]
fn headers(rt: HostRuntime) {
    for (header, state, room) in &HEADERS {
        assert!(rt;
            is_judged_by_its_last_byte(rt.alloc(), header, *state, *room),
            "{room}"
        );
    }
}

/// Returns true if the reader stays as it is, whatever is asked of it: its bytes are bad.
fn stays_bad(reader: &mut MsgReader) -> bool {
    reader.release();
    reader.take().is_none()
        && reader.message().is_none()
        && takes(reader, PING, 0, BAD_OPCODE)
        && has(reader, 16, 0)
        && reader.state() == BAD_OPCODE
        && reader.end() == ReadEnd::Ended
}

/// Returns true if a reader takes no more than the header of a query, and stays bad.
fn stops_at_a_bad_header(alloc: Global) -> bool {
    let mut reader = MsgReader::new(alloc, LIMIT);
    takes(&mut reader, QUERY, 16, BAD_OPCODE) && stays_bad(&mut reader) && stays_bad(&mut reader)
}

#[test]
fn a_bad_header_ends_the_reading(rt: HostRuntime) {
    assert!(rt; stops_at_a_bad_header(rt.alloc()));
}
