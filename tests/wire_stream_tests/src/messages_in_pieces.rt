//! Tests of messages one after another: what a reader leaves in a piece, and how each message is
//! released or moved out.

use crate::readers::{INSERT, LIMIT, PING, has, lends, takes};
use std::alloc::Global;
use wire_stream::{MsgBuf, MsgReader, ReadEnd, ReaderState};

/// `PING` and then `INSERT`.
const BOTH: &[u8; 120] = b"\x33\0\0\0\x01\0\0\0\0\0\0\0\xdd\x07\0\0\0\0\0\0\0\
    \x1e\0\0\0\x10ping\0\x01\0\0\0\x02$db\0\x06\0\0\0admin\0\0\
    \x45\0\0\0\x02\0\0\0\0\0\0\0\xdd\x07\0\0\0\0\0\0\
    \x01\x1c\0\0\0documents\0\x0e\0\0\0\x10_id\0\x01\0\0\0\0\
    \0\x13\0\0\0\x02insert\0\x02\0\0\0c\0\0";

/// Returns true if the reader is fed the message and lends it.
fn reads(reader: &mut MsgReader, piece: &[u8], message: &[u8]) -> bool {
    takes(reader, piece, message.len(), ReaderState::Ready) && lends(reader, message)
}

/// Returns true if a reader with `PING` ready takes nothing more until it is released, and then
/// holds nothing.
fn is_let_go_of(reader: &mut MsgReader) -> bool {
    let waits = takes(reader, INSERT, 0, ReaderState::Ready)
        && has(reader, 51, 51)
        && reader.end() == ReadEnd::Ended;
    reader.release();
    waits && has(reader, 0, 0) && reader.message().is_none() && reader.state() == ReaderState::Need
}

/// Returns true if two messages are read out of one piece.
fn reads_two(alloc: Global) -> bool {
    let (_, behind) = BOTH.split_at(51);
    let mut reader = MsgReader::new(alloc, LIMIT);
    reads(&mut reader, BOTH, PING)
        && is_let_go_of(&mut reader)
        && reads(&mut reader, behind, INSERT)
        && has(&reader, 69, 69)
}

#[test]
fn two_messages_in_a_piece(rt: HostRuntime) {
    assert!(rt; reads_two(rt.alloc()));
}

/// Returns true if the reader takes `message` in two pieces, cut at offset `at`, as one message,
/// which is then released.
fn reads_in_two_pieces(reader: &mut MsgReader, message: &[u8], at: usize) -> bool {
    let Some((first, last)) = message.split_at_checked(at) else {
        return false;
    };
    let read = takes(reader, first, at, ReaderState::Need)
        && takes(reader, last, last.len(), ReaderState::Ready)
        && lends(reader, message);
    reader.release();
    read && has(reader, 0, 0)
}

/// Returns true if one reader reads the message over and over, cut at each offset.
fn reads_each_cut(alloc: Global, message: &[u8]) -> bool {
    let mut reader = MsgReader::new(alloc, LIMIT);
    for at in 0..message.len() {
        if !reads_in_two_pieces(&mut reader, message, at) {
            return false;
        }
    }
    true
}

#[test]
fn a_message_is_cut_at_each_place(rt: HostRuntime) {
    assert!(rt; reads_each_cut(rt.alloc(), PING));
    assert!(rt; reads_each_cut(rt.alloc(), INSERT));
}

/// Returns true if the message that was moved out is this one.
fn is_moved_out(taken: Option<MsgBuf>, message: &[u8]) -> bool {
    match taken {
        Some(taken) => taken.as_msg().as_bytes() == message,
        None => false,
    }
}

/// Returns true if the reader moves a ready message out once, and goes on with the next one.
fn gives_out(reader: &mut MsgReader) -> bool {
    is_moved_out(reader.take(), PING)
        && reader.take().is_none()
        && has(reader, 0, 0)
        && reads(reader, INSERT, INSERT)
}

/// Returns true if a reader moves nothing out after 50 bytes of `PING`, and the message after the
/// last one.
fn gives_out_when_ready(alloc: Global) -> bool {
    let (first, last) = PING.split_at(50);
    let mut reader = MsgReader::new(alloc, LIMIT);
    let waits = takes(&mut reader, first, 50, ReaderState::Need) && reader.take().is_none();
    reader.release();
    waits
        && has(&reader, 50, 51)
        && takes(&mut reader, last, 1, ReaderState::Ready)
        && gives_out(&mut reader)
}

#[test]
fn a_message_is_moved_out(rt: HostRuntime) {
    assert!(rt; gives_out_when_ready(rt.alloc()));
}

/// Returns true if a reader with this limit reads `PING`.
fn reads_within(alloc: Global, limit: u32) -> bool {
    limit <= LIMIT && reads(&mut MsgReader::new(alloc, limit), PING, PING)
}

#[test]
fn the_limit_is_kept(rt: HostRuntime) {
    assert!(rt; reads_within(rt.alloc(), 51));
    assert!(rt; !reads_within(rt.alloc(), 50));
}
