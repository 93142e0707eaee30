//! Tests that readers and outputs stay the same after a refused allocation.
//! `scripts/checks/try-refusals` runs them with each of their allocations refused in turn. Only one
//! is refused in a run, so what is tried again succeeds.

use crate::links::{FULL, REPLY, body_payload, link_of, push_payload};
use crate::readers::{INSERT, LIMIT, PING, has, lends, takes};
use std::alloc::Global;
use wire_msg::{MsgRefusal, PayloadBuf};
use wire_stream::{
    Fed, Inlet, Link, MemLink, Moved, MsgReader, OutBuf, Pulled, ReadRefusal, ReaderState,
};

/// The reply, twice.
const REPLIES: &[u8; 66] =
    b"\x21\0\0\0\x03\0\0\0\x07\0\0\0\xdd\x07\0\0\x02\0\0\0\0\x0c\0\0\0\x10a\0\x01\0\0\0\0\
    \x21\0\0\0\x03\0\0\0\x07\0\0\0\xdd\x07\0\0\x02\0\0\0\0\x0c\0\0\0\x10a\0\x01\0\0\0\0";

/// Returns true if the reader takes the whole piece and is ready; or is refused memory and still
/// holds `held` bytes, and takes the piece when it is fed again.
fn is_fed(reader: &mut MsgReader, piece: &[u8], held: usize) -> bool {
    let ready = Fed {
        taken: piece.len(),
        state: ReaderState::Ready,
    };
    match reader.feed(piece) {
        Ok(fed) => fed == ready,
        Err(ReadRefusal::OutOfMemory) => {
            has(reader, held, 0)
                && reader.state() == ReaderState::Need
                && takes(reader, piece, ready.taken, ready.state)
        }
    }
}

/// Returns true if the reader reads the message in two pieces. The first one has `held` bytes.
fn reads(reader: &mut MsgReader, message: &[u8], held: usize) -> bool {
    let Some((first, rest)) = message.split_at_checked(held) else {
        return false;
    };
    takes(reader, first, held, ReaderState::Need)
        && is_fed(reader, rest, held)
        && lends(reader, message)
}

/// Returns true if a reader reads both messages, the second one after the first is released.
fn reads_both(alloc: Global, held: usize) -> bool {
    let mut reader = MsgReader::new(alloc, LIMIT);
    let first = reads(&mut reader, PING, held);
    reader.release();
    first && reads(&mut reader, INSERT, held)
}

#[test]
fn a_reader_can_be_fed_again(rt: HostRuntime) {
    for held in &[0, 1, 15] {
        assert!(rt; reads_both(rt.alloc(), *held), "{held}");
    }
}

/// Returns true if the reply is appended to the output; or memory is refused, the bytes are still
/// `before`, and the reply is appended when it is pushed again.
fn is_pushed(out: &mut OutBuf, payload: &PayloadBuf, before: &[u8], after: &[u8]) -> bool {
    match push_payload(out, payload) {
        Ok(()) => out.output() == after,
        Err(refusal) => {
            refusal == MsgRefusal::OutOfMemory
                && out.output() == before
                && push_payload(out, payload).is_ok()
                && out.output() == after
        }
    }
}

/// Returns true if the payload is pushed twice.
fn is_pushed_twice(alloc: Global, payload: &PayloadBuf) -> bool {
    let mut out = OutBuf::new(alloc);
    is_pushed(&mut out, payload, b"", REPLY) && is_pushed(&mut out, payload, REPLY, REPLIES)
}

/// Returns the payload. Makes it again if memory is refused.
fn payload_again(alloc: Global) -> Option<PayloadBuf> {
    match body_payload(alloc) {
        Some(payload) => Some(payload),
        None => body_payload(alloc),
    }
}

/// Returns true if a payload is made, and pushed twice.
fn one_is_pushed_twice(alloc: Global) -> bool {
    match payload_again(alloc) {
        Some(payload) => is_pushed_twice(alloc, &payload),
        None => false,
    }
}

#[test]
fn a_message_can_be_pushed_again(rt: HostRuntime) {
    assert!(rt; one_is_pushed_twice(rt.alloc()));
}

/// Returns true if the link gives three bytes and takes three.
fn moves(link: &mut MemLink) -> bool {
    let mut buffer = [0; 4];
    link.recv(&mut buffer) == Ok(Moved::Bytes(3))
        && buffer == [97, 98, 99, 0]
        && link.send(b"def") == Ok(Moved::Bytes(3))
        && link.sent_bytes() == b"def".as_slice()
        && link.send(b"g") == Err(FULL)
}

/// Returns a link that gives these bytes. Makes it again if memory is refused.
fn link_again(alloc: Global, input: &[u8], room: usize) -> Option<MemLink> {
    match link_of(alloc, input, room) {
        Some(link) => Some(link),
        None => link_of(alloc, input, room),
    }
}

/// Returns true if a link is made and moves bytes.
fn is_linked(alloc: Global) -> bool {
    match link_again(alloc, b"abc", 3) {
        Some(mut link) => moves(&mut link),
        None => false,
    }
}

#[test]
fn a_link_can_be_made_again(rt: HostRuntime) {
    assert!(rt; is_linked(rt.alloc()));
}

/// Returns true if the inlet pulls the bytes of the link and then its end.
fn pulls(inlet: &mut Inlet, link: &mut MemLink) -> bool {
    if inlet.pull(link) != Ok(Pulled::Bytes) || inlet.bytes() != b"abc".as_slice() {
        return false;
    }
    inlet.used(3);
    inlet.pull(link) == Ok(Pulled::End)
}

/// Returns an inlet. Makes it again if memory is refused.
fn inlet_again(alloc: Global) -> Option<Inlet> {
    match Inlet::new(alloc) {
        Ok(inlet) => Some(inlet),
        Err(_) => Inlet::new(alloc).ok(),
    }
}

/// Returns true if an inlet is made and pulls from the link.
fn is_pulled(alloc: Global, link: &mut MemLink) -> bool {
    match inlet_again(alloc) {
        Some(mut inlet) => pulls(&mut inlet, link),
        None => false,
    }
}

/// Returns true if a link is made, and an inlet takes its bytes.
fn is_pulled_through(alloc: Global) -> bool {
    match link_again(alloc, b"abc", 0) {
        Some(mut link) => is_pulled(alloc, &mut link),
        None => false,
    }
}

#[test]
fn an_inlet_can_be_made_again(rt: HostRuntime) {
    assert!(rt; is_pulled_through(rt.alloc()));
}
