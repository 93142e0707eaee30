//! Tests of links in memory: whole, in pieces of one byte, with one call that fails, and full.

use bson_raw::RawDocument;
use std::alloc::Global;
use std::io::ErrorKind;
use wire_msg::{MsgFlags, MsgRefusal, PayloadBuf};
use wire_stream::{Flushed, Inlet, Link, LinkFault, MemLink, Moved, OutBuf, Pulled, flush};

/// The fault of the call that a link in memory fails.
pub(crate) const RESET: LinkFault = LinkFault {
    kind: ErrorKind::ConnectionReset,
};

/// The fault of a link in memory that is full.
pub(crate) const FULL: LinkFault = LinkFault {
    kind: ErrorKind::WriteZero,
};

/// `{"a": 1}`.
const BODY: &[u8; 12] = b"\x0c\0\0\0\x10a\0\x01\0\0\0\0";

/// The body above as the answer to request 7, with id 3 and moreToCome.
pub(crate) const REPLY: &[u8; 33] =
    b"\x21\0\0\0\x03\0\0\0\x07\0\0\0\xdd\x07\0\0\x02\0\0\0\0\x0c\0\0\0\x10a\0\x01\0\0\0\0";

/// Appends the reply to the output. Its payload is the body.
///
/// # Errors
///
/// Returns the errors of `push_msg`.
pub(crate) fn push_payload(out: &mut OutBuf, payload: &PayloadBuf) -> Result<(), MsgRefusal> {
    let flags = MsgFlags {
        more_to_come: true,
        exhaust_allowed: false,
    };
    out.push_msg(3, 7, flags, payload.as_payload(), 33)
}

/// Returns the payload of the body.
pub(crate) fn body_payload(alloc: Global) -> Option<PayloadBuf> {
    let body = RawDocument::from_bytes(BODY).ok()?;
    PayloadBuf::new(alloc, body).ok()
}

/// Like `push_payload`, with the payload made of the body. Returns true if the reply was appended.
pub(crate) fn push_reply(alloc: Global, out: &mut OutBuf) -> bool {
    match body_payload(alloc) {
        Some(payload) => push_payload(out, &payload).is_ok(),
        None => false,
    }
}

/// Returns true if flushing the reply over `link` returns `flushed`, and the link has then sent the
/// first `count` bytes of the reply.
fn sends(
    alloc: Global,
    link: &mut MemLink,
    flushed: Result<Flushed, LinkFault>,
    count: usize,
) -> bool {
    let mut out = OutBuf::new(alloc);
    if !push_reply(alloc, &mut out) || flush(link, &mut out) != flushed {
        return false;
    }
    match REPLY.split_at_checked(count) {
        Some((sent, left)) => link.sent_bytes() == sent && out.output() == left,
        None => false,
    }
}

/// Returns a link that gives these bytes.
pub(crate) fn link_of(alloc: Global, input: &[u8], room: usize) -> Option<MemLink> {
    let bytes = Vec::from_slice(alloc, input).ok()?;
    MemLink::new(alloc, bytes, room).ok()
}

/// Returns true if the reply goes out whole in calls of at most `most` bytes.
fn goes_out(alloc: Global, most: usize) -> bool {
    match link_of(alloc, b"", 33) {
        Some(link) => most > 0
            && sends(alloc, &mut link.moving_at_most(most), Ok(Flushed::All), 33),
        None => false,
    }
}

#[test]
fn a_message_goes_out_whole(rt: HostRuntime) {
    for most in &[1, 2, 32, 33, 34] {
        assert!(rt; goes_out(rt.alloc(), *most), "{most}");
    }
}

/// Returns true if flushing fails after `count` bytes, over a link that moves at most 10 bytes a
/// call and whose call after `calls` others fails.
fn stops(alloc: Global, calls: u64, count: usize) -> bool {
    match link_of(alloc, b"", 33) {
        Some(link) => {
            let mut link = link.moving_at_most(10).failing_after(calls);
            sends(alloc, &mut link, Err(RESET), count)
        }
        None => false,
    }
}

#[test]
fn a_failed_call_leaves_what_was_not_sent(rt: HostRuntime) {
    for (calls, count) in &[(0, 0), (1, 10), (2, 20), (3, 30)] {
        assert!(rt; stops(rt.alloc(), *calls, *count), "{calls}");
    }
}

/// Returns true if flushing over a link with room for `room` bytes fails after these.
fn fills(alloc: Global, room: usize) -> bool {
    match link_of(alloc, b"", room) {
        Some(mut link) => sends(alloc, &mut link, Err(FULL), room),
        None => false,
    }
}

#[test]
fn a_full_link_fails(rt: HostRuntime) {
    for room in &[0, 1, 32] {
        assert!(rt; fills(rt.alloc(), *room), "{room}");
    }
}

/// Returns true if pulls give these bytes, one at a time, and then the end twice.
fn pulls(inlet: &mut Inlet, link: &mut MemLink, bytes: &[u8]) -> bool {
    for byte in bytes {
        if inlet.pull(link) != Ok(Pulled::Bytes) || inlet.bytes() != [*byte].as_slice() {
            return false;
        }
        inlet.used(1);
    }
    inlet.pull(link) == Ok(Pulled::End) && inlet.pull(link) == Ok(Pulled::End)
}

/// Returns true if the bytes of a link come in pieces of one byte.
fn come_one_by_one(alloc: Global) -> bool {
    let Some(link) = link_of(alloc, b"abc", 0) else {
        return false;
    };
    match Inlet::new(alloc) {
        Ok(mut inlet) => pulls(&mut inlet, &mut link.moving_at_most(1), b"abc"),
        Err(_) => false,
    }
}

#[test]
fn bytes_come_in_pieces(rt: HostRuntime) {
    assert!(rt; come_one_by_one(rt.alloc()));
}

/// Returns true if a receive fails once, and the next one gives what there is.
fn recovers(link: &mut MemLink) -> bool {
    let mut buffer = [0; 4];
    link.recv(&mut buffer) == Err(RESET)
        && link.recv(&mut buffer) == Ok(Moved::Bytes(3))
        && buffer == [97, 98, 99, 0]
        && link.recv(&mut buffer) == Ok(Moved::Bytes(0))
}

/// Returns true if a link whose first call fails goes on after it.
fn goes_on(alloc: Global) -> bool {
    match link_of(alloc, b"abc", 0) {
        Some(link) => recovers(&mut link.failing_after(0)),
        None => false,
    }
}

#[test]
fn a_link_goes_on_after_a_failure(rt: HostRuntime) {
    assert!(rt; goes_on(rt.alloc()));
}

/// Returns true if `keep(5)` leaves the first 5 bytes of the reply.
fn keeps(alloc: Global) -> bool {
    let mut out = OutBuf::new(alloc);
    if !push_reply(alloc, &mut out) || out.output().len() < 5 {
        return false;
    }
    out.keep(5);
    out.output() == b"\x21\0\0\0\x03".as_slice()
}

#[test]
fn the_first_bytes_are_kept(rt: HostRuntime) {
    assert!(rt; keeps(rt.alloc()));
}
