//! A test of a raw connection beside one of ours.

use crate::rows::{End, ONE, ample, payload_of};
use crate::runs::comes_to;
use std::alloc::Global;
use wire_msg::{MsgCause, MsgFault, Payload};
use wire_peer::{CallKind, Echo, ServerCause};
use wire_world::{CallState, Event, WorldRefusal};

/// `{"a": 1}` as request 1.
const REQUEST: &[u8] =
    b"\x21\0\0\0\x01\0\0\0\0\0\0\0\xdd\x07\0\0\0\0\0\0\0\x0c\0\0\0\x10a\0\x01\0\0\0\0";

/// The same as the reply 1 to it.
const REPLY: &[u8] =
    b"\x21\0\0\0\x01\0\0\0\x01\0\0\0\xdd\x07\0\0\0\0\0\0\0\x0c\0\0\0\x10a\0\x01\0\0\0\0";

/// A header of opcode 2004.
const QUERY: &[u8] = b"\x10\0\0\0\x01\0\0\0\0\0\0\0\xd4\x07\0\0";

/// Each connection gets the reply to its own request, and a fault on one leaves the other as it is.
fn beside_a_stranger(alloc: Global, one: Payload<'_>) -> bool {
    let fault = ServerCause::Message(MsgFault {
        at: 12,
        cause: MsgCause::Opcode(2004),
    });
    comes_to(
        alloc,
        Echo,
        ample(1),
        &[
            (Event::Open, End::Opened(1, true)),
            (Event::Call(1, CallKind::Plain, one), End::Called(0, 1)),
            (Event::RawOpen, End::RawOpened(2)),
            (Event::Raw(2, REQUEST), End::RawMoved(33, None)),
            (Event::Up(1, 33), End::Moved(33)),
            (Event::Answer(2, 0), End::Entry(0)),
            (Event::Answer(1, 0), End::Entry(1)),
            (Event::RawTake(2, 99), End::Bytes(REPLY)),
            (Event::Down(1, 33), End::Moved(33)),
            (Event::Raw(2, QUERY), End::RawMoved(16, Some(fault))),
            (Event::Raw(2, b"\0"), End::RawMoved(0, None)),
            (
                Event::Call(2, CallKind::Plain, one),
                End::Refused(WorldRefusal::Raw),
            ),
            (Event::Raw(1, b"\0"), End::Refused(WorldRefusal::NotRaw)),
            (Event::Restart, End::Done),
            (Event::RawTake(2, 1), End::Bytes(b"")),
            (Event::CutUp(2), End::Done),
            (Event::Raw(2, b"\0"), End::Refused(WorldRefusal::Cut)),
        ],
        &[(1, CallState::Done, &[ONE])],
        &[(2, Some(1), ONE), (1, Some(1), ONE)],
    )
}

#[test]
fn a_raw_connection_gets_its_own_replies(rt: HostRuntime) {
    match payload_of(rt.alloc(), ONE) {
        Some(one) => assert!(rt; beside_a_stranger(rt.alloc(), one.as_payload())),
        None => assert!(rt; false),
    }
}
