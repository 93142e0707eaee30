//! Tests of calls with more than one reply.

use crate::rows::{End, ONE, THREE, TWO, ample, payload_of};
use crate::runs::comes_to;
use std::alloc::Global;
use wire_msg::Payload;
use wire_peer::{CallKind, Count};
use wire_world::{CallState, Event};

/// `{"n": 0}` to `{"n": 3}`.
const COUNTS: [&[u8]; 4] = [
    b"\x0c\0\0\0\x10n\0\0\0\0\0\0",
    b"\x0c\0\0\0\x10n\0\x01\0\0\0\0",
    b"\x0c\0\0\0\x10n\0\x02\0\0\0\0",
    b"\x0c\0\0\0\x10n\0\x03\0\0\0\0",
];

/// Three replies come, and then another call is made, with the id after the greatest.
fn whole_stream<'p>(alloc: Global, three: Payload<'p>, one: Payload<'p>) -> bool {
    comes_to(
        alloc,
        Count,
        ample(2_147_483_647),
        &[
            (Event::Open, End::Opened(1, true)),
            (
                Event::Call(1, CallKind::Exhaust, three),
                End::Called(0, 2_147_483_647),
            ),
            (Event::Up(1, 33), End::Moved(33)),
            (Event::Answer(1, 0), End::Entry(0)),
            (Event::Down(1, 99), End::Moved(99)),
            (Event::Call(1, CallKind::Plain, one), End::Called(1, 1)),
        ],
        &[
            (1, CallState::Done, &[COUNTS[1], COUNTS[2], COUNTS[3]]),
            (1, CallState::Pending, &[]),
        ],
        &[(1, Some(3), THREE)],
    )
}

/// The way down is cut after two replies of three.
fn cut_stream(alloc: Global, three: Payload<'_>) -> bool {
    comes_to(
        alloc,
        Count,
        ample(2_147_483_647),
        &[
            (Event::Open, End::Opened(1, true)),
            (
                Event::Call(1, CallKind::Exhaust, three),
                End::Called(0, 2_147_483_647),
            ),
            (Event::Up(1, 33), End::Moved(33)),
            (Event::Answer(1, 0), End::Entry(0)),
            (Event::Down(1, 66), End::Moved(66)),
            (Event::CutDown(1), End::Done),
        ],
        &[(1, CallState::Lost, &[COUNTS[1], COUNTS[2]])],
        &[(1, Some(3), THREE)],
    )
}

/// A stream and two other calls are outstanding at the same time. The second reply of the stream
/// answers its first, whose id is that of the first call's request.
fn beside_calls<'p>(alloc: Global, one: Payload<'p>, three: Payload<'p>, two: Payload<'p>) -> bool {
    comes_to(
        alloc,
        Count,
        ample(1),
        &[
            (Event::Open, End::Opened(1, true)),
            (Event::Call(1, CallKind::Plain, one), End::Called(0, 1)),
            (Event::Call(1, CallKind::Exhaust, three), End::Called(1, 2)),
            (Event::Call(1, CallKind::Plain, two), End::Called(2, 3)),
            (Event::Up(1, 99), End::Moved(99)),
            (Event::Answer(1, 1), End::Entry(0)),
            (Event::Answer(1, 0), End::Entry(1)),
            (Event::Answer(1, 0), End::Entry(2)),
            (Event::Down(1, 165), End::Moved(165)),
        ],
        &[
            (1, CallState::Done, &[COUNTS[0]]),
            (1, CallState::Done, &[COUNTS[1], COUNTS[2], COUNTS[3]]),
            (1, CallState::Done, &[COUNTS[0]]),
        ],
        &[(1, Some(3), THREE), (1, Some(1), ONE), (1, Some(1), TWO)],
    )
}

#[test]
fn replies_come_in_streams(rt: HostRuntime) {
    let alloc = rt.alloc();
    if let (Some(one), Some(two), Some(three)) = (
        payload_of(alloc, ONE),
        payload_of(alloc, TWO),
        payload_of(alloc, THREE),
    ) {
        let (one, two, three) = (one.as_payload(), two.as_payload(), three.as_payload());
        assert!(rt; whole_stream(alloc, three, one));
        assert!(rt; cut_stream(alloc, three));
        assert!(rt; beside_calls(alloc, one, three, two));
    } else {
        assert!(rt; false);
    }
}
