//! Tests of replies that come byte by byte, and of streams that begin beside other calls.

use crate::rows::{End, ONE, THREE, TWO, ample, calls_stand, good_steps, log_stands, payload_of};
use crate::runs::comes_to;
use std::alloc::Global;
use wire_msg::Payload;
use wire_peer::{CallKind, Count, Echo};
use wire_world::{CallState, Event, Report, World};

/// Moves one byte down, `count` times or until an event moves none. Returns how often a byte was
/// moved.
fn moved_one_by_one(world: &mut World<Echo>, count: usize) -> usize {
    let mut moved = 0usize;
    for _ in 0..count {
        match world.step(&Event::Down(1, 1)) {
            Ok(Report::Moved(1)) if moved < count => moved += 1,
            _ => return moved,
        }
    }
    moved
}

/// Two replies of 33 bytes each come in 66 pieces, and go to their own calls.
fn byte_by_byte<'p>(alloc: Global, one: Payload<'p>, two: Payload<'p>) -> bool {
    let Ok(mut world) = World::new(alloc, Echo, ample(1)) else {
        return false;
    };
    let steps = [
        (Event::Open, End::Opened(1, true)),
        (Event::Call(1, CallKind::Plain, one), End::Called(0, 1)),
        (Event::Call(1, CallKind::Plain, two), End::Called(1, 2)),
        (Event::Up(1, 66), End::Moved(66)),
        (Event::Answer(1, 1), End::Entry(0)),
        (Event::Answer(1, 0), End::Entry(1)),
    ];
    good_steps(&mut world, &steps) == steps.len()
        && moved_one_by_one(&mut world, 66) == 66
        && calls_stand(
            world.calls(),
            &[(1, CallState::Done, &[ONE]), (1, CallState::Done, &[TWO])],
        )
        && log_stands(world.log(), &[(1, Some(1), TWO), (1, Some(1), ONE)])
}

#[test]
fn replies_come_byte_by_byte(rt: HostRuntime) {
    let Some(one) = payload_of(rt.alloc(), ONE) else {
        assert!(rt; false);
        return;
    };
    match payload_of(rt.alloc(), TWO) {
        Some(two) => assert!(rt; byte_by_byte(rt.alloc(), one.as_payload(), two.as_payload())),
        None => assert!(rt; false),
    }
}

/// An exhaust call is made beside a plain one.
fn after_a_plain_call<'p>(alloc: Global, one: Payload<'p>, three: Payload<'p>) -> bool {
    comes_to(
        alloc,
        Count,
        ample(1),
        &[
            (Event::Open, End::Opened(1, true)),
            (Event::Call(1, CallKind::Plain, one), End::Called(0, 1)),
            (Event::Call(1, CallKind::Exhaust, three), End::Called(1, 2)),
        ],
        &[(1, CallState::Pending, &[]), (1, CallState::Pending, &[])],
        &[],
    )
}

/// Other calls are made beside an exhaust one.
fn after_an_exhaust_call<'p>(alloc: Global, one: Payload<'p>, three: Payload<'p>) -> bool {
    comes_to(
        alloc,
        Count,
        ample(1),
        &[
            (Event::Open, End::Opened(1, true)),
            (Event::Call(1, CallKind::Exhaust, three), End::Called(0, 1)),
            (Event::Call(1, CallKind::Plain, one), End::Called(1, 2)),
            (
                Event::Call(1, CallKind::Unacknowledged, one),
                End::Called(2, 3),
            ),
        ],
        &[
            (1, CallState::Pending, &[]),
            (1, CallState::Pending, &[]),
            (1, CallState::Sent, &[]),
        ],
        &[],
    )
}

#[test]
fn streams_begin_beside_other_calls(rt: HostRuntime) {
    let Some(one) = payload_of(rt.alloc(), ONE) else {
        assert!(rt; false);
        return;
    };
    match payload_of(rt.alloc(), THREE) {
        Some(three) => {
            assert!(rt; after_a_plain_call(rt.alloc(), one.as_payload(), three.as_payload()));
            assert!(rt; after_an_exhaust_call(rt.alloc(), one.as_payload(), three.as_payload()));
        }
        None => assert!(rt; false),
    }
}
