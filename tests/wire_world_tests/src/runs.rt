//! Tests of calls and their answers over connections that move bytes, are cut, and are lent again.

use crate::rows::{
    End, Logging, ONE, PING, Standing, TWO, ample, calls_stand, good_steps, log_stands, payload_of,
};
use std::alloc::Global;
use wire_msg::Payload;
use wire_peer::{AnswerRefusal, CallKind, Echo, Handler, HandlerStop, ServerCause, StopAt};
use wire_world::{CallState, Event, World, WorldLimits, WorldRefusal};

/// Returns true if in a world over this handler each event ends as it should, and the calls and the
/// log are then those of the rows.
pub(crate) fn comes_to<H: Handler + Drop>(
    alloc: Global,
    handler: H,
    limits: WorldLimits,
    steps: &[(Event<'_>, End<'_>)],
    calls: &[Standing<'_>],
    log: &[Logging<'_>],
) -> bool {
    match World::new(alloc, handler, limits) {
        Ok(mut world) => {
            good_steps(&mut world, steps) == steps.len()
                && calls_stand(world.calls(), calls)
                && log_stands(world.log(), log)
        }
        Err(_) => false,
    }
}

/// A request that wants no reply gets none.
fn silent_call(alloc: Global, ping: Payload<'_>) -> bool {
    comes_to(
        alloc,
        Echo,
        ample(1),
        &[
            (Event::Open, End::Opened(1, true)),
            (
                Event::Call(1, CallKind::Unacknowledged, ping),
                End::Called(0, 1),
            ),
            (Event::Up(1, 51), End::Moved(51)),
            (Event::Answer(1, 0), End::Entry(0)),
            (Event::Down(1, 1), End::Moved(0)),
        ],
        &[(1, CallState::Sent, &[])],
        &[(1, Some(1), PING)],
    )
}

#[test]
fn a_silent_request_gets_no_reply(rt: HostRuntime) {
    let Some(ping) = payload_of(rt.alloc(), PING) else {
        assert!(rt; false);
        return;
    };
    assert!(rt; silent_call(rt.alloc(), ping.as_payload()));
}

/// Two requests are answered, the later one first.
fn other_order<'p>(alloc: Global, one: Payload<'p>, two: Payload<'p>) -> bool {
    comes_to(
        alloc,
        Echo,
        ample(1),
        &[
            (Event::Open, End::Opened(1, true)),
            (Event::Call(1, CallKind::Plain, one), End::Called(0, 1)),
            (Event::Call(1, CallKind::Plain, two), End::Called(1, 2)),
            (Event::Up(1, 66), End::Moved(66)),
            (Event::Answer(1, 1), End::Entry(0)),
            (Event::Answer(1, 0), End::Entry(1)),
            (Event::Down(1, 33), End::Moved(33)),
            (Event::Down(1, 33), End::Moved(33)),
        ],
        &[(1, CallState::Done, &[ONE]), (1, CallState::Done, &[TWO])],
        &[(1, Some(1), TWO), (1, Some(1), ONE)],
    )
}

/// The connection is cut between two replies, or inside one, and another one takes its place.
fn restarted<'p>(alloc: Global, ping: Payload<'p>, one: Payload<'p>) -> bool {
    comes_to(
        alloc,
        Echo,
        ample(1),
        &[
            (Event::Open, End::Opened(1, true)),
            (Event::Call(1, CallKind::Plain, ping), End::Called(0, 1)),
            (Event::Call(1, CallKind::Plain, one), End::Called(1, 2)),
            (Event::Up(1, 84), End::Moved(84)),
            (Event::Answer(1, 0), End::Entry(0)),
            (Event::Down(1, 50), End::Moved(50)),
            (Event::CutDown(1), End::Done),
            (Event::Restart, End::Done),
            (Event::Open, End::Opened(2, true)),
            (Event::Call(2, CallKind::Plain, ping), End::Called(2, 1)),
            (Event::Up(2, 51), End::Moved(51)),
            (Event::Answer(1, 0), End::Entry(1)),
            (Event::Answer(2, 0), End::Entry(2)),
            (Event::Down(2, 51), End::Moved(51)),
            (Event::Down(1, 1), End::Refused(WorldRefusal::Cut)),
        ],
        &[
            (1, CallState::Lost, &[]),
            (1, CallState::Lost, &[]),
            (2, CallState::Done, &[PING]),
        ],
        &[(1, Some(1), PING), (1, Some(1), ONE), (2, Some(1), PING)],
    )
}

/// A pool of one connection lends it, keeps it, and drops it with a call outstanding.
fn lent_again(alloc: Global, one: Payload<'_>) -> bool {
    comes_to(
        alloc,
        Echo,
        WorldLimits {
            connections: 1,
            ..ample(1)
        },
        &[
            (Event::Open, End::Opened(1, true)),
            (Event::Open, End::Refused(WorldRefusal::Full)),
            (Event::Return(1), End::Kept),
            (Event::Open, End::Opened(1, false)),
            (Event::Call(1, CallKind::Plain, one), End::Called(0, 1)),
            (Event::Return(1), End::Dropped),
            (Event::Open, End::Opened(2, true)),
            (Event::Return(1), End::Refused(WorldRefusal::NotLent)),
            (Event::Return(2), End::Kept),
            (Event::Clear, End::Done),
            (Event::Up(2, 1), End::Refused(WorldRefusal::Cut)),
            (Event::Open, End::Opened(3, true)),
            (Event::Up(4, 1), End::Refused(WorldRefusal::NoConnection)),
            (Event::Up(0, 1), End::Refused(WorldRefusal::NoConnection)),
        ],
        &[(1, CallState::Lost, &[])],
        &[],
    )
}

/// The window of one request is full, until it is answered.
fn small_window(alloc: Global, one: Payload<'_>) -> bool {
    comes_to(
        alloc,
        Echo,
        WorldLimits {
            window: 1,
            connections: 1,
            limit: 33,
            ..ample(1)
        },
        &[
            (Event::Open, End::Opened(1, true)),
            (
                Event::Call(1, CallKind::Unacknowledged, one),
                End::Called(0, 1),
            ),
            (
                Event::Call(1, CallKind::Unacknowledged, one),
                End::Called(1, 2),
            ),
            (Event::Up(1, 66), End::Moved(33)),
            (
                Event::Answer(1, 1),
                End::Refused(WorldRefusal::Answer(AnswerRefusal::NoSuchRequest)),
            ),
            (Event::Answer(1, 0), End::Entry(0)),
            (Event::Up(1, 66), End::Moved(33)),
        ],
        &[(1, CallState::Sent, &[]), (1, CallState::Sent, &[])],
        &[(1, Some(1), ONE)],
    )
}

/// The handler stops at the second request, and the server closes for this cause.
fn stopped<'p>(
    alloc: Global,
    one: Payload<'p>,
    two: Payload<'p>,
    stop: HandlerStop,
    cause: ServerCause,
) -> bool {
    comes_to(
        alloc,
        StopAt::new(Echo, 1, stop),
        ample(1),
        &[
            (Event::Open, End::Opened(1, true)),
            (Event::Call(1, CallKind::Plain, one), End::Called(0, 1)),
            (Event::Call(1, CallKind::Plain, two), End::Called(1, 2)),
            (Event::Up(1, 66), End::Moved(66)),
            (Event::Answer(1, 0), End::Entry(0)),
            (Event::Answer(1, 0), End::ClosedBy(cause)),
            (
                Event::Answer(1, 0),
                End::Refused(WorldRefusal::Answer(AnswerRefusal::Closed)),
            ),
            (Event::Down(1, 66), End::Moved(33)),
        ],
        &[(1, CallState::Done, &[ONE]), (1, CallState::Pending, &[])],
        &[(1, Some(1), ONE), (1, None, TWO)],
    )
}

#[test]
fn calls_and_replies_go_over_connections(rt: HostRuntime) {
    let alloc = rt.alloc();
    if let (Some(ping), Some(one), Some(two)) = (
        payload_of(alloc, PING),
        payload_of(alloc, ONE),
        payload_of(alloc, TWO),
    ) {
        let (ping, one, two) = (ping.as_payload(), one.as_payload(), two.as_payload());
        assert!(rt; other_order(alloc, one, two));
        assert!(rt; restarted(alloc, ping, one));
        assert!(rt; lent_again(alloc, one));
        assert!(rt; small_window(alloc, one));
    } else {
        assert!(rt; false);
    }
}

#[test]
fn a_handler_that_stops_closes_its_server(rt: HostRuntime) {
    let alloc = rt.alloc();
    if let (Some(one), Some(two)) = (payload_of(alloc, ONE), payload_of(alloc, TWO)) {
        let (one, two) = (one.as_payload(), two.as_payload());
        assert!(rt;
            stopped(
                alloc,
                one,
                two,
                HandlerStop::Failed,
                ServerCause::HandlerFailed
            )
        );
        assert!(rt;
            stopped(
                alloc,
                one,
                two,
                HandlerStop::OutOfMemory,
                ServerCause::NoMemory
            )
        );
    } else {
        assert!(rt; false);
    }
}
