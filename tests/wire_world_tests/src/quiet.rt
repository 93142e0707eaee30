//! Tests of quiet connections, on which each acknowledged call is done.

use crate::rows::{End, ONE, TWO, ample, good_steps, payload_of};
use std::alloc::Global;
use wire_msg::Payload;
use wire_peer::{CallKind, Echo, Handler, HandlerStop, ServerCause, StopAt};
use wire_world::{CallState, Event, World};

/// The number of a connection, and whether it is quiet.
type Quiet = (u64, bool);

/// Returns true if each connection is as quiet as its row says, and each acknowledged call of a
/// quiet one is done.
fn stands_so<H>(world: &World<H>, rows: &[Quiet]) -> bool {
    for row in rows {
        if world.is_quiet(row.0) != row.1 {
            return false;
        }
    }
    for call in world.calls() {
        let is_open = call.kind.awaits_reply() && call.state != CallState::Done;
        if is_open && world.is_quiet(call.connection) {
            return false;
        }
    }
    true
}

/// Returns true if in a world over this handler each event ends as it should, and the connections
/// are then as quiet as the rows say.
fn comes_to_rest<H: Handler + Drop>(
    alloc: Global,
    handler: H,
    steps: &[(Event<'_>, End<'_>)],
    rows: &[Quiet],
) -> bool {
    match World::new(alloc, handler, ample(1)) {
        Ok(mut world) => { good_steps(&mut world, steps) == steps.len() && stands_so(&world, rows) }
        Err(_) => false,
    }
}

/// The first connection is cut, the second has bytes to send, a request of the third waits, the
/// reply of the fourth isn't taken, the call of the fifth is done, and over the sixth no call was
/// made. There is no connection 0, and no seventh.
const SIX: [Quiet; 8] = [
    (0, false),
    (1, false),
    (2, false),
    (3, false),
    (4, false),
    (5, true),
    (6, true),
    (7, false),
];

fn six_connections(alloc: Global, one: Payload<'_>) -> bool {
    comes_to_rest(
        alloc,
        Echo,
        &[
            (Event::Open, End::Opened(1, true)),
            (Event::Open, End::Opened(2, true)),
            (Event::Open, End::Opened(3, true)),
            (Event::Open, End::Opened(4, true)),
            (Event::Open, End::Opened(5, true)),
            (Event::Open, End::Opened(6, true)),
            (Event::CutUp(1), End::Done),
            (Event::Call(2, CallKind::Plain, one), End::Called(0, 1)),
            (Event::Call(3, CallKind::Plain, one), End::Called(1, 1)),
            (Event::Up(3, 33), End::Moved(33)),
            (Event::Call(4, CallKind::Plain, one), End::Called(2, 1)),
            (Event::Up(4, 33), End::Moved(33)),
            (Event::Answer(4, 0), End::Entry(0)),
            (Event::Call(5, CallKind::Plain, one), End::Called(3, 1)),
            (Event::Up(5, 33), End::Moved(33)),
            (Event::Answer(5, 0), End::Entry(1)),
            (Event::Down(5, 33), End::Moved(33)),
        ],
        &SIX,
    )
}

/// A connection whose server was closed by an answer isn't quiet, with nothing on its ways and no
/// request waiting.
fn stopped<'p>(alloc: Global, one: Payload<'p>, two: Payload<'p>) -> bool {
    comes_to_rest(
        alloc,
        StopAt::new(Echo, 1, HandlerStop::Failed),
        &[
            (Event::Open, End::Opened(1, true)),
            (Event::Call(1, CallKind::Plain, one), End::Called(0, 1)),
            (Event::Call(1, CallKind::Plain, two), End::Called(1, 2)),
            (Event::Up(1, 66), End::Moved(66)),
            (Event::Answer(1, 0), End::Entry(0)),
            (
                Event::Answer(1, 0),
                End::ClosedBy(ServerCause::HandlerFailed),
            ),
            (Event::Down(1, 33), End::Moved(33)),
        ],
        &[(1, false)],
    )
}

#[test]
fn each_call_of_a_quiet_connection_is_done(rt: HostRuntime) {
    let alloc = rt.alloc();
    if let (Some(one), Some(two)) = (payload_of(alloc, ONE), payload_of(alloc, TWO)) {
        let (one, two) = (one.as_payload(), two.as_payload());
        assert!(rt; six_connections(alloc, one));
        assert!(rt; stopped(alloc, one, two));
    } else {
        assert!(rt; false);
    }
}
