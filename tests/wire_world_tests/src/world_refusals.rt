//! Tests of a world after a refused allocation. `scripts/checks/try-refusals` runs them with each
//! of their allocations refused in turn. Only one is refused in a run, so what is tried again, in
//! this world or in another one, ends as it should.

use crate::rows::{
    End, Logging, ONE, Standing, ample, calls_stand, ends_so, good_steps, log_stands, payload_of,
};
use std::alloc::Global;
use wire_msg::{Payload, PayloadBuf};
use wire_peer::{AnswerRefusal, CallKind, Echo, ServerCause};
use wire_world::{CallState, Event, Report, SetupRefusal, World, WorldRefusal};

/// `{"a": 1}` as request 1.
const REQUEST: &[u8] =
    b"\x21\0\0\0\x01\0\0\0\0\0\0\0\xdd\x07\0\0\0\0\0\0\0\x0c\0\0\0\x10a\0\x01\0\0\0\0";

/// The reply 1 to it.
const REPLY: &[u8] =
    b"\x21\0\0\0\x01\0\0\0\x01\0\0\0\xdd\x07\0\0\0\0\0\0\0\x0c\0\0\0\x10a\0\x01\0\0\0\0";

/// Returns true if the event wasn't refused, and no server closed in it.
fn has_happened(ended: &Result<Report, WorldRefusal>) -> bool {
    match ended {
        Ok(Report::ClosedBy(_)) => false,
        Ok(_) => true,
        Err(_) => false,
    }
}

/// Returns true if none of the events is refused, and no server closes.
fn all_happen(world: &mut World<Echo>, events: &[Event<'_>]) -> bool {
    for event in events {
        if !has_happened(&world.step(event)) {
            return false;
        }
    }
    true
}

/// Returns true if each of the events is refused since a way is cut.
fn all_are_cut(world: &mut World<Echo>, events: &[Event<'_>]) -> bool {
    for event in events {
        if !ends_so(&world.step(event), End::Refused(WorldRefusal::Cut)) {
            return false;
        }
    }
    true
}

/// What a world holds: its calls, and the entries of its log.
type Holding<'a> = (&'a [Standing<'a>], &'a [Logging<'a>]);

/// Returns true if the world holds these calls and entries.
fn holds(world: &World<Echo>, (calls, log): Holding<'_>) -> bool {
    calls_stand(world.calls(), calls) && log_stands(world.log(), log)
}

/// A call over connection 2 that waits, and the one that is complete.
const WAITING: Standing<'_> = (2, CallState::Pending, &[]);

const DONE: Standing<'_> = (2, CallState::Done, &[ONE]);

/// The call over connection 1: begun, and lost.
const BEGUN: Standing<'_> = (1, CallState::Pending, &[]);

const LOST: Standing<'_> = (1, CallState::Lost, &[]);

/// The entries of connection 1, answered and failed, and the answered ones of the others.
const OF_1: Logging<'_> = (1, Some(1), ONE);

const FAILED_1: Logging<'_> = (1, None, ONE);

const OF_2: Logging<'_> = (2, Some(1), ONE);

const OF_3: Logging<'_> = (3, Some(1), ONE);

/// What a world holds after an event, and what it holds when connection 2 has gone on from there.
#[derive(Clone, Copy)]
struct Going<'a> {
    first: Holding<'a>,
    then: Holding<'a>,
}

/// There is no call over connection 1, and no entry, or one of connection 3.
const ALONE: Going<'_> = Going {
    first: (&[WAITING], &[]),
    then: (&[DONE, WAITING], &[OF_2]),
};

const ALONE_ASKED: Going<'_> = Going {
    first: (&[WAITING], &[OF_3]),
    then: (&[DONE, WAITING], &[OF_3, OF_2]),
};

/// The call over connection 1 is lost, before its request has an entry, or after that.
const LOST_UNASKED: Going<'_> = Going {
    first: (&[WAITING, LOST], &[]),
    then: (&[DONE, LOST, WAITING], &[OF_2]),
};

const LOST_ASKED: Going<'_> = Going {
    first: (&[WAITING, LOST], &[OF_1]),
    then: (&[DONE, LOST, WAITING], &[OF_1, OF_2]),
};

/// The server of connection 1 has closed, since there was no memory for its replies, or its handler
/// stopped.
const CLOSED: [Going<'_>; 2] = [
    Going {
        first: (&[WAITING, BEGUN], &[OF_1]),
        then: (&[DONE, BEGUN, WAITING], &[OF_1, OF_2]),
    },
    Going {
        first: (&[WAITING, BEGUN], &[FAILED_1]),
        then: (&[DONE, BEGUN, WAITING], &[FAILED_1, OF_2]),
    },
];

/// Returns true if the call over connection 2 is completed, another one is made there, and a new
/// connection has this number, all as if memory had never run out.
fn all_goes_on(world: &mut World<Echo>, one: Payload<'_>, next: u64) -> bool {
    let steps = [
        (Event::Answer(2, 0), End::Entry(world.log().len())),
        (Event::Down(2, 33), End::Moved(33)),
        (
            Event::Call(2, CallKind::Plain, one),
            End::Called(world.calls().len(), 2),
        ),
        (Event::Up(2, 33), End::Moved(33)),
        (Event::Open, End::Opened(next, true)),
    ];
    good_steps(world, &steps) == 5
}

/// Returns true if the world holds `going.first`, all goes on, and it holds `going.then` after
/// that.
fn goes_on_so(world: &mut World<Echo>, one: Payload<'_>, next: u64, going: &Going<'_>) -> bool {
    holds(world, going.first) && all_goes_on(world, one, next) && holds(world, going.then)
}

/// Returns true if the server of connection 1 is closed and put out nothing.
fn is_closed(world: &mut World<Echo>) -> bool {
    let refused = End::Refused(WorldRefusal::Answer(AnswerRefusal::Closed));
    let steps = [
        (Event::Answer(1, 0), refused),
        (Event::Down(1, 33), End::Moved(0)),
    ];
    good_steps(world, &steps) == 2
}

/// Returns true if the server of connection 1 is closed, and all else goes on.
fn goes_on_closed(world: &mut World<Echo>, one: Payload<'_>) -> bool {
    for going in &CLOSED {
        if holds(world, going.first) {
            return is_closed(world) && goes_on_so(world, one, 3, going);
        }
    }
    false
}

/// How an event ended.
#[derive(Clone, Copy, PartialEq)]
enum StepEnd {
    ToItsEnd,
    /// Out of memory.
    ToNothing,
    /// Memory ran out for the handler or its reply, and the server closed.
    ToAClose,
    Otherwise,
}

/// Makes an event happen that should have this end. Returns how it ended.
fn end_of_step(world: &mut World<Echo>, event: &Event<'_>, end: End<'_>) -> StepEnd {
    let ended = world.step(event);
    if ends_so(&ended, end) {
        StepEnd::ToItsEnd
    } else if ends_so(&ended, End::Refused(WorldRefusal::OutOfMemory)) {
        StepEnd::ToNothing
    } else if ends_so(&ended, End::ClosedBy(ServerCause::NoMemory)) {
        StepEnd::ToAClose
    } else {
        StepEnd::Otherwise
    }
}

/// Returns a world in which a request over connection 2 waits and then these events have happened,
/// or `None` if memory runs out on the way.
fn prepared(alloc: Global, one: Payload<'_>, events: &[Event<'_>]) -> Option<World<Echo>> {
    let Ok(mut world) = World::new(alloc, Echo, ample(1)) else {
        return None;
    };
    let first = [
        Event::Open,
        Event::Open,
        Event::Call(2, CallKind::Plain, one),
        Event::Up(2, 33),
    ];
    if all_happen(&mut world, &first) && all_happen(&mut world, events) {
        Some(world)
    } else {
        None
    }
}

/// An event that is tried: the events before it, the event and its end, the events that are refused
/// if its connection is cut, what the world holds then, and the number of the next connection.
#[derive(Clone, Copy)]
struct Trial<'a, 'c, 'e> {
    before: &'a [Event<'a>],
    event: Event<'a>,
    end: End<'a>,
    cut: &'c [Event<'e>],
    going: Going<'a>,
    next: u64,
}

/// Returns `None` if `holds`: memory ran out, and left what it should.
fn out_of_memory(holds: bool) -> Option<bool> {
    if holds { None } else { Some(false) }
}

/// Returns true if the event ends as it should; or `None` if memory runs out for it. Then its
/// connection is cut, there is no other call or entry, and all else goes on; or its server closed,
/// and the log has its entry.
fn stands(world: &mut World<Echo>, one: Payload<'_>, trial: &Trial<'_, '_, '_>) -> Option<bool> {
    match end_of_step(world, &trial.event, trial.end) {
        StepEnd::ToItsEnd => Some(true),
        StepEnd::ToNothing => out_of_memory(
            holds(world, trial.going.first)
                && all_are_cut(world, trial.cut)
                && goes_on_so(world, one, trial.next, &trial.going),
        ),
        StepEnd::ToAClose => out_of_memory(goes_on_closed(world, one)),
        StepEnd::Otherwise => Some(false),
    }
}

/// Like `stands`, in a world in which the events before have happened.
fn tries(alloc: Global, one: Payload<'_>, trial: &Trial<'_, '_, '_>) -> Option<bool> {
    let mut world = prepared(alloc, one, trial.before)?;
    stands(&mut world, one, trial)
}

/// Returns true if the event ends as it should; or memory runs out, and it does so in another
/// world.
fn tries_at_last(alloc: Global, one: Payload<'_>, trial: &Trial<'_, '_, '_>) -> bool {
    match tries(alloc, one, trial) {
        Some(holds) => holds,
        None => tries(alloc, one, trial) == Some(true),
    }
}

/// Returns true if an event of connection 1 ends as it should, or, if memory runs out, cuts its own
/// connection and no other.
fn cuts_connection_1<'a>(
    alloc: Global,
    one: Payload<'a>,
    before: &'a [Event<'a>],
    event: Event<'a>,
    end: End<'a>,
    going: Going<'a>,
) -> bool {
    let cut = [
        Event::Call(1, CallKind::Plain, one),
        Event::Up(1, 1),
        Event::Down(1, 1),
    ];
    let trial = Trial {
        before,
        event,
        end,
        cut: &cut,
        going,
        next: 3,
    };
    tries_at_last(alloc, one, &trial)
}

/// Events that are refused if the raw connection 3 is cut.
const CUT_RAW: [Event<'_>; 2] = [Event::Raw(3, REQUEST), Event::RawTake(3, 1)];

/// Like `cuts_connection_1`, for an event of the raw connection 3.
fn cuts_connection_3<'a>(
    alloc: Global,
    one: Payload<'a>,
    before: &'a [Event<'a>],
    event: Event<'a>,
    end: End<'a>,
    going: Going<'a>,
) -> bool {
    let trial = Trial {
        before,
        event,
        end,
        cut: &CUT_RAW,
        going,
        next: 4,
    };
    tries_at_last(alloc, one, &trial)
}

/// Returns the payload of `ONE`. Makes it again if memory is refused.
fn one_again(alloc: Global) -> Option<PayloadBuf> {
    match payload_of(alloc, ONE) {
        Some(payload) => Some(payload),
        None => payload_of(alloc, ONE),
    }
}

/// Returns true if there is no connection 3, the event makes it, and all else goes on.
fn happens_again(
    world: &mut World<Echo>,
    one: Payload<'_>,
    event: &Event<'_>,
    end: End<'_>,
) -> bool {
    let none = End::Refused(WorldRefusal::NoConnection);
    holds(world, ALONE.first)
        && ends_so(&world.step(&Event::CutUp(3)), none)
        && ends_so(&world.step(event), end)
        && goes_on_so(world, one, 4, &ALONE)
}

/// Returns true if the event, which makes a connection, ends as it should; or `None` if memory runs
/// out for it, which has to change nothing, or before it.
fn happens(alloc: Global, one: Payload<'_>, event: &Event<'_>, end: End<'_>) -> Option<bool> {
    let mut world = prepared(alloc, one, &[])?;
    match end_of_step(&mut world, event, end) {
        StepEnd::ToItsEnd => Some(true),
        StepEnd::ToNothing => out_of_memory(happens_again(&mut world, one, event, end)),
        _ => Some(false),
    }
}

/// Returns true if the event ends as it should, in another world if memory runs out.
fn happens_at_last(alloc: Global, one: Payload<'_>, event: Event<'_>, end: End<'_>) -> bool {
    match happens(alloc, one, &event, end) {
        Some(holds) => holds,
        None => happens(alloc, one, &event, end) == Some(true),
    }
}

#[test]
fn what_makes_a_connection_changes_nothing(rt: HostRuntime) {
    let Some(payload) = one_again(rt.alloc()) else {
        assert!(rt; false);
        return;
    };
    let one = payload.as_payload();
    assert!(rt; happens_at_last(rt.alloc(), one, Event::Open, End::Opened(3, true)));
    assert!(rt; happens_at_last(rt.alloc(), one, Event::RawOpen, End::RawOpened(3)));
}

#[test]
fn a_call_cuts_its_own_connection(rt: HostRuntime) {
    let Some(payload) = one_again(rt.alloc()) else {
        assert!(rt; false);
        return;
    };
    let one = payload.as_payload();
    let call = Event::Call(1, CallKind::Plain, one);
    assert!(rt;
        cuts_connection_1(
            rt.alloc(),
            one,
            &[call],
            call,
            End::Called(2, 2),
            LOST_UNASKED
        )
    );
}

#[test]
fn bytes_that_move_up_cut_their_own_connection(rt: HostRuntime) {
    let Some(payload) = one_again(rt.alloc()) else {
        assert!(rt; false);
        return;
    };
    let one = payload.as_payload();
    let call = Event::Call(1, CallKind::Plain, one);
    assert!(rt;
        cuts_connection_1(
            rt.alloc(),
            one,
            &[call],
            Event::Up(1, 33),
            End::Moved(33),
            LOST_UNASKED
        )
    );
}

#[test]
fn an_answer_cuts_its_own_connection_or_closes(rt: HostRuntime) {
    let Some(payload) = one_again(rt.alloc()) else {
        assert!(rt; false);
        return;
    };
    let one = payload.as_payload();
    let before = [Event::Call(1, CallKind::Plain, one), Event::Up(1, 33)];
    assert!(rt;
        cuts_connection_1(
            rt.alloc(),
            one,
            &before,
            Event::Answer(1, 0),
            End::Entry(0),
            LOST_UNASKED
        )
    );
}

#[test]
fn bytes_that_move_down_cut_their_own_connection(rt: HostRuntime) {
    let Some(payload) = one_again(rt.alloc()) else {
        assert!(rt; false);
        return;
    };
    let one = payload.as_payload();
    let before = [
        Event::Call(1, CallKind::Plain, one),
        Event::Up(1, 33),
        Event::Answer(1, 0),
    ];
    assert!(rt;
        cuts_connection_1(
            rt.alloc(),
            one,
            &before,
            Event::Down(1, 33),
            End::Moved(33),
            LOST_ASKED
        )
    );
}

#[test]
fn raw_bytes_cut_their_own_connection(rt: HostRuntime) {
    let Some(payload) = one_again(rt.alloc()) else {
        assert!(rt; false);
        return;
    };
    let one = payload.as_payload();
    let raw = Event::Raw(3, REQUEST);
    assert!(rt;
        cuts_connection_3(
            rt.alloc(),
            one,
            &[Event::RawOpen],
            raw,
            End::RawMoved(33, None),
            ALONE
        )
    );
}

#[test]
fn bytes_taken_away_cut_their_own_connection(rt: HostRuntime) {
    let Some(payload) = one_again(rt.alloc()) else {
        assert!(rt; false);
        return;
    };
    let one = payload.as_payload();
    let before = [Event::RawOpen, Event::Raw(3, REQUEST), Event::Answer(3, 0)];
    let take = Event::RawTake(3, 33);
    assert!(rt;
        cuts_connection_3(
            rt.alloc(),
            one,
            &before,
            take,
            End::Bytes(REPLY),
            ALONE_ASKED
        )
    );
}

/// Returns why no world is made, or `None` if one is.
fn setup_refusal(alloc: Global) -> Option<SetupRefusal> {
    match World::new(alloc, Echo, ample(1)) {
        Ok(_) => None,
        Err(refusal) => Some(refusal),
    }
}

/// Returns true if a world is made, at the second try if memory runs out.
fn is_made(alloc: Global) -> bool {
    match setup_refusal(alloc) {
        None => true,
        Some(refusal) => { refusal == SetupRefusal::OutOfMemory && setup_refusal(alloc).is_none() }
    }
}

#[test]
fn a_refused_world_is_not_made(rt: HostRuntime) {
    assert!(rt; is_made(rt.alloc()));
}

/// The complete call over connection 1, and the lost one over connection 2 with its failed entry.
const DONE_1: Standing<'_> = (1, CallState::Done, &[ONE]);

const LOST_2: Standing<'_> = (2, CallState::Lost, &[]);

const FAILED_2: Logging<'_> = (2, None, ONE);

/// What a run leaves for which memory didn't run out: a complete call over each connection.
const RUN: Holding<'_> = (&[DONE_1, DONE], &[OF_1, OF_2]);

/// What it leaves if memory ran out for one event: one call is complete. The other one wasn't made;
/// or was lost, before its request had an entry or after that; or is pending, since the server
/// closed when the log had its entry.
const BROKEN_RUNS: [Holding<'_>; 10] = [
    (&[DONE_1], &[OF_1]),
    (&[DONE_1, LOST_2], &[OF_1]),
    (&[DONE_1, LOST_2], &[OF_1, OF_2]),
    (&[DONE_1, WAITING], &[OF_1, OF_2]),
    (&[DONE_1, WAITING], &[OF_1, FAILED_2]),
    (&[DONE], &[OF_2]),
    (&[LOST, DONE], &[OF_2]),
    (&[LOST, DONE], &[OF_1, OF_2]),
    (&[BEGUN, DONE], &[OF_1, OF_2]),
    (&[BEGUN, DONE], &[FAILED_1, OF_2]),
];

/// Returns true if one event of a run was refused, or its server closed, and all others that could
/// happen did.
fn is_broken(world: &World<Echo>) -> bool {
    for holding in &BROKEN_RUNS {
        if holds(world, *holding) {
            return true;
        }
    }
    false
}

/// Returns true if both calls of a run are complete; or `None` if memory ran out for one of its
/// events, and the others did what they should after it.
fn is_run(world: &World<Echo>) -> Option<bool> {
    if holds(world, RUN) {
        Some(true)
    } else {
        out_of_memory(is_broken(world))
    }
}

/// Returns `is_run` of a run of two calls and their replies, or `None` if there was no memory for a
/// world.
fn runs(alloc: Global, one: Payload<'_>) -> Option<bool> {
    let events = [
        Event::Open,
        Event::Open,
        Event::Call(1, CallKind::Plain, one),
        Event::Up(1, 33),
        Event::Answer(1, 0),
        Event::Down(1, 33),
        Event::Call(2, CallKind::Plain, one),
        Event::Up(2, 33),
        Event::Answer(2, 0),
        Event::Down(2, 33),
    ];
    match World::run(alloc, Echo, ample(1), &events) {
        Ok(world) => is_run(&world),
        Err(SetupRefusal::OutOfMemory) => None,
        Err(_) => Some(false),
    }
}

/// Returns true if the run completes its calls, at the second try if memory runs out.
fn runs_at_last(alloc: Global, one: Payload<'_>) -> bool {
    match runs(alloc, one) {
        Some(holds) => holds,
        None => runs(alloc, one) == Some(true),
    }
}

#[test]
fn a_run_goes_on_behind_a_refused_event(rt: HostRuntime) {
    let Some(payload) = one_again(rt.alloc()) else {
        assert!(rt; false);
        return;
    };
    assert!(rt; runs_at_last(rt.alloc(), payload.as_payload()));
}
