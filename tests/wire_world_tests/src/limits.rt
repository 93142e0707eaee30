//! Tests of limits with which no world is made.

use std::alloc::Global;
use wire_peer::Echo;
use wire_world::{Event, SetupRefusal, World, WorldLimits};

/// Limits in a row: the first id, the window, the connections, and the limit on messages.
type Numbers = (i32, usize, usize, u32);

/// Limits, and why no world is made with them.
const REFUSED: [(Numbers, SetupRefusal); 8] = [
    ((0, 8, 8, 26), SetupRefusal::BadFirstId),
    ((-1, 0, 0, 25), SetupRefusal::BadFirstId),
    ((1, 0, 0, 25), SetupRefusal::BadWindow),
    ((1, 1025, 8, 26), SetupRefusal::BadWindow),
    ((1, 8, 0, 25), SetupRefusal::BadLimit),
    ((1, 8, 8, 48_000_001), SetupRefusal::BadLimit),
    ((1, 8, 0, 26), SetupRefusal::BadMax),
    ((1, 8, 1025, 26), SetupRefusal::BadMax),
];

/// The least limits, and the greatest ones.
const TAKEN: [Numbers; 2] = [(1, 1, 1, 26), (2_147_483_647, 1024, 1024, 48_000_000)];

/// Returns the limits of these numbers.
fn limits_of((first_id, window, connections, limit): Numbers) -> WorldLimits {
    WorldLimits {
        first_id,
        window,
        connections,
        limit,
    }
}

/// Returns why no world is made with these limits.
fn refusal_of(alloc: Global, limits: WorldLimits) -> Option<SetupRefusal> {
    match World::new(alloc, Echo, limits) {
        Ok(_) => None,
        Err(refusal) => Some(refusal),
    }
}

/// Returns why no world is made for a run of one event.
fn run_refusal_of(alloc: Global, limits: WorldLimits) -> Option<SetupRefusal> {
    match World::run(alloc, Echo, limits, &[Event::Open]) {
        Ok(_) => None,
        Err(refusal) => Some(refusal),
    }
}

#[test]
fn limits_have_ranges(rt: HostRuntime) {
    for (numbers, refusal) in &REFUSED {
        assert!(rt; refusal_of(rt.alloc(), limits_of(*numbers)) == Some(*refusal));
        assert!(rt; run_refusal_of(rt.alloc(), limits_of(*numbers)) == Some(*refusal));
    }
    for numbers in &TAKEN {
        assert!(rt; refusal_of(rt.alloc(), limits_of(*numbers)) == None);
        assert!(rt; run_refusal_of(rt.alloc(), limits_of(*numbers)) == None);
    }
}
