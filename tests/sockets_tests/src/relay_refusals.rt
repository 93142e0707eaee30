//! A relay where each allocation is refused in turn.

use crate::relays::{has, link_of};
use sockets::{NoTap, Relay, Turned};
use std::alloc::Global;

/// Returns whether bytes pass both ways; none if memory for the relay is refused.
fn passes(alloc: Global) -> Option<bool> {
    let near = link_of(alloc, b"ab", 1)?;
    let far = link_of(alloc, b"c", 1)?;
    let mut relay = Relay::new(alloc, near, far).ok()?;
    let over = relay.turn(100, &mut NoTap, &mut NoTap) == Ok(Turned::Over);
    Some(over && has(relay.near(), b"c") && has(relay.far(), b"ab"))
}

/// Returns true if bytes pass behind a refused allocation, at the second try at last.
fn goes_on(alloc: Global) -> bool {
    match passes(alloc) {
        Some(holds) => holds,
        None => passes(alloc) == Some(true),
    }
}

#[test]
fn a_refused_allocation_makes_no_relay(rt: HostRuntime) {
    assert!(rt; goes_on(rt.alloc()));
}
