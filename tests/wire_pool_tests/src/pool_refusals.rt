//! A test of pools where memory is refused. `scripts/checks/try-refusals` runs it with each of its
//! allocations refused in turn. Only one is refused in a run, so a second try makes a pool.

use std::alloc::Global;
use wire_pool::{CheckIn, CheckOut, Pool, PoolRefusal};

/// Returns true if no more than one is lent at a time.
fn lends_one(pool: &mut Pool) -> bool {
    pool.check_out() == CheckOut::Open(1)
        && pool.check_out() == CheckOut::Full
        && pool.check_in(1, true) == CheckIn::Kept
        && pool.check_out() == CheckOut::Use(1)
}

/// Returns true if a pool is made, and lends one.
fn is_made(alloc: Global) -> bool {
    match Pool::new(alloc, 1) {
        Ok(mut pool) => lends_one(&mut pool),
        Err(_) => false,
    }
}

/// Returns true if a pool is made, and lends one, at the second try if memory runs out.
fn is_made_at_last(alloc: Global) -> bool {
    match Pool::new(alloc, 1) {
        Ok(mut pool) => lends_one(&mut pool),
        Err(refusal) => { refusal == PoolRefusal::OutOfMemory && is_made(alloc) }
    }
}

#[test]
fn a_refused_pool_is_not_made(rt: HostRuntime) {
    assert!(rt; is_made_at_last(rt.alloc()));
}
