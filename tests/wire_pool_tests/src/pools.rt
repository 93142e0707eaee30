//! Tests of a pool: which connections it lends, keeps and drops, and the ids that it gives.

use std::alloc::Global;
use wire_pool::{CheckIn, CheckOut, Pool, PoolRefusal};

/// A call of a pool, with what it answers.
#[derive(Clone, Copy, Debug)]
enum Step {
    Out(CheckOut),
    In(u64, bool, CheckIn),
    Draw(u64),
    Clear,
    Close,
    Reset,
}

/// A pool of 1.
const ONE: [Step; 12] = [
    Step::Out(CheckOut::Open(1)),
    Step::Out(CheckOut::Full),
    Step::In(1, true, CheckIn::Kept),
    Step::Out(CheckOut::Use(1)),
    Step::Clear,
    Step::In(1, true, CheckIn::Dropped),
    Step::Out(CheckOut::Open(2)),
    Step::In(1, true, CheckIn::NotLent),
    Step::Close,
    Step::Out(CheckOut::PoolClosed),
    Step::In(2, true, CheckIn::Dropped),
    Step::Out(CheckOut::PoolClosed),
];

/// A pool of 3: the connection that came back last goes first, and one that isn't healthy is
/// dropped.
const THREE: [Step; 15] = [
    Step::Out(CheckOut::Open(1)),
    Step::Out(CheckOut::Open(2)),
    Step::Out(CheckOut::Open(3)),
    Step::Out(CheckOut::Full),
    Step::In(3, true, CheckIn::Kept),
    Step::In(1, true, CheckIn::Kept),
    Step::In(2, false, CheckIn::Dropped),
    Step::Out(CheckOut::Use(1)),
    Step::Out(CheckOut::Use(3)),
    Step::Out(CheckOut::Open(4)),
    Step::In(4, true, CheckIn::Kept),
    Step::Clear,
    Step::Out(CheckOut::Open(5)),
    Step::In(5, true, CheckIn::Kept),
    Step::Out(CheckOut::Use(5)),
];

/// A pool of 1: ids that are drawn are lent by no call, and a reset keeps the next id.
const DRAWN: [Step; 13] = [
    Step::Draw(1),
    Step::Out(CheckOut::Open(2)),
    Step::Draw(3),
    Step::In(3, true, CheckIn::NotLent),
    Step::Reset,
    Step::In(2, true, CheckIn::NotLent),
    Step::Out(CheckOut::Open(4)),
    Step::In(4, true, CheckIn::Kept),
    Step::Reset,
    Step::Out(CheckOut::Open(5)),
    Step::Close,
    Step::Draw(6),
    Step::Out(CheckOut::PoolClosed),
];

/// Returns true if the call has the answer of `step`.
fn answers(pool: &mut Pool, step: Step) -> bool {
    match step {
        Step::Out(answer) => pool.peek() == answer && pool.check_out() == answer,
        Step::In(id, healthy, answer) => {
            pool.is_lent(id) == (answer != CheckIn::NotLent)
                && pool.check_in(id, healthy) == answer
                && (answer != CheckIn::Kept || pool.idle().front() == Some(&id))
        }
        Step::Draw(id) => pool.next_id() == Some(id) && pool.draw() == Some(id),
        Step::Clear => {
            pool.clear();
            true
        }
        Step::Close => {
            pool.close();
            true
        }
        Step::Reset => {
            pool.reset();
            true
        }
    }
}

/// Returns true if each call in turn has its answer.
fn answer_all(pool: &mut Pool, steps: &[Step]) -> bool {
    for step in steps {
        if !answers(pool, *step) {
            return false;
        }
    }
    true
}

/// Returns true if a pool of at most `max` connections is made, and each call has its answer.
fn holds(alloc: Global, max: usize, steps: &[Step]) -> bool {
    match Pool::new(alloc, max) {
        Ok(mut pool) => answer_all(&mut pool, steps),
        Err(_) => false,
    }
}

#[test]
fn a_pool_of_one_lends_one(rt: HostRuntime) {
    assert!(rt; holds(rt.alloc(), 1, &ONE));
}

#[test]
fn the_last_one_back_goes_first(rt: HostRuntime) {
    assert!(rt; holds(rt.alloc(), 3, &THREE));
}

#[test]
fn drawn_ids_are_never_lent(rt: HostRuntime) {
    assert!(rt; holds(rt.alloc(), 1, &DRAWN));
}

/// Returns true if a pool of at most `max` connections is refused as `BadMax`.
fn is_refused(alloc: Global, max: usize) -> bool {
    match Pool::new(alloc, max) {
        Ok(_) => false,
        Err(refusal) => refusal == PoolRefusal::BadMax,
    }
}

#[test]
fn a_pool_has_1_to_1024(rt: HostRuntime) {
    assert!(rt; is_refused(rt.alloc(), 0));
    assert!(rt; is_refused(rt.alloc(), 1025));
    assert!(rt; holds(rt.alloc(), 1024, &DRAWN[..2]));
}
