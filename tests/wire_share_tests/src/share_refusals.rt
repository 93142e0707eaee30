//! A request that is passed on and answered where each allocation is refused in turn.

ghost use Rattle.std.specs.Prelude.{◌≤◌};

use crate::sharing::{ASKED_1, GIVEN_1, PASSED_1, REPLY_1};
use std::alloc::Global;
use wire_peer::{CallRefusal, ServerCause};
use wire_serve::{CloseCause, ConnState};
use wire_share::{Downstream, GiveRefusal, PassRefusal, Upstream};

/// Feeds a request, and feeds on where memory was refused, which has to take nothing.
fn comes(downstream: &mut Downstream) -> bool {
    let mut taken = 0;
    for _ in 0..4 {
        if let Some(rest) = ASKED_1.get(taken..) {
            taken += downstream.feed(rest).unwrap_or(0);
        }
    }
    downstream.request().is_some()
}

/// Feeds the reply, and feeds it again where memory was refused, which has to take nothing.
fn replies(upstream: &mut Upstream) -> bool {
    if upstream.feed(REPLY_1).is_ok() {
        return upstream.reply().is_some();
    }
    upstream.feed(REPLY_1) == Ok(33)
}

/// Passes the request on, once more where memory was refused, which has to put nothing out.
fn passes(downstream: &mut Downstream, upstream: &mut Upstream) -> bool {
    match downstream.pass_on(upstream) {
        Ok(()) => true,
        Err(PassRefusal::Call(CallRefusal::OutOfMemory)) => {
            upstream.output().is_empty() && downstream.pass_on(upstream) == Ok(())
        }
        Err(_) => false,
    }
}

/// Answers the request, once more where memory was refused, which has to leave the reply.
fn answers(downstream: &mut Downstream, upstream: &mut Upstream) -> bool {
    match downstream.answer(upstream) {
        Ok(()) => true,
        Err(GiveRefusal::OutOfMemory) => {
            upstream.reply().is_some() && downstream.answer(upstream) == Ok(())
        }
        Err(_) => false,
    }
}

/// Has the request come, be passed on and be answered.
fn goes_through(downstream: &mut Downstream, upstream: &mut Upstream) -> bool {
    comes(downstream)
        && passes(downstream, upstream)
        && upstream.output() == PASSED_1
        && replies(upstream)
        && answers(downstream, upstream)
}

/// Returns whether the request is answered; none if memory for its reply was refused.
fn has_answered(downstream: &mut Downstream, upstream: &mut Upstream) -> Option<bool> {
    let given = goes_through(downstream, upstream);
    match downstream.state() {
        ConnState::Closed(CloseCause::Server(ServerCause::NoMemory)) => None,
        ConnState::Open => Some(given && downstream.output() == GIVEN_1),
        ConnState::Closed(_) => Some(false),
    }
}

/// Returns whether a request is answered; none if memory for a downstream or for its reply is
/// refused. Where nothing changed by a refusal the same is done again.
fn is_answered(alloc: Global) -> Option<bool> {
    let mut downstream = Downstream::new(alloc, 1).ok()?;
    let mut upstream = Upstream::new(alloc, 5);
    has_answered(&mut downstream, &mut upstream)
}

/// Returns true if the request is answered behind a refused allocation, at the second try at last.
fn goes_on(alloc: Global) -> bool {
    match is_answered(alloc) {
        Some(holds) => holds,
        None => is_answered(alloc) == Some(true),
    }
}

#[test]
fn a_refused_allocation_loses_no_request(rt: HostRuntime) {
    assert!(rt; goes_on(rt.alloc()));
}
