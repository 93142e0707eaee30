//! Tests of what ends are after a refused allocation. `scripts/checks/try-refusals` runs them with
//! each of their allocations refused in turn. No other one is refused then, so what is asked for
//! again is granted.

use crate::links::{call_stands, client_of, one};
use crate::requests::{REQUESTS, requested};
use std::alloc::Global;
use wire_end::{CallState, ClientEnd, EndFault, Next, NextRequest, RequestFault, ServerEnd};
use wire_msg::PayloadBuf;
use wire_peer::{
    AnswerRefusal, CallKind, CallNo, CallRefusal, Echo, Logged, ReadyReply, ServerCause,
};
use wire_stream::{Flushed, MemLink};

/// The reply `{"n": 1}` to request 1.
const REPLY: &[u8; 33] =
    b"\x21\0\0\0\x05\0\0\0\x01\0\0\0\xdd\x07\0\0\0\0\0\0\0\x0c\0\0\0\x10n\0\x01\0\0\0\0";

/// What comes next: the reply to call 0.
const NEXT: Result<Next, EndFault> = Ok(Next::Reply(ReadyReply {
    call: 0,
    last: true,
}));

/// Makes a call of this kind.
fn call_as(
    end: &mut ClientEnd<MemLink>,
    kind: CallKind,
    payload: &PayloadBuf,
) -> Result<CallNo, CallRefusal> {
    match kind {
        CallKind::Plain => end.call(payload.as_payload()),
        CallKind::Exhaust => end.call_exhaust(payload.as_payload()),
        CallKind::Unacknowledged => end.send_unacknowledged(payload.as_payload()),
    }
}

/// Makes a call, and makes it again where memory was refused, which has to change nothing. Returns
/// true if it is made, with this number and the id after it.
fn calls(end: &mut ClientEnd<MemLink>, kind: CallKind, payload: &PayloadBuf, number: u8) -> bool {
    let call = CallNo {
        number: u64::from(number),
        id: i32::from(number) + 1,
    };
    let outstanding = end.outstanding();
    match call_as(end, kind, payload) {
        Err(CallRefusal::OutOfMemory) => {
            end.outstanding() == outstanding
                && end.record(call.number).is_none()
                && call_as(end, kind, payload) == Ok(call)
        }
        made => made == Ok(call),
    }
}

/// Makes a call of each kind.
fn calls_each(end: &mut ClientEnd<MemLink>, payload: &PayloadBuf) -> bool {
    calls(end, CallKind::Plain, payload, 0)
        && calls(end, CallKind::Exhaust, payload, 1)
        && calls(end, CallKind::Unacknowledged, payload, 2)
}

/// Waits for the reply, and waits again where memory was refused, which has to lose nothing.
/// Returns true if it comes.
fn comes(end: &mut ClientEnd<MemLink>) -> bool {
    match end.next_reply() {
        Err(EndFault::OutOfMemory) => end.next_reply() == NEXT,
        found => found == NEXT,
    }
}

/// Returns true if a call and its reply go on behind a refused allocation.
fn goes_on_over(end: &mut ClientEnd<MemLink>, payload: &PayloadBuf) -> bool {
    calls_each(end, payload)
        && end.flush() == Ok(Flushed::All)
        && comes(end)
        && call_stands(end, 0, 1, CallState::Done)
}

/// Returns an end over a link that gives the reply, which is made again where memory was refused.
fn made_end(alloc: Global) -> Option<ClientEnd<MemLink>> {
    match client_of(alloc, REPLY, 20) {
        None => client_of(alloc, REPLY, 20),
        made => made,
    }
}

/// Returns a payload, which is made again where memory was refused.
fn made_payload(alloc: Global) -> Option<PayloadBuf> {
    match one(alloc) {
        None => one(alloc),
        made => made,
    }
}

/// Returns true if a call with a payload, which is made again where memory was refused, and its reply
/// go on.
fn goes_on_at(alloc: Global, end: &mut ClientEnd<MemLink>) -> bool {
    match made_payload(alloc) {
        Some(payload) => goes_on_over(end, &payload),
        None => false,
    }
}

/// Returns true if a call and its reply go on behind a refused allocation.
fn goes_on(alloc: Global) -> bool {
    let Some(mut end) = made_end(alloc) else {
        return false;
    };
    let holds = goes_on_at(alloc, &mut end);
    drop(end);
    holds
}

#[test]
fn a_refused_allocation_loses_nothing(rt: HostRuntime) {
    assert!(rt; goes_on(rt.alloc()));
}

/// Waits for a request, and waits again where memory was refused, which has to lose nothing.
/// Returns true if it comes.
fn request_comes(end: &mut ServerEnd<MemLink>) -> bool {
    match end.next_request() {
        Err(RequestFault::OutOfMemory) => end.next_request() == Ok(NextRequest::Waits),
        found => found == Ok(NextRequest::Waits),
    }
}

/// Returns whether a request comes and is answered; none if memory for its replies is refused. Where
/// nothing changed by a refusal the same is done again.
fn is_answered_over(end: &mut ServerEnd<MemLink>, logged: &mut Logged<Echo>) -> Option<bool> {
    if !request_comes(end) {
        return Some(false);
    }
    match end.answer(0, logged) {
        Ok(number) => Some(number == 0 && end.waiting() == 0),
        Err(AnswerRefusal::OutOfMemory) => Some(end.answer(0, logged) == Ok(0)),
        Err(AnswerRefusal::NowClosed(ServerCause::NoMemory)) => None,
        Err(_) => Some(false),
    }
}

/// Returns the same of a new end; none, too, if memory for that is refused.
fn is_answered(alloc: Global) -> Option<bool> {
    let mut end = requested(alloc, &REQUESTS[..33], 20, 1)?;
    let holds = is_answered_over(&mut end, &mut Logged::new(alloc, Echo));
    drop(end);
    holds
}

/// Returns true if a request is answered behind a refused allocation, at the second try at last.
fn server_goes_on(alloc: Global) -> bool {
    match is_answered(alloc) {
        Some(holds) => holds,
        None => is_answered(alloc) == Some(true),
    }
}

#[test]
fn a_refused_allocation_loses_no_request(rt: HostRuntime) {
    assert!(rt; server_goes_on(rt.alloc()));
}
