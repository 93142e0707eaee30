//! Tests of scripts where memory is refused. `scripts/checks/try-refusals` runs them with each of
//! their allocations refused in turn. Only one is refused in a run, so what is tried again goes
//! through.

use bson_raw::RawDocument;
use script_rules::{Script, Scripted};
use std::alloc::Global;
use test_script::{Cause, parse};
use wire_msg::PayloadBuf;
use wire_peer::{Answers, Echo, Handler, HandlerStop, Request};

/// `{"a": 1}`.
const ONE: &[u8] = b"\x0c\0\0\0\x10a\0\x01\0\0\0\0";

/// A script in which each form takes memory.
const SCRIPT: &[u8] = b"on a {\"a\": 1} times 1 error 1 \"One\"\non * reply {\"b\": \"c\"}";

/// Reads the script, at the second try if memory runs out.
fn read_at_last(alloc: Global) -> Option<Script> {
    match parse(alloc, SCRIPT) {
        Ok(script) => Some(script),
        Err(fault) if fault.cause == Cause::OutOfMemory => parse(alloc, SCRIPT).ok(),
        Err(_) => None,
    }
}

/// Returns a payload of `ONE` alone, made at the second try if memory runs out.
fn one(alloc: Global) -> Option<PayloadBuf> {
    let body = RawDocument::from_bytes(ONE).ok()?;
    match PayloadBuf::new(alloc, body) {
        Ok(payload) => Some(payload),
        Err(_) => PayloadBuf::new(alloc, body).ok(),
    }
}

/// Returns the index of the rule that `ONE` meets, at the second try if memory runs out.
fn meets_at_last(alloc: Global, script: &mut Script, one: &PayloadBuf) -> Option<usize> {
    match script.meet(alloc, one.as_payload()) {
        Ok(found) => found,
        Err(_) => match script.meet(alloc, one.as_payload()) {
            Ok(found) => found,
            Err(_) => None,
        },
    }
}

/// Returns true if `ONE` meets the first rule once, and then the second one.
fn meets_both(alloc: Global) -> bool {
    let Some(mut script) = read_at_last(alloc) else {
        return false;
    };
    let Some(one) = one(alloc) else {
        return false;
    };
    meets_at_last(alloc, &mut script, &one) == Some(0)
        && meets_at_last(alloc, &mut script, &one) == Some(1)
}

#[test]
fn a_refused_request_uses_no_rule(rt: HostRuntime) {
    assert!(rt; meets_both(rt.alloc()));
}

/// Returns true if the request is answered with one answer.
fn is_answered(alloc: Global, handler: &mut Scripted<Echo>, request: &Request<'_>) -> bool {
    let mut answers = Answers::new(alloc);
    match handler.respond(request, &mut answers) {
        Ok(()) => answers.as_slice().len() == 1,
        Err(HandlerStop::OutOfMemory) => {
            let mut answers = Answers::new(alloc);
            handler.respond(request, &mut answers).is_ok() && answers.as_slice().len() == 1
        }
        Err(HandlerStop::Failed) => false,
    }
}

/// Returns true if `ONE` is answered twice, each time at the second try if memory runs out.
fn answers_each(alloc: Global) -> bool {
    let Some(script) = read_at_last(alloc) else {
        return false;
    };
    let Some(one) = one(alloc) else {
        return false;
    };
    let request = Request {
        payload: one.as_payload(),
        exhaust_allowed: false,
        more_to_come: false,
    };
    let mut handler = Scripted::new(alloc, script, Echo);
    is_answered(alloc, &mut handler, &request) && is_answered(alloc, &mut handler, &request)
}

#[test]
fn a_refused_request_is_answered_later(rt: HostRuntime) {
    assert!(rt; answers_each(rt.alloc()));
}
