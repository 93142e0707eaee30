//! Tests of what handlers answer: rows of bodies and flags, and the answers.

use bson_raw::RawDocument;
use std::alloc::Global;
use wire_msg::PayloadBuf;
use wire_peer::{Answers, Count, Echo, Handler, HandlerStop, Request, StopAt};

/// `{"s": 3}`.
const THREE: &[u8] = b"\x0c\0\0\0\x10s\0\x03\0\0\0\0";

/// Bodies, whether the request allows more replies, whether it wants none, and up to which number
/// is counted.
const COUNTED: [(&[u8], bool, bool, u8); 11] = [
    (b"\x0c\0\0\0\x10s\0\x01\0\0\0\0", true, false, 1),
    (b"\x0c\0\0\0\x10s\0\x03\0\0\0\0", true, false, 3),
    (b"\x0c\0\0\0\x10s\0\x64\0\0\0\0", true, false, 100),
    (b"\x0c\0\0\0\x10s\0\x65\0\0\0\0", true, false, 0),
    (b"\x0c\0\0\0\x10s\0\0\0\0\0\0", true, false, 0),
    (b"\x0c\0\0\0\x10s\0\xff\xff\xff\xff\0", true, false, 0),
    (b"\x0c\0\0\0\x10a\0\x03\0\0\0\0", true, false, 0),
    (b"\x10\0\0\0\x12s\0\x03\0\0\0\0\0\0\0\0", true, false, 0),
    (b"\x05\0\0\0\0", true, false, 0),
    (b"\x0c\0\0\0\x10s\0\x03\0\0\0\0", false, false, 0),
    (b"\x0c\0\0\0\x10s\0\x03\0\0\0\0", true, true, 0),
];

/// Returns a payload of the document alone that these bytes spell.
fn payload_of(alloc: Global, body: &[u8]) -> Option<PayloadBuf> {
    let body = RawDocument::from_bytes(body).ok()?;
    PayloadBuf::new(alloc, body).ok()
}

/// Returns true if the body of the answer is `{"n": number}`.
fn is_number(answer: &PayloadBuf, number: u8) -> bool {
    let body = [12, 0, 0, 0, 16, 110, 0, number, 0, 0, 0, 0];
    answer.as_payload().body().as_bytes() == body.as_slice()
}

/// Returns true if the answers are those that count up to this number.
fn count_to(answers: &[PayloadBuf], number: u8) -> bool {
    if number == 0 {
        return match answers {
            [answer] => is_number(answer, 0),
            _ => false,
        };
    }
    let mut next = 0u8;
    for answer in answers {
        if next >= number {
            return false;
        }
        next += 1;
        if !is_number(answer, next) {
            return false;
        }
    }
    next == number
}

/// Returns true if the answers to a request with this payload count up to this number.
fn is_counted(
    alloc: Global,
    payload: &PayloadBuf,
    exhaust_allowed: bool,
    more_to_come: bool,
    number: u8,
) -> bool {
    let request = Request {
        payload: payload.as_payload(),
        exhaust_allowed,
        more_to_come,
    };
    let mut answers = Answers::new(alloc);
    Count.respond(&request, &mut answers) == Ok(()) && count_to(answers.as_slice(), number)
}

/// Like `is_counted`, with the payload made of the body.
fn counts(
    alloc: Global,
    body: &[u8],
    exhaust_allowed: bool,
    more_to_come: bool,
    number: u8,
) -> bool {
    match payload_of(alloc, body) {
        Some(payload) => is_counted(alloc, &payload, exhaust_allowed, more_to_come, number),
        None => false,
    }
}

#[test]
fn the_field_s_is_counted(rt: HostRuntime) {
    for (body, exhaust_allowed, more_to_come, number) in &COUNTED {
        assert!(rt;
            counts(rt.alloc(), body, *exhaust_allowed, *more_to_come, *number),
            "{body:?}"
        );
    }
}

/// Returns true if the only answer is the payload.
fn is_alone(answers: &[PayloadBuf], payload: &PayloadBuf) -> bool {
    match answers {
        [answer] => answer == payload,
        _ => false,
    }
}

/// Returns true if the handler answers the request with its own payload.
fn echoes<H: Handler>(alloc: Global, handler: &mut H, payload: &PayloadBuf) -> bool {
    let request = Request {
        payload: payload.as_payload(),
        exhaust_allowed: false,
        more_to_come: false,
    };
    let mut answers = Answers::new(alloc);
    handler.respond(&request, &mut answers) == Ok(()) && is_alone(answers.as_slice(), payload)
}

/// Returns true if the handler stops at the request, and why.
fn stops<H: Handler>(
    alloc: Global,
    handler: &mut H,
    payload: &PayloadBuf,
    stop: HandlerStop,
) -> bool {
    let request = Request {
        payload: payload.as_payload(),
        exhaust_allowed: false,
        more_to_come: false,
    };
    let mut answers = Answers::new(alloc);
    handler.respond(&request, &mut answers) == Err(stop)
}

/// Returns true if `Echo` answers with the payload, and a `StopAt` over it stops at its second
/// request only.
fn echo_echoes(alloc: Global, stop: HandlerStop) -> bool {
    let Some(payload) = payload_of(alloc, THREE) else {
        return false;
    };
    let mut handler = StopAt::new(Echo, 1, stop);
    echoes(alloc, &mut Echo, &payload)
        && echoes(alloc, &mut handler, &payload)
        && stops(alloc, &mut handler, &payload, stop)
        && echoes(alloc, &mut handler, &payload)
}

#[test]
fn one_request_is_stopped(rt: HostRuntime) {
    assert!(rt; echo_echoes(rt.alloc(), HandlerStop::Failed));
    assert!(rt; echo_echoes(rt.alloc(), HandlerStop::OutOfMemory));
}
