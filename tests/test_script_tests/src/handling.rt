//! Tests of the handler with a script, before one that answers `{}` to each request.

use bson_json_read::from_json;
use script_rules::Scripted;
use std::alloc::Global;
use test_script::parse;
use wire_msg::PayloadBuf;
use wire_peer::{Answers, Echo, Handler, HandlerStop, Request};

/// A rule of each kind of answer.
const SCRIPT: &[u8] = b"on a times 1 reply {\"r\": 1}
on a times 1 hangup
on a times 1 cutup 5
on a times 1 error 7 \"E\"
on a times 1 delay 5
on a times 1 cut 5
on a times 1 drop
on a times 1 pass";

/// The answers to `{"a": 1}`, one after another: `None` is a stop as failed.
const ANSWERS: [Option<&str>; 9] = [
    Some("{\"r\": 1}"),
    None,
    None,
    Some("{\"ok\": 0.0, \"errmsg\": \"E\", \"code\": 7, \"codeName\": \"E\"}"),
    Some("{\"a\": 1}"),
    Some("{\"a\": 1}"),
    Some("{\"a\": 1}"),
    Some("{\"a\": 1}"),
    Some("{\"a\": 1}"),
];

/// Returns the payload whose body is this Extended JSON.
fn payload(alloc: Global, body: &str) -> Option<PayloadBuf> {
    let body = from_json(alloc, body).ok()?.to_raw().ok()?;
    PayloadBuf::new(alloc, body.as_raw()).ok()
}

/// Returns true if the one answer has this body.
fn is_answer(answers: &[PayloadBuf], body: &PayloadBuf) -> bool {
    match answers {
        [answer] => { answer.as_payload().body().as_bytes() == body.as_payload().body().as_bytes() }
        _ => false,
    }
}

/// Returns true if the handler answers the request so.
fn answers_so(
    alloc: Global,
    handler: &mut Scripted<Echo>,
    request: &Request<'_>,
    answer: Option<&str>,
) -> bool {
    let mut answers = Answers::new(alloc);
    let result = handler.respond(request, &mut answers);
    match answer {
        Some(answer) => match payload(alloc, answer) {
            Some(body) => result.is_ok() && is_answer(answers.as_slice(), &body),
            None => false,
        },
        None => result == Err(HandlerStop::Failed),
    }
}

/// Returns true if the requests are answered as the script says.
fn all_answered(alloc: Global) -> bool {
    let Ok(script) = parse(alloc, SCRIPT) else {
        return false;
    };
    let Some(asked) = payload(alloc, "{\"a\": 1}") else {
        return false;
    };
    let request = Request {
        payload: asked.as_payload(),
        exhaust_allowed: false,
        more_to_come: false,
    };
    let mut handler = Scripted::new(alloc, script, Echo);
    for answer in ANSWERS {
        if !answers_so(alloc, &mut handler, &request, answer) {
            return false;
        }
    }
    true
}

#[test]
fn requests_are_answered_by_rules(rt: HostRuntime) {
    assert!(rt; all_answered(rt.alloc()));
}
