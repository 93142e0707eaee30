//! Tests of which rule a request meets, and what that does.

use bson_doc::Document;
use bson_json_read::from_json;
use script_rules::{Action, Flow, Script};
use std::alloc::Global;
use wire_msg::PayloadBuf;

/// Rules of each form.
const FORMS: &[u8] = b"# of each form\r
on ping pass\r
\r
on hello reply {\"ok\": 1.0, \"me\": \"{ \\\" }\"}
on  find  {\"find\": \"a}\", \"filter.n\": {\"$gt\": 3}}  times 2   error 10107 \"NotPrimary\"
on find 110000000266696e640002000000620000 times 1 drop
on insert 1500000002696e7365727400040000006162630000 delay 20
on insert times 0 hangup
on insert times 1 cut 16
on insert times 1 cutup 7
on insert hangup
on * {\"comment\": \"x\"} times 1 reply 0500000000
on * {} times 1 delay 18446744073709551615";

/// A row for each request, one after another: it, and the index of the rule that it meets, or `-` for
/// none.
const REQUESTS: &str = r#"{"ping": 1} | 0
{"hello": 1} | 1
{"find": "a}", "filter": {"n": 4}} | 2
{"find": "a}", "filter": {"n": 3}} | 10
{"find": "a}", "filter": {"n": 5}} | 2
{"find": "a}", "filter": {"n": 6}} | -
{"find": "b"} | 3
{"find": "b"} | -
{"insert": "abc"} | 4
{"insert": "abc"} | 4
{"insert": "b"} | 6
{"insert": "b"} | 7
{"insert": "b"} | 8
{"insert": "b"} | 8
{"count": "c", "comment": "x"} | 9
{"count": "c", "comment": "x"} | -
{"Ping": 1} | -"#;

/// What becomes of the reply by each of the rules.
const FLOWS: [Flow; 11] = [
    Flow::Whole,
    Flow::Whole,
    Flow::Whole,
    Flow::Dropped,
    Flow::Held(20),
    Flow::Whole,
    Flow::Cut(16),
    Flow::Whole,
    Flow::Whole,
    Flow::Whole,
    Flow::Held(18_446_744_073_709_551_615),
];

/// The answers of the rules that have one.
const ANSWERS: [(usize, &str); 3] = [
    (1, "{\"ok\": 1.0, \"me\": \"{ \\\" }\"}"),
    (
        2,
        "{\"ok\": 0.0, \"errmsg\": \"NotPrimary\", \"code\": 10107, \"codeName\": \"NotPrimary\"}",
    ),
    (9, "{}"),
];

/// Returns the script of `FORMS`.
fn forms(alloc: Global) -> Option<Script> {
    test_script::parse(alloc, FORMS).ok()
}

/// Returns the payload whose body is this Extended JSON.
fn payload(alloc: Global, body: &str) -> Option<PayloadBuf> {
    let body = from_json(alloc, body).ok()?.to_raw().ok()?;
    PayloadBuf::new(alloc, body.as_raw()).ok()
}

/// Returns true if the request of a row meets its rule.
fn meets(alloc: Global, script: &mut Script, row: &str) -> Option<bool> {
    let (request, wanted) = row.split_once(" | ")?;
    let request = payload(alloc, request)?;
    let found = match script.meet(alloc, request.as_payload()).ok()? {
        Some(rule) => format!(in alloc; "{rule}"),
        None => String::from_str(alloc, "-"),
    };
    Some(found.ok()?.as_str() == wanted)
}

/// Returns true if each request meets the rule of its row.
fn all_meet(alloc: Global) -> bool {
    let Some(mut script) = forms(alloc) else {
        return false;
    };
    for row in REQUESTS.split('\n') {
        if meets(alloc, &mut script, row) != Some(true) {
            return false;
        }
    }
    true
}

/// Returns true if the rule answers with this document.
fn answers(alloc: Global, script: &Script, rule: usize, answer: &str) -> bool {
    match (script.action(Some(rule)), from_json(alloc, answer)) {
        (Some(Action::Reply(own)), Ok(answer)) => is_same(own, &answer),
        _ => false,
    }
}

/// Returns true if the two documents have the same bytes.
fn is_same(a: &Document, b: &Document) -> bool {
    match (a.to_raw(), b.to_raw()) {
        (Ok(a), Ok(b)) => a.as_raw().as_bytes() == b.as_raw().as_bytes(),
        _ => false,
    }
}

/// Returns true if the rule cuts the request behind so many bytes.
fn cuts_up(script: &Script, rule: usize, bytes: u64) -> bool {
    match script.action(Some(rule)) {
        Some(Action::CutUp(count)) => *count == bytes,
        _ => false,
    }
}

/// Returns true if the rules have these flows, in order, and there are no more.
fn have_flows(script: &Script) -> bool {
    for (i, flow) in FLOWS.iter().enumerate() {
        if script.action(Some(i)).is_none() || script.flow(Some(i)) != *flow {
            return false;
        }
    }
    script.action(Some(FLOWS.len())).is_none()
}

/// Returns true if the rules are read, and have their flows and answers.
fn are_read(alloc: Global) -> bool {
    let Some(script) = forms(alloc) else {
        return false;
    };
    for (rule, answer) in ANSWERS {
        if !answers(alloc, &script, rule, answer) {
            return false;
        }
    }
    cuts_up(&script, 7, 7) && have_flows(&script)
}

#[test]
fn requests_meet_the_first_live_rule(rt: HostRuntime) {
    assert!(rt; all_meet(rt.alloc()));
}

#[test]
fn rules_of_each_form(rt: HostRuntime) {
    assert!(rt; are_read(rt.alloc()));
}
