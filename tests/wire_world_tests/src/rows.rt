//! Rows that say what a run of events is to come to.

use bson_raw::RawDocument;
use std::alloc::Global;
use wire_msg::PayloadBuf;
use wire_peer::{Answers, Entry, Handler, Outcome, ServerCause};
use wire_world::{CallRecord, CallState, Event, Report, World, WorldLimits, WorldRefusal};

/// `{"a": 1}`.
pub(crate) const ONE: &[u8] = b"\x0c\0\0\0\x10a\0\x01\0\0\0\0";

/// `{"a": 2}`.
pub(crate) const TWO: &[u8] = b"\x0c\0\0\0\x10a\0\x02\0\0\0\0";

/// `{"ping": 1, "$db": "admin"}`.
pub(crate) const PING: &[u8] = b"\x1e\0\0\0\x10ping\0\x01\0\0\0\x02$db\0\x06\0\0\0admin\0\0";

/// `{"s": 3}`.
pub(crate) const THREE: &[u8] = b"\x0c\0\0\0\x10s\0\x03\0\0\0\0";

/// How an event is to end.
#[derive(Clone, Copy, Debug)]
pub(crate) enum End<'a> {
    Opened(u64, bool),
    Kept,
    Dropped,
    Called(usize, i32),
    Moved(usize),
    Entry(usize),
    ClosedBy(ServerCause),
    Done,
    RawOpened(u64),
    RawMoved(usize, Option<ServerCause>),
    Bytes(&'a [u8]),
    Refused(WorldRefusal),
}

/// An expected call: its connection, its state, and the bodies of its parts.
pub(crate) type Standing<'a> = (u64, CallState, &'a [&'a [u8]]);

/// An expected entry: its connection, how many answers it has, or `None` if it failed, and the
/// request's body.
pub(crate) type Logging<'a> = (u64, Option<usize>, &'a [u8]);

/// Returns limits with this first id, and otherwise ample ones.
pub(crate) fn ample(first_id: i32) -> WorldLimits {
    WorldLimits {
        first_id,
        window: 8,
        connections: 8,
        limit: 48_000_000,
    }
}

/// Returns a payload of the document alone that these bytes spell.
pub(crate) fn payload_of(alloc: Global, body: &[u8]) -> Option<PayloadBuf> {
    let body = RawDocument::from_bytes(body).ok()?;
    PayloadBuf::new(alloc, body).ok()
}

/// Returns true if the payload is the body alone.
fn is_body(payload: &PayloadBuf, body: &[u8]) -> bool {
    payload.as_payload().body().as_bytes() == body
}

/// Returns true if the report is this one.
fn is_report(report: &Report, end: End<'_>) -> bool {
    match (report, end) {
        (Report::Opened { connection, new }, End::Opened(c, is_new)) => {
            *connection == c && *new == is_new
        }
        (Report::Kept, End::Kept) => true,
        (Report::Dropped, End::Dropped) => true,
        (Report::Called { call, id }, End::Called(index, request)) => {
            *call == index && *id == request
        }
        (Report::Moved(moved), End::Moved(n)) => *moved == n,
        (Report::Entry(entry), End::Entry(n)) => *entry == n,
        (Report::ClosedBy(cause), End::ClosedBy(why)) => *cause == why,
        (Report::Done, End::Done) => true,
        (Report::RawOpened(connection), End::RawOpened(c)) => *connection == c,
        (Report::RawMoved { moved, closed }, End::RawMoved(n, why)) => {
            *moved == n && *closed == why
        }
        (Report::Bytes(bytes), End::Bytes(taken)) => bytes.as_slice() == taken,
        _ => false,
    }
}

/// Returns true if the event ended as `end` says.
pub(crate) fn ends_so(ended: &Result<Report, WorldRefusal>, end: End<'_>) -> bool {
    match ended {
        Ok(report) => is_report(report, end),
        Err(refusal) => match end {
            End::Refused(why) => *refusal == why,
            _ => false,
        },
    }
}

/// Makes the events happen, one after another, up to the first that doesn't end as it should.
/// Returns how many ended so.
pub(crate) fn good_steps<H: Handler + Drop>(
    world: &mut World<H>,
    steps: &[(Event<'_>, End<'_>)],
) -> usize {
    let mut good = 0usize;
    for step in steps {
        if !ends_so(&world.step(&step.0), step.1) {
            return good;
        }
        if good < steps.len() {
            good += 1;
        }
    }
    good
}

/// Returns true if the parts are these bodies.
fn are_parts(parts: &[PayloadBuf], bodies: &[&[u8]]) -> bool {
    if parts.len() != bodies.len() {
        return false;
    }
    for (part, body) in parts.iter().zip(bodies.iter()) {
        if !is_body(part, body) {
            return false;
        }
    }
    true
}

/// Returns true if the calls are those of the rows.
pub(crate) fn calls_stand(calls: &[CallRecord], rows: &[Standing<'_>]) -> bool {
    if calls.len() != rows.len() {
        return false;
    }
    for (call, (connection, state, parts)) in calls.iter().zip(rows.iter()) {
        if call.connection != *connection
            || call.state != *state
            || !are_parts(&call.parts, parts)
        {
            return false;
        }
    }
    true
}

/// Returns how many answers there are.
fn count_of(answers: &Answers) -> usize {
    answers.as_slice().len()
}

/// Returns true if the entries of the log are those of the rows.
pub(crate) fn log_stands(log: &[Entry], rows: &[Logging<'_>]) -> bool {
    if log.len() != rows.len() {
        return false;
    }
    for (entry, (connection, count, body)) in log.iter().zip(rows.iter()) {
        let answers = match &entry.outcome {
            Outcome::Answered(answers) => Some(count_of(answers)),
            Outcome::Failed => None,
        };
        if entry.connection != *connection || answers != *count || !is_body(&entry.payload, body) {
            return false;
        }
    }
    true
}
