//! Rows that say what a log is to hold.

use wire_msg::PayloadBuf;
use wire_peer::{Entry, Outcome};

/// An expected entry: the request's body, and the bodies of its answers, or `None` if it failed.
pub type Noted<'a> = (&'a [u8], Option<&'a [&'a [u8]]>);

/// Returns true if the payload is the body alone.
fn is_body(payload: &PayloadBuf, body: &[u8]) -> bool {
    payload.as_payload().body().as_bytes() == body
}

/// Returns true if the payloads are these bodies alone.
pub fn are_bodies(payloads: &[PayloadBuf], bodies: &[&[u8]]) -> bool {
    if payloads.len() != bodies.len() {
        return false;
    }
    for (payload, body) in payloads.iter().zip(bodies) {
        if !is_body(payload, body) {
            return false;
        }
    }
    true
}

/// Returns true if the outcome is these answers, or a failure if that is `None`.
fn is_outcome(outcome: &Outcome, answers: Option<&[&[u8]]>) -> bool {
    match (outcome, answers) {
        (Outcome::Answered(given), Some(bodies)) => are_bodies(given.as_slice(), bodies),
        (Outcome::Failed, None) => true,
        _ => false,
    }
}

/// Returns true if the entries are these, all of one connection.
pub fn is_log(entries: &[Entry], connection: u64, rows: &[Noted<'_>]) -> bool {
    if entries.len() != rows.len() {
        return false;
    }
    for (entry, (body, answers)) in entries.iter().zip(rows) {
        if entry.connection != connection
            || !is_body(&entry.payload, body)
            || !is_outcome(&entry.outcome, *answers)
        {
            return false;
        }
    }
    true
}
