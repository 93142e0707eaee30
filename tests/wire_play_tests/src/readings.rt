//! Rows that say what a line is to be read as.

use script_lines::LineError;
use std::alloc::Global;
use wire_model::Event;
use wire_msg::Payload;
use wire_peer::CallKind;
use wire_play::{Line, Setup, parse_line};

/// What a line is to name.
#[derive(Clone, Copy, Debug)]
pub(crate) enum Reading<'a> {
    World(Setup),
    Open,
    Return(u64),
    /// The kind, and the bytes of the document.
    Call(u64, CallKind, &'a [u8]),
    Up(u64, usize),
    Down(u64, usize),
    Answer(u64, usize),
    CutUp(u64),
    CutDown(u64),
    Clear,
    Restart,
    RawOpen,
    Raw(u64, &'a [u8]),
    RawTake(u64, usize),
}

/// Returns true if the payload is the body alone.
fn is_body(payload: Payload<'_>, body: &[u8]) -> bool {
    payload.body().as_bytes() == body && payload.sequences().next().is_none()
}

/// Returns true if the event is this one.
fn is_event(event: Event<'_>, reading: Reading<'_>) -> bool {
    match (event, reading) {
        (Event::Open, Reading::Open) => true,
        (Event::Return(c), Reading::Return(d)) => c == d,
        (Event::Call(c, kind, payload), Reading::Call(d, other, body)) => {
            c == d && kind == other && is_body(payload, body)
        }
        (Event::Up(c, n), Reading::Up(d, m)) => c == d && n == m,
        (Event::Down(c, n), Reading::Down(d, m)) => c == d && n == m,
        (Event::Answer(c, n), Reading::Answer(d, m)) => c == d && n == m,
        (Event::CutUp(c), Reading::CutUp(d)) => c == d,
        (Event::CutDown(c), Reading::CutDown(d)) => c == d,
        (Event::Clear, Reading::Clear) => true,
        (Event::Restart, Reading::Restart) => true,
        (Event::RawOpen, Reading::RawOpen) => true,
        (Event::Raw(c, bytes), Reading::Raw(d, others)) => c == d && bytes == others,
        (Event::RawTake(c, n), Reading::RawTake(d, m)) => c == d && n == m,
        _ => false,
    }
}

/// Returns true if what was read is this.
pub(crate) fn is_reading(line: &Line, reading: Reading<'_>) -> bool {
    match (line, reading) {
        (Line::World(setup), Reading::World(other)) => *setup == other,
        (Line::Event(event), reading) => is_event(event.as_event(), reading),
        _ => false,
    }
}

/// Returns true if the line is read as `reading`.
pub(crate) fn reads(alloc: Global, line: &[u8], reading: Reading<'_>) -> bool {
    match parse_line(alloc, line) {
        Ok(line) => is_reading(&line, reading),
        Err(_) => false,
    }
}

/// Returns true if the line names nothing.
pub(crate) fn is_malformed(alloc: Global, line: &[u8]) -> bool {
    match parse_line(alloc, line) {
        Ok(_) => false,
        Err(error) => error == LineError::Malformed,
    }
}
