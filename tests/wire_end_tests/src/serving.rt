//! Tests of serving a connection over a link in memory: whole, in pieces, cut short, at fault, and
//! with one call that fails.

ghost use Rattle.std.specs.Prelude.{◌≤◌};
ghost use Rattle.wire_end.specs.{IsUnused};

use crate::links::{link_of, server_over};
use std::alloc::Global;
use wire_end::{ServeEnd, ServerEnd};
use wire_msg::{MsgCause, MsgFault};
use wire_peer::{Count, Echo, Handler, HandlerStop, Logged, StopAt};
use wire_stream::MemLink;

/// A ping as request 1, and the same with moreToCome.
const PINGS: &[u8] =
    b"\x33\0\0\0\x01\0\0\0\0\0\0\0\xdd\x07\0\0\0\0\0\0\0\x1e\0\0\0\x10ping\0\x01\0\0\0\x02$db\0\x06\0\0\0admin\0\0\x33\0\0\0\x01\0\0\0\0\0\0\0\xdd\x07\0\0\x02\0\0\0\0\x1e\0\0\0\x10ping\0\x01\0\0\0\x02$db\0\x06\0\0\0admin\0\0";

/// The same without its last byte.
const CUT_PINGS: &[u8] =
    b"\x33\0\0\0\x01\0\0\0\0\0\0\0\xdd\x07\0\0\0\0\0\0\0\x1e\0\0\0\x10ping\0\x01\0\0\0\x02$db\0\x06\0\0\0admin\0\0\x33\0\0\0\x01\0\0\0\0\0\0\0\xdd\x07\0\0\x02\0\0\0\0\x1e\0\0\0\x10ping\0\x01\0\0\0\x02$db\0\x06\0\0\0admin\0";

/// The ping as the answer to request 1, with id 1.
const REPLY: &[u8; 51] =
    b"\x33\0\0\0\x01\0\0\0\x01\0\0\0\xdd\x07\0\0\0\0\0\0\0\x1e\0\0\0\x10ping\0\x01\0\0\0\x02$db\0\x06\0\0\0admin\0\0";

/// The ping, and then the same with opcode 2004.
const OTHER_OPCODE: &[u8] =
    b"\x33\0\0\0\x01\0\0\0\0\0\0\0\xdd\x07\0\0\0\0\0\0\0\x1e\0\0\0\x10ping\0\x01\0\0\0\x02$db\0\x06\0\0\0admin\0\0\x33\0\0\0\x01\0\0\0\0\0\0\0\xd4\x07\0\0\0\0\0\0\0\x1e\0\0\0\x10ping\0\x01\0\0\0\x02$db\0\x06\0\0\0admin\0\0";

/// Request 7 with exhaustAllowed and the body `{"s": 3}`.
const COUNT_TO_3: &[u8; 33] =
    b"\x21\0\0\0\x07\0\0\0\0\0\0\0\xdd\x07\0\0\0\0\x01\0\0\x0c\0\0\0\x10s\0\x03\0\0\0\0";

/// The answers `{"n": 1}`, `{"n": 2}` and `{"n": 3}` to request 7, with ids 1 to 3; each after the
/// first answers the one before it, and all but the last have moreToCome.
const COUNTED: &[u8; 99] =
    b"\x21\0\0\0\x01\0\0\0\x07\0\0\0\xdd\x07\0\0\x02\0\0\0\0\x0c\0\0\0\x10n\0\x01\0\0\0\0\x21\0\0\0\x02\0\0\0\x01\0\0\0\xdd\x07\0\0\x02\0\0\0\0\x0c\0\0\0\x10n\0\x02\0\0\0\0\x21\0\0\0\x03\0\0\0\x02\0\0\0\xdd\x07\0\0\0\0\0\0\0\x0c\0\0\0\x10n\0\x03\0\0\0\0";

/// Request 1 with the empty document.
const EMPTY: &[u8; 26] = b"\x1a\0\0\0\x01\0\0\0\0\0\0\0\xdd\x07\0\0\0\0\0\0\0\x05\0\0\0\0";

/// The expected outcome of serving: its end, how many entries the log has then, and what was sent.
#[derive(Clone, Copy)]
struct Outcome {
    end: ServeEnd,
    entries: usize,
    sent: &'static [u8],
}

/// Returns true if serving at this end has this `outcome`.
fn serves<H: Handler>(
    end: &mut ServerEnd<MemLink>,
    logged: &mut Logged<H>,
    budget: u64,
    outcome: Outcome,
) -> bool
    requires { IsUnused end.old }
{
    end.serve(logged, budget) == outcome.end
        && logged.entries().len() == outcome.entries
        && end.link().sent_bytes() == outcome.sent
}

/// Returns true if serving over `link` with this handler has this `outcome`.
fn comes_to<H: Handler + Drop>(
    alloc: Global,
    link: MemLink,
    handler: H,
    limit: u32,
    budget: u64,
    outcome: Outcome,
) -> bool {
    let Some(mut end) = server_over(alloc, link, 1, limit) else {
        return false;
    };
    let mut logged = Logged::new(alloc, handler);
    let holds = serves(&mut end, &mut logged, budget, outcome);
    drop(end);
    holds
}

/// Returns true if serving these bytes with `Echo`, in pieces of at most `most` bytes, ends by `end`
/// with this number of entries. The reply to the first ping was sent if there are any.
fn echoes(
    alloc: Global,
    input: &[u8],
    most: usize,
    budget: u64,
    end: ServeEnd,
    entries: usize,
) -> bool {
    let outcome = Outcome {
        end,
        entries,
        sent: if entries > 0 { REPLY } else { b"" },
    };
    match link_of(alloc, input) {
        Some(link) => {
            let link = link.moving_at_most(most.max(1));
            comes_to(alloc, link, Echo, 48_000_000, budget, outcome)
        }
        None => false,
    }
}

const FAULT: ServeEnd = ServeEnd::Fault(MsgFault {
    at: 12,
    cause: MsgCause::Opcode(2004),
});

/// What is served with `Echo`, the most bytes that a call of the link moves, the most messages that
/// are answered, how serving ends, and how many entries the log has then: a message that is cut,
/// none, and one at fault get no answer.
const ECHOED: [(&[u8], usize, u64, ServeEnd, usize); 13] = [
    (PINGS, 102, 10, ServeEnd::Ended, 2),
    (PINGS, 51, 10, ServeEnd::Ended, 2),
    (PINGS, 7, 10, ServeEnd::Ended, 2),
    (PINGS, 1, 10, ServeEnd::Ended, 2),
    (PINGS, 102, 1, ServeEnd::Budget, 1),
    (PINGS, 51, 1, ServeEnd::Budget, 1),
    (PINGS, 7, 1, ServeEnd::Budget, 1),
    (PINGS, 1, 1, ServeEnd::Budget, 1),
    (CUT_PINGS, 102, 10, ServeEnd::EndedInside, 1),
    (CUT_PINGS, 1, 10, ServeEnd::EndedInside, 1),
    (b"", 1, 10, ServeEnd::Ended, 0),
    (OTHER_OPCODE, 102, 10, FAULT, 1),
    (OTHER_OPCODE, 1, 10, FAULT, 1),
];

#[test]
fn pings_are_answered(rt: HostRuntime) {
    for (input, most, budget, end, entries) in &ECHOED {
        assert!(rt;
            echoes(rt.alloc(), input, *most, *budget, *end, *entries),
            "{most}, {budget}"
        );
    }
}

/// Returns a link that gives the pings, in pieces of at most `most` bytes, and whose call after
/// `calls` others fails.
fn failing_link(alloc: Global, most: usize, calls: u64) -> Option<MemLink> {
    match link_of(alloc, PINGS) {
        Some(link) => Some(link.moving_at_most(most.max(1)).failing_after(calls)),
        None => None,
    }
}

/// Returns how many bytes of the reply were sent; none if others were.
fn sent_of(end: &ServerEnd<MemLink>) -> Option<usize> {
    let sent = end.link().sent_bytes();
    if REPLY.starts_with(sent) {
        Some(sent.len())
    } else {
        None
    }
}

/// Serves at most `budget` pings over such a link. Returns how many bytes of the reply were sent;
/// none if serving ends otherwise than by `why`.
fn failing(alloc: Global, most: usize, calls: u64, budget: u64, why: ServeEnd) -> Option<usize> {
    let link = failing_link(alloc, most, calls)?;
    let mut end = server_over(alloc, link, 1, 48_000_000)?;
    let ended = end.serve(&mut Logged::new(alloc, Echo), budget);
    let sent = sent_of(&end);
    drop(end);
    if ended == why { sent } else { None }
}

/// The most bytes that a call moves, the most pings that are answered, the calls before the one that
/// fails, how serving then ends, and how much of the reply was sent.
const FAILED_CALLS: [(usize, u64, u64, ServeEnd, usize); 9] = [
    (102, 10, 0, ServeEnd::Link, 0),
    (102, 10, 1, ServeEnd::Link, 0),
    (102, 10, 2, ServeEnd::Link, 51),
    (102, 10, 3, ServeEnd::Ended, 51),
    (51, 10, 2, ServeEnd::Link, 51),
    (51, 1, 2, ServeEnd::Budget, 51),
    (20, 10, 4, ServeEnd::Link, 20),
    (20, 10, 5, ServeEnd::Link, 40),
    (20, 10, 6, ServeEnd::Link, 51),
];

#[test]
fn replies_are_sent_before_the_next_message_is_taken(rt: HostRuntime) {
    for (most, budget, calls, end, count) in &FAILED_CALLS {
        let sent = failing(rt.alloc(), *most, *calls, *budget, *end);
        assert!(rt; sent == Some(*count), "{most}, {calls}");
    }
}

/// The most bytes that a call of the link moves, and how many calls serving the pings then makes.
const CALLS: [(usize, u64); 4] = [(102, 3), (51, 4), (20, 10), (1, 154)];

/// Returns true if serving the pings makes `calls` calls of the link, and ends at the one that fails,
/// whichever it is. Each time a beginning of the reply was sent.
fn each_may_fail(alloc: Global, most: usize, calls: u64) -> bool {
    for before in 0..calls {
        if failing(alloc, most, before, 10, ServeEnd::Link).is_none() {
            return false;
        }
    }
    failing(alloc, most, calls, 10, ServeEnd::Ended).is_some()
}

#[test]
fn any_call_may_fail(rt: HostRuntime) {
    for (most, calls) in &CALLS {
        assert!(rt; each_may_fail(rt.alloc(), *most, *calls), "{most}");
    }
}

/// Returns true if serving these bytes with this handler, under a limit, has this `outcome`.
fn answers<H: Handler + Drop>(
    alloc: Global,
    input: &[u8],
    handler: H,
    limit: u32,
    outcome: Outcome,
) -> bool {
    match link_of(alloc, input) {
        Some(link) => comes_to(alloc, link, handler, limit, 10, outcome),
        None => false,
    }
}

const STREAMED: Outcome = Outcome {
    end: ServeEnd::Ended,
    entries: 1,
    sent: COUNTED,
};

#[test]
fn a_stream_is_answered(rt: HostRuntime) {
    assert!(rt; answers(rt.alloc(), COUNT_TO_3, Count, 48_000_000, STREAMED));
}

const TOO_LARGE: Outcome = Outcome {
    end: ServeEnd::ReplyTooLarge,
    entries: 1,
    sent: b"",
};

#[test]
fn a_long_reply_ends_serving(rt: HostRuntime) {
    assert!(rt; answers(rt.alloc(), EMPTY, Count, 26, TOO_LARGE));
}

/// Returns true if serving the pings, with a handler that stops at the second one for this reason,
/// ends so.
fn stops(alloc: Global, stop: HandlerStop, end: ServeEnd) -> bool {
    let outcome = Outcome {
        end,
        entries: 2,
        sent: REPLY,
    };
    answers(
        alloc,
        PINGS,
        StopAt::new(Echo, 1, stop),
        48_000_000,
        outcome,
    )
}

#[test]
fn a_handlers_stop_ends_serving(rt: HostRuntime) {
    assert!(rt; stops(rt.alloc(), HandlerStop::Failed, ServeEnd::HandlerFailed));
    assert!(rt; stops(rt.alloc(), HandlerStop::OutOfMemory, ServeEnd::OutOfMemory));
}
