//! Requests before an end of a server: they wait, and are answered in any order.

ghost use Rattle.std.specs.Prelude.{◌<◌, ◌≤◌};

use crate::links::{link_of, server_over};
use std::alloc::Global;
use wire_end::{NextRequest, RequestFault, ServerEnd};
use wire_msg::{MsgCause, MsgFault};
use wire_peer::{AnswerRefusal, Echo, Logged, ServerCause, ServerState};
use wire_stream::{Flushed, MemLink};

/// `{"a": 1}` to `{"a": 3}` as the requests 1 to 3.
pub(crate) const REQUESTS: &[u8; 99] =
    b"!\0\0\0\x01\0\0\0\0\0\0\0\xdd\x07\0\0\0\0\0\0\0\x0c\0\0\0\x10a\0\x01\0\0\0\0!\0\0\0\x02\0\0\0\0\0\0\0\xdd\x07\0\0\0\0\0\0\0\x0c\0\0\0\x10a\0\x02\0\0\0\0!\0\0\0\x03\0\0\0\0\0\0\0\xdd\x07\0\0\0\0\0\0\0\x0c\0\0\0\x10a\0\x03\0\0\0\0";

/// The first of them, a header of opcode 2004, and the first again.
const BAD: &[u8; 82] =
    b"!\0\0\0\x01\0\0\0\0\0\0\0\xdd\x07\0\0\0\0\0\0\0\x0c\0\0\0\x10a\0\x01\0\0\0\0\x21\0\0\0\x01\0\0\0\0\0\0\0\xd4\x07\0\0!\0\0\0\x01\0\0\0\0\0\0\0\xdd\x07\0\0\0\0\0\0\0\x0c\0\0\0\x10a\0\x01\0\0\0\0";

/// Which of those that wait is answered next, three times, and the replies, with ids 1 to 3.
struct Row {
    answers: [usize; 3],
    replies: &'static [u8; 99],
}

const ROWS: [Row; 4] = [
    Row {
        answers: [0, 0, 0],
        replies: b"!\0\0\0\x01\0\0\0\x01\0\0\0\xdd\x07\0\0\0\0\0\0\0\x0c\0\0\0\x10a\0\x01\0\0\0\0!\0\0\0\x02\0\0\0\x02\0\0\0\xdd\x07\0\0\0\0\0\0\0\x0c\0\0\0\x10a\0\x02\0\0\0\0!\0\0\0\x03\0\0\0\x03\0\0\0\xdd\x07\0\0\0\0\0\0\0\x0c\0\0\0\x10a\0\x03\0\0\0\0",
    },
    Row {
        answers: [2, 1, 0],
        replies: b"!\0\0\0\x01\0\0\0\x03\0\0\0\xdd\x07\0\0\0\0\0\0\0\x0c\0\0\0\x10a\0\x03\0\0\0\0!\0\0\0\x02\0\0\0\x02\0\0\0\xdd\x07\0\0\0\0\0\0\0\x0c\0\0\0\x10a\0\x02\0\0\0\0!\0\0\0\x03\0\0\0\x01\0\0\0\xdd\x07\0\0\0\0\0\0\0\x0c\0\0\0\x10a\0\x01\0\0\0\0",
    },
    Row {
        answers: [1, 0, 0],
        replies: b"!\0\0\0\x01\0\0\0\x02\0\0\0\xdd\x07\0\0\0\0\0\0\0\x0c\0\0\0\x10a\0\x02\0\0\0\0!\0\0\0\x02\0\0\0\x01\0\0\0\xdd\x07\0\0\0\0\0\0\0\x0c\0\0\0\x10a\0\x01\0\0\0\0!\0\0\0\x03\0\0\0\x03\0\0\0\xdd\x07\0\0\0\0\0\0\0\x0c\0\0\0\x10a\0\x03\0\0\0\0",
    },
    Row {
        answers: [2, 0, 0],
        replies: b"!\0\0\0\x01\0\0\0\x03\0\0\0\xdd\x07\0\0\0\0\0\0\0\x0c\0\0\0\x10a\0\x03\0\0\0\0!\0\0\0\x02\0\0\0\x01\0\0\0\xdd\x07\0\0\0\0\0\0\0\x0c\0\0\0\x10a\0\x01\0\0\0\0!\0\0\0\x03\0\0\0\x02\0\0\0\xdd\x07\0\0\0\0\0\0\0\x0c\0\0\0\x10a\0\x02\0\0\0\0",
    },
];

/// Returns the end of a server in which `window` requests may wait, over a link that gives these
/// bytes, in pieces of at most `most`.
pub(crate) fn requested(
    alloc: Global,
    input: &[u8],
    most: usize,
    window: usize,
) -> Option<ServerEnd<MemLink>>
    requires { 0 < most }
{
    match link_of(alloc, input) {
        Some(link) => server_over(alloc, link.moving_at_most(most), window, 48_000_000),
        None => None,
    }
}

/// Returns true if three requests come, each behind those before it, and no more may wait.
fn three_come(end: &mut ServerEnd<MemLink>) -> bool {
    for count in 0..3usize {
        if end.waiting() != count || end.next_request() != Ok(NextRequest::Waits) {
            return false;
        }
    }
    end.waiting() == 3 && end.next_request() == Ok(NextRequest::Full)
}

/// Returns true if the requests are answered in this order, and no fourth one is.
fn three_are_answered(
    end: &mut ServerEnd<MemLink>,
    logged: &mut Logged<Echo>,
    answers: &[usize; 3],
) -> bool {
    for (number, k) in answers.iter().enumerate() {
        if end.request(*k).is_none() || end.answer(*k, logged) != Ok(number) {
            return false;
        }
    }
    end.answer(0, logged) == Err(AnswerRefusal::NoSuchRequest) && end.waiting() == 0
}

/// Returns true if nothing was sent before, and these bytes are by a flush, at the end of the link.
fn are_sent(end: &mut ServerEnd<MemLink>, replies: &[u8; 99]) -> bool {
    end.link().sent_bytes().is_empty()
        && end.flush() == Ok(Flushed::All)
        && end.link().sent_bytes() == replies.as_slice()
        && end.next_request() == Err(RequestFault::Closed(ServerCause::Ended))
}

/// Returns true if the three requests come to these replies, over a link that moves at most `most`
/// bytes a call.
fn comes_to(alloc: Global, row: &Row, most: usize) -> bool
    requires { 0 < most }
{
    let Some(mut end) = requested(alloc, REQUESTS, most, 3) else {
        return false;
    };
    let mut logged = Logged::new(alloc, Echo);
    let holds = three_come(&mut end)
        && three_are_answered(&mut end, &mut logged, &row.answers)
        && are_sent(&mut end, row.replies);
    drop(end);
    holds
}

/// Returns true if they do so at once, in pieces, and byte by byte.
fn comes_by_any(alloc: Global, row: &Row) -> bool {
    comes_to(alloc, row, 200) && comes_to(alloc, row, 7) && comes_to(alloc, row, 1)
}

#[test]
fn requests_are_answered_in_any_order(rt: HostRuntime) {
    for (number, row) in ROWS.iter().enumerate() {
        assert!(rt; comes_by_any(rt.alloc(), row), "row {number}");
    }
}

const FAULT: ServerCause = ServerCause::Message(MsgFault {
    at: 12,
    cause: MsgCause::Opcode(2004),
});

/// Returns true if one request comes, and then this cause for which none does.
fn closes_at(end: &mut ServerEnd<MemLink>, cause: ServerCause) -> bool {
    let closed = Err(RequestFault::Closed(cause));
    end.next_request() == Ok(NextRequest::Waits)
        && end.next_request() == closed
        && end.next_request() == closed
        && end.waiting() == 1
        && end.state() == ServerState::Closed(cause)
        && end.end() == cause
}

/// Returns true if these bytes come to that.
fn closes(alloc: Global, input: &[u8], cause: ServerCause) -> bool {
    let Some(mut end) = requested(alloc, input, 7, 3) else {
        return false;
    };
    let holds = closes_at(&mut end, cause);
    drop(end);
    holds
}

#[test]
fn the_first_cause_stays(rt: HostRuntime) {
    assert!(rt; closes(rt.alloc(), &REQUESTS[..33], ServerCause::Ended));
    assert!(rt; closes(rt.alloc(), &REQUESTS[..65], ServerCause::EndedInside));
    assert!(rt; closes(rt.alloc(), BAD, FAULT));
}
