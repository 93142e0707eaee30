//! Three calls before servers that are made up: one that answers in order, in reverse, byte by
//! byte, a call that was never made, the same call twice, one that stops inside a message, and one
//! whose bytes go bad.

ghost use Rattle.std.specs.Prelude.{◌<◌};

use crate::links::{client_over, link_over, one, stands};
use std::alloc::Global;
use wire_end::{CallRecord, CallState, ClientEnd, EndFault, Next};
use wire_msg::{MsgCause, MsgFault, Payload};
use wire_peer::{CallNo, ClientCause, ClientState, ReadyReply};
use wire_stream::{Flushed, MemLink};

/// `{"a": 1}` as the requests 1 to 3.
const REQUESTS: &[u8; 99] =
    b"\x21\0\0\0\x01\0\0\0\0\0\0\0\xdd\x07\0\0\0\0\0\0\0\x0c\0\0\0\x10a\0\x01\0\0\0\0\x21\0\0\0\x02\0\0\0\0\0\0\0\xdd\x07\0\0\0\0\0\0\0\x0c\0\0\0\x10a\0\x01\0\0\0\0\x21\0\0\0\x03\0\0\0\0\0\0\0\xdd\x07\0\0\0\0\0\0\0\x0c\0\0\0\x10a\0\x01\0\0\0\0";

/// The replies `{"n": 1}` to `{"n": 3}` to these, and `{"n": 9}` to a request 9.
const FIRST: &[u8] =
    b"\x21\0\0\0\x05\0\0\0\x01\0\0\0\xdd\x07\0\0\0\0\0\0\0\x0c\0\0\0\x10n\0\x01\0\0\0\0";

const SECOND: &[u8] =
    b"\x21\0\0\0\x06\0\0\0\x02\0\0\0\xdd\x07\0\0\0\0\0\0\0\x0c\0\0\0\x10n\0\x02\0\0\0\0";

const THIRD: &[u8] =
    b"\x21\0\0\0\x07\0\0\0\x03\0\0\0\xdd\x07\0\0\0\0\0\0\0\x0c\0\0\0\x10n\0\x03\0\0\0\0";

const STRANGE: &[u8] =
    b"\x21\0\0\0\x08\0\0\0\x09\0\0\0\xdd\x07\0\0\0\0\0\0\0\x0c\0\0\0\x10n\0\x09\0\0\0\0";

/// The first reply with moreToCome.
const PART: &[u8] =
    b"\x21\0\0\0\x05\0\0\0\x01\0\0\0\xdd\x07\0\0\x02\0\0\0\0\x0c\0\0\0\x10n\0\x01\0\0\0\0";

/// A beginning of the second reply.
const INSIDE: &[u8] = b"\x21\0\0\0\x06\0\0\0\x02\0\0\0\xdd\x07\0\0\0\0\0\0\0\x0c";

/// A header of opcode 2004.
const QUERY: &[u8] = b"\x21\0\0\0\x01\0\0\0\0\0\0\0\xd4\x07\0\0";

/// The bodies of the replies.
const N1: &[u8] = b"\x0c\0\0\0\x10n\0\x01\0\0\0\0";

const N2: &[u8] = b"\x0c\0\0\0\x10n\0\x02\0\0\0\0";

const N3: &[u8] = b"\x0c\0\0\0\x10n\0\x03\0\0\0\0";

/// What a server sends.
#[derive(Clone, Copy)]
enum Sent {
    First,
    Second,
    Third,
    Strange,
    Part,
    Inside,
    Query,
}

impl Sent {
    /// Returns its bytes.
    fn bytes(self) -> &'static [u8] {
        match self {
            Sent::First => FIRST,
            Sent::Second => SECOND,
            Sent::Third => THIRD,
            Sent::Strange => STRANGE,
            Sent::Part => PART,
            Sent::Inside => INSIDE,
            Sent::Query => QUERY,
        }
    }
}

/// What a server sends; the calls whose replies come, in order; and the cause for which no others
/// come. The other calls are lost.
struct Row {
    sends: &'static [Sent],
    replies: &'static [u64],
    cause: ClientCause,
}

const ROWS: [Row; 9] = [
    Row {
        sends: &[Sent::First, Sent::Second, Sent::Third],
        replies: &[0, 1, 2],
        cause: ClientCause::Ended,
    },
    Row {
        sends: &[Sent::Third, Sent::Second, Sent::First],
        replies: &[2, 1, 0],
        cause: ClientCause::Ended,
    },
    Row {
        sends: &[Sent::Second, Sent::Strange, Sent::First],
        replies: &[1],
        cause: ClientCause::UnknownReply(9),
    },
    Row {
        sends: &[Sent::First, Sent::First, Sent::Second],
        replies: &[0],
        cause: ClientCause::UnknownReply(1),
    },
    Row {
        sends: &[Sent::First, Sent::Inside],
        replies: &[0],
        cause: ClientCause::EndedInside,
    },
    Row {
        sends: &[Sent::Second, Sent::Query, Sent::Third],
        replies: &[1],
        cause: ClientCause::Message(MsgFault {
            at: 12,
            cause: MsgCause::Opcode(2004),
        }),
    },
    Row {
        sends: &[Sent::Second, Sent::Part],
        replies: &[1],
        cause: ClientCause::MoreNotAllowed,
    },
    Row {
        sends: &[],
        replies: &[],
        cause: ClientCause::Ended,
    },
    Row {
        sends: &[Sent::Third, Sent::First, Sent::Second, Sent::Inside],
        replies: &[2, 0, 1],
        cause: ClientCause::EndedInside,
    },
];

/// Returns a link that gives what a server sends.
fn sending(alloc: Global, sends: &[Sent]) -> Option<MemLink> {
    let mut bytes = Vec::new(alloc);
    for sent in sends {
        bytes.extend_from_slice(sent.bytes()).ok()?;
    }
    link_over(alloc, bytes)
}

/// Returns an end over such a link, which moves at most `most` bytes a call.
fn end_over(alloc: Global, sends: &[Sent], most: usize) -> Option<ClientEnd<MemLink>>
    requires { 0 < most }
{
    match sending(alloc, sends) {
        Some(link) => client_over(alloc, link.moving_at_most(most)),
        None => None,
    }
}

/// Returns true if three calls are made, as the requests 1 to 3.
fn makes_three(end: &mut ClientEnd<MemLink>, payload: Payload<'_>) -> bool {
    for number in 0..3u8 {
        let call = CallNo {
            number: u64::from(number),
            id: i32::from(number) + 1,
        };
        if end.call(payload) != Ok(call) {
            return false;
        }
    }
    end.outstanding() == 3
}

/// Returns true if the requests are sent.
fn are_sent(end: &mut ClientEnd<MemLink>) -> bool {
    end.flush() == Ok(Flushed::All) && end.link().sent_bytes() == REQUESTS.as_slice()
}

/// Returns true if three calls are made and sent.
fn calls_three(alloc: Global, end: &mut ClientEnd<MemLink>) -> bool {
    match one(alloc) {
        Some(payload) => makes_three(end, payload.as_payload()) && are_sent(end),
        None => false,
    }
}

/// Returns true if the replies to these calls come, in this order, each the only one.
fn replies_come(end: &mut ClientEnd<MemLink>, calls: &[u64]) -> bool {
    for call in calls {
        let reply = ReadyReply {
            call: *call,
            last: true,
        };
        if end.next_reply() != Ok(Next::Reply(reply)) {
            return false;
        }
    }
    true
}

/// Returns true if no more replies come, and the cause stays.
fn closes(end: &mut ClientEnd<MemLink>, cause: ClientCause) -> bool {
    let closed = Err(EndFault::Closed(cause));
    end.next_reply() == closed
        && end.next_reply() == closed
        && end.next_reply() == closed
        && end.state() == ClientState::Closed(cause)
}

/// Returns true if the first part of a call is this.
fn has_reply(record: &CallRecord, reply: &[u8]) -> bool {
    match record.parts.first() {
        Some(part) => part.as_payload().body().as_bytes() == reply,
        None => false,
    }
}

/// Returns true if a call was made, and is done with this reply alone; or is lost without one, if
/// it isn't replied to.
fn shows(record: Option<&CallRecord>, reply: &[u8], replied: bool) -> bool {
    match record {
        Some(record) if replied => has_reply(record, reply) && stands(record, 1, CallState::Done),
        Some(record) => stands(record, 0, CallState::Lost),
        None => false,
    }
}

/// Returns true if three calls were made, and `calls` are those that have their replies.
fn records_show(end: &ClientEnd<MemLink>, calls: &[u64]) -> bool {
    shows(end.record(0), N1, calls.contains(&0))
        && shows(end.record(1), N2, calls.contains(&1))
        && shows(end.record(2), N3, calls.contains(&2))
        && end.record(3).is_none()
}

/// Returns true if the three calls come to what the row says, over a link that moves at most `most`
/// bytes a call.
fn comes_to(alloc: Global, row: &Row, most: usize) -> bool
    requires { 0 < most }
{
    let Some(mut end) = end_over(alloc, row.sends, most) else {
        return false;
    };
    let holds = calls_three(alloc, &mut end)
        && replies_come(&mut end, row.replies)
        && closes(&mut end, row.cause)
        && records_show(&end, row.replies);
    drop(end);
    holds
}

/// Returns true if they do so at once, in pieces, and byte by byte.
fn comes_by_any(alloc: Global, row: &Row) -> bool {
    comes_to(alloc, row, 200) && comes_to(alloc, row, 7) && comes_to(alloc, row, 1)
}

#[test]
fn replies_go_to_their_calls(rt: HostRuntime) {
    for (number, row) in ROWS.iter().enumerate() {
        assert!(rt; comes_by_any(rt.alloc(), row), "row {number}");
    }
}
