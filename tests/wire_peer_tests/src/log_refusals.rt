//! Tests of answers, replies and logs after a refused allocation. `scripts/checks/try-refusals`
//! runs them with each of their allocations refused in turn. Only one is refused in a run, so what
//! is tried again succeeds.

use crate::log_rows::{Noted, are_bodies, is_log};
use crate::refused_calls::{CallEnd, again, at_once, both, goes_on, to_an_end};
use bson_raw::RawDocument;
use std::alloc::Global;
use wire_msg::PayloadBuf;
use wire_peer::{
    Answers, AskRefusal, Count, Echo, Handler, HandlerStop, Logged, NoReplies, ReplyBuf,
    ReplyRefusal, Request, StopAt,
};

/// `{"s": 3}`.
const THREE: &[u8] = b"\x0c\0\0\0\x10s\0\x03\0\0\0\0";

/// `{"n": 1}` to `{"n": 3}`.
const COUNTED: &[&[u8]] = &[
    b"\x0c\0\0\0\x10n\0\x01\0\0\0\0",
    b"\x0c\0\0\0\x10n\0\x02\0\0\0\0",
    b"\x0c\0\0\0\x10n\0\x03\0\0\0\0",
];

/// The replies to request 7 that count to 3, and those to the same request asked again.
const REPLIES: [&[u8; 33]; 6] = [
    b"\x21\0\0\0\x01\0\0\0\x07\0\0\0\xdd\x07\0\0\x02\0\0\0\0\x0c\0\0\0\x10n\0\x01\0\0\0\0",
    b"\x21\0\0\0\x02\0\0\0\x01\0\0\0\xdd\x07\0\0\x02\0\0\0\0\x0c\0\0\0\x10n\0\x02\0\0\0\0",
    b"\x21\0\0\0\x03\0\0\0\x02\0\0\0\xdd\x07\0\0\0\0\0\0\0\x0c\0\0\0\x10n\0\x03\0\0\0\0",
    b"\x21\0\0\0\x04\0\0\0\x07\0\0\0\xdd\x07\0\0\x02\0\0\0\0\x0c\0\0\0\x10n\0\x01\0\0\0\0",
    b"\x21\0\0\0\x05\0\0\0\x04\0\0\0\xdd\x07\0\0\x02\0\0\0\0\x0c\0\0\0\x10n\0\x02\0\0\0\0",
    b"\x21\0\0\0\x06\0\0\0\x05\0\0\0\xdd\x07\0\0\0\0\0\0\0\x0c\0\0\0\x10n\0\x03\0\0\0\0",
];

/// `{"s": 3}` twice as the replies to request 7, and twice again.
const PUSHED: [&[u8; 33]; 4] = [
    b"\x21\0\0\0\x01\0\0\0\x07\0\0\0\xdd\x07\0\0\x02\0\0\0\0\x0c\0\0\0\x10s\0\x03\0\0\0\0",
    b"\x21\0\0\0\x02\0\0\0\x01\0\0\0\xdd\x07\0\0\0\0\0\0\0\x0c\0\0\0\x10s\0\x03\0\0\0\0",
    b"\x21\0\0\0\x03\0\0\0\x07\0\0\0\xdd\x07\0\0\x02\0\0\0\0\x0c\0\0\0\x10s\0\x03\0\0\0\0",
    b"\x21\0\0\0\x04\0\0\0\x03\0\0\0\xdd\x07\0\0\0\0\0\0\0\x0c\0\0\0\x10s\0\x03\0\0\0\0",
];

/// Returns a payload of `THREE` alone. Makes it again if memory is refused.
fn three(alloc: Global) -> Option<PayloadBuf> {
    let body = RawDocument::from_bytes(THREE).ok()?;
    match PayloadBuf::new(alloc, body) {
        Ok(payload) => Some(payload),
        Err(_) => PayloadBuf::new(alloc, body).ok(),
    }
}

/// Returns the request with this payload, which allows more replies.
fn asking(payload: &PayloadBuf) -> Request<'_> {
    Request {
        payload: payload.as_payload(),
        exhaust_allowed: true,
        more_to_come: false,
    }
}

/// Returns true if the bytes are the first of these messages, and are `count` bytes.
fn are_messages(bytes: &[u8], messages: &[&[u8; 33]], count: usize) -> bool {
    let mut rest = bytes;
    for message in messages {
        if rest.is_empty() {
            return bytes.len() == count;
        }
        match rest.strip_prefix(message.as_slice()) {
            Some(after) => rest = after,
            None => return false,
        }
    }
    rest.is_empty() && bytes.len() == count
}

/// A call that appends an answer.
#[derive(Clone, Copy)]
enum Way {
    /// `push`
    Copied,
    /// `push_body`
    Body,
    /// `push_buf`
    Moved,
}

/// Appends the payload in this way. Returns true if it was appended.
fn adds(answers: &mut Answers, payload: &PayloadBuf, way: Way) -> bool {
    match way {
        Way::Copied => answers.push(payload.as_payload()).is_ok(),
        Way::Body => answers.push_body(payload.as_payload().body()).is_ok(),
        Way::Moved => match payload.try_clone() {
            Ok(copy) => answers.push_buf(copy).is_ok(),
            Err(_) => false,
        },
    }
}

/// Returns true if the answers are these bodies.
fn hold(answers: &Answers, bodies: &[&[u8]]) -> bool {
    answers.len() == bodies.len() && are_bodies(answers.as_slice(), bodies)
}

/// Appends an answer to these. If that is refused, which has to change nothing, appends it again.
fn pushes(
    answers: &mut Answers,
    payload: &PayloadBuf,
    way: Way,
    before: &[&[u8]],
    after: &[&[u8]],
) -> CallEnd {
    if adds(answers, payload, way) {
        at_once(hold(answers, after))
    } else {
        again(hold(answers, before) && adds(answers, payload, way) && hold(answers, after))
    }
}

/// Appends two answers in this way.
fn pushes_both(answers: &mut Answers, payload: &PayloadBuf, way: Way) -> CallEnd {
    let first = pushes(answers, payload, way, &[], &[THREE]);
    both(
        first,
        pushes(answers, payload, way, &[THREE], &[THREE, THREE]),
    )
}

/// Like `pushes_both`, to answers that are made for it.
fn pushes_two(alloc: Global, payload: &PayloadBuf, way: Way) -> CallEnd {
    let mut answers = Answers::new(alloc);
    pushes_both(&mut answers, payload, way)
}

/// Returns true if two answers are appended in this way at the first try; or one of them at the
/// second, and then both to other answers at the first.
fn leaves_answers(alloc: Global, way: Way) -> bool {
    match three(alloc) {
        Some(payload) => match pushes_two(alloc, &payload, way) {
            CallEnd::AtOnce => true,
            CallEnd::Again => pushes_two(alloc, &payload, way) == CallEnd::AtOnce,
            _ => false,
        },
        None => false,
    }
}

#[test]
fn a_refused_answer_is_not_appended(rt: HostRuntime) {
    assert!(rt; leaves_answers(rt.alloc(), Way::Copied));
    assert!(rt; leaves_answers(rt.alloc(), Way::Body));
    assert!(rt; leaves_answers(rt.alloc(), Way::Moved));
}

/// Returns whether the handler gives these answers, or `None` if it stops because memory runs out.
fn responds<H: Handler>(
    alloc: Global,
    handler: &mut H,
    request: &Request<'_>,
    bodies: &[&[u8]],
) -> Option<bool> {
    let mut answers = Answers::new(alloc);
    match handler.respond(request, &mut answers) {
        Ok(()) => Some(hold(&answers, bodies)),
        Err(HandlerStop::OutOfMemory) => None,
        Err(HandlerStop::Failed) => Some(false),
    }
}

/// Returns true if the handler gives these answers, when it is asked again if memory runs out.
fn responds_at_last<H: Handler>(
    alloc: Global,
    handler: &mut H,
    request: &Request<'_>,
    bodies: &[&[u8]],
) -> bool {
    match responds(alloc, handler, request, bodies) {
        Some(holds) => holds,
        None => responds(alloc, handler, request, bodies) == Some(true),
    }
}

/// Returns true if each handler gives its answers. `StopAt` is asked before its stop.
fn handlers_respond(alloc: Global, request: &Request<'_>) -> bool {
    responds_at_last(alloc, &mut Echo, request, &[THREE])
        && responds_at_last(alloc, &mut Count, request, COUNTED)
        && responds_at_last(
            alloc,
            &mut StopAt::new(Echo, 2, HandlerStop::Failed),
            request,
            &[THREE],
        )
}

/// Returns true if a payload is made, and each handler answers it.
fn handlers_respond_to_three(alloc: Global) -> bool {
    match three(alloc) {
        Some(payload) => handlers_respond(alloc, &asking(&payload)),
        None => false,
    }
}

#[test]
fn handlers_stop_for_memory_alone(rt: HostRuntime) {
    assert!(rt; handlers_respond_to_three(rt.alloc()));
}

/// A handler that answers two requests and stops at the third. So it shows if it was asked once too
/// often.
type Twice = StopAt<Count>;

/// Returns such a handler, with an empty log.
fn twice(alloc: Global) -> Logged<Twice> {
    Logged::new(alloc, StopAt::new(Count, 2, HandlerStop::Failed))
}

/// The entry of a request that was answered, and that of one at which the handler stopped.
const ANSWERED: Noted<'_> = (THREE, Some(COUNTED));

const FAILED: Noted<'_> = (THREE, None);

/// The logs after one request, two and three. The handler stops at the third.
const ONE_LOG: &[Noted<'_>] = &[ANSWERED];

const TWO_LOG: &[Noted<'_>] = &[ANSWERED, ANSWERED];

const THREE_LOG: &[Noted<'_>] = &[ANSWERED, ANSWERED, FAILED];

/// The log where the handler stopped at the second request.
const SECOND_FAILED: &[Noted<'_>] = &[ANSWERED, FAILED];

/// A request, and the log and the replies before it and after it.
struct Row<'a> {
    log_before: &'a [Noted<'a>],
    log_after: &'a [Noted<'a>],
    /// The log after it if the handler stops because memory runs out.
    log_stopped: &'a [Noted<'a>],
    /// Whether the handler answers it if there is memory.
    answers: bool,
    /// How many bytes of replies are put out before it.
    bytes_before: usize,
    bytes_after: usize,
}

/// Three requests. The handler stops at the last.
const ROWS: [Row<'_>; 3] = [
    Row {
        log_before: &[],
        log_after: ONE_LOG,
        log_stopped: &[FAILED],
        answers: true,
        bytes_before: 0,
        bytes_after: 99,
    },
    Row {
        log_before: ONE_LOG,
        log_after: TWO_LOG,
        log_stopped: SECOND_FAILED,
        answers: true,
        bytes_before: 99,
        bytes_after: 198,
    },
    Row {
        log_before: TWO_LOG,
        log_after: THREE_LOG,
        log_stopped: THREE_LOG,
        answers: false,
        bytes_before: 198,
        bytes_after: 198,
    },
];

/// Returns true if the log holds these entries.
fn notes(logged: &Logged<Twice>, rows: &[Noted<'_>]) -> bool {
    is_log(logged.entries(), 5, rows)
}

/// Returns the result of asking if there is memory.
fn end_of_ask(answers: bool) -> Result<(), AskRefusal> {
    if answers {
        Ok(())
    } else {
        Err(AskRefusal::Stopped(HandlerStop::Failed))
    }
}

/// Asks a request. If the handler wasn't asked, which has to change nothing, asks it again. If the
/// handler stops because memory runs out, the log has to have its entry.
fn enters(logged: &mut Logged<Twice>, request: &Request<'_>, row: &Row<'_>) -> CallEnd {
    let came = logged.ask(5, request);
    if came == end_of_ask(row.answers) {
        return at_once(notes(logged, row.log_after));
    }
    match came {
        Err(AskRefusal::NotAsked) => again(
            notes(logged, row.log_before)
                && logged.ask(5, request) == end_of_ask(row.answers)
                && notes(logged, row.log_after),
        ),
        Err(AskRefusal::Stopped(HandlerStop::OutOfMemory)) => {
            to_an_end(notes(logged, row.log_stopped))
        }
        _ => CallEnd::Otherwise,
    }
}

/// Asks the three requests.
fn enters_all(logged: &mut Logged<Twice>, request: &Request<'_>) -> CallEnd {
    let mut all = CallEnd::AtOnce;
    for row in &ROWS {
        all = both(all, enters(logged, request, row));
        if !goes_on(all) {
            return all;
        }
    }
    all
}

/// Like `enters_all`, with a log that is made for it.
fn enters_one(alloc: Global, request: &Request<'_>) -> CallEnd {
    let mut logged = twice(alloc);
    enters_all(&mut logged, request)
}

/// Returns true if the requests get their entries; or memory runs out for one of them, and then all
/// get theirs in another log at the first try.
fn leaves_the_log(alloc: Global) -> bool {
    match three(alloc) {
        Some(payload) => match enters_one(alloc, &asking(&payload)) {
            CallEnd::AtOnce => true,
            CallEnd::Otherwise => false,
            _ => enters_one(alloc, &asking(&payload)) == CallEnd::AtOnce,
        },
        None => false,
    }
}

#[test]
fn a_refused_entry_is_not_made(rt: HostRuntime) {
    assert!(rt; leaves_the_log(rt.alloc()));
}

/// Returns the result of replying if there is memory.
fn end_of_reply(answers: bool) -> Result<(), NoReplies> {
    if answers {
        Ok(())
    } else {
        Err(NoReplies::Stopped(HandlerStop::Failed))
    }
}

/// Returns true if the log holds these entries, and the first `put_out` bytes of the replies are
/// put out.
fn stands(logged: &Logged<Twice>, out: &ReplyBuf, rows: &[Noted<'_>], put_out: usize) -> bool {
    notes(logged, rows) && are_messages(out.output(), &REPLIES, put_out)
}

/// Asks a request for its replies. If the handler wasn't asked, which has to change nothing, asks
/// it again. If memory runs out for the handler or for the replies, the log has to have the entry,
/// and no byte of the replies is put out.
fn replies(
    logged: &mut Logged<Twice>,
    out: &mut ReplyBuf,
    request: &Request<'_>,
    row: &Row<'_>,
) -> CallEnd {
    let came = logged.reply(5, 7, request, out);
    if came == end_of_reply(row.answers) {
        return at_once(stands(logged, out, row.log_after, row.bytes_after));
    }
    match came {
        Err(NoReplies::NotAsked) => again(
            stands(logged, out, row.log_before, row.bytes_before)
                && logged.reply(5, 7, request, out) == end_of_reply(row.answers)
                && stands(logged, out, row.log_after, row.bytes_after),
        ),
        Err(NoReplies::Stopped(HandlerStop::OutOfMemory)) => {
            to_an_end(stands(logged, out, row.log_stopped, row.bytes_before))
        }
        Err(NoReplies::NoMemory) => {
            to_an_end(stands(logged, out, row.log_after, row.bytes_before))
        }
        _ => CallEnd::Otherwise,
    }
}

/// Asks the three requests for their replies.
fn replies_all(logged: &mut Logged<Twice>, out: &mut ReplyBuf, request: &Request<'_>) -> CallEnd {
    let mut all = CallEnd::AtOnce;
    for row in &ROWS {
        all = both(all, replies(logged, out, request, row));
        if !goes_on(all) {
            return all;
        }
    }
    all
}

/// Like `replies_all`, with a log and a buffer that are made for it.
fn replies_one(alloc: Global, request: &Request<'_>) -> CallEnd {
    let mut logged = twice(alloc);
    let mut out = ReplyBuf::new(alloc, 33);
    replies_all(&mut logged, &mut out, request)
}

/// Returns true if the requests get their replies; or memory runs out for one of them, and then all
/// get theirs from another log at the first try.
fn leaves_the_replies(alloc: Global) -> bool {
    match three(alloc) {
        Some(payload) => match replies_one(alloc, &asking(&payload)) {
            CallEnd::AtOnce => true,
            CallEnd::Otherwise => false,
            _ => replies_one(alloc, &asking(&payload)) == CallEnd::AtOnce,
        },
        None => false,
    }
}

#[test]
fn refused_replies_leave_no_byte(rt: HostRuntime) {
    assert!(rt; leaves_the_replies(rt.alloc()));
}

/// Appends the answers as two replies after `before` bytes. If that is refused, which has to change
/// nothing, appends them again.
fn puts(out: &mut ReplyBuf, answers: &Answers, before: usize, after: usize) -> CallEnd {
    match out.push(7, answers) {
        Ok(()) => at_once(are_messages(out.output(), &PUSHED, after)),
        Err(refusal) => again(
            refusal == ReplyRefusal::OutOfMemory
                && are_messages(out.output(), &PUSHED, before)
                && out.push(7, answers).is_ok()
                && are_messages(out.output(), &PUSHED, after),
        ),
    }
}

/// Appends the answers twice.
fn puts_both(out: &mut ReplyBuf, answers: &Answers) -> CallEnd {
    let first = puts(out, answers, 0, 66);
    both(first, puts(out, answers, 66, 132))
}

/// Like `puts_both`, in a buffer that is made for it.
fn puts_one(alloc: Global, answers: &Answers) -> CallEnd {
    let mut out = ReplyBuf::new(alloc, 33);
    puts_both(&mut out, answers)
}

/// Returns true if the answers are appended at the first try; or at the second, and then to another
/// buffer at the first.
fn puts_at_last(alloc: Global, answers: &Answers) -> bool {
    match puts_one(alloc, answers) {
        CallEnd::AtOnce => true,
        CallEnd::Again => puts_one(alloc, answers) == CallEnd::AtOnce,
        _ => false,
    }
}

/// Returns true if two answers are made, and `puts_at_last` holds of them.
fn puts_answers(alloc: Global, payload: &PayloadBuf) -> bool {
    let mut answers = Answers::new(alloc);
    goes_on(pushes_both(&mut answers, payload, Way::Copied)) && puts_at_last(alloc, &answers)
}

/// Returns true if a payload is made, and `puts_answers` holds of it.
fn leaves_the_buffer(alloc: Global) -> bool {
    match three(alloc) {
        Some(payload) => puts_answers(alloc, &payload),
        None => false,
    }
}

#[test]
fn refused_replies_can_be_appended_again(rt: HostRuntime) {
    assert!(rt; leaves_the_buffer(rt.alloc()));
}
