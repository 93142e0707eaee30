//! Tests of a server after a refused allocation. `scripts/checks/try-refusals` runs them with each
//! of their allocations refused in turn. Only one is refused in a run, so what is tried again
//! succeeds.

use crate::log_rows::{Noted, is_log};
use crate::refused_calls::{CallEnd, again, at_once, both, goes_on, to_an_end};
use std::alloc::Global;
use wire_peer::{
    AnswerRefusal, Echo, HandlerStop, Logged, Server, ServerCause, ServerRefusal, ServerState,
    StopAt,
};
use wire_stream::ReadRefusal;

/// `{"a": 1}`.
const ONE: &[u8] = b"\x0c\0\0\0\x10a\0\x01\0\0\0\0";

/// `{"a": 2}`.
const TWO: &[u8] = b"\x0c\0\0\0\x10a\0\x02\0\0\0\0";

/// `{"a": 1}` as request 1.
const FIRST: &[u8; 33] =
    b"\x21\0\0\0\x01\0\0\0\0\0\0\0\xdd\x07\0\0\0\0\0\0\0\x0c\0\0\0\x10a\0\x01\0\0\0\0";

/// `{"a": 2}` as request 2, up to the flags and from there.
const SECOND_HEAD: &[u8; 20] = b"\x21\0\0\0\x02\0\0\0\0\0\0\0\xdd\x07\0\0\0\0\0\0";

const SECOND_REST: &[u8; 13] = b"\0\x0c\0\0\0\x10a\0\x02\0\0\0\0";

/// The replies to them, with ids 1 and 2.
const REPLIES: &[u8] =
    b"\x21\0\0\0\x01\0\0\0\x01\0\0\0\xdd\x07\0\0\0\0\0\0\0\x0c\0\0\0\x10a\0\x01\0\0\0\0\x21\0\0\0\x02\0\0\0\x02\0\0\0\xdd\x07\0\0\0\0\0\0\0\x0c\0\0\0\x10a\0\x02\0\0\0\0";

/// Returns a server.
fn server(alloc: Global) -> Result<Server, ServerRefusal> {
    Server::new(alloc, 1, 8, 33)
}

/// Returns a server. Makes it again if memory is refused.
fn server_again(alloc: Global) -> Option<Server> {
    match server(alloc) {
        Ok(server) => Some(server),
        Err(_) => server(alloc).ok(),
    }
}

/// Returns true if a server is made, at the second try if memory runs out.
fn is_made(alloc: Global) -> bool {
    match server(alloc) {
        Ok(server) => stands(&server, &[], 0),
        Err(refusal) => refusal == ServerRefusal::OutOfMemory && server(alloc).is_ok(),
    }
}

#[test]
fn a_refused_server_is_not_made(rt: HostRuntime) {
    assert!(rt; is_made(rt.alloc()));
}

/// Returns true if the waiting request of index `k` has this body, wants a reply, and allows no
/// more than one.
fn is_request(server: &Server, k: usize, body: &[u8]) -> bool {
    match server.request(k) {
        Some(request) => {
            !request.exhaust_allowed
                && !request.more_to_come
                && request.payload.body().as_bytes() == body
        }
        None => false,
    }
}

/// Returns true if these requests wait, and no other.
fn wait(server: &Server, bodies: &[&[u8]]) -> bool {
    for (k, body) in bodies.iter().enumerate() {
        if !is_request(server, k, body) {
            return false;
        }
    }
    server.waiting() == bodies.len()
}

/// Returns true if these requests wait, and the first `put_out` bytes of the replies are put out.
fn holds(server: &Server, bodies: &[&[u8]], put_out: usize) -> bool {
    wait(server, bodies) && server.output().len() == put_out && REPLIES.starts_with(server.output())
}

/// Returns true if the server is open, these requests wait, and the first `put_out` bytes of the
/// replies are put out.
fn stands(server: &Server, bodies: &[&[u8]], put_out: usize) -> bool {
    server.state() == ServerState::Open && holds(server, bodies, put_out)
}

/// A piece that is fed, and the bodies of the requests that wait before it and after it.
type Piece<'a> = (&'a [u8], &'a [&'a [u8]], &'a [&'a [u8]]);

/// The first request whole, and the second one in two pieces.
const PIECES: [Piece<'_>; 3] = [
    (FIRST, &[], &[ONE]),
    (SECOND_HEAD, &[ONE], &[ONE]),
    (SECOND_REST, &[ONE], &[ONE, TWO]),
];

/// Feeds a piece. If it is refused, which has to change nothing, feeds it again.
fn feeds(server: &mut Server, piece: &Piece<'_>) -> CallEnd {
    let (bytes, before, after) = *piece;
    match server.feed(bytes) {
        Ok(taken) => at_once(taken == bytes.len() && stands(server, after, 0)),
        Err(ReadRefusal::OutOfMemory) => again(
            stands(server, before, 0)
                && server.feed(bytes) == Ok(bytes.len())
                && stands(server, after, 0),
        ),
    }
}

/// Feeds the first request whole, and the second one in two pieces.
fn feeds_all(server: &mut Server) -> CallEnd {
    let mut all = CallEnd::AtOnce;
    for piece in &PIECES {
        all = both(all, feeds(server, piece));
    }
    all
}

/// Like `feeds_all`, with a server that is made for it.
fn feeds_one(alloc: Global) -> CallEnd {
    match server_again(alloc) {
        Some(mut server) => feeds_all(&mut server),
        None => CallEnd::Otherwise,
    }
}

/// Returns true if each piece of the requests is taken at the first try; or one of them at the
/// second, and then each by another server at the first.
fn feeds_at_last(alloc: Global) -> bool {
    match feeds_one(alloc) {
        CallEnd::AtOnce => true,
        CallEnd::Again => feeds_one(alloc) == CallEnd::AtOnce,
        _ => false,
    }
}

#[test]
fn a_refused_feed_takes_nothing(rt: HostRuntime) {
    assert!(rt; feeds_at_last(rt.alloc()));
}

/// A handler that answers two requests and stops at the third. So it shows if it was asked once too
/// often.
type Twice = StopAt<Echo>;

/// The state of a server and its log.
struct Standing<'a> {
    /// The bodies of the requests that wait.
    waiting: &'a [&'a [u8]],
    /// How many bytes of replies are put out.
    put_out: usize,
    log: &'a [Noted<'a>],
}

/// Their state before the first answer, after it, and after the second one.
const UNANSWERED: Standing<'_> = Standing {
    waiting: &[ONE, TWO],
    put_out: 0,
    log: &[],
};

const ONE_ANSWERED: Standing<'_> = Standing {
    waiting: &[TWO],
    put_out: 33,
    log: &[(ONE, Some(&[ONE]))],
};

const ALL_ANSWERED: Standing<'_> = Standing {
    waiting: &[],
    put_out: 66,
    log: &[(ONE, Some(&[ONE])), (TWO, Some(&[TWO]))],
};

/// An answer, and the state before it and after it.
struct Row<'a> {
    before: Standing<'a>,
    after: Standing<'a>,
    /// The log where the handler stopped at the request.
    stopped: &'a [Noted<'a>],
}

/// The answers to the first request and to the second one.
const ROWS: [Row<'_>; 2] = [
    Row {
        before: UNANSWERED,
        after: ONE_ANSWERED,
        stopped: &[(ONE, None)],
    },
    Row {
        before: ONE_ANSWERED,
        after: ALL_ANSWERED,
        stopped: &[(ONE, Some(&[ONE])), (TWO, None)],
    },
];

/// Returns true if the server is open, and it and its log are in this state.
fn both_stand(server: &Server, logged: &Logged<Twice>, standing: &Standing<'_>) -> bool {
    stands(server, standing.waiting, standing.put_out) && is_log(logged.entries(), 1, standing.log)
}

/// Returns true if the server closed after the handler was asked: the log has the entry, answered
/// or failed, the request doesn't wait any more, and nothing was put out for it.
fn is_closed(server: &Server, logged: &Logged<Twice>, row: &Row<'_>) -> bool {
    server.state() == ServerState::Closed(ServerCause::NoMemory)
        && holds(server, row.after.waiting, row.before.put_out)
        && (is_log(logged.entries(), 1, row.after.log) || is_log(logged.entries(), 1, row.stopped))
}

/// Answers the first request that waits. If that is refused before the handler is asked, which has
/// to change nothing, answers it again.
fn answers(server: &mut Server, logged: &mut Logged<Twice>, row: &Row<'_>) -> CallEnd {
    let number = row.before.log.len();
    match server.answer(0, logged) {
        Ok(entry) => at_once(entry == number && both_stand(server, logged, &row.after)),
        Err(AnswerRefusal::OutOfMemory) => again(
            both_stand(server, logged, &row.before)
                && server.answer(0, logged) == Ok(number)
                && both_stand(server, logged, &row.after),
        ),
        Err(AnswerRefusal::NowClosed(_)) => to_an_end(is_closed(server, logged, row)),
        Err(_) => CallEnd::Otherwise,
    }
}

/// Answers both requests, the first one first.
fn answers_both(server: &mut Server, logged: &mut Logged<Twice>) -> CallEnd {
    let mut all = CallEnd::AtOnce;
    for row in &ROWS {
        all = both(all, answers(server, logged, row));
        if !goes_on(all) {
            return all;
        }
    }
    all
}

/// Feeds both requests to a server, and answers them.
fn answers_fed(server: &mut Server, logged: &mut Logged<Twice>) -> CallEnd {
    let fed = feeds_all(server);
    if goes_on(fed) {
        both(fed, answers_both(server, logged))
    } else {
        fed
    }
}

/// Like `answers_fed`, with a server that is made for it.
fn answers_of_one(alloc: Global) -> CallEnd {
    let mut logged = Logged::new(alloc, StopAt::new(Echo, 2, HandlerStop::Failed));
    match server_again(alloc) {
        Some(mut server) => answers_fed(&mut server, &mut logged),
        None => CallEnd::Otherwise,
    }
}

/// Returns true if the requests are answered; or memory runs out for one of them, and then another
/// server answers all at the first try.
fn answers_at_last(alloc: Global) -> bool {
    match answers_of_one(alloc) {
        CallEnd::AtOnce => true,
        CallEnd::Otherwise => false,
        _ => answers_of_one(alloc) == CallEnd::AtOnce,
    }
}

#[test]
fn a_refused_answer_leaves_the_request_or_closes(rt: HostRuntime) {
    assert!(rt; answers_at_last(rt.alloc()));
}
