//! Tests of a server: what it takes, what waits, what it answers and puts out, and why it closes.

use std::alloc::Global;
use wire_msg::{MsgCause, MsgFault};
use wire_peer::{
    AnswerRefusal, Count, Echo, Entry, Handler, HandlerStop, Logged, Outcome, Server, ServerCause,
    ServerRefusal, ServerState, StopAt,
};

/// `{"ping": 1, "$db": "admin"}` as request 1.
const PING: &[u8; 51] =
    b"\x33\0\0\0\x01\0\0\0\0\0\0\0\xdd\x07\0\0\0\0\0\0\0\x1e\0\0\0\x10ping\0\x01\0\0\0\x02$db\0\x06\0\0\0admin\0\0";

/// The same as the answer to request 1, with id 1.
const PONG: &[u8; 51] =
    b"\x33\0\0\0\x01\0\0\0\x01\0\0\0\xdd\x07\0\0\0\0\0\0\0\x1e\0\0\0\x10ping\0\x01\0\0\0\x02$db\0\x06\0\0\0admin\0\0";

/// `{"a": 1}` as request 1.
const FIRST: &[u8; 33] =
    b"\x21\0\0\0\x01\0\0\0\0\0\0\0\xdd\x07\0\0\0\0\0\0\0\x0c\0\0\0\x10a\0\x01\0\0\0\0";

/// `{"a": 2}` as request 2.
const SECOND: &[u8; 33] =
    b"\x21\0\0\0\x02\0\0\0\0\0\0\0\xdd\x07\0\0\0\0\0\0\0\x0c\0\0\0\x10a\0\x02\0\0\0\0";

/// `{"a": 1}` as request 1, with moreToCome.
const SILENT: &[u8; 33] =
    b"\x21\0\0\0\x01\0\0\0\0\0\0\0\xdd\x07\0\0\x02\0\0\0\0\x0c\0\0\0\x10a\0\x01\0\0\0\0";

/// `{"s": 3}` as request 2,147,483,647, with exhaustAllowed.
const COUNTED: &[u8; 33] =
    b"\x21\0\0\0\xff\xff\xff\x7f\0\0\0\0\xdd\x07\0\0\0\0\x01\0\0\x0c\0\0\0\x10s\0\x03\0\0\0\0";

/// `{"n": 1}` to `{"n": 3}` as the answers to request 2,147,483,647, with ids 1 to 3; each but the
/// first answers the one before it, and each but the last has moreToCome.
const COUNTS: &[u8; 99] =
    b"\x21\0\0\0\x01\0\0\0\xff\xff\xff\x7f\xdd\x07\0\0\x02\0\0\0\0\x0c\0\0\0\x10n\0\x01\0\0\0\0\x21\0\0\0\x02\0\0\0\x01\0\0\0\xdd\x07\0\0\x02\0\0\0\0\x0c\0\0\0\x10n\0\x02\0\0\0\0\x21\0\0\0\x03\0\0\0\x02\0\0\0\xdd\x07\0\0\0\0\0\0\0\x0c\0\0\0\x10n\0\x03\0\0\0\0";

/// A header of opcode 2004.
const QUERY: &[u8; 16] = b"\x33\0\0\0\x01\0\0\0\0\0\0\0\xd4\x07\0\0";

/// An empty body as request 1.
const EMPTY: &[u8; 26] = b"\x1a\0\0\0\x01\0\0\0\0\0\0\0\xdd\x07\0\0\0\0\0\0\0\x05\0\0\0\0";

/// Windows and limits, and why no server is made with them.
const REFUSED: [(usize, u32, ServerRefusal); 6] = [
    (0, 26, ServerRefusal::BadWindow),
    (1025, 26, ServerRefusal::BadWindow),
    (0, 25, ServerRefusal::BadWindow),
    (8, 25, ServerRefusal::BadLimit),
    (1, 0, ServerRefusal::BadLimit),
    (1024, 48_000_001, ServerRefusal::BadLimit),
];

/// Returns true if no server is made with this window and limit, for this reason.
fn is_refused(alloc: Global, window: usize, limit: u32, refusal: ServerRefusal) -> bool {
    match Server::new(alloc, 1, window, limit) {
        Ok(_) => false,
        Err(refused) => refused == refusal,
    }
}

/// Returns true if a server of this window and limit is made, open and empty.
fn is_made(alloc: Global, window: usize, limit: u32) -> bool {
    match Server::new(alloc, 1, window, limit) {
        Ok(server) => {
            server.state() == ServerState::Open
                && server.waiting() == 0
                && server.output().is_empty()
        }
        Err(_) => false,
    }
}

#[test]
fn windows_and_limits_have_ranges(rt: HostRuntime) {
    for (window, limit, refusal) in &REFUSED {
        assert!(rt;
            is_refused(rt.alloc(), *window, *limit, *refusal),
            "{window} {limit}"
        );
    }
    for (window, limit) in &[(1, 26), (1024, 48_000_000)] {
        assert!(rt; is_made(rt.alloc(), *window, *limit), "{window} {limit}");
    }
}

/// Returns true if the server takes all of these bytes, in pieces of one byte.
fn takes_each(server: &mut Server, bytes: &[u8]) -> bool {
    for byte in bytes {
        if server.feed(&[*byte]) != Ok(1) {
            return false;
        }
    }
    true
}

/// Returns true if the first request is answered as entry `number`, and all that is put out then is
/// `output`.
fn puts_out<H: Handler>(
    server: &mut Server,
    logged: &mut Logged<H>,
    number: usize,
    output: &[u8],
) -> bool {
    server.answer(0, logged) == Ok(number) && server.output() == output
}

/// Returns true if a ping that comes byte by byte waits, and is given back.
fn gives_back(alloc: Global) -> bool {
    let mut logged = Logged::new(alloc, Echo);
    match Server::new(alloc, 7, 8, 51) {
        Ok(mut server) => {
            takes_each(&mut server, PING)
                && server.waiting() == 1
                && puts_out(&mut server, &mut logged, 0, PONG)
                && server.waiting() == 0
        }
        Err(_) => false,
    }
}

#[test]
fn a_ping_is_answered(rt: HostRuntime) {
    assert!(rt; gives_back(rt.alloc()));
}

/// Returns true if no more than one of two requests waits, whatever comes, until it is answered.
fn holds_back(alloc: Global, pair: &[u8]) -> bool {
    let mut logged = Logged::new(alloc, Echo);
    match Server::new(alloc, 1, 1, 33) {
        Ok(mut server) => {
            server.feed(pair) == Ok(33)
                && server.feed(SILENT) == Ok(0)
                && server.answer(1, &mut logged) == Err(AnswerRefusal::NoSuchRequest)
                && puts_out(&mut server, &mut logged, 0, b"")
                && server.feed(SILENT) == Ok(33)
                && puts_out(&mut server, &mut logged, 1, b"")
                && logged.entries().len() == 2
        }
        Err(_) => false,
    }
}

#[test]
fn a_full_server_takes_nothing(rt: HostRuntime) {
    const PAIR: &[u8; 66] =
        b"\x21\0\0\0\x01\0\0\0\0\0\0\0\xdd\x07\0\0\x02\0\0\0\0\x0c\0\0\0\x10a\0\x01\0\0\0\0\x21\0\0\0\x01\0\0\0\0\0\0\0\xdd\x07\0\0\x02\0\0\0\0\x0c\0\0\0\x10a\0\x01\0\0\0\0";
    assert!(rt; holds_back(rt.alloc(), PAIR));
}

/// Returns the server after it took both, each a whole request.
fn fed_both(alloc: Global, first: &[u8], second: &[u8]) -> Option<Server> {
    let mut server = Server::new(alloc, 1, 8, 48_000_000).ok()?;
    if server.feed(first) == Ok(first.len()) && server.feed(second) == Ok(second.len()) {
        Some(server)
    } else {
        None
    }
}

/// Returns true if the second of two requests is answered first, and then the other one.
fn answers_in_any_order(alloc: Global) -> bool {
    const REPLIES: &[u8; 66] =
        b"\x21\0\0\0\x01\0\0\0\x02\0\0\0\xdd\x07\0\0\0\0\0\0\0\x0c\0\0\0\x10a\0\x02\0\0\0\0\x21\0\0\0\x02\0\0\0\x01\0\0\0\xdd\x07\0\0\0\0\0\0\0\x0c\0\0\0\x10a\0\x01\0\0\0\0";
    let mut logged = Logged::new(alloc, Echo);
    match fed_both(alloc, FIRST, SECOND) {
        Some(mut server) => {
            server.answer(1, &mut logged) == Ok(0)
                && server.waiting() == 1
                && puts_out(&mut server, &mut logged, 1, REPLIES)
        }
        None => false,
    }
}

#[test]
fn requests_are_answered_in_any_order(rt: HostRuntime) {
    assert!(rt; answers_in_any_order(rt.alloc()));
}

/// Returns true if the replies to a request that allows more than one are a chain.
fn counts(alloc: Global) -> bool {
    let mut logged = Logged::new(alloc, Count);
    match Server::new(alloc, 1, 8, 48_000_000) {
        Ok(mut server) => {
            server.feed(COUNTED) == Ok(33) && puts_out(&mut server, &mut logged, 0, COUNTS)
        }
        Err(_) => false,
    }
}

#[test]
fn a_stream_is_a_chain(rt: HostRuntime) {
    assert!(rt; counts(rt.alloc()));
}

/// Returns true if the server is closed for this cause, takes nothing and answers nothing.
fn is_closed(alloc: Global, server: &mut Server, cause: ServerCause) -> bool {
    let mut logged = Logged::new(alloc, Echo);
    server.state() == ServerState::Closed(cause)
        && server.feed(PING) == Ok(0)
        && server.answer(0, &mut logged) == Err(AnswerRefusal::Closed)
}

/// Returns true if a request that came before a bad header still waits after the close, and the end
/// of the bytes changes nothing.
fn closes_at_a_fault(alloc: Global) -> bool {
    let fault = ServerCause::Message(MsgFault {
        at: 12,
        cause: MsgCause::Opcode(2004),
    });
    match fed_both(alloc, FIRST, QUERY) {
        Some(mut server) => {
            server.end();
            is_closed(alloc, &mut server, fault) && server.waiting() == 1
        }
        None => false,
    }
}

/// Returns true if a server that holds these bytes is closed for this cause by their end.
fn ends(alloc: Global, bytes: &[u8], cause: ServerCause) -> bool {
    match Server::new(alloc, 1, 8, 48_000_000) {
        Ok(mut server) => {
            let fed = server.feed(bytes);
            server.end();
            fed == Ok(bytes.len()) && is_closed(alloc, &mut server, cause)
        }
        Err(_) => false,
    }
}

#[test]
fn bytes_and_their_end_close(rt: HostRuntime) {
    assert!(rt; closes_at_a_fault(rt.alloc()));
    assert!(rt; ends(rt.alloc(), b"", ServerCause::Ended));
    assert!(rt; ends(rt.alloc(), PING, ServerCause::Ended));
    assert!(rt;
        ends(
            rt.alloc(),
            b"\x33\0\0\0\x01\0\0\0\0\0\0\0\xdd\x07\0",
            ServerCause::EndedInside
        )
    );
}

/// Returns true if answering the first request closes the server for this cause, without a byte
/// more than `output`.
fn closes_now<H: Handler>(
    server: &mut Server,
    logged: &mut Logged<H>,
    cause: ServerCause,
    output: &[u8],
) -> bool {
    server.answer(0, logged) == Err(AnswerRefusal::NowClosed(cause))
        && server.state() == ServerState::Closed(cause)
        && server.waiting() == 0
        && server.output() == output
}

/// Returns true if an answer closes a server whose limit is below its reply's length.
fn closes_at_a_long_reply(alloc: Global) -> bool {
    let mut logged = Logged::new(alloc, Count);
    match Server::new(alloc, 1, 8, 32) {
        Ok(mut server) => {
            server.feed(EMPTY) == Ok(26)
                && closes_now(&mut server, &mut logged, ServerCause::ReplyTooLarge, b"")
                && logged.entries().len() == 1
        }
        Err(_) => false,
    }
}

/// Returns true if there are two entries, and the second has failed.
fn has_failed(entries: &[Entry]) -> bool {
    match entries {
        [_, last] => matches!(last.outcome, Outcome::Failed),
        _ => false,
    }
}

/// Returns true if a handler's stop at the second of two requests closes the server for this cause,
/// and the first reply is still given. The request's entry has failed, and nothing more is
/// answered.
fn closes_at_a_stop(alloc: Global, stop: HandlerStop, cause: ServerCause) -> bool {
    const REPLY: &[u8; 33] =
        b"\x21\0\0\0\x01\0\0\0\x01\0\0\0\xdd\x07\0\0\0\0\0\0\0\x0c\0\0\0\x10a\0\x01\0\0\0\0";
    let mut logged = Logged::new(alloc, StopAt::new(Echo, 1, stop));
    match fed_both(alloc, FIRST, SECOND) {
        Some(mut server) => {
            puts_out(&mut server, &mut logged, 0, REPLY)
                && closes_now(&mut server, &mut logged, cause, REPLY)
                && server.answer(0, &mut logged) == Err(AnswerRefusal::Closed)
                && has_failed(logged.entries())
        }
        None => false,
    }
}

#[test]
fn answers_close(rt: HostRuntime) {
    assert!(rt; closes_at_a_long_reply(rt.alloc()));
    assert!(rt; closes_at_a_stop(rt.alloc(), HandlerStop::Failed, ServerCause::HandlerFailed));
    assert!(rt; closes_at_a_stop(rt.alloc(), HandlerStop::OutOfMemory, ServerCause::NoMemory));
}
