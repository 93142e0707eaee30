//! Ends over streams that would block or fail, calls of each kind, and ends that are given up.

ghost use Rattle.std.specs.Prelude.{◌≤◌, IfOk};

use crate::links::{call_stands, client_of, client_over, one, server_over};
use std::alloc::Global;
use std::io;
use std::io::{ErrorKind, Read, Write};
use wire_end::{CallState, ClientEnd, EndFault, Next, NextRequest, RequestFault, ServerEnd};
use wire_msg::Payload;
use wire_peer::{CallRefusal, ClientCause, ClientState, ReadyReply, ServerCause, ServerState};
use wire_stream::{Flushed, LinkFault, MemLink, TcpLink};

/// A stream that fails each call for this reason.
#[derive(Drop)]
struct Failing(ErrorKind);

impl Read for Failing {
    fn read(&mut self, buffer: &mut [u8]) -> io::Result<usize> {
        Err(io::Error::from(self.0))
    }
}

impl Write for Failing {
    fn write(&mut self, bytes: &[u8]) -> io::Result<usize> {
        Err(io::Error::from(self.0))
    }

    fn flush(&mut self) -> io::Result<()> {
        Ok(())
    }
}

/// How `ErrorKind::ConnectionReset` is told.
const RESET: LinkFault = LinkFault {
    kind: ErrorKind::ConnectionReset,
};

/// Returns an end over such a stream.
fn end_over(alloc: Global, kind: ErrorKind) -> Option<ClientEnd<TcpLink<Failing>>> {
    client_over(alloc, TcpLink::new(Failing(kind)))
}

/// Makes a call.
fn is_called(alloc: Global, end: &mut ClientEnd<TcpLink<Failing>>) -> bool {
    match one(alloc) {
        Some(payload) => end.call(payload.as_payload()).is_ok(),
        None => false,
    }
}

/// Returns true if a link that would block leaves the call pending.
fn is_pending(end: &mut ClientEnd<TcpLink<Failing>>) -> bool {
    end.flush() == Ok(Flushed::Later)
        && end.next_reply() == Ok(Next::Later)
        && end.next_reply() == Ok(Next::Later)
        && end.outstanding() == 1
        && end.state() == ClientState::Open
}

/// Returns true if a link that fails is told, and leaves the client open.
fn is_told(end: &mut ClientEnd<TcpLink<Failing>>) -> bool {
    end.flush() == Err(RESET)
        && end.next_reply() == Err(EndFault::Link(RESET))
        && end.state() == ClientState::Open
}

/// Returns true if the call is lost once the end is given up.
fn is_lost(end: &mut ClientEnd<TcpLink<Failing>>) -> bool {
    end.end() == ClientCause::Ended
        && end.end() == ClientCause::Ended
        && call_stands(end, 0, 0, CallState::Lost)
        && end.next_reply() == Err(EndFault::Closed(ClientCause::Ended))
}

/// Returns true if a call over such a stream stays pending if it would block, and else is lost.
fn comes_to(alloc: Global, kind: ErrorKind) -> bool {
    let Some(mut end) = end_over(alloc, kind) else {
        return false;
    };
    let holds = is_called(alloc, &mut end)
        && match kind {
            ErrorKind::WouldBlock => is_pending(&mut end),
            _ => is_told(&mut end) && is_lost(&mut end),
        };
    drop(end);
    holds
}

#[test]
fn a_link_that_would_block_is_waited_for(rt: HostRuntime) {
    assert!(rt; comes_to(rt.alloc(), ErrorKind::WouldBlock));
}

#[test]
fn a_link_that_fails_is_given_up(rt: HostRuntime) {
    assert!(rt; comes_to(rt.alloc(), ErrorKind::ConnectionReset));
}

/// The reply 5 to request 1 with moreToCome, and the reply 6 to that one, the last.
const STREAM: &[u8; 66] =
    b"\x21\0\0\0\x05\0\0\0\x01\0\0\0\xdd\x07\0\0\x02\0\0\0\0\x0c\0\0\0\x10n\0\x01\0\0\0\0\x21\0\0\0\x06\0\0\0\x05\0\0\0\xdd\x07\0\0\0\0\0\0\0\x0c\0\0\0\x10n\0\x02\0\0\0\0";

/// Returns true if this is what comes next: a part of call 0.
fn comes(end: &mut ClientEnd<MemLink>, last: bool) -> bool {
    end.next_reply() == Ok(Next::Reply(ReadyReply { call: 0, last }))
}

/// Returns true if an exhaust call and an unacknowledged one are made and sent.
fn are_called(end: &mut ClientEnd<MemLink>, payload: Payload<'_>) -> bool {
    end.call_exhaust(payload).is_ok()
        && end.send_unacknowledged(payload).is_ok()
        && end.outstanding() == 1
        && end.flush() == Ok(Flushed::All)
}

/// Returns true if the exhaust call has two parts, the unacknowledged one none, and no call is made
/// once the link has ended.
fn are_streamed(end: &mut ClientEnd<MemLink>, payload: Payload<'_>) -> bool {
    comes(end, false)
        && comes(end, true)
        && call_stands(end, 0, 2, CallState::Done)
        && call_stands(end, 1, 0, CallState::Sent)
        && end.next_reply() == Err(EndFault::Closed(ClientCause::Ended))
        && end.call(payload) == Err(CallRefusal::Closed)
}

/// Returns true if an exhaust call and an unacknowledged one over this end come to that.
fn streams_over(alloc: Global, end: &mut ClientEnd<MemLink>) -> bool {
    match one(alloc) {
        Some(payload) => {
            are_called(end, payload.as_payload()) && are_streamed(end, payload.as_payload())
        }
        None => false,
    }
}

/// Returns true if an exhaust call has two parts, and an unacknowledged one none.
fn streams(alloc: Global) -> bool {
    let Some(mut end) = client_of(alloc, STREAM, 10) else {
        return false;
    };
    let holds = streams_over(alloc, &mut end);
    drop(end);
    holds
}

#[test]
fn a_stream_of_replies_goes_to_one_call(rt: HostRuntime) {
    assert!(rt; streams(rt.alloc()));
}

/// Returns the end of a server over such a stream.
fn serving_over(alloc: Global, kind: ErrorKind) -> Option<ServerEnd<TcpLink<Failing>>> {
    server_over(alloc, TcpLink::new(Failing(kind)), 2, 48_000_000)
}

/// Returns true if a link that would block leaves the server open.
fn is_waiting(end: &mut ServerEnd<TcpLink<Failing>>) -> bool {
    end.next_request() == Ok(NextRequest::Later)
        && end.next_request() == Ok(NextRequest::Later)
        && end.flush() == Ok(Flushed::All)
        && end.state() == ServerState::Open
}

/// Returns true if a link that fails is told, and no request comes once the end is given up.
fn is_given_up(end: &mut ServerEnd<TcpLink<Failing>>) -> bool {
    end.next_request() == Err(RequestFault::Link(RESET))
        && end.state() == ServerState::Open
        && end.end() == ServerCause::Ended
        && end.next_request() == Err(RequestFault::Closed(ServerCause::Ended))
}

/// Returns true if a server waits for a stream that would block, and else is given up.
fn server_ends(alloc: Global, kind: ErrorKind) -> bool {
    let Some(mut end) = serving_over(alloc, kind) else {
        return false;
    };
    let holds = match kind {
        ErrorKind::WouldBlock => is_waiting(&mut end),
        _ => is_given_up(&mut end),
    };
    drop(end);
    holds
}

#[test]
fn a_server_waits_or_is_given_up(rt: HostRuntime) {
    assert!(rt; server_ends(rt.alloc(), ErrorKind::WouldBlock));
    assert!(rt; server_ends(rt.alloc(), ErrorKind::ConnectionReset));
}
