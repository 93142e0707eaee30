//! A query before a server connection where each allocation is refused in turn.

ghost use Rattle.std.specs.Prelude.{◌≤◌};

use crate::spellings::QUERY;
use std::alloc::Global;
use wire_peer::{AnswerRefusal, Echo, Logged, ServerCause};
use wire_serve::{CloseCause, ConnState, ServerConnection};

/// Feeds a piece, and feeds it again where memory was refused, which has to take nothing. Returns
/// how many bytes were taken.
fn taken(conn: &mut ServerConnection, piece: &[u8]) -> usize {
    match conn.feed(piece) {
        Ok(n) => n,
        Err(_) => conn.feed(piece).unwrap_or(0),
    }
}

/// Returns true if the query comes: its header is taken first, and then the rest.
fn comes(conn: &mut ServerConnection) -> bool {
    taken(conn, QUERY) == 16 && taken(conn, &QUERY[16..]) == 42 && conn.waiting() == 1
}

/// Returns whether the query is answered; none if memory for the server or for a reply is refused.
/// Where nothing changed by a refusal the same is done again.
fn is_answered(alloc: Global) -> Option<bool> {
    let mut conn = ServerConnection::new(alloc, 1).ok()?;
    let mut logged = Logged::new(alloc, Echo);
    if !comes(&mut conn) || !conn.output().is_empty() {
        return Some(false);
    }
    let answered = match conn.answer(&mut logged) {
        Err(AnswerRefusal::OutOfMemory) if conn.output().is_empty() => conn.answer(&mut logged),
        answered => answered,
    };
    match conn.state() {
        ConnState::Closed(CloseCause::NoMemory) => None,
        ConnState::Closed(CloseCause::Server(ServerCause::NoMemory)) => None,
        state => Some(answered == Ok(0) && state == ConnState::Open && conn.output().len() == 70),
    }
}

/// Returns true if the query is answered behind a refused allocation, at the second try at last.
fn goes_on(alloc: Global) -> bool {
    match is_answered(alloc) {
        Some(holds) => holds,
        None => is_answered(alloc) == Some(true),
    }
}

#[test]
fn a_refused_allocation_loses_no_query(rt: HostRuntime) {
    assert!(rt; goes_on(rt.alloc()));
}
