//! One connection of many where each allocation is refused in turn.

use crate::connections::{ANSWER, MESSAGE, link_of};
use std::alloc::Global;
use wire_peer::{Echo, ServerCause};
use wire_serve::{CloseCause, Connections, Leave, Turned};

/// Takes turns, and another one where memory was refused, which has to lose nothing. Returns the
/// last.
fn turned(conns: &mut Connections<wire_stream::MemLink, Echo>, key: usize) -> Option<Turned> {
    match conns.turn(key, 32) {
        Some(Turned::Over(Leave::OutOfMemory)) => conns.turn(key, 32),
        turned => turned,
    }
}

/// Returns whether a message is answered; none if memory for the connection, or for a reply, is
/// refused.
fn is_answered(alloc: Global) -> Option<bool> {
    let mut conns = Connections::new(alloc, Echo);
    let key = match conns.open(link_of(alloc, MESSAGE)?) {
        Ok(key) => key,
        Err(_) => conns.open(link_of(alloc, MESSAGE)?).ok()?,
    };
    match turned(&mut conns, key) {
        Some(Turned::Over(Leave::Closed(CloseCause::Server(ServerCause::NoMemory)))) => None,
        Some(Turned::Over(Leave::Closed(CloseCause::Server(ServerCause::Ended)))) => {
            let slot = conns.slot(key)?;
            Some(slot.link().sent_bytes() == ANSWER && conns.len() == 1)
        }
        _ => Some(false),
    }
}

/// Returns true if the message is answered behind a refused allocation, at the second try at last.
fn goes_on(alloc: Global) -> bool {
    match is_answered(alloc) {
        Some(holds) => holds,
        None => is_answered(alloc) == Some(true),
    }
}

#[test]
fn a_refused_allocation_loses_no_connection(rt: HostRuntime) {
    assert!(rt; goes_on(rt.alloc()));
}
