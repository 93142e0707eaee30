//! Two connections of a server that echoes, over links in memory and over streams that would block.

use std::alloc::Global;
use std::io;
use std::io::{ErrorKind, Read, Write};
use wire_peer::{Echo, ServerCause};
use wire_serve::{CloseCause, Connections, Leave, Turned};
use wire_stream::{LinkFault, MemLink, TcpLink};

/// `{"a": 1}` as message 7, and its answer of id 1.
pub(crate) const MESSAGE: &[u8] =
    b"\x21\0\0\0\x07\0\0\0\0\0\0\0\xdd\x07\0\0\0\0\0\0\0\x0c\0\0\0\x10a\0\x01\0\0\0\0";

pub(crate) const ANSWER: &[u8] =
    b"\x21\0\0\0\x01\0\0\0\x07\0\0\0\xdd\x07\0\0\0\0\0\0\0\x0c\0\0\0\x10a\0\x01\0\0\0\0";

/// `{"ismaster": 1}` to `admin.$cmd` as query 3, and the OP_REPLY of id 1 with the body of its
/// message, `{"ismaster": 1, "$db": "admin"}`.
const QUERY: &[u8] =
    b"\x3a\0\0\0\x03\0\0\0\0\0\0\0\xd4\x07\0\0\0\0\0\0admin.$cmd\0\0\0\0\0\xff\xff\xff\xff\x13\0\0\0\x10ismaster\0\x01\0\0\0\0";

const REPLY: &[u8] =
    b"\x46\0\0\0\x01\0\0\0\x03\0\0\0\x01\0\0\0\0\0\0\0\0\0\0\0\0\0\0\0\0\0\0\0\x01\0\0\0\x22\0\0\0\x10ismaster\0\x01\0\0\0\x02$db\0\x06\0\0\0admin\0\0";

const ENDED: Turned = Turned::Over(Leave::Closed(CloseCause::Server(ServerCause::Ended)));

/// Returns a link that gives these bytes, and has room for 100.
pub(crate) fn link_of(alloc: Global, bytes: &[u8]) -> Option<MemLink> {
    let input = Vec::from_slice(alloc, bytes).ok()?;
    MemLink::new(alloc, input, 100).ok()
}

/// Returns true if the slot of this key has this number and sent these bytes.
fn sent_is(conns: &Connections<MemLink, Echo>, key: usize, number: u64, bytes: &[u8]) -> bool {
    match conns.slot(key) {
        Some(slot) => slot.connection() == number && slot.link().sent_bytes() == bytes,
        None => false,
    }
}

/// Opens a connection at which a message comes, and one at which a query comes. Returns their keys.
fn open_two(alloc: Global, conns: &mut Connections<MemLink, Echo>) -> Option<(usize, usize)> {
    let next = conns.next_key();
    let first = conns.open(link_of(alloc, MESSAGE)?).ok()?;
    let second = conns.open(link_of(alloc, QUERY)?).ok()?;
    if first == next && conns.next_number() == 3 && conns.len() == 2 {
        Some((first, second))
    } else {
        None
    }
}

/// Returns true if each connection is answered in turns of its own, and is forgotten then.
fn serves_two(alloc: Global) -> bool {
    let mut conns = Connections::new(alloc, Echo);
    let Some((first, second)) = open_two(alloc, &mut conns) else {
        return false;
    };
    let begun = conns.turn(first, 2) == Some(Turned::Again) && conns.entries().is_empty();
    let other = conns.turn(second, 32) == Some(ENDED) && sent_is(&conns, second, 2, REPLY);
    if conns.entries().len() != 1 {
        return false;
    }
    conns.forget(1);
    let then = conns.turn(first, 32) == Some(ENDED) && sent_is(&conns, first, 1, ANSWER);
    let anew = conns.entries().len() == 1;
    conns.close(first);
    let gone = conns.turn(first, 32).is_none() && conns.len() == 1;
    begun && other && then && anew && gone
}

#[test]
fn two_connections_are_served(rt: HostRuntime) {
    assert!(rt; serves_two(rt.alloc()));
}

/// A stream that fails each call for this reason.
#[derive(Drop)]
struct Failing(ErrorKind);

impl Read for Failing {
    fn read(&mut self, buffer: &mut [u8]) -> io::Result<usize> {
        Err(io::Error::from(self.0))
    }
}

impl Write for Failing {
    fn write(&mut self, bytes: &[u8]) -> io::Result<usize> {
        Err(io::Error::from(self.0))
    }

    fn flush(&mut self) -> io::Result<()> {
        Ok(())
    }
}

/// Returns what a turn over such a stream came to.
fn turned_over(alloc: Global, kind: ErrorKind) -> Option<Turned> {
    let mut conns = Connections::new(alloc, Echo);
    let key = conns.open(TcpLink::new(Failing(kind))).ok()?;
    conns.turn(key, 32)
}

#[test]
fn links_that_fail_are_left(rt: HostRuntime) {
    let fault = LinkFault {
        kind: ErrorKind::ConnectionReset,
    };
    assert!(rt; turned_over(rt.alloc(), ErrorKind::WouldBlock) == Some(Turned::Waits));
    assert!(rt;
        turned_over(rt.alloc(), ErrorKind::ConnectionReset)
            == Some(Turned::Over(Leave::Link(fault)))
    );
}
