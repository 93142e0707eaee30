//! Relays between links in memory, which end behind the bytes that they give.

ghost use Rattle.std.specs.Prelude.{◌<◌, None, Some};

use sockets::{EndSending, NoTap, Relay, RelayFault, Tap, Turned};
use std::alloc::Global;
use std::io::ErrorKind;
use wire_stream::{Link, LinkFault, MemLink, Moved};

/// The most bytes that a link takes.
const ROOM: usize = 64;

/// A link in memory that knows how often its sending was ended.
#[derive(Drop)]
pub(crate) struct Side {
    link: MemLink,
    endings: u64,
}

impl Link for Side {
    ghost received = { λ s. Some s.link.received };

    ghost sent = { λ s. Some s.link.sent };

    ghost turns = { λ _. None };

    ghost failures = { λ s. s.link.failures };

    ghost ends = { λ s. s.link.ends };

    ghost waits = { λ _. 0 };

    fn recv(&mut self, buffer: &mut [u8]) -> Result<Moved, LinkFault> {
        self.link.recv(buffer)
    }

    fn send(&mut self, bytes: &[u8]) -> Result<Moved, LinkFault> {
        self.link.send(bytes)
    }
}

impl EndSending for Side {
    ghost endings = { λ s. s.endings };

    fn end_sending(&mut self) -> Result<(), LinkFault> {
        self.endings = self.endings.saturating_add(1);
        Ok(())
    }
}

/// Returns a side that gives `bytes`, at most `most` at a time.
pub(crate) fn link_of(alloc: Global, bytes: &[u8], most: usize) -> Option<Side>
    requires { 0 < most }
{
    let input = bytes.to_vec(alloc).ok()?;
    let link = MemLink::new(alloc, input, ROOM).ok()?;
    Some(Side {
        link: link.moving_at_most(most),
        endings: 0,
    })
}

/// Keeps the bytes that it sees, as long as there is memory.
#[derive(Drop)]
struct Kept(Vec<u8>);

impl Tap for Kept {
    ghost seen = { λ _. None };

    fn see(&mut self, bytes: &[u8]) {
        let _ = self.0.extend_from_slice(bytes);
    }
}

/// Returns true if the side was sent these bytes and then, once, the end.
pub(crate) fn has(side: &Side, bytes: &[u8]) -> bool {
    side.link.sent_bytes() == bytes && side.endings == 1
}

/// Returns whether each side gets the other's bytes and end, moved at most so many at a time, and
/// the taps see them.
fn passes(alloc: Global, near: &[u8], far: &[u8], most: usize) -> Option<bool>
    requires { 0 < most }
{
    let near_side = link_of(alloc, near, most)?;
    let far_side = link_of(alloc, far, most)?;
    let mut relay = Relay::new(alloc, near_side, far_side).ok()?;
    let mut there = Kept(Vec::new(alloc));
    let mut back = Kept(Vec::new(alloc));
    let over = relay.turn(1000, &mut there, &mut back) == Ok(Turned::Over);
    let seen = there.0.as_slice() == near && back.0.as_slice() == far;
    Some(over && seen && has(relay.near(), far) && has(relay.far(), near))
}

#[test]
fn each_side_gets_the_others_bytes(rt: HostRuntime) {
    for most in 1..4 {
        assert!(rt; passes(rt.alloc(), b"hello", b"to you", most) == Some(true));
        assert!(rt; passes(rt.alloc(), b"", b"none came", most) == Some(true));
        assert!(rt; passes(rt.alloc(), b"", b"", most) == Some(true));
    }
}

/// Returns what a turn comes to whose far link fails at its first call.
fn fails(alloc: Global) -> Option<Result<Turned, RelayFault>> {
    let near = link_of(alloc, b"lost", 1)?;
    let far = Side {
        link: MemLink::new(alloc, Vec::new(alloc), ROOM)
            .ok()?
            .failing_after(0),
        endings: 0,
    };
    let mut relay = Relay::new(alloc, near, far).ok()?;
    Some(relay.turn(1000, &mut NoTap, &mut NoTap))
}

#[test]
fn a_link_that_fails_is_told(rt: HostRuntime) {
    let fault = LinkFault {
        kind: ErrorKind::ConnectionReset,
    };
    assert!(rt; fails(rt.alloc()) == Some(Err(RelayFault::Receiving(fault))));
}
