//! A test of serving where memory is refused. `scripts/checks/try-refusals` runs it with each of
//! its allocations refused in turn. Only one is refused in a run, so a connection that is served
//! again is served to its end.

ghost use Rattle.wire_end.specs.{IsUnused};

use crate::links::{link_of, server_over};
use std::alloc::Global;
use wire_end::{ServeEnd, ServerEnd};
use wire_peer::{Echo, Entry, Logged};
use wire_peer_tests::log_rows::{Noted, is_log};
use wire_stream::MemLink;

/// `{"a": 1}`.
const ONE: &[u8] = b"\x0c\0\0\0\x10a\0\x01\0\0\0\0";

/// `{"a": 2}`.
const TWO: &[u8] = b"\x0c\0\0\0\x10a\0\x02\0\0\0\0";

/// `{"a": 1}` as request 1, and `{"a": 2}` as request 2.
const REQUESTS: &[u8] =
    b"\x21\0\0\0\x01\0\0\0\0\0\0\0\xdd\x07\0\0\0\0\0\0\0\x0c\0\0\0\x10a\0\x01\0\0\0\0\x21\0\0\0\x02\0\0\0\0\0\0\0\xdd\x07\0\0\0\0\0\0\0\x0c\0\0\0\x10a\0\x02\0\0\0\0";

/// The replies to them, with ids 1 and 2.
const REPLIES: &[u8; 66] =
    b"\x21\0\0\0\x01\0\0\0\x01\0\0\0\xdd\x07\0\0\0\0\0\0\0\x0c\0\0\0\x10a\0\x01\0\0\0\0\x21\0\0\0\x02\0\0\0\x02\0\0\0\xdd\x07\0\0\0\0\0\0\0\x0c\0\0\0\x10a\0\x02\0\0\0\0";

/// A log as it may be after memory ran out, and how many bytes were sent then.
type Stopped<'a> = (&'a [Noted<'a>], usize);

/// Logs of all requests, of the first one, and of none, whose replies were sent; and logs for whose
/// last entry memory ran out, so that it has no reply.
const STOPPED: [Stopped<'_>; 7] = [
    (&[(ONE, Some(&[ONE])), (TWO, Some(&[TWO]))], 66),
    (&[(ONE, Some(&[ONE]))], 33),
    (&[], 0),
    (&[(ONE, None)], 0),
    (&[(ONE, Some(&[ONE]))], 0),
    (&[(ONE, Some(&[ONE])), (TWO, None)], 33),
    (&[(ONE, Some(&[ONE])), (TWO, Some(&[TWO]))], 33),
];

/// Returns true if the log is that of `stopped`, and as many first bytes of the replies were sent
/// as it says.
fn stands(entries: &[Entry], sent: &[u8], stopped: &Stopped<'_>) -> bool {
    let (log, count) = *stopped;
    is_log(entries, 1, log) && sent.len() == count && REPLIES.starts_with(sent)
}

/// Returns true if serving may stop with this log and these bytes sent if memory runs out.
fn may_stop(entries: &[Entry], sent: &[u8]) -> bool {
    for row in &STOPPED {
        if stands(entries, sent, row) {
            return true;
        }
    }
    false
}

/// Returns whether all was answered; or `None` if memory ran out, and the entries, or those before
/// the last one, have their replies.
fn outcome(end: ServeEnd, entries: &[Entry], sent: &[u8]) -> Option<bool> {
    match end {
        ServeEnd::Ended => Some(stands(entries, sent, &STOPPED[0])),
        ServeEnd::OutOfMemory if may_stop(entries, sent) => None,
        _ => Some(false),
    }
}

/// Returns the outcome of serving at this end.
fn serves(alloc: Global, end: &mut ServerEnd<MemLink>) -> Option<bool>
    requires { IsUnused end.old }
{
    let mut logged = Logged::new(alloc, Echo);
    let why = end.serve(&mut logged, 10);
    outcome(why, logged.entries(), end.link().sent_bytes())
}

/// Returns the outcome of serving the requests, or `None` if there was no memory for its end.
fn serves_requests(alloc: Global) -> Option<bool> {
    let link = link_of(alloc, REQUESTS)?;
    let mut end = server_over(alloc, link, 1, 48_000_000)?;
    let served = serves(alloc, &mut end);
    drop(end);
    served
}

/// Returns true if the requests are served, at the second try if memory runs out.
fn serves_at_last(alloc: Global) -> bool {
    match serves_requests(alloc) {
        Some(holds) => holds,
        None => serves_requests(alloc) == Some(true),
    }
}

#[test]
fn serving_ends_where_memory_runs_out(rt: HostRuntime) {
    assert!(rt; serves_at_last(rt.alloc()));
}
