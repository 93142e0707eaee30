//! Tests of a line of each form.

use crate::readings::{Reading, reads};
use std::alloc::Global;
use wire_model::WorldLimits;
use wire_peer::CallKind;
use wire_play::{HandlerName, Setup};

/// `{"a": 1}`.
const ONE: &[u8] = b"\x0c\0\0\0\x10a\0\x01\0\0\0\0";

/// `{"a": {"b": 1, "b": 2}}`: only top-level names have to be unique.
const INNER: &[u8] = b"\x1b\0\0\0\x03a\0\x13\0\0\0\x10b\0\x01\0\0\0\x10b\0\x02\0\0\0\0\0";

/// The first line of a script, its handler, and the first id, the window, the number of connections
/// and the limit.
type World<'a> = (&'a [u8], HandlerName, i32, usize, usize, u32);

/// First lines. Numbers with which no world is made are read, too.
const WORLDS: [World<'static>; 4] = [
    (
        b"world echo 1 8 8 48000000",
        HandlerName::Echo,
        1,
        8,
        8,
        48_000_000,
    ),
    (
        b"world count 2147483647 1024 1 26",
        HandlerName::Count,
        2_147_483_647,
        1024,
        1,
        26,
    ),
    (b"world echo 0 0 0 0", HandlerName::Echo, 0, 0, 0, 0),
    (
        b"world count 1 18446744073709551615 18446744073709551615 4294967295",
        HandlerName::Count,
        1,
        18_446_744_073_709_551_615,
        18_446_744_073_709_551_615,
        4_294_967_295,
    ),
];

/// Events that name no bytes.
const EVENTS: [(&[u8], Reading<'static>); 13] = [
    (b"open", Reading::Open),
    (b"return 1", Reading::Return(1)),
    (b"up 1 33", Reading::Up(1, 33)),
    (b"down 2 165", Reading::Down(2, 165)),
    (b"answer 1 0", Reading::Answer(1, 0)),
    (b"cutup 3", Reading::CutUp(3)),
    (b"cutdown 4", Reading::CutDown(4)),
    (b"clear", Reading::Clear),
    (b"restart", Reading::Restart),
    (b"rawopen", Reading::RawOpen),
    (b"rawtake 2 99", Reading::RawTake(2, 99)),
    (b"return 00000000000000000001", Reading::Return(1)),
    (
        b"up 18446744073709551615 18446744073709551615",
        Reading::Up(18_446_744_073_709_551_615, 18_446_744_073_709_551_615),
    ),
];

/// Events that name bytes, in digits of either case.
const BYTES: [(&[u8], Reading<'static>); 7] = [
    (
        b"call 1 0c0000001061000100000000",
        Reading::Call(1, CallKind::Plain, ONE),
    ),
    (
        b"exhaust 2 0C0000001061000100000000",
        Reading::Call(2, CallKind::Exhaust, ONE),
    ),
    (
        b"send 3 0500000000",
        Reading::Call(3, CallKind::Unacknowledged, b"\x05\0\0\0\0"),
    ),
    (
        b"call 0 1b0000000361001300000010620001000000106200020000000000",
        Reading::Call(0, CallKind::Plain, INNER),
    ),
    (b"raw 2 00", Reading::Raw(2, b"\0")),
    (b"raw 2 fFAb0a", Reading::Raw(2, b"\xff\xab\n")),
    (
        b"raw 2 100000000100000000000000d4070000",
        Reading::Raw(2, b"\x10\0\0\0\x01\0\0\0\0\0\0\0\xd4\x07\0\0"),
    ),
];

/// Returns true if each line is read as its row says.
fn all_read(alloc: Global, rows: &[(&[u8], Reading<'_>)]) -> bool {
    for (line, reading) in rows {
        if !reads(alloc, line, *reading) {
            return false;
        }
    }
    true
}

/// Returns true if the first line of a script is read as the row says.
fn world_reads(alloc: Global, row: World<'_>) -> bool {
    let (line, handler, first_id, window, connections, limit) = row;
    let limits = WorldLimits {
        first_id,
        window,
        connections,
        limit,
    };
    reads(alloc, line, Reading::World(Setup { handler, limits }))
}

#[test]
fn first_lines_are_read(rt: HostRuntime) {
    for row in &WORLDS {
        assert!(rt; world_reads(rt.alloc(), *row));
    }
}

#[test]
fn events_are_read(rt: HostRuntime) {
    assert!(rt; all_read(rt.alloc(), &EVENTS));
}

#[test]
fn events_with_bytes_are_read(rt: HostRuntime) {
    assert!(rt; all_read(rt.alloc(), &BYTES));
}
