//! Heads of records, as Python's `struct` packs them with `<qqi`, records of two messages, and
//! readers that take them in pieces.

ghost use Rattle.std.specs.Prelude.{◌≡◌};

use std::alloc::Global;
use wire_frames::{
    Direction, FrameFront, RawFrame, RawRecord, RecordCause, RecordFault, RecordFront, RecordHead,
    RecordReader, SIGNATURE, write_record,
};

/// The greatest limit of a message's bytes.
pub(crate) const LIMIT: u32 = 48_000_000;

/// Heads and their bytes.
const HEADS: [(i64, u64, Direction, &[u8; 20]); 3] = [
    (
        1_764_230_000_123_456,
        1,
        Direction::ToServer,
        b"\x40\x9e\x75\xce\x8e\x44\x06\x00\x01\0\0\0\0\0\0\0\0\0\0\0",
    ),
    (
        -1,
        9_223_372_036_854_775_807,
        Direction::FromServer,
        b"\xff\xff\xff\xff\xff\xff\xff\xff\xff\xff\xff\xff\xff\xff\xff\x7f\x01\0\0\0",
    ),
    (
        0,
        258,
        Direction::FromServer,
        b"\0\0\0\0\0\0\0\0\x02\x01\0\0\0\0\0\0\x01\0\0\0",
    ),
];

/// Heads at fault: the connections 0, -1 and the least int64, and the directions 2, -1 and 256.
const FAULTS: [(&[u8; 20], usize, RecordCause); 7] = [
    (
        b"\0\0\0\0\0\0\0\0\0\0\0\0\0\0\0\0\0\0\0\0",
        8,
        RecordCause::Connection,
    ),
    (
        b"\0\0\0\0\0\0\0\0\xff\xff\xff\xff\xff\xff\xff\xff\0\0\0\0",
        8,
        RecordCause::Connection,
    ),
    (
        b"\0\0\0\0\0\0\0\0\0\0\0\0\0\0\0\x80\0\0\0\0",
        8,
        RecordCause::Connection,
    ),
    // of two faults the first one is told
    (
        b"\0\0\0\0\0\0\0\0\0\0\0\0\0\0\0\0\x02\0\0\0",
        8,
        RecordCause::Connection,
    ),
    (
        b"\0\0\0\0\0\0\0\0\x01\0\0\0\0\0\0\0\x02\0\0\0",
        16,
        RecordCause::Direction,
    ),
    (
        b"\0\0\0\0\0\0\0\0\x01\0\0\0\0\0\0\0\xff\xff\xff\xff",
        16,
        RecordCause::Direction,
    ),
    (
        b"\0\0\0\0\0\0\0\0\x01\0\0\0\0\0\0\0\0\x01\0\0",
        16,
        RecordCause::Direction,
    ),
];

/// The first of `HEADS`, and a message of the opCode 2010, of which nothing but a header is there.
pub(crate) const RECORD: &[u8; 36] = b"\x40\x9e\x75\xce\x8e\x44\x06\x00\x01\0\0\0\0\0\0\0\0\0\0\0\
    \x10\0\0\0\x08\0\0\0\xff\xff\xff\xff\xda\x07\0\0";

/// The answer 9 to query 7, `{"ok": 1.0}`, from the server, on connection 258 at time 0.
pub(crate) const ANSWER: &[u8; 73] = b"\0\0\0\0\0\0\0\0\x02\x01\0\0\0\0\0\0\x01\0\0\0\
    5\0\0\0\x09\0\0\0\x07\0\0\0\x01\0\0\0\x08\0\0\0\0\0\0\0\0\0\0\0\0\0\0\0\x01\0\0\0\
    \x11\0\0\0\x01ok\0\0\0\0\0\0\0\xf0?\0";

/// The texts of faults.
const TEXTS: [(RecordCause, usize, &str); 3] = [
    (RecordCause::Length, 20, "fault 1 Length at 20"),
    (RecordCause::Connection, 8, "fault 17 Connection at 8"),
    (RecordCause::Direction, 16, "fault 18 Direction at 16"),
];

#[test]
fn a_file_begins_with_its_own_bytes(rt: HostRuntime) {
    assert!(rt; SIGNATURE == *b"LUGHREC1");
    // No message begins so.
    let mut bytes = [0; 16];
    bytes[..8].copy_from_slice(&SIGNATURE);
    let bad = match RawFrame::front(&bytes, LIMIT) {
        FrameFront::Bad(_) => true,
        _ => false,
    };
    assert!(rt; bad);
}

#[test]
fn heads_are_those_of_the_format(rt: HostRuntime) {
    for (micros, connection, direction, bytes) in &HEADS {
        let head = RecordHead {
            micros: *micros,
            connection: *connection,
            direction: *direction,
        };
        assert!(rt; head.to_bytes() == **bytes, "{connection}");
        assert!(rt; RecordHead::read(bytes) == Ok(head), "{connection}");
    }
}

#[test]
fn heads_are_checked(rt: HostRuntime) {
    for (bytes, at, cause) in &FAULTS {
        let fault = RecordFault {
            at: *at,
            cause: *cause,
        };
        assert!(rt; RecordHead::read(bytes) == Err(fault), "{at}");
        assert!(rt;
            RawRecord::front(*bytes, LIMIT) == RecordFront::Bad(fault),
            "{at}"
        );
    }
}

#[test]
fn lengths_are_checked(rt: HostRuntime) {
    let bad = RecordFront::Bad(RecordFault {
        at: 20,
        cause: RecordCause::Length,
    });
    // 15, 17 and -1 where the limit is 16
    for length in &[b"\x0f\0\0\0", b"\x11\0\0\0", b"\xff\xff\xff\xff"] {
        let mut bytes = *RECORD;
        bytes[20..24].copy_from_slice(*length);
        assert!(rt; RawRecord::front(&bytes, 16) == bad);
    }
    for (len, wanted) in &[(0, 20), (19, 1), (20, 16), (35, 1), (36, 37), (72, 1)] {
        let open = RecordFront::Open { wanted: *wanted };
        // Of the answer, the length is there from 36 bytes on.
        assert!(rt; RawRecord::front(&ANSWER[..*len], LIMIT) == open, "{len}");
    }
}

/// Returns the message in the last bytes of a record.
pub(crate) fn frame_of(record: &[u8]) -> Option<RawFrame<'_>> {
    let behind = record.get(20..)?;
    match RawFrame::front(behind, LIMIT) {
        FrameFront::Whole { frame, .. } => Some(frame),
        _ => None,
    }
}

/// Returns the head of `RECORD`.
pub(crate) fn head() -> RecordHead
    ensures { result.connection ≡ 1 }
{
    RecordHead {
        micros: 1_764_230_000_123_456,
        connection: 1,
        direction: Direction::ToServer,
    }
}

/// Returns true if what is written behind one byte is that byte and `RECORD`.
fn is_written(alloc: Global) -> bool {
    let mut out = Vec::new(alloc);
    let Some(frame) = frame_of(RECORD) else {
        return false;
    };
    out.push(7).is_ok()
        && write_record(head(), frame, &mut out).is_ok()
        && out.as_slice().split_first() == Some((&7, RECORD.as_slice()))
}

#[test]
fn a_record_is_its_head_and_its_message(rt: HostRuntime) {
    assert!(rt; is_written(rt.alloc()));
}

/// Returns true if the reader's record has these bytes, and a head and a message of them.
pub(crate) fn holds(reader: &RecordReader, bytes: &[u8]) -> bool {
    let Some((head, message)) = bytes.split_at_checked(20) else {
        return false;
    };
    match reader.front() {
        RecordFront::Whole { record, rest } => {
            rest.is_empty()
                && record.as_bytes() == bytes
                && record.head().to_bytes().as_slice() == head
                && record.frame().as_bytes() == message
        }
        _ => false,
    }
}

/// Returns true if a reader makes `bytes` of pieces of at most `size` bytes.
fn comes_in_pieces(alloc: Global, bytes: &[u8], size: usize) -> bool {
    let mut reader = RecordReader::new(alloc, LIMIT);
    let mut rest = bytes;
    for _ in 0..bytes.len() + 3 {
        let n = match reader.feed(&rest[..rest.len().min(size)]) {
            Ok(n) if n <= rest.len() => n,
            _ => return false,
        };
        rest = &rest[n..];
        if rest.is_empty() {
            return reader.held() == bytes.len() && holds(&reader, bytes);
        }
    }
    false
}

#[test]
fn records_come_in_pieces(rt: HostRuntime) {
    for size in &[1, 7, 20, 36, 64, 100] {
        assert!(rt; comes_in_pieces(rt.alloc(), RECORD, *size), "{size}");
        assert!(rt; comes_in_pieces(rt.alloc(), ANSWER, *size), "{size}");
    }
}

#[test]
fn faults_have_a_text(rt: HostRuntime) {
    let alloc = rt.alloc();
    for (cause, at, text) in &TEXTS {
        let fault = RecordFault {
            at: *at,
            cause: *cause,
        };
        let shown = format!(in alloc; "{fault}");
        let is = match &shown {
            Ok(shown) => shown.as_str() == *text,
            Err(_) => false,
        };
        assert!(rt; is, "{text}");
    }
}
