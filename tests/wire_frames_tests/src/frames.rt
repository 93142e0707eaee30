//! Messages of each kind, as PyMongo 3.11 sends them or as the manual lays them out, and readers
//! that take them in pieces.

ghost use Rattle.std.specs.Prelude.{◌≤◌};

use std::alloc::Global;
use wire_frames::{FrameFront, FrameReader, Opcode, RawFrame};
use wire_msg::{MsgCause, MsgFault, MsgHeader};

/// The greatest limit of a frame's bytes.
pub(crate) const LIMIT: u32 = 48_000_000;

/// Request 1, `{"ping": 1, "$db": "admin"}`.
pub(crate) const PING: &[u8; 51] = b"3\0\0\0\x01\0\0\0\0\0\0\0\xdd\x07\0\0\0\0\0\0\0\
    \x1e\0\0\0\x10ping\0\x01\0\0\0\x02$db\0\x06\0\0\0admin\0\0";

/// `{"ismaster": 1}` as query 7 to `admin.$cmd`.
pub(crate) const QUERY: &[u8; 58] =
    b":\0\0\0\x07\0\0\0\0\0\0\0\xd4\x07\0\0\0\0\0\0admin.$cmd\0\0\0\0\0\xff\xff\xff\xff\
    \x13\0\0\0\x10ismaster\0\x01\0\0\0\0";

/// The answer 9 to that query, `{"ok": 1.0}`.
const REPLY: &[u8; 53] =
    b"5\0\0\0\x09\0\0\0\x07\0\0\0\x01\0\0\0\x08\0\0\0\0\0\0\0\0\0\0\0\0\0\0\0\x01\0\0\0\
    \x11\0\0\0\x01ok\0\0\0\0\0\0\0\xf0?\0";

/// Request 3, a ping compressed by zlib.
const COMPRESSED: &[u8; 62] = b">\0\0\0\x03\0\0\0\0\0\0\0\xdc\x07\0\0\xdd\x07\0\0#\0\0\0\x02\
    x\x9cc`\0\x029 \x16(\xc8\xccKg`\x04\xb2\x98TR\x92\x18\xd8\x80\x8c\xc4\x94\xdc\xcc<\x06\x06\0C\
    \xdd\x04\xd9";

/// A message of the opCode 2010, of which nothing but a header is there.
const COMMAND: &[u8; 16] = b"\x10\0\0\0\x08\0\0\0\xff\xff\xff\xff\xda\x07\0\0";

/// Messages, with their lengths, ids, ids of what they answer, and kinds.
const ROWS: [(&[u8], u32, i32, i32, Opcode); 5] = [
    (PING, 51, 1, 0, Opcode::Msg),
    (QUERY, 58, 7, 0, Opcode::Query),
    (REPLY, 53, 9, 7, Opcode::Reply),
    (COMPRESSED, 62, 3, 0, Opcode::Compressed),
    (COMMAND, 16, 8, -1, Opcode::Other(2010)),
];

/// The opCodes of the manual, and some beside them.
const OPCODES: [(i32, Opcode); 8] = [
    (1, Opcode::Reply),
    (2004, Opcode::Query),
    (2012, Opcode::Compressed),
    (2013, Opcode::Msg),
    (0, Opcode::Other(0)),
    (2002, Opcode::Other(2002)),
    (2005, Opcode::Other(2005)),
    (-1, Opcode::Other(-1)),
];

/// What is told of bytes whose length no frame has.
const BAD: FrameFront<'static> = FrameFront::Bad(MsgFault {
    at: 0,
    cause: MsgCause::Length,
});

/// Returns true if the frame has these bytes, this header and this kind.
fn is_row(frame: RawFrame<'_>, bytes: &[u8], header: MsgHeader, opcode: Opcode) -> bool {
    frame.as_bytes() == bytes && frame.header() == header && frame.opcode() == opcode
}

#[test]
fn messages_of_each_kind_are_framed(rt: HostRuntime) {
    for (bytes, length, id, response_to, opcode) in &ROWS {
        let header = MsgHeader {
            length: *length,
            id: *id,
            response_to: *response_to,
            opcode: opcode.number(),
        };
        match RawFrame::front(bytes, LIMIT) {
            FrameFront::Whole { frame, rest } => {
                assert!(rt; rest.is_empty(), "{length}");
                assert!(rt; is_row(frame, bytes, header, *opcode), "{length}");
            }
            _ => assert!(rt; false, "{length}"),
        }
    }
}

#[test]
fn opcodes_are_those_of_the_manual(rt: HostRuntime) {
    for (number, opcode) in &OPCODES {
        assert!(rt; Opcode::from_number(*number) == *opcode, "{number}");
        assert!(rt; opcode.number() == *number, "{number}");
    }
}

/// Returns true if `QUERY` is no frame with this length in the place of its own.
fn is_bad_with(length: &[u8; 4]) -> bool {
    let mut bytes = *QUERY;
    bytes[..4].copy_from_slice(length);
    RawFrame::front(&bytes, 58) == BAD
}

/// Returns true if the first `n` bytes of `QUERY` are a front to which `wanted` are added next.
fn wants(n: usize, limit: u32, wanted: usize) -> bool
    requires { limit ≤ 48000000 }
{
    match QUERY.get(..n) {
        Some(front) => RawFrame::front(front, limit) == FrameFront::Open { wanted },
        None => false,
    }
}

#[test]
fn lengths_are_within_the_limit(rt: HostRuntime) {
    // 15, 59, -1 and 2 ^ 31 - 1
    for length in &[
        b"\x0f\0\0\0",
        b";\0\0\0",
        b"\xff\xff\xff\xff",
        b"\xff\xff\xff\x7f",
    ] {
        assert!(rt; is_bad_with(*length));
    }
    assert!(rt; RawFrame::front(QUERY, 57) == BAD);
    assert!(rt; wants(3, 57, 13));
    assert!(rt; wants(16, 58, 42));
    assert!(rt; wants(57, 58, 1));
}

/// Returns true if the reader's frame has these bytes.
pub(crate) fn holds(reader: &FrameReader, bytes: &[u8]) -> bool {
    match reader.front() {
        FrameFront::Whole { frame, .. } => frame.as_bytes() == bytes,
        _ => false,
    }
}

/// Returns true if a reader makes `bytes` of pieces of at most `size` bytes.
fn comes_in_pieces(alloc: Global, bytes: &[u8], size: usize) -> bool {
    let mut reader = FrameReader::new(alloc, LIMIT);
    let mut rest = bytes;
    for _ in 0..bytes.len() + 2 {
        let n = match reader.feed(&rest[..rest.len().min(size)]) {
            Ok(n) if n <= rest.len() => n,
            _ => return false,
        };
        rest = &rest[n..];
        if rest.is_empty() {
            return holds(&reader, bytes);
        }
    }
    false
}

#[test]
fn frames_come_in_pieces(rt: HostRuntime) {
    for (bytes, length, ..) in &ROWS {
        for size in &[1, 7, 16, 64] {
            assert!(rt;
                comes_in_pieces(rt.alloc(), bytes, *size),
                "{length} {size}"
            );
        }
    }
}
