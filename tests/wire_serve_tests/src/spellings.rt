//! Queries and messages before a server that echoes, in pieces of every length, and what is sent.

ghost use Rattle.std.specs.Prelude.{◌<◌, ◌≤◌};

use std::alloc::Global;
use wire_msg::{MsgCause, MsgFault};
use wire_peer::{Echo, Logged, ServerCause};
use wire_query::{QueryCause, QueryFault};
use wire_serve::{CloseCause, ConnState, ServerConnection};

/// `{"ismaster": 1}` to `admin.$cmd` as query 3, and the OP_REPLY of id 1 with the body of its
/// message, `{"ismaster": 1, "$db": "admin"}`.
pub(crate) const QUERY: &[u8] =
    b"\x3a\0\0\0\x03\0\0\0\0\0\0\0\xd4\x07\0\0\0\0\0\0admin.$cmd\0\0\0\0\0\xff\xff\xff\xff\x13\0\0\0\x10ismaster\0\x01\0\0\0\0";

const REPLY: &[u8] =
    b"\x46\0\0\0\x01\0\0\0\x03\0\0\0\x01\0\0\0\0\0\0\0\0\0\0\0\0\0\0\0\0\0\0\0\x01\0\0\0\x22\0\0\0\x10ismaster\0\x01\0\0\0\x02$db\0\x06\0\0\0admin\0\0";

/// `{"a": 1}` as message 7, and its answer of id 2 and of id 1.
const MESSAGE: &[u8] =
    b"\x21\0\0\0\x07\0\0\0\0\0\0\0\xdd\x07\0\0\0\0\0\0\0\x0c\0\0\0\x10a\0\x01\0\0\0\0";

const ANSWER_2: &[u8] =
    b"\x21\0\0\0\x02\0\0\0\x07\0\0\0\xdd\x07\0\0\0\0\0\0\0\x0c\0\0\0\x10a\0\x01\0\0\0\0";

const ANSWER_1: &[u8] =
    b"\x21\0\0\0\x01\0\0\0\x07\0\0\0\xdd\x07\0\0\0\0\0\0\0\x0c\0\0\0\x10a\0\x01\0\0\0\0";

/// A query whose name is `admin.cmd`, the header of one of 16 bytes, one of 65,537, and one of
/// opcode 2010.
const OTHER: &[u8] =
    b"\x39\0\0\0\x03\0\0\0\0\0\0\0\xd4\x07\0\0\0\0\0\0admin.cmd\0\0\0\0\0\xff\xff\xff\xff\x13\0\0\0\x10ismaster\0\x01\0\0\0\0";

const SHORT: &[u8] = b"\x10\0\0\0\x03\0\0\0\0\0\0\0\xd4\x07\0\0";

const LONG: &[u8] = b"\x01\0\x01\0\x03\0\0\0\0\0\0\0\xd4\x07\0\0";

const COMMAND: &[u8] = b"\x10\0\0\0\x03\0\0\0\0\0\0\0\xda\x07\0\0";

/// What comes, in order, what is sent, and how the server connection closes at the end of the
/// bytes.
struct Row {
    comes: [&'static [u8]; 3],
    sent: [&'static [u8]; 2],
    cause: CloseCause,
}

const ENDED: CloseCause = CloseCause::Server(ServerCause::Ended);

const INSIDE: CloseCause = CloseCause::Server(ServerCause::EndedInside);

const NAME: CloseCause = CloseCause::Query(QueryFault {
    at: 20,
    cause: QueryCause::Collection,
});

const OPCODE: CloseCause = CloseCause::Server(ServerCause::Message(MsgFault {
    at: 12,
    cause: MsgCause::Opcode(2004),
}));

const OLDER: CloseCause = CloseCause::Server(ServerCause::Message(MsgFault {
    at: 12,
    cause: MsgCause::Opcode(2010),
}));

const ROWS: [Row; 9] = [
    Row {
        comes: [QUERY, b"", b""],
        sent: [REPLY, b""],
        cause: ENDED,
    },
    Row {
        comes: [QUERY, MESSAGE, b""],
        sent: [REPLY, ANSWER_2],
        cause: ENDED,
    },
    Row {
        comes: [MESSAGE, b"", b""],
        sent: [ANSWER_1, b""],
        cause: ENDED,
    },
    Row {
        comes: [MESSAGE, b"\x3a\0\0\0\x03", b""],
        sent: [ANSWER_1, b""],
        cause: CloseCause::EndedInside,
    },
    Row {
        comes: [QUERY, b"\x21\0\0\0\x07\0\0\0\0\0\0\0\xdd\x07\0\0\0", b""],
        sent: [REPLY, b""],
        cause: INSIDE,
    },
    Row {
        comes: [QUERY, OTHER, QUERY],
        sent: [REPLY, b""],
        cause: NAME,
    },
    Row {
        comes: [SHORT, QUERY, b""],
        sent: [b"", b""],
        cause: OPCODE,
    },
    Row {
        comes: [MESSAGE, LONG, b""],
        sent: [ANSWER_1, b""],
        cause: OPCODE,
    },
    Row {
        comes: [COMMAND, MESSAGE, b""],
        sent: [b"", b""],
        cause: OLDER,
    },
];

/// Feeds a piece, answers what waits, and appends what is put out, until the server connection
/// takes no more.
fn serve(
    conn: &mut ServerConnection,
    logged: &mut Logged<Echo>,
    piece: &[u8],
    sent: &mut Vec<u8>,
) -> bool {
    let mut left = piece;
    for _ in 0..400u32 {
        if !conn.output().is_empty() {
            if sent.extend_from_slice(conn.output()).is_err() {
                return false;
            }
            let all = conn.output().len();
            conn.sent(all);
        } else if conn.waiting() > 0 {
            if conn.answer(logged).is_err() {
                return false;
            }
        } else {
            match conn.feed(left) {
                Ok(0) => return true,
                Ok(n) => left = &left[n..],
                Err(_) => return false,
            }
        }
    }
    false
}

/// Joins parts.
fn joined(alloc: Global, parts: &[&[u8]]) -> Option<Vec<u8>> {
    let mut bytes = Vec::new(alloc);
    for part in parts {
        bytes.extend_from_slice(part).ok()?;
    }
    Some(bytes)
}

/// Returns true if the bytes of the row, in pieces of at most `most`, come to what it says.
fn comes_to(alloc: Global, row: &Row, most: usize) -> bool
    requires { 0 < most }
{
    let Ok(mut conn) = ServerConnection::new(alloc, 1) else {
        return false;
    };
    let mut logged = Logged::new(alloc, Echo);
    let mut sent = Vec::new(alloc);
    let Some(bytes) = joined(alloc, &row.comes) else {
        return false;
    };
    for piece in bytes.as_slice().chunks(most) {
        if !serve(&mut conn, &mut logged, piece, &mut sent) {
            return false;
        }
    }
    conn.end();
    let Some(wanted) = joined(alloc, &row.sent) else {
        return false;
    };
    conn.state() == ConnState::Closed(row.cause) && sent.as_slice() == wanted.as_slice()
}

#[test]
fn queries_and_messages_are_answered(rt: HostRuntime) {
    for row in &ROWS {
        for most in [1, 7, 16, 30, 200] {
            assert!(rt; comes_to(rt.alloc(), row, most));
        }
    }
}
