//! Queries, and the messages that ask the same, in the bytes that PyMongo's `bson` encodes.

use std::alloc::Global;
use wire_query::RawQuery;

/// A query of number 3, and its message.
const ROWS: [(&[u8], &[u8]); 6] = [
    // `{"ismaster": 1}` to `admin`
    (
        b"\x3a\0\0\0\x03\0\0\0\0\0\0\0\xd4\x07\0\0\0\0\0\0admin.$cmd\0\0\0\0\0\xff\xff\xff\xff\
        \x13\0\0\0\x10ismaster\0\x01\0\0\0\0",
        b"\x37\0\0\0\x03\0\0\0\0\0\0\0\xdd\x07\0\0\0\0\0\0\0\
        \x22\0\0\0\x10ismaster\0\x01\0\0\0\x02$db\0\x06\0\0\0admin\0\0",
    ),
    // `{}` to `a`
    (
        b"\x28\0\0\0\x03\0\0\0\0\0\0\0\xd4\x07\0\0\0\0\0\0a.$cmd\0\0\0\0\0\xff\xff\xff\xff\
        \x05\0\0\0\0",
        b"\x25\0\0\0\x03\0\0\0\0\0\0\0\xdd\x07\0\0\0\0\0\0\0\x10\0\0\0\x02$db\0\x02\0\0\0a\0\0",
    ),
    // `{"ping": 1}` to a database whose name has one letter of two bytes
    (
        b"\x33\0\0\0\x03\0\0\0\0\0\0\0\xd4\x07\0\0\0\0\0\0\xc3\xa9.$cmd\0\0\0\0\0\
        \xff\xff\xff\xff\x0f\0\0\0\x10ping\0\x01\0\0\0\0",
        b"\x30\0\0\0\x03\0\0\0\0\0\0\0\xdd\x07\0\0\0\0\0\0\0\
        \x1b\0\0\0\x10ping\0\x01\0\0\0\x02$db\0\x03\0\0\0\xc3\xa9\0\0",
    ),
    // `{"x": {"$db": "b"}}` to `a`: the element isn't one of the command's own
    (
        b"\x3b\0\0\0\x03\0\0\0\0\0\0\0\xd4\x07\0\0\0\0\0\0a.$cmd\0\0\0\0\0\xff\xff\xff\xff\
        \x18\0\0\0\x03x\0\x10\0\0\0\x02$db\0\x02\0\0\0b\0\0\0",
        b"\x38\0\0\0\x03\0\0\0\0\0\0\0\xdd\x07\0\0\0\0\0\0\0\
        \x23\0\0\0\x03x\0\x10\0\0\0\x02$db\0\x02\0\0\0b\0\0\x02$db\0\x02\0\0\0a\0\0",
    ),
    // `{"x": 1, "$db": "b"}` to `a`
    (
        b"\x3a\0\0\0\x03\0\0\0\0\0\0\0\xd4\x07\0\0\0\0\0\0a.$cmd\0\0\0\0\0\xff\xff\xff\xff\
        \x17\0\0\0\x10x\0\x01\0\0\0\x02$db\0\x02\0\0\0b\0\0",
        b"\x2c\0\0\0\x03\0\0\0\0\0\0\0\xdd\x07\0\0\0\0\0\0\0\
        \x17\0\0\0\x10x\0\x01\0\0\0\x02$db\0\x02\0\0\0b\0\0",
    ),
    // `{"$db": 1, "x": 1}` to `a`
    (
        b"\x38\0\0\0\x03\0\0\0\0\0\0\0\xd4\x07\0\0\0\0\0\0a.$cmd\0\0\0\0\0\xff\xff\xff\xff\
        \x15\0\0\0\x10$db\0\x01\0\0\0\x10x\0\x01\0\0\0\0",
        b"\x2a\0\0\0\x03\0\0\0\0\0\0\0\xdd\x07\0\0\0\0\0\0\0\
        \x15\0\0\0\x10$db\0\x01\0\0\0\x10x\0\x01\0\0\0\0",
    ),
];

/// Returns true if `message` is what the query appends.
fn is_message(alloc: Global, query: &[u8], message: &[u8]) -> bool {
    let Ok(query) = RawQuery::parse(alloc, query, 65_536) else {
        return false;
    };
    let mut out = Vec::new(alloc);
    query.write_msg(&mut out).is_ok() && out.as_slice() == message
}

#[test]
fn the_message_names_the_database(rt: HostRuntime) {
    for (query, message) in &ROWS {
        assert!(rt; is_message(rt.alloc(), query, message));
    }
}
