//! Queries as drivers send them, and one fault of each cause.

use bson_elem::{BsonCause, BsonFault};
use bson_raw::RawBson;
use std::alloc::Global;
use wire_query::{QueryCause, QueryFault, RawQuery};

/// The limit of a query's bytes.
const LIMIT: u32 = 65_536;

/// `{"ismaster": 1}` as query 3 to `admin.$cmd`.
const ISMASTER: [u8; 58] = *b"\x3a\0\0\0\x03\0\0\0\0\0\0\0\xd4\x07\0\0\0\0\0\0admin.$cmd\0\
    \0\0\0\0\xff\xff\xff\xff\x13\0\0\0\x10ismaster\0\x01\0\0\0\0";

/// Queries as drivers send them, which differ in SlaveOk, numberToReturn and the command. With each
/// are its SlaveOk and the name of the command's first field.
const SENT: [(&[u8], bool, &str); 5] = [
    (&ISMASTER, false, "ismaster"),
    (
        b"\x44\0\0\0\x03\0\0\0\0\0\0\0\xd4\x07\0\0\x04\0\0\0admin.$cmd\0\0\0\0\0\xff\xff\xff\xff\
        \x1d\0\0\0\x10isMaster\0\x01\0\0\0\x08helloOk\0\x01\0",
        true,
        "isMaster",
    ),
    (
        b"\x37\0\0\0\x03\0\0\0\0\0\0\0\xd4\x07\0\0\0\0\0\0admin.$cmd\0\0\0\0\0\x01\0\0\0\
        \x10\0\0\0\x08ismaster\0\x01\0",
        false,
        "ismaster",
    ),
    (
        b"\x3b\0\0\0\x03\0\0\0\0\0\0\0\xd4\x07\0\0\0\0\0\0admin.$cmd\0\0\0\0\0\xff\xff\xff\xff\
        \x14\0\0\0\x10buildinfo\0\x01\0\0\0\0",
        false,
        "buildinfo",
    ),
    (
        b"\x3e\0\0\0\x03\0\0\0\0\0\0\0\xd4\x07\0\0\0\0\0\0admin.$cmd\0\0\0\0\0\xff\xff\xff\xff\
        \x17\0\0\0\x10getlasterror\0\x01\0\0\0\0",
        false,
        "getlasterror",
    ),
];

/// Returns true if the query is number 3 to `admin`, and its command has this field.
fn is_sent(query: RawQuery<'_>, secondary_ok: bool, name: &str) -> bool {
    query.id() == 3
        && query.response_to() == 0
        && query.secondary_ok() == secondary_ok
        && query.database() == "admin"
        && query.body().get(name).is_some()
}

#[test]
fn what_drivers_send_is_read(rt: HostRuntime) {
    for (bytes, secondary_ok, name) in &SENT {
        match RawQuery::parse(rt.alloc(), bytes, LIMIT) {
            Ok(query) => assert!(rt; is_sent(query, *secondary_ok, name), "{name}"),
            Err(fault) => assert!(rt; false, "{fault}"),
        }
    }
}

const KIND: BsonFault = BsonFault {
    at: 4,
    cause: BsonCause::Kind,
};

/// A byte of `ISMASTER` that is altered, by its offset and its value, and the fault of the bytes.
const ALTERED: [(usize, u8, usize, QueryCause); 13] = [
    (0, 0x39, 0, QueryCause::Length),
    (12, 0xdd, 12, QueryCause::Opcode(2013)),
    // TailableCursor and Exhaust
    (16, 0x02, 16, QueryCause::Flags),
    (16, 0x40, 16, QueryCause::Flags),
    (20, 0xff, 20, QueryCause::Name),
    // `.dmin.$cmd`, `admin-$cmd`, `adm.n.$cmd` and `admin.xcmd`
    (20, b'.', 20, QueryCause::Collection),
    (25, b'-', 20, QueryCause::Collection),
    (23, b'.', 20, QueryCause::Collection),
    (26, b'x', 20, QueryCause::Collection),
    (31, 1, 31, QueryCause::Skip),
    (35, 2, 35, QueryCause::Count),
    (43, 0x20, 39, QueryCause::Document(KIND)),
    // `admin.$cm`
    (29, 0, 20, QueryCause::Collection),
];

/// Returns true if `bytes` have this fault.
fn has_fault(alloc: Global, bytes: &[u8], at: usize, cause: QueryCause) -> bool {
    RawQuery::parse(alloc, bytes, LIMIT).err() == Some(QueryFault { at, cause })
}

/// Returns true if `ISMASTER` with another byte at this offset has this fault.
fn is_fault(alloc: Global, offset: usize, byte: u8, at: usize, cause: QueryCause) -> bool {
    let mut bytes = ISMASTER;
    match bytes.get_mut(offset) {
        Some(place) => *place = byte,
        None => return false,
    }
    has_fault(alloc, &bytes, at, cause)
}

#[test]
fn an_altered_byte_is_told(rt: HostRuntime) {
    for (offset, byte, at, cause) in &ALTERED {
        assert!(rt;
            is_fault(rt.alloc(), *offset, *byte, *at, *cause),
            "{offset}"
        );
    }
}

/// Other bytes than those of `ISMASTER`, and their fault.
const REFUSED: [(&[u8], usize, QueryCause); 6] = [
    (b"", 0, QueryCause::Length),
    (
        b"\x13\0\0\0\x03\0\0\0\0\0\0\0\xd4\x07\0\0\0\0\0",
        16,
        QueryCause::Truncated,
    ),
    // seven bytes of numbers
    (
        b"\x22\0\0\0\x03\0\0\0\0\0\0\0\xd4\x07\0\0\0\0\0\0a.$cmd\0\0\0\0\0\x01\0\0",
        27,
        QueryCause::Truncated,
    ),
    // a name without 00
    (
        b"\x1a\0\0\0\x03\0\0\0\0\0\0\0\xd4\x07\0\0\0\0\0\0a.$cmd",
        20,
        QueryCause::Name,
    ),
    // `{}` and a field selector, `{}`
    (
        b"\x2d\0\0\0\x03\0\0\0\0\0\0\0\xd4\x07\0\0\0\0\0\0a.$cmd\0\0\0\0\0\x01\0\0\0\
        \x05\0\0\0\0\x05\0\0\0\0",
        40,
        QueryCause::TrailingBytes,
    ),
    // `{"a": null, "a": null}`
    (
        b"\x2e\0\0\0\x03\0\0\0\0\0\0\0\xd4\x07\0\0\0\0\0\0a.$cmd\0\0\0\0\0\x01\0\0\0\
        \x0b\0\0\0\x0aa\0\x0aa\0\0",
        35,
        QueryCause::RepeatedField,
    ),
];

#[test]
fn other_bytes_are_refused(rt: HostRuntime) {
    for (bytes, at, cause) in &REFUSED {
        assert!(rt; has_fault(rt.alloc(), bytes, *at, *cause), "{at}");
    }
}

/// Returns true if the command is `{"ismaster": 1}`.
fn is_asked(query: RawQuery<'_>) -> bool {
    query.body().get("ismaster") == Some(RawBson::Int32(1))
}

#[test]
fn the_command_is_read(rt: HostRuntime) {
    match RawQuery::parse(rt.alloc(), &ISMASTER, LIMIT) {
        Ok(query) => assert!(rt; is_asked(query)),
        Err(fault) => assert!(rt; false, "{fault}"),
    }
}
