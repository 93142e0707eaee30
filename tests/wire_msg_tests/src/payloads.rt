//! Tests of payloads to which sequences and documents are added, with rows that were worked out by
//! hand from the manual.

use crate::messages::LIMIT;
use crate::written_messages::BODY_FIRST;
use bson_raw::RawDocument;
use bson_raw_tests::hex_bytes::read_digits;
use std::alloc::Global;
use wire_msg::{MsgFlags, MsgRefusal, Payload, PayloadBuf, RawMsg, write_msg};

/// The sequence "a" of one document before an empty body, and the empty sequence "b" after it.
const TWO_SEQUENCES: &str = "36000000 02000000 00000000 dd070000 00000000 \
    01 14000000 6100 0e000000 105f69640001000000 00 00 0500000000 01 06000000 6200";

/// The same, the body first, and with a document in "b".
const ONE_MORE: &str = "44000000 02000000 00000000 dd070000 00000000 00 0500000000 \
    01 14000000 6100 0e000000 105f69640001000000 00 \
    01 14000000 6200 0e000000 105f69640002000000 00";

/// Returns true if a payload of `{"ping": 1}` refuses what can't be added and stays the same then,
/// and takes what can be added.
fn refuses(payload: &mut PayloadBuf, document: RawDocument<'_>) -> bool {
    payload.push_document(document) == Err(MsgRefusal::NoSequence)
        && payload.begin_sequence("ping") == Err(MsgRefusal::SequenceInBody)
        && payload.begin_sequence("a\0") == Err(MsgRefusal::ZeroInName)
        && payload.as_payload().msg_len() == 36
}

/// Returns true if an identifier may be empty, and be that of two sequences.
fn takes_no_identifier_twice(payload: &mut PayloadBuf) -> bool {
    payload.begin_sequence("").is_ok()
        && payload.begin_sequence("").is_ok()
        && payload.as_payload().msg_len() == 48
}

/// Returns true if a payload is made of `{"ping": 1}`, and refuses what can't be added.
fn holds_of_ping(alloc: Global, body: RawDocument<'_>) -> bool {
    match PayloadBuf::new(alloc, body) {
        Ok(mut payload) => refuses(&mut payload, body) && takes_no_identifier_twice(&mut payload),
        Err(_) => false,
    }
}

const PING_BODY: &[u8] = b"\x0f\0\0\0\x10ping\0\x01\0\0\0\0";

#[test]
fn what_is_added_to_no_payload(rt: HostRuntime) {
    let Ok(body) = RawDocument::from_bytes(PING_BODY) else {
        assert!(rt; false);
        return;
    };
    assert!(rt; holds_of_ping(rt.alloc(), body));
}

/// Returns true if the payload's message of request 2 is written as these bytes.
fn writes(alloc: Global, payload: Payload<'_>, limit: u32, wanted: &[u8]) -> bool {
    let mut out = Vec::new(alloc);
    write_msg(&mut out, 2, 0, MsgFlags::NONE, payload, limit).is_ok() && out.as_slice() == wanted
}

/// Like `writes`, for the bytes of these digits.
fn is_written_as(alloc: Global, payload: Payload<'_>, limit: u32, hex: &str) -> bool {
    match read_digits(alloc, hex) {
        Ok(wanted) => writes(alloc, payload, limit, &wanted),
        Err(_) => false,
    }
}

/// Returns true if the message of this body, with one document in the sequence "documents", is
/// `BODY_FIRST`.
fn builds(alloc: Global, body: RawDocument<'_>, document: RawDocument<'_>) -> bool {
    match PayloadBuf::new(alloc, body) {
        Ok(mut payload) => {
            payload.begin_sequence("documents").is_ok()
                && payload.push_document(document).is_ok()
                && is_written_as(alloc, payload.as_payload(), 69, BODY_FIRST)
        }
        Err(_) => false,
    }
}

const INSERT_BODY: &[u8] = b"\x13\0\0\0\x02insert\0\x02\0\0\0c\0\0";

const FIRST: &[u8] = b"\x0e\0\0\0\x10_id\0\x01\0\0\0\0";

const SECOND: &[u8] = b"\x0e\0\0\0\x10_id\0\x02\0\0\0\0";

#[test]
fn an_insert_is_built(rt: HostRuntime) {
    let (Ok(body), Ok(document)) = (
        RawDocument::from_bytes(INSERT_BODY),
        RawDocument::from_bytes(FIRST),
    ) else {
        assert!(rt; false);
        return;
    };
    assert!(rt; builds(rt.alloc(), body, document));
}

/// Returns true if a copy of the payload takes the document into its last sequence, and is then
/// `ONE_MORE`.
fn copy_takes(alloc: Global, payload: Payload<'_>, document: RawDocument<'_>) -> bool {
    match payload.to_buf(alloc) {
        Ok(mut copy) => {
            copy.push_document(document).is_ok()
                && is_written_as(alloc, copy.as_payload(), 68, ONE_MORE)
        }
        Err(_) => false,
    }
}

/// Like `copy_takes`, for the payload of `TWO_SEQUENCES`.
fn two_take(alloc: Global, document: RawDocument<'_>) -> bool {
    let Ok(bytes) = read_digits(alloc, TWO_SEQUENCES) else {
        return false;
    };
    match RawMsg::parse(&bytes, LIMIT) {
        Ok(msg) => copy_takes(alloc, msg.payload(), document),
        Err(_) => false,
    }
}

#[test]
fn a_copy_takes_documents_into_its_last_sequence(rt: HostRuntime) {
    let Ok(document) = RawDocument::from_bytes(SECOND) else {
        assert!(rt; false);
        return;
    };
    assert!(rt; two_take(rt.alloc(), document));
}
