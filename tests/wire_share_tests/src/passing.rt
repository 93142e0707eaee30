//! Requests that are passed on in other ways, and those that aren't.

use crate::sharing::ASKED_1;
use crate::steps::{Does, Step, plays};

/// `{"a": 1}` as message 7 that wants no reply, and as message 1 that goes to the server.
const SILENT: &[u8] =
    b"\x21\0\0\0\x07\0\0\0\0\0\0\0\xdd\x07\0\0\x02\0\0\0\0\x0c\0\0\0\x10a\0\x01\0\0\0\0";

const SILENT_PASSED: &[u8] =
    b"\x21\0\0\0\x01\0\0\0\0\0\0\0\xdd\x07\0\0\x02\0\0\0\0\x0c\0\0\0\x10a\0\x01\0\0\0\0";

/// The request goes, and the next one comes.
const LET_GO: [Step<'static>; 6] = [
    (0, 0, Does::Asks(SILENT)),
    (0, 0, Does::Passes),
    (0, 0, Does::Goes(SILENT_PASSED)),
    (0, 0, Does::IsFree),
    (0, 0, Does::Gets(b"")),
    (0, 0, Does::Asks(ASKED_1)),
];

#[test]
fn a_request_that_wants_no_reply_is_let_go(rt: HostRuntime) {
    assert!(rt; plays(rt.alloc(), &[&LET_GO]));
}

/// `{"ismaster": 1}` to `admin.$cmd` as query 3, the message that goes to the server, which names
/// the database, its reply `{"ismaster": 1}` of id 90, and the OP_REPLY that the client gets.
const QUERY: &[u8] =
    b"\x3a\0\0\0\x03\0\0\0\0\0\0\0\xd4\x07\0\0\0\0\0\0admin.$cmd\0\0\0\0\0\xff\xff\xff\xff\x13\0\0\0\x10ismaster\0\x01\0\0\0\0";

const QUERY_PASSED: &[u8] = b"\x37\0\0\0\x01\0\0\0\0\0\0\0\xdd\x07\0\0\0\0\0\0\0\
    \x22\0\0\0\x10ismaster\0\x01\0\0\0\x02$db\0\x06\0\0\0admin\0\0";

const QUERY_ANSWER: &[u8] =
    b"\x28\0\0\0\x5a\0\0\0\x01\0\0\0\xdd\x07\0\0\0\0\0\0\0\x13\0\0\0\x10ismaster\0\x01\0\0\0\0";

const QUERY_REPLY: &[u8] =
    b"\x37\0\0\0\x01\0\0\0\x03\0\0\0\x01\0\0\0\0\0\0\0\0\0\0\0\0\0\0\0\0\0\0\0\x01\0\0\0\x13\0\0\0\x10ismaster\0\x01\0\0\0\0";

/// The query goes as a message, its reply comes back as an OP_REPLY, and the next request comes.
const RESPELLED: [Step<'static>; 7] = [
    (0, 0, Does::Asks(QUERY)),
    (0, 0, Does::Passes),
    (0, 0, Does::Goes(QUERY_PASSED)),
    (0, 0, Does::Replies(QUERY_ANSWER)),
    (0, 0, Does::Answers),
    (0, 0, Does::Gets(QUERY_REPLY)),
    (0, 0, Does::Asks(ASKED_1)),
];

#[test]
fn a_query_goes_as_a_message(rt: HostRuntime) {
    assert!(rt; plays(rt.alloc(), &[&RESPELLED]));
}

/// Where nothing came, and over connection 1, which has ended, nothing is passed on; over
/// connection 0 the request is, once.
const PASSED_ONCE: [Step<'static>; 6] = [
    (0, 0, Does::PassesNone),
    (0, 0, Does::Asks(ASKED_1)),
    (0, 1, Does::Ends),
    (0, 1, Does::PassesInVain),
    (0, 0, Does::Passes),
    (0, 0, Does::PassesNone),
];

/// Behind the end of a client, whose request was passed on, nothing is passed on.
const ENDED: [Step<'static>; 4] = [
    (0, 0, Does::Asks(ASKED_1)),
    (0, 0, Does::Passes),
    (0, 0, Does::Leaves),
    (0, 0, Does::PassesNone),
];

#[test]
fn a_request_is_passed_on_once(rt: HostRuntime) {
    assert!(rt; plays(rt.alloc(), &[&PASSED_ONCE]));
    assert!(rt; plays(rt.alloc(), &[&ENDED]));
}
