//! Two clients whose requests go over one connection, and the replies in either order.

use crate::steps::{Does, Step, plays};
use wire_share::Awaited;

/// `{"a": 1}` and `{"a": 2}`, each as message 7 of its client.
pub(crate) const ASKED_1: &[u8] =
    b"\x21\0\0\0\x07\0\0\0\0\0\0\0\xdd\x07\0\0\0\0\0\0\0\x0c\0\0\0\x10a\0\x01\0\0\0\0";

pub(crate) const ASKED_2: &[u8] =
    b"\x21\0\0\0\x07\0\0\0\0\0\0\0\xdd\x07\0\0\0\0\0\0\0\x0c\0\0\0\x10a\0\x02\0\0\0\0";

/// The same as messages 1 and 2, which go to the server.
pub(crate) const PASSED_1: &[u8] =
    b"\x21\0\0\0\x01\0\0\0\0\0\0\0\xdd\x07\0\0\0\0\0\0\0\x0c\0\0\0\x10a\0\x01\0\0\0\0";

pub(crate) const PASSED_2: &[u8] =
    b"\x21\0\0\0\x02\0\0\0\0\0\0\0\xdd\x07\0\0\0\0\0\0\0\x0c\0\0\0\x10a\0\x02\0\0\0\0";

/// The server's replies to them, `{"b": 1}` and `{"b": 2}`, of ids 90 and 91.
pub(crate) const REPLY_1: &[u8] =
    b"\x21\0\0\0\x5a\0\0\0\x01\0\0\0\xdd\x07\0\0\0\0\0\0\0\x0c\0\0\0\x10b\0\x01\0\0\0\0";

pub(crate) const REPLY_2: &[u8] =
    b"\x21\0\0\0\x5b\0\0\0\x02\0\0\0\xdd\x07\0\0\0\0\0\0\0\x0c\0\0\0\x10b\0\x02\0\0\0\0";

/// What the clients get: the same as reply 1 to message 7.
pub(crate) const GIVEN_1: &[u8] =
    b"\x21\0\0\0\x01\0\0\0\x07\0\0\0\xdd\x07\0\0\0\0\0\0\0\x0c\0\0\0\x10b\0\x01\0\0\0\0";

pub(crate) const GIVEN_2: &[u8] =
    b"\x21\0\0\0\x01\0\0\0\x07\0\0\0\xdd\x07\0\0\0\0\0\0\0\x0c\0\0\0\x10b\0\x02\0\0\0\0";

/// The requests of both clients go over connection 0.
const BOTH_ASK: [Step<'static>; 7] = [
    (0, 0, Does::Asks(ASKED_1)),
    (0, 0, Does::Passes),
    (0, 0, Does::Goes(PASSED_1)),
    (1, 0, Does::Asks(ASKED_2)),
    (1, 0, Does::Passes),
    (1, 0, Does::Goes(PASSED_2)),
    (1, 0, Does::Owes(2)),
];

/// The reply to client 0 comes, which is given to it and not to client 1.
const FIRST_GETS: [Step<'static>; 4] = [
    (0, 0, Does::Replies(REPLY_1)),
    (1, 0, Does::AwaitsAnother),
    (0, 0, Does::Answers),
    (0, 0, Does::Gets(GIVEN_1)),
];

/// The reply to client 1 comes, which is given to it and not to client 0.
const SECOND_GETS: [Step<'static>; 4] = [
    (1, 0, Does::Replies(REPLY_2)),
    (0, 0, Does::AwaitsAnother),
    (1, 0, Does::Answers),
    (1, 0, Does::Gets(GIVEN_2)),
];

/// No call is left that awaits a reply.
const NONE_LEFT: [Step<'static>; 1] = [(0, 0, Does::Owes(0))];

#[test]
fn each_client_gets_its_own_reply(rt: HostRuntime) {
    let in_order = [&BOTH_ASK[..], &FIRST_GETS, &SECOND_GETS, &NONE_LEFT];
    let swapped = [&BOTH_ASK[..], &SECOND_GETS, &FIRST_GETS, &NONE_LEFT];
    assert!(rt; plays(rt.alloc(), &in_order));
    assert!(rt; plays(rt.alloc(), &swapped));
}

/// The first call of connection 1.
const FIRST_CALL: Awaited = Awaited {
    upstream: 6,
    call: 0,
};

/// The reply to the first call of connection 1 isn't given to client 0, which awaits that of
/// connection 0, and is let go.
const TOLD_APART: [Step<'static>; 10] = [
    (1, 1, Does::AreNumbered(2, 6)),
    (0, 0, Does::Asks(ASKED_1)),
    (0, 0, Does::Passes),
    (1, 1, Does::Asks(ASKED_2)),
    (1, 1, Does::Passes),
    (1, 1, Does::Awaits(FIRST_CALL)),
    (1, 1, Does::Replies(REPLY_1)),
    (0, 1, Does::AwaitsAnother),
    (0, 1, Does::Gets(b"")),
    (0, 1, Does::Ends),
];

#[test]
fn a_reply_of_another_connection_is_given_to_none(rt: HostRuntime) {
    assert!(rt; plays(rt.alloc(), &[&TOLD_APART]));
}
