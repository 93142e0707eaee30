//! Tests of the texts of causes and refusals.

use std::alloc::Global;
use std::error::Error;
use wire_msg::{MsgCause, MsgFault};
use wire_peer::{
    AnswerRefusal, AskRefusal, CallRefusal, ClientCause, ClientRefusal, HandlerStop, NoReplies,
    ReplyRefusal, ServerCause, ServerRefusal,
};

/// A length that is too short.
const FAULT: MsgFault = MsgFault {
    cause: MsgCause::Length,
    at: 0,
};

/// Returns true if each error is printed as the text beside it.
fn all_show<E: Error>(alloc: Global, rows: &[(E, &str)]) -> bool {
    for (error, text) in rows {
        let Ok(shown) = format!(in alloc; "{error}") else {
            return false;
        };
        if shown.as_str() != *text {
            return false;
        }
    }
    true
}

#[test]
fn what_a_client_tells_is_printed(rt: HostRuntime) {
    assert!(rt;
        all_show(
            rt.alloc(),
            &[
                (
                    ClientCause::Message(FAULT),
                    "the bytes are no message: fault 1 Length at 0"
                ),
                (
                    ClientCause::UnknownReply(-7),
                    "no outstanding call bears id -7"
                ),
                (
                    ClientCause::MoreNotAllowed,
                    "more replies were announced than the call allows"
                ),
                (
                    ClientCause::StreamBroken,
                    "a message breaks a stream of replies"
                ),
                (ClientCause::Ended, "the bytes ended"),
                (ClientCause::EndedInside, "the bytes ended inside a message"),
            ]
        )
    );
    assert!(rt;
        all_show(
            rt.alloc(),
            &[
                (
                    ClientRefusal::BadFirstId,
                    "the first id isn't from 1 to 2,147,483,647"
                ),
                (ClientRefusal::BadWindow, "the window isn't from 1 to 1,024"),
                (
                    ClientRefusal::BadLimit,
                    "the limit isn't from 26 to 48,000,000"
                ),
            ]
        )
    );
    assert!(rt;
        all_show(
            rt.alloc(),
            &[
                (CallRefusal::Closed, "the client is closed"),
                (CallRefusal::WindowFull, "the window is full"),
                (CallRefusal::TooLarge, "the request is too large"),
                (CallRefusal::NumbersSpent, "the call numbers are spent"),
                (CallRefusal::OutOfMemory, "out of memory"),
            ]
        )
    );
}

#[test]
fn what_a_server_tells_is_printed(rt: HostRuntime) {
    assert!(rt;
        all_show(
            rt.alloc(),
            &[
                (
                    ServerCause::Message(FAULT),
                    "the bytes are no message: fault 1 Length at 0"
                ),
                (ServerCause::Ended, "the bytes ended"),
                (ServerCause::EndedInside, "the bytes ended inside a message"),
                (ServerCause::ReplyTooLarge, "a reply is too large"),
                (ServerCause::NoMemory, "out of memory"),
                (ServerCause::HandlerFailed, "the handler failed"),
            ]
        )
    );
    assert!(rt;
        all_show(
            rt.alloc(),
            &[
                (ServerRefusal::BadWindow, "the window isn't from 1 to 1,024"),
                (
                    ServerRefusal::BadLimit,
                    "the limit isn't from 26 to 48,000,000"
                ),
                (ServerRefusal::OutOfMemory, "out of memory"),
            ]
        )
    );
    assert!(rt;
        all_show(
            rt.alloc(),
            &[
                (AnswerRefusal::NoSuchRequest, "no such request waits"),
                (AnswerRefusal::Closed, "the server is closed"),
                (AnswerRefusal::OutOfMemory, "out of memory"),
                (
                    AnswerRefusal::NowClosed(ServerCause::ReplyTooLarge),
                    "the server closed: a reply is too large"
                ),
            ]
        )
    );
}

#[test]
fn what_a_log_tells_is_printed(rt: HostRuntime) {
    assert!(rt;
        all_show(
            rt.alloc(),
            &[
                (HandlerStop::Failed, "the handler failed"),
                (HandlerStop::OutOfMemory, "the handler is out of memory"),
            ]
        )
    );
    assert!(rt;
        all_show(
            rt.alloc(),
            &[
                (AskRefusal::NotAsked, "out of memory"),
                (
                    AskRefusal::Stopped(HandlerStop::Failed),
                    "the handler failed"
                ),
            ]
        )
    );
    assert!(rt;
        all_show(
            rt.alloc(),
            &[
                (NoReplies::NotAsked, "out of memory"),
                (
                    NoReplies::Stopped(HandlerStop::Failed),
                    "the handler failed"
                ),
                (NoReplies::TooLarge, "a reply is too large"),
                (NoReplies::NoMemory, "out of memory"),
            ]
        )
    );
    assert!(rt;
        all_show(
            rt.alloc(),
            &[
                (ReplyRefusal::TooLarge, "a reply is too large"),
                (ReplyRefusal::OutOfMemory, "out of memory"),
            ]
        )
    );
}
