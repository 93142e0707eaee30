//! What no contract says of `bson`: that readers and writers which fail end the run as they should. And that texts are read
//! whole, however they are cut into pieces.

use crate::pieces::Steps;
use command_run::RunEnd;
use command_run_tests::readers::Broken;
use command_run_tests::writers::Counter;
use file_commands::run_bson;
use std::alloc::Global;

#[test]
fn a_failed_write_ends_the_run(rt: HostRuntime) {
    let end = run_bson(
        rt.alloc(),
        &mut b"{}".as_slice(),
        &mut Counter::failing_at(1),
    );
    assert!(rt; matches!(end, Err(RunEnd::InOut)));
}

#[test]
fn a_failed_read_ends_the_run(rt: HostRuntime) {
    let mut reader = Broken {
        given: false,
        code: None,
    };
    let mut writer = Vec::new(rt.alloc());
    let end = run_bson(rt.alloc(), &mut reader, &mut writer);
    assert!(rt; matches!(end, Err(RunEnd::Unread)) && writer.is_empty());
}

/// Texts of 24, 10 and 2 bytes, with a byte between them.
const TEXTS: &[u8] = br#"{"a":{"$numberInt":"1"}} {"b}":"}"} {}"#;

/// Their documents, of 12, 15 and 5 bytes.
const DOCUMENTS: &[u8] =
    b"\x0c\0\0\0\x10a\0\x01\0\0\0\0\x0f\0\0\0\x02b}\0\x02\0\0\0}\0\0\x05\0\0\0\0";

/// Returns true if as many bytes of the documents as this are written, where a read gives at most
/// `step` bytes of the texts, and the one of number `fails_at` fails.
fn is_written(alloc: Global, step: usize, fails_at: u64, written: usize, whole: bool) -> bool {
    let mut reader = Steps::new(TEXTS, step, fails_at);
    let mut writer = Vec::new(alloc);
    let end = run_bson(alloc, &mut reader, &mut writer);
    let ends = match end {
        Ok(None) => whole,
        Err(RunEnd::Unread) => !whole,
        _ => false,
    };
    ends && DOCUMENTS.get(..written) == Some(writer.as_slice())
}

#[test]
fn texts_come_in_pieces(rt: HostRuntime) {
    for step in [1, 2, 5, 24, 25, 38, 64] {
        assert!(rt;
            is_written(rt.alloc(), step, 0, 32, true),
            "in pieces of {step}"
        );
    }
}

#[test]
fn whole_texts_before_a_failed_read_are_written(rt: HostRuntime) {
    for (fails_at, written) in [
        (1, 0),
        (24, 0),
        (25, 12),
        (35, 12),
        (36, 27),
        (38, 27),
        (39, 32),
    ] {
        assert!(rt;
            is_written(rt.alloc(), 1, fails_at, written, false),
            "at {fails_at}"
        );
    }
}
