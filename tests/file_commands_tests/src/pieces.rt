//! That documents and messages come out of an input whole, however this is cut into pieces, and what is written where reading or
//! writing fails. Inputs longer than a piece are tried in `scripts/checks/try-tables`.

use command_run::RunEnd;
use file_commands::{MessageForm, run_check, run_msg};
use std::alloc::Global;
use std::io;
use std::io::{Read, Write};

/// A reader that gives at most `step` bytes at a time, and fails at its call number `fails_at`.
#[derive(Drop)]
pub(crate) struct Steps<'a> {
    rest: &'a [u8],
    step: usize,
    fails_at: u64,
    calls: u64,
}

impl<'a> Steps<'a> {
    pub(crate) fn new(rest: &'a [u8], step: usize, fails_at: u64) -> Steps<'a> {
        Steps {
            rest,
            step,
            fails_at,
            calls: 0,
        }
    }
}

impl Read for Steps<'_> {
    fn read(&mut self, buf: &mut [u8]) -> io::Result<usize> {
        self.calls = self.calls.saturating_add(1);
        if self.calls == self.fails_at {
            return Err(io::Error::other("broken"));
        }
        let n = self.rest.len().min(self.step).min(buf.len());
        buf[..n].copy_from_slice(&self.rest[..n]);
        self.rest = &self.rest[n..];
        Ok(n)
    }
}

/// A writer that takes at most seven bytes at a time, and fails at its call number `fails_at`.
#[derive(Drop)]
struct Sevens {
    taken: Vec<u8>,
    fails_at: u64,
    calls: u64,
}

impl Write for Sevens {
    fn write(&mut self, buf: &[u8]) -> io::Result<usize> {
        self.calls = self.calls.saturating_add(1);
        if self.calls == self.fails_at {
            return Err(io::Error::other("full"));
        }
        let n = buf.len().min(7);
        self.taken.extend_from_slice(&buf[..n])?;
        Ok(n)
    }

    fn flush(&mut self) -> io::Result<()> {
        Ok(())
    }
}

/// Two documents of five bytes, and three bytes of a third.
const INPUT: &[u8] = b"\x05\0\0\0\0\x05\0\0\0\0\x05\0\0";

const NONE: &str = "";

const ONE: &str = "ok 5 canonical\n";

const TWO: &str = "ok 5 canonical\nok 5 canonical\n";

const ALL: &str = "ok 5 canonical\nok 5 canonical\nfault 1 Truncated at 10\n";

/// The most bytes that a read of `INPUT` gives, the number of the one that fails or 0, what `check` writes, and how it ends.
const READS: [(usize, u64, &str, RunEnd); 12] = [
    (13, 0, ALL, RunEnd::Fault),
    (10, 0, ALL, RunEnd::Fault),
    (7, 0, ALL, RunEnd::Fault),
    (5, 0, ALL, RunEnd::Fault),
    (1, 0, ALL, RunEnd::Fault),
    (1, 1, NONE, RunEnd::Unread),
    (1, 5, NONE, RunEnd::Unread),
    (1, 6, ONE, RunEnd::Unread),
    (1, 10, ONE, RunEnd::Unread),
    (1, 14, TWO, RunEnd::Unread),
    (5, 2, ONE, RunEnd::Unread),
    (13, 2, TWO, RunEnd::Unread),
];

/// Returns true if `check` writes this text for the input, as `steps` has it: the most bytes that a read gives, and the number of
/// the one that fails, or 0; and if it ends so.
fn is_read(
    alloc: Global,
    hex: bool,
    input: &[u8],
    steps: (usize, u64),
    text: &str,
    end: RunEnd,
) -> bool {
    let (step, fails_at) = steps;
    let mut reader = Steps::new(input, step, fails_at);
    let mut writer = Vec::new(alloc);
    let ended = run_check(alloc, hex, &mut reader, &mut writer);
    ended == end && writer.as_slice() == text.as_bytes()
}

#[test]
fn what_was_read_before_a_failed_read_is_written(rt: HostRuntime) {
    for (step, fails_at, text, end) in &READS {
        assert!(rt;
            is_read(rt.alloc(), false, INPUT, (*step, *fails_at), text, *end),
            "at {step} and {fails_at}"
        );
    }
}

/// The digits of two documents of five bytes, and of a byte more.
const DIGITS: &[u8] = b"05000000 00\n0500000000 0 5";

const ALL_OF_DIGITS: &str = "ok 5 canonical\nok 5 canonical\nfault 1 Truncated at 10\n";

/// The most bytes that a read of `DIGITS` gives, the number of the one that fails or 0, what `check` writes, and how it ends.
const DIGIT_READS: [(usize, u64, &str, RunEnd); 9] = [
    (26, 0, ALL_OF_DIGITS, RunEnd::Fault),
    (11, 0, ALL_OF_DIGITS, RunEnd::Fault),
    (3, 0, ALL_OF_DIGITS, RunEnd::Fault),
    (1, 0, ALL_OF_DIGITS, RunEnd::Fault),
    (1, 1, NONE, RunEnd::Unread),
    (1, 12, NONE, RunEnd::Unread),
    (1, 27, NONE, RunEnd::Unread),
    (26, 2, NONE, RunEnd::Unread),
    (11, 2, NONE, RunEnd::Unread),
];

#[test]
fn digits_are_read_whole_before_anything_is_written(rt: HostRuntime) {
    for (step, fails_at, text, end) in &DIGIT_READS {
        assert!(rt;
            is_read(rt.alloc(), true, DIGITS, (*step, *fails_at), text, *end),
            "at {step} and {fails_at}"
        );
    }
}

/// Documents, and what isn't hexadecimal text: a byte that is no digit, also behind a document at fault, and a number of bytes that
/// is odd, also where one of them is no digit.
const FAULTS: [(&[u8], &str); 4] = [
    (b"0500000000 0500000000 0 g0 0", "fault 0 Hex at 21\n"),
    (b"0500000000 0500000001 0 g0 0", "fault 0 Hex at 21\n"),
    (b"0500000000 0500000000 0 00", "fault 0 Hex at 23\n"),
    (b"0500000000 z500000000 0 00", "fault 0 Hex at 23\n"),
];

#[test]
fn a_fault_in_digits_is_told_however_they_come(rt: HostRuntime) {
    for (input, text) in &FAULTS {
        for step in 1..28 {
            assert!(rt;
                is_read(rt.alloc(), true, input, (step, 0), text, RunEnd::Fault),
                "at {step}"
            );
        }
    }
}

/// Returns true if what the writer took before it failed is a beginning of the text. The text has 53 bytes: eight calls.
fn is_begun(alloc: Global, fails_at: u64) -> bool {
    let mut input = INPUT;
    let mut writer = Sevens {
        taken: Vec::new(alloc),
        fails_at,
        calls: 0,
    };
    let end = run_check(alloc, false, &mut input, &mut writer);
    end == RunEnd::InOut
        && writer.calls == fails_at
        && ALL.as_bytes().starts_with(writer.taken.as_slice())
}

#[test]
fn a_failed_write_leaves_a_beginning_of_the_text(rt: HostRuntime) {
    for fails_at in 1..9 {
        assert!(rt; is_begun(rt.alloc(), fails_at), "at {fails_at}");
    }
}

/// Two messages of 26 bytes, and 17 bytes of a third: its header, and one more.
const MESSAGES: &[u8] =
    b"\x1a\0\0\0\x01\0\0\0\0\0\0\0\xdd\x07\0\0\0\0\0\0\0\x05\0\0\0\0\x1a\0\0\0\x02\0\0\0\0\0\0\0\xdd\x07\0\0\0\0\0\0\0\x05\0\0\0\0\x1a\0\0\0\x03\0\0\0\0\0\0\0\xdd\x07\0\0\0";

const ONE_MESSAGE: &str = "message 26 id 1 to 0 flags -\nbody 5\n";

const TWO_MESSAGES: &str =
    "message 26 id 1 to 0 flags -\nbody 5\nmessage 26 id 2 to 0 flags -\nbody 5\n";

const ALL_MESSAGES: &str =
    "message 26 id 1 to 0 flags -\nbody 5\nmessage 26 id 2 to 0 flags -\nbody 5\nfault 14 EndedInside at 52\n";

/// The most bytes that a read of `MESSAGES` gives, the number of the one that fails or 0, what `msg` writes, and how it ends.
const MESSAGE_READS: [(usize, u64, &str, RunEnd); 12] = [
    (69, 0, ALL_MESSAGES, RunEnd::Fault),
    (52, 0, ALL_MESSAGES, RunEnd::Fault),
    (26, 0, ALL_MESSAGES, RunEnd::Fault),
    (16, 0, ALL_MESSAGES, RunEnd::Fault),
    (1, 0, ALL_MESSAGES, RunEnd::Fault),
    (1, 1, NONE, RunEnd::Unread),
    (1, 26, NONE, RunEnd::Unread),
    (1, 27, ONE_MESSAGE, RunEnd::Unread),
    (1, 52, ONE_MESSAGE, RunEnd::Unread),
    (1, 69, TWO_MESSAGES, RunEnd::Unread),
    (26, 2, ONE_MESSAGE, RunEnd::Unread),
    (69, 2, TWO_MESSAGES, RunEnd::Unread),
];

/// Returns true if `msg` writes this text for the input, which comes in such steps, and ends so.
fn is_read_as_messages(
    alloc: Global,
    input: &[u8],
    step: usize,
    fails_at: u64,
    text: &str,
    end: RunEnd,
) -> bool {
    let mut reader = Steps::new(input, step, fails_at);
    let mut writer = Vec::new(alloc);
    let ended = run_msg(alloc, MessageForm::Text, false, &mut reader, &mut writer);
    ended == end && writer.as_slice() == text.as_bytes()
}

#[test]
fn messages_that_were_read_before_a_failed_read_are_written(rt: HostRuntime) {
    for (step, fails_at, text, end) in &MESSAGE_READS {
        assert!(rt;
            is_read_as_messages(rt.alloc(), MESSAGES, *step, *fails_at, text, *end),
            "at {step} and {fails_at}"
        );
    }
}

/// A bad header of 16 bytes, and the same with bytes behind it, which are read and let go.
const BAD: [&[u8]; 2] = [
    b"\x0f\0\0\0\x01\0\0\0\0\0\0\0\xdd\x07\0\0",
    b"\x0f\0\0\0\x01\0\0\0\0\0\0\0\xdd\x07\0\0\x1a\0\0\0\x01\0\0\0\0\0\0\0",
];

#[test]
fn a_bad_header_is_told_however_it_comes(rt: HostRuntime) {
    let line = "fault 1 Length at 0\n";
    for bad in &BAD {
        for step in 1..20 {
            assert!(rt;
                is_read_as_messages(rt.alloc(), bad, step, 0, line, RunEnd::Fault),
                "at {step}"
            );
        }
    }
}
