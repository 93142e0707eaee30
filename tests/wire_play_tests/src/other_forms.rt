//! Tests of lines of no form.

use crate::readings::is_malformed;
use std::alloc::Global;

/// Lines whose first word is no keyword.
const KEYWORDS: [&[u8]; 9] = [
    b"",
    b" ",
    b"# open",
    b"close",
    b"opened",
    b"ope",
    b"Open",
    b"CALL 1 0500000000",
    b"\xffopen",
];

/// Lines whose words aren't one space apart.
const SPACES: [&[u8]; 9] = [
    b" open",
    b"open ",
    b"open\t",
    b"open\r",
    b"return\t1",
    b"return  1",
    b"return 1 ",
    b"up 1  2",
    b"up 1\r2",
];

/// Lines with one operand too few, or one too many.
const COUNTS: [&[u8]; 12] = [
    b"open 1",
    b"clear 1",
    b"return",
    b"return 1 2",
    b"up 1",
    b"up 1 2 3",
    b"answer",
    b"call 1",
    b"call 0500000000",
    b"call 1 0500000000 0500000000",
    b"rawtake 1",
    b"cutdown",
];

/// Lines with an operand that is no number, or one that doesn't fit.
const NUMBERS: [&[u8]; 10] = [
    b"return +1",
    b"return -1",
    b"return one",
    b"return 1a",
    b"return 0x1",
    b"return 1.0",
    b"return 000000000000000000001",
    b"return 18446744073709551616",
    b"up 1 18446744073709551616",
    b"up 1 99999999999999999999",
];

/// Calls with an operand that is no document in hexadecimal, or one that repeats a name.
const DOCUMENTS: [&[u8]; 8] = [
    b"call 1 050000000",
    b"call 1 05000000 00",
    b"call 1 050000000g",
    b"call 1 zz",
    b"call 1 ",
    b"call 1 0c00000010610001000000",
    b"send 1 05000000000500000000",
    b"exhaust 1 13000000106100010000001061000200000000",
];

/// Lines of raw bytes with an operand that isn't one byte or more in hexadecimal.
const RAW: [&[u8]; 6] = [
    b"raw 1",
    b"raw 1 ",
    b"raw 1 0",
    b"raw 1 0g",
    b"raw 1 00 00",
    b"raw x 00",
];

/// First lines without a handler's name and four numbers that fit.
const WORLDS: [&[u8]; 10] = [
    b"world",
    b"world 1 8 8 26",
    b"world echo 1 8 8",
    b"world echo 1 8 8 26 1",
    b"world Echo 1 8 8 26",
    b"world stop 1 8 8 26",
    b"world echo -1 8 8 26",
    b"world echo 2147483648 8 8 26",
    b"world echo 1 8 8 4294967296",
    b"world echo 1 18446744073709551616 8 26",
];

/// Returns true if none of the lines names anything.
fn all_are_malformed(alloc: Global, lines: &[&[u8]]) -> bool {
    for line in lines {
        if !is_malformed(alloc, line) {
            return false;
        }
    }
    true
}

#[test]
fn keywords_are_the_forms_own(rt: HostRuntime) {
    assert!(rt; all_are_malformed(rt.alloc(), &KEYWORDS));
}

#[test]
fn words_stand_one_space_apart(rt: HostRuntime) {
    assert!(rt; all_are_malformed(rt.alloc(), &SPACES));
}

#[test]
fn no_operand_is_missing_or_left(rt: HostRuntime) {
    assert!(rt; all_are_malformed(rt.alloc(), &COUNTS));
}

#[test]
fn numbers_are_digits_and_fit(rt: HostRuntime) {
    assert!(rt; all_are_malformed(rt.alloc(), &NUMBERS));
}

#[test]
fn documents_are_whole_and_repeat_no_name(rt: HostRuntime) {
    assert!(rt; all_are_malformed(rt.alloc(), &DOCUMENTS));
}

#[test]
fn raw_bytes_are_one_at_least(rt: HostRuntime) {
    assert!(rt; all_are_malformed(rt.alloc(), &RAW));
}

#[test]
fn first_lines_have_a_handler_and_four_numbers(rt: HostRuntime) {
    assert!(rt; all_are_malformed(rt.alloc(), &WORLDS));
}
