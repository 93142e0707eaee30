//! Texts of documents that were worked out by hand from the standard (bsonspec.org, version 1.1)
//! and the table of kinds, and writers that fail.

ghost use Rattle.std.specs.Prelude.{◌≤◌};

use bson_raw::RawDocument;
use bson_raw_tests::each_kind::EACH_KIND;
use bson_raw_tests::hex_bytes::read_digits;
use bson_text::{dump_elements, dump_to, dump_with_offsets};
use std::alloc::Global;
use std::io;
use std::io::{ErrorKind, Write};

/// Returns true if the document's text is this one.
fn has_text(alloc: Global, document: RawDocument<'_>, text: &str) -> bool {
    let mut out = Vec::new(alloc);
    dump_to(document, &mut out).is_ok() && out.as_slice() == text.as_bytes()
}

/// Like `has_text`, for the document of these digits.
fn is_dumped_as(alloc: Global, digits: &str, text: &str) -> bool {
    let Ok(bytes) = read_digits(alloc, digits) else {
        return false;
    };
    match RawDocument::from_bytes(&bytes) {
        Ok(document) => has_text(alloc, document, text),
        Err(_) => false,
    }
}

// The empty document, a name of five letters, and containers in containers, whose elements follow
// their line.
const ROWS: [(&str, &str); 4] = [
    ("05000000 00", "document 5\n"),
    (
        "16000000 02 68656c6c6f00 06000000 776f726c6400 00",
        "document 22\n  \"hello\" string \"world\"\n",
    ),
    (
        "14000000 04 6100 0c000000 10 7800 01000000 00 00",
        "document 20\n  \"a\" array 12\n    \"x\" int32 1\n",
    ),
    (
        "10000000 03 7600 08000000 0a 7700 00 00",
        "document 16\n  \"v\" document 8\n    \"w\" null\n",
    ),
];

#[test]
fn one_element_of_each_kind(rt: HostRuntime) {
    for (digits, text) in &EACH_KIND {
        assert!(rt; is_dumped_as(rt.alloc(), digits, text), "{digits}");
    }
}

#[test]
fn containers_in_containers(rt: HostRuntime) {
    for (digits, text) in &ROWS {
        assert!(rt; is_dumped_as(rt.alloc(), digits, text), "{digits}");
    }
}

/// Returns true if `text` is what `dump_elements` writes for the document at depth `deep`.
fn has_lines(alloc: Global, document: RawDocument<'_>, deep: u32, text: &str) -> bool
    requires { (1 ≤ deep) × (deep ≤ 2) }
{
    let mut out = Vec::new(alloc);
    dump_elements(document, deep, &mut out).is_ok() && out.as_slice() == text.as_bytes()
}

/// Like `has_lines`, for the document of these bytes.
fn bytes_have_lines(alloc: Global, bytes: &[u8], deep: u32, text: &str) -> bool
    requires { (1 ≤ deep) × (deep ≤ 2) }
{
    match RawDocument::from_bytes(bytes) {
        Ok(document) => has_lines(alloc, document, deep, text),
        Err(_) => false,
    }
}

/// Like `has_lines`, for the document `DEEP`.
fn has_lines_at(alloc: Global, deep: u32, text: &str) -> bool
    requires { (1 ≤ deep) × (deep ≤ 2) }
{
    match read_digits(alloc, DEEP) {
        Ok(bytes) => bytes_have_lines(alloc, &bytes, deep, text),
        Err(_) => false,
    }
}

/// A document and a scope between other elements.
const DEEP: &str =
    "28000000 0a 6100 03 6200 08000000 0a 6300 00 0f 6400 0f000000 02000000 7800 0500000000 ff 6500 00";

// Elements after an inner document are indented as deep as those before it.
#[test]
fn lines_of_elements(rt: HostRuntime) {
    let text =
        "  \"a\" null\n  \"b\" document 8\n    \"c\" null\n  \"d\" codescope \"x\" 5\n  \"e\" minkey\n";
    assert!(rt; has_lines_at(rt.alloc(), 1, text));
    let text =
        "    \"a\" null\n    \"b\" document 8\n      \"c\" null\n    \"d\" codescope \"x\" 5\n    \"e\" minkey\n";
    assert!(rt; has_lines_at(rt.alloc(), 2, text));
}

/// Returns true if this is the text with offsets of the document, which begins at offset `start`.
fn has_offsets(alloc: Global, document: RawDocument<'_>, start: usize, text: &str) -> bool {
    if start > usize::MAX - document.as_bytes().len() {
        return false;
    }
    let mut out = Vec::new(alloc);
    dump_with_offsets(document, start, &mut out).is_ok() && out.as_slice() == text.as_bytes()
}

/// Like `has_offsets`, for the document of these digits.
fn digits_have_offsets(alloc: Global, digits: &str, start: usize, text: &str) -> bool {
    let Ok(bytes) = read_digits(alloc, digits) else {
        return false;
    };
    match RawDocument::from_bytes(&bytes) {
        Ok(document) => has_offsets(alloc, document, start, text),
        Err(_) => false,
    }
}

/// The empty document at the first and at the last offset that it can have; an array, as the
/// standard's page has it, at two offsets; a document and a scope between other elements; and a
/// scope with an element, before another element.
const OFFSETS: [(&str, usize, &str); 6] = [
    ("05000000 00", 0, "0\tdocument 5\n"),
    (
        "05000000 00",
        18_446_744_073_709_551_610,
        "18446744073709551610\tdocument 5\n",
    ),
    (
        AWESOME,
        0,
        "0\tdocument 49\n4\t  \"BSON\" array 38\n14\t    \"0\" string \"awesome\"\n29\t    \"1\" double 3333333333331440\n40\t    \"2\" int32 1986\n",
    ),
    (
        AWESOME,
        5,
        "5\tdocument 49\n9\t  \"BSON\" array 38\n19\t    \"0\" string \"awesome\"\n34\t    \"1\" double 3333333333331440\n45\t    \"2\" int32 1986\n",
    ),
    (
        DEEP,
        1000,
        "1000\tdocument 40\n1004\t  \"a\" null\n1007\t  \"b\" document 8\n1014\t    \"c\" null\n1018\t  \"d\" codescope \"x\" 5\n1036\t  \"e\" minkey\n",
    ),
    (
        "1d000000 0f 6300 12000000 02000000 7800 08000000 0a 7300 00 0a 7a00 00",
        0,
        "0\tdocument 29\n4\t  \"c\" codescope \"x\" 8\n21\t    \"s\" null\n25\t  \"z\" null\n",
    ),
];

/// The document {"BSON": ["awesome", 5.05, 1986]} of bsonspec.org.
const AWESOME: &str =
    "31000000 04 42534f4e00 26000000 02 3000 08000000 617765736f6d6500 01 3100 3333333333331440 10 3200 c2070000 00 00";

#[test]
fn offsets_of_lines(rt: HostRuntime) {
    for (digits, start, text) in &OFFSETS {
        assert!(rt;
            digits_have_offsets(rt.alloc(), digits, *start, text),
            "{digits}"
        );
    }
}

/// A writer that takes `room` bytes and then fails, with an error of a kind that no other part of a
/// dump makes.
#[derive(Drop)]
struct Short {
    room: usize,
}

impl Write for Short {
    fn write(&mut self, buf: &[u8]) -> io::Result<usize> {
        let taken = buf.len().min(self.room);
        if taken == 0 {
            return Err(io::Error::from(ErrorKind::StorageFull));
        }
        self.room -= taken;
        Ok(taken)
    }

    fn flush(&mut self) -> io::Result<()> {
        Ok(())
    }
}

/// Returns true if the document's text fills this room, and the dump ends with the writer's own
/// error.
fn fails_in(document: RawDocument<'_>, room: usize) -> bool {
    let mut out = Short { room };
    match dump_to(document, &mut out) {
        Ok(()) => false,
        Err(error) => error.kind() == ErrorKind::StorageFull && out.room == 0,
    }
}

/// Returns true if the document's text just fills this room.
fn fits_in(document: RawDocument<'_>, room: usize) -> bool {
    let mut out = Short { room };
    dump_to(document, &mut out).is_ok() && out.room == 0
}

#[test]
fn ends_at_a_failed_write(rt: HostRuntime) {
    let bytes = b"\x10\0\0\0\x03v\0\x08\0\0\0\x0aw\0\0\0";
    let Ok(document) = RawDocument::from_bytes(bytes) else {
        assert!(rt; false);
        return;
    };
    // The text has 12 + 17 + 13 bytes.
    for room in 0..42 {
        assert!(rt; fails_in(document, room), "at {room}");
    }
    assert!(rt; fits_in(document, 42));
}

// A text that is longer than the buffer before the writer.
#[test]
fn ends_at_a_failed_write_of_a_long_text(rt: HostRuntime) {
    // {"v": a binary of 299 bytes 00}
    let mut bytes = [0; 312];
    (bytes[0], bytes[1], bytes[4], bytes[5]) = (0x38, 1, 5, b'v');
    (bytes[7], bytes[8]) = (0x2b, 1);
    let Ok(document) = RawDocument::from_bytes(&bytes) else {
        assert!(rt; false);
        return;
    };
    // The text has 13 + 20 + 598 + 1 bytes.
    for room in &[0, 1, 511, 512, 513, 631] {
        assert!(rt; fails_in(document, *room), "at {room}");
    }
    assert!(rt; fits_in(document, 632));
}
