//! Tests of quoted texts and bytes in hexadecimal that were worked out by hand, and of how a text
//! reaches its writer, whole or cut short.

ghost use Rattle.std.specs.Prelude.{◌<◌, ◌≤◌};

use bson_text::{hex_to, quoted_to};
use std::alloc::Global;
use std::io;
use std::io::Write;

/// Returns true if the text is quoted as these bytes.
fn is_quoted_as(alloc: Global, text: &str, quoted: &str) -> bool {
    let mut out = Vec::new(alloc);
    quoted_to(text, &mut out).is_ok() && out.as_slice() == quoted.as_bytes()
}

const QUOTED: [(&str, &str); 13] = [
    ("", "\"\""),
    ("a.b", "\"a.b\""),
    ("\"", "\"\\\"\""),
    ("\\", "\"\\\\\""),
    ("\x00", "\"\\x00\""),
    ("\x1f", "\"\\x1f\""),
    ("\x7f", "\"\\x7f\""),
    ("\n\t", "\"\\x0a\\x09\""),
    (" ~", "\" ~\""),
    (
        "\u{80}\u{e9}\u{20ac}\u{1f600}",
        "\"\u{80}\u{e9}\u{20ac}\u{1f600}\"",
    ),
    ("run\"and\\run", "\"run\\\"and\\\\run\""),
    ("\x01run\x02", "\"\\x01run\\x02\""),
    (
        "\nabcdefghijklmn\t\"\\abcdefghijklm\x7fabcdefgh",
        "\"\\x0aabcdefghijklmn\\x09\\\"\\\\abcdefghijklm\\x7fabcdefgh\"",
    ),
];

#[test]
fn quotes_text(rt: HostRuntime) {
    for (text, quoted) in &QUOTED {
        assert!(rt; is_quoted_as(rt.alloc(), text, quoted), "at {text:?}");
    }
}

/// Returns true if the text is quoted with one escape, at this offset.
fn has_escape(alloc: Global, text: &str, at: usize) -> bool
    requires { at < 40 }
{
    let mut out = Vec::new(alloc);
    quoted_to(text, &mut out).is_ok()
        && out.len() == text.len() + 3
        && out.get(at + 1) == Some(&b'\\')
}

/// Returns true if a quote at offset `at` of a text of `len` characters is escaped.
fn is_escaped(alloc: Global, at: usize, len: usize) -> bool
    requires inside { at < len }
    requires short { len ≤ 40 }
{
    let mut bytes = [b'~'; 40];
    bytes[at] = b'"';
    match std::str::from_utf8(&bytes[..len]) {
        Ok(text) => has_escape(alloc, text, at),
        Err(_) => false,
    }
}

#[test]
fn finds_an_escape_at_each_offset(rt: HostRuntime) {
    for len in [3, 4, 7, 15, 16, 17, 40] {
        for at in 0..len {
            assert!(rt; is_escaped(rt.alloc(), at, len), "at {at} of {len}");
        }
    }
}

/// Returns true if `hex_to` spells the bytes as `expected`.
fn spells(alloc: Global, bytes: &[u8], expected: &[u8]) -> bool {
    let mut out = Vec::new(alloc);
    hex_to(bytes, &mut out).is_ok() && out.as_slice() == expected
}

/// Returns true if `hex_to` spells the bytes as `hex::encode` does.
fn is_spelled(alloc: Global, bytes: &[u8]) -> bool {
    match hex::encode(alloc, bytes) {
        Ok(expected) => spells(alloc, bytes, expected.as_bytes()),
        Err(_) => false,
    }
}

/// Fills `data` with the numbers from 0 to 250, over and over.
fn count_up(data: &mut [u8; 300]) {
    for (i, byte) in data.iter_mut().enumerate() {
        *byte = (i % 251) as u8;
    }
}

// The counts reach and pass 16, 128 and 256 bytes, whose digits fill the buffers.
#[test]
fn spells_bytes_of_any_number(rt: HostRuntime) {
    let mut data = [0u8; 300];
    count_up(&mut data);
    for count in [0, 1, 16, 17, 128, 129, 256, 257, 300] {
        assert!(rt; is_spelled(rt.alloc(), &data[..count]), "at {count}");
    }
}

/// A writer that counts its calls, and fails after `limit` of them.
#[derive(Drop)]
struct Calls {
    limit: usize,
    count: usize,
}

impl Write for Calls {
    fn write(&mut self, buf: &[u8]) -> io::Result<usize> {
        if self.count >= self.limit {
            return Err(io::Error::from(io::ErrorKind::PermissionDenied));
        }
        self.count += 1;
        Ok(buf.len())
    }

    fn flush(&mut self) -> io::Result<()> {
        Ok(())
    }
}

/// Returns true if a quoted text reaches its writer in one call, and 600 digits in three.
fn takes_few_calls() -> bool {
    let mut calls = Calls { limit: 9, count: 0 };
    quoted_to("two runs\\and an escape", &mut calls).is_ok()
        && calls.count == 1
        // 600 digits: 256, 256 and then the rest.
        && hex_to(&[7; 300], &mut calls).is_ok()
        && calls.count == 4
}

#[test]
fn passes_on_many_parts_by_one_call(rt: HostRuntime) {
    assert!(rt; takes_few_calls());
}

/// Returns true if writing digits to a writer that fails after `limit` calls returns the writer's
/// error.
fn ends_after(limit: usize) -> bool {
    let mut calls = Calls { limit, count: 0 };
    match hex_to(&[7; 300], &mut calls) {
        Ok(()) => false,
        Err(error) => { error.kind() == io::ErrorKind::PermissionDenied && calls.count == limit }
    }
}

#[test]
fn ends_at_a_failed_write(rt: HostRuntime) {
    for limit in 0..2 {
        assert!(rt; ends_after(limit), "after {limit}");
    }
}
