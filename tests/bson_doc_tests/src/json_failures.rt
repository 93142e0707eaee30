//! Writers that fail: each error is the writer's own, and comes after just the bytes that it took.

use bson_json::{Mode, write_json};
use bson_raw::RawDocument;
use std::io;
use std::io::{ErrorKind, Write};

/// A writer that takes `room` bytes and then fails, with an error of a kind that nothing else here
/// makes.
#[derive(Drop)]
struct Short {
    room: usize,
}

impl Write for Short {
    fn write(&mut self, buf: &[u8]) -> io::Result<usize> {
        let taken = buf.len().min(self.room);
        if taken == 0 {
            return Err(io::Error::from(ErrorKind::StorageFull));
        }
        self.room -= taken;
        Ok(taken)
    }

    fn flush(&mut self) -> io::Result<()> {
        Ok(())
    }
}

/// Returns true if the document's JSON fills this room, and the writer's own error is returned.
fn fails_in(document: RawDocument<'_>, room: usize) -> bool {
    let mut out = Short { room };
    match write_json(document, Mode::Canonical, &mut out) {
        Ok(()) => false,
        Err(error) => error.kind() == ErrorKind::StorageFull && out.room == 0,
    }
}

/// Returns true if the document's JSON just fills this room.
fn fits_in(document: RawDocument<'_>, room: usize) -> bool {
    let mut out = Short { room };
    write_json(document, Mode::Canonical, &mut out).is_ok() && out.room == 0
}

#[test]
fn ends_at_a_failed_write(rt: HostRuntime) {
    let bytes = b"\x10\0\0\0\x03v\0\x08\0\0\0\x0aw\0\0\0";
    let Ok(document) = RawDocument::from_bytes(bytes) else {
        assert!(rt; false);
        return;
    };
    // {"v":{"w":null}}
    for room in 0..16 {
        assert!(rt; fails_in(document, room), "at {room}");
    }
    assert!(rt; fits_in(document, 16));
}

// A text that is longer than the buffer before the writer.
#[test]
fn ends_at_a_failed_write_of_a_long_text(rt: HostRuntime) {
    // {"v": a binary of 601 bytes 00}
    let mut bytes = [0; 614];
    (bytes[0], bytes[1], bytes[4], bytes[5]) = (0x66, 2, 5, b'v');
    (bytes[7], bytes[8]) = (0x59, 2);
    let Ok(document) = RawDocument::from_bytes(&bytes) else {
        assert!(rt; false);
        return;
    };
    // The text has 27 + 804 + 19 bytes.
    for room in &[0, 1, 511, 512, 513, 849] {
        assert!(rt; fails_in(document, *room), "at {room}");
    }
    assert!(rt; fits_in(document, 850));
}
