//! What no contract says of `dump`: that reads, writes and allocations which fail end the run as they should, and that the writer is
//! flushed.

use command_run::RunEnd;
use command_run_tests::readers::Broken;
use command_run_tests::writers::Counter;
use file_commands::run_dump;
use std::alloc::{AllocError, Global};
use std::io;
use std::io::{Read, Write};

/// Returns true if a read that fails, with this code of the system, ends the run with nothing written.
fn ends_unwritten(alloc: Global, code: Option<i32>, hex: bool) -> bool {
    let mut reader = Broken { given: false, code };
    let mut writer = Counter::failing_at(0);
    run_dump(alloc, false, hex, &mut reader, &mut writer) == RunEnd::Unread && writer.taken == 0
}

/// A reader that memory is refused to.
#[derive(Drop)]
struct Refused;

impl Read for Refused {
    fn read(&mut self, _buf: &mut [u8]) -> io::Result<usize> {
        Err(io::Error::from(io::ErrorKind::OutOfMemory))
    }
}

#[test]
fn a_read_without_memory_ends_for_want_of_it(rt: HostRuntime) {
    let end = run_dump(
        rt.alloc(),
        false,
        false,
        &mut Refused,
        &mut Counter::failing_at(0),
    );
    assert!(rt; end == RunEnd::OutOfMemory);
}

#[test]
fn a_failed_read_writes_nothing(rt: HostRuntime) {
    for hex in [false, true] {
        assert!(rt; ends_unwritten(rt.alloc(), None, hex), "at {hex}");
        // The code of a read that the system refused where memory runs out.
        assert!(rt; ends_unwritten(rt.alloc(), Some(12), hex), "at {hex}");
    }
}

/// Returns 20,000 documents, whose text has 220,000 bytes: four times the buffer goes to the writer.
fn many_documents(alloc: Global) -> Result<Vec<u8>, AllocError> {
    let mut input = Vec::new(alloc);
    for _ in 0..20_000 {
        input.extend_from_slice(b"\x05\0\0\0\0")?;
    }
    Ok(input)
}

/// Returns true if the run ends with its call of the writer number `fails_at`, which fails.
fn ends_at(alloc: Global, mut input: &[u8], fails_at: u64) -> bool {
    let mut writer = Counter::failing_at(fails_at);
    let end = run_dump(alloc, false, false, &mut input, &mut writer);
    end == RunEnd::InOut && writer.calls == fails_at && writer.flushes == 0
}

/// Returns true if the run writes the whole text in six calls: it flushes behind a piece that a read
/// didn't fill, and at the end.
fn is_flushed(alloc: Global, mut input: &[u8]) -> bool {
    let mut writer = Counter::failing_at(7);
    let end = run_dump(alloc, false, false, &mut input, &mut writer);
    end == RunEnd::Good && writer.calls == 6 && writer.flushes == 2 && writer.taken == 220_000
}

#[test]
fn a_failed_write_ends_the_run(rt: HostRuntime) -> Result<(), AllocError> {
    let input = many_documents(rt.alloc())?;
    for fails_at in 1..6 {
        assert!(rt; ends_at(rt.alloc(), &input, fails_at), "at {fails_at}");
    }
    assert!(rt; is_flushed(rt.alloc(), &input));
    Ok(())
}
